//! A text with its length before it, as a slot holds it.

ghost use Rattle.std.specs.Prelude.{◌≡◌, ◌+◌, ◌≤◌, ◌<◌, ◌^◌, length, take, drop, IfSome};
ghost use Rattle.std.specs.Option.{option_map};
ghost use Rattle.disk_slots.specs.Slots.{framed, text_in};

use crate::bytes::put;

/// Puts a text with its length before it into the front of a frame.
pub fn put_text(frame: &mut Vec<u8>, text: &[u8])
    requires { (4 + length text.now ≤ length frame.old.items) × (length frame.old.items < 2 ^ 32) }
    ensures front { take (4 + length text.now) frame.new.items ≡ framed text.now }
    ensures len { length frame.new.items ≡ length frame.old.items }
{
    let len = text.len() as u32;
    put(frame, 0, &len.to_be_bytes());
    put(frame, 4, text);
}

/// How long the text of a frame is, where the length before it is one that fits.
pub fn text_len(frame: &[u8]) -> Option<usize>
    requires { (4 ≤ length frame.now) × (length frame.now < 2 ^ 32) }
    ensures text { text_in (length frame.now) frame.now ≡ option_map (λ len. take len (drop 4 frame.now)) result }
    ensures fits { IfSome result (λ len. 4 + len ≤ length frame.now) }
{
    let len = u32::from_be_bytes([frame[0], frame[1], frame[2], frame[3]]) as usize;
    if len <= frame.len() - 4 {
        Some(len)
    } else {
        None
    }
}
