//! What a crash leaves of the bytes of a disk over memory.

ghost use Rattle.std.specs.Prelude.{◌≡◌, ◌<◌, ◌^◌, ◌∷◌, [], length, false, get_or};
ghost use Rattle.disk_slots.specs.Disks.{overwritten};
ghost use Rattle.disk_slots.specs.Memory.{picked, crashed};

use crate::bytes::put;

/// Each marked byte becomes what `pick` says.
pub fn pick_all(bytes: &mut Vec<u8>, marks: &Vec<bool>, pick: u64)
    requires { (length marks.now.items ≡ length bytes.old.items) × (length bytes.old.items < 2 ^ 32) }
    ensures { bytes.new.items ≡ crashed pick 0 marks.now.items bytes.old.items }
{
    let mut i = 0;
    while i < bytes.len() {
        pick_at(bytes, marks, pick, i);
        i += 1;
    }
}

fn pick_at(bytes: &mut Vec<u8>, marks: &Vec<bool>, pick: u64, i: usize)
    requires { (i < length bytes.old.items) × (length marks.now.items ≡ length bytes.old.items) × (length bytes.old.items < 2 ^ 32) }
    ensures { bytes.new.items ≡ overwritten i (picked pick i (get_or marks.now.items i false) (get_or bytes.old.items i 0) ∷ []) bytes.old.items }
{
    let byte = pick_byte(bytes[i], marks[i], pick, i as u64);
    put(bytes, i, &[byte]);
}

fn pick_byte(byte: u8, mark: bool, pick: u64, i: u64) -> u8
    requires { i < 2 ^ 32 }
    ensures { result ≡ picked pick i mark byte }
{
    if mark && pick % 2 == 1 {
        ((pick / 2 + i) % 256) as u8
    } else {
        byte
    }
}
