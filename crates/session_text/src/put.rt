//! Bytes, numbers and texts, put into a buffer at a place. Each call answers where they end.

ghost use Rattle.std.specs.Prelude.{◌≡◌, ◌≤◌, ◌<◌, ◌∷◌, [], length};
ghost use Rattle.mqtt_packet.specs.Spelling.{remaining, string};
ghost use Rattle.session_text.specs.Spelling.{Puts, byte, flag, number16, number32, number64};

use crate::fault::TooSmall;
use list_types::Text;

pub(crate) fn put(out: &mut [u8], at: usize, bytes: &[u8]) -> Result<usize, TooSmall>
    requires { at ≤ length out.old }
    ensures { Puts bytes.now at out.old out.new result }
{
    let end = at + bytes.len();
    if end > out.len() {
        return Err(TooSmall);
    }
    out[at..end].copy_from_slice(bytes);
    Ok(end)
}

#[tactic(auto, unfolding(crate::specs::Spelling::byte))]
pub(crate) fn put_byte(out: &mut [u8], at: usize, number: u8) -> Result<usize, TooSmall>
    requires { at ≤ length out.old }
    ensures { Puts (byte number) at out.old out.new result }
{
    put(out, at, [number].as_slice())
}

#[tactic(auto, unfolding(crate::specs::Spelling::flag))]
pub(crate) fn put_flag(out: &mut [u8], at: usize, value: bool) -> Result<usize, TooSmall>
    requires { at ≤ length out.old }
    ensures { Puts (flag value) at out.old out.new result }
{
    put(out, at, [u8::from(value)].as_slice())
}

pub(crate) fn put_u16(out: &mut [u8], at: usize, number: u16) -> Result<usize, TooSmall>
    requires { at ≤ length out.old }
    ensures { Puts (number16 number) at out.old out.new result }
{
    put(out, at, number.to_be_bytes().as_slice())
}

#[tactic(auto, unfolding(crate::specs::Spelling::number32))]
pub(crate) fn put_u32(out: &mut [u8], at: usize, number: u32) -> Result<usize, TooSmall>
    requires { at ≤ length out.old }
    ensures { Puts (number32 number) at out.old out.new result }
{
    put(out, at, number.to_be_bytes().as_slice())
}

#[tactic(auto, unfolding(crate::specs::Spelling::number64))]
pub(crate) fn put_u64(out: &mut [u8], at: usize, number: u64) -> Result<usize, TooSmall>
    requires { at ≤ length out.old }
    ensures { Puts (number64 number) at out.old out.new result }
{
    put(out, at, number.to_be_bytes().as_slice())
}

/// A text behind its length (MQTT 3.1.1, section 1.5.3).
#[tactic(auto, using(crate::proofs::Putting::puts_stop, crate::proofs::Putting::puts_then))]
pub(crate) fn put_text(out: &mut [u8], at: usize, text: &Text) -> Result<usize, TooSmall>
    requires at { at ≤ length out.old }
    requires short { length text.now < 65536 }
    ensures { Puts (string text.now) at out.old out.new result }
{
    let at = put_u16(out, at, text.len() as u16)?;
    put(out, at, text.as_bytes())
}
