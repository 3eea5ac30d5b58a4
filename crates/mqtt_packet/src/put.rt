//! Bytes, numbers and strings, put into a buffer (MQTT 3.1.1, sections 1.5 and 2.2.3). Each call puts them
//! at `at` and answers where they end. Of the buffer up to there all else stays.

ghost use Rattle.std.specs.Prelude.{◌≡◌, ◌+◌, ◌%◌, ◌<◌, ◌≤◌, ◌++◌, length, take};
ghost use Rattle.mqtt_packet.specs.Spelling as spelling;

use list_types::{Blob, Text};

pub(crate) fn put(out: &mut [u8], at: usize, bytes: &[u8]) -> usize
    requires { at + length bytes.now ≤ length out.old }
    ensures end { result ≡ at + length bytes.now }
    ensures len { length out.new ≡ length out.old }
    ensures front { take result out.new ≡ take at out.old ++ bytes.now }
{
    let end = at + bytes.len();
    out[at..end].copy_from_slice(bytes);
    end
}

pub(crate) fn put_number(out: &mut [u8], at: usize, number: u16) -> usize
    requires { at + 2 ≤ length out.old }
    ensures end { result ≡ at + 2 }
    ensures len { length out.new ≡ length out.old }
    ensures front { take result out.new ≡ take at out.old ++ spelling.number number }
{
    put(out, at, number.to_be_bytes().as_slice())
}

pub(crate) fn put_string(out: &mut [u8], at: usize, text: &Text) -> usize
    requires short { length text.now < 65536 }
    requires room { at + 2 + length text.now ≤ length out.old }
    ensures end { result ≡ at + 2 + length text.now }
    ensures len { length out.new ≡ length out.old }
    ensures front { take result out.new ≡ take at out.old ++ spelling.string text.now }
{
    let at = put_number(out, at, text.len() as u16);
    put(out, at, text.as_bytes())
}

pub(crate) fn put_data(out: &mut [u8], at: usize, content: &Blob) -> usize
    requires short { length content.now < 65536 }
    requires room { at + 2 + length content.now ≤ length out.old }
    ensures end { result ≡ at + 2 + length content.now }
    ensures len { length out.new ≡ length out.old }
    ensures front { take result out.new ≡ take at out.old ++ spelling.string content.now }
{
    let at = put_number(out, at, content.len() as u16);
    put(out, at, content.as_slice())
}

#[tactic(auto, unfolding(crate::specs::Spelling::groups))]
pub(crate) fn put_remaining(out: &mut [u8], at: usize, len: usize) -> usize
    requires small { len < 268435456 }
    requires room { at + length (spelling.remaining len) ≤ length out.old }
    ensures end { result ≡ at + length (spelling.remaining len) }
    ensures len { length out.new ≡ length out.old }
    ensures front { take result out.new ≡ take at out.old ++ spelling.remaining len }
{
    if len < 128 {
        put(out, at, [len as u8].as_slice())
    } else if len < 16_384 {
        put(out, at, [group(len), (len / 128) as u8].as_slice())
    } else if len < 2_097_152 {
        put(
            out,
            at,
            [group(len), group(len / 128), (len / 128 / 128) as u8].as_slice(),
        )
    } else {
        put(
            out,
            at,
            [
                group(len),
                group(len / 128),
                group(len / 128 / 128),
                (len / 128 / 128 / 128) as u8,
            ]
            .as_slice(),
        )
    }
}

/// The low seven bits, and the sign that another group follows.
fn group(len: usize) -> u8
    ensures { result ≡ len % 128 + 128 }
{
    (len % 128) as u8 + 128
}
