//! Data messages: a block of a file.

ghost use Rattle.std.specs.Prelude.{◌≡◌, ℕ, ◌≤◌, ◌<◌, ◌↔◌, ◌+◌, ◌++◌, ◌^◌, length, take, drop, IsErr, IfOk, IfErr, OnOk, OnErr};
ghost use Rattle.stream_blocks.specs.Reading.{Gives, block_of, content_at, needed};
ghost use Rattle.stream_blocks.specs.Spelling as spelling;

use crate::fault::{CborFault, TooSmall};
use crate::keys::{Form, Key, needed};
use crate::map::found_in;
use crate::put::{put, put_head, put_key, put_number};
use crate::strings::{content_len, put_content, tail};

/// What a data message says of its block.
#[derive(Clone, Copy, Debug, PartialEq, Eq)]
pub struct Head {
    pub file: u64,
    pub index: u64,
    /// The length of the payload. What the message says of it under `l` isn't compared.
    pub len: usize,
}

/// Reads a data message. Its payload then stands in the front of `out`, and what is behind stays.
///
/// # Errors
/// Any [`CborFault`]; `TooBig` where the payload is longer than `out`. `out` is then unchanged.
#[tactic(auto, unfolding(crate::specs::Reading::block_of))]
pub fn read_block(message: &[u8], out: &mut [u8]) -> Result<Head, CborFault>
    ensures exact { Gives (λ head. (head.file, head.index, take head.len out.new)) result (block_of (length out.old) message.now) }
    ensures len { IfOk result (λ head. head.len ≤ length out.old) }
    ensures behind { IfOk result (λ head. out.new ≡ take head.len out.new ++ drop head.len out.old) }
    ensures same { OnErr result (out.new ≡ out.old) }
{
    let fields = found_in(Form::Block, message)?;
    let file = needed(Key::File, fields.file)?;
    let index = needed(Key::Index, fields.index)?;
    needed(Key::Size, fields.size)?;
    let payload = tail(message, needed(Key::Payload, fields.payload)?);
    let len = content_len(payload);
    if len > out.len() {
        return Err(CborFault::TooBig {
            key: Key::Payload.letter(),
        });
    }
    put_content(out, payload);
    Ok(Head { file, index, len })
}

/// Writes a data message into the front of `out`, and answers how many bytes it has. What is behind
/// stays.
///
/// # Errors
/// [`TooSmall`] exactly where `out` is shorter than the message; `out` is then unchanged.
pub fn write_block(file: u32, index: u32, payload: &[u8], out: &mut [u8]) -> Result<usize, TooSmall>
    ensures count { IfOk result (λ n. n ≡ length (spelling.block file index payload.now)) }
    ensures text { OnOk result (out.new ≡ spelling.block file index payload.now ++ drop (length (spelling.block file index payload.now)) out.old) }
    ensures too_small { IsErr result ↔ (length out.old < length (spelling.block file index payload.now)) }
    ensures needed { IfErr result (λ e. e.needed ≡ length (spelling.block file index payload.now)) }
    ensures same { OnErr result (out.new ≡ out.old) }
{
    // The longest front has 37 bytes.
    let mut front = [0; 64];
    let end = put_front(front.as_mut_slice(), file, index, payload.len());
    let needed = end + payload.len();
    if out.len() < needed {
        return Err(TooSmall { needed });
    }
    let at = put(out, 0, &front[..end]);
    Ok(put(out, at, payload))
}

fn put_front(out: &mut [u8], file: u32, index: u32, len: usize) -> usize
    requires room { 64 ≤ length out.old }
    ensures end { result ≡ length (spelling.block_front file index len) }
    ensures most { result ≤ 64 }
    ensures len { length out.new ≡ length out.old }
    ensures front { take result out.new ≡ spelling.block_front file index len }
{
    let at = put_head(out, 0, 5, 4);
    let at = put_number(out, at, b'f', file as u64);
    let at = put_number(out, at, b'i', index as u64);
    let at = put_number(out, at, b'l', len as u64);
    let at = put_key(out, at, b'p');
    put_head(out, at, 2, len as u64)
}
