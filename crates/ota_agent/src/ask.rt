//! The request for the blocks that are missing.

ghost use Rattle.std.specs.Prelude.{◌≡◌, ℕ, ◌+◌, ◌*◌, ◌^◌, ◌<◌, ◌≤◌, length, get_or, false, min, option_map, IfSome};
ghost use Rattle.stream_blocks.specs.Sets.{bits, count, first};
ghost use Rattle.ota_agent.specs.Requests.{window, bytes_for, map_flags};

use arrayvec::ArrayVec;
use stream_blocks::{AskBlocks, Missing};

/// How many blocks a request can name.
const WINDOW: u32 = 256;

/// How many blocks are asked for at once.
const AT_ONCE: u32 = 16;

/// The request for the blocks of a file that are missing, in blocks of `block` bytes. `None` where none is.
/// Its bitmap begins at the first missing block and names each missing one of 256, and it asks for the
/// first 16 of those.
pub fn next_ask<const WORDS: usize>(m: &Missing<WORDS>, file: u32, block: u32) -> Option<AskBlocks>
    ensures offset { option_map (λ a. a.offset) result ≡ first m.now }
    ensures file { IfSome result (λ a. a.file ≡ file) }
    ensures size { IfSome result (λ a. a.size ≡ block) }
    ensures map_len { IfSome result (λ a. length a.map.items ≡ bytes_for (length (window a.offset m.now))) }
    ensures map { IfSome result (λ a. (j : ℕ) → get_or (map_flags a.map.items) j false ≡ get_or (window a.offset m.now) j false) }
    ensures number { IfSome result (λ a. a.number ≡ min 16 (count (window a.offset m.now))) }
{
    let offset = m.first_missing()?;
    let mut map = ArrayVec::new();
    let mut number = 0;
    for place in 0..window_len(m, offset).div_ceil(8) {
        let byte = map_byte(m, offset, place);
        number += byte.count_ones();
        map.push(byte);
    }
    Some(AskBlocks {
        file,
        size: block,
        offset,
        number: number.min(AT_ONCE),
        map,
    })
}

/// A byte of the bitmap that begins at a block.
fn map_byte<const WORDS: usize>(m: &Missing<WORDS>, offset: u32, place: u32) -> u8
    requires from { offset ≤ length m.now }
    requires place { place < 32 }
    ensures { (j : ℕ) → j < 8 → get_or (bits 8 result) j false ≡ get_or (window offset m.now) (8 * place + j) false }
{
    let mut byte = 0;
    for taken in 0..8 {
        let flag = is_asked(m, offset, 8 * place + 7 - taken);
        byte = 2 * byte + flag as u8;
    }
    byte
}

/// Whether a request from a block on names the block that stands `j` behind it.
fn is_asked<const WORDS: usize>(m: &Missing<WORDS>, offset: u32, j: u32) -> bool
    requires { offset ≤ length m.now }
    ensures { result ≡ get_or (window offset m.now) j false }
{
    j < window_len(m, offset) && m.is_missing(offset + j)
}

/// How many blocks a request from a block on can name.
fn window_len<const WORDS: usize>(m: &Missing<WORDS>, offset: u32) -> u32
    requires { offset ≤ length m.now }
    ensures len { result ≡ length (window offset m.now) }
    ensures most { result ≤ 256 }
    ensures fits { offset + result < 2 ^ 32 }
{
    WINDOW.min(m.blocks() - offset)
}
