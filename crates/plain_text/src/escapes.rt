//! Texts as one word, read back from their escapes.

ghost use Rattle.std.specs.Prelude.{◌≡◌, ◌<◌, ◌≤◌, length, take, slice_index, false, IfSome, IsNone, None};
ghost use Rattle.plain_text.specs.Escapes as escapes;
ghost use Rattle.plain_text.specs.Reading.{Gives};

use crate::refusal::Refusal;
use list_types::Text;
use std::alloc::Global;

/// The text that a word stands for, each `%` and its two upper-case hexadecimal digits read as a
/// byte.
#[tactic(auto, unfolding(crate::specs::Escapes::text_of))]
pub fn text_of(alloc: Global, word: &[u8]) -> Result<Text, Refusal>
    ensures { Gives (λ text. text) result (escapes.text_of word.now) }
{
    let bytes = bytes_of(alloc, word)?;
    match Text::from_utf8(bytes) {
        Some(text) => Ok(text),
        None => Err(Refusal::Bad),
    }
}

/// How many bytes at the front stand for themselves.
#[tactic(auto, using(crate::proofs::Escaping::run_on, crate::proofs::Escaping::run_none))]
pub fn plain_len(text: &[u8]) -> usize
    ensures within { result ≤ length text.now }
    ensures plain { escapes.escaped (take result text.now) ≡ take result text.now }
    ensures all { result < length text.now → escapes.is_plain (slice_index text.now result) ≡ false }
{
    let mut run = 0;
    while run < text.len() && is_plain(text[run]) {
        run += 1;
    }
    run
}

/// How a byte is written that doesn't stand for itself.
pub fn escape(byte: u8) -> [u8; 3]
    requires { escapes.is_plain byte ≡ false }
    ensures { result ≡ escapes.escaped_byte byte }
{
    [b'%', digit_of(byte / 16), digit_of(byte % 16)]
}

fn digit_of(value: u8) -> u8
    requires { value < 16 }
    ensures { result ≡ escapes.digit_of value }
{
    if value < 10 {
        b'0' + value
    } else {
        b'A' - 10 + value
    }
}

fn bytes_of(alloc: Global, word: &[u8]) -> Result<Vec<u8>, Refusal>
    ensures { Gives (λ bytes. bytes.items) result (escapes.bytes_of word.now) }
{
    let mut bytes = Vec::with_capacity(alloc, word.len())?;
    let mut rest = word;
    'bytes: while !rest.is_empty() {
        match byte_at(rest) {
            Some((byte, behind)) => {
                bytes.push(byte)?;
                rest = behind;
            }
            None => return Err(Refusal::Bad),
        }
    }
    Ok(bytes)
}

/// The first byte that a word stands for, and the word behind it.
#[tactic(auto, unfolding(crate::specs::Escapes::bytes_in))]
fn byte_at(word: &[u8]) -> Option<(u8, &[u8])>
    requires { 0 < length word.now }
    ensures some { IfSome result (λ x. escapes.bytes_of word.now ≡ escapes.onto x.0 (escapes.bytes_of x.1.now)) }
    ensures none { IsNone result → escapes.bytes_of word.now ≡ None }
    ensures shorter { IfSome result (λ x. length x.1.now < length word.now) }
{
    match word {
        [b'%', high, low, rest @ ..] => Some((16 * value_of(*high)? + value_of(*low)?, rest)),
        [b'%', ..] => None,
        [byte, rest @ ..] if is_plain(*byte) => Some((*byte, rest)),
        _ => None,
    }
}

fn is_plain(byte: u8) -> bool
    ensures { result ≡ escapes.is_plain byte }
{
    33 <= byte && byte <= 126 && byte != b'%'
}

/// What an upper-case hexadecimal digit stands for.
fn value_of(digit: u8) -> Option<u8>
    ensures value { result ≡ escapes.value_of digit }
    ensures small { IfSome result (λ value. value < 16) }
{
    match digit {
        b'0'..=b'9' => Some(digit - b'0'),
        b'A'..=b'F' => Some(digit - 55),
        _ => None,
    }
}
