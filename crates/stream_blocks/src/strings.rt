//! Byte and text strings, of definite length or in chunks (RFC 8949, sections 3.1 and 3.2.3).

ghost use Rattle.std.specs.Prelude.{◌≡◌, ◌<◌, ◌≤◌, ◌+◌, ◌-◌, ◌++◌, length, take, drop, IfSome, IfOk};
ghost use Rattle.std.specs.Str.{is_utf8};
ghost use Rattle.stream_blocks.specs.Reading.{Reads, Gives, is_content, counted, piece_at, break_at, chunks_at, chunks_end, string_end, pieces_content, content_of};

use crate::fault::Stop;
use crate::heads::head_at;
use crate::put::put;

/// A string of this major type and of definite length: its content, and the bytes behind it.
#[tactic(auto, unfolding(crate::specs::Reading::piece_at))]
pub(crate) fn piece_at(major: u8, bytes: &[u8]) -> Option<(&[u8], &[u8])>
    ensures value { Reads (λ x. (x.0.now, x.1.now)) result (piece_at major bytes.now) }
    ensures shorter { IfSome result (λ x. length x.0.now + length x.1.now < length bytes.now) }
{
    let (len, rest) = head_at(major, bytes)?;
    counted(major, len, rest)
}

/// As many bytes as the head said.
#[tactic(auto, unfolding(crate::specs::Reading::counted))]
fn counted(major: u8, len: u64, bytes: &[u8]) -> Option<(&[u8], &[u8])>
    ensures value { Reads (λ x. (x.0.now, x.1.now)) result (counted major len bytes.now) }
    ensures within { IfSome result (λ x. length x.0.now + length x.1.now ≤ length bytes.now) }
{
    if (bytes.len() as u64) < len {
        return None;
    }
    let (content, rest) = bytes.split_at(len as usize);
    if !is_content(major, content) {
        return None;
    }
    Some((content, rest))
}

/// Whether a string of this type may hold the bytes: text is UTF-8.
fn is_content(major: u8, content: &[u8]) -> bool
    ensures { result ≡ is_content major content.now }
{
    major != 3 || is_utf8(content)
}

#[tactic(auto, using(crate::proofs::Utf8::in_utf8, crate::proofs::Utf8::not_utf8))]
fn is_utf8(content: &[u8]) -> bool
    ensures { result ≡ is_utf8 content.now }
{
    str::from_utf8(content).is_ok()
}

/// The bytes behind a break, where one stands here (section 3.2.1).
#[tactic(auto, unfolding(crate::specs::Reading::break_at))]
pub(crate) fn break_at(bytes: &[u8]) -> Option<&[u8]>
    ensures value { Reads (λ x. x.now) result (break_at bytes.now) }
    ensures shorter { IfSome result (λ x. length x.now < length bytes.now) }
{
    match bytes {
        [255, rest @ ..] => Some(rest),
        _ => None,
    }
}

/// The bytes behind the first byte of a string in chunks.
#[tactic(auto, unfolding(crate::specs::Reading::chunks_at))]
fn chunks_at(major: u8, bytes: &[u8]) -> Option<&[u8]>
    ensures value { Reads (λ x. x.now) result (chunks_at major bytes.now) }
    ensures shorter { IfSome result (λ x. length x.now < length bytes.now) }
{
    match bytes {
        [first, rest @ ..] if *first / 32 == major && *first % 32 == 31 => Some(rest),
        _ => None,
    }
}

/// The bytes behind a string of this major type.
#[tactic(auto, unfolding(crate::specs::Reading::string_end))]
pub(crate) fn string_end(major: u8, bytes: &[u8]) -> Result<&[u8], Stop>
    ensures value { Gives (λ rest. rest.now) result (string_end major bytes.now) }
    ensures shorter { IfOk result (λ rest. length rest.now < length bytes.now) }
{
    if let Some(chunks) = chunks_at(major, bytes) {
        return chunks_end(major, chunks);
    }
    match piece_at(major, bytes) {
        Some((_, rest)) => Ok(rest),
        None => Err(Stop::Bad { left: bytes.len() }),
    }
}

/// The bytes behind the break that ends these chunks.
fn chunks_end(major: u8, bytes: &[u8]) -> Result<&[u8], Stop>
    ensures value { Gives (λ rest. rest.now) result (chunks_end major (length bytes.now + 1) bytes.now) }
    ensures within { IfOk result (λ rest. length rest.now ≤ length bytes.now) }
{
    let mut rest = bytes;
    'chunks: loop {
        if let Some(behind) = break_at(rest) {
            return Ok(behind);
        }
        match piece_at(major, rest) {
            Some((_, behind)) => rest = behind,
            None => return Err(Stop::Bad { left: rest.len() }),
        }
    }
}

/// How many bytes the byte string holds that these bytes begin.
#[tactic(auto, unfolding(crate::specs::Reading::content_of))]
pub(crate) fn content_len(bytes: &[u8]) -> usize
    ensures { result ≡ length (content_of bytes.now) }
{
    if let Some(chunks) = chunks_at(2, bytes) {
        return pieces_len(chunks);
    }
    match piece_at(2, bytes) {
        Some((content, _)) => content.len(),
        None => 0,
    }
}

fn pieces_len(bytes: &[u8]) -> usize
    ensures { result ≡ length (pieces_content (length bytes.now + 1) bytes.now) }
{
    let mut rest = bytes;
    let mut len = 0;
    'pieces: loop {
        match piece_at(2, rest) {
            Some((content, behind)) => {
                len += content.len();
                rest = behind;
            }
            None => return len,
        }
    }
}

/// Puts what the byte string holds that these bytes begin into the front of `out`. Of `out` all else
/// stays.
#[tactic(auto, unfolding(crate::specs::Reading::content_of))]
pub(crate) fn put_content(out: &mut [u8], bytes: &[u8])
    requires { length (content_of bytes.now) ≤ length out.old }
    ensures { out.new ≡ content_of bytes.now ++ drop (length (content_of bytes.now)) out.old }
{
    if let Some(chunks) = chunks_at(2, bytes) {
        put_pieces(out, chunks);
        return;
    }
    if let Some((content, _)) = piece_at(2, bytes) {
        put(out, 0, content);
    }
}

fn put_pieces(out: &mut [u8], bytes: &[u8])
    requires { length (pieces_content (length bytes.now + 1) bytes.now) ≤ length out.old }
    ensures { out.new ≡ pieces_content (length bytes.now + 1) bytes.now ++ drop (length (pieces_content (length bytes.now + 1) bytes.now)) out.old }
{
    let mut rest = bytes;
    let mut at = 0;
    'pieces: loop {
        match piece_at(2, rest) {
            Some((content, behind)) => {
                at = put(out, at, content);
                rest = behind;
            }
            None => return,
        }
    }
}

/// The bytes from where so many are left.
pub(crate) fn tail(bytes: &[u8], left: usize) -> &[u8]
    ensures { result.now ≡ drop (length bytes.now - left) bytes.now }
{
    bytes.split_at(bytes.len().saturating_sub(left)).1
}
