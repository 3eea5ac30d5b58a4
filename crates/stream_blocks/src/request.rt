//! Requests: which blocks of a file are asked for.

ghost use Rattle.std.specs.Prelude.{◌≡◌, ◌≤◌, ◌<◌, ◌↔◌, ◌+◌, ◌++◌, length, take, drop, IsErr, IfOk, IfErr, OnOk, OnErr};
ghost use Rattle.stream_blocks.specs.Reading.{Gives, request_of, asked_of, content_of, narrow, short};
ghost use Rattle.stream_blocks.specs.declared.keys.Key.TheVariants as k;
ghost use Rattle.stream_blocks.specs.Spelling as spelling;

use crate::fault::{CborFault, TooSmall};
use crate::fields::BITMAP_LIMIT;
use crate::keys::{Form, Key, needed};
use crate::map::found_in;
use crate::put::{put, put_bytes, put_head, put_number, put_token};
use crate::strings::{content_len, put_content, tail};
use arrayvec::ArrayVec;

/// A request for blocks of a file.
#[derive(Clone, Debug, Drop, PartialEq, Eq)]
pub struct AskBlocks {
    pub file: u32,
    /// The size of a block in bytes.
    pub size: u32,
    /// The block that the bitmap's first bit stands for.
    pub offset: u32,
    /// How many blocks are asked for.
    pub number: u32,
    /// Bit j mod 8, lowest first, of byte j div 8 is 1 where block `offset` + j is asked for.
    pub map: ArrayVec<u8, 32>,
}

/// Reads a request.
///
/// # Errors
/// Any [`CborFault`]; `TooBig` where a number is above 4,294,967,295 or the bitmap has more than 32 bytes.
#[tactic(auto, unfolding(crate::specs::Reading::request_of))]
pub fn read_request(message: &[u8]) -> Result<AskBlocks, CborFault>
    ensures { Gives (λ a. (a.file, a.size, a.offset, a.number, a.map.items)) result (request_of message.now) }
{
    let fields = found_in(Form::Request, message)?;
    let file = needed(Key::File, fields.file)?;
    let size = needed(Key::Size, fields.size)?;
    let offset = needed(Key::Offset, fields.offset)?;
    let number = needed(Key::Count, fields.count)?;
    let bitmap = tail(message, needed(Key::Bitmap, fields.bitmap)?);
    if let Some(key) = fields.too_big {
        return Err(CborFault::TooBig { key });
    }
    ask_of(file, size, offset, number, bitmap)
}

/// The request with these numbers and the bitmap that these bytes begin.
#[tactic(auto, unfolding(crate::specs::Reading::asked_of))]
fn ask_of(
    file: u64,
    size: u64,
    offset: u64,
    number: u64,
    bitmap: &[u8],
) -> Result<AskBlocks, CborFault>
    ensures { Gives (λ a. (a.file, a.size, a.offset, a.number, a.map.items)) result (asked_of file size offset number (content_of bitmap.now)) }
{
    Ok(AskBlocks {
        file: narrow(Key::File, file)?,
        size: narrow(Key::Size, size)?,
        offset: narrow(Key::Offset, offset)?,
        number: narrow(Key::Count, number)?,
        map: bitmap_of(bitmap)?,
    })
}

fn narrow(key: Key, number: u64) -> Result<u32, CborFault>
    ensures { Gives (λ n. n) result (narrow key number) }
{
    if number > u32::MAX as u64 {
        return Err(CborFault::TooBig { key: key.letter() });
    }
    Ok(number as u32)
}

/// What the byte string holds that these bytes begin.
fn bitmap_of(bytes: &[u8]) -> Result<ArrayVec<u8, 32>, CborFault>
    ensures { Gives (λ map. map.items) result (short k.Bitmap (content_of bytes.now)) }
{
    let len = content_len(bytes);
    if len > BITMAP_LIMIT {
        return Err(CborFault::TooBig {
            key: Key::Bitmap.letter(),
        });
    }
    let mut content = [0; BITMAP_LIMIT];
    put_content(content.as_mut_slice(), bytes);
    let mut map = ArrayVec::from(content);
    map.truncate(len);
    Ok(map)
}

/// Writes a request into the front of `out`, with the client token `fetch`, and answers how many bytes
/// it has. What is behind stays.
///
/// # Errors
/// [`TooSmall`] exactly where `out` is shorter than the request; `out` is then unchanged.
pub fn write_request(a: &AskBlocks, out: &mut [u8]) -> Result<usize, TooSmall>
    ensures count { IfOk result (λ n. n ≡ length (spelling.request a.now.file a.now.size a.now.offset a.now.number a.now.map.items)) }
    ensures text { OnOk result (out.new ≡ spelling.request a.now.file a.now.size a.now.offset a.now.number a.now.map.items
        ++ drop (length (spelling.request a.now.file a.now.size a.now.offset a.now.number a.now.map.items)) out.old) }
    ensures too_small { IsErr result ↔ (length out.old < length (spelling.request a.now.file a.now.size a.now.offset a.now.number a.now.map.items)) }
    ensures needed { IfErr result (λ e. e.needed ≡ length (spelling.request a.now.file a.now.size a.now.offset a.now.number a.now.map.items)) }
    ensures same { OnErr result (out.new ≡ out.old) }
{
    // The longest request has 73 bytes.
    let mut text = [0; 128];
    let needed = put_request(
        text.as_mut_slice(),
        a.file,
        a.size,
        a.offset,
        a.number,
        a.map.as_slice(),
    );
    if out.len() < needed {
        return Err(TooSmall { needed });
    }
    Ok(put(out, 0, &text[..needed]))
}

fn put_request(out: &mut [u8], file: u32, size: u32, offset: u32, number: u32, map: &[u8]) -> usize
    requires short { length map.now ≤ 32 }
    requires room { 128 ≤ length out.old }
    ensures end { result ≡ length (spelling.request file size offset number map.now) }
    ensures most { result ≤ 128 }
    ensures len { length out.new ≡ length out.old }
    ensures front { take result out.new ≡ spelling.request file size offset number map.now }
{
    let at = put_head(out, 0, 5, 6);
    let at = put_token(out, at);
    let at = put_number(out, at, b'f', file as u64);
    let at = put_number(out, at, b'l', size as u64);
    let at = put_number(out, at, b'o', offset as u64);
    let at = put_bytes(out, at, b'b', map);
    put_number(out, at, b'n', number as u64)
}
