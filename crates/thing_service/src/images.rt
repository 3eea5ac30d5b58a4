//! The images of offered jobs: their digests, and their blocks.

ghost use Rattle.std.specs.Prelude.{◌≡◌, ◌<◌, ◌≤◌, ◌*◌, ◌-◌, length, min, IfOk};
ghost use Rattle.sha2.specs.Sha256.{sha256};
ghost use Rattle.stream_blocks.specs.Spelling as spelling;
ghost use Rattle.thing_service.specs.Generator.{bytes, image};

use crate::NoMemory;
use crate::generator::fill;
use list_types::Blob;
use sha2::{Digest, Sha256};
use std::alloc::Global;
use stream_blocks::write_block;

/// How many bytes are made at once.
const PIECE: usize = 4096;

/// The digest of an image of so many bytes (FIPS 180-4).
pub(crate) fn digest_of(seed: u64, size: u32) -> [u8; 32]
    ensures { result ≡ sha256 (image seed size) }
{
    let mut hasher = Sha256::new();
    let mut piece = [0; PIECE];
    let mut at = 0;
    while at < size {
        let count = (size - at).min(PIECE as u32);
        fill(&mut piece[..count as usize], seed, at as u64);
        hasher.update(&piece[..count as usize]);
        at += count;
    }
    hasher.finalize()
}

/// The data message of a block of a file: of so many bytes of the image from byte `at` on.
pub(crate) fn message(
    alloc: Global,
    file: u32,
    index: u32,
    seed: u64,
    at: u64,
    len: usize,
) -> Result<Blob, NoMemory>
    ensures { IfOk result (λ message. message ≡ spelling.block file index (bytes seed at len)) }
{
    let mut payload = Vec::from_elem(alloc, 0, len)?;
    fill(payload.as_mut_slice(), seed, at);
    let mut message = Vec::from_elem(alloc, 0, message_len(file, index, payload.as_slice()))?;
    // The message has room.
    let _written = write_block(file, index, payload.as_slice(), message.as_mut_slice());
    Ok(Blob::from_vec(message))
}

/// How long a data message is: what an empty buffer lacks.
fn message_len(file: u32, index: u32, payload: &[u8]) -> usize
    ensures { result ≡ length (spelling.block file index payload.now) }
{
    match write_block(file, index, payload, &mut []) {
        Ok(len) => len,
        Err(fault) => fault.needed,
    }
}
