//! Payloads as one word.

ghost use Rattle.plain_text.specs.Payloads as payloads;
ghost use Rattle.plain_text.specs.Reading.{Gives};

use crate::refusal::Refusal;
use hex::FromHexError;
use list_types::Blob;
use std::alloc::Global;

/// The payload that a word stands for: `-` for the empty one, else pairs of hexadecimal digits.
#[tactic(auto, unfolding(crate::specs::Payloads::payload_of))]
pub fn payload_of(alloc: Global, word: &[u8]) -> Result<Blob, Refusal>
    ensures { Gives (λ payload. payload) result (payloads.payload_of word.now) }
{
    if word == b"-".as_slice() {
        return Ok(Blob::new(alloc));
    }
    if word.is_empty() {
        return Err(Refusal::Bad);
    }
    match hex::decode(alloc, word) {
        Ok(bytes) => Ok(Blob::from_vec(bytes)),
        Err(FromHexError::OutOfMemory) => Err(Refusal::NoMemory),
        Err(_) => Err(Refusal::Bad),
    }
}
