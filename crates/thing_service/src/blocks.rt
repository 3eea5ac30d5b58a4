//! The blocks of offered images that requests name.

ghost use Rattle.std.specs.Prelude.{◌≡◌, ◌<◌, ◌≤◌, ◌^◌, ◌∷◌, [], Some, ◌+◌, ◌*◌, ◌-◌, ◌++◌, ℕ, List, Bool, map, length, option_map, IfOk, OnOk, find, drop, take, min, true};
ghost use Rattle.std.specs.Int.{div_ceil};
ghost use Rattle.std.specs.List.{flat_map};
ghost use Rattle.std.specs.Option.{option_copied};
ghost use Rattle.stream_blocks.specs.Sets.{bits};
ghost use Rattle.thing_topics.specs.Classes.{is_thing, is_stream};
ghost use Rattle.thing_service.specs.Answers as answering;
ghost use Rattle.thing_service.specs.Blocks as naming;
ghost use Rattle.thing_service.specs.Offers.{is_file_of};

use crate::NoMemory;
use crate::answers::Answers;
use crate::images::message;
use crate::offers::Offer;
use crate::topics::{data_topic, rejected_topic};
use list_types::{Blob, Text};
use std::alloc::Global;
use stream_blocks::{AskBlocks, read_request};

/// What is answered to a payload on the topic of a stream: a data message for each block that it asks
/// for, or a rejection.
pub(crate) fn stream_answers(
    alloc: Global,
    thing: &str,
    offers: &[Offer],
    stream: &str,
    payload: &[u8],
) -> Result<Answers, NoMemory>
    requires thing { is_thing thing.now ≡ true }
    requires stream { is_stream stream.now ≡ true }
    ensures { IfOk result (λ answers. answers ≡ answering.block_answers thing.now stream.now (naming.asked offers.now stream.now payload.now)) }
{
    match asked(offers, stream, payload) {
        Some((offer, request)) => block_answers(alloc, thing, stream, offer, &request),
        None => rejected(alloc, thing, stream),
    }
}

/// The offered file of the stream whose blocks a payload asks for, and the request.
fn asked<'a>(offers: &'a [Offer], stream: &str, payload: &[u8]) -> Option<(&'a Offer, AskBlocks)>
    ensures { option_map (λ x. naming.found_ask x.0.now x.1) result ≡ naming.asked offers.now stream.now payload.now }
{
    let request = read_request(payload).ok()?;
    if !is_block_size(request.size) {
        return None;
    }
    let offer = file_of(offers, stream, request.file)?;
    Some((offer, request))
}

/// A power of two from 256 to 65,536.
fn is_block_size(size: u32) -> bool
    ensures { result ≡ naming.is_block_size size }
{
    256 <= size && size <= 65_536 && size.is_power_of_two()
}

fn file_of<'a>(offers: &'a [Offer], stream: &str, file: u32) -> Option<&'a Offer>
    ensures { option_copied result ≡ find (is_file_of stream.now file) offers.now }
{
    offers.iter().find(|offer| offer.job.stream.as_str() == stream && offer.job.file == file)
}

fn rejected(alloc: Global, thing: &str, stream: &str) -> Result<Answers, NoMemory>
    requires thing { is_thing thing.now ≡ true }
    requires stream { is_stream stream.now ≡ true }
    ensures { IfOk result (λ answers. answers ≡ answering.rejected thing.now stream.now) }
{
    let topic = rejected_topic(alloc, thing, stream)?;
    // An empty map (RFC 8949, section 3.1).
    let payload = Blob::from_vec(Vec::from_slice(alloc, [0xa0].as_slice())?);
    one_answer(alloc, topic, payload)
}

/// A list of one answer.
pub(crate) fn one_answer(alloc: Global, topic: Text, payload: Blob) -> Result<Answers, NoMemory>
    ensures { IfOk result (λ answers. answers ≡ (topic, payload) ∷ []) }
{
    let mut answers = Answers::new(alloc);
    answers.push((topic, payload))?;
    Ok(answers)
}

#[tactic(auto, using(crate::proofs::Bytes::mapped_more))]
fn block_answers(
    alloc: Global,
    thing: &str,
    stream: &str,
    offer: &Offer,
    request: &AskBlocks,
) -> Result<Answers, NoMemory>
    requires thing { is_thing thing.now ≡ true }
    requires stream { is_stream stream.now ≡ true }
    requires size { 0 < request.now.size }
    ensures { IfOk result (λ answers. answers ≡ answering.block_answers thing.now stream.now (Some (naming.found_ask offer.now request.now))) }
{
    let mut answers = Answers::new(alloc);
    let found = wanted(alloc, request, offer.job.size.div_ceil(request.size))?;
    for index in found.as_slice() {
        let topic = data_topic(alloc, thing, stream)?;
        answers.push((topic, block(alloc, offer, request.size, *index)?))?;
    }
    Ok(answers)
}

/// The data message of a block of an offered file.
fn block(alloc: Global, offer: &Offer, size: u32, index: u32) -> Result<Blob, NoMemory>
    ensures { IfOk result (λ message. message ≡ naming.message offer.now size index) }
{
    let at = size as u64 * index as u64;
    let left = (offer.job.size as u64).saturating_sub(at);
    message(
        alloc,
        offer.job.file,
        index,
        offer.seed,
        at,
        left.min(size as u64) as usize,
    )
}

/// The blocks of a file of so many that a request names, as many as it asks for.
fn wanted(alloc: Global, request: &AskBlocks, blocks: u32) -> Result<Vec<u32>, NoMemory>
    ensures { IfOk result (λ found. found.items ≡ naming.wanted request.now.number blocks request.now.offset request.now.map.items) }
{
    let mut found = Vec::new(alloc);
    let mut at = request.offset as u64;
    for byte in request.map.as_slice() {
        take_named(&mut found, *byte, at, blocks, request.number)?;
        at += 8;
    }
    Ok(found)
}

/// Takes the blocks that a byte of the bitmap names, of which the first bit stands for block `at`, while fewer than
/// `number` were taken.
fn take_named(
    found: &mut Vec<u32>,
    byte: u8,
    at: u64,
    blocks: u32,
    number: u32,
) -> Result<(), NoMemory>
    requires { at ≤ 2 ^ 33 }
    ensures { OnOk result ((rest : List Bool) → naming.more number blocks (at + 8) found.new.items rest ≡ naming.more number blocks at found.old.items (bits 8 byte ++ rest)) }
{
    let mut left = byte;
    for bit in 0..8 {
        take_one(found, left % 2 == 1, at + bit, blocks, number)?;
        left /= 2;
    }
    Ok(())
}

/// Takes a block that is named, exists and has room.
#[tactic(auto, using(crate::proofs::Naming::more_taken, crate::proofs::Naming::more_full, crate::proofs::Naming::more_beyond, crate::proofs::Naming::more_unset))]
fn take_one(
    found: &mut Vec<u32>,
    is_named: bool,
    at: u64,
    blocks: u32,
    number: u32,
) -> Result<(), NoMemory>
    ensures { OnOk result ((rest : List Bool) → naming.more number blocks (at + 1) found.new.items rest ≡ naming.more number blocks at found.old.items (is_named ∷ rest)) }
{
    if is_named && at < blocks as u64 && found.len() < number as usize {
        found.push(at as u32)?;
    }
    Ok(())
}
