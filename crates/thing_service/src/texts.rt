//! The lines of a service's text.

ghost use Rattle.std.specs.Prelude.{◌≡◌, true, IfOk};
ghost use Rattle.thing_topics.specs.Classes.{is_thing};
ghost use Rattle.thing_service.specs.Offers.{IsOffered};
ghost use Rattle.std.specs.Option.{option_map};
ghost use Rattle.plain_text.specs.Reading.{Gives};
ghost use Rattle.thing_service.specs.ServiceTexts as texts;

use crate::images::digest_of;
use crate::offers::{Offer, is_repeat};
use device_docs::Job;
use list_types::Text;
use plain_text::{Refusal, last_at, number_in, text_of, word_at};
use std::alloc::Global;
use thing_topics::is_thing;

/// The most bytes that an image may have.
const MOST_SIZE: u64 = 16_777_216;

/// `thing` T.
#[tactic(auto, unfolding(crate::specs::ServiceTexts::thing_of))]
pub(crate) fn thing_of(alloc: Global, line: &[u8]) -> Result<Text, Refusal>
    ensures value { Gives (λ thing. thing) result (texts.thing_of line.now) }
    ensures thing { IfOk result (λ thing. is_thing thing ≡ true) }
{
    let (verb, rest) = word_at(line).ok_or(Refusal::Bad)?;
    if verb != b"thing".as_slice() {
        return Err(Refusal::Bad);
    }
    let word = last_at(rest).ok_or(Refusal::Bad)?;
    thing_in(alloc, word)
}

#[tactic(auto, using(stream_blocks::proofs::Utf8::not_utf8, stream_blocks::proofs::Utf8::in_utf8))]
fn thing_in(alloc: Global, word: &[u8]) -> Result<Text, Refusal>
    ensures value { Gives (λ thing. thing) result (texts.thing_in word.now) }
    ensures thing { IfOk result (λ thing. is_thing thing ≡ true) }
{
    match str::from_utf8(word) {
        Ok(name) if is_thing(name) => Ok(Text::from_str(alloc, name)?),
        _ => Err(Refusal::Bad),
    }
}

/// The words of a line: `job` J STREAM PATH FILE SEED SIZE.
#[derive(Clone, Copy)]
struct Words<'a> {
    job: &'a [u8],
    stream: &'a [u8],
    path: &'a [u8],
    file: &'a [u8],
    seed: &'a [u8],
    size: &'a [u8],
}

/// What a line offers behind those before it.
pub(crate) fn new_offer(alloc: Global, offers: &[Offer], line: &[u8]) -> Result<Offer, Refusal>
    ensures value { Gives (λ offer. offer) result (texts.new_offer offers.now line.now) }
    ensures nameable { IfOk result (λ offer. IsOffered offer) }
{
    let offer = offer_of(alloc, line)?;
    if is_repeat(offers, &offer.job) {
        return Err(Refusal::Bad);
    }
    Ok(offer)
}

#[tactic(auto, unfolding(crate::specs::ServiceTexts::offer_of))]
fn offer_of(alloc: Global, line: &[u8]) -> Result<Offer, Refusal>
    ensures value { Gives (λ offer. offer) result (texts.offer_of line.now) }
    ensures nameable { IfOk result (λ offer. IsOffered offer) }
{
    let words = words_of(line).ok_or(Refusal::Bad)?;
    offer_in(alloc, &words)
}

#[tactic(auto, unfolding(crate::specs::ServiceTexts::words_of))]
fn words_of(line: &[u8]) -> Option<Words<'_>>
    ensures { option_map texts.found_words result ≡ texts.words_of line.now }
{
    let (verb, rest) = word_at(line)?;
    if verb != b"job".as_slice() {
        return None;
    }
    let (job, rest) = word_at(rest)?;
    let (stream, rest) = word_at(rest)?;
    let (path, rest) = word_at(rest)?;
    let (file, rest) = word_at(rest)?;
    let (seed, rest) = word_at(rest)?;
    let size = last_at(rest)?;
    Some(Words {
        job,
        stream,
        path,
        file,
        seed,
        size,
    })
}

/// What the words offer, where a document can name the job.
#[tactic(auto, unfolding(crate::specs::ServiceTexts::offer_in))]
fn offer_in(alloc: Global, words: &Words<'_>) -> Result<Offer, Refusal>
    ensures value { Gives (λ offer. offer) result (texts.offer_in (texts.found_words words.now)) }
    ensures nameable { IfOk result (λ offer. IsOffered offer) }
{
    let job = plain(alloc, words.job)?;
    let stream = plain(alloc, words.stream)?;
    let path = text_of(alloc, words.path)?;
    let file = number_in(0, u64::from(u32::MAX), words.file).ok_or(Refusal::Bad)?;
    let seed = number_in(0, u64::MAX, words.seed).ok_or(Refusal::Bad)?;
    let size = number_in(1, MOST_SIZE, words.size).ok_or(Refusal::Bad)?;
    let job = Job {
        job,
        version: 1,
        stream,
        path,
        size: size as u32,
        file: file as u32,
        digest: digest_of(seed, size as u32),
    };
    offer_with(job, seed)
}

fn offer_with(job: Job, seed: u64) -> Result<Offer, Refusal>
    ensures value { Gives (λ offer. offer) result (texts.offer_with job seed) }
    ensures nameable { IfOk result (λ offer. IsOffered offer) }
{
    if !job.is_nameable() {
        return Err(Refusal::Bad);
    }
    Ok(Offer {
        job,
        seed,
        is_over: false,
    })
}

/// A word of UTF-8, as it stands.
#[tactic(auto, using(stream_blocks::proofs::Utf8::not_utf8, stream_blocks::proofs::Utf8::in_utf8))]
fn plain(alloc: Global, word: &[u8]) -> Result<Text, Refusal>
    ensures { Gives (λ text. text) result (texts.plain word.now) }
{
    match str::from_utf8(word) {
        Ok(text) => Ok(Text::from_str(alloc, text)?),
        Err(_) => Err(Refusal::Bad),
    }
}
