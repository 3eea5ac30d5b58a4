//! Requests, behind the first word of their line.

ghost use Rattle.std.specs.Prelude.{◌≡◌, ◌≤◌};
ghost use Rattle.plain_text.specs.Reading.{Gives};
ghost use Rattle.agent_script.specs.Requests as requests;
ghost use Rattle.agent_script.specs.ScriptReading.{GivesMore};

use agent_journal::Request;
use list_types::{Seq, Text};
use mqtt_packet::{Ask, Qos};
use plain_text::{Refusal, last_at, payload_of, text_of, word_at};
use std::alloc::Global;

/// How many filters a line may have.
const MOST_FILTERS: u8 = 8;

/// `publish` Q TOPIC PAYLOAD.
#[tactic(auto, unfolding(crate::specs::Requests::publish_of))]
pub(crate) fn publish_of(alloc: Global, line: &[u8]) -> Result<Request, Refusal>
    ensures { Gives (λ request. request) result (requests.publish_of line.now) }
{
    let (level, rest) = word_at(line).ok_or(Refusal::Bad)?;
    let qos = qos_of(level)?;
    let (name, rest) = word_at(rest).ok_or(Refusal::Bad)?;
    let topic = text_of(alloc, name)?;
    let word = last_at(rest).ok_or(Refusal::Bad)?;
    let payload = payload_of(alloc, word)?;
    valid(Request::Publish {
        qos,
        topic,
        payload,
    })
}

/// `subscribe` and one to eight pairs of a filter and a quality of service.
#[tactic(auto, unfolding(crate::specs::Requests::subscribe_of))]
pub(crate) fn subscribe_of(alloc: Global, line: &[u8]) -> Result<Request, Refusal>
    ensures { Gives (λ request. request) result (requests.subscribe_of line.now) }
{
    let mut asks = Seq::new(alloc);
    read_asks(alloc, &mut asks, MOST_FILTERS, line)?;
    valid(Request::Subscribe { asks })
}

/// Reads at most so many pairs, to the end of the line.
#[tactic(auto, unfolding(crate::specs::Requests::asks_in))]
fn read_asks(alloc: Global, asks: &mut Seq<Ask>, most: u8, line: &[u8]) -> Result<(), Refusal>
    ensures { GivesMore asks.old asks.new result (requests.asks_in most line.now) }
{
    if most == 0 {
        return Err(Refusal::Bad);
    }
    let (name, rest) = word_at(line).ok_or(Refusal::Bad)?;
    let filter = text_of(alloc, name)?;
    if let Some(word) = last_at(rest) {
        let qos = qos_of(word)?;
        asks.push(Ask { filter, qos })?;
        return Ok(());
    }
    let (word, others) = word_at(rest).ok_or(Refusal::Bad)?;
    let qos = qos_of(word)?;
    asks.push(Ask { filter, qos })?;
    read_asks(alloc, asks, most - 1, others)
}

/// `unsubscribe` and one to eight filters.
#[tactic(auto, unfolding(crate::specs::Requests::unsubscribe_of))]
pub(crate) fn unsubscribe_of(alloc: Global, line: &[u8]) -> Result<Request, Refusal>
    ensures { Gives (λ request. request) result (requests.unsubscribe_of line.now) }
{
    let mut filters = Seq::new(alloc);
    read_filters(alloc, &mut filters, MOST_FILTERS, line)?;
    valid(Request::Unsubscribe { filters })
}

/// Reads at most so many filters, to the end of the line.
#[tactic(auto, unfolding(crate::specs::Requests::filters_in))]
fn read_filters(
    alloc: Global,
    filters: &mut Seq<Text>,
    most: u8,
    line: &[u8],
) -> Result<(), Refusal>
    ensures { GivesMore filters.old filters.new result (requests.filters_in most line.now) }
{
    if most == 0 {
        return Err(Refusal::Bad);
    }
    if let Some(word) = last_at(line) {
        let filter = text_of(alloc, word)?;
        filters.push(filter)?;
        return Ok(());
    }
    let (word, others) = word_at(line).ok_or(Refusal::Bad)?;
    let filter = text_of(alloc, word)?;
    filters.push(filter)?;
    read_filters(alloc, filters, most - 1, others)
}

fn qos_of(word: &[u8]) -> Result<Qos, Refusal>
    ensures { Gives (λ qos. qos) result (requests.qos_of word.now) }
{
    if word == b"0".as_slice() {
        Ok(Qos::AtMostOnce)
    } else if word == b"1".as_slice() {
        Ok(Qos::AtLeastOnce)
    } else if word == b"2".as_slice() {
        Ok(Qos::ExactlyOnce)
    } else {
        Err(Refusal::Bad)
    }
}

fn valid(request: Request) -> Result<Request, Refusal>
    ensures { Gives (λ request. request) result (requests.valid request) }
{
    if request.is_valid() {
        Ok(request)
    } else {
        Err(Refusal::Bad)
    }
}
