//! Topics of streams.

ghost use Rattle.std.specs.Prelude.{◌≡◌, ◌≤◌, length, IfOk, IfErr, Ok, IfNone};
ghost use Rattle.std.specs.Option.{option_copied};
ghost use Rattle.thing_topics.specs.Faults.{IsStreamFault};
ghost use Rattle.thing_topics.specs.Readings.{Gives, fault_in};
ghost use Rattle.thing_topics.specs.Streams as streams;

use crate::classes::{is_stream, is_thing};
use crate::cuts::first_level;
use crate::faults::{NameFault, TopicFault};
use crate::fronts::{front, front_of};
use crate::kinds::{Kind, kind_of};
use crate::topic_text::TopicText;

/// What a topic of a stream is about. Its messages are CBOR.
#[derive(Clone, Copy, Debug, PartialEq, Eq)]
pub enum StreamKind {
    /// `get/cbor`
    Get,
    /// `data/cbor`
    Data,
    /// `rejected/cbor`
    Rejected,
}

impl Kind for StreamKind {
    ghost use Rattle.thing_topics.specs.Streams.{word};

    ghost written = { word };

    fn word(self) -> &'static str {
        match self {
            StreamKind::Get => "get/cbor",
            StreamKind::Data => "data/cbor",
            StreamKind::Rejected => "rejected/cbor",
        }
    }
}

/// What a topic of a stream says. It borrows from the text.
#[derive(Clone, Copy, Debug, PartialEq, Eq)]
pub struct StreamMatch<'a> {
    /// 1 to 128 of the ASCII letters and digits, `:`, `_` and `-`.
    pub thing: &'a str,
    /// 1 to 128 of the same without `:`.
    pub stream: &'a str,
    pub kind: StreamKind,
}

/// The topic of a thing's stream, `$aws/things/THING/streams/STREAM/KIND`. A thing is 1 to 128 of
/// the ASCII letters and digits, `:`, `_` and `-`, and a stream 1 to 128 of them without `:`. The
/// fault is `Thing` where the thing isn't one, else `Stream`.
pub fn stream_topic(thing: &str, stream: &str, kind: StreamKind) -> Result<TopicText, NameFault>
    ensures text { IfOk result (λ topic. topic.bytes ≡ streams.topic_text (streams.parts_of thing.now stream.now kind)) }
    ensures fault { fault_in result ≡ streams.fault_of thing.now stream.now }
    ensures back { IfOk result (λ topic. streams.read topic.bytes ≡ Ok (streams.parts_of thing.now stream.now kind)) }
{
    match fault_of(thing, stream) {
        Some(fault) => Err(fault),
        None => Ok(topic_text(thing, stream, kind)),
    }
}

#[tactic(auto, unfolding(crate::specs::Streams::fault_of))]
fn fault_of(thing: &str, stream: &str) -> Option<NameFault>
    ensures fault { result ≡ streams.fault_of thing.now stream.now }
    ensures thing { IfNone result (length thing.now ≤ 128) }
    ensures stream { IfNone result (length stream.now ≤ 128) }
{
    if !is_thing(thing) {
        Some(NameFault::Thing)
    } else if !is_stream(stream) {
        Some(NameFault::Stream)
    } else {
        None
    }
}

#[tactic(auto, unfolding(crate::specs::Streams::topic_text))]
fn topic_text(thing: &str, stream: &str, kind: StreamKind) -> TopicText
    requires thing { length thing.now ≤ 128 }
    requires stream { length stream.now ≤ 128 }
    ensures { result.bytes ≡ streams.topic_text (streams.parts_of thing.now stream.now kind) }
{
    let mut topic = front(thing, "/streams/");
    topic.push_str(stream);
    topic.push_str("/");
    topic.push_str(kind.word());
    topic
}

/// What a text says as a topic of a stream. The fault is the first that applies: `Root`; `Thing`;
/// `Kind` where `streams/` doesn't follow; `Part` where the level behind it isn't a stream; `Kind`
/// where what is left is no kind.
pub fn match_stream(text: &str) -> Result<StreamMatch<'_>, TopicFault>
    ensures reading { Gives streams.found_parts result (streams.read text.now) }
    ensures topic { IfOk result (λ found. streams.IsTopic text.now (streams.found_parts found)) }
    ensures fault { IfErr result (λ fault. IsStreamFault text.now fault) }
    ensures none { IfErr result (λ _. (parts : streams.Parts) → streams.IsTopic text.now parts → ⊥) }
{
    read(text)
}

#[tactic(auto, unfolding(crate::specs::Streams::read))]
fn read(text: &str) -> Result<StreamMatch<'_>, TopicFault>
    ensures { Gives streams.found_parts result (streams.read text.now) }
{
    let (thing, rest) = front_of("streams/", text)?;
    let (stream, below) = first_level(rest);
    if !is_stream(stream) {
        return Err(TopicFault::Part);
    }
    let Some(word) = below else {
        return Err(TopicFault::Kind);
    };
    match stream_kind(word) {
        Some(kind) => Ok(StreamMatch {
            thing,
            stream,
            kind,
        }),
        None => Err(TopicFault::Kind),
    }
}

#[tactic(auto, unfolding(crate::specs::Streams::kind_of))]
fn stream_kind(word: &str) -> Option<StreamKind>
    ensures { result ≡ streams.kind_of word.now }
{
    let kinds = [StreamKind::Get, StreamKind::Data, StreamKind::Rejected];
    kind_of(kinds.as_slice(), word)
}
