//! What the values of a job document must be.

ghost use Rattle.std.specs.Prelude.{◌≡◌, ◌≤◌, length, IsTrue};
ghost use Rattle.std.specs.List.{list_any};
ghost use Rattle.serde_json.specs.View.{view, items_view};
ghost use Rattle.thing_topics.specs.Classes as classes;
ghost use Rattle.device_docs.specs.Jobs as jobs;

use base64::engine::general_purpose::STANDARD;
use serde_json::Value;
use thing_topics::{JobsKind, StreamKind, jobs_topic, stream_topic};

/// Whether the text names a job: whether a job's topic can be written with it.
#[tactic(auto, unfolding(thing_topics::specs::Jobs::fault_of, thing_topics::specs::Classes::is_thing))]
pub(crate) fn is_job(text: &str) -> bool
    ensures { result ≡ classes.is_job text.now }
{
    jobs_topic("t", Some(text), JobsKind::Update).is_ok()
}

/// Whether the text names a stream: whether a stream's topic can be written with it.
#[tactic(auto, unfolding(thing_topics::specs::Streams::fault_of, thing_topics::specs::Classes::is_thing))]
pub(crate) fn is_stream(text: &str) -> bool
    ensures { result ≡ classes.is_stream text.now }
{
    stream_topic("t", text, StreamKind::Get).is_ok()
}

/// Whether one of the protocols is the text `MQTT`.
#[tactic(auto, using(crate::proofs::Views::any_mqtt))]
pub(crate) fn has_mqtt(protocols: &Vec<Value>) -> bool
    ensures { result ≡ jobs.has_mqtt (items_view protocols.now.items) }
{
    any_mqtt(protocols)
}

fn any_mqtt(protocols: &Vec<Value>) -> bool
    ensures { result ≡ list_any (λ v. jobs.is_mqtt (view v)) protocols.now.items }
{
    protocols.iter().any(|protocol| is_mqtt(protocol))
}

fn is_mqtt(protocol: &Value) -> bool
    ensures { result ≡ jobs.is_mqtt (view protocol.now) }
{
    match protocol.as_str() {
        Some(text) => text == "MQTT",
        None => false,
    }
}

/// Whether the text may say where a file goes: 1 to 1,024 bytes.
pub(crate) fn is_path(text: &str) -> bool
    ensures { result ≡ jobs.is_path text.now }
{
    1 <= text.len() && text.len() <= 1_024
}

/// Whether the number is from `least` to `most`. `None` stands for a negative one.
pub(crate) fn is_from(least: u32, most: u32, number: Option<u64>) -> bool
    ensures { result ≡ jobs.is_from least most number }
{
    match number {
        Some(number) => least as u64 <= number && number <= most as u64,
        None => false,
    }
}

/// The 32 bytes of which the text is the Base64.
pub(crate) fn digest_of(text: &str) -> Option<[u8; 32]>
    ensures { result ≡ jobs.digest_of text.now }
{
    let mut digest = [0; 32];
    match STANDARD.decode_slice(text.as_bytes(), digest.as_mut_slice()) {
        Ok(32) => Some(digest),
        _ => None,
    }
}
