//! The front that all topics of things share: `$aws/things/`, the thing, and the word of the service.

ghost use Rattle.std.specs.Prelude.{◌≡◌, ◌+◌, ◌≤◌, length, codes};
ghost use Rattle.arrayvec.specs.ArrayString.{array_string_len};
ghost use Rattle.thing_topics.specs.Fronts as fronts;
ghost use Rattle.thing_topics.specs.Readings.{Gives};

use crate::classes::is_thing;
use crate::cuts::{behind, first_level};
use crate::faults::TopicFault;
use crate::topic_text::TopicText;

const ROOT: &str = "$aws/things/";

/// The front of a topic. `service` is its word between two `/`.
pub(crate) fn front(thing: &str, service: &str) -> TopicText
    requires thing { length thing.now ≤ 128 }
    requires service { length service.now ≤ 9 }
    ensures text { result.bytes ≡ fronts.front_text thing.now service.now }
    ensures len { array_string_len result ≤ 149 }
{
    let mut topic = TopicText::new();
    topic.push_str(ROOT);
    topic.push_str(thing);
    topic.push_str(service);
    topic
}

/// The thing of a topic, and what stands behind the service's word and its `/`.
#[tactic(auto, unfolding(crate::specs::Fronts::front_of))]
pub(crate) fn front_of<'a>(service: &str, text: &'a str) -> Result<(&'a str, &'a str), TopicFault>
    ensures { Gives (λ front. (front.0.now, front.1.now)) result (fronts.front_of service.now text.now) }
{
    let rest = behind(ROOT, text).ok_or(TopicFault::Root)?;
    let (thing, below) = first_level(rest);
    if !is_thing(thing) {
        return Err(TopicFault::Thing);
    }
    match below {
        Some(below) => match behind(service, below) {
            Some(rest) => Ok((thing, rest)),
            None => Err(TopicFault::Kind),
        },
        None => Err(TopicFault::Kind),
    }
}
