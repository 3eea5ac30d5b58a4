//! What tasks ask of the agent.

ghost use Rattle.std.specs.Prelude.{◌≡◌, IfOk};
ghost use Rattle.std.specs.List.{list_all};
ghost use Rattle.agent_journal.specs.Requests as requests;

use list_types::{Blob, Copied, Seq, Text};
use mqtt_packet::{Ask, Qos};
use std::alloc::{AllocError, Global};
use topic_filter::{is_filter, is_name};

/// What a task asks of the agent.
#[derive(Debug, Drop, PartialEq, Eq)]
pub enum Request {
    /// To publish a message.
    Publish {
        qos: Qos,
        topic: Text,
        payload: Blob,
    },
    /// To subscribe, with 1 to 8 filters.
    Subscribe {
        asks: Seq<Ask>,
    },
    /// To unsubscribe, from 1 to 8 filters.
    Unsubscribe {
        filters: Seq<Text>,
    },
    /// To send a PINGREQ.
    Ping,
    /// To close the connection and end the agent.
    Disconnect,
    /// To end the agent.
    Terminate,
    /// The task's mark that no more requests follow. It has no completion.
    Leave,
}

impl Request {
    /// Whether the agent takes it: topics are names and filters are filters (MQTT 3.1.1, section 4.7)
    /// of at most 1,024 bytes, a payload has at most 131,072 bytes, and there are 1 to 8 filters.
    #[tactic(auto, unfolding(crate::specs::Requests::is_valid))]
    pub fn is_valid(&self) -> bool
        ensures { result ≡ requests.is_valid self.now }
    {
        match self {
            Request::Publish { topic, payload, .. } => is_topic(topic) && payload.len() <= 131_072,
            Request::Subscribe { asks } => is_few(asks.len()) && are_wanted(asks.as_slice()),
            Request::Unsubscribe { filters } => {
                is_few(filters.len()) && are_filters(filters.as_slice())
            }
            Request::Ping => true,
            Request::Disconnect => true,
            Request::Terminate => true,
            Request::Leave => true,
        }
    }
}

#[tactic(auto, using(mqtt_packet::proofs::Strings::in_utf8))]
fn is_topic(text: &Text) -> bool
    ensures { result ≡ requests.is_topic text.now }
{
    text.len() <= 1024 && is_name(text.as_str())
}

#[tactic(auto, using(mqtt_packet::proofs::Strings::in_utf8))]
fn is_wanted(text: &Text) -> bool
    ensures { result ≡ requests.is_wanted text.now }
{
    text.len() <= 1024 && is_filter(text.as_str())
}

fn is_few(count: usize) -> bool
    ensures { result ≡ requests.is_few count }
{
    1 <= count && count <= 8
}

fn are_wanted(asks: &[Ask]) -> bool
    ensures { result ≡ list_all (λ ask. requests.is_wanted ask.filter) asks.now }
{
    asks.iter().all(|ask| is_wanted(&ask.filter))
}

fn are_filters(filters: &[Text]) -> bool
    ensures { result ≡ list_all requests.is_wanted filters.now }
{
    filters.iter().all(|filter| is_wanted(filter))
}

impl Copied for Request {
    fn copy(&self, alloc: Global) -> Result<Request, AllocError> {
        Ok(match self {
            Request::Publish {
                qos,
                topic,
                payload,
            } => Request::Publish {
                qos: *qos,
                topic: topic.copy(alloc)?,
                payload: payload.copy(alloc)?,
            },
            Request::Subscribe { asks } => Request::Subscribe {
                asks: asks.copy(alloc)?,
            },
            Request::Unsubscribe { filters } => Request::Unsubscribe {
                filters: filters.copy(alloc)?,
            },
            Request::Ping => Request::Ping,
            Request::Disconnect => Request::Disconnect,
            Request::Terminate => Request::Terminate,
            Request::Leave => Request::Leave,
        })
    }
}
