//! What open commands await.

ghost use Rattle.std.specs.Prelude.{◌≡◌};
ghost use Rattle.agent_core.specs.Awaited.{awaits};

use agent_journal::Request;
use mqtt_packet::Qos;

/// The acknowledgement that completes a command.
#[derive(Clone, Copy, Debug, PartialEq, Eq)]
pub enum Awaited {
    /// Of a QoS 1 publish (MQTT 3.1.1, section 4.3.2).
    PubAck,
    /// Of a QoS 2 publish (section 4.3.3).
    PubComp,
    /// Of a subscribe (section 3.9).
    SubAck,
    /// Of an unsubscribe (section 3.11).
    UnsubAck,
}

/// Whether a command awaits this.
pub fn awaits(kind: Awaited, request: &Request) -> bool
    ensures { result ≡ awaits kind request.now }
{
    match request {
        Request::Publish { qos, .. } => match qos {
            Qos::AtMostOnce => false,
            Qos::AtLeastOnce => kind == Awaited::PubAck,
            Qos::ExactlyOnce => kind == Awaited::PubComp,
        },
        Request::Subscribe { .. } => kind == Awaited::SubAck,
        Request::Unsubscribe { .. } => kind == Awaited::UnsubAck,
        _ => false,
    }
}
