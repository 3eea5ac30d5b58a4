//! The kinds of packets, as a first byte tells them.

ghost use Rattle.std.specs.Prelude.{◌≡◌};
ghost use Rattle.mqtt_packet.specs.Reading.{kind_of, publish_kind, may_repeat};

use crate::fields::qos_of;
use crate::qos::Qos;

/// What the first byte of a packet says of it: its type, and a PUBLISH's flags (MQTT 3.1.1,
/// section 2.2).
#[derive(Clone, Copy, Debug, PartialEq, Eq)]
pub(crate) enum Kind {
    Connect,
    ConnAck,
    Publish { dup: bool, qos: Qos, retain: bool },
    PubAck,
    PubRec,
    PubRel,
    PubComp,
    Subscribe,
    SubAck,
    Unsubscribe,
    UnsubAck,
    PingReq,
    PingResp,
    Disconnect,
}

/// The kind of packet that a first byte begins.
#[tactic(auto, unfolding(crate::specs::Reading::kind_of))]
pub(crate) fn kind_of(head: u8) -> Option<Kind>
    ensures { result ≡ kind_of head }
{
    match head {
        0x10 => Some(Kind::Connect),
        0x20 => Some(Kind::ConnAck),
        0x30..=0x3F => publish_kind(head),
        0x40 => Some(Kind::PubAck),
        0x50 => Some(Kind::PubRec),
        0x62 => Some(Kind::PubRel),
        0x70 => Some(Kind::PubComp),
        0x82 => Some(Kind::Subscribe),
        0x90 => Some(Kind::SubAck),
        0xA2 => Some(Kind::Unsubscribe),
        0xB0 => Some(Kind::UnsubAck),
        0xC0 => Some(Kind::PingReq),
        0xD0 => Some(Kind::PingResp),
        0xE0 => Some(Kind::Disconnect),
        _ => None,
    }
}

/// A PUBLISH's flags (section 3.3.1).
#[tactic(auto, unfolding(crate::specs::Reading::publish_kind))]
fn publish_kind(head: u8) -> Option<Kind>
    ensures { result ≡ publish_kind head }
{
    let dup = head / 8 % 2 == 1;
    let qos = qos_of(head / 2 % 4)?;
    if !may_repeat(qos, dup) {
        return None;
    }
    Some(Kind::Publish {
        dup,
        qos,
        retain: head % 2 == 1,
    })
}

/// DUP is 0 at quality of service 0 (section 3.3.1.1).
fn may_repeat(qos: Qos, dup: bool) -> bool
    ensures { result ≡ may_repeat qos dup }
{
    match qos {
        Qos::AtMostOnce => !dup,
        Qos::AtLeastOnce => true,
        Qos::ExactlyOnce => true,
    }
}
