//! First bytes and flags (MQTT 3.1.1, sections 2.2 and 3.1.2.3).

ghost use Rattle.std.specs.Prelude.{◌≡◌, ◌≤◌};
ghost use Rattle.mqtt_packet.specs.Flags.{bit, level};
ghost use Rattle.mqtt_packet.specs.Spelling as spelling;

use crate::packet::Packet;
use crate::qos::Qos;
use crate::will::Will;
use list_types::{Blob, Text};

/// The first byte of a packet: its type and its flags.
pub(crate) fn first(packet: &Packet) -> u8
    ensures { result ≡ spelling.first packet.now }
{
    match packet {
        Packet::Connect { .. } => 0x10,
        Packet::ConnAck { .. } => 0x20,
        Packet::Publish {
            dup,
            qos,
            retain,
            ..
        } => publish_first(*dup, *qos, *retain),
        Packet::PubAck { .. } => 0x40,
        Packet::PubRec { .. } => 0x50,
        Packet::PubRel { .. } => 0x62,
        Packet::PubComp { .. } => 0x70,
        Packet::Subscribe { .. } => 0x82,
        Packet::SubAck { .. } => 0x90,
        Packet::Unsubscribe { .. } => 0xA2,
        Packet::UnsubAck { .. } => 0xB0,
        Packet::PingReq => 0xC0,
        Packet::PingResp => 0xD0,
        Packet::Disconnect => 0xE0,
    }
}

fn publish_first(dup: bool, qos: Qos, retain: bool) -> u8
    ensures { result ≡ spelling.publish_first dup qos retain }
{
    0x30 + 8 * bit(dup) + 2 * level(qos) + bit(retain)
}

pub(crate) fn bit(flag: bool) -> u8
    ensures value { result ≡ bit flag }
    ensures small { result ≤ 1 }
{
    if flag { 1 } else { 0 }
}

pub(crate) fn level(qos: Qos) -> u8
    ensures value { result ≡ level qos }
    ensures small { result ≤ 2 }
{
    match qos {
        Qos::AtMostOnce => 0,
        Qos::AtLeastOnce => 1,
        Qos::ExactlyOnce => 2,
    }
}

/// The connect flags (section 3.1.2.3).
pub(crate) fn connect_flags(
    clean: bool,
    will: &Option<Will>,
    user: &Option<Text>,
    password: &Option<Blob>,
) -> u8
    ensures { result ≡ spelling.connect_flags clean will.now user.now password.now }
{
    2 * bit(clean) + will_flags(will) + 64 * bit(password.is_some()) + 128 * bit(user.is_some())
}

fn will_flags(will: &Option<Will>) -> u8
    ensures flags { result ≡ spelling.will_flags will.now }
    ensures small { result ≤ 52 }
{
    match will {
        None => 0,
        Some(will) => 4 + 8 * level(will.qos) + 32 * bit(will.retain),
    }
}
