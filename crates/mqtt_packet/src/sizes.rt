//! How many bytes packets and their parts have.

ghost use Rattle.std.specs.Prelude.{◌≡◌, ◌+◌, ◌-◌, ◌^◌, ◌<◌, ◌≤◌, ℕ, Bool, true, length, min};
ghost use Rattle.std.specs.List.{flat_map};
ghost use Rattle.mqtt_packet.specs.Spelling as spelling;

use crate::packet::Packet;
use crate::qos::Qos;
use crate::will::{Ask, Will};
use list_types::{Blob, Text};

/// How many bytes a packet has whose fields are in their ranges, or the greatest number where they
/// are more.
pub(crate) fn len_within(packet: &Packet) -> usize
    requires { spelling.has_fields packet.now ≡ true }
    ensures { result ≡ min (length (spelling.spelling packet.now)) (2 ^ 64 - 1) }
{
    let body = body_len(packet);
    body.saturating_add(1 + remaining_len(body))
}

/// How many bytes stand behind the remaining length.
pub(crate) fn body_len(packet: &Packet) -> usize
    requires { spelling.has_fields packet.now ≡ true }
    ensures { result ≡ min (length (spelling.body packet.now)) (2 ^ 64 - 1) }
{
    match packet {
        Packet::Connect {
            client,
            will,
            user,
            password,
            ..
        } => connect_len(client, will, user, password),
        Packet::ConnAck { .. } => 2,
        Packet::Publish {
            qos,
            topic,
            payload,
            ..
        } => publish_len(*qos, topic, payload),
        Packet::PubAck { .. } => 2,
        Packet::PubRec { .. } => 2,
        Packet::PubRel { .. } => 2,
        Packet::PubComp { .. } => 2,
        Packet::Subscribe { asks, .. } => asks_len(asks.as_slice()).saturating_add(2),
        Packet::SubAck { codes, .. } => codes.as_slice().len() + 2,
        Packet::Unsubscribe { filters, .. } => filters_len(filters.as_slice()).saturating_add(2),
        Packet::UnsubAck { .. } => 2,
        Packet::PingReq => 0,
        Packet::PingResp => 0,
        Packet::Disconnect => 0,
    }
}

fn connect_len(
    client: &Text,
    will: &Option<Will>,
    user: &Option<Text>,
    password: &Option<Blob>,
) -> usize
    requires short { length client.now < 65536 }
    requires will { spelling.is_will will.now ≡ true }
    requires credentials { spelling.are_credentials user.now password.now ≡ true }
    ensures len { result ≡ 12 + length client.now + length (spelling.extras will.now user.now password.now) }
    ensures small { result < 400000 }
{
    12 + client.len() + will_len(will) + text_len(user) + blob_len(password)
}

fn will_len(will: &Option<Will>) -> usize
    requires { spelling.is_will will.now ≡ true }
    ensures len { result ≡ length (spelling.will_part will.now) }
    ensures small { result < 131076 }
{
    match will {
        None => 0,
        Some(will) => 4 + will.topic.len() + will.message.len(),
    }
}

fn text_len(text: &Option<Text>) -> usize
    requires { length (spelling.optional text.now) < 65538 }
    ensures len { result ≡ length (spelling.optional text.now) }
    ensures small { result < 65538 }
{
    match text {
        None => 0,
        Some(text) => 2 + text.len(),
    }
}

fn blob_len(blob: &Option<Blob>) -> usize
    requires { length (spelling.optional blob.now) < 65538 }
    ensures len { result ≡ length (spelling.optional blob.now) }
    ensures small { result < 65538 }
{
    match blob {
        None => 0,
        Some(blob) => 2 + blob.len(),
    }
}

fn publish_len(qos: Qos, topic: &Text, payload: &Blob) -> usize
    requires { length topic.now < 65536 }
    ensures { (id : ℕ) → result ≡ length (spelling.publish_body qos topic.now id payload.now) }
{
    let identifier = match qos {
        Qos::AtMostOnce => 0,
        Qos::AtLeastOnce => 2,
        Qos::ExactlyOnce => 2,
    };
    2 + topic.len() + identifier + payload.as_slice().len()
}

/// How many bytes the asks have, or the greatest number where they are more.
#[tactic(auto, using(crate::proofs::Loops::length_more))]
fn asks_len(asks: &[Ask]) -> usize
    ensures { result ≡ min (length (flat_map spelling.ask_bytes asks.now)) (2 ^ 64 - 1) }
{
    let mut total: usize = 0;
    for ask in asks {
        total = total.saturating_add(ask.filter.len().saturating_add(3));
    }
    total
}

/// How many bytes the filters have, or the greatest number where they are more.
#[tactic(auto, using(crate::proofs::Loops::length_more))]
fn filters_len(filters: &[Text]) -> usize
    ensures { result ≡ min (length (flat_map spelling.string filters.now)) (2 ^ 64 - 1) }
{
    let mut total: usize = 0;
    for filter in filters {
        total = total.saturating_add(filter.len().saturating_add(2));
    }
    total
}

/// How many bytes the remaining length takes (MQTT 3.1.1, section 2.2.3).
#[tactic(auto, unfolding(crate::specs::Spelling::groups))]
fn remaining_len(len: usize) -> usize
    ensures len { result ≡ length (spelling.remaining len) }
    ensures small { result ≤ 4 }
{
    if len < 128 {
        1
    } else if len < 16_384 {
        2
    } else if len < 2_097_152 {
        3
    } else {
        4
    }
}
