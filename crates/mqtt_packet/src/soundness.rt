//! Which packets have a spelling.

ghost use Rattle.std.specs.Prelude.{◌≡◌, ◌&&◌, ◌↔◌, IsTrue};
ghost use Rattle.std.specs.List.{list_all};
ghost use Rattle.mqtt_packet.specs.Grammar.{HasSpelling};
ghost use Rattle.mqtt_packet.specs.Spelling.{IsOfItsTypes};
ghost use Rattle.mqtt_packet.specs.Spelling as spelling;

use crate::packet::Packet;
use crate::qos::Qos;
use crate::sizes::len_within;
use crate::will::{Ask, Will};
use list_types::{Blob, Text};

/// The greatest number of bytes that a packet may have. This limit is the project's own.
pub const PACKET_LIMIT: usize = 262_144;

impl Packet {
    /// Whether the packet has a spelling: its fields are in their ranges, and it has at most
    /// [`PACKET_LIMIT`] bytes. Any string is the topic of a PUBLISH here, whether it names a topic
    /// or not. It takes no memory.
    pub fn is_sound(&self) -> bool
        ensures value { result ≡ spelling.is_sound self.now }
        ensures spelled { IsTrue result ↔ HasSpelling self.now }
    {
        numbers_fit(self);
        fits(self)
    }
}

fn fits(packet: &Packet) -> bool
    ensures { result ≡ spelling.is_sound packet.now }
{
    has_fields(packet) && len_within(packet) <= PACKET_LIMIT
}

/// The numbers of a packet fit their types. It does nothing: a contract knows this of a number that
/// was read.
pub(crate) fn numbers_fit(packet: &Packet)
    ensures { IsOfItsTypes packet.now }
{
    let _number = match packet {
        Packet::Connect { keep_alive, .. } => *keep_alive,
        Packet::ConnAck { .. } => 0,
        Packet::Publish { id, .. } => *id,
        Packet::PubAck { id } => *id,
        Packet::PubRec { id } => *id,
        Packet::PubRel { id } => *id,
        Packet::PubComp { id } => *id,
        Packet::Subscribe { id, .. } => *id,
        Packet::SubAck { id, .. } => *id,
        Packet::Unsubscribe { id, .. } => *id,
        Packet::UnsubAck { id } => *id,
        Packet::PingReq => 0,
        Packet::PingResp => 0,
        Packet::Disconnect => 0,
    };
}

fn has_fields(packet: &Packet) -> bool
    ensures { result ≡ spelling.has_fields packet.now }
{
    match packet {
        Packet::Connect {
            client,
            will,
            user,
            password,
            ..
        } => are_credentials(user, password) && is_will(will) && is_string(client),
        Packet::ConnAck { present, code } => *code <= 5 && (*code == 0 || !*present),
        Packet::Publish {
            dup,
            qos,
            topic,
            id,
            ..
        } => is_string(topic) && is_delivery(*dup, *qos, *id),
        Packet::PubAck { id } => *id != 0,
        Packet::PubRec { id } => *id != 0,
        Packet::PubRel { id } => *id != 0,
        Packet::PubComp { id } => *id != 0,
        Packet::Subscribe { id, asks } => *id != 0 && are_asks(asks.as_slice()),
        Packet::SubAck { id, codes } => *id != 0 && are_return_codes(codes.as_slice()),
        Packet::Unsubscribe { id, filters } => *id != 0 && are_filters(filters.as_slice()),
        Packet::UnsubAck { id } => *id != 0,
        Packet::PingReq => true,
        Packet::PingResp => true,
        Packet::Disconnect => true,
    }
}

#[tactic(auto, using(crate::proofs::Strings::in_utf8))]
fn is_string(text: &Text) -> bool
    ensures { result ≡ spelling.is_string text.now }
{
    text.len() < 65_536 && !text.as_bytes().contains(&0)
}

fn is_data(blob: &Blob) -> bool
    ensures { result ≡ spelling.is_data blob.now }
{
    blob.len() < 65_536
}

fn is_delivery(dup: bool, qos: Qos, id: u16) -> bool
    ensures { result ≡ spelling.is_delivery dup qos id }
{
    match qos {
        Qos::AtMostOnce => id == 0 && !dup,
        Qos::AtLeastOnce => id != 0,
        Qos::ExactlyOnce => id != 0,
    }
}

fn is_will(will: &Option<Will>) -> bool
    ensures { result ≡ spelling.is_will will.now }
{
    match will {
        None => true,
        Some(will) => is_string(&will.topic) && is_data(&will.message),
    }
}

/// A password stands only beside a user name (MQTT 3.1.1, section 3.1.2.9).
fn are_credentials(user: &Option<Text>, password: &Option<Blob>) -> bool
    ensures { result ≡ spelling.are_credentials user.now password.now }
{
    match (user, password) {
        (None, None) => true,
        (None, Some(_)) => false,
        (Some(user), None) => is_string(user),
        (Some(user), Some(password)) => is_string(user) && is_data(password),
    }
}

#[tactic(auto, using(crate::proofs::Loops::passes_more, crate::proofs::Loops::passes_all, crate::proofs::Loops::fails_at))]
fn are_asks(asks: &[Ask]) -> bool
    ensures { result ≡ (spelling.has_some asks.now && list_all spelling.is_ask asks.now) }
{
    for ask in asks {
        if !is_string(&ask.filter) {
            return false;
        }
    }
    !asks.is_empty()
}

#[tactic(auto, using(crate::proofs::Loops::passes_more, crate::proofs::Loops::passes_all, crate::proofs::Loops::fails_at))]
fn are_filters(filters: &[Text]) -> bool
    ensures { result ≡ (spelling.has_some filters.now && list_all spelling.is_string filters.now) }
{
    for filter in filters {
        if !is_string(filter) {
            return false;
        }
    }
    !filters.is_empty()
}

#[tactic(auto, using(crate::proofs::Loops::passes_more, crate::proofs::Loops::passes_all, crate::proofs::Loops::fails_at))]
pub(crate) fn are_return_codes(codes: &[u8]) -> bool
    ensures { result ≡ (spelling.has_some codes.now && list_all spelling.is_return_code codes.now) }
{
    for code in codes {
        if !is_return_code(*code) {
            return false;
        }
    }
    !codes.is_empty()
}

/// A granted quality of service, or 128 for a refusal (MQTT 3.1.1, section 3.9.3).
fn is_return_code(code: u8) -> bool
    ensures { result ≡ spelling.is_return_code code }
{
    code <= 2 || code == 128
}
