//! Packets, read from the bytes behind their remaining length (MQTT 3.1.1, chapter 3).

ghost use Rattle.std.specs.Prelude.{◌≡◌, ◌==◌, ◌/◌, ◌%◌, ℕ, Option, Some};
ghost use Rattle.mqtt_packet.specs.Spelling as spelling;
ghost use Rattle.mqtt_packet.specs.Reading.{Gives, packet_of, connect_of, connect_behind, connect_with, connack_of, publish_of, identifier_for, subscribe_of, unsubscribe_of, suback_of, identifier_of, will_for, user_for, password_for, is_allowed};

use crate::fields::{blob_at, byte_at, identifier_at, number_at, qos_of, text_at, whole};
use crate::flags::connect_flags;
use crate::kind::Kind;
use crate::lists::{asks_of, filters_of};
use crate::packet::Packet;
use crate::qos::Qos;
use crate::refusal::Refusal;
use crate::soundness::are_return_codes;
use crate::will::Will;
use list_types::{Blob, Seq, Text};
use std::alloc::Global;

/// The packet of a kind whose bytes behind the remaining length are `body`.
pub(crate) fn packet_of(alloc: Global, kind: Kind, body: &[u8]) -> Result<Packet, Refusal>
    ensures { Gives (λ packet. packet) result (packet_of kind body.now) }
{
    match kind {
        Kind::Connect => connect_of(alloc, body),
        Kind::ConnAck => connack_of(body),
        Kind::Publish { dup, qos, retain } => publish_of(alloc, dup, qos, retain, body),
        Kind::PubAck => Ok(Packet::PubAck {
            id: identifier_of(body)?,
        }),
        Kind::PubRec => Ok(Packet::PubRec {
            id: identifier_of(body)?,
        }),
        Kind::PubRel => Ok(Packet::PubRel {
            id: identifier_of(body)?,
        }),
        Kind::PubComp => Ok(Packet::PubComp {
            id: identifier_of(body)?,
        }),
        Kind::Subscribe => subscribe_of(alloc, body),
        Kind::SubAck => suback_of(alloc, body),
        Kind::Unsubscribe => unsubscribe_of(alloc, body),
        Kind::UnsubAck => Ok(Packet::UnsubAck {
            id: identifier_of(body)?,
        }),
        Kind::PingReq => whole(Packet::PingReq, body),
        Kind::PingResp => whole(Packet::PingResp, body),
        Kind::Disconnect => whole(Packet::Disconnect, body),
    }
}

/// An identifier and nothing else (sections 3.4 to 3.7 and 3.11).
#[tactic(auto, unfolding(crate::specs::Reading::identifier_of))]
fn identifier_of(body: &[u8]) -> Result<u16, Refusal>
    ensures { Gives (λ id. id) result (identifier_of body.now) }
{
    let (id, rest) = identifier_at(body)?;
    whole(id, rest)
}

/// Protocol name `MQTT` behind its length, and protocol level 4 (sections 3.1.2.1 and 3.1.2.2).
const PROTOCOL: [u8; 7] = [0, 4, b'M', b'Q', b'T', b'T', 4];

/// CONNECT (section 3.1).
#[tactic(auto, unfolding(crate::specs::Reading::connect_of))]
fn connect_of(alloc: Global, body: &[u8]) -> Result<Packet, Refusal>
    ensures { Gives (λ packet. packet) result (connect_of body.now) }
{
    if !body.starts_with(PROTOCOL.as_slice()) {
        return Err(Refusal::Bad);
    }
    let (_, behind) = body.split_at(PROTOCOL.len());
    connect_behind(alloc, behind)
}

#[tactic(auto, unfolding(crate::specs::Reading::connect_behind))]
fn connect_behind(alloc: Global, bytes: &[u8]) -> Result<Packet, Refusal>
    ensures { Gives (λ packet. packet) result (connect_behind bytes.now) }
{
    let (flags, rest) = byte_at(bytes)?;
    let (keep_alive, rest) = number_at(rest)?;
    let (client, rest) = text_at(alloc, rest)?;
    let (will, rest) = will_for(alloc, flags, rest)?;
    let (user, rest) = user_for(alloc, flags, rest)?;
    let (password, rest) = password_for(alloc, flags, rest)?;
    connect_with(flags, keep_alive, client, will, user, password, rest)
}

/// The CONNECT of these parts, where nothing stands behind them and the flags are theirs.
#[tactic(auto, unfolding(crate::specs::Reading::connect_with))]
fn connect_with(
    flags: u8,
    keep_alive: u16,
    client: Text,
    will: Option<Will>,
    user: Option<Text>,
    password: Option<Blob>,
    rest: &[u8],
) -> Result<Packet, Refusal>
    ensures { Gives (λ packet. packet) result (connect_with flags keep_alive client will user password rest.now) }
{
    if !rest.is_empty() {
        return Err(Refusal::Bad);
    }
    let clean = flags / 2 % 2 == 1;
    if flags != connect_flags(clean, &will, &user, &password) || !is_allowed(&user, &password) {
        return Err(Refusal::Bad);
    }
    Ok(Packet::Connect {
        clean,
        keep_alive,
        client,
        will,
        user,
        password,
    })
}

/// A password stands only beside a user name (section 3.1.2.9).
fn is_allowed(user: &Option<Text>, password: &Option<Blob>) -> bool
    ensures { result ≡ is_allowed user.now password.now }
{
    user.is_some() || password.is_none()
}

/// The will, where it is flagged (sections 3.1.2.5 to 3.1.2.7).
#[tactic(auto, unfolding(crate::specs::Reading::will_for, crate::specs::Reading::will_at))]
fn will_for(alloc: Global, flags: u8, bytes: &[u8]) -> Result<(Option<Will>, &[u8]), Refusal>
    ensures { Gives (λ x. (x.0, x.1.now)) result (will_for flags bytes.now) }
{
    if flags / 4 % 2 != 1 {
        return Ok((None, bytes));
    }
    let qos = qos_of(flags / 8 % 4).ok_or(Refusal::Bad)?;
    let (topic, rest) = text_at(alloc, bytes)?;
    let (message, rest) = blob_at(alloc, rest)?;
    let will = Will {
        topic,
        message,
        qos,
        retain: flags / 32 % 2 == 1,
    };
    Ok((Some(will), rest))
}

#[tactic(auto, unfolding(crate::specs::Reading::user_for, crate::specs::Reading::user_at))]
fn user_for(alloc: Global, flags: u8, bytes: &[u8]) -> Result<(Option<Text>, &[u8]), Refusal>
    ensures { Gives (λ x. (x.0, x.1.now)) result (user_for flags bytes.now) }
{
    if flags / 128 % 2 != 1 {
        return Ok((None, bytes));
    }
    let (user, rest) = text_at(alloc, bytes)?;
    Ok((Some(user), rest))
}

#[tactic(auto, unfolding(crate::specs::Reading::password_for, crate::specs::Reading::password_at))]
fn password_for(alloc: Global, flags: u8, bytes: &[u8]) -> Result<(Option<Blob>, &[u8]), Refusal>
    ensures { Gives (λ x. (x.0, x.1.now)) result (password_for flags bytes.now) }
{
    if flags / 64 % 2 != 1 {
        return Ok((None, bytes));
    }
    let (password, rest) = blob_at(alloc, bytes)?;
    Ok((Some(password), rest))
}

/// CONNACK (section 3.2).
#[tactic(auto, unfolding(crate::specs::Reading::connack_of))]
fn connack_of(body: &[u8]) -> Result<Packet, Refusal>
    ensures { Gives (λ packet. packet) result (connack_of body.now) }
{
    let [flags, code] = body else {
        return Err(Refusal::Bad);
    };
    if *flags > 1 || *code > 5 || (*code != 0 && *flags != 0) {
        return Err(Refusal::Bad);
    }
    Ok(Packet::ConnAck {
        present: *flags == 1,
        code: *code,
    })
}

/// PUBLISH (section 3.3).
#[tactic(auto, unfolding(crate::specs::Reading::publish_of))]
fn publish_of(
    alloc: Global,
    dup: bool,
    qos: Qos,
    retain: bool,
    body: &[u8],
) -> Result<Packet, Refusal>
    ensures { Gives (λ packet. packet) result (publish_of dup qos retain body.now) }
{
    let (topic, rest) = text_at(alloc, body)?;
    let (id, payload) = identifier_for(qos, rest)?;
    Ok(Packet::Publish {
        dup,
        qos,
        retain,
        topic,
        id,
        payload: Blob::from_vec(Vec::from_slice(alloc, payload)?),
    })
}

#[tactic(auto, unfolding(crate::specs::Reading::identifier_for))]
fn identifier_for(qos: Qos, bytes: &[u8]) -> Result<(u16, &[u8]), Refusal>
    ensures { Gives (λ x. (x.0, x.1.now)) result (identifier_for qos bytes.now) }
{
    match qos {
        Qos::AtMostOnce => Ok((0, bytes)),
        Qos::AtLeastOnce => identifier_at(bytes),
        Qos::ExactlyOnce => identifier_at(bytes),
    }
}

/// SUBSCRIBE (section 3.8).
#[tactic(auto, unfolding(crate::specs::Reading::subscribe_of))]
fn subscribe_of(alloc: Global, body: &[u8]) -> Result<Packet, Refusal>
    ensures { Gives (λ packet. packet) result (subscribe_of body.now) }
{
    let (id, rest) = identifier_at(body)?;
    let asks = asks_of(alloc, rest)?;
    Ok(Packet::Subscribe { id, asks })
}

/// UNSUBSCRIBE (section 3.10).
#[tactic(auto, unfolding(crate::specs::Reading::unsubscribe_of))]
fn unsubscribe_of(alloc: Global, body: &[u8]) -> Result<Packet, Refusal>
    ensures { Gives (λ packet. packet) result (unsubscribe_of body.now) }
{
    let (id, rest) = identifier_at(body)?;
    let filters = filters_of(alloc, rest)?;
    Ok(Packet::Unsubscribe { id, filters })
}

/// SUBACK (section 3.9).
#[tactic(auto, unfolding(crate::specs::Reading::suback_of))]
fn suback_of(alloc: Global, body: &[u8]) -> Result<Packet, Refusal>
    ensures { Gives (λ packet. packet) result (suback_of body.now) }
{
    let (id, codes) = identifier_at(body)?;
    if !are_return_codes(codes) {
        return Err(Refusal::Bad);
    }
    Ok(Packet::SubAck {
        id,
        codes: Seq::from_vec(Vec::from_slice(alloc, codes)?),
    })
}
