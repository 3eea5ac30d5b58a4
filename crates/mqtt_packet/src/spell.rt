//! The bytes of a packet.

ghost use Rattle.std.specs.Prelude.{◌≡◌, ℕ, List, ◌+◌, ◌*◌, ◌%◌, ◌^◌, ◌<◌, ◌≤◌, ◌↔◌, ◌∷◌, [], ◌++◌, length, take, drop, true, IsErr, IfOk, IfErr, OnErr};
ghost use Rattle.std.specs.List.{list_all, flat_map};
ghost use Rattle.mqtt_packet.specs.Flags.{bit, level};
ghost use Rattle.mqtt_packet.specs.Grammar.{Spells};
ghost use Rattle.mqtt_packet.specs.Spelling as spelling;

use crate::flags::{bit, connect_flags, first, level};
use crate::packet::Packet;
use crate::put::{put, put_data, put_number, put_remaining, put_string};
use crate::qos::Qos;
use crate::sizes::{body_len, len_within};
use crate::soundness::numbers_fit;
use crate::will::{Ask, Will};
use list_types::{Blob, Text};

/// The buffer is too short for the packet.
#[derive(Clone, Copy, Debug, PartialEq, Eq)]
pub struct TooSmall {
    /// How many bytes the packet has.
    pub needed: usize,
}

/// How many bytes a packet has, [`PACKET_LIMIT`](crate::PACKET_LIMIT) at most. It takes no memory.
pub fn spelled_len(packet: &Packet) -> usize
    requires { spelling.is_sound packet.now ≡ true }
    ensures len { result ≡ length (spelling.spelling packet.now) }
    ensures spelled { (bytes : List ℕ) → Spells packet.now bytes → result ≡ length bytes }
    ensures most { result ≤ 262144 }
{
    len_within(packet)
}

/// Writes a packet into the front of `out`, and answers how many bytes it has. What stands behind it stays.
/// It takes no memory.
///
/// # Errors
/// [`TooSmall`] exactly where `out` is shorter than the packet; `out` is then unchanged.
pub fn encode(packet: &Packet, out: &mut [u8]) -> Result<usize, TooSmall>
    requires { spelling.is_sound packet.now ≡ true }
    ensures count { IfOk result (λ n. n ≡ length (spelling.spelling packet.now)) }
    ensures spelling { IfOk result (λ n. take n out.new ≡ spelling.spelling packet.now) }
    ensures spelled { IfOk result (λ n. Spells packet.now (take n out.new)) }
    ensures back { IfOk result (λ n. drop n out.new ≡ drop n out.old) }
    ensures too_small { IsErr result ↔ (length out.old < length (spelling.spelling packet.now)) }
    ensures needed { IfErr result (λ e. e.needed ≡ length (spelling.spelling packet.now)) }
    ensures same { OnErr result (out.new ≡ out.old) }
    ensures len { length out.new ≡ length out.old }
{
    numbers_fit(packet);
    let needed = spelled_len(packet);
    if out.len() < needed {
        return Err(TooSmall { needed });
    }
    Ok(put_packet(&mut out[..needed], packet))
}

fn put_packet(out: &mut [u8], packet: &Packet) -> usize
    requires sound { spelling.is_sound packet.now ≡ true }
    requires room { length (spelling.spelling packet.now) ≤ length out.old }
    ensures len { length out.new ≡ length out.old }
    ensures end { result ≡ length (spelling.spelling packet.now) }
    ensures front { take result out.new ≡ spelling.spelling packet.now }
{
    let at = put(out, 0, [first(packet)].as_slice());
    let at = put_remaining(out, at, body_len(packet));
    put_body(out, at, packet)
}

fn put_body(out: &mut [u8], at: usize, packet: &Packet) -> usize
    requires fields { spelling.has_fields packet.now ≡ true }
    requires room { at + length (spelling.body packet.now) ≤ length out.old }
    ensures end { result ≡ at + length (spelling.body packet.now) }
    ensures len { length out.new ≡ length out.old }
    ensures front { take result out.new ≡ take at out.old ++ spelling.body packet.now }
{
    match packet {
        Packet::Connect {
            clean,
            keep_alive,
            client,
            will,
            user,
            password,
        } => put_connect(out, at, *clean, *keep_alive, client, will, user, password),
        Packet::ConnAck { present, code } => put(out, at, [bit(*present), *code].as_slice()),
        Packet::Publish {
            qos,
            topic,
            id,
            payload,
            ..
        } => put_publish(out, at, *qos, topic, *id, payload),
        Packet::PubAck { id } => put_number(out, at, *id),
        Packet::PubRec { id } => put_number(out, at, *id),
        Packet::PubRel { id } => put_number(out, at, *id),
        Packet::PubComp { id } => put_number(out, at, *id),
        Packet::Subscribe { id, asks } => put_subscribe(out, at, *id, asks.as_slice()),
        Packet::SubAck { id, codes } => put_suback(out, at, *id, codes.as_slice()),
        Packet::Unsubscribe { id, filters } => put_unsubscribe(out, at, *id, filters.as_slice()),
        Packet::UnsubAck { id } => put_number(out, at, *id),
        Packet::PingReq => at,
        Packet::PingResp => at,
        Packet::Disconnect => at,
    }
}

fn put_connect(
    out: &mut [u8],
    at: usize,
    clean: bool,
    keep_alive: u16,
    client: &Text,
    will: &Option<Will>,
    user: &Option<Text>,
    password: &Option<Blob>,
) -> usize
    requires short { length client.now < 65536 }
    requires will { spelling.is_will will.now ≡ true }
    requires credentials { spelling.are_credentials user.now password.now ≡ true }
    requires room { at + length (spelling.connect_body clean keep_alive client.now will.now user.now password.now) ≤ length out.old }
    ensures end { result ≡ at + length (spelling.connect_body clean keep_alive client.now will.now user.now password.now) }
    ensures len { length out.new ≡ length out.old }
    ensures front { take result out.new ≡ take at out.old ++ spelling.connect_body clean keep_alive client.now will.now user.now password.now }
{
    let flags = connect_flags(clean, will, user, password);
    let at = put_connect_head(out, at, flags, keep_alive);
    let at = put_string(out, at, client);
    put_extras(out, at, will, user, password)
}

/// The variable header of a CONNECT (section 3.1.2).
fn put_connect_head(out: &mut [u8], at: usize, flags: u8, keep_alive: u16) -> usize
    requires { at + 10 ≤ length out.old }
    ensures end { result ≡ at + 10 }
    ensures len { length out.new ≡ length out.old }
    ensures front { take result out.new ≡ take at out.old ++ (spelling.protocol ++ flags ∷ [] ++ spelling.number keep_alive) }
{
    let at = put(out, at, [0, 4, b'M', b'Q', b'T', b'T', 4, flags].as_slice());
    put_number(out, at, keep_alive)
}

/// The payload of a CONNECT behind the client identifier (section 3.1.3).
fn put_extras(
    out: &mut [u8],
    at: usize,
    will: &Option<Will>,
    user: &Option<Text>,
    password: &Option<Blob>,
) -> usize
    requires will { spelling.is_will will.now ≡ true }
    requires credentials { spelling.are_credentials user.now password.now ≡ true }
    requires room { at + length (spelling.extras will.now user.now password.now) ≤ length out.old }
    ensures end { result ≡ at + length (spelling.extras will.now user.now password.now) }
    ensures len { length out.new ≡ length out.old }
    ensures front { take result out.new ≡ take at out.old ++ spelling.extras will.now user.now password.now }
{
    let at = put_will(out, at, will);
    let at = put_user(out, at, user);
    put_password(out, at, password)
}

fn put_will(out: &mut [u8], at: usize, will: &Option<Will>) -> usize
    requires will { spelling.is_will will.now ≡ true }
    requires room { at + length (spelling.will_part will.now) ≤ length out.old }
    ensures end { result ≡ at + length (spelling.will_part will.now) }
    ensures len { length out.new ≡ length out.old }
    ensures front { take result out.new ≡ take at out.old ++ spelling.will_part will.now }
{
    match will {
        None => at,
        Some(will) => {
            let at = put_string(out, at, &will.topic);
            put_data(out, at, &will.message)
        }
    }
}

fn put_user(out: &mut [u8], at: usize, user: &Option<Text>) -> usize
    requires short { length (spelling.optional user.now) < 65538 }
    requires room { at + length (spelling.optional user.now) ≤ length out.old }
    ensures end { result ≡ at + length (spelling.optional user.now) }
    ensures len { length out.new ≡ length out.old }
    ensures front { take result out.new ≡ take at out.old ++ spelling.optional user.now }
{
    match user {
        None => at,
        Some(user) => put_string(out, at, user),
    }
}

fn put_password(out: &mut [u8], at: usize, password: &Option<Blob>) -> usize
    requires short { length (spelling.optional password.now) < 65538 }
    requires room { at + length (spelling.optional password.now) ≤ length out.old }
    ensures end { result ≡ at + length (spelling.optional password.now) }
    ensures len { length out.new ≡ length out.old }
    ensures front { take result out.new ≡ take at out.old ++ spelling.optional password.now }
{
    match password {
        None => at,
        Some(password) => put_data(out, at, password),
    }
}

fn put_publish(out: &mut [u8], at: usize, qos: Qos, topic: &Text, id: u16, payload: &Blob) -> usize
    requires short { length topic.now < 65536 }
    requires room { at + length (spelling.publish_body qos topic.now id payload.now) ≤ length out.old }
    ensures end { result ≡ at + length (spelling.publish_body qos topic.now id payload.now) }
    ensures len { length out.new ≡ length out.old }
    ensures front { take result out.new ≡ take at out.old ++ spelling.publish_body qos topic.now id payload.now }
{
    let at = put_string(out, at, topic);
    let at = put_identifier(out, at, qos, id);
    put(out, at, payload.as_slice())
}

fn put_identifier(out: &mut [u8], at: usize, qos: Qos, id: u16) -> usize
    requires { at + length (spelling.identifier_for qos id) ≤ length out.old }
    ensures end { result ≡ at + length (spelling.identifier_for qos id) }
    ensures len { length out.new ≡ length out.old }
    ensures front { take result out.new ≡ take at out.old ++ spelling.identifier_for qos id }
{
    match qos {
        Qos::AtMostOnce => at,
        Qos::AtLeastOnce => put_number(out, at, id),
        Qos::ExactlyOnce => put_number(out, at, id),
    }
}

fn put_subscribe(out: &mut [u8], at: usize, id: u16, asks: &[Ask]) -> usize
    requires fields { list_all spelling.is_ask asks.now ≡ true }
    requires room { at + 2 + length (flat_map spelling.ask_bytes asks.now) ≤ length out.old }
    ensures end { result ≡ at + 2 + length (flat_map spelling.ask_bytes asks.now) }
    ensures len { length out.new ≡ length out.old }
    ensures front { take result out.new ≡ take at out.old ++ (spelling.number id ++ flat_map spelling.ask_bytes asks.now) }
{
    let at = put_number(out, at, id);
    put_asks(out, at, asks)
}

#[tactic(auto, using(crate::proofs::Loops::length_more, crate::proofs::Loops::length_within, crate::proofs::Loops::bytes_more, crate::proofs::Loops::passes_at))]
fn put_asks(out: &mut [u8], at: usize, asks: &[Ask]) -> usize
    requires fields { list_all spelling.is_ask asks.now ≡ true }
    requires room { at + length (flat_map spelling.ask_bytes asks.now) ≤ length out.old }
    ensures end { result ≡ at + length (flat_map spelling.ask_bytes asks.now) }
    ensures len { length out.new ≡ length out.old }
    ensures front { take result out.new ≡ take at out.old ++ flat_map spelling.ask_bytes asks.now }
{
    let mut end = at;
    for ask in asks {
        end = put_ask(out, end, ask);
    }
    end
}

fn put_ask(out: &mut [u8], at: usize, ask: &Ask) -> usize
    requires short { length ask.now.filter < 65536 }
    requires room { at + length (spelling.ask_bytes ask.now) ≤ length out.old }
    ensures end { result ≡ at + length (spelling.ask_bytes ask.now) }
    ensures len { length out.new ≡ length out.old }
    ensures front { take result out.new ≡ take at out.old ++ spelling.ask_bytes ask.now }
{
    let at = put_string(out, at, &ask.filter);
    put(out, at, [level(ask.qos)].as_slice())
}

fn put_suback(out: &mut [u8], at: usize, id: u16, codes: &[u8]) -> usize
    requires { at + 2 + length codes.now ≤ length out.old }
    ensures end { result ≡ at + 2 + length codes.now }
    ensures len { length out.new ≡ length out.old }
    ensures front { take result out.new ≡ take at out.old ++ (spelling.number id ++ codes.now) }
{
    let at = put_number(out, at, id);
    put(out, at, codes)
}

fn put_unsubscribe(out: &mut [u8], at: usize, id: u16, filters: &[Text]) -> usize
    requires fields { list_all spelling.is_string filters.now ≡ true }
    requires room { at + 2 + length (flat_map spelling.string filters.now) ≤ length out.old }
    ensures end { result ≡ at + 2 + length (flat_map spelling.string filters.now) }
    ensures len { length out.new ≡ length out.old }
    ensures front { take result out.new ≡ take at out.old ++ (spelling.number id ++ flat_map spelling.string filters.now) }
{
    let at = put_number(out, at, id);
    put_filters(out, at, filters)
}

#[tactic(auto, using(crate::proofs::Loops::length_more, crate::proofs::Loops::length_within, crate::proofs::Loops::bytes_more, crate::proofs::Loops::passes_at))]
fn put_filters(out: &mut [u8], at: usize, filters: &[Text]) -> usize
    requires fields { list_all spelling.is_string filters.now ≡ true }
    requires room { at + length (flat_map spelling.string filters.now) ≤ length out.old }
    ensures end { result ≡ at + length (flat_map spelling.string filters.now) }
    ensures len { length out.new ≡ length out.old }
    ensures front { take result out.new ≡ take at out.old ++ flat_map spelling.string filters.now }
{
    let mut end = at;
    for filter in filters {
        end = put_string(out, end, filter);
    }
    end
}
