//! An open command of a saved session, put into a buffer. Its packet is spelled from what the agent keeps of it, as
//! a packet of its own would have to be a copy, which takes memory.

ghost use Rattle.std.specs.Prelude.{◌≡◌, ◌≤◌, ◌<◌, ◌+◌, ◌-◌, ◌^◌, ◌%◌, ◌∷◌, [], ◌++◌, length, min, true, false};
ghost use Rattle.mqtt_packet.specs.Flags.{level};
ghost use Rattle.std.specs.List.{flat_map, list_all};
ghost use Rattle.mqtt_packet.specs.Spelling as packets;
ghost use Rattle.session_text.specs.Spelling as spelling;
ghost use Rattle.session_text.specs.Spelling.{Puts, byte, number16, number32};
ghost use Rattle.mqtt_packet.specs.declared.packet.Packet.TheVariants as p;

use crate::fault::TooSmall;
use crate::put::{put, put_byte, put_text, put_u16, put_u32};
use crate::session::Stage;
use agent_journal::Request;
use list_types::{Blob, Text};
use mqtt_packet::{Ask, Qos};
use pending_acks::Pending;

/// An open command. Its filters are few and texts, as those of each request that an agent takes.
///
/// # Errors
/// [`TooSmall`] exactly where it doesn't fit.
#[tactic(auto, using(crate::proofs::Putting::puts_stop, crate::proofs::Putting::puts_then))]
pub fn put_command(
    out: &mut [u8],
    at: usize,
    stage: Stage,
    command: &Pending,
) -> Result<usize, TooSmall>
    requires at { at ≤ length out.old }
    requires sound { packets.is_sound (spelling.packet_of command.now.id command.now.request command.now.sent_filters) ≡ true }
    requires few { length (spelling.asked_of command.now.request) < 256 }
    requires texts { list_all packets.is_string (spelling.asked_of command.now.request) ≡ true }
    ensures { Puts (spelling.command_text (spelling.command_of stage command.now)) at out.old out.new result }
{
    let at = put_u32(out, at, command.task)?;
    put_seq_and_rest(out, at, stage, command)
}

#[tactic(auto, using(crate::proofs::Putting::puts_stop, crate::proofs::Putting::puts_then))]
fn put_seq_and_rest(
    out: &mut [u8],
    at: usize,
    stage: Stage,
    command: &Pending,
) -> Result<usize, TooSmall>
    requires at { at ≤ length out.old }
    requires sound { packets.is_sound (spelling.packet_of command.now.id command.now.request command.now.sent_filters) ≡ true }
    requires few { length (spelling.asked_of command.now.request) < 256 }
    requires texts { list_all packets.is_string (spelling.asked_of command.now.request) ≡ true }
    ensures { Puts (number32 command.now.seq ++ (byte (spelling.stage_number stage) ++ spelling.packet_and_filters (spelling.packet_of command.now.id command.now.request command.now.sent_filters) (spelling.asked_of command.now.request))) at out.old out.new result }
{
    let at = put_u32(out, at, command.seq)?;
    put_stage_and_packet(out, at, stage, command)
}

#[tactic(auto, using(crate::proofs::Putting::puts_stop, crate::proofs::Putting::puts_then))]
fn put_stage_and_packet(
    out: &mut [u8],
    at: usize,
    stage: Stage,
    command: &Pending,
) -> Result<usize, TooSmall>
    requires at { at ≤ length out.old }
    requires sound { packets.is_sound (spelling.packet_of command.now.id command.now.request command.now.sent_filters) ≡ true }
    requires few { length (spelling.asked_of command.now.request) < 256 }
    requires texts { list_all packets.is_string (spelling.asked_of command.now.request) ≡ true }
    ensures { Puts (byte (spelling.stage_number stage) ++ spelling.packet_and_filters (spelling.packet_of command.now.id command.now.request command.now.sent_filters) (spelling.asked_of command.now.request)) at out.old out.new result }
{
    let at = put_byte(out, at, stage_number(stage))?;
    put_packet_and_filters(
        out,
        at,
        command.id,
        &command.request,
        command.sent_filters.as_slice(),
    )
}

fn stage_number(stage: Stage) -> u8
    ensures { result ≡ spelling.stage_number stage }
{
    match stage {
        Stage::NoPublish => 0,
        Stage::Sent => 1,
        Stage::Released => 2,
    }
}

#[tactic(auto, using(crate::proofs::Putting::puts_stop, crate::proofs::Putting::puts_then))]
fn put_packet_and_filters(
    out: &mut [u8],
    at: usize,
    id: u16,
    request: &Request,
    named: &[Text],
) -> Result<usize, TooSmall>
    requires at { at ≤ length out.old }
    requires sound { packets.is_sound (spelling.packet_of id request.now named.now) ≡ true }
    requires few { length (spelling.asked_of request.now) < 256 }
    requires texts { list_all packets.is_string (spelling.asked_of request.now) ≡ true }
    ensures { Puts (spelling.packet_and_filters (spelling.packet_of id request.now named.now) (spelling.asked_of request.now)) at out.old out.new result }
{
    let at = put_packet(out, at, id, request, named)?;
    put_asked(out, at, request)
}

/// What an unsubscribe asked for, behind its packet.
fn put_asked(out: &mut [u8], at: usize, request: &Request) -> Result<usize, TooSmall>
    requires at { at ≤ length out.old }
    requires few { length (spelling.asked_of request.now) < 256 }
    requires texts { list_all packets.is_string (spelling.asked_of request.now) ≡ true }
    ensures { Puts (spelling.asked_text request.now) at out.old out.new result }
{
    match request {
        Request::Unsubscribe { filters } => put_counted_texts(out, at, filters.as_slice()),
        _ => put(out, at, [].as_slice()),
    }
}

#[tactic(auto, using(crate::proofs::Putting::puts_stop, crate::proofs::Putting::puts_then))]
fn put_counted_texts(out: &mut [u8], at: usize, texts: &[Text]) -> Result<usize, TooSmall>
    requires at { at ≤ length out.old }
    requires few { length texts.now < 256 }
    requires texts { list_all packets.is_string texts.now ≡ true }
    ensures { Puts (byte (length texts.now) ++ flat_map packets.string texts.now) at out.old out.new result }
{
    let at = put_byte(out, at, texts.len() as u8)?;
    put_texts(out, at, texts)
}

/// The packet behind its length of four bytes.
fn put_packet(
    out: &mut [u8],
    at: usize,
    id: u16,
    request: &Request,
    named: &[Text],
) -> Result<usize, TooSmall>
    requires at { at ≤ length out.old }
    requires sound { packets.is_sound (spelling.packet_of id request.now named.now) ≡ true }
    ensures { Puts (spelling.packet_text (spelling.packet_of id request.now named.now)) at out.old out.new result }
{
    put_parts(out, at, id, request, named)
}

fn put_parts(
    out: &mut [u8],
    at: usize,
    id: u16,
    request: &Request,
    named: &[Text],
) -> Result<usize, TooSmall>
    requires at { at ≤ length out.old }
    requires sound { packets.is_sound (spelling.packet_of id request.now named.now) ≡ true }
    ensures { Puts (spelling.parts_text (spelling.packet_of id request.now named.now)) at out.old out.new result }
{
    match request {
        Request::Publish {
            qos,
            topic,
            payload,
        } => put_publish(out, at, *qos, topic, id, payload),
        Request::Subscribe { asks } => put_subscribe(out, at, id, asks.as_slice()),
        Request::Unsubscribe { .. } => put_unsubscribe(out, at, id, named),
        _ => put_ping(out, at),
    }
}

/// A PINGREQ (section 3.12), as which no request is ever open.
#[tactic(auto, using(crate::proofs::Putting::puts_stop, crate::proofs::Putting::puts_then))]
fn put_ping(out: &mut [u8], at: usize) -> Result<usize, TooSmall>
    requires { at ≤ length out.old }
    ensures { Puts (spelling.parts_text p.PingReq) at out.old out.new result }
{
    let at = put_front(out, at, 192, 0)?;
    put(out, at, [].as_slice())
}

/// What stands in front of a packet's body: its length in four bytes, its first byte and its remaining length
/// (MQTT 3.1.1, section 2.2).
#[tactic(auto, using(crate::proofs::Putting::puts_stop, crate::proofs::Putting::puts_then))]
fn put_front(out: &mut [u8], at: usize, first: u8, body: usize) -> Result<usize, TooSmall>
    requires at { at ≤ length out.old }
    requires small { body ≤ 262144 }
    ensures { Puts (spelling.front_text first body) at out.old out.new result }
{
    let len = 1 + remaining_len(body) + body;
    let at = put_u32(out, at, len as u32)?;
    put_header(out, at, first, body)
}

/// The fixed header.
#[tactic(auto, using(crate::proofs::Putting::puts_stop, crate::proofs::Putting::puts_then))]
fn put_header(out: &mut [u8], at: usize, first: u8, body: usize) -> Result<usize, TooSmall>
    requires at { at ≤ length out.old }
    requires small { body ≤ 262144 }
    ensures { Puts (byte first ++ packets.remaining body) at out.old out.new result }
{
    let at = put_byte(out, at, first)?;
    put_remaining(out, at, body)
}

#[tactic(auto, unfolding(mqtt_packet::specs::Spelling::groups))]
fn put_remaining(out: &mut [u8], at: usize, len: usize) -> Result<usize, TooSmall>
    requires at { at ≤ length out.old }
    requires small { len ≤ 262144 }
    ensures { Puts (packets.remaining len) at out.old out.new result }
{
    if len < 128 {
        put(out, at, [len as u8].as_slice())
    } else if len < 16_384 {
        put(out, at, [group(len), (len / 128) as u8].as_slice())
    } else {
        put(
            out,
            at,
            [group(len), group(len / 128), (len / 128 / 128) as u8].as_slice(),
        )
    }
}

/// The low seven bits, and the sign that another group follows.
fn group(len: usize) -> u8
    ensures { result ≡ len % 128 + 128 }
{
    (len % 128) as u8 + 128
}

/// How many bytes the remaining length takes.
#[tactic(auto, unfolding(mqtt_packet::specs::Spelling::groups))]
fn remaining_len(len: usize) -> usize
    requires { len ≤ 262144 }
    ensures len { result ≡ length (packets.remaining len) }
    ensures small { result ≤ 3 }
{
    if len < 128 {
        1
    } else if len < 16_384 {
        2
    } else {
        3
    }
}

/// A PUBLISH as it is sent first (section 3.3).
#[tactic(auto, using(crate::proofs::Putting::puts_stop, crate::proofs::Putting::puts_then))]
fn put_publish(
    out: &mut [u8],
    at: usize,
    qos: Qos,
    topic: &Text,
    id: u16,
    payload: &Blob,
) -> Result<usize, TooSmall>
    requires at { at ≤ length out.old }
    requires sound { packets.is_sound (p.Publish false qos false topic.now id payload.now) ≡ true }
    ensures { Puts (spelling.parts_text (p.Publish false qos false topic.now id payload.now)) at out.old out.new result }
{
    let body = publish_len(qos, topic, id, payload);
    let at = put_front(out, at, publish_first(qos), body)?;
    put_publish_body(out, at, qos, topic, id, payload)
}

fn publish_first(qos: Qos) -> u8
    ensures { result ≡ packets.publish_first false qos false }
{
    match qos {
        Qos::AtMostOnce => 48,
        Qos::AtLeastOnce => 50,
        Qos::ExactlyOnce => 52,
    }
}

fn publish_len(qos: Qos, topic: &Text, id: u16, payload: &Blob) -> usize
    requires sound { packets.is_sound (p.Publish false qos false topic.now id payload.now) ≡ true }
    ensures len { result ≡ length (packets.publish_body qos topic.now id payload.now) }
    ensures small { result ≤ 262144 }
{
    let identifier = match qos {
        Qos::AtMostOnce => 0,
        Qos::AtLeastOnce => 2,
        Qos::ExactlyOnce => 2,
    };
    2 + topic.len() + identifier + payload.as_slice().len()
}

#[tactic(auto, using(crate::proofs::Putting::puts_stop, crate::proofs::Putting::puts_then))]
fn put_publish_body(
    out: &mut [u8],
    at: usize,
    qos: Qos,
    topic: &Text,
    id: u16,
    payload: &Blob,
) -> Result<usize, TooSmall>
    requires at { at ≤ length out.old }
    requires short { length topic.now < 65536 }
    ensures { Puts (packets.publish_body qos topic.now id payload.now) at out.old out.new result }
{
    let at = put_topic(out, at, qos, topic, id)?;
    put(out, at, payload.as_slice())
}

#[tactic(auto, using(crate::proofs::Putting::puts_stop, crate::proofs::Putting::puts_then))]
fn put_topic(out: &mut [u8], at: usize, qos: Qos, topic: &Text, id: u16) -> Result<usize, TooSmall>
    requires at { at ≤ length out.old }
    requires short { length topic.now < 65536 }
    ensures { Puts (packets.string topic.now ++ packets.identifier_for qos id) at out.old out.new result }
{
    let at = put_text(out, at, topic)?;
    put_identifier(out, at, qos, id)
}

fn put_identifier(out: &mut [u8], at: usize, qos: Qos, id: u16) -> Result<usize, TooSmall>
    requires { at ≤ length out.old }
    ensures { Puts (packets.identifier_for qos id) at out.old out.new result }
{
    match qos {
        Qos::AtMostOnce => put(out, at, [].as_slice()),
        Qos::AtLeastOnce => put_u16(out, at, id),
        Qos::ExactlyOnce => put_u16(out, at, id),
    }
}

/// A SUBSCRIBE (section 3.8).
#[tactic(auto, using(crate::proofs::Putting::puts_stop, crate::proofs::Putting::puts_then))]
fn put_subscribe(out: &mut [u8], at: usize, id: u16, asks: &[Ask]) -> Result<usize, TooSmall>
    requires at { at ≤ length out.old }
    requires sound { packets.is_sound (p.Subscribe id asks.now) ≡ true }
    ensures { Puts (spelling.parts_text (p.Subscribe id asks.now)) at out.old out.new result }
{
    let at = put_front(out, at, 130, subscribe_len(id, asks))?;
    put_subscribe_body(out, at, id, asks)
}

fn subscribe_len(id: u16, asks: &[Ask]) -> usize
    requires sound { packets.is_sound (p.Subscribe id asks.now) ≡ true }
    ensures len { result ≡ length (packets.body (p.Subscribe id asks.now)) }
    ensures small { result ≤ 262144 }
{
    asks_len(asks).saturating_add(2)
}

/// How many bytes the asks have, or the greatest number where they are more.
#[tactic(auto, using(mqtt_packet::proofs::Loops::length_more))]
fn asks_len(asks: &[Ask]) -> usize
    ensures { result ≡ min (length (flat_map packets.ask_bytes asks.now)) (2 ^ 64 - 1) }
{
    let mut total: usize = 0;
    for ask in asks {
        total = total.saturating_add(ask.filter.len().saturating_add(3));
    }
    total
}

#[tactic(auto, using(crate::proofs::Putting::puts_stop, crate::proofs::Putting::puts_then))]
fn put_subscribe_body(out: &mut [u8], at: usize, id: u16, asks: &[Ask]) -> Result<usize, TooSmall>
    requires at { at ≤ length out.old }
    requires asks { list_all packets.is_ask asks.now ≡ true }
    ensures { Puts (number16 id ++ flat_map packets.ask_bytes asks.now) at out.old out.new result }
{
    let at = put_u16(out, at, id)?;
    put_asks(out, at, asks)
}

#[tactic(auto, using(crate::proofs::Putting::puts_none, crate::proofs::Putting::puts_more, crate::proofs::Putting::puts_out, crate::proofs::Putting::puts_all))]
fn put_asks(out: &mut [u8], at: usize, asks: &[Ask]) -> Result<usize, TooSmall>
    requires at { at ≤ length out.old }
    requires asks { list_all packets.is_ask asks.now ≡ true }
    ensures { Puts (flat_map packets.ask_bytes asks.now) at out.old out.new result }
{
    let mut end = at;
    for ask in asks {
        end = put_ask(out, end, ask)?;
    }
    Ok(end)
}

#[tactic(auto, using(crate::proofs::Putting::puts_stop, crate::proofs::Putting::puts_then))]
fn put_ask(out: &mut [u8], at: usize, ask: &Ask) -> Result<usize, TooSmall>
    requires at { at ≤ length out.old }
    requires ask { packets.is_ask ask.now ≡ true }
    ensures { Puts (packets.ask_bytes ask.now) at out.old out.new result }
{
    let at = put_text(out, at, &ask.filter)?;
    put_qos(out, at, ask.qos)
}

#[tactic(auto, unfolding(crate::specs::Spelling::byte))]
fn put_qos(out: &mut [u8], at: usize, qos: Qos) -> Result<usize, TooSmall>
    requires { at ≤ length out.old }
    ensures { Puts (level qos ∷ []) at out.old out.new result }
{
    put_byte(out, at, level(qos))
}

pub(crate) fn level(qos: Qos) -> u8
    ensures { result ≡ level qos }
{
    match qos {
        Qos::AtMostOnce => 0,
        Qos::AtLeastOnce => 1,
        Qos::ExactlyOnce => 2,
    }
}

/// An UNSUBSCRIBE (section 3.10).
#[tactic(auto, using(crate::proofs::Putting::puts_stop, crate::proofs::Putting::puts_then))]
fn put_unsubscribe(out: &mut [u8], at: usize, id: u16, named: &[Text]) -> Result<usize, TooSmall>
    requires at { at ≤ length out.old }
    requires sound { packets.is_sound (p.Unsubscribe id named.now) ≡ true }
    ensures { Puts (spelling.parts_text (p.Unsubscribe id named.now)) at out.old out.new result }
{
    let at = put_front(out, at, 162, unsubscribe_len(id, named))?;
    put_unsubscribe_body(out, at, id, named)
}

fn unsubscribe_len(id: u16, named: &[Text]) -> usize
    requires sound { packets.is_sound (p.Unsubscribe id named.now) ≡ true }
    ensures len { result ≡ length (packets.body (p.Unsubscribe id named.now)) }
    ensures small { result ≤ 262144 }
{
    texts_len(named).saturating_add(2)
}

/// How many bytes the texts have, or the greatest number where they are more.
#[tactic(auto, using(mqtt_packet::proofs::Loops::length_more))]
fn texts_len(texts: &[Text]) -> usize
    ensures { result ≡ min (length (flat_map packets.string texts.now)) (2 ^ 64 - 1) }
{
    let mut total: usize = 0;
    for text in texts {
        total = total.saturating_add(text.len().saturating_add(2));
    }
    total
}

#[tactic(auto, using(crate::proofs::Putting::puts_stop, crate::proofs::Putting::puts_then))]
fn put_unsubscribe_body(
    out: &mut [u8],
    at: usize,
    id: u16,
    named: &[Text],
) -> Result<usize, TooSmall>
    requires at { at ≤ length out.old }
    requires texts { list_all packets.is_string named.now ≡ true }
    ensures { Puts (number16 id ++ flat_map packets.string named.now) at out.old out.new result }
{
    let at = put_u16(out, at, id)?;
    put_texts(out, at, named)
}

#[tactic(auto, using(crate::proofs::Putting::puts_none, crate::proofs::Putting::puts_more, crate::proofs::Putting::puts_out, crate::proofs::Putting::puts_all))]
fn put_texts(out: &mut [u8], at: usize, texts: &[Text]) -> Result<usize, TooSmall>
    requires at { at ≤ length out.old }
    requires texts { list_all packets.is_string texts.now ≡ true }
    ensures { Puts (flat_map packets.string texts.now) at out.old out.new result }
{
    let mut end = at;
    for text in texts {
        end = put_text(out, end, text)?;
    }
    Ok(end)
}
