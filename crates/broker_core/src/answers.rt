//! What the broker answers to a packet, rule by rule (MQTT 3.1.1, sections 3.3 to 3.14).

ghost use Rattle.std.specs.Prelude.{true, false, ◌≡◌, ◌≤◌, ◌+◌, ◌++◌, ◌∷◌, [], List, Bool, map, length, if◌then◌else◌, IfOk, OnOk, OnErr};
ghost use Rattle.std.specs.List.{list_any};
ghost use Rattle.std.specs.Vec.{vec_len, vec_capacity};
ghost use Rattle.agent_table.specs.Deliveries.{is_among};
ghost use Rattle.mqtt_packet.specs.declared.packet.Packet.{Packet};
ghost use Rattle.mqtt_packet.specs.declared.packet.Packet.TheVariants as p;
ghost use Rattle.mqtt_packet.specs.declared.qos.Qos.TheVariants.{AtLeastOnce, ExactlyOnce};
ghost use Rattle.broker_core.specs.declared.link.Link as connection;
ghost use Rattle.broker_core.specs.declared.link.Link.TheVariants as links;
ghost use Rattle.broker_core.specs.Kept.{keeps, kept_by};
ghost use Rattle.broker_core.specs.Past.{IsThere};
ghost use Rattle.broker_core.specs.Session as spec;
ghost use Rattle.broker_core.specs.Subscribed as subscribed;
ghost use Rattle.broker_core.specs.Rules as rules;

use crate::connecting::connect;
use crate::link::Link;
use crate::passing::{offer_all, withdraw_all};
use crate::replies::Replies;
use crate::session::Session;
use crate::subscribed::return_codes;
use list_types::Text;
use mqtt_packet::{Asks, Codes, Filters, Packet, Qos, Resend};
use std::alloc::{AllocError, Global};
use topic_filter::is_name;

/// The replies, and whether the packet is a message that is passed on.
#[derive(Debug, Drop)]
pub struct Answered {
    pub replies: Replies,
    pub passes: bool,
}

/// Answers a packet. The message isn't among those that were passed on yet, and the connection didn't end yet where the
/// broker closes. Where memory runs out, nothing has changed.
pub fn answer(
    alloc: Global,
    link: &mut Link,
    others: &mut Vec<Session>,
    passed: &[Packet],
    packet: &Packet,
) -> Result<Answered, AllocError>
    requires there { IsThere link.old }
    requires room { vec_len others.old + length (kept_by link.old) ≤ vec_capacity others.old }
    ensures ok { IfOk result (λ a. rules.answer_on link.old packet.now (keeps link.old others.old.items passed.now) ≡ rules.finish a.replies.close a.replies.packets (keeps link.new others.new.items (rules.passed_with a.passes packet.now passed.now))) }
    ensures there { IfOk result (λ a. a.replies.close ≡ false → IsThere link.new) }
    ensures room { vec_len others.new + length (kept_by link.new) ≤ vec_capacity others.new }
    ensures link { OnErr result (link.new ≡ link.old) }
    ensures others { OnErr result (others.new.items ≡ others.old.items) }
{
    if let Link::Accepted { session, .. } = link {
        return rule(alloc, session, others.as_mut_slice(), passed, packet);
    }
    first(alloc, link, others, passed, packet)
}

/// The first packet, which has to be CONNECT (section 3.1).
fn first(
    alloc: Global,
    link: &mut Link,
    others: &mut Vec<Session>,
    passed: &[Packet],
    packet: &Packet,
) -> Result<Answered, AllocError>
    requires opened { link.old ≡ links.Opened }
    requires room { vec_len others.old + length (kept_by link.old) ≤ vec_capacity others.old }
    ensures ok { IfOk result (λ a. rules.first_rule packet.now (keeps link.old others.old.items passed.now) ≡ rules.finish a.replies.close a.replies.packets (keeps link.new others.new.items (rules.passed_with a.passes packet.now passed.now))) }
    ensures there { IfOk result (λ a. a.replies.close ≡ false → IsThere link.new) }
    ensures room { vec_len others.new + length (kept_by link.new) ≤ vec_capacity others.new }
    ensures link { OnErr result (link.new ≡ link.old) }
    ensures others { OnErr result (others.new.items ≡ others.old.items) }
{
    match packet {
        Packet::Connect { clean, client, .. } => {
            let replies = connect(alloc, link, others, passed, *clean, client)?;
            Ok(Answered {
                replies,
                passes: false,
            })
        }
        _ => Ok(closes(alloc)),
    }
}

fn closes(alloc: Global) -> Answered
    ensures { result ≡ record { replies = record { packets = []; close = true }; passes = false } }
{
    Answered {
        replies: Replies {
            packets: Resend::new(alloc),
            close: true,
        },
        passes: false,
    }
}

fn goes_on(packets: Resend) -> Answered
    ensures { result ≡ record { replies = record { packets = packets; close = false }; passes = false } }
{
    Answered {
        replies: Replies {
            packets,
            close: false,
        },
        passes: false,
    }
}

fn one(alloc: Global, packet: Packet) -> Result<Resend, AllocError>
    ensures { IfOk result (λ packets. packets ≡ packet ∷ []) }
{
    let mut packets = Resend::new(alloc);
    packets.push(packet)?;
    Ok(packets)
}

/// A packet of a client that was accepted.
fn rule(
    alloc: Global,
    session: &mut Session,
    others: &mut [Session],
    passed: &[Packet],
    packet: &Packet,
) -> Result<Answered, AllocError>
    ensures ok { IfOk result (λ a. (clean : Bool) → rules.rule clean session.old packet.now (keeps (links.Accepted clean session.old) others.old passed.now) ≡ rules.finish a.replies.close a.replies.packets (keeps (links.Accepted clean session.new) others.new (rules.passed_with a.passes packet.now passed.now))) }
    ensures session { OnErr result (session.new ≡ session.old) }
    ensures others { OnErr result (others.new ≡ others.old) }
{
    match packet {
        Packet::Publish { qos, topic, id, .. } => {
            publish(alloc, session, others, passed, packet, *qos, topic, *id)
        }
        Packet::PubAck { id } => Ok(goes_on(acknowledged(alloc, session, passed, *id)?)),
        Packet::PubRec { id } => Ok(goes_on(received(alloc, session, *id)?)),
        Packet::PubRel { id } => Ok(goes_on(released(alloc, session, *id)?)),
        Packet::PubComp { id } => Ok(goes_on(completed(alloc, session, passed, *id)?)),
        Packet::Subscribe { id, asks } => Ok(goes_on(subscribe(alloc, session, *id, asks)?)),
        Packet::Unsubscribe { id, filters } => {
            Ok(goes_on(unsubscribe(alloc, session, *id, filters)?))
        }
        Packet::PingReq => Ok(goes_on(one(alloc, Packet::PingResp)?)),
        _ => Ok(closes(alloc)),
    }
}

/// PUBACK (section 3.4).
fn acknowledged(
    alloc: Global,
    session: &mut Session,
    passed: &[Packet],
    id: u16,
) -> Result<Resend, AllocError>
    ensures packets { IfOk result (λ packets. packets ≡ (if list_any (spec.is_delivery AtLeastOnce id) session.old.sent then spec.first_sent passed.now (spec.acknowledged id session.old) else [])) }
    ensures ok { OnOk result (session.new ≡ (if list_any (spec.is_delivery AtLeastOnce id) session.old.sent then spec.refilled (spec.acknowledged id session.old) else session.old)) }
    ensures err { OnErr result (session.new ≡ session.old) }
{
    let mut packets = Resend::new(alloc);
    if !session.awaits_acknowledgement(id) {
        return Ok(packets);
    }
    session.acknowledge(alloc, id, passed, &mut packets)?;
    Ok(packets)
}

/// PUBREC (section 3.5).
fn received(alloc: Global, session: &mut Session, id: u16) -> Result<Resend, AllocError>
    ensures packets { IfOk result (λ packets. packets ≡ (if spec.awaits_release id session.old then p.PubRel id ∷ [] else [])) }
    ensures ok { OnOk result (session.new ≡ (if spec.awaits_release id session.old then spec.released id session.old else session.old)) }
    ensures err { OnErr result (session.new ≡ session.old) }
{
    if !session.awaits_release(id) {
        return Ok(Resend::new(alloc));
    }
    let packets = one(alloc, Packet::PubRel { id })?;
    session.release(id)?;
    Ok(packets)
}

/// PUBREL (section 3.6).
fn released(alloc: Global, session: &mut Session, id: u16) -> Result<Resend, AllocError>
    ensures packets { IfOk result (λ packets. packets ≡ p.PubComp id ∷ []) }
    ensures ok { OnOk result (session.new ≡ record session.old { received = spec.without id session.old.received }) }
    ensures err { OnErr result (session.new ≡ session.old) }
{
    let packets = one(alloc, Packet::PubComp { id })?;
    session.forget(id);
    Ok(packets)
}

/// PUBCOMP (section 3.7).
fn completed(
    alloc: Global,
    session: &mut Session,
    passed: &[Packet],
    id: u16,
) -> Result<Resend, AllocError>
    ensures packets { IfOk result (λ packets. packets ≡ (if is_among session.old.released id then spec.first_sent passed.now (spec.completed id session.old) else [])) }
    ensures ok { OnOk result (session.new ≡ (if is_among session.old.released id then spec.refilled (spec.completed id session.old) else session.old)) }
    ensures err { OnErr result (session.new ≡ session.old) }
{
    let mut packets = Resend::new(alloc);
    if !session.awaits_completion(id) {
        return Ok(packets);
    }
    session.complete(alloc, id, passed, &mut packets)?;
    Ok(packets)
}

/// SUBSCRIBE (section 3.8).
fn subscribe(
    alloc: Global,
    session: &mut Session,
    id: u16,
    asks: &Asks,
) -> Result<Resend, AllocError>
    ensures packets { IfOk result (λ packets. packets ≡ p.SubAck id (map subscribed.return_code asks.now) ∷ []) }
    ensures ok { OnOk result (session.new ≡ record session.old { subscriptions = subscribed.subscribed asks.now session.old.subscriptions }) }
    ensures err { OnErr result (session.new ≡ session.old) }
{
    let codes = Codes::from_vec(return_codes(alloc, asks.as_slice())?);
    let packets = one(alloc, Packet::SubAck { id, codes })?;
    session.subscribe(alloc, asks.as_slice())?;
    Ok(packets)
}

/// UNSUBSCRIBE (section 3.10).
fn unsubscribe(
    alloc: Global,
    session: &mut Session,
    id: u16,
    filters: &Filters,
) -> Result<Resend, AllocError>
    ensures packets { IfOk result (λ packets. packets ≡ p.UnsubAck id ∷ []) }
    ensures ok { OnOk result (session.new ≡ record session.old { subscriptions = subscribed.unsubscribed filters.now session.old.subscriptions }) }
    ensures err { OnErr result (session.new ≡ session.old) }
{
    let packets = one(alloc, Packet::UnsubAck { id })?;
    session.unsubscribe(filters.as_slice());
    Ok(packets)
}

/// PUBLISH (section 3.3).
fn publish(
    alloc: Global,
    session: &mut Session,
    others: &mut [Session],
    passed: &[Packet],
    message: &Packet,
    qos: Qos,
    topic: &Text,
    id: u16,
) -> Result<Answered, AllocError>
    ensures ok { IfOk result (λ a. (clean : Bool) → rules.publish qos clean session.old topic.now id message.now (keeps (links.Accepted clean session.old) others.old passed.now) ≡ rules.finish a.replies.close a.replies.packets (keeps (links.Accepted clean session.new) others.new (rules.passed_with a.passes message.now passed.now))) }
    ensures session { OnErr result (session.new ≡ session.old) }
    ensures others { OnErr result (others.new ≡ others.old) }
{
    if !is_name(topic.as_str()) {
        return Ok(closes(alloc));
    }
    match qos {
        Qos::AtMostOnce => {
            let packets = Resend::new(alloc);
            pass_on(alloc, session, others, passed, message, qos, topic, packets)
        }
        Qos::AtLeastOnce => {
            let packets = one(alloc, Packet::PubAck { id })?;
            pass_on(alloc, session, others, passed, message, qos, topic, packets)
        }
        Qos::ExactlyOnce => exactly_once(alloc, session, others, passed, message, topic, id),
    }
}

/// QoS 2 (section 4.3.3): an identifier that was received and not released is answered again, and not passed on.
fn exactly_once(
    alloc: Global,
    session: &mut Session,
    others: &mut [Session],
    passed: &[Packet],
    message: &Packet,
    topic: &Text,
    id: u16,
) -> Result<Answered, AllocError>
    ensures ok { IfOk result (λ a. (clean : Bool) → rules.publish_at ExactlyOnce clean session.old topic.now id message.now (keeps (links.Accepted clean session.old) others.old passed.now) ≡ rules.finish a.replies.close a.replies.packets (keeps (links.Accepted clean session.new) others.new (rules.passed_with a.passes message.now passed.now))) }
    ensures session { OnErr result (session.new ≡ session.old) }
    ensures others { OnErr result (others.new ≡ others.old) }
{
    let packets = one(alloc, Packet::PubRec { id })?;
    if session.has_received(id) {
        return Ok(goes_on(packets));
    }
    session.enter(id)?;
    let answered = pass_on(
        alloc,
        session,
        others,
        passed,
        message,
        Qos::ExactlyOnce,
        topic,
        packets,
    );
    if answered.is_err() {
        session.forget_last();
    }
    answered
}

/// Behind these packets, the message's copies.
fn pass_on(
    alloc: Global,
    session: &mut Session,
    others: &mut [Session],
    passed: &[Packet],
    message: &Packet,
    qos: Qos,
    topic: &Text,
    packets: Resend,
) -> Result<Answered, AllocError>
    ensures ok { IfOk result (λ a. (clean : Bool) (link : connection.Link) → rules.passes_on packets clean session.old qos topic.now message.now (keeps link others.old passed.now) ≡ rules.goes_on a.replies.packets (keeps (links.Accepted clean session.new) others.new (passed.now ++ message.now ∷ []))) }
    ensures goes_on { IfOk result (λ a. (a.replies.close ≡ false) × (a.passes ≡ true)) }
    ensures session { OnErr result (session.new ≡ session.old) }
    ensures others { OnErr result (others.new ≡ others.old) }
{
    let mut packets = packets;
    offer_all(others, qos, topic.as_str(), passed.len())?;
    if let Err(e) = session.deliver(alloc, qos, topic.as_str(), passed, message, &mut packets) {
        withdraw_all(others, qos, topic.as_str());
        return Err(e);
    }
    Ok(Answered {
        replies: Replies {
            packets,
            close: false,
        },
        passes: true,
    })
}

/// Passes a message of the broker's own on. Where memory runs out, nothing has changed.
pub fn pass_own(
    alloc: Global,
    link: &mut Link,
    others: &mut [Session],
    passed: &[Packet],
    message: &Packet,
    qos: Qos,
    topic: &Text,
) -> Result<Replies, AllocError>
    ensures ok { IfOk result (λ r. rules.passes_own link.old qos topic.now message.now (keeps link.old others.old passed.now) ≡ record { packets = r.packets; close = r.close; kept = keeps link.new others.new (passed.now ++ message.now ∷ []) }) }
    ensures there { OnOk result (IsThere link.old → IsThere link.new) }
    ensures kept { length (kept_by link.new) ≡ length (kept_by link.old) }
    ensures link { OnErr result (link.new ≡ link.old) }
    ensures others { OnErr result (others.new ≡ others.old) }
{
    let packets = Resend::new(alloc);
    if let Link::Accepted { session, .. } = link {
        let answered = pass_on(alloc, session, others, passed, message, qos, topic, packets)?;
        return Ok(answered.replies);
    }
    offer_all(others, qos, topic.as_str(), passed.len())?;
    Ok(Replies {
        packets,
        close: false,
    })
}
