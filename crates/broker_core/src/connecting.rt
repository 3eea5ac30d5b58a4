//! CONNECT: which session the connection gets (MQTT 3.1.1, sections 3.1 and 3.2).

ghost use Rattle.std.specs.Prelude.{true, false, ◌≡◌, ◌<◌, ◌≤◌, ◌+◌, ◌∷◌, ◌++◌, [], Some, None, length, find, IfOk, OnOk, OnErr};
ghost use Rattle.std.specs.List.{list_any, position, remove};
ghost use Rattle.std.specs.Vec.{vec_len, vec_capacity};
ghost use Rattle.mqtt_packet.specs.declared.packet.Packet.TheVariants as p;
ghost use Rattle.broker_core.specs.declared.link.Link.TheVariants as links;
ghost use Rattle.broker_core.specs.Kept.{keeps, kept_by};
ghost use Rattle.broker_core.specs.Session.{is_of, begins, refilled, sent_again, first_sent};
ghost use Rattle.broker_core.specs.Rules.{session_at};
ghost use Rattle.broker_core.specs.Past.{IsThere};
ghost use Rattle.broker_core.specs.Rules as rules;

use crate::link::Link;
use crate::replies::Replies;
use crate::session::Session;
use list_types::Text;
use mqtt_packet::{Packet, Resend};
use std::alloc::{AllocError, Global};

/// The most sessions that are kept at a time.
pub const SESSIONS: usize = 64;

/// Answers a CONNECT. Where memory runs out, nothing has changed.
pub fn connect(
    alloc: Global,
    link: &mut Link,
    others: &mut Vec<Session>,
    passed: &[Packet],
    clean: bool,
    client: &Text,
) -> Result<Replies, AllocError>
    requires { vec_len others.old + length (kept_by link.old) ≤ vec_capacity others.old }
    ensures ok { IfOk result (λ r. rules.connect clean client.now (keeps link.old others.old.items passed.now) ≡ rules.finish r.close r.packets (keeps link.new others.new.items passed.now)) }
    ensures there { IfOk result (λ r. r.close ≡ false → IsThere link.new) }
    ensures room { vec_len others.new + length (kept_by link.new) ≤ vec_capacity others.new }
    ensures link { OnErr result (link.new ≡ link.old) }
    ensures others { OnErr result (others.new.items ≡ others.old.items) }
{
    if client.len() == 0 {
        refuse(alloc, 2)
    } else if has_place(others.as_slice(), client) {
        accept(alloc, link, others, passed, clean, client)
    } else {
        refuse(alloc, 3)
    }
}

/// Code 0.
#[tactic(auto, using(crate::proofs::Taking::none_found, crate::proofs::Taking::found_at))]
fn accept(
    alloc: Global,
    link: &mut Link,
    others: &mut Vec<Session>,
    passed: &[Packet],
    clean: bool,
    client: &Text,
) -> Result<Replies, AllocError>
    requires { vec_len others.old + length (kept_by link.old) ≤ vec_capacity others.old }
    ensures ok { IfOk result (λ r. rules.accepted clean client.now (find (is_of client.now) others.old.items) (keeps link.old others.old.items passed.now) ≡ rules.finish r.close r.packets (keeps link.new others.new.items passed.now)) }
    ensures there { IfOk result (λ r. r.close ≡ false → IsThere link.new) }
    ensures room { vec_len others.new + length (kept_by link.new) ≤ vec_capacity others.new }
    ensures link { OnErr result (link.new ≡ link.old) }
    ensures others { OnErr result (others.new.items ≡ others.old.items) }
{
    if clean {
        return begin_clean(alloc, link, others, client);
    }
    match place_of(others.as_slice(), client) {
        None => begin(alloc, link, others, client),
        Some(place) => resume(alloc, link, others, passed, place),
    }
}

/// The broker closes with this return code.
fn refuse(alloc: Global, code: u8) -> Result<Replies, AllocError>
    ensures { IfOk result (λ r. r ≡ record { packets = p.ConnAck false code ∷ []; close = true }) }
{
    Ok(Replies {
        packets: connack(alloc, false, code)?,
        close: true,
    })
}

fn connack(alloc: Global, present: bool, code: u8) -> Result<Resend, AllocError>
    ensures { IfOk result (λ packets. packets ≡ p.ConnAck present code ∷ []) }
{
    let mut packets = Resend::new(alloc);
    packets.push(Packet::ConnAck { present, code })?;
    Ok(packets)
}

/// Whether there is a session of this client, or room for one more.
fn has_place(others: &[Session], client: &Text) -> bool
    ensures { result ≡ rules.has_place client.now others.now }
{
    has_session(others, client) || others.len() < SESSIONS
}

fn has_session(others: &[Session], client: &Text) -> bool
    ensures { result ≡ list_any (is_of client.now) others.now }
{
    others.iter().any(|session| session.is_of(client))
}

fn place_of(others: &[Session], client: &Text) -> Option<usize>
    ensures { result ≡ position (is_of client.now) others.now }
{
    others.iter().position(|session| session.is_of(client))
}

/// Clean session 1: a session of the client's own that ends with the connection, in place of the one that was kept.
#[tactic(auto, using(crate::proofs::Taking::first_taken, crate::proofs::Taking::none_taken))]
fn begin_clean(
    alloc: Global,
    link: &mut Link,
    others: &mut Vec<Session>,
    client: &Text,
) -> Result<Replies, AllocError>
    requires { vec_len others.old + length (kept_by link.old) ≤ vec_capacity others.old }
    ensures ok { IfOk result (λ r. r ≡ record { packets = p.ConnAck false 0 ∷ []; close = false }) }
    ensures link { OnOk result (link.new ≡ links.Accepted true (begins client.now)) }
    ensures others { OnOk result (others.new.items ≡ rules.without_client client.now others.old.items) }
    ensures room { vec_len others.new + length (kept_by link.new) ≤ vec_capacity others.new }
    ensures same_link { OnErr result (link.new ≡ link.old) }
    ensures same_others { OnErr result (others.new.items ≡ others.old.items) }
{
    let session = Session::new(alloc, client)?;
    let packets = connack(alloc, false, 0)?;
    if let Some(place) = place_of(others.as_slice(), client) {
        others.remove(place);
    }
    *link = Link::Accepted {
        clean: true,
        session,
    };
    Ok(Replies {
        packets,
        close: false,
    })
}

/// Clean session 0 of a client without a session.
fn begin(
    alloc: Global,
    link: &mut Link,
    others: &mut Vec<Session>,
    client: &Text,
) -> Result<Replies, AllocError>
    requires { vec_len others.old + length (kept_by link.old) ≤ vec_capacity others.old }
    ensures ok { IfOk result (λ r. r ≡ record { packets = p.ConnAck false 0 ∷ []; close = false }) }
    ensures link { OnOk result (link.new ≡ links.Accepted false (begins client.now)) }
    ensures others { others.new.items ≡ others.old.items }
    ensures room { vec_len others.new + length (kept_by link.new) ≤ vec_capacity others.new }
    ensures same_link { OnErr result (link.new ≡ link.old) }
{
    let session = Session::new(alloc, client)?;
    let packets = connack(alloc, false, 0)?;
    // The session is kept when the connection ends, which takes no memory then.
    others.reserve(1)?;
    *link = Link::Accepted {
        clean: false,
        session,
    };
    Ok(Replies {
        packets,
        close: false,
    })
}

/// Clean session 0 of the client whose session stands at this place: it goes on.
#[tactic(auto, using(crate::proofs::Taking::removed_set, crate::proofs::Taking::same_at))]
fn resume(
    alloc: Global,
    link: &mut Link,
    others: &mut Vec<Session>,
    passed: &[Packet],
    place: usize,
) -> Result<Replies, AllocError>
    requires within { place < length others.old.items }
    requires room { vec_len others.old + length (kept_by link.old) ≤ vec_capacity others.old }
    ensures ok { IfOk result (λ r. r ≡ record { packets = p.ConnAck true 0 ∷ (sent_again passed.now (session_at place others.old.items) ++ first_sent passed.now (session_at place others.old.items)); close = false }) }
    ensures link { OnOk result (link.new ≡ links.Accepted false (refilled (session_at place others.old.items))) }
    ensures others { OnOk result (others.new.items ≡ remove others.old.items place) }
    ensures room { vec_len others.new + length (kept_by link.new) ≤ vec_capacity others.new }
    ensures same_link { OnErr result (link.new ≡ link.old) }
    ensures same_others { OnErr result (others.new.items ≡ others.old.items) }
{
    let mut packets = connack(alloc, true, 0)?;
    others[place].resume(alloc, passed, &mut packets)?;
    let session = others.remove(place);
    *link = Link::Accepted {
        clean: false,
        session,
    };
    Ok(Replies {
        packets,
        close: false,
    })
}
