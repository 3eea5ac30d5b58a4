//! A saved session, read from its text.

ghost use Rattle.std.specs.Prelude.{◌≡◌, ℕ, List, length, Some, IfOk};
ghost use Rattle.session_text.specs.declared.session.Session.{Session as Saved};
ghost use Rattle.session_text.specs.Laws.{HasText};
ghost use Rattle.session_text.specs.Spelling.{session_text};
ghost use Rattle.session_text.specs.Reading.{Gives, connections_at, last_at, packet_in, whole_packet, packet_at, filters_at, command_at, route_at, lists_at, session_at, session_in};

use crate::fault::RestoreFault;
use crate::fields::{
    byte_at, filter_at, flag_at, off_at, phase_at, qos_at, stage_at, u16_at, u32_at, u64_at, whole,
};
use crate::items::{commands, identifiers, routes, texts, wide_numbers};
use crate::session::{Command, Connections, Last, Route, Session};
use list_types::Seq;
use mqtt_packet::{Filters, Next, Packet, Splitter};
use std::alloc::Global;

/// The session that the bytes are the text of, all of them. What is read has that text, and each session that
/// has a text is read from it.
///
/// # Errors
/// `Bad` exactly where they are the text of none.
pub fn read(alloc: Global, bytes: &[u8]) -> Result<Session, RestoreFault>
    ensures exact { Gives (λ session. session) result (session_in bytes.now) }
    ensures found { IfOk result (λ session. HasText session × (bytes.now ≡ session_text session)) }
    ensures only { (session : Saved) → HasText session → bytes.now ≡ session_text session → Gives (λ session. session) result (Some session) }
{
    whole_session(alloc, bytes)
}

#[tactic(auto, unfolding(crate::specs::Reading::session_in))]
fn whole_session(alloc: Global, bytes: &[u8]) -> Result<Session, RestoreFault>
    ensures { Gives (λ session. session) result (session_in bytes.now) }
{
    let (session, rest) = session_at(alloc, bytes)?;
    whole(session, rest)
}

#[tactic(auto, unfolding(crate::specs::Reading::session_at))]
fn session_at(alloc: Global, bytes: &[u8]) -> Result<(Session, &[u8]), RestoreFault>
    ensures { Gives (λ x. (x.0, x.1.now)) result (session_at bytes.now) }
{
    let (connections, rest) = connections_at(bytes)?;
    let (left, rest) = byte_at(rest)?;
    let (taken, rest) = wide_numbers(alloc, 8, rest)?;
    let (last, rest) = last_at(rest)?;
    lists_at(alloc, connections, left, taken, last, rest)
}

/// The lists, behind the rest.
#[tactic(auto, unfolding(crate::specs::Reading::lists_at))]
fn lists_at(
    alloc: Global,
    connections: Connections,
    left: u8,
    taken: Seq<u64>,
    last: Last,
    bytes: &[u8],
) -> Result<(Session, &[u8]), RestoreFault>
    ensures { Gives (λ x. (x.0, x.1.now)) result (lists_at connections left taken last bytes.now) }
{
    let (held, rest) = identifiers(alloc, bytes)?;
    let (commands, rest) = commands(alloc, rest)?;
    let (released, rest) = identifiers(alloc, rest)?;
    let (routes, rest) = routes(alloc, rest)?;
    let session = Session {
        connections,
        left,
        taken,
        last,
        held,
        commands,
        released,
        routes,
    };
    Ok((session, rest))
}

#[tactic(auto, unfolding(crate::specs::Reading::connections_at))]
fn connections_at(bytes: &[u8]) -> Result<(Connections, &[u8]), RestoreFault>
    ensures { Gives (λ x. (x.0, x.1.now)) result (connections_at bytes.now) }
{
    let (phase, rest) = phase_at(bytes)?;
    let (off, rest) = off_at(rest)?;
    let (first, rest) = flag_at(rest)?;
    let (accepted, rest) = flag_at(rest)?;
    let (breaks, rest) = u32_at(rest)?;
    let connections = Connections {
        phase,
        off,
        first,
        accepted,
        breaks,
    };
    Ok((connections, rest))
}

#[tactic(auto, unfolding(crate::specs::Reading::last_at))]
fn last_at(bytes: &[u8]) -> Result<(Last, &[u8]), RestoreFault>
    ensures { Gives (λ x. (x.0, x.1.now)) result (last_at bytes.now) }
{
    let (sends, rest) = flag_at(bytes)?;
    let (time, rest) = u64_at(rest)?;
    let (id, rest) = u16_at(rest)?;
    Ok((Last { sends, time, id }, rest))
}

#[tactic(auto, unfolding(crate::specs::Reading::command_at))]
pub(crate) fn command_at(alloc: Global, bytes: &[u8]) -> Result<(Command, &[u8]), RestoreFault>
    ensures { Gives (λ x. (x.0, x.1.now)) result (command_at bytes.now) }
{
    let (task, rest) = u32_at(bytes)?;
    let (seq, rest) = u32_at(rest)?;
    let (stage, rest) = stage_at(rest)?;
    let (packet, rest) = packet_at(alloc, rest)?;
    let (filters, rest) = filters_at(alloc, &packet, rest)?;
    let command = Command {
        task,
        seq,
        stage,
        packet,
        filters,
    };
    Ok((command, rest))
}

#[tactic(auto, unfolding(crate::specs::Reading::packet_at))]
fn packet_at(alloc: Global, bytes: &[u8]) -> Result<(Packet, &[u8]), RestoreFault>
    ensures { Gives (λ x. (x.0, x.1.now)) result (packet_at bytes.now) }
{
    let (len, rest) = u32_at(bytes)?;
    let (own, rest) = rest
        .split_at_checked(len as usize)
        .ok_or(RestoreFault::Bad)?;
    let packet = packet_in(alloc, own)?;
    Ok((packet, rest))
}

/// The packet that these bytes spell, all of them.
#[tactic(auto, unfolding(crate::specs::Reading::packet_in))]
fn packet_in(alloc: Global, bytes: &[u8]) -> Result<Packet, RestoreFault>
    ensures { Gives (λ packet. packet) result (packet_in bytes.now) }
{
    let mut splitter = Splitter::new(alloc);
    splitter.feed(bytes)?;
    let next = splitter.next()?;
    whole_packet(next, splitter.held())
}

/// The packet, where no bytes are held behind it.
#[tactic(auto, using(crate::proofs::Packets::held_behind, crate::proofs::Packets::none_held))]
fn whole_packet(next: Next, held: usize) -> Result<Packet, RestoreFault>
    ensures { (rest : List ℕ) → held ≡ length rest → Gives (λ packet. packet) result (whole_packet next rest) }
{
    if held != 0 {
        return Err(RestoreFault::Bad);
    }
    match next {
        Next::Packet(packet) => Ok(packet),
        Next::More => Err(RestoreFault::Bad),
        Next::Bad { .. } => Err(RestoreFault::Bad),
        Next::TooLong { .. } => Err(RestoreFault::Bad),
    }
}

/// What an unsubscribe asked for, behind its packet.
#[tactic(auto, unfolding(crate::specs::Reading::filters_at))]
fn filters_at<'a>(
    alloc: Global,
    packet: &Packet,
    bytes: &'a [u8],
) -> Result<(Filters, &'a [u8]), RestoreFault>
    ensures { Gives (λ x. (x.0, x.1.now)) result (filters_at packet.now bytes.now) }
{
    match packet {
        Packet::Unsubscribe { .. } => {
            let (count, rest) = byte_at(bytes)?;
            texts(alloc, count, rest)
        }
        _ => Ok((Seq::new(alloc), bytes)),
    }
}

#[tactic(auto, unfolding(crate::specs::Reading::route_at))]
pub(crate) fn route_at(alloc: Global, bytes: &[u8]) -> Result<(Route, &[u8]), RestoreFault>
    ensures { Gives (λ x. (x.0, x.1.now)) result (route_at bytes.now) }
{
    let (task, rest) = u32_at(bytes)?;
    let (qos, rest) = qos_at(rest)?;
    let (unsure, rest) = flag_at(rest)?;
    let (filter, rest) = filter_at(alloc, rest)?;
    let route = Route {
        task,
        qos,
        unsure,
        filter,
    };
    Ok((route, rest))
}
