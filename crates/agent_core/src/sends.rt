//! What the effects of an entry send.

ghost use Rattle.std.specs.Prelude.{◌≡◌, ◌==◌, List, Some, IfSome, MatchOption};
ghost use Rattle.std.specs.List.{list_any};
ghost use Rattle.agent_journal.specs.Readings as journal;
ghost use Rattle.agent_journal.specs.Wires.{packet_in};
ghost use Rattle.agent_table.specs.Identifiers.{last_or};
ghost use Rattle.agent_table.specs.Sends as table;
ghost use Rattle.agent_core.specs.Sending.{is_send, pings, receives, draws, identifies};

use agent_journal::Effect;
use mqtt_packet::{Packet, Qos};

/// Whether a packet is sent.
#[tactic(auto, using(crate::proofs::Packets::has_send_is))]
pub fn has_send(effects: &[Effect]) -> bool
    ensures { result ≡ table.has_send effects.now }
{
    any_send(effects)
}

fn any_send(effects: &[Effect]) -> bool
    ensures { result ≡ list_any is_send effects.now }
{
    effects.iter().any(|effect| is_send(effect))
}

fn is_send(effect: &Effect) -> bool
    ensures { result ≡ is_send effect.now }
{
    matches!(effect, Effect::Send { .. })
}

/// Whether a PINGREQ is sent.
#[tactic(auto, using(crate::proofs::Packets::sends_ping_is))]
pub fn sends_ping(effects: &[Effect]) -> bool
    ensures { result ≡ table.sends_ping effects.now }
{
    any_ping(effects)
}

fn any_ping(effects: &[Effect]) -> bool
    ensures { result ≡ list_any pings effects.now }
{
    effects.iter().any(|effect| pings(effect))
}

fn pings(effect: &Effect) -> bool
    ensures { result ≡ pings effect.now }
{
    match effect {
        Effect::Send { packet } => is_ping(packet),
        _ => false,
    }
}

fn is_ping(packet: &Packet) -> bool
    ensures { result ≡ table.is_ping packet.now }
{
    matches!(packet, Packet::PingReq)
}

/// Whether a PUBREC of this identifier is sent.
pub fn sends_received(id: u16, effects: &[Effect]) -> bool
    ensures { result ≡ table.sends_received id effects.now }
{
    any_received(id, effects)
}

fn any_received(id: u16, effects: &[Effect]) -> bool
    ensures { result ≡ list_any (receives id) effects.now }
{
    effects.iter().any(|effect| receives(id, effect))
}

fn receives(id: u16, effect: &Effect) -> bool
    ensures { result ≡ receives id effect.now }
{
    match effect {
        Effect::Send { packet } => is_received(id, packet),
        _ => false,
    }
}

fn is_received(n: u16, packet: &Packet) -> bool
    ensures { result ≡ table.is_received n packet.now }
{
    match packet {
        Packet::PubRec { id } => *id == n,
        _ => false,
    }
}

/// The identifier that was drawn last, where `last` was before these effects.
#[tactic(auto, using(crate::proofs::Packets::drawn_more, crate::proofs::Packets::drawn_all))]
pub fn last_drawn(mut last: u16, effects: &[Effect]) -> u16
    ensures { result ≡ last_or last (table.drawn_in effects.now) }
{
    for effect in effects {
        last = drawn(last, effect);
    }
    last
}

fn drawn(last: u16, effect: &Effect) -> u16
    ensures { result ≡ last_or last (draws effect.now) }
{
    match effect {
        Effect::Send { packet } => drawn_by(last, packet),
        _ => last,
    }
}

/// A first sending draws an identifier: a SUBSCRIBE, an UNSUBSCRIBE, and a PUBLISH above quality of service
/// 0 that isn't sent again.
fn drawn_by(last: u16, packet: &Packet) -> u16
    ensures { result ≡ last_or last (table.drawn_by packet.now) }
{
    match packet {
        Packet::Publish { dup, qos, id, .. } => match (*dup, *qos) {
            (true, _) => last,
            (false, Qos::AtMostOnce) => last,
            (false, Qos::AtLeastOnce) => *id,
            (false, Qos::ExactlyOnce) => *id,
        },
        Packet::Subscribe { id, .. } => *id,
        Packet::Unsubscribe { id, .. } => *id,
        _ => last,
    }
}

/// The identifier of a command's own packet, which an acknowledgement will name.
#[tactic(auto, using(crate::proofs::Packets::none_yet, crate::proofs::Packets::one_found, crate::proofs::Packets::none_found))]
pub fn sent_id(effects: &[Effect]) -> Option<u16>
    ensures { result ≡ journal.sent_id effects.now }
{
    for effect in effects {
        if let Some(id) = identified(effect) {
            return Some(id);
        }
    }
    None
}

fn identified(effect: &Effect) -> Option<u16>
    ensures { result ≡ identifies effect.now }
{
    match effect {
        Effect::Send { packet } => command_id(packet),
        _ => None,
    }
}

fn command_id(packet: &Packet) -> Option<u16>
    ensures { result ≡ journal.command_id packet.now }
{
    match packet {
        Packet::Publish { qos, id, .. } => match qos {
            Qos::AtMostOnce => None,
            Qos::AtLeastOnce => Some(*id),
            Qos::ExactlyOnce => Some(*id),
        },
        Packet::Subscribe { id, .. } => Some(*id),
        Packet::Unsubscribe { id, .. } => Some(*id),
        _ => None,
    }
}
