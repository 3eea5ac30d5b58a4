//! An entry in what is kept of commands, publishes, routes, tasks and connections. Nothing here takes memory.

ghost use Rattle.std.specs.Prelude.{◌≡◌, ◌<◌, ◌≤◌, ◌+◌, ◌++◌, ◌∷◌, [], ℕ, List, length, if◌then◌else◌, MatchOption, true, false};
ghost use Rattle.std.specs.List.{list_any};
ghost use Rattle.agent_table.specs.Deliveries.{released_behind, held_behind};
ghost use Rattle.pending_acks.specs.Commands.{has_id};
ghost use Rattle.agent_core.specs.After as after;
ghost use Rattle.agent_core.specs.Completions.{books, all_ended};
ghost use Rattle.agent_core.specs.Kept.{most_accepted};
ghost use Rattle.agent_core.specs.Renewing.{as_list};
ghost use Rattle.agent_core.specs.Tied.{IsTied, CanHold, CanOpen, InRange};
ghost use Rattle.agent_journal.specs.declared.setup.Setup.{Setup};
ghost use Rattle.agent_journal.specs.declared.effect.Effect.{Effect};
ghost use Rattle.agent_journal.specs.Readings.{accepts, is_accepting, is_break};
ghost use Rattle.agent_table.specs.Sends.{has_send, sends_ping};
ghost use Rattle.agent_table.specs.Sessions.{answered, answered_by, ping_behind, sent_behind};

use crate::books::complete_all;
use crate::opened::{open, receive};
use crate::routes::note_cause;
use agent_journal::{Cause, Effect, Request};
use mqtt_packet::Packet;
use pending_acks::{Pending, PendingAcks};
use qos_state::QosState;
use subscriptions::Subscriptions;

/// Commands, publishes and routes: what the cause brings, the command that is opened, and then the
/// completions. `lost` says whether the session was lost with it.
pub fn note_books<const ACKS: usize, const IN: usize, const ROUTES: usize>(
    pending: &mut PendingAcks<ACKS>,
    qos: &mut QosState<ACKS, IN>,
    subscriptions: &mut Subscriptions<ROUTES>,
    cause: &Cause,
    effects: &[Effect],
    opened: Option<Pending>,
    lost: bool,
)
    requires tied { IsTied pending.old qos.old }
    requires room { CanHold cause.now effects.now IN qos.old.held }
    requires opens { CanOpen ACKS pending.old opened }
    ensures tied { IsTied pending.new qos.new }
    ensures held { (at : ℕ) → qos.new.held ≡ (if lost then [] else held_behind cause.now (record { at = at; cause = cause.now; effects = effects.now }) qos.old.held) }
    ensures books { books pending.new qos.new.released subscriptions.new ≡ all_ended (books (pending.old ++ as_list opened) (released_behind pending.old qos.old.released cause.now) (after.routing_lost lost (after.routing_caused cause.now effects.now subscriptions.old))) effects.now }
{
    receive(pending, qos, cause, effects);
    open_some(pending, qos, opened);
    note_cause(subscriptions, cause, effects);
    if lost {
        qos.forget_held();
        subscriptions.session_lost();
    }
    complete_all(pending, qos, subscriptions, effects);
}

fn open_some<const ACKS: usize, const IN: usize>(
    pending: &mut PendingAcks<ACKS>,
    qos: &mut QosState<ACKS, IN>,
    opened: Option<Pending>,
)
    requires tied { IsTied pending.old qos.old }
    requires opens { CanOpen ACKS pending.old opened }
    ensures tied { IsTied pending.new qos.new }
    ensures pending { pending.new ≡ pending.old ++ as_list opened }
    ensures released { qos.new.released ≡ qos.old.released }
    ensures held { qos.new.held ≡ qos.old.held }
{
    if let Some(command) = opened {
        open(pending, qos, command);
    }
}

/// How many requests of each task were taken, and whether its Leave was.
pub fn note_task(takes: &mut Vec<u64>, left: &mut Vec<bool>, cause: &Cause)
    requires { InRange cause.now (length takes.old.items) (length left.old.items) }
    ensures takes { takes.new.items ≡ after.takes_with cause.now takes.old.items }
    ensures left { left.new.items ≡ after.left_with cause.now left.old.items }
{
    if let Cause::Take { task, seq, request } = cause {
        // The row asks that so many were taken before.
        let task = *task as usize;
        takes[task] = u64::from(*seq) + 1;
        if let Request::Leave = request {
            left[task] = true;
        }
    }
}

/// How many connections or openings broke since the last accepted CONNACK, at most `reopen` + 2: more read alike.
#[tactic(auto, using(crate::proofs::Counting::one_more, crate::proofs::Counting::no_more))]
pub fn breaks_behind(reopen: u32, breaks: u64, cause: &Cause) -> u64
    requires { breaks ≤ reopen + 2 }
    ensures value { (s : Setup) → s.reopen ≡ reopen → result ≡ after.breaks_with s cause.now breaks }
    ensures most { result ≤ reopen + 2 }
{
    if accepts(cause) {
        0
    } else if is_break(cause) && breaks < u64::from(reopen) + 2 {
        breaks + 1
    } else {
        breaks
    }
}

/// How many CONNACKs accepted, at most so many: more read alike.
#[tactic(auto, using(crate::proofs::Counting::one_more, crate::proofs::Counting::no_more))]
pub fn accepted_behind(most: u64, accepted: u64, cause: &Cause) -> u64
    requires { accepted ≤ most }
    ensures value { (s : Setup) → most_accepted s ≡ most → result ≡ after.accepted_with s cause.now accepted }
    ensures most { result ≤ most }
{
    if accepts(cause) && accepted < most {
        accepted + 1
    } else {
        accepted
    }
}

/// Two where an old session is to be wiped first, and else one.
pub fn most_accepted(wipe: bool) -> u64
    ensures { (s : Setup) → s.wipe ≡ wipe → result ≡ most_accepted s }
{
    if wipe { 2 } else { 1 }
}

fn accepts(cause: &Cause) -> bool
    ensures { result ≡ accepts cause.now }
{
    match cause {
        Cause::Arrived { packet } => is_accepting(packet),
        _ => false,
    }
}

fn is_accepting(packet: &Packet) -> bool
    ensures { result ≡ is_accepting packet.now }
{
    match packet {
        Packet::ConnAck { code, .. } => *code == 0,
        _ => false,
    }
}

fn is_break(cause: &Cause) -> bool
    ensures { result ≡ is_break cause.now }
{
    matches!(cause, Cause::Broke { .. })
}

/// The time of the first unanswered PINGREQ of the newest connection. `pings` says whether the entry sends one.
pub fn ping_behind(ping: Option<u64>, at: u64, cause: &Cause, pings: bool) -> Option<u64>
    ensures { (effects : List Effect) → pings ≡ sends_ping effects → result ≡ ping_behind (record { at = at; cause = cause.now; effects = effects }) ping }
{
    let ping = answered(cause, ping);
    if pings {
        Some(ping.unwrap_or(at))
    } else {
        ping
    }
}

/// A PINGRESP answers all PINGREQs before it, and a connection begins without one.
fn answered(cause: &Cause, ping: Option<u64>) -> Option<u64>
    ensures { result ≡ answered cause.now ping }
{
    match cause {
        Cause::Opened => None,
        Cause::Arrived { packet } => answered_by(packet, ping),
        _ => ping,
    }
}

fn answered_by(packet: &Packet, ping: Option<u64>) -> Option<u64>
    ensures { result ≡ answered_by packet.now ping }
{
    match packet {
        Packet::PingResp => None,
        _ => ping,
    }
}

/// The time of the newest connection's last entry that sends. `sends` says whether this one does.
pub fn sent_behind(sent: Option<u64>, at: u64, cause: &Cause, sends: bool) -> Option<u64>
    ensures { (effects : List Effect) → sends ≡ has_send effects → result ≡ sent_behind (record { at = at; cause = cause.now; effects = effects }) sent }
{
    if sends {
        return Some(at);
    }
    match cause {
        Cause::Opened => None,
        _ => sent,
    }
}
