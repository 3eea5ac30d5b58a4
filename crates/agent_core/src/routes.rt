//! What an entry does to the routes, beside its completions.

ghost use Rattle.std.specs.Prelude.{◌≡◌, ◌∷◌, [], List, length, OnOk, OnErr, IfOk, true};
ghost use Rattle.std.specs.List.{list_any, flat_map};
ghost use Rattle.agent_journal.specs.Wires.{sends};
ghost use Rattle.agent_table.specs.Routes.{renewal_in, is_done, outcomes_in};
ghost use Rattle.agent_core.specs.After as after;
ghost use Rattle.agent_core.specs.Tied.{CanAsk, CanAskFor};
ghost use Rattle.agent_core.specs.Renewing.{renews, ends_done, as_list};

use crate::books::is_done;
use agent_journal::{Cause, Effect, Request};
use list_types::Copied;
use mqtt_packet::{Codes, Packet};
use pending_acks::Pending;
use std::alloc::{AllocError, Global};
use subscriptions::{Renewal, Subscriptions};

/// The renewals that these effects send.
#[tactic(auto, using(crate::proofs::Renewals::renewed_more, crate::proofs::Renewals::renewed_skips, crate::proofs::Renewals::renewed_all))]
fn renewals_in(alloc: Global, effects: &[Effect]) -> Result<Vec<Renewal>, AllocError>
    ensures { IfOk result (λ renewals. renewals.items ≡ flat_map renewal_in (sends effects.now)) }
{
    let mut renewals = Vec::new(alloc);
    for effect in effects {
        if let Some(renewal) = renewal_by(alloc, effect)? {
            renewals.push(renewal)?;
        }
    }
    Ok(renewals)
}

fn renewal_by(alloc: Global, effect: &Effect) -> Result<Option<Renewal>, AllocError>
    ensures { IfOk result (λ renewal. as_list renewal ≡ renews effect.now) }
{
    match effect {
        Effect::Send {
            packet: Packet::Subscribe { id, asks },
        } => Ok(Some(Renewal {
            id: *id,
            asks: asks.copy(alloc)?,
        })),
        _ => Ok(None),
    }
}

/// What is asked with an entry: a subscribe that is opened, and renewals, which an accepted CONNACK begins anew.
/// Where memory runs out, nothing has changed.
pub fn ask<const ROUTES: usize>(
    alloc: Global,
    subscriptions: &mut Subscriptions<ROUTES>,
    cause: &Cause,
    effects: &[Effect],
    opened: &Option<Pending>,
) -> Result<(), AllocError>
    requires { CanAsk ROUTES subscriptions.old cause.now (as_list opened.now) }
    ensures asked { OnOk result (subscriptions.new ≡ after.routing_asked cause.now effects.now (as_list opened.now) subscriptions.old) }
    ensures same { OnErr result (subscriptions.new ≡ subscriptions.old) }
{
    match cause {
        Cause::Take { task, request, .. } => ask_for(alloc, subscriptions, *task, request, opened),
        Cause::Arrived { packet } => ask_again(alloc, subscriptions, packet, effects),
        _ => Ok(()),
    }
}

fn ask_for<const ROUTES: usize>(
    alloc: Global,
    subscriptions: &mut Subscriptions<ROUTES>,
    task: u32,
    request: &Request,
    opened: &Option<Pending>,
) -> Result<(), AllocError>
    requires { CanAskFor ROUTES subscriptions.old task request.now (as_list opened.now) }
    ensures asked { OnOk result (subscriptions.new ≡ after.asked_by task request.now (as_list opened.now) subscriptions.old) }
    ensures same { OnErr result (subscriptions.new ≡ subscriptions.old) }
{
    match (request, opened) {
        (Request::Subscribe { asks }, Some(command)) => {
            subscriptions.ask(alloc, task, command.id, asks)
        }
        (Request::Subscribe { .. }, None) => Ok(()),
        (Request::Publish { .. }, _) => Ok(()),
        (Request::Unsubscribe { .. }, _) => Ok(()),
        (Request::Ping, _) => Ok(()),
        (Request::Disconnect, _) => Ok(()),
        (Request::Terminate, _) => Ok(()),
        (Request::Leave, _) => Ok(()),
    }
}

fn ask_again<const ROUTES: usize>(
    alloc: Global,
    subscriptions: &mut Subscriptions<ROUTES>,
    packet: &Packet,
    effects: &[Effect],
) -> Result<(), AllocError>
    ensures asked { OnOk result (subscriptions.new ≡ after.asked_at packet.now effects.now subscriptions.old) }
    ensures same { OnErr result (subscriptions.new ≡ subscriptions.old) }
{
    match packet {
        Packet::ConnAck { .. } => {
            subscriptions.set_renewals(renewals_in(alloc, effects)?);
            Ok(())
        }
        _ => Ok(()),
    }
}

/// Beside its completions, what a cause does to the routes: an unsubscribe that is done with its Take, a
/// Leave, the SUBACK of a renewal, and the end of a connection.
pub fn note_cause<const ROUTES: usize>(
    subscriptions: &mut Subscriptions<ROUTES>,
    cause: &Cause,
    effects: &[Effect],
)
    ensures { subscriptions.new ≡ after.routing_caused cause.now effects.now subscriptions.old }
{
    match cause {
        Cause::Opened => {}
        Cause::Take { task, seq, request } => note_take(
            subscriptions,
            *task,
            *seq,
            request,
            effects,
        ),
        Cause::Arrived { packet } => note_packet(subscriptions, packet),
        Cause::Broke { .. } => subscriptions.broke(),
        Cause::Tick => {}
        Cause::GaveUp => {}
        Cause::Finish => {}
    }
}

fn note_take<const ROUTES: usize>(
    subscriptions: &mut Subscriptions<ROUTES>,
    task: u32,
    seq: u32,
    request: &Request,
    effects: &[Effect],
)
    ensures { subscriptions.new ≡ after.taken_by task seq request.now effects.now subscriptions.old }
{
    match request {
        Request::Publish { .. } => {}
        Request::Subscribe { .. } => {}
        Request::Unsubscribe { filters } => {
            if is_done_at_once(task, seq, effects) {
                subscriptions.drop_filters(task, filters);
            }
        }
        Request::Ping => {}
        Request::Disconnect => {}
        Request::Terminate => {}
        Request::Leave => subscriptions.drop_task(task),
    }
}

fn note_packet<const ROUTES: usize>(subscriptions: &mut Subscriptions<ROUTES>, packet: &Packet)
    ensures { subscriptions.new ≡ after.answered_by packet.now subscriptions.old }
{
    match packet {
        Packet::Connect { .. } => {}
        Packet::ConnAck { .. } => {}
        Packet::Publish { .. } => {}
        Packet::PubAck { .. } => {}
        Packet::PubRec { .. } => {}
        Packet::PubRel { .. } => {}
        Packet::PubComp { .. } => {}
        Packet::Subscribe { .. } => {}
        Packet::SubAck { id, codes } => answer_renewal(subscriptions, *id, codes),
        Packet::Unsubscribe { .. } => {}
        Packet::UnsubAck { .. } => {}
        Packet::PingReq => {}
        Packet::PingResp => {}
        Packet::Disconnect => {}
    }
}

/// The SUBACK of an open renewal, with as many codes.
fn answer_renewal<const ROUTES: usize>(
    subscriptions: &mut Subscriptions<ROUTES>,
    id: u16,
    codes: &Codes,
)
    ensures { subscriptions.new ≡ after.renewal_answered id codes.now subscriptions.old }
{
    match subscriptions.renewal_len(id) {
        Some(asked) if asked == codes.len() => subscriptions.grant_renewal(id, codes),
        _ => {}
    }
}

/// Whether these effects complete the request Done.
fn is_done_at_once(task: u32, seq: u32, effects: &[Effect]) -> bool
    ensures { result ≡ list_any is_done (outcomes_in task seq effects.now) }
{
    any_done(task, seq, effects)
}

fn any_done(task: u32, seq: u32, effects: &[Effect]) -> bool
    ensures { result ≡ list_any (ends_done task seq) effects.now }
{
    effects.iter().any(|effect| ends_done(task, seq, effect))
}

fn ends_done(t: u32, s: u32, effect: &Effect) -> bool
    ensures { result ≡ ends_done t s effect.now }
{
    match effect {
        Effect::Done { task, seq, outcome } => *task == t && *seq == s && is_done(outcome),
        _ => false,
    }
}
