//! The open commands, the stages of publishes and the routes, which hang together.

ghost use Rattle.std.specs.Prelude.{◌≡◌, ◌<◌, ◌++◌, ◌∷◌, [], List, length, false, true, if◌then◌else◌};
ghost use Rattle.std.specs.List.{list_any};
ghost use Rattle.agent_table.specs.Deliveries as table;
ghost use Rattle.agent_table.specs.Routes.{is_done};
ghost use Rattle.agent_core.specs.Completions.{books, ended, all_ended, routing_ended, subscribe_ended, granted_or_lost};
ghost use Rattle.agent_core.specs.Tied.{IsTied};

use agent_journal::{Effect, Outcome, Request};
use mqtt_packet::{Codes, Packet, Qos};
use pending_acks::{Pending, PendingAcks};
use qos_state::{AckKind, QosState};
use subscriptions::Subscriptions;

/// The completions among effects end their commands.
pub fn complete_all<const ACKS: usize, const IN: usize, const ROUTES: usize>(
    pending: &mut PendingAcks<ACKS>,
    qos: &mut QosState<ACKS, IN>,
    subscriptions: &mut Subscriptions<ROUTES>,
    effects: &[Effect],
)
    requires tied { IsTied pending.old qos.old }
    ensures tied { IsTied pending.new qos.new }
    ensures held { qos.new.held ≡ qos.old.held }
    ensures books { books pending.new qos.new.released subscriptions.new ≡ all_ended (books pending.old qos.old.released subscriptions.old) effects.now }
{
    for effect in effects {
        complete(pending, qos, subscriptions, effect);
    }
}

/// One that is the completion of an open command ends it.
fn complete<const ACKS: usize, const IN: usize, const ROUTES: usize>(
    pending: &mut PendingAcks<ACKS>,
    qos: &mut QosState<ACKS, IN>,
    subscriptions: &mut Subscriptions<ROUTES>,
    effect: &Effect,
)
    requires tied { IsTied pending.old qos.old }
    ensures tied { IsTied pending.new qos.new }
    ensures held { qos.new.held ≡ qos.old.held }
    ensures books { books pending.new qos.new.released subscriptions.new ≡ ended (books pending.old qos.old.released subscriptions.old) effect.now }
{
    let Effect::Done { task, seq, outcome } = effect else {
        return;
    };
    let Some(command) = pending.find_command(*task, *seq) else {
        return;
    };
    let id = command.id;
    end_routes(subscriptions, command, outcome);
    qos.drop_id(id);
    pending.take(id);
}

/// What the end of a command does to the routes.
fn end_routes<const ROUTES: usize>(
    subscriptions: &mut Subscriptions<ROUTES>,
    command: &Pending,
    outcome: &Outcome,
)
    ensures { subscriptions.new ≡ routing_ended command.now command.now.request outcome.now subscriptions.old }
{
    match &command.request {
        Request::Publish { .. } => {}
        Request::Subscribe { .. } => end_subscribe(subscriptions, command.id, outcome),
        Request::Unsubscribe { filters } => {
            if is_done(outcome) {
                subscriptions.drop_filters(command.task, filters);
            }
        }
        Request::Ping => {}
        Request::Disconnect => {}
        Request::Terminate => {}
        Request::Leave => {}
    }
}

/// A subscribe is granted as many codes as it asked for filters, or it is lost.
fn end_subscribe<const ROUTES: usize>(
    subscriptions: &mut Subscriptions<ROUTES>,
    id: u16,
    outcome: &Outcome,
)
    ensures { subscriptions.new ≡ subscribe_ended id outcome.now subscriptions.old }
{
    match outcome {
        Outcome::Granted { codes } => grant(subscriptions, id, codes),
        _ => subscriptions.lose(id),
    }
}

fn grant<const ROUTES: usize>(subscriptions: &mut Subscriptions<ROUTES>, id: u16, codes: &Codes)
    ensures { subscriptions.new ≡ granted_or_lost id codes.now subscriptions.old }
{
    match subscriptions.asked_len(id) {
        Some(asked) if asked == codes.len() => subscriptions.grant(id, codes),
        _ => subscriptions.lose(id),
    }
}

pub fn is_done(outcome: &Outcome) -> bool
    ensures { result ≡ is_done outcome.now }
{
    matches!(outcome, Outcome::Done)
}
