//! What an entry opens and receives, in the stages of publishes.

ghost use Rattle.std.specs.Prelude.{◌≡◌, ◌<◌, ◌++◌, ◌∷◌, [], ℕ, length, false, true};
ghost use Rattle.std.specs.List.{list_any};
ghost use Rattle.agent_table.specs.Deliveries as table;
ghost use Rattle.pending_acks.specs.Commands.{has_id};
ghost use Rattle.mqtt_packet.specs.declared.qos.Qos.TheVariants.{ExactlyOnce};
ghost use Rattle.agent_journal.specs.declared.entry.Cause.{Cause as Event};
ghost use Rattle.std.specs.Prelude.{None};
ghost use Rattle.qos_state.specs.Deliveries as d;
ghost use Rattle.agent_core.specs.Tied.{begun_by, IsTied, CanHold, CanHoldBy, CanHoldAs, CanHoldAt};

use crate::sends::sends_received;
use agent_journal::{Cause, Effect, Request};
use mqtt_packet::{Packet, Qos};
use pending_acks::{Pending, PendingAcks};
use qos_state::{AckKind, QosState};

/// A command was sent.
pub fn open<const ACKS: usize, const IN: usize>(
    pending: &mut PendingAcks<ACKS>,
    qos: &mut QosState<ACKS, IN>,
    command: Pending,
)
    requires tied { IsTied pending.old qos.old }
    requires room { length pending.old < ACKS }
    requires fresh { list_any (has_id command.id) pending.old ≡ false }
    ensures tied { IsTied pending.new qos.new }
    ensures pending { pending.new ≡ pending.old ++ command ∷ [] }
    ensures released { qos.new.released ≡ qos.old.released }
    ensures held { qos.new.held ≡ qos.old.held }
{
    start(pending, qos, &command);
    pending.add(command);
}

/// A publish that awaits an acknowledgement begins its stages.
#[tactic(auto, using(crate::proofs::Openings::released_same, crate::proofs::Openings::held_same))]
fn start<const ACKS: usize, const IN: usize>(
    pending: &PendingAcks<ACKS>,
    qos: &mut QosState<ACKS, IN>,
    command: &Pending,
)
    requires tied { IsTied pending.now qos.old }
    requires room { length pending.now < ACKS }
    requires fresh { list_any (has_id command.now.id) pending.now ≡ false }
    ensures tied { IsTied (pending.now ++ command.now ∷ []) qos.new }
    ensures released { qos.new.released ≡ qos.old.released }
    ensures held { qos.new.held ≡ qos.old.held }
{
    start_request(qos, command.id, &command.request);
}

fn start_request<const ACKS: usize, const IN: usize>(
    qos: &mut QosState<ACKS, IN>,
    id: u16,
    request: &Request,
)
    requires fresh { d.stage_of qos.old id ≡ None }
    requires room { d.open_count qos.old < ACKS }
    ensures { qos.new ≡ begun_by id request.now qos.old }
{
    match request {
        Request::Publish { qos: wanted, .. } => start_publish(qos, id, *wanted),
        Request::Subscribe { .. } => {}
        Request::Unsubscribe { .. } => {}
        Request::Ping => {}
        Request::Disconnect => {}
        Request::Terminate => {}
        Request::Leave => {}
    }
}

fn start_publish<const ACKS: usize, const IN: usize>(
    qos: &mut QosState<ACKS, IN>,
    id: u16,
    wanted: Qos,
)
    requires fresh { d.stage_of qos.old id ≡ None }
    requires room { d.open_count qos.old < ACKS }
    ensures { qos.new ≡ d.started id wanted qos.old }
{
    match wanted {
        Qos::AtMostOnce => {}
        Qos::AtLeastOnce => qos.start(id, Qos::AtLeastOnce),
        Qos::ExactlyOnce => qos.start(id, Qos::ExactlyOnce),
    }
}

/// A packet arrived, or something else happened.
pub fn receive<const ACKS: usize, const IN: usize>(
    pending: &PendingAcks<ACKS>,
    qos: &mut QosState<ACKS, IN>,
    cause: &Cause,
    effects: &[Effect],
)
    requires tied { IsTied pending.now qos.old }
    requires room { CanHold cause.now effects.now IN qos.old.held }
    ensures tied { IsTied pending.now qos.new }
    ensures released { qos.new.released ≡ table.released_behind pending.now qos.old.released cause.now }
    ensures held { (at : ℕ) → qos.new.held ≡ table.held_behind cause.now (record { at = at; cause = cause.now; effects = effects.now }) qos.old.held }
{
    match cause {
        Cause::Opened => {}
        Cause::Take { .. } => {}
        Cause::Arrived { packet } => receive_packet(pending, qos, packet, effects),
        Cause::Broke { .. } => {}
        Cause::Tick => {}
        Cause::GaveUp => {}
        Cause::Finish => {}
    }
}

fn receive_packet<const ACKS: usize, const IN: usize>(
    pending: &PendingAcks<ACKS>,
    qos: &mut QosState<ACKS, IN>,
    packet: &Packet,
    effects: &[Effect],
)
    requires tied { IsTied pending.now qos.old }
    requires room { CanHoldBy packet.now effects.now IN qos.old.held }
    ensures tied { IsTied pending.now qos.new }
    ensures released { qos.new.released ≡ table.released_by pending.now qos.old.released packet.now }
    ensures held { (at : ℕ) (cause : Event) → qos.new.held ≡ table.held_by packet.now (record { at = at; cause = cause; effects = effects.now }) qos.old.held }
{
    match packet {
        Packet::Connect { .. } => {}
        Packet::ConnAck { .. } => {}
        Packet::Publish { qos: level, id, .. } => hold_at(qos, *level, *id, effects),
        Packet::PubAck { .. } => {}
        Packet::PubRec { id } => release(pending, qos, *id),
        Packet::PubRel { id } => qos.on_release(*id),
        Packet::PubComp { .. } => {}
        Packet::Subscribe { .. } => {}
        Packet::SubAck { .. } => {}
        Packet::Unsubscribe { .. } => {}
        Packet::UnsubAck { .. } => {}
        Packet::PingReq => {}
        Packet::PingResp => {}
        Packet::Disconnect => {}
    }
}

fn hold_at<const ACKS: usize, const IN: usize>(
    qos: &mut QosState<ACKS, IN>,
    level: Qos,
    id: u16,
    effects: &[Effect],
)
    requires room { CanHoldAs level id effects.now IN qos.old.held }
    ensures rest { qos.new ≡ record qos.old { held = qos.new.held } }
    ensures held { (at : ℕ) (cause : Event) → qos.new.held ≡ table.held_at level id (record { at = at; cause = cause; effects = effects.now }) qos.old.held }
{
    match level {
        Qos::AtMostOnce => {}
        Qos::AtLeastOnce => {}
        Qos::ExactlyOnce => hold(qos, id, effects),
    }
}

/// A QoS 2 PUBLISH that is answered by PUBREC is held (MQTT 3.1.1, section 4.3.3).
#[tactic(auto, using(crate::proofs::Openings::held_new, crate::proofs::Openings::held_not))]
fn hold<const ACKS: usize, const IN: usize>(
    qos: &mut QosState<ACKS, IN>,
    id: u16,
    effects: &[Effect],
)
    requires room { CanHoldAt id effects.now IN qos.old.held }
    ensures rest { qos.new ≡ record qos.old { held = qos.new.held } }
    ensures held { (at : ℕ) (cause : Event) → qos.new.held ≡ table.held_at ExactlyOnce id (record { at = at; cause = cause; effects = effects.now }) qos.old.held }
{
    if sends_received(id, effects) {
        qos.on_publish(id);
    }
}

/// An identifier that was held is held again.
pub fn hold_again<const ACKS: usize, const IN: usize>(qos: &mut QosState<ACKS, IN>, id: u16)
    requires room { length qos.old.held < IN }
    requires fresh { table.is_among qos.old.held id ≡ false }
    ensures { qos.new ≡ record qos.old { held = qos.old.held ++ id ∷ [] } }
{
    qos.on_publish(id);
}

/// The first PUBREC of an open QoS 2 publish releases it.
pub fn release<const ACKS: usize, const IN: usize>(
    pending: &PendingAcks<ACKS>,
    qos: &mut QosState<ACKS, IN>,
    id: u16,
)
    requires tied { IsTied pending.now qos.old }
    ensures tied { IsTied pending.now qos.new }
    ensures released { qos.new.released ≡ table.with_released pending.now qos.old.released id }
    ensures held { qos.new.held ≡ qos.old.held }
{
    // No two commands have one identifier.
    pending.len();
    qos.on_ack(AckKind::PubRec, id);
}
