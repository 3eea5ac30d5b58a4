//! The packets that carry copies of messages.

ghost use Rattle.std.specs.Prelude.{◌≡◌, ◌++◌, Bool, map, slice_get, OnOk, IfOk};
ghost use Rattle.std.specs.List.{flat_map};
ghost use Rattle.std.specs.Option.{option_copied};
ghost use Rattle.mqtt_packet.specs.declared.packet.Packet.TheVariants as p;
ghost use Rattle.broker_core.specs.Copies as spec;

use crate::delivery::Delivery;
use list_types::Copied;
use mqtt_packet::{Packet, Qos, Resend};
use std::alloc::{AllocError, Global};

/// The message at a place.
#[tactic(auto, using(crate::proofs::Places::in_front, crate::proofs::Places::behind))]
fn message<'a>(passed: &'a [Packet], newest: &'a [Packet], place: usize) -> Option<&'a Packet>
    ensures { option_copied result ≡ slice_get (passed.now ++ newest.now) place }
{
    if place < passed.len() {
        passed.get(place)
    } else {
        newest.get(place - passed.len())
    }
}

/// A PUBLISH of the message with these fields of its own, and RETAIN 0.
pub fn copy_of(
    alloc: Global,
    dup: bool,
    qos: Qos,
    id: u16,
    message: &Packet,
) -> Result<Packet, AllocError>
    ensures { IfOk result (λ copy. copy ≡ spec.copy_of dup qos id message.now) }
{
    match message {
        Packet::Publish { topic, payload, .. } => Ok(Packet::Publish {
            dup,
            qos,
            retain: false,
            topic: topic.copy(alloc)?,
            id,
            payload: payload.copy(alloc)?,
        }),
        other => other.copy(alloc),
    }
}

/// Adds the PUBLISHes of these deliveries. `passed` and `newest` are the messages by their places.
#[tactic(auto, using(crate::proofs::Loops::flat_more, crate::proofs::Loops::flat_all))]
pub fn push_all(
    alloc: Global,
    packets: &mut Resend,
    dup: bool,
    deliveries: &[Delivery],
    passed: &[Packet],
    newest: &[Packet],
) -> Result<(), AllocError>
    ensures { OnOk result (packets.new ≡ packets.old ++ flat_map (spec.publish_of (passed.now ++ newest.now) dup) deliveries.now) }
{
    for delivery in deliveries {
        push_one(alloc, packets, dup, delivery, passed, newest)?;
    }
    Ok(())
}

fn push_one(
    alloc: Global,
    packets: &mut Resend,
    dup: bool,
    delivery: &Delivery,
    passed: &[Packet],
    newest: &[Packet],
) -> Result<(), AllocError>
    ensures { OnOk result (packets.new ≡ packets.old ++ spec.publish_of (passed.now ++ newest.now) dup delivery.now) }
{
    if let Some(message) = message(passed, newest, delivery.place) {
        packets.push(copy_of(alloc, dup, delivery.qos, delivery.id, message)?)?;
    }
    Ok(())
}

/// Adds PUBRELs of these identifiers.
#[tactic(auto, using(crate::proofs::Loops::map_more, crate::proofs::Loops::map_all))]
pub fn push_releases(packets: &mut Resend, released: &[u16]) -> Result<(), AllocError>
    ensures { OnOk result (packets.new ≡ packets.old ++ map (λ id. p.PubRel id) released.now) }
{
    for id in released {
        packets.push(Packet::PubRel { id: *id })?;
    }
    Ok(())
}
