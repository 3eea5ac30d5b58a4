//! The deliveries of one session, and how many of them may be unacknowledged (MQTT 3.1.1, sections 4.3 and 4.4).

ghost use Rattle.std.specs.Prelude.{◌≡◌, ◌++◌, ◌≤◌, ◌+◌, ℕ, drop, map, length, not, filter, IfOk};
ghost use Rattle.std.specs.List.{list_any};
ghost use Rattle.mqtt_packet.specs.Flags.{level};
ghost use Rattle.agent_table.specs.Identifiers.{last_or};
ghost use Rattle.broker_core.specs.Session as spec;

use crate::delivery::{Delivery, Waiting};
use crate::identifiers::fresh;
use mqtt_packet::Qos;
use std::alloc::{AllocError, Global};
use std::collections::VecDeque;

/// The most deliveries of a session that are sent and not acknowledged.
pub const WINDOW: usize = 16;

/// Whether one of them has this identifier and quality of service.
pub fn has_delivery(sent: &[Delivery], qos: Qos, id: u16) -> bool
    ensures { result ≡ list_any (spec.is_delivery qos id) sent.now }
{
    sent.iter().any(|delivery| is_delivery(delivery, qos, id))
}

fn is_delivery(delivery: &Delivery, qos: Qos, id: u16) -> bool
    ensures { result ≡ spec.is_delivery qos id delivery.now }
{
    delivery.id == id && delivery.qos == qos
}

/// Takes it out.
pub fn remove_delivery(sent: &mut Vec<Delivery>, qos: Qos, id: u16)
    ensures { sent.new.items ≡ spec.others qos id sent.old.items }
{
    sent.retain(|delivery| !is_delivery(delivery, qos, id));
}

/// The identifiers of all of them.
#[tactic(auto, using(crate::proofs::Loops::map_more, crate::proofs::Loops::map_all))]
pub fn in_use(alloc: Global, sent: &[Delivery], released: &[u16]) -> Result<Vec<u16>, AllocError>
    ensures { IfOk result (λ used. used.items ≡ spec.in_use sent.now released.now) }
{
    let mut used = Vec::new(alloc);
    for delivery in sent {
        used.push(delivery.id)?;
    }
    used.extend_from_slice(released)?;
    Ok(used)
}

/// The deliveries that begin: what waits, while fewer than 16 are unacknowledged.
#[tactic(auto, using(crate::proofs::Windows::begun_more, crate::proofs::Windows::begun_full, crate::proofs::Windows::begun_all))]
pub fn begin(
    alloc: Global,
    last: u16,
    mut used: Vec<u16>,
    waiting: &VecDeque<Waiting>,
) -> Result<Vec<Delivery>, AllocError>
    ensures { IfOk result (λ begun. begun.items ≡ spec.begun last used.items waiting.now.items) }
{
    let mut last = last;
    let mut begun = Vec::new(alloc);
    while used.len() < WINDOW {
        let Some(copy) = waiting.get(begun.len()) else {
            return Ok(begun);
        };
        last = fresh(last, used.as_slice());
        used.push(last)?;
        begun.push(Delivery {
            id: last,
            place: copy.place,
            qos: copy.qos,
        })?;
    }
    Ok(begun)
}

/// The identifier that was drawn last, where `last` was before.
#[tactic(auto, using(crate::proofs::Windows::last_of, crate::proofs::Windows::last_of_none))]
pub fn last_id(last: u16, begun: &[Delivery]) -> u16
    ensures { result ≡ last_or last (spec.ids_of begun.now) }
{
    match begun.last() {
        Some(delivery) => delivery.id,
        None => last,
    }
}

/// Takes so many off the front.
pub fn drop_front(waiting: &mut VecDeque<Waiting>, count: usize)
    ensures { waiting.new.items ≡ drop count waiting.old.items }
{
    for taken in 0..count {
        waiting.pop_front();
    }
}
