//! Packet identifiers.

use super::histories::{Small, agent, entered, is_accepted, publish};
use agent_journal::{Cause, Effect, Effects};
use mqtt_packet::Packet;
use std::alloc::Global;

/// The identifier that a publish at least once draws.
fn drawn(core: &mut Small, alloc: Global, seq: u32) -> Option<u16> {
    let request = publish(alloc, 1, "a", "").ok()?;
    let task = 0;
    match entered(core, 0, Cause::Take { task, seq, request }) {
        Some(entry) => sent_id(&entry.effects),
        None => None,
    }
}

/// The identifier of the first PUBLISH sent.
fn sent_id(effects: &Effects) -> Option<u16> {
    for effect in effects.iter() {
        if let Effect::Send {
            packet: Packet::Publish { id, .. },
        } = effect
        {
            return Some(*id);
        }
    }
    None
}

/// Whether a PUBACK ends an open publish.
fn is_acknowledged(core: &mut Small, id: u16) -> bool {
    let packet = Packet::PubAck { id };
    match entered(core, 0, Cause::Arrived { packet }) {
        Some(entry) => entry.effects.len() == 1,
        None => false,
    }
}

/// A publish with identifier 1 stays open while the following ones are drawn and acknowledged one by one. The
/// first identifier that isn't drawn in its turn.
fn skipped(core: &mut Small, alloc: Global) -> Option<u16> {
    if !is_accepted(core) || drawn(core, alloc, 0) != Some(1) {
        return Some(1);
    }
    let mut seq = 1u32;
    for id in 2..=65_535u16 {
        if drawn(core, alloc, seq) != Some(id) || !is_acknowledged(core, id) {
            return Some(id);
        }
        seq = seq.wrapping_add(1);
    }
    None
}

/// Behind 65,535 comes 2 while 1 is open; the ones drawn then.
fn behind_the_last(alloc: Global) -> Option<(u16, u16)> {
    let mut core = agent(alloc, 1, false)?;
    if skipped(&mut core, alloc).is_some() {
        return None;
    }
    let first = drawn(&mut core, alloc, 65_535)?;
    if !is_acknowledged(&mut core, 1) {
        return None;
    }
    let second = drawn(&mut core, alloc, 65_536)?;
    Some((first, second))
}

/// Section 2.3.1: 0 is no identifier, and one that is in use isn't drawn.
#[test]
fn identifiers_begin_again_behind_65_535(rt: HostRuntime) {
    assert_eq!(rt; behind_the_last(rt.alloc()), Some((2, 3)));
}
