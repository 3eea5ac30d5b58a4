//! A run so long that each identifier is used again.

use super::histories::{Small, agent, entered, is_accepted, publish};
use agent_journal::{Cause, Effect, Effects, Outcome};
use list_types::{Blob, Text};
use mqtt_packet::{Packet, Qos};
use std::alloc::{AllocError, Global};

/// Whether a cause has just this effect.
fn has(core: &mut Small, cause: Cause, want: &Effect) -> bool {
    match entered(core, 0, cause) {
        Some(entry) => is_all(&entry.effects, want),
        None => false,
    }
}

fn is_all(effects: &Effects, want: &Effect) -> bool {
    match effects.get(0) {
        Some(effect) => effects.len() == 1 && *effect == *want,
        None => false,
    }
}

fn sent(alloc: Global, id: u16) -> Result<Packet, AllocError> {
    Ok(Packet::Publish {
        dup: false,
        qos: Qos::ExactlyOnce,
        retain: false,
        topic: Text::from_str(alloc, "a")?,
        id,
        payload: Blob::from_vec(b"x".as_slice().to_vec(alloc)?),
    })
}

/// Whether a publish exactly once is sent with this identifier.
fn is_sent(core: &mut Small, alloc: Global, seq: u32, id: u16) -> bool {
    let task = 0;
    match (publish(alloc, 2, "a", "x"), sent(alloc, id)) {
        (Ok(request), Ok(packet)) => has(
            core,
            Cause::Take { task, seq, request },
            &Effect::Send { packet },
        ),
        _ => false,
    }
}

/// Whether its PUBREC is answered by PUBREL.
fn is_released(core: &mut Small, id: u16) -> bool {
    let packet = Packet::PubRec { id };
    let want = Packet::PubRel { id };
    has(
        core,
        Cause::Arrived { packet },
        &Effect::Send { packet: want },
    )
}

/// Whether its PUBCOMP ends it.
fn is_done(core: &mut Small, seq: u32, id: u16) -> bool {
    let packet = Packet::PubComp { id };
    let (task, outcome) = (0, Outcome::Done);
    has(
        core,
        Cause::Arrived { packet },
        &Effect::Done { task, seq, outcome },
    )
}

/// The first of 100,000 publishes, one behind the other, that doesn't go by the table. Behind the identifier
/// 65,535 comes 1.
fn first_wrong(core: &mut Small, alloc: Global) -> Option<u32> {
    let mut id = 1u16;
    for seq in 0..100_000u32 {
        if !is_sent(core, alloc, seq, id) || !is_released(core, id) || !is_done(core, seq, id) {
            return Some(seq);
        }
        id = if id == 65_535 { 1 } else { id.wrapping_add(1) };
    }
    None
}

fn differs(alloc: Global) -> Option<u32> {
    let Some(mut core) = agent(alloc, 1, false) else {
        return Some(0);
    };
    if is_accepted(&mut core) {
        first_wrong(&mut core, alloc)
    } else {
        Some(0)
    }
}

/// Section 4.3.3.
#[test]
fn publishes_go_on_behind_the_last_identifier(rt: HostRuntime) {
    assert_eq!(rt; differs(rt.alloc()), None);
}
