//! What no clause says: that a call succeeds, and the order in numbers.

use agent_journal::{Effect, Effects, Request};
use list_types::{Blob, Seq, Text};
use mqtt_packet::{Packet, Qos};
use pending_acks::{Pending, PendingAcks};
use qos_state::{AckKind, QosState};
use session_resume::resume;
use std::alloc::{AllocError, Global};
use std::test::Fail;

/// Opens a publish where there is room.
fn open<const ACKS: usize, const IN: usize>(
    alloc: Global,
    qos: &mut QosState<ACKS, IN>,
    pending: &mut PendingAcks<ACKS>,
    id: u16,
    twice: bool,
) -> Result<(), AllocError> {
    let topic = Text::from_str(alloc, "a/b")?;
    let payload = Blob::new(alloc);
    if id > 0
        && qos.stage_of(id).is_none()
        && qos.len() < ACKS
        && !pending.is_full()
        && !pending.has(id)
    {
        let level = if twice {
            qos.start(id, Qos::ExactlyOnce);
            Qos::ExactlyOnce
        } else {
            qos.start(id, Qos::AtLeastOnce);
            Qos::AtLeastOnce
        };
        pending.add(Pending {
            id,
            task: 0,
            seq: u32::from(id),
            request: Request::Publish {
                qos: level,
                topic,
                payload,
            },
            sent_filters: Seq::new(alloc),
        });
    }
    Ok(())
}

/// The packet at place `k`: its name, its identifier and DUP.
fn sent_at(effects: &Effects, k: usize) -> (&'static str, u16, bool) {
    match effects.get(k) {
        Some(
            Effect::Send {
                packet: Packet::PubRel { id },
            },
        ) => ("pubrel", *id, false),
        Some(
            Effect::Send {
                packet: Packet::Publish { id, dup, .. },
            },
        ) => ("publish", *id, *dup),
        _ => ("none", 0, false),
    }
}

#[test]
fn two_are_sent_again(rt: HostRuntime) -> Result<(), Fail> {
    let alloc = rt.alloc();
    let mut qos = QosState::<2, 2>::new(alloc)?;
    let mut pending = PendingAcks::<2>::new(alloc)?;
    open(alloc, &mut qos, &mut pending, 1, false)?;
    open(alloc, &mut qos, &mut pending, 2, true)?;
    qos.on_ack(AckKind::PubRec, 2);
    let effects = resume(alloc, &qos, &pending)?;
    assert_eq!(rt; effects.len(), 2);
    assert_eq!(rt; sent_at(&effects, 0), ("pubrel", 2, false));
    assert_eq!(rt; sent_at(&effects, 1), ("publish", 1, true));
    Ok(())
}

#[test]
fn releases_come_first_in_the_order_of_their_pubrecs(rt: HostRuntime) -> Result<(), Fail> {
    let alloc = rt.alloc();
    let mut qos = QosState::<1024, 1024>::new(alloc)?;
    let mut pending = PendingAcks::<1024>::new(alloc)?;
    for (id, twice) in [(9, true), (3, false), (4, true), (8, true), (2, true)] {
        open(alloc, &mut qos, &mut pending, id, twice)?;
    }
    if !pending.is_full() && !pending.has(5) {
        pending.add(Pending {
            id: 5,
            task: 0,
            seq: 10,
            request: Request::Subscribe {
                asks: Seq::new(alloc),
            },
            sent_filters: Seq::new(alloc),
        });
    }
    for id in [8, 4, 8] {
        qos.on_ack(AckKind::PubRec, id);
    }
    let effects = resume(alloc, &qos, &pending)?;
    assert_eq!(rt; effects.len(), 5);
    assert_eq!(rt;
        [sent_at(&effects, 0), sent_at(&effects, 1)],
        [("pubrel", 8, false), ("pubrel", 4, false)]
    );
    assert_eq!(rt;
        [sent_at(&effects, 2), sent_at(&effects, 3)],
        [("publish", 9, true), ("publish", 3, true)]
    );
    assert_eq!(rt; sent_at(&effects, 4), ("publish", 2, true));
    Ok(())
}
