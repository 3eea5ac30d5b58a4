//! What no clause says: that there is room for ACKS and IN identifiers, and the table of the stages in numbers.

ghost use Rattle.std.specs.Prelude.{◌<◌, ◌≤◌};

use mqtt_packet::Qos;
use qos_state::{AckAnswer, AckKind, QosState, Received, Stage};
use std::alloc::{AllocError, Global};
use std::process::Abort;
use std::test::Fail;

/// Starts a publish where that can be.
fn begin<const ACKS: usize, const IN: usize>(state: &mut QosState<ACKS, IN>, id: u16, qos: Qos) {
    if id > 0 && state.stage_of(id).is_none() && state.len() < ACKS {
        match qos {
            Qos::AtMostOnce => {}
            Qos::AtLeastOnce => state.start(id, Qos::AtLeastOnce),
            Qos::ExactlyOnce => state.start(id, Qos::ExactlyOnce),
        }
    }
}

/// Identifier 7 at a stage, or nothing.
fn at_stage(alloc: Global, stage: Option<Stage>) -> Result<QosState<2, 2>, AllocError> {
    let mut state = QosState::new(alloc)?;
    match stage {
        None => {}
        Some(Stage::Sent1) => begin(&mut state, 7, Qos::AtLeastOnce),
        Some(Stage::Sent2) => begin(&mut state, 7, Qos::ExactlyOnce),
        Some(Stage::Released) => {
            begin(&mut state, 7, Qos::ExactlyOnce);
            state.on_ack(AckKind::PubRec, 7);
        }
    }
    Ok(state)
}

/// The tables of MQTT 3.1.1, sections 4.3.2 and 4.3.3.
#[test]
fn acknowledgements_answer_by_the_stage(rt: HostRuntime) -> Result<(), Fail> {
    for (kind, before, answer, after) in [
        (AckKind::PubAck, None, AckAnswer::Passed, None),
        (
            AckKind::PubAck,
            Some(Stage::Sent1),
            AckAnswer::Finished,
            None,
        ),
        (
            AckKind::PubAck,
            Some(Stage::Sent2),
            AckAnswer::Passed,
            Some(Stage::Sent2),
        ),
        (
            AckKind::PubAck,
            Some(Stage::Released),
            AckAnswer::Passed,
            Some(Stage::Released),
        ),
        (AckKind::PubRec, None, AckAnswer::Passed, None),
        (
            AckKind::PubRec,
            Some(Stage::Sent1),
            AckAnswer::Passed,
            Some(Stage::Sent1),
        ),
        (
            AckKind::PubRec,
            Some(Stage::Sent2),
            AckAnswer::Release,
            Some(Stage::Released),
        ),
        (
            AckKind::PubRec,
            Some(Stage::Released),
            AckAnswer::Release,
            Some(Stage::Released),
        ),
        (AckKind::PubComp, None, AckAnswer::Passed, None),
        (
            AckKind::PubComp,
            Some(Stage::Sent1),
            AckAnswer::Passed,
            Some(Stage::Sent1),
        ),
        (
            AckKind::PubComp,
            Some(Stage::Sent2),
            AckAnswer::Passed,
            Some(Stage::Sent2),
        ),
        (
            AckKind::PubComp,
            Some(Stage::Released),
            AckAnswer::Finished,
            None,
        ),
    ] {
        let mut state = at_stage(rt.alloc(), before)?;
        assert_eq!(rt; state.stage_of(7), before);
        assert_eq!(rt; state.on_ack(kind, 7), answer, "{kind:?} at {before:?}");
        assert_eq!(rt; state.stage_of(7), after, "{kind:?} at {before:?}");
        assert_eq!(rt; state.is_empty(), after.is_none());
    }
    Ok(())
}

/// Each call, in a state that is new.
fn each_call<const ACKS: usize, const IN: usize>(rt: &impl Abort, state: &mut QosState<ACKS, IN>) {
    begin(state, 1, Qos::AtLeastOnce);
    begin(state, 60_001, Qos::ExactlyOnce);
    assert_eq!(rt; (state.len(), state.is_empty()), (2, false));
    assert_eq!(rt;
        [state.stage_of(1), state.stage_of(60_001), state.stage_of(2)],
        [Some(Stage::Sent1), Some(Stage::Sent2), None]
    );
    assert_eq!(rt; state.on_ack(AckKind::PubRec, 60_001), AckAnswer::Release);
    assert_eq!(rt;
        [state.released(0), state.released(1)],
        [Some(60_001), None]
    );
    assert_eq!(rt;
        [state.is_released(60_001), state.is_released(1)],
        [true, false]
    );
    state.drop_id(1);
    assert_eq!(rt; (state.stage_of(1), state.len()), (None, 1));
    assert_eq!(rt;
        [
            state.on_publish(5),
            state.on_publish(6),
            state.on_publish(5)
        ],
        [Received::New, Received::New, Received::Repeat]
    );
    assert_eq!(rt; state.arrival(6), Received::Repeat);
    state.on_release(5);
    assert_eq!(rt;
        [state.arrival(5), state.arrival(6)],
        [Received::New, Received::Repeat]
    );
    state.forget_held();
    assert_eq!(rt; state.arrival(6), Received::New);
    state.forget();
    assert!(rt; state.is_empty());
    assert!(rt; state.stage_of(60_001).is_none());
}

#[test]
fn each_call_at_2(rt: HostRuntime) -> Result<(), Fail> {
    let mut state = QosState::<2, 2>::new(rt.alloc())?;
    each_call(&rt, &mut state);
    Ok(())
}

#[test]
fn each_call_at_1024(rt: HostRuntime) -> Result<(), Fail> {
    let mut state = QosState::<1024, 1024>::new(rt.alloc())?;
    each_call(&rt, &mut state);
    Ok(())
}

#[test]
fn released_ones_stand_in_the_order_of_their_pubrecs(rt: HostRuntime) -> Result<(), Fail> {
    let mut state = QosState::<1024, 1024>::new(rt.alloc())?;
    for id in 1..2_000u16 {
        begin(&mut state, id, Qos::ExactlyOnce);
    }
    assert_eq!(rt; state.len(), 1_024);
    for id in [9, 4, 9, 6] {
        assert_eq!(rt; state.on_ack(AckKind::PubRec, id), AckAnswer::Release);
    }
    assert_eq!(rt;
        [state.released(0), state.released(1), state.released(2)],
        [Some(9), Some(4), Some(6)]
    );
    assert_eq!(rt; state.released(3), None);
    assert_eq!(rt; [state.is_released(4), state.is_released(5)], [true, false]);
    state.drop_id(4);
    assert_eq!(rt; [state.released(1), state.released(2)], [Some(6), None]);
    assert_eq!(rt; state.len(), 1_023);
    state.forget();
    assert!(rt; state.is_empty());
    Ok(())
}

#[test]
fn so_many_are_held(rt: HostRuntime) -> Result<(), Fail> {
    let mut small = QosState::<2, 2>::new(rt.alloc())?;
    let mut large = QosState::<1024, 1024>::new(rt.alloc())?;
    for id in 1..1_025u16 {
        if id > 0 {
            let answer = if id < 3 {
                Received::New
            } else {
                Received::Full
            };
            assert_eq!(rt; small.on_publish(id), answer);
            assert_eq!(rt; large.on_publish(id), Received::New);
        }
    }
    assert_eq!(rt;
        [small.on_publish(1), large.on_publish(1)],
        [Received::Repeat, Received::Repeat]
    );
    assert_eq!(rt;
        [small.arrival(3), large.arrival(1_025)],
        [Received::Full, Received::Full]
    );
    small.on_release(1);
    large.on_release(1);
    assert_eq!(rt;
        [small.on_publish(3), large.on_publish(1_025)],
        [Received::New, Received::New]
    );
    assert_eq!(rt;
        [small.on_publish(1), large.on_publish(1)],
        [Received::Full, Received::Full]
    );
    small.forget_held();
    assert_eq!(rt; small.on_publish(1), Received::New);
    Ok(())
}
