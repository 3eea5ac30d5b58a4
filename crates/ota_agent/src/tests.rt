//! What no clause says: the event table as people read it, and requests in bytes.

ghost use Rattle.std.specs.Prelude.{◌*◌, ◌<◌, ◌≤◌};

use crate::Action::*;
use crate::OtaEvent::*;
use crate::OtaState::*;
use crate::{Action, Ota, OtaEvent, OtaState, next_ask};
use arrayvec::ArrayVec;
use std::alloc::{AllocError, Global};
use std::test::Fail;
use stream_blocks::{AskBlocks, Missing};

/// The events that bring a new update to each state.
const WAYS: [(OtaState, &[OtaEvent]); 10] = [
    (Init, &[]),
    (Ready, &[Start]),
    (RequestingJob, &[Start, Suspend, Resume]),
    (WaitingForJob, &[Start, RequestJob]),
    (CreatingFile, &[Start, RequestJob, ReceivedJob]),
    (
        RequestingFileBlock,
        &[Start, RequestJob, ReceivedJob, CreateFile],
    ),
    (
        WaitingForFileBlock,
        &[Start, RequestJob, ReceivedJob, CreateFile, RequestBlock],
    ),
    (
        SelfTesting,
        &[
            Start,
            RequestJob,
            ReceivedJob,
            CreateFile,
            RequestBlock,
            CloseFile,
        ],
    ),
    (Suspended, &[Start, Suspend]),
    (Stopped, &[Shutdown]),
];

const EVENTS: [OtaEvent; 13] = [
    Start,
    RequestJob,
    ReceivedJob,
    CreateFile,
    RequestBlock,
    ReceivedBlock,
    RequestTimer,
    CloseFile,
    SelfTest,
    Suspend,
    Resume,
    UserAbort,
    Shutdown,
];

/// The rows of the table: event, states, new state and actions.
const ROWS: [(OtaEvent, &[OtaState], OtaState, &[Action]); 26] = [
    (Start, &[Init], Ready, &[SubscribeJobs, Raise(RequestJob)]),
    (
        RequestJob,
        &[Ready, RequestingJob],
        WaitingForJob,
        &[AskJob, StartTimer],
    ),
    (
        ReceivedJob,
        &[WaitingForJob],
        CreatingFile,
        &[StopTimer, Raise(CreateFile)],
    ),
    (
        CreateFile,
        &[CreatingFile],
        RequestingFileBlock,
        &[
            OpenImage,
            SubscribeStream,
            ReportProgress,
            Raise(RequestBlock),
        ],
    ),
    (
        RequestBlock,
        &[RequestingFileBlock, WaitingForFileBlock],
        WaitingForFileBlock,
        &[AskBlocks, StartTimer],
    ),
    (
        ReceivedBlock,
        &[WaitingForFileBlock],
        WaitingForFileBlock,
        &[WriteBlock],
    ),
    (
        RequestTimer,
        &[WaitingForJob],
        RequestingJob,
        &[Raise(RequestJob)],
    ),
    (
        RequestTimer,
        &[WaitingForFileBlock],
        RequestingFileBlock,
        &[Raise(RequestBlock)],
    ),
    (
        CloseFile,
        &[WaitingForFileBlock],
        SelfTesting,
        &[StopTimer, FinishImage],
    ),
    (SelfTest, &[SelfTesting], WaitingForJob, &[TestImage]),
    (
        Suspend,
        &[Ready, RequestingJob, CreatingFile],
        Suspended,
        &[],
    ),
    (Suspend, &[WaitingForJob], Suspended, &[StopTimer]),
    (Suspend, &[RequestingFileBlock], Suspended, &[AbortImage]),
    (
        Suspend,
        &[WaitingForFileBlock],
        Suspended,
        &[StopTimer, AbortImage],
    ),
    (Suspend, &[SelfTesting], Suspended, &[RejectImage]),
    (Resume, &[Suspended], RequestingJob, &[Raise(RequestJob)]),
    (
        UserAbort,
        &[RequestingJob, CreatingFile, Suspended],
        Ready,
        &[],
    ),
    (UserAbort, &[WaitingForJob], Ready, &[StopTimer]),
    (
        UserAbort,
        &[RequestingFileBlock],
        Ready,
        &[AbortImage, ReportFailed],
    ),
    (
        UserAbort,
        &[WaitingForFileBlock],
        Ready,
        &[StopTimer, AbortImage, ReportFailed],
    ),
    (
        UserAbort,
        &[SelfTesting],
        Ready,
        &[RejectImage, ReportFailed],
    ),
    (
        Shutdown,
        &[Init, Ready, RequestingJob, CreatingFile, Suspended],
        Stopped,
        &[],
    ),
    (Shutdown, &[WaitingForJob], Stopped, &[StopTimer]),
    (Shutdown, &[RequestingFileBlock], Stopped, &[AbortImage]),
    (
        Shutdown,
        &[WaitingForFileBlock],
        Stopped,
        &[StopTimer, AbortImage],
    ),
    (Shutdown, &[SelfTesting], Stopped, &[RejectImage]),
];

/// What the rows say of an event in a state.
fn listed(event: OtaEvent, state: OtaState) -> (OtaState, &'static [Action]) {
    for (on, from, to, actions) in ROWS {
        if on == event && from.contains(&state) {
            return (to, actions);
        }
    }
    (state, &[])
}

/// A new update behind these events.
fn behind(events: &[OtaEvent]) -> Ota {
    let mut ota = Ota::new();
    for event in events {
        ota.on(*event);
    }
    ota
}

#[test]
fn each_event_in_each_state(rt: HostRuntime) {
    for (state, way) in WAYS {
        for event in EVENTS {
            let mut ota = behind(way);
            assert_eq!(rt; ota.state(), state);
            let actions = ota.on(event);
            let (then, wanted) = listed(event, state);
            assert_eq!(rt; ota.state(), then, "{event:?} in {state:?}");
            assert_eq!(rt; actions.as_slice(), wanted, "{event:?} in {state:?}");
        }
    }
}

/// Of so many blocks all are missing but these.
fn missing<const WORDS: usize>(
    alloc: Global,
    blocks: u32,
    there: &[u32],
) -> Result<Missing<WORDS>, AllocError>
    requires { (0 < blocks) × (blocks ≤ 64 * WORDS) }
{
    let mut missing: Missing<WORDS> = Missing::new(alloc, blocks)?;
    for i in there {
        if *i < missing.blocks() {
            missing.mark(*i);
        }
    }
    Ok(missing)
}

/// A request for blocks of 4,096 bytes of file 3.
fn request(offset: u32, number: u32, map: &[u8]) -> Option<AskBlocks> {
    Some(AskBlocks {
        file: 3,
        size: 4096,
        offset,
        number,
        map: ArrayVec::try_from(map).ok()?,
    })
}

#[test]
fn what_is_missing_is_asked_for(rt: HostRuntime) -> Result<(), Fail> {
    let none: Missing<1> = missing(rt.alloc(), 1, &[0])?;
    assert_eq!(rt; next_ask(&none, 3, 4096), None);
    let one: Missing<1> = missing(rt.alloc(), 1, &[])?;
    assert_eq!(rt; next_ask(&one, 3, 4096), request(0, 1, b"\x01"));
    let sixteen: Missing<1> = missing(rt.alloc(), 16, &[])?;
    assert_eq!(rt; next_ask(&sixteen, 3, 4096), request(0, 16, b"\xff\xff"));
    let seventeen: Missing<1> = missing(rt.alloc(), 20, &[0, 1, 3])?;
    let answer = next_ask(&seventeen, 3, 4096);
    assert_eq!(rt; answer, request(2, 16, b"\xfd\xff\x03"));
    Ok(())
}

#[test]
fn a_request_names_256_blocks_at_most(rt: HostRuntime) -> Result<(), Fail> {
    let full = [0xff; 32];
    let most: Missing<4> = missing(rt.alloc(), 256, &[])?;
    assert_eq!(rt; next_ask(&most, 3, 4096), request(0, 16, full.as_slice()));
    let more: Missing<5> = missing(rt.alloc(), 307, &[0, 1, 2, 3, 4, 5, 6])?;
    assert_eq!(rt; next_ask(&more, 3, 4096), request(7, 16, full.as_slice()));
    Ok(())
}
