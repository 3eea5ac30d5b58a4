//! The event table.

ghost use Rattle.std.specs.Prelude.{◌≡◌, ◌≤◌, length};
ghost use Rattle.ota_agent.specs.Table as table;

use crate::events::Action::*;
use crate::events::OtaEvent::*;
use crate::events::OtaState::*;
use crate::events::{Action, OtaEvent, OtaState};

/// The state behind an event, and what is to be done. A pair that the table doesn't list changes nothing.
pub(crate) fn row(event: OtaEvent, state: OtaState) -> (OtaState, &'static [Action])
    ensures state { result.0 ≡ table.state_by (table.row event state) state }
    ensures actions { result.1.now ≡ table.actions_by (table.row event state) }
    ensures short { length result.1.now ≤ 4 }
{
    match (event, state) {
        (Start, Init) => (Ready, &[SubscribeJobs, Raise(RequestJob)]),
        (RequestJob, Ready | RequestingJob) => (WaitingForJob, &[AskJob, StartTimer]),
        (ReceivedJob, WaitingForJob) => (CreatingFile, &[StopTimer, Raise(CreateFile)]),
        (CreateFile, CreatingFile) => (
            RequestingFileBlock,
            &[
                OpenImage,
                SubscribeStream,
                ReportProgress,
                Raise(RequestBlock),
            ],
        ),
        (RequestBlock, RequestingFileBlock | WaitingForFileBlock) => {
            (WaitingForFileBlock, &[AskBlocks, StartTimer])
        }
        (ReceivedBlock, WaitingForFileBlock) => (WaitingForFileBlock, &[WriteBlock]),
        (RequestTimer, WaitingForJob) => (RequestingJob, &[Raise(RequestJob)]),
        (RequestTimer, WaitingForFileBlock) => (RequestingFileBlock, &[Raise(RequestBlock)]),
        (CloseFile, WaitingForFileBlock) => (SelfTesting, &[StopTimer, FinishImage]),
        (SelfTest, SelfTesting) => (WaitingForJob, &[TestImage]),
        (Suspend, Ready | RequestingJob | CreatingFile) => (Suspended, &[]),
        (Suspend, WaitingForJob) => (Suspended, &[StopTimer]),
        (Suspend, RequestingFileBlock) => (Suspended, &[AbortImage]),
        (Suspend, WaitingForFileBlock) => (Suspended, &[StopTimer, AbortImage]),
        (Suspend, SelfTesting) => (Suspended, &[RejectImage]),
        (Resume, Suspended) => (RequestingJob, &[Raise(RequestJob)]),
        (UserAbort, RequestingJob | CreatingFile | Suspended) => (Ready, &[]),
        (UserAbort, WaitingForJob) => (Ready, &[StopTimer]),
        (UserAbort, RequestingFileBlock) => (Ready, &[AbortImage, ReportFailed]),
        (UserAbort, WaitingForFileBlock) => (Ready, &[StopTimer, AbortImage, ReportFailed]),
        (UserAbort, SelfTesting) => (Ready, &[RejectImage, ReportFailed]),
        (Shutdown, Init | Ready | RequestingJob | CreatingFile | Suspended) => (Stopped, &[]),
        (Shutdown, WaitingForJob) => (Stopped, &[StopTimer]),
        (Shutdown, RequestingFileBlock) => (Stopped, &[AbortImage]),
        (Shutdown, WaitingForFileBlock) => (Stopped, &[StopTimer, AbortImage]),
        (Shutdown, SelfTesting) => (Stopped, &[RejectImage]),
        _ => (state, &[]),
    }
}
