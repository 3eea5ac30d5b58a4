//! The words of the event table: states, events and actions.

/// Where an update stands.
#[derive(Clone, Copy, Debug, PartialEq, Eq)]
pub enum OtaState {
    /// Nothing was started.
    Init,
    /// No job is wanted.
    Ready,
    /// A job is to be asked for.
    RequestingJob,
    /// A job was asked for, or the last one is over.
    WaitingForJob,
    /// A job came, and its image is to be created.
    CreatingFile,
    /// Blocks are to be asked for.
    RequestingFileBlock,
    /// Blocks were asked for.
    WaitingForFileBlock,
    /// All blocks came, and the image is judged and tested.
    SelfTesting,
    /// The user let it rest.
    Suspended,
    /// It is over.
    Stopped,
}

/// What happens to an update.
#[derive(Clone, Copy, Debug, PartialEq, Eq)]
pub enum OtaEvent {
    Start,
    RequestJob,
    /// A job was read.
    ReceivedJob,
    CreateFile,
    RequestBlock,
    /// A data message came.
    ReceivedBlock,
    /// The timer ran out.
    RequestTimer,
    /// No block is missing.
    CloseFile,
    /// The image has the digest of its job.
    SelfTest,
    Suspend,
    Resume,
    UserAbort,
    Shutdown,
}

/// What is to be done. The default only fills the unused cells of a list.
#[derive(Clone, Copy, Debug, Default, PartialEq, Eq)]
pub enum Action {
    /// Subscribe to the answers on jobs.
    #[default]
    SubscribeJobs,
    AskJob,
    /// Subscribe to the data of the job's stream.
    SubscribeStream,
    /// Create the new image.
    OpenImage,
    /// Ask for the blocks that are missing.
    AskBlocks,
    WriteBlock,
    /// Judge the image by its digest.
    FinishImage,
    /// Test the image, and accept or reject it.
    TestImage,
    /// Reject an image that is tested, and abort one that isn't yet.
    RejectImage,
    AbortImage,
    ReportProgress,
    ReportFailed,
    StartTimer,
    StopTimer,
    /// This event comes next.
    Raise(OtaEvent),
}
