//! Updates of a job's status.

ghost use Rattle.std.specs.Prelude.{◌≡◌};
ghost use Rattle.device_docs.specs.Updates.{update_text};

/// How far a job's execution is.
#[derive(Clone, Copy, Debug, PartialEq, Eq)]
pub enum JobStatus {
    /// `IN_PROGRESS`
    InProgress,
    /// `SUCCEEDED`
    Succeeded,
    /// `FAILED`
    Failed,
    /// `REJECTED`
    Rejected,
}

/// The text of an update of a job's status, as `{"status":"IN_PROGRESS"}`.
pub fn write_update(status: JobStatus) -> &'static str
    ensures { result.now ≡ update_text status }
{
    match status {
        JobStatus::InProgress => "{\"status\":\"IN_PROGRESS\"}",
        JobStatus::Succeeded => "{\"status\":\"SUCCEEDED\"}",
        JobStatus::Failed => "{\"status\":\"FAILED\"}",
        JobStatus::Rejected => "{\"status\":\"REJECTED\"}",
    }
}
