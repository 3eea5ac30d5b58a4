//! What a task did and what came to it.

use crate::outcome_log::OutcomeLog;
use list_types::Seq;

/// Of each command its number, how much of the journal its task had seen when it submitted it, and how many notes it had taken
/// in by then.
pub type Fronts = Seq<(u32, u64, u64)>;

/// What a task submitted and was told, in order.
#[derive(Drop)]
pub struct TaskLog {
    pub task: u32,
    /// Commands that were submitted, without the Leave.
    pub sent: u32,
    /// Completions that came.
    pub got: u32,
    /// Messages that came.
    pub messages: u64,
    pub outcomes: OutcomeLog,
    pub fronts: Fronts,
}

/// How many requests of a task there are, its Leave included, and how many notes.
#[derive(Clone, Copy, Debug, PartialEq, Eq)]
pub struct Counts {
    pub requests: u64,
    pub notes: u64,
}
