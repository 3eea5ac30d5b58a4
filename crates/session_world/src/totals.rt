//! What is counted of a world.

/// Counts over all events that were played.
#[derive(Clone, Copy, Debug, PartialEq, Eq)]
pub struct Totals {
    /// Publishes that the agent took.
    pub taken: u64,
    /// Those of them that are done.
    pub done: u128,
    /// Messages on `out/a` that the broker passed on.
    pub passed: usize,
    /// Messages that the broker published itself.
    pub own: u32,
    /// Messages that were passed to the task.
    pub told: u128,
    /// Breaks that were played.
    pub breaks: u32,
}
