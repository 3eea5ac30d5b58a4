//! What the steps of an agent answer.

/// A request that was taken from the queue.
#[derive(Clone, Copy, Debug, PartialEq, Eq)]
pub struct Popped {
    pub task: u32,
    /// Its number, from 0, among the requests of its task.
    pub seq: u32,
    /// Whether it is the task's Leave, which nothing completes.
    pub leaves: bool,
}

/// Memory ran out in a step. The journal is legal still, but its last entry may stand there without its packets.
#[derive(Clone, Copy, Debug, PartialEq, Eq)]
pub struct Short {
    /// The request that the step took from the queue, whose entry may be missing.
    pub popped: Option<Popped>,
}

/// What an agent did.
#[derive(Clone, Copy, Debug, PartialEq, Eq)]
pub enum Served {
    /// An entry was made, or bytes came; and this request was taken, if one was.
    Worked(Option<Popped>),
    /// There was nothing to do.
    Idle,
    /// Nothing will be done any more: the session has ended, and each task has left.
    Ended,
}
