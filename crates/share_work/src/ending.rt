//! How a task's work goes on, and how it ended.

/// What came of one piece of a task's work.
#[derive(Clone, Copy, Debug, PartialEq, Eq)]
pub enum Going {
    /// The task got on.
    Worked,
    /// There was nothing to do: the task waits for the agent.
    Waits,
    /// No step is left, and no ticket: the task may leave.
    Over,
}

/// How a task's work ended.
#[derive(Clone, Copy, Debug, PartialEq, Eq)]
pub enum Ending {
    /// It went past all its steps.
    All,
    /// Memory ran out for a request: the task went past no further step.
    NoMemory,
    /// The task has submitted as many requests as one may.
    Spent,
}
