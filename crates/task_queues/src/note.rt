//! What the agent tells a task.

use agent_journal::{Message, Outcome};
use front_board::Mark;

/// One thing that the agent tells a task. `at` is the time of the journal's entry, in milliseconds, and `front` how long the
/// journal was with it. Without memory for an entry there is none.
#[derive(Drop)]
pub enum Note {
    /// The command that the task submitted as number `seq` ended so.
    Done {
        seq: u32,
        outcome: Outcome,
        at: u64,
        front: Option<Mark>,
    },
    /// A message came that the task had subscribed to.
    Message {
        message: Message,
        at: u64,
        front: Option<Mark>,
    },
    /// No more messages will come.
    Closed {
        at: u64,
        front: Option<Mark>,
    },
}
