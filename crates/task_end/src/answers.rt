//! What a task is answered.

use crate::ticket::Ticket;
use agent_journal::{Message, Outcome};

/// Why a request wasn't submitted.
#[derive(Clone, Copy, Debug, PartialEq, Eq)]
pub enum SubmitFault {
    /// No command number was free when this call looked.
    PoolEmpty,
    /// The queue was full when this call looked.
    QueueFull,
    /// The task has submitted 4,000,000,000 requests.
    Spent,
    /// Memory ran out.
    NoMemory,
}

/// What a `collect` has of a ticket's command.
pub enum Collected {
    /// How it ended.
    Got(Outcome),
    /// Nothing yet: the mailbox was empty when this call looked.
    NotYet(Ticket),
    /// Nothing yet, and as many messages are kept as there is room for: they have to be taken first.
    MessagesFirst(Ticket),
}

/// The next message of a task.
#[derive(Debug, Drop, PartialEq, Eq)]
pub enum NextMessage {
    /// The oldest that wasn't handed out, and the time of its entry in milliseconds.
    Message(Message, u64),
    /// There is none: the mailbox was empty when this call looked.
    NoneYet,
    /// There is none, and no more will come.
    Closed,
}

/// What a note tells a task.
#[derive(Debug, Drop, PartialEq, Eq)]
pub enum Told {
    /// The command of this number ended. Its ticket collects how.
    Completion(u32),
    /// A message, and the time of its entry in milliseconds.
    Message(Message, u64),
    /// No more messages will come.
    Closed,
}
