//! What came of a ticket.

/// What a try of a ticket brought.
#[derive(Clone, Copy, Debug, PartialEq, Eq)]
pub enum Tried {
    /// The command of this number is over, and its ticket collected.
    Got(u32),
    /// Nothing yet.
    NotYet,
    /// Nothing yet, and a message has to be taken first.
    MessagesFirst,
}
