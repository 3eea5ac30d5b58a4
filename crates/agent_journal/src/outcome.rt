//! How commands end.

use list_types::{Copied, Seq};
use std::alloc::{AllocError, Global};

/// How a command ended.
#[derive(Debug, Drop, PartialEq, Eq)]
pub enum Outcome {
    /// It was done, and acknowledged where its packet is.
    Done,
    /// The broker answered a subscribe with these codes, one for each filter.
    Granted { codes: Seq<u8> },
    /// As many commands were open as there is room for.
    NoRoom,
    /// As many routes were there as there is room for.
    NoRoute,
    /// There is no connection, and there will be none.
    NotConnected,
    /// The connection broke before the acknowledgement came.
    LinkLost,
    /// The broker lost the session while this publish was open; whether it was passed on isn't known;
    /// the task's routes stay and are asked for again.
    SessionLost,
    /// The agent ended first.
    Cancelled,
    /// Memory ran out. It stands in no journal.
    NoMemory,
}

impl Copied for Outcome {
    fn copy(&self, alloc: Global) -> Result<Outcome, AllocError> {
        Ok(match self {
            Outcome::Granted { codes } => Outcome::Granted {
                codes: codes.copy(alloc)?,
            },
            Outcome::Done => Outcome::Done,
            Outcome::NoRoom => Outcome::NoRoom,
            Outcome::NoRoute => Outcome::NoRoute,
            Outcome::NotConnected => Outcome::NotConnected,
            Outcome::LinkLost => Outcome::LinkLost,
            Outcome::SessionLost => Outcome::SessionLost,
            Outcome::Cancelled => Outcome::Cancelled,
            Outcome::NoMemory => Outcome::NoMemory,
        })
    }
}
