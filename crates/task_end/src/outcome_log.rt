//! The outcomes of a task's commands, kept in place.

ghost use Rattle.std.specs.Prelude.{◌≡◌, ◌≤◌, length, slice_get, IfOk};
ghost use Rattle.agent_journal.specs.declared.outcome.Outcome.{Outcome};
ghost use Rattle.task_queues.specs.Fronts.{granted_in};

use agent_journal::Outcome;
use arrayvec::ArrayVec;
use list_types::Seq;
use std::alloc::{AllocError, Global};
use std::marker::Model;

/// An outcome that takes no memory: at most eight codes stand in place.
#[derive(Drop)]
pub enum Logged {
    Done,
    Granted { codes: ArrayVec<u8, 8> },
    NoRoom,
    NoRoute,
    NotConnected,
    LinkLost,
    SessionLost,
    Cancelled,
    NoMemory,
}

/// Outcomes by the number of their command, in the order in which they came. Contracts see that list.
#[derive(Drop)]
pub struct OutcomeLog {
    pub(crate) items: Vec<(u32, Logged)>,
}

impl Model for OutcomeLog {
    ghost use Rattle.std.specs.Prelude.{ℕ, List};
    ghost use Rattle.agent_journal.specs.declared.outcome.Outcome.{Outcome};
    ghost use Rattle.task_end.specs.Outcomes.{outcomes_of};

    ghost Value = { List (ℕ × Outcome) };

    ghost view = { λ l. outcomes_of l.items.items };
}
