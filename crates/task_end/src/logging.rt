//! Outcomes into a log and out of it.

ghost use Rattle.std.specs.Prelude.{◌≡◌, ◌≤◌, length, slice_get, option_map, IfOk};
ghost use Rattle.task_queues.specs.Fronts.{granted_in};
ghost use Rattle.task_end.specs.Outcomes.{outcome_of};

use crate::outcome_log::{Logged, OutcomeLog};
use agent_journal::Outcome;
use arrayvec::ArrayVec;
use list_types::Seq;
use std::alloc::{AllocError, Global};

/// The outcome as a log keeps it.
pub fn logged(outcome: &Outcome) -> Logged
    requires few { length (granted_in outcome.now) ≤ 8 }
    ensures { outcome_of result ≡ outcome.now }
{
    match outcome {
        Outcome::Done => Logged::Done,
        Outcome::Granted { codes } => Logged::Granted {
            codes: in_place(codes.as_slice()),
        },
        Outcome::NoRoom => Logged::NoRoom,
        Outcome::NoRoute => Logged::NoRoute,
        Outcome::NotConnected => Logged::NotConnected,
        Outcome::LinkLost => Logged::LinkLost,
        Outcome::SessionLost => Logged::SessionLost,
        Outcome::Cancelled => Logged::Cancelled,
        Outcome::NoMemory => Logged::NoMemory,
    }
}

/// At most eight codes, in place.
fn in_place(codes: &[u8]) -> ArrayVec<u8, 8>
    requires few { length codes.now ≤ 8 }
    ensures { result.items ≡ codes.now }
{
    let mut held = ArrayVec::new();
    match held.try_extend_from_slice(codes) {
        Ok(()) => held,
        Err(_) => unreachable!(),
    }
}

/// The outcome that a log keeps.
fn outcome(alloc: Global, kept: &Logged) -> Result<Outcome, AllocError>
    ensures { IfOk result (λ o. o ≡ outcome_of kept.now) }
{
    Ok(match kept {
        Logged::Done => Outcome::Done,
        Logged::Granted { codes } => Outcome::Granted {
            codes: Seq::from_vec(Vec::from_slice(alloc, codes.as_slice())?),
        },
        Logged::NoRoom => Outcome::NoRoom,
        Logged::NoRoute => Outcome::NoRoute,
        Logged::NotConnected => Outcome::NotConnected,
        Logged::LinkLost => Outcome::LinkLost,
        Logged::SessionLost => Outcome::SessionLost,
        Logged::Cancelled => Outcome::Cancelled,
        Logged::NoMemory => Outcome::NoMemory,
    })
}

impl OutcomeLog {
    /// How many there are.
    pub fn len(&self) -> usize
        ensures { result ≡ length self.now }
    {
        self.items.len()
    }

    /// A copy of the k-th, counted from 0: its command's number, and the outcome.
    pub fn get(&self, alloc: Global, k: usize) -> Result<Option<(u32, Outcome)>, AllocError>
        ensures { IfOk result (λ found. found ≡ slice_get self.now k) }
    {
        match self.items.get(k) {
            Some(done) => Ok(Some((done.0, outcome(alloc, &done.1)?))),
            None => Ok(None),
        }
    }
}
