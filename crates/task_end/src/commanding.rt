//! Commands that begin and end.

ghost use Rattle.std.specs.Prelude.{◌≡◌, ◌≤◌, ◌<◌, ◌+◌, [], ◌∷◌, ◌++◌, length, position, false, OnOk, IfSome, IfNone, None, Some};
ghost use Rattle.std.specs.List.{list_any};
ghost use Rattle.std.specs.Vec.{vec_capacity};
ghost use Rattle.task_queues.specs.Fronts.{granted_in};
ghost use Rattle.task_end.specs.Outcomes.{outcomes_of};
ghost use Rattle.task_end.specs.Commands.{command, is_waiting, is_kept, IsTakenFrom, Ends};

use crate::command::Command;
use crate::commands::Commands;
use crate::logging::logged;
use agent_journal::Outcome;
use std::alloc::AllocError;

impl Commands {
    /// Makes room for one command more, and for its outcome.
    pub fn reserve(&mut self) -> Result<(), AllocError>
        requires few { self.old.next < 4000000000 }
        ensures next { self.new.next ≡ self.old.next }
        ensures out { self.new.out.items ≡ self.old.out.items }
        ensures log { self.new.log.items ≡ self.old.log.items }
        ensures outcomes { OnOk result (self.new.next < vec_capacity self.new.log) }
        ensures commands { OnOk result (length self.new.out.items < vec_capacity self.new.out) }
    {
        let wanted = self.next as usize + 1;
        self.log.reserve(wanted.saturating_sub(self.log.len()))?;
        self.out.reserve(1)
    }

    /// One command more, with this permit. It has the next number.
    pub fn begin(&mut self, number: u32)
        requires few { self.old.next < 4000000000 }
        requires outcomes { self.old.next < vec_capacity self.old.log }
        requires commands { length self.old.out.items < vec_capacity self.old.out }
        ensures next { self.new.next ≡ self.old.next + 1 }
        ensures out { self.new.out.items ≡ self.old.out.items ++ record { seq = self.old.next; number = number; outcome = None } ∷ [] }
        ensures log { self.new.log.items ≡ self.old.log.items }
    {
        self.out.push_reserved(Command {
            seq: self.next,
            number,
            outcome: None,
        });
        self.next += 1;
    }

    /// A command ended: its outcome is logged, and kept for its ticket. Nothing changes where none of this number is waited for.
    pub fn end(&mut self, seq: u32, outcome: Outcome)
        requires few { length (granted_in outcome) ≤ 8 }
        ensures next { self.new.next ≡ self.old.next }
        ensures ends { Ends seq outcome self.old.out.items self.new.out.items (outcomes_of self.old.log.items) (outcomes_of self.new.log.items) }
    {
        match place_waiting(self.out.as_slice(), seq) {
            Some(k) => {
                self.log.push_reserved((seq, logged(&outcome)));
                self.out[k].outcome = Some(outcome);
            }
            None => {}
        }
    }

    /// The outcome of a ticket's command, which is over with it. `None` where it didn't come yet.
    pub fn take(&mut self, seq: u32, number: u32) -> Option<Outcome>
        ensures next { self.new.next ≡ self.old.next }
        ensures log { self.new.log.items ≡ self.old.log.items }
        ensures some { IfSome result (λ outcome. IsTakenFrom (command seq number (Some outcome)) self.old.out.items self.new.out.items) }
        ensures none { IfNone result ((self.new.out.items ≡ self.old.out.items) × (list_any (is_kept seq number) self.old.out.items ≡ false)) }
    {
        match place_kept(self.out.as_slice(), seq, number) {
            Some(k) => self.out.remove(k).outcome,
            None => None,
        }
    }
}

/// The first command of this number that is waited for.
fn place_waiting(out: &[Command], seq: u32) -> Option<usize>
    ensures { result ≡ position (is_waiting seq) out.now }
{
    out.iter()
        .position(|command| command.seq == seq && command.outcome.is_none())
}

/// The first command of this ticket whose outcome came.
fn place_kept(out: &[Command], seq: u32, number: u32) -> Option<usize>
    ensures { result ≡ position (is_kept seq number) out.now }
{
    out.iter().position(|command| {
        command.seq == seq && command.number == number && command.outcome.is_some()
    })
}
