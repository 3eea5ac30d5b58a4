//! Turns: the agent does one thing at a time.

ghost use Rattle.std.specs.Prelude.{◌≡◌, ℕ, ◌≤◌, ◌||◌, true, false, is_err, None, Ok, OnOk, OnErr, IfOk, length};
ghost use Rattle.agent_requests.specs.Intake.{StaysTied, IsSameEnd};
ghost use Rattle.agent_end.specs.Serving.{Serving, IsServing, journal_in};
ghost use Rattle.agent_end.specs.Short.{WorksWithout};
ghost use Rattle.agent_end.specs.Turns.{Appends, AreSameEnds, StaysTimed, Answers};

use crate::end::AgentEnd;
use agent_line::{Telling, read};
use agent_link::{Clock, Link};
use agent_posts::Posted;
use agent_requests::Served;
use front_board::Named;
use mqtt_packet::NoMemory;
use std::alloc::AllocError;
use std::sync::Wait;

/// What a turn did.
#[derive(Clone, Copy, Debug, PartialEq, Eq)]
pub enum Turn {
    /// An entry was made, bytes came, or a note was put.
    Worked,
    /// There was nothing to do.
    Idle,
    /// The mailbox of this task is full: nothing is done before it takes a note.
    Stalled(u32),
    /// Each task has left, and all notes are put; the session has ended, or memory ran out.
    Ended,
}

impl<
    J: Named,
    const QUEUE: usize,
    const INBOX: usize,
    const ACKS: usize,
    const IN: usize,
    const ROUTES: usize,
> AgentEnd<J, QUEUE, INBOX, ACKS, IN, ROUTES> {
    /// Does the first of these that there is to do: a note that waits is put; what is due is done; in Down a connection is opened; in
    /// Opening and Up it receives once, and in Up and Off a request is taken. Link and clock are those of the turns before.
    ///
    /// Once memory ran out each later turn works by the mailboxes alone, and takes no memory. What the journal tells and wasn't put is
    /// given up. First, each command that was taken from the queue and has no Done put is completed with the outcome NoMemory. Second,
    /// each task that hasn't left and whose Closed wasn't put is closed. Third, a submission is taken from the queue; if it is a command
    /// it is completed likewise. Such a turn answers NoMemory, or Stalled where it found a mailbox full; and Ended, once all is put and
    /// each task has left.
    pub fn turn<R: Wait, L: Link, C: Clock>(
        &mut self,
        rt: &R,
        link: &mut L,
        clock: &mut C,
    ) -> Result<Turn, NoMemory>
        ensures serving { IsServing self.new }
        ensures appends { Appends self.old self.new }
        ensures same { IsSameEnd self.old.taking.receiver self.new.taking.receiver × AreSameEnds self.old.mail.putters self.new.mail.putters }
        ensures short { self.new.short ≡ (self.old.short || is_err result) }
        ensures tied { self.new.short ≡ false → StaysTied self.old.taking (⟦<L as Telling>⟧.told link.old) self.new.taking (⟦<L as Telling>⟧.told link.new) }
        ensures timed { self.new.short ≡ false → StaysTimed self.old (C.readings clock.old) self.new (C.readings clock.new) }
        ensures without { self.old.short ≡ true → WorksWithout J.board INBOX self.old self.new result }
        ensures alone { self.old.short ≡ true → (⟦<L as Telling>⟧.told link.new ≡ ⟦<L as Telling>⟧.told link.old) × (C.readings clock.new ≡ C.readings clock.old) }
        ensures runs_out { self.old.short ≡ false → OnErr result ((self.new.mail.putters ≡ self.old.mail.putters) × (self.new.mail.next ≡ None)) }
        ensures answers { self.new.short ≡ false → IfOk result (λ answer. Answers J.board INBOX self.old (⟦<L as Telling>⟧.told link.old) self.new (⟦<L as Telling>⟧.told link.new) answer) }
    {
        if self.short {
            return self.turn_without_memory(rt);
        }
        match self
            .posts
            .put(rt, self.intake.recorder().entries(), &mut self.shown)
        {
            Ok(Posted::Nothing) => self.step(rt, link, clock),
            Ok(Posted::Put(task, kind)) => {
                self.owed.note(task, kind);
                Ok(Turn::Worked)
            }
            Ok(Posted::Full(task)) => Ok(Turn::Stalled(task)),
            Err(e) => {
                self.short = true;
                Err(e)
            }
        }
    }
}
