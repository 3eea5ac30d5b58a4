//! The journal goes on, where all notes are put.

ghost use Rattle.std.specs.Prelude.{◌≡◌, ℕ, ◌≤◌, true, false, is_err, OnOk, IfOk, length};
ghost use Rattle.agent_requests.specs.Intake.{StaysTied, IsSameEnd};
ghost use Rattle.agent_posts.specs.Mail.{IsAllPut};
ghost use Rattle.agent_end.specs.Serving.{IsServing, journal_in};
ghost use Rattle.agent_end.specs.Turns.{Appends, AreSameEnds, StaysTimed, Answers};

use crate::end::AgentEnd;
use crate::turn::Turn;
use agent_line::{Telling, read};
use agent_link::{Clock, Link};
use agent_requests::{Served, Short};
use front_board::Named;
use mqtt_packet::NoMemory;
use std::alloc::AllocError;
use std::sync::Wait;

impl<
    J: Named,
    const QUEUE: usize,
    const INBOX: usize,
    const ACKS: usize,
    const IN: usize,
    const ROUTES: usize,
> AgentEnd<J, QUEUE, INBOX, ACKS, IN, ROUTES> {
    /// Does what there is to do at the clock's time, and shows what was entered.
    pub(crate) fn step<R: Wait, L: Link, C: Clock>(
        &mut self,
        rt: &R,
        link: &mut L,
        clock: &mut C,
    ) -> Result<Turn, NoMemory>
        requires memory { self.old.short ≡ false }
        requires put { IsAllPut (journal_in self.old) self.old.mail }
        ensures serving { IsServing self.new }
        ensures appends { Appends self.old self.new }
        ensures same { IsSameEnd self.old.taking.receiver self.new.taking.receiver × (self.new.mail ≡ self.old.mail) }
        ensures short { self.new.short ≡ is_err result }
        ensures tied { OnOk result (StaysTied self.old.taking (⟦<L as Telling>⟧.told link.old) self.new.taking (⟦<L as Telling>⟧.told link.new)) }
        ensures timed { StaysTimed self.old (C.readings clock.old) self.new (C.readings clock.new) }
        ensures answers { IfOk result (λ answer. Answers J.board INBOX self.old (⟦<L as Telling>⟧.told link.old) self.new (⟦<L as Telling>⟧.told link.new) answer) }
    {
        let Ok(()) = self.owed.reserve() else {
            self.short = true;
            return Err(AllocError);
        };
        let now = read(self.intake.recorder(), clock);
        let served = self.intake.serve(rt, link, &mut self.shown, now);
        self.shown.raise(self.intake.recorder().len() as u64);
        match served {
            Ok(Served::Worked(popped)) => {
                self.owed.take(popped);
                Ok(Turn::Worked)
            }
            Ok(Served::Idle) => Ok(Turn::Idle),
            Ok(Served::Ended) => Ok(Turn::Ended),
            Err(Short { popped }) => {
                self.owed.take(popped);
                self.short = true;
                Err(AllocError)
            }
        }
    }
}
