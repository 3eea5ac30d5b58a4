//! Requests are taken.

ghost use Rattle.std.specs.Prelude.{◌≡◌, ℕ, ◌≤◌, ◌+◌, ◌++◌, ◌∷◌, [], true, None, Some, Ok, OnOk, IfOk, IfErr, IfNone, length};
ghost use Rattle.agent_journal.specs.Readings as readings;
ghost use Rattle.agent_journal.specs.Readings.{last_time_of};
ghost use Rattle.task_queues.specs.declared.submission.Submission.{Submission};
ghost use Rattle.task_queues.specs.QueuePasses.{WasEmpty};
ghost use Rattle.agent_line.specs.Recorded.{phase_in, Enters};
ghost use Rattle.agent_requests.specs.declared.answers.Popped.{Popped};
ghost use Rattle.agent_requests.specs.Intake.{StaysTied, IsServed, takes_now, Pops, FoundEmpty, LosesTake};
ghost use Rattle.agent_requests.specs.Takes.{take_of};

use crate::answers::Popped;
use crate::intake::Intake;
use agent_journal::Request;
use agent_line::Telling;
use agent_link::Link;
use agent_posts::Shown;
use front_board::Named;
use std::sync::Wait;
use task_queues::Submission;

impl<J: Named, const QUEUE: usize, const ACKS: usize, const IN: usize, const ROUTES: usize> Intake<
    J,
    QUEUE,
    ACKS,
    IN,
    ROUTES,
> {
    /// Takes the oldest submission that the queue holds, if there is one, and makes its entry. `None` only where the queue was
    /// empty at a step of this call. Where memory ran out, the submission was taken, and the journal may not have its entry.
    pub fn take<R: Wait, L: Link>(
        &mut self,
        rt: &R,
        link: &mut L,
        shown: &mut Shown<J>,
        now: u64,
    ) -> Result<Option<Popped>, Popped>
        requires served { IsServed self.old }
        requires time { last_time_of self.old.recorded.past ≤ now }
        requires phase { takes_now (phase_in self.old.recorded) ≡ true }
        requires raised { shown.old ≤ length self.old.recorded.past }
        ensures tied { OnOk result (StaysTied self.old (⟦<L as Telling>⟧.told link.old) self.new (⟦<L as Telling>⟧.told link.new)) }
        ensures served { OnOk result (IsServed self.new) }
        ensures popped { IfOk result (λ popped. Pops popped self.old.receiver self.new.receiver) }
        ensures taken { (p : Popped) → result ≡ Ok (Some p) → (s : Submission) × Enters now (take_of s) self.old.recorded self.new.recorded × (self.new.receiver ≡ record self.old.receiver { taken = self.old.receiver.taken ++ s ∷ [] }) }
        ensures none { result ≡ Ok None → WasEmpty J.board self.old.receiver × (self.new ≡ record self.old { receiver = record self.old.receiver { empties = self.old.receiver.empties + 1 } }) × (⟦<L as Telling>⟧.told link.new ≡ ⟦<L as Telling>⟧.told link.old) }
        ensures err { IfErr result (LosesTake now self.old self.new) }
        ensures shown { shown.new ≡ shown.old }
    {
        let Some(submission) = self.queue.recv(rt, &mut self.receiver) else {
            return Ok(None);
        };
        let Submission {
            task,
            seq,
            request,
            front,
        } = submission;
        if let Some(mark) = front {
            shown.meet(mark);
        }
        let leaves = is_leave(&request);
        let Ok(()) = self
            .line
            .take(&mut self.recorder, link, now, task, seq, request)
        else {
            return Err(Popped { task, seq, leaves });
        };
        Ok(Some(Popped { task, seq, leaves }))
    }

    /// Takes the oldest submission that the queue holds, if there is one, and makes no entry: for an agent whose memory ran out.
    /// `None` only where the queue was empty at a step of this call. It takes no memory.
    pub fn pop<R: Wait>(&mut self, rt: &R) -> Option<Popped>
        ensures popped { Pops result self.old.receiver self.new.receiver }
        ensures same { self.new ≡ record self.old { receiver = self.new.receiver } }
        ensures none { IfNone result (FoundEmpty J.board self.old.receiver self.new.receiver) }
    {
        let Some(submission) = self.queue.recv(rt, &mut self.receiver) else {
            return None;
        };
        let leaves = is_leave(&submission.request);
        Some(Popped {
            task: submission.task,
            seq: submission.seq,
            leaves,
        })
    }
}

/// Whether a request is a task's last.
fn is_leave(request: &Request) -> bool
    ensures { result ≡ readings.is_leave request.now }
{
    matches!(request, Request::Leave)
}
