//! Taking notes in, and handing outcomes out.

ghost use Rattle.std.specs.Prelude.{◌≡◌, [], ◌∷◌, Ok, Err, IfOk, IfErr, IfSome, IfNone};
ghost use Rattle.command_pool.specs.Hands.{times};
ghost use Rattle.task_queues.specs.declared.note.Note.{Note};
ghost use Rattle.task_queues.specs.MailboxPasses.{WasEmpty};
ghost use Rattle.task_end.specs.Notes.{outcomes_in, completed_in, has_closed};
ghost use Rattle.task_end.specs.Commands.{Has, NoneIsStray};
ghost use Rattle.task_end.specs.Sides.{took, found_empty, IsOut, IsGivenBack, IsSameSent};
ghost use Rattle.task_end.specs.Answers.{told_in};

use crate::answers::Told;
use crate::side::Side;
use crate::ticket::Ticket;
use agent_journal::Outcome;
use front_board::Named;
use std::sync::Wait;
use task_queues::Note;

impl<J: Named, const POOL: usize, const QUEUE: usize, const INBOX: usize> Side<
    J,
    POOL,
    QUEUE,
    INBOX,
> {
    /// Takes in the oldest note that the mailbox holds: its mark is learnt, and an outcome is kept for its ticket. `None` only
    /// where the mailbox was empty at a step of this call.
    pub fn take_in<R: Wait>(&mut self, rt: &R) -> Option<Told>
        ensures some { IfSome result (λ told. (note : Note) × (told_in note ≡ told) × (self.new ≡ took (note ∷ []) self.old)) }
        ensures none { IfNone result (self.new ≡ found_empty self.old) }
        ensures empty { IfNone result (WasEmpty J.board self.old.getter) }
        ensures all { IfNone result (IfSome self.old.getter.joined (λ put. self.old.getter.got ≡ put)) }
    {
        let Some(note) = self.mailbox.get(rt, &mut self.getter) else {
            return None;
        };
        self.notes = self.notes.saturating_add(1);
        match note {
            Note::Done {
                seq,
                outcome,
                at: _,
                front,
            } => {
                self.sight.learn(front);
                self.commands.end(seq, outcome);
                Some(Told::Completion(seq))
            }
            Note::Message { message, at, front } => {
                self.sight.learn(front);
                self.messages = self.messages.saturating_add(1);
                Some(Told::Message(message, at))
            }
            Note::Closed { at: _, front } => {
                self.sight.learn(front);
                self.closed = true;
                Some(Told::Closed)
            }
        }
    }

    /// Whether the task was told that no more messages will come.
    pub fn is_closed(&self) -> bool
        ensures { result ≡ has_closed self.now.getter.got }
    {
        self.closed
    }

    /// The outcome of a ticket's command, where it was taken in; its number is given back. Else the ticket comes back.
    pub fn hand_out(&mut self, ticket: Ticket) -> Result<Outcome, Ticket>
        requires out { IsOut ticket self.old }
        ensures getter { self.new.getter ≡ self.old.getter }
        ensures sent { IsSameSent self.old self.new }
        ensures told { IfOk result (λ outcome. Has (outcomes_in self.old.getter.got) (ticket.seq, outcome)) }
        ensures given { IfOk result (λ _. IsGivenBack ticket self.old self.new) }
        ensures back { IfErr result (λ back. (back ≡ ticket) × (self.new ≡ self.old)) }
        ensures none { IfErr result (λ _. NoneIsStray self.old.sender.sent self.old.getter.got → times ticket.seq (completed_in self.old.getter.got) ≡ 0) }
    {
        match self.commands.take(ticket.seq, ticket.permit.id()) {
            Some(outcome) => {
                let Ticket { permit, seq: _ } = ticket;
                self.pool.give(&mut self.permits, permit);
                Ok(outcome)
            }
            None => Err(ticket),
        }
    }
}
