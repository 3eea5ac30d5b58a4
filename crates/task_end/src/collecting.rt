//! What comes to a task that stays.

ghost use Rattle.std.specs.Prelude.{◌≡◌, ℕ, ◌+◌, ◌<◌, ◌&&◌, ◌==◌, not, true, false, List, [], ◌∷◌, ◌++◌, length, IfNone};
ghost use Rattle.std.specs.Bool.{OnTrue, OnFalse};
ghost use Rattle.command_pool.specs.Hands.{times};
ghost use Rattle.task_queues.specs.declared.note.Note.{Note};
ghost use Rattle.task_queues.specs.MailboxPasses.{WasEmpty};
ghost use Rattle.task_end.specs.Notes.{outcomes_in, messages_in, completed_in, has_closed};
ghost use Rattle.task_end.specs.Commands.{Has, NoneIsStray};
ghost use Rattle.task_end.specs.Sides.{IsOut, IsGivenBack, IsSameSent, IsBehind, WasFoundEmpty, keeping, found_empty};
ghost use Rattle.task_end.specs.Answers.{IfGot, IfBack, IsNext, is_got, is_not_yet, is_messages_first, looks_of, handed, is_closed, is_none_yet, looks_in, looks_for};

use crate::answers::{Collected, NextMessage, Told};
use crate::task::TaskEnd;
use crate::ticket::Ticket;
use front_board::Named;
use std::sync::Wait;

impl<J: Named, const POOL: usize, const QUEUE: usize, const INBOX: usize> TaskEnd<
    J,
    POOL,
    QUEUE,
    INBOX,
> {
    /// The outcome of a ticket's command. Notes are taken in until it is there, there is no more, or as many messages are kept
    /// as there is room for. It takes no memory.
    pub fn collect<R: Wait>(&mut self, rt: &R, ticket: Ticket) -> Collected
        requires out { IsOut ticket self.old.side }
        ensures got { (more : List Note) × IsBehind more (looks_of result) self.old.side self.new.side × (self.new.kept ≡ self.old.kept ++ messages_in more) }
        ensures sent { IsSameSent self.old.side self.new.side }
        // The outcome was told by a note, and the ticket's number is given back.
        ensures told { IfGot result (λ outcome. Has (outcomes_in self.new.side.getter.got) (ticket.seq, outcome)) }
        ensures given { IfGot result (λ _. IsGivenBack ticket self.old.side self.new.side) }
        // Else the ticket comes back, and nothing that was got completes its command.
        ensures back { IfBack result (λ back. (back ≡ ticket) × (self.new.side.permits ≡ self.old.side.permits) × (self.new.side.out ≡ self.old.side.out)) }
        ensures none { IfBack result (λ _. NoneIsStray self.new.side.sender.sent self.new.side.getter.got → times ticket.seq (completed_in self.new.side.getter.got) ≡ 0) }
        ensures first { is_messages_first result ≡ (not (is_got result) && length self.new.kept == INBOX) }
        ensures empty { is_not_yet result ≡ true → WasFoundEmpty J.board self.old.side.getter.empties self.new.side.getter }
    {
        let mut ticket = ticket;
        for _ in rt.forever() {
            match self.side.hand_out(ticket) {
                Ok(outcome) => return Collected::Got(outcome),
                Err(back) => ticket = back,
            }
            if self.kept.len() == INBOX {
                return Collected::MessagesFirst(ticket);
            }
            if !self.take_in(rt) {
                return Collected::NotYet(ticket);
            }
        }
        unreachable!()
    }

    /// The oldest message that wasn't handed out. It takes no memory.
    pub fn next_message<R: Wait>(&mut self, rt: &R) -> NextMessage
        ensures got { (more : List Note) × IsBehind more (looks_in result) self.old.side self.new.side × (self.old.kept ++ messages_in more ≡ handed result ++ self.new.kept) }
        ensures sent { IsSameSent self.old.side self.new.side }
        ensures held { (self.new.side.permits ≡ self.old.side.permits) × (self.new.side.out ≡ self.old.side.out) }
        ensures closed { is_closed result ≡ ((length (handed result) == 0 && length self.new.kept == 0) && has_closed self.new.side.getter.got) }
        ensures empty { is_none_yet result ≡ true → WasFoundEmpty J.board self.old.side.getter.empties self.new.side.getter }
    {
        for _ in rt.forever() {
            if let Some((message, at)) = self.kept.pop_front() {
                return NextMessage::Message(message, at);
            }
            if self.side.is_closed() {
                return NextMessage::Closed;
            }
            if !self.take_in(rt) {
                return NextMessage::NoneYet;
            }
        }
        unreachable!()
    }

    /// The next that the task is told: the oldest message that is kept, or else what one more note tells. So completions and
    /// messages come in the order in which they were told. `None` only where nothing is kept and the mailbox was empty at a step
    /// of this call. It takes no memory.
    pub fn next_note<R: Wait>(&mut self, rt: &R) -> Option<Told>
        ensures got { (more : List Note) × IsBehind more (looks_for result) self.old.side self.new.side × IsNext self.old.kept result more self.new.kept }
        ensures sent { IsSameSent self.old.side self.new.side }
        ensures held { (self.new.side.permits ≡ self.old.side.permits) × (self.new.side.out ≡ self.old.side.out) }
        ensures empty { IfNone result (WasEmpty J.board self.old.side.getter) }
    {
        match self.kept.pop_front() {
            Some((message, at)) => Some(Told::Message(message, at)),
            None => self.side.take_in(rt),
        }
    }

    /// Takes in a note, and says whether there was one. A message is kept. `false` only where the mailbox was empty at a step of
    /// this call.
    fn take_in<R: Wait>(&mut self, rt: &R) -> bool
        requires room { length self.old.kept < INBOX }
        ensures took { OnTrue result ((note : Note) × (self.new ≡ keeping (note ∷ []) self.old)) }
        ensures none { OnFalse result (self.new ≡ record self.old { side = found_empty self.old.side }) }
        ensures empty { OnFalse result (WasEmpty J.board self.old.side.getter) }
    {
        match self.side.take_in(rt) {
            Some(Told::Message(message, at)) => {
                self.kept.push_back((message, at));
                true
            }
            Some(Told::Completion(_)) => true,
            Some(Told::Closed) => true,
            None => false,
        }
    }
}
