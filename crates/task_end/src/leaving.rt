//! What a task that left may call.

ghost use Rattle.std.specs.Prelude.{◌≡◌, ℕ, ◌+◌, true, false, List, [], ◌∷◌, ◌++◌, length, map, Some, IfSome, All};
ghost use Rattle.std.specs.Bool.{OnTrue, OnFalse};
ghost use Rattle.command_pool.specs.Hands.{times};
ghost use Rattle.task_queues.specs.declared.note.Note.{Note};
ghost use Rattle.task_queues.specs.Submissions.{has_leave};
ghost use Rattle.task_queues.specs.MailboxPasses.{WasEmpty};
ghost use Rattle.task_end.specs.Notes.{outcomes_in, completed_in};
ghost use Rattle.task_end.specs.Commands.{Has, NoneIsStray};
ghost use Rattle.task_end.specs.Sides.{IsOut, IsGivenBack, IsSameSent, IsBehind, IsFrontOf, WasFoundEmpty, took, found_empty, front_part, fronts_noted};
ghost use Rattle.task_end.specs.Answers.{IfGot, IfBack, is_messages_first, is_not_yet, looks_of};
ghost use Rattle.task_end.specs.Logs.{IsLogOf};

use crate::answers::Collected;
use crate::left::LeftEnd;
use crate::log::TaskLog;
use crate::ticket::Ticket;
use front_board::Named;
use std::sync::Wait;
use task_queues::{GetPass, PutPass, SendPass};

impl<J: Named, const POOL: usize, const QUEUE: usize, const INBOX: usize> LeftEnd<
    J,
    POOL,
    QUEUE,
    INBOX,
> {
    /// The outcome of a ticket's command. Notes are taken in until it is there, or there is no more; messages among them are
    /// counted and given up, so the answer is never `MessagesFirst`. It takes no memory.
    pub fn collect<R: Wait>(&mut self, rt: &R, ticket: Ticket) -> Collected
        requires out { IsOut ticket self.old }
        ensures got { (more : List Note) × IsBehind more (looks_of result) self.old self.new }
        ensures sent { IsSameSent self.old self.new }
        // The outcome was told by a note, and the ticket's number is given back.
        ensures told { IfGot result (λ outcome. Has (outcomes_in self.new.getter.got) (ticket.seq, outcome)) }
        ensures given { IfGot result (λ _. IsGivenBack ticket self.old self.new) }
        // Else the ticket comes back, and nothing that was got completes its command.
        ensures back { IfBack result (λ back. (back ≡ ticket) × (self.new.permits ≡ self.old.permits) × (self.new.out ≡ self.old.out)) }
        ensures none { IfBack result (λ _. NoneIsStray self.new.sender.sent self.new.getter.got → times ticket.seq (completed_in self.new.getter.got) ≡ 0) }
        ensures never { is_messages_first result ≡ false }
        ensures empty { is_not_yet result ≡ true → WasFoundEmpty J.board self.old.getter.empties self.new.getter }
    {
        let mut ticket = ticket;
        for _ in rt.forever() {
            match self.side.hand_out(ticket) {
                Ok(outcome) => return Collected::Got(outcome),
                Err(back) => ticket = back,
            }
            if !self.take_in(rt) {
                return Collected::NotYet(ticket);
            }
        }
        unreachable!()
    }

    /// Takes in what the mailbox holds. Behind a `join` that is all that was put and not got. It takes no memory.
    pub fn drain<R: Wait>(&mut self, rt: &R)
        ensures got { (more : List Note) × (self.new ≡ found_empty (took more self.old)) }
        ensures empty { WasFoundEmpty J.board self.old.getter.empties self.new.getter }
        ensures all { IfSome self.old.getter.joined (λ put. self.new.getter.got ≡ put) }
    {
        for _ in rt.forever() {
            if !self.take_in(rt) {
                return;
            }
        }
        unreachable!()
    }

    /// Lets the other end of the mailbox go, at which no more is put.
    pub fn join<R: Wait>(&mut self, rt: &R, putter: PutPass)
        requires own { putter.mailbox ≡ self.old.getter.mailbox }
        ensures joined { self.new ≡ record self.old { getter = record self.old.getter { joined = Some putter.put } } }
    {
        self.side.join(rt, putter);
    }

    /// What the task did and what came to it: its passes, and its log.
    pub fn into_log(self) -> (SendPass, GetPass, TaskLog)
        ensures sender { result.0 ≡ self.sender }
        ensures getter { result.1 ≡ self.getter }
        ensures log { IsLogOf self result.2 }
        ensures left { has_leave self.sender.sent ≡ true }
        // The log has each command, with what its mark says, and that is as much as each note says that had been taken in.
        ensures marked { map front_part self.fronts ≡ fronts_noted self.sender.sent }
        ensures behind { All (IsFrontOf self.getter.got) self.fronts }
    {
        self.side.into_log()
    }

    /// Takes in a note, and says whether there was one. `false` only where the mailbox was empty at a step of this call.
    fn take_in<R: Wait>(&mut self, rt: &R) -> bool
        ensures took { OnTrue result ((note : Note) × (self.new ≡ took (note ∷ []) self.old)) }
        ensures none { OnFalse result (self.new ≡ found_empty self.old) }
        ensures empty { OnFalse result (WasEmpty J.board self.old.getter) }
        ensures all { OnFalse result (IfSome self.old.getter.joined (λ put. self.old.getter.got ≡ put)) }
    {
        self.side.take_in(rt).is_some()
    }
}
