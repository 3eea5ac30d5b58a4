//! A task's end with the tickets of its commands.

ghost use Rattle.std.specs.Prelude.{◌≡◌, ℕ, ◌<◌, ◌≤◌, true, false, List, [], ◌∷◌, ◌++◌, length, IfErr, OnOk, OnErr};
ghost use Rattle.agent_journal.specs.Requests.{is_valid};
ghost use Rattle.agent_journal.specs.Readings.{is_leave};
ghost use Rattle.task_queues.specs.declared.note.Note.{Note};
ghost use Rattle.task_end.specs.declared.ticket.Ticket.{Ticket};
ghost use Rattle.task_end.specs.declared.answers.SubmitFault.TheVariants as faults;
ghost use Rattle.task_end.specs.Notes.{messages_in, has_closed, seen_by, counted};
ghost use Rattle.task_end.specs.Sides.{IsBehind, IsSameSent, submitted, sending, trying, leave_of};
ghost use Rattle.task_end.specs.Answers.{handed, is_closed};
ghost use Rattle.share_work.specs.Tickets.{IsSameTask, TakesIn, IsTried};

use crate::tried::Tried;
use agent_journal::Request;
use front_board::Named;
use std::alloc::Global;
use std::collections::VecDeque;
use std::marker::Model;
use std::sync::Wait;
use task_end::{Collected, LeftEnd, NextMessage, SubmitFault, TaskEnd};

/// A task's end and the tickets that it hasn't collected, the next to be tried first. Contracts see both.
pub(crate) struct TicketedEnd<J: Named, const POOL: usize, const QUEUE: usize, const INBOX: usize> {
    end: TaskEnd<J, POOL, QUEUE, INBOX>,
    tickets: VecDeque<task_end::Ticket>,
}

impl<J: Named, const POOL: usize, const QUEUE: usize, const INBOX: usize> Model
    for TicketedEnd<J, POOL, QUEUE, INBOX> {
    ghost use Rattle.share_work.specs.Tickets.{Ticketed, AreOut};

    ghost Value = { Ticketed };

    ghost view = { λ t. record { tasking = t.end; tickets = t.tickets.items } };

    ghost invariant = { λ t. AreOut t.end.side t.tickets.items };
}

impl<J: Named, const POOL: usize, const QUEUE: usize, const INBOX: usize> TicketedEnd<
    J,
    POOL,
    QUEUE,
    INBOX,
> {
    /// An end of which no ticket is out.
    pub(crate) fn new(alloc: Global, end: TaskEnd<J, POOL, QUEUE, INBOX>) -> Self
        requires none_out { end.side.out ≡ [] }
        ensures { result ≡ record { tasking = end; tickets = [] } }
    {
        TicketedEnd {
            end,
            tickets: VecDeque::new(alloc),
        }
    }

    /// How many tickets there are.
    pub(crate) fn len(&self) -> usize
        ensures { result ≡ length self.now.tickets }
    {
        self.tickets.len()
    }

    /// How many requests the task submitted.
    pub(crate) fn requests(&self) -> u64
        ensures { result ≡ length self.now.tasking.side.sender.sent }
    {
        self.end.counts().requests
    }

    /// Submits a request, whose ticket is then the last. A refusal submits nothing, and the request comes back.
    pub(crate) fn submit<R: Wait>(
        &mut self,
        rt: &R,
        request: Request,
    ) -> Result<(), (Request, SubmitFault)>
        requires valid { is_valid request ≡ true }
        requires not_leave { is_leave request ≡ false }
        ensures same { (self.new.tasking.side.getter ≡ self.old.tasking.side.getter) × (self.new.tasking.kept ≡ self.old.tasking.kept) }
        ensures task { IsSameTask self.old.tasking.side self.new.tasking.side }
        ensures sent { OnOk result (self.new.tasking.side.sender.sent ≡ self.old.tasking.side.sender.sent ++ submitted J.board self.old.tasking.side request ∷ []) }
        ensures fronts { OnOk result (self.new.tasking.side.fronts
            ≡ self.old.tasking.side.fronts ++ (length self.old.tasking.side.sender.sent, seen_by self.old.tasking.side.getter.got, counted self.old.tasking.side.getter.got) ∷ []) }
        ensures ticket { OnOk result ((t : Ticket) × (t.seq ≡ length self.old.tasking.side.sender.sent) × (self.new.tickets ≡ self.old.tickets ++ t ∷ [])) }
        ensures back { IfErr result (λ e. e.0 ≡ request) }
        ensures refused { OnErr result ((self.new.tasking.side.sender.sent ≡ self.old.tasking.side.sender.sent)
            × (self.new.tasking.side.fronts ≡ self.old.tasking.side.fronts) × (self.new.tickets ≡ self.old.tickets)) }
        ensures spent { IfErr result (λ e. e.1 ≡ faults.Spent → 4000000000 ≤ length self.old.tasking.side.sender.sent) }
    {
        if self.tickets.reserve(1).is_err() {
            return Err((request, SubmitFault::NoMemory));
        }
        match self.end.submit(rt, request) {
            Ok(ticket) => {
                self.tickets.push_back_reserved(ticket);
                Ok(())
            }
            Err(refused) => Err(refused),
        }
    }

    /// Tries the first ticket. Where its command isn't over, it is the last one then.
    pub(crate) fn collect<R: Wait>(&mut self, rt: &R) -> Tried
        requires some { 0 < length self.old.tickets }
        ensures takes_in { TakesIn self.old.tasking self.new.tasking }
        ensures tried { IsTried result self.old self.new }
    {
        let Some(ticket) = self.tickets.pop_front() else {
            unreachable!()
        };
        let number = ticket.seq();
        match self.end.collect(rt, ticket) {
            Collected::Got(outcome) => {
                drop(outcome);
                Tried::Got(number)
            }
            Collected::NotYet(back) => {
                self.tickets.push_back_reserved(back);
                Tried::NotYet
            }
            Collected::MessagesFirst(back) => {
                self.tickets.push_back_reserved(back);
                Tried::MessagesFirst
            }
        }
    }

    /// The oldest message that wasn't handed out.
    pub(crate) fn next_message<R: Wait>(&mut self, rt: &R) -> NextMessage
        ensures got { (more : List Note) × (looks : ℕ) × IsBehind more looks self.old.tasking.side self.new.tasking.side
            × (self.old.tasking.kept ++ messages_in more ≡ handed result ++ self.new.tasking.kept) }
        ensures sent { IsSameSent self.old.tasking.side self.new.tasking.side }
        ensures pool { self.new.tasking.side.permits.pool ≡ self.old.tasking.side.permits.pool }
        ensures tickets { self.new.tickets ≡ self.old.tickets }
        ensures closed { is_closed result ≡ true → has_closed self.new.tasking.side.getter.got ≡ true }
    {
        self.end.next_message(rt)
    }

    /// Leaves, with no ticket left.
    pub(crate) fn leave<R: Wait>(self, rt: &R) -> LeftEnd<J, POOL, QUEUE, INBOX>
        requires none { self.tickets ≡ [] }
        ensures left { (more : List Note) × (looks : ℕ) × (fulls : ℕ) × (result ≡ sending (trying more looks fulls self.tasking.side) (leave_of self.tasking.side)) }
        ensures none_out { result.out ≡ [] }
    {
        let TicketedEnd { end, tickets } = self;
        tickets.destroy_empty();
        end.leave(rt)
    }
}
