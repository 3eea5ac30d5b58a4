//! The making of a task's end, its submissions and its leave.

ghost use Rattle.std.specs.Prelude.{◌≡◌, ℕ, ◌+◌, ◌<◌, nat_le, true, false, List, [], ◌∷◌, ◌++◌, length, IfOk, IfErr};
ghost use Rattle.std.specs.Bool.{OnTrue};
ghost use Rattle.std.specs.Arc.{arc_value};
ghost use Rattle.agent_journal.specs.Requests.{is_valid};
ghost use Rattle.agent_journal.specs.Readings.{is_leave};
ghost use Rattle.command_pool.specs.Hands.{times};
ghost use Rattle.command_pool.specs.Passes.{Holds};
ghost use Rattle.command_pool.specs.Takes.{IsOnward, empties};
ghost use Rattle.task_queues.specs.declared.note.Note.{Note};
ghost use Rattle.task_queues.specs.Submissions.{of_task};
ghost use Rattle.task_queues.specs.QueuePasses.{WasFull, HoldsOf};
ghost use Rattle.task_queues.specs.MailboxPasses.{Holds as HoldsNotes};
ghost use Rattle.task_end.specs.Notes.{seen_by, counted};
ghost use Rattle.task_end.specs.Sides.{IsOut, submitted, leave_of, sending, trying};
ghost use Rattle.task_end.specs.Answers.{is_spent, none_free_in, fulls_in};
ghost use Rattle.task_end.specs.declared.answers.SubmitFault.TheVariants as faults;

use crate::answers::SubmitFault;
use crate::left::LeftEnd;
use crate::log::Counts;
use crate::side::Side;
use crate::task::{Parts, TaskEnd};
use crate::ticket::Ticket;
use agent_journal::Request;
use circular_buffer::HeapCircularBuffer;
use front_board::Named;
use std::alloc::{AllocError, Global};
use std::sync::Wait;
use std::thread;
use task_queues::{PutPass, RecvPass};

impl<J: Named, const POOL: usize, const QUEUE: usize, const INBOX: usize> TaskEnd<
    J,
    POOL,
    QUEUE,
    INBOX,
> {
    /// A task's end of fresh passes, with room for the messages that it keeps. `Err` where memory runs out.
    pub fn new(alloc: Global, parts: Parts<J, POOL, QUEUE, INBOX>) -> Result<Self, AllocError>
        requires size { 0 < INBOX }
        requires task { parts.sender.number ≡ parts.task }
        requires pool { (parts.permits.pool ≡ arc_value parts.pool) × (parts.permits.held ≡ []) }
        requires queue { (parts.sender.queue ≡ arc_value parts.queue) × (parts.sender.sent ≡ []) }
        requires mailbox { (parts.getter.mailbox ≡ arc_value parts.mailbox) × (parts.getter.got ≡ []) }
        requires named { (arc_value parts.board ≡ J.board) × (parts.front.board ≡ J.board) }
        requires fresh { parts.front.number ≡ 0 }
        ensures new { IfOk result (λ t. t ≡ record { side = record { permits = parts.permits; sender = parts.sender; getter = parts.getter; out = []; fronts = [] }; kept = [] }) }
    {
        let kept = HeapCircularBuffer::with_capacity(alloc, INBOX)?;
        Ok(TaskEnd {
            side: Side::new(alloc, parts),
            kept,
        })
    }

    /// Submits a request to the agent, marked with what the task has seen; its number is how many the task submitted before.
    /// The ticket is the right to collect its outcome. A refusal submits nothing, and the request comes back.
    pub fn submit<R: Wait>(
        &mut self,
        rt: &R,
        request: Request,
    ) -> Result<Ticket, (Request, SubmitFault)>
        requires valid { is_valid request ≡ true }
        requires not_leave { is_leave request ≡ false }
        // Nothing is got, and no message handed out or lost.
        ensures same { (self.new.side.getter ≡ self.old.side.getter) × (self.new.kept ≡ self.old.kept) }
        ensures pool { self.new.side.permits.pool ≡ self.old.side.permits.pool }
        // One request is added to what the task sent.
        ensures sent { IfOk result (λ _. self.new.side.sender ≡ record self.old.side.sender { sent = self.old.side.sender.sent ++ submitted J.board self.old.side request ∷ [] }) }
        ensures seq { IfOk result (λ t. t.seq ≡ length self.old.side.sender.sent) }
        // The pass holds one number more, the ticket's.
        ensures held { IfOk result (λ t. self.new.side.permits.held ≡ t.permit.id ∷ self.old.side.permits.held) }
        ensures fresh { IfOk result (λ t. times t.permit.id self.old.side.permits.held ≡ 0) }
        ensures holds { IfOk result (λ t. Holds self.new.side.permits t.permit) }
        ensures out { IfOk result (λ t. self.new.side.out ≡ self.old.side.out ++ (t.seq, t.permit.id) ∷ []) }
        ensures is_out { IfOk result (λ t. IsOut t self.new.side) }
        ensures fronts { IfOk result (λ t. self.new.side.fronts ≡ self.old.side.fronts ++ (t.seq, seen_by self.old.side.getter.got, counted self.old.side.getter.got) ∷ []) }
        ensures back { IfErr result (λ e. e.0 ≡ request) }
        ensures unsent { IfErr result (λ _. (self.new.side.sender.sent ≡ self.old.side.sender.sent) × (self.new.side.fronts ≡ self.old.side.fronts)) }
        ensures unheld { IfErr result (λ _. (self.new.side.permits.held ≡ self.old.side.permits.held) × (self.new.side.out ≡ self.old.side.out)) }
        // Each refusal has its cause in this call, but want of memory.
        ensures spent { is_spent result ≡ nat_le 4000000000 (length self.old.side.sender.sent) }
        ensures onward { IsOnward self.old.side.permits.steps self.new.side.permits.steps }
        ensures looks { empties self.new.side.permits.steps ≡ empties self.old.side.permits.steps + none_free_in result }
        ensures full { IfErr result (λ e. e.1 ≡ faults.QueueFull → WasFull J.board QUEUE self.old.side.sender) }
        ensures fulls { self.new.side.sender.fulls ≡ self.old.side.sender.fulls + fulls_in result }
    {
        self.side.submit(rt, request)
    }

    /// Submits the task's Leave, tried again while the queue is full; notes are taken in meanwhile. The messages that were kept, and
    /// those that come, are given up. It takes no memory.
    pub fn leave<R: Wait>(self, rt: &R) -> LeftEnd<J, POOL, QUEUE, INBOX>
        ensures left { (more : List Note) × (looks : ℕ) × (fulls : ℕ) × (result ≡ sending (trying more looks fulls self.side) (leave_of self.side)) }
    {
        let TaskEnd { mut side, kept: _ } = self;
        for _ in rt.forever() {
            if side.send_leave(rt) {
                return LeftEnd { side };
            }
            if side.take_in(rt).is_none() {
                thread::yield_now();
            }
        }
        unreachable!()
    }

    /// How many requests the task submitted, and how many notes it took in.
    pub fn counts(&self) -> Counts
        ensures requests { result.requests ≡ length self.now.side.sender.sent }
        ensures notes { result.notes ≡ counted self.now.side.getter.got }
    {
        Counts {
            requests: u64::from(self.side.commands.next),
            notes: self.side.notes,
        }
    }

    /// Whether a look at the queue and one at the mailbox found them empty: then the agent's ends know all that was sent, and the
    /// task got all that was put. Nothing changes.
    pub fn agrees<R: Wait>(&mut self, rt: &R, receiver: &mut RecvPass, putter: &mut PutPass) -> bool
        requires queue { receiver.old.queue ≡ self.old.side.sender.queue }
        requires mailbox { putter.old.mailbox ≡ self.old.side.getter.mailbox }
        ensures same { (self.new ≡ self.old) × (receiver.new ≡ receiver.old) × (putter.new ≡ putter.old) }
        ensures taken { (count : ℕ) × HoldsOf self.old.side.sender receiver.old count }
        ensures got { (count : ℕ) × HoldsNotes putter.old self.old.side.getter count }
        ensures all_taken { OnTrue result (self.old.side.sender.sent ≡ of_task self.old.side.sender.number receiver.old.taken) }
        ensures all_got { OnTrue result (putter.old.put ≡ self.old.side.getter.got) }
    {
        self.side.agrees(rt, receiver, putter)
    }
}
