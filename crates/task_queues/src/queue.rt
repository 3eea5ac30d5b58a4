//! The queue of submissions, and the calls on it.

ghost use Rattle.std.specs.Prelude.{◌≡◌, ◌<◌, ◌≤◌, ◌+◌, [], ◌∷◌, ◌++◌, IfOk, IfErr, OnOk, IfSome, IfNone};
ghost use Rattle.task_queues.specs.Submissions.{task_of, of_task, MayFollow, IsAllTaken};
ghost use Rattle.task_queues.specs.Fronts.{HasFront};
ghost use Rattle.task_queues.specs.QueuePasses.{fresh_sender, fresh_senders, fresh_receiver, WasFull, WasEmpty, HoldsOf};

use crate::pass::{RecvPass, SendPass};
use crate::queue_rule::{
    Empty, Full, Hire, InOrder, Look, Meet, Part, Release, Sent, Spare, Taken,
};
use crate::role::Role;
use crate::submission::Submission;
use crossbeam_queue::RuledArrayQueue;
use front_board::Named;
use std::alloc::{AllocError, Global};
use std::marker::Model;
use std::mem;
use std::sync::Wait;

/// A queue of at most QUEUE submissions, 1 to 1,024, from up to eight senders to one receiver. What the
/// receiver took, followed by what the queue holds, is of each sender what it sent, in its order: the law
/// `each_queue_is_lawful`. Each call may wait for a thread that is at its own step of the same queue, and
/// none but `new` takes memory. Contracts see a queue as its name.
#[derive(Drop)]
pub struct CommandQueue<J: Named, const QUEUE: usize> {
    line: RuledArrayQueue<Submission, Role, InOrder<J>>,
}

impl<J: Named, const QUEUE: usize> Model for CommandQueue<J, QUEUE> {
    ghost use Rattle.std.specs.Prelude.{◌≡◌};
    ghost use Rattle.atomic_table.specs.Seated.{TableId};
    ghost use Rattle.crossbeam_queue.specs.Passes.{ruled_capacity};

    ghost Value = { TableId };

    ghost view = { λ q. q.line.table.shared.table_id };

    ghost invariant = { λ q. ruled_capacity q.line ≡ QUEUE };
}

impl<J: Named, const QUEUE: usize> CommandQueue<J, QUEUE> {
    /// An empty queue, with a pass for each of this many senders, 1 to 8, the k-th for sender k, and the
    /// receiver's. `Err` where memory runs out.
    pub fn new<R: Wait>(
        _rt: &R,
        alloc: Global,
        senders: u32,
    ) -> Result<(CommandQueue<J, QUEUE>, Vec<SendPass>, RecvPass), AllocError>
        requires size { (0 < QUEUE) × (QUEUE ≤ 1024) }
        requires senders { (0 < senders) × (senders ≤ 8) }
        ensures senders { IfOk result (λ r. r.1.items ≡ fresh_senders r.0 senders) }
        ensures receiver { IfOk result (λ r. r.2 ≡ fresh_receiver r.0 senders) }
    {
        let (line, pass) = RuledArrayQueue::ruled(alloc, QUEUE)?;
        let queue = CommandQueue { line };
        let mut receiver = RecvPass { pass };
        let passes = queue.hire_all(alloc, &mut receiver, senders)?;
        Ok((queue, passes, receiver))
    }

    /// The first senders of a queue, this many.
    #[tactic(auto, using(crate::proofs::Senders::one_more))]
    fn hire_all(
        &self,
        alloc: Global,
        receiver: &mut RecvPass,
        senders: u32,
    ) -> Result<Vec<SendPass>, AllocError>
        requires fresh { receiver.old ≡ fresh_receiver self.now 0 }
        ensures senders { IfOk result (λ v. v.items ≡ fresh_senders self.now senders) }
        ensures receiver { OnOk result (receiver.new ≡ fresh_receiver self.now senders) }
    {
        let mut passes = Vec::with_capacity(alloc, senders as usize)?;
        for _ in 0..senders {
            passes.push(self.hire(receiver))?;
        }
        Ok(passes)
    }

    /// The next sender. None was joined yet.
    fn hire(&self, receiver: &mut RecvPass) -> SendPass
        requires own { receiver.old.queue ≡ self.now }
        requires first { receiver.old.joined ≡ [] }
        ensures receiver { receiver.new ≡ record receiver.old { senders = receiver.old.senders + 1 } }
        ensures sender { result ≡ fresh_sender self.now receiver.old.senders }
    {
        SendPass {
            pass: self.line.another::<Hire>(&mut receiver.pass),
        }
    }

    /// Puts a submission behind all that the queue holds, in one step. It carries a mark of J's board, or is a
    /// Leave, which has none. `Err` only where the queue was full at a step of this call; it comes back.
    pub fn send<R: Wait>(
        &self,
        rt: &R,
        pass: &mut SendPass,
        submission: Submission,
    ) -> Result<(), Submission>
        requires own { pass.old.queue ≡ self.now }
        requires task { task_of submission ≡ pass.old.number }
        requires turn { MayFollow pass.old.sent submission }
        requires front { HasFront J.board submission }
        ensures sent { OnOk result (pass.new ≡ record pass.old { sent = pass.old.sent ++ submission ∷ [] }) }
        ensures back { IfErr result (λ back. back ≡ submission) }
        ensures full { IfErr result (λ _. WasFull J.board QUEUE pass.old) }
        ensures counted { IfErr result (λ _. pass.new ≡ record pass.old { fulls = pass.old.fulls + 1 }) }
    {
        match self
            .line
            .push_as::<Sent<J>, R>(rt, &mut pass.pass, submission)
        {
            Ok(()) => Ok(()),
            Err(back) => {
                self.count_full(pass);
                Err(back)
            }
        }
    }

    /// Takes the oldest submission that the queue holds, in one step. `None` only where the queue was
    /// empty at a step of this call; then all is taken that the joined senders sent.
    pub fn recv<R: Wait>(&self, rt: &R, pass: &mut RecvPass) -> Option<Submission>
        requires own { pass.old.queue ≡ self.now }
        ensures taken { IfSome result (λ s. pass.new ≡ record pass.old { taken = pass.old.taken ++ s ∷ [] }) }
        ensures sender { IfSome result (λ s. task_of s < pass.old.senders) }
        ensures turn { IfSome result (λ s. MayFollow (of_task (task_of s) pass.old.taken) s) }
        ensures front { IfSome result (λ s. HasFront J.board s) }
        ensures empty { IfNone result (WasEmpty J.board pass.old) }
        ensures counted { IfNone result (pass.new ≡ record pass.old { empties = pass.old.empties + 1 }) }
        ensures all { IfNone result (IsAllTaken pass.old.taken pass.old.joined) }
    {
        match self.pop(rt, pass) {
            Some(submission) => Some(submission),
            None => {
                self.count_empty(pass);
                None
            }
        }
    }

    /// The receiver learns what a sender sent in all, which sends no more. From then on a `None` of `recv`
    /// says that this was taken.
    pub fn join<R: Wait>(&self, _rt: &R, pass: &mut RecvPass, sender: SendPass)
        requires own { (pass.old.queue ≡ self.now) × (sender.queue ≡ self.now) }
        ensures joined { pass.new ≡ record pass.old { joined = (sender.number, sender.sent) ∷ pass.old.joined } }
    {
        self.line.absorb::<Release>(&mut pass.pass, sender.pass);
    }

    /// How many submissions the queue holds at a step of this call, of all senders. Those of this one are what
    /// it sent and the receiver hasn't taken: where the answer is 0, both know the same of it. No pass changes.
    pub fn held<R: Wait>(&self, rt: &R, sender: &mut SendPass, receiver: &mut RecvPass) -> usize
        requires own { (sender.old.queue ≡ self.now) × (receiver.old.queue ≡ self.now) }
        ensures held { HoldsOf sender.old receiver.old result }
        ensures sender { sender.new ≡ sender.old }
        ensures receiver { receiver.new ≡ receiver.old }
    {
        // A look tells one pass of what it knows itself: so for the look the two are one pass.
        let spare = self.line.another::<Spare>(&mut sender.pass);
        self.line
            .absorb::<Meet>(&mut receiver.pass, mem::replace(&mut sender.pass, spare));
        let held = self.line.len_as::<Look<J>, R>(rt, &mut receiver.pass);
        sender.pass = self.line.another::<Part>(&mut receiver.pass);
        held
    }

    /// Takes the oldest submission, or finds the queue empty, in one step.
    fn pop<R: Wait>(&self, rt: &R, pass: &mut RecvPass) -> Option<Submission>
        requires own { pass.old.queue ≡ self.now }
        ensures taken { IfSome result (λ s. pass.new ≡ record pass.old { taken = pass.old.taken ++ s ∷ [] }) }
        ensures sender { IfSome result (λ s. task_of s < pass.old.senders) }
        ensures turn { IfSome result (λ s. MayFollow (of_task (task_of s) pass.old.taken) s) }
        ensures front { IfSome result (λ s. HasFront J.board s) }
        ensures empty { IfNone result ((pass.new ≡ pass.old) × WasEmpty J.board pass.old) }
    {
        self.line.pop_as::<Taken<J>, R>(rt, &mut pass.pass)
    }

    /// Counts a look that found the queue full, by a step behind it. Nothing else raises the count.
    fn count_full(&self, pass: &mut SendPass)
        requires own { pass.old.queue ≡ self.now }
        requires full { WasFull J.board QUEUE pass.old }
        ensures counted { pass.new ≡ record pass.old { fulls = pass.old.fulls + 1 } }
    {
        self.line.another::<Full>(&mut pass.pass);
    }

    /// Counts a look that found the queue empty, by a step behind it. Nothing else raises the count.
    fn count_empty(&self, pass: &mut RecvPass)
        requires own { pass.old.queue ≡ self.now }
        requires empty { WasEmpty J.board pass.old }
        ensures counted { pass.new ≡ record pass.old { empties = pass.old.empties + 1 } }
    {
        self.line.another::<Empty>(&mut pass.pass);
    }
}
