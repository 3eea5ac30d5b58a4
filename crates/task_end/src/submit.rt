//! Submitting requests.

ghost use Rattle.std.specs.Prelude.{◌≡◌, ℕ, ◌+◌, ◌≤◌, ◌<◌, nat_le, [], ◌∷◌, ◌++◌, length, true, false, IfOk, IfErr, OnOk, IfSome, IfNone, OnSome};
ghost use Rattle.std.specs.Bool.{OnTrue, OnFalse};
ghost use Rattle.std.specs.Vec.{vec_capacity};
ghost use Rattle.agent_journal.specs.Requests.{is_valid};
ghost use Rattle.agent_journal.specs.Readings.{is_leave};
ghost use Rattle.command_pool.specs.Hands.{times};
ghost use Rattle.command_pool.specs.Passes.{Holds};
ghost use Rattle.command_pool.specs.Takes.{IsOnward, empties};
ghost use Rattle.task_queues.specs.Submissions.{has_leave, request_of};
ghost use Rattle.task_queues.specs.QueuePasses.{WasFull};
ghost use Rattle.task_end.specs.Notes.{seen_by, counted};
ghost use Rattle.task_end.specs.Sides.{IsOut, submitted, leave_of, sending, found_full};
ghost use Rattle.task_end.specs.Answers.{is_spent, none_free_in, fulls_in};
ghost use Rattle.task_end.specs.declared.answers.SubmitFault.TheVariants as faults;

use crate::answers::SubmitFault;
use crate::commands::Commands;
use crate::side::Side;
use crate::ticket::Ticket;
use agent_journal::Request;
use command_pool::{CommandPool, Permit, PoolPass, TakeFault};
use front_board::Named;
use std::alloc::AllocError;
use std::sync::Wait;
use task_queues::Submission;

/// How many requests a task may submit, its Leave not among them.
const MOST: u32 = 4_000_000_000;

impl<J: Named, const POOL: usize, const QUEUE: usize, const INBOX: usize> Side<
    J,
    POOL,
    QUEUE,
    INBOX,
> {
    /// Submits a request of a task that hasn't left, with a mark of what it has seen.
    pub fn submit<R: Wait>(
        &mut self,
        rt: &R,
        request: Request,
    ) -> Result<Ticket, (Request, SubmitFault)>
        requires valid { is_valid request ≡ true }
        requires not_leave { is_leave request ≡ false }
        requires stays { has_leave self.old.sender.sent ≡ false }
        requires numbered { length self.old.sender.sent ≡ length self.old.fronts }
        ensures getter { self.new.getter ≡ self.old.getter }
        ensures pool { self.new.permits.pool ≡ self.old.permits.pool }
        ensures sent { IfOk result (λ _. self.new.sender ≡ record self.old.sender { sent = self.old.sender.sent ++ submitted J.board self.old request ∷ [] }) }
        ensures seq { IfOk result (λ t. t.seq ≡ length self.old.sender.sent) }
        ensures held { IfOk result (λ t. self.new.permits.held ≡ t.permit.id ∷ self.old.permits.held) }
        ensures fresh { IfOk result (λ t. times t.permit.id self.old.permits.held ≡ 0) }
        ensures holds { IfOk result (λ t. Holds self.new.permits t.permit) }
        ensures out { IfOk result (λ t. self.new.out ≡ self.old.out ++ (t.seq, t.permit.id) ∷ []) }
        ensures fronts { IfOk result (λ t. self.new.fronts ≡ self.old.fronts ++ (t.seq, seen_by self.old.getter.got, counted self.old.getter.got) ∷ []) }
        ensures back { IfErr result (λ e. e.0 ≡ request) }
        ensures unsent { IfErr result (λ _. (self.new.sender.sent ≡ self.old.sender.sent) × (self.new.fronts ≡ self.old.fronts)) }
        ensures unheld { IfErr result (λ _. (self.new.permits.held ≡ self.old.permits.held) × (self.new.out ≡ self.old.out)) }
        ensures spent { is_spent result ≡ nat_le 4000000000 (length self.old.sender.sent) }
        ensures onward { IsOnward self.old.permits.steps self.new.permits.steps }
        ensures looks { empties self.new.permits.steps ≡ empties self.old.permits.steps + none_free_in result }
        ensures full { IfErr result (λ e. e.1 ≡ faults.QueueFull → WasFull J.board QUEUE self.old.sender) }
        ensures fulls { self.new.sender.fulls ≡ self.old.sender.fulls + fulls_in result }
    {
        if self.commands.next >= MOST {
            return Err((request, SubmitFault::Spent));
        }
        if make_room(&mut self.commands, &mut self.fronts).is_err() {
            return Err((request, SubmitFault::NoMemory));
        }
        let Some(permit) = take_permit(rt, &self.pool, &mut self.permits) else {
            return Err((request, SubmitFault::PoolEmpty));
        };
        let seq = self.commands.next;
        let seen = self.sight.number();
        let submission = Submission {
            task: self.task,
            seq,
            request,
            front: Some(self.sight.mark()),
        };
        match self.queue.send(rt, &mut self.sender, submission) {
            Ok(()) => {
                self.commands.begin(permit.id());
                self.fronts.push_reserved((seq, seen, self.notes));
                Ok(Ticket { permit, seq })
            }
            Err(back) => {
                self.pool.give(&mut self.permits, permit);
                Err((into_request(back), SubmitFault::QueueFull))
            }
        }
    }

    /// Submits the Leave of a task that hasn't left, and says whether the queue took it.
    #[tactic(auto, unfolding(agent_journal::specs::Requests::is_valid))]
    pub fn send_leave<R: Wait>(&mut self, rt: &R) -> bool
        requires stays { has_leave self.old.sender.sent ≡ false }
        requires numbered { length self.old.sender.sent ≡ length self.old.fronts }
        ensures sent { OnTrue result (self.new ≡ sending self.old (leave_of self.old)) }
        ensures full { OnFalse result (self.new ≡ found_full self.old) }
    {
        let leave = Submission {
            task: self.task,
            seq: self.commands.next,
            request: Request::Leave,
            front: None,
        };
        match self.queue.send(rt, &mut self.sender, leave) {
            Ok(()) => true,
            Err(_) => false,
        }
    }
}

/// The request of a submission that came back.
fn into_request(submission: Submission) -> Request
    ensures { result ≡ request_of submission }
{
    submission.request
}

/// Makes room for what one command more brings.
fn make_room(commands: &mut Commands, fronts: &mut Vec<(u32, u64, u64)>) -> Result<(), AllocError>
    requires few { commands.old.next < 4000000000 }
    ensures next { commands.new.next ≡ commands.old.next }
    ensures out { commands.new.out.items ≡ commands.old.out.items }
    ensures log { commands.new.log.items ≡ commands.old.log.items }
    ensures same { fronts.new.items ≡ fronts.old.items }
    ensures outcomes { OnOk result (commands.new.next < vec_capacity commands.new.log) }
    ensures commands { OnOk result (length commands.new.out.items < vec_capacity commands.new.out) }
    ensures fronts { OnOk result (length fronts.new.items < vec_capacity fronts.new) }
{
    commands.reserve()?;
    fronts.reserve(1)
}

/// A number of the pool, tried again while others are faster. `None` where a look found none free.
fn take_permit<const POOL: usize, R: Wait>(
    rt: &R,
    pool: &CommandPool<POOL>,
    pass: &mut PoolPass,
) -> Option<Permit>
    requires own { pass.old.pool ≡ pool.now }
    ensures pool { pass.new.pool ≡ pass.old.pool }
    ensures fresh { IfSome result (λ p. times p.id pass.old.held ≡ 0) }
    ensures taken { IfSome result (λ p. pass.new.held ≡ p.id ∷ pass.old.held) }
    ensures held { IfSome result (λ p. Holds pass.new p) }
    ensures none { IfNone result (pass.new.held ≡ pass.old.held) }
    ensures onward { IsOnward pass.old.steps pass.new.steps }
    ensures free { OnSome result (empties pass.new.steps ≡ empties pass.old.steps) }
    ensures empty { IfNone result (empties pass.new.steps ≡ empties pass.old.steps + 1) }
{
    for _ in rt.forever() {
        match pool.take(pass) {
            Ok(permit) => return Some(permit),
            Err(TakeFault::Empty) => return None,
            Err(TakeFault::Busy { .. }) => {}
        }
    }
    unreachable!()
}
