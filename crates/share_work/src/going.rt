//! One piece of a task's work.

ghost use Rattle.std.specs.Prelude.{◌≡◌, ◌+◌, ◌≤◌, ◌⊎◌, true, false, [], length, None};
ghost use Rattle.std.specs.Bool.{OnTrue, OnFalse};
ghost use Rattle.task_end.specs.declared.answers.SubmitFault.TheVariants as faults;
ghost use Rattle.task_end.specs.Answers.{handed, is_closed};
ghost use Rattle.share_work.specs.Working.{GoesOn, IsThrough, at_step, is_all, is_over, left_of, number_to, side_of};

use crate::ending::{Ending, Going};
use crate::tried::Tried;
use crate::worker::Worker;
use agent_script::Step;
use front_board::Named;
use std::sync::Wait;
use task_end::{NextMessage, SubmitFault};
use task_gate::{Gate, Passage};

impl<J: Named, const POOL: usize, const QUEUE: usize, const INBOX: usize> Worker<
    J,
    POOL,
    QUEUE,
    INBOX,
> {
    /// Does one piece of the task's work. It waits at a gate that waits, else only while another thread is at its own step of queue or mailbox.
    pub fn go<R: Wait, G: Gate>(&mut self, rt: &R, gate: &G) -> Going
        ensures goes_on { GoesOn self.old self.new }
        ensures through { is_over result ≡ true → IsThrough self.new }
    {
        match self.ending {
            Ending::All => self.try_step(rt, gate),
            Ending::NoMemory => self.wind_up(rt, gate),
            Ending::Spent => self.wind_up(rt, gate),
        }
    }

    /// Tries the step that the task is at, or comes to the next one.
    fn try_step<R: Wait, G: Gate>(&mut self, rt: &R, gate: &G) -> Going
        ensures goes_on { GoesOn self.old self.new }
        ensures through { is_over result ≡ true → IsThrough self.new }
    {
        match self.current.take() {
            Some(Step::Do(request)) => match self.held.submit(rt, request) {
                Ok(()) => Going::Worked,
                Err((request, fault)) => {
                    self.current = Some(Step::Do(request));
                    self.refused(rt, gate, fault)
                }
            },
            Some(Step::Wait) => {
                if self.held.len() == 0 {
                    return Going::Worked;
                }
                self.current = Some(Step::Wait);
                going(self.collect(rt, gate))
            }
            Some(Step::Listen(count)) => {
                if hears(&mut self.spare, self.closed, count) {
                    return Going::Worked;
                }
                self.current = Some(Step::Listen(count));
                self.listen(rt, gate)
            }
            // With topics, these are publishes.
            Some(Step::Shadow { .. }) => Going::Worked,
            Some(Step::Jobs { .. }) => Going::Worked,
            None => self.come_on(rt, gate),
        }
    }

    /// Comes to the next step. A request is let in at the gate first.
    fn come_on<R: Wait, G: Gate>(&mut self, rt: &R, gate: &G) -> Going
        requires none { self.old.current ≡ None }
        ensures goes_on { GoesOn self.old self.new }
        ensures through { is_over result ≡ true → IsThrough self.new }
    {
        let Some(step) = self.others.pop_front() else {
            return self.wind_up(rt, gate);
        };
        come_to(rt, gate, &mut self.passage, &step, self.held.requests());
        self.current = Some(step);
        Going::Worked
    }

    /// A request was refused. Where another thread has to get on first, the task takes what came to it meanwhile; else its work ends.
    fn refused<R: Wait, G: Gate>(&mut self, rt: &R, gate: &G, fault: SubmitFault) -> Going
        requires spent { fault ≡ faults.Spent → 4000000000 ≤ length (side_of self.old).sender.sent }
        ensures goes_on { GoesOn self.old self.new }
        ensures not_over { is_over result ≡ false }
    {
        match fault {
            SubmitFault::PoolEmpty => self.take_what_came(rt, gate),
            SubmitFault::QueueFull => self.take_what_came(rt, gate),
            SubmitFault::NoMemory => {
                self.ending = Ending::NoMemory;
                Going::Worked
            }
            SubmitFault::Spent => {
                self.ending = Ending::Spent;
                Going::Worked
            }
        }
    }

    /// Collects what is there of its commands. Without any, takes a message.
    fn take_what_came<R: Wait, G: Gate>(&mut self, rt: &R, gate: &G) -> Going
        ensures goes_on { GoesOn self.old self.new }
        ensures not_over { is_over result ≡ false }
    {
        if self.held.len() == 0 {
            return going(self.take_message(rt));
        }
        going(self.collect(rt, gate))
    }

    /// Takes a message, and collects what is there, so that its numbers go back.
    fn listen<R: Wait, G: Gate>(&mut self, rt: &R, gate: &G) -> Going
        ensures goes_on { GoesOn self.old self.new }
        ensures not_over { is_over result ≡ false }
    {
        let taken = self.take_message(rt);
        let collected = self.collect(rt, gate);
        going(taken || collected)
    }

    /// Collects what is there. Where no ticket is left, the task is through.
    fn wind_up<R: Wait, G: Gate>(&mut self, rt: &R, gate: &G) -> Going
        requires steps { is_all self.old.ending ≡ true → left_of self.old ≡ [] }
        ensures goes_on { GoesOn self.old self.new }
        ensures through { is_over result ≡ true → IsThrough self.new }
    {
        if self.held.len() == 0 {
            return Going::Over;
        }
        going(self.collect(rt, gate))
    }

    /// Tries each ticket once, and says whether the task got on.
    fn collect<R: Wait, G: Gate>(&mut self, rt: &R, gate: &G) -> bool
        ensures goes_on { GoesOn self.old self.new }
    {
        let mut got_on = false;
        for _ in 0..self.held.len() {
            if self.try_ticket(rt, gate) {
                got_on = true;
            }
        }
        got_on
    }

    /// Tries the first ticket, and says whether the task got on.
    fn try_ticket<R: Wait, G: Gate>(&mut self, rt: &R, gate: &G) -> bool
        ensures goes_on { GoesOn self.old self.new }
    {
        if self.held.len() == 0 {
            return false;
        }
        match self.held.collect(rt) {
            Tried::Got(number) => {
                self.passage.answered(rt, gate, number);
                true
            }
            Tried::NotYet => false,
            Tried::MessagesFirst => self.take_message(rt),
        }
    }

    /// Takes a message, and says whether the task got on.
    fn take_message<R: Wait>(&mut self, rt: &R) -> bool
        ensures goes_on { GoesOn self.old self.new }
    {
        let next = self.held.next_message(rt);
        notes_message(next, &mut self.spare, &mut self.closed)
    }
}

/// Notes a message, or that no more will come, and says whether that is news.
fn notes_message(next: NextMessage, spare: &mut u64, closed: &mut bool) -> bool
    ensures few { spare.new ≤ spare.old + length (handed next) }
    ensures closed { (closed.new ≡ closed.old) ⊎ ((closed.new ≡ true) × (is_closed next ≡ true)) }
{
    match next {
        NextMessage::Message(_, _) => {
            *spare = spare.saturating_add(1);
            true
        }
        NextMessage::NoneYet => false,
        NextMessage::Closed => {
            let news = !*closed;
            *closed = true;
            news
        }
    }
}

/// Comes to a step: a request is let in at the gate.
fn come_to<R: Wait, G: Gate>(rt: &R, gate: &G, passage: &mut Passage, step: &Step, submitted: u64)
    ensures { passage.new ≡ at_step step.now submitted passage.old }
{
    match step {
        Step::Do(_) => passage.before(rt, gate, number_of(submitted)),
        Step::Shadow { .. } => {}
        Step::Jobs { .. } => {}
        Step::Wait => {}
        Step::Listen(_) => {}
    }
}

/// Whether enough messages were taken for a `listen` line, or no more will come. It uses up what it asks for.
fn hears(spare: &mut u64, closed: bool, count: u32) -> bool
    ensures heard { OnTrue result ((spare.new + count ≡ spare.old) ⊎ ((closed ≡ true) × (spare.new ≡ spare.old))) }
    ensures unheard { OnFalse result (spare.new ≡ spare.old) }
{
    let wanted = u64::from(count);
    if *spare >= wanted {
        *spare -= wanted;
        return true;
    }
    closed
}

/// How many requests there are, at most the greatest `u32`.
fn number_of(requests: u64) -> u32
    ensures { result ≡ number_to requests }
{
    requests.min(u64::from(u32::MAX)) as u32
}

fn going(got_on: bool) -> Going
    ensures { is_over result ≡ false }
{
    if got_on { Going::Worked } else { Going::Waits }
}
