//! All that a task does.

ghost use Rattle.std.specs.Prelude.{◌≡◌, []};
ghost use Rattle.std.specs.List.{AllByRecursion};
ghost use Rattle.agent_script.specs.Laws.{IsReadStep};
ghost use Rattle.share_work.specs.Tickets.{IsSameTask};
ghost use Rattle.share_work.specs.Worked.{HasWorked};

use crate::ending::{Ending, Going};
use crate::pause::Pause;
use crate::worker::Worker;
use agent_script::Step;
use front_board::Named;
use std::alloc::Global;
use std::sync::Wait;
use task_end::{LeftEnd, TaskEnd};
use task_gate::{Gate, Passage};

/// What is left of a task's work: its end behind its leave, how the work ended, and its calls of the gate.
#[derive(Drop)]
pub struct Worked<J: Named, const POOL: usize, const QUEUE: usize, const INBOX: usize> {
    pub end: LeftEnd<J, POOL, QUEUE, INBOX>,
    pub ending: Ending,
    pub passage: Passage,
}

/// Goes through the steps of a task on this thread: each request is submitted behind what the steps in front of it wait for, each outcome is
/// collected, and then the task leaves. Where the task has nothing to do, the thread rests. Where memory runs out for a request, the task
/// goes past no further step, and still collects and leaves.
pub fn work<R: Wait, G: Gate, J: Named, const POOL: usize, const QUEUE: usize, const INBOX: usize>(
    rt: &R,
    alloc: Global,
    gate: &G,
    end: TaskEnd<J, POOL, QUEUE, INBOX>,
    task: u32,
    steps: Vec<Step>,
) -> Worked<J, POOL, QUEUE, INBOX>
    requires steps { AllByRecursion IsReadStep steps.items }
    requires fresh { (end.side.sender.sent ≡ []) × (end.side.getter.got ≡ []) × (end.side.out ≡ []) × (end.side.fronts ≡ []) × (end.kept ≡ []) }
    ensures worked { HasWorked steps.items result.ending result.passage result.end }
    ensures task { IsSameTask end.side result.end }
    ensures gate { result.passage.task ≡ task }
{
    let mut worker = Worker::new(alloc, end, task, steps);
    let mut pause = Pause::new();
    for _ in rt.forever() {
        match worker.go(rt, gate) {
            Going::Worked => pause = Pause::new(),
            Going::Waits => pause.rest(rt),
            Going::Over => return worker.leave(rt),
        }
    }
    unreachable!()
}
