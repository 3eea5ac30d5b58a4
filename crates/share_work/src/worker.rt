//! A task at work.

ghost use Rattle.std.specs.Prelude.{◌≡◌, [], List};
ghost use Rattle.std.specs.List.{AllByRecursion};
ghost use Rattle.agent_script.specs.Laws.{IsReadStep};
ghost use Rattle.agent_script.specs.declared.script.Step.{Step};
ghost use Rattle.share_work.specs.Tickets.{IsSameTask};
ghost use Rattle.share_work.specs.Working.{IsAtWork, IsThrough, side_of};
ghost use Rattle.share_work.specs.Worked.{HasWorked};

use crate::ending::Ending;
use crate::running::Worked;
use crate::ticketed::TicketedEnd;
use agent_script::Step;
use front_board::Named;
use std::alloc::Global;
use std::collections::VecDeque;
use std::marker::Model;
use std::sync::Wait;
use task_end::TaskEnd;
use task_gate::Passage;

/// A task with what it holds of the agent and the steps that it has yet to go past. It holds tickets, so it can't be dropped. Contracts
/// see the record of what it is at.
pub struct Worker<J: Named, const POOL: usize, const QUEUE: usize, const INBOX: usize> {
    pub(crate) held: TicketedEnd<J, POOL, QUEUE, INBOX>,
    /// The step that the task is at.
    pub(crate) current: Option<Step>,
    pub(crate) others: VecDeque<Step>,
    /// How many messages it took that no `listen` line gone past asked for.
    pub(crate) spare: u64,
    /// Whether it was told that no more messages will come.
    pub(crate) closed: bool,
    pub(crate) ending: Ending,
    pub(crate) passage: Passage,
}

impl<J: Named, const POOL: usize, const QUEUE: usize, const INBOX: usize> Model
    for Worker<J, POOL, QUEUE, INBOX> {
    ghost use Rattle.std.specs.List.{AllByRecursion};
    ghost use Rattle.std.specs.Prelude.{◌++◌};
    ghost use Rattle.std.specs.Option.{option_to_list};
    ghost use Rattle.agent_script.specs.Laws.{IsReadStep};
    ghost use Rattle.share_work.specs.Working.{Working};

    ghost Value = { Working };

    ghost view = { λ w. record { held = w.held; current = w.current; others = w.others.items; spare = w.spare; closed = w.closed; ending = w.ending; passage = w.passage } };

    ghost invariant = { λ w. AllByRecursion IsReadStep (option_to_list w.current ++ w.others.items) };
}

impl<J: Named, const POOL: usize, const QUEUE: usize, const INBOX: usize> Worker<
    J,
    POOL,
    QUEUE,
    INBOX,
> {
    /// A task before its first step, which has submitted nothing and was told nothing.
    pub fn new(
        alloc: Global,
        end: TaskEnd<J, POOL, QUEUE, INBOX>,
        task: u32,
        steps: Vec<Step>,
    ) -> Self
        requires steps { AllByRecursion IsReadStep steps.items }
        requires fresh { (end.side.sender.sent ≡ []) × (end.side.getter.got ≡ []) × (end.side.out ≡ []) × (end.side.fronts ≡ []) × (end.kept ≡ []) }
        ensures begun { IsAtWork steps.items result }
        ensures end { side_of result ≡ end.side }
        ensures gate { result.passage.task ≡ task }
    {
        Worker {
            held: TicketedEnd::new(alloc, end),
            current: None,
            others: VecDeque::from_vec(steps),
            spare: 0,
            closed: false,
            ending: Ending::All,
            passage: Passage::new(task),
        }
    }

    /// Leaves, where no step is left and no ticket.
    pub fn leave<R: Wait>(self, rt: &R) -> Worked<J, POOL, QUEUE, INBOX>
        requires through { IsThrough self }
        ensures worked { (all : List Step) → IsAtWork all self → HasWorked all result.ending result.passage result.end }
        ensures task { IsSameTask (side_of self) result.end }
        ensures gate { result.passage ≡ self.passage }
    {
        let Worker {
            held,
            current: _,
            others: _,
            spare: _,
            closed: _,
            ending,
            passage,
        } = self;
        Worked {
            end: held.leave(rt),
            ending,
            passage,
        }
    }
}
