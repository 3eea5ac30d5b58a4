//! An agent and its end of the queue.

ghost use Rattle.std.specs.Prelude.{◌≡◌, []};
ghost use Rattle.task_queues.specs.QueuePasses.{fresh_receiver};
ghost use Rattle.agent_ties.specs.Seen.{fresh};

use agent_journal::{Entry, Phase};
use agent_line::{Line, Recorder};
use front_board::Named;
use list_types::Text;
use std::alloc::Global;
use std::marker::Model;
use std::sync::Arc;
use task_queues::{CommandQueue, RecvPass};

/// An agent with its journal, its stream, and its end of the queue that its tasks submit to.
#[derive(Drop)]
pub struct Intake<
    J: Named,
    const QUEUE: usize,
    const ACKS: usize,
    const IN: usize,
    const ROUTES: usize,
> {
    /// The address of the broker.
    pub(crate) to: Text,
    pub(crate) recorder: Recorder<ACKS, IN, ROUTES>,
    pub(crate) line: Line,
    pub(crate) queue: Arc<CommandQueue<J, QUEUE>, Global>,
    pub(crate) receiver: RecvPass,
}

impl<J: Named, const QUEUE: usize, const ACKS: usize, const IN: usize, const ROUTES: usize> Model
    for Intake<J, QUEUE, ACKS, IN, ROUTES> {
    ghost use Rattle.std.specs.Prelude.{◌≡◌};
    ghost use Rattle.std.specs.Arc.{arc_value};
    ghost use Rattle.agent_requests.specs.Intake.{Taking};

    ghost Value = { Taking };

    ghost view = { λ a. record { recorded = a.recorder; stream = a.line.splitter; idle = a.line.idle; receiver = a.receiver } };

    ghost invariant = { λ a. a.receiver.queue ≡ arc_value a.queue };
}

impl<J: Named, const QUEUE: usize, const ACKS: usize, const IN: usize, const ROUTES: usize> Intake<
    J,
    QUEUE,
    ACKS,
    IN,
    ROUTES,
> {
    ghost use Rattle.std.specs.Arc.{arc_value};

    /// An agent that has taken nothing, and the address of its broker, as `host:port`. The queue has a sender for each task.
    pub fn new(
        alloc: Global,
        to: Text,
        recorder: Recorder<ACKS, IN, ROUTES>,
        queue: Arc<CommandQueue<J, QUEUE>, Global>,
        receiver: RecvPass,
    ) -> Self
        requires own { receiver.queue ≡ arc_value queue }
        ensures { result ≡ record { recorded = recorder.entry; stream = fresh; idle = 0; receiver = receiver } }
    {
        Intake {
            to,
            recorder,
            line: Line::new(alloc),
            queue,
            receiver,
        }
    }

    /// The agent's journal, and what it knows of its tasks.
    pub fn recorder(&self) -> &Recorder<ACKS, IN, ROUTES>
        ensures { result.now ≡ self.now.recorded }
    {
        &self.recorder
    }

    /// The agent with its journal, and its end of the queue.
    pub fn into_parts(
        self,
    ) -> (
        Recorder<ACKS, IN, ROUTES>,
        Arc<CommandQueue<J, QUEUE>, Global>,
        RecvPass,
    )
        ensures recorder { result.0 ≡ self.recorded }
        ensures receiver { result.2 ≡ self.receiver }
        ensures own { result.2.queue ≡ arc_value result.1 }
    {
        let Intake {
            recorder,
            queue,
            receiver,
            ..
        } = self;
        (recorder, queue, receiver)
    }
}
