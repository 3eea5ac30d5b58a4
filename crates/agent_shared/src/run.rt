//! A run: what an agent and its tasks did.

ghost use Rattle.std.specs.Prelude.{◌≡◌, ◌<◌, Some, reverse, length, slice_get};
ghost use Rattle.std.specs.Option.{option_map};
ghost use Rattle.agent_shared.specs.Gathered.{IsGathered};

use crate::ended::EndedTask;
use agent_journal::Entry;
use std::marker::Model;
use task_end::TaskLog;
use task_queues::RecvPass;

/// The journal of an agent and the logs of its tasks, which `gather` alone makes: its Takes are what was taken from the queue, and
/// what it tells each task is what was got from the task's mailbox.
#[derive(Drop)]
pub struct Run {
    pub(crate) entries: Vec<Entry>,
    pub(crate) receiver: RecvPass,
    pub(crate) tasks: Vec<EndedTask>,
}

impl Model for Run {
    ghost use Rattle.std.specs.Prelude.{reverse};
    ghost use Rattle.agent_shared.specs.Gathered.{Gathered, IsGathered};

    ghost Value = { Gathered };

    ghost view = { λ r. record { past = reverse r.entries.items; taken = r.receiver.taken; tasks = r.tasks.items } };

    ghost invariant = { λ r. IsGathered (record { past = reverse r.entries.items; taken = r.receiver.taken; tasks = r.tasks.items }) };
}

impl Run {
    /// The journal, oldest entry first.
    pub fn journal(&self) -> &[Entry]
        ensures journal { reverse result.now ≡ self.now.past }
        ensures gathered { IsGathered self.now }
    {
        self.entries.as_slice()
    }

    /// How many tasks there were.
    pub fn tasks(&self) -> usize
        ensures { result ≡ length self.now.tasks }
    {
        self.tasks.len()
    }

    /// What a task did, and what came to it.
    pub fn task(&self, task: u32) -> &TaskLog
        requires task { task < length self.now.tasks }
        ensures { Some result.now ≡ option_map (λ e. e.log) (slice_get self.now.tasks task) }
    {
        &self.tasks[task as usize].log
    }

    /// The journal, oldest entry first.
    pub fn into_journal(self) -> Vec<Entry>
        ensures { reverse result.items ≡ self.past }
    {
        let Run { entries, .. } = self;
        entries
    }
}
