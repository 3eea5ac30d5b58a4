//! What an agent knows of its tasks.

ghost use Rattle.std.specs.Prelude.{◌≡◌, ◌<◌, List, false, slice_get, slice_index_or};
ghost use Rattle.std.specs.Option.{option_copied};
ghost use Rattle.agent_journal.specs.declared.entry.Entry.{Entry};
ghost use Rattle.agent_journal.specs.Readings.{pending_of, takes_of, has_left};
ghost use Rattle.agent_core.specs.Stands.{StandsFor};

use super::Core;
use agent_journal::Setup;
use pending_acks::Pending;

impl<const ACKS: usize, const IN: usize, const ROUTES: usize> Core<ACKS, IN, ROUTES> {
    /// How the agent was set up.
    pub fn setup(&self) -> &Setup
        ensures { result.now ≡ self.now.setup }
    {
        &self.setup
    }

    /// How many requests of a task were taken, its Leave among them.
    #[tactic(auto, using(crate::proofs::Standing::taken_past))]
    pub fn taken(&self, task: u32) -> u64
        requires task { task < self.now.setup.tasks }
        ensures now { result ≡ slice_index_or self.now.takes task 0 }
        ensures past { (past : List Entry) → StandsFor self.now past → result ≡ takes_of task past }
    {
        self.takes[task as usize]
    }

    /// Whether a task has left.
    #[tactic(auto, using(crate::proofs::Standing::left_past))]
    pub fn has_left(&self, task: u32) -> bool
        requires task { task < self.now.setup.tasks }
        ensures now { result ≡ slice_index_or self.now.left task false }
        ensures past { (past : List Entry) → StandsFor self.now past → result ≡ has_left task past }
    {
        self.left[task as usize]
    }

    /// The open command at place `k`, counted from 0 in the order in which they were taken.
    #[tactic(auto, using(crate::proofs::Standing::command_past))]
    pub fn open_command(&self, k: usize) -> Option<&Pending>
        ensures now { option_copied result ≡ slice_get self.now.pending k }
        ensures past { (past : List Entry) → StandsFor self.now past → option_copied result ≡ slice_get (pending_of past) k }
    {
        self.pending.get(k)
    }
}
