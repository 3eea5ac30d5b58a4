//! The rounds of a run.

ghost use Rattle.std.specs.Prelude.{◌≡◌, ℕ, ◌+◌, ◌-◌, ◌*◌, ◌^◌, ◌<◌, ◌≤◌, List, length, true, OnOk};
ghost use Rattle.agent_script.specs.declared.script.Line.{Line};
ghost use Rattle.replay_rounds.specs.Rounds as rounds;
ghost use Rattle.replay_rounds.specs.Asked.{taken_and_left};
ghost use Rattle.replay_rounds.specs.Bound.{finished};
ghost use Rattle.replay_rounds.proofs.Asked.{IsAsking};
ghost use Rattle.replay_rounds.proofs.Ends.{IsSteady};

use crate::run::Run;
use agent_core::Core;
use agent_journal::{Cause, Phase, Why};
use agent_link::{Clock, Fault, Link};
use agent_script::Script;
use mqtt_packet::{NoMemory, Splitter};
use std::alloc::AllocError;

impl Run {
    ghost use Rattle.replay_agent.specs.Runs.{world, IsSound};

    /// One round: what is due comes first, and then what the phase asks for.
    pub(crate) fn round<const ACKS: usize, const IN: usize, const ROUTES: usize>(
        &mut self,
        core: &mut Core<ACKS, IN, ROUTES>,
        script: &Script,
    ) -> Result<(), NoMemory>
        requires sound { IsSound core.old self.old }
        requires room { self.old.notes.taken < 2 ^ 32 - 1 }
        ensures sound { OnOk result (IsSound core.new self.new) }
        ensures round { OnOk result (world core.new self.new script.now.lines ≡ rounds.round (world core.old self.old script.now.lines)) }
    {
        let now = self.clock.now_ms();
        match core.due(now) {
            Some(cause) => self.enter(core, now, cause),
            None => self.act(core, script, now),
        }
    }

    fn act<const ACKS: usize, const IN: usize, const ROUTES: usize>(
        &mut self,
        core: &mut Core<ACKS, IN, ROUTES>,
        script: &Script,
        now: u64,
    ) -> Result<(), NoMemory>
        requires sound { IsSound core.old self.old }
        requires room { self.old.notes.taken < 2 ^ 32 - 1 }
        ensures sound { OnOk result (IsSound core.new self.new) }
        ensures acted { OnOk result (world core.new self.new script.now.lines ≡ rounds.acts_in (world core.old self.old script.now.lines) now core.old.phase) }
    {
        match core.phase() {
            Phase::Down => self.open(core, now),
            Phase::Opening => self.receive(core, now),
            Phase::Up => self.take(core, script, now),
            Phase::Spilled => Ok(()),
            Phase::Off => self.end(core, script, now),
        }
    }

    /// Opens the tape's next connection.
    #[tactic(auto, unfolding(replay_rounds::specs::Rounds::opening))]
    fn open<const ACKS: usize, const IN: usize, const ROUTES: usize>(
        &mut self,
        core: &mut Core<ACKS, IN, ROUTES>,
        now: u64,
    ) -> Result<(), NoMemory>
        requires sound { IsSound core.old self.old }
        ensures sound { OnOk result (IsSound core.new self.new) }
        ensures acted { OnOk result ((lines : List Line) → world core.new self.new lines ≡ rounds.opening (world core.old self.old lines) now) }
    {
        match self.link.open("") {
            Ok(()) => {
                self.splitter = Splitter::new(self.alloc);
                self.idle = 0;
                self.enter(core, now, Cause::Opened)
            }
            Err(Fault::Failed) => self.note(core, now, Cause::Broke { why: Why::Fault }),
            Err(Fault::NoMemory) => Err(AllocError),
        }
    }

    /// All rounds, up to the end.
    pub(crate) fn run<const ACKS: usize, const IN: usize, const ROUTES: usize>(
        &mut self,
        core: &mut Core<ACKS, IN, ROUTES>,
        script: &Script,
    ) -> Result<(), NoMemory>
        requires sound { IsSound core.old self.old }
        requires steady { IsSteady (world core.old self.old script.now.lines) }
        requires asking { IsAsking (world core.old self.old script.now.lines) }
        requires few { length (taken_and_left (world core.old self.old script.now.lines)) ≤ 4000000001 }
        ensures sound { OnOk result (IsSound core.new self.new) }
        ensures finished { OnOk result (world core.new self.new script.now.lines ≡ finished (world core.old self.old script.now.lines)) }
        ensures ended { OnOk result (rounds.has_ended (world core.new self.new script.now.lines) ≡ true) }
    {
        'rounds: while !self.has_ended(core) {
            self.round(core, script)?;
        }
        Ok(())
    }

    fn has_ended<const ACKS: usize, const IN: usize, const ROUTES: usize>(
        &self,
        core: &Core<ACKS, IN, ROUTES>,
    ) -> bool
        requires sound { IsSound core.now self.now }
        ensures { (lines : List Line) → result ≡ rounds.has_ended (world core.now self.now lines) }
    {
        match core.phase() {
            Phase::Off => self.notes.left,
            Phase::Down | Phase::Opening | Phase::Up | Phase::Spilled => false,
        }
    }
}
