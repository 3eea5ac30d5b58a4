//! Entries of a run, and their packets.

ghost use Rattle.std.specs.Prelude.{◌≡◌, ℕ, ◌-◌, ◌^◌, ◌<◌, List, true, is_some, OnOk};
ghost use Rattle.agent_script.specs.declared.script.Line.{Line};
ghost use Rattle.agent_journal.specs.Readings.{takes_by};
ghost use Rattle.agent_core.specs.Kept.{row_now};
ghost use Rattle.replay_rounds.specs.World as worlds;
ghost use Rattle.replay_rounds.specs.Entering as entering;
ghost use Rattle.replay_agent.specs.Entries.{Makes};

use crate::run::Run;
use crate::wire::send_all;
use agent_core::Core;
use agent_journal::{Cause, Phase, Why};
use agent_line::spell;
use agent_link::Link;
use mqtt_packet::NoMemory;

impl Run {
    ghost use Rattle.replay_agent.specs.Runs.{world, IsSound};

    /// Makes the entry of a cause, where the table has a row for it, and sends its packets. Where the connection
    /// doesn't take all of them, it has failed.
    #[tactic(auto, using(crate::proofs::Entered::row_none, crate::proofs::Entered::entered_made))]
    pub(crate) fn enter<const ACKS: usize, const IN: usize, const ROUTES: usize>(
        &mut self,
        core: &mut Core<ACKS, IN, ROUTES>,
        now: u64,
        cause: Cause,
    ) -> Result<(), NoMemory>
        requires sound { IsSound core.old self.old }
        requires room { takes_by 0 cause ≡ true → self.old.notes.taken < 2 ^ 32 - 1 }
        ensures sound { OnOk result (IsSound core.new self.new) }
        ensures entered { OnOk result ((lines : List Line) → world core.new self.new lines ≡ entering.entered (world core.old self.old lines) now cause) }
    {
        if !core.may(now, &cause) {
            return Ok(());
        }
        self.make(core, now, cause)?;
        self.send(core, now)
    }

    /// Makes the entry of a cause that sends nothing, where the table has a row for it.
    #[tactic(auto, using(crate::proofs::Entered::note_none, crate::proofs::Entered::noted_made))]
    pub(crate) fn note<const ACKS: usize, const IN: usize, const ROUTES: usize>(
        &mut self,
        core: &mut Core<ACKS, IN, ROUTES>,
        now: u64,
        cause: Cause,
    ) -> Result<(), NoMemory>
        requires sound { IsSound core.old self.old }
        requires room { takes_by 0 cause ≡ true → self.old.notes.taken < 2 ^ 32 - 1 }
        ensures sound { OnOk result (IsSound core.new self.new) }
        ensures noted { OnOk result ((lines : List Line) → world core.new self.new lines ≡ entering.noted (world core.old self.old lines) now cause) }
    {
        if !core.may(now, &cause) {
            return Ok(());
        }
        self.make(core, now, cause)?;
        self.settle(core);
        Ok(())
    }

    /// Makes the entry of a cause that has a row, and spells its packets.
    #[tactic(auto, using(crate::proofs::Entered::effects_sound))]
    fn make<const ACKS: usize, const IN: usize, const ROUTES: usize>(
        &mut self,
        core: &mut Core<ACKS, IN, ROUTES>,
        now: u64,
        cause: Cause,
    ) -> Result<(), NoMemory>
        requires may { is_some (row_now core.old now cause) ≡ true }
        requires sound { IsSound core.old self.old }
        requires room { takes_by 0 cause ≡ true → self.old.notes.taken < 2 ^ 32 - 1 }
        ensures sound { OnOk result (IsSound core.new self.new) }
        ensures made { OnOk result ((lines : List Line) → Makes (world core.old self.old lines) now cause (world core.new self.new lines) self.new.buffer.items) }
    {
        let before = core.phase();
        match core.step(now, cause) {
            Ok(entry) => {
                spell(&mut self.buffer, entry.effects.as_slice())?;
                self.notes
                    .add(self.journal.len(), before, core.phase(), &entry);
                self.journal.push(entry)?;
                Ok(())
            }
            Err((_, e)) => Err(e),
        }
    }

    /// Sends what was spelled.
    fn send<const ACKS: usize, const IN: usize, const ROUTES: usize>(
        &mut self,
        core: &mut Core<ACKS, IN, ROUTES>,
        now: u64,
    ) -> Result<(), NoMemory>
        requires sound { IsSound core.old self.old }
        ensures sound { OnOk result (IsSound core.new self.new) }
        ensures sent { OnOk result ((lines : List Line) → world core.new self.new lines ≡ entering.sends (world core.old self.old lines) now self.old.buffer.items) }
    {
        if self.buffer.is_empty() {
            self.settle(core);
            return Ok(());
        }
        self.idle = 0;
        let sent = send_all(&mut self.link, self.buffer.as_slice())?;
        if sent < self.buffer.len() {
            return self.note(core, now, Cause::Broke { why: Why::Fault });
        }
        self.settle(core);
        Ok(())
    }

    /// In Down and Off there is no connection.
    fn settle<const ACKS: usize, const IN: usize, const ROUTES: usize>(
        &mut self,
        core: &Core<ACKS, IN, ROUTES>,
    )
        requires sound { IsSound core.now self.old }
        ensures sound { IsSound core.now self.new }
        ensures settled { (lines : List Line) → world core.now self.new lines ≡ worlds.settled (world core.now self.old lines) }
    {
        match core.phase() {
            Phase::Down | Phase::Off => self.link.shut(),
            Phase::Opening | Phase::Up | Phase::Spilled => {}
        }
    }
}
