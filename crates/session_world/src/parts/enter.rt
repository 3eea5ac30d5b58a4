//! Entries of the agent, and what follows them.

ghost use Rattle.std.specs.Prelude.{◌≡◌, ◌*◌, ◌<◌, ℕ, true, Option, Some, is_some, IfOk, IfErr, OnOk, OnErr};
ghost use Rattle.agent_journal.specs.declared.entry.Cause.TheVariants as c;
ghost use Rattle.agent_core.specs.Kept.{row_now};
ghost use Rattle.agent_table.specs.Histories.{row};
ghost use Rattle.agent_table.specs.Rows.{Row};
ghost use Rattle.broker_core.specs.declared.link.Link.TheVariants.{Gone};
ghost use Rattle.session_world.specs.Kept.{StandsFor, Stood, Ties};
ghost use Rattle.session_world.specs.Playing.{is_connected};
ghost use Rattle.session_world.specs.Setups.{dev, usual};
ghost use Rattle.session_world.specs.World.{World, emptied, entries, faulted_in, followed, noted, phase, stepped};

use crate::parts::Parts;
use crate::queue::Queue;
use agent_journal::{Cause, Entry, Why};
use mqtt_packet::NoMemory;

impl Parts {
    ghost use Rattle.session_world.specs.Viewed.{kept_in};

    /// Makes the entry of a cause, where the table has a row for it, and does what follows. Where memory runs out the cause
    /// comes back, and nothing has changed.
    pub(super) fn enter(&mut self, cause: Cause) -> Result<(), (Cause, NoMemory)>
        requires stood { Stood (kept_in self.old) }
        requires few { self.old.events < 4000000000 }
        ensures entered { OnOk result ((w : World) (place : Option ℕ) → StandsFor (kept_in self.old) w → Ties (kept_in self.new) (stepped dev usual place (10 * w.events) cause w)) }
        ensures events { self.new.events ≡ self.old.events }
        ensures err { IfErr result (λ e. (e.0 ≡ cause) × (kept_in self.new ≡ kept_in self.old) × (self.new.down ≡ self.old.down)) }
    {
        let at = self.time();
        if !self.core.may(at, &cause) {
            return Ok(());
        }
        if let Err(e) = self.up.reserve() {
            return Err((cause, e));
        }
        let Entry { cause, effects, .. } = self.note(at, cause)?;
        self.up.push(effects.into_vec());
        self.follow(&cause);
        Ok(())
    }

    /// Makes the entry of a cause.
    fn note(&mut self, at: u64, cause: Cause) -> Result<Entry, (Cause, NoMemory)>
        requires stood { Stood (kept_in self.old) }
        requires few { self.old.events < 4000000000 }
        requires may { is_some (row_now self.old.core at cause) ≡ true }
        ensures cause { IfOk result (λ e. (e.at ≡ at) × (e.cause ≡ cause)) }
        ensures noted { IfOk result (λ e. (w : World) (place : Option ℕ) (found : Row) → StandsFor (kept_in self.old) w → row dev usual (entries w) at cause ≡ Some found
            → (e.effects ≡ found.effects) × Ties (kept_in self.new) (noted dev usual place at cause found.effects w)) }
        ensures rest { IfOk result (λ e. self.new ≡ record self.old { core = self.new.core; notes = self.new.notes }) }
        ensures err { IfErr result (λ e. (e.0 ≡ cause) × (self.new ≡ self.old)) }
    {
        match self.core.step(at, cause) {
            Ok(entry) => {
                self.notes.add(&entry);
                Ok(entry)
            }
            Err((cause, e)) => Err((cause, e)),
        }
    }

    /// The entry of a break, where the table has a row for it. What it would send is lost with the rest.
    pub(super) fn fault(&mut self) -> Result<(), NoMemory>
        requires stood { Stood (kept_in self.old) }
        requires few { self.old.events < 4000000000 }
        ensures faulted { OnOk result ((w : World) → StandsFor (kept_in self.old) w → is_connected (phase dev usual w) ≡ true → Ties (kept_in self.new) (faulted_in dev usual (phase dev usual w) (10 * w.events) w)) }
        ensures events { self.new.events ≡ self.old.events }
        ensures breaks { self.new.breaks ≡ self.old.breaks }
        ensures err { OnErr result (kept_in self.new ≡ kept_in self.old) }
    {
        let at = self.time();
        let cause = Cause::Broke { why: Why::Fault };
        if !self.core.may(at, &cause) {
            return Ok(());
        }
        match self.note(at, cause) {
            Ok(_) => Ok(()),
            Err((_, e)) => Err(e),
        }
    }

    /// What follows an entry of this cause: a break empties both lists, and with an opening the broker's connection begins.
    fn follow(&mut self, cause: &Cause)
        requires { cause.now ≡ c.Opened → self.old.broker.link ≡ Gone }
        ensures followed { (w : World) → Ties (kept_in self.old) w → Ties (kept_in self.new) (followed dev usual cause.now w) }
        ensures events { self.new.events ≡ self.old.events }
    {
        match cause {
            Cause::Opened => self.broker.open(),
            Cause::Broke { .. } => self.empty(),
            _ => {}
        }
    }

    /// All packets under way are lost, and the broker's connection ends.
    pub(super) fn empty(&mut self)
        ensures emptied { (w : World) → Ties (kept_in self.old) w → Ties (kept_in self.new) (emptied dev usual w) }
        ensures events { self.new.events ≡ self.old.events }
        ensures breaks { self.new.breaks ≡ self.old.breaks }
    {
        self.broker.broke();
        self.up = Queue::new(self.alloc);
        self.down = Queue::new(self.alloc);
    }
}
