//! Openings of connections.

ghost use Rattle.std.specs.Prelude.{◌≡◌, ℕ, ◌≤◌, None, Ok, OnOk, OnErr, true, false};
ghost use Rattle.agent_journal.specs.declared.entry.Cause.TheVariants as causes;
ghost use Rattle.agent_journal.specs.declared.entry.Why.TheVariants as reasons;
ghost use Rattle.agent_journal.specs.declared.setup.Phase.TheVariants.{Down};
ghost use Rattle.agent_journal.specs.Readings.{last_time_of};
ghost use Rattle.agent_line.specs.Recorded.{phase_in, due_in, Makes, Enters, MayMake};
ghost use Rattle.agent_line.specs.Told.{KeepsTies};

use super::{Line, break_off, settle};
use crate::recorder::Recorder;
use crate::telling::Telling;
use agent_journal::{Cause, Why};
use agent_link::{Fault, Link};
use mqtt_packet::{NoMemory, Splitter};
use std::alloc::AllocError;

impl Line {
    /// Opens the next connection to an address, as `host:port`, and answers whether it was opened. It is called in Down, where
    /// nothing is due.
    pub fn open<L: Link, const ACKS: usize, const IN: usize, const ROUTES: usize>(
        &mut self,
        recorder: &mut Recorder<ACKS, IN, ROUTES>,
        link: &mut L,
        now: u64,
        to: &str,
    ) -> Result<bool, NoMemory>
        requires down { phase_in recorder.old ≡ Down }
        requires time { last_time_of recorder.old.past ≤ now }
        requires none_due { due_in recorder.old now ≡ None }
        ensures tied { OnOk result (KeepsTies recorder.old self.old.splitter self.old.idle (⟦<L as Telling>⟧.told link.old) recorder.new self.new.splitter self.new.idle (⟦<L as Telling>⟧.told link.new)) }
        ensures opened { result ≡ Ok true → Enters now causes.Opened recorder.old recorder.new }
        ensures failed { result ≡ Ok false → Makes recorder.old now (causes.Broke reasons.Fault) recorder.new }
        ensures err { OnErr result (MayMake recorder.old now causes.Opened recorder.new) }
    {
        // Since the agent doesn't give up, this one may be opened.
        recorder.stays(now);
        match link.open(to) {
            Ok(()) => {
                self.splitter = Splitter::new(self.alloc);
                self.idle = 0;
                self.enter(recorder, link, now, Cause::Opened)?;
                settle(recorder, link);
                Ok(true)
            }
            Err(Fault::Failed) => {
                break_off(recorder, link, now, Why::Fault)?;
                Ok(false)
            }
            Err(Fault::NoMemory) => Err(AllocError),
        }
    }
}
