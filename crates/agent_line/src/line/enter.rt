//! Entries, and their packets.

ghost use Rattle.std.specs.Prelude.{◌≡◌, ℕ, ◌≤◌, true, false, is_some, is_none, None, Ok, OnOk, OnErr};
ghost use Rattle.agent_journal.specs.declared.entry.Cause.TheVariants as causes;
ghost use Rattle.agent_line.specs.Entered.{IsEntered};
ghost use Rattle.agent_line.specs.Recorded.{row_in, due_in, Enters, MayMake};
ghost use Rattle.agent_line.specs.Told.{KeepsTies};

use super::{Line, settle};
use crate::recorder::Recorder;
use crate::telling::Telling;
use crate::wire::{send_all, spell};
use agent_journal::{Cause, Request, Why};
use agent_link::Link;
use mqtt_packet::NoMemory;

impl Line {
    /// Makes the entry of a cause that has a row, and sends its packets. Where the connection doesn't take all of them, it
    /// has failed, and an entry says so.
    pub(super) fn enter<L: Link, const ACKS: usize, const IN: usize, const ROUTES: usize>(
        &mut self,
        recorder: &mut Recorder<ACKS, IN, ROUTES>,
        link: &mut L,
        now: u64,
        cause: Cause,
    ) -> Result<(), NoMemory>
        requires may { is_some (row_in recorder.old now cause) ≡ true }
        ensures entered { OnOk result (IsEntered recorder.old now cause (⟦<L as Telling>⟧.told link.old) recorder.new (⟦<L as Telling>⟧.told link.new)) }
        ensures err { OnErr result (MayMake recorder.old now cause recorder.new) }
        ensures stream { self.new.splitter ≡ self.old.splitter }
        ensures idle { self.new.idle ≤ self.old.idle }
    {
        recorder.make(now, cause)?;
        spell(&mut self.buffer, recorder.newest())?;
        if self.buffer.is_empty() {
            return Ok(());
        }
        self.idle = 0;
        let sent = send_all(link, self.buffer.as_slice())?;
        if sent < self.buffer.len() {
            recorder.make(now, Cause::Broke { why: Why::Fault })?;
        }
        Ok(())
    }

    /// A request of a task is taken, where the table has a row for it.
    pub fn take<L: Link, const ACKS: usize, const IN: usize, const ROUTES: usize>(
        &mut self,
        recorder: &mut Recorder<ACKS, IN, ROUTES>,
        link: &mut L,
        now: u64,
        task: u32,
        seq: u32,
        request: Request,
    ) -> Result<(), NoMemory>
        requires may { is_some (row_in recorder.old now (causes.Take task seq request)) ≡ true }
        ensures tied { OnOk result (KeepsTies recorder.old self.old.splitter self.old.idle (⟦<L as Telling>⟧.told link.old) recorder.new self.new.splitter self.new.idle (⟦<L as Telling>⟧.told link.new)) }
        ensures taken { OnOk result (Enters now (causes.Take task seq request) recorder.old recorder.new) }
        ensures err { OnErr result (MayMake recorder.old now (causes.Take task seq request) recorder.new) }
    {
        let cause = Cause::Take { task, seq, request };
        self.enter(recorder, link, now, cause)?;
        settle(recorder, link);
        Ok(())
    }

    /// Makes the entry of what is due, and answers whether something was.
    pub fn do_due<L: Link, const ACKS: usize, const IN: usize, const ROUTES: usize>(
        &mut self,
        recorder: &mut Recorder<ACKS, IN, ROUTES>,
        link: &mut L,
        now: u64,
    ) -> Result<bool, NoMemory>
        ensures tied { OnOk result (KeepsTies recorder.old self.old.splitter self.old.idle (⟦<L as Telling>⟧.told link.old) recorder.new self.new.splitter self.new.idle (⟦<L as Telling>⟧.told link.new)) }
        ensures due { result ≡ Ok true → (cause : _) × (due_in recorder.old now ≡ Some cause) × Enters now cause recorder.old recorder.new }
        ensures none { result ≡ Ok false → (due_in recorder.old now ≡ None) × (recorder.new ≡ recorder.old) × (⟦<L as Telling>⟧.told link.new ≡ ⟦<L as Telling>⟧.told link.old) }
        ensures err { OnErr result ((cause : _) × (due_in recorder.old now ≡ Some cause) × MayMake recorder.old now cause recorder.new) }
    {
        match recorder.due(now) {
            Some(cause) => {
                self.enter(recorder, link, now, cause)?;
                settle(recorder, link);
                Ok(true)
            }
            None => Ok(false),
        }
    }
}
