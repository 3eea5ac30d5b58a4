//! Receives: what comes is handed in packet by packet.

ghost use Rattle.std.specs.Prelude.{◌≡◌, ◌⊎◌, ℕ, ◌≤◌, true, false, [], is_some, OnOk, OnErr, Ok, IfOk};
ghost use Rattle.agent_journal.specs.declared.entry.Why.{Why};
ghost use Rattle.agent_journal.specs.declared.entry.Cause.TheVariants as causes;
ghost use Rattle.agent_journal.specs.Readings.{last_time_of};
ghost use Rattle.agent_table.specs.Ties.{listens};
ghost use Rattle.agent_link.specs.Counts.{raised};
ghost use Rattle.agent_ties.specs.Ties.{Handing, Ties};
ghost use Rattle.agent_line.specs.declared.line.receive.Came.TheVariants as Came;
ghost use Rattle.agent_line.specs.Entered.{Arrives, one_more, idled};
ghost use Rattle.agent_line.specs.Recorded.{phase_in, Makes, Grows, MayMake};
ghost use Rattle.agent_line.specs.Told.{Told, GaveMore, KeepsTies, Since};

use super::{IDLE_LIMIT, Line, break_off, settle};
use crate::recorder::Recorder;
use crate::telling::Telling;
use agent_journal::{Cause, Phase, Why};
use agent_link::{Fault, Heard, Link};
use mqtt_packet::{Next, NoMemory, Packet};
use std::alloc::AllocError;

/// What a receive brought.
#[derive(Clone, Copy, Debug, PartialEq, Eq)]
pub enum Came {
    /// Bytes, whose whole packets were handed in.
    Bytes,
    Nothing,
    /// The connection has ended, or a call of the link failed.
    Gone,
}

impl Line {
    /// Receives once, and hands in what came. Nothing ten thousand times in a row is a break where the table has a row for it.
    pub fn receive<L: Link, const ACKS: usize, const IN: usize, const ROUTES: usize>(
        &mut self,
        recorder: &mut Recorder<ACKS, IN, ROUTES>,
        link: &mut L,
        now: u64,
    ) -> Result<Came, NoMemory>
        requires listens { listens (phase_in recorder.old) ≡ true }
        requires time { last_time_of recorder.old.past ≤ now }
        ensures tied { OnOk result (KeepsTies recorder.old self.old.splitter self.old.idle (⟦<L as Telling>⟧.told link.old) recorder.new self.new.splitter self.new.idle (⟦<L as Telling>⟧.told link.new)) }
        ensures grown { Grows now recorder.old recorder.new }
        ensures bytes { result ≡ Ok Came.Bytes → GaveMore (L.given link.old) (L.given link.new) }
        ensures gone { result ≡ Ok Came.Gone → (reason : Why) × Makes recorder.old now (causes.Broke reason) recorder.new }
        ensures nothing { result ≡ Ok Came.Nothing → (L.nothings link.new ≡ raised (L.nothings link.old)) × (recorder.new ≡ idled recorder.old (one_more self.old.idle) now) }
        ensures silent { result ≡ Ok Came.Nothing → self.new.idle ≡ one_more self.old.idle }
        ensures heard { result ≡ Ok Came.Bytes → self.new.idle ≡ 0 }
    {
        match link.recv(self.heard.as_mut_slice()) {
            Ok(Heard::Bytes(count)) => {
                self.idle = 0;
                self.splitter.feed(&self.heard[..count])?;
                self.hand_in(recorder, link, now)?;
                Ok(Came::Bytes)
            }
            Ok(Heard::Nothing) => {
                self.idle_on(recorder, link, now)?;
                Ok(Came::Nothing)
            }
            Ok(Heard::End) => {
                break_off(recorder, link, now, Why::End)?;
                Ok(Came::Gone)
            }
            Err(Fault::Failed) => {
                break_off(recorder, link, now, Why::Fault)?;
                Ok(Came::Gone)
            }
            Err(Fault::NoMemory) => Err(AllocError),
        }
    }

    /// Nothing was heard.
    fn idle_on<L: Link, const ACKS: usize, const IN: usize, const ROUTES: usize>(
        &mut self,
        recorder: &mut Recorder<ACKS, IN, ROUTES>,
        link: &mut L,
        now: u64,
    ) -> Result<(), NoMemory>
        ensures stream { self.new.splitter ≡ self.old.splitter }
        ensures idle { self.new.idle ≡ one_more self.old.idle }
        ensures idled { OnOk result (recorder.new ≡ idled recorder.old (one_more self.old.idle) now) }
        ensures same { OnOk result (⟦<L as Telling>⟧.told link.new ≡ ⟦<L as Telling>⟧.told link.old) }
        ensures err { OnErr result (recorder.new ≡ recorder.old) }
    {
        self.idle = if self.idle < IDLE_LIMIT {
            self.idle + 1
        } else {
            IDLE_LIMIT
        };
        if self.idle < IDLE_LIMIT {
            return Ok(());
        }
        break_off(recorder, link, now, Why::Idle)
    }

    /// Hands in all whole packets, in their order. Where the phase is neither Opening nor Up any more, the rest is dropped.
    fn hand_in<L: Link, const ACKS: usize, const IN: usize, const ROUTES: usize>(
        &mut self,
        recorder: &mut Recorder<ACKS, IN, ROUTES>,
        link: &mut L,
        now: u64,
    ) -> Result<(), NoMemory>
        requires time { last_time_of recorder.old.past ≤ now }
        ensures tied { OnOk result ((first : Told) → Since (Handing now self.old.splitter) first recorder.old self.old.splitter self.old.idle (⟦<L as Telling>⟧.told link.old)
            → Since Ties first recorder.new self.new.splitter self.new.idle (⟦<L as Telling>⟧.told link.new)) }
        ensures grown { Grows now recorder.old recorder.new }
        ensures given { OnOk result (L.given link.new ≡ L.given link.old) }
        ensures idle { self.new.idle ≤ self.old.idle }
    {
        let most = self.splitter.held() as u128 + 1;
        for turn in 0..most {
            if !is_listening(recorder.phase()) {
                return Ok(());
            }
            match self.splitter.next()? {
                Next::Packet(packet) => self.arrive(recorder, link, now, packet)?,
                Next::More => return Ok(()),
                Next::Bad { at } => return break_off(recorder, link, now, Why::Bad { at }),
                Next::TooLong { len, .. } => return break_off(
                    recorder,
                    link,
                    now,
                    Why::TooLong { len },
                ),
            }
        }
        Ok(())
    }

    /// Makes the entry of a packet, where the table has a row for it.
    fn arrive<L: Link, const ACKS: usize, const IN: usize, const ROUTES: usize>(
        &mut self,
        recorder: &mut Recorder<ACKS, IN, ROUTES>,
        link: &mut L,
        now: u64,
        packet: Packet,
    ) -> Result<(), NoMemory>
        ensures arrived { OnOk result (Arrives recorder.old now packet (⟦<L as Telling>⟧.told link.old) recorder.new (⟦<L as Telling>⟧.told link.new)) }
        ensures err { OnErr result (MayMake recorder.old now (causes.Arrived packet) recorder.new) }
        ensures stream { self.new.splitter ≡ self.old.splitter }
        ensures idle { self.new.idle ≤ self.old.idle }
    {
        let cause = Cause::Arrived { packet };
        if !recorder.may(now, &cause) {
            return Ok(());
        }
        self.enter(recorder, link, now, cause)?;
        settle(recorder, link);
        Ok(())
    }
}

/// Whether packets are handed in.
fn is_listening(phase: Phase) -> bool
    ensures { result ≡ listens phase }
{
    match phase {
        Phase::Opening | Phase::Up => true,
        Phase::Down | Phase::Spilled | Phase::Off => false,
    }
}
