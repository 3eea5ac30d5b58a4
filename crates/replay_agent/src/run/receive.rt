//! Receives of a run: what comes is handed in packet by packet.

ghost use Rattle.std.specs.Prelude.{◌≡◌, ℕ, ◌+◌, List, OnOk};
ghost use Rattle.agent_script.specs.declared.script.Line.{Line};
ghost use Rattle.agent_table.specs.Readings.{at_most};
ghost use Rattle.agent_table.specs.Ties.{listens};
ghost use Rattle.replay_rounds.specs.Receiving as receiving;

use crate::run::Run;
use agent_core::Core;
use agent_journal::{Cause, Phase, Why};
use agent_link::{Fault, Heard, Link};
use mqtt_packet::{Next, NoMemory};
use std::alloc::AllocError;

/// How often in a row nothing is heard on a connection that counts as broken.
const IDLE_LIMIT: u32 = 10_000;

impl Run {
    ghost use Rattle.replay_agent.specs.Runs.{world, IsSound};

    /// Receives once, and hands in what came.
    #[tactic(auto, unfolding(replay_rounds::specs::Receiving::receives))]
    pub(crate) fn receive<const ACKS: usize, const IN: usize, const ROUTES: usize>(
        &mut self,
        core: &mut Core<ACKS, IN, ROUTES>,
        now: u64,
    ) -> Result<(), NoMemory>
        requires sound { IsSound core.old self.old }
        ensures sound { OnOk result (IsSound core.new self.new) }
        ensures acted { OnOk result ((lines : List Line) → world core.new self.new lines ≡ receiving.receives (world core.old self.old lines) now) }
    {
        match self.link.recv(self.heard.as_mut_slice()) {
            Ok(Heard::Bytes(count)) => {
                self.idle = 0;
                self.splitter.feed(&self.heard[..count])?;
                self.hand_in(core, now)
            }
            Ok(Heard::Nothing) => self.idle_on(core, now),
            Ok(Heard::End) => self.note(core, now, Cause::Broke { why: Why::End }),
            Err(Fault::Failed) => self.note(core, now, Cause::Broke { why: Why::Fault }),
            Err(Fault::NoMemory) => Err(AllocError),
        }
    }

    /// Nothing was heard. Ten thousand times in a row, and the connection counts as broken where the table says so.
    fn idle_on<const ACKS: usize, const IN: usize, const ROUTES: usize>(
        &mut self,
        core: &mut Core<ACKS, IN, ROUTES>,
        now: u64,
    ) -> Result<(), NoMemory>
        requires sound { IsSound core.old self.old }
        ensures sound { OnOk result (IsSound core.new self.new) }
        ensures acted { OnOk result ((lines : List Line) → world core.new self.new lines ≡ receiving.idles (record (world core.old self.old lines) { idle = at_most 10000 (self.old.idle + 1) }) now) }
    {
        self.idle = if self.idle < IDLE_LIMIT {
            self.idle + 1
        } else {
            IDLE_LIMIT
        };
        if self.idle < IDLE_LIMIT {
            return Ok(());
        }
        self.note(core, now, Cause::Broke { why: Why::Idle })
    }

    /// Hands in all whole packets, in their order. Where the phase is neither Opening nor Up any more, the rest is
    /// dropped.
    #[tactic(auto, using(crate::proofs::Hands::hands_done, crate::proofs::Hands::hands_over))]
    fn hand_in<const ACKS: usize, const IN: usize, const ROUTES: usize>(
        &mut self,
        core: &mut Core<ACKS, IN, ROUTES>,
        now: u64,
    ) -> Result<(), NoMemory>
        requires sound { IsSound core.old self.old }
        ensures sound { OnOk result (IsSound core.new self.new) }
        ensures acted { OnOk result ((lines : List Line) → world core.new self.new lines ≡ receiving.hands_all (world core.old self.old lines) now) }
    {
        let most = self.splitter.held() as u128 + 1;
        for turn in 0..most {
            if !is_listening(core.phase()) {
                return Ok(());
            }
            match self.splitter.next()? {
                Next::Packet(packet) => self.enter(core, now, Cause::Arrived { packet })?,
                Next::More => return Ok(()),
                Next::Bad { at } => return self.note(
                    core,
                    now,
                    Cause::Broke {
                        why: Why::Bad { at },
                    },
                ),
                Next::TooLong { len, .. } => return self.note(
                    core,
                    now,
                    Cause::Broke {
                        why: Why::TooLong { len },
                    },
                ),
            }
        }
        Ok(())
    }
}

/// Whether packets are handed in.
fn is_listening(phase: Phase) -> bool
    ensures { result ≡ listens phase }
{
    match phase {
        Phase::Opening | Phase::Up => true,
        Phase::Down | Phase::Spilled | Phase::Off => false,
    }
}
