//! What an agent has beside its journal to speak over a link.

ghost use Rattle.std.specs.Prelude.{◌≡◌, ℕ, ◌≤◌, true, false, is_some, OnOk, OnErr};
ghost use Rattle.agent_journal.specs.declared.entry.Cause.TheVariants as causes;
ghost use Rattle.agent_ties.specs.Seen.{fresh};
ghost use Rattle.agent_line.specs.Recorded.{noted};

mod enter;
mod open;
mod receive;

use crate::recorder::Recorder;
use crate::telling::Telling;
use agent_journal::{Cause, Phase, Why};
use agent_link::Link;
use mqtt_packet::{NoMemory, Splitter};
pub use receive::Came;
use std::alloc::Global;

/// How many bytes a receive has room for.
const ROOM: usize = 4096;

/// How often in a row nothing is heard on a connection that counts as broken.
const IDLE_LIMIT: u32 = 10_000;

/// The stream of the present connection, and room for what comes and goes.
#[derive(Debug, Drop)]
pub struct Line {
    alloc: Global,
    splitter: Splitter,
    /// Where a receive puts what comes.
    heard: [u8; ROOM],
    /// Where an entry's packets are spelled, to be sent at once.
    buffer: Vec<u8>,
    /// How often in a row nothing was heard, at most 10,000.
    idle: u32,
}

impl Line {
    /// Before the first connection. It takes no memory yet.
    pub fn new(alloc: Global) -> Self
        ensures stream { result.splitter ≡ fresh }
        ensures idle { result.idle ≡ 0 }
    {
        Line {
            alloc,
            splitter: Splitter::new(alloc),
            heard: [0; ROOM],
            buffer: Vec::new(alloc),
            idle: 0,
        }
    }
}

/// In Down and Off there is no connection.
fn settle<L: Link, const ACKS: usize, const IN: usize, const ROUTES: usize>(
    recorder: &Recorder<ACKS, IN, ROUTES>,
    link: &mut L,
)
    ensures same { ⟦<L as Telling>⟧.told link.new ≡ ⟦<L as Telling>⟧.told link.old }
{
    match recorder.phase() {
        Phase::Down | Phase::Off => link.shut(),
        Phase::Opening | Phase::Up | Phase::Spilled => {}
    }
}

/// Makes the entry of a break, where the table has a row for it.
fn break_off<L: Link, const ACKS: usize, const IN: usize, const ROUTES: usize>(
    recorder: &mut Recorder<ACKS, IN, ROUTES>,
    link: &mut L,
    now: u64,
    why: Why,
) -> Result<(), NoMemory>
    ensures noted { OnOk result (recorder.new ≡ noted recorder.old now (causes.Broke why)) }
    ensures same { OnOk result (⟦<L as Telling>⟧.told link.new ≡ ⟦<L as Telling>⟧.told link.old) }
    ensures err { OnErr result (recorder.new ≡ recorder.old) }
{
    let cause = Cause::Broke { why };
    if !recorder.may(now, &cause) {
        return Ok(());
    }
    recorder.make(now, cause)?;
    settle(recorder, link);
    Ok(())
}
