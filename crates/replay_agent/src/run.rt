//! A run of a replay: its rounds, one after another.

ghost use Rattle.std.specs.Prelude.{◌≡◌, ℕ, ◌+◌, ◌-◌, ◌*◌, ◌^◌, ◌<◌, ◌≤◌, ◌∷◌, [], List, length, true, false, None, Some, is_some, IfOk, OnOk};
ghost use Rattle.agent_link.specs.Clocks.{Stepping};
ghost use Rattle.mqtt_packet.specs.Splitting.{Kept as Stream};
ghost use Rattle.broker_tape.specs.Playing.{unplayed};
ghost use Rattle.agent_script.specs.declared.script.Line.{Line};
ghost use Rattle.agent_core.specs.Kept.{row_now};
ghost use Rattle.replay_rounds.specs.World as worlds;
ghost use Rattle.replay_rounds.specs.Entering as entering;
ghost use Rattle.agent_ties.specs.Seen as ties;

mod enter;
mod receive;
mod rounds;
mod take;

use crate::notes::Notes;
use agent_journal::Journal;
use agent_link::StepClock;
use broker_tape::{Tape, TapeLink};
use mqtt_packet::Splitter;
use std::alloc::Global;

/// How many bytes a receive has room for.
const ROOM: usize = 4096;

/// What a replay has beside the agent: its journal, its link and clock, how far it is in the script and in what the
/// connection gave, and what it needs to know of the journal at each round.
#[derive(Debug, Drop)]
pub(crate) struct Run {
    alloc: Global,
    pub(crate) journal: Journal,
    pub(crate) link: TapeLink,
    pub(crate) clock: StepClock,
    pub(crate) splitter: Splitter,
    /// Where a receive puts what comes. It is kept, since a round that hears nothing should cost nothing.
    heard: [u8; ROOM],
    /// Where an entry's packets are spelled before they are sent.
    buffer: Vec<u8>,
    /// How often in a row nothing was heard, at most 10,000.
    pub(crate) idle: u32,
    /// How many lines of the script were gone past, and for how many messages those asked.
    pub(crate) gone: usize,
    pub(crate) listened: u128,
    pub(crate) notes: Notes,
}

impl Run {
    /// A run before its first round.
    pub(crate) fn new(alloc: Global, tape: Tape, tick: u64) -> Self
        ensures journal { result.journal ≡ [] }
        ensures link { result.link ≡ unplayed tape }
        ensures clock { result.clock ≡ record { step = tick; calls = 0 } }
        ensures stream { result.splitter ≡ ties.fresh }
        ensures fresh { (result.gone ≡ 0) × (result.listened ≡ 0) × (result.idle ≡ 0) }
        ensures counts { (result.notes.taken ≡ 0) × (result.notes.messages ≡ 0) }
        ensures nothing { (result.notes.closed ≡ false) × (result.notes.left ≡ false) × (result.notes.ending ≡ None) }
    {
        Run {
            alloc,
            journal: Journal::new(alloc),
            link: TapeLink::new(alloc, tape),
            clock: StepClock::new(tick),
            splitter: Splitter::new(alloc),
            heard: [0; ROOM],
            buffer: Vec::new(alloc),
            idle: 0,
            gone: 0,
            listened: 0,
            notes: Notes::new(),
        }
    }
}
