//! The world, which plays events one by one.

ghost use Rattle.std.specs.Prelude.{◌≡◌, ◌+◌, ◌<◌, true, false, if◌then◌else◌, count_by, length, take, IfOk, IfErr, IsErr, OnOk};
ghost use Rattle.session_world.specs.Counts as counts;
ghost use Rattle.session_world.specs.Kept.{StandsFor};
ghost use Rattle.session_world.specs.Playing.{answer_of, played, played_now};
ghost use Rattle.session_world.specs.Setups.{dev, usual};
ghost use Rattle.session_world.specs.World as worlds;

use crate::event::{Event, Played};
use crate::parts::Parts;
use crate::totals::Totals;
use broker_core::Broker;
use mqtt_packet::{NoMemory, Packet};
use std::alloc::{AllocError, Global};
use std::marker::Model;

/// The agent and the broker, and the packets under way between them. It stands for each world that the events played may have
/// led to.
#[derive(Debug, Drop)]
pub struct World {
    parts: Parts,
    /// Whether memory ran out.
    spoiled: bool,
}

impl Model for World {
    ghost use Rattle.session_world.specs.Kept.{Stood, Whole};
    ghost use Rattle.session_world.specs.Viewed.{kept_in};

    ghost Value = { Whole };

    ghost view = { λ w. record { kept = kept_in w.parts; spoiled = w.spoiled } };

    ghost invariant = { λ w. Stood (kept_in w.parts) };
}

impl World {
    /// The world before its first event: the agent in Down, a broker without sessions, and nothing under way.
    pub fn new(alloc: Global) -> Result<Self, NoMemory>
        ensures stands { IfOk result (λ world. StandsFor world.kept worlds.nothing) }
        ensures fresh { IfOk result (λ world. world.spoiled ≡ false) }
    {
        Ok(World {
            parts: Parts::new(alloc)?,
            spoiled: false,
        })
    }

    /// Plays an event, and says whether it was skipped. Where memory runs out the event comes back, what the world stands for
    /// is as before, and no more events are played.
    pub fn play(&mut self, event: Event) -> Result<Played, (Event, NoMemory)>
        requires few { self.old.kept.events < 4000000000 }
        ensures said { IfOk result (λ said. (w : worlds.World) → StandsFor self.old.kept w → said ≡ answer_of (played_now dev usual event w)) }
        ensures stands { OnOk result ((w : worlds.World) → StandsFor self.old.kept w → StandsFor self.new.kept (played dev usual w event)) }
        ensures counts { OnOk result (self.new.kept.events ≡ self.old.kept.events + 1) }
        ensures fresh { OnOk result (self.new.spoiled ≡ false) }
        ensures spoiled { self.old.spoiled ≡ true → IsErr result }
        ensures err { IfErr result (λ e. (e.0 ≡ event) × (self.new ≡ record { kept = self.old.kept; spoiled = true })) }
    {
        if self.spoiled {
            return Err((event, AllocError));
        }
        match self.parts.play(event) {
            Ok(said) => Ok(said),
            Err(e) => {
                self.spoiled = true;
                Err(e)
            }
        }
    }

    /// What is counted of the events that were played. It looks at each message that the broker passed on.
    pub fn totals(&self) -> Totals
        ensures { (w : worlds.World) → StandsFor self.now.kept w → result ≡ counts.totals w }
    {
        Totals {
            taken: self.parts.notes.published,
            done: self.parts.notes.done,
            passed: passed_out(&self.parts.broker),
            own: self.parts.own,
            told: self.parts.notes.told,
            breaks: self.parts.breaks,
        }
    }
}

/// How many messages were passed on whose topic is `out/a`.
fn passed_out(broker: &Broker) -> usize
    ensures { result ≡ count_by (counts.is_on counts.out_topic) broker.now.passed }
{
    let mut count = 0;
    for place in 0..broker.passed_len() {
        if is_out_at(broker, place) {
            count += 1;
        }
    }
    count
}

/// Whether the message at a place has the topic `out/a`.
fn is_out_at(broker: &Broker, place: usize) -> bool
    requires { place < length broker.now.passed }
    ensures { count_by (counts.is_on counts.out_topic) (take (place + 1) broker.now.passed)
        ≡ (if result then count_by (counts.is_on counts.out_topic) (take place broker.now.passed) + 1 else count_by (counts.is_on counts.out_topic) (take place broker.now.passed)) }
{
    match broker.passed(place) {
        Some(message) => is_out(message),
        None => false,
    }
}

fn is_out(message: &Packet) -> bool
    ensures { result ≡ counts.is_on counts.out_topic message.now }
{
    match message {
        Packet::Publish { topic, .. } => topic.as_bytes() == b"out/a".as_slice(),
        _ => false,
    }
}
