//! The list of events that a seed gives.

ghost use Rattle.std.specs.Prelude.{◌≡◌, ◌+◌, ◌-◌, ◌/◌, ◌%◌, ◌^◌, ◌<◌, ◌≤◌, length, IfOk};
ghost use Rattle.session_world.specs.Generating as generating;
ghost use Rattle.session_world.specs.Playing.{four_bytes};

use crate::event::Event;
use agent_journal::Request;
use list_types::{Blob, Seq, Text};
use mqtt_packet::{Ask, NoMemory, Qos};
use std::alloc::Global;

/// How many events begin each list.
const FIRST: u32 = 4;

/// The state of a linear congruential generator, and how many publishes were drawn.
#[derive(Clone, Copy, Debug)]
struct Draws {
    state: u64,
    published: u32,
}

/// The n events of a seed: a connection, a subscribe, and then publishes, deliveries, breaks and openings as they are drawn.
#[tactic(auto, using(crate::proofs::Drawing::drawn_more, crate::proofs::Drawing::all_are_drawn))]
pub fn generate(alloc: Global, seed: u64, n: u32) -> Result<Vec<Event>, NoMemory>
    ensures { IfOk result (λ events. events.items ≡ generating.generated seed n) }
{
    let mut events = first_events(alloc)?;
    events.truncate(n as usize);
    let mut draws = Draws {
        state: seed,
        published: 0,
    };
    for _ in FIRST..n {
        let event = draws.event(alloc)?;
        events.push(event)?;
    }
    Ok(events)
}

/// The agent connects and subscribes.
fn first_events(alloc: Global) -> Result<Vec<Event>, NoMemory>
    ensures { IfOk result (λ events. events.items ≡ generating.first_events) }
{
    let mut asks = Seq::new(alloc);
    asks.push(Ask {
        filter: Text::from_str(alloc, "in/#")?,
        qos: Qos::ExactlyOnce,
    })?;
    let mut events = Vec::new(alloc);
    events.push(Event::Reopen)?;
    events.push(Event::DeliverUp)?;
    events.push(Event::DeliverDown)?;
    events.push(Event::Take(Request::Subscribe { asks }))?;
    Ok(events)
}

impl Draws {
    /// The next event.
    #[tactic(auto, unfolding(crate::specs::Generating::drawn))]
    fn event(&mut self, alloc: Global) -> Result<Event, NoMemory>
        requires { self.old.published < 2 ^ 32 - 1 }
        ensures drawn { IfOk result (λ e. generating.drawn self.old ≡ record { event = e; draws = self.new }) }
        ensures few { self.new.published ≤ self.old.published + 1 }
    {
        let kind = self.draw() % 16;
        if kind < 4 {
            return self.publish(alloc);
        }
        Ok(self.other(kind))
    }

    /// An event that isn't a publish, by a number from 4 to 15.
    fn other(&mut self, kind: u64) -> Event
        requires { (4 ≤ kind) × (kind < 16) }
        ensures { generating.drawn_by kind self.old ≡ record { event = result; draws = self.new } }
    {
        match kind {
            4..=7 => Event::DeliverUp,
            8..=11 => Event::DeliverDown,
            12 => Event::LocalPublish { qos: self.qos() },
            13 => self.breaks(),
            14 => Event::Reopen,
            _ => Event::Tick,
        }
    }

    /// One in eight breaks the connection.
    fn breaks(&mut self) -> Event
        ensures { generating.breaks self.old ≡ record { event = result; draws = self.new } }
    {
        if self.draw() % 8 == 0 {
            Event::Break
        } else {
            Event::DeliverUp
        }
    }

    /// A publish, whose payload is how many were drawn before it.
    fn publish(&mut self, alloc: Global) -> Result<Event, NoMemory>
        requires { self.old.published < 2 ^ 32 - 1 }
        ensures drawn { IfOk result (λ e. generating.publish self.old ≡ record { event = e; draws = self.new }) }
        ensures few { self.new.published ≤ self.old.published + 1 }
    {
        let qos = self.qos();
        let topic = Text::from_str(alloc, "out/a")?;
        let payload = number(alloc, self.published)?;
        self.published += 1;
        Ok(Event::Take(Request::Publish {
            qos,
            topic,
            payload,
        }))
    }

    fn qos(&mut self) -> Qos
        ensures qos { result ≡ generating.qos_by self.old }
        ensures draws { self.new ≡ generating.behind self.old }
    {
        match self.draw() % 3 {
            0 => Qos::AtMostOnce,
            1 => Qos::AtLeastOnce,
            _ => Qos::ExactlyOnce,
        }
    }

    fn draw(&mut self) -> u64
        ensures draw { result ≡ generating.draw self.new.state }
        ensures draws { self.new ≡ generating.behind self.old }
    {
        self.state = next(self.state);
        self.state >> 33
    }
}

#[tactic(auto, unfolding(crate::specs::Generating::next))]
fn next(state: u64) -> u64
    ensures { result ≡ generating.next state }
{
    state
        .wrapping_mul(6_364_136_223_846_793_005)
        .wrapping_add(1_442_695_040_888_963_407)
}

/// A number in 4 bytes, the high one first.
pub(crate) fn number(alloc: Global, n: u32) -> Result<Blob, NoMemory>
    ensures { IfOk result (λ bytes. bytes ≡ four_bytes n) }
{
    Ok(Seq::from_vec(Vec::from_slice(alloc, n.to_be_bytes().as_slice())?))
}
