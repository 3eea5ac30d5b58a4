//! The agent, the broker and what is under way between them.

ghost use Rattle.std.specs.Prelude.{◌≡◌, ◌+◌, ◌*◌, ◌<◌, IfOk, IfErr, OnOk};
ghost use Rattle.session_world.specs.Kept.{Plays, StandsFor, Stood};
ghost use Rattle.session_world.specs.Playing.{answer_of, played, played_now};
ghost use Rattle.session_world.specs.Setups.{dev, usual};
ghost use Rattle.session_world.specs.World.{World, nothing};

mod agent;
mod broker;
mod enter;

use crate::event::{Event, Played};
use crate::notes::Notes;
use crate::queue::Queue;
use agent_core::{Core, Setup};
use agent_journal::Effect;
use broker_core::Broker;
use list_types::Text;
use mqtt_packet::{NoMemory, Packet};
use std::alloc::Global;

/// How much time passes from an event to the next, in milliseconds.
const PACE: u64 = 10;

/// What a world has.
#[derive(Debug, Drop)]
pub(crate) struct Parts {
    alloc: Global,
    pub(crate) core: Core<20, 20, 32>,
    pub(crate) broker: Broker,
    /// What the agent did; its sends are under way to the broker.
    pub(crate) up: Queue<Effect>,
    pub(crate) down: Queue<Packet>,
    pub(crate) notes: Notes,
    /// How many events were handed in, how many messages of its own the broker published, and how many breaks were played.
    pub(crate) events: u32,
    pub(crate) own: u32,
    pub(crate) breaks: u32,
}

impl Parts {
    ghost use Rattle.session_world.specs.Viewed.{kept_in};

    /// Before the first event.
    pub(crate) fn new(alloc: Global) -> Result<Self, NoMemory>
        ensures { IfOk result (λ parts. StandsFor (kept_in parts) nothing) }
    {
        match Core::new(alloc, setup(alloc)?) {
            Ok(core) => Ok(Parts {
                alloc,
                core,
                broker: Broker::new(alloc),
                up: Queue::new(alloc),
                down: Queue::new(alloc),
                notes: Notes::new(),
                events: 0,
                own: 0,
                breaks: 0,
            }),
            Err((_, e)) => Err(e),
        }
    }

    /// Plays an event. Where memory runs out it comes back, and nothing has changed.
    pub(crate) fn play(&mut self, event: Event) -> Result<Played, (Event, NoMemory)>
        requires stood { Stood (kept_in self.old) }
        requires few { self.old.events < 4000000000 }
        ensures said { IfOk result (λ said. (w : World) → StandsFor (kept_in self.old) w → said ≡ answer_of (played_now dev usual event w)) }
        ensures stands { OnOk result ((w : World) → StandsFor (kept_in self.old) w → StandsFor (kept_in self.new) (played dev usual w event)) }
        ensures events { OnOk result (self.new.events ≡ self.old.events + 1) }
        ensures err { IfErr result (λ e. (e.0 ≡ event) × (kept_in self.new ≡ kept_in self.old)) }
    {
        let said = self.play_event(event)?;
        self.events += 1;
        Ok(said)
    }

    fn play_event(&mut self, event: Event) -> Result<Played, (Event, NoMemory)>
        requires stood { Stood (kept_in self.old) }
        requires few { self.old.events < 4000000000 }
        ensures plays { IfOk result (λ said. Plays (kept_in self.old) event said (kept_in self.new)) }
        ensures events { self.new.events ≡ self.old.events }
        ensures err { IfErr result (λ e. (e.0 ≡ event) × (kept_in self.new ≡ kept_in self.old)) }
    {
        match event {
            Event::Take(request) => self.take(request),
            Event::DeliverUp => self.deliver_up(),
            Event::DeliverDown => self.deliver_down(),
            Event::Break => self.break_off(),
            Event::Reopen => self.reopen(),
            Event::LocalPublish { qos } => self.publish_local(qos),
            Event::Tick => self.tick(),
        }
    }

    /// The time of the present event, in milliseconds.
    fn time(&self) -> u64
        requires { self.now.events < 4000000000 }
        ensures { result ≡ 10 * self.now.events }
    {
        PACE * u64::from(self.events)
    }
}

/// The agent has one task, and opens its connection again as often as it breaks.
fn setup(alloc: Global) -> Result<Setup, NoMemory>
    ensures { IfOk result (λ setup. setup ≡ dev) }
{
    Ok(Setup {
        to: Text::from_str(alloc, "")?,
        client: Text::from_str(alloc, "dev")?,
        keep_alive: 60,
        reopen: 4_294_967_294,
        wipe: false,
        tasks: 1,
    })
}
