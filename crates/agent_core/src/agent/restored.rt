//! What a saved session is written from, and put back into a new agent. None of these calls takes memory.

ghost use Rattle.std.specs.Prelude.{◌≡◌, ◌<◌, ◌≤◌, ◌+◌, ◌++◌, ◌∷◌, [], length, map, true, false, slice_set};
ghost use Rattle.std.specs.List.{list_any};
ghost use Rattle.agent_core.specs.Kept.{most_accepted};
ghost use Rattle.agent_table.specs.Deliveries.{is_among, is_open_publish, is_exactly_once};
ghost use Rattle.agent_table.specs.Routes.{has_route};
ghost use Rattle.pending_acks.specs.Commands.{has_id};
ghost use Rattle.subscriptions.specs.Routing.{route_of};
ghost use Rattle.topic_filter.specs.Texts.{is_filter};

use super::Core;
use crate::opened::{hold_again, open, release};
use agent_journal::{OffBy, Phase};
use pending_acks::Pending;
use qos_state::QosState;
use subscriptions::{Granted, Subscriptions};

/// Where an agent stands, beside its tasks, commands, identifiers and routes.
#[derive(Clone, Copy, Debug, PartialEq, Eq)]
pub struct Situation {
    pub phase: Phase,
    /// How the agent came to Off.
    pub off: Option<OffBy>,
    /// When the newest entry was, in milliseconds, and whether it sends.
    pub last_time: u64,
    pub just_sent: bool,
    /// How many connections or openings broke since the last accepted CONNACK: at most `reopen` + 2.
    pub breaks: u64,
    /// How many CONNACKs accepted: at most 2 where an old session is to be wiped, and else 1.
    pub accepted: u64,
    /// The identifier that was drawn last, 0 before the first.
    pub last_drawn: u16,
}

impl<const ACKS: usize, const IN: usize, const ROUTES: usize> Core<ACKS, IN, ROUTES> {
    /// Where the agent stands.
    pub fn situation(&self) -> Situation
        ensures { result ≡ record { phase = self.now.phase; off = self.now.off; last_time = self.now.last_time; just_sent = self.now.just_sent; breaks = self.now.breaks; accepted = self.now.accepted; last_drawn = self.now.last_drawn } }
    {
        Situation {
            phase: self.phase,
            off: self.off,
            last_time: self.last_time,
            just_sent: self.just_sent,
            breaks: self.breaks,
            accepted: self.accepted,
            last_drawn: self.last_drawn,
        }
    }

    /// Where its publishes stand.
    pub fn qos(&self) -> &QosState<ACKS, IN>
        ensures released { result.now.released ≡ self.now.released }
        ensures held { result.now.held ≡ self.now.held }
    {
        &self.qos
    }

    /// Its routes.
    pub fn subscriptions(&self) -> &Subscriptions<ROUTES>
        ensures { result.now ≡ self.now.routing }
    {
        &self.subscriptions
    }

    /// Puts the agent where one stood. There is no open ping then, and nothing was sent on a connection.
    pub fn put_situation(&mut self, situation: Situation)
        requires breaks { situation.breaks ≤ self.old.setup.reopen + 2 }
        requires accepted { situation.accepted ≤ most_accepted self.old.setup }
        ensures { self.new ≡ record self.old { phase = situation.phase; off = situation.off; last_time = situation.last_time; just_sent = situation.just_sent; breaks = situation.breaks; accepted = situation.accepted; last_drawn = situation.last_drawn } }
    {
        self.phase = situation.phase;
        self.off = situation.off;
        self.last_time = situation.last_time;
        self.just_sent = situation.just_sent;
        self.breaks = situation.breaks;
        self.accepted = situation.accepted;
        self.last_drawn = situation.last_drawn;
    }

    /// Notes how many requests of a task were taken, and whether it left.
    pub fn put_task(&mut self, task: u32, taken: u64, left: bool)
        requires task { task < self.old.setup.tasks }
        ensures { self.new ≡ record self.old { takes = slice_set self.old.takes task taken; left = slice_set self.old.left task left } }
    {
        self.takes[task as usize] = taken;
        self.left[task as usize] = left;
    }

    /// Adds an open command behind all others. A publish of it is sent and not released.
    pub fn put_command(&mut self, command: Pending)
        requires room { length self.old.pending < ACKS }
        requires fresh { list_any (has_id command.id) self.old.pending ≡ false }
        ensures { self.new ≡ record self.old { pending = self.old.pending ++ command ∷ [] } }
    {
        open(&mut self.pending, &mut self.qos, command);
    }

    /// Releases an open publish at QoS 2, behind those that are released.
    pub fn put_released(&mut self, id: u16)
        requires open { is_open_publish is_exactly_once self.old.pending id ≡ true }
        requires fresh { is_among self.old.released id ≡ false }
        ensures { self.new ≡ record self.old { released = self.old.released ++ id ∷ [] } }
    {
        release(&self.pending, &mut self.qos, id);
    }

    /// Holds an identifier, behind those that are held.
    pub fn put_held(&mut self, id: u16)
        requires room { length self.old.held < IN }
        requires fresh { is_among self.old.held id ≡ false }
        ensures { self.new ≡ record self.old { held = self.old.held ++ id ∷ [] } }
    {
        hold_again(&mut self.qos, id);
    }

    /// Adds a granted route behind all others, while no subscribe is open.
    pub fn put_route(&mut self, route: Granted)
        requires filter { is_filter route.topics ≡ true }
        requires none_asked { self.old.routing.asked ≡ [] }
        requires room { length self.old.routing.granted < ROUTES }
        requires fresh { has_route (map route_of self.old.routing.granted) (route_of route) ≡ false }
        ensures { self.new ≡ record self.old { routing = record self.old.routing { granted = self.old.routing.granted ++ route ∷ [] } } }
    {
        self.subscriptions.add_granted(route);
    }
}
