//! The stages of all publishes, as rows of a table.

ghost use Rattle.std.specs.Prelude.{◌≡◌, ◌≢◌, ◌<◌, ◌≤◌, ◌==◌, length, slice_get, true, None, IfOk};
ghost use Rattle.mqtt_packet.specs.declared.qos.Qos.TheVariants.{AtMostOnce};
ghost use Rattle.qos_state.specs.Deliveries as d;

use crate::answers::{AckAnswer, AckKind, Received, Stage};
use mqtt_packet::Qos;
use ordered_cells::KeyedCells;
use std::alloc::{AllocError, Global};
use std::marker::Model;

/// Where the publishes stand. Contracts see the identifiers that await PUBACK, PUBREC, PUBCOMP and
/// PUBREL, as the lists of `Deliveries`. At most ACKS are open and at most IN are held, each 1 to 1,024.
/// Only `new` takes memory.
///
/// An identifier is looked for in one cell of each list, and besides in those alone whose identifiers
/// aren't at home there (`KeyedCells`).
#[derive(Debug, Drop)]
pub struct QosState<const ACKS: usize, const IN: usize> {
    at_least_once: KeyedCells<u16, ACKS>,
    exactly_once: KeyedCells<u16, ACKS>,
    released: KeyedCells<u16, ACKS>,
    held: KeyedCells<u16, IN>,
}

impl<const ACKS: usize, const IN: usize> Model for QosState<ACKS, IN> {
    ghost use Rattle.std.specs.Prelude.{◌≤◌, ◌+◌, length};
    ghost use Rattle.qos_state.specs.Deliveries.{Deliveries};
    ghost use Rattle.qos_state.specs.Apart.{AreApart};

    ghost Value = { Deliveries };

    ghost view = { λ q. record {
      at_least_once = q.at_least_once;
      exactly_once = q.exactly_once;
      released = q.released;
      held = q.held;
    } };

    ghost invariant = { λ q. (length q.at_least_once + length q.exactly_once + length q.released ≤ ACKS) × AreApart q.exactly_once q.released };
}

impl<const ACKS: usize, const IN: usize> QosState<ACKS, IN> {
    /// Nothing is open, and nothing is held. `Err` where memory runs out.
    pub fn new(alloc: Global) -> Result<Self, AllocError>
        requires sizes { (0 < ACKS) × (ACKS ≤ 1024) × (0 < IN) × (IN ≤ 1024) }
        ensures { IfOk result (λ state. state ≡ d.nothing) }
    {
        Ok(QosState {
            at_least_once: KeyedCells::new(alloc)?,
            exactly_once: KeyedCells::new(alloc)?,
            released: KeyedCells::new(alloc)?,
            held: KeyedCells::new(alloc)?,
        })
    }

    /// How many publishes are open: sent and not complete. They are at most ACKS.
    pub fn len(&self) -> usize
        ensures count { result ≡ d.open_count self.now }
        ensures most { result ≤ ACKS }
    {
        self.at_least_once.len() + self.exactly_once.len() + self.released.len()
    }

    pub fn is_empty(&self) -> bool
        ensures { result ≡ (d.open_count self.now == 0) }
    {
        self.len() == 0
    }

    /// A publish was sent for the first time.
    pub fn start(&mut self, id: u16, qos: Qos)
        requires fresh { d.stage_of self.old id ≡ None }
        requires acknowledged { qos ≢ AtMostOnce }
        requires room { d.open_count self.old < ACKS }
        ensures { self.new ≡ d.started id qos self.old }
    {
        match qos {
            Qos::AtMostOnce => {}
            Qos::AtLeastOnce => self.at_least_once.push(id),
            Qos::ExactlyOnce => self.exactly_once.push(id),
        }
    }

    /// How far the open publish of an identifier came. `None` where there is no such publish.
    pub fn stage_of(&self, id: u16) -> Option<Stage>
        ensures { result ≡ d.stage_of self.now id }
    {
        if self.at_least_once.has(id) {
            Some(Stage::Sent1)
        } else if self.exactly_once.has(id) {
            Some(Stage::Sent2)
        } else if self.released.has(id) {
            Some(Stage::Released)
        } else {
            None
        }
    }

    /// An acknowledgement came.
    pub fn on_ack(&mut self, kind: AckKind, id: u16) -> AckAnswer
        ensures answer { result ≡ d.answer kind (d.stage_of self.old id) }
        ensures stages { self.new ≡ d.acknowledged kind id (d.stage_of self.old id) self.old }
    {
        match (kind, self.stage_of(id)) {
            (AckKind::PubAck, Some(Stage::Sent1)) | (AckKind::PubComp, Some(Stage::Released)) => {
                self.drop_id(id);
                AckAnswer::Finished
            }
            (AckKind::PubRec, Some(Stage::Sent2)) => {
                self.release(id);
                AckAnswer::Release
            }
            (AckKind::PubRec, Some(Stage::Released)) => AckAnswer::Release,
            _ => AckAnswer::Passed,
        }
    }

    /// The open publish of this identifier ended in another way, or there is none.
    pub fn drop_id(&mut self, id: u16)
        ensures { self.new ≡ d.freed id self.old }
    {
        self.at_least_once.take(id);
        self.exactly_once.take(id);
        self.released.take(id);
    }

    /// The released identifier at place `k`, counted from 0 in the order of their first PUBRECs.
    pub fn released(&self, k: usize) -> Option<u16>
        ensures { result ≡ slice_get self.now.released k }
    {
        self.released.get(k).copied()
    }

    /// How many publishes are released. They are at most ACKS.
    pub fn released_len(&self) -> usize
        ensures count { result ≡ length self.now.released }
        ensures most { result ≤ ACKS }
    {
        self.released.len()
    }

    /// Whether the publish of an identifier is released.
    pub fn is_released(&self, id: u16) -> bool
        ensures { result ≡ d.is_among self.now.released id }
    {
        self.released.has(id)
    }

    /// The held identifier at place `k`, counted from 0 in the order in which they came.
    pub fn held(&self, k: usize) -> Option<u16>
        ensures { result ≡ slice_get self.now.held k }
    {
        self.held.get(k).copied()
    }

    /// How many identifiers are held. They are at most IN.
    pub fn held_len(&self) -> usize
        ensures count { result ≡ length self.now.held }
        ensures most { result ≤ IN }
    {
        self.held.len()
    }

    /// A QoS 2 publish came with this identifier.
    pub fn on_publish(&mut self, id: u16) -> Received
        ensures answer { result ≡ d.arrival IN self.old id }
        ensures held { self.new ≡ d.received (d.arrival IN self.old id) id self.old }
    {
        let answer = self.arrival(id);
        if answer == Received::New {
            self.held.push(id);
        }
        answer
    }

    /// What `on_publish` would answer.
    pub fn arrival(&self, id: u16) -> Received
        ensures { result ≡ d.arrival IN self.now id }
    {
        if self.held.has(id) {
            Received::Repeat
        } else if self.held.is_full() {
            Received::Full
        } else {
            Received::New
        }
    }

    /// A PUBREL came: the identifier is held no more.
    pub fn on_release(&mut self, id: u16)
        ensures { self.new ≡ d.unheld id self.old }
    {
        self.held.take(id);
    }

    /// The session was lost: nothing is held. Open publishes end one by one.
    pub fn forget_held(&mut self)
        ensures { self.new ≡ d.none_held self.old }
    {
        self.held.clear();
    }

    /// Nothing is open, and nothing is held.
    pub fn forget(&mut self)
        ensures { self.new ≡ d.nothing }
    {
        self.at_least_once.clear();
        self.exactly_once.clear();
        self.released.clear();
        self.forget_held();
    }

    /// The first PUBREC of a publish came.
    fn release(&mut self, id: u16)
        requires sent { d.is_among self.old.exactly_once id ≡ true }
        ensures { self.new ≡ d.released_last id self.old }
    {
        self.exactly_once.take(id);
        self.released.push(id);
    }
}
