//! The broker.

ghost use Rattle.std.specs.Prelude.{◌↔◌, IsTrue, false, ◌≡◌, ◌≤◌, [], ◌∷◌, List, true, length, slice_get, IfOk, IfErr, OnOk, OnErr};
ghost use Rattle.std.specs.List.{AllByRecursion};
ghost use Rattle.std.specs.Option.{option_copied};
ghost use Rattle.mqtt_packet.specs.Spelling.{is_sound};
ghost use Rattle.topic_filter.specs.Texts.{is_name};
ghost use Rattle.broker_core.specs.declared.link.Link.TheVariants as links;
ghost use Rattle.broker_core.specs.Kept as spec;
ghost use Rattle.broker_core.specs.Laws.{IsSound};
ghost use Rattle.broker_core.specs.Past.{IsThere, StandsFor, Event, Begins, Ends, Comes, Publishes, kept_of, reply};
ghost use Rattle.broker_core.specs.Rules as rules;

use crate::answers;
use crate::link::{Link, end};
use crate::replies::Replies;
use crate::session::Session;
use list_types::{Blob, Copied, Text};
use mqtt_packet::{NoMemory, Packet, Qos};
use std::alloc::Global;
use std::marker::Model;

/// A broker for one connection at a time, which keeps the sessions of the others. It stands for each list of events behind
/// which it keeps this.
#[derive(Debug, Drop)]
pub struct Broker {
    alloc: Global,
    link: Link,
    others: Vec<Session>,
    passed: Vec<Packet>,
}

impl Model for Broker {
    ghost use Rattle.std.specs.Prelude.{◌+◌, ◌≤◌, length};
    ghost use Rattle.std.specs.Vec.{vec_len, vec_capacity};
    ghost use Rattle.broker_core.specs.Kept.{Kept, keeps, kept_by};

    ghost Value = { Kept };

    ghost view = { λ b. keeps b.link b.others.items b.passed.items };

    ghost invariant = { λ b. vec_len b.others + length (kept_by b.link) ≤ vec_capacity b.others };
}

impl Broker {
    /// A broker without sessions. It takes no memory yet.
    #[tactic(auto, using(crate::proofs::Standing::begins_standing))]
    pub fn new(alloc: Global) -> Self
        ensures nothing { result ≡ spec.nothing }
        ensures stands { StandsFor result [] }
    {
        Broker {
            alloc,
            link: Link::Gone,
            others: Vec::new(alloc),
            passed: Vec::new(alloc),
        }
    }

    /// A connection begins, where there is none. It takes no memory.
    #[tactic(auto, using(crate::proofs::Standing::open_stands))]
    pub fn open(&mut self)
        requires { self.old.link ≡ links.Gone }
        ensures opened { self.new ≡ rules.with_link links.Opened self.old }
        ensures stands { (past : List Event) → StandsFor self.old past → StandsFor self.new (Begins ∷ past) }
    {
        self.link = Link::Opened;
    }

    /// Whether there is a connection.
    pub fn is_open(&self) -> bool
        ensures { IsTrue result ↔ IsThere self.now.link }
    {
        match self.link {
            Link::Gone => false,
            Link::Opened => true,
            Link::Accepted { .. } => true,
        }
    }

    /// The connection ends, and with it a session of clean session 1. Nothing changes where there is none. It takes no memory.
    #[tactic(auto, using(crate::proofs::Standing::broke_stands))]
    pub fn broke(&mut self)
        ensures ended { self.new ≡ spec.ended self.old }
        ensures stands { (past : List Event) → StandsFor self.old past → StandsFor self.new (Ends ∷ past) }
    {
        end(&mut self.link, &mut self.others);
    }

    /// Answers a packet that came on the connection. Where memory runs out the packet comes back, and nothing has changed.
    #[tactic(auto, using(crate::proofs::Standing::came_past, crate::proofs::Standing::came_stands))]
    pub fn step(&mut self, packet: Packet) -> Result<Replies, (Packet, NoMemory)>
        requires there { IsThere self.old.link }
        requires sound { is_sound packet ≡ true }
        ensures ok { IfOk result (λ r. rules.answer self.old packet ≡ record { packets = r.packets; close = r.close; kept = self.new }) }
        ensures closed { IfOk result (λ r. r.close ≡ true → self.new.link ≡ links.Gone) }
        ensures there { IfOk result (λ r. r.close ≡ false → IsThere self.new.link) }
        ensures sound { IfOk result (λ r. (past : List Event) → StandsFor self.old past → AllByRecursion IsSound r.packets) }
        ensures past { IfOk result (λ r. (past : List Event) → StandsFor self.old past → reply past (Comes packet) ≡ record { packets = r.packets; close = r.close; kept = self.new }) }
        ensures stands { OnOk result ((past : List Event) → StandsFor self.old past → StandsFor self.new (Comes packet ∷ past)) }
        ensures err { IfErr result (λ e. (e.0 ≡ packet) × (self.new ≡ self.old)) }
    {
        self.answer(packet)
    }

    /// Passes a message of the broker's own on: to each session with a fitting subscription, and at once where one has the
    /// connection. The payload has at most 131,072 bytes. Where memory runs out, nothing has changed.
    #[tactic(auto, using(crate::proofs::Standing::own_past, crate::proofs::Standing::own_stands))]
    pub fn publish_local(
        &mut self,
        topic: &Text,
        qos: Qos,
        payload: &Blob,
    ) -> Result<Replies, NoMemory>
        requires name { is_name topic.now ≡ true }
        requires size { length payload.now ≤ 131072 }
        ensures ok { IfOk result (λ r. rules.answer_own self.old qos topic.now payload.now ≡ record { packets = r.packets; close = r.close; kept = self.new }) }
        ensures there { OnOk result (IsThere self.old.link → IsThere self.new.link) }
        ensures sound { IfOk result (λ r. (past : List Event) → StandsFor self.old past → AllByRecursion IsSound r.packets) }
        ensures past { IfOk result (λ r. (past : List Event) → StandsFor self.old past → reply past (Publishes qos topic.now payload.now) ≡ record { packets = r.packets; close = r.close; kept = self.new }) }
        ensures stands { OnOk result ((past : List Event) → StandsFor self.old past → StandsFor self.new (Publishes qos topic.now payload.now ∷ past)) }
        ensures err { OnErr result (self.new ≡ self.old) }
    {
        // A topic is UTF-8.
        topic.as_bytes();
        self.pass_own(topic, qos, payload)
    }

    /// How many messages were passed on.
    #[tactic(auto, using(crate::proofs::Standing::count_past))]
    pub fn passed_len(&self) -> usize
        ensures now { result ≡ length self.now.passed }
        ensures past { (past : List Event) → StandsFor self.now past → result ≡ length (kept_of past).passed }
    {
        self.passed.len()
    }

    /// The message that was passed on at place `k`, counted from 0 in their order, as the PUBLISH that brought it.
    #[tactic(auto, using(crate::proofs::Standing::message_past))]
    pub fn passed(&self, k: usize) -> Option<&Packet>
        ensures now { option_copied result ≡ slice_get self.now.passed k }
        ensures past { (past : List Event) → StandsFor self.now past → option_copied result ≡ slice_get (kept_of past).passed k }
    {
        self.passed.get(k)
    }

    fn answer(&mut self, packet: Packet) -> Result<Replies, (Packet, NoMemory)>
        requires { IsThere self.old.link }
        ensures ok { IfOk result (λ r. rules.answer self.old packet ≡ record { packets = r.packets; close = r.close; kept = self.new }) }
        ensures closed { IfOk result (λ r. r.close ≡ true → self.new.link ≡ links.Gone) }
        ensures there { IfOk result (λ r. r.close ≡ false → IsThere self.new.link) }
        ensures err { IfErr result (λ e. (e.0 ≡ packet) × (self.new ≡ self.old)) }
    {
        // Room for the packet, if it is a message that is passed on.
        if let Err(e) = self.passed.reserve(1) {
            return Err((packet, e));
        }
        let passed = self.passed.as_slice();
        match answers::answer(
            self.alloc,
            &mut self.link,
            &mut self.others,
            passed,
            &packet,
        ) {
            Ok(answered) => {
                if answered.passes {
                    self.passed.push_reserved(packet);
                }
                if answered.replies.close {
                    end(&mut self.link, &mut self.others);
                }
                Ok(answered.replies)
            }
            Err(e) => Err((packet, e)),
        }
    }

    fn pass_own(&mut self, topic: &Text, qos: Qos, payload: &Blob) -> Result<Replies, NoMemory>
        ensures ok { IfOk result (λ r. rules.answer_own self.old qos topic.now payload.now ≡ record { packets = r.packets; close = r.close; kept = self.new }) }
        ensures there { OnOk result (IsThere self.old.link → IsThere self.new.link) }
        ensures err { OnErr result (self.new ≡ self.old) }
    {
        let message = Packet::Publish {
            dup: false,
            qos,
            retain: false,
            topic: topic.copy(self.alloc)?,
            id: 0,
            payload: payload.copy(self.alloc)?,
        };
        self.passed.reserve(1)?;
        let replies = answers::pass_own(
            self.alloc,
            &mut self.link,
            self.others.as_mut_slice(),
            self.passed.as_slice(),
            &message,
            qos,
            topic,
        )?;
        self.passed.push_reserved(message);
        Ok(replies)
    }
}
