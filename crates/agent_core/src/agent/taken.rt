//! The table's rows for requests that are taken. They stand in the table's order.

ghost use Rattle.std.specs.Prelude.{◌≡◌, ◌++◌, ◌∷◌, [], true, false, Some, is_some, IfOk, OnOk};
ghost use Rattle.agent_journal.specs.declared.setup.Phase.TheVariants.{Up, Off};
ghost use Rattle.agent_table.specs.Takes as table;
ghost use Rattle.std.specs.Prelude.{ℕ};
ghost use Rattle.agent_journal.specs.declared.request.Request.{Request as Asked};
ghost use Rattle.agent_journal.specs.declared.effect.Effect.TheVariants as f;
ghost use Rattle.mqtt_packet.specs.declared.packet.Packet.TheVariants as p;
ghost use Rattle.agent_table.specs.Effects.{fresh_id};
ghost use Rattle.agent_table.specs.Rows.{to};
ghost use Rattle.agent_journal.specs.Offs.{is_terminated};
ghost use Rattle.agent_core.specs.Kept.{readings_in};

use super::Core;
use crate::effects::{Ending, one, push_done, push_endings};
use crate::row::Row;
use agent_journal::{Effect, Effects, OffBy, Outcome, Phase, Request};
use list_types::{Blob, Copied, Seq, Text};
use mqtt_packet::{Ask, Packet, Qos};
use std::alloc::AllocError;

impl<const ACKS: usize, const IN: usize, const ROUTES: usize> Core<ACKS, IN, ROUTES> {
    /// Whether this request of a task may be taken now.
    #[tactic(auto, unfolding(agent_table::specs::Takes::take_row))]
    pub(super) fn may_take(&self, task: u32, seq: u32, request: &Request) -> bool
        ensures { result ≡ is_some (table.take_row self.now.setup self.now.sizes (readings_in self.now) task seq request.now) }
    {
        self.may_submit(task, seq, request) && self.takes_now()
    }

    #[tactic(auto, unfolding(agent_table::specs::Takes::may_take))]
    fn may_submit(&self, task: u32, seq: u32, request: &Request) -> bool
        ensures { result ≡ table.may_take self.now.setup (readings_in self.now) task seq request.now }
    {
        task < self.setup.tasks
            && !self.left[task as usize]
            && u64::from(seq) == self.takes[task as usize]
            && request.is_valid()
    }

    #[tactic(auto, using(crate::proofs::Takes::taken_in_up, crate::proofs::Takes::taken_in_off))]
    fn takes_now(&self) -> bool
        ensures { (task seq : ℕ) (request : Asked) → result ≡ is_some (table.take_in self.now.setup self.now.sizes (readings_in self.now) task seq request self.now.phase) }
    {
        matches!(self.phase, Phase::Up | Phase::Off)
    }

    /// Take, by a task that hasn't left.
    #[tactic(auto, using(crate::proofs::Takes::take_up_is, crate::proofs::Takes::take_off_is))]
    pub(super) fn took(&self, task: u32, seq: u32, request: &Request) -> Result<Row, AllocError>
        requires { is_some (table.take_row self.now.setup self.now.sizes (readings_in self.now) task seq request.now) ≡ true }
        ensures { IfOk result (λ row. table.take_row self.now.setup self.now.sizes (readings_in self.now) task seq request.now ≡ Some row) }
    {
        match self.phase {
            Phase::Up => self.took_up(task, seq, request),
            Phase::Down | Phase::Opening | Phase::Spilled | Phase::Off => {
                self.took_off(task, seq, request)
            }
        }
    }

    /// In Up.
    fn took_up(&self, task: u32, seq: u32, request: &Request) -> Result<Row, AllocError>
        requires { self.now.phase ≡ Up }
        ensures { IfOk result (λ row. table.up_row self.now.setup self.now.sizes (readings_in self.now) task seq request.now ≡ Some row) }
    {
        match request {
            Request::Publish {
                qos,
                topic,
                payload,
            } => self.published(task, seq, *qos, topic, payload),
            Request::Subscribe { asks } => self.subscribed(task, seq, asks),
            Request::Unsubscribe { filters } => self.unsubscribed(task, seq, filters),
            Request::Ping => self.pinged(task, seq),
            Request::Disconnect => self.disconnected(task, seq),
            Request::Terminate => self.disconnected(task, seq),
            Request::Leave => Ok(self.still(Phase::Up)),
        }
    }

    /// PUBLISH (MQTT 3.1.1, sections 3.3 and 4.3), DUP 0 and RETAIN 0.
    #[tactic(auto, unfolding(agent_table::specs::Takes::publish_row))]
    fn published(
        &self,
        task: u32,
        seq: u32,
        qos: Qos,
        topic: &Text,
        payload: &Blob,
    ) -> Result<Row, AllocError>
        requires { self.now.phase ≡ Up }
        ensures { IfOk result (λ row. table.publish_row self.now.sizes (readings_in self.now) task seq qos topic.now payload.now ≡ Some row) }
    {
        match qos {
            Qos::AtMostOnce => {
                let mut effects = self.send_publish(Qos::AtMostOnce, topic, 0, payload)?;
                push_done(&mut effects, task, seq, Outcome::Done)?;
                Ok(up(effects))
            }
            Qos::AtLeastOnce => self.delivered(task, seq, Qos::AtLeastOnce, topic, payload),
            Qos::ExactlyOnce => self.delivered(task, seq, Qos::ExactlyOnce, topic, payload),
        }
    }

    /// With an acknowledgement to come.
    fn delivered(
        &self,
        task: u32,
        seq: u32,
        qos: Qos,
        topic: &Text,
        payload: &Blob,
    ) -> Result<Row, AllocError>
        requires { self.now.phase ≡ Up }
        ensures { IfOk result (λ row. to Up (table.delivered self.now.sizes (readings_in self.now) task seq qos topic.now payload.now) ≡ Some row) }
    {
        if self.pending.is_full() {
            return self.at_once(task, seq, Outcome::NoRoom, Phase::Up);
        }
        Ok(up(self.send_publish(qos, topic, self.fresh_id(), payload)?))
    }

    fn send_publish(
        &self,
        qos: Qos,
        topic: &Text,
        id: u16,
        payload: &Blob,
    ) -> Result<Effects, AllocError>
        ensures { IfOk result (λ effects. effects ≡ f.Send (p.Publish false qos false topic.now id payload.now) ∷ []) }
    {
        let packet = Packet::Publish {
            dup: false,
            qos,
            retain: false,
            topic: topic.copy(self.alloc)?,
            id,
            payload: payload.copy(self.alloc)?,
        };
        one(self.alloc, Effect::Send { packet })
    }

    /// SUBSCRIBE (section 3.8).
    #[tactic(auto, using(crate::proofs::Takes::no_room, crate::proofs::Takes::no_route, crate::proofs::Takes::with_room))]
    fn subscribed(&self, task: u32, seq: u32, asks: &Seq<Ask>) -> Result<Row, AllocError>
        requires { self.now.phase ≡ Up }
        ensures { IfOk result (λ row. table.subscribe_row self.now.sizes (readings_in self.now) task seq asks.now ≡ Some row) }
    {
        if self.pending.is_full() {
            return self.at_once(task, seq, Outcome::NoRoom, Phase::Up);
        }
        if !self.subscriptions.has_room(task, asks) {
            return self.at_once(task, seq, Outcome::NoRoute, Phase::Up);
        }
        let packet = Packet::Subscribe {
            id: self.fresh_id(),
            asks: asks.copy(self.alloc)?,
        };
        Ok(up(one(self.alloc, Effect::Send { packet })?))
    }

    /// UNSUBSCRIBE (section 3.10) of the filters that no other task needs; where there is none it is done at
    /// once.
    #[tactic(auto, unfolding(agent_table::specs::Takes::unsubscribe_row))]
    fn unsubscribed(&self, task: u32, seq: u32, filters: &Seq<Text>) -> Result<Row, AllocError>
        requires { self.now.phase ≡ Up }
        ensures { IfOk result (λ row. table.unsubscribe_row self.now.sizes (readings_in self.now) task seq filters.now ≡ Some row) }
    {
        let own = self.own_filters(task, filters)?;
        if own.is_empty() {
            return self.at_once(task, seq, Outcome::Done, Phase::Up);
        }
        if self.pending.is_full() {
            return self.at_once(task, seq, Outcome::NoRoom, Phase::Up);
        }
        let packet = Packet::Unsubscribe {
            id: self.fresh_id(),
            filters: own,
        };
        Ok(up(one(self.alloc, Effect::Send { packet })?))
    }

    /// The filters that no other task has a route for, in their order.
    fn own_filters(&self, task: u32, filters: &Seq<Text>) -> Result<Seq<Text>, AllocError>
        requires { self.now.phase ≡ Up }
        ensures { IfOk result (λ own. own ≡ table.own_filters (readings_in self.now) task filters.now) }
    {
        let mut own = Seq::new(self.alloc);
        for k in 0..filters.len() {
            if let Some(filter) = filters.get(k) {
                if !self.other_has(task, filter) {
                    own.push(filter.copy(self.alloc)?)?;
                }
            }
        }
        Ok(own)
    }

    /// Whether another task has a route of this filter.
    fn other_has(&self, task: u32, filter: &Text) -> bool
        requires { self.now.phase ≡ Up }
        ensures { result ≡ table.other_has (readings_in self.now) task filter.now }
    {
        self.subscriptions.other_has(task, filter)
    }

    /// PINGREQ (section 3.12).
    fn pinged(&self, task: u32, seq: u32) -> Result<Row, AllocError>
        ensures { IfOk result (λ row. table.ping_row task seq ≡ Some row) }
    {
        let mut effects = one(
            self.alloc,
            Effect::Send {
                packet: Packet::PingReq,
            },
        )?;
        push_done(&mut effects, task, seq, Outcome::Done)?;
        Ok(up(effects))
    }

    /// DISCONNECT (section 3.14), by Disconnect and by Terminate: the agent ends.
    #[tactic(auto, using(crate::proofs::Endings::cancelled), unfolding(agent_table::specs::Takes::disconnect_row))]
    fn disconnected(&self, task: u32, seq: u32) -> Result<Row, AllocError>
        ensures { IfOk result (λ row. table.disconnect_row self.now.setup (readings_in self.now) task seq ≡ Some row) }
    {
        let mut effects = Effects::new(self.alloc);
        push_endings(&mut effects, &self.pending, Ending::Cancelled)?;
        effects.push(Effect::Send {
            packet: Packet::Disconnect,
        })?;
        push_done(&mut effects, task, seq, Outcome::Done)?;
        self.push_close(&mut effects)?;
        Ok(Row {
            effects,
            phase: Phase::Off,
        })
    }

    /// In Off nothing is done any more, and Terminate was done.
    fn took_off(&self, task: u32, seq: u32, request: &Request) -> Result<Row, AllocError>
        ensures { IfOk result (λ row. table.off_row (readings_in self.now) task seq request.now ≡ Some row) }
    {
        match request {
            Request::Terminate => self.at_once(task, seq, Outcome::Done, Phase::Off),
            Request::Leave => Ok(self.still(Phase::Off)),
            _ => self.at_once(task, seq, self.refusal(), Phase::Off),
        }
    }

    fn refusal(&self) -> Outcome
        ensures { result ≡ table.refusal (readings_in self.now) }
    {
        if is_terminated(self.off) {
            Outcome::Cancelled
        } else {
            Outcome::NotConnected
        }
    }

    /// Completed at once, with nothing sent.
    fn at_once(
        &self,
        task: u32,
        seq: u32,
        outcome: Outcome,
        phase: Phase,
    ) -> Result<Row, AllocError>
        ensures { IfOk result (λ row. row ≡ record { effects = table.at_once task seq outcome; phase = phase }) }
    {
        let effects = one(self.alloc, Effect::Done { task, seq, outcome })?;
        Ok(Row { effects, phase })
    }

    /// The next identifier.
    fn fresh_id(&self) -> u16
        requires { self.now.phase ≡ Up }
        ensures { result ≡ fresh_id (readings_in self.now) }
    {
        self.fresh(self.last_drawn, &[])
    }
}

fn up(effects: Effects) -> Row
    ensures { result ≡ record { effects = effects; phase = Up } }
{
    Row {
        effects,
        phase: Phase::Up,
    }
}

/// Whether the agent was ended by Terminate.
fn is_terminated(off: Option<OffBy>) -> bool
    ensures { result ≡ is_terminated off }
{
    matches!(off, Some(OffBy::Terminate))
}
