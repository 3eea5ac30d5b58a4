//! The table's rows for messages that arrive in Up (MQTT 3.1.1, sections 3.3 and 4.3).

ghost use Rattle.std.specs.Prelude.{◌≡◌, ◌<◌, ◌++◌, ◌∷◌, [], ℕ, true, Some, None, IfOk, OnOk, IfSome, MatchOption};
ghost use Rattle.agent_journal.specs.declared.setup.Phase.TheVariants.{Up};
ghost use Rattle.agent_table.specs.Arrivals as table;
ghost use Rattle.agent_table.specs.Effects.{pass, is_reached};
ghost use Rattle.agent_journal.specs.declared.effect.Effect.TheVariants as f;
ghost use Rattle.topic_filter.specs.Texts.{is_name};
ghost use Rattle.agent_core.specs.Kept.{readings_in};
ghost use Rattle.agent_core.specs.Reached.{IsNextReached};

use super::Core;
use crate::row::Row;
use agent_journal::{Effect, Effects, Message, Phase};
use list_types::{Blob, Copied, Text};
use mqtt_packet::{Packet, Qos};
use qos_state::Received;
use std::alloc::AllocError;
use topic_filter::is_name;

impl<const ACKS: usize, const IN: usize, const ROUTES: usize> Core<ACKS, IN, ROUTES> {
    /// PUBLISH (section 3.3). One whose topic isn't a name is wrong.
    #[tactic(auto, unfolding(agent_table::specs::Arrivals::publish_row))]
    pub(super) fn message(
        &self,
        qos: Qos,
        topic: &Text,
        id: u16,
        payload: &Blob,
    ) -> Result<Row, AllocError>
        requires { self.now.phase ≡ Up }
        ensures { IfOk result (λ row. table.publish_row self.now.setup self.now.sizes (readings_in self.now) qos topic.now id payload.now ≡ Some row) }
    {
        if !is_name(topic.as_str()) {
            return self.ends();
        }
        match qos {
            Qos::AtMostOnce => self.passed(Qos::AtMostOnce, topic, payload),
            Qos::AtLeastOnce => {
                self.passed_and_sent(Qos::AtLeastOnce, topic, payload, Packet::PubAck { id })
            }
            Qos::ExactlyOnce => self.received(topic, id, payload),
        }
    }

    /// QoS 2 (section 4.3.3): a held identifier is answered again and not passed; without room the phase
    /// is Spilled.
    fn received(&self, topic: &Text, id: u16, payload: &Blob) -> Result<Row, AllocError>
        requires up { self.now.phase ≡ Up }
        requires name { is_name topic.now ≡ true }
        ensures { IfOk result (λ row. table.received_row self.now.setup self.now.sizes (readings_in self.now) topic.now id payload.now ≡ Some row) }
    {
        match self.qos.arrival(id) {
            Received::Repeat => self.sends(Packet::PubRec { id }),
            Received::New => {
                self.passed_and_sent(Qos::ExactlyOnce, topic, payload, Packet::PubRec { id })
            }
            Received::Full => Ok(self.still(Phase::Spilled)),
        }
    }

    fn passed(&self, qos: Qos, topic: &Text, payload: &Blob) -> Result<Row, AllocError>
        requires up { self.now.phase ≡ Up }
        requires name { is_name topic.now ≡ true }
        ensures { IfOk result (λ row. row ≡ record { effects = pass self.now.setup (readings_in self.now) qos topic.now payload.now; phase = Up }) }
    {
        let mut effects = Effects::new(self.alloc);
        self.push_passed(&mut effects, qos, topic, payload)?;
        Ok(Row {
            effects,
            phase: Phase::Up,
        })
    }

    fn passed_and_sent(
        &self,
        qos: Qos,
        topic: &Text,
        payload: &Blob,
        packet: Packet,
    ) -> Result<Row, AllocError>
        requires up { self.now.phase ≡ Up }
        requires name { is_name topic.now ≡ true }
        ensures { IfOk result (λ row. row ≡ record { effects = pass self.now.setup (readings_in self.now) qos topic.now payload.now ++ f.Send packet ∷ []; phase = Up }) }
    {
        let mut row = self.passed(qos, topic, payload)?;
        row.effects.push(Effect::Send { packet })?;
        Ok(row)
    }

    /// Adds a Pass to each task that has a route that fits, in increasing order.

    fn push_passed(
        &self,
        effects: &mut Effects,
        qos: Qos,
        topic: &Text,
        payload: &Blob,
    ) -> Result<(), AllocError>
        requires up { self.now.phase ≡ Up }
        requires name { is_name topic.now ≡ true }
        ensures { OnOk result (effects.new ≡ effects.old ++ pass self.now.setup (readings_in self.now) qos topic.now payload.now) }
    {
        let mut from = 0;
        while let Some(task) = self.next_reached(topic, from) {
            let message = Message {
                topic: topic.copy(self.alloc)?,
                qos,
                payload: payload.copy(self.alloc)?,
            };
            effects.push(Effect::Pass { task, message })?;
            from = task + 1;
        }
        Ok(())
    }

    /// The least task not below `from` that there is and that has a route that fits.
    fn next_reached(&self, topic: &Text, from: u32) -> Option<u32>
        requires up { self.now.phase ≡ Up }
        requires name { is_name topic.now ≡ true }
        ensures most { IfSome result (λ task. task < 4294967295) }
        ensures next { IsNextReached (is_reached (readings_in self.now) topic.now) self.now.setup.tasks from result }
    {
        let task = self.subscriptions.next_match(topic.as_str(), from)?;
        if task < self.setup.tasks {
            Some(task)
        } else {
            None
        }
    }
}
