//! The table's rows for acknowledgements that arrive in Up, n their identifier.

ghost use Rattle.std.specs.Prelude.{◌≡◌, ◌++◌, ◌∷◌, [], ◌==◌, ◌&&◌, not, map, filter, find, length, true, false, Some, IfOk};
ghost use Rattle.std.specs.List.{list_any};
ghost use Rattle.agent_journal.specs.declared.setup.Phase.TheVariants.{Up};
ghost use Rattle.agent_journal.specs.declared.effect.Effect.TheVariants as f;
ghost use Rattle.agent_table.specs.Arrivals as table;
ghost use Rattle.agent_table.specs.Effects.{done};
ghost use Rattle.agent_table.specs.Routes.{asks_in};
ghost use Rattle.agent_table.specs.Rows.{to};
ghost use Rattle.agent_core.specs.Awaited.{awaits};
ghost use Rattle.agent_core.specs.Kept.{readings_in};

use super::Core;
use crate::awaited::{Awaited, awaits};
use crate::effects::one;
use crate::row::Row;
use agent_journal::{Effect, Outcome, Phase, Request};
use list_types::Copied;
use mqtt_packet::{Codes, Packet};
use pending_acks::Pending;
use std::alloc::AllocError;

impl<const ACKS: usize, const IN: usize, const ROUTES: usize> Core<ACKS, IN, ROUTES> {
    /// PUBACK n (MQTT 3.1.1, section 3.4) of an open QoS 1 publish.
    #[tactic(auto, unfolding(agent_table::specs::Arrivals::puback_row))]
    pub(super) fn puback(&self, id: u16) -> Result<Row, AllocError>
        ensures { IfOk result (λ row. table.puback_row (readings_in self.now) id ≡ Some row) }
    {
        self.completed(id, Awaited::PubAck, Outcome::Done)
    }

    /// PUBREC n (section 3.5) of an open QoS 2 publish, sent or released.
    #[tactic(auto, unfolding(agent_table::specs::Arrivals::pubrec_row))]
    pub(super) fn pubrec(&self, id: u16) -> Result<Row, AllocError>
        ensures { IfOk result (λ row. table.pubrec_row (readings_in self.now) id ≡ Some row) }
    {
        if self.awaits(id, Awaited::PubComp) {
            self.sends(Packet::PubRel { id })
        } else {
            Ok(self.still(Phase::Up))
        }
    }

    /// PUBCOMP n (section 3.7) of a released publish.
    #[tactic(auto, unfolding(agent_table::specs::Arrivals::pubcomp_row))]
    pub(super) fn pubcomp(&self, id: u16) -> Result<Row, AllocError>
        ensures { IfOk result (λ row. table.pubcomp_row (readings_in self.now) id ≡ Some row) }
    {
        if self.qos.is_released(id) {
            self.completed(id, Awaited::PubComp, Outcome::Done)
        } else {
            Ok(self.still(Phase::Up))
        }
    }

    /// SUBACK n (section 3.9), with as many codes as filters; with another number it is wrong.
    #[tactic(auto, unfolding(agent_table::specs::Arrivals::suback_row))]
    pub(super) fn suback(&self, id: u16, codes: &Codes) -> Result<Row, AllocError>
        requires { self.now.phase ≡ Up }
        ensures { IfOk result (λ row. table.suback_row self.now.setup (readings_in self.now) id codes.now ≡ Some row) }
    {
        if self.is_miscounted(id, codes.len()) {
            return self.ends();
        }
        let codes = codes.copy(self.alloc)?;
        self.completed(id, Awaited::SubAck, Outcome::Granted { codes })
    }

    /// UNSUBACK n (section 3.11).
    #[tactic(auto, unfolding(agent_table::specs::Arrivals::unsuback_row))]
    pub(super) fn unsuback(&self, id: u16) -> Result<Row, AllocError>
        ensures { IfOk result (λ row. table.unsuback_row (readings_in self.now) id ≡ Some row) }
    {
        self.completed(id, Awaited::UnsubAck, Outcome::Done)
    }

    /// A packet alone is sent.
    pub(super) fn sends(&self, packet: Packet) -> Result<Row, AllocError>
        ensures { IfOk result (λ row. to Up (f.Send packet ∷ []) ≡ Some row) }
    {
        Ok(Row {
            effects: one(self.alloc, Effect::Send { packet })?,
            phase: Phase::Up,
        })
    }

    /// The open command of the identifier is completed where it awaits this. There is at most one.

    fn completed(&self, id: u16, kind: Awaited, outcome: Outcome) -> Result<Row, AllocError>
        ensures { IfOk result (λ row. to Up (map (done outcome) (filter (λ command. awaits kind command.request) (table.at id self.now.pending))) ≡ Some row) }
    {
        match self.pending.find(id) {
            Some(command) => self.completed_by(command, kind, outcome),
            None => Ok(self.still(Phase::Up)),
        }
    }

    fn completed_by(
        &self,
        command: &Pending,
        kind: Awaited,
        outcome: Outcome,
    ) -> Result<Row, AllocError>
        ensures { IfOk result (λ row. to Up (map (done outcome) (filter (λ other. awaits kind other.request) (command.now ∷ []))) ≡ Some row) }
    {
        if !awaits(kind, &command.request) {
            return Ok(self.still(Phase::Up));
        }
        let done = Effect::Done {
            task: command.task,
            seq: command.seq,
            outcome,
        };
        Ok(Row {
            effects: one(self.alloc, done)?,
            phase: Phase::Up,
        })
    }

    /// Whether the open command of the identifier awaits this.

    fn awaits(&self, id: u16, kind: Awaited) -> bool
        ensures { result ≡ list_any (λ command. command.id == id && awaits kind command.request) self.now.pending }
    {
        match self.pending.find(id) {
            Some(command) => awaits(kind, &command.request),
            None => false,
        }
    }

    /// Whether an open subscribe or an open renewal of the identifier asks for another number of filters.
    #[tactic(auto, using(crate::proofs::Acknowledged::miscounted_is))]
    fn is_miscounted(&self, id: u16, count: usize) -> bool
        requires { self.now.phase ≡ Up }
        ensures { result ≡ list_any (λ asked. not (asked == count)) (table.awaited (readings_in self.now) id) }
    {
        self.subscribe_differs(id, count) || self.renewal_differs(id, count)
    }

    fn subscribe_differs(&self, id: u16, count: usize) -> bool
        ensures { result ≡ list_any (λ asked. not (asked == count)) (table.counts_of (filter (λ command. table.is_subscribe command.request) (table.at id self.now.pending))) }
    {
        match self.pending.find(id) {
            Some(command) => asks_others(&command.request, count),
            None => false,
        }
    }

    #[tactic(auto, using(crate::proofs::Acknowledged::renewed_some, crate::proofs::Acknowledged::renewed_none))]
    fn renewal_differs(&self, id: u16, count: usize) -> bool
        requires { self.now.phase ≡ Up }
        ensures { result ≡ list_any (λ asked. not (asked == count)) (table.renewal_counts (find (λ renewal. renewal.id == id) (readings_in self.now).renewals)) }
    {
        match self.subscriptions.renewal_len(id) {
            Some(asked) => asked != count,
            None => false,
        }
    }
}

/// Whether a request is a subscribe with another number of filters.
fn asks_others(request: &Request, count: usize) -> bool
    ensures { result ≡ (table.is_subscribe request.now && not (length (asks_in request.now) == count)) }
{
    match request {
        Request::Subscribe { asks } => asks.len() != count,
        _ => false,
    }
}
