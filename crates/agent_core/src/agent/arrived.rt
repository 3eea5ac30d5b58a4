//! The table's rows for packets that arrive. They stand in the table's order.

ghost use Rattle.std.specs.Prelude.{◌≡◌, ◌++◌, ◌∷◌, [], ℕ, true, false, Some, is_some, IfOk, OnOk};
ghost use Rattle.agent_journal.specs.declared.setup.Phase.TheVariants.{Opening, Up};
ghost use Rattle.agent_table.specs.Arrivals as table;
ghost use Rattle.agent_table.specs.Rows.{to, ends};
ghost use Rattle.mqtt_packet.specs.declared.packet.Packet.{Packet as Wire};
ghost use Rattle.agent_core.specs.Kept.{readings_in};

use super::Core;
use crate::row::Row;
use agent_journal::Phase;
use mqtt_packet::Packet;
use std::alloc::AllocError;

impl<const ACKS: usize, const IN: usize, const ROUTES: usize> Core<ACKS, IN, ROUTES> {
    /// Whether this packet may arrive now.
    #[tactic(auto, unfolding(agent_table::specs::Arrivals::arrived_row))]
    pub(super) fn may_arrive(&self, packet: &Packet) -> bool
        ensures { result ≡ is_some (table.arrived_row self.now.setup self.now.sizes (readings_in self.now) packet.now) }
    {
        packet.is_sound() && self.hears()
    }

    #[tactic(auto, using(crate::proofs::Arrivals::heard_in_opening, crate::proofs::Arrivals::heard_in_up))]
    fn hears(&self) -> bool
        ensures { (packet : Wire) → result ≡ is_some (table.arrived_in self.now.setup self.now.sizes (readings_in self.now) packet self.now.phase) }
    {
        matches!(self.phase, Phase::Opening | Phase::Up)
    }

    /// Arrived.
    #[tactic(auto, using(crate::proofs::Arrivals::arrived_up_is, crate::proofs::Arrivals::arrived_opening_is, crate::proofs::Arrivals::in_opening))]
    pub(super) fn arrived(&self, packet: &Packet) -> Result<Row, AllocError>
        requires { is_some (table.arrived_row self.now.setup self.now.sizes (readings_in self.now) packet.now) ≡ true }
        ensures { IfOk result (λ row. table.arrived_row self.now.setup self.now.sizes (readings_in self.now) packet.now ≡ Some row) }
    {
        match self.phase {
            Phase::Up => self.arrived_up(packet),
            Phase::Down | Phase::Opening | Phase::Spilled | Phase::Off => {
                self.arrived_first(packet)
            }
        }
    }

    /// In Opening: CONNACK is the first packet that a server sends (MQTT 3.1.1, section 3.2).
    fn arrived_first(&self, packet: &Packet) -> Result<Row, AllocError>
        requires { self.now.phase ≡ Opening }
        ensures { IfOk result (λ row. table.opening_row self.now.setup (readings_in self.now) packet.now ≡ Some row) }
    {
        match packet {
            Packet::ConnAck { present, code } => self.answered(*present, *code),
            _ => self.ends(),
        }
    }

    /// In Up.
    fn arrived_up(&self, packet: &Packet) -> Result<Row, AllocError>
        requires { self.now.phase ≡ Up }
        ensures { IfOk result (λ row. table.up_row self.now.setup self.now.sizes (readings_in self.now) packet.now ≡ Some row) }
    {
        match packet {
            Packet::Publish {
                qos,
                topic,
                id,
                payload,
                ..
            } => self.message(*qos, topic, *id, payload),
            Packet::PubAck { id } => self.puback(*id),
            Packet::PubRec { id } => self.pubrec(*id),
            Packet::PubRel { id } => self.sends(Packet::PubComp { id: *id }),
            Packet::PubComp { id } => self.pubcomp(*id),
            Packet::SubAck { id, codes } => self.suback(*id, codes),
            Packet::UnsubAck { id } => self.unsuback(*id),
            Packet::PingResp => Ok(self.still(Phase::Up)),
            _ => self.ends(),
        }
    }
}
