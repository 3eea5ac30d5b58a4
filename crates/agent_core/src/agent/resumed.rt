//! The table's rows for CONNACK, which arrives in Opening (MQTT 3.1.1, section 3.2).

ghost use Rattle.std.specs.Prelude.{◌≡◌, ◌++◌, ◌∷◌, [], ℕ, ◌==◌, take, drop, length, true, false, Some, IfOk, OnOk};
ghost use Rattle.agent_journal.specs.declared.setup.Phase.TheVariants.{Opening, Down};
ghost use Rattle.agent_journal.specs.declared.effect.Effect.TheVariants as f;
ghost use Rattle.mqtt_packet.specs.declared.packet.Packet.TheVariants as p;
ghost use Rattle.agent_table.specs.Rows.{to};
ghost use Rattle.agent_table.specs.Arrivals as table;
ghost use Rattle.agent_table.specs.Effects.{subscribes};
ghost use Rattle.agent_core.specs.Kept.{readings_in, used_in};
ghost use Rattle.subscriptions.specs.Routing.{renewable};

use super::Core;
use crate::effects::{Ending, one, push_endings};
use crate::row::Row;
use agent_journal::{Effect, Effects, Phase};
use mqtt_packet::Packet;
use session_resume::resume;
use std::alloc::AllocError;

impl<const ACKS: usize, const IN: usize, const ROUTES: usize> Core<ACKS, IN, ROUTES> {
    /// CONNACK, in the order: a code above 0; wiping; first; not first.
    #[tactic(auto, unfolding(agent_table::specs::Arrivals::connack_row))]
    pub(super) fn answered(&self, present: bool, code: u8) -> Result<Row, AllocError>
        requires { self.now.phase ≡ Opening }
        ensures { IfOk result (λ row. table.connack_row self.now.setup (readings_in self.now) present code ≡ Some row) }
    {
        if code != 0 {
            self.ends()
        } else if self.is_wiping() {
            self.wiped()
        } else if self.is_first() {
            self.begun(present)
        } else if present {
            self.resumed()
        } else {
            self.lost()
        }
    }

    /// Wiping: the connection is closed, and the next one begins a session.
    fn wiped(&self) -> Result<Row, AllocError>
        ensures { IfOk result (λ row. to Down (f.Send p.Disconnect ∷ []) ≡ Some row) }
    {
        Ok(Row {
            effects: one(
                self.alloc,
                Effect::Send {
                    packet: Packet::Disconnect,
                },
            )?,
            phase: Phase::Down,
        })
    }

    /// First: without a session the agent is Up, with one that it doesn't know it ends.
    fn begun(&self, present: bool) -> Result<Row, AllocError>
        ensures { IfOk result (λ row. table.first_row self.now.setup (readings_in self.now) present ≡ Some row) }
    {
        if !present {
            return Ok(self.still(Phase::Up));
        }
        let mut effects = Effects::new(self.alloc);
        self.push_close(&mut effects)?;
        Ok(Row {
            effects,
            phase: Phase::Off,
        })
    }

    /// Not first, with the session: what is open is sent again and unsure filters are renewed (section 4.4).
    fn resumed(&self) -> Result<Row, AllocError>
        requires { self.now.phase ≡ Opening }
        ensures { IfOk result (λ row. table.resumed_row (readings_in self.now) true ≡ Some row) }
    {
        let mut effects = resume(self.alloc, &self.qos, &self.pending)?;
        self.push_renewals(&mut effects, false)?;
        Ok(Row {
            effects,
            phase: Phase::Up,
        })
    }

    /// Not first, and the session was lost: open publishes end and the filters of all routes are renewed.
    #[tactic(auto, using(crate::proofs::Endings::session_lost))]
    fn lost(&self) -> Result<Row, AllocError>
        requires { self.now.phase ≡ Opening }
        ensures { IfOk result (λ row. table.resumed_row (readings_in self.now) false ≡ Some row) }
    {
        let mut effects = Effects::new(self.alloc);
        push_endings(&mut effects, &self.pending, Ending::SessionLost)?;
        self.push_renewals(&mut effects, true)?;
        Ok(Row {
            effects,
            phase: Phase::Up,
        })
    }

    /// Adds SUBSCRIBEs for the filters of all routes, or of the unsure ones: eight to a packet, each with
    /// the next identifier.
    fn push_renewals(&self, effects: &mut Effects, all: bool) -> Result<(), AllocError>
        ensures { OnOk result (effects.new ≡ effects.old ++ subscribes (length (renewable all self.now.routing)) self.now.last_drawn (used_in self.now) (renewable all self.now.routing)) }
    {
        let mut last = self.last_drawn;
        // The newest stands first, as in the table.
        let mut drawn = Vec::new(self.alloc);
        let mut from = 0;
        loop {
            let asks = self.subscriptions.unsure(self.alloc, all, from)?;
            if asks.is_empty() {
                return Ok(());
            }
            from += 8;
            last = self.fresh(last, drawn.as_slice());
            drawn.insert(0, last)?;
            effects.push(Effect::Send {
                packet: Packet::Subscribe { id: last, asks },
            })?;
        }
    }
}
