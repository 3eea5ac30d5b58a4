//! The table's rows for what happens to the connection, and in time. They stand in the table's order.

ghost use Rattle.std.specs.Prelude.{◌≡◌, ◌+◌, ◌≤◌, [], nat_le, true, Some, is_some, IfOk, OnOk, ◌++◌};
ghost use Rattle.std.specs.List.{list_all};
ghost use Rattle.agent_table.specs.Breaks.{all_left, is_none};
ghost use Rattle.agent_table.specs.Breaks as table;
ghost use Rattle.agent_table.specs.Effects.{close};
ghost use Rattle.agent_table.specs.Rows.{ends};
ghost use Rattle.agent_core.specs.Kept.{readings_in};

use super::Core;
use crate::effects::{Ending, one, push_closed, push_endings};
use crate::row::Row;
use agent_journal::{Effect, Effects, Phase, Why};
use list_types::Copied;
use mqtt_packet::Packet;
use std::alloc::AllocError;

impl<const ACKS: usize, const IN: usize, const ROUTES: usize> Core<ACKS, IN, ROUTES> {
    /// Whether the connection may be opened now.
    #[tactic(auto, unfolding(agent_table::specs::Breaks::opened_row))]
    pub(super) fn may_open(&self) -> bool
        ensures { result ≡ is_some (table.opened_row self.now.setup (readings_in self.now) self.now.phase) }
    {
        match self.phase {
            Phase::Down => self.may_reopen(),
            Phase::Opening => false,
            Phase::Up => false,
            Phase::Spilled => false,
            Phase::Off => false,
        }
    }

    /// Opened: CONNECT is sent (MQTT 3.1.1, section 3.1).
    #[tactic(auto, using(crate::proofs::Breaks::opened_is))]
    pub(super) fn opened(&self) -> Result<Row, AllocError>
        requires { is_some (table.opened_row self.now.setup (readings_in self.now) self.now.phase) ≡ true }
        ensures { IfOk result (λ row. table.opened_row self.now.setup (readings_in self.now) self.now.phase ≡ Some row) }
    {
        let packet = Packet::Connect {
            clean: self.is_wiping(),
            keep_alive: self.setup.keep_alive,
            client: self.setup.client.copy(self.alloc)?,
            will: None,
            user: None,
            password: None,
        };
        Ok(Row {
            effects: one(self.alloc, Effect::Send { packet })?,
            phase: Phase::Opening,
        })
    }

    /// Whether a connection may break so now.
    pub(super) fn may_break(&self, at: u64, why: Why) -> bool
        ensures { result ≡ is_some (table.broke_row self.now.setup (readings_in self.now) at why) }
    {
        match why {
            Why::Fault => self.may_fail(),
            Why::End => self.may_end(),
            Why::Idle => self.may_idle(),
            Why::Bad { .. } => self.may_spoil(),
            Why::TooLong { .. } => self.may_spoil(),
            Why::KeepAlive => self.may_miss(at),
            Why::InFull => self.may_overflow(),
        }
    }

    /// Broke: open subscribes and unsubscribes are lost, and publishes wait for the next connection.
    #[tactic(auto, using(crate::proofs::Breaks::end_is, crate::proofs::Breaks::idle_is, crate::proofs::Breaks::bytes_is, crate::proofs::Breaks::keep_alive_is, crate::proofs::Breaks::in_full_is))]
    pub(super) fn broke(&self, at: u64, why: Why) -> Result<Row, AllocError>
        requires { is_some (table.broke_row self.now.setup (readings_in self.now) at why) ≡ true }
        ensures { IfOk result (λ row. table.broke_row self.now.setup (readings_in self.now) at why ≡ Some row) }
    {
        match why {
            Why::Fault => self.failed(),
            Why::End => self.down(),
            Why::Idle => self.down(),
            Why::Bad { .. } => self.ends(),
            Why::TooLong { .. } => self.ends(),
            Why::KeepAlive => self.down(),
            Why::InFull => self.down(),
        }
    }

    #[tactic(auto, unfolding(agent_table::specs::Breaks::fault_row))]
    fn may_fail(&self) -> bool
        ensures { result ≡ is_some (table.fault_row self.now.setup (readings_in self.now) self.now.phase) }
    {
        match self.phase {
            Phase::Down => self.may_reopen(),
            Phase::Opening => true,
            Phase::Up => true,
            Phase::Spilled => true,
            Phase::Off => self.just_sent,
        }
    }

    /// In Down an opening failed, and in Off the last thing that was to be sent.
    #[tactic(auto, using(crate::proofs::Breaks::fault_down, crate::proofs::Breaks::fault_off), unfolding(agent_table::specs::Breaks::fault_row))]
    fn failed(&self) -> Result<Row, AllocError>
        requires { is_some (table.fault_row self.now.setup (readings_in self.now) self.now.phase) ≡ true }
        ensures { IfOk result (λ row. table.fault_row self.now.setup (readings_in self.now) self.now.phase ≡ Some row) }
    {
        match self.phase {
            Phase::Down => Ok(self.still(Phase::Down)),
            Phase::Opening => self.down(),
            Phase::Up => self.down(),
            Phase::Spilled => self.down(),
            Phase::Off => Ok(self.still(Phase::Off)),
        }
    }

    #[tactic(auto, unfolding(agent_table::specs::Breaks::end_row))]
    fn may_end(&self) -> bool
        ensures { result ≡ is_some (table.end_row (readings_in self.now) self.now.phase) }
    {
        match self.phase {
            Phase::Down => false,
            Phase::Opening => true,
            Phase::Up => true,
            Phase::Spilled => false,
            Phase::Off => false,
        }
    }

    #[tactic(auto, unfolding(agent_table::specs::Breaks::idle_row))]
    fn may_idle(&self) -> bool
        ensures { result ≡ is_some (table.idle_row (readings_in self.now) self.now.phase) }
    {
        match self.phase {
            Phase::Down => false,
            Phase::Opening => true,
            Phase::Up => !self.is_idle(),
            Phase::Spilled => false,
            Phase::Off => false,
        }
    }

    #[tactic(auto, unfolding(agent_table::specs::Breaks::bytes_row))]
    fn may_spoil(&self) -> bool
        ensures { result ≡ is_some (table.bytes_row self.now.setup (readings_in self.now) self.now.phase) }
    {
        match self.phase {
            Phase::Down => false,
            Phase::Opening => true,
            Phase::Up => true,
            Phase::Spilled => false,
            Phase::Off => false,
        }
    }

    #[tactic(auto, unfolding(agent_table::specs::Breaks::keep_alive_row))]
    fn may_miss(&self, at: u64) -> bool
        ensures { result ≡ is_some (table.keep_alive_row (readings_in self.now) at self.now.phase) }
    {
        match self.phase {
            Phase::Down => false,
            Phase::Opening => false,
            Phase::Up => is_past(self.ping, 5_000, at),
            Phase::Spilled => false,
            Phase::Off => false,
        }
    }

    #[tactic(auto, unfolding(agent_table::specs::Breaks::in_full_row))]
    fn may_overflow(&self) -> bool
        ensures { result ≡ is_some (table.in_full_row (readings_in self.now) self.now.phase) }
    {
        match self.phase {
            Phase::Down => false,
            Phase::Opening => false,
            Phase::Up => false,
            Phase::Spilled => true,
            Phase::Off => false,
        }
    }

    #[tactic(auto, unfolding(agent_table::specs::Breaks::gave_up_row))]
    pub(super) fn may_give_up(&self) -> bool
        ensures { result ≡ is_some (table.gave_up_row self.now.setup (readings_in self.now) self.now.phase) }
    {
        match self.phase {
            Phase::Down => self.breaks == u64::from(self.setup.reopen) + 1,
            Phase::Opening => false,
            Phase::Up => false,
            Phase::Spilled => false,
            Phase::Off => false,
        }
    }

    /// GaveUp: one connection broke behind the last that may be opened again.
    #[tactic(auto, using(crate::proofs::Breaks::gave_up_is))]
    pub(super) fn gave_up(&self) -> Result<Row, AllocError>
        requires { is_some (table.gave_up_row self.now.setup (readings_in self.now) self.now.phase) ≡ true }
        ensures { IfOk result (λ row. table.gave_up_row self.now.setup (readings_in self.now) self.now.phase ≡ Some row) }
    {
        self.ends()
    }

    #[tactic(auto, unfolding(agent_table::specs::Breaks::tick_row))]
    pub(super) fn may_tick(&self, at: u64) -> bool
        ensures { result ≡ is_some (table.tick_row self.now.setup (readings_in self.now) at self.now.phase) }
    {
        match self.phase {
            Phase::Down => false,
            Phase::Opening => false,
            Phase::Up => {
                0 < self.setup.keep_alive
                    && self.ping.is_none()
                    && is_past(self.last_sent, 500 * u64::from(self.setup.keep_alive), at)
            }
            Phase::Spilled => false,
            Phase::Off => false,
        }
    }

    /// Tick: PINGREQ is sent (MQTT 3.1.1, sections 3.1.2.10 and 3.12).
    #[tactic(auto, using(crate::proofs::Breaks::tick_is))]
    pub(super) fn tick(&self, at: u64) -> Result<Row, AllocError>
        requires { is_some (table.tick_row self.now.setup (readings_in self.now) at self.now.phase) ≡ true }
        ensures { IfOk result (λ row. table.tick_row self.now.setup (readings_in self.now) at self.now.phase ≡ Some row) }
    {
        Ok(Row {
            effects: one(
                self.alloc,
                Effect::Send {
                    packet: Packet::PingReq,
                },
            )?,
            phase: Phase::Up,
        })
    }

    #[tactic(auto, unfolding(agent_table::specs::Breaks::finish_row))]
    pub(super) fn may_finish(&self) -> bool
        ensures { result ≡ is_some (table.finish_row self.now.setup (readings_in self.now) self.now.phase) }
    {
        match self.phase {
            Phase::Down => false,
            Phase::Opening => false,
            Phase::Up => self.all_left() && self.is_idle(),
            Phase::Spilled => false,
            Phase::Off => false,
        }
    }

    /// Finish: DISCONNECT is sent (MQTT 3.1.1, section 3.14).
    #[tactic(auto, using(crate::proofs::Breaks::finish_is))]
    pub(super) fn finish(&self) -> Result<Row, AllocError>
        requires { is_some (table.finish_row self.now.setup (readings_in self.now) self.now.phase) ≡ true }
        ensures { IfOk result (λ row. table.finish_row self.now.setup (readings_in self.now) self.now.phase ≡ Some row) }
    {
        Ok(Row {
            effects: one(
                self.alloc,
                Effect::Send {
                    packet: Packet::Disconnect,
                },
            )?,
            phase: Phase::Off,
        })
    }

    /// Nothing is done.
    pub(super) fn still(&self, phase: Phase) -> Row
        ensures { result ≡ record { effects = []; phase = phase } }
    {
        Row {
            effects: Effects::new(self.alloc),
            phase,
        }
    }

    /// The connection has ended.
    #[tactic(auto, using(crate::proofs::Endings::link_lost))]
    fn down(&self) -> Result<Row, AllocError>
        ensures { IfOk result (λ row. table.down (readings_in self.now) ≡ Some row) }
    {
        let mut effects = Effects::new(self.alloc);
        push_endings(&mut effects, &self.pending, Ending::LinkLost)?;
        Ok(Row {
            effects,
            phase: Phase::Down,
        })
    }

    /// The agent ends: all open commands are cancelled, and all tasks closed.
    #[tactic(auto, using(crate::proofs::Endings::cancelled))]
    pub(super) fn ends(&self) -> Result<Row, AllocError>
        ensures { IfOk result (λ row. ends self.now.setup (readings_in self.now) ≡ Some row) }
    {
        let mut effects = Effects::new(self.alloc);
        push_endings(&mut effects, &self.pending, Ending::Cancelled)?;
        self.push_close(&mut effects)?;
        Ok(Row {
            effects,
            phase: Phase::Off,
        })
    }

    /// Adds Closed for each task that hasn't left.
    pub(super) fn push_close(&self, effects: &mut Effects) -> Result<(), AllocError>
        ensures { OnOk result (effects.new ≡ effects.old ++ close self.now.setup (readings_in self.now)) }
    {
        push_closed(effects, self.left.as_slice(), self.setup.tasks)
    }

    fn may_reopen(&self) -> bool
        ensures { result ≡ nat_le self.now.breaks self.now.setup.reopen }
    {
        self.breaks <= u64::from(self.setup.reopen)
    }

    pub(super) fn is_wiping(&self) -> bool
        ensures { result ≡ (readings_in self.now).wiping }
    {
        self.setup.wipe && self.accepted == 0
    }

    pub(super) fn is_first(&self) -> bool
        ensures { result ≡ (readings_in self.now).first }
    {
        self.accepted <= if self.setup.wipe { 1 } else { 0 }
    }

    /// Whether no command is open.
    fn is_idle(&self) -> bool
        ensures { result ≡ is_none self.now.pending }
    {
        self.pending.is_empty()
    }

    #[tactic(auto, using(crate::proofs::Left::all_left_list))]
    fn all_left(&self) -> bool
        ensures { result ≡ all_left self.now.setup.tasks (readings_in self.now).left }
    {
        all_true(self.left.as_slice())
    }
}

/// Whether so many milliseconds have passed since a time, where there is one.
fn is_past(time: Option<u64>, wait: u64, at: u64) -> bool
    ensures { result ≡ table.is_past time wait at }
{
    match time {
        None => false,
        Some(time) => time <= at && wait <= at - time,
    }
}

fn all_true(flags: &[bool]) -> bool
    ensures { result ≡ list_all (λ flag. flag) flags.now }
{
    flags.iter().all(|flag| *flag)
}
