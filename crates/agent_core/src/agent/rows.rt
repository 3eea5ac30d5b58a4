//! The agent's table by what is kept: whether a cause has a row, and that row. They stand in the table's order.

ghost use Rattle.std.specs.Prelude.{◌≡◌, true, Some, is_some, IfOk};
ghost use Rattle.agent_table.specs.Table as table;
ghost use Rattle.agent_core.specs.Kept.{readings_in};

use super::Core;
use crate::row::Row;
use agent_journal::Cause;
use std::alloc::AllocError;

impl<const ACKS: usize, const IN: usize, const ROUTES: usize> Core<ACKS, IN, ROUTES> {
    /// Whether the cause has a row at this time, where that isn't below the last.
    pub(super) fn has_row(&self, at: u64, cause: &Cause) -> bool
        ensures { result ≡ is_some (table.cause_row self.now.setup self.now.sizes (readings_in self.now) at cause.now) }
    {
        match cause {
            Cause::Opened => self.may_open(),
            Cause::Take { task, seq, request } => self.may_take(*task, *seq, request),
            Cause::Arrived { packet } => self.may_arrive(packet),
            Cause::Broke { why } => self.may_break(at, *why),
            Cause::Tick => self.may_tick(at),
            Cause::GaveUp => self.may_give_up(),
            Cause::Finish => self.may_finish(),
        }
    }

    /// The row of a cause that has one.
    pub(super) fn row(&self, at: u64, cause: &Cause) -> Result<Row, AllocError>
        requires { is_some (table.cause_row self.now.setup self.now.sizes (readings_in self.now) at cause.now) ≡ true }
        ensures { IfOk result (λ row. table.cause_row self.now.setup self.now.sizes (readings_in self.now) at cause.now ≡ Some row) }
    {
        match cause {
            Cause::Opened => self.opened(),
            Cause::Take { task, seq, request } => self.took(*task, *seq, request),
            Cause::Arrived { packet } => self.arrived(packet),
            Cause::Broke { why } => self.broke(at, *why),
            Cause::Tick => self.tick(at),
            Cause::GaveUp => self.gave_up(),
            Cause::Finish => self.finish(),
        }
    }
}
