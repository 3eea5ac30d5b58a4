//! The pass of a task: with it a task takes numbers and gives them back.

use crate::hand::Hand;
use atomic_table::Seat;
use std::marker::Model;

/// What a task holds of a pool. Contracts see the pool that it is of, the numbers that it holds and
/// the steps that it made. It takes no bytes. The numbers of a pass that is dropped stay taken.
#[derive(Drop)]
pub struct PoolPass {
    pub(crate) seat: Seat<(), Hand>,
}

impl Model for PoolPass {
    ghost use Rattle.std.specs.Prelude.{◌≡◌, []};
    ghost use Rattle.command_pool.specs.Passes.{Pass};

    ghost Value = { Pass };

    ghost view = { λ p. record { pool = p.seat.table_id; held = p.seat.me.0.held; steps = p.seat.me.0.steps } };

    ghost invariant = { λ p. p.seat.me.1 ≡ [] };
}
