//! What a take answers.

ghost use Rattle.std.specs.Prelude.{◌≡◌};

use crate::pass::PoolPass;
use std::marker::Model;
use std::snapshot::Snapshot;

/// A number that was taken. It has to be given back to its pool: a program that drops a permit doesn't
/// compile.
pub struct Permit {
    pub(crate) id: u32,
    pub(crate) from: Snapshot<PoolPass>,
}

impl Model for Permit {
    ghost use Rattle.std.specs.Prelude.{◌<◌};
    ghost use Rattle.command_pool.specs.Passes.{Numbered};

    ghost Value = { Numbered };

    ghost view = { λ p. record { id = p.id; pool = p.from.value.pool } };

    ghost invariant = { λ p. p.id < 64 };
}

impl Permit {
    /// The number, from 0 to one below the pool's size.
    pub fn id(&self) -> u32
        ensures { result ≡ self.now.id }
    {
        self.id
    }
}

/// Why no number was taken.
#[derive(Clone, Copy, Debug, PartialEq, Eq)]
pub enum TakeFault {
    /// No number was free when this call looked.
    Empty,
    /// Each number whose bit `seen` has was free when this call looked, and taken by the time it
    /// reached for it. There is at least one.
    Busy {
        /// The mask of those numbers.
        seen: u64,
    },
}
