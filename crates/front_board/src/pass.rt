//! The pass of one who looks at a board.

ghost use Rattle.std.specs.Prelude.{◌≡◌};

use crate::sight::Sight;
use atomic_table::Seat;
use std::marker::Model;

/// How many entries one party has seen. Contracts see the board, that number and the count of its loads.
#[derive(Drop)]
pub struct FrontPass {
    pub(crate) number: u64,
    pub(crate) seat: Seat<(), Sight>,
}

impl Model for FrontPass {
    ghost use Rattle.std.specs.Prelude.{◌≡◌, []};
    ghost use Rattle.front_board.specs.Ends.{Looking};

    ghost Value = { Looking };

    ghost view = { λ p. record { board = p.seat.table_id; number = p.number; loads = p.seat.me.0.loads } };

    ghost invariant = { λ p. (p.seat.me.1 ≡ []) × (p.seat.me.0.seen ≡ p.number) };
}

impl FrontPass {
    /// How many entries were seen, by a look or by a mark that was learnt. It takes no memory.
    pub fn number(&self) -> u64
        ensures { result ≡ self.now.number }
    {
        self.number
    }
}
