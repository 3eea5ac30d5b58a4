//! How much of the journal a task knows of.

ghost use Rattle.std.specs.Prelude.{◌≡◌, max};
ghost use Rattle.task_queues.specs.Fronts.{IsOn, number_in};

use front_board::{FrontBoard, FrontPass, Mark, Named};
use std::alloc::Global;
use std::marker::{Model, PhantomData};
use std::sync::Arc;

/// A task's pass of the board that `J` names. Contracts see how much of the journal it has seen.
#[derive(Drop)]
pub struct Sight<J: Named> {
    pub(crate) board: Arc<FrontBoard, Global>,
    pub(crate) front: FrontPass,
    pub(crate) of: PhantomData<J>,
}

impl<J: Named> Model for Sight<J> {
    ghost use Rattle.std.specs.Prelude.{◌≡◌, ℕ};
    ghost use Rattle.std.specs.Arc.{arc_value};

    ghost Value = { ℕ };

    ghost view = { λ s. s.front.number };

    ghost invariant = { λ s. (arc_value s.board ≡ J.board) × (s.front.board ≡ J.board) };
}

impl<J: Named> Sight<J> {
    /// How much it has seen.
    pub fn number(&self) -> u64
        ensures { result ≡ self.now }
    {
        self.front.number()
    }

    /// A mark of what it has seen. It takes no memory.
    pub fn mark(&mut self) -> Mark
        ensures same { self.new ≡ self.old }
        ensures mark { result ≡ record { board = J.board; number = self.old } }
    {
        match self.board.mark(&mut self.front) {
            Ok(mark) => mark,
            Err(_) => unreachable!(),
        }
    }

    /// It has seen from here on what the mark says.
    pub fn learn(&mut self, front: Option<Mark>)
        requires own { IsOn J.board front }
        ensures learned { self.new ≡ max self.old (number_in front) }
    {
        if let Some(mark) = front {
            self.board.learn(&mut self.front, mark);
        }
    }
}
