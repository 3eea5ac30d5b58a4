//! How much of the journal the agent shows.

ghost use Rattle.std.specs.Prelude.{◌≡◌, ◌≤◌};

use front_board::{FrontBoard, Mark, Named, Owner};
use std::alloc::Global;
use std::marker::{Model, PhantomData};
use std::sync::Arc;

/// The ownership of the board that `J` names. Contracts see its number, which is how long the journal was when it was raised last.
#[derive(Drop)]
pub struct Shown<J: Named> {
    board: Arc<FrontBoard, Global>,
    owner: Owner,
    of: PhantomData<J>,
}

impl<J: Named> Model for Shown<J> {
    ghost use Rattle.std.specs.Prelude.{◌≡◌, ℕ};
    ghost use Rattle.std.specs.Arc.{arc_value};

    ghost Value = { ℕ };

    ghost view = { λ s. s.owner.number };

    ghost invariant = { λ s. (arc_value s.board ≡ J.board) × (s.owner.board ≡ J.board) };
}

impl<J: Named> Shown<J> {
    ghost use Rattle.std.specs.Arc.{arc_value};

    /// What a board's owner shows.
    pub fn new(board: Arc<FrontBoard, Global>, owner: Owner) -> Self
        requires named { (arc_value board ≡ J.board) × (owner.board ≡ J.board) }
        ensures { result ≡ owner.number }
    {
        Shown {
            board,
            owner,
            of: PhantomData,
        }
    }

    /// Shows a journal of this many entries, not fewer than before.
    pub fn raise(&mut self, entries: u64)
        requires onward { self.old ≤ entries }
        ensures { self.new ≡ entries }
    {
        self.board.raise(&mut self.owner, entries);
    }

    /// A mark of what is shown. It takes no memory.
    pub fn mark(&mut self) -> Mark
        ensures same { self.new ≡ self.old }
        ensures mark { result ≡ record { board = J.board; number = self.old } }
    {
        match self.board.owner_mark(&mut self.owner) {
            Ok(mark) => mark,
            Err(_) => unreachable!(),
        }
    }

    /// How many entries a task had seen that made this mark: never more than are shown.
    pub fn meet(&mut self, mark: Mark) -> u64
        requires own { mark.board ≡ J.board }
        ensures same { self.new ≡ self.old }
        ensures number { result ≡ mark.number }
        ensures within { mark.number ≤ self.old }
    {
        self.board.meet(&mut self.owner, mark)
    }
}
