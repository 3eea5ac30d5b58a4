//! Boards that types carry the name of.

ghost use Rattle.atomic_table.specs.Seated.{TableId};

use std::marker::Brand;

/// A type that names a board. What is generic over it, as a queue of marks, says by its type that each mark
/// in it is of that board, so that no call has to be told.
///
/// Who makes a board passes `Brand` where a `J: Named` is wanted, and names the board made.
pub trait Named {
    ghost board: { TableId };
}

/// A type for any board: where a call passes it, the caller's proof says which one it names.
impl Named for Brand {
    ghost use Rattle.std.specs.Prelude.{[]};

    ghost board = { record { words = 0; slots = 0; views_name = 0; atom = 0; block = 0; offset = 0; slot_names = [] } };
}
