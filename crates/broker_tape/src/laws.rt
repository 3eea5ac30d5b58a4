//! Laws of tapes, each the contract of a function that does nothing.

ghost use Rattle.broker_tape.specs.Laws.{ReadTapesGiveBytes};

/// A tape, as a text spells it, gives bytes.
#[tactic(auto, using(crate::proofs::ReadTapes::read_tape_gives))]
pub fn read_tapes_give_bytes()
    ensures { ReadTapesGiveBytes }
{}
