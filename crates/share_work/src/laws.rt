//! Laws of the definitions, each the contract of a function that does nothing.

ghost use Rattle.share_work.specs.Parting.{StepsAskAsLines, StepsAreRead};

/// What a task's steps ask is what a script's lines ask of the task.
#[tactic(auto, using(crate::proofs::Parts::steps_ask))]
pub fn steps_ask_as_lines()
    ensures { StepsAskAsLines }
{}

/// Where each line of a script is one that was read, so is each step of a task.
#[tactic(auto, using(crate::proofs::Parts::steps_are_read))]
pub fn steps_are_read()
    ensures { StepsAreRead }
{}
