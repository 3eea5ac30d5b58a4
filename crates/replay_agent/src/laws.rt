//! Laws of what a replay is given, each the contract of a function that does nothing.

ghost use Rattle.replay_agent.specs.Laws.{ReadScriptsAreValid};

/// A script of one task, as a text spells it, has the lines that a replay asks for.
#[tactic(auto, using(crate::proofs::ReadLines::read_script_valid))]
pub fn read_scripts_are_valid()
    ensures { ReadScriptsAreValid }
{}
