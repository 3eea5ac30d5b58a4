//! Laws of what is read, each the contract of a function that does nothing.

ghost use Rattle.agent_script.specs.Laws.{ReadLinesHold};

/// Each line of a script, as a text spells it, belongs to one of its tasks and asks what the agent may be asked.
#[tactic(auto, using(crate::proofs::ReadLines::lines_are_read))]
pub fn read_lines_hold()
    ensures { ReadLinesHold }
{}
