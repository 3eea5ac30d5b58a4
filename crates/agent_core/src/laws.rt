//! Laws of the definitions, each the contract of a function that does nothing.

ghost use Rattle.agent_core.specs.Laws as laws;

/// What a new agent keeps stands for the journal without entries.
pub fn stands_at_first()
    ensures { laws.StandsAtFirst }
{}

/// A cause has the row that it has behind the journal that is stood for.
#[tactic(auto, using(crate::proofs::Standing::rows_are_same))]
pub fn rows_are_same()
    ensures { laws.RowsAreSame }
{}

/// Behind a row's entry, what is kept stands for the journal with it.
#[tactic(auto, using(crate::proofs::Standing::stands_behind))]
pub fn stands_behind()
    ensures { laws.StandsBehind }
{}

/// In a legal journal only publishes wait in Down for the next connection.
#[tactic(auto, using(crate::proofs::Standing::only_publishes_wait))]
pub fn only_publishes_wait()
    ensures { laws.OnlyPublishesWait }
{}
