//! Laws of how the agent comes to the phase Off and to a connection, each the contract of a function that does
//! nothing.

ghost use Rattle.agent_table.specs.Offs as laws;

/// In a legal journal it is told how the agent came to Off exactly where it is there.
#[tactic(auto, using(crate::proofs::Told::off_is_told))]
pub fn off_is_told()
    ensures { laws.OffIsTold }
{}

/// In a legal journal a Terminate was taken in Up exactly where the agent came to Off by it.
#[tactic(auto, using(crate::proofs::Told::terminated_is_told))]
pub fn terminated_is_told()
    ensures { laws.TerminatedIsTold }
{}

/// From a phase without a connection only Opened leads to one with it.
#[tactic(auto, using(crate::proofs::Connecting::only_opened_connects))]
pub fn only_opened_connects()
    ensures { laws.OnlyOpenedConnects }
{}

/// In a legal journal connections and openings break at most once more than they may be opened again.
#[tactic(auto, using(crate::proofs::BreaksFew::breaks_are_few))]
pub fn breaks_are_few()
    ensures { laws.BreaksAreFew }
{}

/// In a legal journal only tasks below `tasks` take anything.
pub fn only_tasks_take()
    ensures { laws.OnlyTasksTake }
{}

/// In Off nothing is open, whichever tasks have left.
#[tactic(auto, using(crate::proofs::Ended::none_is_open_in_off))]
pub fn none_is_open_in_off()
    ensures { laws.NoneIsOpenInOff }
{}
