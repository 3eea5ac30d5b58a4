//! Laws of replays, each the contract of a function that does nothing.

ghost use Rattle.replay_rounds.specs.Laws.{ReplaysAreHistories, ReplaysAreLegal, ReplaysEnd, ReplaysHearTheirTape, ReplaysTakeAll};

/// A replay's journal is legal: each entry is the one that the table gives after those before it.
#[tactic(auto, using(crate::proofs::Legal::legal_after))]
pub fn replays_are_legal()
    ensures { ReplaysAreLegal }
{}

/// A replay of one task goes through its script to its end, whatever its tape is.
#[tactic(auto, using(crate::proofs::Ends::replays_lead_on))]
pub fn replays_end()
    ensures { ReplaysEnd }
{}

/// A replay of one task takes what its script's lines ask, in their order, and then Leave.
#[tactic(auto, using(crate::proofs::AskedAll::replays_take_all))]
pub fn replays_take_all()
    ensures { ReplaysTakeAll }
{}

/// A replay of one task is one legal history of the agent, in which what the script asks stands once and in its order, each
/// command has exactly one completion, and each good outcome is earned. It is tied to its link and to its clock's readings: over all
/// connections, what was sent are the journal's packets, or a front of them where that connection broke, and what came are
/// the packets that arrived. The link counted a fault for each break that a fault caused, an end for each that an end caused,
/// and ten thousand receives that heard nothing for each that silence caused.
#[tactic(auto, using(crate::proofs::Histories::replays_are_histories))]
pub fn replays_are_histories()
    ensures { ReplaysAreHistories }
{}

/// What each connection of a replay gave is a front of what the tape has for it: nothing is made up, left out in between, or
/// given to another connection.
#[tactic(auto, using(crate::proofs::Fronts::replays_hear_their_tape))]
pub fn replays_hear_their_tape()
    ensures { ReplaysHearTheirTape }
{}
