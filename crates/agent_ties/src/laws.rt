//! Laws of ties, each the contract of a function that does nothing.

ghost use Rattle.agent_ties.specs.Laws.{EntriesKeepTies, FaultsKeepTies, TiesAreWhole, TiesBegin};

/// An empty journal is tied to no connection.
pub fn ties_begin()
    ensures { TiesBegin }
{}

/// Ties at a moment are those of each connection: what it took is what its entries send, or a front of that where it broke, and what it
/// gave are the packets that arrived, with the ways in which a connection's bytes end.
pub fn ties_are_whole()
    ensures { TiesAreWhole }
{}

/// An entry of no packet and no connection keeps them, where all of its packets were taken.
pub fn entries_keep_ties()
    ensures { EntriesKeepTies }
{}

/// So does one of which less was taken, with the entry of the fault behind it.
pub fn faults_keep_ties()
    ensures { FaultsKeepTies }
{}
