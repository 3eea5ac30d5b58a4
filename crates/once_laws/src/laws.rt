//! Laws over every list of events, each the contract of a function that does nothing.

ghost use Rattle.once_laws.specs.Laws as laws;
ghost use Rattle.once_laws.specs.Places as places;
ghost use Rattle.once_laws.specs.Replies as replies;

/// The broker sends a PUBACK only for a PUBLISH at quality of service 1 that it passes on.
#[tactic(auto, using(crate::proofs::Replies::acknowledged_are_passed_on))]
pub fn acknowledged_are_passed_on()
    ensures { replies.AcknowledgedArePassedOn }
{}

/// A session of the broker has at most one copy of a message, of those that were passed on.
#[tactic(auto, using(crate::proofs::Places::copies_are_placed))]
pub fn copies_are_placed()
    ensures { places.CopiesArePlaced }
{}

/// A publish at quality of service 1 that is done was passed on at least once.
#[tactic(auto, using(crate::proofs::Least::done_were_passed_on))]
pub fn done_were_passed_on()
    ensures { laws.DoneWerePassedOn }
{}

/// A publish at quality of service 2 is passed on at most once, and one that is done was passed on once.
#[tactic(auto, using(crate::proofs::Exactly::passed_on_once))]
pub fn passed_on_once()
    ensures { laws.PassedOnOnce }
{}
