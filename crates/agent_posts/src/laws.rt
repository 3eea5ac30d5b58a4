//! Laws of the definitions, each the contract of a function that does nothing.

ghost use Rattle.agent_posts.specs.Laws as laws;

/// What was put for a task, then the note that is held for it, then what waits for it, are the journal's notes for it.
#[tactic(auto, using(crate::proofs::Growing::posted_are_notes))]
pub fn posted_are_notes()
    ensures { laws.PostedAreNotes }
{}

/// A journal that grows only lets more wait.
pub fn growth_is_posted()
    ensures { laws.GrowthIsPosted }
{}

/// Before the first entry nothing was put, and nothing waits.
#[tactic(auto, using(crate::proofs::Growing::nothing_is_posted))]
pub fn nothing_is_posted()
    ensures { laws.NothingIsPosted }
{}
