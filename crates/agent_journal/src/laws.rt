//! Laws of the definitions, each the contract of a function that does nothing.

ghost use Rattle.agent_journal.specs.Notes as notes;

/// One more entry adds its notes behind a task's others.
#[tactic(auto, using(crate::proofs::Notes::entries_add_notes))]
pub fn entries_add_notes()
    ensures { notes.EntriesAddNotes }
{}

/// Of a task's notes those that complete are its completions, in their order, and as many are messages as were passed to it.
pub fn notes_are_projections()
    ensures { notes.NotesAreProjections }
{}
