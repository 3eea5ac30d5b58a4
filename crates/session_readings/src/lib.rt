//! What is saved of a journal: its readings, as the text of a session.
#![tactic(auto)]

mod laws;

pub use laws::journals_are_saved;
