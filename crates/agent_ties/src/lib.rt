//! What ties a journal to its link, by one entry more. It knows no script, no tape and no thread.
#![tactic(auto)]

mod laws;

pub use laws::{entries_keep_ties, faults_keep_ties, ties_are_whole, ties_begin};
