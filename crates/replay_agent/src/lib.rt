//! An agent of one task against a tape: a script's requests and a broker's bytes give the journal, round by round.
#![tactic(auto)]

mod laws;
mod notes;
mod replayed;
mod run;
mod wire;

pub use laws::read_scripts_are_valid;
pub use replayed::{Replayed, replay};

#[cfg(test)]
mod tests;
