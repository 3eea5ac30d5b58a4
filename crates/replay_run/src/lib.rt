//! The command `replay`: a script and the tape of a broker give the printed journal.
#![tactic(auto)]

mod call;
mod command;
mod lines;
mod report;

pub use call::replay_call;
pub use command::replay_command;
