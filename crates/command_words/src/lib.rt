//! The command line: six commands, each with a table of its options.
#![tactic(auto)]

mod apps;
mod classes;
mod commands;
mod faults;
mod given;
mod laws;
mod matches;
mod messages;
mod rows;
mod tables;
mod values;
mod words;

pub use commands::read_words;
pub use faults::WordsFault;
pub use laws::options_are_spelled;
pub use messages::explain;
pub use words::{BrokerWords, FetchWords, MirrorWords, RunWords, Size, Words, WorldWords};
