//! The printed journal: its exact text, written without memory; that a text names one journal; and how that journal's run
//! ended.
#![tactic(auto)]

mod laws;
mod parts;
mod status;
mod write;

pub use laws::{endings_are_told, example_is_named, first_example, texts_name_journals};
pub use parts::{Part, write_parts};
pub use status::status_of;
pub use write::write_entry;

#[cfg(test)]
mod tests;
