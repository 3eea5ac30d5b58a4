//! Scripts: what the tasks of a run ask, read from their text.
#![tactic(auto)]

mod laws;
mod reading;
mod requests;
mod script;
mod steps;

pub use laws::read_lines_hold;
use list_types::Seq;
pub use reading::read_script;
pub use script::{Line, Script, ScriptFault, Step};

/// The lines of a script, in order.
pub type Lines = Seq<Line>;

#[cfg(test)]
mod tests;
