//! A script's lines on a thing's shadow and jobs, and the messages of both kinds.
#![tactic(auto)]

mod faults;
mod kinds;
mod laws;
mod script;
mod steps;

pub use faults::LineFault;
pub use kinds::{Kinds, kinds_of};
pub use laws::{jobs_are_found, read_scripts_are_short, shadows_are_found};
pub use script::with_topics;

#[cfg(test)]
mod tests;
