//! A gate that tasks pass with each request: who holds it is told of a request before it is submitted, and of an outcome behind it.
#![tactic(auto)]

mod gate;
mod passage;

pub use gate::{Gate, OpenGate};
pub use passage::Passage;
