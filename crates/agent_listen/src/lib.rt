//! The callers of a listener: where connections come from, and a form of it over memory.
#![tactic(auto)]

mod listen;
mod memory;

pub use listen::Listen;
pub use memory::{MemListen, caller};

#[cfg(test)]
mod tests;
