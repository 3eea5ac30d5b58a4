//! The command `world`: the events of a seed are played, and what came of them is printed.
#![tactic(auto)]

mod call;

pub use call::world_call;

#[cfg(test)]
mod tests;
