//! Once: what the agent and the broker of the world promise of each message, over every list of losses, repeats and
//! reconnections.
#![tactic(auto)]

mod examples;
mod laws;

pub use examples::{passed_on, passed_on_twice, told_first};
pub use laws::{
    acknowledged_are_passed_on, copies_are_placed, done_were_passed_on, passed_on_once,
};
