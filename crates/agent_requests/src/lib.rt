//! An agent that takes its tasks' requests from a queue: each becomes one entry of its journal, in the order of the queue.
#![tactic(auto)]

mod answers;
mod intake;
mod laws;
mod serve;
mod serving;
mod taking;

pub use answers::{Popped, Served, Short};
pub use intake::Intake;
pub use laws::takes_are_requests;
