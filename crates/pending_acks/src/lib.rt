//! The open commands of the agent: those that were sent and aren't complete, in the order of their
//! requests.
#![tactic(auto)]

mod acks;
mod pending;

pub use acks::PendingAcks;
pub use pending::Pending;
