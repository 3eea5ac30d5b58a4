//! The agent's end of many tasks: one journal, one connection, the queue that the tasks submit to, and their mailboxes.
#![tactic(auto)]

mod end;
mod owed;
mod short;
mod step;
mod turn;

pub use end::AgentEnd;
pub use turn::Turn;
