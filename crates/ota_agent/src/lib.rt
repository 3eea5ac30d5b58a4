//! What an update over the air does next: its event table, and the request for the blocks that are missing.
#![tactic(auto)]

mod agent;
mod ask;
mod events;
mod table;

pub use agent::{Actions, Ota};
pub use ask::next_ask;
pub use events::{Action, OtaEvent, OtaState};

#[cfg(test)]
mod tests;
