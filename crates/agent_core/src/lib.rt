//! The sequential agent by the whole table: it keeps what the table reads off a journal, and makes each next entry.
#![tactic(auto)]

mod agent;
mod awaited;
mod books;
mod effects;
mod filters;
mod identifiers;
mod laws;
mod noted;
mod opened;
mod routes;
mod row;
mod sends;

pub use agent::{Core, Situation};
pub use agent_journal::{Phase, Setup};
pub use laws::{only_publishes_wait, rows_are_same, stands_at_first, stands_behind};
