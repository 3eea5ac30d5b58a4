//! The routes of the agent: which task gets the messages of which topic filter.
#![tactic(auto)]

mod added;
mod asked;
mod codes;
mod granted;
mod nearer;
mod renewable;
mod renewal;
mod room;
mod routing;

pub use granted::Granted;
pub use renewal::Renewal;
pub use routing::Subscriptions;
