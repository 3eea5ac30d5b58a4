//! The agent's link over TCP, and the time since a program began.
#![tactic(auto)]

mod clock;
mod counts;
mod link;
mod stream;

pub use clock::SystemClock;
pub use link::TcpLink;
