//! What is sent again on a connection that finds its session kept (MQTT 3.1.1, section 4.4).
#![tactic(auto)]

mod again;
mod session;

pub use session::resume;
