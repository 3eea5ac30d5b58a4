//! Where the publishes of both directions stand (MQTT 3.1.1, sections 4.3 and 4.4): the stage of each
//! identifier that was sent and isn't complete, and the identifiers that came at QoS 2 and are held.
#![tactic(auto)]

mod answers;
mod stages;

pub use answers::{AckAnswer, AckKind, Received, Stage};
pub use stages::QosState;
