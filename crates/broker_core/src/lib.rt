//! The broker's core: what it answers to each packet and message, over the sessions that it keeps (MQTT 3.1.1).
#![tactic(auto)]

mod answers;
mod broker;
mod connecting;
mod copies;
mod delivery;
mod identifiers;
mod laws;
mod link;
mod passing;
mod replies;
mod session;
mod subscribed;
mod window;

pub use broker::Broker;
pub use delivery::{Delivery, Waiting};
pub use laws::{
    clients_differ, drawn_are_fresh, firsts_are_entered, passed_once_example, repeats_arent_passed,
    replies_are_sound, sessions_are_few, windows_hold,
};
pub use link::Link;
pub use mqtt_packet::{NoMemory, Packet, Qos, Resend};
pub use replies::Replies;
pub use session::Session;
