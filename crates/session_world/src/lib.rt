//! The world: the agent and the broker over two lists of packets, which a break empties, and lists of events that a seed gives.
#![tactic(auto)]

mod draws;
mod event;
mod laws;
mod notes;
mod parts;
mod queue;
mod seeded;
mod totals;
mod world;

pub use draws::generate;
pub use event::{Event, Played};
pub use laws::{begins_empty, passed_once, stay_ready, told_once};
pub use mqtt_packet::NoMemory;
pub use seeded::run;
pub use totals::Totals;
pub use world::World;
