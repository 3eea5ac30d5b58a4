//! What a task of a script does on its thread: it submits what its lines ask, waits where they say so, collects the outcome of each command,
//! and leaves.
#![tactic(auto)]

mod ending;
mod going;
mod laws;
mod parting;
mod pause;
mod running;
mod ticketed;
mod tried;
mod worker;

pub use ending::{Ending, Going};
pub use laws::{steps_are_read, steps_ask_as_lines};
pub use parting::{Steps, parted};
pub use running::{Worked, work};
pub use worker::Worker;
