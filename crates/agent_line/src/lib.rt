//! The sequential agent over any link: it keeps its journal, and what of it is tied to the link. One call, one entry; it knows no
//! script, no thread and no queue.
#![tactic(auto)]

mod line;
mod recorder;
mod telling;
mod time;
mod wire;

pub use line::{Came, Line};
pub use recorder::Recorder;
pub use telling::Telling;
pub use time::read;
pub use wire::spell;
