//! The history of the sequential agent: its requests, causes, effects and entries, and what is read off
//! it.
#![tactic(auto)]

mod effect;
mod ending;
mod entry;
mod laws;
mod message;
mod off;
mod outcome;
mod request;
mod setup;

pub use effect::Effect;
pub use ending::Ending;
pub use entry::{Cause, Entry, Why};
pub use laws::{entries_add_notes, notes_are_projections};
use list_types::Seq;
pub use message::Message;
pub use off::OffBy;
pub use outcome::Outcome;
pub use request::Request;
pub use setup::{Phase, Setup};

/// The effects of an entry, in order.
pub type Effects = Seq<Effect>;

/// Outcomes by the number of their command, as a task collected them.
pub type Outcomes = Seq<(u32, Outcome)>;

/// Entries in their order. Its `push` hands the entry back where memory runs out.
pub type Journal = Seq<Entry>;
