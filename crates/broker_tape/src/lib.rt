//! Brokers on tape: what each connection of a broker gives and takes, read from a text, and a link that plays it.
#![tactic(auto)]

mod laws;
mod link;
mod played;
mod tape;

pub use laws::read_tapes_give_bytes;
pub use link::TapeLink;
pub use tape::{Item, Tape, TapeFault, read_tape};

#[cfg(test)]
mod tests;
