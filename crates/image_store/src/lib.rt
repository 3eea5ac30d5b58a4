//! Images of a device: a bank that keeps one and tests a new one, and a writer that fills it in blocks.
#![tactic(auto)]

mod answers;
mod bank;
mod digest;
mod laws;
mod memory;
mod writer;

pub use answers::{Put, PutFault, Verdict};
pub use bank::Bank;
pub use laws::{fault_stands, new_stands, put_stands, whole_stands};
pub use memory::MemoryBank;
pub use writer::Writer;

#[cfg(test)]
mod tests;
