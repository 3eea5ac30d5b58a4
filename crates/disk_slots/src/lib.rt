//! A disk, and a file of two slots on it that holds a text whatever fails. It knows bytes alone.
#![tactic(auto)]

mod bytes;
mod crash;
mod disk;
mod faults;
mod file;
mod formatting;
mod frame;
mod memory;
mod opening;
mod saving;
mod slot;

pub use disk::{Broken, Disk};
pub use faults::{OpenFault, SaveFault};
pub use file::SlotFile;
pub use memory::MemoryDisk;

#[cfg(test)]
mod tests;
