//! A shadow document for readers on their own threads, whose reads never go back.
#![tactic(auto)]

mod document;
mod history;
mod known;
mod page;
mod reader;
mod writer;

pub use document::Document;
pub use reader::{MirrorReader, Told};
pub use writer::{MirrorWriter, all_cross, mirror};

/// Want of memory.
pub type NoMemory = std::alloc::AllocError;

#[cfg(test)]
mod tests;
