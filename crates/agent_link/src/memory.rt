//! The outside over memory.

pub mod plan;
pub mod sink;
pub mod source;
