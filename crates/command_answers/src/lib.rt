//! The end of every command: its text is written, and its exit status told; and the source of those that read one.
#![tactic(auto)]

mod exit;
mod source;

pub use exit::{exit_status, finish};
pub use source::{SOURCE_LIMIT, refuse_line, source_text};

#[cfg(test)]
mod tests;
