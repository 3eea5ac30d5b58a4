//! Small owning types that contracts see as plain lists, so that a definition
//! never meets a `Vec` or a `String`.
#![tactic(auto)]

mod copied;
mod seq;
mod text;

pub use copied::Copied;
pub use seq::{Blob, Seq};
pub use text::Text;

#[cfg(test)]
mod tests;
