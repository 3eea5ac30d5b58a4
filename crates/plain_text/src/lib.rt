//! Texts of lines and words: how scripts, tapes and journals spell their lines, names and payloads.
#![tactic(auto)]

mod escapes;
mod lines;
mod numbers;
mod payloads;
mod refusal;
mod words;

pub use escapes::{escape, plain_len, text_of};
pub use lines::{is_passed, line_at};
pub use numbers::number_in;
pub use payloads::payload_of;
pub use refusal::Refusal;
pub use words::{last_at, word_at};

#[cfg(test)]
mod tests;
