//! Texts of saved sessions, worked out by hand. They are tests of `session_text` through its public calls, and stand apart so that it
//! isn't proved with them once more.
#![tactic(auto)]

#[cfg(test)]
mod tests;
