//! Command lines that the table has, and some that it hasn't, each written from the table. They are tests of `command_words` through its
//! public calls, and stand apart so that it isn't proved with them once more.
#![tactic(auto)]

#[cfg(test)]
mod tests;
