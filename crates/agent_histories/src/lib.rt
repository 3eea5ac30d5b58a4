//! Histories of the agent in bytes, worked out by hand from the standard and from the project's own rules. They are tests of
//! `agent_core` through its public calls, and stand apart so that the core isn't proved with them once more.
#![tactic(auto)]

#[cfg(test)]
mod tests;
