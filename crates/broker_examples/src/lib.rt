//! Exchanges of a broker with its clients, worked out by hand. They are tests of `broker_core` through its public calls, and stand apart
//! so that it isn't proved with them once more.
#![tactic(auto)]

#[cfg(test)]
mod tests;
