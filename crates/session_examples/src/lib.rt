//! What the sequential agent keeps, at small and large sizes. They are tests of `qos_state`, `pending_acks`, `subscriptions` and
//! `session_resume` through their public calls, and stand apart so that these aren't proved with them once more.
#![tactic(auto)]

#[cfg(test)]
mod tests;
