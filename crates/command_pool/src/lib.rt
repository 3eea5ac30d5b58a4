//! The pool of command numbers. Each number is free or held by one pass, and passes of any threads
//! take numbers and give them back in single atomic steps, without waiting.
#![tactic(auto)]

mod bits;
mod hand;
mod laws;
mod pass;
mod permit;
mod pool;
mod rule;

pub use hand::PoolStep;
pub use laws::each_moment_is_lawful;
pub use pass::PoolPass;
pub use permit::{Permit, TakeFault};
pub use pool::CommandPool;

#[cfg(test)]
mod tests;
