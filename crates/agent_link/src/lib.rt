//! The outside of the agent: where bytes come from and go to, and forms of it over memory for runs
//! that can be repeated.
#![tactic(auto)]

mod clock;
mod fault;
mod link;
mod memory;
mod page;
mod sink;
mod source;

pub use clock::{Clock, StepClock};
pub use fault::Fault;
pub use link::{Heard, Link};
pub use memory::plan::FailPlan;
pub use memory::sink::MemSink;
pub use memory::source::MemSource;
pub use page::Page;
pub use sink::{Sink, write_all};
pub use source::{Source, read_all};

#[cfg(test)]
mod tests;
