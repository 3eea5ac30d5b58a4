//! What a task holds of an agent that serves tasks of other threads: it submits commands, collects their outcomes by tickets, and
//! is handed its messages; and what is left of that behind its leave.
#![tactic(auto)]

mod answers;
mod collecting;
mod command;
mod commanding;
mod commands;
mod leaving;
mod left;
mod log;
mod logging;
mod outcome_log;
mod side;
mod sight;
mod staying;
mod submit;
mod taking;
mod task;
mod ticket;
mod whole;

pub use answers::{Collected, NextMessage, SubmitFault, Told};
pub use left::LeftEnd;
pub use log::{Counts, Fronts, TaskLog};
pub use outcome_log::OutcomeLog;
pub use task::{Parts, TaskEnd};
pub use ticket::Ticket;
