//! Many tasks on one connection: an agent and the ends of its tasks are made together, and what each of them did is put together
//! behind the end.
#![tactic(auto)]

mod ended;
mod gathering;
mod making;
mod opening;
mod run;

pub use ended::Room;
pub use gathering::gather;
pub use opening::open;
pub use run::Run;
