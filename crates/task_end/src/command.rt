//! Commands whose tickets are out.

use agent_journal::Outcome;

/// A command that was submitted and not collected: its number, its permit's, and how it ended, once that came.
#[derive(Drop)]
pub struct Command {
    pub(crate) seq: u32,
    pub(crate) number: u32,
    pub(crate) outcome: Option<Outcome>,
}
