//! Tickets of commands.

ghost use Rattle.std.specs.Prelude.{◌≡◌};

use command_pool::Permit;

/// The right to collect the outcome of one command. It has to be spent by a `collect` that answers it: a program that drops a
/// ticket doesn't compile.
pub struct Ticket {
    pub(crate) permit: Permit,
    pub(crate) seq: u32,
}

impl Ticket {
    /// The number of its command among the requests of its task, from 0.
    pub fn seq(&self) -> u32
        ensures { result ≡ self.now.seq }
    {
        self.seq
    }
}
