//! What a link counts.

ghost use Rattle.std.specs.Prelude.{◌≡◌};
ghost use Rattle.agent_link.specs.Counts.{uncounted, with_fault};
ghost use Rattle.tcp_link.specs.Looks.{with_heard};

use agent_link::Heard;
use std::marker::Model;

/// How often calls of a link failed, and its receives found the end or heard nothing. At the
/// greatest `u64` a count stays.
#[derive(Debug, Drop)]
pub struct Counts {
    pub faults: u64,
    pub ends: u64,
    pub nothings: u64,
}

impl Model for Counts {
    ghost use Rattle.agent_link.specs.Counts.{LinkCounts};

    ghost Value = { LinkCounts };

    ghost view = { λ c. record { faults = c.faults; ends = c.ends; nothings = c.nothings } };
}

impl Counts {
    pub fn new() -> Self
        ensures { result ≡ uncounted }
    {
        Counts {
            faults: 0,
            ends: 0,
            nothings: 0,
        }
    }

    /// Counts a call that failed.
    pub fn fault(&mut self)
        ensures { self.new ≡ with_fault self.old }
    {
        self.faults = self.faults.saturating_add(1);
    }

    /// Counts what a receive brought.
    pub fn heard(&mut self, heard: Heard)
        ensures { self.new ≡ with_heard heard self.old }
    {
        match heard {
            Heard::Bytes(_) => {}
            Heard::Nothing => self.nothings = self.nothings.saturating_add(1),
            Heard::End => self.ends = self.ends.saturating_add(1),
        }
    }
}
