//! The time since a clock was made.

ghost use Rattle.std.specs.Prelude.{◌≡◌, ◌≤◌, None};
ghost use Rattle.agent_link.specs.Clocks.{AddsReading};

use agent_link::Clock;
use std::io;
use std::time::{self, Instant};

/// The milliseconds since the clock was made, up to the greatest `u64`. They never fall: where the
/// system gives no time, or one before the last reading, the last reading stands. It tells no
/// readings.
#[derive(Drop)]
pub struct SystemClock<'r, R: time::Clock> {
    rt: &'r R,
    start: Instant,
    last: u64,
}

impl<'r, R: time::Clock> SystemClock<'r, R> {
    /// A clock that begins now. It fails where the system gives no time.
    pub fn new(rt: &'r R) -> io::Result<Self> {
        Ok(SystemClock {
            rt,
            start: Instant::now(rt)?,
            last: 0,
        })
    }
}

impl<'r, R: time::Clock> Clock for SystemClock<'r, R> {
    ghost readings = { λ _. None };

    fn now_ms(&mut self) -> u64
        ensures told { AddsReading None None result }
        ensures last { self.new.last ≡ result }
        ensures onward { self.old.last ≤ result }
    {
        if let Ok(passed) = self.start.elapsed(self.rt) {
            let now = u64::try_from(passed.as_millis()).unwrap_or(u64::MAX);
            self.last = self.last.max(now);
        }
        self.last
    }
}

#[cfg(test)]
mod tests;
