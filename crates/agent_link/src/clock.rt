//! The time, in milliseconds.

ghost use Rattle.std.specs.Prelude.{◌≡◌, ℕ, ◌*◌, List, min};
ghost use Rattle.std.specs.declared.option.Option.{Option};
ghost use Rattle.agent_link.specs.Clocks.{AddsReading, step_reading, after_reading};

use std::marker::Model;

/// A clock that is read.
pub trait Clock {
    /// The readings so far, where the clock tells them.
    ghost readings: { Self → Option (List ℕ) };

    /// The present time, in milliseconds.
    fn now_ms(&mut self) -> u64
        ensures told { AddsReading (readings self.old) (readings self.new) result };
}

/// A clock that reads 0, step, 2 step and so on, up to the greatest `u64`.
#[derive(Debug, Drop)]
pub struct StepClock {
    step: u64,
    next: u64,
    calls: u128,
}

impl Model for StepClock {
    ghost use Rattle.std.specs.Prelude.{◌≡◌, ◌<◌, ◌^◌};
    ghost use Rattle.agent_link.specs.Clocks.{Stepping, step_reading};

    ghost Value = { Stepping };

    ghost view = { λ c. record { step = c.step; calls = c.calls } };

    ghost invariant = { λ c. c.next ≡ step_reading c.step c.calls };
}

impl StepClock {
    /// A clock that goes on by `step` milliseconds at each reading.
    pub fn new(step: u64) -> Self
        ensures { result ≡ record { step = step; calls = 0 } }
    {
        StepClock {
            step,
            next: 0,
            calls: 0,
        }
    }
}

impl Clock for StepClock {
    ghost use Rattle.agent_link.specs.Clocks.{told_readings};

    ghost readings = { told_readings };

    fn now_ms(&mut self) -> u64
        ensures told { AddsReading (told_readings self.old) (told_readings self.new) result }
        ensures value { result ≡ step_reading self.old.step self.old.calls }
        ensures onward { self.new ≡ after_reading self.old }
    {
        let now = self.next;
        self.next = now.saturating_add(self.step);
        self.calls = self.calls.saturating_add(1);
        now
    }
}
