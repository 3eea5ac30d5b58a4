//! Waiting for another thread without burning a processor.

use std::sync::Wait;
use std::thread;
use std::thread::Parker;
use std::time::Duration;

/// How often it gives way before it sleeps.
const YIELDS: u32 = 16;

/// The longest sleep, in microseconds.
const LONGEST: u64 = 100;

/// How long a task rests that had nothing to do: first it gives way, and then it sleeps, longer each time.
#[derive(Clone, Copy, Debug)]
pub(crate) struct Pause {
    yields: u32,
    micros: u64,
}

impl Pause {
    pub(crate) fn new() -> Pause {
        Pause {
            yields: 0,
            micros: 1,
        }
    }

    /// Rests once, and longer the next time.
    pub(crate) fn rest<R: Wait>(&mut self, rt: &R) {
        if self.yields < YIELDS {
            self.yields += 1;
            thread::yield_now();
            return;
        }
        Parker::new().park_timeout(rt, Duration::from_micros(self.micros));
        self.micros = self.micros.saturating_mul(2).min(LONGEST);
    }
}
