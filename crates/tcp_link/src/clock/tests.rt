//! Readings of a clock.

use super::*;
use std::test::Fail;
use std::thread;
use std::time::Duration;

#[test]
fn a_reading_counts_milliseconds(rt: HostRuntime) -> Result<(), Fail> {
    let mut clock = SystemClock::new(&rt)?;
    let first = clock.now_ms();
    thread::sleep(&rt, Duration::from_millis(20));
    // A sleep may take longer, and never less.
    assert!(rt; first.saturating_add(20) <= clock.now_ms());
    Ok(())
}
