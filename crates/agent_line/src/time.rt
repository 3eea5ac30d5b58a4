//! The times of entries.

ghost use Rattle.std.specs.Prelude.{◌≤◌};
ghost use Rattle.agent_journal.specs.Readings.{last_time_of};
ghost use Rattle.agent_line.specs.Times.{KeepsTimes};

use crate::recorder::Recorder;
use agent_link::Clock;

/// The time for entries that are made now, in milliseconds: what the clock reads, or the time of the newest entry where that is
/// later. So a clock that goes back stops no agent, and each entry's time is still one that the clock read.
#[tactic(auto, using(crate::proofs::Timing::keeps_times))]
pub fn read<C: Clock, const ACKS: usize, const IN: usize, const ROUTES: usize>(
    recorder: &Recorder<ACKS, IN, ROUTES>,
    clock: &mut C,
) -> u64
    ensures onward { last_time_of recorder.now.past ≤ result }
    ensures timed { KeepsTimes recorder.now.past (C.readings clock.old) result (C.readings clock.new) }
{
    clock.now_ms().max(recorder.last_time())
}
