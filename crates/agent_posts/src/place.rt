//! Places in a journal, and the next one that tells a task something.

ghost use Rattle.std.specs.Prelude.{◌≡◌, ◌<◌, ◌-◌, ◌^◌, IfSome, IfNone};
ghost use Rattle.agent_posts.specs.Waiting as waiting;
ghost use Rattle.agent_posts.specs.Waiting.{IsNextIn, NoneIn, IsTold, WaitsAlike, NoneWaits};

use agent_journal::{Effect, Entry};

/// A place in a journal: so many entries were gone past, and of the next one so many effects.
#[derive(Clone, Copy, Debug, PartialEq, Eq)]
pub struct Place {
    pub entry: usize,
    pub effects: usize,
}

/// The next place, from one on, at which one of the first tasks is told something, this many; and that task.
pub(crate) fn next_told(entries: &[Entry], from: Place, tasks: usize) -> Option<(Place, u32)>
    ensures told { IfSome result (λ next. IsTold tasks entries.now next.0 next.1) }
    ensures short { IfSome result (λ next. next.0.effects < 2 ^ 64 - 1) }
    ensures none_between { IfSome result (λ next. WaitsAlike tasks entries.now from next.0) }
    ensures none { IfNone result (NoneWaits tasks entries.now from) }
{
    let mut place = from;
    while let Some(entry) = entries.get(place.entry) {
        match next_in(entry.effects.as_slice(), place.effects, tasks) {
            Some((effects, task)) => return Some((Place { effects, ..place }, task)),
            None => {
                place = Place {
                    entry: place.entry + 1,
                    effects: 0,
                }
            }
        }
    }
    None
}

/// The same among the effects of one entry, from one of them on.
fn next_in(effects: &[Effect], from: usize, tasks: usize) -> Option<(usize, u32)>
    ensures next { IfSome result (IsNextIn tasks effects.now from) }
    ensures short { IfSome result (λ next. next.0 < 2 ^ 64 - 1) }
    ensures none { IfNone result (NoneIn tasks effects.now from) }
{
    let mut at = from;
    while let Some(effect) = effects.get(at) {
        match addressee(effect, tasks) {
            Some(task) => return Some((at, task)),
            None => at += 1,
        }
    }
    None
}

/// The task that is told of an effect, where it is one of the first, this many.
fn addressee(effect: &Effect, tasks: usize) -> Option<u32>
    ensures { result ≡ waiting.addressee tasks effect.now }
{
    match effect {
        Effect::Send { .. } => None,
        Effect::Done { task, .. } | Effect::Pass { task, .. } | Effect::Closed { task } => {
            if (*task as usize) < tasks {
                Some(*task)
            } else {
                None
            }
        }
    }
}
