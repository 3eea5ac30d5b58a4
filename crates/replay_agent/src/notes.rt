//! What a run needs to know of its journal at each round, so that it needn't look back.

ghost use Rattle.std.specs.Prelude.{◌≡◌, ℕ, ◌+◌, ◌-◌, ◌*◌, ◌^◌, ◌<◌, ◌≤◌, ◌||◌, true, false, None, count_by};
ghost use Rattle.std.specs.List.{list_any};
ghost use Rattle.agent_journal.specs.Endings.{ending_behind};
ghost use Rattle.agent_journal.specs.Projections as projections;
ghost use Rattle.agent_journal.specs.Readings.{takes_by, takes_behind, leaves_by};
ghost use Rattle.replay_rounds.specs.Lines as lines;

use agent_journal::{Cause, Effect, Ending, Entry, Phase, Request};

/// Readings of a journal, of its one task.
#[derive(Debug, Drop)]
pub(crate) struct Notes {
    /// How many requests were taken.
    pub(crate) taken: u32,
    /// How many messages came.
    pub(crate) messages: u128,
    /// Whether the task was told that the agent has ended.
    pub(crate) closed: bool,
    /// Whether Leave was taken.
    pub(crate) left: bool,
    /// How the agent ended, once it has.
    pub(crate) ending: Option<Ending>,
}

impl Notes {
    /// Of a journal without entries.
    pub(crate) fn new() -> Self
        ensures counts { (result.taken ≡ 0) × (result.messages ≡ 0) }
        ensures nothing { (result.closed ≡ false) × (result.left ≡ false) × (result.ending ≡ None) }
    {
        Notes {
            taken: 0,
            messages: 0,
            closed: false,
            left: false,
            ending: None,
        }
    }

    /// Of one more entry, behind so many, with the phases before and behind it.
    pub(crate) fn add(&mut self, entries: usize, before: Phase, behind: Phase, entry: &Entry)
        requires room { takes_by 0 entry.now.cause ≡ true → self.old.taken < 2 ^ 32 - 1 }
        requires few { self.old.messages ≤ entries * 2 ^ 64 }
        ensures taken { self.new.taken ≡ takes_behind 0 entry.now.cause self.old.taken }
        ensures messages { self.new.messages ≡ self.old.messages + count_by (projections.is_pass 0) entry.now.effects }
        ensures few { self.new.messages ≤ (entries + 1) * 2 ^ 64 }
        ensures closed { self.new.closed ≡ (list_any lines.is_closed entry.now.effects || self.old.closed) }
        ensures left { self.new.left ≡ (leaves_by 0 entry.now.cause || self.old.left) }
        ensures ending { self.new.ending ≡ ending_behind before behind entry.now.cause self.old.ending }
    {
        let effects = entry.effects.as_slice();
        self.ending = Ending::behind(before, behind, &entry.cause, self.ending);
        self.messages += passes_in(effects) as u128;
        self.closed = closes(effects) || self.closed;
        self.left = is_leave(&entry.cause) || self.left;
        self.taken = taken_behind(&entry.cause, self.taken);
    }
}

fn taken_behind(cause: &Cause, taken: u32) -> u32
    requires { takes_by 0 cause.now ≡ true → taken < 2 ^ 32 - 1 }
    ensures { result ≡ takes_behind 0 cause.now taken }
{
    if is_take(cause) { taken + 1 } else { taken }
}

/// Whether a cause is a Take of the one task.
fn is_take(cause: &Cause) -> bool
    ensures { result ≡ takes_by 0 cause.now }
{
    match cause {
        Cause::Take { task, .. } => *task == 0,
        Cause::Opened
        | Cause::Arrived { .. }
        | Cause::Broke { .. }
        | Cause::Tick
        | Cause::GaveUp
        | Cause::Finish => false,
    }
}

/// Whether a cause is the Leave of the one task.
fn is_leave(cause: &Cause) -> bool
    ensures { result ≡ leaves_by 0 cause.now }
{
    match cause {
        Cause::Take {
            task,
            request: Request::Leave,
            ..
        } => *task == 0,
        _ => false,
    }
}

/// How many messages these effects pass to the task.
fn passes_in(effects: &[Effect]) -> usize
    ensures value { result ≡ count_by (projections.is_pass 0) effects.now }
    ensures small { result < 2 ^ 64 }
{
    let mut count = 0;
    for effect in effects {
        if is_pass(effect) {
            count += 1;
        }
    }
    count
}

fn is_pass(effect: &Effect) -> bool
    ensures { result ≡ projections.is_pass 0 effect.now }
{
    match effect {
        Effect::Pass { task, .. } => *task == 0,
        Effect::Send { .. } | Effect::Done { .. } | Effect::Closed { .. } => false,
    }
}

/// Whether these effects tell the task that the agent has ended.
fn closes(effects: &[Effect]) -> bool
    ensures { result ≡ list_any lines.is_closed effects.now }
{
    effects.iter().any(|effect| is_closed(effect))
}

fn is_closed(effect: &Effect) -> bool
    ensures { result ≡ lines.is_closed effect.now }
{
    match effect {
        Effect::Closed { task } => *task == 0,
        Effect::Send { .. } | Effect::Done { .. } | Effect::Pass { .. } => false,
    }
}
