//! The exit status of a run, by its journal.

ghost use Rattle.std.specs.Prelude.{◌≡◌, reverse};
ghost use Rattle.std.specs.List.{list_any};
ghost use Rattle.journal_text.specs.Statuses as statuses;

use agent_journal::{Cause, Effect, Ending, Entry, Journal, Phase, Why};

/// The exit status that a journal's run ended with: 0, 3, 4, 5 or 6, by the entry behind which the agent
/// was off for the first time. It takes neither the setup nor the sizes that the journal is legal for.
/// Of a run that goes on the answer says nothing.
#[tactic(auto, using(crate::proofs::Told::tells_status))]
pub fn status_of(journal: &Journal) -> u8
    ensures told { result ≡ statuses.status_told (statuses.ending_told (reverse journal.now)) }
    ensures ended { statuses.TellsStatus journal.now result }
{
    status_told(ending_told(journal.as_slice()))
}

fn status_told(ending: Option<Ending>) -> u8
    ensures { result ≡ statuses.status_told ending }
{
    match ending {
        Some(ending) => ending.status(),
        None => 0,
    }
}

#[tactic(auto, using(crate::proofs::Told::ending_more, crate::proofs::Told::phase_more))]
fn ending_told(entries: &[Entry]) -> Option<Ending>
    ensures { result ≡ statuses.ending_told (reverse entries.now) }
{
    let mut ending = None;
    let mut phase = Phase::Up;
    for entry in entries {
        ending = told_by(entry, phase, ending);
        phase = phase_behind(&entry.cause);
    }
    ending
}

/// How the run has ended behind one more entry, which came in this phase.
fn told_by(entry: &Entry, phase: Phase, ending: Option<Ending>) -> Option<Ending>
    ensures { result ≡ statuses.told_by entry.now phase ending }
{
    if comes_behind(entry) {
        ending
    } else {
        Some(Ending::by(phase, &entry.cause))
    }
}

/// Whether an entry may stand behind the end. Such an entry never is the end.
fn comes_behind(entry: &Entry) -> bool
    ensures { result ≡ statuses.comes_behind entry.now.cause entry.now.effects }
{
    match &entry.cause {
        Cause::Take { .. } => !has_send(entry.effects.as_slice()),
        Cause::Broke { why } => matches!(why, Why::Fault),
        Cause::Opened | Cause::Arrived { .. } | Cause::Tick | Cause::GaveUp | Cause::Finish => {
            false
        }
    }
}

fn has_send(effects: &[Effect]) -> bool
    ensures { result ≡ list_any statuses.is_send effects.now }
{
    effects
        .iter()
        .any(|effect| matches!(effect, Effect::Send { .. }))
}

/// Directly behind Opened a CONNACK is awaited.
fn phase_behind(cause: &Cause) -> Phase
    ensures { result ≡ statuses.phase_behind cause.now }
{
    if matches!(cause, Cause::Opened) {
        Phase::Opening
    } else {
        Phase::Up
    }
}
