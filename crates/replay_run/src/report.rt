//! What a replay prints: its journal, a line for its task, one for the kinds of its messages and one for how it ended.

ghost use Rattle.std.specs.Prelude.{◌≡◌, ◌++◌, ◌+◌, ◌^◌, ◌<◌, reverse, count_by, IfOk, IsErrOf};
ghost use Rattle.std.specs.List.{flat_map, AllByRecursion};
ghost use Rattle.agent_link.specs.Counts.{counted};
ghost use Rattle.agent_link.specs.Writes.{Writes};
ghost use Rattle.agent_journal.specs.Sound.{IsSoundEntry};
ghost use Rattle.agent_journal.specs.Projections as projections;
ghost use Rattle.journal_text.specs.Texts.{journal_text, entry_text, last_line};
ghost use Rattle.replay_run.specs.Answers.{task_line, kinds_of, kinds_line, report};

use agent_journal::{Cause, Effect, Ending, Entry, Request};
use agent_link::{Fault, Page, Sink};
use journal_text::{Part, write_entry, write_parts};
use list_types::Text;
use replay_agent::Replayed;
use std::alloc::Global;
use thing_script::kinds_of;

/// The printed text of what a replay left.
pub(crate) fn report_of(
    alloc: Global,
    thing: &Option<Text>,
    replayed: &Replayed,
) -> Result<Page, Fault>
    requires sound { AllByRecursion IsSoundEntry replayed.now.journal }
    requires messages { replayed.now.messages ≡ projections.messages_of 0 (reverse replayed.now.journal) }
    ensures { IfOk result (λ page. page ≡ report thing.now (reverse replayed.now.journal) replayed.now.ending) }
{
    let mut page = Page::new(alloc);
    let journal = replayed.journal.as_slice();
    write_journal(&mut page, journal)?;
    write_task_line(&mut page, journal, replayed.messages)?;
    write_kinds_line(&mut page, thing, journal)?;
    write_last_line(&mut page, replayed.ending)?;
    Ok(page)
}

fn write_journal<O: Sink>(out: &mut O, journal: &[Entry]) -> Result<(), Fault>
    requires { AllByRecursion IsSoundEntry journal.now }
    ensures text { Writes (O.written out.old) (O.written out.new) result (journal_text journal.now) }
    ensures cause { O.faults out.new ≡ counted result (O.faults out.old) }
{
    for entry in journal {
        write_entry(out, entry)?;
    }
    Ok(())
}

/// How many commands the task sent, how many completions it got and how many messages.
fn write_task_line<O: Sink>(out: &mut O, journal: &[Entry], messages: u128) -> Result<(), Fault>
    requires { messages ≡ projections.messages_of 0 (reverse journal.now) }
    ensures text { Writes (O.written out.old) (O.written out.new) result (task_line 0 (reverse journal.now)) }
    ensures cause { O.faults out.new ≡ counted result (O.faults out.old) }
{
    let tally = tally_of(journal);
    write_parts(
        out,
        &[
            Part::Plain(b"task "),
            Part::Number(0),
            Part::Plain(b" sent "),
            Part::Total(tally.sent),
            Part::Plain(b" got "),
            Part::Total(tally.got),
            Part::Plain(b" messages "),
            Part::Total(messages),
            Part::Plain(b"\n"),
        ],
    )
}

/// With a thing, how many of the task's messages have topics of its shadows, and of its jobs.
fn write_kinds_line<O: Sink>(
    out: &mut O,
    thing: &Option<Text>,
    journal: &[Entry],
) -> Result<(), Fault>
    ensures text { Writes (O.written out.old) (O.written out.new) result (kinds_line 0 thing.now journal.now) }
    ensures cause { O.faults out.new ≡ counted result (O.faults out.old) }
{
    match thing {
        Some(thing) => write_kinds(out, thing.as_str(), journal),
        None => Ok(()),
    }
}

#[tactic(auto, unfolding(crate::specs::Answers::kinds_of))]
fn write_kinds<O: Sink>(out: &mut O, thing: &str, journal: &[Entry]) -> Result<(), Fault>
    ensures text { Writes (O.written out.old) (O.written out.new) result (kinds_of 0 thing.now journal.now) }
    ensures cause { O.faults out.new ≡ counted result (O.faults out.old) }
{
    let kinds = kinds_of(thing, journal, 0);
    write_parts(
        out,
        &[
            Part::Plain(b"kinds "),
            Part::Number(0),
            Part::Plain(b" shadow "),
            Part::Total(kinds.shadow),
            Part::Plain(b" jobs "),
            Part::Total(kinds.jobs),
            Part::Plain(b"\n"),
        ],
    )
}

fn write_last_line<O: Sink>(out: &mut O, ending: Ending) -> Result<(), Fault>
    ensures text { Writes (O.written out.old) (O.written out.new) result (last_line ending) }
    ensures cause { O.faults out.new ≡ counted result (O.faults out.old) }
{
    write_parts(
        out,
        &[
            Part::Plain(ending.word().as_bytes()),
            Part::Count(ending.code()),
            Part::Plain(b"\n"),
        ],
    )
}

/// What a journal has of its task.
#[derive(Clone, Copy)]
struct Tally {
    /// Commands that the agent took.
    sent: u128,
    /// Completions.
    got: u128,
}

#[tactic(auto, using(crate::proofs::Tallies::commands_on, crate::proofs::Tallies::commands_all, crate::proofs::Tallies::completed_on, crate::proofs::Tallies::completed_all))]
fn tally_of(journal: &[Entry]) -> Tally
    ensures sent { result.sent ≡ projections.commands_of 0 (reverse journal.now) }
    ensures got { result.got ≡ projections.completed_of 0 (reverse journal.now) }
{
    let mut sent: u128 = 0;
    let mut got: u128 = 0;
    for entry in journal {
        sent += u128::from(commands_by(&entry.cause));
        got += dones_in(entry.effects.as_slice()) as u128;
    }
    Tally { sent, got }
}

/// 1 for a Take of the task that isn't its Leave.
fn commands_by(cause: &Cause) -> u8
    ensures value { result ≡ projections.commands_by 0 cause.now }
    ensures small { result < 2 }
{
    match cause {
        Cause::Take {
            task: 0,
            request: Request::Leave,
            ..
        } => 0,
        Cause::Take { task: 0, .. } => 1,
        _ => 0,
    }
}

fn dones_in(effects: &[Effect]) -> usize
    ensures value { result ≡ count_by (projections.is_done 0) effects.now }
    ensures small { result < 2 ^ 64 }
{
    let mut count = 0;
    for effect in effects {
        if is_done(effect) {
            count += 1;
        }
    }
    count
}

fn is_done(effect: &Effect) -> bool
    ensures { result ≡ projections.is_done 0 effect.now }
{
    match effect {
        Effect::Done { task, .. } => *task == 0,
        _ => false,
    }
}
