//! The command `replay`, from its words and its source to its text and status.

ghost use Rattle.std.specs.Prelude.{◌≡◌, ◌≢◌, ◌-◌, ◌≤◌, length, drop, true, Ok};
ghost use Rattle.std.specs.List.{AllByRecursion};
ghost use Rattle.std.specs.Option.{option_copied};
ghost use Rattle.plain_text.specs.Lines.{lines_of};
ghost use Rattle.agent_link.specs.Counts.{raised};
ghost use Rattle.broker_tape.specs.Tape.{tape_in};
ghost use Rattle.agent_journal.specs.Setups.{is_client};
ghost use Rattle.command_answers.specs.Answers.{Ends, sink_now};
ghost use Rattle.command_answers.specs.Sources.{EndsBySource, source_limit, source_now};
ghost use Rattle.agent_script.specs.Asked.{IsPlainLine};
ghost use Rattle.replay_rounds.specs.Asked.{IsValidLine};
ghost use Rattle.replay_run.specs.Answers.{replay_answer};
ghost use Rattle.replay_run.specs.Commands as answers;
ghost use Rattle.replay_run.specs.Headline.{HasRun, PrintsReplay};
ghost use Rattle.thing_script.specs.Plain.{IsShortLine};

use crate::call::replay_call;
use crate::lines::{count_lines, first_said};
use agent_link::{Sink, Source};
use agent_script::{Script, ScriptFault, read_script};
use broker_tape::{Tape, TapeFault, read_tape};
use command_answers::{refuse_line, source_text};
use command_words::{RunWords, Size};
use std::alloc::Global;
use thing_script::{LineFault, with_topics};

/// Reads the source, which spells a script and a tape, and replays it. Answers the exit status: 0 where the agent ended as it
/// was asked to, 3 where it gave up its link, 4 where the broker refused it, 5 where the broker's bytes were wrong, and 6 where
/// the broker held an old session; 2 where the source has a bad line or too many bytes, 7 where memory ran out, 8 where the
/// sink failed, and 9 where the source failed.
#[tactic(auto, using(crate::proofs::Printed::prints_replay))]
pub fn replay_command<S: Source, O: Sink>(
    alloc: Global,
    words: &RunWords,
    source: &mut S,
    out: &mut O,
) -> u8
    requires client { is_client words.now.client ≡ true }
    requires reopen { words.now.reopen ≤ 4294967294 }
    ensures ends { EndsBySource result (source_now (S.left source.old) (S.faults source.old)) (source_now (S.left source.new) (S.faults source.new))
        (sink_now (O.written out.old) (O.faults out.old))
        (sink_now (O.written out.new) (O.faults out.new)) (answers.source_answer words.now) }
    // Where an agent ran, what is written is one legal history of it.
    ensures history { HasRun result →
        PrintsReplay words.now (S.left source.old) result (O.written out.old) (O.written out.new) }
    ensures no_words { result ≢ 1 }
    ensures source_fault { result ≡ 9 → S.faults source.new ≡ raised (S.faults source.old) }
{
    replay_source(alloc, words, source, out)
}

/// Reads the source to its end and replays its text.
#[tactic(auto, using(crate::proofs::Told::source_told))]
fn replay_source<S: Source, O: Sink>(
    alloc: Global,
    words: &RunWords,
    source: &mut S,
    out: &mut O,
) -> u8
    requires client { is_client words.now.client ≡ true }
    requires reopen { words.now.reopen ≤ 4294967294 }
    ensures ends { EndsBySource result (source_now (S.left source.old) (S.faults source.old)) (source_now (S.left source.new) (S.faults source.new))
        (sink_now (O.written out.old) (O.faults out.old))
        (sink_now (O.written out.new) (O.faults out.new)) (answers.source_answer words.now) }
    ensures no_words { result ≢ 1 }
    ensures source_fault { result ≡ 9 → S.faults source.new ≡ raised (S.faults source.old) }
{
    match source_text(alloc, source, out) {
        Ok(text) => replay_text(alloc, words, text.as_slice(), out),
        Err(status) => status,
    }
}

/// Replays what a text spells.
#[tactic(auto, using(crate::proofs::Told::line_told, replay_agent::proofs::ReadLines::read_script_valid, thing_script::proofs::Short::read_script_short))]
fn replay_text<O: Sink>(alloc: Global, words: &RunWords, text: &[u8], out: &mut O) -> u8
    requires client { is_client words.now.client ≡ true }
    requires reopen { words.now.reopen ≤ 4294967294 }
    requires few { length text.now ≤ source_limit }
    ensures ends { Ends result (sink_now (O.written out.old) (O.faults out.old))
        (sink_now (O.written out.new) (O.faults out.new)) (answers.text_answer words.now text.now) }
    ensures no_words { result ≢ 1 }
    ensures no_source { result ≢ 9 }
{
    match read_script(alloc, text) {
        Ok((script, at)) => replay_lines(alloc, words, text, script, at, out),
        Err(ScriptFault::Line(number)) => refuse_line(out, number),
        Err(ScriptFault::NoMemory) => 7,
    }
}

/// Makes the lines on shadows and jobs publishes, and replays the script.
#[tactic(auto, using(crate::proofs::Told::named_told, crate::proofs::Told::topic_told, crate::proofs::Told::tasks_told, crate::proofs::Printed::same_tasks, command_answers::proofs::Sourced::nothing))]
fn replay_lines<O: Sink>(
    alloc: Global,
    words: &RunWords,
    text: &[u8],
    script: Script,
    at: usize,
    out: &mut O,
) -> u8
    requires client { is_client words.now.client ≡ true }
    requires reopen { words.now.reopen ≤ 4294967294 }
    requires lines { script.tasks ≡ 1 → AllByRecursion IsValidLine script.lines }
    requires short { AllByRecursion IsShortLine script.lines }
    requires few { (length script.lines ≤ length text.now) × (length text.now ≤ source_limit) }
    requires within { at ≤ length text.now }
    ensures ends { Ends result (sink_now (O.written out.old) (O.faults out.old))
        (sink_now (O.written out.new) (O.faults out.new))
        (answers.script_answer words.now text.now (Ok (script, lines_of (drop at text.now)))) }
    ensures no_words { result ≢ 1 }
    ensures no_source { result ≢ 9 }
{
    if script.tasks != 1 {
        return refuse_line(out, first_said(text));
    }
    match with_topics(alloc, script, thing_of(words)) {
        Ok(script) => replay_tape(alloc, words, text, &script, at, out),
        Err(LineFault::Line(number)) => refuse_line(out, number),
        Err(LineFault::NoMemory) => 7,
    }
}

/// The thing whose shadow and jobs the script's lines speak of.
fn thing_of(words: &RunWords) -> Option<&str>
    ensures { option_copied result ≡ words.now.thing }
{
    match &words.thing {
        Some(thing) => Some(thing.as_str()),
        None => None,
    }
}

/// Reads the tape, whose lines are counted on from those of the script, and replays the script against it.
#[tactic(auto, using(crate::proofs::Told::tape_told, command_answers::proofs::Sourced::nothing))]
fn replay_tape<O: Sink>(
    alloc: Global,
    words: &RunWords,
    text: &[u8],
    script: &Script,
    at: usize,
    out: &mut O,
) -> u8
    requires client { is_client words.now.client ≡ true }
    requires reopen { words.now.reopen ≤ 4294967294 }
    requires one_task { script.now.tasks ≡ 1 }
    requires lines { AllByRecursion IsValidLine script.now.lines }
    requires plain { AllByRecursion IsPlainLine script.now.lines }
    requires few { (length script.now.lines ≤ length text.now) × (length text.now ≤ source_limit) }
    requires within { at ≤ length text.now }
    ensures ends { Ends result (sink_now (O.written out.old) (O.faults out.old))
        (sink_now (O.written out.new) (O.faults out.new))
        (answers.tape_answer words.now (length (lines_of text.now) - length (lines_of (drop at text.now))) script.now (tape_in (lines_of (drop at text.now)))) }
    ensures no_words { result ≢ 1 }
    ensures no_source { result ≢ 9 }
{
    let (_, rest) = text.split_at(at);
    match read_tape(alloc, rest) {
        Ok(tape) => replay_sized(alloc, words, script, tape, out),
        Err(TapeFault::Line(number)) => {
            let before = count_lines(text).saturating_sub(count_lines(rest));
            refuse_line(out, before + number)
        }
        Err(TapeFault::NoMemory) => 7,
    }
}

/// Replays with an agent of the size that was asked for.
fn replay_sized<O: Sink>(
    alloc: Global,
    words: &RunWords,
    script: &Script,
    tape: Tape,
    out: &mut O,
) -> u8
    requires client { is_client words.now.client ≡ true }
    requires reopen { words.now.reopen ≤ 4294967294 }
    requires one_task { script.now.tasks ≡ 1 }
    requires lines { AllByRecursion IsValidLine script.now.lines }
    requires plain { AllByRecursion IsPlainLine script.now.lines }
    requires few { length script.now.lines ≤ source_limit }
    ensures ends { Ends result (sink_now (O.written out.old) (O.faults out.old))
        (sink_now (O.written out.new) (O.faults out.new))
        (replay_answer words.now (answers.sizes_in words.now.size) script.now tape) }
    ensures no_words { result ≢ 1 }
    ensures no_source { result ≢ 9 }
{
    match words.size {
        Size::Tiny => replay_call::<O, 2, 2, 2>(alloc, words, script, tape, out),
        Size::Usual => replay_call::<O, 20, 20, 32>(alloc, words, script, tape, out),
    }
}
