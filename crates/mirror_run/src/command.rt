//! The command `mirror`, from its words and its source to its text and status.

ghost use Rattle.std.specs.Prelude.{◌≡◌, ◌≢◌, ◌<◌, ◌≤◌};
ghost use Rattle.agent_link.specs.Counts.{raised};
ghost use Rattle.command_answers.specs.Answers.{sink_now};
ghost use Rattle.command_answers.specs.Sources.{source_now};
ghost use Rattle.mirror_run.specs.Answers.{EndsAhead, EndsMirror, steps_answer};
ghost use Rattle.mirror_run.specs.Steps.{steps_of};

use crate::call::mirror_call;
use crate::steps::{StepsFault, read_steps};
use agent_link::{Sink, Source};
use command_answers::{refuse_line, source_text};
use command_words::MirrorWords;
use std::alloc::Global;
use std::sync::Wait;
use std::thread::Threads;

/// Reads the source, which has lines `change HEX` and `publish`, and mirrors its changes. Answers the exit status: 0, or
/// 2 where the source has a bad line or too many bytes, 7 where memory ran out, 8 where the sink failed, and 9 where
/// the source failed.
pub fn mirror_command<R: Threads + Wait + Sync, S: Source, O: Sink>(
    rt: &R,
    alloc: Global,
    words: &MirrorWords,
    source: &mut S,
    out: &mut O,
) -> u8
    requires readers { (0 < words.now.readers) × (words.now.readers ≤ 8) }
    ensures ends { EndsMirror words.now result
        (source_now (S.left source.old) (S.faults source.old))
        (source_now (S.left source.new) (S.faults source.new))
        (sink_now (O.written out.old) (O.faults out.old))
        (sink_now (O.written out.new) (O.faults out.new)) }
    ensures no_words { result ≢ 1 }
    ensures source_fault { result ≡ 9 → S.faults source.new ≡ raised (S.faults source.old) }
{
    match source_text(alloc, source, out) {
        Ok(text) => mirror_text(rt, alloc, words, text.as_slice(), out),
        Err(status) => status,
    }
}

/// Mirrors the changes of a text.
fn mirror_text<R: Threads + Wait + Sync, O: Sink>(
    rt: &R,
    alloc: Global,
    words: &MirrorWords,
    text: &[u8],
    out: &mut O,
) -> u8
    requires readers { (0 < words.now.readers) × (words.now.readers ≤ 8) }
    ensures ends { EndsAhead words.now.readers result
        (sink_now (O.written out.old) (O.faults out.old)) (sink_now (O.written out.new) (O.faults out.new))
        (λ ahead. steps_answer words.now ahead (steps_of text.now)) }
    ensures no_words { result ≢ 1 }
    ensures no_source { result ≢ 9 }
{
    match read_steps(alloc, text) {
        Ok(steps) => mirror_call(rt, alloc, words, steps, out),
        Err(StepsFault::Line(number)) => refuse_line(out, number),
        Err(StepsFault::NoMemory) => 7,
    }
}
