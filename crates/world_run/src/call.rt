//! The world of a seed, from its words to its text.

ghost use Rattle.std.specs.Prelude.{◌≡◌, ◌≢◌, ◌≤◌};
ghost use Rattle.command_answers.specs.Answers.{Ends, sink_now};
ghost use Rattle.world_run.specs.Answers.{report, world_answer};
ghost use Rattle.command_answers.specs.Answers.{answer};

use agent_link::Sink;
use command_answers::exit_status;
use command_words::WorldWords;
use journal_text::{Part, write_parts};
use session_world::{Totals, run};
use std::alloc::Global;

/// Plays as many events of the seed as were asked for, and writes the seed, what came of the events, and `ok`. Answers the exit
/// status: 0, or 7 where memory ran out, or 8 where the sink failed, behind a front of the text.
#[tactic(auto, using(command_answers::proofs::Sourced::nothing))]
pub fn world_call<O: Sink>(alloc: Global, words: &WorldWords, out: &mut O) -> u8
    requires few { words.now.events ≤ 4000000000 }
    ensures ends { Ends result (sink_now (O.written out.old) (O.faults out.old))
        (sink_now (O.written out.new) (O.faults out.new)) (world_answer words.now) }
    ensures no_words { result ≢ 1 }
    ensures no_source { result ≢ 9 }
{
    match run(alloc, words.seed, words.events) {
        Ok(totals) => write_report(out, words, &totals),
        Err(_) => 7,
    }
}

#[tactic(auto, using(command_answers::proofs::Written::ends, command_answers::proofs::Written::one_of))]
fn write_report<O: Sink>(out: &mut O, words: &WorldWords, totals: &Totals) -> u8
    ensures ends { Ends result (sink_now (O.written out.old) (O.faults out.old))
        (sink_now (O.written out.new) (O.faults out.new)) (answer 0 (report words.now totals.now)) }
    ensures no_words { result ≢ 1 }
    ensures no_source { result ≢ 9 }
{
    let written = write_parts(
        out,
        &[
            Part::Plain(b"seed "),
            Part::Number(words.seed),
            Part::Plain(b" events "),
            Part::Number(u64::from(words.events)),
            Part::Plain(b"\ntaken "),
            Part::Number(totals.taken),
            Part::Plain(b" done "),
            Part::Total(totals.done),
            Part::Plain(b" passed "),
            Part::Number(totals.passed as u64),
            Part::Plain(b" local "),
            Part::Number(u64::from(totals.own)),
            Part::Plain(b" told "),
            Part::Total(totals.told),
            Part::Plain(b" breaks "),
            Part::Number(u64::from(totals.breaks)),
            Part::Plain(b"\nok\n"),
        ],
    );
    exit_status(written, 0)
}
