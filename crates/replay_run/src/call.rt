//! A replay, from its script and tape to its text.

ghost use Rattle.std.specs.Prelude.{◌≡◌, ◌≢◌, ◌<◌, ◌≤◌, length, true, IfOk};
ghost use Rattle.std.specs.List.{AllByRecursion};
ghost use Rattle.broker_tape.specs.Given.{GivesBytes};
ghost use Rattle.agent_journal.specs.Setups.{is_client};
ghost use Rattle.command_words.specs.Setups.{setup_of};
ghost use Rattle.agent_script.specs.Asked.{IsPlainLine};
ghost use Rattle.replay_rounds.specs.Asked.{IsValidLine};
ghost use Rattle.replay_agent.specs.Runs.{sizes_of};
ghost use Rattle.command_answers.specs.Answers.{Ends, IsPlain, answer, sink_now};
ghost use Rattle.replay_run.specs.Answers.{replay_answer};
ghost use Rattle.replay_run.specs.Headline.{PrintsHistory};

use crate::report::report_of;
use agent_link::{Page, Sink};
use agent_script::Script;
use broker_tape::Tape;
use command_answers::finish;
use command_words::RunWords;
use mqtt_packet::NoMemory;
use replay_agent::replay;
use std::alloc::{AllocError, Global};

/// Replays a script of one task against a tape and writes the journal, the task's line, with a thing the line of its
/// messages' kinds, and the last line. Answers the exit status: that of how the agent ended, or 7 where memory ran out, or
/// 8 where the sink failed, behind a front of the text.
#[tactic(auto, using(crate::proofs::Headline::prints_history, command_answers::proofs::Sourced::nothing))]
pub fn replay_call<O: Sink, const ACKS: usize, const IN: usize, const ROUTES: usize>(
    alloc: Global,
    words: &RunWords,
    script: &Script,
    tape: Tape,
    out: &mut O,
) -> u8
    requires sizes { (0 < ACKS) × (ACKS ≤ 1024) × (0 < IN) × (IN ≤ 1024) × (0 < ROUTES) × (ROUTES ≤ 1024) }
    requires client { is_client words.now.client ≡ true }
    requires reopen { words.now.reopen ≤ 4294967294 }
    requires one_task { script.now.tasks ≡ 1 }
    requires lines { AllByRecursion IsValidLine script.now.lines }
    requires plain { AllByRecursion IsPlainLine script.now.lines }
    requires few { length script.now.lines ≤ 4000000000 }
    ensures ends { Ends result (sink_now (O.written out.old) (O.faults out.old))
        (sink_now (O.written out.new) (O.faults out.new)) (replay_answer words.now (sizes_of ACKS IN ROUTES) script.now tape) }
    // What is printed is one legal history of the agent, tied to the tape and the clock.
    ensures history { result ≢ 7 → result ≢ 8 → GivesBytes tape →
        PrintsHistory (setup_of words.now script.now.tasks) (sizes_of ACKS IN ROUTES) words.now.tick words.now.thing script.now tape result (O.written out.old) (O.written out.new) }
    ensures no_words { result ≢ 1 }
    ensures no_source { result ≢ 9 }
{
    match replayed::<ACKS, IN, ROUTES>(alloc, words, script, tape) {
        Ok((page, status)) => finish(out, page.as_slice(), status),
        Err(_) => 7,
    }
}

/// The text of a replay, and its status.
#[tactic(auto, using(crate::proofs::Answered::answered, crate::proofs::Answered::plain_status))]
fn replayed<const ACKS: usize, const IN: usize, const ROUTES: usize>(
    alloc: Global,
    words: &RunWords,
    script: &Script,
    tape: Tape,
) -> Result<(Page, u8), NoMemory>
    requires sizes { (0 < ACKS) × (ACKS ≤ 1024) × (0 < IN) × (IN ≤ 1024) × (0 < ROUTES) × (ROUTES ≤ 1024) }
    requires client { is_client words.now.client ≡ true }
    requires reopen { words.now.reopen ≤ 4294967294 }
    requires one_task { script.now.tasks ≡ 1 }
    requires lines { AllByRecursion IsValidLine script.now.lines }
    requires plain { AllByRecursion IsPlainLine script.now.lines }
    requires few { length script.now.lines ≤ 4000000000 }
    ensures answer { IfOk result (λ x. answer x.1 x.0 ≡ replay_answer words.now (sizes_of ACKS IN ROUTES) script.now tape) }
    ensures plain { IfOk result (λ x. IsPlain x.1 × (x.1 ≢ 1) × (x.1 ≢ 9)) }
{
    let setup = words.setup(alloc, script.tasks)?;
    let replayed = replay::<ACKS, IN, ROUTES>(alloc, setup, words.tick, script, tape)?;
    match report_of(alloc, &words.thing, &replayed) {
        Ok(page) => Ok((page, replayed.ending.status())),
        Err(_) => Err(AllocError),
    }
}
