//! The source of a command: it is read to its end, or the command ends with what is wrong with it.

ghost use Rattle.std.specs.Prelude.{◌≡◌, ◌≢◌, ◌⊎◌, ◌≤◌, ℕ, List, length, IfSome, IfOk, IfErr, OnOk};
ghost use Rattle.agent_link.specs.Counts.{raised};
ghost use Rattle.command_answers.specs.Answers.{Answer, Ends, sink_now};
ghost use Rattle.command_answers.specs.Sources.{EndsBySource, bad_line, source_limit, source_now, within_limit};

use crate::exit::{exit_status, finish};
use agent_link::{Fault, Sink, Source, read_all};
use journal_text::{Part, write_parts};
use std::alloc::Global;

/// How many bytes a source may have.
pub const SOURCE_LIMIT: usize = 1_048_576;

/// All bytes of a source, at most [`SOURCE_LIMIT`]; or the exit status of a command whose source has more (2), failed (9), or
/// was more than memory holds (7), with the line written that says so.
#[tactic(auto, using(crate::proofs::Sourced::whole, crate::proofs::Sourced::long, crate::proofs::Sourced::failed, crate::proofs::Sourced::no_memory))]
pub fn source_text<S: Source, O: Sink>(
    alloc: Global,
    source: &mut S,
    out: &mut O,
) -> Result<Vec<u8>, u8>
    ensures all { IfOk result (λ text. IfSome (S.left source.old) (λ all. all ≡ text.items)) }
    ensures few { IfOk result (λ text. length text.items ≤ source_limit) }
    ensures faults { OnOk result (S.faults source.new ≡ S.faults source.old) }
    ensures untouched { OnOk result (out.new ≡ out.old) }
    ensures ends { IfErr result (λ status. (to : List ℕ → Answer) →
        EndsBySource status (source_now (S.left source.old) (S.faults source.old)) (source_now (S.left source.new) (S.faults source.new))
        (sink_now (O.written out.old) (O.faults out.old)) (sink_now (O.written out.new) (O.faults out.new)) (within_limit to)) }
    ensures no_words { IfErr result (λ status. status ≢ 1) }
    ensures source_fault { IfErr result (λ status. status ≡ 9 → S.faults source.new ≡ raised (S.faults source.old)) }
{
    match read_all(alloc, source, SOURCE_LIMIT) {
        Ok(text) if text.len() <= SOURCE_LIMIT => Ok(text),
        Ok(_) => Err(finish(out, b"fault script long\n", 2)),
        Err(Fault::Failed) => Err(finish(out, b"fault source\n", 9)),
        Err(Fault::NoMemory) => Err(7),
    }
}

/// The last line of a command whose source has line `number`, counted from 1, as the first that isn't in the grammar.
#[tactic(auto, using(crate::proofs::Written::ends, crate::proofs::Written::one_of))]
pub fn refuse_line<O: Sink>(out: &mut O, number: u64) -> u8
    ensures ends { Ends result (sink_now (O.written out.old) (O.faults out.old))
        (sink_now (O.written out.new) (O.faults out.new)) (bad_line number) }
    ensures one_of { (result ≡ 2) ⊎ (result ≡ 7) ⊎ (result ≡ 8) }
{
    let written = write_parts(
        out,
        &[
            Part::Plain(b"fault script "),
            Part::Number(number),
            Part::Plain(b"\n"),
        ],
    );
    exit_status(written, 2)
}
