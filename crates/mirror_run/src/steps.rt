//! The steps of a mirror, read from their text.

ghost use Rattle.std.specs.Prelude.{◌≡◌};
ghost use Rattle.std.specs.Option.{option_map};
ghost use Rattle.plain_text.specs.Reading.{Gives};
ghost use Rattle.mirror_run.specs.Steps as steps;
ghost use Rattle.mirror_run.specs.Steps.{Tells};

use device_docs::{Change, ChangeFault, read_change};
use list_types::Seq;
use plain_text::{Refusal, is_passed, last_at, line_at, payload_of, word_at};
use std::alloc::{AllocFailed, Global};

/// What a mirror's caller does.
#[derive(Debug, Drop, PartialEq, Eq)]
pub enum MirrorStep {
    /// To note a change.
    Change(Change),
    /// To publish what was noted.
    Publish,
}

/// What a mirror's caller does, in order.
pub type MirrorSteps = Seq<MirrorStep>;

/// Why a text has no steps.
#[derive(Clone, Copy, Debug, PartialEq, Eq)]
pub enum StepsFault {
    /// The first line that isn't in the grammar or whose bytes are no change, counted from 1.
    Line(u64),
    /// Memory ran out.
    NoMemory,
}

impl<T: Drop> From<AllocFailed<T>> for StepsFault {
    ghost use Rattle.mirror_run.specs.declared.steps.StepsFault.TheVariants.{NoMemory};

    ghost from_gives = { λ _ e. e ≡ NoMemory };

    fn from(_: AllocFailed<T>) -> StepsFault {
        StepsFault::NoMemory
    }
}

/// The steps that a text spells: lines `change HEX`, HEX the bytes of a change, and lines `publish`.
#[tactic(auto, using(crate::proofs::StepLoops::line_passed, crate::proofs::StepLoops::line_read, crate::proofs::StepLoops::line_refused, crate::proofs::StepLoops::lines_end))]
pub fn read_steps(alloc: Global, text: &[u8]) -> Result<MirrorSteps, StepsFault>
    ensures { Tells text.now result }
{
    let mut steps = Seq::new(alloc);
    let mut number: u64 = 1;
    let mut at = 0;
    'lines: while at < text.len() {
        let (line, next) = line_at(text, at);
        if !is_passed(line) {
            match step_of(alloc, line) {
                Ok(step) => steps.push(step)?,
                Err(Refusal::Bad) => return Err(StepsFault::Line(number)),
                Err(Refusal::NoMemory) => return Err(StepsFault::NoMemory),
            }
        }
        number += 1;
        at = next;
    }
    Ok(steps)
}

fn step_of(alloc: Global, line: &[u8]) -> Result<MirrorStep, Refusal>
    ensures { Gives (λ step. step) result (steps.step_of line.now) }
{
    if line == b"publish".as_slice() {
        return Ok(MirrorStep::Publish);
    }
    match change_line(alloc, line) {
        Ok(change) => Ok(MirrorStep::Change(change)),
        Err(refusal) => Err(refusal),
    }
}

#[tactic(auto, unfolding(crate::specs::Steps::change_line))]
fn change_line(alloc: Global, line: &[u8]) -> Result<Change, Refusal>
    ensures { Gives (λ change. change) result (steps.change_line line.now) }
{
    match hex_of(line) {
        Some(word) => {
            let text = payload_of(alloc, word)?;
            sound_change(alloc, text.as_slice())
        }
        None => Err(Refusal::Bad),
    }
}

/// The word of `change HEX`.
#[tactic(auto, unfolding(crate::specs::Steps::hex_of))]
fn hex_of(line: &[u8]) -> Option<&[u8]>
    ensures { option_map (λ word. word.now) result ≡ steps.hex_of line.now }
{
    let (verb, rest) = word_at(line)?;
    if verb != b"change".as_slice() {
        return None;
    }
    last_at(rest)
}

fn sound_change(alloc: Global, text: &[u8]) -> Result<Change, Refusal>
    ensures { Gives (λ change. change) result (steps.sound_change text.now) }
{
    match read_change(alloc, text) {
        Ok(change) => Ok(change),
        Err(ChangeFault::NoMemory) => Err(Refusal::NoMemory),
        Err(ChangeFault::NotJson) => Err(Refusal::Bad),
        Err(ChangeFault::Missing { key: _ }) => Err(Refusal::Bad),
        Err(ChangeFault::Count { members: _ }) => Err(Refusal::Bad),
        Err(ChangeFault::Value { key: _ }) => Err(Refusal::Bad),
    }
}
