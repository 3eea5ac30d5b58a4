//! A script with all its requests.

ghost use Rattle.std.specs.Prelude.{◌≡◌, length, Ok, IfOk};
ghost use Rattle.std.specs.List.{AllByRecursion};
ghost use Rattle.std.specs.Option.{option_copied};
ghost use Rattle.plain_text.specs.Reading.{Gives};
ghost use Rattle.replay_rounds.specs.Asked.{IsValidLine};
ghost use Rattle.agent_script.specs.Asked.{IsPlainLine};
ghost use Rattle.thing_script.specs.Plain.{HasValidStep, IsShortLine};
ghost use Rattle.thing_script.specs.Reading.{Tells};
ghost use Rattle.thing_script.specs.Topics as topics;

use crate::faults::LineFault;
use crate::steps::step_with;
use agent_script::{Line, Script};
use list_types::Seq;
use plain_text::Refusal;
use std::alloc::Global;

/// The script whose lines on shadows and jobs are publishes at QoS 1 on the topics of a thing. The
/// other lines are as they were. A line is refused where there is no thing, and where the thing, the
/// shadow's name or the job isn't of its class.
#[tactic(auto, using(crate::proofs::Lines::are_plain, crate::proofs::Lines::are_as_many, crate::proofs::Lines::are_valid, crate::proofs::Lines::have_valid_steps), unfolding(crate::specs::Topics::script_with))]
pub fn with_topics(alloc: Global, script: Script, thing: Option<&str>) -> Result<Script, LineFault>
    ensures script { Tells result (topics.script_with (option_copied thing.entry) script) }
    ensures plain { IfOk result (λ s. AllByRecursion IsPlainLine s.lines) }
    ensures tasks { IfOk result (λ s. s.tasks ≡ script.tasks) }
    ensures count { IfOk result (λ s. length s.lines ≡ length script.lines) }

    // Where requests were valid and payloads are short, requests are valid: of all tasks, and of the one of a replay.
    ensures steps { AllByRecursion HasValidStep script.lines → AllByRecursion IsShortLine script.lines
        → IfOk result (λ s. AllByRecursion HasValidStep s.lines) }
    ensures valid { AllByRecursion IsValidLine script.lines → AllByRecursion IsShortLine script.lines
        → IfOk result (λ s. AllByRecursion IsValidLine s.lines) }
{
    let tasks = script.tasks;
    let lines = lines_with(alloc, script.lines, thing)?;
    Ok(Script { tasks, lines })
}

/// The lines with all their requests.
#[tactic(auto, using(crate::proofs::Loops::begun, crate::proofs::Loops::taken, crate::proofs::Loops::refused, crate::proofs::Loops::ended))]
fn lines_with(alloc: Global, lines: Seq<Line>, thing: Option<&str>) -> Result<Seq<Line>, LineFault>
    ensures { Tells result (topics.lines_with (option_copied thing.entry) lines) }
{
    let mut made = Seq::new(alloc);
    let mut left = lines.into_vec();
    // Each leaves at the end, so that it moves and takes no memory.
    left.reverse();
    'lines: while let Some(line) = left.pop() {
        made.push(line_with(alloc, thing, line)?)?;
    }
    Ok(made)
}

/// The line with its request.
fn line_with(alloc: Global, thing: Option<&str>, line: Line) -> Result<Line, LineFault>
    ensures { Tells result (topics.request_line (option_copied thing.entry) line) }
{
    match step_with(alloc, thing, line.step) {
        Ok(step) => Ok(Line {
            number: line.number,
            task: line.task,
            step,
        }),
        Err(Refusal::Bad) => Err(LineFault::Line(line.number)),
        Err(Refusal::NoMemory) => Err(LineFault::NoMemory),
    }
}
