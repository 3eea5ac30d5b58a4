//! Scripts, read from their text.

ghost use Rattle.std.specs.Prelude.{◌≡◌, ◌+◌, ◌≤◌, length, drop, IfOk, IfSome};
ghost use Rattle.agent_script.specs.Scripts as scripts;
ghost use Rattle.agent_script.specs.ScriptReading.{Tells, TellsLines, TellsTasks};

use crate::script::{Line, Script, ScriptFault};
use crate::steps::line_of;
use list_types::Seq;
use plain_text::{Refusal, is_passed, last_at, line_at, word_at};
use std::alloc::Global;

/// The script that a text spells, and where the text behind its line `tape` begins, or the text's
/// length where it has none.
#[tactic(auto, using(crate::proofs::ScriptLoops::script_read, crate::proofs::ScriptLoops::script_refused, crate::proofs::FewLines::few_in_script))]
pub fn read_script(alloc: Global, text: &[u8]) -> Result<(Script, usize), ScriptFault>
    ensures script { Tells text.now result }
    ensures few { IfOk result (λ x. length x.0.lines ≤ length text.now) }
{
    let (tasks, number, at) = read_tasks(text)?;
    let (lines, end) = read_lines(alloc, text, tasks, number, at)?;
    Ok((Script { tasks, lines }, end))
}

/// How many tasks there are, by the first line that isn't passed over, and the number and the
/// place of the line behind it.
#[tactic(auto, using(crate::proofs::ScriptLoops::begin_passed, crate::proofs::ScriptLoops::begin_read, crate::proofs::ScriptLoops::begin_refused, crate::proofs::ScriptLoops::begin_end))]
fn read_tasks(text: &[u8]) -> Result<(u32, u64, usize), ScriptFault>
    ensures tasks { TellsTasks text.now result }
    ensures few { IfOk result (λ x. x.0 ≤ 8) }
{
    let mut number: u64 = 1;
    let mut at = 0;
    'lines: while at < text.len() {
        let (line, next) = line_at(text, at);
        if !is_passed(line) {
            return match tasks_of(line) {
                Some(tasks) => Ok((tasks, number + 1, next)),
                None => Err(ScriptFault::Line(number)),
            };
        }
        number += 1;
        at = next;
    }
    Err(ScriptFault::Line(number))
}

/// The lines from `at` on, of which the first has this number, up to the line `tape`, and where the
/// text behind it begins.
#[tactic(auto, using(crate::proofs::ScriptLoops::line_passed, crate::proofs::ScriptLoops::tape_met, crate::proofs::ScriptLoops::line_read, crate::proofs::ScriptLoops::line_refused, crate::proofs::ScriptLoops::lines_end))]
fn read_lines(
    alloc: Global,
    text: &[u8],
    tasks: u32,
    first: u64,
    from: usize,
) -> Result<(Seq<Line>, usize), ScriptFault>
    requires small { first ≤ from + 1 }
    requires few { tasks ≤ 8 }
    requires within { from ≤ length text.now }
    ensures { TellsLines text.now tasks first from result }
{
    let mut lines = Seq::new(alloc);
    let mut number = first;
    let mut at = from;
    'lines: while at < text.len() {
        let (line, next) = line_at(text, at);
        if !is_passed(line) {
            if is_tape(line) {
                return Ok((lines, next));
            }
            match line_of(alloc, tasks, number, line) {
                Ok(line) => lines.push(line)?,
                Err(Refusal::Bad) => return Err(ScriptFault::Line(number)),
                Err(Refusal::NoMemory) => return Err(ScriptFault::NoMemory),
            }
        }
        number += 1;
        at = next;
    }
    Ok((lines, at))
}

fn is_tape(line: &[u8]) -> bool
    ensures { result ≡ scripts.is_tape line.now }
{
    line == b"tape".as_slice()
}

/// `tasks` N.
#[tactic(auto, unfolding(crate::specs::Scripts::tasks_of))]
fn tasks_of(line: &[u8]) -> Option<u32>
    ensures tasks { result ≡ scripts.tasks_of line.now }
    ensures few { IfSome result (λ tasks. tasks ≤ 8) }
{
    let (verb, rest) = word_at(line)?;
    if verb != b"tasks".as_slice() {
        return None;
    }
    count_of(last_at(rest)?)
}

/// One digit from 1 to 8.
fn count_of(word: &[u8]) -> Option<u32>
    ensures count { result ≡ scripts.count_of word.now }
    ensures few { IfSome result (λ tasks. tasks ≤ 8) }
{
    match word {
        [digit] if b'1' <= *digit && *digit <= b'8' => Some(u32::from(*digit) - 48),
        _ => None,
    }
}
