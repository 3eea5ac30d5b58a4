//! Lines of a source, counted.

ghost use Rattle.std.specs.Prelude.{◌≡◌, ◌+◌, ◌≤◌, length, drop};
ghost use Rattle.plain_text.specs.Lines.{lines_of};
ghost use Rattle.replay_run.specs.Commands.{first_said};

use plain_text::{is_passed, line_at};

/// The number of the first line that isn't passed over, counted from 1.
#[tactic(auto, using(crate::proofs::Counts::said_more, crate::proofs::Counts::said_here, crate::proofs::Counts::said_none))]
pub(crate) fn first_said(text: &[u8]) -> u64
    ensures { result ≡ first_said 1 (lines_of text.now) }
{
    let mut number: u64 = 1;
    let mut at = 0;
    'lines: while at < text.len() {
        let (line, next) = line_at(text, at);
        if !is_passed(line) {
            return number;
        }
        number += 1;
        at = next;
    }
    number
}

/// How many lines a text has.
#[tactic(auto, using(crate::proofs::Counts::line_counted, crate::proofs::Counts::lines_counted))]
pub(crate) fn count_lines(text: &[u8]) -> u64
    ensures count { result ≡ length (lines_of text.now) }
    ensures small { result ≤ length text.now }
{
    let mut count: u64 = 0;
    let mut at = 0;
    'lines: while at < text.len() {
        let (_, next) = line_at(text, at);
        count += 1;
        at = next;
    }
    count
}
