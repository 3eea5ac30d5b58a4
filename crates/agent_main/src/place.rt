//! A line of a replay's source, and what may stand there.

use plain_text::{is_passed, line_at};

/// What stands in front of a line.
#[derive(Clone, Copy)]
enum Front {
    /// Only lines that are passed over.
    Nothing,
    /// A part of the script.
    Script,
    /// The script, and in its tape no connection or the end of one.
    Ended,
    /// The script, and in its tape a connection that goes on.
    Connected,
}

/// A line of a source, where it has one there, and what stands in front of it.
#[derive(Clone, Copy)]
pub struct Place<'a> {
    pub line: Option<&'a [u8]>,
    front: Front,
}

/// The line of this number, counted from 1.
pub fn place_of(text: &[u8], number: u64) -> Place<'_> {
    let mut front = Front::Nothing;
    let mut left = number;
    let mut at = 0;
    'lines: while at < text.len() {
        let (line, next) = line_at(text, at);
        if left <= 1 {
            return Place {
                line: Some(line),
                front,
            };
        }
        if !is_passed(line) {
            front = front.behind(line);
        }
        left -= 1;
        at = next;
    }
    Place { line: None, front }
}

impl Front {
    /// What stands in front of the next line.
    fn behind(self, line: &[u8]) -> Front {
        match self {
            Front::Nothing | Front::Script => {
                if line == b"tape".as_slice() {
                    Front::Ended
                } else {
                    Front::Script
                }
            }
            Front::Ended | Front::Connected => {
                if line == b"end".as_slice() || line == b"fail".as_slice() {
                    Front::Ended
                } else {
                    Front::Connected
                }
            }
        }
    }
}

impl Place<'_> {
    /// What may stand there, in a few words.
    pub fn wants(&self) -> &'static str {
        match self.front {
            Front::Nothing => "how many tasks there are, `tasks 1`",
            Front::Script => {
                if names_a_thing(self.line) {
                    "an operation on the shadow or the jobs of --thing, as `0 shadow get - -`"
                } else {
                    "a request of a task, as `0 publish 1 a/b 6869`, or `tape`"
                }
            }
            Front::Ended => "how a connection begins, `open` or `fail`",
            Front::Connected => "what the broker does, as `hear 20020000`, `quiet 10` or `end`",
        }
    }
}

/// Whether a line speaks of a thing's shadow or jobs.
fn names_a_thing(line: Option<&[u8]>) -> bool {
    match line {
        Some(line) => line.split(|byte| *byte == b' ').any(|word| word == b"shadow".as_slice()
            || word == b"jobs".as_slice()),
        None => false,
    }
}
