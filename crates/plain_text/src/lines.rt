//! The lines of a text, read by a cursor.

ghost use Rattle.std.specs.Prelude.{◌≡◌, ◌<◌, ◌≤◌, ◌∷◌, length, drop};
ghost use Rattle.plain_text.specs.Lines as lines;

use crate::words::cut;

/// The line that begins at `at`, without its line feed, and where the next one begins.
pub fn line_at(text: &[u8], at: usize) -> (&[u8], usize)
    requires { at < length text.now }
    ensures line { lines.lines_of (drop at text.now) ≡ result.0.now ∷ lines.lines_of (drop result.1 text.now) }
    ensures onward { at < result.1 }
    ensures within { result.1 ≤ length text.now }
{
    let (_, rest) = text.split_at(at);
    let (line, step) = first_line(rest);
    (line, at + step)
}

/// The first line without its line feed, and how many bytes it takes with it.
fn first_line(text: &[u8]) -> (&[u8], usize)
    requires { 0 < length text.now }
    ensures line { lines.lines_of text.now ≡ result.0.now ∷ lines.lines_of (drop result.1 text.now) }
    ensures onward { 0 < result.1 }
    ensures within { result.1 ≤ length text.now }
{
    let (line, behind) = cut(b'\n', text);
    match behind {
        Some(_) => (line, line.len() + 1),
        None => (line, line.len()),
    }
}

/// Whether a line says nothing: an empty one, and one that begins with `#`.
#[tactic(auto, unfolding(crate::specs::Lines::is_passed))]
pub fn is_passed(line: &[u8]) -> bool
    ensures { result ≡ lines.is_passed line.now }
{
    match line {
        [] => true,
        [first, ..] => *first == b'#',
    }
}
