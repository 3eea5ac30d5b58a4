//! The words of a line.

ghost use Rattle.std.specs.Prelude.{◌≡◌, ◌<◌, ◌+◌, length, IfSome};
ghost use Rattle.std.specs.Option.{option_map};
ghost use Rattle.plain_text.specs.Words as words;

use memchr::memchr;

/// What stands before the first `mark`, and what behind it, where there is one.
pub(crate) fn cut(mark: u8, bytes: &[u8]) -> (&[u8], Option<&[u8]>)
    ensures { (result.0.now, option_map (λ rest. rest.now) result.1) ≡ words.cut mark bytes.now }
{
    match memchr(mark, bytes) {
        Some(at) => {
            let (front, rest) = bytes.split_at(at);
            let (_, behind) = rest.split_at(1);
            (front, Some(behind))
        }
        None => (bytes, None),
    }
}

/// The first word of a line and the words behind it, where there are some.
#[tactic(auto, unfolding(crate::specs::Words::word_at))]
pub fn word_at(line: &[u8]) -> Option<(&[u8], &[u8])>
    ensures { option_map (λ x. (x.0.now, x.1.now)) result ≡ words.word_at line.now }
{
    let (word, behind) = cut(b' ', line);
    match behind {
        Some(rest) => Some((word, rest)),
        None => None,
    }
}

/// The last word of a line, where no other follows.
#[tactic(auto, unfolding(crate::specs::Words::last_at))]
pub fn last_at(line: &[u8]) -> Option<&[u8]>
    ensures { option_map (λ word. word.now) result ≡ words.last_at line.now }
{
    let (word, behind) = cut(b' ', line);
    match behind {
        Some(_) => None,
        None => Some(word),
    }
}
