//! Which texts are topic names, and which are topic filters.

ghost use Rattle.std.specs.Prelude.{◌≡◌, ◌+◌, ◌≤◌, ◌<◌, length, drop};
ghost use Rattle.std.specs.List.{list_all};
ghost use Rattle.topic_filter.specs.Levels.{levels_of};
ghost use Rattle.topic_filter.specs.Texts as texts;

use crate::levels::level_len;

/// Whether a text is a topic name: 1 to 65,535 bytes without U+0000 and without the wildcards `+`
/// and `#` (OASIS MQTT 3.1.1, sections 4.7.1 and 4.7.3).
#[tactic(auto, unfolding(crate::specs::Texts::is_name))]
pub fn is_name(text: &str) -> bool
    ensures { result ≡ texts.is_name text.now }
{
    let bytes = text.as_bytes();
    has_length(bytes) && has_name_bytes(bytes)
}

/// Whether a text is a topic filter: 1 to 65,535 bytes without U+0000, in which each `+` stands
/// alone in its level and `#` alone in the last level (OASIS MQTT 3.1.1, sections 4.7.1 and 4.7.3).
#[tactic(auto, unfolding(crate::specs::Texts::is_filter))]
pub fn is_filter(text: &str) -> bool
    ensures { result ≡ texts.is_filter text.now }
{
    let bytes = text.as_bytes();
    has_length(bytes) && has_filter_levels(bytes)
}

fn has_length(text: &[u8]) -> bool
    ensures { result ≡ texts.has_length text.now }
{
    1 <= text.len() && text.len() <= 65_535
}

fn has_name_bytes(text: &[u8]) -> bool
    ensures { result ≡ list_all texts.is_name_byte text.now }
{
    text.iter().all(|byte| is_name_byte(*byte))
}

fn is_name_byte(byte: u8) -> bool
    ensures { result ≡ texts.is_name_byte byte }
{
    byte != 0 && byte != b'+' && byte != b'#'
}

fn has_filter_levels(text: &[u8]) -> bool
    ensures { result ≡ texts.are_filter_levels (levels_of text.now) }
{
    let mut rest = text;
    'levels: loop {
        let (level, behind) = rest.split_at(level_len(rest));
        match behind.split_first() {
            None => return is_last_level(level),
            Some((_, below)) if is_filter_level(level) => rest = below,
            Some(_) => return false,
        }
    }
}

fn is_filter_level(level: &[u8]) -> bool
    ensures { result ≡ texts.is_filter_level level.now }
{
    level == b"+".as_slice() || has_name_bytes(level)
}

fn is_last_level(level: &[u8]) -> bool
    ensures { result ≡ texts.is_last_level level.now }
{
    level == b"#".as_slice() || is_filter_level(level)
}
