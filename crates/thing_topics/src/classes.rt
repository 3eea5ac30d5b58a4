//! The classes of names that stand in topics.

ghost use Rattle.std.specs.Prelude.{◌≡◌, ◌≤◌, length, IsTrue};
ghost use Rattle.std.specs.List.{list_all};
ghost use Rattle.thing_topics.specs.Classes as classes;

/// Whether a text names a thing: 1 to 128 ASCII letters, digits, `:`, `_` and `-`.
#[tactic(auto, unfolding(crate::specs::Classes::is_thing))]
pub fn is_thing(text: &str) -> bool
    ensures class { result ≡ classes.is_thing text.now }
    ensures short { IsTrue result → length text.now ≤ 128 }
{
    has_length(text, 128) && has_name_bytes(text)
}

/// Whether a text names a shadow: 1 to 64 of the same bytes.
#[tactic(auto, unfolding(crate::specs::Classes::is_shadow_name))]
pub(crate) fn is_shadow_name(text: &str) -> bool
    ensures class { result ≡ classes.is_shadow_name text.now }
    ensures short { IsTrue result → length text.now ≤ 64 }
{
    has_length(text, 64) && has_name_bytes(text)
}

/// Whether a text names a job: 1 to 64 ASCII letters, digits, `_` and `-`.
#[tactic(auto, unfolding(crate::specs::Classes::is_job))]
pub(crate) fn is_job(text: &str) -> bool
    ensures class { result ≡ classes.is_job text.now }
    ensures short { IsTrue result → length text.now ≤ 64 }
{
    has_length(text, 64) && has_plain_bytes(text)
}

/// Whether a text names a stream: 1 to 128 of the same bytes as a job.
#[tactic(auto, unfolding(crate::specs::Classes::is_stream))]
pub(crate) fn is_stream(text: &str) -> bool
    ensures class { result ≡ classes.is_stream text.now }
    ensures short { IsTrue result → length text.now ≤ 128 }
{
    has_length(text, 128) && has_plain_bytes(text)
}

fn has_length(text: &str, most: usize) -> bool
    ensures test { result ≡ classes.has_length most text.now }
    ensures short { IsTrue result → length text.now ≤ most }
{
    1 <= text.len() && text.len() <= most
}

fn has_name_bytes(text: &str) -> bool
    ensures { result ≡ list_all classes.is_name_byte text.now }
{
    text.as_bytes().iter().all(|byte| is_name_byte(*byte))
}

fn has_plain_bytes(text: &str) -> bool
    ensures { result ≡ list_all classes.is_plain_byte text.now }
{
    text.as_bytes().iter().all(|byte| is_plain_byte(*byte))
}

fn is_name_byte(byte: u8) -> bool
    ensures { result ≡ classes.is_name_byte byte }
{
    is_plain_byte(byte) || byte == b':'
}

fn is_plain_byte(byte: u8) -> bool
    ensures { result ≡ classes.is_plain_byte byte }
{
    byte.is_ascii_alphanumeric() || byte == b'_' || byte == b'-'
}
