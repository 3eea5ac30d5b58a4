//! The parts of a topic, taken off from its front.

ghost use Rattle.std.specs.Prelude.{◌≡◌};
ghost use Rattle.std.specs.Option.{option_copied};
ghost use Rattle.thing_topics.specs.Cuts as cuts;

/// What stands behind a front, where the text begins with it.
pub(crate) fn behind<'a>(front: &str, text: &'a str) -> Option<&'a str>
    ensures { option_copied result ≡ cuts.behind front.now text.now }
{
    text.strip_prefix(front)
}

/// The first level, and what stands behind its `/` where there is one.
pub(crate) fn first_level(text: &str) -> (&str, Option<&str>)
    ensures { (result.0.now, option_copied result.1) ≡ cuts.first_level text.now }
{
    match text.split_once('/') {
        Some((level, below)) => (level, Some(below)),
        None => (text, None),
    }
}
