//! An option's value is looked up and tested, or it takes its default.

ghost use Rattle.std.specs.Prelude.{◌≡◌, ◌≤◌, true, IfOk, IfSome};
ghost use Rattle.command_words.specs.Classes.{takes};
ghost use Rattle.command_words.specs.Given.{all_given};
ghost use Rattle.command_words.specs.Options.{is_dashed};
ghost use Rattle.command_words.specs.Reading.{Gives};
ghost use Rattle.command_words.specs.Values as values;

use crate::classes::Class;
use crate::faults::WordsFault;
use crate::given::{Given, value_of};
use list_types::Text;
use plain_text::number_in;
use std::alloc::Global;

/// A text of this class that has to be given.
#[tactic(auto, unfolding(crate::specs::Values::text))]
pub(crate) fn text(
    alloc: Global,
    class: Class,
    name: &str,
    options: &[Given<'_>],
) -> Result<Text, WordsFault>
    ensures text { Gives (λ text. text) result (values.text (takes class) name.now (all_given options.now)) }
    ensures class { IfOk result (λ text. takes class text ≡ true) }
{
    let value = value_of(name, options).ok_or(WordsFault::Words)?;
    if !is_dashed(value) && class.takes(value) {
        Ok(Text::from_str(alloc, value)?)
    } else {
        Err(WordsFault::Words)
    }
}

/// A text of this class where it is given.
#[tactic(auto, unfolding(crate::specs::Values::text_or_none))]
pub(crate) fn text_or_none(
    alloc: Global,
    class: Class,
    name: &str,
    options: &[Given<'_>],
) -> Result<Option<Text>, WordsFault>
    ensures text { Gives (λ text. text) result (values.text_or_none (takes class) name.now (all_given options.now)) }
    ensures class { IfOk result (λ text. IfSome text (λ text. takes class text ≡ true)) }
{
    match value_of(name, options) {
        Some(value) => {
            if !is_dashed(value) && class.takes(value) {
                Ok(Some(Text::from_str(alloc, value)?))
            } else {
                Err(WordsFault::Words)
            }
        }
        None => Ok(None),
    }
}

/// A number from `least` to `most` that has to be given.
#[tactic(auto, unfolding(crate::specs::Values::number))]
pub(crate) fn number(
    least: u64,
    most: u64,
    name: &str,
    options: &[Given<'_>],
) -> Result<u64, WordsFault>
    ensures number { Gives (λ number. number) result (values.number least most name.now (all_given options.now)) }
    ensures within { IfOk result (λ number. (least ≤ number) × (number ≤ most)) }
{
    let value = value_of(name, options).ok_or(WordsFault::Words)?;
    number_in(least, most, value.as_bytes()).ok_or(WordsFault::Words)
}

/// A number from `least` to `most`, or its default.
#[tactic(auto, unfolding(crate::specs::Values::number_or))]
pub(crate) fn number_or(
    default: u64,
    least: u64,
    most: u64,
    name: &str,
    options: &[Given<'_>],
) -> Result<u64, WordsFault>
    requires { default ≤ most }
    ensures number { Gives (λ number. number) result (values.number_or default least most name.now (all_given options.now)) }
    ensures small { IfOk result (λ number. number ≤ most) }
{
    match value_of(name, options) {
        Some(value) => number_in(least, most, value.as_bytes()).ok_or(WordsFault::Words),
        None => Ok(default),
    }
}

/// Whether a word begins with `-`, as no value does.
fn is_dashed(word: &str) -> bool
    ensures { result ≡ is_dashed word.now }
{
    match word.as_bytes() {
        [] => false,
        [first, ..] => *first == b'-',
    }
}
