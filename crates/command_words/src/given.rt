//! The options that are given to a command.

ghost use Rattle.std.specs.Prelude.{◌≡◌};
ghost use Rattle.std.specs.Option.{option_copied, option_map};
ghost use Rattle.command_words.specs.Given.{all_given, given_of};
ghost use Rattle.command_words.specs.Tables as tables;

/// An option that is given.
#[derive(Clone, Copy)]
pub(crate) struct Given<'a> {
    /// Without its dashes.
    pub(crate) name: &'a str,
    /// A flag has none.
    pub(crate) value: Option<&'a str>,
}

/// The option of this name, where it is given.
fn named<'a>(name: &str, options: &[Given<'a>]) -> Option<Given<'a>>
    ensures { option_map given_of result ≡ tables.named name.now (all_given options.now) }
{
    for option in options {
        if option.name == name {
            return Some(*option);
        }
    }
    None
}

/// Its value, where it is given.
pub(crate) fn value_of<'a>(name: &str, options: &[Given<'a>]) -> Option<&'a str>
    ensures { option_copied result ≡ tables.value_of name.now (all_given options.now) }
{
    match named(name, options) {
        Some(option) => option.value,
        None => None,
    }
}

/// Whether it is given.
pub(crate) fn is_given(name: &str, options: &[Given<'_>]) -> bool
    ensures { result ≡ tables.is_given name.now (all_given options.now) }
{
    named(name, options).is_some()
}
