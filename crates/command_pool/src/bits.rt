//! One bit of a word.

ghost use Rattle.std.specs.Prelude.{◌≡◌, ◌<◌, ◌==◌};
ghost use Rattle.std.specs.Int.{bit_at};
ghost use Rattle.command_pool.specs.Kinds.{only, all_but};

/// Whether the word has the number's bit.
pub fn is_set(word: u64, number: u32) -> bool
    requires { number < 64 }
    ensures { result ≡ (bit_at word number == 1) }
{
    (word >> number) & 1 == 1
}

/// The word with this number's bit alone.
pub fn bit_of(number: u32) -> u64
    requires { number < 64 }
    ensures { result ≡ only number }
{
    1 << number
}

/// The word with all bits but this number's.
pub fn all_but(number: u32) -> u64
    requires { number < 64 }
    ensures { result ≡ all_but number }
{
    !bit_of(number)
}
