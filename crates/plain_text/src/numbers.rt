//! Numbers as words: decimal digits, without a sign and without leading zeros.

ghost use Rattle.std.specs.Prelude.{◌≡◌, ◌<◌, ◌≤◌, ◌^◌, ◌+◌, ◌-◌, ◌*◌, IfSome};
ghost use Rattle.std.specs.List.{list_all};
ghost use Rattle.plain_text.specs.Numbers as numbers;

/// The number from `least` to `most` that a word spells.
#[tactic(auto, using(crate::proofs::Digits::digit_more, crate::proofs::Digits::too_many, crate::proofs::Digits::not_a_number))]
pub fn number_in(least: u64, most: u64, word: &[u8]) -> Option<u64>
    ensures number { result ≡ numbers.number_in least most word.now }
    ensures within { IfSome result (λ n. (least ≤ n) × (n ≤ most)) }
{
    if !is_number(word) {
        return None;
    }
    let mut value: u64 = 0;
    for digit in word {
        value = with_digit(value, *digit, most)?;
    }
    if value < least {
        return None;
    }
    Some(value)
}

/// The number with one more digit, where it is at most `most`.
fn with_digit(value: u64, digit: u8, most: u64) -> Option<u64>
    ensures some { IfSome result (λ n. (n ≡ 10 * value + (digit - 48)) × (n ≤ most)) }
    ensures none { result ≡ None → most < 10 * value + (digit - 48) }
{
    let more = 10 * u128::from(value) + u128::from(digit.saturating_sub(b'0'));
    if more > u128::from(most) {
        return None;
    }
    Some(more as u64)
}

/// Whether a word is one digit, or several of which the first isn't 0.
fn is_number(word: &[u8]) -> bool
    ensures { result ≡ numbers.is_number word.now }
{
    match word {
        [] => false,
        [digit] => is_digit(*digit),
        [first, _, ..] => *first != b'0' && are_digits(word),
    }
}

fn are_digits(word: &[u8]) -> bool
    ensures { result ≡ list_all numbers.is_digit word.now }
{
    word.iter().all(|byte| is_digit(*byte))
}

fn is_digit(byte: u8) -> bool
    ensures { result ≡ numbers.is_digit byte }
{
    b'0' <= byte && byte <= b'9'
}
