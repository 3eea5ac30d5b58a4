//! Flags as the bits of words, the lowest bit of the first word first.

ghost use Rattle.std.specs.Prelude.{◌≡◌, ℕ, ◌+◌, ◌-◌, ◌*◌, ◌/◌, ◌<◌, ◌≤◌, ◌^◌, true, false, length, get_or, slice_set, IfSome, IfNone};
ghost use Rattle.std.specs.Int.{trailing_zeros, w64};
ghost use Rattle.stream_blocks.specs.Sets.{all_bits, count, IsFirst, HasNone};

/// The word with its lowest bits set, and no others.
pub(crate) fn low_bits(number: u32) -> u64
    requires { number ≤ 64 }
    ensures { result ≡ 2 ^ number - 1 }
{
    if number == 0 {
        return 0;
    }
    u64::MAX >> (64 - number)
}

pub(crate) fn is_set(words: &[u64], i: u32) -> bool
    requires { i < 64 * length words.now }
    ensures { result ≡ get_or (all_bits words.now) i false }
{
    let word = words[(i / 64) as usize];
    (word >> (i % 64)) & 1 == 1
}

/// Clears a flag, and answers whether it was set.
pub(crate) fn clear(words: &mut [u64], i: u32) -> bool
    requires { i < 64 * length words.old }
    ensures was { result ≡ get_or (all_bits words.old) i false }
    ensures len { length words.new ≡ length words.old }
    ensures cleared { all_bits words.new ≡ slice_set (all_bits words.old) i false }
{
    let was = is_set(words, i);
    words[(i / 64) as usize] &= !(1 << (i % 64));
    was
}

/// The first flag that is set. Words of zeros are passed as a whole.
pub(crate) fn first_set(words: &[u64]) -> Option<u32>
    requires { (i : ℕ) → get_or (all_bits words.now) i false ≡ true → i < 2 ^ 32 }
    ensures some { IfSome result (λ i. IsFirst i (all_bits words.now)) }
    ensures none { IfNone result (HasNone (all_bits words.now)) }
{
    for (at, word) in words.iter().enumerate() {
        if *word != 0 {
            return Some(place_in(words, at));
        }
    }
    None
}

/// The place of the lowest flag of a word that isn't 0.
fn place_in(words: &[u64], at: usize) -> u32
    requires small { (i : ℕ) → get_or (all_bits words.now) i false ≡ true → i < 2 ^ 32 }
    requires at { at < length words.now }
    requires some { 0 < get_or words.now at 0 }
    ensures { result ≡ 64 * at + trailing_zeros w64 (get_or words.now at 0) }
{
    at as u32 * 64 + words[at].trailing_zeros()
}

/// How many flags are set, word by word.
pub(crate) fn count_set(words: &[u64]) -> u32
    requires { count (all_bits words.now) < 2 ^ 32 }
    ensures { result ≡ count (all_bits words.now) }
{
    let mut total = 0;
    for word in words {
        total += word.count_ones();
    }
    total
}
