//! Which cells are used, as the bits of words: cell `i` is bit `i % 64` of word `i / 64`.

ghost use Rattle.std.specs.Prelude.{◌≡◌, ℕ, ◌*◌, ◌<◌, ◌≤◌, true, false, ◌||◌, ◌&&◌, ◌==◌, not, length, slice_index, ◌+◌, ◌-◌, ◌^◌, IfSome, IfNone, nat_lt};
ghost use Rattle.std.specs.List.{list_all};
ghost use Rattle.ordered_cells.specs.Cells.{is_among};
ghost use Rattle.ordered_cells.specs.Words.{flag};

/// Sets a flag.
pub(crate) fn set(words: &mut [u64], i: usize)
    requires { i < 64 * length words.old }
    ensures len { length words.new ≡ length words.old }
    ensures flags { (j : ℕ) → flag words.new j ≡ (j == i || flag words.old j) }
{
    words[i / 64] |= 1 << (i % 64);
}

/// Clears a flag.
pub(crate) fn clear(words: &mut [u64], i: usize)
    requires { i < 64 * length words.old }
    ensures len { length words.new ≡ length words.old }
    ensures flags { (j : ℕ) → flag words.new j ≡ (not (j == i) && flag words.old j) }
{
    words[i / 64] &= !(1 << (i % 64));
}

/// Sets the flags of these cells, and no others.
pub(crate) fn flag_all(words: &mut Vec<u64>, cells: &[u16])
    requires within { list_all (λ c. nat_lt c (64 * length words.old.items)) cells.now ≡ true }
    ensures len { length words.new.items ≡ length words.old.items }
    ensures flags { (j : ℕ) → flag words.new.items j ≡ is_among cells.now j }
{
    words.fill(0);
    for cell in cells {
        set(words.as_mut_slice(), usize::from(*cell));
    }
}

/// The first flag that isn't set. Words whose flags are all set are passed as a whole.
pub(crate) fn first_clear(words: &[u64]) -> Option<usize>
    requires { length words.now ≤ 1024 }
    ensures some { IfSome result (λ i. (flag words.now i ≡ false) × ((j : ℕ) → j < i → flag words.now j ≡ true)) }
    ensures none { IfNone result ((j : ℕ) → j < 64 * length words.now → flag words.now j ≡ true) }
{
    for (at, word) in words.iter().enumerate() {
        if *word != u64::MAX {
            return Some(place_in(words, at));
        }
    }
    None
}

/// The place of the lowest flag of a word that isn't set, where one isn't.
fn place_in(words: &[u64], at: usize) -> usize
    requires few { length words.now ≤ 1024 }
    requires at { at < length words.now }
    requires some { ¬ (slice_index words.now at ≡ 2 ^ 64 - 1) }
    ensures clear { flag words.now result ≡ false }
    ensures first { (j : ℕ) → 64 * at ≤ j → j < result → flag words.now j ≡ true }
    ensures within { result < 64 * at + 64 }
{
    at * 64 + (!words[at]).trailing_zeros() as usize
}
