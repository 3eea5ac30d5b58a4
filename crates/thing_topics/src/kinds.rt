//! Kinds of topics: each stands in its topics as its word.

ghost use Rattle.std.specs.Prelude.{◌≡◌, ◌≤◌, List, ℕ, length};
ghost use Rattle.std.specs.List.{find};
ghost use Rattle.std.specs.Option.{option_copied};
ghost use Rattle.std.specs.Str.{bytes_eq};

/// The kinds of one service.
pub(crate) trait Kind: Copy {
    /// How it is written.
    ghost written: { Self → List ℕ };

    /// The last levels of its topics.
    fn word(self) -> &'static str
        ensures written { result.now ≡ written self }
        ensures short { length result.now ≤ 19 };
}

/// The kind among these that is written so.
pub(crate) fn kind_of<K: Kind>(kinds: &[K], text: &str) -> Option<K>
    ensures { result ≡ find (λ kind. bytes_eq (K.written kind) text.now) kinds.now }
{
    for kind in kinds {
        if kind.word() == text {
            return Some(*kind);
        }
    }
    None
}
