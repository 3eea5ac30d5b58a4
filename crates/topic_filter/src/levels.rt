//! The first level of a text.

ghost use Rattle.std.specs.Prelude.{◌≡◌, ◌≤◌, ◌==◌, length};
ghost use Rattle.std.specs.List.{position_or_len};

/// How many bytes stand before the first `/`, or in all.
pub(crate) fn level_len(text: &[u8]) -> usize
    ensures place { result ≡ position_or_len (λ b. b == 47) text.now }
    ensures within { result ≤ length text.now }
{
    let mut len = 0;
    while len < text.len() && text[len] != b'/' {
        len += 1;
    }
    len
}
