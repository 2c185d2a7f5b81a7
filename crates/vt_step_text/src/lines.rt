//! Cutting a text at separators.

ghost use Rattle.std.specs.Prelude.{◌≡◌, ◌==◌, ◌<◌, [], ◌∷◌, length, IfSome, MatchOption, position};
ghost use Rattle.std.specs.List.{slice_split};

/// The index of the first byte that is `byte`; None if there is none.
fn index_of(byte: u8, text: &[u8]) -> Option<usize>
    ensures { result ≡ position (λ b. b == byte) text.now }
{
    text.iter().position(|b| *b == byte)
}

/// What stands before the first separator and what stands behind it; None if there is no separator.
pub(crate) fn cut_once(text: &[u8], separator: u8) -> Option<(&[u8], &[u8])>
    ensures parts { MatchOption result (slice_split (λ b. b == separator) text.now ≡ text.now ∷ [])
        (λ cut. slice_split (λ b. b == separator) text.now ≡ cut.0.now ∷ slice_split (λ b. b == separator) cut.1.now) }
    ensures shorter { IfSome result (λ cut. length cut.1.now < length text.now) }
{
    let at = index_of(separator, text)?;
    Some((&text[..at], &text[at + 1..]))
}
