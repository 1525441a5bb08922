//! Cuts of bytes at a separator.
ghost use Rattle.std.specs.Prelude.{◌≡◌, ◌∷◌, ◌++◌, MatchOption};
ghost use Rattle.ide_text.specs.Token.{Lacks};

/// What stands before the first such byte and what after it, if there is one.
pub(crate) fn cut(text: &[u8], byte: u8) -> Option<(&[u8], &[u8])>
    ensures { MatchOption result (Lacks byte text.now) (λ parts. Lacks byte parts.0.now × (text.now ≡ parts.0.now ++ byte ∷ parts.1.now)) }
{
    for (index, found) in text.iter().enumerate() {
        if *found == byte {
            return Some((&text[..index], &text[index + 1..]));
        }
    }
    None
}
