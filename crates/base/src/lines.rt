//! The lines of a text, and what stands before and behind a byte.
ghost use Rattle.std.specs.Prelude.{◌≡◌, ◌++◌, ◌∷◌, MatchOption};
ghost use Rattle.base.specs.Lines.{HasNone, IsLine};

use bstr::ByteSlice;

/// The bytes of a text before the first byte of a kind, and those behind it; nothing where the text has none of the kind.
pub fn cut_at(text: &[u8], byte: u8) -> Option<(&[u8], &[u8])>
    ensures { MatchOption result (HasNone byte text.now)
        (λ x. (text.now ≡ x.0.now ++ byte ∷ x.1.now) × HasNone byte x.0.now) }
{
    match text.find_byte(byte) {
        None => None,
        Some(at) => {
            let (front, rest) = text.split_at(at);
            let (_, behind) = rest.split_at(1);
            Some((front, behind))
        }
    }
}

/// The first line of a text, without its byte 10, and the text after it; nothing where there is no byte 10.
pub fn next_line(text: &[u8]) -> Option<(&[u8], &[u8])>
    ensures { MatchOption result (IsLine text.now)
        (λ x. (text.now ≡ x.0.now ++ 10 ∷ x.1.now) × IsLine x.0.now) }
{
    cut_at(text, b'\n')
}
