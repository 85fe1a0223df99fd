//! A word as solvers write it at a place of a text, read in one pass: `0`, `d`, or a number of at most 19 digits, with a minus
//! or without.
ghost use Rattle.std.specs.Prelude.{◌≡◌, ◌<◌, true, false, IfSome, [], ◌∷◌, length, slice_index_or};
ghost use Rattle.lrat.specs.HintedProofs.{token_of};
ghost use Rattle.lrat.specs.Words.{token_said, signed};
ghost use Rattle.lrat.specs.WordsAt.{parts_words, IsNumberAt, IsWordAt};

use crate::token::Token;
use base::is_digit;
use drup::is_blank;

/// The most digits of a number that has room in 64 bits, whatever they are.
const MOST_DIGITS: usize = 19;

/// A word at a place of a text.
#[derive(Clone, Copy)]
pub(crate) struct WordAt {
    /// What it says.
    pub(crate) token: Token,
    /// Where the byte behind it stands.
    pub(crate) end: usize,
}

/// Whether a byte parts words: a blank, or the end of a line.
fn parts_words(byte: u8) -> bool
    ensures { result ≡ parts_words byte }
{
    byte == b'\n' || is_blank(byte)
}

/// A number that ends at a place, where the byte there parts words.
#[inline(always)]
fn parted(bytes: &[u8], end: usize, value: u64) -> Option<(u64, usize)>
    requires { end < length bytes.now }
    ensures { IfSome result (λ x. (x.0 ≡ value) × ((x.1 ≡ end) × (parts_words (slice_index_or bytes.now end 0) ≡ true))) }
{
    if parts_words(bytes[end]) {
        Some((value, end))
    } else {
        None
    }
}

/// The number from 1 on whose digits stand at a place, at most 19, and the place behind them, where a byte is there that parts
/// words.
#[inline(always)]
pub(crate) fn number_at(bytes: &[u8], at: usize) -> Option<(u64, usize)>
    requires { at < length bytes.now }
    ensures { IfSome result (λ x. IsNumberAt bytes.now at x.0 x.1) }
{
    let first = bytes[at];
    if first == b'0' || !is_digit(first) {
        return None;
    }
    let mut value = u64::from(first - b'0');
    let most = bytes.len().min(at.saturating_add(MOST_DIGITS));
    for end in at + 1..most {
        let byte = bytes[end];
        if !is_digit(byte) {
            return parted(bytes, end, value);
        }
        value = value * 10 + u64::from(byte - b'0');
    }
    None
}

/// What a byte says that stands alone at a place, where it does and a byte is behind it that parts words.
#[inline(always)]
fn alone_at(bytes: &[u8], at: usize, token: Token) -> Option<WordAt>
    requires inside { at < length bytes.now }
    requires whole { parts_words (slice_index_or bytes.now at 0) ≡ false }
    requires said { token_said token ≡ token_of (slice_index_or bytes.now at 0 ∷ []) }
    ensures { IfSome result (λ w. IsWordAt bytes.now at w) }
{
    let end = at + 1;
    if end < bytes.len() && parts_words(bytes[end]) {
        Some(WordAt { token, end })
    } else {
        None
    }
}

/// The `0` at a place, as a word, where it stands alone.
#[inline(always)]
pub(crate) fn zero_at(bytes: &[u8], at: usize) -> Option<WordAt>
    requires inside { at < length bytes.now }
    requires zero { slice_index_or bytes.now at 0 ≡ 48 }
    ensures { IfSome result (λ w. IsWordAt bytes.now at w) }
{
    alone_at(bytes, at, Token::Ends)
}

/// The `d` at a place, as a word, where it stands alone.
#[inline(always)]
pub(crate) fn letter_at(bytes: &[u8], at: usize) -> Option<WordAt>
    requires inside { at < length bytes.now }
    requires letter { slice_index_or bytes.now at 0 ≡ 100 }
    ensures { IfSome result (λ w. IsWordAt bytes.now at w) }
{
    alone_at(bytes, at, Token::Deletes)
}

/// The number at a place, as a word.
#[inline(always)]
pub(crate) fn positive_at(bytes: &[u8], at: usize) -> Option<WordAt>
    requires { at < length bytes.now }
    ensures { IfSome result (λ w. IsWordAt bytes.now at w) }
{
    let (value, end) = number_at(bytes, at)?;
    Some(WordAt {
        token: Token::Number(value),
        end,
    })
}

/// The number behind a minus at a place, as a word.
#[inline(always)]
pub(crate) fn negative_at(bytes: &[u8], at: usize) -> Option<WordAt>
    requires inside { at < length bytes.now }
    requires minus { slice_index_or bytes.now at 0 ≡ 45 }
    ensures { IfSome result (λ w. IsWordAt bytes.now at w) }
{
    if at + 1 >= bytes.len() {
        return None;
    }
    let (value, end) = number_at(bytes, at + 1)?;
    Some(WordAt {
        token: Token::Negative(value),
        end,
    })
}

/// The number at a place, with a minus or without, and the place behind it.
#[inline(always)]
pub(crate) fn signed_at(bytes: &[u8], at: usize) -> Option<(bool, u64, usize)>
    requires { at < length bytes.now }
    ensures { IfSome result
        (λ x. IsWordAt bytes.now at (record { token = signed x.0 x.1; end = x.2 })) }
{
    let negative = bytes[at] == b'-';
    let start = at + usize::from(negative);
    if start >= bytes.len() {
        return None;
    }
    let (value, end) = number_at(bytes, start)?;
    Some((negative, value, end))
}
