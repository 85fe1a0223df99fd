//! What a line of an assignment says over a model with words of any width.
ghost use Rattle.std.specs.Prelude.{◌≡◌, ℕ, ◌<◌, ◌≤◌, Some, MatchOption, MatchResult, if◌then◌else◌};
ghost use Rattle.std.specs.List.{list_all};
ghost use Rattle.witness.specs.declared.why.Why.TheVariants as why;
ghost use Rattle.base.specs.Decimals.{number_of};
ghost use Rattle.witness.specs.Admits.{cut_at_space, is_value_byte, value_of};
ghost use Rattle.witness.specs.WordValues.{word_with, word_behind};
ghost use Rattle.spread.specs.Words.{HasDigits};

use base::{cut_at, decimal};
use btor2::Symbol;
use witness::{Why, are_bits};

/// The number that a token writes, where it is the index of one of so many words.
fn index_of(count: usize, token: &[u8]) -> Option<usize>
    ensures { MatchOption result ((i : ℕ) → number_of token.now ≡ Some i → count ≤ i)
        (λ i. (number_of token.now ≡ Some i) × (i < count)) }
{
    match decimal(token) {
        Some(index) if index < count as u64 => Some(index as usize),
        _ => None,
    }
}

/// The number that a line begins with, where it is the index of one of so many words.
pub(crate) fn index_in(count: usize, line: &[u8]) -> Option<usize>
    ensures { MatchOption result
        ((i : ℕ) → number_of (cut_at_space line.now).0 ≡ Some i → count ≤ i)
        (λ i. (number_of (cut_at_space line.now).0 ≡ Some i) × (i < count)) }
{
    match cut_at(line, b' ') {
        None => index_of(count, line),
        Some((token, _)) => index_of(count, token),
    }
}

/// Whether each byte is `0`, `1` or `x`.
fn are_value_bytes(bytes: &[u8]) -> bool
    ensures { result ≡ list_all is_value_byte bytes.now }
{
    bytes
        .iter()
        .all(|byte| *byte == b'0' || *byte == b'1' || *byte == b'x')
}

/// Why as many bytes as a word has bits are no digits of one.
fn refusal(bytes: &[u8]) -> Why
    ensures { result ≡ (if list_all is_value_byte bytes.now then why.Undetermined
        else why.BadValue) }
{
    if are_value_bytes(bytes) {
        Why::Undetermined
    } else {
        Why::BadValue
    }
}

/// The digits of a word of so many bits, or why these bytes are none.
fn value(width: u64, bytes: &[u8]) -> Result<&[u8], Why>
    ensures { MatchResult result (λ digits. HasDigits width (value_of width bytes.now) digits.now)
        (λ w. value_of width bytes.now ≡ Err w) }
{
    if bytes.len() as u64 != width {
        return Err(Why::BadValue);
    }
    if are_bits(bytes) {
        Ok(bytes)
    } else {
        Err(refusal(bytes))
    }
}

/// The same of bytes that stand before a name.
fn named<'t>(width: u64, bytes: &'t [u8], name: &[u8]) -> Result<&'t [u8], Why>
    ensures { MatchResult result
        (λ digits. HasDigits width (word_with (Some name.now) (value_of width bytes.now)) digits.now)
        (λ w. word_with (Some name.now) (value_of width bytes.now) ≡ Err w) }
{
    let digits = value(width, bytes)?;
    if Symbol::is_symbol(name) {
        Ok(digits)
    } else {
        Err(Why::BadSymbol)
    }
}

/// The digits of the word of so many bits that stands behind the index of a line, or why none does.
pub(crate) fn digits_in(width: u64, line: &[u8]) -> Result<&[u8], Why>
    ensures { MatchResult result
        (λ digits. HasDigits width (word_behind width (cut_at_space line.now).1) digits.now)
        (λ w. word_behind width (cut_at_space line.now).1 ≡ Err w) }
{
    let behind = match cut_at(line, b' ') {
        None => return Err(Why::BadValue),
        Some((_, behind)) => behind,
    };
    match cut_at(behind, b' ') {
        None => value(width, behind),
        Some((bytes, name)) => named(width, bytes, name),
    }
}
