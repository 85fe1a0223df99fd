//! A plain line of a witness over a model at the front of a text, read in one pass up to its end.
ghost use Rattle.std.specs.Prelude.{◌≡◌, ◌≢◌, ◌<◌, ◌^◌, ◌∷◌, ◌++◌, MatchOption, Some, suc, decimal, length, slice_get, take, true};
ghost use Rattle.std.specs.List.{list_all};
ghost use Rattle.btor2.specs.Symbols.{is_printed, is_symbol};
ghost use Rattle.witness.specs.PlainLines.{NoNumber, NoFrameLine, BeginsName, IsFirstOther, NoName, BeginsWord, NoWord, BeginsAssignment, NoAssignment};

use crate::given::Given;
use crate::word_value::known_word;
use base::{Counter, Width, is_digit};
use btor2::printed_front;

/// The most digits of a number that has room in 64 bits, whatever they are.
const MOST_DIGITS: usize = 19;

/// A number whose digits end in front of a place of a text, and the text behind this byte, where the byte stands there.
#[inline(always)]
fn ended(text: &[u8], at: usize, value: u64, end: u8) -> Option<(u64, &[u8])>
    ensures { MatchOption result (slice_get text.now at ≢ Some end)
        (λ x. (x.0 ≡ value) × (text.now ≡ take at text.now ++ end ∷ x.1.now)) }
{
    if at >= text.len() || text[at] != end {
        return None;
    }
    let (_, rest) = text.split_at(at + 1);
    Some((value, rest))
}

/// The number that stands at the front of a text up to this byte, and the text behind the byte, where the number is a
/// decimal of at most 19 digits; else nothing.
#[inline(always)]
fn number_before(text: &[u8], end: u8) -> Option<(u64, &[u8])>
    requires { end < 48 }
    ensures { MatchOption result (NoNumber end text.now) (λ x. (x.0 < 2 ^ 64)
        × (text.now ≡ decimal x.0 ++ end ∷ x.1.now)) }
{
    let (first, _) = text.split_first()?;
    if !is_digit(*first) {
        return None;
    }
    let mut value = u64::from(*first - b'0');
    if let Some(alone) = ended(text, 1, value, end) {
        return Some(alone);
    }
    if value == 0 {
        return None;
    }
    let most = text.len().min(MOST_DIGITS);
    for at in 1..most {
        let byte = text[at];
        if !is_digit(byte) {
            return ended(text, at, value, end);
        }
        value = value * 10 + u64::from(byte - b'0');
    }
    ended(text, most, value, end)
}

/// The text behind the line `@<k>` that opens the frame behind so many, where a text begins with it.
#[inline(always)]
pub(crate) fn behind_frame_line<'t>(text: &'t [u8], frames: &Counter) -> Option<&'t [u8]>
    ensures { MatchOption result (NoFrameLine (suc frames.now) text.now)
        (λ rest. text.now ≡ (64 ∷ decimal (suc frames.now)) ++ 10 ∷ rest.now) }
{
    let (first, behind) = text.split_first()?;
    if *first != b'@' {
        return None;
    }
    let (end, rest) = frames.behind_next(behind)?.split_first()?;
    if *end == b'\n' { Some(rest) } else { None }
}

/// How many bytes of names stand at the front of a text, the byte behind them, and the text behind it; nothing where all
/// bytes are those of names.
#[inline(always)]
fn first_other(text: &[u8]) -> Option<(usize, u8, &[u8])>
    ensures { MatchOption result (list_all is_printed text.now ≡ true)
        (λ x. IsFirstOther text.now x.0 x.1 x.2.now) }
{
    let count = printed_front(text);
    let (_, others) = text.split_at(count);
    let (end, rest) = others.split_first()?;
    Some((count, *end, rest))
}

/// Whether bytes of names are one: 1 to 255, of which the first is not `;`.
#[inline(always)]
fn is_name(bytes: &[u8]) -> bool
    requires { list_all is_printed bytes.now ≡ true }
    ensures { result ≡ is_symbol bytes.now }
{
    match bytes.split_first() {
        Some((first, _)) => *first != b';' && bytes.len() <= 255,
        None => false,
    }
}

/// The text behind a name and the end of its line, where a text begins so behind a space.
#[inline(always)]
fn behind_symbol(text: &[u8]) -> Option<&[u8]>
    ensures { MatchOption result (NoName (32 ∷ text.now))
        (λ rest. BeginsName (32 ∷ text.now) rest.now) }
{
    let (count, end, rest) = first_other(text)?;
    if end != b'\n' {
        return None;
    }
    let (name, _) = text.split_at(count);
    if is_name(name) { Some(rest) } else { None }
}

/// The text behind the line whose value ends in front of this text: its end, or a space and a name up to it.
#[inline(always)]
fn behind_name(text: &[u8]) -> Option<&[u8]>
    ensures { MatchOption result (NoName text.now) (λ rest. BeginsName text.now rest.now) }
{
    let (first, behind) = text.split_first()?;
    if *first == b'\n' {
        return Some(behind);
    }
    if *first != b' ' {
        return None;
    }
    behind_symbol(behind)
}

/// The word of so many bits at the front of a text, where the line ends behind it or behind a name, and the text
/// behind the line.
#[inline(always)]
fn plain_word(text: &[u8], width: Width) -> Option<(u64, &[u8])>
    ensures { MatchOption result (NoWord width text.now)
        (λ x. BeginsWord width text.now x.0 x.1.now) }
{
    let count = width.bits() as usize;
    if text.len() < count {
        return None;
    }
    let (digits, behind) = text.split_at(count);
    let word = known_word(digits)?;
    let rest = behind_name(behind)?;
    Some((word, rest))
}

/// The index and the word of the assignment whose line a text begins with, and the text behind the line, where the node
/// of the index, of nodes of these widths, has no word yet. Nothing where the text does not begin so.
#[inline(always)]
pub(crate) fn plain_assignment<'t>(
    text: &'t [u8],
    widths: &[Width],
    given: &Given,
) -> Option<(u64, u64, &'t [u8])>
    requires { length given.now ≡ length widths.now }
    ensures { MatchOption result (NoAssignment widths.now given.now text.now)
        (λ x. BeginsAssignment widths.now given.now text.now x.0 x.1 x.2.now) }
{
    let (index, behind) = number_before(text, b' ')?;
    let k = index as usize;
    if k >= widths.len() || given.has(k) {
        return None;
    }
    let (word, rest) = plain_word(behind, widths[k])?;
    Some((index, word, rest))
}
