//! An assignment: an index, a value and a name, with a space between, and the word that it gives.
ghost use Rattle.std.specs.Prelude.{◌≡◌, ◌<◌, ◌^◌, ◌∷◌, ◌++◌, IfOk, MatchOption, Some, ◌==◌, length};
ghost use Rattle.std.specs.List.{position};
ghost use Rattle.base.specs.Lines.{HasNone};
ghost use Rattle.base.specs.Decimals.{number_of};
ghost use Rattle.witness.specs.Admits.{cut_at_space, value_of};
ghost use Rattle.witness.specs.WordValues.{IsAsValueRead, word_behind, word_with, assigned_number, assigned};
ghost use Rattle.witness.specs.Fits.{PairFits};

use crate::given::Given;
use crate::why::Why;
use crate::word_value::value_of;
use base::{Width, decimal};
use btor2::Symbol;

/// Where the first space of a line stands. What is before it is short, so this is a plain loop and no search that is made
/// for long texts.
#[inline(always)]
fn first_space(line: &[u8]) -> Option<usize>
    ensures { result ≡ position (λ b. b == 32) line.now }
{
    line.iter().position(|b| *b == b' ')
}

/// The bytes of a line before the first space, and those behind it; nothing where there is no space.
#[inline(always)]
fn cut(line: &[u8]) -> Option<(&[u8], &[u8])>
    ensures { MatchOption result (HasNone 32 line.now)
        (λ x. (line.now ≡ x.0.now ++ 32 ∷ x.1.now) × HasNone 32 x.0.now) }
{
    let at = first_space(line)?;
    let (front, rest) = line.split_at(at);
    let (_, behind) = rest.split_at(1);
    Some((front, behind))
}

/// The index that a line begins with, where it is a decimal, at most 2^64 - 1.
pub(crate) fn index_of(line: &[u8]) -> Option<u64>
    ensures { result ≡ number_of (cut_at_space line.now).0 }
{
    match cut(line) {
        None => decimal(line),
        Some((token, _behind)) => decimal(token),
    }
}

/// The word of so many bits that digits write, where what stands behind them is a symbol, or why there is none.
fn named(digits: &[u8], name: &[u8], width: Width) -> Result<u64, Why>
    ensures is { IsAsValueRead (λ w. w) result
        (word_with (Some name.now) (value_of width digits.now)) }
    ensures fits { IfOk result (λ w. w < 2 ^ width) }
{
    let word = value_of(digits, width)?;
    if Symbol::is_symbol(name) {
        Ok(word)
    } else {
        Err(Why::BadSymbol)
    }
}

/// The word of so many bits that stands behind the first space, with a name behind it or none, or why there is none.
fn word_with(behind: &[u8], width: Width) -> Result<u64, Why>
    ensures is { IsAsValueRead (λ w. w) result (word_behind width (Some behind.now)) }
    ensures fits { IfOk result (λ w. w < 2 ^ width) }
{
    match cut(behind) {
        None => value_of(behind, width),
        Some((digits, name)) => named(digits, name, width),
    }
}

/// The word of so many bits behind the index of a line, or why there is none.
fn word_of(line: &[u8], width: Width) -> Result<u64, Why>
    ensures is { IsAsValueRead (λ w. w) result (word_behind width (cut_at_space line.now).1) }
    ensures fits { IfOk result (λ w. w < 2 ^ width) }
{
    match cut(line) {
        None => Err(Why::BadValue),
        Some((_token, behind)) => word_with(behind, width),
    }
}

/// The word that is given to the node of a number, of nodes of these widths.
fn assigned_number(
    widths: &[Width],
    given: &Given,
    index: u64,
    line: &[u8],
) -> Result<(u64, u64), Why>
    requires { length given.now ≡ length widths.now }
    ensures is { IsAsValueRead (λ p. p) result
        (assigned_number widths.now given.now (cut_at_space line.now).1 index) }
    ensures fits { IfOk result (PairFits widths.now) }
{
    let k = index as usize;
    if k >= widths.len() {
        return Err(Why::BadIndex);
    }
    if given.has(k) {
        return Err(Why::IndexTwice);
    }
    let word = word_of(line, widths[k])?;
    Ok((index, word))
}

/// The word that a line gives to one of the nodes of these widths, or why it gives none. `given` says which of them
/// have a word in the part already.
pub(crate) fn assigned(widths: &[Width], given: &Given, line: &[u8]) -> Result<(u64, u64), Why>
    requires { length given.now ≡ length widths.now }
    ensures is { IsAsValueRead (λ p. p) result (assigned widths.now given.now line.now) }
    ensures fits { IfOk result (PairFits widths.now) }
{
    match index_of(line) {
        Some(index) => assigned_number(widths, given, index, line),
        None => Err(Why::BadIndex),
    }
}
