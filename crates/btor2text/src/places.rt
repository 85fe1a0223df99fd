//! Numbers and ids in their places on a line.

ghost use Rattle.std.specs.Prelude.{◌≡◌, Ok, IfSome};
ghost use Rattle.btor2text.specs.Tokens.{tokens};
ghost use Rattle.btor2text.specs.Reading.{IsAsLineRead, GivesUnlessFull, is_negative, plain_at, kept_id, kept_slice_bit, sort_at, bit_at, operand_at, width_told, pair_at, triple_at, operands_at, counted_at};

use crate::fault::Why;
use crate::operators::is_word;
use crate::tokens::next_token;
use base::decimal;
use std::alloc::Global;

/// Whether a token is `-` and a decimal.
#[tactic(auto, unfolding(crate::specs::Reading::is_negative, base::specs::Decimals::number_of))]
fn is_negative(token: &[u8]) -> bool
    ensures { result ≡ is_negative token.now }
{
    match token {
        [b'-', rest @ ..] => decimal(rest).is_some(),
        _ => false,
    }
}

/// The greatest number of digits that write a number below 2^32, whatever they are.
const MOST_DIGITS: usize = 9;

/// The number that a line begins with, and the line behind it, where the first token begins at once, with a digit from
/// 1 to 9, and is all digits, of which there are few; else nothing. Each byte is looked at once, and the number is kept
/// modulo 2^32 until it is known that so few digits write it. Of nothing no more is said, so a body that always answers
/// it would prove: the callers' contracts pin what is read.
#[inline(always)]
fn number_at(line: &[u8]) -> Option<(u64, &[u8])>
    ensures { IfSome result (λ x. plain_at (tokens line.now) ≡ Ok (x.0, tokens x.1.now)) }
{
    let mut value = match line {
        [first, ..] if *first >= b'1' && *first <= b'9' => u32::from(*first) - 48,
        _ => return None,
    };
    for at in 1..line.len() {
        let byte = line[at];
        let digit = u32::from(byte).wrapping_sub(48);
        if digit > 9 {
            if at > MOST_DIGITS || (byte != b' ' && byte != b'\t') {
                return None;
            }
            let (_, rest) = line.split_at(at + 1);
            return Some((u64::from(value), rest));
        }
        value = value.wrapping_mul(10).wrapping_add(digit);
    }
    if line.len() > MOST_DIGITS {
        return None;
    }
    let (_, rest) = line.split_at(line.len());
    Some((u64::from(value), rest))
}

/// The same as `plain_at`: the first token is cut off, and then read.
#[cold]
#[inline(never)]
#[tactic(auto, unfolding(crate::specs::Reading::plain_at, crate::specs::Reading::plain_number))]
fn plain_token_at(line: &[u8]) -> Result<(u64, &[u8]), Why>
    ensures { IsAsLineRead (λ x. (x.0, tokens x.1.now)) result (plain_at (tokens line.now)) }
{
    let (token, rest) = next_token(line).ok_or(Why::BadToken)?;
    let number = decimal(token).ok_or(Why::BadToken)?;
    Ok((number, rest))
}

/// A number in a plain place, and the line behind it.
#[inline(always)]
pub fn plain_at(line: &[u8]) -> Result<(u64, &[u8]), Why>
    ensures { IsAsLineRead (λ x. (x.0, tokens x.1.now)) result (plain_at (tokens line.now)) }
{
    match number_at(line) {
        Some((number, rest)) => Ok((number, rest)),
        None => Ok(plain_token_at(line)?),
    }
}

/// The id that an item keeps of a number: ids have 32 bits, and what is above is kept as 0, which no item has.
#[inline(always)]
#[tactic(auto, unfolding(crate::specs::Reading::kept_id))]
fn kept_id(number: u64) -> u32
    ensures { result ≡ kept_id number }
{
    u32::try_from(number).unwrap_or(0)
}

/// The id of a sort, and the line behind it.
#[inline(always)]
#[tactic(auto, unfolding(crate::specs::Reading::sort_at))]
pub fn sort_at(line: &[u8]) -> Result<(u32, &[u8]), Why>
    ensures { IsAsLineRead (λ x. (x.0, tokens x.1.now)) result (sort_at (tokens line.now)) }
{
    let (number, rest) = plain_at(line)?;
    Ok((kept_id(number), rest))
}

/// The bit that a slice keeps of a number: bits have 32 bits, and what is above is kept as the greatest of these, which no
/// node has.
#[inline(always)]
#[tactic(auto, unfolding(crate::specs::Reading::kept_slice_bit))]
fn kept_bit(number: u64) -> u32
    ensures { result ≡ kept_slice_bit number }
{
    u32::try_from(number).unwrap_or(u32::MAX)
}

/// A bound of a slice, and the line behind it.
#[inline(always)]
#[tactic(auto, unfolding(crate::specs::Reading::bit_at))]
pub(crate) fn bit_at(line: &[u8]) -> Result<(u32, &[u8]), Why>
    ensures { IsAsLineRead (λ x. (x.0, tokens x.1.now)) result (bit_at (tokens line.now)) }
{
    let (number, rest) = plain_at(line)?;
    Ok((kept_bit(number), rest))
}

/// The same as `operand_at`: the first token is cut off, and then read.
#[cold]
#[inline(never)]
#[tactic(auto, unfolding(crate::specs::Reading::operand_at, crate::specs::Reading::operand))]
fn operand_token_at(line: &[u8]) -> Result<(u32, &[u8]), Why>
    ensures { IsAsLineRead (λ x. (x.0, tokens x.1.now)) result (operand_at (tokens line.now)) }
{
    let (token, rest) = next_token(line).ok_or(Why::BadToken)?;
    match decimal(token) {
        Some(number) => Ok((kept_id(number), rest)),
        None if is_negative(token) => Err(Why::NegativeOperand),
        None => Err(Why::BadToken),
    }
}

/// The id of an operand, and the line behind it.
#[inline(always)]
pub(crate) fn operand_at(line: &[u8]) -> Result<(u32, &[u8]), Why>
    ensures { IsAsLineRead (λ x. (x.0, tokens x.1.now)) result (operand_at (tokens line.now)) }
{
    match number_at(line) {
        Some((number, rest)) => Ok((kept_id(number), rest)),
        None => Ok(operand_token_at(line)?),
    }
}

/// The width behind `sort`, and the line behind it.
#[tactic(auto, unfolding(crate::specs::Reading::width_told))]
pub(crate) fn width_at(line: &[u8]) -> Result<(u64, &[u8]), Why>
    ensures { IsAsLineRead (λ x. (x.0, tokens x.1.now)) result (width_told (tokens line.now)) }
{
    let (token, rest) = next_token(line).ok_or(Why::BadToken)?;
    if is_word(token, b"bitvec") {
        plain_at(rest)
    } else if is_word(token, b"array") {
        Err(Why::ArraySort)
    } else {
        Err(Why::BadToken)
    }
}

/// A sort and an operand, and the line behind them.
#[inline(always)]
#[tactic(auto, unfolding(crate::specs::Reading::pair_at))]
pub(crate) fn pair_at(line: &[u8]) -> Result<(u32, u32, &[u8]), Why>
    ensures { IsAsLineRead (λ x. (x.0, x.1, tokens x.2.now)) result (pair_at (tokens line.now)) }
{
    let (sort, rest) = sort_at(line)?;
    let (first, rest) = operand_at(rest)?;
    Ok((sort, first, rest))
}

/// A sort and two operands, and the line behind them.
#[inline(always)]
#[tactic(auto, unfolding(crate::specs::Reading::triple_at))]
pub(crate) fn triple_at(line: &[u8]) -> Result<(u32, u32, u32, &[u8]), Why>
    ensures { IsAsLineRead (λ x. (x.0, x.1, x.2, tokens x.3.now)) result
        (triple_at (tokens line.now)) }
{
    let (sort, rest) = sort_at(line)?;
    let (first, rest) = operand_at(rest)?;
    let (second, rest) = operand_at(rest)?;
    Ok((sort, first, second, rest))
}

/// So many operands, and the line behind them.
fn operands_at(alloc: Global, count: u64, line: &[u8]) -> Result<(Vec<u32>, &[u8]), Why>
    ensures { GivesUnlessFull (λ x. (x.0.items, tokens x.1.now)) result
        (operands_at count (tokens line.now)) }
{
    let mut ids = Vec::new(alloc);
    let mut rest = line;
    for _ in 0..count {
        let (id, after) = operand_at(rest)?;
        match ids.push(id) {
            Ok(()) => {}
            Err(_) => return Err(Why::NoMemory),
        }
        rest = after;
    }
    Ok((ids, rest))
}

/// How many operands there are, they themselves, and the line behind them.
#[tactic(auto, unfolding(crate::specs::Reading::counted_at))]
pub(crate) fn counted_at(alloc: Global, line: &[u8]) -> Result<(Vec<u32>, &[u8]), Why>
    ensures { GivesUnlessFull (λ x. (x.0.items, tokens x.1.now)) result
        (counted_at (tokens line.now)) }
{
    let (count, rest) = plain_at(line)?;
    let found = operands_at(alloc, count, rest)?;
    // this number stands for all greater ones too
    if count == u64::MAX {
        return Err(Why::BadToken);
    }
    Ok(found)
}
