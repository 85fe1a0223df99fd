//! Constants that are spelled with digits.

ghost use Rattle.std.specs.Prelude.{◌≡◌, ◌≤◌, ◌^◌, IfSome};
ghost use Rattle.btor2text.specs.Digits.{number_in, decimal_number, signed_number};
ghost use Rattle.btor2text.specs.Tokens.{tokens};
ghost use Rattle.btor2text.specs.Reading.{IsAsLineRead, digits_at, signed_at, constant_told};

use crate::fault::Why;
use crate::forms::Constant;
use crate::places::sort_at;
use crate::tokens::next_token;
use base::decimal;
use btor2::{Body, Decimal};

/// What all numbers beyond those of 64 bits count as.
const BEYOND: u128 = 1 << 64;

/// The number that bytes write as digits of a radix, where each is one; a number above 2^64 counts as 2^64.
fn number_in(radix: u32, bytes: &[u8]) -> Option<u128>
    requires least { 2 ≤ radix }
    requires most { radix ≤ 16 }
    ensures number { result ≡ number_in radix bytes.now }
    ensures small { IfSome result (λ n. n ≤ 2 ^ 64) }
{
    let mut number: u128 = 0;
    for byte in bytes {
        match char::from(*byte).to_digit(radix) {
            Some(digit) => {
                number = (number * u128::from(radix) + u128::from(digit)).min(BEYOND);
            }
            None => return None,
        }
    }
    Some(number)
}

/// The number that bytes write as a decimal; one above 2^64 counts as 2^64.
#[tactic(auto, unfolding(crate::specs::Digits::decimal_number, base::specs::Decimals::number_of))]
fn decimal_number(bytes: &[u8]) -> Option<u128>
    ensures number { result ≡ decimal_number bytes.now }
    ensures small { IfSome result (λ n. n ≤ 2 ^ 64) }
{
    let _number = decimal(bytes)?;
    number_in(10, bytes)
}

/// The number that bytes write as a decimal, or as `-` and a decimal other than 0; one beyond 2^64 on either side
/// counts as 2^64 on that side.
#[tactic(auto, unfolding(crate::specs::Digits::signed_number))]
fn signed_number(bytes: &[u8]) -> Option<i128>
    ensures { result ≡ signed_number bytes.now }
{
    match bytes {
        [] => None,
        [b'-', rest @ ..] => match decimal_number(rest)? {
            0 => None,
            number => Some(-(number as i128)),
        },
        _ => Some(decimal_number(bytes)? as i128),
    }
}

/// The digits of a constant, of which a word takes so many at most: how many are kept, their number, and the line
/// behind them.
#[tactic(auto, unfolding(crate::specs::Reading::digits_at))]
fn digits_at(radix: u32, most: u32, line: &[u8]) -> Result<(u32, u64, &[u8]), Why>
    requires least { 2 ≤ radix }
    requires greatest { radix ≤ 16 }
    requires word { radix ^ most ≡ 2 ^ 64 }
    requires most { most ≤ 64 }
    ensures { IsAsLineRead (λ x. (x.0, x.1, tokens x.2.now)) result
        (digits_at radix most (tokens line.now)) }
{
    let (token, rest) = next_token(line).ok_or(Why::BadToken)?;
    let number = number_in(radix, token).ok_or(Why::BadToken)?;
    if token.len() <= most as usize {
        Ok((token.len() as u32, number as u64, rest))
    } else {
        Ok((most + 1, 0, rest))
    }
}

/// A decimal that may be negative, and the line behind it.
#[tactic(auto, unfolding(crate::specs::Reading::signed_at))]
fn signed_at(line: &[u8]) -> Result<(i128, &[u8]), Why>
    ensures { IsAsLineRead (λ x. (x.0, tokens x.1.now)) result (signed_at (tokens line.now)) }
{
    let (token, rest) = next_token(line).ok_or(Why::BadToken)?;
    let number = signed_number(token).ok_or(Why::BadToken)?;
    Ok((number, rest))
}

/// What the tokens behind a constant's word say, and the line behind them.
#[tactic(auto, unfolding(crate::specs::Reading::constant_told))]
pub(crate) fn constant_at(constant: Constant, line: &[u8]) -> Result<(Body, &[u8]), Why>
    ensures { IsAsLineRead (λ x. (x.0, tokens x.1.now)) result
        (constant_told constant (tokens line.now)) }
{
    let (sort, rest) = sort_at(line)?;
    match constant {
        Constant::Const => {
            let (digits, value, rest) = digits_at(2, 64, rest)?;
            let body = Body::Const {
                sort,
                digits,
                value,
            };
            Ok((body, rest))
        }
        Constant::Constd => {
            let (value, rest) = signed_at(rest)?;
            let value = Decimal::new(value);
            Ok((Body::Constd { sort, value }, rest))
        }
        Constant::Consth => {
            let (digits, value, rest) = digits_at(16, 16, rest)?;
            let body = Body::Consth {
                sort,
                digits,
                value,
            };
            Ok((body, rest))
        }
    }
}
