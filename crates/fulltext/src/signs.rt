//! Operands with a minus: a line is read without their minuses, which are kept beside it.
ghost use Rattle.std.specs.Prelude.{◌≡◌, ◌==◌, ℕ, ◌++◌, ◌∷◌, [], Bool, true, false, Some, OnOk, IfErr, MatchResult, IfSome};
ghost use Rattle.std.specs.List.{list_any};
ghost use Rattle.btor2text.specs.Tokens.{tokens};
ghost use Rattle.btor2text.specs.declared.fault.Why.TheVariants as why;
ghost use Rattle.fulltext.specs.Signs.{has_minus, without_sign, signs, unsigned, signs_behind, unsigned_behind, kept_signs};
ghost use Rattle.fulltext.specs.Steps.{IsWhole, IsFront, AddsOperands};

use base::decimal;
use btor2text::{Why, next_token};
use std::alloc::Global;

/// Whether a token is `-` and a decimal other than 0.
#[tactic(auto, unfolding(crate::specs::Signs::has_minus))]
fn has_minus(token: &[u8]) -> bool
    ensures { result ≡ has_minus token.now }
{
    match token {
        [b'-', rest @ ..] => match decimal(rest) {
            Some(number) => number != 0,
            None => false,
        },
        _ => false,
    }
}

/// A token without its minus.
fn without_sign(minus: bool, token: &[u8]) -> &[u8]
    ensures { result.now ≡ without_sign minus token.now }
{
    if !minus {
        return token;
    }
    match token {
        [] => token,
        [_, rest @ ..] => rest,
    }
}

/// Puts a token behind bytes, and a space behind it.
fn put_token(bytes: &mut Vec<u8>, token: &[u8]) -> Result<(), Why>
    ensures ok { OnOk result (bytes.new.items ≡ bytes.old.items ++ token.now ++ 32 ∷ []) }
    ensures err { IfErr result (λ e. e ≡ why.NoMemory) }
{
    match bytes.extend_from_slice(token) {
        Ok(()) => {}
        Err(_) => return Err(Why::NoMemory),
    }
    match bytes.push(b' ') {
        Ok(()) => Ok(()),
        Err(_) => Err(Why::NoMemory),
    }
}

/// Keeps whether an operand has a minus.
fn put_sign(minuses: &mut Vec<bool>, minus: bool) -> Result<(), Why>
    ensures ok { OnOk result (minuses.new.items ≡ minuses.old.items ++ minus ∷ []) }
    ensures err { IfErr result (λ e. e ≡ why.NoMemory) }
{
    match minuses.push(minus) {
        Ok(()) => Ok(()),
        Err(_) => Err(Why::NoMemory),
    }
}

/// Puts an operand's token without its minus behind bytes, and keeps whether it has one.
fn put_operand(bytes: &mut Vec<u8>, minuses: &mut Vec<bool>, token: &[u8]) -> Result<(), Why>
    ensures bytes { OnOk result (bytes.new.items
        ≡ bytes.old.items ++ without_sign (has_minus token.now) token.now ++ 32 ∷ []) }
    ensures minuses { OnOk result (minuses.new.items ≡ minuses.old.items ++ has_minus token.now ∷ []) }
    ensures err { IfErr result (λ e. e ≡ why.NoMemory) }
{
    let minus = has_minus(token);
    match put_token(bytes, without_sign(minus, token)) {
        Ok(()) => put_sign(minuses, minus),
        Err(why) => Err(why),
    }
}

/// Puts the first so many tokens of a line behind bytes, and gives the line behind them.
fn put_front<'a>(bytes: &mut Vec<u8>, count: u64, line: &'a [u8]) -> Result<&'a [u8], Why>
    requires { bytes.old.items ≡ [] }
    ensures { MatchResult result (λ rest. IsFront count (tokens line.now) bytes.new.items (tokens rest.now))
        (λ e. e ≡ why.NoMemory) }
{
    let mut left = count;
    let mut rest = line;
    while left > 0 {
        match next_token(rest) {
            None => return Ok(rest),
            Some((token, behind)) => {
                match put_token(bytes, token) {
                    Ok(()) => {}
                    Err(why) => return Err(why),
                }
                rest = behind;
            }
        }
        left -= 1;
    }
    Ok(rest)
}

/// Puts the first so many tokens of a line behind bytes, each without its minus, keeps which of them have one, and gives
/// the line behind them.
fn put_operands<'a>(
    bytes: &mut Vec<u8>,
    minuses: &mut Vec<bool>,
    count: u64,
    line: &'a [u8],
) -> Result<&'a [u8], Why>
    requires { IsWhole bytes.old.items }
    ensures { MatchResult result
        (λ rest. AddsOperands count (tokens line.now) bytes.old.items bytes.new.items minuses.old.items minuses.new.items (tokens rest.now))
        (λ e. e ≡ why.NoMemory) }
{
    let mut left = count;
    let mut rest = line;
    while left > 0 {
        match next_token(rest) {
            None => return Ok(rest),
            Some((token, behind)) => {
                match put_operand(bytes, minuses, token) {
                    Ok(()) => {}
                    Err(why) => return Err(why),
                }
                rest = behind;
            }
        }
        left -= 1;
    }
    Ok(rest)
}

/// Puts the bytes of a line behind others.
fn put_rest(bytes: &mut Vec<u8>, line: &[u8]) -> Result<(), Why>
    ensures ok { OnOk result (bytes.new.items ≡ bytes.old.items ++ line.now) }
    ensures err { IfErr result (λ e. e ≡ why.NoMemory) }
{
    match bytes.extend_from_slice(line) {
        Ok(()) => Ok(()),
        Err(_) => Err(Why::NoMemory),
    }
}

/// Puts a line without the minuses of so many operands behind so many tokens into bytes, and keeps these.
pub(crate) fn put_unsigned(
    bytes: &mut Vec<u8>,
    minuses: &mut Vec<bool>,
    before: u64,
    count: u64,
    line: &[u8],
) -> Result<(), Why>
    requires bytes { bytes.old.items ≡ [] }
    requires minuses { minuses.old.items ≡ [] }
    ensures bytes { OnOk result (tokens bytes.new.items ≡ unsigned_behind before count (tokens line.now)) }
    ensures minuses { OnOk result (minuses.new.items ≡ signs_behind before count (tokens line.now)) }
    ensures err { IfErr result (λ e. e ≡ why.NoMemory) }
{
    let rest = put_front(bytes, before, line)?;
    let rest = put_operands(bytes, minuses, count, rest)?;
    put_rest(bytes, rest)
}

/// Whether one of some minuses stands.
fn has_some(minuses: &[bool]) -> bool
    ensures { result ≡ list_any (λ m. m) minuses.now }
{
    minuses.iter().any(|minus| *minus)
}

/// Minuses as they are kept: none is told where no operand has one.
pub(crate) fn kept_signs(alloc: Global, minuses: Vec<bool>) -> Vec<bool>
    ensures { result.items ≡ kept_signs minuses.items }
{
    if has_some(minuses.as_slice()) {
        minuses
    } else {
        Vec::new(alloc)
    }
}

/// Whether a line has a byte `-`.
fn has_dash(line: &[u8]) -> bool
    ensures { result ≡ list_any (λ b. b == 45) line.now }
{
    line.iter().any(|byte| *byte == b'-')
}

/// Whether a line has no byte `-`.
pub(crate) fn has_no_sign(line: &[u8]) -> bool
    ensures { result ≡ true → (before count : ℕ) → (unsigned_behind before count (tokens line.now) ≡ tokens line.now)
        × (kept_signs (signs_behind before count (tokens line.now)) ≡ []) }
{
    !has_dash(line)
}
