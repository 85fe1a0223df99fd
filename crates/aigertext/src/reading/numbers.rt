//! Reading one number: a literal, or the size of a justice property.
ghost use Rattle.std.specs.Prelude.{◌≡◌, ◌≤◌, ◌+◌, IfOk};
ghost use Rattle.base.specs.Decimals.{number_of};
ghost use Rattle.aigertext.specs.Reading.{IsAsRead, within, size_of};

use crate::fault::Why;
use aiger::{GREATEST_COUNT, Lit};
use base::decimal;

/// A literal that is at most the greatest one; any other bytes are refused for the given reason.
pub fn literal_within(bytes: &[u8], greatest: u32, why: Why) -> Result<Lit, Why>
    ensures { IsAsRead (λ x. x) result (within why greatest (number_of bytes.now)) }
{
    match decimal(bytes) {
        Some(number) if number <= u64::from(greatest) => Ok(Lit::new(number as u32)),
        _ => Err(why),
    }
}

/// The size of a justice property, where those before it have so many literals together.
#[tactic(auto, unfolding(crate::specs::Reading::size_of))]
pub fn size(line: &[u8], before: u32) -> Result<u32, Why>
    requires { before ≤ 1073741824 }
    ensures gives { IsAsRead (λ x. x) result (size_of before line.now) }
    ensures small { IfOk result (λ n. before + n ≤ 1073741824) }
{
    match decimal(line) {
        None => Err(Why::BadNumber),
        Some(number) if number <= u64::from(GREATEST_COUNT - before) => Ok(number as u32),
        Some(_) => Err(Why::TooBig),
    }
}
