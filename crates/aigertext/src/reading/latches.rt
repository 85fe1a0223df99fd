//! Reading the line of a latch whose own literal is given.
ghost use Rattle.std.specs.Prelude.{◌≡◌, ◌∷◌};
ghost use Rattle.aigertext.specs.Reading.{IsAsRead, reset_of, reset_on, fields, fields_behind, next_fields, next_of};
ghost use Rattle.aigertext.specs.Passes.{own_fields, latch_in};
ghost use Rattle.base.specs.Decimals.{number_of};

use crate::fault::Why;
use crate::forms::Form;
use crate::reading::fields::{first_field, next_field};
use crate::reading::numbers::literal_within;
use aiger::{Latch, Reset};
use base::decimal;

/// How a latch begins: 0, 1, or its own literal where it has no initial value.
fn reset(field: &[u8], own: u32) -> Result<Reset, Why>
    ensures { IsAsRead (λ x. x) result (reset_of own (number_of field.now)) }
{
    match decimal(field) {
        Some(0) => Ok(Reset::Zero),
        Some(1) => Ok(Reset::One),
        Some(number) if number == u64::from(own) => Ok(Reset::Free),
        _ => Err(Why::BadLatch),
    }
}

/// How a latch begins, by what stands behind its next literal on its line; nothing stands for 0.
fn reset_behind(rest: &[u8], own: u32) -> Result<Reset, Why>
    ensures { IsAsRead (λ x. x) result (reset_on own (fields_behind rest.now)) }
{
    match next_field(rest) {
        None => Ok(Reset::Zero),
        Some((field, rest)) => match next_field(rest) {
            None => reset(field, own),
            Some(_) => Err(Why::BadLatch),
        },
    }
}

/// The latch of a next literal and what stands behind it on its line.
#[tactic(auto, unfolding(crate::specs::Reading::next_fields))]
pub fn latch_behind(next: &[u8], rest: &[u8], greatest: u32, own: u32) -> Result<Latch, Why>
    ensures { IsAsRead (λ x. x) result
        (next_fields greatest own (next.now ∷ fields_behind rest.now)) }
{
    let next = literal_within(next, greatest, Why::BadLatch)?;
    let reset = reset_behind(rest, own)?;
    Ok(Latch { next, reset })
}

/// The latch of a line of the binary form: its next literal, which is at most the greatest one, and how it begins.
fn next_latch(line: &[u8], greatest: u32, own: u32) -> Result<Latch, Why>
    ensures { IsAsRead (λ x. x) result (next_of greatest own line.now) }
{
    let (next, rest) = first_field(line);
    latch_behind(next, rest, greatest, own)
}

/// The latch of a line of the ascii form, which begins with the given own literal.
#[tactic(auto, unfolding(crate::specs::Passes::own_fields, crate::specs::Reading::next_fields))]
fn own_latch(line: &[u8], greatest: u32, own: u32) -> Result<Latch, Why>
    ensures { IsAsRead (λ x. x) result (own_fields greatest own (fields line.now)) }
{
    let (current, rest) = first_field(line);
    let number = decimal(current).ok_or(Why::BadLatch)?;
    if number != u64::from(own) {
        return Err(Why::BadLatch);
    }
    let (next, rest) = next_field(rest).ok_or(Why::BadLatch)?;
    latch_behind(next, rest, greatest, own)
}

/// The latch of a line of a form, whose own literal is given: its next literal, which is at most the greatest one, and
/// how it begins.
///
/// Error: `BadLatch`.
pub fn latch_in(form: Form, line: &[u8], greatest: u32, own: u32) -> Result<Latch, Why>
    ensures { IsAsRead (λ x. x) result (latch_in form greatest own line.now) }
{
    match form {
        Form::Ascii => own_latch(line, greatest, own),
        Form::Binary => next_latch(line, greatest, own),
    }
}
