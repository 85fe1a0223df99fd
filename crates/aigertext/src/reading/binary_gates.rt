//! Reading the gates of the binary form, two deltas each.
ghost use Rattle.std.specs.Prelude.{◌≡◌, ◌<◌, ◌≤◌, ◌++◌, length, drop, IfOk, IfSome};
ghost use Rattle.aigertext.specs.Binary.{gate_text};
ghost use Rattle.aigertext.specs.Reading.{IsAsRead, said_at_front, delta_why, delta_at, gate_at};
ghost use Rattle.aigertext.specs.Passes.{greater_at, smaller_at};
ghost use Rattle.aigertext.specs.declared.forms.Form.TheVariants.{Binary};

use crate::fault::{Stop, Why};
use crate::reading::lines::stop;
use aiger::{Gate, Lit};
use deltas::DeltaFault;

/// Why a delta is none.
fn why(fault: DeltaFault) -> Why
    ensures { result ≡ delta_why fault }
{
    match fault {
        DeltaFault::Truncated => Why::Truncated,
        DeltaFault::NotShortest => Why::DeltaNotShortest,
        DeltaFault::TooLong => Why::DeltaTooLong,
    }
}

/// A delta, and the text behind it.
#[inline(always)]
#[tactic(auto, unfolding(crate::specs::Reading::delta_at))]
fn delta(text: &[u8]) -> Result<(u64, &[u8]), Stop>
    ensures { IsAsRead (λ x. (x.0, x.1.now)) result (said_at_front text.now (delta_at text.now)) }
{
    match deltas::read(text) {
        Ok(found) => Ok(found),
        Err(fault) => Err(stop(text, why(fault))),
    }
}

/// The greater operand of a gate with this literal, and the text behind its delta.
#[inline(always)]
fn greater_operand(text: &[u8], own: u32) -> Result<(u32, &[u8]), Stop>
    ensures gives { IsAsRead (λ x. (x.0, x.1.now)) result
        (said_at_front text.now (greater_at own text.now)) }
    ensures below { IfOk result (λ x. x.0 < own) }
{
    let (difference, behind) = delta(text)?;
    if difference == 0 || u64::from(own) < difference {
        return Err(stop(text, Why::GateOrder));
    }
    Ok((own - difference as u32, behind))
}

/// The smaller operand of a gate whose greater one is given, and the text behind its delta.
#[inline(always)]
fn smaller_operand(text: &[u8], greater: u32) -> Result<(u32, &[u8]), Stop>
    ensures gives { IsAsRead (λ x. (x.0, x.1.now)) result
        (said_at_front text.now (smaller_at greater text.now)) }
    ensures below { IfOk result (λ x. x.0 ≤ greater) }
{
    let (difference, behind) = delta(text)?;
    if u64::from(greater) < difference {
        return Err(stop(text, Why::GateOrder));
    }
    Ok((greater - difference as u32, behind))
}

/// The gate with this literal at the front of a text, and the text behind it.
#[inline(always)]
#[tactic(auto, unfolding(crate::specs::Reading::gate_at))]
pub fn gate(text: &[u8], own: u32) -> Result<(Gate, &[u8]), Stop>
    ensures gives { IsAsRead (λ x. (x.0, x.1.now)) result (gate_at own text.now) }
    ensures ordered { IfOk result (λ x. (x.0.rhs0 < own) × (x.0.rhs1 ≤ x.0.rhs0)) }
{
    let (greater, rest) = greater_operand(text, own)?;
    let (smaller, behind) = smaller_operand(rest, greater)?;
    let (rhs0, rhs1) = (Lit::new(greater), Lit::new(smaller));
    Ok((Gate { rhs0, rhs1 }, behind))
}

/// The gate with this literal at the front of a text, where its deltas are read at once, and how many bytes they take.
/// Of nothing no more is said.
#[inline(always)]
pub fn near_gate(text: &[u8], own: u32) -> Option<(Gate, usize)>
    ensures gives { IfSome result (λ x. text.now
        ≡ gate_text Binary own x.0 ++ drop x.1 text.now) }
    ensures within { IfSome result (λ x. x.1 ≤ length text.now) }
{
    let pair = deltas::read_pair(text)?;
    let greater = own.checked_sub(pair.first)?;
    let smaller = greater.checked_sub(pair.second)?;
    let (rhs0, rhs1) = (Lit::new(greater), Lit::new(smaller));
    Some((Gate { rhs0, rhs1 }, pair.length))
}
