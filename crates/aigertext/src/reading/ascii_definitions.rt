//! The lines of an ascii text that define variables, inputs, latches and gates, read onto the lists of a file.
ghost use Rattle.std.specs.Prelude.{◌≡◌, ℕ, List, Result, Ok, OnOk, IfSome};
ghost use Rattle.base.specs.Decimals.{number_of};
ghost use Rattle.aigerlists.specs.Loose.{Loose as Lists, with_input_line, with_latch_line, with_gate_line};
ghost use Rattle.aigertext.specs.declared.fault.Why.{Why as LineWhy};
ghost use Rattle.aigertext.specs.Reading.{IsAsRead, line_at};
ghost use Rattle.aigertext.specs.AsciiReading.{defining, defining_by, input_of, latch_of_line, gate_of_line, onto_lists};
ghost use Rattle.aigertext.specs.Passes.{WasToBeRead};

use crate::fault::{Stop, Why};
use crate::reading::fields::{first_field, next_field};
use crate::reading::latches::latch_behind;
use crate::reading::lines::{at, line, stop};
use crate::reading::numbers::literal_within;
use crate::reading::plain_numbers::three_numbers;
use aiger::{CircuitFault, Lit};
use aigerlists::{GateLine, LatchLine, Loose};
use base::decimal;

/// What a line of an ascii text defines: an input, a latch or a gate.
pub(crate) trait Definition {
    /// What a line says, by the greatest literal and the lists of the lines before it.
    ghost says: { ℕ → Lists → List ℕ → Result Self LineWhy };

    /// Lists with one more.
    ghost with_line: { Lists → Self → Lists };

    /// What a line says.
    fn of_line(line: &[u8], greatest: u32, lists: &Loose) -> Result<Self, Why>
        ensures { IsAsRead (λ x. x) result (says greatest lists.now line.now) };

    /// What the line at the front of a text defines, and the text behind it, where it is quickly read; else nothing. Of
    /// nothing no more is said.
    fn plain<'a>(text: &'a [u8], greatest: u32, lists: &Loose) -> Option<(Self, &'a [u8])>
        ensures { IfSome result (λ x. line_at (says greatest lists.now) text.now
            ≡ Ok (x.0, x.1.now)) }
    {
        None
    }

    /// Adds it to lists.
    fn push(self, lists: &mut Loose) -> Result<(), CircuitFault>
        ensures { OnOk result (lists.new ≡ with_line lists.old self) };
}

impl Definition for Lit {
    ghost says = { input_of };

    ghost with_line = { with_input_line };

    /// The literal of an input.
    ///
    /// Error: `BadNumber`.
    #[tactic(auto, unfolding(crate::specs::AsciiReading::input_of))]
    fn of_line(line: &[u8], greatest: u32, lists: &Loose) -> Result<Lit, Why> {
        defined_by(line, Why::BadNumber, greatest, lists)
    }

    fn push(self, lists: &mut Loose) -> Result<(), CircuitFault> {
        lists.push_input(self)
    }
}

impl Definition for LatchLine {
    ghost says = { latch_of_line };

    ghost with_line = { with_latch_line };

    /// A latch: its own literal, its next literal, and how it begins.
    ///
    /// Error: `BadLatch`.
    #[tactic(auto, unfolding(crate::specs::AsciiReading::latch_fields, crate::specs::Reading::next_fields))]
    fn of_line(line: &[u8], greatest: u32, lists: &Loose) -> Result<LatchLine, Why> {
        let (current, rest) = first_field(line);
        let current = defined_by(current, Why::BadLatch, greatest, lists)?;
        let (next, rest) = next_field(rest).ok_or(Why::BadLatch)?;
        let latch = latch_behind(next, rest, greatest, current.number())?;
        Ok(LatchLine {
            current,
            next: latch.next,
            reset: latch.reset,
        })
    }

    fn push(self, lists: &mut Loose) -> Result<(), CircuitFault> {
        lists.push_latch(self.current, self.next, self.reset)
    }
}

impl Definition for GateLine {
    ghost says = { gate_of_line };

    ghost with_line = { with_gate_line };

    /// A gate.
    ///
    /// Errors, of which the first that applies in this order is answered: `BadNumber` where the line is not three decimals
    /// or an operand is above the greatest literal, `GateOrder` where its own literal defines no new variable.
    #[tactic(auto, unfolding(crate::specs::AsciiReading::gate_fields))]
    fn of_line(line: &[u8], greatest: u32, lists: &Loose) -> Result<GateLine, Why> {
        let (lhs, rest) = first_field(line);
        let (rhs0, rest) = next_field(rest).ok_or(Why::BadNumber)?;
        let (rhs1, rest) = next_field(rest).ok_or(Why::BadNumber)?;
        if next_field(rest).is_some() {
            return Err(Why::BadNumber);
        }
        let own = decimal(lhs).ok_or(Why::BadNumber)?;
        let rhs0 = literal_within(rhs0, greatest, Why::BadNumber)?;
        let rhs1 = literal_within(rhs1, greatest, Why::BadNumber)?;
        let lhs = defining(own, Why::GateOrder, greatest, lists)?;
        Ok(GateLine { lhs, rhs0, rhs1 })
    }

    fn plain<'a>(text: &'a [u8], greatest: u32, lists: &Loose) -> Option<(GateLine, &'a [u8])> {
        let (number, first, second, behind) = three_numbers(text)?;
        if first > greatest || second > greatest {
            return None;
        }
        let Ok(lhs) = defining(u64::from(number), Why::GateOrder, greatest, lists) else {
            return None;
        };
        let (rhs0, rhs1) = (Lit::new(first), Lit::new(second));
        Some((GateLine { lhs, rhs0, rhs1 }, behind))
    }

    fn push(self, lists: &mut Loose) -> Result<(), CircuitFault> {
        lists.push_gate(self.lhs, self.rhs0, self.rhs1)
    }
}

/// The literal of a number, where it is even, at least 2 and at most the greatest, and no line defines its variable.
fn defining(number: u64, why: Why, greatest: u32, lists: &Loose) -> Result<Lit, Why>
    ensures { IsAsRead (λ x. x) result (defining why greatest lists.now number) }
{
    if number > u64::from(greatest) {
        return Err(why);
    }
    let literal = Lit::new(number as u32);
    if number >= 2 && number % 2 == 0 && !lists.defines(literal.var()) {
        Ok(literal)
    } else {
        Err(why)
    }
}

/// The same of bytes that are a number.
fn defined_by(bytes: &[u8], why: Why, greatest: u32, lists: &Loose) -> Result<Lit, Why>
    ensures { IsAsRead (λ x. x) result (defining_by why greatest lists.now (number_of bytes.now)) }
{
    let number = decimal(bytes).ok_or(why)?;
    defining(number, why, greatest, lists)
}

/// What the line at the front of a text defines, and the text behind it.
fn first<'a, D: Definition>(
    text: &'a [u8],
    greatest: u32,
    lists: &Loose,
) -> Result<(D, &'a [u8]), Stop>
    ensures { IsAsRead (λ x. (x.0, x.1.now)) result (line_at (D.says greatest lists.now) text.now) }
{
    if let Some(found) = D::plain(text, greatest, lists) {
        return Ok(found);
    }
    let (bytes, behind) = line(text)?;
    let definition = at(text, D::of_line(bytes, greatest, lists))?;
    Ok((definition, behind))
}

/// Adds so many definitions by their lines, and answers the text behind them.
pub fn push_definitions<'a, D: Definition>(
    lists: &mut Loose,
    text: &'a [u8],
    greatest: u32,
    count: u32,
) -> Result<&'a [u8], Stop>
    ensures { WasToBeRead (λ x. (lists.new, x.now)) result
        (onto_lists (D.says greatest) D.with_line lists.old count text.now) }
{
    let mut rest = text;
    for _index in 0..count {
        let (definition, after) = first::<D>(rest, greatest, lists)?;
        if definition.push(lists).is_err() {
            return Err(stop(rest, Why::NoMemory));
        }
        rest = after;
    }
    Ok(rest)
}
