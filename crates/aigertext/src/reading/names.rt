//! Reading the names behind the gates, and the beginning of a comment.
ghost use Rattle.std.specs.Prelude.{◌≡◌};
ghost use Rattle.aiger.specs.Circuit.{with_name, name_refusal};
ghost use Rattle.aigertext.specs.Reading.{name_accepted, section_with_letter, named_by, name_on, names_at, cut_at_byte};
ghost use Rattle.aigertext.specs.Passes.{WasToBeRead, IsLineReadOf};

use crate::fault::{Stop, Why};
use crate::reading::lines::{at, stop};
use aiger::{Circuit, CircuitFault, Section};
use base::{cut_at, decimal, next_line};

/// The section that a letter stands for.
#[tactic(auto, unfolding(crate::specs::Reading::section_with_letter))]
fn section(letter: u8) -> Option<Section>
    ensures { result ≡ section_with_letter letter }
{
    Section::ALL
        .iter()
        .copied()
        .find(|section| section.letter() == letter)
}

/// Gives a name to a position of a section.
///
/// Errors: `BadSymbol` and `NoMemory`.
fn give(circuit: &mut Circuit, section: Section, position: u64, name: &[u8]) -> Result<(), Why>
    ensures { IsLineReadOf (λ u. circuit.new) result
        (name_accepted (with_name circuit.old section position name.now)
        (name_refusal circuit.old section position name.now)) }
{
    match circuit.set_name(section, position as usize, name) {
        Ok(()) => Ok(()),
        Err(CircuitFault::NoMemory) => Err(Why::NoMemory),
        Err(_) => Err(Why::BadSymbol),
    }
}

/// Gives a section's position the name that stands behind its letter.
fn give_by(circuit: &mut Circuit, section: Section, bytes: &[u8]) -> Result<(), Why>
    ensures { IsLineReadOf (λ u. circuit.new) result
        (named_by circuit.old section (cut_at_byte 32 bytes.now)) }
{
    let (digits, name) = cut_at(bytes, b' ').ok_or(Why::BadSymbol)?;
    let position = decimal(digits).ok_or(Why::BadSymbol)?;
    give(circuit, section, position, name)
}

/// Gives the name of a line.
#[tactic(auto, unfolding(crate::specs::Reading::name_on))]
fn give_line(circuit: &mut Circuit, line: &[u8]) -> Result<(), Why>
    ensures { IsLineReadOf (λ u. circuit.new) result (name_on circuit.old line.now) }
{
    let [letter, rest @ ..] = line else {
        return Err(Why::BadSymbol);
    };
    let section = section(*letter).ok_or(Why::BadSymbol)?;
    give_by(circuit, section, rest)
}

/// Gives the names of the lines of a text, up to a line `c` or the end.
///
/// Errors: `BadSymbol`, `Truncated` where the last line has no byte 10, and `NoMemory`.
pub fn give_names(circuit: &mut Circuit, text: &[u8]) -> Result<(), Stop>
    ensures { WasToBeRead (λ u. circuit.new) result (names_at circuit.old text.now) }
{
    let mut rest = text;
    while let Some((line, after)) = next_line(rest) {
        if line == b"c".as_slice() {
            return Ok(());
        }
        at(rest, give_line(circuit, line))?;
        rest = after;
    }
    if !rest.is_empty() {
        return Err(stop(rest, Why::Truncated));
    }
    Ok(())
}
