//! The names of a circuit whose outputs become bad properties. Each error is want of memory.
ghost use Rattle.std.specs.Prelude.{◌≡◌, ℕ, ◌+◌, ◌<◌, ◌≤◌, [], None, true, length, OnOk};
ghost use Rattle.aiger.specs.Circuit.{IsCircuit, rank, section_count, name_of, with_name, is_name};
ghost use Rattle.engine_form.specs.Moves.{new_section, new_position, unnamed, NamesMoved};

use aiger::{Circuit, CircuitFault, Section};
use std::alloc::AllocError;

/// The section in which the positions of a section stand then.
fn new_section(section: Section) -> Section
    ensures { result ≡ new_section section }
{
    match section {
        Section::Output => Section::Bad,
        other => other,
    }
}

/// The position there of one of a section, which has it.
fn new_position(circuit: &Circuit, section: Section, position: usize) -> usize
    requires { position < section_count section circuit.now }
    ensures { result ≡ new_position circuit.now section position }
{
    match section {
        Section::Output => circuit.bads().len() + position,
        _ => position,
    }
}

/// Gives a position that is there and has no name a name.
fn give_name(
    section: Section,
    position: usize,
    name: &[u8],
    made: &mut Circuit,
) -> Result<(), AllocError>
    requires there { position < section_count section made.old }
    requires free { name_of made.old section position ≡ None }
    requires name { is_name name.now ≡ true }
    ensures { OnOk result (made.new ≡ with_name made.old section position name.now) }
{
    match made.set_name(section, position, name) {
        Ok(()) => Ok(()),
        Err(CircuitFault::NoMemory) => Err(AllocError),
        Err(_) => unreachable!(),
    }
}

/// Gives the name of a position, if it has one, to where the position stands then. The names of those before it are there.
fn move_name(
    circuit: &Circuit,
    section: Section,
    position: usize,
    made: &mut Circuit,
) -> Result<(), AllocError>
    requires there { position < section_count section circuit.now }
    requires rest { record made.old { names = [] } ≡ unnamed circuit.now }
    requires names { NamesMoved circuit.now made.old (rank section) position }
    ensures rest { OnOk result (record made.new { names = [] } ≡ unnamed circuit.now) }
    ensures names { OnOk result (NamesMoved circuit.now made.new (rank section) (position + 1)) }
{
    match circuit.name(section, position) {
        Some(name) => give_name(
            new_section(section),
            new_position(circuit, section, position),
            name,
            made,
        ),
        None => Ok(()),
    }
}

/// Gives the names of the positions of a section to where they stand then. Those of the sections before it are there.
fn move_section(circuit: &Circuit, section: Section, made: &mut Circuit) -> Result<(), AllocError>
    requires rest { record made.old { names = [] } ≡ unnamed circuit.now }
    requires names { NamesMoved circuit.now made.old (rank section) 0 }
    ensures rest { OnOk result (record made.new { names = [] } ≡ unnamed circuit.now) }
    ensures names { OnOk result (NamesMoved circuit.now made.new (rank section + 1) 0) }
{
    for position in 0..circuit.count(section) {
        move_name(circuit, section, position, made)?;
    }
    Ok(())
}

/// Gives all names of a circuit to where their positions stand then.
pub(crate) fn move_names(circuit: &Circuit, made: &mut Circuit) -> Result<(), AllocError>
    requires rest { made.old ≡ unnamed circuit.now }
    ensures rest { OnOk result (record made.new { names = [] } ≡ unnamed circuit.now) }
    ensures names { OnOk result (NamesMoved circuit.now made.new 7 0) }
{
    move_section(circuit, Section::Input, made)?;
    move_section(circuit, Section::Latch, made)?;
    move_section(circuit, Section::Output, made)?;
    move_section(circuit, Section::Bad, made)?;
    move_section(circuit, Section::Constraint, made)?;
    move_section(circuit, Section::Justice, made)?;
    move_section(circuit, Section::Fair, made)
}
