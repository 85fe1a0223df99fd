//! What a witness circuit shares with the circuit.
ghost use Rattle.std.specs.Prelude.{◌≡◌, ◌+◌, ◌≤◌, suc, true, length, IfOk};
ghost use Rattle.std.specs.List.{list_all, list_any};
ghost use Rattle.std.specs.Prelude.{is_some, Option, ℕ};
ghost use Rattle.aiger.specs.Limits.{greatest_count};
ghost use Rattle.aiger.specs.Net.{variables};
ghost use Rattle.aiger.specs.Circuit.{net, name_of};
ghost use Rattle.witness_circuits.specs.Mapping.{said_literal, said_by_numbering, shared_literal, names_said_in, said_by_names, is_inside, are_inside, in_place, in_order, mapping_of};

use aiger::{Circuit, GREATEST_COUNT, Lit, Section};
use aigerlists::Numbering;
use base::decimal;
use gates::variable_literal;
use std::alloc::{AllocError, Global};

/// A literal that no circuit has.
const UNDEFINED: u64 = 2 * (GREATEST_COUNT as u64 + 1);

/// For each input and each latch of a witness circuit the literal of the circuit that it stands for, or none.
#[derive(Drop)]
pub(crate) struct Shared {
    /// Of the inputs.
    pub inputs: Vec<Option<Lit>>,
    /// Of the latches.
    pub latches: Vec<Option<Lit>>,
}

/// The literal that a name's bytes say.
fn said_literal(name: &[u8]) -> Option<u64>
    ensures { result ≡ said_literal name.now }
{
    match name {
        [first, second, digits @ ..] if *first == b'=' && *second == b' ' => decimal(digits),
        _ => None,
    }
}

/// A literal by the numbers of the circuit, of one by those of its file, where one is said. One that the file does not define
/// is none of any circuit.
fn said_by_numbering(numbering: &Numbering, said: Option<u64>) -> Option<u64>
    ensures { result ≡ said_by_numbering numbering.now said }
{
    match said {
        Some(number) => match numbering.literal(number) {
            Some(literal) => Some(literal),
            None => Some(UNDEFINED),
        },
        None => None,
    }
}

/// The literal of the circuit that the name of a position says.
fn shared_literal(
    numbering: &Numbering,
    witness: &Circuit,
    section: Section,
    position: usize,
) -> Option<u64>
    ensures { result ≡ shared_literal numbering.now (name_of witness.now section position) }
{
    match witness.name(section, position) {
        Some(name) => said_by_numbering(numbering, said_literal(name)),
        None => None,
    }
}

/// Whether what something stands for is a literal of the circuit.
fn is_inside(circuit: &Circuit, said: Option<u64>) -> bool
    ensures { result ≡ is_inside (variables (net circuit.now)) said }
{
    match said {
        Some(number) => number / 2 <= u64::from(circuit.variables()),
        None => true,
    }
}

/// Whether all names of a section say literals of the circuit, or none.
fn are_said_inside(
    numbering: &Numbering,
    circuit: &Circuit,
    witness: &Circuit,
    section: Section,
) -> bool
    ensures { result ≡ list_all (is_inside (variables (net circuit.now)))
        (names_said_in numbering.now section witness.now) }
{
    for position in 0..witness.count(section) {
        if !is_inside(
            circuit,
            shared_literal(numbering, witness, section, position),
        ) {
            return false;
        }
    }
    true
}

/// Whether all names of inputs and latches say literals of the circuit, or none.
pub(crate) fn are_inside(numbering: &Numbering, circuit: &Circuit, witness: &Circuit) -> bool
    ensures { result ≡ are_inside circuit.now (said_by_names numbering.now witness.now) }
{
    are_said_inside(numbering, circuit, witness, Section::Input)
        && are_said_inside(numbering, circuit, witness, Section::Latch)
}

/// Whether some name of a section says a literal.
fn says_some_in(numbering: &Numbering, witness: &Circuit, section: Section) -> bool
    ensures { result ≡ list_any (λ (l : Option ℕ). is_some l)
        (names_said_in numbering.now section witness.now) }
{
    for position in 0..witness.count(section) {
        if shared_literal(numbering, witness, section, position).is_some() {
            return true;
        }
    }
    false
}

/// The literal of a number that a name says, which the circuit has.
fn literal(circuit: &Circuit, said: Option<u64>) -> Option<Lit>
    requires { is_inside (variables (net circuit.now)) said ≡ true }
    ensures { result ≡ said }
{
    match said {
        Some(number) => {
            // what a circuit keeps
            let _ = circuit.variables();
            Some(Lit::new(number as u32))
        }
        None => None,
    }
}

/// What the names of a section say.
fn said_in(
    alloc: Global,
    numbering: &Numbering,
    circuit: &Circuit,
    witness: &Circuit,
    section: Section,
) -> Result<Vec<Option<Lit>>, AllocError>
    requires { list_all (is_inside (variables (net circuit.now)))
        (names_said_in numbering.now section witness.now) ≡ true }
    ensures { IfOk result (λ said. said.items ≡ names_said_in numbering.now section witness.now) }
{
    let mut said = Vec::new(alloc);
    for position in 0..witness.count(section) {
        let one = literal(
            circuit,
            shared_literal(numbering, witness, section, position),
        );
        match said.push(one) {
            Ok(()) => {}
            Err(_) => return Err(AllocError),
        }
    }
    Ok(said)
}

/// The literal of the variable at a place behind a first one, where there are so many.
fn in_place(first: u32, count: usize, place: usize) -> Option<Lit>
    requires { first + count ≤ greatest_count + 1 }
    ensures { result ≡ in_place first count place }
{
    if place < count {
        Some(variable_literal(first + place as u32))
    } else {
        None
    }
}

/// The literals of so many variables from a first one on, for as many as there are.
fn in_order(
    alloc: Global,
    first: u32,
    count: usize,
    all: usize,
) -> Result<Vec<Option<Lit>>, AllocError>
    requires { first + count ≤ greatest_count + 1 }
    ensures { IfOk result (λ literals. literals.items ≡ in_order first count all) }
{
    let mut literals = Vec::new(alloc);
    for place in 0..all {
        match literals.push(in_place(first, count, place)) {
            Ok(()) => {}
            Err(_) => return Err(AllocError),
        }
    }
    Ok(literals)
}

/// What the names of inputs and latches say.
fn shared_by_names(
    alloc: Global,
    numbering: &Numbering,
    circuit: &Circuit,
    witness: &Circuit,
) -> Result<Shared, AllocError>
    requires { are_inside circuit.now (said_by_names numbering.now witness.now) ≡ true }
    ensures inputs { IfOk result (λ shared. shared.inputs.items
        ≡ (said_by_names numbering.now witness.now).inputs) }
    ensures latches { IfOk result (λ shared. shared.latches.items
        ≡ (said_by_names numbering.now witness.now).latches) }
{
    let inputs = said_in(alloc, numbering, circuit, witness, Section::Input)?;
    let latches = said_in(alloc, numbering, circuit, witness, Section::Latch)?;
    Ok(Shared { inputs, latches })
}

/// What is shared in order.
fn shared_in_order(
    alloc: Global,
    circuit: &Circuit,
    witness: &Circuit,
) -> Result<Shared, AllocError>
    ensures inputs { IfOk result (λ shared. shared.inputs.items
        ≡ in_order 1 circuit.now.inputs witness.now.inputs) }
    ensures latches { IfOk result (λ shared. shared.latches.items
        ≡ in_order (suc circuit.now.inputs) (length circuit.now.latches)
        (length witness.now.latches)) }
{
    // what a circuit keeps
    let _ = circuit.variables();
    let count = circuit.inputs();
    let inputs = in_order(alloc, 1, count as usize, witness.inputs() as usize)?;
    let all = witness.latches().len();
    let latches = in_order(alloc, count + 1, circuit.latches().len(), all)?;
    Ok(Shared { inputs, latches })
}

/// What a witness circuit shares with the circuit: what the names of its inputs and latches say; and where none says a
/// literal, the first ones stand for those of the circuit, in order. The error is want of memory.
pub(crate) fn shared_of(
    alloc: Global,
    numbering: &Numbering,
    circuit: &Circuit,
    witness: &Circuit,
) -> Result<Shared, AllocError>
    requires { are_inside circuit.now (said_by_names numbering.now witness.now) ≡ true }
    ensures inputs { IfOk result (λ shared. shared.inputs.items
        ≡ (mapping_of numbering.now circuit.now witness.now).inputs) }
    ensures latches { IfOk result (λ shared. shared.latches.items
        ≡ (mapping_of numbering.now circuit.now witness.now).latches) }
{
    if says_some_in(numbering, witness, Section::Input)
        || says_some_in(numbering, witness, Section::Latch)
    {
        shared_by_names(alloc, numbering, circuit, witness)
    } else {
        shared_in_order(alloc, circuit, witness)
    }
}
