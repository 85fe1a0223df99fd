//! Calls with ample memory, and the first fault of each. What a circuit and the lists of a file have after a call is
//! pinned by the call's clauses.
use crate::samples::Comparing;
use aiger::{Circuit, CircuitFault, Gate, Lit, Reset, Section};
use aigerlists::{Loose, LooseFault};
use aigertext::Form;
use std::alloc::{AllocError, Global};
use std::test::Fail;

/// A call on a circuit, with the numbers of literals.
#[derive(Clone, Copy)]
pub(crate) enum Call {
    /// The latch at a position is set, where there is one.
    Latch(usize, u32, Reset),
    /// A gate is pushed, and answered with the first number.
    Gate(u32, u32, u32),
    Output(u32),
    Bad(u32),
    Constraint(u32),
    Justice(&'static [u32]),
    Fair(u32),
    /// A name is given to a position of a section, which it is then the name of.
    Name(Section, usize, &'static [u8]),
}

/// The literals of some numbers.
fn literals(alloc: Global, numbers: &[u32]) -> Result<Vec<Lit>, AllocError> {
    let mut list = Vec::new(alloc);
    for number in numbers {
        list.push(Lit::new(*number))?;
    }
    Ok(list)
}

/// Does a call.
pub(crate) fn done(alloc: Global, circuit: &mut Circuit, call: Call) -> Result<(), CircuitFault> {
    match call {
        Call::Latch(position, next, reset) => {
            if position >= circuit.latches().len() {
                return Err(CircuitFault::NoSuchPosition);
            }
            circuit.set_latch(position, Lit::new(next), reset)
        }
        Call::Gate(lhs, rhs0, rhs1) => {
            match circuit.push_gate(Lit::new(rhs0), Lit::new(rhs1)) {
                Ok(lit) if lit.number() != lhs => Err(CircuitFault::NoSuchPosition),
                Ok(_) => Ok(()),
                Err(fault) => Err(fault),
            }
        }
        Call::Output(lit) => circuit.push_output(Lit::new(lit)),
        Call::Bad(lit) => circuit.push_bad(Lit::new(lit)),
        Call::Constraint(lit) => circuit.push_constraint(Lit::new(lit)),
        Call::Justice(numbers) => match literals(alloc, numbers) {
            Ok(list) => circuit.push_justice(list.as_slice()),
            Err(_) => Err(CircuitFault::NoMemory),
        },
        Call::Fair(lit) => circuit.push_fair(Lit::new(lit)),
        Call::Name(section, position, name) => circuit.set_name(section, position, name),
    }
}

/// Does calls one after the other.
fn do_all(alloc: Global, circuit: &mut Circuit, calls: &[Call]) -> Result<(), CircuitFault> {
    for call in calls {
        done(alloc, circuit, *call)?;
    }
    Ok(())
}

/// Whether a circuit has a text.
pub(crate) fn is_spelled(circuit: &Circuit, form: Form, text: &[u8]) -> bool {
    let mut sink = Comparing::new(text);
    aigertext::write(circuit, form, &mut sink).is_ok() && sink.is_whole()
}

/// The circuit of some inputs and latches and some calls.
pub(crate) fn circuit_of(
    alloc: Global,
    inputs: u32,
    latches: u32,
    calls: &[Call],
) -> Result<Circuit, CircuitFault> {
    let mut circuit = Circuit::new(alloc, inputs, latches)?;
    do_all(alloc, &mut circuit, calls).and(Ok(circuit))
}

/// A latch, the gate 8 of the literals 5 and 2, properties of each kind and names, in any order.
const CALLS: [Call; 18] = [
    Call::Gate(8, 5, 2),
    Call::Bad(8),
    Call::Constraint(1),
    Call::Latch(0, 9, Reset::Free),
    Call::Name(Section::Input, 1, b"b"),
    Call::Name(Section::Latch, 0, b"q[0]"),
    Call::Name(Section::Bad, 0, b"~"),
    Call::Name(Section::Constraint, 0, b" "),
    Call::Name(Section::Input, 0, b"a"),
    Call::Output(8),
    Call::Output(8),
    Call::Justice(&[8, 3]),
    Call::Justice(&[]),
    Call::Justice(&[1]),
    Call::Fair(5),
    Call::Name(Section::Output, 0, b"o"),
    Call::Name(Section::Justice, 0, b"j"),
    Call::Name(Section::Fair, 0, b"f"),
];

/// Whether a circuit has so many variables and justice properties.
fn has(circuit: &Circuit, variables: u32, justice: usize) -> bool {
    (circuit.variables() == variables) & (circuit.justice_count() == justice)
}

/// Whether each call is done.
fn are_done(alloc: Global) -> bool {
    match circuit_of(alloc, 2, 1, &CALLS) {
        Ok(circuit) => has(&circuit, 4, 3),
        Err(_) => false,
    }
}

#[test]
fn each_call_with_ample_memory(rt: HostRuntime) {
    assert!(rt; are_done(rt.alloc()));
}

/// Numbers of inputs and of latches that are too many together.
const TOO_MANY: [(u32, u32); 3] = [(1_073_741_825, 0), (1_073_741_824, 1), (u32::MAX, u32::MAX)];

/// Whether a circuit of so many inputs and latches is refused as too big.
fn is_too_big(alloc: Global, inputs: u32, latches: u32) -> bool {
    Circuit::new(alloc, inputs, latches).err() == Some(CircuitFault::TooBig)
}

#[test]
fn too_many_variables(rt: HostRuntime) -> Result<(), Fail> {
    for (inputs, latches) in &TOO_MANY {
        if !is_too_big(rt.alloc(), *inputs, *latches) {
            Err("so many inputs and latches are not refused")?;
        }
    }
    Ok(())
}

/// Calls that are refused on a circuit of an input with a name and a latch, and their faults.
const REFUSED: [(Call, CircuitFault); 15] = [
    (Call::Gate(6, 6, 7), CircuitFault::LiteralOutOfRange),
    (Call::Gate(6, 5, 6), CircuitFault::LiteralOutOfRange),
    (Call::Gate(6, 4, 5), CircuitFault::OrderBroken),
    (Call::Bad(6), CircuitFault::LiteralOutOfRange),
    (Call::Constraint(7), CircuitFault::LiteralOutOfRange),
    (Call::Output(6), CircuitFault::LiteralOutOfRange),
    (Call::Fair(6), CircuitFault::LiteralOutOfRange),
    (Call::Justice(&[5, 6]), CircuitFault::LiteralOutOfRange),
    (
        Call::Latch(0, 6, Reset::One),
        CircuitFault::LiteralOutOfRange,
    ),
    (
        Call::Name(Section::Input, 1, b""),
        CircuitFault::NoSuchPosition,
    ),
    (
        Call::Name(Section::Bad, 0, b"y"),
        CircuitFault::NoSuchPosition,
    ),
    (Call::Name(Section::Input, 0, b""), CircuitFault::NameTaken),
    (Call::Name(Section::Latch, 0, b""), CircuitFault::BadName),
    (
        Call::Name(Section::Latch, 0, b"\x1f"),
        CircuitFault::BadName,
    ),
    (
        Call::Name(Section::Latch, 0, b"\x7f"),
        CircuitFault::BadName,
    ),
];

/// The name of the input.
const NAMED: [Call; 1] = [Call::Name(Section::Input, 0, b"x")];

/// Whether a latch's name of 301 bytes is refused, and one of 300 is not.
fn bounds_names(circuit: &mut Circuit) -> bool {
    let name = [b'x'; 301];
    circuit.set_name(Section::Latch, 0, &name) == Err(CircuitFault::BadName)
        && circuit.set_name(Section::Latch, 0, &name[..300]) == Ok(())
}

/// Fails unless calls are refused by their faults, and so are names by their length.
fn refuses(
    alloc: Global,
    circuit: &mut Circuit,
    refused: &[(Call, CircuitFault)],
) -> Result<(), Fail> {
    for (call, fault) in refused {
        if done(alloc, circuit, *call) != Err(*fault) {
            Err(fault.name())?
        }
    }
    if !bounds_names(circuit) {
        Err("names of 301 and of 300 bytes")?
    }
    Ok(())
}

#[test]
fn the_first_fault_of_a_call(rt: HostRuntime) -> Result<(), Fail> {
    let mut circuit = circuit_of(rt.alloc(), 1, 1, &NAMED)?;
    refuses(rt.alloc(), &mut circuit, &REFUSED)
}

/// A line of a file in the ascii form, with the numbers of literals.
#[derive(Clone, Copy)]
pub(crate) enum Line {
    Input(u32),
    Latch(u32, u32, Reset),
    Gate(u32, u32, u32),
    Output(u32),
    Bad(u32),
    Constraint(u32),
    Justice(&'static [u32]),
    Fair(u32),
    Name(Section, usize, &'static [u8]),
}

/// Adds a line.
fn added(alloc: Global, lines: &mut Loose, line: Line) -> Result<(), CircuitFault> {
    match line {
        Line::Input(lit) => lines.push_input(Lit::new(lit)),
        Line::Latch(lit, next, reset) => lines.push_latch(Lit::new(lit), Lit::new(next), reset),
        Line::Gate(lhs, rhs0, rhs1) => {
            lines.push_gate(Lit::new(lhs), Lit::new(rhs0), Lit::new(rhs1))
        }
        Line::Output(lit) => lines.push_output(Lit::new(lit)),
        Line::Bad(lit) => lines.push_bad(Lit::new(lit)),
        Line::Constraint(lit) => lines.push_constraint(Lit::new(lit)),
        Line::Justice(numbers) => match literals(alloc, numbers) {
            Ok(list) => lines.push_justice(list.as_slice()),
            Err(_) => Err(CircuitFault::NoMemory),
        },
        Line::Fair(lit) => lines.push_fair(Lit::new(lit)),
        Line::Name(section, position, name) => lines.set_name(section, position, name),
    }
}

/// Adds lines one after the other.
fn add_all(alloc: Global, lines: &mut Loose, list: &[Line]) -> Result<(), CircuitFault> {
    for line in list {
        added(alloc, lines, *line)?;
    }
    Ok(())
}

/// The lists of some lines.
pub(crate) fn lists_of(alloc: Global, list: &[Line]) -> Result<Loose, CircuitFault> {
    let mut lines = Loose::new(alloc);
    add_all(alloc, &mut lines, list).and(Ok(lines))
}

/// An input 6 with a name and a property of each kind, and then a latch 4 and the gate 10 of the literals 13 and 6.
const LINES: [Line; 9] = [
    Line::Input(6),
    Line::Output(6),
    Line::Bad(7),
    Line::Constraint(1),
    Line::Justice(&[6]),
    Line::Fair(7),
    Line::Name(Section::Input, 0, b"a"),
    Line::Gate(10, 13, 6),
    Line::Latch(4, 11, Reset::Free),
];

/// Lines that are refused behind these, and their faults.
const REFUSED_LINES: [(Line, CircuitFault); 7] = [
    (Line::Input(1), CircuitFault::LiteralOutOfRange),
    (Line::Input(9), CircuitFault::LiteralOutOfRange),
    (Line::Input(10), CircuitFault::LiteralOutOfRange),
    (Line::Input(2_147_483_650), CircuitFault::TooBig),
    (Line::Input(2_147_483_651), CircuitFault::LiteralOutOfRange),
    (Line::Gate(8, 2, 2_147_483_650), CircuitFault::TooBig),
    (Line::Output(2_147_483_650), CircuitFault::TooBig),
];

/// Fails unless lines are refused by their faults.
fn refuse(alloc: Global, lines: &mut Loose, refused: &[(Line, CircuitFault)]) -> Result<(), Fail> {
    for (line, fault) in refused {
        if added(alloc, lines, *line) != Err(*fault) {
            Err(fault.name())?
        }
    }
    Ok(())
}

#[test]
fn lines_are_added_and_others_refused(rt: HostRuntime) -> Result<(), Fail> {
    let mut lines = lists_of(rt.alloc(), &LINES)?;
    refuse(rt.alloc(), &mut lines, &REFUSED_LINES)
}

/// An input 2, two justice properties with one literal in all, and gates in reverse order.
pub(crate) const IN_REVERSE: [Line; 6] = [
    Line::Input(2),
    Line::Justice(&[]),
    Line::Justice(&[1]),
    Line::Gate(4, 6, 2),
    Line::Gate(6, 8, 2),
    Line::Gate(8, 2, 3),
];

/// The same with a gate that leads to the cycle of another.
const CYCLE: [Line; 6] = [
    Line::Input(2),
    Line::Justice(&[]),
    Line::Justice(&[1]),
    Line::Gate(8, 6, 2),
    Line::Gate(4, 4, 2),
    Line::Gate(6, 4, 2),
];

/// The same with a gate of an undefined variable.
const UNDEFINED: [Line; 6] = [
    Line::Input(2),
    Line::Justice(&[]),
    Line::Justice(&[1]),
    Line::Gate(4, 6, 2),
    Line::Gate(6, 3, 2),
    Line::Gate(8, 4, 10),
];

/// The operands of gates, or a fault of their numbering.
type Numbering = Result<&'static [[u32; 2]], LooseFault>;

/// Lines, and how they are numbered.
type Row = (&'static [Line], Numbering);

/// Lines whose gates are numbered, and others.
const NUMBERINGS: [Row; 3] = [
    (&IN_REVERSE, Ok(&[[3, 2], [4, 2], [6, 2]])),
    (&CYCLE, Err(LooseFault::Cycle(0))),
    (&UNDEFINED, Err(LooseFault::Undefined(3))),
];

/// Whether gates have these operands.
pub(crate) fn are_gates(list: &[Gate], operands: &[[u32; 2]]) -> bool {
    if list.len() != operands.len() {
        return false;
    }
    for (gate, wanted) in list.iter().zip(operands) {
        if [gate.rhs0.number(), gate.rhs1.number()] != *wanted {
            return false;
        }
    }
    true
}

/// Whether a circuit has the gates of a row.
fn has_gates(circuit: &Circuit, row: &Row) -> bool {
    match row.1 {
        Ok(operands) => are_gates(circuit.gates(), operands),
        Err(_) => false,
    }
}

/// Whether the gates of lists are numbered as a row says.
fn is_numbered(alloc: Global, lines: &Loose, row: &Row) -> bool {
    match lines.number(alloc) {
        Ok(circuit) => has_gates(&circuit, row),
        Err(fault) => row.1.err() == Some(fault),
    }
}

/// Whether those of the lines of a row are.
fn are_numbered(alloc: Global, row: &Row) -> bool {
    match lists_of(alloc, row.0) {
        Ok(lines) => is_numbered(alloc, &lines, row),
        Err(_) => false,
    }
}

#[test]
fn gates_are_numbered(rt: HostRuntime) {
    for row in &NUMBERINGS {
        assert!(rt; are_numbered(rt.alloc(), row));
    }
}
