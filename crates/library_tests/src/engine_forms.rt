//! Engine forms and outputs as bad properties with ample memory, by their ascii texts, and what has no form.
use crate::circuits::{Call, circuit_of};
use crate::samples::Comparing;
use aiger::{Circuit, Reset, Section};
use aigertext::write_ascii;
use engine_form::{EngineFault, engine_form, outputs_as_bads};
use std::alloc::Global;

/// The text of a form, or why there is none.
type Answer = Result<&'static [u8], EngineFault>;

/// A circuit, by its inputs, latches and calls, a choice of its bad properties, and what is answered.
struct Row {
    inputs: u32,
    latches: u32,
    calls: &'static [Call],
    choice: Option<usize>,
    answer: Answer,
}

/// Circuits with a form and without.
const ROWS: [&Row; 10] = [
    &NOTHING, &TOGGLER, &KEEPER, &GUARDED, &SECOND, &JUST, &FAIR, &HARMLESS, &SHOWN, &MISSING,
];

/// Neither input nor latch, and a bad property that never rises.
const NOTHING: Row = Row {
    inputs: 0,
    latches: 0,
    calls: &[Call::Bad(0)],
    choice: None,
    answer: Ok(b"aag 2 1 1 0 0 1\n2\n4 0\n0\n"),
};

/// A latch that begins with 1 and takes its negation, bad where it is 1; with an output and a name, which are not kept.
const TOGGLER: Row = Row {
    inputs: 0,
    latches: 1,
    calls: &[
        Call::Latch(0, 3, Reset::One),
        Call::Bad(2),
        Call::Output(2),
        Call::Name(Section::Latch, 0, b"t"),
    ],
    choice: None,
    answer: Ok(b"aag 2 1 1 0 0 1\n2\n4 5\n5\n"),
};

/// A latch without an initial value that keeps its bit, bad where it is 1.
const KEEPER: Row = Row {
    inputs: 0,
    latches: 1,
    calls: &[Call::Latch(0, 2, Reset::Free), Call::Bad(2)],
    choice: None,
    answer: Ok(b"aag 6 1 2 0 3 1\n2\n4 13\n6 1\n13\n8 6 4\n10 7 2\n12 11 9\n"),
};

/// Bad in each frame, with an input that is to be 1.
const GUARDED: Row = Row {
    inputs: 1,
    latches: 0,
    calls: &[Call::Bad(1), Call::Constraint(2)],
    choice: None,
    answer: Ok(b"aag 3 1 1 0 1 1\n2\n4 7\n6\n6 5 2\n"),
};

/// Two bad properties, of which the second one is chosen.
const SECOND: Row = Row {
    inputs: 1,
    latches: 0,
    calls: &[Call::Bad(2), Call::Bad(3)],
    choice: Some(1),
    answer: Ok(b"aag 2 1 1 0 0 1\n2\n4 0\n3\n"),
};

/// Two kinds of properties without a form.
const JUST: Row = Row {
    inputs: 1,
    latches: 0,
    calls: &[Call::Fair(2), Call::Justice(&[2])],
    choice: Some(0),
    answer: Err(EngineFault::Justice),
};

/// A fairness constraint alone.
const FAIR: Row = Row {
    inputs: 1,
    latches: 0,
    calls: &[Call::Fair(2)],
    choice: Some(0),
    answer: Err(EngineFault::Fair),
};

/// No bad property, and none chosen.
const HARMLESS: Row = Row {
    inputs: 0,
    latches: 0,
    calls: &[],
    choice: None,
    answer: Err(EngineFault::NoBad),
};

/// An output, and the choice of a bad property.
const SHOWN: Row = Row {
    inputs: 1,
    latches: 0,
    calls: &[Call::Output(2)],
    choice: Some(0),
    answer: Err(EngineFault::NoBad),
};

/// A bad property, and the choice of another.
const MISSING: Row = Row {
    inputs: 1,
    latches: 0,
    calls: &[Call::Bad(2)],
    choice: Some(1),
    answer: Err(EngineFault::NoSuchBad),
};

/// Whether a circuit has a text.
fn is_spelled(circuit: &Circuit, text: &[u8]) -> bool {
    let mut sink = Comparing::new(text);
    write_ascii(circuit, &mut sink).is_ok() && sink.is_whole()
}

/// Whether what a row says is answered for a circuit.
fn has_form(alloc: Global, circuit: &Circuit, row: &Row) -> bool {
    match engine_form(alloc, circuit, row.choice) {
        Ok(form) => match row.answer {
            Ok(text) => is_spelled(&form, text),
            Err(_) => false,
        },
        Err(fault) => row.answer.err() == Some(fault),
    }
}

/// Whether it is for the circuit of the row.
fn is_answered(alloc: Global, row: &Row) -> bool {
    match circuit_of(alloc, row.inputs, row.latches, row.calls) {
        Ok(circuit) => has_form(alloc, &circuit, row),
        Err(_) => false,
    }
}

#[test]
fn forms_of_small_circuits(rt: HostRuntime) {
    for row in &ROWS {
        assert!(rt; is_answered(rt.alloc(), row));
    }
}

/// Two outputs, of which the second one has a name, beside a bad property with a name, a constraint and a latch that begins
/// with 1.
const SHOWING: [Call; 9] = [
    Call::Gate(6, 4, 2),
    Call::Latch(0, 2, Reset::One),
    Call::Output(6),
    Call::Output(5),
    Call::Bad(2),
    Call::Constraint(7),
    Call::Name(Section::Output, 1, b"out"),
    Call::Name(Section::Bad, 0, b"low"),
    Call::Name(Section::Latch, 0, b"was"),
];

/// The same with the outputs as bad properties.
const SHOWING_BADS: &[u8] =
    b"aag 3 1 1 0 1 3 1\n2\n4 2 1\n2\n6\n5\n7\n6 4 2\nl0 was\nb0 low\nb2 out\n";

/// Whether its outputs are made bad properties.
fn is_made_bad(alloc: Global) -> bool {
    let Ok(circuit) = circuit_of(alloc, 1, 1, &SHOWING) else {
        return false;
    };
    match outputs_as_bads(alloc, &circuit) {
        Ok(made) => is_spelled(&made, SHOWING_BADS),
        Err(_) => false,
    }
}

#[test]
fn outputs_become_bad_properties(rt: HostRuntime) {
    assert!(rt; is_made_bad(rt.alloc()));
}
