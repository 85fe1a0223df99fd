//! Tests of witness circuits with ample memory, by their ascii texts, and witness circuits that have none.
use crate::circuits::{Call, circuit_of, is_spelled};
use aiger::{Circuit, Reset, Section};
use aigerlists::Numbering;
use aigertext::Form;
use std::alloc::Global;
use witness_circuits::{TestFault, test_circuit};

/// A circuit, by its inputs, latches and calls.
struct Side {
    inputs: u32,
    latches: u32,
    calls: &'static [Call],
}

/// A circuit, a bad property of it, a witness circuit, and the text of its test, or why there is none.
struct Row {
    circuit: &'static Side,
    bad: usize,
    witness: &'static Side,
    answer: Result<&'static [u8], TestFault>,
}

/// A latch that stays 0, bad where it is 1.
const STAYS: Side = Side {
    inputs: 0,
    latches: 1,
    calls: &[Call::Latch(0, 2, Reset::Zero), Call::Bad(2)],
};

/// One that takes its negation.
const TOGGLES: Side = Side {
    inputs: 0,
    latches: 1,
    calls: &[Call::Latch(0, 3, Reset::Zero), Call::Bad(2)],
};

/// An input, bad where it is 1.
const WATCHES: Side = Side {
    inputs: 1,
    latches: 0,
    calls: &[Call::Bad(2)],
};

/// The same as an output, where the input stands for the first latch.
const WATCHES_LATCH: Side = Side {
    inputs: 1,
    latches: 0,
    calls: &[Call::Output(2), Call::Name(Section::Input, 0, b"= 2")],
};

/// The same, where it stands for a literal that is not there.
const WATCHES_NOTHING: Side = Side {
    inputs: 1,
    latches: 0,
    calls: &[Call::Bad(2), Call::Name(Section::Input, 0, b"= 4")],
};

/// So many inputs that two frames of them have more variables than a circuit.
const WIDE: Side = Side {
    inputs: 1 << 29,
    latches: 0,
    calls: &[Call::Bad(2)],
};

const JUST: Side = Side {
    inputs: 1,
    latches: 0,
    calls: &[Call::Fair(2), Call::Justice(&[2])],
};

const FAIR: Side = Side {
    inputs: 1,
    latches: 0,
    calls: &[Call::Fair(2)],
};

const WITHOUT: Side = Side {
    inputs: 1,
    latches: 0,
    calls: &[Call::Name(Section::Input, 0, b"= 4")],
};

const WITH_TWO: Side = Side {
    inputs: 1,
    latches: 0,
    calls: &[Call::Bad(2), Call::Bad(3)],
};

/// Witness circuits and their tests, and those that have none, each with what is told first.
const ROWS: [Row; 12] = [
    // no gate is needed, and it never rises: what the witness circuit repeats is made once
    Row {
        circuit: &STAYS,
        bad: 0,
        witness: &STAYS,
        answer: Ok(b"aag 2 2 0 0 0 1\n2\n4\n0\n"),
    },
    // it rises where the latch is 0, and so 1 in the next frame
    Row {
        circuit: &TOGGLES,
        bad: 0,
        witness: &TOGGLES,
        answer: Ok(b"aag 2 2 0 0 0 1\n2\n4\n3\n"),
    },
    // by a name and an output
    Row {
        circuit: &STAYS,
        bad: 0,
        witness: &WATCHES_LATCH,
        answer: Ok(b"aag 3 3 0 0 0 1\n2\n4\n6\n0\n"),
    },
    // an own input, 4 in the first frame and 6 in the next: what is claimed need not hold at first (8), need not go on to
    // (10), and does not exclude the bad property (12)
    Row {
        circuit: &STAYS,
        bad: 0,
        witness: &WATCHES,
        answer: Ok(b"aag 8 3 0 0 5 1\n2\n4\n6\n17\n8 4 3\n10 6 5\n12 5 2\n14 13 11\n16 14 9\n"),
    },
    Row {
        circuit: &STAYS,
        bad: 0,
        witness: &JUST,
        answer: Err(TestFault::Justice),
    },
    Row {
        circuit: &STAYS,
        bad: 0,
        witness: &FAIR,
        answer: Err(TestFault::Fair),
    },
    Row {
        circuit: &STAYS,
        bad: 1,
        witness: &WITHOUT,
        answer: Err(TestFault::NoProperty),
    },
    Row {
        circuit: &STAYS,
        bad: 1,
        witness: &WITH_TWO,
        answer: Err(TestFault::SeveralProperties),
    },
    Row {
        circuit: &STAYS,
        bad: 1,
        witness: &WATCHES_NOTHING,
        answer: Err(TestFault::NoSuchLiteral),
    },
    Row {
        circuit: &STAYS,
        bad: 1,
        witness: &WATCHES,
        answer: Err(TestFault::NoSuchBad),
    },
    Row {
        circuit: &WIDE,
        bad: 1,
        witness: &STAYS,
        answer: Err(TestFault::NoSuchBad),
    },
    Row {
        circuit: &WIDE,
        bad: 0,
        witness: &STAYS,
        answer: Err(TestFault::TooBig),
    },
];

/// Whether what a row says is answered for its circuits.
fn has_test(alloc: Global, circuit: &Circuit, witness: &Circuit, row: &Row) -> bool {
    match test_circuit(alloc, circuit, &Numbering::own(), row.bad, witness) {
        Ok(test) => match row.answer {
            Ok(text) => is_spelled(&test, Form::Ascii, text),
            Err(_) => false,
        },
        Err(fault) => row.answer.err() == Some(fault),
    }
}

/// Whether it is for a circuit and the witness circuit of the row.
fn has_test_of(alloc: Global, circuit: &Circuit, row: &Row) -> bool {
    match circuit_of(
        alloc,
        row.witness.inputs,
        row.witness.latches,
        row.witness.calls,
    ) {
        Ok(witness) => has_test(alloc, circuit, &witness, row),
        Err(_) => false,
    }
}

/// Whether it is for both circuits of the row.
fn is_answered(alloc: Global, row: &Row) -> bool {
    match circuit_of(
        alloc,
        row.circuit.inputs,
        row.circuit.latches,
        row.circuit.calls,
    ) {
        Ok(circuit) => has_test_of(alloc, &circuit, row),
        Err(_) => false,
    }
}

#[test]
fn tests_of_small_witness_circuits(rt: HostRuntime) {
    for row in &ROWS {
        assert!(rt; is_answered(rt.alloc(), row));
    }
}
