//! What is left without memory: no claim of a test fails where one allocation of its run is refused, nor where that and every
//! later one is; what a test stands on may be refused first, which ends it with that error. What takes no memory answers as
//! ever, and what takes some tells that none was there, and has read and written nothing then. That there is an answer with
//! ample memory is shown elsewhere. `tests/refused_memory.py` refuses the allocations.
ghost use Rattle.blast.specs.Lowering.{Lowers};

use crate::judging::{Counts, Over, judged};
use crate::made::{over_circuit, over_model};
use aiger::Circuit;
use aigertext::{Form, Why, write};
use base::VecSink;
use blast::{ConvertFault, LowerFault, convert, lower};
use btor2::Model;
use library_tests::samples::{
    BOUNDED, COUNTER, Comparing, FOLLOWER, GATE, KEEPER, KEEPS, TOGGLER, TOGGLES,
};
use lift::{LiftFault, lift};
use runs::NewFault;
use std::alloc::Global;
use std::test::Fail;
use witness::{JudgeFault, Judgement, judge_bits};

/// Whether a model is written as a text.
fn is_written(model: &Model, text: &str) -> bool {
    let mut sink = Comparing::new(text.as_bytes());
    btor2text::write(model, &mut sink).is_ok() && sink.is_whole()
}

/// Whether the text of a model is read, and written again as it is; or no memory is told, of no line.
fn is_read(alloc: Global, text: &str) -> bool {
    match over_model(alloc, text, |model| is_written(model, text)) {
        Ok(is_written) => is_written,
        Err(fault) => fault.line == 0 && fault.why == btor2text::Why::NoMemory,
    }
}

#[test]
fn models_are_read_and_written(rt: HostRuntime) {
    for text in [BOUNDED, KEEPER, FOLLOWER] {
        assert!(rt; is_read(rt.alloc(), text), "{text}");
    }
}

/// Texts of circuits, a form and their spelling in it: the last file's numbers and its order are not those of the circuit.
const CIRCUITS: [(&[u8], Form, &[u8]); 6] = [
    (GATE, Form::Binary, GATE),
    (GATE, Form::Ascii, b"aag 3 2 0 1 1\n2\n4\n6\n6 4 2\n"),
    (
        b"aag 1 0 1 0 0 1\n2 3\n2\nl0 t[0]\n",
        Form::Binary,
        b"aig 1 0 1 0 0 1\n3\n2\nl0 t[0]\n",
    ),
    (
        b"aig 1 0 1 0 0 1\n3\n2\nl0 t[0]\n",
        Form::Ascii,
        b"aag 1 0 1 0 0 1\n2 3\n2\nl0 t[0]\n",
    ),
    (
        b"aag 7 2 0 1 2 0 0 2\n2\n4\n12\n2\n0\n5\n4\n12 14 3\n14 2 5\nj0 both\n",
        Form::Ascii,
        b"aag 4 2 0 1 2 0 0 2\n2\n4\n8\n2\n0\n5\n4\n6 5 2\n8 6 3\nj0 both\n",
    ),
    (
        b"aag 7 2 0 1 2\n2\n4\n12\n12 14 3\n14 2 5\n",
        Form::Binary,
        b"aig 4 2 0 1 2\n8\n\x01\x03\x02\x03",
    ),
];

/// Whether a circuit is written so in a form.
fn is_spelled(circuit: &Circuit, form: Form, spelled: &[u8]) -> bool {
    let mut sink = Comparing::new(spelled);
    write(circuit, form, &mut sink).is_ok() && sink.is_whole()
}

/// Whether the text of a circuit is read, and written in a form; or no memory is told, of no place.
fn is_spelled_again(alloc: Global, text: &[u8], form: Form, spelled: &[u8]) -> bool {
    match over_circuit(alloc, text, |circuit| is_spelled(circuit, form, spelled)) {
        Ok(is_spelled) => is_spelled,
        Err(fault) => fault.place == 0 && fault.why == Why::NoMemory,
    }
}

#[test]
fn circuits_are_read_and_written(rt: HostRuntime) {
    for (text, form, spelled) in &CIRCUITS {
        assert!(rt; is_spelled_again(rt.alloc(), text, *form, spelled));
    }
}

/// Whether no memory is told before anything was written.
fn is_want_of_memory(fault: ConvertFault) -> bool {
    match fault {
        ConvertFault::Read(fault) => fault.line == 0 && fault.why == btor2text::Why::NoMemory,
        ConvertFault::Lower(fault) => fault == LowerFault::NoMemory,
        ConvertFault::Write(_) => false,
    }
}

/// Whether the circuit of a model is written so; or no memory is told, and nothing was written.
fn is_converted(alloc: Global, text: &str, written: &str) -> bool {
    let mut sink = Comparing::new(written.as_bytes());
    match convert(alloc, &mut text.as_bytes(), &mut sink, Form::Ascii) {
        Ok(()) => sink.is_whole(),
        Err(fault) => sink.is_untouched() && is_want_of_memory(fault),
    }
}

/// Whether a circuit's bad property rises in the fourth frame from 0 on, as the counter's does; or no memory is told.
fn is_counter(alloc: Global, circuit: &Circuit) -> bool {
    let mut witness = b"1\nb0\n00\n\n\n\n\n.\n".as_slice();
    match judge_bits(alloc, circuit, &mut witness) {
        Ok(judgement) => judgement == Judgement::Accepted { frames: 4 },
        Err(fault) => fault == JudgeFault::NoMemory,
    }
}

/// Whether a model is lowered as the counter; or no memory is told.
fn is_lowered_as_counter(alloc: Global, model: &Model) -> bool {
    match lower(alloc, model) {
        Ok(circuit) => is_counter(alloc, &circuit),
        Err(fault) => fault == LowerFault::NoMemory,
    }
}

/// Whether the counter is lowered; or no memory is told.
fn is_counter_lowered(alloc: Global) -> bool {
    match over_model(alloc, COUNTER, |model| is_lowered_as_counter(alloc, model)) {
        Ok(is_lowered) => is_lowered,
        Err(fault) => fault.why == btor2text::Why::NoMemory,
    }
}

/// Whether the text of a circuit is that of the counter; or no memory is told.
fn is_text_of_counter(alloc: Global, text: &[u8]) -> bool {
    match over_circuit(alloc, text, |circuit| is_counter(alloc, circuit)) {
        Ok(is_counter) => is_counter,
        Err(fault) => fault.why == Why::NoMemory,
    }
}

/// Whether the counter's circuit is written to a sink that takes memory; or no memory is told, or that sink's fault, and
/// nothing was written.
fn is_counter_kept(alloc: Global) -> bool {
    let mut sink = VecSink::new(alloc);
    let converted = convert(alloc, &mut COUNTER.as_bytes(), &mut sink, Form::Ascii);
    is_kept(alloc, converted, sink.bytes())
}

/// Whether that is so of what is told and written.
fn is_kept(alloc: Global, converted: Result<(), ConvertFault>, written: &[u8]) -> bool {
    match converted {
        Ok(()) => is_text_of_counter(alloc, written),
        Err(ConvertFault::Write(_)) => written.is_empty(),
        Err(fault) => written.is_empty() && is_want_of_memory(fault),
    }
}

#[test]
fn models_are_lowered(rt: HostRuntime) {
    let are_converted = is_converted(rt.alloc(), KEEPER, KEEPS)
        & is_converted(rt.alloc(), TOGGLER, TOGGLES);
    let is_lowered = is_counter_lowered(rt.alloc());
    let is_kept = is_counter_kept(rt.alloc());
    assert!(rt; are_converted & is_lowered & is_kept);
}

/// A witness, and what a judge that is fed it answers and has counted.
type Row = (&'static str, Judgement, Counts);

/// Witnesses of the counter.
const OF_COUNTER: [Row; 2] = [
    (
        "sat\nb0\n#0\n@0\n@1\n@2\n@3\n.\n",
        Judgement::Accepted { frames: 4 },
        (6, 24, 4, 8),
    ),
    (
        "sat\nb0\n@0\n@1\n@2\n.\n",
        Judgement::NotReached { claim: 0 },
        (6, 18, 3, 6),
    ),
];

/// A witness of the toggling bit's circuit.
const OF_TOGGLES: [Row; 1] = [(
    "1\nb0\n0\n\n\n.\n",
    Judgement::Accepted { frames: 2 },
    (3, 2, 2, 6),
)];

/// Whether a judge that was made answers so byte by byte, and has counted so; or no memory was told when it was to be made.
fn is_judged(alloc: Global, over: Over<'_>, row: &Row) -> bool {
    match judged(alloc, over, row.0.as_bytes(), 1, 1) {
        Ok((counts, judgement)) => (judgement == row.1) & (counts == row.2),
        Err(fault) => fault == NewFault::NoMemory,
    }
}

/// Whether each of these witnesses is judged so.
fn are_judged(alloc: Global, over: Over<'_>, rows: &[Row]) -> bool {
    for row in rows {
        if !is_judged(alloc, over, row) {
            return false;
        }
    }
    true
}

#[test]
fn witnesses_of_models_are_judged(rt: HostRuntime) -> Result<(), Fail> {
    let alloc = rt.alloc();
    let are_judged = over_model(alloc, COUNTER, |model| {
        are_judged(alloc, Over::Model(model), &OF_COUNTER)
    })?;
    assert!(rt; are_judged);
    Ok(())
}

#[test]
fn witnesses_of_circuits_are_judged(rt: HostRuntime) -> Result<(), Fail> {
    let alloc = rt.alloc();
    let are_judged = over_circuit(alloc, TOGGLES.as_bytes(), |circuit| {
        are_judged(alloc, Over::Circuit(circuit), &OF_TOGGLES)
    })?;
    assert!(rt; are_judged);
    Ok(())
}

/// A model, a witness of its circuit, and what that is lifted to, over one frame or two.
type Lifted = (&'static str, &'static str, &'static str, u64);

/// Models and their witnesses.
const LIFTED: [Lifted; 2] = [
    (KEEPER, "1\nb0\n01\n\n.\n", "sat\nb0\n#0\n0 10\n@0\n.\n", 1),
    (
        FOLLOWER,
        "1\nb0\n0\n01\n00\n.\n",
        "sat\nb0\n#0\n1 0\n0 1\n@0\n0 0\n#1\n0 0\n@1\n0 0\n.\n",
        2,
    ),
];

/// Whether a witness is lifted so; or no memory is told, before anything was read or written.
fn is_lifted_over(alloc: Global, model: &Model, circuit: &Circuit, row: &Lifted) -> bool
    requires { Lowers model.now circuit.now }
{
    let (_, witness, lifted, frames) = *row;
    let mut source = witness.as_bytes();
    let mut sink = Comparing::new(lifted.as_bytes());
    match lift(alloc, model, circuit, &mut source, &mut sink) {
        Ok(judgement) => judgement == Judgement::Accepted { frames } && sink.is_whole(),
        Err(LiftFault::NoMemory) => source.len() == witness.len() && sink.is_untouched(),
        Err(_) => false,
    }
}

/// Whether it is where the model is lowered; or no memory is told.
fn is_lifted(alloc: Global, model: &Model, row: &Lifted) -> bool {
    match lower(alloc, model) {
        Ok(circuit) => is_lifted_over(alloc, model, &circuit, row),
        Err(fault) => fault == LowerFault::NoMemory,
    }
}

/// Whether each of these witnesses is.
fn are_lifted(alloc: Global) -> Result<bool, Fail> {
    for row in &LIFTED {
        if !over_model(alloc, row.0, |model| is_lifted(alloc, model, row))? {
            return Ok(false);
        }
    }
    Ok(true)
}

#[test]
fn witnesses_are_lifted(rt: HostRuntime) -> Result<(), Fail> {
    let are_lifted = are_lifted(rt.alloc())?;
    assert!(rt; are_lifted);
    Ok(())
}
