//! A model of a hundred thousand lines, and one of five thousand inputs and as many states, with ample memory: want of
//! memory that is told where none is wanting shows at size alone.
ghost use Rattle.blast.specs.Lowering.{Lowers};

use crate::judging::is_answered;
use crate::made::{expect_none, over_model};
use crate::texts::{Part, Word, text_of};
use aiger::Circuit;
use aigertext::Form;
use blast::{convert, lower};
use btor2::Model;
use library_tests::samples::Comparing;
use lift::lift;
use std::alloc::Global;
use std::test::Fail;
use witness::Judgement;

/// A chain of ands, each of the one before and an input, the last of which is bad: with its sort, its two inputs and its bad
/// property a model of a hundred thousand lines.
const CHAIN: [Part<'static>; 2] = [
    (
        "1 sort bitvec 1\n2 input 1\n3 input 1\n",
        99_996,
        &[
            Word::Counted(4, 1),
            Word::Said(" and 1 "),
            Word::Counted(3, 1),
            Word::Said(" 2\n"),
        ],
    ),
    ("100000 bad 99999\n", 0, &[]),
];

/// The chain's circuit.
const CHAIN_OF_GATES: [Part<'static>; 1] = [(
    "aag 99998 2 0 0 99996 1\n2\n4\n199996\n",
    99_996,
    &[
        Word::Counted(6, 2),
        Word::Said(" "),
        Word::Counted(4, 2),
        Word::Said(" 2\n"),
    ],
)];

/// Whether the chain is lowered to the text of a circuit.
fn is_lowered(alloc: Global, circuit: &str) -> bool {
    let mut sink = Comparing::new(circuit.as_bytes());
    match text_of(alloc, &CHAIN) {
        Ok(text) => {
            convert(alloc, &mut text.as_bytes(), &mut sink, Form::Ascii).is_ok() & sink.is_whole()
        }
        Err(_) => false,
    }
}

#[test]
fn a_hundred_thousand_lines(rt: HostRuntime) -> Result<(), Fail> {
    let circuit = text_of(rt.alloc(), &CHAIN_OF_GATES)?;
    let is_other = !is_lowered(rt.alloc(), circuit.as_str());
    expect_none(is_other.then_some("another circuit"))
}

/// A model of five thousand inputs and as many states that keep their values; the last input is bad.
const LEAVES: [Part<'static>; 4] = [
    (
        "1 sort bitvec 1\n",
        5000,
        &[Word::Counted(2, 1), Word::Said(" input 1\n")],
    ),
    (
        "",
        5000,
        &[Word::Counted(5002, 1), Word::Said(" state 1\n")],
    ),
    (
        "",
        5000,
        &[
            Word::Counted(10002, 1),
            Word::Said(" next 1 "),
            Word::Counted(5002, 1),
            Word::Said(" "),
            Word::Counted(5002, 1),
            Word::Said("\n"),
        ],
    ),
    ("15002 bad 5001\n", 0, &[]),
];

/// The witness of its circuit in which each state begins with 0 and each input is 1.
const BITS: [Part<'static>; 3] = [
    ("1\nb0\n", 5000, &[Word::Said("0")]),
    ("\n", 5000, &[Word::Said("1")]),
    ("\n.\n", 0, &[]),
];

/// The same witness of the model.
const WORDS: [Part<'static>; 3] = [
    (
        "sat\nb0\n#0\n",
        5000,
        &[Word::Counted(0, 1), Word::Said(" 0\n")],
    ),
    ("@0\n", 5000, &[Word::Counted(0, 1), Word::Said(" 1\n")]),
    (".\n", 0, &[]),
];

/// Whether a witness of the circuit is lifted to a text, and accepted.
fn is_lifted_over(
    alloc: Global,
    model: &Model,
    circuit: &Circuit,
    mut bits: &[u8],
    words: &[u8],
) -> bool
    requires { Lowers model.now circuit.now }
{
    let mut sink = Comparing::new(words);
    match lift(alloc, model, circuit, &mut bits, &mut sink) {
        Ok(judgement) => (judgement == Judgement::Accepted { frames: 1 }) & sink.is_whole(),
        Err(_) => false,
    }
}

/// The same of the circuit that the model is lowered to.
fn is_lifted(alloc: Global, model: &Model, bits: &[u8], words: &[u8]) -> bool {
    match lower(alloc, model) {
        Ok(circuit) => is_lifted_over(alloc, model, &circuit, bits, words),
        Err(_) => false,
    }
}

/// Whether the witness is lifted, and what it is lifted to is accepted.
fn is_kept(alloc: Global, model: &Model, words: &[u8]) -> bool {
    let is_accepted = is_answered(alloc, model, words, &Judgement::Accepted { frames: 1 });
    match text_of(alloc, &BITS) {
        Ok(bits) => is_lifted(alloc, model, bits.as_bytes(), words) & is_accepted,
        Err(_) => false,
    }
}

/// Whether the text of the witness is made, and that is so.
fn is_made_and_kept(alloc: Global, model: &Model) -> bool {
    match text_of(alloc, &WORDS) {
        Ok(words) => is_kept(alloc, model, words.as_bytes()),
        Err(_) => false,
    }
}

#[test]
fn five_thousand_inputs_and_states(rt: HostRuntime) -> Result<(), Fail> {
    let alloc = rt.alloc();
    let text = text_of(alloc, &LEAVES)?;
    let is_kept = over_model(alloc, text.as_str(), |model| is_made_and_kept(alloc, model))?;
    expect_none((!is_kept).then_some("another witness"))
}
