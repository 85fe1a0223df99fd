//! Long witnesses. What short ones answer is shown by rows.
use crate::judging::{Counts, Over, Wanted, is_answered, is_judged, judged, judgement_of};
use crate::made::{expect_none, over_circuit, over_model};
use crate::texts::{Word, text_before};
use aiger::Circuit;
use btor2::Model;
use library_tests::samples::{DELAYED, TOGGLER, TOGGLES};
use std::alloc::Global;
use std::test::Fail;
use witness::{Judgement, Why};

/// A model, how many frames a witness has and what each has, and the line in which it is cut without its last byte.
type Long = (&'static str, u64, &'static [Word], u64);

/// Models and their witnesses.
const LONG: [Long; 2] = [
    (
        TOGGLER,
        69997,
        &[Word::Said("@"), Word::Counted(0, 1), Word::Said("\n")],
        70000,
    ),
    (
        DELAYED,
        34999,
        &[
            Word::Said("@"),
            Word::Counted(0, 1),
            Word::Said("\n0 100\n"),
        ],
        70001,
    ),
];

/// Whether a witness is told as cut in its last line without its last byte, and accepted with it.
fn is_cut_long(alloc: Global, model: &Model, whole: &[u8], row: &Long) -> bool {
    let (_, frames, _, line) = *row;
    let (cut, _) = whole.split_at(whole.len().saturating_sub(1));
    let why = Why::Truncated;
    is_answered(alloc, model, cut, &Judgement::Malformed { line, why })
        & is_answered(alloc, model, whole, &Judgement::Accepted { frames })
}

/// Whether the witness of a row is.
fn is_long(alloc: Global, model: &Model, row: &Long) -> bool {
    match text_before(alloc, &("sat\nb0\n", row.1, row.2), ".\n") {
        Ok(text) => is_cut_long(alloc, model, text.as_bytes(), row),
        Err(_) => false,
    }
}

#[test]
fn seventy_thousand_lines(rt: HostRuntime) -> Result<(), Fail> {
    let alloc = rt.alloc();
    for row in &LONG {
        let is_long = over_model(alloc, row.0, |model| is_long(alloc, model, row))?;
        expect_none((!is_long).then_some(row.3))?;
    }
    Ok(())
}

/// The beginning of a witness, its end behind a million digits, and what is judged of it.
type Great = (&'static str, &'static str, Wanted);

/// Witnesses with a great number.
const GREAT: [Great; 4] = [
    ("sat\nb0\n@0\n0 ", "\n", Err((4, Why::BadValue))),
    ("sat\nb0\n@0\n0 ", "", Err((4, Why::Truncated))),
    ("sat\nb0\n@0\n", " 000\n", Err((4, Why::BadIndex))),
    ("sat\nb", "\n", Err((2, Why::BadClaim))),
];

/// Whether a witness that is fed in pieces, of a thousand digits each, has its fault.
fn has_fault(alloc: Global, over: Over<'_>, row: &Great) -> bool {
    let (beginning, end, wanted) = *row;
    let (first, wanted) = (beginning.len(), judgement_of(&wanted));
    match text_before(alloc, &(beginning, 1_000_000, &[Word::Said("1")]), end) {
        Ok(text) => is_judged(alloc, over, text.as_bytes(), first, 1000, &wanted),
        Err(_) => false,
    }
}

/// The first of them that has not.
fn misjudged(alloc: Global, over: Over<'_>) -> Option<&'static str> {
    for row in &GREAT {
        if !has_fault(alloc, over, row) {
            return Some(row.0);
        }
    }
    None
}

#[test]
fn a_million_digits(rt: HostRuntime) -> Result<(), Fail> {
    let alloc = rt.alloc();
    expect_none(over_model(alloc, DELAYED, |model| {
        misjudged(alloc, Over::Model(model))
    })?)
}

/// What a judge has counted of two hundred thousand frames without inputs.
const COUNTED: Counts = (3, 200_000, 200_000, 200_004);

/// Whether a judge that is fed so many such frames in pieces of so many bytes counts and judges so.
fn is_counted(alloc: Global, over: Over<'_>, text: &[u8], size: usize) -> bool {
    let frames = 200_000;
    match judged(alloc, over, text, size, size) {
        Ok((counts, judgement)) => {
            (counts == COUNTED) & (judgement == Judgement::Accepted { frames })
        }
        Err(_) => false,
    }
}

/// Whether it does byte by byte, and in pieces of 4,096 bytes.
fn are_counted(alloc: Global, circuit: &Circuit) -> bool {
    match text_before(alloc, &("1\nb0\n0\n", 200_000, &[Word::Said("\n")]), ".\n") {
        Ok(text) => {
            is_counted(alloc, Over::Circuit(circuit), text.as_bytes(), 1)
                & is_counted(alloc, Over::Circuit(circuit), text.as_bytes(), 4096)
        }
        Err(_) => false,
    }
}

#[test]
fn two_hundred_thousand_frames(rt: HostRuntime) -> Result<(), Fail> {
    let alloc = rt.alloc();
    let are_counted = over_circuit(alloc, TOGGLES.as_bytes(), |circuit| {
        are_counted(alloc, circuit)
    })?;
    expect_none((!are_counted).then_some("other counts"))
}
