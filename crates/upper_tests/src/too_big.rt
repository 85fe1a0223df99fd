//! Models that are too big to be lowered, and how many gates are told while one is lowered.
use crate::made::{expect_none, over_model};
use crate::texts::{Word, text_before};
use blast::{LowerFault, Watch, bound, cost, lower, lower_watched};
use btor2::Model;
use library_tests::samples::COUNTER;
use std::alloc::Global;
use std::test::Fail;

/// The sorts and two inputs of 64 bits.
const FACTORS: &str = "1 sort bitvec 64\n2 sort bitvec 1\n3 input 1\n4 input 1\n";

/// An overflow test of their product.
const PRODUCT: &[Word] = &[Word::Counted(5, 1), Word::Said(" smulo 2 3 4\n")];

/// A number of these tests and a last line, what the model is refused for, its bound and its cost.
type Row = (u64, &'static str, LowerFault, u64, u64);

/// Each of these tests has the bound 164,096, and the inputs have 128 bits; 2^30 is 1,073,741,824.
const TOO_BIG: [Row; 3] = [
    (
        6543,
        "9999 fair 5\n",
        LowerFault::Fair(9999),
        1073680256,
        1073680128,
    ),
    (6544, "", LowerFault::TooBig, 1073844352, 1073844224),
    (
        6544,
        "9999 fair 5\n",
        LowerFault::Fair(9999),
        1073844352,
        1073844224,
    ),
];

/// Whether a model is refused so.
fn is_refused(alloc: Global, model: &Model, row: &Row) -> bool {
    let (_, _, refused, most, least) = *row;
    let is_bounded = (bound(model) == most) & (cost(model) == least);
    match lower(alloc, model) {
        Ok(_) => false,
        Err(fault) => is_bounded & (fault == refused),
    }
}

/// Whether the model of a row is.
fn is_too_big(alloc: Global, row: &Row) -> bool {
    match text_before(alloc, &(FACTORS, row.0, PRODUCT), row.1) {
        Ok(text) => {
            over_model(alloc, text.as_str(), |model| is_refused(alloc, model, row)) == Ok(true)
        }
        Err(_) => false,
    }
}

#[test]
fn models_that_are_too_big(rt: HostRuntime) -> Result<(), Fail> {
    for row in &TOO_BIG {
        let is_too_big = is_too_big(rt.alloc(), row);
        expect_none((!is_too_big).then_some((row.0, row.1)))?;
    }
    Ok(())
}

/// What was told of a lowering.
#[derive(Drop)]
struct Told {
    lines: usize,
    gates: usize,
}

impl Watch for Told {
    fn made(&mut self, gates: usize) {
        self.lines = self.lines.saturating_add(1);
        self.gates = gates;
    }
}

/// Whether as many lines are told as a model has, and at the last as many gates as its circuit has, which are some.
fn is_told_behind_lines(alloc: Global, model: &Model) -> bool {
    let mut told = Told { lines: 0, gates: 0 };
    match lower_watched(alloc, model, &mut told) {
        Ok(circuit) => {
            (told.gates == circuit.gates().len())
                & (told.gates > 0)
                & (told.lines == model.items().len())
        }
        Err(_) => false,
    }
}

#[test]
fn gates_are_told_behind_each_line(rt: HostRuntime) -> Result<(), Fail> {
    let alloc = rt.alloc();
    let is_told = over_model(alloc, COUNTER, |model| is_told_behind_lines(alloc, model))?;
    expect_none((!is_told).then_some("other lines or gates"))
}
