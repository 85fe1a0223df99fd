//! What judges of models' witnesses have counted, and what is printed of their faults and of those of runs. Judgements are shown by rows.
use crate::judging::{Counts, Over, judged};
use crate::made::{expect_none, over_model};
use library_tests::samples::{COUNTER, FOLLOWER};
use runs::NewFault;
use std::alloc::Global;
use std::test::Fail;
use witness::JudgeFault;

/// A text, and what a judge that was fed it has counted.
type Row = (&'static str, Counts);

/// Texts over the follower.
const OF_FOLLOWER: [Row; 6] = [
    ("", (5, 0, 0, 0)),
    ("sat\nb0\n@0\n@1", (5, 0, 0, 3)),
    ("sat\nb0\n@0\n@1\n", (5, 5, 1, 4)),
    ("sat\nb0\n@0\n#1\n@1\n.\n", (5, 10, 2, 6)),
    ("sat\nb0\n@0\n@2\n@1\n", (5, 0, 0, 3)),
    ("unsat\n", (5, 0, 0, 0)),
];

/// The same over the counter.
const OF_COUNTER: [Row; 3] = [
    ("sat\nb0\n@0\n@1\n", (6, 6, 1, 4)),
    ("sat\nb0\n#0\n@0\n@1\n@2\n@3\n.\n", (6, 24, 4, 8)),
    ("unsat\n", (6, 0, 0, 0)),
];

/// Whether a judge has counted so of a text.
fn is_counted(alloc: Global, over: Over<'_>, text: &str, wanted: &Counts) -> bool {
    match judged(alloc, over, text.as_bytes(), text.len(), 1) {
        Ok((counts, _)) => counts == *wanted,
        Err(_) => false,
    }
}

/// The first of these texts of which a judge has counted otherwise.
fn miscounted(alloc: Global, over: Over<'_>, rows: &[Row]) -> Option<&'static str> {
    for (text, wanted) in rows {
        if !is_counted(alloc, over, text, wanted) {
            return Some(*text);
        }
    }
    None
}

#[test]
fn counts_of_follower(rt: HostRuntime) -> Result<(), Fail> {
    let alloc = rt.alloc();
    expect_none(over_model(alloc, FOLLOWER, |model| {
        miscounted(alloc, Over::Model(model), &OF_FOLLOWER)
    })?)
}

#[test]
fn counts_of_counter(rt: HostRuntime) -> Result<(), Fail> {
    let alloc = rt.alloc();
    expect_none(over_model(alloc, COUNTER, |model| {
        miscounted(alloc, Over::Model(model), &OF_COUNTER)
    })?)
}

#[test]
fn printed_faults(rt: HostRuntime) -> Result<(), Fail> {
    let (device, memory, item) = (
        JudgeFault::Device,
        JudgeFault::NoMemory,
        JudgeFault::NoNext(3),
    );
    let (of_run, state) = (NewFault::NoMemory, NewFault::NoNext(2));
    let printed = format!(in rt.alloc(); "{device}, {memory}, {item}, {of_run}, {state}")?;
    let wanted = "100 Device, 101 NoMemory, item 3: 70 NoNext, 71 NoMemory, item 2: 70 NoNext";
    assert!(rt; printed.as_str() == wanted);
    Ok(())
}
