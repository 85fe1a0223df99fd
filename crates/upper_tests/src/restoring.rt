//! The way back from engines at size, with ample memory: counterexamples over engine forms of circuits, of ten thousand frames
//! and over one with more than 4,096 latches and gates, restored to witnesses of the circuit and lifted to those of its model;
//! and the calls of `restore` that no row reaches by text, each once.
ghost use Rattle.std.specs.Prelude.{◌≡◌, ◌<◌, length, [], false, None};
ghost use Rattle.blast.specs.Lowering.{Lowers};
ghost use Rattle.engine_form.specs.EngineForm.{IsEngineFormOf};

use crate::made::{expect_none, over_model};
use crate::texts::{Part, Word, push_part, text_before, text_of};
use aiger::Circuit;
use base::{Chop, FailAt, Sink, VecSink};
use blast::lower;
use btor2::Model;
use engine_form::engine_form;
use lift::{lift_form, lift_restored};
use restore::{FrameReader, RestoreFault, RestoreWhy, restore, restore_form};
use std::alloc::{AllocError, Global};
use std::test::Fail;
use witness::{Judgement, Why, judge_bits, judge_words};

/// Three sorts, a word of ones, and the beginning of a number's line.
const SORTS: &str = "1 sort bitvec 1\n2 sort bitvec 14\n3 sort bitvec 64\n4 ones 3\n5 constd 2 ";

/// A bit that begins as it may and is kept, a counter from 0 on, an input or the bit as a constraint, and what is bad: the
/// bit is 1 where the counter is the number.
const COUNTER: &str = "6 input 1
7 state 1
8 next 1 7 7
9 zero 2
10 one 2
11 state 2
12 init 2 11 9
13 add 2 11 10
14 next 2 11 13
15 eq 1 11 5
16 and 1 7 15
17 bad 16
18 or 1 6 7
19 constraint 18
";

/// A word of 64 ones, which takes the and of itself and the word of ones.
const FIRST: &str = "20 state 3\n21 init 3 20 4\n22 and 3 20 4\n23 next 3 20 22\n";

/// Further ones, each of which takes the and of itself and the one before.
const FURTHER: &[Word] = &[
    Word::Counted(24, 4),
    Word::Said(" state 3\n"),
    Word::Counted(25, 4),
    Word::Said(" init 3 "),
    Word::Counted(24, 4),
    Word::Said(" 4\n"),
    Word::Counted(26, 4),
    Word::Said(" and 3 "),
    Word::Counted(24, 4),
    Word::Said(" "),
    Word::Counted(20, 4),
    Word::Said("\n"),
    Word::Counted(27, 4),
    Word::Said(" next 3 "),
    Word::Counted(24, 4),
    Word::Said(" "),
    Word::Counted(26, 4),
    Word::Said("\n"),
];

/// The model that is bad first where its counter is 99, with one word, and with 66.
const NARROW: [Part<'static>; 3] = [
    (SORTS, 1, &[Word::Said("99\n")]),
    (COUNTER, 0, &[]),
    (FIRST, 0, &[]),
];

const WIDE: [Part<'static>; 3] = [
    (SORTS, 1, &[Word::Said("99\n")]),
    (COUNTER, 0, &[]),
    (FIRST, 65, FURTHER),
];

/// The model that is bad first where its counter is 9,999, with one word.
const LATE: [Part<'static>; 3] = [
    (SORTS, 1, &[Word::Said("9999\n")]),
    (COUNTER, 0, &[]),
    (FIRST, 0, &[]),
];

/// A call that writes what a counterexample is.
struct Way {
    name: &'static str,
    /// Whether it writes a witness of the model, or one of the circuit.
    lifts: bool,
    /// Whether it takes a witness of the form as the AIGER format has them, or what ABC writes.
    takes_witness: bool,
}

/// All of them.
const WAYS: [Way; 4] = [
    Way {
        name: "restore",
        lifts: false,
        takes_witness: false,
    },
    Way {
        name: "restore_form",
        lifts: false,
        takes_witness: true,
    },
    Way {
        name: "lift_restored",
        lifts: true,
        takes_witness: false,
    },
    Way {
        name: "lift_form",
        lifts: true,
        takes_witness: true,
    },
];

/// What is told of a text: what is judged, or the faulty line and why.
type Told = Result<Judgement, (u64, RestoreWhy)>;

/// A text of a counterexample, and what is told of it.
enum Case {
    /// It comes in pieces of so many bytes, and is accepted: so many frames are up to the first that is bad, two behind it.
    Whole(usize, u64),
    /// It has so many frames, what stands behind them, and no end; this is told of it where ABC writes it. Of a witness of the
    /// form with the same frames it is told that it is cut in the line behind the three first and the frames.
    Cut(u64, &'static str, Told),
    /// It comes in four pieces, with 102 frames, and its source fails at this call.
    Failing(u64),
}

/// How many frames a text has, what stands behind them, in pieces of how many bytes it comes, the call at which its source
/// fails, and what is told of it.
type Given = (u64, &'static str, usize, u64, Told);

/// What is given to a call, and told by it.
fn given(way: &Way, case: &Case) -> Given {
    let end = if way.takes_witness { ".\n" } else { "# DONE\n" };
    match *case {
        Case::Whole(size, frames) => {
            let told = Ok(Judgement::Accepted { frames });
            (frames.saturating_add(2), end, size, u64::MAX, told)
        }
        Case::Cut(frames, end, told) if !way.takes_witness => (frames, end, 4096, u64::MAX, told),
        Case::Cut(frames, end, _) => {
            let line = frames.saturating_add(4);
            let why = Why::Truncated;
            let told = Ok(Judgement::Malformed { line, why });
            (frames, end, 4096, u64::MAX, told)
        }
        Case::Failing(call) => (102, end, 100, call, Err((0, RestoreWhy::Device))),
    }
}

/// Adds so many frames, in the first of which the bit is 1, while its input is passed over in the others; and what stands
/// behind them.
fn push_frames(alloc: Global, text: &mut String, frames: u64, end: &str) -> Result<(), AllocError> {
    let first = if frames == 0 { "\n" } else { "\n01\n" };
    push_part(
        alloc,
        text,
        &(first, frames.saturating_sub(1), &[Word::Said("10\n")]),
    )?;
    text.push_str(end)
}

/// The text with so many frames and what stands behind them. What ABC writes has a line of zeros before the frames, of
/// whatever number, and a witness its status, its claim and as many zeros as the form has latches.
fn text_of_frames(
    alloc: Global,
    way: &Way,
    form: &Circuit,
    frames: u64,
    end: &str,
) -> Result<String, AllocError> {
    let (head, zeros) = if way.takes_witness {
        ("1\nb0\n", form.latches().len() as u64)
    } else {
        ("", 3)
    };
    let mut text = text_before(alloc, &(head, zeros, &[Word::Said("0")]), "")?;
    push_frames(alloc, &mut text, frames, end)?;
    Ok(text)
}

/// What a call answers of a text.
fn told<K: Sink>(
    alloc: Global,
    way: &Way,
    model: &Model,
    circuit: &Circuit,
    form: &Circuit,
    text: &[u8],
    given: &Given,
    sink: &mut K,
) -> Result<Judgement, RestoreFault>
    requires lowers { Lowers model.now circuit.now }
    requires is_form { IsEngineFormOf circuit.now None form.now }
    requires claim { 0 < length circuit.now.bads }
{
    let mut source = FailAt::new(Chop::new(text, given.2.max(1)), given.3);
    match (way.lifts, way.takes_witness) {
        (false, false) => restore(alloc, circuit, 0, &mut source, sink),
        (false, true) => restore_form(alloc, circuit, form, None, &mut source, sink),
        (true, false) => {
            let (judgement, _) = lift_restored(alloc, model, circuit, 0, true, &mut source, sink)?;
            Ok(judgement)
        }
        (true, true) => {
            let (judgement, _) = lift_form(
                alloc,
                model,
                circuit,
                form,
                None,
                true,
                &mut source,
                sink,
            )?;
            Ok(judgement)
        }
    }
}

/// Whether what was written is accepted with as many frames where the text is.
fn is_accepted_again(
    alloc: Global,
    way: &Way,
    model: &Model,
    circuit: &Circuit,
    wanted: &Told,
    mut written: &[u8],
) -> bool {
    let again = match (wanted, way.lifts) {
        (Ok(Judgement::Accepted { .. }), true) => judge_words(alloc, model, &mut written),
        (Ok(Judgement::Accepted { .. }), false) => judge_bits(alloc, circuit, &mut written),
        _ => return true,
    };
    match (again, wanted) {
        (Ok(again), Ok(wanted)) => again == *wanted,
        _ => false,
    }
}

/// Whether two answers are one.
fn is_same(told: &Result<Judgement, RestoreFault>, wanted: &Told) -> bool {
    match (told, wanted) {
        (Ok(judgement), Ok(wanted)) => judgement == wanted,
        (Err(fault), Err((line, why))) => fault.line == *line && fault.why == *why,
        _ => false,
    }
}

/// Whether a call tells so of a text, and what it writes is accepted where the text is.
fn is_text_told(
    alloc: Global,
    way: &Way,
    model: &Model,
    circuit: &Circuit,
    form: &Circuit,
    text: &[u8],
    given: &Given,
) -> bool
    requires lowers { Lowers model.now circuit.now }
    requires is_form { IsEngineFormOf circuit.now None form.now }
    requires claim { 0 < length circuit.now.bads }
{
    let mut sink = VecSink::new(alloc);
    let told = told(alloc, way, model, circuit, form, text, given, &mut sink);
    is_same(&told, &given.4) & is_accepted_again(alloc, way, model, circuit, &given.4, sink.bytes())
}

/// Whether a call does so of a case.
fn is_told(
    alloc: Global,
    way: &Way,
    model: &Model,
    circuit: &Circuit,
    form: &Circuit,
    case: &Case,
) -> bool
    requires lowers { Lowers model.now circuit.now }
    requires is_form { IsEngineFormOf circuit.now None form.now }
    requires claim { 0 < length circuit.now.bads }
{
    let given = given(way, case);
    match text_of_frames(alloc, way, form, given.0, given.1) {
        Ok(text) => is_text_told(alloc, way, model, circuit, form, text.as_bytes(), &given),
        Err(_) => false,
    }
}

/// What is not as it should be: a call, and the place of a case.
type Wrong = (&'static str, usize);

/// The first call that tells another thing in some case.
fn mistold(
    alloc: Global,
    model: &Model,
    circuit: &Circuit,
    form: &Circuit,
    cases: &[Case],
) -> Option<Wrong>
    requires lowers { Lowers model.now circuit.now }
    requires is_form { IsEngineFormOf circuit.now None form.now }
    requires claim { 0 < length circuit.now.bads }
{
    for way in &WAYS {
        for (place, case) in cases.iter().enumerate() {
            if !is_told(alloc, way, model, circuit, form, case) {
                return Some((way.name, place));
            }
        }
    }
    None
}

/// The first that does over the engine form of a model's circuit, where that has more latches and gates than so many.
fn mistold_over(
    alloc: Global,
    model: &Model,
    circuit: &Circuit,
    least: usize,
    cases: &[Case],
) -> Option<Wrong>
    requires lowers { Lowers model.now circuit.now }
{
    if circuit.bads().is_empty() {
        return Some(("no bad property", 0));
    }
    if (circuit.latches().len() <= least) | (circuit.gates().len() <= least) {
        return Some(("less latches or gates", least));
    }
    match engine_form(alloc, circuit, None) {
        Ok(form) => mistold(alloc, model, circuit, &form, cases),
        Err(_) => Some(("no engine form", 0)),
    }
}

/// The first that does over a model.
fn misrestored(alloc: Global, model: &Model, least: usize, cases: &[Case]) -> Option<Wrong> {
    match lower(alloc, model) {
        Ok(circuit) => mistold_over(alloc, model, &circuit, least, cases),
        Err(_) => Some(("no circuit", 0)),
    }
}

/// Fails where one does over the model of a text.
fn expect_restored(
    alloc: Global,
    parts: &[Part<'_>],
    least: usize,
    cases: &[Case],
) -> Result<(), Fail> {
    let text = text_of(alloc, parts)?;
    expect_none(over_model(alloc, text.as_str(), |model| {
        misrestored(alloc, model, least, cases)
    })?)
}

#[test]
fn a_hundred_frames_of_a_wide_circuit(rt: HostRuntime) -> Result<(), Fail> {
    expect_restored(rt.alloc(), &WIDE, 4096, &[Case::Whole(1000, 100)])
}

#[test]
fn ten_thousand_frames(rt: HostRuntime) -> Result<(), Fail> {
    expect_restored(rt.alloc(), &LATE, 0, &[Case::Whole(1000, 10_000)])
}

/// A text of a hundred frames in pieces of each of some sizes.
const PIECES: [Case; 4] = [
    Case::Whole(1, 100),
    Case::Whole(2, 100),
    Case::Whole(7, 100),
    Case::Whole(4096, 100),
];

#[test]
fn texts_in_pieces(rt: HostRuntime) -> Result<(), Fail> {
    expect_restored(rt.alloc(), &NARROW, 0, &PIECES)
}

/// Texts that are cut. The hundredth frame is bad.
const CUTS: [Case; 7] = [
    Case::Cut(0, "", Err((2, RestoreWhy::NoFrame))),
    Case::Cut(50, "", Ok(Judgement::NotReached { claim: 0 })),
    Case::Cut(50, "1", Err((52, RestoreWhy::WrongLength))),
    Case::Cut(50, "10", Ok(Judgement::NotReached { claim: 0 })),
    Case::Cut(99, "1", Err((101, RestoreWhy::WrongLength))),
    Case::Cut(99, "10", Ok(Judgement::Accepted { frames: 100 })),
    Case::Cut(100, "1", Err((102, RestoreWhy::WrongLength))),
];

#[test]
fn texts_that_are_cut(rt: HostRuntime) -> Result<(), Fail> {
    expect_restored(rt.alloc(), &NARROW, 0, &CUTS)
}

/// Sources that fail at each of their five calls.
const FAILURES: [Case; 5] = [
    Case::Failing(0),
    Case::Failing(1),
    Case::Failing(2),
    Case::Failing(3),
    Case::Failing(4),
];

#[test]
fn sources_that_fail(rt: HostRuntime) -> Result<(), Fail> {
    expect_restored(rt.alloc(), &NARROW, 0, &FAILURES)
}

/// The text of a counterexample with two frames of one bit.
const FOUND: &[u8] = b"00\n1\n0\n# DONE\n";

/// Whether a reader gives its frames.
fn gives_frames(reader: &mut FrameReader) -> bool {
    let mut source = FOUND;
    for bit in [true, false] {
        if reader.advance(&mut source) != Ok(true) || reader.frame() != [bit].as_slice() {
            return false;
        }
    }
    reader.advance(&mut source) == Ok(false)
}

/// Whether its frames are read.
fn are_frames_read(alloc: Global) -> bool {
    match FrameReader::new(alloc, 1) {
        Ok(mut reader) => gives_frames(&mut reader),
        Err(_) => false,
    }
}

#[test]
fn frames(rt: HostRuntime) -> Result<(), Fail> {
    expect_none((!are_frames_read(rt.alloc())).then_some(()))
}
