//! Witnesses that are fed to a judge in two pieces, cut at each place, and byte by byte. Among them are texts with long lines,
//! of 341, 342 and 343 bytes, since a judge of models' witnesses keeps the first 342 bytes of a line that is cut.
use crate::judging::{Over, Wanted, is_judged, judgement_of};
use crate::made::{expect_none, over_circuit, over_model};
use crate::texts::{Word, text_before};
use std::alloc::Global;
use std::test::Fail;
use witness::{Judgement, Why};

/// A text, and what is judged of it.
type Row = (&'static str, Wanted);

/// Whether a text is judged so in two pieces, cut at each place, and byte by byte.
fn is_judged_cut(alloc: Global, over: Over<'_>, text: &[u8], wanted: &Judgement) -> bool {
    for cut in 0..text.len() {
        if !is_judged(alloc, over, text, cut, text.len(), wanted) {
            return false;
        }
    }
    is_judged(alloc, over, text, 1, 1, wanted)
}

/// The first of these texts that is not judged so.
fn misjudged(alloc: Global, over: Over<'_>, rows: &[Row]) -> Option<&'static str> {
    for (text, wanted) in rows {
        if !is_judged_cut(alloc, over, text.as_bytes(), &judgement_of(wanted)) {
            return Some(*text);
        }
    }
    None
}

/// An input of 64 bits, which is bad where it is not 0.
const WIDE: &str = "1 sort bitvec 64\n2 sort bitvec 1\n3 input 1 x\n4 redor 2 3\n5 bad 4\n";

/// The beginning of a text, a byte, how often it stands behind the beginning where its line is to have 341 bytes, the end,
/// and what is judged of the text.
type Long = (&'static str, &'static [Word], u64, &'static str, Wanted);

/// Texts over it with a long line.
const OF_WIDE: [Long; 9] = [
    (
        ";",
        &[Word::Said("x")],
        340,
        "\nsat\nb0\n@0\n0 0000000000000000000000000000000000000000000000000000000000000001\n.\n",
        Ok(Judgement::Accepted { frames: 1 }),
    ),
    (
        "",
        &[Word::Said("s")],
        341,
        "\nb0\n",
        Err((1, Why::BadHeader)),
    ),
    (
        "sat\nb",
        &[Word::Said("1")],
        340,
        "\n@0\n.\n",
        Err((2, Why::BadClaim)),
    ),
    (
        "sat\nb0\n@",
        &[Word::Said("0")],
        340,
        "\n.\n",
        Err((3, Why::FrameOrder)),
    ),
    (
        "sat\nb0\n@0\n",
        &[Word::Said("1")],
        339,
        " 0\n.\n",
        Err((4, Why::BadIndex)),
    ),
    (
        "sat\nb0\n@0\n0 ",
        &[Word::Said("1")],
        339,
        "\n.\n",
        Err((4, Why::BadValue)),
    ),
    (
        "sat\nb0\n@0\n0 0000000000000000000000000000000000000000000000000000000000000001 ",
        &[Word::Said("n")],
        274,
        "\n.\n",
        Err((4, Why::BadSymbol)),
    ),
    (
        "sat\nb0\n@0\n0 000000000000000000000000000000000000000000000000000000000000000x ",
        &[Word::Said(" ")],
        274,
        "\n.\n",
        Err((4, Why::Undetermined)),
    ),
    (
        "sat\nb0\n@0\n0 ",
        &[Word::Said("1")],
        339,
        "",
        Err((4, Why::Truncated)),
    ),
];

/// Whether the text of a row with so many bytes more is judged as it should be.
fn is_long_judged(alloc: Global, over: Over<'_>, row: &Long, more: u64) -> bool {
    let (beginning, byte, count, end, wanted) = *row;
    match text_before(alloc, &(beginning, count.saturating_add(more), byte), end) {
        Ok(text) => is_judged_cut(alloc, over, text.as_bytes(), &judgement_of(&wanted)),
        Err(_) => false,
    }
}

/// The first row whose text is not, with a long line of 341, 342 or 343 bytes.
fn misjudged_long(alloc: Global, over: Over<'_>) -> Option<(&'static str, u64)> {
    for row in &OF_WIDE {
        for more in 0..3 {
            if !is_long_judged(alloc, over, row, more) {
                return Some((row.0, more));
            }
        }
    }
    None
}

#[test]
fn long_lines_in_two_pieces(rt: HostRuntime) -> Result<(), Fail> {
    let alloc = rt.alloc();
    expect_none(over_model(alloc, WIDE, |model| {
        misjudged_long(alloc, Over::Model(model))
    })?)
}

/// An input of two bits that may not be 1, a free state, and one that begins with 0 and follows it: bad where the second is 1
/// and the input 3.
const FOLLOWS: &str =
    "1 sort bitvec 1\n2 sort bitvec 2\n3 zero 1\n4 one 2\n5 input 2 in\n6 state 1 free\n7 state 1 held\n8 init 1 7 3\n9 next 1 7 6\n10 redand 1 5\n11 and 1 7 10\n12 bad 11\n13 neq 1 5 4\n14 constraint 13\n";

/// Texts over it.
const OF_FOLLOWS: [Row; 20] = [
    (
        "sat\nb0\n#0\n0 1 free\n1 0\n@0\n0 00\n@1\n0 11 in\n.\n",
        Ok(Judgement::Accepted { frames: 2 }),
    ),
    (
        "; c\nsat\nb0\n@0\n#1\n0 1\n@1\n@2\n0 11\n.\n",
        Ok(Judgement::Accepted { frames: 3 }),
    ),
    (
        "sat\nb0\n#0\n0 0\n@0\n@1\n0 11\n.\n",
        Ok(Judgement::NotReached { claim: 0 }),
    ),
    (
        "sat\nb0\n@0\n@1\n0 01\n.\n",
        Ok(Judgement::Violated {
            frame: 1,
            constraint: 0,
        }),
    ),
    (
        "sat\nb0\n#0\n1 1\n@0\n.\n",
        Ok(Judgement::InitDiffers { index: 1 }),
    ),
    ("; c\nunsat\nx", Ok(Judgement::NoClaim)),
    ("unknown\n", Ok(Judgement::NoClaim)),
    ("1\nb0\n", Err((1, Why::BadHeader))),
    ("sat\nb1\n@0\n", Err((2, Why::BadClaim))),
    ("sat\nj0\n@0\n", Err((2, Why::JusticeClaim))),
    ("sat\nb0\n.\n", Err((3, Why::FrameOrder))),
    ("sat\nb0\n@0\n@2\n.\n", Err((4, Why::FrameOrder))),
    ("sat\nb0\n@0\n#1\n1 0\n@1\n.\n", Err((5, Why::BadIndex))),
    ("sat\nb0\n@0\n0 00\n0 00\n.\n", Err((5, Why::IndexTwice))),
    ("sat\nb0\n@0\n0 001\n.\n", Err((4, Why::BadValue))),
    ("sat\nb0\n@0\n0 0x\n.\n", Err((4, Why::Undetermined))),
    ("sat\nb0\n@0\n0 00 a b\n.\n", Err((4, Why::BadSymbol))),
    ("sat\nb0\n@0\n.\n.\n", Err((5, Why::Trailing))),
    ("sat\nb0\n@0\n", Err((4, Why::Truncated))),
    ("sat\nb0\n@0\n.", Err((4, Why::Truncated))),
];

#[test]
fn witnesses_of_models_in_two_pieces(rt: HostRuntime) -> Result<(), Fail> {
    let alloc = rt.alloc();
    expect_none(over_model(alloc, FOLLOWS, |model| {
        misjudged(alloc, Over::Model(model), &OF_FOLLOWS)
    })?)
}

/// An input, a latch that has its bit a frame later, and the gate of both, which is bad.
const TWICE: &[u8] = b"aag 3 1 1 0 1 1\n2\n4 2\n6\n6 4 2\n";

/// Texts over it.
const OF_TWICE: [Row; 13] = [
    ("1\nb0\n0\n1\n1\n.\n", Ok(Judgement::Accepted { frames: 2 })),
    (
        "1\nb0\n0\n1\n0\n.\n",
        Ok(Judgement::NotReached { claim: 0 }),
    ),
    ("1\nb0\n1\n1\n.\n", Ok(Judgement::InitDiffers { index: 0 })),
    ("2\nx", Ok(Judgement::NoClaim)),
    ("sat\nb0\n", Err((1, Why::BadHeader))),
    ("1\nb1\n0\n", Err((2, Why::BadClaim))),
    ("1\nj0\n0\n", Err((2, Why::JusticeClaim))),
    ("1\nb0\n00\n", Err((3, Why::BadValue))),
    ("1\nb0\n0\nx\n.\n", Err((4, Why::Undetermined))),
    ("1\nb0\n0\n.\n", Err((4, Why::FrameOrder))),
    ("1\nb0\n0\n1\n.\n.\n", Err((6, Why::Trailing))),
    ("1\nb0\n0\n1\n", Err((5, Why::Truncated))),
    ("1\nb0\n0\n1", Err((4, Why::Truncated))),
];

#[test]
fn witnesses_of_circuits_in_two_pieces(rt: HostRuntime) -> Result<(), Fail> {
    let alloc = rt.alloc();
    expect_none(over_circuit(alloc, TWICE, |circuit| {
        misjudged(alloc, Over::Circuit(circuit), &OF_TWICE)
    })?)
}
