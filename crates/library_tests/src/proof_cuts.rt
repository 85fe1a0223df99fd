//! Proofs over formulas, fed to a judge in two pieces, cut at each place, and byte by byte.
use drup::{ClauseFault, Formula, FormulaFault, Judgement, ProofJudge, Why};
use std::alloc::Global;
use std::test::Fail;

/// A count of variables, and clauses of literals, 2v for variable v and 2v + 1 for its negation.
type Given = (u32, &'static [&'static [u32]]);

/// A proof, and how it is judged.
type Proof = (&'static str, Judgement);

/// A formula, and proofs over it.
type Row = (&'static Given, &'static [Proof]);

/// No clause.
const NONE: Given = (2, &[]);

/// A clause without literals.
const EMPTY: Given = (1, &[&[]]);

/// A variable both ways.
const BOTH: Given = (1, &[&[2], &[3]]);

/// All eight clauses of three variables.
const EIGHT: Given = (
    3,
    &[
        &[2, 4, 6],
        &[2, 4, 7],
        &[2, 5, 6],
        &[2, 5, 7],
        &[3, 4, 6],
        &[3, 4, 7],
        &[3, 5, 6],
        &[3, 5, 7],
    ],
);

/// A clause with a literal twice, and two more.
const TWICE: Given = (2, &[&[2, 2], &[3, 4], &[5]]);

/// A clause with a literal and its negation.
const NEGATED: Given = (1, &[&[2, 3]]);

/// Two clauses that give the first variable together.
const TOGETHER: Given = (2, &[&[2, 4], &[2, 5]]);

/// A clause of one literal, and one that this shortens.
const UNIT: Given = (3, &[&[2], &[3, 4, 6]]);

/// Formulas, and proofs over them, in the text form and in the binary one. The steps of the first proof over all eight clauses
/// are left out and turned one by one.
const ROWS: [Row; 8] = [
    (
        &NONE,
        &[
            ("", Judgement::NotDerived),
            ("1 0\n", Judgement::NotImplied { line: 1 }),
            ("1 -1 0\n", Judgement::NotDerived),
        ],
    ),
    (&EMPTY, &[("", Judgement::Derived { line: 0 })]),
    (&BOTH, &[("x", Judgement::Derived { line: 0 })]),
    (&TWICE, &[("", Judgement::Derived { line: 0 })]),
    (
        &EIGHT,
        &[
            ("", Judgement::NotDerived),
            ("1 2 0\n1 0\n2 0\n", Judgement::Derived { line: 3 }),
            ("1 2 0\n1 0\n2 0", Judgement::Derived { line: 3 }),
            ("1 2 0\n1 0\n2 0\nx 7\n", Judgement::Derived { line: 3 }),
            ("1 2 0 1 0 2 0", Judgement::Derived { line: 1 }),
            ("1\n2 0\n\n1 0 \r\n\t2\n0\n", Judgement::Derived { line: 6 }),
            ("1 0\n2 0\n", Judgement::NotImplied { line: 1 }),
            ("1 2 0\n2 0\n0\n", Judgement::NotImplied { line: 3 }),
            ("1 2 0\n1 0\n", Judgement::NotDerived),
            ("-1 2 0\n1 0\n2 0\n", Judgement::NotImplied { line: 2 }),
            ("1 -2 0\n1 0\n2 0\n", Judgement::Derived { line: 3 }),
            ("1 2 0\n-1 0\n2 0\n", Judgement::NotImplied { line: 2 }),
            ("1 2 0\n1 0\n-2 0\n", Judgement::Derived { line: 3 }),
            ("1 2 0\nd 2 1 0\n1 0\n", Judgement::NotImplied { line: 3 }),
            (
                "a\x02\x04\x00a\x02\x00a\x04\x00",
                Judgement::Derived { line: 3 },
            ),
            (
                "a\x02\x04\x00a\x02\x00a\x04\x00a",
                Judgement::Derived { line: 3 },
            ),
            ("a\x02\x00", Judgement::NotImplied { line: 1 }),
            (
                "a\x02\x04\x00d\x04\x02\x00a\x02\x00",
                Judgement::NotImplied { line: 3 },
            ),
            (
                "a\x02\x04\x00a\x02",
                Judgement::Malformed {
                    line: 2,
                    why: Why::CutOff,
                },
            ),
            (
                "a\x02\x04\x00 a\x02\x00",
                Judgement::Malformed {
                    line: 2,
                    why: Why::BadWord,
                },
            ),
            (
                "c 1 0\n1 2 0\nc\nd 7 0\n",
                Judgement::Malformed {
                    line: 4,
                    why: Why::BadVariable,
                },
            ),
            (
                "1 2 0\n1 +2 0\n",
                Judgement::Malformed {
                    line: 2,
                    why: Why::BadWord,
                },
            ),
            (
                "1 2 0\n1 2\n",
                Judgement::Malformed {
                    line: 3,
                    why: Why::CutOff,
                },
            ),
            (
                "1 2 0\n1 2",
                Judgement::Malformed {
                    line: 2,
                    why: Why::CutOff,
                },
            ),
        ],
    ),
    (&NEGATED, &[("1 0\n", Judgement::NotImplied { line: 1 })]),
    (
        &TOGETHER,
        &[
            ("1 0\n0\n", Judgement::NotImplied { line: 2 }),
            ("d 1 0\n1 0\n", Judgement::NotDerived),
            ("d 1 2 0\n1 0\n", Judgement::NotImplied { line: 2 }),
        ],
    ),
    (
        &UNIT,
        &[
            ("d 1 0\n2 3 0\n", Judgement::NotDerived),
            (
                "d 1 0\nd 3 2 -1 0\n2 3 0\n",
                Judgement::NotImplied { line: 3 },
            ),
        ],
    ),
];

/// A formula.
fn formula_of(alloc: Global, given: &Given) -> Result<Formula, FormulaFault> {
    let (variables, clauses) = *given;
    let mut formula = Formula::new(alloc, variables.min(9));
    for clause in clauses {
        formula.push(clause)?;
    }
    Ok(formula)
}

/// The judgement of a text that is fed in two pieces.
fn judged_cut(
    alloc: Global,
    formula: &Formula,
    text: &[u8],
    cut: usize,
) -> Result<Judgement, ClauseFault> {
    let (front, rest) = text.split_at(cut.min(text.len()));
    let mut judge = ProofJudge::over(alloc, formula)?;
    judge.feed(front);
    judge.feed(rest);
    judge.finish()
}

/// The judgement of a text that is fed byte by byte.
fn judged_by_bytes(
    alloc: Global,
    formula: &Formula,
    text: &[u8],
) -> Result<Judgement, ClauseFault> {
    let mut judge = ProofJudge::over(alloc, formula)?;
    for byte in text {
        judge.feed(&[*byte]);
    }
    judge.finish()
}

/// Whether a text is judged so, byte by byte and cut at each place.
fn is_judged(alloc: Global, formula: &Formula, text: &[u8], wanted: &Judgement) -> bool {
    for cut in 0..text.len() {
        match judged_cut(alloc, formula, text, cut) {
            Ok(judgement) if judgement == *wanted => {}
            _ => return false,
        }
    }
    match judged_by_bytes(alloc, formula, text) {
        Ok(judgement) => judgement == *wanted,
        Err(_) => false,
    }
}

/// Fails with the first proof over a formula that is judged otherwise.
fn are_judged(alloc: Global, formula: &Formula, proofs: &[Proof]) -> Result<(), Fail> {
    for (text, wanted) in proofs {
        if !is_judged(alloc, formula, text.as_bytes(), wanted) {
            Err(*text)?
        }
    }
    Ok(())
}

/// The same of the proofs of a row.
fn are_right(alloc: Global, row: &Row) -> Result<(), Fail> {
    let formula = formula_of(alloc, row.0)?;
    are_judged(alloc, &formula, row.1)
}

#[test]
fn proofs_in_two_pieces(rt: HostRuntime) -> Result<(), Fail> {
    for row in &ROWS {
        are_right(rt.alloc(), row)?;
    }
    Ok(())
}
