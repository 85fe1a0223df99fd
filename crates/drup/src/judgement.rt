//! What is said of a proof over a formula, and the line that is printed for it.
use crate::why::Why;
use std::fmt;

/// What is said of the text of a proof over a formula: the first of these that its steps meet. In the binary form a step's line
/// is its number, counted from 1.
#[derive(Clone, Copy, PartialEq, Eq)]
pub enum Judgement {
    /// With the step that ends in this line propagation meets a conflict by itself, so nothing satisfies the formula; in
    /// line 0 where the formula's clauses do so.
    Derived { line: u64 },
    /// The step that ends in this line is not implied by what stands before it.
    NotImplied { line: u64 },
    /// The text is no proof: this line, counted from 1, is refused for this.
    Malformed { line: u64, why: Why },
    /// The text ends, and propagation meets no conflict.
    NotDerived,
}

impl fmt::Display for Judgement {
    ghost use Rattle.std.specs.Prelude.{Some};
    ghost use Rattle.drup.specs.Printed.{proof_judgement_text};

    ghost output = { λ j. Some (proof_judgement_text j) };

    /// The line that is printed for it.
    fn fmt<W: fmt::Write>(&self, f: &mut fmt::Formatter<W>) -> fmt::Result {
        match self {
            Judgement::Derived { line } => write!(f, "derived: line {line}"),
            Judgement::NotImplied { line } => write!(f, "not implied: line {line}"),
            Judgement::Malformed { line, why } => {
                let number = why.number();
                let name = why.name();
                write!(f, "malformed line {line}: {number} {name}")
            }
            Judgement::NotDerived => write!(f, "not derived"),
        }
    }
}
