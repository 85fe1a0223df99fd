//! What is said of a text over a model, and the line that is printed for it.
use crate::why::Why;
use std::fmt;

/// What is said of a text over a model: the first of these that applies, from the bottom of this list up to `Accepted`.
#[derive(Clone, Copy, PartialEq, Eq)]
pub enum Judgement {
    /// Each claimed bad property rises, and all constraints hold; it has so many frames.
    Accepted { frames: u64 },
    /// This claimed bad property rises in no frame.
    NotReached { claim: u64 },
    /// In this frame, the first such one, this constraint does not hold, the first such one in it.
    Violated { frame: u64, constraint: u64 },
    /// The initial word of this state is not that of its init line.
    InitDiffers { index: u64 },
    /// The text is no witness: this line, counted from 1, is refused for this.
    Malformed { line: u64, why: Why },
    /// The text says that there is no counterexample, or that none is known.
    NoClaim,
}

impl fmt::Display for Judgement {
    ghost use Rattle.std.specs.Prelude.{Some};
    ghost use Rattle.witness.specs.Printed.{judgement_text};

    ghost output = { λ j. Some (judgement_text j) };

    /// The line that is printed for it.
    fn fmt<W: fmt::Write>(&self, f: &mut fmt::Formatter<W>) -> fmt::Result {
        match self {
            Judgement::Accepted { frames } => write!(f, "accepted {frames} frames"),
            Judgement::NotReached { claim } => write!(f, "not reached: b{claim}"),
            Judgement::Violated { frame, constraint } => {
                write!(f, "violated: frame {frame}, constraint {constraint}")
            }
            Judgement::InitDiffers { index } => write!(f, "initial value differs at {index}"),
            Judgement::Malformed { line, why } => {
                let number = why.number();
                let name = why.name();
                write!(f, "malformed line {line}: {number} {name}")
            }
            Judgement::NoClaim => write!(f, "no claim"),
        }
    }
}
