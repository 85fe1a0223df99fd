//! Why a line of a proof, or a step in the binary form, is refused.
ghost use Rattle.std.specs.Prelude.{◌≡◌};
ghost use Rattle.drup.specs.Printed.{proof_why_number, proof_why_name};

use std::fmt;
use thiserror::Error;

/// Why a line of a proof, or a step in the binary form, is refused.
#[derive(Clone, Copy, Debug, PartialEq, Eq, Error)]
pub enum Why {
    /// A word is no literal, no `0` that ends a step, and no `d` that begins one; in the binary form a byte between steps is
    /// neither `a` nor `d`, or a number is no literal or has a needless last byte.
    BadWord,
    /// A literal's variable is beyond those of the formula.
    BadVariable,
    /// The text ends within a step.
    CutOff,
    /// There are more than 2^62 lines, or steps in the binary form.
    TooLong,
    /// In a proof with hints, the id of a step is not above all before it.
    BadId,
    /// In a proof with hints, a hint names no clause that stands.
    NoClause,
    /// In a proof with hints, a hint has a minus: the step is one by resolution on a literal (RAT), which has no meaning here.
    RatStep,
}

impl Why {
    /// The number that is printed for the why.
    pub fn number(self) -> u32
        ensures { result ≡ proof_why_number self }
    {
        match self {
            Why::BadWord => 161,
            Why::BadVariable => 162,
            Why::CutOff => 163,
            Why::TooLong => 164,
            Why::BadId => 167,
            Why::NoClause => 168,
            Why::RatStep => 169,
        }
    }

    /// The name that is printed for the why.
    pub fn name(self) -> &'static str
        ensures { result.now ≡ proof_why_name self }
    {
        match self {
            Why::BadWord => "BadWord",
            Why::BadVariable => "BadVariable",
            Why::CutOff => "CutOff",
            Why::TooLong => "TooLong",
            Why::BadId => "BadId",
            Why::NoClause => "NoClause",
            Why::RatStep => "RatStep",
        }
    }
}

impl fmt::Display for Why {
    fn fmt<W: fmt::Write>(&self, f: &mut fmt::Formatter<W>) -> fmt::Result {
        write!(f, "{} {}", self.number(), self.name())
    }
}
