//! Why a line is refused.
ghost use Rattle.std.specs.Prelude.{◌≡◌};
ghost use Rattle.witness.specs.Printed.{why_number, why_name};

use std::fmt;
use thiserror::Error;

/// Why a line of a witness is refused.
#[derive(Clone, Copy, Debug, PartialEq, Eq, Error)]
pub enum Why {
    /// The first line that is no comment is no status.
    BadHeader,
    /// The claims line is no list of claims, or one is out of range, or stands twice.
    BadClaim,
    /// A justice property is claimed.
    JusticeClaim,
    /// A line that opens or ends a part stands where it may not, or the first line behind the claims opens none.
    FrameOrder,
    /// An assignment's index is no decimal, or names no state or input, or behind the first frame a state that is not
    /// free.
    BadIndex,
    /// The index stands earlier in this part.
    IndexTwice,
    /// The value has not as many digits as the width, or another byte than `0`, `1` and `x`.
    BadValue,
    /// The value has an `x`.
    Undetermined,
    /// The text ends before the witness does.
    Truncated,
    /// Something follows the end of the witness.
    Trailing,
    /// There are more than 2^62 lines.
    TooLong,
    /// What follows the value is no symbol.
    BadSymbol,
}

impl Why {
    /// The number that is printed for the why.
    pub fn number(self) -> u32
        ensures { result ≡ why_number self }
    {
        match self {
            Why::BadHeader => 110,
            Why::BadClaim => 111,
            Why::JusticeClaim => 112,
            Why::FrameOrder => 113,
            Why::BadIndex => 114,
            Why::IndexTwice => 115,
            Why::BadValue => 116,
            Why::Undetermined => 117,
            Why::Truncated => 118,
            Why::Trailing => 119,
            Why::TooLong => 120,
            Why::BadSymbol => 121,
        }
    }

    /// The name that is printed for the why.
    pub fn name(self) -> &'static str
        ensures { result.now ≡ why_name self }
    {
        match self {
            Why::BadHeader => "BadHeader",
            Why::BadClaim => "BadClaim",
            Why::JusticeClaim => "JusticeClaim",
            Why::FrameOrder => "FrameOrder",
            Why::BadIndex => "BadIndex",
            Why::IndexTwice => "IndexTwice",
            Why::BadValue => "BadValue",
            Why::Undetermined => "Undetermined",
            Why::Truncated => "Truncated",
            Why::Trailing => "Trailing",
            Why::TooLong => "TooLong",
            Why::BadSymbol => "BadSymbol",
        }
    }
}

impl fmt::Display for Why {
    fn fmt<W: fmt::Write>(&self, f: &mut fmt::Formatter<W>) -> fmt::Result {
        write!(f, "{} {}", self.number(), self.name())
    }
}
