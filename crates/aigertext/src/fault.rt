//! Why a text is no circuit.
ghost use Rattle.std.specs.Prelude.{◌≡◌};
ghost use Rattle.aigertext.specs.Whys.{why_row, circuit_why_number, circuit_why_name};

use std::fmt;
use thiserror::Error;

/// What is wrong with a line or a delta of a circuit's text, or with the reading of it.
///
/// It is printed as its number, a space and its name.
#[derive(Clone, Copy, Debug, PartialEq, Eq, Error)]
pub enum Why {
    /// The first line is not `aag` or `aig` and 5 to 9 decimals.
    BadHeader,
    /// The greatest variable is not the sum of inputs, latches and gates (in the ascii form: is below it).
    CountsDisagree,
    /// A line of one number is none, an input's literal defines no new variable, another literal is above the greatest,
    /// or an ascii gate's line is not three numbers.
    BadNumber,
    /// A latch's line has other numbers than it may have, or its own literal defines no new variable.
    BadLatch,
    /// A binary gate's operands are not below it in their order, or an ascii gate's literal defines no new variable.
    GateOrder,
    /// A delta of more than one byte ends in byte 0.
    DeltaNotShortest,
    /// The first five bytes of a delta all have the top bit.
    DeltaTooLong,
    /// A line behind the gates is neither a name for a position that has none nor the beginning of a comment.
    BadSymbol,
    /// A line or a delta is missing, or the text ends within it.
    Truncated,
    /// A number of the header, or the sum of the justice sizes, is above 2^30.
    TooBig,
    /// A gate of the ascii form depends on itself, or on one that does, through operands.
    Cycle,
    /// A line of the ascii form uses a variable that no line defines.
    Undefined,
    /// The source failed.
    Device,
    /// A growth was refused.
    NoMemory,
}

impl Why {
    /// The number and the name that are printed for it.
    fn row(self) -> (u32, &'static str)
        ensures { (result.0, result.1.now) ≡ why_row self }
    {
        match self {
            Why::BadHeader => (50, "BadHeader"),
            Why::CountsDisagree => (51, "CountsDisagree"),
            Why::BadNumber => (52, "BadNumber"),
            Why::BadLatch => (53, "BadLatch"),
            Why::GateOrder => (54, "GateOrder"),
            Why::DeltaNotShortest => (55, "DeltaNotShortest"),
            Why::DeltaTooLong => (56, "DeltaTooLong"),
            Why::BadSymbol => (57, "BadSymbol"),
            Why::Truncated => (58, "Truncated"),
            Why::TooBig => (59, "TooBig"),
            Why::Cycle => (62, "Cycle"),
            Why::Undefined => (63, "Undefined"),
            Why::Device => (60, "Device"),
            Why::NoMemory => (61, "NoMemory"),
        }
    }

    /// The number that is printed for it.
    pub fn number(self) -> u32
        ensures { result ≡ circuit_why_number self }
    {
        self.row().0
    }

    /// The name that is printed for it.
    pub fn name(self) -> &'static str
        ensures { result.now ≡ circuit_why_name self }
    {
        self.row().1
    }
}

impl fmt::Display for Why {
    fn fmt<W: fmt::Write>(&self, f: &mut fmt::Formatter<W>) -> fmt::Result {
        write!(f, "{} {}", self.number(), self.name())
    }
}

/// Why a text is no circuit: where the line or the delta begins, and what is wrong with it.
///
/// `Device` and `NoMemory` have place 0.
#[derive(Clone, Copy, Debug, PartialEq, Eq, Error)]
#[error("byte {place}: {why}")]
pub struct ReadFault {
    /// The place, in bytes from 0.
    pub place: u64,
    /// What is wrong there.
    pub why: Why,
}

/// Where reading stopped: how many bytes of the text are left from the faulty line or delta on, and what is wrong.
#[derive(Clone, Copy)]
pub(crate) struct Stop {
    /// The bytes left.
    pub(crate) left: usize,
    /// What is wrong.
    pub(crate) why: Why,
}
