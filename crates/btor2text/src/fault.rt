//! Why a text is no model.
ghost use Rattle.std.specs.Prelude.{◌≡◌};
ghost use Rattle.btor2text.specs.Whys.{line_why_number, printed_number, line_why_name};

use btor2::PushFault;
use std::fmt;
use thiserror::Error;

/// What is wrong with a line of a model's text, or with the reading of it.
#[derive(Clone, Copy, Debug, PartialEq, Eq, Error)]
pub enum Why {
    /// A token is missing, is not of its place's form, or follows the symbol.
    BadToken,
    /// A sort of arrays.
    ArraySort,
    /// `read` or `write`.
    ArrayOperator,
    /// A word that is no form.
    UnknownOperator,
    /// `-` and a decimal in an operand's place.
    NegativeOperand,
    /// A constant that does not fit its sort.
    ConstantDoesNotFit,
    /// A symbol of more than 255 bytes, or with a byte outside 33 to 126.
    BadSymbol,
    /// The model refuses the item for another reason.
    Refused(PushFault),
    /// The last line has bytes and no byte 10.
    Unfinished,
    /// The source failed.
    Device,
    /// A growth was refused.
    NoMemory,
}

impl Why {
    /// The number of the fault; for a refusal of the model that has no number here it is 27.
    pub fn number(self) -> u32
        ensures { result ≡ line_why_number self }
    {
        match self {
            Why::BadToken => 20,
            Why::ArraySort => 21,
            Why::ArrayOperator => 22,
            Why::UnknownOperator => 23,
            Why::NegativeOperand => 24,
            Why::ConstantDoesNotFit => 25,
            Why::BadSymbol => 26,
            Why::Refused(_) => 27,
            Why::Unfinished => 28,
            Why::Device => 29,
            Why::NoMemory => 30,
        }
    }

    /// The number that is printed: that of the push's refusal where the model refuses the item, else the fault's own.
    pub fn printed_number(self) -> u32
        ensures { result ≡ printed_number self }
    {
        match self {
            Why::Refused(fault) => fault.number(),
            why => why.number(),
        }
    }

    /// The name that is printed: that of the push's refusal where the model refuses the item, else the fault's own.
    pub fn name(self) -> &'static str
        ensures { result.now ≡ line_why_name self }
    {
        match self {
            Why::Refused(fault) => fault.name(),
            Why::BadToken => "BadToken",
            Why::ArraySort => "ArraySort",
            Why::ArrayOperator => "ArrayOperator",
            Why::UnknownOperator => "UnknownOperator",
            Why::NegativeOperand => "NegativeOperand",
            Why::ConstantDoesNotFit => "ConstantDoesNotFit",
            Why::BadSymbol => "BadSymbol",
            Why::Unfinished => "Unfinished",
            Why::Device => "Device",
            Why::NoMemory => "NoMemory",
        }
    }
}

impl fmt::Display for Why {
    fn fmt<W: fmt::Write>(&self, f: &mut fmt::Formatter<W>) -> fmt::Result {
        write!(f, "{} {}", self.printed_number(), self.name())
    }
}

/// Why a text is no model: the line, from 1, and what is wrong with it.
///
/// `Device` and `NoMemory` have line 0; a line past 2^64 - 1 is told as 2^64 - 1.
#[derive(Clone, Copy, Debug, PartialEq, Eq, Error)]
#[error("line {line}: {why}")]
pub struct ReadFault {
    /// The line, from 1.
    pub line: u64,
    /// What is wrong with it.
    pub why: Why,
}
