//! What is wrong with the text of an invariant, or why it is not read.
ghost use Rattle.std.specs.Prelude.{◌≡◌};
ghost use Rattle.certificates.specs.Faults.{invariant_why_number, invariant_why_name};

use std::fmt;
use thiserror::Error;

/// What is wrong with a line, or why the lines are not read.
#[derive(Clone, Copy, Debug, PartialEq, Eq, Error)]
pub enum InvariantWhy {
    /// The line of the count of latches is not `.i` and a decimal.
    BadInputs,
    /// The line of the outputs is not `.o 1`.
    BadOutputs,
    /// The line of the count of cubes is not `.p` and a decimal.
    BadCount,
    /// The line of the names is not `.ilb` and names, each `lo` and digits.
    BadNames,
    /// A name is of no latch.
    NoSuchLatch,
    /// A latch is named twice.
    NamedTwice,
    /// There are more or fewer names than the count of latches says.
    WrongNames,
    /// The line of the output's name is not `.ob` and a word.
    BadOutput,
    /// The line of a cube is not bytes `0`, `1` and `-`, a blank and `1`.
    BadCube,
    /// A cube has another length than the count of latches says.
    WrongLength,
    /// A cube has no `1`, so the state in which all latches are 0 is in it.
    HoldsAtStart,
    /// There are more or fewer cubes than their count says.
    WrongCubes,
    /// A line follows the end.
    BehindEnd,
    /// The text ends before its end is told.
    CutOff,
    /// A growth was refused.
    NoMemory,
    /// The source failed.
    Device,
}

impl InvariantWhy {
    /// The number that is printed for it.
    pub fn number(self) -> u32
        ensures { result ≡ invariant_why_number self }
    {
        match self {
            InvariantWhy::BadInputs => 180,
            InvariantWhy::BadOutputs => 181,
            InvariantWhy::BadCount => 182,
            InvariantWhy::BadNames => 183,
            InvariantWhy::NoSuchLatch => 184,
            InvariantWhy::NamedTwice => 185,
            InvariantWhy::WrongNames => 186,
            InvariantWhy::BadOutput => 187,
            InvariantWhy::BadCube => 188,
            InvariantWhy::WrongLength => 189,
            InvariantWhy::HoldsAtStart => 190,
            InvariantWhy::WrongCubes => 191,
            InvariantWhy::BehindEnd => 192,
            InvariantWhy::CutOff => 193,
            InvariantWhy::NoMemory => 194,
            InvariantWhy::Device => 195,
        }
    }

    /// The name that is printed for it.
    pub fn name(self) -> &'static str
        ensures { result.now ≡ invariant_why_name self }
    {
        match self {
            InvariantWhy::BadInputs => "BadInputs",
            InvariantWhy::BadOutputs => "BadOutputs",
            InvariantWhy::BadCount => "BadCount",
            InvariantWhy::BadNames => "BadNames",
            InvariantWhy::NoSuchLatch => "NoSuchLatch",
            InvariantWhy::NamedTwice => "NamedTwice",
            InvariantWhy::WrongNames => "WrongNames",
            InvariantWhy::BadOutput => "BadOutput",
            InvariantWhy::BadCube => "BadCube",
            InvariantWhy::WrongLength => "WrongLength",
            InvariantWhy::HoldsAtStart => "HoldsAtStart",
            InvariantWhy::WrongCubes => "WrongCubes",
            InvariantWhy::BehindEnd => "BehindEnd",
            InvariantWhy::CutOff => "CutOff",
            InvariantWhy::NoMemory => "NoMemory",
            InvariantWhy::Device => "Device",
        }
    }
}

impl fmt::Display for InvariantWhy {
    fn fmt<W: fmt::Write>(&self, f: &mut fmt::Formatter<W>) -> fmt::Result {
        write!(f, "{} {}", self.number(), self.name())
    }
}

/// The first faulty line of a text, and what is wrong with it; or why its lines are not read.
#[derive(Clone, Copy, Debug, PartialEq, Eq)]
pub struct InvariantFault {
    /// The line, from 1, told up to 2^64 - 1; 0 where the source gave no line, since it failed or a growth was refused.
    pub line: u64,
    /// What is wrong with it.
    pub why: InvariantWhy,
}
