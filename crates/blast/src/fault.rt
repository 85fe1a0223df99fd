//! Why a model is not lowered, and why a text is not converted.
ghost use Rattle.std.specs.Prelude.{◌≡◌};
ghost use Rattle.blast.specs.Faults.{lower_number, lower_name, convert_number, convert_name};

use base::DeviceFault;
use btor2text::ReadFault;
use std::fmt;
use thiserror::Error;

/// Why a model is not lowered.
#[derive(Clone, Copy, Debug, PartialEq, Eq, Error)]
pub enum LowerFault {
    /// A justice line, which is the first item in file order that speaks against the model; it has the line's id.
    Justice(u64),
    /// A fairness line, which is the first such item; it has the line's id.
    Fair(u64),
    /// A state with an init and without a next, which is the first such item; it has the id of the state's line.
    NoNext(u64),
    /// The bound on the variables is above 2^30.
    TooBig,
    /// A growth was refused.
    NoMemory,
}

impl LowerFault {
    /// The number that is printed for the fault.
    pub fn number(self) -> u32
        ensures { result ≡ lower_number self }
    {
        match self {
            LowerFault::Justice(_) => 90,
            LowerFault::Fair(_) => 91,
            LowerFault::NoNext(_) => 92,
            LowerFault::TooBig => 93,
            LowerFault::NoMemory => 94,
        }
    }

    /// The name that is printed for the fault.
    pub fn name(self) -> &'static str
        ensures { result.now ≡ lower_name self }
    {
        match self {
            LowerFault::Justice(_) => "Justice",
            LowerFault::Fair(_) => "Fair",
            LowerFault::NoNext(_) => "NoNext",
            LowerFault::TooBig => "TooBig",
            LowerFault::NoMemory => "NoMemory",
        }
    }
}

impl fmt::Display for LowerFault {
    fn fmt<W: fmt::Write>(&self, f: &mut fmt::Formatter<W>) -> fmt::Result {
        if let LowerFault::Justice(id) | LowerFault::Fair(id) | LowerFault::NoNext(id) = self {
            write!(f, "item {id}: ")?;
        }
        write!(f, "{} {}", self.number(), self.name())
    }
}

/// Why a conversion is not done.
#[derive(Clone, Copy, Debug, PartialEq, Eq, Error)]
pub enum ConvertFault {
    /// The text is no model, or could not be read. Nothing was written.
    Read(ReadFault),
    /// The model is not lowered. Nothing was written.
    Lower(LowerFault),
    /// The sink failed. A beginning of the circuit's text was written.
    Write(DeviceFault),
}

impl ConvertFault {
    /// The number of the fault.
    pub fn number(self) -> u32
        ensures { result ≡ convert_number self }
    {
        match self {
            ConvertFault::Read(_) => 95,
            ConvertFault::Lower(_) => 96,
            ConvertFault::Write(_) => 97,
        }
    }

    /// The name of the fault.
    pub fn name(self) -> &'static str
        ensures { result.now ≡ convert_name self }
    {
        match self {
            ConvertFault::Read(_) => "Read",
            ConvertFault::Lower(_) => "Lower",
            ConvertFault::Write(_) => "Write",
        }
    }
}

impl fmt::Display for ConvertFault {
    fn fmt<W: fmt::Write>(&self, f: &mut fmt::Formatter<W>) -> fmt::Result {
        write!(f, "{} {}: ", self.number(), self.name())?;
        match self {
            ConvertFault::Read(fault) => fmt::Display::fmt(fault, f),
            ConvertFault::Lower(fault) => fmt::Display::fmt(fault, f),
            ConvertFault::Write(fault) => fmt::Display::fmt(fault, f),
        }
    }
}
