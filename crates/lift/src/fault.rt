//! Why no judgement is answered.
ghost use Rattle.std.specs.Prelude.{◌≡◌};
ghost use Rattle.lift.specs.Answers.{lift_fault_number, lift_fault_name};

use std::fmt;
use thiserror::Error;

/// Why a witness is not lifted to its end.
#[derive(Clone, Copy, Debug, PartialEq, Eq, Error)]
pub enum LiftFault {
    /// The source failed; a beginning of the lifted text was written.
    Read,
    /// The sink failed; a beginning of the lifted text was written.
    Write,
    /// A growth was refused; nothing was read or written.
    NoMemory,
}

impl LiftFault {
    /// The number that is printed for the fault.
    pub fn number(self) -> u32
        ensures { result ≡ lift_fault_number self }
    {
        match self {
            LiftFault::Read => 130,
            LiftFault::Write => 131,
            LiftFault::NoMemory => 132,
        }
    }

    /// The name that is printed for the fault.
    pub fn name(self) -> &'static str
        ensures { result.now ≡ lift_fault_name self }
    {
        match self {
            LiftFault::Read => "Read",
            LiftFault::Write => "Write",
            LiftFault::NoMemory => "NoMemory",
        }
    }
}

impl fmt::Display for LiftFault {
    fn fmt<W: fmt::Write>(&self, f: &mut fmt::Formatter<W>) -> fmt::Result {
        write!(f, "{} {}", self.number(), self.name())
    }
}
