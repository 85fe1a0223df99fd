//! Why there is no obligation.
ghost use Rattle.std.specs.Prelude.{◌≡◌};
ghost use Rattle.certificates.specs.Faults.{obligation_number, obligation_name};

use std::fmt;
use thiserror::Error;

/// Why there is no obligation.
#[derive(Clone, Copy, Debug, PartialEq, Eq, Error)]
pub enum ObligationFault {
    /// The variables of the circuit and the cubes are more than a formula may have, 2^31 - 2.
    TooBig,
    /// A growth was refused.
    NoMemory,
}

impl ObligationFault {
    /// The number that is printed for the fault.
    pub fn number(self) -> u32
        ensures { result ≡ obligation_number self }
    {
        match self {
            ObligationFault::TooBig => 196,
            ObligationFault::NoMemory => 197,
        }
    }

    /// The name that is printed for the fault.
    pub fn name(self) -> &'static str
        ensures { result.now ≡ obligation_name self }
    {
        match self {
            ObligationFault::TooBig => "TooBig",
            ObligationFault::NoMemory => "NoMemory",
        }
    }
}

impl fmt::Display for ObligationFault {
    fn fmt<W: fmt::Write>(&self, f: &mut fmt::Formatter<W>) -> fmt::Result {
        write!(f, "{} {}", self.number(), self.name())
    }
}
