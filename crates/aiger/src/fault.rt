//! Why a circuit refuses what it is given.
ghost use Rattle.std.specs.Prelude.{◌≡◌};
ghost use Rattle.aiger.specs.Refusal.{circuit_fault_number, circuit_fault_name};

use std::alloc::AllocError;
use std::fmt;
use thiserror::Error;

/// Why a circuit refuses what it is given. It is unchanged then.
///
/// It is printed as its number, a space and its name.
#[derive(Clone, Copy, Debug, PartialEq, Eq, Error)]
pub enum CircuitFault {
    /// A literal's variable is above the greatest one of the circuit. In the lists of a file: a literal that is to define
    /// a variable is odd, below 2 or of a variable that is defined already.
    LiteralOutOfRange,
    /// A gate's second operand is above its first.
    OrderBroken,
    /// A variable, a count or the sum of the sizes of the justice properties would be above 2^30.
    TooBig,
    /// The section has no such position.
    NoSuchPosition,
    /// The position has a name already.
    NameTaken,
    /// A name is not 1 to 300 bytes from 32 to 126.
    BadName,
    /// A growth was refused.
    NoMemory,
}

impl CircuitFault {
    /// The number that is printed for the fault.
    pub fn number(self) -> u32
        ensures { result ≡ circuit_fault_number self }
    {
        match self {
            CircuitFault::LiteralOutOfRange => 40,
            CircuitFault::OrderBroken => 41,
            CircuitFault::TooBig => 42,
            CircuitFault::NoSuchPosition => 44,
            CircuitFault::NameTaken => 45,
            CircuitFault::BadName => 46,
            CircuitFault::NoMemory => 43,
        }
    }

    /// The name that is printed for the fault.
    pub fn name(self) -> &'static str
        ensures { result.now ≡ circuit_fault_name self }
    {
        match self {
            CircuitFault::LiteralOutOfRange => "LiteralOutOfRange",
            CircuitFault::OrderBroken => "OrderBroken",
            CircuitFault::TooBig => "TooBig",
            CircuitFault::NoSuchPosition => "NoSuchPosition",
            CircuitFault::NameTaken => "NameTaken",
            CircuitFault::BadName => "BadName",
            CircuitFault::NoMemory => "NoMemory",
        }
    }
}

impl fmt::Display for CircuitFault {
    fn fmt<W: fmt::Write>(&self, f: &mut fmt::Formatter<W>) -> fmt::Result {
        write!(f, "{} {}", self.number(), self.name())
    }
}

/// A growth that was refused.
impl From<AllocError> for CircuitFault {
    ghost use Rattle.aiger.specs.declared.fault.CircuitFault.TheVariants.{NoMemory};

    ghost from_gives = { λ _ e. e ≡ NoMemory };

    fn from(_: AllocError) -> CircuitFault {
        CircuitFault::NoMemory
    }
}
