//! The refusals of a gate maker.
ghost use Rattle.std.specs.Prelude.{◌≡◌};
ghost use Rattle.gates.specs.Faults.{gate_fault_number, gate_fault_name};

use std::fmt;
use thiserror::Error;

/// Why a gate maker makes no gate.
#[derive(Clone, Copy, Debug, PartialEq, Eq, Error)]
pub enum GateFault {
    /// A variable would be above 2^30.
    TooBig,
    /// A growth was refused.
    NoMemory,
}

impl GateFault {
    /// The number that is printed for the fault.
    pub fn number(self) -> u32
        ensures { result ≡ gate_fault_number self }
    {
        match self {
            GateFault::TooBig => 80,
            GateFault::NoMemory => 81,
        }
    }

    /// The name that is printed for the fault.
    pub fn name(self) -> &'static str
        ensures { result.now ≡ gate_fault_name self }
    {
        match self {
            GateFault::TooBig => "TooBig",
            GateFault::NoMemory => "NoMemory",
        }
    }
}

impl fmt::Display for GateFault {
    fn fmt<W: fmt::Write>(&self, f: &mut fmt::Formatter<W>) -> fmt::Result {
        write!(f, "{} {}", self.number(), self.name())
    }
}
