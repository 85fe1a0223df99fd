//! Why a circuit has no engine form.
ghost use Rattle.std.specs.Prelude.{◌≡◌};
ghost use Rattle.engine_form.specs.Faults.{engine_fault_number, engine_fault_name};

use std::alloc::AllocError;
use std::fmt;
use thiserror::Error;

/// Why a circuit has no engine form.
#[derive(Clone, Copy, Debug, PartialEq, Eq, Error)]
pub enum EngineFault {
    /// It has a justice property; the first, at position 0, is meant.
    Justice,
    /// It has a fairness constraint; the first, at position 0, is meant.
    Fair,
    /// It has no bad property at all.
    NoBad,
    /// It has bad properties, but none at the chosen position.
    NoSuchBad,
    /// The bound on the variables of the form is above 2^30.
    TooBig,
    /// A growth was refused.
    NoMemory,
}

impl EngineFault {
    /// The number that is printed for the fault.
    pub fn number(self) -> u32
        ensures { result ≡ engine_fault_number self }
    {
        match self {
            EngineFault::Justice => 140,
            EngineFault::Fair => 141,
            EngineFault::NoBad => 145,
            EngineFault::NoSuchBad => 142,
            EngineFault::TooBig => 143,
            EngineFault::NoMemory => 144,
        }
    }

    /// The name that is printed for the fault.
    pub fn name(self) -> &'static str
        ensures { result.now ≡ engine_fault_name self }
    {
        match self {
            EngineFault::Justice => "Justice",
            EngineFault::Fair => "Fair",
            EngineFault::NoBad => "NoBad",
            EngineFault::NoSuchBad => "NoSuchBad",
            EngineFault::TooBig => "TooBig",
            EngineFault::NoMemory => "NoMemory",
        }
    }
}

impl fmt::Display for EngineFault {
    fn fmt<W: fmt::Write>(&self, f: &mut fmt::Formatter<W>) -> fmt::Result {
        write!(f, "{} {}", self.number(), self.name())
    }
}

/// A growth that was refused.
impl From<AllocError> for EngineFault {
    ghost use Rattle.engine_form.specs.declared.fault.EngineFault.TheVariants.{NoMemory};

    ghost from_gives = { λ _ e. e ≡ NoMemory };

    fn from(_: AllocError) -> EngineFault {
        EngineFault::NoMemory
    }
}
