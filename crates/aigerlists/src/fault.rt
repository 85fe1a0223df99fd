//! Why the lists of a file have no circuit.
ghost use Rattle.std.specs.Prelude.{◌≡◌};
ghost use Rattle.aigerlists.specs.Renumbering.{loose_fault_number, loose_fault_name};

use std::alloc::AllocError;
use std::fmt;
use thiserror::Error;

/// Why the lists of a file have no circuit.
///
/// It is printed as its number, a space and its name.
#[derive(Clone, Copy, Debug, PartialEq, Eq, Error)]
pub enum LooseFault {
    /// The first line with a literal whose variable is neither 0 nor defined: latches, outputs, bad
    /// properties, constraints, justice literals, fairness constraints and gates are counted, in
    /// this order and from 0.
    Undefined(usize),
    /// The position, from 0, of the first gate that depends on itself through operands, or on a gate
    /// that does.
    Cycle(usize),
    /// A growth was refused.
    NoMemory,
}

impl LooseFault {
    /// The number that is printed for the fault.
    pub fn number(self) -> u32
        ensures { result ≡ loose_fault_number self }
    {
        match self {
            LooseFault::Undefined(_) => 63,
            LooseFault::Cycle(_) => 62,
            LooseFault::NoMemory => 43,
        }
    }

    /// The name that is printed for the fault.
    pub fn name(self) -> &'static str
        ensures { result.now ≡ loose_fault_name self }
    {
        match self {
            LooseFault::Undefined(_) => "Undefined",
            LooseFault::Cycle(_) => "Cycle",
            LooseFault::NoMemory => "NoMemory",
        }
    }
}

impl fmt::Display for LooseFault {
    fn fmt<W: fmt::Write>(&self, f: &mut fmt::Formatter<W>) -> fmt::Result {
        write!(f, "{} {}", self.number(), self.name())
    }
}

/// A growth that was refused.
impl From<AllocError> for LooseFault {
    ghost use Rattle.aigerlists.specs.declared.fault.LooseFault.TheVariants.{NoMemory};

    ghost from_gives = { λ _ e. e ≡ NoMemory };

    fn from(_: AllocError) -> LooseFault {
        LooseFault::NoMemory
    }
}
