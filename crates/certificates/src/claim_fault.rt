//! Why an invariant owes no formula.
ghost use Rattle.std.specs.Prelude.{◌≡◌};
ghost use Rattle.certificates.specs.Faults.{claim_number, claim_name, claim_line};

use crate::fault::ObligationFault;
use crate::why::InvariantFault;
use engine_form::EngineFault;
use std::fmt;
use thiserror::Error;

/// Why the text of an invariant owes no formula for a bad property of a circuit.
#[derive(Clone, Copy, Debug, PartialEq, Eq, Error)]
pub enum ClaimFault {
    /// The circuit has no engine form with this bad property alone.
    Form(EngineFault),
    /// A line of the invariant's text is faulty, or its lines are not read.
    Invariant(InvariantFault),
    /// There is no obligation of the invariant's cubes.
    Obligation(ObligationFault),
}

impl ClaimFault {
    /// The number that is printed for the fault.
    pub fn number(self) -> u32
        ensures { result ≡ claim_number self }
    {
        match self {
            ClaimFault::Form(fault) => fault.number(),
            ClaimFault::Invariant(fault) => fault.why.number(),
            ClaimFault::Obligation(fault) => fault.number(),
        }
    }

    /// The name that is printed for the fault.
    pub fn name(self) -> &'static str
        ensures { result.now ≡ claim_name self }
    {
        match self {
            ClaimFault::Form(fault) => fault.name(),
            ClaimFault::Invariant(fault) => fault.why.name(),
            ClaimFault::Obligation(fault) => fault.name(),
        }
    }

    /// The line of the invariant's text that is meant, from 1, where a line is; 0 where the source gave none.
    pub fn line(self) -> Option<u64>
        ensures { result ≡ claim_line self }
    {
        match self {
            ClaimFault::Form(_) => None,
            ClaimFault::Invariant(fault) => Some(fault.line),
            ClaimFault::Obligation(_) => None,
        }
    }
}

impl fmt::Display for ClaimFault {
    fn fmt<W: fmt::Write>(&self, f: &mut fmt::Formatter<W>) -> fmt::Result {
        write!(f, "{} {}", self.number(), self.name())
    }
}

impl From<EngineFault> for ClaimFault {
    ghost use Rattle.certificates.specs.declared.claim_fault.ClaimFault.TheVariants.{Form};

    ghost from_gives = { λ e fault. fault ≡ Form e };

    fn from(fault: EngineFault) -> ClaimFault {
        ClaimFault::Form(fault)
    }
}

impl From<InvariantFault> for ClaimFault {
    ghost use Rattle.certificates.specs.declared.claim_fault.ClaimFault.TheVariants.{Invariant};

    ghost from_gives = { λ e fault. fault ≡ Invariant e };

    fn from(fault: InvariantFault) -> ClaimFault {
        ClaimFault::Invariant(fault)
    }
}

impl From<ObligationFault> for ClaimFault {
    ghost use Rattle.certificates.specs.declared.claim_fault.ClaimFault.TheVariants.{Obligation};

    ghost from_gives = { λ e fault. fault ≡ Obligation e };

    fn from(fault: ObligationFault) -> ClaimFault {
        ClaimFault::Obligation(fault)
    }
}
