//! The faults of clauses and formulas that are kept.
ghost use Rattle.std.specs.Prelude.{◌≡◌};
ghost use Rattle.drup.specs.Faults.{clause_number, clause_name, formula_number, formula_name};

use std::alloc::AllocError;
use std::fmt;
use thiserror::Error;

/// Why clauses are not kept, or nothing is propagated.
#[derive(Clone, Copy, Debug, PartialEq, Eq, Error)]
pub enum ClauseFault {
    /// A growth was refused.
    NoMemory,
}

impl ClauseFault {
    /// The number that is printed for the fault.
    pub fn number(self) -> u32
        ensures { result ≡ clause_number self }
    {
        match self {
            ClauseFault::NoMemory => 160,
        }
    }

    /// The name that is printed for the fault.
    pub fn name(self) -> &'static str
        ensures { result.now ≡ clause_name self }
    {
        match self {
            ClauseFault::NoMemory => "NoMemory",
        }
    }
}

impl fmt::Display for ClauseFault {
    fn fmt<W: fmt::Write>(&self, f: &mut fmt::Formatter<W>) -> fmt::Result {
        write!(f, "{} {}", self.number(), self.name())
    }
}

/// A growth that was refused.
impl From<AllocError> for ClauseFault {
    ghost use Rattle.drup.specs.declared.fault.ClauseFault.TheVariants.{NoMemory};

    ghost from_gives = { λ _ e. e ≡ NoMemory };

    fn from(_: AllocError) -> ClauseFault {
        ClauseFault::NoMemory
    }
}

/// Why a formula does not take a clause.
#[derive(Clone, Copy, Debug, PartialEq, Eq, Error)]
pub enum FormulaFault {
    /// A literal is none of the formula's variables.
    BadLiteral,
    /// A growth was refused.
    NoMemory,
}

impl FormulaFault {
    /// The number that is printed for the fault.
    pub fn number(self) -> u32
        ensures { result ≡ formula_number self }
    {
        match self {
            FormulaFault::BadLiteral => 165,
            FormulaFault::NoMemory => 166,
        }
    }

    /// The name that is printed for the fault.
    pub fn name(self) -> &'static str
        ensures { result.now ≡ formula_name self }
    {
        match self {
            FormulaFault::BadLiteral => "BadLiteral",
            FormulaFault::NoMemory => "NoMemory",
        }
    }
}

impl fmt::Display for FormulaFault {
    fn fmt<W: fmt::Write>(&self, f: &mut fmt::Formatter<W>) -> fmt::Result {
        write!(f, "{} {}", self.number(), self.name())
    }
}
