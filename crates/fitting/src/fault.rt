//! Why a model with words of any width is not fitted.
ghost use Rattle.std.specs.Prelude.{◌≡◌};
ghost use Rattle.fitting.specs.Faults.{fit_fault_item, fit_fault_number, fit_fault_name, fault_of};

use crate::unfitted::Unfitted;
use pieces::Shortage;
use std::fmt;
use thiserror::Error;

/// Why a model with words of any width is not fitted. What is told is the id of a line: the first that is not fitted.
#[derive(Clone, Copy, Debug, PartialEq, Eq, Error)]
pub enum FitFault {
    /// It is a line of justice.
    Justice(u64),
    /// It is a line of fairness.
    Fair(u64),
    /// The model of the profile has as many items as it may have before all that this line takes stand in it.
    TooManyItems(u64),
    /// A growth was refused.
    NoMemory,
}

impl FitFault {
    /// The number that is printed for the fault.
    pub fn number(self) -> u32
        ensures { result ≡ fit_fault_number self }
    {
        match self {
            FitFault::Justice(_) => 220,
            FitFault::Fair(_) => 221,
            FitFault::TooManyItems(_) => 222,
            FitFault::NoMemory => 223,
        }
    }

    /// The id of the line that it is about, where it is about one.
    pub fn item(self) -> Option<u64>
        ensures { result ≡ fit_fault_item self }
    {
        match self {
            FitFault::Justice(id) | FitFault::Fair(id) | FitFault::TooManyItems(id) => Some(id),
            FitFault::NoMemory => None,
        }
    }

    /// The name that is printed for the fault.
    pub fn name(self) -> &'static str
        ensures { result.now ≡ fit_fault_name self }
    {
        match self {
            FitFault::Justice(_) => "Justice",
            FitFault::Fair(_) => "Fair",
            FitFault::TooManyItems(_) => "TooManyItems",
            FitFault::NoMemory => "NoMemory",
        }
    }
}

impl fmt::Display for FitFault {
    fn fmt<W: fmt::Write>(&self, f: &mut fmt::Formatter<W>) -> fmt::Result {
        write!(f, "{} {}", self.number(), self.name())
    }
}

/// Why a model is not fitted of which a line is not.
pub(crate) fn fault_of(id: u64, unfitted: Unfitted) -> FitFault
    ensures { result ≡ fault_of id unfitted }
{
    match unfitted {
        Unfitted::Justice => FitFault::Justice(id),
        Unfitted::Fair => FitFault::Fair(id),
        Unfitted::Short(Shortage::TooManyItems) => FitFault::TooManyItems(id),
        Unfitted::Short(Shortage::NoMemory) => FitFault::NoMemory,
    }
}
