//! The refusals of a new run.
ghost use Rattle.std.specs.Prelude.{◌≡◌};
ghost use Rattle.runs.specs.Faults.{new_number, new_name};

use std::fmt;
use thiserror::Error;

/// Why a model or a circuit has no run.
#[derive(Clone, Copy, Debug, PartialEq, Eq, Error)]
pub enum NewFault {
    /// The first state in file order with an init and without a next; it has the id of the state's line.
    NoNext(u64),
    /// A growth was refused.
    NoMemory,
}

impl NewFault {
    /// The number that is printed for the fault.
    pub fn number(self) -> u32
        ensures { result ≡ new_number self }
    {
        match self {
            NewFault::NoNext(_) => 70,
            NewFault::NoMemory => 71,
        }
    }

    /// The name that is printed for the fault.
    pub fn name(self) -> &'static str
        ensures { result.now ≡ new_name self }
    {
        match self {
            NewFault::NoNext(_) => "NoNext",
            NewFault::NoMemory => "NoMemory",
        }
    }
}

impl fmt::Display for NewFault {
    fn fmt<W: fmt::Write>(&self, f: &mut fmt::Formatter<W>) -> fmt::Result {
        if let NewFault::NoNext(id) = self {
            write!(f, "item {id}: ")?;
        }
        write!(f, "{} {}", self.number(), self.name())
    }
}
