//! Why a witness over a model with words of any width is not unfitted, or brought back, to its end.
ghost use Rattle.std.specs.Prelude.{◌≡◌};
ghost use Rattle.rejoin.specs.Faults.{unfit_fault_name, unfit_fault_number};

use base::ReadAllFault;
use std::fmt;
use thiserror::Error;

/// Why a witness is not unfitted, or brought back, to its end.
#[derive(Clone, Copy, Debug, PartialEq, Eq, Error)]
pub enum UnfitFault {
    /// The state with this id has an init line and no next line, the first such; nothing was read or written.
    NoNext(u64),
    /// The source failed; a beginning of the text was written.
    Read,
    /// The sink failed; a beginning of the text was written.
    Write,
    /// A growth was refused; a beginning of the text was written.
    NoMemory,
}

impl UnfitFault {
    /// The number that is printed for the fault.
    pub fn number(self) -> u32
        ensures { result ≡ unfit_fault_number self }
    {
        match self {
            UnfitFault::NoNext(_) => 70,
            UnfitFault::Read => 136,
            UnfitFault::Write => 137,
            UnfitFault::NoMemory => 138,
        }
    }

    /// The name that is printed for the fault.
    pub fn name(self) -> &'static str
        ensures { result.now ≡ unfit_fault_name self }
    {
        match self {
            UnfitFault::NoNext(_) => "NoNext",
            UnfitFault::Read => "Read",
            UnfitFault::Write => "Write",
            UnfitFault::NoMemory => "NoMemory",
        }
    }
}

impl fmt::Display for UnfitFault {
    fn fmt<W: fmt::Write>(&self, f: &mut fmt::Formatter<W>) -> fmt::Result {
        write!(f, "{} {}", self.number(), self.name())
    }
}

impl From<ReadAllFault> for UnfitFault {
    ghost use Rattle.rejoin.specs.Faults.{unread_fault};

    ghost from_gives = { λ cause e. e ≡ unread_fault cause };

    fn from(cause: ReadAllFault) -> UnfitFault {
        match cause {
            ReadAllFault::Device => UnfitFault::Read,
            ReadAllFault::NoMemory => UnfitFault::NoMemory,
        }
    }
}
