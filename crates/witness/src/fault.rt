//! Why a text is not judged.
ghost use Rattle.std.specs.Prelude.{◌≡◌};
ghost use Rattle.witness.specs.Answers.{judge_number, judge_name};

use std::fmt;
use thiserror::Error;

/// Why a text is not judged.
#[derive(Clone, Copy, Debug, PartialEq, Eq, Error)]
pub enum JudgeFault {
    /// The source failed.
    Device,
    /// A growth was refused.
    NoMemory,
    /// The first state in file order with an init and no next; it has the id of the state's line. Nothing was read then.
    NoNext(u64),
}

impl JudgeFault {
    /// The number that is printed for the fault.
    pub fn number(self) -> u32
        ensures { result ≡ judge_number self }
    {
        match self {
            JudgeFault::Device => 100,
            JudgeFault::NoMemory => 101,
            JudgeFault::NoNext(_) => 70,
        }
    }

    /// The name that is printed for the fault.
    pub fn name(self) -> &'static str
        ensures { result.now ≡ judge_name self }
    {
        match self {
            JudgeFault::Device => "Device",
            JudgeFault::NoMemory => "NoMemory",
            JudgeFault::NoNext(_) => "NoNext",
        }
    }
}

impl fmt::Display for JudgeFault {
    fn fmt<W: fmt::Write>(&self, f: &mut fmt::Formatter<W>) -> fmt::Result {
        if let JudgeFault::NoNext(id) = self {
            write!(f, "item {id}: ")?;
        }
        write!(f, "{} {}", self.number(), self.name())
    }
}
