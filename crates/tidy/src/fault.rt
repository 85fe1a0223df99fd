//! Why a text is not tidied to its end.
ghost use Rattle.std.specs.Prelude.{◌≡◌};
ghost use Rattle.tidy.specs.Answers.{tidy_fault_number, tidy_fault_name};

use std::fmt;
use thiserror::Error;

/// Why the text of a witness is not tidied to its end.
#[derive(Clone, Copy, Debug, PartialEq, Eq, Error)]
pub enum TidyFault {
    /// The source failed; a beginning of the tidied text was written.
    Read,
    /// The sink failed; a beginning of the tidied text was written.
    Write,
}

impl TidyFault {
    /// The number that is printed for the fault.
    pub fn number(self) -> u32
        ensures { result ≡ tidy_fault_number self }
    {
        match self {
            TidyFault::Read => 200,
            TidyFault::Write => 201,
        }
    }

    /// The name that is printed for the fault.
    pub fn name(self) -> &'static str
        ensures { result.now ≡ tidy_fault_name self }
    {
        match self {
            TidyFault::Read => "Read",
            TidyFault::Write => "Write",
        }
    }
}

impl fmt::Display for TidyFault {
    fn fmt<W: fmt::Write>(&self, f: &mut fmt::Formatter<W>) -> fmt::Result {
        write!(f, "{} {}", self.number(), self.name())
    }
}
