//! Why no judgement is answered.
ghost use Rattle.std.specs.Prelude.{◌≡◌};
ghost use Rattle.vcd.specs.Answers.{wave_fault_number, wave_fault_name};

use std::fmt;
use thiserror::Error;

/// Why a witness is not written as a dump to its end.
#[derive(Clone, Copy, Debug, PartialEq, Eq, Error)]
pub enum WaveFault {
    /// The source failed; a beginning of the dump was written.
    Read,
    /// The sink failed; a beginning of the dump was written.
    Write,
    /// A growth was refused; nothing was read or written.
    NoMemory,
    /// The first state in file order with an init and without a next; it has the id of the state's line. Nothing was
    /// read or written.
    NoNext(u64),
}

impl WaveFault {
    /// The number that is printed for the fault.
    pub fn number(self) -> u32
        ensures { result ≡ wave_fault_number self }
    {
        match self {
            WaveFault::Read => 170,
            WaveFault::Write => 171,
            WaveFault::NoMemory => 172,
            WaveFault::NoNext(_) => 70,
        }
    }

    /// The name that is printed for the fault.
    pub fn name(self) -> &'static str
        ensures { result.now ≡ wave_fault_name self }
    {
        match self {
            WaveFault::Read => "Read",
            WaveFault::Write => "Write",
            WaveFault::NoMemory => "NoMemory",
            WaveFault::NoNext(_) => "NoNext",
        }
    }
}

impl fmt::Display for WaveFault {
    fn fmt<W: fmt::Write>(&self, f: &mut fmt::Formatter<W>) -> fmt::Result {
        if let WaveFault::NoNext(id) = self {
            write!(f, "item {id}: ")?;
        }
        write!(f, "{} {}", self.number(), self.name())
    }
}
