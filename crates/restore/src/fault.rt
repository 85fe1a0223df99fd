//! What is wrong with a text of a counterexample, or why it is not read or restored.
ghost use Rattle.std.specs.Prelude.{◌≡◌};
ghost use Rattle.restore.specs.Faults.{restore_why_number, restore_why_name, is_of_text};

use std::alloc::AllocError;
use std::fmt;
use thiserror::Error;

/// What is wrong with a line, or why the lines are not read or written.
#[derive(Clone, Copy, Debug, PartialEq, Eq, Error)]
pub enum RestoreWhy {
    /// The text ends before a frame.
    NoFrame,
    /// An initial bit is 1.
    InitialOne,
    /// A byte is no bit.
    NoBit,
    /// A frame has another number of bits than the form has inputs.
    WrongLength,
    /// A growth was refused.
    NoMemory,
    /// The source failed.
    Device,
    /// The sink failed.
    Write,
}

impl RestoreWhy {
    /// The number that is printed for it.
    pub fn number(self) -> u32
        ensures { result ≡ restore_why_number self }
    {
        match self {
            RestoreWhy::NoFrame => 150,
            RestoreWhy::InitialOne => 151,
            RestoreWhy::NoBit => 152,
            RestoreWhy::WrongLength => 153,
            RestoreWhy::NoMemory => 154,
            RestoreWhy::Device => 155,
            RestoreWhy::Write => 156,
        }
    }

    /// Whether it is wrong with a text: neither with its source, nor with what is written to, nor for want of memory.
    pub fn is_of_text(self) -> bool
        ensures { result ≡ is_of_text self }
    {
        match self {
            RestoreWhy::Device | RestoreWhy::NoMemory | RestoreWhy::Write => false,
            _ => true,
        }
    }

    /// The name that is printed for it.
    pub fn name(self) -> &'static str
        ensures { result.now ≡ restore_why_name self }
    {
        match self {
            RestoreWhy::NoFrame => "NoFrame",
            RestoreWhy::InitialOne => "InitialOne",
            RestoreWhy::NoBit => "NoBit",
            RestoreWhy::WrongLength => "WrongLength",
            RestoreWhy::NoMemory => "NoMemory",
            RestoreWhy::Device => "Device",
            RestoreWhy::Write => "Write",
        }
    }
}

impl fmt::Display for RestoreWhy {
    fn fmt<W: fmt::Write>(&self, f: &mut fmt::Formatter<W>) -> fmt::Result {
        write!(f, "{} {}", self.number(), self.name())
    }
}

/// The first faulty line of a text, and what is wrong with it; or why its lines are not read, or nothing is written of them.
#[derive(Clone, Copy, Debug, PartialEq, Eq)]
pub struct RestoreFault {
    /// The line, from 1, told up to 2^64 - 1; 0 for a failure of the source or the sink and for want of memory.
    pub line: u64,
    /// What is wrong with it.
    pub why: RestoreWhy,
}

impl RestoreFault {
    /// What no line has: a failure of the source or the sink, or want of memory.
    pub fn apart(why: RestoreWhy) -> RestoreFault
        ensures { result ≡ record { line = 0; why = why } }
    {
        RestoreFault { line: 0, why }
    }
}

/// A growth that was refused.
impl From<AllocError> for RestoreFault {
    ghost use Rattle.restore.specs.declared.fault.RestoreWhy.TheVariants.{NoMemory};

    ghost from_gives = { λ _ e. e ≡ record { line = 0; why = NoMemory } };

    fn from(_: AllocError) -> RestoreFault {
        RestoreFault::apart(RestoreWhy::NoMemory)
    }
}
