//! Why a witness circuit has no test.
ghost use Rattle.std.specs.Prelude.{◌≡◌};
ghost use Rattle.witness_circuits.specs.Faults.{test_number, test_name};

use std::alloc::AllocError;
use std::fmt;
use thiserror::Error;

/// Why a witness circuit has no test for a bad property of a circuit.
#[derive(Clone, Copy, Debug, PartialEq, Eq, Error)]
pub enum TestFault {
    /// The witness circuit has a justice property.
    Justice,
    /// The witness circuit has a fairness constraint.
    Fair,
    /// The witness circuit has neither a bad property nor an output.
    NoProperty,
    /// The witness circuit has several bad properties, or none and several outputs.
    SeveralProperties,
    /// The name of an input or latch of the witness circuit says a literal that the circuit does not have.
    NoSuchLiteral,
    /// The circuit has no such bad property.
    NoSuchBad,
    /// The bound on the variables of the test is above 2^30.
    TooBig,
    /// A growth was refused.
    NoMemory,
}

impl TestFault {
    /// The number that is printed for the fault.
    pub fn number(self) -> u32
        ensures { result ≡ test_number self }
    {
        match self {
            TestFault::Justice => 210,
            TestFault::Fair => 211,
            TestFault::NoProperty => 212,
            TestFault::SeveralProperties => 213,
            TestFault::NoSuchLiteral => 214,
            TestFault::NoSuchBad => 215,
            TestFault::TooBig => 216,
            TestFault::NoMemory => 217,
        }
    }

    /// The name that is printed for the fault.
    pub fn name(self) -> &'static str
        ensures { result.now ≡ test_name self }
    {
        match self {
            TestFault::Justice => "Justice",
            TestFault::Fair => "Fair",
            TestFault::NoProperty => "NoProperty",
            TestFault::SeveralProperties => "SeveralProperties",
            TestFault::NoSuchLiteral => "NoSuchLiteral",
            TestFault::NoSuchBad => "NoSuchBad",
            TestFault::TooBig => "TooBig",
            TestFault::NoMemory => "NoMemory",
        }
    }
}

impl fmt::Display for TestFault {
    fn fmt<W: fmt::Write>(&self, f: &mut fmt::Formatter<W>) -> fmt::Result {
        write!(f, "{} {}", self.number(), self.name())
    }
}

/// A growth that was refused.
impl From<AllocError> for TestFault {
    ghost use Rattle.witness_circuits.specs.declared.fault.TestFault.TheVariants.{NoMemory};

    ghost from_gives = { λ _ e. e ≡ NoMemory };

    fn from(_: AllocError) -> TestFault {
        TestFault::NoMemory
    }
}
