//! Why a model is not written out.
ghost use Rattle.std.specs.Prelude.{◌≡◌};
ghost use Rattle.writeout.specs.Numbers.{write_fault_number, write_fault_item, write_fault_name};

use cells::Shortage;

/// Why a model is not written out.
#[derive(Clone, Copy, Debug, PartialEq, Eq)]
pub enum WriteFault {
    /// The line with this id is one of justice, the first such line or line of fairness.
    Justice(u64),
    /// The line with this id is one of fairness, the first such line or line of justice.
    Fair(u64),
    /// The word of the node with this id in the first frame depends on itself.
    Circle(u64),
    /// A list of wide items has no room for it: it has 1,048,576 items at most.
    TooManyItems,
    /// A growth was refused.
    NoMemory,
}

impl WriteFault {
    /// The number that is printed for the fault.
    pub fn number(self) -> u32
        ensures { result ≡ write_fault_number self }
    {
        match self {
            WriteFault::Justice(_) => 220,
            WriteFault::Fair(_) => 221,
            WriteFault::TooManyItems => 222,
            WriteFault::NoMemory => 223,
            WriteFault::Circle(_) => 224,
        }
    }

    /// The id of the line that it is about, where it is about one.
    pub fn item(self) -> Option<u64>
        ensures { result ≡ write_fault_item self }
    {
        match self {
            WriteFault::Justice(id) | WriteFault::Fair(id) | WriteFault::Circle(id) => Some(id),
            WriteFault::TooManyItems | WriteFault::NoMemory => None,
        }
    }

    /// The name that is printed for the fault.
    pub fn name(self) -> &'static str
        ensures { result.now ≡ write_fault_name self }
    {
        match self {
            WriteFault::Justice(_) => "Justice",
            WriteFault::Fair(_) => "Fair",
            WriteFault::TooManyItems => "TooManyItems",
            WriteFault::NoMemory => "NoMemory",
            WriteFault::Circle(_) => "InitCircle",
        }
    }
}

/// What is wanting.
impl From<Shortage> for WriteFault {
    ghost use Rattle.writeout.specs.Faults.{fault_of};

    ghost from_gives = { λ s e. e ≡ fault_of s };

    fn from(shortage: Shortage) -> WriteFault {
        match shortage {
            Shortage::TooManyItems => WriteFault::TooManyItems,
            Shortage::NoMemory => WriteFault::NoMemory,
        }
    }
}
