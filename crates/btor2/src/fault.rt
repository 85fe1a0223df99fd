//! Why a model refuses an item.
ghost use Rattle.std.specs.Prelude.{◌≡◌};
ghost use Rattle.btor2.specs.Faults.{push_fault_number, push_fault_name};

use std::fmt;
use thiserror::Error;

/// Why a model refuses an item. It is unchanged then.
#[derive(Clone, Copy, Debug, PartialEq, Eq, Error)]
pub enum PushFault {
    /// The model has 1,048,576 items already.
    TooManyItems,
    /// The id is not 1 to 4,294,967,295.
    IdOutOfRange,
    /// An earlier item has the id.
    IdTaken,
    /// The sort is no earlier sort.
    NoSuchSort,
    /// An operand is no earlier node with a value.
    NoSuchNode,
    /// The first operand of an init or a next is no state.
    NotAState,
    /// A sort's width is not 1 to 64.
    WidthOutOfRange,
    /// The bits of a slice are not those of its operand: not `l <= u < width`.
    SliceOutOfRange,
    /// The widths are not those of the item's form.
    SortMismatch,
    /// A constant does not fit its sort: not as many binary digits as the width, a decimal that is not from
    /// -2^(width - 1) to 2^width - 1, not 1 to 16 hexadecimal digits, or a value too great.
    ConstantDoesNotFit,
    /// The value of an init is no constant node.
    InitNotConstant,
    /// The state has an init already.
    SecondInit,
    /// The state has a next already.
    SecondNext,
    /// A justice line has no operands.
    JusticeEmpty,
    /// A growth was refused.
    NoMemory,
}

impl PushFault {
    /// The number that is printed for the fault.
    pub fn number(self) -> u32
        ensures { result ≡ push_fault_number self }
    {
        match self {
            PushFault::IdTaken => 1,
            PushFault::IdOutOfRange => 2,
            PushFault::NoSuchSort => 3,
            PushFault::NoSuchNode => 4,
            PushFault::WidthOutOfRange => 5,
            PushFault::SortMismatch => 6,
            PushFault::SliceOutOfRange => 7,
            PushFault::NotAState => 8,
            PushFault::SecondInit => 9,
            PushFault::SecondNext => 10,
            PushFault::InitNotConstant => 11,
            PushFault::TooManyItems => 12,
            PushFault::JusticeEmpty => 13,
            PushFault::NoMemory => 14,
            PushFault::ConstantDoesNotFit => 15,
        }
    }

    /// The name that is printed for the fault.
    pub fn name(self) -> &'static str
        ensures { result.now ≡ push_fault_name self }
    {
        match self {
            PushFault::IdTaken => "IdTaken",
            PushFault::IdOutOfRange => "IdOutOfRange",
            PushFault::NoSuchSort => "NoSuchSort",
            PushFault::NoSuchNode => "NoSuchNode",
            PushFault::WidthOutOfRange => "WidthOutOfRange",
            PushFault::SortMismatch => "SortMismatch",
            PushFault::SliceOutOfRange => "SliceOutOfRange",
            PushFault::NotAState => "NotAState",
            PushFault::SecondInit => "SecondInit",
            PushFault::SecondNext => "SecondNext",
            PushFault::InitNotConstant => "InitNotConstant",
            PushFault::TooManyItems => "TooManyItems",
            PushFault::JusticeEmpty => "JusticeEmpty",
            PushFault::NoMemory => "NoMemory",
            PushFault::ConstantDoesNotFit => "ConstantDoesNotFit",
        }
    }
}

impl fmt::Display for PushFault {
    fn fmt<W: fmt::Write>(&self, f: &mut fmt::Formatter<W>) -> fmt::Result {
        write!(f, "{} {}", self.number(), self.name())
    }
}
