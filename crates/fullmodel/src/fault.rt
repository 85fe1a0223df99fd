//! Why a model refuses a line.
use btor2::PushFault;

/// Why a model refuses a line. It is unchanged then.
#[derive(Clone, Copy, Debug, PartialEq, Eq)]
pub enum LineFault {
    /// As `btor2` says at each, but for the greatest width, which is 1,048,576; or a growth was refused.
    Push(PushFault),
    /// The index or the element of an array is no word, or the array has more than 1,048,576 bits.
    ArraySort,
    /// The state of an init or a next stands with a minus, or an array does.
    NegativeOperand,
}
