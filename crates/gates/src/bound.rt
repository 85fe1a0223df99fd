//! How many gates an operator takes at most.
ghost use Rattle.std.specs.Prelude.{◌≡◌, ◌≤◌};
ghost use Rattle.gates.specs.Bound.{log_up, unary_bound, binary_bound, operator_bound};

use base::{Binary, Unary};

/// A word operator.
#[derive(Clone, Copy, Debug, PartialEq, Eq)]
pub enum Op {
    /// Of one operand.
    Unary(Unary),
    /// Of two operands.
    Binary(Binary),
    /// A choice between two words.
    Ite,
}

/// The least k with 2^k at least `width`.
pub(crate) fn log_up(width: u64) -> u64
    requires { width ≤ 64 }
    ensures value { result ≡ log_up width }
    ensures most { result ≤ 6 }
{
    u64::from(1 < width)
        + u64::from(2 < width)
        + u64::from(4 < width)
        + u64::from(8 < width)
        + u64::from(16 < width)
        + u64::from(32 < width)
}

/// How many AND gates an operator of one operand takes at most.
fn unary_bound(op: Unary, width: u64) -> u64
    requires { width ≤ 64 }
    ensures { result ≡ unary_bound op width }
{
    match op {
        Unary::Not => 0,
        Unary::Inc | Unary::Dec | Unary::Neg => 9 * width,
        Unary::Redand | Unary::Redor => width,
        Unary::Redxor => 3 * width,
    }
}

/// How many AND gates an operator of two operands takes at most.
fn binary_bound(op: Binary, width: u64) -> u64
    requires { width ≤ 64 }
    ensures { result ≡ binary_bound op width }
{
    let square = width * width;
    match op {
        Binary::Iff => 3,
        Binary::Implies => 1,
        Binary::Eq | Binary::Neq => 4 * width,
        Binary::Ugt
        | Binary::Ugte
        | Binary::Ult
        | Binary::Ulte
        | Binary::Sgt
        | Binary::Sgte
        | Binary::Slt
        | Binary::Slte => 6 * width,
        Binary::And | Binary::Nand | Binary::Or | Binary::Nor => width,
        Binary::Xor | Binary::Xnor | Binary::Sdivo => 3 * width,
        Binary::Rol | Binary::Ror => 3 * square,
        Binary::Sll | Binary::Srl | Binary::Sra => 3 * (width * log_up(width)) + 4 * width,
        Binary::Add | Binary::Sub | Binary::Uaddo | Binary::Usubo => 9 * width,
        Binary::Saddo | Binary::Ssubo => 12 * width,
        Binary::Mul => 10 * square,
        Binary::Udiv | Binary::Urem => 12 * square + 12 * width,
        Binary::Sdiv => 12 * square + 51 * width,
        Binary::Srem => 12 * square + 48 * width,
        Binary::Smod => 12 * square + 63 * width,
        Binary::Umulo => 40 * square + width,
        Binary::Smulo => 40 * square + 4 * width,
    }
}

/// How many AND gates an operator takes at most, for operands of `width` bits (for a choice, of its two words).
///
/// Condition: `width` is 1 to 64.
pub fn gate_bound(op: Op, width: u64) -> u64
    requires some { 1 ≤ width }
    requires most { width ≤ 64 }
    ensures { result ≡ operator_bound op width }
{
    match op {
        Op::Unary(op) => unary_bound(op, width),
        Op::Binary(op) => binary_bound(op, width),
        Op::Ite => 3 * width,
    }
}
