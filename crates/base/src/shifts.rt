//! Shifts and rotations, at any amount.
ghost use Rattle.std.specs.Prelude.{◌≡◌, ◌<◌, ◌^◌};
ghost use Rattle.base.specs.declared.operators.Binary.TheVariants as binary;
ghost use Rattle.base.specs.Operator.{binary_value};

use crate::signed::{signed, wrap, wrap_signed};
use crate::width::Width;

/// A word shifted to the left.
pub(crate) fn sll(w: Width, a: u64, b: u64) -> u64
    requires { a < 2 ^ w }
    ensures { result ≡ binary_value binary.Sll w a b }
{
    if b < w.bits() { wrap(w, a << b) } else { 0 }
}

/// A word shifted to the right.
pub(crate) fn srl(w: Width, a: u64, b: u64) -> u64
    requires { a < 2 ^ w }
    ensures { result ≡ binary_value binary.Srl w a b }
{
    if b < Width::MAX { a >> b } else { 0 }
}

/// A word shifted to the right, its sign moving in.
pub(crate) fn sra(w: Width, a: u64, b: u64) -> u64
    requires { a < 2 ^ w }
    ensures { result ≡ binary_value binary.Sra w a b }
{
    wrap_signed(w.bits(), signed(w, a) >> b.min(63))
}

/// A word rotated to the left.
pub(crate) fn rol(w: Width, a: u64, b: u64) -> u64
    requires { a < 2 ^ w }
    ensures { result ≡ binary_value binary.Rol w a b }
{
    let left = b % w.bits();
    if left == 0 {
        a
    } else {
        wrap(w, a << left) | (a >> (w.bits() - left))
    }
}

/// A word rotated to the right.
pub(crate) fn ror(w: Width, a: u64, b: u64) -> u64
    requires { a < 2 ^ w }
    ensures { result ≡ binary_value binary.Ror w a b }
{
    let right = b % w.bits();
    if right == 0 {
        a
    } else {
        (a >> right) | wrap(w, a << (w.bits() - right))
    }
}
