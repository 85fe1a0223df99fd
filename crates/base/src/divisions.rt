//! Divisions, at any divisor.
ghost use Rattle.std.specs.Prelude.{◌≡◌, ◌≢◌, ◌<◌, ◌^◌, pos, ◌-ℤ◌, ◌*ℤ◌};
ghost use Rattle.base.specs.Operator.{udiv, urem, sdiv, srem, smod};
ghost use Rattle.base.specs.Signed.{floored};

use crate::signed::{ones, signed, wrap_signed};
use crate::width::Width;

/// The quotient of words as whole numbers.
pub(crate) fn udiv(w: Width, a: u64, b: u64) -> u64
    ensures { result ≡ udiv w a b }
{
    a.checked_div(b).unwrap_or(ones(w))
}

/// The remainder of words as whole numbers.
pub(crate) fn urem(a: u64, b: u64) -> u64
    ensures { result ≡ urem a b }
{
    a.checked_rem(b).unwrap_or(a)
}

/// The quotient of signed numbers, rounded towards zero.
pub(crate) fn sdiv(w: Width, a: u64, b: u64) -> u64
    requires left { a < 2 ^ w }
    requires right { b < 2 ^ w }
    ensures { result ≡ sdiv w a b }
{
    let dividend = signed(w, a);
    if b != 0 {
        wrap_signed(w.bits(), dividend.wrapping_div(signed(w, b)))
    } else if dividend < 0 {
        1
    } else {
        ones(w)
    }
}

/// The remainder of the quotient of signed numbers that is rounded towards zero.
pub(crate) fn srem(w: Width, a: u64, b: u64) -> u64
    requires left { a < 2 ^ w }
    requires right { b < 2 ^ w }
    ensures { result ≡ srem w a b }
{
    if b == 0 {
        a
    } else {
        wrap_signed(w.bits(), signed(w, a).wrapping_rem(signed(w, b)))
    }
}

/// The remainder of the quotient of signed numbers that is rounded down.
pub(crate) fn smod(w: Width, a: u64, b: u64) -> u64
    requires left { a < 2 ^ w }
    requires right { b < 2 ^ w }
    ensures { result ≡ smod w a b }
{
    if b == 0 {
        a
    } else {
        wrap_signed(w.bits(), floor_rest(signed(w, a), signed(w, b)))
    }
}

/// What is left of `a` by the quotient that is rounded down. The divisor `b` is not 0.
fn floor_rest(a: i64, b: i64) -> i64
    requires { b ≢ pos 0 }
    ensures { result ≡ a -ℤ b *ℤ floored a b }
{
    let rest = a.wrapping_rem(b);
    if rest != 0 && (rest < 0) != (b < 0) {
        rest + b
    } else {
        rest
    }
}
