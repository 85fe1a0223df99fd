//! Whether the result of an operation in whole numbers is one of the width.
ghost use Rattle.std.specs.Prelude.{◌≡◌, ◌<◌, ◌^◌};
ghost use Rattle.base.specs.declared.operators.Binary.TheVariants as binary;
ghost use Rattle.base.specs.Operator.{binary_value};
ghost use Rattle.base.specs.Signed.{overflows};

use crate::signed::{ones, sign_bit, signed};
use crate::width::Width;

/// Whether no word of width `w` stands for a whole number when its highest bit is a sign.
fn is_outside(w: Width, z: i128) -> bool
    ensures { result ≡ overflows w z }
{
    let half = i128::from(sign_bit(w));
    z < -half || half <= z
}

/// Whether the sum of words as whole numbers is no word.
pub(crate) fn uaddo(w: Width, a: u64, b: u64) -> u64
    requires { a < 2 ^ w }
    ensures { result ≡ binary_value binary.Uaddo w a b }
{
    u64::from(b > ones(w) - a)
}

/// Whether the sum of signed numbers is none of the width.
pub(crate) fn saddo(w: Width, a: u64, b: u64) -> u64
    requires left { a < 2 ^ w }
    requires right { b < 2 ^ w }
    ensures { result ≡ binary_value binary.Saddo w a b }
{
    let sum = i128::from(signed(w, a)) + i128::from(signed(w, b));
    u64::from(is_outside(w, sum))
}

/// Whether the difference of signed numbers is none of the width.
pub(crate) fn ssubo(w: Width, a: u64, b: u64) -> u64
    requires left { a < 2 ^ w }
    requires right { b < 2 ^ w }
    ensures { result ≡ binary_value binary.Ssubo w a b }
{
    let difference = i128::from(signed(w, a)) - i128::from(signed(w, b));
    u64::from(is_outside(w, difference))
}

/// Whether the product of words as whole numbers is no word.
pub(crate) fn umulo(w: Width, a: u64, b: u64) -> u64
    ensures { result ≡ binary_value binary.Umulo w a b }
{
    u64::from(u128::from(a) * u128::from(b) > u128::from(ones(w)))
}

/// Whether the product of signed numbers is none of the width.
pub(crate) fn smulo(w: Width, a: u64, b: u64) -> u64
    requires left { a < 2 ^ w }
    requires right { b < 2 ^ w }
    ensures { result ≡ binary_value binary.Smulo w a b }
{
    let product = i128::from(signed(w, a)) * i128::from(signed(w, b));
    u64::from(is_outside(w, product))
}

/// Whether the quotient of signed numbers is none of the width: the least number by -1.
pub(crate) fn sdivo(w: Width, a: u64, b: u64) -> u64
    ensures { result ≡ binary_value binary.Sdivo w a b }
{
    u64::from(a == sign_bit(w) && b == ones(w))
}
