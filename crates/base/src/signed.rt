//! Words of a width as machine numbers: cut to the width, or read as signed numbers.
ghost use Rattle.std.specs.Prelude.{◌≡◌, ◌<◌, ◌≤◌, ◌-◌, ◌^◌, ◌%◌};
ghost use Rattle.base.specs.Signed.{signed, wrapped};

use crate::width::Width;

/// The word of width `w` of all ones, which is the greatest.
pub fn ones(w: Width) -> u64
    ensures { result ≡ 2 ^ w - 1 }
{
    u64::MAX >> (Width::MAX - w.bits())
}

/// The `k` lowest bits of a number, `k` from 1 to 64.
pub(crate) fn low_bits(x: u64, k: u64) -> u64
    requires least { 1 ≤ k }
    requires most { k ≤ 64 }
    ensures { result ≡ x % 2 ^ k }
{
    x & (u64::MAX >> (Width::MAX - k))
}

/// The word of width `w` that a number stands for: its lowest bits.
pub(crate) fn wrap(w: Width, x: u64) -> u64
    ensures { result ≡ x % 2 ^ w }
{
    low_bits(x, w.bits())
}

/// The word of `k` bits that a signed number stands for, `k` from 1 to 64.
pub(crate) fn wrap_signed(k: u64, z: i64) -> u64
    requires least { 1 ≤ k }
    requires most { k ≤ 64 }
    ensures { result ≡ wrapped k z }
{
    low_bits(z.cast_unsigned(), k)
}

/// The word whose highest bit alone is 1.
pub(crate) fn sign_bit(w: Width) -> u64
    ensures { result ≡ 2 ^ (w - 1) }
{
    1 << (w.bits() - 1)
}

/// A word as a signed number: its highest bit is moved to the place of the sign, and back.
pub(crate) fn signed(w: Width, x: u64) -> i64
    requires { x < 2 ^ w }
    ensures { result ≡ signed w x }
{
    let above = Width::MAX - w.bits();
    (x << above).cast_signed() >> above
}
