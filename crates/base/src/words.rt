//! What the operators give for words.
ghost use Rattle.std.specs.Prelude.{◌≡◌, ◌+◌, ◌<◌, ◌≤◌, ◌^◌};
ghost use Rattle.base.specs.Operator.{unary_value, binary_value, ite_value, slice_value, uext_value, sext_value, concat_value};
ghost use Rattle.base.specs.Steps.{one_more};

use crate::divisions::{sdiv, smod, srem, udiv, urem};
use crate::operators::{Binary, Unary};
use crate::overflows::{saddo, sdivo, smulo, ssubo, uaddo, umulo};
use crate::shifts::{rol, ror, sll, sra, srl};
use crate::signed::{low_bits, ones, signed, wrap, wrap_signed};
use crate::tally::{Tally, take};
use crate::width::Width;

/// The word that an operator gives for an operand of width `w`. One step.
///
/// Condition: `a` is below 2 to the `w`.
pub fn unary(op: Unary, w: Width, a: u64, tally: &mut Tally) -> u64
    requires { a < 2 ^ w }
    ensures value { result ≡ unary_value op w a }
    ensures step { tally.new ≡ one_more tally.old }
{
    tally.step();
    match op {
        Unary::Not => ones(w) - a,
        Unary::Inc => wrap(w, a.wrapping_add(1)),
        Unary::Dec => wrap(w, a.wrapping_sub(1)),
        Unary::Neg => wrap(w, a.wrapping_neg()),
        Unary::Redand => u64::from(a == ones(w)),
        Unary::Redor => u64::from(a != 0),
        Unary::Redxor => u64::from(a.count_ones() % 2),
    }
}

/// The word that an operator gives for two operands of width `w`. One step.
///
/// Conditions: `a` and `b` are below 2 to the `w`. (`Iff` and `Implies` are of single bits in a model; here they
/// compare words of any width.)
#[inline(always)]
pub fn binary(op: Binary, w: Width, a: u64, b: u64, tally: &mut Tally) -> u64
    requires left { a < 2 ^ w }
    requires right { b < 2 ^ w }
    ensures value { result ≡ binary_value op w a b }
    ensures step { tally.new ≡ one_more tally.old }
{
    tally.step();
    match op {
        Binary::Iff | Binary::Eq => u64::from(a == b),
        Binary::Implies => u64::from(a == 0 || b == 1),
        Binary::Neq => u64::from(a != b),
        Binary::Ugt => u64::from(a > b),
        Binary::Ugte => u64::from(a >= b),
        Binary::Ult => u64::from(a < b),
        Binary::Ulte => u64::from(a <= b),
        Binary::Sgt => u64::from(signed(w, a) > signed(w, b)),
        Binary::Sgte => u64::from(signed(w, a) >= signed(w, b)),
        Binary::Slt => u64::from(signed(w, a) < signed(w, b)),
        Binary::Slte => u64::from(signed(w, a) <= signed(w, b)),
        Binary::And => a & b,
        Binary::Nand => ones(w) - (a & b),
        Binary::Or => a | b,
        Binary::Nor => ones(w) - (a | b),
        Binary::Xor => a ^ b,
        Binary::Xnor => ones(w) - (a ^ b),
        Binary::Rol => rol(w, a, b),
        Binary::Ror => ror(w, a, b),
        Binary::Sll => sll(w, a, b),
        Binary::Srl => srl(w, a, b),
        Binary::Sra => sra(w, a, b),
        Binary::Add => wrap(w, a.wrapping_add(b)),
        Binary::Sub => wrap(w, a.wrapping_sub(b)),
        Binary::Mul => wrap(w, a.wrapping_mul(b)),
        Binary::Udiv => udiv(w, a, b),
        Binary::Sdiv => sdiv(w, a, b),
        Binary::Urem => urem(a, b),
        Binary::Srem => srem(w, a, b),
        Binary::Smod => smod(w, a, b),
        Binary::Uaddo => uaddo(w, a, b),
        Binary::Saddo => saddo(w, a, b),
        Binary::Usubo => u64::from(a < b),
        Binary::Ssubo => ssubo(w, a, b),
        Binary::Umulo => umulo(w, a, b),
        Binary::Smulo => smulo(w, a, b),
        Binary::Sdivo => sdivo(w, a, b),
    }
}

/// `t` where `c` is 1, else `e`. One step.
///
/// Conditions: `c` is 0 or 1, `t` and `e` are below 2 to the `w`.
pub fn ite(w: Width, c: u64, t: u64, e: u64, tally: &mut Tally) -> u64
    requires condition { c < 2 }
    requires first { t < 2 ^ w }
    requires second { e < 2 ^ w }
    ensures value { result ≡ ite_value c t e }
    ensures step { tally.new ≡ one_more tally.old }
{
    tally.step();
    if c == 1 { t } else { e }
}

/// The bits `u` down to `l` of a word of width `w`, both included. One step.
///
/// Conditions: `a` is below 2 to the `w`, and `l <= u < w`.
pub fn slice(w: Width, a: u64, u: u64, l: u64, tally: &mut Tally) -> u64
    requires operand { a < 2 ^ w }
    requires order { l ≤ u }
    requires inside { u < w }
    ensures value { result ≡ slice_value a u l }
    ensures step { tally.new ≡ one_more tally.old }
{
    tally.step();
    low_bits(a >> l, u - l + 1)
}

/// A word of width `w` made wider by `by` bits, which are 0. One step.
///
/// Conditions: `a` is below 2 to the `w`, and `w` and `by` sum to at most 64.
pub fn uext(w: Width, a: u64, by: u64, tally: &mut Tally) -> u64
    requires operand { a < 2 ^ w }
    requires most { w + by ≤ 64 }
    ensures value { result ≡ uext_value a }
    ensures step { tally.new ≡ one_more tally.old }
{
    take(a, tally)
}

/// A word of width `w`, as a signed number, made wider by `by` bits. One step.
///
/// Conditions: `a` is below 2 to the `w`, and `w` and `by` sum to at most 64.
pub fn sext(w: Width, a: u64, by: u64, tally: &mut Tally) -> u64
    requires operand { a < 2 ^ w }
    requires most { w + by ≤ 64 }
    ensures value { result ≡ sext_value w a by }
    ensures step { tally.new ≡ one_more tally.old }
{
    tally.step();
    wrap_signed(w.bits() + by, signed(w, a))
}

/// A word of width `wa` before one of width `wb`: `a` is the high side. One step.
///
/// Conditions: `a` is below 2 to the `wa`, `b` below 2 to the `wb`, and the widths sum to at most 64.
pub fn concat(wa: Width, a: u64, wb: Width, b: u64, tally: &mut Tally) -> u64
    requires high { a < 2 ^ wa }
    requires low { b < 2 ^ wb }
    requires most { wa + wb ≤ 64 }
    ensures value { result ≡ concat_value a wb b }
    ensures step { tally.new ≡ one_more tally.old }
{
    tally.step();
    (a << wb.bits()) | b
}
