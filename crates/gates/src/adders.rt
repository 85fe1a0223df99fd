//! Sums of words, a column of bits at a time, and the operators that are sums.
ghost use Rattle.std.specs.Prelude.{◌≡◌, ◌+◌, ◌*◌, ◌%◌, ◌^◌, ◌≤◌, length, map, take, All, IfOk, IfErr};
ghost use Rattle.base.specs.Operator.{unary_value, binary_value};
ghost use Rattle.aiger.specs.Net.{IsDefined};
ghost use Rattle.base.specs.Literal.{negation};
ghost use Rattle.gates.specs.Operands.{AreOperands};
ghost use Rattle.gates.specs.Made.{MakesWord, RefusesGate, word_value};
ghost use Rattle.gates.specs.Sums.{literal_number, MakesColumn, MakesSum};

use crate::bit_lists::{negation, repeated};
use crate::fault::GateFault;
use crate::literals::{disjunction, xor};
use crate::maker::{Bits, Gates};
use aiger::Lit;
use base::{Binary, Unary};

/// The sum of two words and a carry.
#[derive(Drop)]
pub struct Added {
    /// The sum modulo 2 to the width.
    pub sum: Bits,
    /// The carry into the highest bit.
    pub into_top: Lit,
    /// The carry out of the highest bit.
    pub out: Lit,
}

/// The bits that add up in one column: the low bit and the high bit of their number.
#[derive(Clone, Copy)]
struct Column {
    sum: Lit,
    carry: Lit,
}

/// The sum of two bits: their exclusive or, which shares their and.
fn half_adder<G: Gates>(g: &mut G, a: Lit, b: Lit) -> Result<Column, GateFault>
    requires left { IsDefined (G.made g.old) a }
    requires right { IsDefined (G.made g.old) b }
    ensures ok { IfOk result (λ c. MakesColumn (G.made g.old) (G.made g.new) 3
        (λ v. literal_number v a + literal_number v b) c.sum c.carry) }
    ensures refused { IfErr result (RefusesGate (G.made g.old) (G.made g.new) 3) }
{
    let both = g.and(a, b)?;
    let neither = g.and(a.not(), b.not())?;
    let sum = g.and(both.not(), neither.not())?;
    Ok(Column { sum, carry: both })
}

/// The sum of two bits and one, which takes no gate but those of the sum of the two bits where a maker makes none twice.
fn adder_with_one<G: Gates>(g: &mut G, a: Lit, b: Lit) -> Result<Column, GateFault>
    requires left { IsDefined (G.made g.old) a }
    requires right { IsDefined (G.made g.old) b }
    ensures ok { IfOk result (λ c. MakesColumn (G.made g.old) (G.made g.new) 4
        (λ v. literal_number v a + literal_number v b + 1) c.sum c.carry) }
    ensures refused { IfErr result (RefusesGate (G.made g.old) (G.made g.new) 4) }
{
    let two = half_adder(g, a, b)?;
    let carry = disjunction(g, a, b)?;
    Ok(Column {
        sum: two.sum.not(),
        carry,
    })
}

/// The sum of three bits.
fn full_adder<G: Gates>(g: &mut G, a: Lit, b: Lit, c: Lit) -> Result<Column, GateFault>
    requires left { IsDefined (G.made g.old) a }
    requires right { IsDefined (G.made g.old) b }
    requires carry { IsDefined (G.made g.old) c }
    ensures ok { IfOk result (λ column. MakesColumn (G.made g.old) (G.made g.new) 7
        (λ v. literal_number v a + literal_number v b + literal_number v c) column.sum
        column.carry) }
    ensures refused { IfErr result (RefusesGate (G.made g.old) (G.made g.new) 7) }
{
    if c == Lit::TRUE {
        return adder_with_one(g, a, b);
    }
    let first = half_adder(g, a, b)?;
    let second = half_adder(g, first.sum, c)?;
    let carry = disjunction(g, first.carry, second.carry)?;
    Ok(Column {
        sum: second.sum,
        carry,
    })
}

/// The sum of so many of the lowest columns of two words and of a carry.
fn columns<G: Gates>(
    g: &mut G,
    a: &[Lit],
    b: &[Lit],
    carry: Lit,
    count: usize,
) -> Result<Added, GateFault>
    requires operands { AreOperands (G.made g.old) 128 a.now b.now }
    requires carry { IsDefined (G.made g.old) carry }
    requires inside { count ≤ length a.now }
    ensures ok { IfOk result (λ added. MakesSum (G.made g.old) (G.made g.new) (7 * count)
        (take count a.now) (take count b.now) carry added.sum.items added.into_top added.out) }
    ensures refused { IfErr result (RefusesGate (G.made g.old) (G.made g.new) (7 * count)) }
{
    let mut sum = Bits::new();
    let mut into_top = carry;
    let mut out = carry;
    for i in 0..count {
        into_top = out;
        let column = full_adder(g, a[i], b[i], out)?;
        sum.push(column.sum);
        out = column.carry;
    }
    Ok(Added { sum, into_top, out })
}

/// The sum of two words and a carry, with the carries into and out of its highest bit.
///
/// Conditions: operands of equal length from 1 to 128, all literals defined. Errors: `TooBig` only where the
/// variables so far and 9 times the length sum to more than 2^30, `NoMemory`; the gates made so far stay.
pub fn add<G: Gates>(g: &mut G, a: &[Lit], b: &[Lit], carry: Lit) -> Result<Added, GateFault>
    requires operands { AreOperands (G.made g.old) 128 a.now b.now }
    requires carry { IsDefined (G.made g.old) carry }
    ensures ok { IfOk result (λ added. MakesSum (G.made g.old) (G.made g.new)
        (9 * length a.now) a.now b.now carry added.sum.items added.into_top added.out) }
    ensures refused { IfErr result (RefusesGate (G.made g.old) (G.made g.new) (9 * length a.now)) }
{
    columns(g, a, b, carry, a.len())
}

/// The bits of the sum of two words and a carry. There is no carry out of the highest column.
pub(crate) fn sum_bits<G: Gates>(
    g: &mut G,
    a: &[Lit],
    b: &[Lit],
    carry: Lit,
) -> Result<Bits, GateFault>
    requires operands { AreOperands (G.made g.old) 128 a.now b.now }
    requires carry { IsDefined (G.made g.old) carry }
    ensures ok { IfOk result (λ bits. let n = length a.now in MakesWord (G.made g.old)
        (G.made g.new) (9 * n) n
        (λ v. (word_value v a.now + word_value v b.now + literal_number v carry) % 2 ^ n)
        bits.items) }
    ensures refused { IfErr result (RefusesGate (G.made g.old) (G.made g.new) (9 * length a.now)) }
{
    let top = a.len() - 1;
    let low = columns(g, a, b, carry, top)?;
    let differ = xor(g, a[top], b[top])?;
    let last = xor(g, differ, low.out)?;
    let mut sum = low.sum;
    sum.push(last);
    Ok(sum)
}

/// The difference of two words as a sum: the second word negated, and one more. The carries are those of the sum.
pub(crate) fn difference<G: Gates>(g: &mut G, a: &[Lit], b: &[Lit]) -> Result<Added, GateFault>
    requires { AreOperands (G.made g.old) 128 a.now b.now }
    ensures ok { IfOk result (λ added. MakesSum (G.made g.old) (G.made g.new)
        (9 * length a.now) a.now (map negation b.now) 1 added.sum.items added.into_top added.out) }
    ensures refused { IfErr result (RefusesGate (G.made g.old) (G.made g.new) (9 * length a.now)) }
{
    add(g, a, negation(b).as_slice(), Lit::TRUE)
}

/// The bits of the sum of two words.
pub(crate) fn add_bits<G: Gates>(g: &mut G, a: &[Lit], b: &[Lit]) -> Result<Bits, GateFault>
    requires { AreOperands (G.made g.old) 64 a.now b.now }
    ensures ok { IfOk result (λ bits. let n = length a.now in MakesWord (G.made g.old)
        (G.made g.new) (9 * n) n (λ v. binary_value Binary.Add n (word_value v a.now)
        (word_value v b.now)) bits.items) }
    ensures refused { IfErr result (RefusesGate (G.made g.old) (G.made g.new) (9 * length a.now)) }
{
    sum_bits(g, a, b, Lit::FALSE)
}

/// The bits of the difference of two words.
pub(crate) fn sub_bits<G: Gates>(g: &mut G, a: &[Lit], b: &[Lit]) -> Result<Bits, GateFault>
    requires { AreOperands (G.made g.old) 64 a.now b.now }
    ensures ok { IfOk result (λ bits. let n = length a.now in MakesWord (G.made g.old)
        (G.made g.new) (9 * n) n (λ v. binary_value Binary.Sub n (word_value v a.now)
        (word_value v b.now)) bits.items) }
    ensures refused { IfErr result (RefusesGate (G.made g.old) (G.made g.new) (9 * length a.now)) }
{
    sum_bits(g, a, negation(b).as_slice(), Lit::TRUE)
}

/// The bits of the word of a word's negated number: none less the word.
pub(crate) fn neg_bits<G: Gates>(g: &mut G, a: &[Lit]) -> Result<Bits, GateFault>
    requires some { 1 ≤ length a.now }
    requires most { length a.now ≤ 64 }
    requires defined { All (IsDefined (G.made g.old)) a.now }
    ensures ok { IfOk result (λ bits. let n = length a.now in MakesWord (G.made g.old)
        (G.made g.new) (9 * n) n (λ v. unary_value Unary.Neg n (word_value v a.now)) bits.items) }
    ensures refused { IfErr result (RefusesGate (G.made g.old) (G.made g.new) (9 * length a.now)) }
{
    let sum = difference(g, repeated(Lit::FALSE, a.len()).as_slice(), a)?;
    Ok(sum.sum)
}

/// The bits of a word and one more.
pub(crate) fn inc_bits<G: Gates>(g: &mut G, a: &[Lit]) -> Result<Bits, GateFault>
    requires some { 1 ≤ length a.now }
    requires most { length a.now ≤ 64 }
    requires defined { All (IsDefined (G.made g.old)) a.now }
    ensures ok { IfOk result (λ bits. let n = length a.now in MakesWord (G.made g.old)
        (G.made g.new) (9 * n) n (λ v. unary_value Unary.Inc n (word_value v a.now)) bits.items) }
    ensures refused { IfErr result (RefusesGate (G.made g.old) (G.made g.new) (9 * length a.now)) }
{
    let sum = add(g, a, repeated(Lit::FALSE, a.len()).as_slice(), Lit::TRUE)?;
    Ok(sum.sum)
}

/// The bits of a word and one less, which is the negation of one more than its negation.
pub(crate) fn dec_bits<G: Gates>(g: &mut G, a: &[Lit]) -> Result<Bits, GateFault>
    requires some { 1 ≤ length a.now }
    requires most { length a.now ≤ 64 }
    requires defined { All (IsDefined (G.made g.old)) a.now }
    ensures ok { IfOk result (λ bits. let n = length a.now in MakesWord (G.made g.old)
        (G.made g.new) (9 * n) n (λ v. unary_value Unary.Dec n (word_value v a.now)) bits.items) }
    ensures refused { IfErr result (RefusesGate (G.made g.old) (G.made g.new) (9 * length a.now)) }
{
    let negated = inc_bits(g, negation(a).as_slice())?;
    Ok(negation(negated.as_slice()))
}
