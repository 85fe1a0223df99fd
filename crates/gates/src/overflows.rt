//! Whether the result of an operation in whole numbers is one of the width.
ghost use Rattle.std.specs.Prelude.{◌≡◌, ◌+◌, ◌*◌, ◌%◌, ◌^◌, ◌≤◌, true, nat_le, pos, neg_ℤ, unsigned_abs, ◌+ℤ◌, [], ◌∷◌, length, take, All, IfOk, IfErr, if◌then◌else◌};
ghost use Rattle.base.specs.Operator.{binary_value};
ghost use Rattle.base.specs.Signed.{signed, overflows};
ghost use Rattle.base.specs.Widths.{binary_width};
ghost use Rattle.base.specs.Literal.{literal_value};
ghost use Rattle.aiger.specs.Net.{IsDefined};
ghost use Rattle.gates.specs.Bound.{binary_bound};
ghost use Rattle.gates.specs.Operands.{AreOperands};
ghost use Rattle.gates.specs.Made.{MakesLiteral, MakesWord, RefusesGate, word_value};
ghost use Rattle.gates.specs.Sums.{literal_number};
ghost use Rattle.gates.specs.Tests.{is_overflow};

use crate::bit_lists::{negation, one_bit};
use crate::bitwise::{Connective, connect_bits};
use crate::comparisons::{less, less_column, top_negated};
use crate::fault::GateFault;
use crate::literals::{disjunction, xor};
use crate::maker::{Bits, Gates};
use crate::multiplication::{Product, whole_product};
use crate::sizes::size;
use aiger::Lit;
use base::Binary;

/// A literal that is true where the result of an operation in whole numbers, signed or not as its name says, is none
/// of the width.
///
/// Conditions: the operator is one of the overflow tests `Uaddo`, `Saddo`, `Usubo`, `Ssubo`, `Umulo`, `Smulo` and
/// `Sdivo`; operands of equal length from 1 to 64, all literals defined. Errors: `TooBig` only where the variables so far
/// and the operator's bound sum to more than 2^30, `NoMemory`; the gates made so far stay.
pub fn overflow<G: Gates>(g: &mut G, op: Binary, a: &[Lit], b: &[Lit]) -> Result<Lit, GateFault>
    requires overflow { is_overflow op ≡ true }
    requires operands { AreOperands (G.made g.old) 64 a.now b.now }
    ensures ok { IfOk result (λ l. let n = length a.now in MakesWord (G.made g.old) (G.made g.new)
        (binary_bound op n) 1 (λ v. binary_value op n (word_value v a.now) (word_value v b.now))
        (l ∷ [])) }
    ensures refused { IfErr result (RefusesGate (G.made g.old) (G.made g.new)
        (binary_bound op (length a.now))) }
{
    match op {
        // the second word is above what the first leaves up to the greatest
        Binary::Uaddo => less(g, negation(a).as_slice(), b),
        Binary::Saddo => sum_overflow(g, a, b, Lit::FALSE),
        Binary::Usubo => less(g, a, b),
        // as a sum: the second word negated, and one more
        Binary::Ssubo => sum_overflow(g, a, negation(b).as_slice(), Lit::TRUE),
        Binary::Umulo => Ok(whole_product(g, a, b)?.lost),
        Binary::Smulo => smulo(g, a, b),
        Binary::Sdivo => sdivo(g, a, b),
        _ => unreachable!(),
    }
}

/// The bit of an overflow test.
pub(crate) fn overflow_bit<G: Gates>(
    g: &mut G,
    op: Binary,
    a: &[Lit],
    b: &[Lit],
) -> Result<Bits, GateFault>
    requires overflow { is_overflow op ≡ true }
    requires operands { AreOperands (G.made g.old) 64 a.now b.now }
    ensures ok { IfOk result (λ bits. let n = length a.now in MakesWord (G.made g.old)
        (G.made g.new) (binary_bound op n) (binary_width op n)
        (λ v. binary_value op n (word_value v a.now) (word_value v b.now)) bits.items) }
    ensures refused { IfErr result (RefusesGate (G.made g.old) (G.made g.new)
        (binary_bound op (length a.now))) }
{
    let lit = overflow(g, op, a, b)?;
    Ok(one_bit(lit))
}

/// Whether so many of the lowest columns of two words and a carry sum to more than the columns hold. It takes no gate
/// for the sum's bits.
fn carry_out<G: Gates>(
    g: &mut G,
    a: &[Lit],
    b: &[Lit],
    carry: Lit,
    count: usize,
) -> Result<Lit, GateFault>
    requires operands { AreOperands (G.made g.old) 64 a.now b.now }
    requires carry { IsDefined (G.made g.old) carry }
    requires inside { count ≤ length a.now }
    ensures ok { IfOk result (MakesLiteral (G.made g.old) (G.made g.new) (4 * count)
        (λ v. nat_le (2 ^ count) (word_value v (take count a.now) + word_value v
        (take count b.now) + literal_number v carry))) }
    ensures refused { IfErr result (RefusesGate (G.made g.old) (G.made g.new) (4 * count)) }
{
    let mut out = carry;
    for i in 0..count {
        out = less_column(g, a[i].not(), b[i], out)?;
    }
    Ok(out)
}

/// Whether the sum of signed numbers and a carry is none of the width: the carries into and out of its highest bit differ.
fn sum_overflow<G: Gates>(g: &mut G, a: &[Lit], b: &[Lit], carry: Lit) -> Result<Lit, GateFault>
    requires operands { AreOperands (G.made g.old) 64 a.now b.now }
    requires carry { IsDefined (G.made g.old) carry }
    ensures ok { IfOk result (let n = length a.now in MakesLiteral (G.made g.old) (G.made g.new)
        (12 * n) (λ v. overflows n (signed n (word_value v a.now) +ℤ signed n
        (word_value v b.now) +ℤ pos (literal_number v carry)))) }
    ensures refused { IfErr result (RefusesGate (G.made g.old) (G.made g.new) (12 * length a.now)) }
{
    let into_top = carry_out(g, a, b, carry, a.len() - 1)?;
    let out = carry_out(g, a, b, carry, a.len())?;
    xor(g, into_top, out)
}

/// Whether the quotient of signed numbers is none of the width: the least number, whose highest bit alone is 1, by the
/// word of all ones, which is -1.
fn sdivo<G: Gates>(g: &mut G, a: &[Lit], b: &[Lit]) -> Result<Lit, GateFault>
    requires { AreOperands (G.made g.old) 64 a.now b.now }
    ensures ok { IfOk result (λ l. let n = length a.now in MakesWord (G.made g.old) (G.made g.new)
        (3 * n) 1 (λ v. binary_value Binary.Sdivo n (word_value v a.now) (word_value v b.now))
        (l ∷ [])) }
    ensures refused { IfErr result (RefusesGate (G.made g.old) (G.made g.new) (3 * length a.now)) }
{
    let as_least = top_negated(negation(a).as_slice());
    let is_least = connect_bits(g, Connective::And, as_least.as_slice())?;
    let is_minus_one = connect_bits(g, Connective::And, b)?;
    g.and(is_least, is_minus_one)
}

/// The product of the sizes of two signed numbers, and whether it is no word of the width.
fn size_product<G: Gates>(g: &mut G, a: &[Lit], b: &[Lit]) -> Result<Product, GateFault>
    requires { AreOperands (G.made g.old) 64 a.now b.now }
    ensures bits { IfOk result (λ product. let n = length a.now in MakesWord (G.made g.old)
        (G.made g.new) (12 * (n * n) + 24 * n) n
        (λ v. unsigned_abs (signed n (word_value v a.now)) * unsigned_abs
        (signed n (word_value v b.now)) % 2 ^ n) product.bits.items) }
    ensures lost { IfOk result (λ product. let n = length a.now in MakesLiteral (G.made g.old)
        (G.made g.new) (12 * (n * n) + 24 * n)
        (λ v. nat_le (2 ^ n) (unsigned_abs (signed n (word_value v a.now)) * unsigned_abs
        (signed n (word_value v b.now)))) product.lost) }
    ensures refused { IfErr result (let n = length a.now in RefusesGate (G.made g.old)
        (G.made g.new) (12 * (n * n) + 24 * n)) }
{
    let first = size(g, a)?;
    let second = size(g, b)?;
    whole_product(g, first.as_slice(), second.as_slice())
}

/// Whether the number of a sign and a size is none of the width: the size has its highest bit, and is not that of the
/// least number or the sign is not.
fn size_overflow<G: Gates>(g: &mut G, negative: Lit, size: &[Lit]) -> Result<Lit, GateFault>
    requires some { 1 ≤ length size.now }
    requires most { length size.now ≤ 64 }
    requires literal { IsDefined (G.made g.old) negative }
    requires defined { All (IsDefined (G.made g.old)) size.now }
    ensures ok { IfOk result (let n = length size.now in MakesLiteral (G.made g.old) (G.made g.new)
        (n + 1) (λ v. overflows n (if literal_value v negative then neg_ℤ
        (pos (word_value v size.now)) else pos (word_value v size.now)))) }
    ensures refused { IfErr result (RefusesGate (G.made g.old) (G.made g.new)
        (length size.now + 1)) }
{
    let top = size.len() - 1;
    let below = connect_bits(g, Connective::Or, &size[..top])?;
    let other = disjunction(g, below, negative.not())?;
    g.and(size[top], other)
}

/// Whether the product of signed numbers is none of the width, by the product of their sizes.
fn smulo<G: Gates>(g: &mut G, a: &[Lit], b: &[Lit]) -> Result<Lit, GateFault>
    requires { AreOperands (G.made g.old) 64 a.now b.now }
    ensures ok { IfOk result (λ l. let n = length a.now in MakesWord (G.made g.old) (G.made g.new)
        (40 * (n * n) + 4 * n) 1 (λ v. binary_value Binary.Smulo n (word_value v a.now)
        (word_value v b.now)) (l ∷ [])) }
    ensures refused { IfErr result (let n = length a.now in RefusesGate (G.made g.old)
        (G.made g.new) (40 * (n * n) + 4 * n)) }
{
    let top = a.len() - 1;
    let product = size_product(g, a, b)?;
    let negative = xor(g, a[top], b[top])?;
    let above = size_overflow(g, negative, product.bits.as_slice())?;
    disjunction(g, product.lost, above)
}
