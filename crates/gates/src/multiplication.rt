//! Products of words: a row for each bit of the second operand, added up.
ghost use Rattle.std.specs.Prelude.{◌≡◌, ◌+◌, ◌*◌, ◌%◌, ◌^◌, ◌<◌, ◌≤◌, ◌||◌, nat_le, length, All, IfOk, IfErr};
ghost use Rattle.base.specs.Operator.{binary_value};
ghost use Rattle.base.specs.Literal.{Valuation, literal_value};
ghost use Rattle.aiger.specs.Net.{Net, IsDefined};
ghost use Rattle.gates.specs.Operands.{AreOperands};
ghost use Rattle.gates.specs.Made.{MakesLiteral, MakesWord, RefusesGate, word_value};
ghost use Rattle.gates.specs.Sums.{literal_number};

use crate::adders::{add, sum_bits};
use crate::bit_lists::{append, repeated};
use crate::division::has_bit_from;
use crate::fault::GateFault;
use crate::literals::disjunction;
use crate::maker::{Bits, Gates};
use aiger::Lit;
use base::Binary;

/// A word where a literal is true, and else none of its bits: its product with the literal.
pub(crate) fn masked<G: Gates>(g: &mut G, a: &[Lit], lit: Lit) -> Result<Bits, GateFault>
    requires most { length a.now ≤ 128 }
    requires word { All (IsDefined (G.made g.old)) a.now }
    requires literal { IsDefined (G.made g.old) lit }
    ensures ok { IfOk result (λ bits. let n = length a.now in MakesWord (G.made g.old)
        (G.made g.new) n n (λ v. word_value v a.now * literal_number v lit) bits.items) }
    ensures refused { IfErr result (RefusesGate (G.made g.old) (G.made g.new) (length a.now)) }
{
    let mut bits = Bits::new();
    for i in 0..a.len() {
        bits.push(g.and(a[i], lit)?);
    }
    Ok(bits)
}

/// A word moved up by so many places within its width, which takes no gate.
fn raised(a: &[Lit], by: usize) -> Bits
    requires most { length a.now ≤ 128 }
    requires inside { by ≤ length a.now }
    ensures wide { length result.items ≡ length a.now }
    ensures defined { (n : Net) → All (IsDefined n) a.now → All (IsDefined n) result.items }
    ensures means { (v : Valuation) → word_value v result.items
        ≡ word_value v a.now * 2 ^ by % 2 ^ length a.now }
{
    let mut bits = repeated(Lit::FALSE, by);
    append(&mut bits, &a[..a.len() - by]);
    bits
}

/// A sum so far and the row of one bit: a word moved up by the bit's place, where the bit's literal is true.
///
/// The places below the row are constants, and take no gate.
fn with_row<G: Gates>(
    g: &mut G,
    sum: &[Lit],
    a: &[Lit],
    place: usize,
    lit: Lit,
) -> Result<Bits, GateFault>
    requires operands { AreOperands (G.made g.old) 128 a.now sum.now }
    requires inside { place ≤ length a.now }
    requires literal { IsDefined (G.made g.old) lit }
    ensures ok { IfOk result (λ bits. let n = length a.now in MakesWord (G.made g.old)
        (G.made g.new) (10 * n) n
        (λ v. (word_value v sum.now + word_value v a.now * (2 ^ place * literal_number v lit)) % 2 ^
        n) bits.items) }
    ensures refused { IfErr result (RefusesGate (G.made g.old) (G.made g.new) (10 * length a.now)) }
{
    let row = masked(g, raised(a, place).as_slice(), lit)?;
    sum_bits(g, sum, row.as_slice(), Lit::FALSE)
}

/// The bits of the product of two words modulo 2 to the width.
///
/// Conditions: operands of equal length from 1 to 128, all literals defined. Errors: `TooBig` only where the
/// variables so far and 10 times the length's square sum to more than 2^30, `NoMemory`; the gates made so far stay.
pub fn mul<G: Gates>(g: &mut G, a: &[Lit], b: &[Lit]) -> Result<Bits, GateFault>
    requires { AreOperands (G.made g.old) 128 a.now b.now }
    ensures ok { IfOk result (λ bits. let n = length a.now in MakesWord (G.made g.old)
        (G.made g.new) (10 * (n * n)) n (λ v. word_value v a.now * word_value v b.now % 2 ^ n)
        bits.items) }
    ensures refused { IfErr result (let n = length a.now in RefusesGate (G.made g.old)
        (G.made g.new) (10 * (n * n))) }
{
    let mut product = masked(g, a, b[0])?;
    for place in 1..b.len() {
        product = with_row(g, product.as_slice(), a, place, b[place])?;
    }
    Ok(product)
}

/// The bits of the product of two words of an operator's width.
pub(crate) fn mul_bits<G: Gates>(g: &mut G, a: &[Lit], b: &[Lit]) -> Result<Bits, GateFault>
    requires { AreOperands (G.made g.old) 64 a.now b.now }
    ensures ok { IfOk result (λ bits. let n = length a.now in MakesWord (G.made g.old)
        (G.made g.new) (10 * (n * n)) n
        (λ v. binary_value Binary.Mul n (word_value v a.now) (word_value v b.now)) bits.items) }
    ensures refused { IfErr result (let n = length a.now in RefusesGate (G.made g.old)
        (G.made g.new) (10 * (n * n))) }
{
    mul(g, a, b)
}

/// A product within its width, and whether a part of it is above.
#[derive(Drop)]
pub(crate) struct Product {
    /// The product modulo 2 to the width.
    pub(crate) bits: Bits,
    /// Whether the product is no word of the width.
    pub(crate) lost: Lit,
}

/// A sum so far and the row of one bit, as `with_row`, and whether their whole sum is no word of the width, or was
/// none before: the row has a bit above the width, or the sum has a carry.
fn with_whole_row<G: Gates>(
    g: &mut G,
    so_far: &Product,
    a: &[Lit],
    place: usize,
    lit: Lit,
) -> Result<Product, GateFault>
    requires operands { AreOperands (G.made g.old) 64 a.now so_far.now.bits.items }
    requires lost { IsDefined (G.made g.old) so_far.now.lost }
    requires some { 1 ≤ place }
    requires inside { place < length a.now }
    requires literal { IsDefined (G.made g.old) lit }
    ensures bits { IfOk result (λ product. let n = length a.now in MakesWord (G.made g.old)
        (G.made g.new) (12 * n) n
        (λ v. (word_value v so_far.now.bits.items + word_value v a.now *
        (2 ^ place * literal_number v lit)) % 2 ^ n) product.bits.items) }
    ensures lost { IfOk result (λ product. let n = length a.now in MakesLiteral (G.made g.old)
        (G.made g.new) (12 * n) (λ v. literal_value v so_far.now.lost
        || nat_le (2 ^ n) (word_value v so_far.now.bits.items + word_value v a.now *
        (2 ^ place * literal_number v lit))) product.lost) }
    ensures refused { IfErr result (RefusesGate (G.made g.old) (G.made g.new) (12 * length a.now)) }
{
    let row = masked(g, raised(a, place).as_slice(), lit)?;
    let sum = add(g, so_far.bits.as_slice(), row.as_slice(), Lit::FALSE)?;
    let above = has_bit_from(g, a, a.len() - place)?;
    let cut = g.and(above, lit)?;
    let more = disjunction(g, cut, sum.out)?;
    let lost = disjunction(g, so_far.lost, more)?;
    Ok(Product {
        bits: sum.sum,
        lost,
    })
}

/// The bits of the product of two words, and whether it is no word of the width.
pub(crate) fn whole_product<G: Gates>(g: &mut G, a: &[Lit], b: &[Lit]) -> Result<Product, GateFault>
    requires { AreOperands (G.made g.old) 64 a.now b.now }
    ensures bits { IfOk result (λ product. let n = length a.now in MakesWord (G.made g.old)
        (G.made g.new) (12 * (n * n)) n (λ v. word_value v a.now * word_value v b.now % 2 ^ n)
        product.bits.items) }
    ensures lost { IfOk result (λ product. let n = length a.now in MakesLiteral (G.made g.old)
        (G.made g.new) (12 * (n * n))
        (λ v. nat_le (2 ^ n) (word_value v a.now * word_value v b.now)) product.lost) }
    ensures refused { IfErr result (let n = length a.now in RefusesGate (G.made g.old)
        (G.made g.new) (12 * (n * n))) }
{
    let bits = masked(g, a, b[0])?;
    let mut product = Product {
        bits,
        lost: Lit::FALSE,
    };
    for place in 1..b.len() {
        product = with_whole_row(g, &product, a, place, b[place])?;
    }
    Ok(product)
}
