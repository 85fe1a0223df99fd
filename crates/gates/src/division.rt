//! Division of words: a row of gates for each bit of the dividend, from the highest down. A row is as wide as the bits that
//! the dividend has given so far.
ghost use Rattle.std.specs.Prelude.{◌≡◌, ◌+◌, ◌-◌, ◌*◌, ◌≤◌, ◌==◌, not, length, drop, All, IfOk, IfErr};
ghost use Rattle.base.specs.Operator.{binary_value};
ghost use Rattle.base.specs.declared.operators.Binary.TheVariants as binary;
ghost use Rattle.aiger.specs.Net.{IsDefined};
ghost use Rattle.gates.specs.Operands.{AreOperands};
ghost use Rattle.gates.specs.Made.{MakesLiteral, MakesWord, RefusesGate, word_value};
ghost use Rattle.gates.specs.Division.{MakesQuotientRow, MakesDivision};

use crate::adders::difference;
use crate::choices::choose;
use crate::fault::GateFault;
use crate::literals::disjunction;
use crate::maker::{Bits, Gates};
use aiger::Lit;

/// A quotient and a remainder.
#[derive(Drop)]
pub struct Divided {
    /// How often the divisor goes into the dividend; all ones where the divisor is 0.
    pub quotient: Bits,
    /// What is left of the dividend then; all of it where the divisor is 0.
    pub remainder: Bits,
}

/// What one bit of the dividend gives.
#[derive(Drop)]
struct Row {
    /// The quotient's bit at the same place.
    bit: Lit,
    /// What is left of the dividend down to this bit.
    remainder: Bits,
}

/// A literal that is true where a word has a bit at a place or above it.
///
/// It goes from the highest place down, so that a maker that makes no gate twice makes those of all places once.
pub(crate) fn has_bit_from<G: Gates>(g: &mut G, a: &[Lit], from: usize) -> Result<Lit, GateFault>
    requires most { length a.now ≤ 64 }
    requires inside { from ≤ length a.now }
    requires defined { All (IsDefined (G.made g.old)) a.now }
    ensures ok { IfOk result (MakesLiteral (G.made g.old) (G.made g.new) (length a.now - from)
        (λ v. not (word_value v (drop from a.now) == 0))) }
    ensures refused { IfErr result (RefusesGate (G.made g.old) (G.made g.new)
        (length a.now - from)) }
{
    let width = a.len();
    let mut some = Lit::FALSE;
    for above in 0..width - from {
        let place = width - 1 - above;
        some = disjunction(g, some, a[place])?;
    }
    Ok(some)
}

/// One row of a division: the divisor is taken from a dividend that is no wider, where it goes into it.
///
/// It does not where it has a bit above the dividend's; below, their difference tells.
fn next_row<G: Gates>(g: &mut G, dividend: &[Lit], b: &[Lit]) -> Result<Row, GateFault>
    requires some { 1 ≤ length dividend.now }
    requires inside { length dividend.now ≤ length b.now }
    requires most { length b.now ≤ 64 }
    requires left { All (IsDefined (G.made g.old)) dividend.now }
    requires right { All (IsDefined (G.made g.old)) b.now }
    ensures ok { IfOk result (λ row. MakesQuotientRow (G.made g.old) (G.made g.new)
        (12 * length b.now + 9) dividend.now b.now row.bit row.remainder.items) }
    ensures refused { IfErr result (RefusesGate (G.made g.old) (G.made g.new)
        (12 * length b.now + 9)) }
{
    let width = dividend.len();
    let reduced = difference(g, dividend, &b[..width])?;
    let above = has_bit_from(g, b, width)?;
    let bit = g.and(reduced.out, above.not())?;
    let remainder = choose(g, bit, reduced.sum.as_slice(), dividend)?;
    Ok(Row { bit, remainder })
}

/// The quotient and the remainder of two words as whole numbers. By 0 the quotient is all ones and the remainder the
/// dividend.
///
/// Conditions: operands of equal length n from 1 to 64, all literals defined. Errors: `TooBig` only where the variables
/// so far and 12 n^2 + 12 n sum to more than 2^30, `NoMemory`; the gates made so far stay.
pub fn divide<G: Gates>(g: &mut G, a: &[Lit], b: &[Lit]) -> Result<Divided, GateFault>
    requires { AreOperands (G.made g.old) 64 a.now b.now }
    ensures ok { IfOk result (λ divided. let n = length a.now in MakesDivision (G.made g.old)
        (G.made g.new) (12 * (n * n) + 12 * n) a.now b.now divided.quotient.items
        divided.remainder.items) }
    ensures refused { IfErr result (let n = length a.now in RefusesGate (G.made g.old)
        (G.made g.new) (12 * (n * n) + 12 * n)) }
{
    let width = a.len();
    let mut quotient = Bits::new();
    let mut remainder = Bits::new();
    for done in 0..width {
        let place = width - 1 - done;
        remainder.insert(0, a[place]);
        let row = next_row(g, remainder.as_slice(), b)?;
        quotient.insert(0, row.bit);
        remainder = row.remainder;
    }
    Ok(Divided {
        quotient,
        remainder,
    })
}

/// The bits of the quotient of two words as whole numbers.
pub(crate) fn udiv<G: Gates>(g: &mut G, a: &[Lit], b: &[Lit]) -> Result<Bits, GateFault>
    requires { AreOperands (G.made g.old) 64 a.now b.now }
    ensures ok { IfOk result (λ bits. let n = length a.now in MakesWord (G.made g.old)
        (G.made g.new) (12 * (n * n) + 12 * n) n
        (λ v. binary_value binary.Udiv n (word_value v a.now) (word_value v b.now)) bits.items) }
    ensures refused { IfErr result (let n = length a.now in RefusesGate (G.made g.old)
        (G.made g.new) (12 * (n * n) + 12 * n)) }
{
    let divided = divide(g, a, b)?;
    Ok(divided.quotient)
}

/// The bits of the remainder of two words as whole numbers.
pub(crate) fn urem<G: Gates>(g: &mut G, a: &[Lit], b: &[Lit]) -> Result<Bits, GateFault>
    requires { AreOperands (G.made g.old) 64 a.now b.now }
    ensures ok { IfOk result (λ bits. let n = length a.now in MakesWord (G.made g.old)
        (G.made g.new) (12 * (n * n) + 12 * n) n
        (λ v. binary_value binary.Urem n (word_value v a.now) (word_value v b.now)) bits.items) }
    ensures refused { IfErr result (let n = length a.now in RefusesGate (G.made g.old)
        (G.made g.new) (12 * (n * n) + 12 * n)) }
{
    let divided = divide(g, a, b)?;
    Ok(divided.remainder)
}
