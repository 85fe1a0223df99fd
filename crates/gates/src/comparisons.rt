//! Words compared by order, as whole numbers and as signed numbers.
ghost use Rattle.std.specs.Prelude.{◌≡◌, ◌+◌, ◌*◌, ◌≤◌, true, nat_lt, int_lt, [], ◌∷◌, length, All, IfOk, IfErr};
ghost use Rattle.base.specs.Operator.{binary_value};
ghost use Rattle.base.specs.Signed.{signed};
ghost use Rattle.base.specs.Widths.{binary_width};
ghost use Rattle.aiger.specs.Net.{IsDefined};
ghost use Rattle.gates.specs.Bound.{binary_bound};
ghost use Rattle.gates.specs.Operands.{AreOperands};
ghost use Rattle.gates.specs.Made.{MakesLiteral, MakesWord, RefusesGate, word_value};
ghost use Rattle.gates.specs.Sums.{literal_number};
ghost use Rattle.gates.specs.Tests.{is_comparison, with_top_negated};

use crate::bit_lists::{append, one_bit};
use crate::fault::GateFault;
use crate::literals::disjunction;
use crate::maker::{Bits, Gates};
use aiger::Lit;
use base::Binary;

/// Whether a word is less than another, by its highest column and whether it is less in the columns below: where the
/// bits of the column are equal, the columns below decide. Below the lowest column nothing is.
pub(crate) fn less_column<G: Gates>(g: &mut G, a: Lit, b: Lit, below: Lit) -> Result<Lit, GateFault>
    requires left { IsDefined (G.made g.old) a }
    requires right { IsDefined (G.made g.old) b }
    requires below { IsDefined (G.made g.old) below }
    ensures ok { IfOk result (MakesLiteral (G.made g.old) (G.made g.new) 4
        (λ v. nat_lt (literal_number v a) (literal_number v b + literal_number v below))) }
    ensures refused { IfErr result (RefusesGate (G.made g.old) (G.made g.new) 4) }
{
    let less = g.and(a.not(), b)?;
    if below == Lit::FALSE {
        return Ok(less);
    }
    let greater = g.and(a, b.not())?;
    let rest = g.and(below, greater.not())?;
    disjunction(g, less, rest)
}

/// A literal that is true where the first word is less than the second, as whole numbers.
///
/// Conditions: operands of equal length from 1 to 64, all literals defined. Errors: `TooBig` only where the
/// variables so far and 6 times the length sum to more than 2^30, `NoMemory`; the gates made so far stay.
pub fn less<G: Gates>(g: &mut G, a: &[Lit], b: &[Lit]) -> Result<Lit, GateFault>
    requires { AreOperands (G.made g.old) 64 a.now b.now }
    ensures ok { IfOk result (MakesLiteral (G.made g.old) (G.made g.new) (6 * length a.now)
        (λ v. nat_lt (word_value v a.now) (word_value v b.now))) }
    ensures refused { IfErr result (RefusesGate (G.made g.old) (G.made g.new) (6 * length a.now)) }
{
    let mut below = Lit::FALSE;
    for i in 0..a.len() {
        below = less_column(g, a[i], b[i], below)?;
    }
    Ok(below)
}

/// The literals with the highest one negated.
pub(crate) fn top_negated(a: &[Lit]) -> Bits
    requires some { 1 ≤ length a.now }
    requires most { length a.now ≤ 128 }
    ensures { result.items ≡ with_top_negated a.now }
{
    let top = a.len() - 1;
    let mut bits = Bits::new();
    append(&mut bits, &a[..top]);
    bits.push(a[top].not());
    bits
}

/// A literal that is true where the first word is less than the second, as signed numbers: they are in the order of the
/// words with their highest bits negated.
fn signed_less<G: Gates>(g: &mut G, a: &[Lit], b: &[Lit]) -> Result<Lit, GateFault>
    requires { AreOperands (G.made g.old) 64 a.now b.now }
    ensures ok { IfOk result (let n = length a.now in MakesLiteral (G.made g.old) (G.made g.new)
        (6 * n) (λ v. int_lt (signed n (word_value v a.now)) (signed n (word_value v b.now)))) }
    ensures refused { IfErr result (RefusesGate (G.made g.old) (G.made g.new) (6 * length a.now)) }
{
    less(g, top_negated(a).as_slice(), top_negated(b).as_slice())
}

/// A literal that is true where a comparison holds.
fn comparison<G: Gates>(g: &mut G, op: Binary, a: &[Lit], b: &[Lit]) -> Result<Lit, GateFault>
    requires comparison { is_comparison op ≡ true }
    requires operands { AreOperands (G.made g.old) 64 a.now b.now }
    ensures ok { IfOk result (λ l. let n = length a.now in MakesWord (G.made g.old) (G.made g.new)
        (6 * n) 1 (λ v. binary_value op n (word_value v a.now) (word_value v b.now)) (l ∷ [])) }
    ensures refused { IfErr result (RefusesGate (G.made g.old) (G.made g.new) (6 * length a.now)) }
{
    match op {
        Binary::Ult => less(g, a, b),
        Binary::Ugt => less(g, b, a),
        Binary::Ulte => Ok(less(g, b, a)?.not()),
        Binary::Ugte => Ok(less(g, a, b)?.not()),
        Binary::Slt => signed_less(g, a, b),
        Binary::Sgt => signed_less(g, b, a),
        Binary::Slte => Ok(signed_less(g, b, a)?.not()),
        Binary::Sgte => Ok(signed_less(g, a, b)?.not()),
        _ => unreachable!(),
    }
}

/// The bit of a comparison.
pub(crate) fn comparison_bit<G: Gates>(
    g: &mut G,
    op: Binary,
    a: &[Lit],
    b: &[Lit],
) -> Result<Bits, GateFault>
    requires comparison { is_comparison op ≡ true }
    requires operands { AreOperands (G.made g.old) 64 a.now b.now }
    ensures ok { IfOk result (λ bits. let n = length a.now in MakesWord (G.made g.old)
        (G.made g.new) (binary_bound op n) (binary_width op n)
        (λ v. binary_value op n (word_value v a.now) (word_value v b.now)) bits.items) }
    ensures refused { IfErr result (RefusesGate (G.made g.old) (G.made g.new)
        (binary_bound op (length a.now))) }
{
    let lit = comparison(g, op, a, b)?;
    Ok(one_bit(lit))
}
