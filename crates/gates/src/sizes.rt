//! Words negated where a literal is true, and the sizes of signed numbers.
ghost use Rattle.std.specs.Prelude.{◌≡◌, ◌*◌, ◌≤◌, length, All, IfOk, IfErr, if◌then◌else◌, unsigned_abs};
ghost use Rattle.base.specs.Operator.{unary_value};
ghost use Rattle.base.specs.Signed.{signed};
ghost use Rattle.base.specs.Literal.{literal_value};
ghost use Rattle.aiger.specs.Net.{IsDefined};
ghost use Rattle.gates.specs.Made.{MakesWord, RefusesGate, word_value};

use crate::fault::GateFault;
use crate::literals::{disjunction, xor};
use crate::maker::{Bits, Gates};
use aiger::Lit;
use base::Unary;

/// The bits of the word of a word's negated number where a literal is true, and else those of the word.
///
/// A bit is another where the word is negated and has a 1 below it.
pub(crate) fn negated_where<G: Gates>(
    g: &mut G,
    negative: Lit,
    a: &[Lit],
) -> Result<Bits, GateFault>
    requires some { 1 ≤ length a.now }
    requires most { length a.now ≤ 64 }
    requires literal { IsDefined (G.made g.old) negative }
    requires defined { All (IsDefined (G.made g.old)) a.now }
    ensures ok { IfOk result (λ bits. let n = length a.now in MakesWord (G.made g.old)
        (G.made g.new) (12 * n) n (λ v. if literal_value v negative then unary_value Unary.Neg n
        (word_value v a.now) else word_value v a.now) bits.items) }
    ensures refused { IfErr result (RefusesGate (G.made g.old) (G.made g.new) (12 * length a.now)) }
{
    let mut bits = Bits::new();
    let mut flips = Lit::FALSE;
    for i in 0..a.len() {
        let lit = a[i];
        bits.push(xor(g, lit, flips)?);
        let some = disjunction(g, lit, flips)?;
        flips = g.and(negative, some)?;
    }
    Ok(bits)
}

/// The bits of the size of the signed number that a word stands for.
pub(crate) fn size<G: Gates>(g: &mut G, a: &[Lit]) -> Result<Bits, GateFault>
    requires some { 1 ≤ length a.now }
    requires most { length a.now ≤ 64 }
    requires defined { All (IsDefined (G.made g.old)) a.now }
    ensures ok { IfOk result (λ bits. let n = length a.now in MakesWord (G.made g.old)
        (G.made g.new) (12 * n) n (λ v. unsigned_abs (signed n (word_value v a.now))) bits.items) }
    ensures refused { IfErr result (RefusesGate (G.made g.old) (G.made g.new) (12 * length a.now)) }
{
    negated_where(g, a[a.len() - 1], a)
}
