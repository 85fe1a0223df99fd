//! The bitwise operators, the reductions of a word to one bit, and the tests for equality.
ghost use Rattle.std.specs.Prelude.{◌≡◌, ◌≤◌, ◌-◌, ◌*◌, length, All, IfOk, IfErr, ◌==◌};
ghost use Rattle.base.specs.declared.operators.Binary.TheVariants as binary;
ghost use Rattle.base.specs.Operator.{ones, unary_value, binary_value};
ghost use Rattle.aiger.specs.Net.{IsDefined};
ghost use Rattle.base.specs.Literal.{literal_value};
ghost use Rattle.gates.specs.Operands.{AreOperands};
ghost use Rattle.gates.specs.Made.{MakesLiteral, MakesWord, RefusesGate, word_value};
ghost use Rattle.gates.specs.Bound.{unary_bound, binary_bound};
ghost use Rattle.gates.specs.Connect.{connected, connected_words, connected_bits, connective_bound, words_bound, reduction_by};

use crate::bit_lists::{negation, one_bit};
use crate::fault::GateFault;
use crate::literals::{disjunction, xor};
use crate::maker::{Bits, Gates};
use aiger::Lit;

/// What connects two bits, and so two words or all bits of a word.
#[derive(Clone, Copy)]
pub(crate) enum Connective {
    /// Both.
    And,
    /// One of them, or both.
    Or,
    /// Exactly one of them.
    Xor,
}

/// Two literals connected.
fn connect<G: Gates>(g: &mut G, by: Connective, a: Lit, b: Lit) -> Result<Lit, GateFault>
    requires left { IsDefined (G.made g.old) a }
    requires right { IsDefined (G.made g.old) b }
    ensures ok { IfOk result (MakesLiteral (G.made g.old) (G.made g.new) (connective_bound by)
        (λ v. connected by (literal_value v a) (literal_value v b))) }
    ensures refused { IfErr result (RefusesGate (G.made g.old) (G.made g.new)
        (connective_bound by)) }
{
    match by {
        Connective::And => g.and(a, b),
        Connective::Or => disjunction(g, a, b),
        Connective::Xor => xor(g, a, b),
    }
}

/// Two words connected, bit by bit.
pub(crate) fn connect_words<G: Gates>(
    g: &mut G,
    by: Connective,
    a: &[Lit],
    b: &[Lit],
) -> Result<Bits, GateFault>
    requires { AreOperands (G.made g.old) 64 a.now b.now }
    ensures ok { IfOk result (λ bits. let n = length a.now in MakesWord (G.made g.old)
        (G.made g.new) (words_bound by n) n
        (λ v. connected_words by (word_value v a.now) (word_value v b.now)) bits.items) }
    ensures refused { IfErr result (RefusesGate (G.made g.old) (G.made g.new)
        (words_bound by (length a.now))) }
{
    let mut bits = Bits::new();
    for i in 0..a.len() {
        bits.push(connect(g, by, a[i], b[i])?);
    }
    Ok(bits)
}

/// All bits of a word connected.
pub(crate) fn connect_bits<G: Gates>(g: &mut G, by: Connective, a: &[Lit]) -> Result<Lit, GateFault>
    requires most { length a.now ≤ 64 }
    requires defined { All (IsDefined (G.made g.old)) a.now }
    ensures ok { IfOk result (MakesLiteral (G.made g.old) (G.made g.new)
        (words_bound by (length a.now))
        (λ v. connected_bits by (length a.now) (word_value v a.now))) }
    ensures refused { IfErr result (RefusesGate (G.made g.old) (G.made g.new)
        (words_bound by (length a.now))) }
{
    let mut all = match by {
        Connective::And => Lit::TRUE,
        Connective::Or | Connective::Xor => Lit::FALSE,
    };
    for lit in a {
        all = connect(g, by, all, *lit)?;
    }
    Ok(all)
}

/// Two words connected, and each bit negated.
pub(crate) fn connect_negated<G: Gates>(
    g: &mut G,
    by: Connective,
    a: &[Lit],
    b: &[Lit],
) -> Result<Bits, GateFault>
    requires { AreOperands (G.made g.old) 64 a.now b.now }
    ensures ok { IfOk result (λ bits. let n = length a.now in MakesWord (G.made g.old)
        (G.made g.new) (words_bound by n) n
        (λ v. ones n - connected_words by (word_value v a.now) (word_value v b.now)) bits.items) }
    ensures refused { IfErr result (RefusesGate (G.made g.old) (G.made g.new)
        (words_bound by (length a.now))) }
{
    let bits = connect_words(g, by, a, b)?;
    Ok(negation(bits.as_slice()))
}

/// The reduction of a word that connects all its bits.
pub(crate) fn reduction<G: Gates>(g: &mut G, by: Connective, a: &[Lit]) -> Result<Bits, GateFault>
    requires most { length a.now ≤ 64 }
    requires defined { All (IsDefined (G.made g.old)) a.now }
    ensures ok { IfOk result (λ bits. let n = length a.now in MakesWord (G.made g.old)
        (G.made g.new) (unary_bound (reduction_by by) n) 1
        (λ v. unary_value (reduction_by by) n (word_value v a.now)) bits.items) }
    ensures refused { IfErr result (RefusesGate (G.made g.old) (G.made g.new)
        (unary_bound (reduction_by by) (length a.now))) }
{
    let lit = connect_bits(g, by, a)?;
    Ok(one_bit(lit))
}

/// A literal that is true where two words are equal, with at most 4 gates a bit.
///
/// Conditions: operands of equal length from 1 to 64, all literals defined. Errors: `TooBig` only where the variables so
/// far and 4 times the length sum to more than 2^30, `NoMemory`; the gates made so far stay.
pub fn equal<G: Gates>(g: &mut G, a: &[Lit], b: &[Lit]) -> Result<Lit, GateFault>
    requires { AreOperands (G.made g.old) 64 a.now b.now }
    ensures ok { IfOk result (MakesLiteral (G.made g.old) (G.made g.new)
        (binary_bound binary.Eq (length a.now)) (λ v. word_value v a.now == word_value v b.now)) }
    ensures refused { IfErr result (RefusesGate (G.made g.old) (G.made g.new)
        (binary_bound binary.Eq (length a.now))) }
{
    let differing = connect_words(g, Connective::Xor, a, b)?;
    let differ = connect_bits(g, Connective::Or, differing.as_slice())?;
    Ok(differ.not())
}

/// The bit of the test whether two words are equal.
pub(crate) fn eq<G: Gates>(g: &mut G, a: &[Lit], b: &[Lit]) -> Result<Bits, GateFault>
    requires { AreOperands (G.made g.old) 64 a.now b.now }
    ensures ok { IfOk result (λ bits. let n = length a.now in MakesWord (G.made g.old)
        (G.made g.new) (binary_bound binary.Eq n) 1
        (λ v. binary_value binary.Eq n (word_value v a.now) (word_value v b.now)) bits.items) }
    ensures refused { IfErr result (RefusesGate (G.made g.old) (G.made g.new)
        (binary_bound binary.Eq (length a.now))) }
{
    let lit = equal(g, a, b)?;
    Ok(one_bit(lit))
}

/// The bit of the test whether two words differ.
pub(crate) fn neq<G: Gates>(g: &mut G, a: &[Lit], b: &[Lit]) -> Result<Bits, GateFault>
    requires { AreOperands (G.made g.old) 64 a.now b.now }
    ensures ok { IfOk result (λ bits. let n = length a.now in MakesWord (G.made g.old)
        (G.made g.new) (binary_bound binary.Neq n) 1
        (λ v. binary_value binary.Neq n (word_value v a.now) (word_value v b.now)) bits.items) }
    ensures refused { IfErr result (RefusesGate (G.made g.old) (G.made g.new)
        (binary_bound binary.Neq (length a.now))) }
{
    let lit = equal(g, a, b)?;
    Ok(one_bit(lit.not()))
}

/// The bit of the test whether a single bit is 0 or another is 1, with at most 1 gate.
pub(crate) fn implies<G: Gates>(g: &mut G, a: &[Lit], b: &[Lit]) -> Result<Bits, GateFault>
    requires bit { length a.now ≡ 1 }
    requires operands { AreOperands (G.made g.old) 64 a.now b.now }
    ensures ok { IfOk result (λ bits. MakesWord (G.made g.old) (G.made g.new) 1 1
        (λ v. binary_value binary.Implies 1 (word_value v a.now) (word_value v b.now)) bits.items) }
    ensures refused { IfErr result (RefusesGate (G.made g.old) (G.made g.new) 1) }
{
    let lit = disjunction(g, a[0].not(), b[0])?;
    Ok(one_bit(lit))
}
