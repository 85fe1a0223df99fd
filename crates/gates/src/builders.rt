//! The builders of all operators: for each the bits of what it gives, by the file of its kind.
ghost use Rattle.std.specs.Prelude.{◌≡◌, ◌≤◌, length, All, IfOk, IfErr, true};
ghost use Rattle.base.specs.Operator.{unary_value, binary_value};
ghost use Rattle.base.specs.Widths.{is_of_bits, unary_width, binary_width};
ghost use Rattle.aiger.specs.Net.{IsDefined};
ghost use Rattle.gates.specs.Operands.{AreOperands};
ghost use Rattle.gates.specs.Made.{MakesWord, RefusesGate, word_value};
ghost use Rattle.gates.specs.Bound.{unary_bound, binary_bound};

use crate::adders::{add_bits, dec_bits, inc_bits, neg_bits, sub_bits};
use crate::bit_lists::negation;
use crate::bitwise::{Connective, connect_negated, connect_words, eq, implies, neq, reduction};
use crate::comparisons::comparison_bit;
use crate::division::{udiv, urem};
use crate::fault::GateFault;
use crate::maker::{Bits, Gates};
use crate::multiplication::mul_bits;
use crate::overflows::overflow_bit;
use crate::shifts::{rotate, shift};
use crate::signed_division::{sdiv, smod, srem};
use aiger::Lit;
use base::{Binary, Unary};

/// The bits of what an operator gives for an operand.
///
/// Conditions: 1 to 64 literals, all defined. Errors: `TooBig` only where the variables so far and the operator's bound
/// sum to more than 2^30, `NoMemory`; the gates made so far stay.
pub fn unary_bits<G: Gates>(g: &mut G, op: Unary, a: &[Lit]) -> Result<Bits, GateFault>
    requires some { 1 ≤ length a.now }
    requires most { length a.now ≤ 64 }
    requires defined { All (IsDefined (G.made g.old)) a.now }
    ensures ok { IfOk result (λ bits. let n = length a.now in MakesWord (G.made g.old)
        (G.made g.new) (unary_bound op n) (unary_width op n)
        (λ v. unary_value op n (word_value v a.now)) bits.items) }
    ensures refused { IfErr result (RefusesGate (G.made g.old) (G.made g.new)
        (unary_bound op (length a.now))) }
{
    match op {
        Unary::Not => Ok(negation(a)),
        Unary::Inc => inc_bits(g, a),
        Unary::Dec => dec_bits(g, a),
        Unary::Neg => neg_bits(g, a),
        Unary::Redand => reduction(g, Connective::And, a),
        Unary::Redor => reduction(g, Connective::Or, a),
        Unary::Redxor => reduction(g, Connective::Xor, a),
    }
}

/// The bits of what an operator gives for two operands.
///
/// Conditions: operands of equal length from 1 to 64, for `Iff` and `Implies` of length 1, all literals defined.
/// Errors: `TooBig` only where the variables so far and the operator's bound sum to more than 2^30, `NoMemory`; the gates
/// made so far stay.
pub fn binary_bits<G: Gates>(g: &mut G, op: Binary, a: &[Lit], b: &[Lit]) -> Result<Bits, GateFault>
    requires of_bits { is_of_bits op ≡ true → length a.now ≡ 1 }
    requires operands { AreOperands (G.made g.old) 64 a.now b.now }
    ensures ok { IfOk result (λ bits. let n = length a.now in MakesWord (G.made g.old)
        (G.made g.new) (binary_bound op n) (binary_width op n)
        (λ v. binary_value op n (word_value v a.now) (word_value v b.now)) bits.items) }
    ensures refused { IfErr result (RefusesGate (G.made g.old) (G.made g.new)
        (binary_bound op (length a.now))) }
{
    match op {
        Binary::Iff => connect_negated(g, Connective::Xor, a, b),
        Binary::Implies => implies(g, a, b),
        Binary::Eq => eq(g, a, b),
        Binary::Neq => neq(g, a, b),
        Binary::Ugt
        | Binary::Ugte
        | Binary::Ult
        | Binary::Ulte
        | Binary::Sgt
        | Binary::Sgte
        | Binary::Slt
        | Binary::Slte => comparison_bit(g, op, a, b),
        Binary::And => connect_words(g, Connective::And, a, b),
        Binary::Nand => connect_negated(g, Connective::And, a, b),
        Binary::Or => connect_words(g, Connective::Or, a, b),
        Binary::Nor => connect_negated(g, Connective::Or, a, b),
        Binary::Xor => connect_words(g, Connective::Xor, a, b),
        Binary::Xnor => connect_negated(g, Connective::Xor, a, b),
        Binary::Rol | Binary::Ror => rotate(g, op, a, b),
        Binary::Sll | Binary::Srl | Binary::Sra => shift(g, op, a, b),
        Binary::Add => add_bits(g, a, b),
        Binary::Sub => sub_bits(g, a, b),
        Binary::Mul => mul_bits(g, a, b),
        Binary::Udiv => udiv(g, a, b),
        Binary::Urem => urem(g, a, b),
        Binary::Sdiv => sdiv(g, a, b),
        Binary::Srem => srem(g, a, b),
        Binary::Smod => smod(g, a, b),
        Binary::Uaddo
        | Binary::Saddo
        | Binary::Usubo
        | Binary::Ssubo
        | Binary::Umulo
        | Binary::Smulo
        | Binary::Sdivo => overflow_bit(g, op, a, b),
    }
}
