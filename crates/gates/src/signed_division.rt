//! Division of words as signed numbers: the sizes of both are divided, and what that gives has its sign put back.
ghost use Rattle.std.specs.Prelude.{◌≡◌, ◌+◌, ◌-◌, ◌*◌, ◌^◌, ◌≤◌, ◌%◌, ◌&&◌, ◌==◌, not, length, All, IfOk, IfErr, if◌then◌else◌, unsigned_abs};
ghost use Rattle.base.specs.Operator.{binary_value, udiv, urem};
ghost use Rattle.base.specs.Signed.{signed};
ghost use Rattle.base.specs.Literal.{literal_value};
ghost use Rattle.aiger.specs.Net.{IsDefined};
ghost use Rattle.gates.specs.Operands.{AreOperands};
ghost use Rattle.gates.specs.Made.{MakesLiteral, MakesWord, RefusesGate, word_value};
ghost use Rattle.gates.specs.Sums.{literal_number};
ghost use Rattle.gates.specs.Connect.{differ};

use crate::adders::add_bits;
use crate::bitwise::{Connective, connect_bits};
use crate::division::{Divided, divide};
use crate::fault::GateFault;
use crate::literals::xor;
use crate::maker::{Bits, Gates};
use crate::multiplication::masked;
use crate::sizes::{negated_where, size};
use aiger::Lit;
use base::Binary;

/// The quotient and the remainder of the sizes of two signed numbers.
fn divide_sizes<G: Gates>(g: &mut G, a: &[Lit], b: &[Lit]) -> Result<Divided, GateFault>
    requires { AreOperands (G.made g.old) 64 a.now b.now }
    ensures quotient { IfOk result
        (λ divided. let n = length a.now in MakesWord (G.made g.old) (G.made g.new)
        (12 * (n * n) + 36 * n) n (λ v. udiv n (unsigned_abs (signed n (word_value v a.now)))
        (unsigned_abs (signed n (word_value v b.now)))) divided.quotient.items) }
    ensures remainder { IfOk result
        (λ divided. let n = length a.now in MakesWord (G.made g.old) (G.made g.new)
        (12 * (n * n) + 36 * n) n (λ v. urem (unsigned_abs (signed n (word_value v a.now)))
        (unsigned_abs (signed n (word_value v b.now)))) divided.remainder.items) }
    ensures refused { IfErr result (let n = length a.now in RefusesGate (G.made g.old)
        (G.made g.new) (12 * (n * n) + 36 * n)) }
{
    let dividend = size(g, a)?;
    let divisor = size(g, b)?;
    divide(g, dividend.as_slice(), divisor.as_slice())
}

/// The bits of the quotient of two words as signed numbers, rounded towards zero. By 0 it is 1 for a negative dividend,
/// and else all ones.
///
/// Conditions: operands of equal length n from 1 to 64, all literals defined. Errors: `TooBig` only where the variables
/// so far and 12 n^2 + 51 n sum to more than 2^30, `NoMemory`; the gates made so far stay.
pub fn sdiv<G: Gates>(g: &mut G, a: &[Lit], b: &[Lit]) -> Result<Bits, GateFault>
    requires { AreOperands (G.made g.old) 64 a.now b.now }
    ensures ok { IfOk result (λ bits. let n = length a.now in MakesWord (G.made g.old)
        (G.made g.new) (12 * (n * n) + 51 * n) n
        (λ v. binary_value Binary.Sdiv n (word_value v a.now) (word_value v b.now)) bits.items) }
    ensures refused { IfErr result (let n = length a.now in RefusesGate (G.made g.old)
        (G.made g.new) (12 * (n * n) + 51 * n)) }
{
    let top = a.len() - 1;
    let divided = divide_sizes(g, a, b)?;
    let negative = xor(g, a[top], b[top])?;
    negated_where(g, negative, divided.quotient.as_slice())
}

/// The bits of the remainder of two words as signed numbers, which has the dividend's sign. By 0 it is the dividend.
///
/// Conditions: operands of equal length n from 1 to 64, all literals defined. Errors: `TooBig` only where the variables
/// so far and 12 n^2 + 48 n sum to more than 2^30, `NoMemory`; the gates made so far stay.
pub fn srem<G: Gates>(g: &mut G, a: &[Lit], b: &[Lit]) -> Result<Bits, GateFault>
    requires { AreOperands (G.made g.old) 64 a.now b.now }
    ensures ok { IfOk result (λ bits. let n = length a.now in MakesWord (G.made g.old)
        (G.made g.new) (12 * (n * n) + 48 * n) n
        (λ v. binary_value Binary.Srem n (word_value v a.now) (word_value v b.now)) bits.items) }
    ensures refused { IfErr result (let n = length a.now in RefusesGate (G.made g.old)
        (G.made g.new) (12 * (n * n) + 48 * n)) }
{
    let divided = divide_sizes(g, a, b)?;
    negated_where(g, a[a.len() - 1], divided.remainder.as_slice())
}

/// Whether a remainder is not 0 and two signs differ: where the quotient rounded down is one less than the quotient
/// rounded towards zero.
fn is_rounded_down<G: Gates>(
    g: &mut G,
    rest: &[Lit],
    dividend_sign: Lit,
    divisor_sign: Lit,
) -> Result<Lit, GateFault>
    requires most { length rest.now ≤ 64 }
    requires rest { All (IsDefined (G.made g.old)) rest.now }
    requires left { IsDefined (G.made g.old) dividend_sign }
    requires right { IsDefined (G.made g.old) divisor_sign }
    ensures ok { IfOk result (MakesLiteral (G.made g.old) (G.made g.new) (length rest.now + 4)
        (λ v. not (word_value v rest.now == 0) && differ (literal_value v dividend_sign)
        (literal_value v divisor_sign))) }
    ensures refused { IfErr result (RefusesGate (G.made g.old) (G.made g.new)
        (length rest.now + 4)) }
{
    let some = connect_bits(g, Connective::Or, rest)?;
    let other = xor(g, dividend_sign, divisor_sign)?;
    g.and(some, other)
}

/// The bits of a word, and of its sum with another where a literal is true.
fn added_where<G: Gates>(g: &mut G, lit: Lit, a: &[Lit], b: &[Lit]) -> Result<Bits, GateFault>
    requires operands { AreOperands (G.made g.old) 64 a.now b.now }
    requires literal { IsDefined (G.made g.old) lit }
    ensures ok { IfOk result (λ bits. let n = length a.now in MakesWord (G.made g.old)
        (G.made g.new) (10 * n) n
        (λ v. (word_value v a.now + word_value v b.now * literal_number v lit) % 2 ^ n)
        bits.items) }
    ensures refused { IfErr result (RefusesGate (G.made g.old) (G.made g.new) (10 * length a.now)) }
{
    let more = masked(g, b, lit)?;
    add_bits(g, a, more.as_slice())
}

/// The bits of the remainder of two words as signed numbers where the quotient is rounded down. It has the divisor's sign.
/// By 0 it is the dividend.
///
/// Conditions: operands of equal length n from 1 to 64, all literals defined. Errors: `TooBig` only where the variables
/// so far and 12 n^2 + 63 n sum to more than 2^30, `NoMemory`; the gates made so far stay.
pub fn smod<G: Gates>(g: &mut G, a: &[Lit], b: &[Lit]) -> Result<Bits, GateFault>
    requires { AreOperands (G.made g.old) 64 a.now b.now }
    ensures ok { IfOk result (λ bits. let n = length a.now in MakesWord (G.made g.old)
        (G.made g.new) (12 * (n * n) + 63 * n) n
        (λ v. binary_value Binary.Smod n (word_value v a.now) (word_value v b.now)) bits.items) }
    ensures refused { IfErr result (let n = length a.now in RefusesGate (G.made g.old)
        (G.made g.new) (12 * (n * n) + 63 * n)) }
{
    let top = a.len() - 1;
    let rest = srem(g, a, b)?;
    let rounded_down = is_rounded_down(g, rest.as_slice(), a[top], b[top])?;
    added_where(g, rounded_down, rest.as_slice(), b)
}
