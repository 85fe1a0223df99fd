//! Shifts and rotations: a row of choices for each bit of the amount.
ghost use Rattle.std.specs.Prelude.{◌≡◌, ℕ, ◌+◌, ◌*◌, ◌^◌, ◌<◌, ◌≤◌, ◌++◌, length, take, drop, All, IfOk, IfErr, true, false};
ghost use Rattle.base.specs.Operator.{binary_value};
ghost use Rattle.base.specs.Literal.{Valuation};
ghost use Rattle.aiger.specs.Net.{Net, IsDefined};
ghost use Rattle.gates.specs.Bound.{binary_bound};
ghost use Rattle.gates.specs.Operands.{AreOperands};
ghost use Rattle.gates.specs.Made.{MakesWord, RefusesGate, word_value};
ghost use Rattle.gates.specs.Tests.{is_shift, is_rotation, is_move};

use crate::bit_lists::{append, repeated};
use crate::bitwise::{Connective, connect_bits};
use crate::bound::log_up;
use crate::choices::choose;
use crate::fault::GateFault;
use crate::maker::{Bits, Gates};
use aiger::Lit;
use base::Binary;

/// Of two words one behind the other, as many literals as one has, from a place on.
fn window(low: &[Lit], high: &[Lit], from: usize) -> Bits
    requires most { length low.now ≤ 64 }
    requires equal { length high.now ≡ length low.now }
    requires inside { from ≤ length low.now }
    ensures { result.items ≡ drop from low.now ++ take from high.now }
{
    let mut bits = Bits::new();
    append(&mut bits, &low[from..]);
    append(&mut bits, &high[..from]);
    bits
}

/// A word moved by an amount below its width, which takes no gate.
fn moved(op: Binary, a: &[Lit], by: usize) -> Bits
    requires moves { is_move op ≡ true }
    requires most { length a.now ≤ 64 }
    requires below { by < length a.now }
    ensures wide { length result.items ≡ length a.now }
    ensures defined { (n : Net) → All (IsDefined n) a.now → All (IsDefined n) result.items }
    ensures means { (v : Valuation) → word_value v result.items
        ≡ binary_value op (length a.now) (word_value v a.now) by }
{
    let width = a.len();
    match op {
        Binary::Sll => window(repeated(Lit::FALSE, width).as_slice(), a, width - by),
        Binary::Srl => window(a, repeated(Lit::FALSE, width).as_slice(), by),
        Binary::Sra => window(a, repeated(a[width - 1], width).as_slice(), by),
        Binary::Rol => window(a, a, width - by),
        Binary::Ror => window(a, a, by),
        _ => unreachable!(),
    }
}

/// A word moved by the number that an amount's literals read as: for each literal, by its power of two or not.
///
/// Condition: for a shift each of these powers is below the width.
fn moved_in_turn<G: Gates>(
    g: &mut G,
    op: Binary,
    a: &[Lit],
    amount: &[Lit],
) -> Result<Bits, GateFault>
    requires moves { is_move op ≡ true }
    requires some { 1 ≤ length a.now }
    requires most { length a.now ≤ 64 }
    requires places { length amount.now ≤ 64 }
    requires near { is_shift op ≡ true → 2 ^ length amount.now < 2 * length a.now }
    requires defined { All (IsDefined (G.made g.old)) a.now }
    requires amount { All (IsDefined (G.made g.old)) amount.now }
    ensures ok { IfOk result (λ bits. let n = length a.now in MakesWord (G.made g.old)
        (G.made g.new) (3 * (n * length amount.now)) n
        (λ v. binary_value op n (word_value v a.now) (word_value v amount.now)) bits.items) }
    ensures refused { IfErr result (RefusesGate (G.made g.old) (G.made g.new)
        (3 * (length a.now * length amount.now))) }
{
    let mut bits = moved(op, a, 0);
    for place in 0..amount.len() {
        let by = (1 << place) % bits.len();
        let there = moved(op, bits.as_slice(), by);
        bits = choose(g, amount[place], there.as_slice(), bits.as_slice())?;
    }
    Ok(bits)
}

/// A word shifted by an amount.
///
/// Conditions: the operator is `Sll`, `Srl` or `Sra`; operands of equal length from 1 to 64, all literals defined.
/// Errors: `TooBig` only where the variables so far and the operator's bound sum to more than 2^30, `NoMemory`; the gates
/// made so far stay.
pub fn shift<G: Gates>(g: &mut G, op: Binary, a: &[Lit], b: &[Lit]) -> Result<Bits, GateFault>
    requires shifts { is_shift op ≡ true }
    requires operands { AreOperands (G.made g.old) 64 a.now b.now }
    ensures ok { IfOk result (λ bits. let n = length a.now in MakesWord (G.made g.old)
        (G.made g.new) (binary_bound op n) n
        (λ v. binary_value op n (word_value v a.now) (word_value v b.now)) bits.items) }
    ensures refused { IfErr result (RefusesGate (G.made g.old) (G.made g.new)
        (binary_bound op (length a.now))) }
{
    let width = a.len();
    let (low, high) = b.split_at(log_up(width as u64) as usize);
    let near = moved_in_turn(g, op, a, low)?;
    let is_far = connect_bits(g, Connective::Or, high)?;
    let fill = match op {
        Binary::Sra => a[width - 1],
        _ => Lit::FALSE,
    };
    choose(g, is_far, repeated(fill, width).as_slice(), near.as_slice())
}

/// A word rotated by an amount, which counts modulo the width.
///
/// Conditions: the operator is `Rol` or `Ror`; operands of equal length from 1 to 64, all literals defined. Errors:
/// `TooBig` only where the variables so far and the operator's bound sum to more than 2^30, `NoMemory`; the gates made so
/// far stay.
pub fn rotate<G: Gates>(g: &mut G, op: Binary, a: &[Lit], b: &[Lit]) -> Result<Bits, GateFault>
    requires rotates { is_rotation op ≡ true }
    requires operands { AreOperands (G.made g.old) 64 a.now b.now }
    ensures ok { IfOk result (λ bits. let n = length a.now in MakesWord (G.made g.old)
        (G.made g.new) (binary_bound op n) n
        (λ v. binary_value op n (word_value v a.now) (word_value v b.now)) bits.items) }
    ensures refused { IfErr result (RefusesGate (G.made g.old) (G.made g.new)
        (binary_bound op (length a.now))) }
{
    moved_in_turn(g, op, a, b)
}
