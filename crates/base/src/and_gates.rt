//! Lists of bits as valuations, a byte for each, and AND gates over them.
ghost use Rattle.std.specs.Prelude.{◌≡◌, ℕ, ◌+◌, ◌<◌, ◌≤◌, false, length, slice_index_or};
ghost use Rattle.base.specs.Literal.{variable, bit_of, literal_value, valuation_of, IsAnd};
ghost use Rattle.base.specs.Gates.{AreGatesOver, ArePut};
ghost use Rattle.base.specs.Steps.{more_steps};

use crate::tally::{Tally, take_all};

/// AND gates, one after another: of each the two literals that are its operands.
pub trait AndGates {
    ghost use Rattle.std.specs.Prelude.{◌≡◌, ◌<◌, ℕ};

    /// How many there are.
    ghost count: { Self → ℕ };

    /// The first operand of each.
    ghost left: { Self → ℕ → ℕ };

    /// The second operand of each.
    ghost right: { Self → ℕ → ℕ };

    /// How many there are.
    fn count(&self) -> usize
        ensures { result ≡ count self.now };

    /// The operands of one of them.
    fn operands(&self, k: usize) -> (u32, u32)
        requires { k < count self.now }
        ensures first { result.0 ≡ left self.now k }
        ensures second { result.1 ≡ right self.now k };
}

/// The bit of a literal, by those of 0 and of the variables: the lowest of the byte that is answered.
///
/// Conditions: there is one of its variable, and that of 0 is 0.
#[inline(always)]
pub fn literal_bit(bits: &[u8], literal: u32) -> u8
    requires inside { variable literal < length bits.now }
    requires constant { valuation_of bits.now 0 ≡ false }
    ensures { bit_of result ≡ literal_value (valuation_of bits.now) literal }
{
    bits[(literal / 2) as usize] ^ (literal & 0xff) as u8
}

/// The output of one gate, put at the place of its variable.
#[inline(always)]
fn put_output<G: AndGates>(gates: &G, k: usize, first: usize, bits: &mut [u8])
    requires there { k + 1 ≤ G.count gates.now }
    requires over { AreGatesOver (G.left gates.now) (G.right gates.now) (G.count gates.now) first bits.old }
    ensures { ArePut (G.left gates.now) (G.right gates.now) first k 1 bits.old bits.new }
{
    let (left, right) = gates.operands(k);
    bits[first + k] = literal_bit(bits, left) & literal_bit(bits, right);
}

/// The outputs of four gates.
#[inline(always)]
fn put_four<G: AndGates>(gates: &G, k: usize, first: usize, bits: &mut [u8])
    requires there { k + 4 ≤ G.count gates.now }
    requires over { AreGatesOver (G.left gates.now) (G.right gates.now) (G.count gates.now) first bits.old }
    ensures { ArePut (G.left gates.now) (G.right gates.now) first k 4 bits.old bits.new }
{
    put_output(gates, k, first, bits);
    put_output(gates, k + 1, first, bits);
    put_output(gates, k + 2, first, bits);
    put_output(gates, k + 3, first, bits);
}

/// The outputs of sixteen gates.
#[inline(always)]
fn put_sixteen<G: AndGates>(gates: &G, k: usize, first: usize, bits: &mut [u8])
    requires there { k + 16 ≤ G.count gates.now }
    requires over { AreGatesOver (G.left gates.now) (G.right gates.now) (G.count gates.now) first bits.old }
    ensures { ArePut (G.left gates.now) (G.right gates.now) first k 16 bits.old bits.new }
{
    put_four(gates, k, first, bits);
    put_four(gates, k + 4, first, bits);
    put_four(gates, k + 8, first, bits);
    put_four(gates, k + 12, first, bits);
}

/// The outputs of gates, put as the bits from `first` on, at once: of each from its two operands, whose bits stand
/// before it. One step for each.
///
/// A bit is the lowest of its byte, and the others of a byte mean nothing: so a gate needs neither a test nor a mask.
/// Sixty-four gates go in one turn. Loads of one place in it are then 512 bytes apart from turn to turn, and a
/// processor that sees such steps fetches the gates of the next turn while it evaluates those of this one.
///
/// Conditions: `first` is above 0, there is room, the variables of each gate's operands are below its own, and the bit of 0
/// is 0.
pub fn gate_all<G: AndGates>(gates: &G, first: usize, bits: &mut [u8], tally: &mut Tally)
    requires above { 0 < first }
    requires inside { first + G.count gates.now ≤ length bits.old }
    requires lefts { (k : ℕ) → k < G.count gates.now → variable (G.left gates.now k) < first + k }
    requires rights { (k : ℕ) → k < G.count gates.now → variable (G.right gates.now k) < first + k }
    requires constant { valuation_of bits.old 0 ≡ false }
    ensures values { (k : ℕ) → k < G.count gates.now
        → IsAnd (valuation_of bits.new) (first + k) (G.left gates.now k) (G.right gates.now k) }
    ensures others { (p : ℕ) → p < first → slice_index_or bits.new p 0
        ≡ slice_index_or bits.old p 0 }
    ensures as_many { length bits.new ≡ length bits.old }
    ensures steps { tally.new ≡ more_steps (G.count gates.now) tally.old }
{
    let count = gates.count();
    take_all(count, tally);
    for turn in 0..count / 64 {
        let k = 64 * turn;
        put_sixteen(gates, k, first, bits);
        put_sixteen(gates, k + 16, first, bits);
        put_sixteen(gates, k + 32, first, bits);
        put_sixteen(gates, k + 48, first, bits);
    }
    for turn in count / 64 * 16..count / 4 {
        put_four(gates, 4 * turn, first, bits);
    }
    for k in count / 4 * 4..count {
        put_output(gates, k, first, bits);
    }
}
