//! The passes over the lists of bits of a run, each bit the lowest of its byte.
ghost use Rattle.std.specs.Prelude.{◌≡◌, ℕ, ◌+◌, ◌<◌, ◌≤◌, false, length, All, slice_index_or};
ghost use Rattle.base.specs.Steps.{more_steps};
ghost use Rattle.base.specs.Literal.{variable, valuation_of, IsAnd};
ghost use Rattle.runs.specs.Arranging.{AreBehindOperands, left_operand, right_operand};
ghost use Rattle.runs.specs.CircuitRun.{reset_bit, written_bits};
ghost use Rattle.runs.specs.CircuitHolds.{AreTaken, IsCopied, IsPut};

use aiger::{Gate, Latch, Lit, Reset};
use base::{AndGates, Tally, gate_all, literal_bit, take_all};

/// The gates of a circuit as those that `base` counts and evaluates.
#[derive(Drop)]
struct Operands<'a>(&'a [Gate]);

impl<'a> AndGates for Operands<'a> {
    ghost use Rattle.std.specs.Prelude.{length};
    ghost use Rattle.runs.specs.Arranging.{left_operand, right_operand};

    ghost count = { λ g. length g.0.now };

    ghost left = { λ g. left_operand g.0.now };

    ghost right = { λ g. right_operand g.0.now };

    #[inline(always)]
    fn count(&self) -> usize {
        self.0.len()
    }

    #[inline(always)]
    fn operands(&self, k: usize) -> (u32, u32) {
        let gate = &self.0[k];
        (gate.rhs0.number(), gate.rhs1.number())
    }
}

/// Gives each gate its bit, from those before it; `first` is the variable of the first gate. One step for each.
pub(crate) fn settle_gates(gates: &[Gate], first: usize, bits: &mut [u8], tally: &mut Tally)
    requires above { 0 < first }
    requires behind { AreBehindOperands first gates.now }
    requires inside { first + length gates.now ≤ length bits.old }
    requires constant { valuation_of bits.old 0 ≡ false }
    ensures gates { (k : ℕ) → k < length gates.now
        → IsAnd (valuation_of bits.new) (first + k) (left_operand gates.now k) (right_operand gates.now k) }
    ensures others { (p : ℕ) → p < first → slice_index_or bits.new p 0
        ≡ slice_index_or bits.old p 0 }
    ensures as_many { length bits.new ≡ length bits.old }
    ensures steps { tally.new ≡ more_steps (length gates.now) tally.old }
{
    gate_all(&Operands(gates), first, bits, tally);
}

/// Takes the bit of one latch's next literal, where those before it are taken.
#[inline(always)]
fn take_next(nexts: &[Lit], k: usize, bits: &[u8], taken: &mut [u8])
    requires there { k < length nexts.now }
    requires inside { All (λ l. variable l < length bits.now) nexts.now }
    requires constant { valuation_of bits.now 0 ≡ false }
    requires as_many { length taken.old ≡ length nexts.now }
    ensures taken { AreTaken nexts.now bits.now k taken.old
        → AreTaken nexts.now bits.now (k + 1) taken.new }
    ensures as_many { length taken.new ≡ length taken.old }
{
    taken[k] = literal_bit(bits, nexts[k].number());
}

/// Takes the bits of the latches' next literals, four in one turn. One step for each.
pub(crate) fn take_nexts(nexts: &[Lit], bits: &[u8], taken: &mut [u8], tally: &mut Tally)
    requires inside { All (λ l. variable l < length bits.now) nexts.now }
    requires constant { valuation_of bits.now 0 ≡ false }
    requires as_many { length taken.old ≡ length nexts.now }
    ensures taken { AreTaken nexts.now bits.now (length nexts.now) taken.new }
    ensures as_many { length taken.new ≡ length taken.old }
    ensures steps { tally.new ≡ more_steps (length nexts.now) tally.old }
{
    let count = nexts.len();
    take_all(count, tally);
    for turn in 0..count / 4 {
        let k = 4 * turn;
        take_next(nexts, k, bits, taken);
        take_next(nexts, k + 1, bits, taken);
        take_next(nexts, k + 2, bits, taken);
        take_next(nexts, k + 3, bits, taken);
    }
    for k in count / 4 * 4..count {
        take_next(nexts, k, bits, taken);
    }
}

/// The bit that a latch begins with.
fn first_bit(reset: Reset) -> bool
    ensures { result ≡ reset_bit reset }
{
    match reset {
        Reset::One => true,
        Reset::Zero | Reset::Free => false,
    }
}

/// Takes the bits that the latches begin with.
pub(crate) fn take_first_bits(latches: &[Latch], taken: &mut [u8])
    requires as_many { length taken.old ≡ length latches.now }
    ensures taken { (k : ℕ) (d : Latch) → k < length latches.now
        → valuation_of taken.new k ≡ reset_bit (slice_index_or latches.now k d).reset }
    ensures as_many { length taken.new ≡ length taken.old }
{
    for (k, latch) in latches.iter().enumerate() {
        taken[k] = u8::from(first_bit(latch.reset));
    }
}

/// Puts bits at the places from `first` on.
pub(crate) fn put_bits(given: &[bool], first: usize, bits: &mut [u8])
    requires { first + length given.now ≤ length bits.old }
    ensures { IsPut given.now first bits.old bits.new }
{
    for (k, bit) in given.iter().enumerate() {
        bits[first + k] = u8::from(*bit);
    }
}

/// Puts the bits that were taken at the places from `first` on.
pub(crate) fn put_taken(taken: &[u8], first: usize, bits: &mut [u8])
    requires { first + length taken.now ≤ length bits.old }
    ensures { IsCopied taken.now first bits.old bits.new }
{
    bits[first..first + taken.len()].copy_from_slice(taken);
}

/// Puts the bits that digits write at the places from `first` on.
pub(crate) fn put_digits(digits: &[u8], first: usize, bits: &mut [u8])
    requires { first + length digits.now ≤ length bits.old }
    ensures { IsPut (written_bits digits.now) first bits.old bits.new }
{
    for (k, digit) in digits.iter().enumerate() {
        bits[first + k] = u8::from(*digit == b'1');
    }
}

/// Puts 0 for each input.
pub(crate) fn clear_inputs(inputs: usize, bits: &mut [u8])
    requires { inputs < length bits.old }
    ensures cleared { (k : ℕ) → k < inputs → valuation_of bits.new (1 + k) ≡ false }
    ensures others { (p : ℕ) → inputs < p → slice_index_or bits.new p 0
        ≡ slice_index_or bits.old p 0 }
    ensures constant { slice_index_or bits.new 0 0 ≡ slice_index_or bits.old 0 0 }
    ensures as_many { length bits.new ≡ length bits.old }
{
    bits[1..1 + inputs].fill(0);
}
