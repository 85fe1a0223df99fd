//! Lines of bits, and the bits that latches begin with.
ghost use Rattle.std.specs.Prelude.{◌≡◌, length, drop};
ghost use Rattle.witness.specs.Texts.{digit};
ghost use Rattle.witness.specs.BitTexts.{bit_line};
ghost use Rattle.engine_form.specs.EngineForm.{taken_bits, first_bit, first_bits};

use aiger::{Latch, Reset};

/// The digit of a bit.
fn digit(bit: bool) -> u8
    ensures { result ≡ digit bit }
{
    if bit { b'1' } else { b'0' }
}

/// Writes the line of some bits without its end.
pub(crate) fn write_line(bits: &[bool], line: &mut [u8])
    requires { length line.old ≡ length bits.now }
    ensures { line.new ≡ bit_line bits.now }
{
    for place in 0..bits.len() {
        line[place] = digit(bits[place]);
    }
}

/// How a latch begins, by its reset or by the first of some bits, and the bits that are left.
fn begin(reset: Reset, given: &[bool]) -> (bool, &[bool])
    ensures bit { result.0 ≡ first_bit reset given.now }
    ensures left { result.1.now ≡ drop (taken_bits reset) given.now }
{
    match reset {
        Reset::Zero => (false, given),
        Reset::One => (true, given),
        Reset::Free => match given {
            [] => (false, given),
            [first, left @ ..] => (*first, left),
        },
    }
}

/// Writes the bits that latches begin with: their resets, and of each without an initial value the next of the bits that
/// are given.
pub(crate) fn write_first_bits(latches: &[Latch], given: &[bool], bits: &mut [bool])
    requires { length bits.old ≡ length latches.now }
    ensures { bits.new ≡ first_bits latches.now given.now }
{
    let mut left = given;
    for place in 0..latches.len() {
        let (bit, behind) = begin(latches[place].reset, left);
        bits[place] = bit;
        left = behind;
    }
}
