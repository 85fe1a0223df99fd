//! Lines that assign words of at most 64 bits.
ghost use Rattle.std.specs.Prelude.{◌≡◌, ℕ, ◌+◌, ◌*◌, ◌≤◌, ◌==◌, List, length, map, reverse};
ghost use Rattle.base.specs.Word.{word, bit_number};
ghost use Rattle.witness.specs.Texts.{Assignment, IsAssignment, assignment_line};
ghost use Rattle.witness.specs.Admits.{is_one_bit};
ghost use Rattle.witness.specs.KeptLines.{AreNarrow};
ghost use Rattle.unfit.specs.Steps.{CutsAtSpace};

use base::{cut_at, decimal};

/// The most digits of a word.
const MOST_DIGITS: usize = 64;

/// The number of one bit, by its digit.
fn bit_number(digit: u8) -> u64
    ensures { result ≡ bit_number (digit == 49) }
{
    if digit == b'1' { 1 } else { 0 }
}

/// The word of binary digits, the highest first.
fn word(digits: &[u8]) -> u64
    requires { length digits.now ≤ 64 }
    ensures { result ≡ word (reverse (map is_one_bit digits.now)) }
{
    let mut word = 0;
    for digit in digits {
        word = 2 * word + bit_number(*digit);
    }
    word
}

/// The word of binary digits, and 0 where there are more than 64.
fn word_of_digits(digits: &[u8]) -> u64
    ensures { length digits.now ≤ 64 → result ≡ word (reverse (map is_one_bit digits.now)) }
{
    if digits.len() > MOST_DIGITS {
        return 0;
    }
    word(digits)
}

/// What stands before the first space, and behind it.
fn at_space(bytes: &[u8]) -> (&[u8], &[u8])
    ensures { CutsAtSpace bytes.now result.0.now result.1.now }
{
    match cut_at(bytes, b' ') {
        Some(parts) => parts,
        None => (bytes, &[]),
    }
}

/// The index and the word of an assignment.
pub(crate) fn assignment(line: &[u8]) -> (u64, u64)
    ensures { (widths : List ℕ) (a : Assignment) → AreNarrow widths → IsAssignment widths a
        → line.now ≡ assignment_line widths a
        → (result.0 ≡ a.index) × (result.1 ≡ a.word) }
{
    let (index, rest) = at_space(line);
    let (digits, _) = at_space(rest);
    (decimal(index).unwrap_or(0), word_of_digits(digits))
}
