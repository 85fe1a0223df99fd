//! A whole line of a witness of a circuit.
ghost use Rattle.std.specs.Prelude.{◌≡◌, ◌==◌, ℕ, ◌<◌, List, MatchOption, Some, None, Ok, Err, false, true, length, map, if◌then◌else◌};
ghost use Rattle.std.specs.List.{list_all};
ghost use Rattle.witness.specs.BitAdmits.{judged_claim, claim_at, bits_at};
ghost use Rattle.witness.specs.Admits.{is_bit, is_one_bit};
ghost use Rattle.witness.specs.CutLines.{AreFront};

use crate::why::Why;
use crate::word_line::{first_of, number_behind};
use crate::word_value::refusal;

/// Whether a byte is `0` or `1`.
fn is_bit(byte: u8) -> bool
    ensures { result ≡ is_bit byte }
{
    byte == b'0' || byte == b'1'
}

/// Whether all bytes of a line are `0` or `1`. All are looked at, so that many are at once.
pub fn are_bits(line: &[u8]) -> bool
    ensures { result ≡ list_all is_bit line.now }
{
    let mut all = true;
    for byte in line {
        all &= is_bit(*byte);
    }
    all
}

/// Why a line is not so many bits, if it is not.
pub(crate) fn no_bits(line: &[u8], count: u64) -> Option<Why>
    ensures { MatchOption result ((length line.now ≡ count)
        × (bits_at count line.now ≡ Ok (map is_one_bit line.now))) (λ why. bits_at count line.now ≡ Err why) }
{
    if line.len() as u64 != count {
        return Some(Why::BadValue);
    }
    if are_bits(line) {
        return None;
    }
    Some(refusal(line))
}

/// The bad property that a claim by a byte and a number is of, of so many, or why it is of none.
fn judged(first: u8, number: u64, bads: u64) -> Result<u64, Why>
    ensures { result ≡ judged_claim bads
        (if first == 98 then Some (record { justice = false; index = number })
        else (if first == 106 then Some (record { justice = true; index = number }) else None)) }
{
    if first == b'b' {
        return if number < bads {
            Ok(number)
        } else {
            Err(Why::BadClaim)
        };
    }
    if first == b'j' {
        Err(Why::JusticeClaim)
    } else {
        Err(Why::BadClaim)
    }
}

/// The bad property that a line claims, of so many, or why it claims none.
fn claimed(line: &[u8], bads: u64) -> Result<u64, Why>
    ensures { result ≡ claim_at bads line.now }
{
    match number_behind(line) {
        Some(number) => judged(first_of(line), number, bads),
        None => Err(Why::BadClaim),
    }
}

/// The bad property that a line claims, of so many, or why it claims none. Of a longer line the first 22 bytes are enough, and
/// whether all others are digits.
pub(crate) fn claim_of(line: &[u8], digits: bool, bads: u64) -> Result<u64, Why>
    ensures { (room : ℕ) (whole : List ℕ) → 21 < room → AreFront room line.now digits whole
        → result ≡ claim_at bads whole }
{
    if !digits {
        return Err(Why::BadClaim);
    }
    claimed(line, bads)
}
