//! The value of an assignment.
ghost use Rattle.std.specs.Prelude.{◌≡◌, ◌-◌, ◌<◌, ◌≤◌, ◌^◌, true, false, length, IfOk, MatchOption, if◌then◌else◌};
ghost use Rattle.std.specs.List.{list_all};
ghost use Rattle.base.specs.Word.{bit_number};
ghost use Rattle.witness.specs.declared.why.Why.TheVariants as why;
ghost use Rattle.witness.specs.Admits.{is_bit, is_one_bit, is_value_byte, value_of};
ghost use Rattle.witness.specs.WordValues.{IsAsValueRead, IsValueOf, digits_word};

use crate::why::Why;
use base::Width;

/// Whether a byte is `0`, `1` or `x`.
fn is_value_byte(byte: u8) -> bool
    ensures { result ≡ is_value_byte byte }
{
    byte == b'0' || byte == b'1' || byte == b'x'
}

/// Whether each byte is `0`, `1` or `x`.
fn are_value_bytes(bytes: &[u8]) -> bool
    ensures { result ≡ list_all is_value_byte bytes.now }
{
    bytes.iter().all(|byte| is_value_byte(*byte))
}

/// The bit that a byte `0` or `1` writes; none for another byte. No branch asks which of the two it is.
fn known_bit(byte: u8) -> Option<u64>
    ensures { MatchOption result (is_bit byte ≡ false) (λ bit. (bit ≡ bit_number (is_one_bit byte))
        × (is_bit byte ≡ true)) }
{
    if byte < b'0' || byte > b'1' {
        return None;
    }
    Some(u64::from(byte - b'0'))
}

/// Eight bytes `0` as one number.
const ZEROS: u64 = 0x3030_3030_3030_3030;

/// The bits of eight bytes that none of `0` and `1` has beside those of `0`.
const EXCESS: u64 = 0xfefe_fefe_fefe_fefe;

/// What gathers the lowest bits of eight bytes in the highest byte of a product, in which no two of them meet.
const GATHER: u64 = 0x8040_2010_0804_0201;

/// The word that eight bytes write, each of them `0` or `1`, the first the highest; none for other bytes. All eight are
/// tested at once, and their bits gathered by one product.
#[inline(always)]
fn eight_bits(bytes: &[u8; 8]) -> Option<u64>
    ensures { MatchOption result (list_all is_bit bytes.now ≡ false)
        (λ word. (list_all is_bit bytes.now ≡ true) × (word ≡ digits_word 0 bytes.now)) }
{
    let read = u64::from_le_bytes(*bytes);
    let bare = read ^ ZEROS;
    let excess = bare & EXCESS;
    if excess != 0 {
        return None;
    }
    let gathered = bare.wrapping_mul(GATHER);
    Some(gathered >> 56)
}

/// The word that bytes write behind others that write a word, each of them `0` or `1`; none for other bytes.
#[inline(always)]
fn known_behind(front: u64, bytes: &[u8]) -> Option<u64>
    requires few { length bytes.now ≤ 64 }
    requires room { front < 2 ^ (64 - length bytes.now) }
    ensures { MatchOption result (list_all is_bit bytes.now ≡ false)
        (λ word. (list_all is_bit bytes.now ≡ true) × (word ≡ digits_word front bytes.now)) }
{
    let mut word = front;
    for byte in bytes {
        let bit = known_bit(*byte)?;
        word = word * 2 + bit;
    }
    Some(word)
}

/// The word that at most 64 bytes write, each of them `0` or `1`, the highest first; none for other bytes. Eight are
/// read at a time, and then the others.
#[inline(always)]
pub(crate) fn known_word(bytes: &[u8]) -> Option<u64>
    requires { length bytes.now ≤ 64 }
    ensures { MatchOption result (list_all is_bit bytes.now ≡ false)
        (λ word. IsValueOf word bytes.now) }
{
    let mut word = 0;
    let mut rest = bytes;
    while let Some((eight, behind)) = rest.split_first_chunk::<8>() {
        let bits = eight_bits(eight)?;
        word = word * 256 + bits;
        rest = behind;
    }
    known_behind(word, rest)
}

/// Why as many bytes as a word has bits write none.
pub(crate) fn refusal(bytes: &[u8]) -> Why
    ensures { result ≡ (if list_all is_value_byte bytes.now then why.Undetermined
        else why.BadValue) }
{
    if are_value_bytes(bytes) {
        Why::Undetermined
    } else {
        Why::BadValue
    }
}

/// The word of so many bits that bytes write, or why they write none.
pub(crate) fn value_of(bytes: &[u8], width: Width) -> Result<u64, Why>
    ensures is { IsAsValueRead (λ w. w) result (value_of width bytes.now) }
    ensures fits { IfOk result (λ w. w < 2 ^ width) }
{
    if bytes.len() as u64 != width.bits() {
        return Err(Why::BadValue);
    }
    match known_word(bytes) {
        Some(known) => Ok(known),
        None => Err(refusal(bytes)),
    }
}
