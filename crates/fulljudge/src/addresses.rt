//! What stands before and behind a space, and addresses of cells.
ghost use Rattle.std.specs.Prelude.{◌≡◌, ◌≤◌, None, Some, true, false, length, reverse, MatchOption};
ghost use Rattle.std.specs.List.{list_all};
ghost use Rattle.base.specs.Word.{bit_number};
ghost use Rattle.witness.specs.Texts.{symbol_part};
ghost use Rattle.witness.specs.Admits.{cut_at_space, is_bit, is_one_bit};
ghost use Rattle.witness.specs.WordValues.{IsValueOf};
ghost use Rattle.fulljudge.specs.Lines.{without_last, in_brackets, address_of};

use base::cut_at;

/// The bytes of a text before the first space, and those from it on.
pub(crate) fn front_and_tail(text: &[u8]) -> (&[u8], &[u8])
    ensures front { result.0.now ≡ (cut_at_space text.now).0 }
    ensures tail { result.1.now ≡ symbol_part (cut_at_space text.now).1 }
{
    match cut_at(text, b' ') {
        None => (text, b""),
        Some((front, _)) => text.split_at(front.len()),
    }
}

/// The bit that a byte `0` or `1` writes; none for another byte.
fn bit_of(byte: u8) -> Option<u64>
    ensures { MatchOption result (is_bit byte ≡ false) (λ bit. (bit ≡ bit_number (is_one_bit byte))
        × (is_bit byte ≡ true)) }
{
    match byte {
        b'0' => Some(0),
        b'1' => Some(1),
        _ => None,
    }
}

/// The number that binary digits write, the highest first; none where a byte is no such digit.
fn binary_number(digits: &[u8]) -> Option<u64>
    requires { length digits.now ≤ 64 }
    ensures { MatchOption result (list_all is_bit digits.now ≡ false)
        (λ x. IsValueOf x digits.now) }
{
    let mut number = 0;
    for byte in digits {
        let bit = bit_of(*byte)?;
        number = number * 2 + bit;
    }
    Some(number)
}

/// The bytes before the last, where that is a closing bracket.
fn before_bracket(bytes: &[u8]) -> Option<&[u8]>
    ensures { MatchOption result (without_last (reverse bytes.now) ≡ None)
        (λ digits. without_last (reverse bytes.now) ≡ Some digits.now) }
{
    match bytes.split_last() {
        Some((last, front)) if *last == b']' => Some(front),
        _ => None,
    }
}

/// The bytes between brackets, where a token begins with the one and ends with the other.
fn in_brackets(token: &[u8]) -> Option<&[u8]>
    ensures { MatchOption result (in_brackets token.now ≡ None)
        (λ digits. in_brackets token.now ≡ Some digits.now) }
{
    match token {
        [first, rest @ ..] if *first == b'[' => before_bracket(rest),
        _ => None,
    }
}

/// The address of a cell by a token, where an index has so many bits.
pub(crate) fn address(index_bits: u64, token: &[u8]) -> Option<u64>
    requires { index_bits ≤ 64 }
    ensures { result ≡ address_of index_bits token.now }
{
    match in_brackets(token) {
        Some(digits) if digits.len() as u64 == index_bits => binary_number(digits),
        _ => None,
    }
}
