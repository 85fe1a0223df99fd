//! Bytes of a text as they are written in a row.

use std::alloc::AllocError;

/// What stands before a byte of a line that it belongs to.
#[derive(Clone, Copy)]
enum Before {
    /// Nothing.
    Nothing,
    /// A backslash.
    Backslash,
    /// A backslash and an `x`.
    Number,
    /// These and the first digit, whose value this is.
    Digit(u8),
}

/// The value of a hexadecimal digit.
fn digit_value(digit: u8) -> Option<u8> {
    match digit {
        b'0'..=b'9' => Some(digit - b'0'),
        b'a'..=b'f' => Some(digit - b'a' + 10),
        _ => None,
    }
}

/// Adds the bytes that a line writes to a text: `\\` is a backslash, `\x82` the byte of that number, a space what stands for
/// one, and every other byte itself. Answers whether the line is written so.
pub(crate) fn add_written(text: &mut Vec<u8>, line: &[u8], space: u8) -> Result<bool, AllocError> {
    let mut before = Before::Nothing;
    for byte in line {
        before = match (before, *byte, digit_value(*byte)) {
            (Before::Nothing, b'\\', _) => Before::Backslash,
            (Before::Nothing, b' ', _) => {
                text.push(space)?;
                Before::Nothing
            }
            (Before::Nothing, byte, _) | (Before::Backslash, byte @ b'\\', _) => {
                text.push(byte)?;
                Before::Nothing
            }
            (Before::Backslash, b'x', _) => Before::Number,
            (Before::Number, _, Some(value)) => Before::Digit(value),
            (Before::Digit(high), _, Some(low)) => {
                text.push(high.wrapping_mul(16).wrapping_add(low))?;
                Before::Nothing
            }
            _ => return Ok(false),
        };
    }
    Ok(matches!(before, Before::Nothing))
}
