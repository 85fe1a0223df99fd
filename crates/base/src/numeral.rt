//! A decimal, byte by byte.
ghost use Rattle.std.specs.Prelude.{◌≡◌, List, ℕ, [], ◌∷◌, ◌++◌, codes};
ghost use Rattle.std.specs.Str.{bytes_eq};
ghost use Rattle.base.specs.Decimals.{is_nothing, number_of, number_more};
ghost use Rattle.base.specs.Numerals.{CountsDigits, numeral_more, is_numeral};

use crate::decimals::is_digit;

/// What bytes say as a decimal, of which more may follow.
#[derive(Clone, Copy)]
pub struct Numeral {
    // how many bytes, at most 2^64 - 1
    count: u64,
    // the first byte is `0`
    zero: bool,
    // each byte is a digit
    digits: bool,
    // the number that they write then, at most 2^64 - 1
    number: u64,
}

/// The number with a digit more, at most 2^64 - 1; the same number where the byte is no digit.
fn number_more(number: u64, byte: u8) -> u64
    ensures { result ≡ number_more number byte }
{
    if is_digit(byte) {
        number
            .saturating_mul(10)
            .saturating_add(u64::from(byte - b'0'))
    } else {
        number
    }
}

impl Numeral {
    /// No byte yet.
    pub fn new() -> Numeral
        ensures { CountsDigits result [] }
    {
        Numeral {
            count: 0,
            zero: false,
            digits: true,
            number: 0,
        }
    }

    /// What is kept with a byte more.
    fn more(self, byte: u8) -> Numeral
        ensures { result ≡ numeral_more self byte }
    {
        Numeral {
            count: self.count.saturating_add(1),
            zero: if self.count == 0 {
                byte == b'0'
            } else {
                self.zero
            },
            digits: self.digits && is_digit(byte),
            number: number_more(self.number, byte),
        }
    }

    /// The same with a byte behind it.
    pub fn with(self, byte: u8) -> Numeral
        ensures { (bytes : List ℕ) → CountsDigits self bytes
            → CountsDigits result (bytes ++ byte ∷ []) }
    {
        self.more(byte)
    }

    /// Whether there is no byte.
    pub fn is_empty(self) -> bool
        ensures { (bytes : List ℕ) → CountsDigits self bytes → result ≡ is_nothing bytes }
    {
        self.count == 0
    }

    /// Whether the only byte is `0`.
    pub fn is_zero(self) -> bool
        ensures { (bytes : List ℕ) → CountsDigits self bytes → result ≡ bytes_eq bytes (codes "0") }
    {
        self.count == 1 && self.zero
    }

    /// Whether the bytes are a decimal.
    fn is_numeral(self) -> bool
        ensures { result ≡ is_numeral self }
    {
        self.count > 0 && self.digits && (!self.zero || self.count == 1)
    }

    /// The number that the bytes write, at most 2^64 - 1, where they are a decimal.
    pub fn number(self) -> Option<u64>
        ensures { (bytes : List ℕ) → CountsDigits self bytes → result ≡ number_of bytes }
    {
        if self.is_numeral() {
            Some(self.number)
        } else {
            None
        }
    }
}
