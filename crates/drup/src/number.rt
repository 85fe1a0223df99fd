//! A number of a proof in the binary form, byte by byte: seven bits a byte, least first, with the top bit on each but the last.
ghost use Rattle.std.specs.Prelude.{◌≡◌, ◌+◌, ◌*◌, ◌-◌, ◌^◌, ◌<◌, min, List, ℕ, [], ◌∷◌, ◌++◌};
ghost use Rattle.std.specs.Str.{bytes_eq};
ghost use Rattle.base.specs.Decimals.{is_nothing};
ghost use Rattle.drup.specs.BinaryProofs.{coded_number, literal_numbered, number_said};
ghost use Rattle.drup.specs.Numbers.{SpellsNumber};
ghost use Rattle.drup.specs.Words.{token_said, IsBelow};

use crate::why::Why;
use crate::word::Token;

/// What the bytes of a number write, of which more follow. A number above 2^64 - 1 is kept as 2^64 - 1.
#[derive(Clone, Copy)]
pub struct Number {
    // what the next byte counts, at most 2^64 - 1
    unit: u64,
    // the number that the bytes write, at most 2^64 - 1
    value: u64,
}

/// The literal that a number is over so many variables.
fn numbered(variables: u32, number: u64) -> Token
    requires { variables < 2147483647 }
    ensures said { token_said result ≡ literal_numbered variables number }
    ensures below { IsBelow (2 * variables + 2) result }
{
    if number < 2 {
        return Token::Faulty(Why::BadWord);
    }
    if number > 2 * u64::from(variables) + 1 {
        return Token::Faulty(Why::BadVariable);
    }
    Token::Literal(number as u32)
}

impl Number {
    /// A number with no byte yet.
    pub fn new() -> Number
        ensures { SpellsNumber result [] }
    {
        Number { unit: 1, value: 0 }
    }

    /// Whether there is no byte.
    pub fn is_empty(self) -> bool
        ensures { (bytes : List ℕ) → SpellsNumber self bytes → result ≡ is_nothing bytes }
    {
        self.unit == 1
    }

    /// Whether a byte behind the others is alone, and this one.
    pub fn is(self, byte: u8, wanted: u8) -> bool
        ensures { (bytes : List ℕ) → SpellsNumber self bytes → result
            ≡ bytes_eq (bytes ++ byte ∷ []) (wanted ∷ []) }
    {
        byte == wanted && self.is_empty()
    }

    /// The same with a byte behind it, which has the top bit.
    pub fn with(self, byte: u8) -> Number
        ensures { (bytes : List ℕ) → SpellsNumber self bytes
            → SpellsNumber result (bytes ++ byte ∷ []) }
    {
        Number {
            unit: self.unit.saturating_mul(128),
            value: self.number(byte),
        }
    }

    /// The number that the bytes write with another behind them, at most 2^64 - 1.
    pub fn number(self, byte: u8) -> u64
        ensures { (bytes : List ℕ) → SpellsNumber self bytes → result
            ≡ min (coded_number (bytes ++ byte ∷ [])) (2 ^ 64 - 1) }
    {
        let part = u64::from(byte % 128).saturating_mul(self.unit);
        self.value.saturating_add(part)
    }

    /// What the number says over a formula of so many variables, where its last byte is this one.
    pub(crate) fn token(self, byte: u8, variables: u32) -> Token
        requires variables { variables < 2147483647 }
        requires last { byte < 128 }
        ensures said { (bytes : List ℕ) → SpellsNumber self bytes
            → token_said result ≡ number_said variables (bytes ++ byte ∷ []) }
        ensures below { IsBelow (2 * variables + 2) result }
    {
        if byte == 0 {
            return Token::Faulty(Why::BadWord);
        }
        numbered(variables, self.number(byte))
    }
}
