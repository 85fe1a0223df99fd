//! A word of the text of a proof, byte by byte.
ghost use Rattle.std.specs.Prelude.{◌≡◌, ◌+◌, ◌*◌, ◌<◌, List, ℕ, Some, [], ◌∷◌, ◌++◌, codes};
ghost use Rattle.std.specs.Str.{bytes_eq};
ghost use Rattle.base.specs.Decimals.{is_nothing};
ghost use Rattle.drup.specs.Proofs.{variable_numbered, token_of};
ghost use Rattle.drup.specs.Words.{SpellsWord, sign_of, decimal_said, word_said, token_said, IsBelow};

use crate::why::Why;
use base::Numeral;

/// What a word says.
#[derive(Clone, Copy)]
pub(crate) enum Token {
    /// A step ends.
    Ends,
    /// The step takes a clause away.
    Deletes,
    /// A literal of its clause.
    Literal(u32),
    /// The word is refused.
    Faulty(Why),
}

/// What a word says by itself.
#[derive(Clone, Copy, Debug, PartialEq, Eq)]
pub enum Said {
    /// It is `0`.
    Zero,
    /// It is `d`.
    Letter,
    /// It is a number, not 0, without zeros in front.
    Number(u64),
    /// It is a number, without zeros in front, behind a minus.
    Negative(u64),
    /// It is nothing of these.
    Nothing,
}

/// What the bytes of a word say, of which more may follow.
#[derive(Clone, Copy)]
pub struct Word {
    // the first byte is `-`
    negative: bool,
    // the only byte is `d`
    deletes: bool,
    // the bytes, behind a first `-`
    numeral: Numeral,
}

/// What a decimal says, with a minus in front or without.
fn decimal_said(negative: bool, number: Option<u64>) -> Said
    ensures { result ≡ decimal_said negative number }
{
    match number {
        None => Said::Nothing,
        Some(number) => {
            if negative {
                Said::Negative(number)
            } else {
                Said::Number(number)
            }
        }
    }
}

/// The literal of a variable's number, whose negation it is where it has a minus.
fn numbered(variables: u32, negative: bool, number: u64) -> Token
    requires { variables < 2147483647 }
    ensures said { token_said result ≡ variable_numbered variables (sign_of negative)
        (Some number) }
    ensures below { IsBelow (2 * variables + 2) result }
{
    if number == 0 {
        return Token::Faulty(Why::BadWord);
    }
    if number > u64::from(variables) {
        return Token::Faulty(Why::BadVariable);
    }
    Token::Literal(2 * number as u32 + u32::from(negative))
}

impl Word {
    /// A word with no byte yet.
    pub fn new() -> Word
        ensures { SpellsWord result [] }
    {
        Word {
            negative: false,
            deletes: false,
            numeral: Numeral::new(),
        }
    }

    /// Whether there is no byte.
    pub fn is_empty(self) -> bool
        ensures { (bytes : List ℕ) → SpellsWord self bytes → result ≡ is_nothing bytes }
    {
        if self.negative {
            return false;
        }
        self.numeral.is_empty()
    }

    /// Whether the word is `0`.
    fn is_end(self) -> bool
        ensures { (bytes : List ℕ) → SpellsWord self bytes → result ≡ bytes_eq bytes (codes "0") }
    {
        if self.negative {
            return false;
        }
        self.numeral.is_zero()
    }

    /// The same with a byte behind it.
    pub fn with(self, byte: u8) -> Word
        ensures { (bytes : List ℕ) → SpellsWord self bytes
            → SpellsWord result (bytes ++ byte ∷ []) }
    {
        if !self.is_empty() {
            return Word {
                negative: self.negative,
                deletes: false,
                numeral: self.numeral.with(byte),
            };
        }
        if byte == b'-' {
            return Word {
                negative: true,
                deletes: false,
                numeral: self.numeral,
            };
        }
        Word {
            negative: false,
            deletes: byte == b'd',
            numeral: self.numeral.with(byte),
        }
    }

    /// What the word says by itself.
    pub fn said(self) -> Said
        ensures { (bytes : List ℕ) → SpellsWord self bytes → result ≡ word_said bytes }
    {
        if self.is_end() {
            return Said::Zero;
        }
        if self.deletes {
            return Said::Letter;
        }
        decimal_said(self.negative, self.numeral.number())
    }

    /// What the word says over a formula of so many variables.
    pub(crate) fn token(self, variables: u32) -> Token
        requires { variables < 2147483647 }
        ensures said { (bytes : List ℕ) → SpellsWord self bytes
            → token_said result ≡ token_of variables bytes }
        ensures below { IsBelow (2 * variables + 2) result }
    {
        match self.said() {
            Said::Zero => Token::Ends,
            Said::Letter => Token::Deletes,
            Said::Number(number) => numbered(variables, false, number),
            Said::Negative(number) => numbered(variables, true, number),
            Said::Nothing => Token::Faulty(Why::BadWord),
        }
    }
}
