//! Where the next byte of a proof in the binary form stands.
ghost use Rattle.std.specs.Prelude.{◌≡◌, ◌<◌, true, false, if◌then◌else◌, List, ℕ, [], ◌∷◌, ◌++◌, MatchOption};
ghost use Rattle.std.specs.List.{list_any};
ghost use Rattle.base.specs.Lines.{line_after};
ghost use Rattle.drup.specs.BinaryProofs.{number_pieces};
ghost use Rattle.drup.specs.ProofJudges.{ends_number};
ghost use Rattle.lrat.specs.HintedProofs.{number, faulty, Mark, mark};
ghost use Rattle.lrat.specs.BinaryHintedProofs.{number_in, literal_coded, step_said, piece_said, spot_behind, step_behind, step_marks};
ghost use Rattle.lrat.specs.Words.{token_said};
ghost use Rattle.drup.specs.Numbers.{SpellsNumber};
ghost use Rattle.lrat.specs.Codes.{coded_said, coded_behind, list_behind, step_after_list};
ghost use Rattle.lrat.specs.Scans.{spot_of, BeginsNumber, EndsList, BeginsAddition};
ghost use Rattle.lrat.specs.declared.scan.Spot.TheVariants as spot;

use crate::token::Token;
use drup::{Number, Why, is_too_many};

/// Where a piece stands, of which each is a letter or a number.
#[derive(Clone, Copy)]
pub(crate) enum Spot {
    /// Between two steps.
    Step,
    /// Behind an `a`.
    Id,
    /// Among the literals of a clause.
    Literal,
    /// Among ids.
    Other,
}

/// Where the next byte stands.
#[derive(Clone, Copy)]
pub(crate) struct Scan {
    // where the piece stands that has begun, or begins
    spot: Spot,
    // the number of the step, counted from 1
    step: u64,
    // the piece that has begun
    number: Number,
}

/// What a number is as a literal.
fn literal_coded(number: u64) -> Token
    ensures { token_said result ≡ literal_coded number }
{
    if number % 2 == 0 {
        return Token::Number(number / 2);
    }
    Token::Negative(number / 2)
}

/// The number of the step behind a step.
fn step_after(step: u64) -> u64
    ensures { result ≡ line_after step }
{
    step.saturating_add(1)
}

impl Scan {
    /// Before the first byte.
    pub(crate) fn new() -> Scan
        ensures step { result.step ≡ 1 }
        ensures spot { result.spot ≡ spot.Step }
        ensures number { SpellsNumber result.number [] }
    {
        Scan {
            spot: Spot::Step,
            step: 1,
            number: Number::new(),
        }
    }

    /// The number of the step.
    pub(crate) fn step(self) -> u64
        ensures { result ≡ self.step }
    {
        self.step
    }

    /// Behind a byte that has the top bit.
    pub(crate) fn with(self, byte: u8) -> Scan
        ensures number { (bytes : List ℕ) → SpellsNumber self.number bytes
            → SpellsNumber result.number (bytes ++ byte ∷ []) }
        ensures step { result.step ≡ self.step }
        ensures spot { result.spot ≡ self.spot }
    {
        Scan {
            spot: self.spot,
            step: self.step,
            number: self.number.with(byte),
        }
    }

    /// What a piece between two steps says that ends with a byte.
    fn step_token(self, byte: u8) -> Token
        ensures { (bytes : List ℕ) → SpellsNumber self.number bytes
            → token_said result ≡ step_said self.step (bytes ++ byte ∷ []) }
    {
        if is_too_many(self.step) {
            return Token::Faulty(Why::TooLong);
        }
        if self.number.is(byte, b'a') {
            return Token::Adds;
        }
        if self.number.is(byte, b'd') {
            return Token::Removes;
        }
        Token::Faulty(Why::BadWord)
    }

    /// What a number says that is to be an id and ends with a byte.
    fn id_token(self, byte: u8) -> Token
        requires { byte < 128 }
        ensures { (bytes : List ℕ) → SpellsNumber self.number bytes
            → token_said result ≡ number_in number (bytes ++ byte ∷ []) }
    {
        if byte == 0 {
            return Token::Faulty(Why::BadWord);
        }
        Token::Number(self.number.number(byte))
    }

    /// What a number says that is to be a literal and ends with a byte.
    fn literal_token(self, byte: u8) -> Token
        requires { byte < 128 }
        ensures { (bytes : List ℕ) → SpellsNumber self.number bytes
            → token_said result ≡ number_in literal_coded (bytes ++ byte ∷ []) }
    {
        if byte == 0 {
            return Token::Faulty(Why::BadWord);
        }
        literal_coded(self.number.number(byte))
    }

    /// What the piece says that ends with a byte.
    pub(crate) fn token(self, byte: u8) -> Token
        requires { byte < 128 }
        ensures { (bytes : List ℕ) → SpellsNumber self.number bytes → token_said result
            ≡ piece_said self.step (spot_of self.spot) (bytes ++ byte ∷ []) }
    {
        let ends = self.number.is(byte, 0);
        match self.spot {
            Spot::Step => self.step_token(byte),
            Spot::Id => self.id_token(byte),
            Spot::Literal => {
                if ends {
                    Token::Ends
                } else {
                    self.literal_token(byte)
                }
            }
            Spot::Other => {
                if ends {
                    Token::Ends
                } else {
                    self.id_token(byte)
                }
            }
        }
    }

    /// Where the piece stands behind one that ends with a byte.
    fn spot_behind(self, byte: u8) -> Spot
        ensures { (bytes : List ℕ) → SpellsNumber self.number bytes → spot_of result
            ≡ spot_behind (spot_of self.spot) (bytes ++ byte ∷ []) }
    {
        let ends = self.number.is(byte, 0);
        let adds = self.number.is(byte, b'a');
        match self.spot {
            Spot::Step => { if adds { Spot::Id } else { Spot::Other } }
            Spot::Id => Spot::Literal,
            Spot::Literal => { if ends { Spot::Other } else { Spot::Literal } }
            Spot::Other => { if ends { Spot::Step } else { Spot::Other } }
        }
    }

    /// The number of the step behind a piece that ends with a byte.
    fn step_behind(self, byte: u8) -> u64
        ensures { (bytes : List ℕ) → SpellsNumber self.number bytes → result
            ≡ step_behind self.step (spot_of self.spot) (bytes ++ byte ∷ []) }
    {
        let ends = self.number.is(byte, 0);
        match self.spot {
            Spot::Step | Spot::Id | Spot::Literal => self.step,
            Spot::Other => {
                if ends {
                    step_after(self.step)
                } else {
                    self.step
                }
            }
        }
    }

    /// Behind a piece that ends with a byte.
    pub(crate) fn behind(self, byte: u8) -> Scan
        ensures number { SpellsNumber result.number [] }
        ensures step { (bytes : List ℕ) → SpellsNumber self.number bytes → result.step
            ≡ step_behind self.step (spot_of self.spot) (bytes ++ byte ∷ []) }
        ensures spot { (bytes : List ℕ) → SpellsNumber self.number bytes → spot_of result.spot
            ≡ spot_behind (spot_of self.spot) (bytes ++ byte ∷ []) }
    {
        Scan {
            spot: self.spot_behind(byte),
            step: self.step_behind(byte),
            number: Number::new(),
        }
    }

    /// Whether a number begins where the next byte stands: none has, and it is not between two steps.
    #[inline(always)]
    pub(crate) fn begins_number(self) -> bool
        ensures { result ≡ true → BeginsNumber self }
    {
        match self.spot {
            Spot::Step => false,
            Spot::Id | Spot::Literal | Spot::Other => self.number.is_empty(),
        }
    }

    /// Whether a number begins among literals where the next byte stands.
    #[inline(always)]
    pub(crate) fn begins_literal(self) -> bool
        ensures { result ≡ true → BeginsNumber self × (self.spot ≡ spot.Literal) }
    {
        match self.spot {
            Spot::Literal => self.number.is_empty(),
            Spot::Step | Spot::Id | Spot::Other => false,
        }
    }

    /// Whether a number begins among ids where the next byte stands.
    #[inline(always)]
    pub(crate) fn begins_other(self) -> bool
        ensures { result ≡ true → BeginsNumber self × (self.spot ≡ spot.Other) }
    {
        match self.spot {
            Spot::Other => self.number.is_empty(),
            Spot::Step | Spot::Id | Spot::Literal => false,
        }
    }

    /// Whether a list ends with the byte that stands where a number begins.
    #[inline(always)]
    pub(crate) fn ends_list(self, byte: u8) -> bool
        ensures { result ≡ true → EndsList self byte }
    {
        match self.spot {
            Spot::Step | Spot::Id => false,
            Spot::Literal | Spot::Other => byte == 0,
        }
    }

    /// Whether a number is a literal where it is the piece that begins.
    #[inline(always)]
    pub(crate) fn is_literal(self) -> bool
        ensures { (n : ℕ) → coded_said (spot_of self.spot) n
            ≡ (if result then literal_coded n else number n) }
    {
        match self.spot {
            Spot::Step | Spot::Id | Spot::Other => false,
            Spot::Literal => true,
        }
    }

    /// Whether a step that adds a clause begins with a byte, and is not one too many.
    #[inline(always)]
    pub(crate) fn begins_addition(self, byte: u8) -> bool
        ensures { result ≡ true → BeginsAddition self byte }
    {
        match self.spot {
            Spot::Step => byte == b'a' && self.number.is_empty() && !is_too_many(self.step),
            Spot::Id | Spot::Literal | Spot::Other => false,
        }
    }

    /// Behind the byte with which a step begins that adds a clause.
    #[inline(always)]
    pub(crate) fn in_addition(self) -> Scan
        ensures spot { result.spot ≡ spot.Id }
        ensures step { result.step ≡ self.step }
        ensures number { result.number ≡ self.number }
    {
        Scan {
            spot: Spot::Id,
            step: self.step,
            number: self.number,
        }
    }

    /// Behind a number from 1 on.
    #[inline(always)]
    pub(crate) fn behind_number(self) -> Scan
        ensures spot { spot_of result.spot ≡ coded_behind (spot_of self.spot) }
        ensures step { result.step ≡ self.step }
        ensures number { result.number ≡ self.number }
    {
        Scan {
            spot: match self.spot {
                Spot::Step | Spot::Other => Spot::Other,
                Spot::Id | Spot::Literal => Spot::Literal,
            },
            step: self.step,
            number: self.number,
        }
    }

    /// Behind the end of a list.
    #[inline(always)]
    pub(crate) fn behind_list(self) -> Scan
        ensures spot { spot_of result.spot ≡ list_behind (spot_of self.spot) }
        ensures step { result.step ≡ step_after_list self.step (spot_of self.spot) }
        ensures number { result.number ≡ self.number }
    {
        let (spot, step) = match self.spot {
            Spot::Step | Spot::Literal => (Spot::Other, self.step),
            Spot::Id => (Spot::Literal, self.step),
            Spot::Other => (Spot::Step, step_after(self.step)),
        };
        Scan {
            spot,
            step,
            number: self.number,
        }
    }

    /// Why a text that ends between two steps within a piece is refused.
    fn cut_letter(self) -> Why
        ensures { (b : ℕ) (bytes : List ℕ) → ends_number b ≡ false
            → step_said self.step (b ∷ bytes) ≡ faulty result }
    {
        if is_too_many(self.step) {
            return Why::TooLong;
        }
        Why::BadWord
    }

    /// Why a text that ends here is refused, if it is.
    pub(crate) fn cut(self) -> Option<Why>
        ensures { (bytes : List ℕ) → SpellsNumber self.number bytes
            → list_any ends_number bytes ≡ false → MatchOption result
            (step_marks self.step (spot_of self.spot) (number_pieces bytes) ≡ [])
            (λ why. (rest : List Mark)
            × (step_marks self.step (spot_of self.spot) (number_pieces bytes)
            ≡ mark self.step (faulty why) ∷ rest)) }
    {
        match self.spot {
            Spot::Step => {
                if self.number.is_empty() {
                    None
                } else {
                    Some(self.cut_letter())
                }
            }
            Spot::Id | Spot::Literal | Spot::Other => Some(Why::CutOff),
        }
    }
}
