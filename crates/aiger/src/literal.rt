//! Literals: variables, their negations, and the two constants.
ghost use Rattle.std.specs.Prelude.{◌≡◌, ℕ};
ghost use Rattle.base.specs.Literal.{variable, negation};

use std::marker::Model;

/// A literal: 2v is variable v, 2v + 1 is its negation, 0 is false and 1 is true.
#[derive(Clone, Copy, PartialEq, Eq)]
pub struct Lit {
    number: u32,
}

impl Model for Lit {
    ghost Value = { ℕ };

    ghost view = { λ l. l.number };

    ghost inverse = { λ n. record { number = n } };
}

impl Lit {
    /// The literal that is always false, 0.
    pub const FALSE: Lit = Lit { number: 0 };

    /// The literal that is always true, 1.
    pub const TRUE: Lit = Lit { number: 1 };

    /// The literal of a number.
    pub fn new(number: u32) -> Lit
        ensures { result ≡ number }
    {
        Lit { number }
    }

    /// Its number.
    pub fn number(self) -> u32
        ensures { result ≡ self }
    {
        self.number
    }

    /// Its negation: 2v and 2v + 1 are exchanged.
    pub fn not(self) -> Lit
        ensures { result ≡ negation self }
    {
        Lit {
            number: self.number ^ 1,
        }
    }

    /// Its variable, 0 for false and true.
    pub fn var(self) -> u32
        ensures { result ≡ variable self }
    {
        self.number / 2
    }
}

/// The literal that is always false.
impl Default for Lit {
    ghost is_default = { λ l. l ≡ 0 };

    fn default() -> Lit {
        Lit::FALSE
    }
}
