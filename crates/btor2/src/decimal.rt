//! The number of a decimal constant, held in two words.
ghost use Rattle.std.specs.Prelude.{◌≡◌};

use std::marker::Model;

/// The number of a `constd` line, which may be negative. It is held as two words of 64 bits, the high one and the low
/// one: a number of 128 bits begins at a multiple of 16, so an item with one would take a third more.
#[derive(Drop)]
pub struct Decimal {
    high: u64,
    low: u64,
}

impl Model for Decimal {
    ghost use Rattle.std.specs.Prelude.{ℤ};
    ghost use Rattle.btor2.specs.Decimals.{number_joined};

    ghost Value = { ℤ };

    ghost view = { λ d. number_joined d.high d.low };
}

impl Decimal {
    /// This number.
    pub fn new(number: i128) -> Decimal
        ensures { result ≡ number }
    {
        let bits = number.cast_unsigned();
        Decimal {
            high: (bits >> 64) as u64,
            low: (bits % (1 << 64)) as u64,
        }
    }

    /// The number.
    pub fn value(&self) -> i128
        ensures { result ≡ self.now }
    {
        ((u128::from(self.high) << 64) + u128::from(self.low)).cast_signed()
    }
}
