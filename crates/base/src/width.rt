//! How many bits words have.
ghost use Rattle.std.specs.Prelude.{◌≡◌, ℕ, ◌<◌, ◌≤◌, ◌↔◌, IsSome, IfSome};

use std::marker::Model;

/// How many bits a word has: 1 to 64.
#[derive(Clone, Copy, PartialEq, Eq)]
pub struct Width {
    bits: u8,
}

impl Model for Width {
    ghost Value = { ℕ };

    ghost view = { λ w. w.bits };

    ghost invariant = { λ w. (0 < w.bits) × (w.bits ≤ 64) };

    ghost inverse = { λ n. record { bits = n } };
}

impl Width {
    /// The greatest width.
    pub const MAX: u64 = 64;

    /// The width of `n` bits, where `n` is 1 to 64.
    pub fn new(n: u64) -> Option<Width>
        ensures allowed { IsSome result ↔ ((1 ≤ n) × (n ≤ 64)) }
        ensures same { IfSome result (λ w. w ≡ n) }
    {
        if 1 <= n && n <= Width::MAX {
            Some(Width { bits: n as u8 })
        } else {
            None
        }
    }

    /// The number of bits, from 1 to 64.
    pub fn bits(self) -> u64
        ensures same { result ≡ self }
        ensures allowed { (1 ≤ result) × (result ≤ 64) }
    {
        u64::from(self.bits)
    }
}
