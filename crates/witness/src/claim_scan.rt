//! A claim, byte by byte.
ghost use Rattle.std.specs.Prelude.{◌≡◌, ℕ, List, [], ◌∷◌, ◌++◌, option_map};
ghost use Rattle.witness.specs.Admits.{claim_of};
ghost use Rattle.witness.specs.ClaimScans.{Scans, claimed, pair_of};

use base::Numeral;

/// What the bytes of a claim say, of which more may follow.
#[derive(Clone, Copy)]
pub(crate) struct Scan {
    first: Option<u8>,
    // the bytes behind the first
    number: Numeral,
}

/// What is claimed by a first byte with a number behind it: whether a justice property, and the number.
fn claimed(first: u8, number: u64) -> Option<(bool, u64)>
    ensures { result ≡ claimed first number }
{
    match first {
        b'b' => Some((false, number)),
        b'j' => Some((true, number)),
        _ => None,
    }
}

impl Scan {
    /// A line with no byte yet.
    pub(crate) fn new() -> Scan
        ensures { Scans result [] }
    {
        Scan {
            first: None,
            number: Numeral::new(),
        }
    }

    /// Takes a byte behind the others.
    pub(crate) fn push(&mut self, byte: u8)
        ensures { (line : List ℕ) → Scans self.old line → Scans self.new (line ++ byte ∷ []) }
    {
        match self.first {
            None => self.first = Some(byte),
            Some(_) => self.number = self.number.with(byte),
        }
    }

    /// What the line claims: whether a justice property, and its number, at most 2^64 - 1.
    pub(crate) fn claim(self) -> Option<(bool, u64)>
        ensures { (line : List ℕ) → Scans self line
            → result ≡ option_map pair_of (claim_of line) }
    {
        match (self.first, self.number.number()) {
            (Some(first), Some(number)) => claimed(first, number),
            _ => None,
        }
    }
}
