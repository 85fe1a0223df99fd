//! What is kept of a line that is cut between pieces.
ghost use Rattle.std.specs.Prelude.{◌≡◌, ℕ, ◌+◌, ◌≤◌, List, ◌++◌, IfOk, length, take, drop};
ghost use Rattle.base.specs.Decimals.{are_digits};
ghost use Rattle.witness.specs.Readings.{is_nothing};
ghost use Rattle.witness.specs.CutLines.{cut_of, no_byte};

use base::{Fixed, copy_at, is_digit};
use std::alloc::{AllocError, Global};
use std::marker::Model;

/// What is kept of the bytes of a line of which more may follow: the first of them, as many as there is room for, and of
/// all others whether they are digits. Taking bytes takes no memory.
///
/// Clauses see what is kept.
#[derive(Drop)]
pub struct CutLine {
    // the bytes that are kept stand in front
    buffer: Fixed<u8>,
    used: usize,
    digits: bool,
}

impl Model for CutLine {
    ghost use Rattle.std.specs.Prelude.{◌≤◌, length, take};
    ghost use Rattle.witness.specs.CutLines.{CutLine as CutLineValue};

    ghost Value = { CutLineValue };

    ghost view = { λ l. record { room = length l.buffer; bytes = take l.used l.buffer; digits = l.digits } };

    ghost invariant = { λ l. l.used ≤ length l.buffer };
}

/// The first bytes, at most so many, and those behind them.
fn parted(bytes: &[u8], count: usize) -> (&[u8], &[u8])
    ensures front { result.0.now ≡ take count bytes.now }
    ensures most { length result.0.now ≤ count }
    ensures behind { result.1.now ≡ drop count bytes.now }
{
    bytes.split_at(count.min(bytes.len()))
}

/// Whether all bytes are digits.
fn are_digits(bytes: &[u8]) -> bool
    ensures { result ≡ are_digits bytes.now }
{
    bytes.iter().all(|byte| is_digit(*byte))
}

impl CutLine {
    /// A line with no byte yet, with room for so many.
    ///
    /// Error: where the growth was refused.
    pub fn new(alloc: Global, room: usize) -> Result<CutLine, AllocError>
        ensures { IfOk result (λ line. line ≡ no_byte room) }
    {
        let buffer = vec![in alloc; 0u8; room]?;
        Ok(CutLine {
            buffer: Fixed::new(buffer),
            used: 0,
            digits: true,
        })
    }

    /// The bytes that are kept.
    pub fn bytes(&self) -> &[u8]
        ensures { result.now ≡ self.now.bytes }
    {
        let (bytes, _) = self.buffer.as_slice().split_at(self.used);
        bytes
    }

    /// Whether all bytes behind those are digits.
    pub fn digits(&self) -> bool
        ensures { result ≡ self.now.digits }
    {
        self.digits
    }

    /// Whether no byte is kept.
    pub fn is_empty(&self) -> bool
        ensures { result ≡ is_nothing self.now.bytes }
    {
        self.used == 0
    }

    /// Takes all bytes away.
    pub fn clear(&mut self)
        ensures { self.new ≡ no_byte self.old.room }
    {
        self.used = 0;
        self.digits = true;
    }

    /// Keeps bytes behind the others, for which there is room.
    fn keep(&mut self, bytes: &[u8])
        requires { length self.old.bytes + length bytes.now ≤ self.old.room }
        ensures { self.new ≡ record self.old { bytes = self.old.bytes ++ bytes.now } }
    {
        copy_at(&mut self.buffer, self.used, bytes);
        self.used += bytes.len();
    }

    /// Takes bytes behind the others.
    pub fn extend(&mut self, bytes: &[u8])
        ensures cut { (room : ℕ) (line : List ℕ) → self.old ≡ cut_of room line
            → self.new ≡ cut_of room (line ++ bytes.now) }
        ensures bytes { self.new.bytes ≡ take self.old.room (self.old.bytes ++ bytes.now) }
        ensures room { self.new.room ≡ self.old.room }
    {
        let (front, behind) = parted(bytes, self.buffer.as_slice().len() - self.used);
        self.keep(front);
        self.digits &= are_digits(behind);
    }
}
