//! One line of a text, written from its end to its front.
ghost use Rattle.std.specs.Prelude.{◌≡◌, ℕ, ◌+◌, ◌<◌, ◌≤◌, List, [], ◌∷◌, ◌++◌, length, drop, decimal};

use itoa::write_digits;
use std::marker::Model;

/// How many bytes a line holds.
const ROOM: usize = 512;

/// A line that is written from its end to its front, of at most 512 bytes. Clauses see its bytes.
#[derive(Drop)]
pub struct Line {
    bytes: [u8; ROOM],
    start: usize,
}

impl Model for Line {
    ghost Value = { List ℕ };

    ghost view = { λ l. drop l.start l.bytes };

    ghost invariant = { λ l. l.start ≤ 512 };
}

impl Line {
    /// A line with nothing on it.
    pub fn new() -> Line
        ensures { result ≡ [] }
    {
        Line {
            bytes: [0; ROOM],
            start: ROOM,
        }
    }

    /// Its bytes.
    #[inline]
    pub fn bytes(&self) -> &[u8]
        ensures { result.now ≡ self.now }
    {
        let (_, bytes) = self.bytes.split_at(self.start);
        bytes
    }

    /// Takes everything off the line.
    #[inline]
    pub fn clear(&mut self)
        ensures { self.new ≡ [] }
    {
        self.start = ROOM;
    }

    /// Puts a byte in front.
    #[inline]
    pub fn byte(&mut self, byte: u8)
        requires { length self.old < 512 }
        ensures { self.new ≡ byte ∷ self.old }
    {
        self.start -= 1;
        self.bytes[self.start] = byte;
    }

    /// Puts bytes in front.
    #[inline]
    pub fn text(&mut self, text: &[u8])
        requires { length text.now + length self.old ≤ 512 }
        ensures { self.new ≡ text.now ++ self.old }
    {
        let end = self.start;
        self.start -= text.len();
        self.bytes[self.start..end].copy_from_slice(text);
    }

    /// Puts the decimal of a number in front: at most twenty digits.
    #[inline]
    pub fn number(&mut self, number: u64)
        requires { length self.old + 20 ≤ 512 }
        ensures digits { self.new ≡ decimal number ++ self.old }
        ensures short { length self.new ≤ length self.old + 20 }
    {
        self.start = write_digits(number, &mut self.bytes, self.start);
    }
}
