//! The digits of words.
ghost use Rattle.std.specs.Prelude.{◌≡◌, ◌+◌, ◌≤◌, ◌<◌, ◌==◌, ◌++◌, length};
ghost use Rattle.base.specs.Word.{bit};
ghost use Rattle.base.specs.Writing.{WritesText};
ghost use Rattle.witness.specs.Texts.{digit, binary};
ghost use Rattle.unfit.specs.Joined.{joined_word};

use crate::told_pieces::{Piece, piece_count, word_at};
use base::{Line, Pen, Sink};

/// The digit of a bit.
fn digit(bit: bool) -> u8
    ensures { result ≡ digit bit }
{
    if bit { b'1' } else { b'0' }
}

/// Whether a bit of a word is 1, the lowest being bit 0.
fn bit_at(word: u64, place: u64) -> bool
    requires { place < 64 }
    ensures { result ≡ (bit word place == 1) }
{
    (word >> place) % 2 == 1
}

/// Puts the binary digits of a word of so many bits in front of a line, the highest first.
///
/// Conditions: the word has at most 64 bits, and the line room for as many bytes more.
pub fn add_digits(line: &mut Line, width: u64, word: u64)
    requires allowed { width ≤ 64 }
    requires room { length line.old + 64 ≤ 512 }
    ensures digits { line.new ≡ binary width word ++ line.old }
    ensures many { length line.new ≡ width + length line.old }
{
    for place in 0..width {
        line.byte(digit(bit_at(word, place)));
    }
}

/// Puts the digits of a piece.
fn put_piece<K: Sink>(pen: &mut Pen, sink: &mut K, width: u64, word: u64)
    requires { width ≤ 64 }
    ensures { WritesText K.written K.failures sink.old sink.new pen.old pen.new
        (binary width word) }
{
    pen.line.clear();
    add_digits(&mut pen.line, width, word);
    pen.put_line(sink);
}

/// Puts the digits of the word that pieces make, the highest first.
pub(crate) fn put_digits<K: Sink>(pen: &mut Pen, sink: &mut K, width: u64, pieces: &[Piece])
    ensures { WritesText K.written K.failures sink.old sink.new pen.old pen.new
        (binary width (joined_word pieces.now)) }
{
    let mut left = piece_count(width);
    while left > 0 {
        left -= 1;
        let bits = (width - 64 * left as u64).min(64);
        put_piece(pen, sink, bits, word_at(pieces, left));
    }
}
