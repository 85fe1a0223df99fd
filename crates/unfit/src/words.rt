//! The lines of words by their pieces.
ghost use Rattle.std.specs.Prelude.{◌≡◌, ◌+◌, ◌≤◌, ◌<◌, ◌∷◌, ◌++◌, [], length, decimal};
ghost use Rattle.base.specs.Writing.{WritesText};
ghost use Rattle.witness.specs.Texts.{symbol_part};
ghost use Rattle.unfit.specs.Joined.{front_at, is_told, name_at};
ghost use Rattle.unfit.specs.Steps.{part_text, told_text, word_text};

use crate::digits::put_digits;
use crate::titles::Titles;
use crate::told_pieces::{Piece, any_told, cut, piece_count};
use base::{Line, Pen, Sink};

/// Puts the name of the word with an index in a frame in front of a line, where names are asked for.
fn add_name<T: Titles>(line: &mut Line, named: bool, titles: &T, frame: u64, index: usize)
    requires { length line.old ≤ 1 }
    ensures { line.new ≡ symbol_part (name_at named (T.symbols titles.now) frame index)
        ++ line.old }
{
    if named {
        titles.add_name(line, frame, index);
    }
}

/// Puts the line of a word.
fn put_word<K: Sink, T: Titles>(
    pen: &mut Pen,
    sink: &mut K,
    named: bool,
    titles: &T,
    frame: u64,
    index: usize,
    width: u64,
    pieces: &[Piece],
)
    ensures { WritesText K.written K.failures sink.old sink.new pen.old pen.new
        (word_text (front_at (T.fronts titles.now) frame index) width
        (name_at named (T.symbols titles.now) frame index) pieces.now) }
{
    pen.line.clear();
    pen.line.byte(b' ');
    titles.add_front(&mut pen.line, frame, index);
    pen.put_line(sink);
    put_digits(pen, sink, width, pieces);
    pen.line.clear();
    pen.line.byte(b'\n');
    add_name(&mut pen.line, named, titles, frame, index);
    pen.put_line(sink);
}

/// Puts the line of a word of which a piece is told, where the word is told in the frame.
fn put_told_word<K: Sink, T: Titles>(
    pen: &mut Pen,
    sink: &mut K,
    named: bool,
    titles: &T,
    frame: u64,
    index: usize,
    width: u64,
    pieces: &[Piece],
)
    ensures { WritesText K.written K.failures sink.old sink.new pen.old pen.new
        (told_text (is_told (T.fronts titles.now) frame index)
        (front_at (T.fronts titles.now) frame index) width
        (name_at named (T.symbols titles.now) frame index) pieces.now) }
{
    if titles.tells(frame, index) && any_told(pieces) {
        put_word(pen, sink, named, titles, frame, index, width, pieces);
    }
}

/// Puts the line that opens a part of a frame: its mark and the frame's number.
fn put_mark<K: Sink>(pen: &mut Pen, sink: &mut K, mark: &[u8], number: u64)
    ensures { WritesText K.written K.failures sink.old sink.new pen.old pen.new
        (mark.now ++ (decimal number ++ 10 ∷ [])) }
{
    pen.put(sink, mark);
    pen.put_number(sink, number);
    pen.put(sink, b"\n");
}

/// Puts the lines of words in a frame: of the words of these widths of which a piece is told.
fn put_words<K: Sink, T: Titles>(
    pen: &mut Pen,
    sink: &mut K,
    named: bool,
    titles: &T,
    widths: &[u64],
    frame: u64,
    pieces: &[Piece],
)
    ensures { WritesText K.written K.failures sink.old sink.new pen.old pen.new
        (part_text (T.fronts titles.now) named (T.symbols titles.now) widths.now frame pieces.now) }
{
    let mut rest = pieces;
    for (index, width) in widths.iter().enumerate() {
        let (here, behind) = cut(rest, piece_count(*width));
        put_told_word(pen, sink, named, titles, frame, index, *width, here);
        rest = behind;
    }
}

/// Puts a part of a frame: the line that opens it, and the lines of the words of these widths of which a piece is told.
pub(crate) fn put_part<K: Sink, T: Titles>(
    pen: &mut Pen,
    sink: &mut K,
    mark: &[u8],
    named: bool,
    titles: &T,
    widths: &[u64],
    frame: u64,
    pieces: &[Piece],
)
    ensures { WritesText K.written K.failures sink.old sink.new pen.old pen.new
        ((mark.now ++ (decimal frame ++ 10 ∷ []))
        ++ part_text (T.fronts titles.now) named (T.symbols titles.now) widths.now frame pieces.now) }
{
    put_mark(pen, sink, mark, frame);
    put_words(pen, sink, named, titles, widths, frame, pieces);
}
