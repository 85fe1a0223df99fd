//! Lines that are given to the judge of the fitted model. Those that it admits are put.
ghost use Rattle.std.specs.Prelude.{◌≡◌, ℕ, ◌+◌, ◌<◌, ◌≤◌, ◌^◌, List, [], ◌∷◌, ◌++◌, decimal, length, replicate, min};
ghost use Rattle.base.specs.Lines.{IsLine};
ghost use Rattle.rejoin.specs.Pieces.{piece_count};
ghost use Rattle.witness.specs.Texts.{symbol_part};
ghost use Rattle.witness.specs.Admits.{assignment_at};
ghost use Rattle.spread.specs.Passing.{assigned_lines, faulty_rest};
ghost use Rattle.spread.specs.Stands.{Gives, digit_lines};

use crate::assigned::{digits_in, index_in};
use crate::words::Words;
use base::{Line, Pen, Sink};
use witness::{Why, WordJudge};

/// Gives a line as it stands.
pub(crate) fn give<K: Sink>(judge: &mut WordJudge<'_>, pen: &mut Pen, sink: &mut K, line: &[u8])
    requires { IsLine line.now }
    ensures { Gives K.written K.failures sink.old sink.new pen.old pen.new judge.old judge.new
        (line.now ∷ []) }
{
    let before = judge.admitted_lines();
    judge.feed(line);
    judge.feed(b"\n");
    if judge.admitted_lines() != before {
        pen.put(sink, line);
        pen.put(sink, b"\n");
    }
}

/// Gives the line at hand of the pen, which has its byte 10.
fn give_line<K: Sink>(judge: &mut WordJudge<'_>, pen: &mut Pen, sink: &mut K)
    ensures { (line : List ℕ) → IsLine line → pen.old.line ≡ line ++ 10 ∷ []
        → Gives K.written K.failures sink.old sink.new pen.old pen.new judge.old judge.new (line ∷ []) }
{
    let before = judge.admitted_lines();
    judge.feed(pen.line.bytes());
    if judge.admitted_lines() != before {
        pen.put_line(sink);
    }
}

/// Gives the line of a piece, by its digits.
fn give_piece<K: Sink>(
    judge: &mut WordJudge<'_>,
    pen: &mut Pen,
    sink: &mut K,
    index: u64,
    digits: &[u8],
)
    requires short { length digits.now ≤ 64 }
    requires line { IsLine digits.now }
    ensures { Gives K.written K.failures sink.old sink.new pen.old pen.new judge.old judge.new
        ((decimal index ++ 32 ∷ digits.now) ∷ []) }
{
    pen.line.clear();
    pen.line.byte(b'\n');
    pen.line.text(digits);
    pen.line.byte(b' ');
    pen.line.number(index);
    give_line(judge, pen, sink);
}

/// Gives the lines of the pieces of a word, by its digits: 64 from the right each, and the last those that are left.
fn give_word<K: Sink>(
    judge: &mut WordJudge<'_>,
    pen: &mut Pen,
    sink: &mut K,
    first: u64,
    digits: &[u8],
)
    requires few { first + piece_count (length digits.now) < 2 ^ 64 }
    requires line { IsLine digits.now }
    ensures { Gives K.written K.failures sink.old sink.new pen.old pen.new judge.old judge.new
        (digit_lines first (piece_count (length digits.now)) digits.now) }
{
    let mut index = first;
    let mut rest = digits;
    while !rest.is_empty() {
        let (front, piece) = rest.split_at(rest.len().saturating_sub(64));
        give_piece(judge, pen, sink, index, piece);
        rest = front;
        index += 1;
    }
}

/// Puts a byte in front of a line so many times.
fn fill(line: &mut Line, byte: u8, count: u64)
    requires { length line.old + count ≤ 512 }
    ensures { line.new ≡ replicate count byte ++ line.old }
{
    for _ in 0..count {
        line.byte(byte);
    }
}

/// Puts in front of a line what makes one faulty behind the index of a piece of so many bits.
fn add_faulty_rest(line: &mut Line, width: u64, why: Why)
    requires room { length line.old ≤ 1 }
    requires word { width ≤ 64 }
    ensures rest { line.new ≡ symbol_part (faulty_rest width why) ++ line.old }
    ensures short { length line.new ≤ 67 }
{
    match why {
        Why::Undetermined => {
            fill(line, b'x', width);
            line.byte(b' ');
        }
        Why::BadSymbol => {
            line.byte(b' ');
            fill(line, b'0', width);
            line.byte(b' ');
        }
        _ => {}
    }
}

/// Gives a line that is faulty for a why, with the index of the lowest piece of a word of so many bits.
fn give_faulty<K: Sink>(
    judge: &mut WordJudge<'_>,
    pen: &mut Pen,
    sink: &mut K,
    first: u64,
    width: u64,
    why: Why,
)
    ensures { Gives K.written K.failures sink.old sink.new pen.old pen.new judge.old judge.new
        ((decimal first ++ symbol_part (faulty_rest (min width 64) why)) ∷ []) }
{
    pen.line.clear();
    pen.line.byte(b'\n');
    add_faulty_rest(&mut pen.line, width.min(64), why);
    pen.line.number(first);
    give_line(judge, pen, sink);
}

/// Gives the lines of the pieces of the word that a line gives to one of these; for a line that gives none one that is faulty
/// for the same why.
pub(crate) fn give_assigned<K: Sink>(
    judge: &mut WordJudge<'_>,
    pen: &mut Pen,
    sink: &mut K,
    words: &Words<'_>,
    line: &[u8],
)
    ensures { Gives K.written K.failures sink.old sink.new pen.old pen.new judge.old judge.new
        (assigned_lines words.now line.now (assignment_at words.now [] line.now)) }
{
    let widths = words.widths();
    let Some(index) = index_in(widths.len(), line) else {
        return give(judge, pen, sink, b"");
    };
    let first = words.first(index);
    match digits_in(widths[index], line) {
        Ok(digits) => give_word(judge, pen, sink, first, digits),
        Err(why) => give_faulty(judge, pen, sink, first, widths[index], why),
    }
}
