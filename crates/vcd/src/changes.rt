//! The words of a frame that changed.
ghost use Rattle.std.specs.Prelude.{◌≡◌, ◌+◌, ◌≤◌, ◌<◌, ◌==◌, ◌∷◌, ◌++◌, [], List, All, length, map};
ghost use Rattle.base.specs.Word.{bit};
ghost use Rattle.base.specs.Writing.{WritesText};
ghost use Rattle.btor2.specs.declared.item.Item.{Item};
ghost use Rattle.btor2.specs.Trace.{Frame};
ghost use Rattle.witness.specs.Texts.{digit, binary};
ghost use Rattle.vcd.specs.Names.{code};
ghost use Rattle.vcd.specs.Dumps.{moment, value};
ghost use Rattle.vcd.specs.Stands.{Shows, WritesSome, told_word, change, changes, with_word};

use crate::signals::Signal;
use base::{Line, Pen, Sink};
use witness::WordJudge;

/// The digit of a bit.
fn digit(bit: bool) -> u8
    ensures { result ≡ digit bit }
{
    if bit { b'1' } else { b'0' }
}

/// Whether a bit of a word is 1, the lowest being bit 0.
fn bit_at(word: u64, place: u64) -> bool
    requires { place < 64 }
    ensures { result ≡ (bit word place == 1) }
{
    (word >> place) % 2 == 1
}

/// Puts the digits of a word in front of a line, the highest first.
fn add_digits(line: &mut Line, width: u64, word: u64)
    requires allowed { width ≤ 64 }
    requires room { length line.old + 64 ≤ 512 }
    ensures digits { line.new ≡ binary width word ++ line.old }
    ensures many { length line.new ≡ width + length line.old }
{
    for place in 0..width {
        line.byte(digit(bit_at(word, place)));
    }
}

/// Makes it the line of a word.
fn make_value(line: &mut Line, width: u64, id: u64, word: u64)
    requires { width ≤ 64 }
    ensures { line.new ≡ value width word ++ (code id ++ 10 ∷ []) }
{
    line.clear();
    line.byte(b'\n');
    line.number(id);
    line.byte(b'n');
    if width == 1 {
        return add_digits(line, width, word);
    }
    line.byte(b' ');
    add_digits(line, width, word);
    line.byte(b'b');
}

/// Puts the moment of a frame.
pub(crate) fn put_moment<K: Sink>(pen: &mut Pen, sink: &mut K, number: u64)
    ensures { WritesText K.written K.failures sink.old sink.new pen.old pen.new
        (moment number ++ 10 ∷ []) }
{
    pen.put(sink, b"#");
    pen.put_number(sink, number);
    pen.put(sink, b"\n");
}

/// Keeps the word of a signal, and puts its line where it is the first or has changed.
fn put_change<K: Sink>(pen: &mut Pen, sink: &mut K, signal: &mut Signal, word: u64, first: bool)
    requires { signal.old.width ≤ 64 }
    ensures kept { signal.new ≡ record signal.old { word = word } }
    ensures puts { WritesText K.written K.failures sink.old sink.new pen.old pen.new
        (change first signal.old word) }
{
    let old = signal.word;
    signal.word = word;
    if first || old != word {
        make_value(&mut pen.line, signal.width, signal.id, word);
        pen.put_line(sink);
    }
}

/// The word of the node at a place in the frame that was closed last.
fn word_now(judge: &WordJudge<'_>, node: usize) -> u64
    ensures { (items : List Item) (f : Frame) → Shows judge.now items f
        → result ≡ told_word items f node }
{
    judge.closed_word(node).unwrap_or(0)
}

/// Keeps the words of all signals in the frame that was closed last, and puts those that changed; of the first frame all.
fn put_changes<K: Sink>(
    pen: &mut Pen,
    sink: &mut K,
    judge: &WordJudge<'_>,
    signals: &mut [Signal],
    first: bool,
)
    requires { All (λ s. s.width ≤ 64) signals.old }
    ensures puts { WritesSome K.written K.failures sink.old sink.new pen.old pen.new
        (λ put. (items : List Item) (f : Frame) → Shows judge.now items f
        → put ≡ changes first (told_word items f) signals.old) }
    ensures kept { (items : List Item) (f : Frame) → Shows judge.now items f
        → signals.new ≡ map (with_word (told_word items f)) signals.old }
    ensures allowed { All (λ s. s.width ≤ 64) signals.new }
    ensures many { length signals.new ≡ length signals.old }
{
    for at in 0..signals.len() {
        let word = word_now(judge, signals[at].node);
        put_change(pen, sink, &mut signals[at], word, first);
    }
}

/// Puts the frame that was closed last, of this number: its moment, and the words that changed.
pub(crate) fn put_frame<K: Sink>(
    pen: &mut Pen,
    sink: &mut K,
    judge: &WordJudge<'_>,
    signals: &mut [Signal],
    number: u64,
)
    requires { All (λ s. s.width ≤ 64) signals.old }
    ensures puts { WritesSome K.written K.failures sink.old sink.new pen.old pen.new
        (λ put. (items : List Item) (f : Frame) → Shows judge.now items f
        → put ≡ (moment number ++ 10 ∷ []) ++ changes (number == 0) (told_word items f)
        signals.old) }
    ensures kept { (items : List Item) (f : Frame) → Shows judge.now items f
        → signals.new ≡ map (with_word (told_word items f)) signals.old }
    ensures allowed { All (λ s. s.width ≤ 64) signals.new }
    ensures many { length signals.new ≡ length signals.old }
{
    put_moment(pen, sink, number);
    put_changes(pen, sink, judge, signals, number == 0);
}
