//! The pieces that lines of a witness are lifted to.
ghost use Rattle.std.specs.Prelude.{◌≡◌, true, false, ◌++◌, ◌∷◌, [], ◌+◌, ◌-◌, ◌<◌, ◌≤◌, Some, decimal, length, map, reverse, if◌then◌else◌, slice_get, slice_index, take, drop};
ghost use Rattle.std.specs.Str.{bytes_eq};
ghost use Rattle.base.specs.Lines.{text_of_lines};
ghost use Rattle.base.specs.Writing.{WritesText};
ghost use Rattle.btor2.specs.Lists.{places};
ghost use Rattle.btor2.specs.Leaves.{list_of};
ghost use Rattle.btor2.specs.Symbols.{is_symbol};
ghost use Rattle.blast.specs.Cost.{input_width};
ghost use Rattle.witness.specs.Texts.{digit, symbol_part, shape_of, has_free};
ghost use Rattle.lift.specs.Lifted.{bits_of_line, name_in_frame, names, word_line, initial_piece, free_piece, frame_piece, piece};
ghost use Rattle.lift.specs.Placed.{leaf_lines, taken_line};

use base::{Line, Pen, Sink};
use btor2::{Item, Leaves, Model};
use itoa::Buffer;
use restore::Writer;
use std::marker;

/// Puts a line.
fn put_line<K: Sink>(pen: &mut Pen, sink: &mut K, line: &[u8])
    ensures { WritesText K.written K.failures sink.old sink.new pen.old pen.new
        (text_of_lines (line.now ∷ [])) }
{
    pen.put(sink, line);
    pen.put(sink, b"\n");
}

/// Puts a byte, a number and the end of a line.
fn put_mark<K: Sink>(pen: &mut Pen, sink: &mut K, mark: u8, number: u64)
    ensures { WritesText K.written K.failures sink.old sink.new pen.old pen.new
        (mark ∷ (decimal number ++ 10 ∷ [])) }
{
    pen.line.clear();
    pen.line.byte(b'\n');
    pen.line.number(number);
    pen.line.byte(mark);
    pen.put_line(sink);
}

/// The digit of a bit.
fn digit(bit: bool) -> u8
    ensures { result ≡ digit bit }
{
    if bit { b'1' } else { b'0' }
}

/// Puts the digits of bits, a byte each, in their order.
fn put_digits(bits: &[u8], digits: &mut [u8])
    requires { length digits.old ≡ length bits.now }
    ensures { digits.new ≡ map digit (bits_of_line bits.now) }
{
    for (k, bit) in bits.iter().enumerate() {
        digits[k] = digit(*bit == b'1');
    }
}

/// Puts the digits of a word, whose bits are a byte each, the lowest first, in front of a line: the highest first.
fn add_digits(line: &mut Line, bits: &[u8])
    requires room { length line.old + length bits.now ≤ 512 }
    requires word { length bits.now ≤ 64 }
    ensures { line.new ≡ map digit (reverse (bits_of_line bits.now)) ++ line.old }
{
    let mut buffer = [0u8; 64];
    let digits = &mut buffer[..bits.len()];
    put_digits(bits, digits);
    digits.reverse();
    line.text(digits);
}

/// The most bytes of a symbol.
const MOST_BYTES: usize = 255;

/// Puts the name of a symbol in a frame in front of a line, where that is a symbol: a space, the symbol, `@` and the frame's
/// number. Of another nothing is put.
///
/// Condition: at most one byte is on the line.
pub fn add_name_in_frame(line: &mut Line, symbol: &[u8], frame: u64)
    requires symbol { is_symbol symbol.now ≡ true }
    requires room { length line.old ≤ 1 }
    ensures name { line.new ≡ symbol_part (name_in_frame frame symbol.now) ++ line.old }
    ensures short { length line.new ≤ 257 }
{
    let mut buffer = Buffer::new();
    let digits = buffer.format(frame).as_bytes();
    if symbol.len() + digits.len() < MOST_BYTES {
        line.text(digits);
        line.byte(b'@');
        line.text(symbol);
        line.byte(b' ');
    }
}

/// Puts the name of an item in a frame in front of a line, where names are asked for and it has one.
fn add_name(line: &mut Line, named: bool, frame: u64, item: &Item)
    requires { length line.old ≤ 1 }
    ensures name { line.new ≡ symbol_part (names named frame item.now) ++ line.old }
    ensures short { length line.new ≤ 257 }
{
    if !named {
        return;
    }
    if let Some(symbol) = &item.symbol {
        add_name_in_frame(line, symbol.bytes(), frame);
    }
}

/// Puts the line that gives a leaf its word in a frame.
fn put_word<K: Sink>(
    pen: &mut Pen,
    sink: &mut K,
    named: bool,
    frame: u64,
    index: usize,
    item: &Item,
    bits: &[u8],
)
    requires { length bits.now ≤ 64 }
    ensures { WritesText K.written K.failures sink.old sink.new pen.old pen.new
        (word_line index (bits_of_line bits.now) (names named frame item.now) ++ 10 ∷ []) }
{
    pen.line.clear();
    pen.line.byte(b'\n');
    add_name(&mut pen.line, named, frame, item);
    add_digits(&mut pen.line, bits);
    pen.line.byte(b' ');
    pen.line.number(index as u64);
    pen.put_line(sink);
}

/// Puts the line of a leaf in a frame, where it takes bits.
fn put_leaf<K: Sink>(
    pen: &mut Pen,
    sink: &mut K,
    named: bool,
    frame: u64,
    takes: bool,
    index: usize,
    item: &Item,
    bits: &[u8],
)
    requires { length bits.now ≤ 64 }
    ensures { WritesText K.written K.failures sink.old sink.new pen.old pen.new
        (taken_line takes index (bits_of_line bits.now) (names named frame item.now)) }
{
    if takes {
        put_word(pen, sink, named, frame, index, item, bits);
    }
}

/// The first of some bits, and those behind them.
fn cut(bits: &[u8], count: usize) -> (&[u8], &[u8])
    ensures front { result.0.now ≡ take count bits.now }
    ensures most { length result.0.now ≤ count }
    ensures behind { result.1.now ≡ drop count bits.now }
{
    bits.split_at(count.min(bits.len()))
}

/// The item at a place.
fn item_at(items: &[Item], place: usize) -> &Item
    requires { place < length items.now }
    ensures { slice_get items.now place ≡ Some result.now }
{
    &items[place]
}

/// The item at a position of the list that the leaves of a kind are among.
fn leaf_item(model: &Model, leaves: Leaves, index: usize) -> &Item
    requires { index < length (places (list_of leaves) 0 model.now) }
    ensures { slice_get model.now (slice_index (places (list_of leaves) 0 model.now) index)
        ≡ Some result.now }
{
    item_at(model.items(), leaves.places(model)[index])
}

/// Puts the lines of the leaves of a kind in a frame, each of which takes its bits behind those before it.
fn put_leaves<K: Sink>(
    pen: &mut Pen,
    sink: &mut K,
    model: &Model,
    named: bool,
    frame: u64,
    leaves: Leaves,
    bits: &[u8],
)
    ensures { WritesText K.written K.failures sink.old sink.new pen.old pen.new
        (leaf_lines leaves model.now (names named frame) (bits_of_line bits.now)) }
{
    let mut rest = bits;
    for index in 0..leaves.places(model).len() {
        let (word, behind) = cut(rest, leaves.width(model, index) as usize);
        let item = leaf_item(model, leaves, index);
        put_leaf(
            pen,
            sink,
            named,
            frame,
            leaves.has(model, index),
            index,
            item,
            word,
        );
        rest = behind;
    }
}

/// Puts the line that opens a part of a frame, a byte and the frame's number, and behind it the lines of the leaves of a kind.
fn put_part<K: Sink>(
    pen: &mut Pen,
    sink: &mut K,
    model: &Model,
    named: bool,
    mark: u8,
    frame: u64,
    leaves: Leaves,
    bits: &[u8],
)
    ensures { WritesText K.written K.failures sink.old sink.new pen.old pen.new
        ((mark ∷ (decimal frame ++ 10 ∷ [])) ++ leaf_lines leaves model.now (names named frame)
        (bits_of_line bits.now)) }
{
    put_mark(pen, sink, mark, frame);
    put_leaves(pen, sink, model, named, frame, leaves, bits);
}

/// The bits of a frame behind those of the inputs.
fn behind_inputs<'a>(model: &Model, bits: &'a [u8]) -> &'a [u8]
    ensures { bits_of_line result.now ≡ drop (input_width model.now) (bits_of_line bits.now) }
{
    let (_, behind) = cut(bits, Leaves::Inputs.bits(model) as usize);
    behind
}

/// Whether a model has a free state.
pub(crate) fn has_free(model: &Model) -> bool
    ensures { result ≡ has_free (shape_of model.now) }
{
    for k in 0..model.states().len() {
        if model.is_free(k) {
            return true;
        }
    }
    false
}

/// Puts the piece of the initial bits.
fn put_initial<K: Sink>(pen: &mut Pen, sink: &mut K, model: &Model, named: bool, bits: &[u8])
    ensures { WritesText K.written K.failures sink.old sink.new pen.old pen.new
        (text_of_lines (initial_piece named model.now (bits_of_line bits.now))) }
{
    let _items = model.items();
    put_part(pen, sink, model, named, b'#', 0, Leaves::Carried, bits);
}

/// Puts the words of the free states in a frame, whose bits stand behind those of the inputs: those of the first frame stand
/// behind the initial words, and those of a later one behind a line of their own.
fn put_free<K: Sink>(
    pen: &mut Pen,
    sink: &mut K,
    model: &Model,
    named: bool,
    some_free: bool,
    frame: u64,
    bits: &[u8],
)
    requires { some_free ≡ has_free (shape_of model.now) }
    ensures { WritesText K.written K.failures sink.old sink.new pen.old pen.new
        (text_of_lines (free_piece named model.now frame
        (drop (input_width model.now) (bits_of_line bits.now)))) }
{
    let _items = model.items();
    if frame == 0 {
        put_leaves(
            pen,
            sink,
            model,
            named,
            0,
            Leaves::Free,
            behind_inputs(model, bits),
        );
        return;
    }
    if !some_free {
        return;
    }
    put_part(
        pen,
        sink,
        model,
        named,
        b'#',
        frame,
        Leaves::Free,
        behind_inputs(model, bits),
    )
}

/// Puts the piece of the bits of a frame.
fn put_frame<K: Sink>(
    pen: &mut Pen,
    sink: &mut K,
    model: &Model,
    named: bool,
    some_free: bool,
    frame: u64,
    bits: &[u8],
)
    requires { some_free ≡ has_free (shape_of model.now) }
    ensures { WritesText K.written K.failures sink.old sink.new pen.old pen.new
        (text_of_lines (frame_piece named model.now frame (bits_of_line bits.now))) }
{
    let _items = model.items();
    put_free(pen, sink, model, named, some_free, frame, bits);
    put_part(pen, sink, model, named, b'@', frame, Leaves::Inputs, bits)
}

/// Whether a line is a word.
fn is_word(line: &[u8], word: &[u8]) -> bool
    ensures { result ≡ bytes_eq line.now word.now }
{
    line == word
}

/// Puts the piece of a line in the place of a frame, which may be the end.
fn put_frame_or_end<K: Sink>(
    pen: &mut Pen,
    sink: &mut K,
    model: &Model,
    named: bool,
    some_free: bool,
    frame: u64,
    line: &[u8],
)
    requires { some_free ≡ has_free (shape_of model.now) }
    ensures { WritesText K.written K.failures sink.old sink.new pen.old pen.new
        (text_of_lines (piece named model.now (frame + 3) line.now)) }
{
    if is_word(line, b".") {
        put_line(pen, sink, line);
    } else {
        put_frame(pen, sink, model, named, some_free, frame, line);
    }
}

/// The most lines of a witness.
const MOST_LINES: u64 = 1 << 62;

/// What writes the piece that each line is lifted to, over a model, with names or without.
#[derive(Drop)]
pub(crate) struct Pieces<'a> {
    model: &'a Model,
    // words are lifted with names
    named: bool,
    // the model has a free state
    some_free: bool,
}

impl<'a> marker::Model for Pieces<'a> {
    ghost use Rattle.std.specs.Prelude.{◌≡◌};
    ghost use Rattle.witness.specs.Texts.{shape_of, has_free};
    ghost use Rattle.lift.specs.Placed.{Pieces as PiecesValue};

    ghost Value = { PiecesValue };

    ghost view = { λ p. record { items = p.model.now; named = p.named } };

    ghost invariant = { λ p. p.some_free ≡ has_free (shape_of p.model.now) };
}

impl<'a> Pieces<'a> {
    /// Over this model, with names or without.
    pub(crate) fn new(model: &'a Model, named: bool) -> Pieces<'a>
        ensures { result ≡ record { items = model.now; named = named } }
    {
        Pieces {
            model,
            named,
            some_free: has_free(model),
        }
    }

    /// Puts the piece of a line that is admitted behind so many others.
    pub(crate) fn put<K: Sink>(&self, pen: &mut Pen, sink: &mut K, number: u64, line: &[u8])
        ensures { WritesText K.written K.failures sink.old sink.new pen.old pen.new
            (text_of_lines (piece self.now.named self.now.items number line.now)) }
    {
        put_piece(
            pen,
            sink,
            self.model,
            self.named,
            self.some_free,
            number,
            line,
        );
    }
}

impl<'a> Writer for Pieces<'a> {
    ghost use Rattle.lift.specs.Placed.{put_piece_for};

    ghost put_for = { put_piece_for };

    fn put_line<K: Sink>(&self, pen: &mut Pen, sink: &mut K, number: u64, line: &[u8]) {
        if number < MOST_LINES {
            self.put(pen, sink, number, line);
        }
    }
}

/// Puts the piece of a line that is admitted behind so many others.
fn put_piece<K: Sink>(
    pen: &mut Pen,
    sink: &mut K,
    model: &Model,
    named: bool,
    some_free: bool,
    number: u64,
    line: &[u8],
)
    requires { some_free ≡ has_free (shape_of model.now) }
    ensures { WritesText K.written K.failures sink.old sink.new pen.old pen.new
        (text_of_lines (piece named model.now number line.now)) }
{
    if number == 0 {
        put_line(pen, sink, b"sat");
        return;
    }
    if number == 1 {
        put_line(pen, sink, line);
        return;
    }
    if number == 2 {
        put_initial(pen, sink, model, named, line);
        return;
    }
    put_frame_or_end(pen, sink, model, named, some_free, number - 3, line);
}
