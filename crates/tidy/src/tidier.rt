//! A tidier of a text that comes piece by piece.
ghost use Rattle.std.specs.Prelude.{◌≡◌, ◌&&◌, ◌==◌, ◌≤◌, take, length, codes, true, false, if◌then◌else◌};
ghost use Rattle.std.specs.List.{list_all};
ghost use Rattle.std.specs.Str.{bytes_eq};
ghost use Rattle.base.specs.Lines.{IsLine};
ghost use Rattle.base.specs.Writing.{WritesText};
ghost use Rattle.tidy.specs.declared.line.Line.TheVariants as line;
ghost use Rattle.tidy.specs.declared.line.Said.{Said as SaidSpec};
ghost use Rattle.tidy.specs.Tidied.{at_front, is_in_front, behind_status, place_after, may_end};
ghost use Rattle.tidy.specs.Steps.{spelled_line, first_line, first_bytes, bytes_more, keeps_empty, is_kept, is_hidden, is_plain, held_bytes, end_bytes, new_line, at_line, behind_tidied, behind_byte, byte_written, last_written, IsTidying, emitted_bytes};

use crate::line::{
    Line, Said, Word, changed, first_line, is_blank, later, line_more, place_more, takes_x,
};
use crate::place::Place;
use base::{Pen, Sink, is_digit};

/// What is written for a byte.
#[derive(Clone, Copy)]
pub(crate) enum Emitted {
    Nothing,
    Byte(u8),
    Pair(u8, u8),
}

impl Emitted {
    /// Puts it.
    pub(crate) fn put<K: Sink>(self, pen: &mut Pen, sink: &mut K)
        ensures { WritesText K.written K.failures sink.old sink.new pen.old pen.new
            (emitted_bytes self) }
    {
        match self {
            Emitted::Nothing => {}
            Emitted::Byte(byte) => pen.put(sink, &[byte]),
            Emitted::Pair(byte, behind) => pen.put(sink, &[byte, behind]),
        }
    }
}

/// A tidier of the text of a witness: how many witnesses it passes over before the one that is wanted, where the line
/// stands that has begun, and what is known of that.
#[derive(Clone, Copy)]
pub(crate) struct Tidier {
    skip: u64,
    place: Place,
    line: Line,
}

/// What is written for the first byte of a line's words.
fn first_bytes(place: Place, byte: u8) -> Emitted
    ensures { emitted_bytes result ≡ first_bytes place byte (first_line place byte) }
{
    match first_line(place, byte) {
        Line::Copied => Emitted::Byte(byte),
        Line::Kept(_, _, _) => Emitted::Byte(changed(place, Word::First, byte)),
        Line::Empty | Line::Gone | Line::Held => Emitted::Nothing,
    }
}

/// What is written for a byte behind `u`.
fn held_more(place: Place, byte: u8) -> Emitted
    ensures { emitted_bytes result ≡ bytes_more place line.Held byte }
{
    if is_digit(byte) {
        Emitted::Nothing
    } else if is_blank(byte) {
        Emitted::Byte(b'u')
    } else {
        Emitted::Pair(b'u', changed(place, Word::First, byte))
    }
}

/// What is written for a byte behind blanks, or at a line's begin.
fn empty_more(place: Place, byte: u8) -> Emitted
    ensures { emitted_bytes result ≡ bytes_more place line.Empty byte }
{
    if is_blank(byte) {
        Emitted::Nothing
    } else {
        first_bytes(place, byte)
    }
}

/// What is written for a byte behind words.
fn word_more(place: Place, word: Word, gap: bool, byte: u8) -> Emitted
    ensures { (s : SaidSpec) → emitted_bytes result ≡ bytes_more place (line.Kept s word gap) byte }
{
    if is_blank(byte) {
        Emitted::Nothing
    } else if gap {
        Emitted::Pair(b' ', changed(place, later(word), byte))
    } else {
        Emitted::Byte(changed(place, word, byte))
    }
}

/// What is written for a byte of a line at a place.
fn bytes_more(place: Place, line: Line, byte: u8) -> Emitted
    ensures { emitted_bytes result ≡ bytes_more place line byte }
{
    match line {
        Line::Empty => empty_more(place, byte),
        Line::Copied => Emitted::Byte(byte),
        Line::Gone => Emitted::Nothing,
        Line::Held => held_more(place, byte),
        Line::Kept(_, word, gap) => word_more(place, word, gap, byte),
    }
}

/// How many bytes at the front of some are written as they are, in a word in which `x` may become `0`.
fn plain_run(bytes: &[u8], takes_x: bool) -> usize
    ensures within { result ≤ length bytes.now }
    ensures each { list_all (is_plain takes_x) (take result bytes.now) ≡ true }
{
    for (at, byte) in bytes.iter().enumerate() {
        if is_blank(*byte) || (takes_x && *byte == b'x') {
            return at;
        }
    }
    bytes.len()
}

/// Whether an empty line is written at a place.
fn keeps_empty(place: Place) -> bool
    ensures { result ≡ keeps_empty place }
{
    matches!(place, Place::Initial | Place::First | Place::Empties)
}

/// Whether the end of a line is written.
fn is_kept(place: Place, line: Line) -> bool
    ensures { result ≡ is_kept place line }
{
    match line {
        Line::Empty => keeps_empty(place),
        Line::Gone => false,
        Line::Copied | Line::Held | Line::Kept(_, _, _) => true,
    }
}

/// What is written where a line ends.
fn end_bytes(place: Place, line: Line) -> Emitted
    ensures { emitted_bytes result ≡ end_bytes place line }
{
    if matches!(line, Line::Held) {
        Emitted::Pair(b'u', b'\n')
    } else if is_kept(place, line) {
        Emitted::Byte(b'\n')
    } else {
        Emitted::Nothing
    }
}

/// What is known of a line of which no byte has come.
fn new_line(place: Place) -> Line
    ensures { result ≡ new_line place }
{
    match place {
        Place::Passed => Line::Copied,
        Place::Over => Line::Gone,
        _ => Line::Empty,
    }
}

/// The place behind a line in the place of a status line.
fn behind_status(skip: u64, line: Line) -> Place
    ensures { result ≡ behind_status skip (spelled_line line) }
{
    match line {
        Line::Kept(Said::Sat, _, _) => Place::Claims,
        Line::Kept(Said::One, _, _) => Place::BitClaim,
        _ if skip == 0 => Place::Passed,
        _ => Place::Skipped,
    }
}

/// The place behind a line in front of a status line, or in its place.
fn behind_front(skip: u64, place: Place, line: Line) -> Place
    ensures { result ≡ if is_in_front (spelled_line line) then place else behind_status skip
        (spelled_line line) }
{
    match line {
        Line::Empty | Line::Copied | Line::Gone => place,
        Line::Held | Line::Kept(_, _, _) => behind_status(skip, line),
    }
}

/// The place behind a line that is no end.
fn next_place(skip: u64, place: Place, line: Line) -> Place
    ensures { result ≡ place_after skip place (spelled_line line) }
{
    match (place, line) {
        (Place::Front | Place::Between, _) => behind_front(skip, place, line),
        (Place::Claims, Line::Held | Line::Kept(_, _, _)) => Place::Parts,
        (Place::BitClaim, Line::Empty) => Place::BitClaim,
        (Place::BitClaim, _) => Place::Initial,
        (Place::Initial, _) => Place::First,
        (Place::First, Line::Empty) => Place::Empties,
        (Place::First, _) => Place::Frames,
        _ => place,
    }
}

/// Whether a line is the end of a witness.
fn is_end(place: Place, line: Line) -> bool
    ensures { result ≡ (may_end place && bytes_eq (spelled_line line) (codes ".")) }
{
    match place {
        Place::Parts | Place::First | Place::Frames | Place::Empties | Place::Skipped => {
            matches!(line, Line::Kept(Said::Dot, _, _))
        }
        _ => false,
    }
}

impl Tidier {
    /// A tidier of the empty text, of which the witness with this number is wanted, from 1; 0 is as 1.
    pub(crate) fn new(pick: u64) -> Tidier
        ensures { result ≡ at_line (at_front pick) }
    {
        Tidier {
            skip: pick.saturating_sub(1),
            place: Place::Front,
            line: Line::Empty,
        }
    }

    /// Whether nothing is written of the line that has begun.
    pub(crate) fn is_hidden(self) -> bool
        ensures { result ≡ is_hidden self }
    {
        self.skip > 0 || matches!(self.line, Line::Gone)
    }

    /// How many bytes at the front of some, which end no line, are written or left out together.
    pub(crate) fn run(self, bytes: &[u8]) -> usize
        requires { IsLine bytes.now }
        ensures within { result ≤ length bytes.now }
        ensures run { IsTidying self (take result bytes.now) }
    {
        match self.line {
            Line::Copied | Line::Gone => bytes.len(),
            Line::Kept(said, word, gap) => self.word_run(said, word, gap, bytes),
            Line::Empty | Line::Held => 0,
        }
    }

    /// How many bytes at the front of some, which end no line, are of the last word and written as they are.
    fn word_run(self, said: Said, word: Word, gap: bool, bytes: &[u8]) -> usize
        requires is_line { IsLine bytes.now }
        requires line { self.line ≡ line.Kept said word gap }
        ensures within { result ≤ length bytes.now }
        ensures run { IsTidying self (take result bytes.now) }
    {
        if gap {
            return 0;
        }
        match said {
            Said::Other => plain_run(bytes, takes_x(self.place, word)),
            Said::S | Said::Sa | Said::Sat | Said::One | Said::Dot => 0,
        }
    }

    /// What is written for a byte that ends no line.
    pub(crate) fn byte_written(self, byte: u8) -> Emitted
        requires { (byte == 10) ≡ false }
        ensures { emitted_bytes result ≡ byte_written self byte }
    {
        if self.skip > 0 {
            return Emitted::Nothing;
        }
        bytes_more(self.place, self.line, byte)
    }

    /// The tidier behind a byte that ends no line.
    pub(crate) fn behind_byte(self, byte: u8) -> Tidier
        requires { (byte == 10) ≡ false }
        ensures { result ≡ behind_byte self byte }
    {
        Tidier {
            skip: self.skip,
            place: place_more(self.place, self.line, byte),
            line: line_more(self.place, self.line, byte),
        }
    }

    /// What is written at the end of the line.
    pub(crate) fn end_written(self) -> Emitted
        ensures { emitted_bytes result ≡ byte_written self 10 }
    {
        if self.skip > 0 {
            return Emitted::Nothing;
        }
        end_bytes(self.place, self.line)
    }

    /// What is written at the end of the text.
    pub(crate) fn last_written(self) -> Emitted
        ensures { emitted_bytes result ≡ last_written self }
    {
        if self.skip > 0 {
            return Emitted::Nothing;
        }
        held_bytes(self.line)
    }

    /// The tidier behind the end of the line.
    pub(crate) fn behind_line(self) -> Tidier
        ensures { result ≡ behind_tidied self }
    {
        let (skip, place) = if !is_end(self.place, self.line) {
            (self.skip, next_place(self.skip, self.place, self.line))
        } else if self.skip == 0 {
            (0, Place::Over)
        } else {
            (self.skip - 1, Place::Between)
        };
        Tidier {
            skip,
            place,
            line: new_line(place),
        }
    }
}

/// What is held back of a line.
fn held_bytes(line: Line) -> Emitted
    ensures { emitted_bytes result ≡ held_bytes line }
{
    match line {
        Line::Held => Emitted::Byte(b'u'),
        Line::Empty | Line::Copied | Line::Gone | Line::Kept(_, _, _) => Emitted::Nothing,
    }
}
