//! A line of the text of a witness, byte by byte.
ghost use Rattle.std.specs.Prelude.{◌≡◌, ◌==◌, ◌||◌, true, false};
ghost use Rattle.tidy.specs.Words.{is_gap};
ghost use Rattle.tidy.specs.Tidied.{zero_x};
ghost use Rattle.tidy.specs.Steps.{said_first, said_more, later, takes_x, changed, first_line, first_place, first_kept, first_in_front, line_more, place_more};
ghost use Rattle.tidy.specs.declared.place.Place.TheVariants as place;
ghost use Rattle.tidy.specs.declared.line.Line.TheVariants as line;

use crate::place::Place;
use base::is_digit;

/// All words of a line so far, where they may be those of a status line or of an end.
#[derive(Clone, Copy)]
pub(crate) enum Said {
    /// `s`
    S,
    /// `sa`
    Sa,
    /// `sat`
    Sat,
    /// `1`
    One,
    /// `.`
    Dot,
    /// No beginning of these.
    Other,
}

/// Which word of a line it is.
#[derive(Clone, Copy)]
pub(crate) enum Word {
    First,
    Second,
    /// The third or a later one.
    Later,
}

/// What is known of the bytes of a line so far.
#[derive(Clone, Copy)]
pub(crate) enum Line {
    /// There are blanks alone, or none.
    Empty,
    /// All bytes are written as they are.
    Copied,
    /// Nothing of the line is written.
    Gone,
    /// It is `u`, which is not written yet: with a digit behind it the line is one of progress.
    Held,
    /// Its words are written with one space between: what they say, which word is the last, and whether a blank is behind it.
    Kept(Said, Word, bool),
}

/// Whether a byte is a blank.
pub(crate) fn is_blank(byte: u8) -> bool
    ensures { result ≡ is_gap byte }
{
    byte == b' ' || byte == b'\t' || byte == b'\r'
}

/// The first byte of a line's words.
fn said_first(byte: u8) -> Said
    ensures { result ≡ said_first byte }
{
    match byte {
        b's' => Said::S,
        b'1' => Said::One,
        b'.' => Said::Dot,
        _ => Said::Other,
    }
}

/// The same words with a byte more, which is no blank and has none in front.
fn said_more(said: Said, byte: u8) -> Said
    ensures { result ≡ said_more said byte }
{
    match (said, byte) {
        (Said::S, b'a') => Said::Sa,
        (Said::Sa, b't') => Said::Sat,
        _ => Said::Other,
    }
}

/// The word behind a word.
pub(crate) fn later(word: Word) -> Word
    ensures { result ≡ later word }
{
    match word {
        Word::First => Word::Second,
        Word::Second | Word::Later => Word::Later,
    }
}

/// Whether `x` becomes `0` in a word of a line at a place.
pub(crate) fn takes_x(place: Place, word: Word) -> bool
    ensures { result ≡ takes_x place word }
{
    match place {
        Place::Parts => matches!(word, Word::Second),
        Place::Initial | Place::First | Place::Frames | Place::Empties => true,
        _ => false,
    }
}

/// The byte that is written for a byte of a word.
pub(crate) fn changed(place: Place, word: Word, byte: u8) -> u8
    ensures { result ≡ changed place word byte }
{
    if byte == b'x' && takes_x(place, word) {
        b'0'
    } else {
        byte
    }
}

/// A line whose first word begins with a byte, and is kept.
fn first_kept(byte: u8) -> Line
    ensures { result ≡ first_kept byte }
{
    Line::Kept(said_first(byte), Word::First, false)
}

/// A line in front of a status line whose first word begins with a byte.
fn first_in_front(byte: u8) -> Line
    ensures { result ≡ first_in_front byte }
{
    match byte {
        b';' => Line::Copied,
        b'u' => Line::Held,
        _ => first_kept(byte),
    }
}

/// A line at a place whose first word begins with a byte.
pub(crate) fn first_line(place: Place, byte: u8) -> Line
    ensures { result ≡ first_line place byte }
{
    match (place, byte) {
        (Place::Between, b'c') => Line::Gone,
        (Place::Front | Place::Between, _) => first_in_front(byte),
        (Place::Claims | Place::Parts, b';') => Line::Gone,
        _ => first_kept(byte),
    }
}

/// The place of a line whose first word begins with a byte: behind a witness a line `c` and all behind it go.
fn first_place(place: Place, byte: u8) -> Place
    ensures { result ≡ first_place place byte }
{
    match (place, byte) {
        (Place::Between, b'c') => Place::Over,
        _ => place,
    }
}

/// A line of kept words with a byte more.
fn kept_more(said: Said, word: Word, gap: bool, byte: u8) -> Line
    ensures { result ≡ line_more place.Front (line.Kept said word gap) byte }
{
    if is_blank(byte) {
        return Line::Kept(said, word, true);
    }
    if gap {
        return Line::Kept(Said::Other, later(word), false);
    }
    Line::Kept(said_more(said, byte), word, false)
}

/// The line with a byte more.
pub(crate) fn line_more(place: Place, line: Line, byte: u8) -> Line
    ensures { result ≡ line_more place line byte }
{
    match line {
        Line::Empty => {
            if is_blank(byte) {
                Line::Empty
            } else {
                first_line(place, byte)
            }
        }
        Line::Copied => Line::Copied,
        Line::Gone => Line::Gone,
        Line::Held => {
            if is_digit(byte) {
                Line::Gone
            } else {
                Line::Kept(Said::Other, Word::First, is_blank(byte))
            }
        }
        Line::Kept(said, word, gap) => kept_more(said, word, gap, byte),
    }
}

/// The place of the line with a byte more.
pub(crate) fn place_more(place: Place, line: Line, byte: u8) -> Place
    ensures { result ≡ place_more place line byte }
{
    match line {
        Line::Empty if !is_blank(byte) => first_place(place, byte),
        _ => place,
    }
}
