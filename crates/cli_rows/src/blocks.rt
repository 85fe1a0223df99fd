//! Rows, and how their lines are read.

use crate::escapes::add_written;
use std::alloc::{AllocError, Global};

/// A file of a row that is also tried cut after each of its bytes.
#[derive(Clone, Copy)]
pub(crate) enum Cut {
    /// The first file, a model: between two lines it is one, and elsewhere its last line is told as unfinished.
    Model,
    /// The first file, a circuit in its spelling: it is one between two lines from so many on, and elsewhere it is told
    /// where it is cut.
    Circuit(usize),
    /// The second file, a witness: its last line is told as cut.
    Witness,
}

/// Words of the command line, three files, and what is to come of them.
#[derive(Drop)]
pub(crate) struct Row {
    /// An empty word in place of the program's name and the words, each with a byte 0 behind it; nothing where no row has
    /// begun.
    pub(crate) words: Vec<u8>,
    first: Vec<u8>,
    second: Vec<u8>,
    third: Vec<u8>,
    has_first: bool,
    has_second: bool,
    has_third: bool,
    status: Option<u8>,
    /// What is to stand on standard output.
    pub(crate) out: Vec<u8>,
    /// What is to stand on standard error.
    pub(crate) err: Vec<u8>,
    /// The file that is also tried cut.
    pub(crate) cut: Option<Cut>,
    is_readable: bool,
}

impl Row {
    /// No row has begun.
    pub(crate) fn new(alloc: Global) -> Row {
        Row {
            words: Vec::new(alloc),
            first: Vec::new(alloc),
            second: Vec::new(alloc),
            third: Vec::new(alloc),
            has_first: false,
            has_second: false,
            has_third: false,
            status: None,
            out: Vec::new(alloc),
            err: Vec::new(alloc),
            cut: None,
            is_readable: true,
        }
    }

    /// No row has begun, but the first file is kept for one that has the same.
    pub(crate) fn clear(&mut self) {
        self.words.clear();
        self.has_first = false;
        self.has_second = false;
        self.has_third = false;
        self.second.clear();
        self.third.clear();
        self.status = None;
        self.out.clear();
        self.err.clear();
        self.cut = None;
        self.is_readable = true;
    }

    /// Whether a row has begun, or lines stand there that are none.
    pub(crate) fn has_begun(&self) -> bool {
        !self.words.is_empty() || !self.is_readable
    }

    /// The first file; none where it is not there.
    pub(crate) fn first(&self) -> Option<&[u8]> {
        self.has_first.then_some(self.first.as_slice())
    }

    /// The second file; none where it is not there.
    pub(crate) fn second(&self) -> Option<&[u8]> {
        self.has_second.then_some(self.second.as_slice())
    }

    /// The third file; none where it is not there.
    pub(crate) fn third(&self) -> Option<&[u8]> {
        self.has_third.then_some(self.third.as_slice())
    }

    /// The status that is wanted; none where the row cannot be read.
    pub(crate) fn status(&self) -> Option<u8> {
        if self.is_readable && !self.words.is_empty() {
            self.status
        } else {
            None
        }
    }

    /// Reads a line of the row.
    pub(crate) fn read(&mut self, line: &[u8]) -> Result<(), AllocError> {
        let is_good = match line {
            [b'#', ..] => return Ok(()),
            [b'$', words @ ..] => self.begin(words)?,
            [b'1', b'^'] => {
                self.has_first = true;
                true
            }
            [b'=', b' ', status @ b'0'..=b'4'] => {
                self.status = Some(*status - b'0');
                true
            }
            [b'~', b' ', cut @ ..] => self.read_cut(cut),
            [part, end, piece @ ..] => self.read_piece(*part, *end, piece)?,
            _ => false,
        };
        let has_words = !self.words.is_empty();
        self.is_readable = self.is_readable && is_good && has_words;
        Ok(())
    }

    /// Begins with the words behind `$`, with a space before each; whether they are written well and none began before.
    fn begin(&mut self, words: &[u8]) -> Result<bool, AllocError> {
        let is_good = self.words.is_empty() && (words.is_empty() || words.starts_with(b" "));
        let are_written = add_written(&mut self.words, words, 0)?;
        self.words.push(0)?;
        Ok(is_good && are_written)
    }

    /// Reads which file is also tried cut; whether it is one.
    fn read_cut(&mut self, cut: &[u8]) -> bool {
        self.cut = match cut {
            b"model" => Some(Cut::Model),
            b"witness" => Some(Cut::Witness),
            [
                b'c',
                b'i',
                b'r',
                b'c',
                b'u',
                b'i',
                b't',
                b' ',
                lines @ b'0'..=b'9',
            ] => { Some(Cut::Circuit(usize::from(*lines - b'0'))) }
            _ => None,
        };
        self.cut.is_some()
    }

    /// Reads a piece of a text, a line behind `|` and what has no line end behind `/`; whether it is one.
    fn read_piece(&mut self, part: u8, end: u8, piece: &[u8]) -> Result<bool, AllocError> {
        if part == b'1' && !self.has_first {
            self.first.clear();
            self.has_first = true;
        }
        self.has_second = self.has_second || part == b'2';
        self.has_third = self.has_third || part == b'3';
        let text = match part {
            b'1' => &mut self.first,
            b'2' => &mut self.second,
            b'3' => &mut self.third,
            b'o' => &mut self.out,
            b'e' => &mut self.err,
            _ => return Ok(false),
        };
        add_piece(text, end, piece)
    }
}

/// Adds a piece to a text, with its end; whether it is written well.
fn add_piece(text: &mut Vec<u8>, end: u8, piece: &[u8]) -> Result<bool, AllocError> {
    let is_good = add_written(text, piece, b' ')?;
    if end == b'|' {
        text.push(b'\n')?;
    }
    Ok(is_good && (end == b'|' || end == b'/'))
}
