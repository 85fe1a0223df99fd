//! What commands hold while a long text streams past: no more than while a short one does. No clause says so, since a list
//! that the view of a value leaves out stands in none.

ghost use Rattle.std.specs.Prelude.{◌≤◌, length};

use crate::Fault;
use crate::answers::status_on;
use base::{DeviceFault, Sink, Source};
use command_line::order;
use invocation::Order;
use std::alloc::{AllocError, Global};
use std::fmt::Write;
use std::fs;
use std::io::Read;
use std::rt::Files;

/// A text of frames: what stands in front, in each frame but the last, in the last, and behind it.
struct Text {
    front: &'static str,
    /// Whether a frame begins with `@` and its number.
    is_numbered: bool,
    frame: &'static str,
    last: &'static str,
    end: &'static str,
}

/// A witness of the model.
const WORDS: Text = Text {
    front: "sat\nb0\n",
    is_numbered: true,
    frame: "\n0 000\n",
    last: "\n0 111\n",
    end: ".\n",
};

/// One of its circuit, and of the engine form of that.
const BITS: Text = Text {
    front: "1\nb0\n0\n",
    is_numbered: false,
    frame: "000\n",
    last: "111\n",
    end: ".\n",
};

/// What ABC writes over that form.
const FOUND: Text = Text {
    front: "0\n",
    is_numbered: false,
    frame: "000\n",
    last: "111\n",
    end: "",
};

/// A bit that takes the highest bit of an input, which is bad where it is 1.
const MODEL: &str =
    "1 sort bitvec 3\n2 sort bitvec 1\n3 zero 2\n4 input 1 x\n5 state 2 s\n6 init 2 5 3\n7 slice 2 4 2 2\n8 next 2 5 7\n9 bad 7\n";

/// The circuit of the model.
const CIRCUIT: &str = "aag 4 3 1 0 0 1\n2\n4\n6\n8 6\n6\n";

/// A command on two files, the second of which may be long.
struct Row {
    words: &'static [&'static str],
    first: &'static str,
    text: Text,
    /// What is told where it holds more.
    fault: Fault,
}

/// The commands that read witnesses.
const ROWS: [Row; 9] = [
    Row {
        words: &["check-btor", "m", "w"],
        first: MODEL,
        text: WORDS,
        fault: Some("what check-btor holds"),
    },
    Row {
        words: &["check-btor", "--names", "m", "w"],
        first: MODEL,
        text: WORDS,
        fault: Some("what check-btor --names holds"),
    },
    Row {
        words: &["check-aig", "c", "w"],
        first: CIRCUIT,
        text: BITS,
        fault: Some("what check-aig holds"),
    },
    Row {
        words: &["wave", "m", "w"],
        first: MODEL,
        text: WORDS,
        fault: Some("what wave holds"),
    },
    Row {
        words: &["lift", "m", "w"],
        first: MODEL,
        text: BITS,
        fault: Some("what lift holds"),
    },
    Row {
        words: &["lift", "--engine", "m", "w"],
        first: MODEL,
        text: BITS,
        fault: Some("what lift --engine holds"),
    },
    Row {
        words: &["lift", "--engine", "--abc", "m", "w"],
        first: MODEL,
        text: FOUND,
        fault: Some("what lift --engine --abc holds"),
    },
    Row {
        words: &["restore", "c", "w"],
        first: CIRCUIT,
        text: BITS,
        fault: Some("what restore holds"),
    },
    Row {
        words: &["restore", "--abc", "c", "w"],
        first: CIRCUIT,
        text: FOUND,
        fault: Some("what restore --abc holds"),
    },
];

/// How many frames stand before the last one in a short text, and in a long one, which has more than a byte for each byte that
/// the short one may be passed by.
const FEW: u64 = 10;

const MANY: u64 = 1_000_000;

/// By how many pages the memory of the process may be larger at the end of the long text: a megabyte has 256.
const MORE_PAGES: u64 = 100;

/// How many frames are made at a time.
const FRAMES: u64 = 1000;

/// The pieces of a text of so many frames and one, of which one is held at a time.
#[derive(Drop)]
struct Pieces<'a> {
    text: &'a Text,
    frames: u64,
    // how many are in the pieces so far
    made: u64,
    piece: String,
    // how many bytes of the piece were taken
    taken: usize,
}

impl<'a> Pieces<'a> {
    /// The pieces from the beginning on.
    fn new(alloc: Global, text: &'a Text, frames: u64) -> Result<Pieces<'a>, AllocError> {
        let piece = String::from_str(alloc, text.front)?;
        Ok(Pieces {
            text,
            frames,
            made: 0,
            piece,
            taken: 0,
        })
    }

    /// Puts the next frame behind the piece, and what stands behind the last one.
    fn put_frame(&mut self) -> Result<(), AllocError> {
        if self.text.is_numbered {
            let number = self.made;
            write!(self.piece, "@{number}")?;
        }
        if self.made < self.frames {
            self.piece.push_str(self.text.frame)?;
        } else {
            self.piece.push_str(self.text.last)?;
            self.piece.push_str(self.text.end)?;
        }
        self.made = self.made.saturating_add(1);
        Ok(())
    }

    /// Makes the next piece, which is empty behind the last one.
    fn make_piece(&mut self) -> Result<(), AllocError> {
        self.piece.clear();
        self.taken = 0;
        for _ in 0..FRAMES {
            if self.made <= self.frames {
                self.put_frame()?;
            }
        }
        Ok(())
    }

    /// Puts bytes of the piece, or of the next one, into the front of a buffer, and answers how many. Where memory is wanting
    /// there are none.
    fn take(&mut self, buf: &mut [u8]) -> usize
        ensures { result ≤ length buf.new }
    {
        if self.taken >= self.piece.len() && self.make_piece().is_err() {
            return 0;
        }
        let bytes = self.piece.as_bytes();
        let (_, rest) = bytes.split_at(self.taken.min(bytes.len()));
        let count = rest.len().min(buf.len());
        let (front, _) = rest.split_at(count);
        buf[..count].copy_from_slice(front);
        self.taken = self.taken.saturating_add(count);
        count
    }
}

/// A source of these pieces. At the end of the text it notes how large the memory of the process is.
#[derive(Drop)]
struct Streamed<'a, R: Files> {
    rt: &'a R,
    pieces: Pieces<'a>,
    calls_left: u64,
    pages: Option<u64>,
}

impl<R: Files> Source for Streamed<'_, R> {
    ghost calls_left = { λ s. s.calls_left };

    ghost failures = { λ _. 0 };

    fn read(&mut self, buf: &mut [u8]) -> Result<usize, DeviceFault> {
        if self.calls_left == 0 {
            return Ok(0);
        }
        self.calls_left -= 1;
        let count = self.pieces.take(buf);
        if count == 0 {
            self.pages = pages(self.rt);
        }
        Ok(count)
    }
}

/// A sink that keeps nothing.
#[derive(Drop)]
struct Passed;

impl Sink for Passed {
    ghost failures = { λ _. 0 };

    fn write(&mut self, bytes: &[u8]) -> Result<usize, DeviceFault> {
        Ok(bytes.len())
    }
}

/// How many pages the memory of the process has, where the system tells it.
fn pages<R: Files>(rt: &R) -> Option<u64> {
    let mut text = [0u8; 64];
    let count = match fs::open(rt, "/proc/self/statm") {
        Ok(mut file) => match file.read(&mut text) {
            Ok(count) => count,
            Err(_) => return None,
        },
        Err(_) => return None,
    };
    let (text, _) = text.split_at(count.min(text.len()));
    let mut pages: u64 = 0;
    for byte in text {
        if !byte.is_ascii_digit() {
            return Some(pages);
        }
        pages = pages
            .saturating_mul(10)
            .saturating_add(u64::from(*byte % 16));
    }
    None
}

/// How many pages the memory of the process has at the end of a text of so many frames and one, where a command is done with
/// it.
fn pages_at_end<R: Files>(
    alloc: Global,
    rt: &R,
    order: &Order<'_>,
    row: &Row,
    frames: u64,
) -> Result<Option<u64>, AllocError> {
    let mut first = row.first.as_bytes();
    let mut second = Streamed {
        rt,
        pieces: Pieces::new(alloc, &row.text, frames)?,
        calls_left: u64::MAX,
        pages: None,
    };
    let mut third = b"".as_slice();
    let status = status_on(
        alloc,
        order,
        &mut first,
        &mut second,
        &mut third,
        &mut Passed,
        &mut Passed,
    );
    if status == 0 {
        Ok(second.pages)
    } else {
        Ok(None)
    }
}

/// Whether a command holds no more at the end of the long text than at that of the short one.
fn holds_no_more<R: Files>(alloc: Global, rt: &R, row: &Row) -> Result<bool, AllocError> {
    let order = match order(alloc, row.words) {
        Ok(order) => order,
        Err(_) => return Ok(false),
    };
    let few = pages_at_end(alloc, rt, &order, row, FEW)?;
    let many = pages_at_end(alloc, rt, &order, row, MANY)?;
    match (few, many) {
        (Some(few), Some(many)) => Ok(many <= few.saturating_add(MORE_PAGES)),
        _ => Ok(false),
    }
}

/// What is not as it should be of what commands hold.
pub(crate) fn fault_of_held<R: Files>(alloc: Global, rt: &R) -> Result<Fault, AllocError> {
    for row in &ROWS {
        if !holds_no_more(alloc, rt, row)? {
            return Ok(row.fault);
        }
    }
    Ok(None)
}
