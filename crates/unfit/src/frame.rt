//! The frame that is open.
ghost use Rattle.std.specs.Prelude.{◌≡◌, ◌++◌, [], IfOk};
ghost use Rattle.base.specs.Writing.{WritesText};
ghost use Rattle.witness.specs.Admits.{begins_part, nothing_read};
ghost use Rattle.btor2.specs.Symbols.{is_comment};
ghost use Rattle.unfit.specs.Steps.{Holds, WritesSome, TakesAdmitted, TellsLine, keeps, opened_by, open_text, text_of_line, closed_frame};

use crate::assignments::assignment;
use crate::known::Wide;
use crate::titles::Titles;
use crate::told_pieces::{Piece, forget, input_pieces, state_pieces, tell};
use crate::words::put_part;
use base::{Pen, Sink};
use btor2::Model;
use std::alloc::{AllocError, Global};

/// Which part of a frame is open.
#[derive(Clone, Copy)]
pub(crate) enum OpenPart {
    /// None: no frame has begun, or the last one is closed.
    Nothing,
    /// That of states.
    States,
    /// That of inputs.
    Inputs,
}

/// The part that a line opens.
fn opened_by(line: &[u8]) -> OpenPart
    ensures { result ≡ opened_by line.now }
{
    match line {
        [b'#', ..] => OpenPart::States,
        [b'@', ..] => OpenPart::Inputs,
        _ => OpenPart::Nothing,
    }
}

/// Puts a line, where it opens no part.
fn put_plain<K: Sink>(pen: &mut Pen, sink: &mut K, line: &[u8], opened: OpenPart)
    ensures { WritesText K.written K.failures sink.old sink.new pen.old pen.new
        (text_of_line line.now opened) }
{
    if let OpenPart::Nothing = opened {
        pen.put(sink, line);
        pen.put(sink, b"\n");
    }
}

/// Whether a line opens or ends a part.
fn begins_part(line: &[u8]) -> bool
    ensures { result ≡ begins_part line.now }
{
    match line {
        [first, ..] => *first == b'#' || *first == b'@' || *first == b'.',
        [] => false,
    }
}

/// Whether a line is a comment.
fn is_comment(line: &[u8]) -> bool
    ensures { result ≡ is_comment line.now }
{
    match line {
        [first, ..] => *first == b';',
        [] => false,
    }
}

/// What is told in the part of a frame that is open, over the fitted model.
#[derive(Drop)]
pub(crate) struct Frame {
    // which part that is
    part: OpenPart,
    // the pieces of the states
    states: Vec<Piece>,
    // the pieces of the inputs
    inputs: Vec<Piece>,
}

impl std::marker::Model for Frame {
    ghost use Rattle.unfit.specs.Steps.{Frame as FrameValue};

    ghost Value = { FrameValue };

    ghost view = { λ f. record { part = f.part; states = f.states.items; inputs = f.inputs.items } };
}

impl Frame {
    /// That of no line.
    ///
    /// Error: a growth was refused.
    pub(crate) fn new(alloc: Global, narrow: &Model) -> Result<Frame, AllocError>
        ensures { IfOk result (Holds narrow.now nothing_read) }
    {
        Ok(Frame {
            part: OpenPart::Nothing,
            states: state_pieces(alloc, narrow)?,
            inputs: input_pieces(alloc, narrow)?,
        })
    }

    /// Puts the lines of the part that is open, of the frame with this number, and forgets it.
    fn put_open<K: Sink, T: Titles>(
        &mut self,
        wide: &Wide<'_, T>,
        pen: &mut Pen,
        sink: &mut K,
        number: u64,
    )
        ensures puts { WritesText K.written K.failures sink.old sink.new pen.old pen.new
            (open_text wide.now number self.old self.old.part) }
        ensures closed { self.new ≡ closed_frame self.old self.old.part }
    {
        let shape = wide.shape;
        match self.part {
            OpenPart::Nothing => {}
            OpenPart::States => {
                put_part(
                    pen,
                    sink,
                    b"#",
                    wide.named,
                    wide.states,
                    shape.states(),
                    number,
                    self.states.as_slice(),
                );
                forget(self.states.as_mut_slice());
            }
            OpenPart::Inputs => {
                put_part(
                    pen,
                    sink,
                    b"@",
                    wide.named,
                    wide.inputs,
                    shape.inputs(),
                    number,
                    self.inputs.as_slice(),
                );
                forget(self.inputs.as_mut_slice());
            }
        }
    }

    /// Puts the part that a line ends, and the line where it opens no other.
    fn put_line<K: Sink, T: Titles>(
        &mut self,
        wide: &Wide<'_, T>,
        pen: &mut Pen,
        sink: &mut K,
        number: u64,
        line: &[u8],
    )
        ensures puts { WritesText K.written K.failures sink.old sink.new pen.old pen.new
            (open_text wide.now number self.old self.old.part
            ++ text_of_line line.now (opened_by line.now)) }
        ensures opens { self.new
            ≡ record (closed_frame self.old self.old.part) { part = opened_by line.now } }
    {
        self.put_open(wide, pen, sink, number);
        let part = opened_by(line);
        put_plain(pen, sink, line, part);
        self.part = part;
    }

    /// Takes the assignment of a line of the part that is open.
    fn tell(&mut self, line: &[u8])
        ensures { TellsLine self.old self.new line.now }
    {
        let (index, word) = assignment(line);
        match self.part {
            OpenPart::Nothing => {}
            OpenPart::States => tell(self.states.as_mut_slice(), index as usize, word),
            OpenPart::Inputs => tell(self.inputs.as_mut_slice(), index as usize, word),
        }
    }

    /// Whether a line says nothing by itself: a comment, or an assignment in a part that is open.
    fn keeps(&self, line: &[u8]) -> bool
        ensures { result ≡ keeps self.now.part line.now }
    {
        match self.part {
            OpenPart::Nothing => is_comment(line),
            _ => !begins_part(line),
        }
    }

    /// Takes a line that is admitted, where so many frames are closed, and puts what that says.
    pub(crate) fn take_admitted<K: Sink, T: Titles>(
        &mut self,
        wide: &Wide<'_, T>,
        pen: &mut Pen,
        sink: &mut K,
        number: u64,
        line: &[u8],
    )
        ensures { WritesSome K.written K.failures sink.old sink.new pen.old pen.new
            (TakesAdmitted wide.now number line.now self.old self.new) }
    {
        if self.keeps(line) {
            self.tell(line);
            return;
        }
        self.put_line(wide, pen, sink, number, line);
    }
}
