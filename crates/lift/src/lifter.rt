//! A lifter of a witness that comes piece by piece.
ghost use Rattle.std.specs.Prelude.{◌≡◌, ℕ, Bool, true, List, [], ◌∷◌, ◌++◌, IfOk};
ghost use Rattle.base.specs.Lines.{IsLine, text_of_lines};
ghost use Rattle.base.specs.Writing.{WritesText};
ghost use Rattle.btor2.specs.declared.item.Item.{Item};
ghost use Rattle.aiger.specs.Circuit.{Circuit};
ghost use Rattle.witness.specs.BitJudgements.{BitJudges};
ghost use Rattle.rises.specs.FirstRises.{AreBitFirstRises};
ghost use Rattle.witness.specs.Readings.{is_nothing};
ghost use Rattle.lift.specs.Stands.{HasRoom, LiftsWith, TakesText, admitted_piece};

use crate::pieces::Pieces;
use aiger::Circuit;
use base::{Pen, Sink, next_line};
use rises::{BitNoter, FirstRises};
use std::alloc::{AllocError, Global};
use std::marker::Model;
use witness::{CutLine, Judgement};

/// A lifter of witnesses of a circuit over the model that it was made of. It is fed a witness in pieces, and puts the piece
/// of a line when the judge has admitted it. Beside the judge it holds the bytes of one line and a few words, and with names
/// one frame for each bad property.
#[derive(Drop)]
pub(crate) struct Lifter<'a> {
    // puts the pieces of lines
    pieces: Pieces<'a>,
    // judges the text, and with names notes when the claim is first reached
    noter: BitNoter<'a>,
    // what is kept of the line that has not ended
    kept: CutLine,
}

impl<'a> Model for Lifter<'a> {
    ghost use Rattle.lift.specs.Stands.{Lifter as LifterValue};

    ghost Value = { LifterValue };

    ghost view = { λ l. record { pieces = l.pieces; noter = l.noter; kept = l.kept } };
}

/// The most bytes of a claim.
const MOST_CLAIMED: usize = 21;

/// At least the most bytes of a line that is admitted.
fn line_room(circuit: &Circuit) -> usize
    ensures { HasRoom circuit.now result }
{
    circuit
        .latches()
        .len()
        .max(circuit.inputs() as usize)
        .max(MOST_CLAIMED)
}

impl<'a> Lifter<'a> {
    /// A lifter of the empty text, with names or without.
    ///
    /// Error: where a growth was refused.
    pub(crate) fn new(
        alloc: Global,
        model: &'a btor2::Model,
        circuit: &'a Circuit,
        named: bool,
    ) -> Result<Lifter<'a>, AllocError>
        ensures { IfOk result (λ l. LiftsWith named model.now circuit.now l []) }
    {
        let kept = CutLine::new(alloc, line_room(circuit))?;
        match BitNoter::new(alloc, circuit, named) {
            Ok(noter) => Ok(Lifter {
                pieces: Pieces::new(model, named),
                noter,
                kept,
            }),
            Err(_) => Err(AllocError),
        }
    }

    /// Puts the piece of a line, where it is admitted behind so many others.
    fn put_admitted<K: Sink>(
        &self,
        pen: &mut Pen,
        sink: &mut K,
        admitted: bool,
        number: u64,
        line: &[u8],
    )
        ensures { WritesText K.written K.failures sink.old sink.new pen.old pen.new
            (text_of_lines (admitted_piece admitted self.now number line.now)) }
    {
        if admitted {
            self.pieces.put(pen, sink, number, line);
        }
    }

    /// Takes bytes that end no line.
    fn take_bytes(&mut self, bytes: &[u8])
        ensures { (named : Bool) (items : List Item) (c : Circuit) (text : List ℕ)
            → IsLine bytes.now → LiftsWith named items c self.old text
            → LiftsWith named items c self.new (text ++ bytes.now) }
    {
        self.kept.extend(bytes);
        self.noter.take_bytes(bytes);
    }

    /// Takes a whole line, and its end.
    fn take_whole<K: Sink>(&mut self, pen: &mut Pen, sink: &mut K, line: &[u8])
        requires line { IsLine line.now }
        requires none { is_nothing self.old.kept.bytes ≡ true }
        ensures { TakesText K.written K.failures sink.old sink.new pen.old pen.new self.old
            self.new (line.now ++ 10 ∷ []) }
    {
        let number = self.noter.admitted_lines();
        self.noter.take_line(line);
        let admitted = self.noter.admitted_lines() != number;
        self.put_admitted(pen, sink, admitted, number, line);
    }

    /// Takes the rest of a line that was cut, and its end.
    fn take_rest<K: Sink>(&mut self, pen: &mut Pen, sink: &mut K, line: &[u8])
        requires { IsLine line.now }
        ensures { TakesText K.written K.failures sink.old sink.new pen.old pen.new self.old
            self.new (line.now ++ 10 ∷ []) }
    {
        self.kept.extend(line);
        let number = self.noter.admitted_lines();
        self.noter.take_line(line);
        let admitted = self.noter.admitted_lines() != number;
        self.put_admitted(pen, sink, admitted, number, self.kept.bytes());
        self.kept.clear();
    }

    /// Takes the rest of a line, and its end.
    fn take_line<K: Sink>(&mut self, pen: &mut Pen, sink: &mut K, line: &[u8])
        requires { IsLine line.now }
        ensures { TakesText K.written K.failures sink.old sink.new pen.old pen.new self.old
            self.new (line.now ++ 10 ∷ []) }
    {
        if self.kept.is_empty() {
            self.take_whole(pen, sink, line);
        } else {
            self.take_rest(pen, sink, line);
        }
    }

    /// Takes a piece of the witness behind those before.
    pub(crate) fn take<K: Sink>(&mut self, pen: &mut Pen, sink: &mut K, bytes: &[u8])
        ensures { TakesText K.written K.failures sink.old sink.new pen.old pen.new self.old
            self.new bytes.now }
    {
        let mut rest = bytes;
        while let Some((line, behind)) = next_line(rest) {
            self.take_line(pen, sink, line);
            rest = behind;
        }
        self.take_bytes(rest);
    }

    /// The judgement of the text, and with names its first rises.
    pub(crate) fn finish(self) -> (Judgement, FirstRises)
        ensures judged { (named : Bool) (items : List Item) (c : Circuit) (text : List ℕ)
            → LiftsWith named items c self.entry text → BitJudges c text result.0 }
        ensures firsts { (named : Bool) (items : List Item) (c : Circuit) (text : List ℕ)
            → LiftsWith named items c self.entry text → named ≡ true
            → AreBitFirstRises c text result.1 }
    {
        self.noter.finish()
    }
}
