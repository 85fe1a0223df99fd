//! Restoring the frames of a counterexample, one after the other.
ghost use Rattle.std.specs.Prelude.{◌≡◌, ◌<◌, ℕ, List, ◌∷◌, [], ◌++◌, Bool, true, codes, length, IfOk};
ghost use Rattle.base.specs.declared.pen.Pen.{Pen as PenValue};
ghost use Rattle.base.specs.Writing.{WritesText};
ghost use Rattle.engine_form.specs.EngineForm.{input_count};
ghost use Rattle.restore.specs.Plays.{Play as PlayValue, IsFresh, own_frame, begun, played, play_told};
ghost use Rattle.witness.specs.BitTexts.{bit_line};
ghost use Rattle.restore.specs.Putting.{put_lines, lines_of_beginning, lines_before, end_put, HasTaken};

use crate::digits::write_line;
use crate::play::Play;
use crate::told::Restored;
use crate::writer::Writer;
use aiger::Circuit;
use base::{Pen, Sink};
use std::alloc::{AllocError, Global};
use std::marker::Model;

/// What takes the frames of a counterexample over the engine form of a circuit, and puts what a writer writes for the lines
/// of the witness that they are restored to, up to and with the first frame in which the claimed property rises. It holds one
/// run of the circuit, and the bits of two lines.
#[derive(Drop)]
pub(crate) struct Restorer<'c> {
    play: Play<'c>,
    // the lines of the claim, of the bits that the latches begin with, and of the frame that was taken last
    claim: String,
    begins: Vec<u8>,
    own: Vec<u8>,
}

impl<'c> Model for Restorer<'c> {
    ghost use Rattle.std.specs.Prelude.{length};
    ghost use Rattle.std.specs.String.{string_bytes};
    ghost use Rattle.restore.specs.Plays.{Play as PlayValue};
    ghost use Rattle.restore.specs.Putting.{HoldsLines};

    ghost Value = { PlayValue };

    ghost view = { λ r. r.play };

    ghost invariant = { λ r. HoldsLines r.play (string_bytes r.claim) (length r.begins.items) (length r.own.items) };
}

/// Puts the lines before the first frame: the status, the claim and the bits that the latches begin with.
fn put_opening<W: Writer, K: Sink>(
    writer: &W,
    pen: &mut Pen,
    sink: &mut K,
    claim: &[u8],
    begins: &[u8],
)
    ensures { WritesText K.written K.failures sink.old sink.new pen.old pen.new
        (put_lines (W.put_for writer.now) 0 (codes "1" ∷ claim.now ∷ begins.now ∷ [])) }
{
    writer.put_line(pen, sink, 0, b"1");
    writer.put_line(pen, sink, 1, claim);
    writer.put_line(pen, sink, 2, begins);
}

impl<'c> Restorer<'c> {
    /// A restorer before the first frame, with a claimed bad property that the circuit has.
    ///
    /// Error: where a growth was refused.
    pub(crate) fn new(
        alloc: Global,
        circuit: &'c Circuit,
        claim: usize,
    ) -> Result<Restorer<'c>, AllocError>
        requires { claim < length circuit.now.bads }
        ensures { IfOk result (IsFresh circuit.now claim) }
    {
        let play = Play::new(alloc, circuit, claim)?;
        let line = format!(in alloc; "b{claim}")?;
        let begins = vec![in alloc; 0; circuit.latches().len()]?;
        let own = vec![in alloc; 0; circuit.inputs() as usize]?;
        Ok(Restorer {
            play,
            claim: line,
            begins,
            own,
        })
    }

    /// Begins with a frame, and puts the lines before it.
    fn begin<W: Writer, K: Sink>(&mut self, writer: &W, pen: &mut Pen, sink: &mut K, bits: &[bool])
        requires { length bits.now ≡ input_count self.old.circuit }
        ensures begins { self.new ≡ begun self.old bits.now }
        ensures writes { WritesText K.written K.failures sink.old sink.new pen.old pen.new
            (put_lines (W.put_for writer.now) 0 (lines_of_beginning (begun self.old bits.now))) }
    {
        self.play.begin(bits);
        write_line(self.play.begins(), self.begins.as_mut_slice());
        put_opening(
            writer,
            pen,
            sink,
            self.claim.as_bytes(),
            self.begins.as_slice(),
        );
    }

    /// Plays a frame, and puts its line.
    fn play<W: Writer, K: Sink>(&mut self, writer: &W, pen: &mut Pen, sink: &mut K, bits: &[bool])
        requires { length bits.now ≡ input_count self.old.circuit }
        ensures plays { self.new ≡ played self.old (own_frame self.old bits.now) }
        ensures writes { WritesText K.written K.failures sink.old sink.new pen.old pen.new
            (W.put_for writer.now (lines_before self.old)
            (bit_line (own_frame self.old bits.now))) }
    {
        let own = self.play.own_inputs(bits);
        write_line(own, self.own.as_mut_slice());
        writer.put_line(pen, sink, self.play.lines_before(), self.own.as_slice());
        self.play.advance(own);
    }

    /// Begins with a frame and plays it, and puts its line behind those before it.
    fn take_first<W: Writer, K: Sink>(
        &mut self,
        writer: &W,
        pen: &mut Pen,
        sink: &mut K,
        bits: &[bool],
    )
        requires { length bits.now ≡ input_count self.old.circuit }
        ensures takes { self.new ≡ played (begun self.old bits.now) (own_frame self.old bits.now) }
        ensures writes { WritesText K.written K.failures sink.old sink.new pen.old pen.new
            (put_lines (W.put_for writer.now) 0 (lines_of_beginning (begun self.old bits.now))
            ++ W.put_for writer.now (lines_before self.old)
            (bit_line (own_frame self.old bits.now))) }
    {
        self.begin(writer, pen, sink, bits);
        self.play(writer, pen, sink, bits);
    }

    /// Takes a frame behind those before, and puts its line, and before the first one the lines that it begins with. Behind
    /// the rise nothing is put.
    pub(crate) fn take_frame<W: Writer, K: Sink>(
        &mut self,
        writer: &W,
        pen: &mut Pen,
        sink: &mut K,
        bits: &[bool],
    )
        requires { length bits.now ≡ input_count self.old.circuit }
        ensures takes { (start : K) (from : PenValue) (first : PlayValue)
            (given : List (List Bool))
            → HasTaken (W.put_for writer.now) K.written K.failures start sink.old from pen.old first
            given self.old
            → HasTaken (W.put_for writer.now) K.written K.failures start sink.new from pen.new first
            (given ++ bits.now ∷ []) self.new }
        ensures circuit { self.new.circuit ≡ self.old.circuit }
        ensures writes { (text : List ℕ) × WritesText K.written K.failures sink.old sink.new pen.old
            pen.new text }
    {
        if self.play.has_risen() {
            return;
        }
        if self.play.is_fresh() {
            self.take_first(writer, pen, sink, bits);
        } else {
            self.play(writer, pen, sink, bits);
        }
    }

    /// Puts the line behind the last frame.
    pub(crate) fn put_end<W: Writer, K: Sink>(&self, writer: &W, pen: &mut Pen, sink: &mut K)
        ensures { WritesText K.written K.failures sink.old sink.new pen.old pen.new
            (end_put (W.put_for writer.now) self.now true) }
    {
        writer.put_line(pen, sink, self.play.lines_before(), b".");
    }

    /// What is told of the witness with the frames that were taken.
    pub(crate) fn told(&self) -> Restored
        ensures { result ≡ play_told self.now }
    {
        self.play.told()
    }
}
