//! Tidying whole sources.
ghost use Rattle.std.specs.Prelude.{◌≡◌, ◌==◌, ℕ, ◌<◌, ◌≤◌, List, [], ◌∷◌, ◌++◌, Ok, IfSome, OnErr, OnOk, false, is_err, length, take};
ghost use Rattle.std.specs.Io.KnownBytes.{Appends, IsAtEnd};
ghost use Rattle.base.specs.Device.{AppendsBeginning};
ghost use Rattle.base.specs.Lines.{IsLine};
ghost use Rattle.base.specs.Writing.{IsWritten};
ghost use Rattle.tidy.specs.Answers.{CountsTidy};
ghost use Rattle.tidy.specs.Tidied.{at_front, tidied};
ghost use Rattle.tidy.specs.Steps.{at_line, Takes, tidying_front};

use crate::fault::TidyFault;
use crate::tidier::Tidier;
use base::{DeviceFault, Pen, Sink, Source, Taker, TakingFault, next_line, take_source};

/// What takes a text piece by piece: the tidier of what was taken, and the pen that puts what is written for it.
#[derive(Drop)]
pub(crate) struct Tidying {
    tidier: Tidier,
    pen: Pen,
}

impl Tidying {
    /// Nothing is taken of a text, of which the witness with this number is wanted.
    fn new(pick: u64) -> Tidying
        ensures tidier { result.tidier ≡ at_line (at_front pick) }
        ensures kept { result.pen.outbox ≡ [] }
        ensures well { result.pen.answer ≡ Ok tt }
    {
        Tidying {
            tidier: Tidier::new(pick),
            pen: Pen::new(),
        }
    }

    /// Takes a byte that ends no line.
    fn take_byte<K: Sink>(&mut self, sink: &mut K, byte: u8)
        requires { (byte == 10) ≡ false }
        ensures { Takes K.written K.failures sink.old sink.new self.old self.new (byte ∷ []) }
    {
        let tidier = self.tidier;
        let written = tidier.byte_written(byte);
        self.tidier = tidier.behind_byte(byte);
        written.put(&mut self.pen, sink);
    }

    /// Takes some bytes at the front of others, which end no line, and answers how many.
    fn take_some<K: Sink>(&mut self, sink: &mut K, bytes: &[u8]) -> usize
        requires some { 0 < length bytes.now }
        requires is_line { IsLine bytes.now }
        ensures some { 0 < result }
        ensures within { result ≤ length bytes.now }
        ensures takes { Takes K.written K.failures sink.old sink.new self.old self.new
            (take result bytes.now) }
    {
        let count = self.tidier.run(bytes);
        if count == 0 {
            self.take_byte(sink, bytes[0]);
            return 1;
        }
        if !self.tidier.is_hidden() {
            let (run, _) = bytes.split_at(count);
            self.pen.put(sink, run);
        }
        count
    }

    /// Takes bytes that end no line.
    fn take_part<K: Sink>(&mut self, sink: &mut K, part: &[u8])
        requires { IsLine part.now }
        ensures { Takes K.written K.failures sink.old sink.new self.old self.new part.now }
    {
        let mut rest = part;
        while !rest.is_empty() {
            let count = self.take_some(sink, rest);
            let (_, behind) = rest.split_at(count);
            rest = behind;
        }
    }

    /// Takes the end of a line.
    fn take_end<K: Sink>(&mut self, sink: &mut K)
        ensures { Takes K.written K.failures sink.old sink.new self.old self.new (10 ∷ []) }
    {
        self.tidier.end_written().put(&mut self.pen, sink);
        self.tidier = self.tidier.behind_line();
    }

    /// Takes a piece of the text behind those before.
    fn take_piece<K: Sink>(&mut self, sink: &mut K, piece: &[u8])
        ensures { Takes K.written K.failures sink.old sink.new self.old self.new piece.now }
    {
        let mut rest = piece;
        while let Some((line, behind)) = next_line(rest) {
            self.take_part(sink, line);
            self.take_end(sink);
            rest = behind;
        }
        self.take_part(sink, rest);
    }

    /// Puts what was held back where the text ends, and writes what the pen keeps.
    ///
    /// Errors: the sink's first; a beginning of the tidied text was written then.
    fn finish<K: Sink>(&mut self, sink: &mut K) -> Result<(), DeviceFault>
        ensures { (start : K) (pick : ℕ) (text : List ℕ)
            → Takes K.written K.failures start sink.old (tidying_front pick) self.old text
            → IsWritten result (K.written start) (K.written sink.new) (K.failures start)
            (K.failures sink.new) (tidied pick text) }
    {
        self.tidier.last_written().put(&mut self.pen, sink);
        self.pen.finish(sink)
    }
}

impl<K: Sink> Taker<K> for Tidying {
    /// The sink as it was when nothing was taken, and the number of the witness that is wanted.
    ghost Over = { K × ℕ };

    ghost stands = { λ over sink taker text. Takes K.written K.failures over.0 sink
        (tidying_front over.1) taker text };

    ghost is_done = { λ taker. is_err taker.pen.answer };

    fn take(&mut self, output: &mut K, piece: &[u8]) {
        self.take_piece(output, piece);
    }

    fn is_done(&self) -> bool {
        self.pen.answer.is_err()
    }
}

/// Reads the text of a witness as a tool wrote it, of words or of bits, to its end, and writes the strict text that the
/// judges take: carriage returns, blanks at the ends of lines, empty lines where they mean nothing, comments behind the
/// status line, lines of progress (`u0`) in front of it and all that stands behind the end of the witness go, and `x`
/// becomes `0`, which chooses one of the runs that it stands for. Of several witnesses the one with the number `pick` is
/// written, from 1 (0 is as 1), and nothing where there are fewer. A strict text is written as it is, and so is what
/// claims nothing or begins no witness, from the line behind its first one on. Only what one call of the source gives and
/// what one call of the sink takes is held, however long a line is, and no memory is taken.
///
/// Errors: `Read` where the source failed in this call, and `Write` where the sink did, once. A beginning of the tidied
/// text was written then.
pub fn tidy<S: Source, K: Sink>(pick: u64, source: &mut S, sink: &mut K) -> Result<(), TidyFault>
    // what is written is the tidied text of the whole source, and after a fault a beginning of it
    ensures written { OnOk result (IfSome (S.to_come source.old)
        (λ text. Appends (K.written sink.old) (K.written sink.new) (tidied pick text))) }
    ensures beginning { OnErr result (IfSome (S.to_come source.old)
        (λ text. AppendsBeginning (K.written sink.old) (K.written sink.new) (tidied pick text))) }
    ensures end { OnOk result (IsAtEnd (S.to_come source.new)) }
    // the source failed once where that is answered, the sink where that is, and else neither
    ensures counted { CountsTidy result (S.failures source.old) (S.failures source.new)
        (K.failures sink.old) (K.failures sink.new) }
{
    let mut tidying = Tidying::new(pick);
    match take_source(&mut tidying, sink, source) {
        Ok(()) => match tidying.finish(sink) {
            Ok(()) => Ok(()),
            Err(_) => Err(TidyFault::Write),
        },
        Err(TakingFault::Source) => Err(TidyFault::Read),
        Err(TakingFault::Done) => Err(TidyFault::Write),
    }
}
