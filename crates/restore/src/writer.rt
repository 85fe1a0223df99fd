//! How the lines of a witness are written.
ghost use Rattle.std.specs.Prelude.{ℕ, List};
ghost use Rattle.base.specs.Writing.{WritesText};

use base::{Pen, Sink};

/// What writes something for each line of a witness.
pub trait Writer {
    /// What it writes for a line without its end, behind so many others, told up to 2^64 - 1.
    ghost put_for: { Self → ℕ → List ℕ → List ℕ };

    /// Puts what it writes for a line without its end, behind so many others.
    fn put_line<K: Sink>(&self, pen: &mut Pen, sink: &mut K, number: u64, line: &[u8])
        ensures { WritesText K.written K.failures sink.old sink.new pen.old pen.new
            (put_for self.now number line.now) };
}

/// What writes each line as it is.
#[derive(Drop)]
pub(crate) struct AsItIs;

impl Writer for AsItIs {
    ghost use Rattle.restore.specs.Putting.{as_it_is};

    ghost put_for = { λ writer. as_it_is };

    fn put_line<K: Sink>(&self, pen: &mut Pen, sink: &mut K, number: u64, line: &[u8]) {
        pen.put(sink, line);
        pen.put(sink, b"\n");
    }
}
