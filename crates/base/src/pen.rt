//! A text on its way to a sink, whose first fault is kept.
ghost use Rattle.std.specs.Prelude.{◌≡◌, [], List, ℕ, Ok, decimal};
ghost use Rattle.base.specs.declared.pen.Pen.{Pen as PenValue};
ghost use Rattle.base.specs.Writing.{WritesText, IsWritten};

use crate::device::DeviceFault;
use crate::line::Line;
use crate::outbox::Outbox;
use crate::sinks::Sink;
use itoa::Buffer;

/// A text on its way to a sink: small pieces are kept until there are many, and once the sink has failed nothing more is
/// written. `finish` must be called at the end, since a drop writes nothing.
#[derive(Drop)]
pub struct Pen {
    /// The bytes that are kept.
    pub outbox: Outbox,
    /// The line at hand.
    pub line: Line,
    /// How the sink took what was written so far.
    pub answer: Result<(), DeviceFault>,
}

impl Pen {
    /// A pen with which nothing is written yet.
    pub fn new() -> Pen
        ensures kept { result.outbox ≡ [] }
        ensures well { result.answer ≡ Ok tt }
    {
        Pen {
            outbox: Outbox::new(),
            line: Line::new(),
            answer: Ok(()),
        }
    }

    /// Puts bytes.
    #[inline(always)]
    pub fn put<K: Sink>(&mut self, sink: &mut K, bytes: &[u8])
        ensures { WritesText K.written K.failures sink.old sink.new self.old self.new bytes.now }
    {
        if self.answer.is_ok() {
            self.answer = self.outbox.put(sink, bytes);
        }
    }

    /// Puts the line at hand.
    #[inline(always)]
    pub fn put_line<K: Sink>(&mut self, sink: &mut K)
        ensures { WritesText K.written K.failures sink.old sink.new self.old self.new
            self.old.line }
    {
        if self.answer.is_ok() {
            self.answer = self.outbox.put(sink, self.line.bytes());
        }
    }

    /// Puts the decimal of a number.
    pub fn put_number<K: Sink>(&mut self, sink: &mut K, number: u64)
        ensures { WritesText K.written K.failures sink.old sink.new self.old self.new
            (decimal number) }
    {
        let mut buffer = Buffer::new();
        self.put(sink, buffer.format(number).as_bytes());
    }

    /// Writes all that is kept: the end of every text that was put since the pen was new.
    ///
    /// Errors: the first of the sink; a beginning of the text was written then.
    pub fn finish<K: Sink>(&mut self, sink: &mut K) -> Result<(), DeviceFault>
        ensures { (start : K) (begun : PenValue) (text : List ℕ) → begun.outbox ≡ []
            → begun.answer ≡ Ok tt → WritesText K.written K.failures start sink.old begun self.old
            text → IsWritten result (K.written start) (K.written sink.new) (K.failures start)
            (K.failures sink.new) text }
    {
        self.answer?;
        self.outbox.flush(sink)
    }
}
