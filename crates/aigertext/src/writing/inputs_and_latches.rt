//! The lines of inputs and latches.
ghost use Rattle.std.specs.Prelude.{◌+◌, ◌≤◌, ◌≡◌, ◌∷◌, length};
ghost use Rattle.aigertext.specs.Ascii.{numbers_line, reset_numbers};
ghost use Rattle.aigertext.specs.Binary.{inputs_text, latch_text, latches_text};
ghost use Rattle.base.specs.Writing.{WritesText};

use crate::forms::Form;
use crate::writing::numbers::{before, last, put_number};
use aiger::{Latch, Reset};
use base::{Line, Pen, Sink};

/// Puts the lines of so many inputs, which only the ascii form has.
pub fn put_inputs<K: Sink>(pen: &mut Pen, sink: &mut K, form: Form, count: u32)
    requires { count ≤ 1073741824 }
    ensures { WritesText K.written K.failures sink.old sink.new pen.old pen.new
        (inputs_text form count) }
{
    if form == Form::Binary {
        return;
    }
    for index in 0..count {
        put_number(pen, sink, 2 * (index + 1));
    }
}

/// Puts the lines of the latches, the first of which has the given variable.
pub fn put_latches<K: Sink>(pen: &mut Pen, sink: &mut K, form: Form, first: u32, latches: &[Latch])
    requires { first + length latches.now ≤ 1073741825 }
    ensures { WritesText K.written K.failures sink.old sink.new pen.old pen.new
        (latches_text form first latches.now) }
{
    let mut variable = first;
    for latch in latches {
        put_latch(pen, sink, form, 2 * variable, latch);
        variable += 1;
    }
}

/// Puts the line of a latch: its literal, which the binary form leaves out, its next literal and its reset.
fn put_latch<K: Sink>(pen: &mut Pen, sink: &mut K, form: Form, own: u32, latch: &Latch)
    ensures { WritesText K.written K.failures sink.old sink.new pen.old pen.new
        (latch_text form own latch.now) }
{
    write_next(&mut pen.line, own, latch);
    if form == Form::Ascii {
        before(&mut pen.line, own);
    }
    pen.put_line(sink);
}

/// Writes the end of a latch's line: its next literal and its reset.
fn write_next(line: &mut Line, own: u32, latch: &Latch)
    ensures numbers { line.new ≡ numbers_line (latch.now.next ∷ reset_numbers own latch.now.reset) }
    ensures short { length line.new ≤ 42 }
{
    let next = latch.next.number();
    let reset = match latch.reset {
        Reset::Zero => return last(line, next),
        Reset::One => 1,
        Reset::Free => own,
    };
    last(line, reset);
    before(line, next);
}
