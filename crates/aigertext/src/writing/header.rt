//! The header of a text.
ghost use Rattle.std.specs.Prelude.{◌≡◌, ◌≤◌, ◌∷◌, length};
ghost use Rattle.aigertext.specs.Ascii.{numbers_line, without_zero_tail, header};
ghost use Rattle.aigertext.specs.Counts.{counts_in, last_of_counts};
ghost use Rattle.base.specs.Writing.{WritesText};

use crate::forms::Form;
use crate::writing::numbers::{before, count, last};
use aiger::Circuit;
use base::{Line, Pen, Sink};

/// Puts the header of a circuit in a form.
pub fn put_header<K: Sink>(pen: &mut Pen, sink: &mut K, form: Form, circuit: &Circuit)
    ensures { WritesText K.written K.failures sink.old sink.new pen.old pen.new
        (header form circuit.now) }
{
    write_last_counts(&mut pen.line, circuit);
    before(&mut pen.line, circuit.outputs().len() as u32);
    before(&mut pen.line, circuit.latches().len() as u32);
    before(&mut pen.line, circuit.inputs());
    before(&mut pen.line, circuit.variables());
    pen.line.byte(b' ');
    pen.line.byte(b'g');
    pen.line.byte(form.letter());
    pen.line.byte(b'a');
    pen.put_line(sink);
}

/// Writes the end of a header: the gates, and the counts behind them as far as they are not 0.
fn write_last_counts(line: &mut Line, circuit: &Circuit)
    ensures counts { line.new
        ≡ numbers_line (length circuit.now.gates ∷ without_zero_tail
        (last_of_counts (counts_in circuit.now))) }
    ensures short { length line.new ≤ 105 }
{
    line.clear();
    count(line, circuit.fair().len() as u32);
    count(line, circuit.justice_count() as u32);
    count(line, circuit.constraints().len() as u32);
    count(line, circuit.bads().len() as u32);
    let gates = circuit.gates().len() as u32;
    if line.bytes().is_empty() {
        last(line, gates);
    } else {
        before(line, gates);
    }
}
