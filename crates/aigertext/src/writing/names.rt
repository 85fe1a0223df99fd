//! The lines of the names that positions have.
ghost use Rattle.std.specs.Prelude.{Some};
ghost use Rattle.aiger.specs.Circuit.{letter, name_of};
ghost use Rattle.aigertext.specs.Ascii.{name_line, names_of, all_names};
ghost use Rattle.base.specs.Writing.{WritesText};

use crate::writing::numbers::before;
use aiger::{Circuit, Section};
use base::{Pen, Sink};

/// Puts the names of all sections, in the order of the letters i l o b c j f.
pub fn put_all_names<K: Sink>(pen: &mut Pen, sink: &mut K, circuit: &Circuit)
    ensures { WritesText K.written K.failures sink.old sink.new pen.old pen.new
        (all_names circuit.now) }
{
    for section in &Section::ALL {
        put_names(pen, sink, circuit, *section);
    }
}

/// Puts a line for each name of a section.
fn put_names<K: Sink>(pen: &mut Pen, sink: &mut K, circuit: &Circuit, section: Section)
    ensures { WritesText K.written K.failures sink.old sink.new pen.old pen.new
        (names_of circuit.now section) }
{
    for position in 0..circuit.count(section) as u32 {
        put_name_at(pen, sink, circuit, section, position);
    }
}

/// Puts the line of a position's name, where it has one.
fn put_name_at<K: Sink>(pen: &mut Pen, sink: &mut K, circuit: &Circuit, section: Section, at: u32)
    ensures { WritesText K.written K.failures sink.old sink.new pen.old pen.new
        (name_line (letter section) at (name_of circuit.now section at)) }
{
    if let Some(name) = circuit.name(section, at as usize) {
        put_name(pen, sink, section, at, name);
    }
}

/// Puts the line of a name: the section's letter, the position, a space and the name.
fn put_name<K: Sink>(pen: &mut Pen, sink: &mut K, section: Section, position: u32, name: &[u8])
    ensures { WritesText K.written K.failures sink.old sink.new pen.old pen.new
        (name_line (letter section) position (Some name.now)) }
{
    pen.line.clear();
    before(&mut pen.line, position);
    pen.line.byte(section.letter());
    pen.put_line(sink);
    pen.put(sink, name);
    pen.put(sink, b"\n");
}
