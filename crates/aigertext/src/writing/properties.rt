//! The lines of outputs, bad properties, constraints, justice properties and fairness constraints.
ghost use Rattle.aigertext.specs.Ascii.{literal_lines, size_lines, list_lines, property_lines};
ghost use Rattle.base.specs.Writing.{WritesText};

use crate::writing::numbers::put_number;
use aiger::{Circuit, Lit};
use base::{Pen, Sink};

/// Puts the lines of the outputs, bad properties, constraints, justice properties and fairness constraints.
pub fn put_properties<K: Sink>(pen: &mut Pen, sink: &mut K, circuit: &Circuit)
    ensures { WritesText K.written K.failures sink.old sink.new pen.old pen.new
        (property_lines circuit.now) }
{
    put_literals(pen, sink, circuit.outputs());
    put_literals(pen, sink, circuit.bads());
    put_literals(pen, sink, circuit.constraints());
    put_sizes(pen, sink, circuit);
    put_lists(pen, sink, circuit);
    put_literals(pen, sink, circuit.fair());
}

/// Puts a line for each justice property: how many literals it has.
fn put_sizes<K: Sink>(pen: &mut Pen, sink: &mut K, circuit: &Circuit)
    ensures { WritesText K.written K.failures sink.old sink.new pen.old pen.new
        (size_lines circuit.now.justice) }
{
    for index in 0..circuit.justice_count() {
        put_number(pen, sink, circuit.justice(index).len() as u32);
    }
}

/// Puts a line for each literal of each justice property.
fn put_lists<K: Sink>(pen: &mut Pen, sink: &mut K, circuit: &Circuit)
    ensures { WritesText K.written K.failures sink.old sink.new pen.old pen.new
        (list_lines circuit.now.justice) }
{
    for index in 0..circuit.justice_count() {
        put_literals(pen, sink, circuit.justice(index));
    }
}

/// Puts a line for each literal.
fn put_literals<K: Sink>(pen: &mut Pen, sink: &mut K, literals: &[Lit])
    ensures { WritesText K.written K.failures sink.old sink.new pen.old pen.new
        (literal_lines literals.now) }
{
    for literal in literals {
        put_number(pen, sink, literal.number());
    }
}
