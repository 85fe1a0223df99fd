//! Writing a circuit: the order of the sections in a text of either form.
ghost use Rattle.std.specs.Prelude.{OnOk, OnErr};
ghost use Rattle.std.specs.Io.KnownBytes.{Appends};
ghost use Rattle.base.specs.Device.{CountsFaults, AppendsBeginning};
ghost use Rattle.aigertext.specs.Binary.{ascii_text, binary_text, circuit_text};
ghost use Rattle.base.specs.Writing.{WritesText};

mod gates;
mod header;
mod inputs_and_latches;
mod names;
pub(crate) mod numbers;
mod properties;

use crate::forms::Form;
use crate::writing::gates::{first_gate, put_gates};
use crate::writing::header::put_header;
use crate::writing::inputs_and_latches::{put_inputs, put_latches};
use crate::writing::names::put_all_names;
use crate::writing::properties::put_properties;
use aiger::Circuit;
use base::{DeviceFault, Pen, Sink};

/// Writes the text of a circuit in a form ("AIGER 1.9 and Beyond"). No memory is taken.
///
/// Errors: the sink's own; a beginning of the text was written then.
pub fn write<K: Sink>(circuit: &Circuit, form: Form, sink: &mut K) -> Result<(), DeviceFault>
    ensures ok { OnOk result (Appends (K.written sink.old) (K.written sink.new)
        (circuit_text form circuit.now)) }
    ensures err { OnErr result (AppendsBeginning (K.written sink.old) (K.written sink.new)
        (circuit_text form circuit.now)) }
    ensures failures { CountsFaults result (K.failures sink.old) (K.failures sink.new) }
{
    let mut pen = Pen::new();
    put_text(&mut pen, sink, form, circuit);
    pen.finish(sink)
}

/// Writes the ascii text of a circuit. No memory is taken.
///
/// Errors: the sink's own; a beginning of the text was written then.
pub fn write_ascii<K: Sink>(circuit: &Circuit, sink: &mut K) -> Result<(), DeviceFault>
    ensures ok { OnOk result (Appends (K.written sink.old) (K.written sink.new)
        (ascii_text circuit.now)) }
    ensures err { OnErr result (AppendsBeginning (K.written sink.old) (K.written sink.new)
        (ascii_text circuit.now)) }
    ensures failures { CountsFaults result (K.failures sink.old) (K.failures sink.new) }
{
    write(circuit, Form::Ascii, sink)
}

/// Writes the binary text of a circuit. No memory is taken.
///
/// Errors: the sink's own; a beginning of the text was written then.
pub fn write_binary<K: Sink>(circuit: &Circuit, sink: &mut K) -> Result<(), DeviceFault>
    ensures ok { OnOk result (Appends (K.written sink.old) (K.written sink.new)
        (binary_text circuit.now)) }
    ensures err { OnErr result (AppendsBeginning (K.written sink.old) (K.written sink.new)
        (binary_text circuit.now)) }
    ensures failures { CountsFaults result (K.failures sink.old) (K.failures sink.new) }
{
    write(circuit, Form::Binary, sink)
}

/// Puts the text of a circuit.
fn put_text<K: Sink>(pen: &mut Pen, sink: &mut K, form: Form, circuit: &Circuit)
    ensures { WritesText K.written K.failures sink.old sink.new pen.old pen.new
        (circuit_text form circuit.now) }
{
    let inputs = circuit.inputs();
    put_header(pen, sink, form, circuit);
    put_inputs(pen, sink, form, inputs);
    put_latches(pen, sink, form, inputs + 1, circuit.latches());
    put_properties(pen, sink, circuit);
    put_gates(pen, sink, form, first_gate(circuit), circuit.gates());
    put_all_names(pen, sink, circuit);
}
