//! The gates: a line for each in the ascii form, and two deltas for each in the binary one.
ghost use Rattle.std.specs.Prelude.{◌≡◌, ◌+◌, ◌≤◌, ◌++◌, suc, length, take};
ghost use Rattle.aiger.specs.Circuit.{IsCircuit};
ghost use Rattle.aiger.specs.Net.{AreOrderedFrom};
ghost use Rattle.aigertext.specs.Binary.{gate_text, gates_text};
ghost use Rattle.aigertext.specs.declared.forms.Form.TheVariants as variant;
ghost use Rattle.base.specs.Writing.{WritesText};

use crate::forms::Form;
use crate::writing::numbers::{before, last};
use aiger::{Circuit, Gate};
use base::{Pen, Sink};

/// Room for the deltas that are put together: those of a gate take ten bytes at most.
const ROOM: usize = 5120;

/// The variable of the first gate.
pub fn first_gate(circuit: &Circuit) -> u32
    ensures variable { result ≡ suc (circuit.now.inputs + length circuit.now.latches) }
    ensures valid { IsCircuit circuit.now }
{
    circuit.inputs() + circuit.latches().len() as u32 + 1
}

/// Puts the gates in a form, the first of which has the given variable.
pub fn put_gates<K: Sink>(pen: &mut Pen, sink: &mut K, form: Form, first: u32, gates: &[Gate])
    requires few { first + length gates.now ≤ 1073741825 }
    requires ordered { AreOrderedFrom first gates.now }
    ensures { WritesText K.written K.failures sink.old sink.new pen.old pen.new
        (gates_text form first gates.now) }
{
    match form {
        Form::Ascii => put_lines(pen, sink, first, gates),
        Form::Binary => put_deltas(pen, sink, first, gates),
    }
}

/// Puts the lines of gates: of each its literal and its operands.
fn put_lines<K: Sink>(pen: &mut Pen, sink: &mut K, first: u32, gates: &[Gate])
    requires { first + length gates.now ≤ 1073741825 }
    ensures { WritesText K.written K.failures sink.old sink.new pen.old pen.new
        (gates_text variant.Ascii first gates.now) }
{
    let mut variable = first;
    for gate in gates {
        last(&mut pen.line, gate.rhs1.number());
        before(&mut pen.line, gate.rhs0.number());
        before(&mut pen.line, 2 * variable);
        pen.put_line(sink);
        variable += 1;
    }
}

/// Puts the deltas of gates, those of many together.
fn put_deltas<K: Sink>(pen: &mut Pen, sink: &mut K, first: u32, gates: &[Gate])
    requires few { first + length gates.now ≤ 1073741825 }
    requires ordered { AreOrderedFrom first gates.now }
    ensures { WritesText K.written K.failures sink.old sink.new pen.old pen.new
        (gates_text variant.Binary first gates.now) }
{
    let mut buffer = [0u8; ROOM];
    let mut variable = first;
    let mut rest = gates;
    while !rest.is_empty() {
        let (some, others) = rest.split_at(rest.len().min(ROOM / 10));
        let end = write_gates(&mut buffer, variable, some);
        let (bytes, _) = buffer.split_at(end);
        pen.put(sink, bytes);
        variable += some.len() as u32;
        rest = others;
    }
}

/// Writes the deltas of gates to the front of a buffer, and answers how many bytes they are.
fn write_gates(buffer: &mut [u8; ROOM], first: u32, gates: &[Gate]) -> usize
    requires few { first + length gates.now ≤ 1073741825 }
    requires room { length gates.now ≤ 512 }
    requires ordered { AreOrderedFrom first gates.now }
    ensures bytes { take result buffer.new ≡ gates_text variant.Binary first gates.now }
    ensures most { result ≤ length buffer.new }
{
    let mut variable = first;
    let mut end = 0;
    for gate in gates {
        end = write_gate(buffer, end, 2 * variable, gate);
        variable += 1;
    }
    end
}

/// Writes the two deltas of a gate into a buffer, and answers the place behind them.
#[inline(always)]
fn write_gate(buffer: &mut [u8], at: usize, own: u32, gate: &Gate) -> usize
    requires room { at + 10 ≤ length buffer.old }
    requires below { gate.now.rhs0 ≤ own }
    requires ordered { gate.now.rhs1 ≤ gate.now.rhs0 }
    ensures bytes { take result buffer.new ≡ take at buffer.old
        ++ gate_text variant.Binary own gate.now }
    ensures most { result ≤ at + 10 }
    ensures same { length buffer.new ≡ length buffer.old }
{
    let greater = gate.rhs0.number();
    let at = deltas::write(buffer, at, own - greater);
    deltas::write(buffer, at, greater - gate.rhs1.number())
}
