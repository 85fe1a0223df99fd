//! Writing circuits anew: as they are, with their outputs as bad properties, or their engine forms.

ghost use Rattle.std.specs.Prelude.{IfOk, IfErr, OnOk};
ghost use Rattle.std.specs.Io.KnownBytes.{Appends};
ghost use Rattle.aigertext.specs.Binary.{circuit_text};
ghost use Rattle.engine_form.specs.Outputs.{HasOutputsAsBads};
ghost use Rattle.invocation.specs.declared.tasks.Given.TheVariants as given_is;
ghost use Rattle.verbs.specs.Circuits.{ConvertsForEngines, Rewrites, WritesEngineForm};
ghost use Rattle.verbs.specs.Outputs.{ConvertsOutputs, ConvertsOutputsForEngines, HasTooManyOutputs, IsNotWithOutputs, IsNotWithOutputsForEngines};
ghost use Rattle.verbs.specs.Refusals.{IsNoCircuit, IsNotForEngines, IsWithoutForm};
ghost use Rattle.verbs.specs.Statuses.{Ends, EndsUnrefused, IfInput};
ghost use Rattle.verbs.specs.Statuses.Use.{Unused, Used};

use crate::reading::read_circuit;
use crate::refusals::{Device, Refusal};
use aiger::Circuit;
use aigertext::{Form, write};
use base::{Sink, Source};
use engine_form::{engine_form, outputs_as_bads};
use std::alloc::Global;

/// Writes a circuit in a form.
pub(crate) fn write_circuit<O: Sink>(
    circuit: &Circuit,
    form: Form,
    out: &mut O,
) -> Result<(), Refusal>
    ensures done { OnOk result (Appends (O.written out.old) (O.written out.new)
        (circuit_text form circuit.now)) }
    ensures ends { EndsUnrefused result Unused Unused (Used O.failures out.old out.new) Unused }
{
    match write(circuit, form, out) {
        Ok(()) => Ok(()),
        Err(_) => Err(Refusal::Failed(Device::Output)),
    }
}

/// Writes the engine form of a circuit, with all its bad properties or with a chosen one.
pub(crate) fn write_engine_form<O: Sink>(
    alloc: Global,
    circuit: &Circuit,
    form: Form,
    choice: Option<usize>,
    out: &mut O,
) -> Result<(), Refusal>
    ensures done { OnOk result (WritesEngineForm circuit.now choice (O.written out.old)
        (O.written out.new) form) }
    ensures refused { IfErr result (IfInput (IsWithoutForm circuit.now choice)) }
    ensures ends { Ends result Unused Unused (Used O.failures out.old out.new) Unused }
{
    let plain = engine_form(alloc, circuit, choice)?;
    write_circuit(&plain, form, out)
}

/// A circuit with its outputs as bad properties.
fn with_outputs(alloc: Global, circuit: &Circuit) -> Result<Circuit, Refusal>
    ensures made { IfOk result (HasOutputsAsBads circuit.now) }
    ensures refused { IfErr result (IfInput (HasTooManyOutputs circuit.now)) }
    ensures ends { Ends result Unused Unused Unused Unused }
{
    match outputs_as_bads(alloc, circuit) {
        Ok(made) => Ok(made),
        Err(fault) => Err(Refusal::from(fault)),
    }
}

/// Writes the circuit of a text in a form.
pub fn convert<A: Source, O: Sink>(
    alloc: Global,
    form: Form,
    first: &mut A,
    out: &mut O,
) -> Result<(), Refusal>
    ensures done { OnOk result (Rewrites (A.to_come first.old) (O.written out.old)
        (O.written out.new) form) }
    ensures refused { IfErr result (IfInput (IsNoCircuit (A.to_come first.old))) }
    ensures ends { Ends result (Used A.failures first.old first.new) Unused
        (Used O.failures out.old out.new) Unused }
{
    let circuit = read_circuit(alloc, first)?;
    // the lists of a circuit are one
    let _ = circuit.inputs();
    write_circuit(&circuit, form, out)
}

/// Writes the engine form of a text's circuit, with all its bad properties or with a chosen one.
pub fn convert_for_engines<A: Source, O: Sink>(
    alloc: Global,
    form: Form,
    choice: Option<usize>,
    first: &mut A,
    out: &mut O,
) -> Result<(), Refusal>
    ensures done { OnOk result (ConvertsForEngines (A.to_come first.old) (O.written out.old)
        (O.written out.new) form choice) }
    ensures refused { IfErr result
        (IfInput (IsNotForEngines given_is.Circuit choice (A.to_come first.old))) }
    ensures ends { Ends result (Used A.failures first.old first.new) Unused
        (Used O.failures out.old out.new) Unused }
{
    engine_form::laws::bad_properties_rise_alike();
    let circuit = read_circuit(alloc, first)?;
    // the lists of a circuit are one
    let _ = circuit.inputs();
    write_engine_form(alloc, &circuit, form, choice, out)
}

/// Writes the circuit of a text with its outputs as bad properties.
pub fn convert_outputs<A: Source, O: Sink>(
    alloc: Global,
    form: Form,
    first: &mut A,
    out: &mut O,
) -> Result<(), Refusal>
    ensures done { OnOk result (ConvertsOutputs (A.to_come first.old) (O.written out.old)
        (O.written out.new) form) }
    ensures refused { IfErr result (IfInput (IsNotWithOutputs (A.to_come first.old))) }
    ensures ends { Ends result (Used A.failures first.old first.new) Unused
        (Used O.failures out.old out.new) Unused }
{
    engine_form::laws::outputs_rise_as_bads();
    let circuit = read_circuit(alloc, first)?;
    let made = with_outputs(alloc, &circuit)?;
    write_circuit(&made, form, out)
}

/// Writes the engine form of a text's circuit with its outputs as bad properties.
pub fn convert_outputs_for_engines<A: Source, O: Sink>(
    alloc: Global,
    form: Form,
    choice: Option<usize>,
    first: &mut A,
    out: &mut O,
) -> Result<(), Refusal>
    ensures done { OnOk result (ConvertsOutputsForEngines (A.to_come first.old)
        (O.written out.old) (O.written out.new) form choice) }
    ensures refused { IfErr result
        (IfInput (IsNotWithOutputsForEngines choice (A.to_come first.old))) }
    ensures ends { Ends result (Used A.failures first.old first.new) Unused
        (Used O.failures out.old out.new) Unused }
{
    engine_form::laws::outputs_rise_as_bads();
    engine_form::laws::bad_properties_rise_alike();
    let circuit = read_circuit(alloc, first)?;
    let made = with_outputs(alloc, &circuit)?;
    write_engine_form(alloc, &made, form, choice, out)
}
