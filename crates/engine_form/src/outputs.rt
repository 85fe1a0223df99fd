//! A circuit whose outputs are bad properties.
ghost use Rattle.std.specs.Prelude.{◌≡◌, ◌+◌, ◌≤◌, length, IfOk, OnOk};
ghost use Rattle.aiger.specs.Limits.{greatest_count};
ghost use Rattle.aiger.specs.Circuit.{IsCircuit, net, fresh_circuit, RefusesBy};
ghost use Rattle.engine_form.specs.Outputs.{HasOutputsAsBads, outputs_refusal};
ghost use Rattle.engine_form.specs.Moves.{unnamed};

use crate::copies::{
    push_bads, push_constraints, push_fairs, push_gates, push_justices, set_latches,
};
use crate::moves::move_names;
use aiger::{Circuit, CircuitFault, GREATEST_COUNT};
use std::alloc::{AllocError, Global};

/// A circuit of as many inputs and latches as another one has. The error is want of memory.
fn fresh(alloc: Global, circuit: &Circuit) -> Result<Circuit, AllocError>
    ensures { IfOk result (λ made. made ≡ fresh_circuit circuit.now.inputs
        (length circuit.now.latches)) }
{
    match Circuit::new(alloc, circuit.inputs(), circuit.latches().len() as u32) {
        Ok(made) => Ok(made),
        Err(CircuitFault::NoMemory) => Err(AllocError),
        Err(_) => unreachable!(),
    }
}

/// Adds the gates of a circuit, and sets the latches. The error is want of memory.
fn copy_net(circuit: &Circuit, made: &mut Circuit) -> Result<(), AllocError>
    requires { made.old ≡ fresh_circuit circuit.now.inputs (length circuit.now.latches) }
    ensures { OnOk result (made.new
        ≡ record made.old { latches = circuit.now.latches; gates = circuit.now.gates }) }
{
    push_gates(circuit.gates(), made)?;
    set_latches(circuit.latches(), made);
    Ok(())
}

/// Adds the properties of a circuit, its outputs as bad properties behind the others. The error is want of memory.
fn copy_properties(circuit: &Circuit, made: &mut Circuit) -> Result<(), AllocError>
    requires few { length circuit.now.bads + length circuit.now.outputs ≤ greatest_count }
    requires rest { made.old
        ≡ record (fresh_circuit circuit.now.inputs
        0) { latches = circuit.now.latches; gates = circuit.now.gates } }
    ensures { OnOk result (made.new ≡ unnamed circuit.now) }
{
    push_bads(circuit.bads(), made)?;
    push_bads(circuit.outputs(), made)?;
    push_constraints(circuit.constraints(), made)?;
    push_justices(circuit, made)?;
    push_fairs(circuit.fair(), made)
}

/// Adds all that a circuit has to a fresh one, its outputs as bad properties behind the others. The error is want of memory.
fn fill(circuit: &Circuit, made: &mut Circuit) -> Result<(), AllocError>
    requires few { length circuit.now.bads + length circuit.now.outputs ≤ greatest_count }
    requires fresh { made.old ≡ fresh_circuit circuit.now.inputs (length circuit.now.latches) }
    ensures { OnOk result (HasOutputsAsBads circuit.now made.new) }
{
    copy_net(circuit, made)?;
    copy_properties(circuit, made)?;
    move_names(circuit, made)?;
    // what circuits keep
    let _ = circuit.variables();
    let _ = made.variables();
    Ok(())
}

/// The circuit of another one with its outputs as bad properties. The error is want of memory.
fn filled(alloc: Global, circuit: &Circuit) -> Result<Circuit, AllocError>
    requires few { length circuit.now.bads + length circuit.now.outputs ≤ greatest_count }
    ensures { IfOk result (λ made. HasOutputsAsBads circuit.now made) }
{
    let mut made = fresh(alloc, circuit)?;
    fill(circuit, &mut made)?;
    Ok(made)
}

/// A circuit with its outputs as bad properties, for files of before AIGER 1.9, in which outputs stand in their place.
///
/// Each output is a bad property, behind those that there are, with its name, and there are no outputs any more. All else
/// is as in the circuit: inputs, latches with their resets, gates, constraints, justice, fairness, and the names of all of
/// them. So the traces of both are the same (`laws::outputs_rise_as_bads`). No memory is taken for a gate but that of the
/// circuit that is made.
///
/// Errors: `TooBig` where bad properties and outputs are more than 2^30 together, and `NoMemory`.
pub fn outputs_as_bads(alloc: Global, circuit: &Circuit) -> Result<Circuit, CircuitFault>
    ensures ok { IfOk result (λ made. HasOutputsAsBads circuit.now made) }
    ensures refused { RefusesBy result (outputs_refusal circuit.now) }
{
    if circuit.bads().len() + circuit.outputs().len() > GREATEST_COUNT as usize {
        return Err(CircuitFault::TooBig);
    }
    Ok(filled(alloc, circuit)?)
}
