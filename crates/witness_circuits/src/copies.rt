//! Copies of both circuits over literals of a maker of gates.
ghost use Rattle.std.specs.Prelude.{◌≡◌, ◌+◌, ◌*◌, ◌<◌, ◌≤◌, ◌++◌, ◌∷◌, length, map, All, IfOk, IfErr, OnOk};
ghost use Rattle.std.specs.List.{range_with_len};
ghost use Rattle.base.specs.Literal.{variable};
ghost use Rattle.aiger.specs.Limits.{greatest_count};
ghost use Rattle.aiger.specs.Net.{IsDefined};
ghost use Rattle.aiger.specs.Circuit.{net};
ghost use Rattle.gates.specs.Made.{RefusesGate};
ghost use Rattle.witness_circuits.specs.Mapping.{IsMappingOf};
ghost use Rattle.witness_circuits.specs.Parts.{mapping_in};
ghost use Rattle.witness_circuits.specs.Made.{IsSharedIn, IsSharedBelow, beside_literal, beside_literals, next_literals, StandFor, IsCopied, AreBeside};

use crate::mapping::Shared;
use aiger::{Circuit, Latch, Lit};
use gates::{GateFault, Gates, Table, literal_of, push_gates, variable_literal};
use std::alloc::Global;

/// The literals of so many variables from 1 on.
pub(crate) fn variable_literals(alloc: Global, count: u32) -> Result<Vec<Lit>, GateFault>
    requires { count ≤ greatest_count }
    ensures ok { IfOk result (λ literals. literals.items
        ≡ map (λ k. 2 * k) (range_with_len 1 count)) }
    ensures memory { IfErr result (λ e. e ≡ GateFault.NoMemory) }
{
    let mut literals = Vec::new(alloc);
    for k in 0..count {
        match literals.push(variable_literal(k + 1)) {
            Ok(()) => {}
            Err(_) => return Err(GateFault::NoMemory),
        }
    }
    Ok(literals)
}

/// The literals that latches take in the next frame.
pub(crate) fn next_literals(
    alloc: Global,
    table: &Table,
    latches: &[Latch],
) -> Result<Vec<Lit>, GateFault>
    requires { All (λ latch. variable latch.next < length table.now) latches.now }
    ensures ok { IfOk result (λ literals. literals.items ≡ next_literals table.now latches.now) }
    ensures memory { IfErr result (λ e. e ≡ GateFault.NoMemory) }
{
    let mut literals = Vec::new(alloc);
    for latch in latches {
        match literals.push(literal_of(table, latch.next)) {
            Ok(()) => {}
            Err(_) => return Err(GateFault::NoMemory),
        }
    }
    Ok(literals)
}

/// The literal of an input or latch of the witness circuit: of the literal that it stands for, or its own.
fn beside_literal(table: &Table, stands: Option<Lit>, own: Lit) -> Lit
    requires { IsSharedBelow (length table.now) stands }
    ensures { result ≡ beside_literal table.now stands own }
{
    match stands {
        Some(lit) => literal_of(table, lit),
        None => own,
    }
}

/// The literals of inputs or latches of the witness circuit: those of the literals that they stand for, or their own.
fn beside_literals(
    alloc: Global,
    table: &Table,
    shared: &[Option<Lit>],
    own: &[Lit],
) -> Result<Vec<Lit>, GateFault>
    requires many { length own.now ≡ length shared.now }
    requires inside { All (IsSharedBelow (length table.now)) shared.now }
    ensures ok { IfOk result (λ literals. literals.items
        ≡ beside_literals table.now shared.now own.now) }
    ensures memory { IfErr result (λ e. e ≡ GateFault.NoMemory) }
{
    let mut literals = Vec::new(alloc);
    for (j, stands) in shared.iter().enumerate() {
        match literals.push(beside_literal(table, *stands, own[j])) {
            Ok(()) => {}
            Err(_) => return Err(GateFault::NoMemory),
        }
    }
    Ok(literals)
}

/// Puts literals behind those of a table.
fn push_all(literals: &[Lit], table: &mut Table) -> Result<(), GateFault>
    ensures ok { OnOk result (table.new ≡ table.old ++ literals.now) }
    ensures memory { IfErr result (λ e. e ≡ GateFault.NoMemory) }
{
    for lit in literals {
        match table.push(*lit) {
            Ok(()) => {}
            Err(fault) => return Err(fault),
        }
    }
    Ok(())
}

/// The literals of false, inputs and latches.
fn leaves(alloc: Global, inputs: &[Lit], latches: &[Lit]) -> Result<Table, GateFault>
    ensures ok { IfOk result (λ table. table ≡ 0 ∷ (inputs.now ++ latches.now)) }
    ensures memory { IfErr result (λ e. e ≡ GateFault.NoMemory) }
{
    let mut table = Table::new(alloc, 0);
    push_all(inputs, &mut table)?;
    push_all(latches, &mut table)?;
    Ok(table)
}

/// The literals that stand for false and all variables of a circuit, where these stand for its inputs and latches.
fn copied<G: Gates>(
    alloc: Global,
    g: &mut G,
    circuit: &Circuit,
    inputs: &[Lit],
    latches: &[Lit],
) -> Result<Table, GateFault>
    requires inputs { length inputs.now ≡ circuit.now.inputs }
    requires latches { length latches.now ≡ length circuit.now.latches }
    requires inputs_defined { All (IsDefined (G.made g.old)) inputs.now }
    requires latches_defined { All (IsDefined (G.made g.old)) latches.now }
    ensures ok { IfOk result (λ table. IsCopied circuit.now inputs.now latches.now (G.made g.old)
        (G.made g.new) table) }
    ensures refused { IfErr result (RefusesGate (G.made g.old) (G.made g.new)
        (length circuit.now.gates)) }
{
    let mut table = leaves(alloc, inputs, latches)?;
    push_gates(g, circuit.gates(), &mut table)?;
    Ok(table)
}

/// A frame of the circuit, and one of the witness circuit beside it: the literals that stand for their variables.
#[derive(Drop)]
pub(crate) struct Frames {
    /// Of the circuit.
    pub table: Table,
    /// Of the witness circuit.
    pub own: Table,
}

/// The literals that stand for a frame of the witness circuit beside one of the circuit.
fn beside<G: Gates>(
    alloc: Global,
    g: &mut G,
    witness: &Circuit,
    shared: &Shared,
    table: &Table,
    own_inputs: &[Lit],
    own_latches: &[Lit],
) -> Result<Table, GateFault>
    requires mapping { IsMappingOf witness.now (mapping_in shared.now) }
    requires inputs { length own_inputs.now ≡ witness.now.inputs }
    requires latches { length own_latches.now ≡ length witness.now.latches }
    requires inputs_inside { All (IsSharedBelow (length table.now)) shared.now.inputs.items }
    requires latches_inside { All (IsSharedBelow (length table.now)) shared.now.latches.items }
    requires table { All (IsDefined (G.made g.old)) table.now }
    requires inputs_defined { All (IsDefined (G.made g.old)) own_inputs.now }
    requires latches_defined { All (IsDefined (G.made g.old)) own_latches.now }
    ensures ok { IfOk result
        (λ own. IsCopied witness.now
        (beside_literals table.now shared.now.inputs.items own_inputs.now)
        (beside_literals table.now shared.now.latches.items own_latches.now) (G.made g.old)
        (G.made g.new) own) }
    ensures refused { IfErr result (RefusesGate (G.made g.old) (G.made g.new)
        (length witness.now.gates)) }
{
    let inputs = beside_literals(alloc, table, &shared.inputs, own_inputs)?;
    let latches = beside_literals(alloc, table, &shared.latches, own_latches)?;
    copied(alloc, g, witness, &inputs, &latches)
}

/// A frame of the circuit and one of the witness circuit beside it, where these stand for the inputs and latches of the
/// circuit, and for the own ones of the witness circuit.
pub(crate) fn first_frames<G: Gates>(
    alloc: Global,
    g: &mut G,
    circuit: &Circuit,
    witness: &Circuit,
    shared: &Shared,
    inputs: &[Lit],
    latches: &[Lit],
    own_inputs: &[Lit],
    own_latches: &[Lit],
) -> Result<Frames, GateFault>
    requires mapping { IsMappingOf witness.now (mapping_in shared.now) }
    requires inputs_inside { All (IsSharedIn (net circuit.now)) shared.now.inputs.items }
    requires latches_inside { All (IsSharedIn (net circuit.now)) shared.now.latches.items }
    requires inputs { length inputs.now ≡ circuit.now.inputs }
    requires latches { length latches.now ≡ length circuit.now.latches }
    requires own_inputs { length own_inputs.now ≡ witness.now.inputs }
    requires own_latches { length own_latches.now ≡ length witness.now.latches }
    requires inputs_defined { All (IsDefined (G.made g.old)) inputs.now }
    requires latches_defined { All (IsDefined (G.made g.old)) latches.now }
    requires own_inputs_defined { All (IsDefined (G.made g.old)) own_inputs.now }
    requires own_latches_defined { All (IsDefined (G.made g.old)) own_latches.now }
    ensures ok { IfOk result (λ f. AreBeside circuit.now witness.now
        (mapping_in shared.now) inputs.now latches.now own_inputs.now own_latches.now (G.made g.old)
        (G.made g.new) f.table f.own) }
    ensures refused { IfErr result (RefusesGate (G.made g.old) (G.made g.new)
        (length circuit.now.gates + length witness.now.gates)) }
{
    let table = copied(alloc, g, circuit, inputs, latches)?;
    let own = beside(alloc, g, witness, shared, &table, own_inputs, own_latches)?;
    Ok(Frames { table, own })
}

/// The frame behind one of the circuit, and that of the witness circuit beside it, where these stand for the inputs of both.
pub(crate) fn next_frames<G: Gates>(
    alloc: Global,
    g: &mut G,
    circuit: &Circuit,
    witness: &Circuit,
    shared: &Shared,
    first: &Frames,
    inputs: &[Lit],
    own_inputs: &[Lit],
) -> Result<Frames, GateFault>
    requires mapping { IsMappingOf witness.now (mapping_in shared.now) }
    requires inputs_inside { All (IsSharedIn (net circuit.now)) shared.now.inputs.items }
    requires latches_inside { All (IsSharedIn (net circuit.now)) shared.now.latches.items }
    requires table { StandFor circuit.now (G.made g.old) first.now.table }
    requires own { StandFor witness.now (G.made g.old) first.now.own }
    requires inputs { length inputs.now ≡ circuit.now.inputs }
    requires own_inputs { length own_inputs.now ≡ witness.now.inputs }
    requires inputs_defined { All (IsDefined (G.made g.old)) inputs.now }
    requires own_inputs_defined { All (IsDefined (G.made g.old)) own_inputs.now }
    ensures ok { IfOk result (λ f. AreBeside circuit.now witness.now
        (mapping_in shared.now) inputs.now (next_literals first.now.table circuit.now.latches)
        own_inputs.now (next_literals first.now.own witness.now.latches) (G.made g.old)
        (G.made g.new) f.table f.own) }
    ensures refused { IfErr result (RefusesGate (G.made g.old) (G.made g.new)
        (length circuit.now.gates + length witness.now.gates)) }
{
    let latches = next_literals(alloc, &first.table, circuit.latches())?;
    let own_latches = next_literals(alloc, &first.own, witness.latches())?;
    first_frames(
        alloc,
        g,
        circuit,
        witness,
        shared,
        inputs,
        &latches,
        own_inputs,
        &own_latches,
    )
}
