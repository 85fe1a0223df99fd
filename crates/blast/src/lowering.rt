//! Lowering a model to a circuit.
ghost use Rattle.std.specs.Prelude.{◌≡◌, ℕ, ◌≤◌, None, Some, IfOk, IfErr};
ghost use Rattle.btor2.specs.Check.{IsWellFormed};
ghost use Rattle.aiger.specs.Circuit.{net};
ghost use Rattle.gates.specs.Made.{gates_only};
ghost use Rattle.blast.specs.Lowering.{Lowers};
ghost use Rattle.blast.specs.Reads.{leaves_only, LowersNodes};
ghost use Rattle.blast.specs.Refusal.{AnswersLowering, lowering_refusal};

use crate::fault::LowerFault;
use crate::latches::set_latches;
use crate::names::set_names;
use crate::nodes::lower_nodes;
use crate::properties::push_properties;
use crate::refusals::form_refusal;
use crate::watching::{Unwatched, Watch};
use crate::widths::{bound, carried_width, given_width};
use aiger::{Circuit, GREATEST_COUNT, Lit};
use base::Rows;
use btor2::Model;
use gates::{GateFault, HashGates};
use std::alloc::Global;

/// Why a model is not lowered, want of memory apart.
fn refusal(model: &Model) -> Option<LowerFault>
    ensures first { result ≡ lowering_refusal model.now }
    ensures well_formed { IsWellFormed model.now }
{
    // a model's items are well-formed
    let _ = model.items();
    match form_refusal(model) {
        None if bound(model) > u64::from(GREATEST_COUNT) => Some(LowerFault::TooBig),
        refused => refused,
    }
}

/// The circuit of a model, from the bare one of its gates: the latches, their names and those of the inputs, and the
/// properties with theirs are put in. The table has the literals of each node.
fn completed(model: &Model, table: &Rows<Lit>, mut circuit: Circuit) -> Result<Circuit, LowerFault>
    requires accepted { lowering_refusal model.now ≡ None }
    requires well_formed { IsWellFormed model.now }
    requires bare { circuit ≡ gates_only (net circuit) }
    requires nodes { LowersNodes model.now (leaves_only model.now) (net circuit) table.now }
    ensures ok { IfOk result (λ lowered. Lowers model.now lowered) }
    ensures memory { IfErr result (λ e. e ≡ LowerFault.NoMemory) }
{
    set_latches(model, table, &mut circuit);
    set_names(model, &mut circuit)?;
    push_properties(model, table, &mut circuit)?;
    // what a circuit keeps
    let _ = circuit.gates();
    Ok(circuit)
}

/// The circuit of a model that nothing speaks against, over a maker that has made no gate yet.
fn lower_over<W: Watch>(
    alloc: Global,
    model: &Model,
    mut gates: HashGates,
    watch: &mut W,
) -> Result<Circuit, LowerFault>
    requires accepted { lowering_refusal model.now ≡ None }
    requires well_formed { IsWellFormed model.now }
    requires leaves { gates ≡ leaves_only model.now }
    ensures ok { IfOk result (λ circuit. Lowers model.now circuit) }
    ensures memory { IfErr result (λ e. e ≡ LowerFault.NoMemory) }
{
    match lower_nodes(alloc, model, &mut gates, watch) {
        Ok(table) => completed(model, &table, gates.finish()),
        Err(GateFault::NoMemory) => Err(LowerFault::NoMemory),
        Err(GateFault::TooBig) => unreachable!(),
    }
}

/// The circuit of a model that nothing speaks against.
fn lower_accepted<W: Watch>(
    alloc: Global,
    model: &Model,
    watch: &mut W,
) -> Result<Circuit, LowerFault>
    requires accepted { lowering_refusal model.now ≡ None }
    requires well_formed { IsWellFormed model.now }
    ensures ok { IfOk result (λ circuit. Lowers model.now circuit) }
    ensures memory { IfErr result (λ e. e ≡ LowerFault.NoMemory) }
{
    let inputs = given_width(model) as u32;
    let latches = carried_width(model) as u32;
    match HashGates::new(alloc, inputs, latches) {
        Ok(gates) => lower_over(alloc, model, gates, watch),
        Err(GateFault::NoMemory) => Err(LowerFault::NoMemory),
        Err(GateFault::TooBig) => unreachable!(),
    }
}

/// The circuit that lowers a model: the bits of its inputs and then those of its free states are the inputs, those of its
/// other states the latches, and those of the nodes that output lines name are the outputs.
///
/// Errors: `Justice`, `Fair` or `NoNext` with the first item in file order that is a justice line, a fairness line or a
/// state that has an init line and no next line; else `TooBig` where the bound on the variables is above 2^30; else
/// `NoMemory`. Nothing is given then.
pub fn lower(alloc: Global, model: &Model) -> Result<Circuit, LowerFault>
    ensures ok { IfOk result (λ circuit. Lowers model.now circuit) }
    ensures answer { AnswersLowering result (lowering_refusal model.now) }
{
    lower_watched(alloc, model, &mut Unwatched)
}

/// The same, where it is told behind each line of the model how many gates there are.
pub fn lower_watched<W: Watch>(
    alloc: Global,
    model: &Model,
    watch: &mut W,
) -> Result<Circuit, LowerFault>
    ensures ok { IfOk result (λ circuit. Lowers model.now circuit) }
    ensures answer { AnswersLowering result (lowering_refusal model.now) }
{
    match refusal(model) {
        Some(fault) => Err(fault),
        None => lower_accepted(alloc, model, watch),
    }
}
