//! The engine form of a circuit.
ghost use Rattle.std.specs.Prelude.{◌≡◌, None, IfOk, IfErr};
ghost use Rattle.aiger.specs.Circuit.{IsCircuit, net};
ghost use Rattle.gates.specs.Made.{gates_only};
ghost use Rattle.engine_form.specs.EngineForm.{IsEngineFormOf};
ghost use Rattle.engine_form.specs.Reads.{bare_net, sizes_of, FormMade};
ghost use Rattle.engine_form.specs.Refusal.{engine_refusal, AnswersForm};

use crate::choice::has_chosen;
use crate::copies::push_bads;
use crate::fault::EngineFault;
use crate::latches::set_latches;
use crate::literals::{Literals, make};
use crate::sizes::{Sizes, bound, sizes_of};
use aiger::{Circuit, GREATEST_COUNT};
use gates::{GateFault, HashGates};
use std::alloc::Global;

/// Why a circuit has no engine form, with all its bad properties or with the one at a position, want of memory apart: the first
/// refusal that applies. It takes no memory.
pub fn why_no_form(circuit: &Circuit, choice: Option<usize>) -> Option<EngineFault>
    ensures first { result ≡ engine_refusal circuit.now choice }
    ensures valid { IsCircuit circuit.now }
{
    // what a circuit keeps
    let _ = circuit.variables();
    if circuit.justice_count() > 0 {
        Some(EngineFault::Justice)
    } else if circuit.fair().len() > 0 {
        Some(EngineFault::Fair)
    } else if circuit.bads().is_empty() {
        Some(EngineFault::NoBad)
    } else if !has_chosen(circuit, choice) {
        Some(EngineFault::NoSuchBad)
    } else if bound(circuit) > u64::from(GREATEST_COUNT) {
        Some(EngineFault::TooBig)
    } else {
        None
    }
}

/// The engine form of a circuit, from the bare circuit of its gates: the latches and the bad properties are put in.
fn completed(
    circuit: &Circuit,
    choice: Option<usize>,
    sizes: Sizes,
    literals: &Literals,
    mut form: Circuit,
) -> Result<Circuit, EngineFault>
    requires accepted { engine_refusal circuit.now choice ≡ None }
    requires valid { IsCircuit circuit.now }
    requires sizes { sizes ≡ sizes_of circuit.now }
    requires bare { form ≡ gates_only (net form) }
    requires made { FormMade circuit.now choice (net form) literals.now.table literals.now.met
        literals.now.bads.items }
    ensures ok { IfOk result (λ d. IsEngineFormOf circuit.now choice d) }
    ensures memory { IfErr result (λ e. e ≡ EngineFault.NoMemory) }
{
    set_latches(circuit, sizes, &literals.table, literals.met, &mut form);
    push_bads(&literals.bads, &mut form)?;
    // what a circuit keeps
    let _ = form.variables();
    Ok(form)
}

/// The engine form of a circuit that nothing speaks against, over a maker that has made no gate yet.
fn form_over(
    alloc: Global,
    circuit: &Circuit,
    choice: Option<usize>,
    sizes: Sizes,
    mut gates: HashGates,
) -> Result<Circuit, EngineFault>
    requires accepted { engine_refusal circuit.now choice ≡ None }
    requires valid { IsCircuit circuit.now }
    requires sizes { sizes ≡ sizes_of circuit.now }
    requires bare { gates ≡ bare_net circuit.now }
    ensures ok { IfOk result (λ d. IsEngineFormOf circuit.now choice d) }
    ensures memory { IfErr result (λ e. e ≡ EngineFault.NoMemory) }
{
    match make(alloc, &mut gates, circuit, choice, sizes) {
        Ok(literals) => completed(circuit, choice, sizes, &literals, gates.finish()),
        Err(GateFault::NoMemory) => Err(EngineFault::NoMemory),
        Err(GateFault::TooBig) => unreachable!(),
    }
}

/// The engine form of a circuit that nothing speaks against.
fn accepted_form(
    alloc: Global,
    circuit: &Circuit,
    choice: Option<usize>,
) -> Result<Circuit, EngineFault>
    requires accepted { engine_refusal circuit.now choice ≡ None }
    requires valid { IsCircuit circuit.now }
    ensures ok { IfOk result (λ d. IsEngineFormOf circuit.now choice d) }
    ensures memory { IfErr result (λ e. e ≡ EngineFault.NoMemory) }
{
    let sizes = sizes_of(circuit);
    match HashGates::new(alloc, sizes.inputs, sizes.latches) {
        Ok(gates) => form_over(alloc, circuit, choice, sizes, gates),
        Err(GateFault::NoMemory) => Err(EngineFault::NoMemory),
        Err(GateFault::TooBig) => unreachable!(),
    }
}

/// The engine form of a circuit, with all its bad properties, or with the one at a position, from 0.
///
/// Its inputs are those of the circuit, then one for each latch without an initial value, in order: its bit in the first
/// frame. Its latches, which begin with 0, are those of the circuit, of which one that begins with 1 is kept as its
/// negation; then, where a latch has no initial value, one that is 0 in the first frame alone; then, where there is a
/// constraint, one that is 1 where a constraint was 0 in an earlier frame. There is at least one of each. A bad property
/// is 1 in a frame exactly where that of the circuit is and all constraints were 1 so far, in this frame too. The gates
/// are at most those of the circuit, 3 for each latch without an initial value, and 1 for each constraint and bad property.
///
/// Errors, of which the first that applies in this order is answered: `Justice` and `Fair` where the circuit has such a
/// property, `NoBad` where it has no bad property, whether one is chosen or not, `NoSuchBad` where there is none at the
/// position, `TooBig` where inputs, latches and the bound on the gates sum to more than 2^30, and `NoMemory`.
pub fn engine_form(
    alloc: Global,
    circuit: &Circuit,
    choice: Option<usize>,
) -> Result<Circuit, EngineFault>
    ensures ok { IfOk result (λ d. IsEngineFormOf circuit.now choice d) }
    ensures answer { AnswersForm result (engine_refusal circuit.now choice) }
{
    match why_no_form(circuit, choice) {
        Some(fault) => Err(fault),
        None => accepted_form(alloc, circuit, choice),
    }
}
