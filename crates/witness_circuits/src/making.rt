//! The test of a witness circuit.
ghost use Rattle.std.specs.Prelude.{◌≡◌, ◌*◌, ◌<◌, [], None, length, map, All, IfOk, IfErr};
ghost use Rattle.std.specs.List.{range_with_len};
ghost use Rattle.aiger.specs.Net.{IsDefined};
ghost use Rattle.aiger.specs.Circuit.{IsCircuit, net, with_bad};
ghost use Rattle.gates.specs.Made.{RefusesGate};
ghost use Rattle.witness_circuits.specs.Mapping.{IsMappingOf, mapping_of};
ghost use Rattle.witness_circuits.specs.Certificate.{property_candidates};
ghost use Rattle.witness_circuits.specs.Tests.{test_inputs, test_cost, IsTestOf};
ghost use Rattle.witness_circuits.specs.Made.{IsSharedIn, AreAsMany, all_parts, IsMadeFrom};
ghost use Rattle.witness_circuits.specs.Parts.{mapping_in, parts_of_test, bare_test};
ghost use Rattle.witness_circuits.specs.Refusal.{test_refusal, AnswersTest};

use crate::conditions::{condition_fails, property_literals};
use crate::copies::{first_frames, next_frames, variable_literals};
use crate::fault::TestFault;
use crate::mapping::{Shared, are_inside, shared_of};
use crate::sizes::{test_bound, test_inputs};
use aiger::{Circuit, CircuitFault, GREATEST_COUNT, Lit};
use aigerlists::Numbering;
use gates::{GateFault, Gates, HashGates};
use std::alloc::Global;

/// Why a witness circuit has no test for a bad property, want of memory apart: the first refusal that applies. It takes no
/// memory.
fn why_no_test(
    numbering: &Numbering,
    circuit: &Circuit,
    bad: usize,
    witness: &Circuit,
) -> Option<TestFault>
    ensures first { result ≡ test_refusal numbering.now circuit.now bad witness.now }
{
    let properties = property_literals(witness);
    if witness.justice_count() > 0 {
        Some(TestFault::Justice)
    } else if witness.fair().len() > 0 {
        Some(TestFault::Fair)
    } else if properties.is_empty() {
        Some(TestFault::NoProperty)
    } else if properties.len() > 1 {
        Some(TestFault::SeveralProperties)
    } else if !are_inside(numbering, circuit, witness) {
        Some(TestFault::NoSuchLiteral)
    } else if bad >= circuit.bads().len() {
        Some(TestFault::NoSuchBad)
    } else if test_bound(circuit, witness) > u64::from(GREATEST_COUNT) {
        Some(TestFault::TooBig)
    } else {
        None
    }
}

/// The literals of the inputs of a test, as they stand for parts of both circuits.
#[derive(Clone, Copy)]
struct InputParts<'a> {
    /// The inputs of the circuit.
    inputs: &'a [Lit],
    /// Its latches.
    latches: &'a [Lit],
    /// Its inputs in the next frame.
    next_inputs: &'a [Lit],
    /// The own inputs of the witness circuit.
    own_inputs: &'a [Lit],
    /// Its own latches.
    own_latches: &'a [Lit],
    /// Its own inputs in the next frame.
    next_own: &'a [Lit],
}

/// The literals of the inputs of a test, cut into parts.
fn cut<'a>(circuit: &Circuit, witness: &Circuit, all: &'a [Lit]) -> InputParts<'a>
    requires { length all.now ≡ test_inputs circuit.now witness.now }
    ensures parts { all_parts (parts_of_test result) ≡ all.now }
    ensures many { AreAsMany circuit.now witness.now (parts_of_test result) }
{
    let (inputs, rest) = all.split_at(circuit.inputs() as usize);
    let (latches, rest) = rest.split_at(circuit.latches().len());
    let (next_inputs, rest) = rest.split_at(circuit.inputs() as usize);
    let (own_inputs, rest) = rest.split_at(witness.inputs() as usize);
    let (own_latches, next_own) = rest.split_at(witness.latches().len());
    InputParts {
        inputs,
        latches,
        next_inputs,
        own_inputs,
        own_latches,
        next_own,
    }
}

/// Makes the gates of a test: the literal that says that a condition fails.
fn make<G: Gates>(
    alloc: Global,
    g: &mut G,
    circuit: &Circuit,
    bad: usize,
    witness: &Circuit,
    shared: &Shared,
    parts: InputParts<'_>,
) -> Result<Lit, GateFault>
    requires bad { bad < length circuit.now.bads }
    requires property { 0 < length (property_candidates witness.now) }
    requires mapping { IsMappingOf witness.now (mapping_in shared.now) }
    requires inputs_inside { All (IsSharedIn (net circuit.now)) shared.now.inputs.items }
    requires latches_inside { All (IsSharedIn (net circuit.now)) shared.now.latches.items }
    requires many { AreAsMany circuit.now witness.now (parts_of_test parts) }
    requires defined { All (IsDefined (G.made g.old)) (all_parts (parts_of_test parts)) }
    ensures ok { IfOk result (λ l. IsMadeFrom circuit.now bad witness.now (mapping_in shared.now)
        (parts_of_test parts.entry) (G.made g.old) (G.made g.new) l) }
    ensures refused { IfErr result (RefusesGate (G.made g.old) (G.made g.new)
        (test_cost circuit.now witness.now)) }
{
    let first = first_frames(
        alloc,
        g,
        circuit,
        witness,
        shared,
        parts.inputs,
        parts.latches,
        parts.own_inputs,
        parts.own_latches,
    )?;
    let next = next_frames(
        alloc,
        g,
        circuit,
        witness,
        shared,
        &first,
        parts.next_inputs,
        parts.next_own,
    )?;
    condition_fails(
        g,
        circuit,
        bad,
        witness,
        shared,
        parts.latches,
        parts.own_latches,
        &first,
        &next,
    )
}

/// A circuit with a bad property, which is of a variable that is there. The error is want of memory.
fn with_bad(mut made: Circuit, lit: Lit) -> Result<Circuit, TestFault>
    requires defined { IsDefined (net made) lit }
    requires none { made.bads ≡ [] }
    ensures ok { IfOk result (λ t. (t ≡ with_bad made lit) × IsCircuit t) }
    ensures memory { IfErr result (λ e. e ≡ TestFault.NoMemory) }
{
    match made.push_bad(lit) {
        Ok(()) => {
            // what a circuit keeps
            let _ = made.variables();
            Ok(made)
        }
        Err(CircuitFault::NoMemory) => Err(TestFault::NoMemory),
        Err(_) => unreachable!(),
    }
}

/// The test of a witness circuit that nothing speaks against, over a maker that has made no gate yet.
fn test_over(
    alloc: Global,
    numbering: &Numbering,
    circuit: &Circuit,
    bad: usize,
    witness: &Circuit,
    shared: &Shared,
    inputs: &[Lit],
    mut gates: HashGates,
) -> Result<Circuit, TestFault>
    requires accepted { test_refusal numbering.now circuit.now bad witness.now ≡ None }
    requires valid { IsCircuit circuit.now }
    requires witness { IsCircuit witness.now }
    requires shared { mapping_in shared.now ≡ mapping_of numbering.now circuit.now witness.now }
    requires inputs { inputs.now
        ≡ map (λ k. 2 * k) (range_with_len 1 (test_inputs circuit.now witness.now)) }
    requires bare { gates ≡ bare_test circuit.now witness.now }
    ensures ok { IfOk result (λ t. IsTestOf circuit.now bad witness.now
        (mapping_of numbering.now circuit.now witness.now) t) }
    ensures memory { IfErr result (λ e. e ≡ TestFault.NoMemory) }
{
    let parts = cut(circuit, witness, inputs);
    match make(alloc, &mut gates, circuit, bad, witness, shared, parts) {
        Ok(lit) => with_bad(gates.finish(), lit),
        Err(GateFault::NoMemory) => Err(TestFault::NoMemory),
        Err(GateFault::TooBig) => unreachable!(),
    }
}

/// The test of a witness circuit that nothing speaks against, where this is shared.
fn test_with(
    alloc: Global,
    numbering: &Numbering,
    circuit: &Circuit,
    bad: usize,
    witness: &Circuit,
    shared: &Shared,
) -> Result<Circuit, TestFault>
    requires accepted { test_refusal numbering.now circuit.now bad witness.now ≡ None }
    requires valid { IsCircuit circuit.now }
    requires witness { IsCircuit witness.now }
    requires shared { mapping_in shared.now ≡ mapping_of numbering.now circuit.now witness.now }
    ensures ok { IfOk result (λ t. IsTestOf circuit.now bad witness.now
        (mapping_of numbering.now circuit.now witness.now) t) }
    ensures memory { IfErr result (λ e. e ≡ TestFault.NoMemory) }
{
    let count = test_inputs(circuit, witness) as u32;
    let inputs = match variable_literals(alloc, count) {
        Ok(inputs) => inputs,
        Err(_) => return Err(TestFault::NoMemory),
    };
    match HashGates::new(alloc, count, 0) {
        Ok(gates) => test_over(
            alloc, numbering, circuit, bad, witness, shared, &inputs, gates,
        ),
        Err(GateFault::NoMemory) => Err(TestFault::NoMemory),
        Err(GateFault::TooBig) => unreachable!(),
    }
}

/// The test of a witness circuit that nothing speaks against.
fn accepted_test(
    alloc: Global,
    numbering: &Numbering,
    circuit: &Circuit,
    bad: usize,
    witness: &Circuit,
) -> Result<Circuit, TestFault>
    requires { test_refusal numbering.now circuit.now bad witness.now ≡ None }
    ensures ok { IfOk result (λ t. IsTestOf circuit.now bad witness.now
        (mapping_of numbering.now circuit.now witness.now) t) }
    ensures memory { IfErr result (λ e. e ≡ TestFault.NoMemory) }
{
    // what circuits keep
    let _ = (circuit.variables(), witness.variables());
    let shared = shared_of(alloc, numbering, circuit, witness)?;
    test_with(alloc, numbering, circuit, bad, witness, &shared)
}

/// The test of a witness circuit for the bad property of a circuit with a number, counted from 0: a circuit without latches,
/// whose one bad property is 1 for some inputs exactly where the witness circuit does not guard the property. So the property
/// never rises where a proof shows that the test's does not (`laws::proved_property_never_rises`).
///
/// The property of a witness circuit is its one bad property, or where it has none its one output. An input or a latch of it
/// that is named `= N` stands for the literal N of the circuit, by the numbering of its file; where none is, the first inputs and latches stand for those
/// of the circuit, in order. All others are its own. The test's inputs are those of the circuit, its latches, its inputs in
/// the next frame, then inputs, latches and inputs in the next frame of the witness circuit, of which nothing reads those
/// that stand for something. A gate is made once where both circuits have it. The gates are at most those of both circuits
/// twice, one for each latch, two for each constraint, and 9.
///
/// Errors, of which the first that applies in this order is answered:
///
/// - `Justice`, `Fair`: the witness circuit has such a property.
/// - `NoProperty`: it has neither a bad property nor an output.
/// - `SeveralProperties`: it has several bad properties, or none and several outputs.
/// - `NoSuchLiteral`: a name says a literal that the circuit does not have.
/// - `NoSuchBad`: the circuit has no such bad property.
/// - `TooBig`: the inputs and the bound on the gates sum to more than 2^30.
/// - `NoMemory`: a growth was refused.
pub fn test_circuit(
    alloc: Global,
    circuit: &Circuit,
    numbering: &Numbering,
    bad: usize,
    witness: &Circuit,
) -> Result<Circuit, TestFault>
    ensures ok { IfOk result (λ t. IsTestOf circuit.now bad witness.now
        (mapping_of numbering.now circuit.now witness.now) t) }
    ensures answer { AnswersTest result (test_refusal numbering.now circuit.now bad witness.now) }
{
    match why_no_test(numbering, circuit, bad, witness) {
        Some(fault) => Err(fault),
        None => accepted_test(alloc, numbering, circuit, bad, witness),
    }
}
