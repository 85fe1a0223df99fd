//! How large a test is.
ghost use Rattle.std.specs.Prelude.{◌≡◌};
ghost use Rattle.witness_circuits.specs.Tests.{test_inputs};
ghost use Rattle.witness_circuits.specs.Refusal.{test_bound};

use aiger::Circuit;

/// How many inputs a test has.
pub(crate) fn test_inputs(circuit: &Circuit, witness: &Circuit) -> u64
    ensures { result ≡ test_inputs circuit.now witness.now }
{
    2 * u64::from(circuit.inputs())
        + circuit.latches().len() as u64
        + 2 * u64::from(witness.inputs())
        + witness.latches().len() as u64
}

/// The variables at most of a test: its inputs, and the gates at most.
pub(crate) fn test_bound(circuit: &Circuit, witness: &Circuit) -> u64
    ensures { result ≡ test_bound circuit.now witness.now }
{
    let gates = circuit.gates().len() as u64 + witness.gates().len() as u64;
    let constraints = circuit.constraints().len() as u64 + witness.constraints().len() as u64;
    let latches = circuit.latches().len() as u64 + witness.latches().len() as u64;
    // what a circuit keeps
    let _ = (circuit.variables(), witness.variables());
    test_inputs(circuit, witness) + 2 * (gates + constraints) + latches + 9
}
