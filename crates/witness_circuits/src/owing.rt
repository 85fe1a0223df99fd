//! The formula that the text of a witness circuit owes.
ghost use Rattle.std.specs.Prelude.{◌≡◌, [], IfErr, IfOk, OnOk};
ghost use Rattle.std.specs.Io.KnownBytes.{IsAtEnd};
ghost use Rattle.certificates.specs.Obligation.{obligation};
ghost use Rattle.witness_circuits.specs.Owing.{CountsWitness, HasNoTest, HasNoTestOverForm, IsTestedBy, IsTestedFormula, IsTestedOverForm, WithoutFormOfWitness};

use crate::fault::TestFault;
use crate::making::test_circuit;
use crate::witness_fault::WitnessFault;
use aiger::Circuit;
use aigerlists::Numbering;
use aigertext::read;
use base::Source;
use certificates::{Invariant, ObligationFault, obligation};
use drup::Formula;
use engine_form::engine_form;
use std::alloc::Global;

/// The test of the witness circuit that a text spells.
fn test_of_text<S: Source>(
    alloc: Global,
    circuit: &Circuit,
    numbering: &Numbering,
    bad: usize,
    witness: &mut S,
) -> Result<Circuit, WitnessFault>
    ensures ok { IfOk result (IsTestedBy numbering.now circuit.now bad (S.to_come witness.old)) }
    ensures end { OnOk result (IsAtEnd (S.to_come witness.new)) }
    ensures fault { IfErr result (HasNoTest numbering.now circuit.now bad (S.to_come witness.old)) }
    ensures counted { CountsWitness result (S.failures witness.old) (S.failures witness.new) }
{
    let witness = read(alloc, witness)?;
    Ok(test_circuit(alloc, circuit, numbering, bad, &witness)?)
}

/// The formula of a test: its obligation, of no cubes. The error is want of memory.
fn formula_of(alloc: Global, test: &Circuit) -> Result<Formula, TestFault>
    requires { test.now.latches ≡ [] }
    ensures ok { IfOk result (λ f. f ≡ obligation test.now []) }
    ensures memory { IfErr result (λ e. e ≡ TestFault.NoMemory) }
{
    // what a circuit keeps
    let _ = test.variables();
    match obligation(alloc, test, &Invariant::new(alloc, 0)) {
        Ok(formula) => Ok(formula),
        Err(ObligationFault::NoMemory) => Err(TestFault::NoMemory),
        Err(ObligationFault::TooBig) => unreachable!(),
    }
}

/// The formula that the text of a witness circuit owes for the bad property of a circuit at a position, from 0: that of its
/// test. Where nothing satisfies it, the property rises in no frame up to which the circuit's constraints hold. The text is
/// read to its end, in either form of a circuit; its names speak of the literals of the circuit's file, by its numbering.
///
/// Errors, of which the first that applies in this order is answered: `Text` where the text spells no circuit, or its source
/// failed; `Test` where the witness circuit has no test. Each of them tells want of memory too.
pub fn owed_formula<S: Source>(
    alloc: Global,
    circuit: &Circuit,
    numbering: &Numbering,
    bad: usize,
    witness: &mut S,
) -> Result<Formula, WitnessFault>
    ensures ok { IfOk result (IsTestedFormula numbering.now circuit.now bad
        (S.to_come witness.old)) }
    ensures end { OnOk result (IsAtEnd (S.to_come witness.new)) }
    ensures fault { IfErr result (HasNoTest numbering.now circuit.now bad (S.to_come witness.old)) }
    // the source failed once where that is told, and else not at all
    ensures counted { CountsWitness result (S.failures witness.old) (S.failures witness.new) }
{
    let test = test_of_text(alloc, circuit, numbering, bad, witness)?;
    Ok(formula_of(alloc, &test)?)
}

/// The formula that the text of a witness circuit of the engine form of a circuit owes for the bad property at a position,
/// from 0: that of its test over the engine form with this property alone. Where nothing satisfies it, the property rises in
/// no frame up to which the circuit's constraints hold.
///
/// Errors, of which the first that applies in this order is answered: `Form` where the circuit has no such engine form, and
/// then nothing is read; else as of `owed_formula`.
pub fn owed_formula_over_form<S: Source>(
    alloc: Global,
    circuit: &Circuit,
    bad: usize,
    witness: &mut S,
) -> Result<Formula, WitnessFault>
    ensures ok { IfOk result (IsTestedOverForm circuit.now bad (S.to_come witness.old)) }
    ensures end { OnOk result (IsAtEnd (S.to_come witness.new)) }
    ensures fault { IfErr result (HasNoTestOverForm circuit.now bad (S.to_come witness.old)) }
    ensures unread { WithoutFormOfWitness result (witness.new ≡ witness.old) }
    // the source failed once where that is told, and else not at all
    ensures counted { CountsWitness result (S.failures witness.old) (S.failures witness.new) }
{
    let form = engine_form(alloc, circuit, Some(bad))?;
    owed_formula(alloc, &form, &Numbering::own(), 0, witness)
}
