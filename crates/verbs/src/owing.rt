//! Which bad property a certificate is about, the formula that it owes for it, and the judgement of a proof over that.

ghost use Rattle.std.specs.Prelude.{◌<◌, ℕ, List, length, None, Option, Some, IfOk, IfErr};
ghost use Rattle.aiger.specs.Circuit.{Circuit};
ghost use Rattle.aiger.specs.Reachability.{CanRiseInCircuit};
ghost use Rattle.witness_circuits.specs.Owing.{IsTestedFormula, IsTestedOverForm};
ghost use Rattle.drup.specs.declared.judgement.Judgement.TheVariants as verdict;
ghost use Rattle.certificates.specs.Certificates.{IsJudgedProof, IsOwed};
ghost use Rattle.certificates.specs.declared.proof_form.ProofForm.{ProofForm};
ghost use Rattle.invocation.specs.declared.tasks.Certificate.{Certificate};
ghost use Rattle.verbs.specs.Certificates.{IsCertifiedBy, IsOwedBy};
ghost use Rattle.verbs.specs.Claims.{IsClaim};
ghost use Rattle.verbs.specs.Refusals.{IsFaultyBy, IsFaultyFor, IsFaultyOverForm, IsFaultyWitness, IsUnclaimedBy, IsUnguarded, IsWithoutForm, IsWithoutFormBy};
ghost use Rattle.verbs.specs.Statuses.{EndsAll, IfInput, IfSecond, IsOfNoInput};
ghost use Rattle.verbs.specs.Statuses.Use.{Unused, Used};

use crate::claims::claim_of;
use crate::refusals::{Claimed, Fault, Refusal};
use aiger::Circuit;
use aigerlists::Numbering;
use base::Source;
use certificates::{ProofForm, judge_proof};
use drup::{Formula, Judgement};
use engine_form::EngineFault;
use invocation::Certificate;
use std::alloc::Global;
use witness_circuits::TestFault;

/// The bad property of a circuit that a witness circuit is to guard: the chosen one, or the only one.
fn guarded_claim(circuit: &Circuit, choice: Option<usize>) -> Result<usize, Fault>
    ensures claim { IfOk result (IsClaim choice circuit.now) }
    ensures there { IfOk result (λ claim. claim < length circuit.now.bads) }
    ensures unguarded { IfErr result (IsUnguarded choice circuit.now) }
{
    let count = circuit.bads().len();
    match choice {
        Some(position) if position < count => Ok(position),
        None if count == 1 => Ok(0),
        None if count > 1 => Err(Fault::Unchosen(Claimed::Guarded)),
        _ if count == 0 => Err(Fault::Engine(EngineFault::NoBad)),
        _ => Err(Fault::Test(TestFault::NoSuchBad)),
    }
}

/// The bad property of a circuit that a certificate is about: the chosen one, or the only one.
pub fn certified_claim(
    circuit: &Circuit,
    by: Certificate,
    choice: Option<usize>,
) -> Result<usize, Fault>
    ensures claim { IfOk result (IsClaim choice circuit.now) }
    ensures unclaimed { IfErr result (IsUnclaimedBy by choice circuit.now) }
{
    match by {
        Certificate::Invariant => claim_of(circuit, choice, Claimed::Certified),
        Certificate::Circuit => guarded_claim(circuit, choice),
        Certificate::CircuitOfForm => claim_of(circuit, choice, Claimed::Guarded),
    }
}

/// The formula that the second file, an invariant, owes for a bad property of a circuit.
fn owed_by_invariant<B: Source>(
    alloc: Global,
    circuit: &Circuit,
    claim: usize,
    second: &mut B,
) -> Result<Formula, Refusal>
    ensures owed { IfOk result (IsOwed circuit.now claim (B.to_come second.old)) }
    ensures refused { IfErr result (IfInput (IsWithoutForm circuit.now (Some claim))) }
    ensures second { IfErr result
        (IfSecond (IsFaultyFor circuit.now claim (B.to_come second.old))) }
    ensures ends { EndsAll result Unused (Used B.failures second.old second.new) Unused Unused
        Unused }
{
    match certificates::owed_formula(alloc, circuit, claim, second) {
        Ok(formula) => Ok(formula),
        Err(fault) => Err(Refusal::from(fault)),
    }
}

/// The formula that the second file, a witness circuit, owes for a bad property of a circuit.
fn owed_by_circuit<B: Source>(
    alloc: Global,
    circuit: &Circuit,
    numbering: &Numbering,
    claim: usize,
    second: &mut B,
) -> Result<Formula, Refusal>
    ensures owed { IfOk result (IsTestedFormula numbering.now circuit.now claim
        (B.to_come second.old)) }
    ensures no_input { IsOfNoInput result }
    ensures second { IfErr result
        (IfSecond (IsFaultyWitness numbering.now circuit.now claim (B.to_come second.old))) }
    ensures ends { EndsAll result Unused (Used B.failures second.old second.new) Unused Unused
        Unused }
{
    match witness_circuits::owed_formula(alloc, circuit, numbering, claim, second) {
        Ok(formula) => Ok(formula),
        Err(fault) => Err(Refusal::from(fault)),
    }
}

/// The formula that the second file, a witness circuit of the engine form of a circuit with a bad property, owes.
fn owed_by_circuit_of_form<B: Source>(
    alloc: Global,
    circuit: &Circuit,
    claim: usize,
    second: &mut B,
) -> Result<Formula, Refusal>
    ensures owed { IfOk result (IsTestedOverForm circuit.now claim (B.to_come second.old)) }
    ensures refused { IfErr result (IfInput (IsWithoutForm circuit.now (Some claim))) }
    ensures second { IfErr result
        (IfSecond (IsFaultyOverForm circuit.now claim (B.to_come second.old))) }
    ensures ends { EndsAll result Unused (Used B.failures second.old second.new) Unused Unused
        Unused }
{
    match witness_circuits::owed_formula_over_form(alloc, circuit, claim, second) {
        Ok(formula) => Ok(formula),
        Err(fault) => Err(Refusal::from(fault)),
    }
}

/// The formula that the second file, a certificate of a kind, owes for a bad property of a circuit, whose file has this
/// numbering.
pub fn owed<B: Source>(
    alloc: Global,
    by: Certificate,
    circuit: &Circuit,
    numbering: &Numbering,
    claim: usize,
    second: &mut B,
) -> Result<Formula, Refusal>
    ensures owed { IfOk result (IsOwedBy by numbering.now circuit.now claim
        (B.to_come second.old)) }
    ensures refused { IfErr result (IfInput (IsWithoutFormBy by circuit.now claim)) }
    ensures second { IfErr result
        (IfSecond (IsFaultyBy by numbering.now circuit.now claim (B.to_come second.old))) }
    ensures ends { EndsAll result Unused (Used B.failures second.old second.new) Unused Unused
        Unused }
{
    match by {
        Certificate::Invariant => owed_by_invariant(alloc, circuit, claim, second),
        Certificate::Circuit => owed_by_circuit(alloc, circuit, numbering, claim, second),
        Certificate::CircuitOfForm => owed_by_circuit_of_form(alloc, circuit, claim, second),
    }
}

/// The judgement of the third file, a proof in this form of a formula.
fn proved<T: Source>(
    alloc: Global,
    form: ProofForm,
    formula: Formula,
    third: &mut T,
) -> Result<Judgement, Refusal>
    ensures judged { IfOk result (IsJudgedProof form formula (T.to_come third.old)) }
    ensures no_input { IsOfNoInput result }
    ensures ends { EndsAll result Unused Unused (Used T.failures third.old third.new) Unused
        Unused }
    ensures no_second { IfErr result (IfSecond (λ _. ⊥)) }
{
    match judge_proof(alloc, form, formula, third) {
        Ok(judgement) => Ok(judgement),
        Err(fault) => Err(Refusal::from(fault)),
    }
}

/// The judgement of the second and the third file, a certificate of a kind of a bad property of a circuit, and a proof
/// in this form.
pub fn judged<B: Source, T: Source>(
    alloc: Global,
    by: Certificate,
    form: ProofForm,
    circuit: &Circuit,
    numbering: &Numbering,
    claim: usize,
    second: &mut B,
    third: &mut T,
) -> Result<Judgement, Refusal>
    ensures certified { IfOk result (IsCertifiedBy by form numbering.now circuit.now claim
        (B.to_come second.old) (T.to_come third.old)) }
    ensures refused { IfErr result (IfInput (IsWithoutFormBy by circuit.now claim)) }
    ensures second { IfErr result
        (IfSecond (IsFaultyBy by numbering.now circuit.now claim (B.to_come second.old))) }
    ensures ends { EndsAll result Unused (Used B.failures second.old second.new)
        (Used T.failures third.old third.new) Unused Unused }
{
    let formula = owed(alloc, by, circuit, numbering, claim, second)?;
    proved(alloc, form, formula, third)
}

/// A law: a bad property of which a certificate is judged to hold rises in no frame up to which the circuit's constraints
/// hold, in no trace from initial bits that agree with its resets.
pub fn certified_never_rises()
    ensures { (by : Certificate) (form : ProofForm) (n : Option (List ℕ)) (c : Circuit) (k : ℕ)
        (second : Option (List ℕ)) (third : Option (List ℕ)) (line : ℕ)
        → IsCertifiedBy by form n c k second third (verdict.Derived line) → ¬ CanRiseInCircuit c k }
{
    certificates::laws::certified_property_never_rises();
    witness_circuits::laws::owed_formula_proved_never_rises();
    witness_circuits::laws::owed_formula_over_form_proved_never_rises();
}
