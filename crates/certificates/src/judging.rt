//! Judging certificates of bad properties of circuits.
ghost use Rattle.std.specs.Prelude.{◌≡◌, ℕ, [], IfErr, IfOk, OnOk};
ghost use Rattle.std.specs.Io.KnownBytes.{IsAtEnd};
ghost use Rattle.aiger.specs.Reachability.{CanRiseInCircuit};
ghost use Rattle.drup.specs.declared.judgement.Judgement.TheVariants as judgement;
ghost use Rattle.drup.specs.ProofJudges.{StandsForText};
ghost use Rattle.lrat.specs.LratJudges.{StandsForLrat};
ghost use Rattle.certificates.specs.declared.proof_form.ProofForm.TheVariants as proof_form;
ghost use Rattle.certificates.specs.Certificates.{CountsCertificate, IsCertified, IsJudgedProof, IsNotCertified, IsOfProof, WithoutFormOf, WithoutFormula};

use crate::certificate_fault::CertificateFault;
use crate::claims::owed_formula;
use crate::laws::certified_property_never_rises;
use crate::proof_form::ProofForm;
use aiger::Circuit;
use base::{Source, take_source};
use drup::{ClauseFault, Formula, Judgement, ProofJudge};
use lrat::LratJudge;
use std::alloc::Global;

/// A judge of proofs without hints over a formula, which it has taken over: the formula itself is not held beside it.
fn plain_judge(alloc: Global, formula: Formula) -> Result<ProofJudge, ClauseFault>
    ensures { IfOk result (λ judge. StandsForText formula judge []) }
{
    ProofJudge::taking_over(alloc, formula)
}

/// A judge of proofs with hints over a formula, which it has taken over.
fn hinted_judge(alloc: Global, formula: Formula) -> Result<LratJudge, ClauseFault>
    ensures { IfOk result (λ judge. StandsForLrat formula judge []) }
{
    LratJudge::taking_over(alloc, formula)
}

/// Judges the text of a source as a proof without hints.
fn judge_plain<P: Source>(
    alloc: Global,
    formula: Formula,
    proof: &mut P,
) -> Result<Judgement, CertificateFault>
    ensures judged { IfOk result (IsJudgedProof proof_form.Plain formula (P.to_come proof.old)) }
    ensures end { OnOk result (IsAtEnd (P.to_come proof.new)) }
    ensures fault { IfErr result IsOfProof }
    ensures counted { (old : ℕ) → CountsCertificate result old old (P.failures proof.old)
        (P.failures proof.new) }
{
    let mut judge = plain_judge(alloc, formula)?;
    match take_source(&mut judge, &mut (), proof) {
        Ok(()) => Ok(judge.finish()?),
        Err(_) => Err(CertificateFault::Device),
    }
}

/// Judges the text of a source as a proof with hints.
fn judge_hinted<P: Source>(
    alloc: Global,
    formula: Formula,
    proof: &mut P,
) -> Result<Judgement, CertificateFault>
    ensures judged { IfOk result (IsJudgedProof proof_form.Hinted formula (P.to_come proof.old)) }
    ensures end { OnOk result (IsAtEnd (P.to_come proof.new)) }
    ensures fault { IfErr result IsOfProof }
    ensures counted { (old : ℕ) → CountsCertificate result old old (P.failures proof.old)
        (P.failures proof.new) }
{
    let mut judge = hinted_judge(alloc, formula)?;
    match take_source(&mut judge, &mut (), proof) {
        Ok(()) => Ok(judge.finish()?),
        Err(_) => Err(CertificateFault::Device),
    }
}

/// Reads a source to its end and judges its text as a proof in a form over a formula. Of the text only what one call gives is
/// held at a time, and beside it what the judge holds.
///
/// Errors: `Judge` where the judge of proofs was refused a growth, and `Device` where the source failed.
pub fn judge_proof<P: Source>(
    alloc: Global,
    form: ProofForm,
    formula: Formula,
    proof: &mut P,
) -> Result<Judgement, CertificateFault>
    ensures judged { IfOk result (IsJudgedProof form formula (P.to_come proof.old)) }
    ensures end { OnOk result (IsAtEnd (P.to_come proof.new)) }
    ensures fault { IfErr result IsOfProof }
    ensures counted { (old : ℕ) → CountsCertificate result old old (P.failures proof.old)
        (P.failures proof.new) }
{
    match form {
        ProofForm::Plain => judge_plain(alloc, formula, proof),
        ProofForm::Hinted => judge_hinted(alloc, formula, proof),
    }
}

/// Judges a certificate of the bad property of a circuit at a position, from 0: reads the text of an invariant and that of a
/// proof in a form to their ends, and judges the proof over the formula that the invariant owes. Where it is judged as `Derived`, the
/// property rises in no frame up to which the circuit's constraints hold, in no trace from initial bits that agree with its
/// resets. Of the proof only what one call gives is held at a time, and beside it what the judge holds.
///
/// Errors, of which the first that applies in this order is answered: `Claim` where the invariant owes no formula, and then
/// nothing of the proof is read; `Judge` where the judge of proofs was refused a growth, and `Device` where the proof's
/// source failed.
pub fn judge_certificate<S: Source, P: Source>(
    alloc: Global,
    circuit: &Circuit,
    bad: usize,
    form: ProofForm,
    invariant: &mut S,
    proof: &mut P,
) -> Result<Judgement, CertificateFault>
    // the judgement is that of the whole texts
    ensures judged { IfOk result (IsCertified circuit.now bad form (S.to_come invariant.old)
        (P.to_come proof.old)) }
    // where the proof is one, the property never rises
    ensures holds { IfOk result (λ j. (line : ℕ) → j ≡ judgement.Derived line
        → ¬ CanRiseInCircuit circuit.now bad) }
    ensures end { OnOk result (IsAtEnd (S.to_come invariant.new) × IsAtEnd (P.to_come proof.new)) }
    ensures fault { IfErr result (IsNotCertified circuit.now bad (S.to_come invariant.old)) }
    ensures unread { WithoutFormOf result (invariant.new ≡ invariant.old) }
    ensures proof_unread { WithoutFormula result (proof.new ≡ proof.old) }
    // the source failed once whose fault is told, and else none
    ensures counted { CountsCertificate result (S.failures invariant.old) (S.failures invariant.new)
        (P.failures proof.old) (P.failures proof.new) }
{
    certified_property_never_rises();
    let formula = owed_formula(alloc, circuit, bad, invariant)?;
    judge_proof(alloc, form, formula, proof)
}
