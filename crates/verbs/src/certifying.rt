//! Certificates: the formulas that they owe, and how they are judged with proofs of these.

ghost use Rattle.std.specs.Prelude.{IfOk, IfErr};
ghost use Rattle.verbs.specs.Certificates.{IsJudgedCertificate, IsOwedFormula};
ghost use Rattle.verbs.specs.Refusals.{IsFaultyCertificate, IsNotCertifiable};
ghost use Rattle.verbs.specs.Statuses.{EndsAll, IfInput, IfSecond};
ghost use Rattle.verbs.specs.Statuses.Use.{Unused, Used};

use crate::given::{GivenCircuit, give};
use crate::owing::{certified_claim, certified_never_rises, judged, owed};
use crate::refusals::Refusal;
use base::Source;
use blast::Watch;
use certificates::ProofForm;
use drup::{Formula, Judgement};
use invocation::Certified;
use std::alloc::Global;

/// How a certificate is judged.
#[derive(Drop)]
pub struct JudgedCertificate {
    /// What the first text gives.
    pub given: GivenCircuit,
    /// The position of the bad property that it is about.
    pub claim: usize,
    /// How the proof is judged, of the formula that the certificate owes.
    pub judgement: Judgement,
}

/// The formula that the second text, a certificate, owes for the bad property that is claimed of what the first gives.
pub fn owe<A: Source, B: Source, W: Watch>(
    alloc: Global,
    of: Certified,
    first: &mut A,
    second: &mut B,
    watch: &mut W,
) -> Result<Formula, Refusal>
    ensures owed { IfOk result (IsOwedFormula of (A.to_come first.old) (B.to_come second.old)) }
    ensures refused { IfErr result
        (IfInput (IsNotCertifiable of.by of.given of.choice (A.to_come first.old))) }
    ensures second { IfErr result
        (IfSecond (IsFaultyCertificate of.by of.given of.choice (A.to_come first.old)
        (B.to_come second.old))) }
    ensures ends { EndsAll result (Used A.failures first.old first.new)
        (Used B.failures second.old second.new) Unused Unused Unused }
{
    let given = give(alloc, of.given, first, watch)?;
    let claim = certified_claim(&given.circuit, of.by, of.choice)?;
    owed(
        alloc,
        of.by,
        &given.circuit,
        &given.numbering,
        claim,
        second,
    )
}

/// Judges the second text, a certificate of the bad property that is claimed of what the first gives, by the third, a proof in
/// this form of the formula that it owes.
pub fn certify<A: Source, B: Source, T: Source, W: Watch>(
    alloc: Global,
    of: Certified,
    form: ProofForm,
    first: &mut A,
    second: &mut B,
    third: &mut T,
    watch: &mut W,
) -> Result<JudgedCertificate, Refusal>
    ensures judged { IfOk result (IsJudgedCertificate of form (A.to_come first.old)
        (B.to_come second.old) (T.to_come third.old)) }
    ensures refused { IfErr result
        (IfInput (IsNotCertifiable of.by of.given of.choice (A.to_come first.old))) }
    ensures second { IfErr result
        (IfSecond (IsFaultyCertificate of.by of.given of.choice (A.to_come first.old)
        (B.to_come second.old))) }
    ensures ends { EndsAll result (Used A.failures first.old first.new)
        (Used B.failures second.old second.new) (Used T.failures third.old third.new) Unused
        Unused }
{
    certified_never_rises();
    blast::laws::bad_properties_rise_alike();
    let given = give(alloc, of.given, first, watch)?;
    let claim = certified_claim(&given.circuit, of.by, of.choice)?;
    let judgement = judged(
        alloc,
        of.by,
        form,
        &given.circuit,
        &given.numbering,
        claim,
        second,
        third,
    )?;
    Ok(JudgedCertificate {
        given,
        claim,
        judgement,
    })
}
