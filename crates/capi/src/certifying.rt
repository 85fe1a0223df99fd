//! The calls on certificates: they write the formulas that these owe, and judge proofs of them.
ghost use Rattle.std.specs.Prelude.{◌≡◌, ◌≤◌, true, false, Some, IfOk, IfErr, IfSome};
ghost use Rattle.invocation.specs.declared.tasks.Certificate.TheVariants as kind_is;
ghost use Rattle.verbs.specs.Refusals.{IsFaultyCertificate, IsNotCertifiable};
ghost use Rattle.verbs.specs.Statuses.{IfInput, IfSecond};
ghost use Rattle.capi.specs.Buffers.{Fills, Needs};
ghost use Rattle.capi.specs.Certified.{CallCertifies, CallOwes, StopsCertifying};
ghost use Rattle.capi.specs.Flags.{about, given_of, guard_of, proof_form};

use crate::answers::{DONE, Refusal, Verdict, tell};
use crate::buffers::hand_over;
use crate::flags::{about, guard_of, proof_form};
use base::{Sink, VecSink};
use blast::Unwatched;
use certificates::ProofForm;
use drup::write_formula;
use invocation::Certificate;
use std::alloc::Global;
use verbs::{Refusal as Against, certify, owe};

/// Judges a certificate and a proof in this form of the formula that it owes.
fn judge(
    alloc: Global,
    aiger: bool,
    kind: Certificate,
    bad: usize,
    form: ProofForm,
    text: &[u8],
    certificate: &[u8],
    proof: &[u8],
    verdict: &mut Verdict,
    refusal: &mut Refusal,
) -> u32
    ensures done { result ≡ 0 → CallCertifies (about aiger kind bad) form text.now certificate.now
        proof.now verdict.new }
    ensures stops { 1 ≤ result → StopsCertifying (about aiger kind bad) text.now certificate.now
        result refusal.old refusal.new }
    ensures statuses { result ≤ 5 }
    ensures unwritten { 1 ≤ result → verdict.new ≡ verdict.old }
    ensures refusal_stays { result ≡ 0 → refusal.new ≡ refusal.old }
{
    let of = about(aiger, kind, bad);
    let (mut first, mut second, mut third) = (text, certificate, proof);
    match certify(
        alloc,
        of,
        form,
        &mut first,
        &mut second,
        &mut third,
        &mut Unwatched,
    ) {
        Ok(judged) => {
            *verdict = Verdict::of_proof(&judged.judgement);
            DONE
        }
        Err(against) => tell(against, refusal),
    }
}

/// The text of the formula that a certificate owes.
fn owed(
    alloc: Global,
    aiger: bool,
    kind: Certificate,
    bad: usize,
    text: &[u8],
    certificate: &[u8],
) -> Result<VecSink, Against>
    ensures done { IfOk result (λ sink. IfSome (⟦<VecSink as Sink>⟧.written sink)
        (CallOwes (about aiger kind bad) text.now certificate.now)) }
    ensures refused { IfErr result
        (IfInput (IsNotCertifiable kind (given_of aiger) (Some bad) (Some text.now))) }
    ensures second { IfErr result (IfSecond (IsFaultyCertificate kind (given_of aiger) (Some bad)
        (Some text.now) (Some certificate.now))) }
{
    let of = about(aiger, kind, bad);
    let (mut first, mut second) = (text, certificate);
    let formula = owe(alloc, of, &mut first, &mut second, &mut Unwatched)?;
    let mut sink = VecSink::new(alloc);
    match write_formula(&formula, &mut sink) {
        Ok(()) => Ok(sink),
        Err(_) => Err(Against::NoMemory),
    }
}

/// Writes the formula that a certificate owes.
fn write_owed(
    alloc: Global,
    aiger: bool,
    kind: Certificate,
    bad: usize,
    text: &[u8],
    certificate: &[u8],
    buffer: &mut [u8],
    needed: &mut usize,
    refusal: &mut Refusal,
) -> u32
    ensures done { result ≡ 0 → Fills (CallOwes (about aiger kind bad) text.now certificate.now)
        buffer.old buffer.new needed.new }
    ensures small { result ≡ 1 → Needs (CallOwes (about aiger kind bad) text.now certificate.now)
        buffer.old buffer.new needed.new }
    ensures stops { 2 ≤ result → StopsCertifying (about aiger kind bad) text.now certificate.now
        result refusal.old refusal.new }
    ensures statuses { result ≤ 5 }
    ensures unwritten { 2 ≤ result → (buffer.new ≡ buffer.old) × (needed.new ≡ needed.old) }
    ensures refusal_stays { result ≤ 1 → refusal.new ≡ refusal.old }
{
    match owed(alloc, aiger, kind, bad, text, certificate) {
        Ok(formula) => hand_over(formula.bytes(), buffer, needed),
        Err(against) => tell(against, refusal),
    }
}

/// Writes the formula, as a text in DIMACS, that the text of an invariant, as ABC writes it by `pdr -d -I` over the engine form
/// with this bad property alone, owes for the bad property of the text of a BTOR2 model at this position, from 0: where nothing
/// satisfies it, the property rises in no frame up to which the constraints hold.
///
/// Answers 0 where that text stands at the front of the buffer, whose bytes behind it stay, and 1 where it is longer than the
/// buffer, which stays then: after both `needed` is its length. 2 where the first text is no model, with the number and the
/// line of its first fault; 3 where the model is not lowered, its circuit has no such engine form, or the invariant owes too
/// big a formula, with the number of that and the id of an item, or 0; 5 where the invariant's text is faulty, with the number
/// and the line of its first fault; 4 where memory was wanting. With 0, 1 and 4 the refusal stays, and without 0 and 1 buffer
/// and `needed` do.
#[unsafe(no_mangle)]
pub extern "C" fn hwtool_obligation(
    alloc: Global,
    model: &[u8],
    bad: usize,
    invariant: &[u8],
    buffer: &mut [u8],
    needed: &mut usize,
    refusal: &mut Refusal,
) -> u32
    ensures done { result ≡ 0 → Fills
        (CallOwes (about false kind_is.Invariant bad) model.now invariant.now) buffer.old buffer.new
        needed.new }
    ensures small { result ≡ 1 → Needs
        (CallOwes (about false kind_is.Invariant bad) model.now invariant.now) buffer.old buffer.new
        needed.new }
    ensures stops { 2 ≤ result → StopsCertifying (about false kind_is.Invariant bad) model.now
        invariant.now result refusal.old refusal.new }
    ensures statuses { result ≤ 5 }
    ensures unwritten { 2 ≤ result → (buffer.new ≡ buffer.old) × (needed.new ≡ needed.old) }
    ensures refusal_stays { result ≤ 1 → refusal.new ≡ refusal.old }
{
    write_owed(
        alloc,
        false,
        Certificate::Invariant,
        bad,
        model,
        invariant,
        buffer,
        needed,
        refusal,
    )
}

/// Judges a proof, in DRAT, or with `lrat` in LRAT, of the formula that the text of an invariant owes for the bad property of
/// the text of a BTOR2 model at this position: as of `hwtool_obligation`. Where the verdict's kind is 0, the bad property rises
/// in no frame up to which the model's constraints hold, from any initial state under every input sequence.
///
/// Answers 0 with what is judged of the proof; 2, 3, 4 and 5 as of that call. Without 0 the verdict stays, and with 0 and 4 the
/// refusal does.
#[unsafe(no_mangle)]
pub extern "C" fn hwtool_check_proof(
    alloc: Global,
    model: &[u8],
    bad: usize,
    invariant: &[u8],
    lrat: bool,
    proof: &[u8],
    verdict: &mut Verdict,
    refusal: &mut Refusal,
) -> u32
    ensures done { result ≡ 0 → CallCertifies (about false kind_is.Invariant bad) (proof_form lrat)
        model.now invariant.now proof.now verdict.new }
    ensures stops { 1 ≤ result → StopsCertifying (about false kind_is.Invariant bad) model.now
        invariant.now result refusal.old refusal.new }
    ensures statuses { result ≤ 5 }
    ensures unwritten { 1 ≤ result → verdict.new ≡ verdict.old }
    ensures refusal_stays { result ≡ 0 → refusal.new ≡ refusal.old }
{
    judge(
        alloc,
        false,
        Certificate::Invariant,
        bad,
        proof_form(lrat),
        model,
        invariant,
        proof,
        verdict,
        refusal,
    )
}

/// The same as `hwtool_obligation` of the text of an AIGER circuit of either form.
///
/// Answers as that call, but 2 where the first text is no circuit, with the number and the place of its first fault, in bytes
/// from 0.
#[unsafe(no_mangle)]
pub extern "C" fn hwtool_obligation_aig(
    alloc: Global,
    circuit: &[u8],
    bad: usize,
    invariant: &[u8],
    buffer: &mut [u8],
    needed: &mut usize,
    refusal: &mut Refusal,
) -> u32
    ensures done { result ≡ 0 → Fills (CallOwes (about true kind_is.Invariant bad) circuit.now
        invariant.now) buffer.old buffer.new needed.new }
    ensures small { result ≡ 1 → Needs (CallOwes (about true kind_is.Invariant bad) circuit.now
        invariant.now) buffer.old buffer.new needed.new }
    ensures stops { 2 ≤ result → StopsCertifying (about true kind_is.Invariant bad) circuit.now
        invariant.now result refusal.old refusal.new }
    ensures statuses { result ≤ 5 }
    ensures unwritten { 2 ≤ result → (buffer.new ≡ buffer.old) × (needed.new ≡ needed.old) }
    ensures refusal_stays { result ≤ 1 → refusal.new ≡ refusal.old }
{
    write_owed(
        alloc,
        true,
        Certificate::Invariant,
        bad,
        circuit,
        invariant,
        buffer,
        needed,
        refusal,
    )
}

/// The same as `hwtool_check_proof` of the text of an AIGER circuit of either form, from any initial bits that agree with its
/// resets.
///
/// Answers as that call, but 2 where the first text is no circuit, with the number and the place of its first fault, in bytes
/// from 0.
#[unsafe(no_mangle)]
pub extern "C" fn hwtool_check_proof_aig(
    alloc: Global,
    circuit: &[u8],
    bad: usize,
    invariant: &[u8],
    lrat: bool,
    proof: &[u8],
    verdict: &mut Verdict,
    refusal: &mut Refusal,
) -> u32
    ensures done { result ≡ 0 → CallCertifies (about true kind_is.Invariant bad) (proof_form lrat)
        circuit.now invariant.now proof.now verdict.new }
    ensures stops { 1 ≤ result → StopsCertifying (about true kind_is.Invariant bad) circuit.now
        invariant.now result refusal.old refusal.new }
    ensures statuses { result ≤ 5 }
    ensures unwritten { 1 ≤ result → verdict.new ≡ verdict.old }
    ensures refusal_stays { result ≡ 0 → refusal.new ≡ refusal.old }
{
    judge(
        alloc,
        true,
        Certificate::Invariant,
        bad,
        proof_form(lrat),
        circuit,
        invariant,
        proof,
        verdict,
        refusal,
    )
}

/// Writes the formula, as a text in DIMACS, that the text of a witness circuit, in AIGER of either form, owes for the bad
/// property at this position, from 0, of the text of a BTOR2 model, or with `aiger` of an AIGER circuit: as one of the circuit
/// that lowers the model, or of the circuit, or with `over_form` of its engine form with this bad property alone. Where nothing
/// satisfies it, the property rises in no frame up to which the constraints hold.
///
/// Answers 0 where that text stands at the front of the buffer, whose bytes behind it stay, and 1 where it is longer than the
/// buffer, which stays then: after both `needed` is its length. 2 where the first text is no model, or no circuit, with the
/// number of its first fault and its line, or its byte; 3 where the model is not lowered, there is no such bad property or no
/// such engine form, with the number of that and the id of an item, or 0; 5 where the witness circuit is refused, with the
/// number, and the byte where its text is faulty, or 0; 4 where memory was wanting. With 0, 1 and 4 the refusal stays, and
/// without 0 and 1 buffer and `needed` do.
#[unsafe(no_mangle)]
pub extern "C" fn hwtool_obligation_circuit(
    alloc: Global,
    first: &[u8],
    aiger: bool,
    over_form: bool,
    bad: usize,
    witness: &[u8],
    buffer: &mut [u8],
    needed: &mut usize,
    refusal: &mut Refusal,
) -> u32
    ensures done { result ≡ 0 → Fills (CallOwes (about aiger (guard_of over_form) bad) first.now
        witness.now) buffer.old buffer.new needed.new }
    ensures small { result ≡ 1 → Needs (CallOwes (about aiger (guard_of over_form) bad) first.now
        witness.now) buffer.old buffer.new needed.new }
    ensures stops { 2 ≤ result → StopsCertifying (about aiger (guard_of over_form) bad) first.now
        witness.now result refusal.old refusal.new }
    ensures statuses { result ≤ 5 }
    ensures unwritten { 2 ≤ result → (buffer.new ≡ buffer.old) × (needed.new ≡ needed.old) }
    ensures refusal_stays { result ≤ 1 → refusal.new ≡ refusal.old }
{
    write_owed(
        alloc,
        aiger,
        guard_of(over_form),
        bad,
        first,
        witness,
        buffer,
        needed,
        refusal,
    )
}

/// Judges a proof, in DRAT, or with `lrat` in LRAT, of the formula that the text of a witness circuit owes: of what, as of
/// `hwtool_obligation_circuit`. Where the verdict's kind is 0, the bad property rises in no frame up to which the constraints
/// hold, from any initial state under every input sequence.
///
/// Answers 0 with what is judged of the proof; 2, 3, 4 and 5 as of that call. Without 0 the verdict stays, and with 0 and 4 the
/// refusal does.
#[unsafe(no_mangle)]
pub extern "C" fn hwtool_check_proof_circuit(
    alloc: Global,
    first: &[u8],
    aiger: bool,
    over_form: bool,
    bad: usize,
    witness: &[u8],
    lrat: bool,
    proof: &[u8],
    verdict: &mut Verdict,
    refusal: &mut Refusal,
) -> u32
    ensures done { result ≡ 0 → CallCertifies (about aiger (guard_of over_form) bad)
        (proof_form lrat) first.now witness.now proof.now verdict.new }
    ensures stops { 1 ≤ result → StopsCertifying (about aiger (guard_of over_form) bad) first.now
        witness.now result refusal.old refusal.new }
    ensures statuses { result ≤ 5 }
    ensures unwritten { 1 ≤ result → verdict.new ≡ verdict.old }
    ensures refusal_stays { result ≡ 0 → refusal.new ≡ refusal.old }
{
    judge(
        alloc,
        aiger,
        guard_of(over_form),
        bad,
        proof_form(lrat),
        first,
        witness,
        proof,
        verdict,
        refusal,
    )
}
