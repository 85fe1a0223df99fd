//! The commands on certificates: invariants and witness circuits, and proofs of the formulas that they owe.

ghost use Rattle.std.specs.Prelude.{◌≡◌, ℕ, false, IfOk, IfErr, OnOk};
ghost use Rattle.std.specs.Io.KnownBytes.{Appends};
ghost use Rattle.std.specs.String.{string_bytes};
ghost use Rattle.base.specs.Device.{CountsFaults};
ghost use Rattle.drup.specs.FormulaTexts.{formula_text};
ghost use Rattle.verbs.specs.Refusals.{IsFaultyCertificate, IsNotCertifiable};
ghost use Rattle.verbs.specs.Statuses.{EndsAll, EndsUnrefused, IfInput, IfSecond};
ghost use Rattle.verbs.specs.Statuses.Use.{Unused, Used};
ghost use Rattle.subcommands.specs.Certificates.{CertifiesWith, IsSoDerived, WritesOwed, read_names, read_said, verdict_line, verdict_written};
ghost use Rattle.subcommands.specs.Objects.{names};
ghost use Rattle.subcommands.specs.Subjects.{bad_said, holds_said, where_named};

use crate::answers::Answer;
use crate::objects::write_certified;
use crate::subjects::tell_bad;
use crate::telling::write_result;
use base::{DeviceFault, Sink, Source};
use blast::Watch;
use certificates::ProofForm;
use drup::{Formula, Judgement, write_formula};
use invocation::{Certified, Order};
use std::alloc::{AllocError, Global};
use verbs::{Device, GivenCircuit, Refusal, Subject, certify, owe};

/// What a judgement of what a first file gives is about.
fn subject_of(given: &GivenCircuit) -> Subject<'_>
    ensures says { (k : ℕ) → bad_said result k ≡ read_said given.now k }
    ensures names { (k : ℕ) → (names result).bad k ≡ read_names given.now k }
{
    match &given.model {
        Some(model) => Subject::Model(model.lines()),
        None => Subject::Circuit(&given.circuit),
    }
}

/// Writes the text of a formula.
fn write_owed<O: Sink>(formula: &Formula, out: &mut O) -> Result<Answer, Refusal>
    ensures written { OnOk result (Appends (O.written out.old) (O.written out.new)
        (formula_text formula.now)) }
    ensures answer { IfOk result (λ answer. answer ≡ Answer.Done) }
    ensures ends { EndsUnrefused result Unused Unused (Used O.failures out.old out.new) Unused }
{
    match write_formula(formula, out) {
        Ok(()) => Ok(Answer::Done),
        Err(_) => Err(Refusal::Failed(Device::Output)),
    }
}

/// Writes the formula that a certificate owes for the bad property that is claimed of what the first file gives.
///
/// Its buffers stand in a frame of its own: each command enters that of its caller.
#[inline(never)]
pub fn write_obligation<A: Source, B: Source, O: Sink, W: Watch>(
    alloc: Global,
    of: Certified,
    first: &mut A,
    second: &mut B,
    out: &mut O,
    watch: &mut W,
) -> Result<Answer, Refusal>
    ensures done { OnOk result (WritesOwed of (A.to_come first.old) (B.to_come second.old)
        (O.written out.old) (O.written out.new)) }
    ensures answer { IfOk result (λ answer. answer ≡ Answer.Done) }
    ensures refused { IfErr result
        (IfInput (IsNotCertifiable of.by of.given of.choice (A.to_come first.old))) }
    ensures second { IfErr result
        (IfSecond (IsFaultyCertificate of.by of.given of.choice (A.to_come first.old)
        (B.to_come second.old))) }
    ensures ends { EndsAll result (Used A.failures first.old first.new)
        (Used B.failures second.old second.new) Unused (Used O.failures out.old out.new) Unused }
{
    let formula = owe(alloc, of, first, second, watch)?;
    write_owed(&formula, out)
}

/// The line that tells how a certificate of a bad property is judged.
fn verdict_line(alloc: Global, claim: usize, judgement: &Judgement) -> Result<String, AllocError>
    ensures { IfOk result (λ line. string_bytes line ≡ verdict_line claim judgement.now) }
{
    match judgement {
        Judgement::Derived { .. } => format!(in alloc; "holds: b{claim}\n"),
        Judgement::NotImplied { line } => format!(in alloc; "not implied line {line}\n"),
        Judgement::Malformed { line, why } => {
            let number = why.number();
            let name = why.name();
            format!(in alloc; "malformed line {line}: {number} {name}\n")
        }
        Judgement::NotDerived => format!(in alloc; "not derived\n"),
    }
}

/// The answer of a judgement: all is done where the proof derives.
fn answer_of(judgement: &Judgement) -> Answer
    ensures { IsSoDerived result judgement.now }
{
    match judgement {
        Judgement::Derived { .. } => Answer::Done,
        _ => Answer::NotAccepted,
    }
}

/// Writes how a certificate of a bad property is judged, in a line or as an object, and answers whether the proof derives.
fn write_verdict<O: Sink>(
    alloc: Global,
    as_json: bool,
    subject: Subject<'_>,
    claim: usize,
    judgement: &Judgement,
    out: &mut O,
) -> Result<Answer, Refusal>
    ensures written { OnOk result (Appends (O.written out.old) (O.written out.new)
        (verdict_written as_json ((names subject.entry).bad claim) claim judgement.now)) }
    ensures so { IfOk result (λ answer. IsSoDerived answer judgement.now) }
    ensures ends { EndsUnrefused result Unused Unused (Used O.failures out.old out.new) Unused }
{
    if as_json {
        return match write_certified(subject, claim, judgement, out) {
            Ok(()) => Ok(answer_of(judgement)),
            Err(_) => Err(Refusal::Failed(Device::Output)),
        };
    }
    let line = verdict_line(alloc, claim, judgement)?;
    write_result(out, line.as_bytes())?;
    Ok(answer_of(judgement))
}

/// Says which bad property holds, where one does and names are asked for.
fn tell_what_holds<E: Sink>(
    named: bool,
    subject: Subject<'_>,
    claim: usize,
    judgement: &Judgement,
    err: &mut E,
) -> Result<(), DeviceFault>
    ensures written { OnOk result (Appends (E.written err.old) (E.written err.new)
        (where_named named (holds_said judgement.now (bad_said subject.entry claim)))) }
    ensures quiet { named ≡ false → err.new ≡ err.old }
    ensures counted { CountsFaults result (E.failures err.old) (E.failures err.new) }
{
    match judgement {
        Judgement::Derived { .. } => tell_bad(named, subject, claim, err),
        _ => Ok(()),
    }
}

/// The same, and with names says which bad property holds.
fn tell_verdict<O: Sink, E: Sink>(
    alloc: Global,
    order: &Order<'_>,
    subject: Subject<'_>,
    claim: usize,
    judgement: &Judgement,
    out: &mut O,
    err: &mut E,
) -> Result<Answer, Refusal>
    ensures written { OnOk result (Appends (O.written out.old) (O.written out.new)
        (verdict_written order.now.as_json ((names subject.entry).bad claim) claim
        judgement.now)) }
    ensures told { OnOk result (Appends (E.written err.old) (E.written err.new)
        (where_named order.now.named (holds_said judgement.now (bad_said subject.entry claim)))) }
    ensures quiet { order.now.named ≡ false → err.new ≡ err.old }
    ensures so { IfOk result (λ answer. IsSoDerived answer judgement.now) }
    ensures ends { EndsUnrefused result Unused Unused (Used O.failures out.old out.new)
        (Used E.failures err.old err.new) }
{
    let answer = write_verdict(alloc, order.as_json, subject, claim, judgement, out)?;
    match tell_what_holds(order.named, subject, claim, judgement, err) {
        Ok(()) => Ok(answer),
        Err(_) => Err(Refusal::Failed(Device::Error)),
    }
}

/// Judges a certificate of the bad property that is claimed of what the first file gives, and a proof in this form; tells that,
/// and with names which one holds.
pub fn check_proof<A: Source, B: Source, T: Source, O: Sink, E: Sink, W: Watch>(
    alloc: Global,
    order: &Order<'_>,
    of: Certified,
    form: ProofForm,
    first: &mut A,
    second: &mut B,
    third: &mut T,
    out: &mut O,
    err: &mut E,
    watch: &mut W,
) -> Result<Answer, Refusal>
    ensures done { IfOk result (CertifiesWith order.now.named order.now.as_json of form
        (A.to_come first.old) (B.to_come second.old) (T.to_come third.old) (O.written out.old)
        (O.written out.new) (E.written err.old) (E.written err.new)) }
    ensures refused { IfErr result
        (IfInput (IsNotCertifiable of.by of.given of.choice (A.to_come first.old))) }
    ensures second { IfErr result
        (IfSecond (IsFaultyCertificate of.by of.given of.choice (A.to_come first.old)
        (B.to_come second.old))) }
    ensures ends { EndsAll result (Used A.failures first.old first.new)
        (Used B.failures second.old second.new) (Used T.failures third.old third.new)
        (Used O.failures out.old out.new) (Used E.failures err.old err.new) }
    ensures quiet { order.now.named ≡ false → err.new ≡ err.old }
{
    let judged = certify(alloc, of, form, first, second, third, watch)?;
    let subject = subject_of(&judged.given);
    tell_verdict(
        alloc,
        order,
        subject,
        judged.claim,
        &judged.judgement,
        out,
        err,
    )
}
