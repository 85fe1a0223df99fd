//! Lines of judgements.

ghost use Rattle.std.specs.Prelude.{◌≡◌, ◌++◌, false, IfOk, OnOk};
ghost use Rattle.std.specs.Io.KnownBytes.{Appends};
ghost use Rattle.std.specs.String.{string_bytes};
ghost use Rattle.subcommands.specs.Asked.{IsSoOf, outcome_line, outcome_said, outcome_written};
ghost use Rattle.subcommands.specs.Done.{IsSo, judgement_line};
ghost use Rattle.subcommands.specs.Objects.{names};
ghost use Rattle.verbs.specs.Statuses.{EndsUnrefused};
ghost use Rattle.verbs.specs.Statuses.Use.{Unused, Used};
ghost use Rattle.subcommands.specs.Subjects.{bad_said, said_by_name, subject_said, where_named};

use crate::answers::Answer;
use crate::objects::write_outcome;
use crate::subjects::{tell_outcome_where_named, tell_where_named};
use crate::telling::write_result;
use base::{Sink, write_all};
use invocation::Order;
use rises::FirstRises;
use std::alloc::{AllocError, Global};
use verbs::{Device, Outcome, Refusal, Subject};
use witness::Judgement;

/// The line of a judgement.
fn judgement_line(alloc: Global, judgement: &Judgement) -> Result<String, AllocError>
    ensures { IfOk result (λ line. string_bytes line ≡ judgement_line judgement.now) }
{
    format!(in alloc; "{judgement}\n")
}

/// Writes the line of a judgement to standard output, and answers whether the witness is accepted.
pub fn write_judgement<O: Sink>(
    alloc: Global,
    judgement: &Judgement,
    out: &mut O,
) -> Result<Answer, Refusal>
    ensures written { OnOk result (Appends (O.written out.old) (O.written out.new)
        (judgement_line judgement.now)) }
    ensures so { IfOk result (λ answer. IsSo answer judgement.now) }
    ensures ends { EndsUnrefused result Unused Unused (Used O.failures out.old out.new) Unused }
{
    let line = judgement_line(alloc, judgement)?;
    write_result(out, line.as_bytes())?;
    Ok(Answer::of(judgement))
}

/// The line of what is told of a witness.
fn outcome_line(alloc: Global, outcome: &Outcome) -> Result<String, AllocError>
    ensures { IfOk result (λ line. string_bytes line ≡ outcome_line outcome.now) }
{
    match outcome {
        Outcome::Judged(judgement) => judgement_line(alloc, judgement),
        Outcome::Unclaimed(position) => format!(in alloc; "not claimed: b{position}\n"),
    }
}

/// The answer of what is told of a witness.
fn answer_of(outcome: &Outcome) -> Answer
    ensures { IsSoOf result outcome.now }
{
    match outcome {
        Outcome::Judged(judgement) => Answer::of(judgement),
        Outcome::Unclaimed(_) => Answer::NotAccepted,
    }
}

/// Writes what is told of a witness to standard output, in a line or as an object, and answers whether it is accepted and claims
/// what is asked for.
fn write_told<O: Sink>(
    alloc: Global,
    as_json: bool,
    subject: Subject<'_>,
    outcome: &Outcome,
    firsts: &FirstRises,
    out: &mut O,
) -> Result<Answer, Refusal>
    ensures written { OnOk result (Appends (O.written out.old) (O.written out.new)
        (outcome_written as_json (names subject.entry) firsts.now outcome.now)) }
    ensures so { IfOk result (λ answer. IsSoOf answer outcome.now) }
    ensures ends { EndsUnrefused result Unused Unused (Used O.failures out.old out.new) Unused }
{
    if as_json {
        return match write_outcome(subject, outcome, firsts, out) {
            Ok(()) => Ok(answer_of(outcome)),
            Err(_) => Err(Refusal::Failed(Device::Output)),
        };
    }
    let line = outcome_line(alloc, outcome)?;
    write_result(out, line.as_bytes())?;
    Ok(answer_of(outcome))
}

/// The same, and with names says on standard error what the judgement is about.
pub(crate) fn answer_told<O: Sink, E: Sink>(
    alloc: Global,
    order: &Order<'_>,
    subject: Subject<'_>,
    outcome: &Outcome,
    firsts: &FirstRises,
    out: &mut O,
    err: &mut E,
) -> Result<Answer, Refusal>
    ensures written { OnOk result (Appends (O.written out.old) (O.written out.new)
        (outcome_written order.now.as_json (names subject.entry) firsts.now outcome.now)) }
    ensures told { OnOk result (Appends (E.written err.old) (E.written err.new)
        (where_named order.now.named (outcome_said (subject_said subject.entry)
        (bad_said subject.entry) firsts.now outcome.now))) }
    ensures so { IfOk result (λ answer. IsSoOf answer outcome.now) }
    ensures quiet { order.now.named ≡ false → err.new ≡ err.old }
    ensures ends { EndsUnrefused result Unused Unused (Used O.failures out.old out.new)
        (Used E.failures err.old err.new) }
{
    let answer = write_told(alloc, order.as_json, subject, outcome, firsts, out)?;
    match tell_outcome_where_named(order.named, subject, outcome, firsts, err) {
        Ok(()) => Ok(answer),
        Err(_) => Err(Refusal::Failed(Device::Error)),
    }
}

/// Writes the line of a judgement to standard error, and answers whether the witness is accepted.
pub fn tell_line<E: Sink>(
    alloc: Global,
    judgement: &Judgement,
    err: &mut E,
) -> Result<Answer, Refusal>
    ensures written { OnOk result (Appends (E.written err.old) (E.written err.new)
        (judgement_line judgement.now)) }
    ensures so { IfOk result (λ answer. IsSo answer judgement.now) }
    ensures ends { EndsUnrefused result Unused Unused Unused (Used E.failures err.old err.new) }
{
    let line = judgement_line(alloc, judgement)?;
    match write_all(err, line.as_bytes()) {
        Ok(()) => Ok(Answer::of(judgement)),
        Err(_) => Err(Refusal::Failed(Device::Error)),
    }
}

/// Writes the line of a judgement to standard error, with names behind it what it is about, and of an acceptance in which
/// frames the claims are reached first; and answers whether the witness is accepted.
pub fn tell_judgement<E: Sink>(
    alloc: Global,
    named: bool,
    subject: Subject<'_>,
    judgement: &Judgement,
    firsts: &FirstRises,
    err: &mut E,
) -> Result<Answer, Refusal>
    ensures written { OnOk result (Appends (E.written err.old) (E.written err.new)
        (judgement_line judgement.now ++ where_named named
        (said_by_name (subject_said subject.entry) (bad_said subject.entry) firsts.now
        judgement.now))) }
    ensures so { IfOk result (λ answer. IsSo answer judgement.now) }
    ensures ends { EndsUnrefused result Unused Unused Unused (Used E.failures err.old err.new) }
{
    let answer = tell_line(alloc, judgement, err)?;
    match tell_where_named(named, subject, judgement, firsts, err) {
        Ok(()) => Ok(answer),
        Err(_) => Err(Refusal::Failed(Device::Error)),
    }
}
