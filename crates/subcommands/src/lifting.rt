//! The commands that lift.

ghost use Rattle.std.specs.Prelude.{IfOk, IfErr};
ghost use Rattle.invocation.specs.declared.tasks.Given.TheVariants as given_is;
ghost use Rattle.verbs.specs.declared.refusals.Claimed.TheVariants as claimed_is;
ghost use Rattle.verbs.specs.Refusals.{IsNotClaimable, IsNotClaimed, IsNotForEngines};
ghost use Rattle.verbs.specs.Statuses.{Ends, EndsUnrefused, IfInput};
ghost use Rattle.verbs.specs.Statuses.Use.{Unused, Used};
ghost use Rattle.subcommands.specs.Restoring.{Lifts, LiftsFitted, LiftsForm, LiftsFormFitted, LiftsFound, LiftsFoundFitted, TellsLifted, lifting_said_of};

use crate::answers::Answer;
use crate::assumed::tell_form_judgement;
use crate::judgements::tell_judgement;
use crate::restoring::tell_malformed;
use base::{Sink, Source};
use blast::Watch;
use restore::RestoreFault;
use rises::FirstRises;
use std::alloc::Global;
use verbs::{
    Lines, Refusal, Subject, lift, lift_fitted, lift_found, lift_found_fitted, lift_from_form,
    lift_from_form_fitted,
};
use witness::Judgement;

/// Lifts a witness of the circuit of a model to standard output, with names or without, and tells its judgement on standard
/// error, with names behind it what the judgement is about, and of an acceptance in which frames the claims are reached first.
pub fn lift_witness<A: Source, B: Source, O: Sink, E: Sink, W: Watch>(
    alloc: Global,
    named: bool,
    first: &mut A,
    second: &mut B,
    out: &mut O,
    err: &mut E,
    watch: &mut W,
) -> Result<Answer, Refusal>
    ensures done { IfOk result (Lifts named (A.to_come first.old) (B.to_come second.old)
        (O.written out.old) (O.written out.new) (E.written err.old) (E.written err.new)) }
    ensures refused { IfErr result (IfInput (IsNotClaimable given_is.Model (A.to_come first.old))) }
    ensures ends { Ends result (Used A.failures first.old first.new)
        (Used B.failures second.old second.new) (Used O.failures out.old out.new)
        (Used E.failures err.old err.new) }
{
    let lifted = lift(alloc, named, first, second, out, watch)?;
    let subject = Subject::Lowered(
        Lines::Profile(&lifted.lowered.model),
        &lifted.lowered.circuit,
    );
    tell_judgement(
        alloc,
        named,
        subject,
        &lifted.judgement,
        &lifted.firsts,
        err,
    )
}

/// Tells what is told of a counterexample that is lifted: how it is judged, with names behind that what the judgement is about,
/// and of an acceptance in which frame the claim is reached first; or its first faulty line.
fn tell_lifted<E: Sink>(
    alloc: Global,
    named: bool,
    subject: Subject<'_>,
    told: &Result<(Judgement, FirstRises), RestoreFault>,
    err: &mut E,
) -> Result<Answer, Refusal>
    ensures told { IfOk result
        (λ answer. TellsLifted (lifting_said_of named subject.entry) told.now answer
        (E.written err.old) (E.written err.new)) }
    ensures ends { EndsUnrefused result Unused Unused Unused (Used E.failures err.old err.new) }
{
    match told {
        Ok((judgement, firsts)) => tell_judgement(alloc, named, subject, judgement, firsts, err),
        Err(fault) => tell_malformed(alloc, fault, err),
    }
}

/// Lifts a counterexample over the engine form of the circuit of a model to standard output, with names or without, and tells
/// on standard error how that is judged.
pub fn lift_counterexample<A: Source, B: Source, O: Sink, E: Sink, W: Watch>(
    alloc: Global,
    named: bool,
    choice: Option<usize>,
    first: &mut A,
    second: &mut B,
    out: &mut O,
    err: &mut E,
    watch: &mut W,
) -> Result<Answer, Refusal>
    ensures done { IfOk result (LiftsFound named choice (A.to_come first.old)
        (B.to_come second.old) (O.written out.old) (O.written out.new) (E.written err.old)
        (E.written err.new)) }
    ensures refused { IfErr result
        (IfInput (IsNotClaimed claimed_is.Found given_is.Model choice (A.to_come first.old))) }
    ensures ends { Ends result (Used A.failures first.old first.new)
        (Used B.failures second.old second.new) (Used O.failures out.old out.new)
        (Used E.failures err.old err.new) }
{
    let lifted = lift_found(alloc, named, choice, first, second, out, watch)?;
    let subject = Subject::Lowered(
        Lines::Profile(&lifted.lowered.model),
        &lifted.lowered.circuit,
    );
    tell_lifted(alloc, named, subject, &lifted.told, err)
}

/// Lifts a witness of the engine form of the circuit of a model to standard output, with names or without, and tells on
/// standard error how that is judged, with names behind it what the judgement is about, and of an acceptance in which frame the
/// claim is reached first, and what the form is taken for, where none of several bad properties is chosen.
pub fn lift_form_witness<A: Source, B: Source, O: Sink, E: Sink, W: Watch>(
    alloc: Global,
    named: bool,
    choice: Option<usize>,
    first: &mut A,
    second: &mut B,
    out: &mut O,
    err: &mut E,
    watch: &mut W,
) -> Result<Answer, Refusal>
    ensures done { IfOk result (LiftsForm named choice (A.to_come first.old)
        (B.to_come second.old) (O.written out.old) (O.written out.new) (E.written err.old)
        (E.written err.new)) }
    ensures refused { IfErr result
        (IfInput (IsNotForEngines given_is.Model choice (A.to_come first.old))) }
    ensures ends { Ends result (Used A.failures first.old first.new)
        (Used B.failures second.old second.new) (Used O.failures out.old out.new)
        (Used E.failures err.old err.new) }
{
    let lifted = lift_from_form(alloc, named, choice, first, second, out, watch)?;
    let count = lifted.lowered.circuit.bads().len();
    let subject = Subject::Lowered(
        Lines::Profile(&lifted.lowered.model),
        &lifted.lowered.circuit,
    );
    tell_form_judgement(
        alloc,
        named,
        subject,
        &lifted.judgement,
        &lifted.firsts,
        choice,
        count,
        err,
    )
}

/// Lifts a witness of the circuit of the model that a model of the whole language is fitted into to standard output, with names or
/// without, and tells on standard error what is judged of it over the model, with names behind that what the judgement is about, and
/// of an acceptance in which frames the claims are reached first.
pub fn lift_fitted_witness<A: Source, B: Source, O: Sink, E: Sink, W: Watch>(
    alloc: Global,
    named: bool,
    first: &mut A,
    second: &mut B,
    out: &mut O,
    err: &mut E,
    watch: &mut W,
) -> Result<Answer, Refusal>
    ensures done { IfOk result (LiftsFitted named (A.to_come first.old) (B.to_come second.old)
        (O.written out.old) (O.written out.new) (E.written err.old) (E.written err.new)) }
    ensures refused { IfErr result (IfInput (IsNotClaimable given_is.Fitted (A.to_come first.old))) }
    ensures ends { Ends result (Used A.failures first.old first.new)
        (Used B.failures second.old second.new) (Used O.failures out.old out.new)
        (Used E.failures err.old err.new) }
{
    let lifted = lift_fitted(alloc, named, first, second, out, watch)?;
    let subject = Subject::Model(Lines::Whole(&lifted.model));
    tell_judgement(
        alloc,
        named,
        subject,
        &lifted.judgement,
        &lifted.firsts,
        err,
    )
}

/// The same of a counterexample over the engine form of that circuit.
pub fn lift_fitted_counterexample<A: Source, B: Source, O: Sink, E: Sink, W: Watch>(
    alloc: Global,
    named: bool,
    choice: Option<usize>,
    first: &mut A,
    second: &mut B,
    out: &mut O,
    err: &mut E,
    watch: &mut W,
) -> Result<Answer, Refusal>
    ensures done { IfOk result (LiftsFoundFitted named choice (A.to_come first.old)
        (B.to_come second.old) (O.written out.old) (O.written out.new) (E.written err.old)
        (E.written err.new)) }
    ensures refused { IfErr result
        (IfInput (IsNotClaimed claimed_is.Found given_is.Fitted choice (A.to_come first.old))) }
    ensures ends { Ends result (Used A.failures first.old first.new)
        (Used B.failures second.old second.new) (Used O.failures out.old out.new)
        (Used E.failures err.old err.new) }
{
    let lifted = lift_found_fitted(alloc, named, choice, first, second, out, watch)?;
    let subject = Subject::Model(Lines::Whole(&lifted.model));
    tell_lifted(alloc, named, subject, &lifted.told, err)
}

/// The same of a witness of that engine form; and it tells what the form is taken for, where none of several bad properties is chosen.
pub fn lift_fitted_form_witness<A: Source, B: Source, O: Sink, E: Sink, W: Watch>(
    alloc: Global,
    named: bool,
    choice: Option<usize>,
    first: &mut A,
    second: &mut B,
    out: &mut O,
    err: &mut E,
    watch: &mut W,
) -> Result<Answer, Refusal>
    ensures done { IfOk result (LiftsFormFitted named choice (A.to_come first.old)
        (B.to_come second.old) (O.written out.old) (O.written out.new) (E.written err.old)
        (E.written err.new)) }
    ensures refused { IfErr result
        (IfInput (IsNotForEngines given_is.Fitted choice (A.to_come first.old))) }
    ensures ends { Ends result (Used A.failures first.old first.new)
        (Used B.failures second.old second.new) (Used O.failures out.old out.new)
        (Used E.failures err.old err.new) }
{
    let lifted = lift_from_form_fitted(alloc, named, choice, first, second, out, watch)?;
    let count = lifted.circuit.bads().len();
    let subject = Subject::Model(Lines::Whole(&lifted.model));
    tell_form_judgement(
        alloc,
        named,
        subject,
        &lifted.judgement,
        &lifted.firsts,
        choice,
        count,
        err,
    )
}
