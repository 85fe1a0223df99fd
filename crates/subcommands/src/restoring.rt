//! The commands that restore.

ghost use Rattle.std.specs.Prelude.{◌≡◌, IfOk, IfErr, OnOk};
ghost use Rattle.std.specs.Io.KnownBytes.{Appends};
ghost use Rattle.std.specs.String.{string_bytes};
ghost use Rattle.invocation.specs.declared.tasks.Given.TheVariants as given_is;
ghost use Rattle.verbs.specs.declared.refusals.Claimed.TheVariants as claimed_is;
ghost use Rattle.verbs.specs.Refusals.{IsNotClaimed, IsNotForEngines};
ghost use Rattle.verbs.specs.Statuses.{Ends, EndsUnrefused, IfInput};
ghost use Rattle.verbs.specs.Statuses.Use.{Unused, Used};
ghost use Rattle.subcommands.specs.declared.answers.Answer.TheVariants as answer_is;
ghost use Rattle.subcommands.specs.Restoring.{Restores, RestoresForm, TellsRestored, malformed_line};

use crate::answers::Answer;
use crate::assumed::tell_form_line;
use crate::judgements::tell_line;
use base::{Sink, Source, write_all};
use restore::RestoreFault;
use std::alloc::{AllocError, Global};
use verbs::{Device, Refusal, restore_found, restore_from_form};
use witness::Judgement;

/// The line of the first faulty line of a counterexample.
fn malformed_line(alloc: Global, fault: &RestoreFault) -> Result<String, AllocError>
    ensures { IfOk result (λ line. string_bytes line ≡ malformed_line fault.now) }
{
    let line = fault.line;
    let number = fault.why.number();
    let name = fault.why.name();
    format!(in alloc; "malformed line {line}: {number} {name}\n")
}

/// Tells the first faulty line of a counterexample on standard error.
pub(crate) fn tell_malformed<E: Sink>(
    alloc: Global,
    fault: &RestoreFault,
    err: &mut E,
) -> Result<Answer, Refusal>
    ensures written { OnOk result (Appends (E.written err.old) (E.written err.new)
        (malformed_line fault.now)) }
    ensures answer { IfOk result (λ answer. answer ≡ answer_is.NotAccepted) }
    ensures ends { EndsUnrefused result Unused Unused Unused (Used E.failures err.old err.new) }
{
    let line = malformed_line(alloc, fault)?;
    match write_all(err, line.as_bytes()) {
        Ok(()) => Ok(Answer::NotAccepted),
        Err(_) => Err(Refusal::Failed(Device::Error)),
    }
}

/// Tells what is told of a counterexample that is restored: how it is judged, or its first faulty line.
fn tell_restored<E: Sink>(
    alloc: Global,
    told: &Result<Judgement, RestoreFault>,
    err: &mut E,
) -> Result<Answer, Refusal>
    ensures told { IfOk result
        (λ answer. TellsRestored told.now answer (E.written err.old) (E.written err.new)) }
    ensures ends { EndsUnrefused result Unused Unused Unused (Used E.failures err.old err.new) }
{
    match told {
        Ok(judgement) => tell_line(alloc, judgement, err),
        Err(fault) => tell_malformed(alloc, fault, err),
    }
}

/// Restores a counterexample over the engine form of a circuit to standard output, and tells on standard error how that
/// is judged.
///
/// Its buffers stand in a frame of its own: each command enters that of its caller.
#[inline(never)]
pub fn restore_counterexample<A: Source, B: Source, O: Sink, E: Sink>(
    alloc: Global,
    choice: Option<usize>,
    first: &mut A,
    second: &mut B,
    out: &mut O,
    err: &mut E,
) -> Result<Answer, Refusal>
    ensures done { IfOk result (Restores choice (A.to_come first.old) (B.to_come second.old)
        (O.written out.old) (O.written out.new) (E.written err.old) (E.written err.new)) }
    ensures refused { IfErr result
        (IfInput (IsNotClaimed claimed_is.Found given_is.Circuit choice (A.to_come first.old))) }
    ensures ends { Ends result (Used A.failures first.old first.new)
        (Used B.failures second.old second.new) (Used O.failures out.old out.new)
        (Used E.failures err.old err.new) }
{
    let restored = restore_found(alloc, choice, first, second, out)?;
    tell_restored(alloc, &restored.told, err)
}

/// Restores a witness of the engine form of a circuit to standard output, and tells on standard error how that is judged, and
/// what the form is taken for, where none of several bad properties is chosen.
///
/// Its buffers stand in a frame of its own: each command enters that of its caller.
#[inline(never)]
pub fn restore_witness<A: Source, B: Source, O: Sink, E: Sink>(
    alloc: Global,
    choice: Option<usize>,
    first: &mut A,
    second: &mut B,
    out: &mut O,
    err: &mut E,
) -> Result<Answer, Refusal>
    ensures done { IfOk result (RestoresForm choice (A.to_come first.old) (B.to_come second.old)
        (O.written out.old) (O.written out.new) (E.written err.old) (E.written err.new)) }
    ensures refused { IfErr result
        (IfInput (IsNotForEngines given_is.Circuit choice (A.to_come first.old))) }
    ensures ends { Ends result (Used A.failures first.old first.new)
        (Used B.failures second.old second.new) (Used O.failures out.old out.new)
        (Used E.failures err.old err.new) }
{
    let restored = restore_from_form(alloc, choice, first, second, out)?;
    let count = restored.circuit.bads().len();
    tell_form_line(alloc, &restored.judgement, choice, count, err)
}
