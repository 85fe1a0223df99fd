//! The commands on witnesses of fitted models.

ghost use Rattle.std.specs.Prelude.{◌≡◌, false, IfOk, IfErr, option_map};
ghost use Rattle.subcommands.specs.Asked.{IsJudgedFittedWith};
ghost use Rattle.subcommands.specs.Fitted.{Spreads, Unfits, WritesJudgedFitted};
ghost use Rattle.verbs.specs.Statuses.{Ends, IfInput};
ghost use Rattle.verbs.specs.Statuses.Use.{Unused, Used};
ghost use Rattle.verbs.specs.Asked.{IsNotFittedWith};
ghost use Rattle.verbs.specs.Fitting.{IsNotFitted};

use crate::answers::Answer;
use crate::judgements::{answer_told, tell_line, write_judgement};
use base::{Sink, Source};
use invocation::Order;
use std::alloc::Global;
use verbs::{Refusal, Subject, judge_fitted, judge_fitted_for, spread, unfit};

/// Judges a witness over a model of the whole language, and writes the line of its judgement.
pub fn check_fitted<A: Source, B: Source, O: Sink>(
    alloc: Global,
    first: &mut A,
    second: &mut B,
    out: &mut O,
) -> Result<Answer, Refusal>
    ensures done { IfOk result (WritesJudgedFitted (A.to_come first.old) (B.to_come second.old)
        (O.written out.old) (O.written out.new)) }
    ensures refused { IfErr result (IfInput (IsNotFitted (A.to_come first.old))) }
    ensures ends { Ends result (Used A.failures first.old first.new)
        (Used B.failures second.old second.new) (Used O.failures out.old out.new) Unused }
{
    let judgement = judge_fitted(alloc, first, second)?;
    write_judgement(alloc, &judgement, out)
}

/// Judges whether a witness over a model of the whole language is accepted and claims the bad property that a word asks for, where one
/// does; tells it in a line or as an object; and with names says what the judgement is about.
pub fn check_fitted_with<A: Source, B: Source, O: Sink, E: Sink>(
    alloc: Global,
    order: &Order<'_>,
    first: &mut A,
    second: &mut B,
    out: &mut O,
    err: &mut E,
) -> Result<Answer, Refusal>
    ensures done { IfOk result (IsJudgedFittedWith order.now.named order.now.as_json
        (option_map (λ word. word.now) order.now.asked) (A.to_come first.old)
        (B.to_come second.old) (O.written out.old) (O.written out.new) (E.written err.old)
        (E.written err.new)) }
    ensures refused { IfErr result
        (IfInput (IsNotFittedWith (option_map (λ word. word.now) order.now.asked)
        (A.to_come first.old))) }
    ensures quiet { order.now.named ≡ false → err.new ≡ err.old }
    ensures ends { Ends result (Used A.failures first.old first.new)
        (Used B.failures second.old second.new) (Used O.failures out.old out.new)
        (Used E.failures err.old err.new) }
{
    let judged = judge_fitted_for(alloc, order.asked, first, second)?;
    let subject = Subject::Model(judged.model.lines());
    answer_told(
        alloc,
        order,
        subject,
        &judged.outcome,
        &judged.firsts,
        out,
        err,
    )
}

/// Writes to standard output the witness of a model of the whole language, with names or without, that says what one of the fitted
/// model says, and tells its judgement on standard error.
pub fn unfit_witness<A: Source, B: Source, O: Sink, E: Sink>(
    alloc: Global,
    named: bool,
    first: &mut A,
    second: &mut B,
    out: &mut O,
    err: &mut E,
) -> Result<Answer, Refusal>
    ensures done { IfOk result (Unfits named (A.to_come first.old) (B.to_come second.old)
        (O.written out.old) (O.written out.new) (E.written err.old) (E.written err.new)) }
    ensures refused { IfErr result (IfInput (IsNotFitted (A.to_come first.old))) }
    ensures ends { Ends result (Used A.failures first.old first.new)
        (Used B.failures second.old second.new) (Used O.failures out.old out.new)
        (Used E.failures err.old err.new) }
{
    let judgement = unfit(alloc, named, first, second, out)?;
    tell_line(alloc, &judgement, err)
}

/// Writes to standard output the witness of the fitted model that says what one of a model of the whole language says, and tells
/// its judgement on standard error.
pub fn spread_witness<A: Source, B: Source, O: Sink, E: Sink>(
    alloc: Global,
    first: &mut A,
    second: &mut B,
    out: &mut O,
    err: &mut E,
) -> Result<Answer, Refusal>
    ensures done { IfOk result (Spreads (A.to_come first.old) (B.to_come second.old)
        (O.written out.old) (O.written out.new) (E.written err.old) (E.written err.new)) }
    ensures refused { IfErr result (IfInput (IsNotFitted (A.to_come first.old))) }
    ensures ends { Ends result (Used A.failures first.old first.new)
        (Used B.failures second.old second.new) (Used O.failures out.old out.new)
        (Used E.failures err.old err.new) }
{
    let judgement = spread(alloc, first, second, out)?;
    tell_line(alloc, &judgement, err)
}
