//! The commands on models, but for those that lift and dump.

ghost use Rattle.std.specs.Prelude.{◌≡◌, ◌++◌, ℕ, false, List, Option, IfOk, IfErr, OnOk, option_map};
ghost use Rattle.std.specs.Io.KnownBytes.{Appends};
ghost use Rattle.std.specs.String.{string_bytes};
ghost use Rattle.btor2text.specs.Spelling.{IsModelOf};
ghost use Rattle.verbs.specs.Asked.{IsNotJudgedWith};
ghost use Rattle.fulltext.specs.Writing.{written_full};
ghost use Rattle.verbs.specs.Fitting.{IsNotFitted, IsNoWholeModel};
ghost use Rattle.verbs.specs.Subjects.{whole_counts};
ghost use Rattle.verbs.specs.Refusals.{IsNoModel, IsNotJudged};
ghost use Rattle.verbs.specs.Statuses.{Ends, EndsUnrefused, IfInput};
ghost use Rattle.verbs.specs.Statuses.Use.{Unused, Used};
ghost use Rattle.subcommands.specs.Asked.{IsJudgedWith};
ghost use Rattle.subcommands.specs.Done.{ShowsModel, ShowsWhole, TellsCost, TellsCostFitted, WritesJudged, cost_lines, counts_line};

use crate::answers::Answer;
use crate::judgements::{answer_told, write_judgement};
use crate::telling::write_result;
use base::{Sink, Source};
use btor2::Model;
use btor2text::write;
use invocation::Order;
use std::alloc::{AllocError, Global};
use verbs::{
    Cost, Counts, Device, Lines, Refusal, Subject, WholeModel, cost_of, cost_of_fitted,
    judge_for_model, judge_over_model, read_model, read_whole_model,
};

/// Judges a witness over a model, and writes the line of its judgement.
pub fn check_model<A: Source, B: Source, O: Sink>(
    alloc: Global,
    first: &mut A,
    second: &mut B,
    out: &mut O,
) -> Result<Answer, Refusal>
    ensures done { IfOk result (WritesJudged (A.to_come first.old) (B.to_come second.old)
        (O.written out.old) (O.written out.new)) }
    ensures refused { IfErr result (IfInput (IsNotJudged (A.to_come first.old))) }
    ensures ends { Ends result (Used A.failures first.old first.new)
        (Used B.failures second.old second.new) (Used O.failures out.old out.new) Unused }
{
    let judgement = judge_over_model(alloc, first, second)?;
    write_judgement(alloc, &judgement, out)
}

/// Judges whether a witness over a model is accepted and claims the bad property that a word asks for, where one does; tells it
/// in a line or as an object; and with names says what the judgement is about.
pub fn check_model_with<A: Source, B: Source, O: Sink, E: Sink>(
    alloc: Global,
    order: &Order<'_>,
    first: &mut A,
    second: &mut B,
    out: &mut O,
    err: &mut E,
) -> Result<Answer, Refusal>
    ensures done { IfOk result (IsJudgedWith order.now.named order.now.as_json
        (option_map (λ word. word.now) order.now.asked) (A.to_come first.old)
        (B.to_come second.old) (O.written out.old) (O.written out.new) (E.written err.old)
        (E.written err.new)) }
    ensures refused { IfErr result
        (IfInput (IsNotJudgedWith (option_map (λ word. word.now) order.now.asked)
        (A.to_come first.old))) }
    ensures quiet { order.now.named ≡ false → err.new ≡ err.old }
    ensures ends { Ends result (Used A.failures first.old first.new)
        (Used B.failures second.old second.new) (Used O.failures out.old out.new)
        (Used E.failures err.old err.new) }
{
    let judged = judge_for_model(alloc, order.asked, first, second)?;
    let subject = Subject::Model(Lines::Profile(&judged.model));
    answer_told(
        alloc,
        order,
        subject,
        &judged.outcome,
        &judged.firsts,
        out,
        err,
    )
}

/// Writes a model that was read in the writer's form, and the line of its counts.
fn write_shown<O: Sink>(alloc: Global, model: &Model, out: &mut O) -> Result<Answer, Refusal>
    ensures done { (known : Option (List ℕ)) → IsModelOf known model.now
        → OnOk result (ShowsModel known (O.written out.old) (O.written out.new)) }
    ensures answer { IfOk result (λ answer. answer ≡ Answer.Done) }
    ensures ends { EndsUnrefused result Unused Unused (Used O.failures out.old out.new) Unused }
{
    // a model's items are well-formed
    let _ = model.items();
    let line = counts_line(alloc, Lines::Profile(model).counts())?;
    match write(model, out) {
        Ok(()) => {}
        Err(_) => return Err(Refusal::Failed(Device::Output)),
    }
    write_result(out, line.as_bytes())?;
    Ok(Answer::Done)
}

/// Writes the model of a text in the writer's form, and the line of its counts.
pub fn show<A: Source, O: Sink>(
    alloc: Global,
    first: &mut A,
    out: &mut O,
) -> Result<Answer, Refusal>
    ensures done { OnOk result (ShowsModel (A.to_come first.old) (O.written out.old)
        (O.written out.new)) }
    ensures answer { IfOk result (λ answer. answer ≡ Answer.Done) }
    ensures refused { IfErr result (IfInput (IsNoModel (A.to_come first.old))) }
    ensures ends { Ends result (Used A.failures first.old first.new) Unused
        (Used O.failures out.old out.new) Unused }
{
    let model = read_model(alloc, first)?;
    write_shown(alloc, &model, out)
}

/// Writes a model of the whole language that was read in the writer's form, and the line of its counts.
fn write_whole<O: Sink>(alloc: Global, model: &WholeModel, out: &mut O) -> Result<Answer, Refusal>
    ensures written { OnOk result (Appends (O.written out.old) (O.written out.new)
        (written_full model.now ++ counts_line (whole_counts model.now))) }
    ensures answer { IfOk result (λ answer. answer ≡ Answer.Done) }
    ensures ends { EndsUnrefused result Unused Unused (Used O.failures out.old out.new) Unused }
{
    let line = counts_line(alloc, Lines::Whole(model).counts())?;
    match fulltext::write(model.model(), out) {
        Ok(()) => {}
        Err(_) => return Err(Refusal::Failed(Device::Output)),
    }
    write_result(out, line.as_bytes())?;
    Ok(Answer::Done)
}

/// Writes the model of the whole language of a text in the writer's form, and the line of its counts.
pub fn show_whole<A: Source, O: Sink>(
    alloc: Global,
    first: &mut A,
    out: &mut O,
) -> Result<Answer, Refusal>
    ensures done { OnOk result (ShowsWhole (A.to_come first.old) (O.written out.old)
        (O.written out.new)) }
    ensures answer { IfOk result (λ answer. answer ≡ Answer.Done) }
    ensures refused { IfErr result (IfInput (IsNoWholeModel (A.to_come first.old))) }
    ensures ends { Ends result (Used A.failures first.old first.new) Unused
        (Used O.failures out.old out.new) Unused }
{
    let model = read_whole_model(alloc, first)?;
    write_whole(alloc, &model, out)
}

/// The line that tells how many items, inputs, states, bad properties and constraints a model has.
fn counts_line(alloc: Global, counts: Counts) -> Result<String, AllocError>
    ensures { IfOk result (λ line. string_bytes line ≡ counts_line counts) }
{
    let Counts {
        lines,
        inputs,
        states,
        bads,
        constraints,
    } = counts;
    format!(in alloc;
        "; {lines} items, {inputs} inputs, {states} states, {bads} bad, {constraints} constraints\n"
    )
}

/// Writes how many gates and variables the lowering of a text's model has at most.
pub fn tell_cost<A: Source, O: Sink>(
    alloc: Global,
    first: &mut A,
    out: &mut O,
) -> Result<Answer, Refusal>
    ensures done { OnOk result (TellsCost (A.to_come first.old) (O.written out.old)
        (O.written out.new)) }
    ensures answer { IfOk result (λ answer. answer ≡ Answer.Done) }
    ensures refused { IfErr result (IfInput (IsNoModel (A.to_come first.old))) }
    ensures ends { Ends result (Used A.failures first.old first.new) Unused
        (Used O.failures out.old out.new) Unused }
{
    let cost = cost_of(alloc, first)?;
    write_cost(alloc, cost, out)
}

/// Writes how many gates and variables the lowering of the model has at most that a text's model is fitted into.
pub fn tell_cost_fitted<A: Source, O: Sink>(
    alloc: Global,
    first: &mut A,
    out: &mut O,
) -> Result<Answer, Refusal>
    ensures done { OnOk result (TellsCostFitted (A.to_come first.old) (O.written out.old)
        (O.written out.new)) }
    ensures answer { IfOk result (λ answer. answer ≡ Answer.Done) }
    ensures refused { IfErr result (IfInput (IsNotFitted (A.to_come first.old))) }
    ensures ends { Ends result (Used A.failures first.old first.new) Unused
        (Used O.failures out.old out.new) Unused }
{
    let cost = cost_of_fitted(alloc, first)?;
    write_cost(alloc, cost, out)
}

/// Writes the lines of a cost.
fn write_cost<O: Sink>(alloc: Global, cost: Cost, out: &mut O) -> Result<Answer, Refusal>
    ensures written { OnOk result (Appends (O.written out.old) (O.written out.new)
        (cost_lines cost)) }
    ensures answer { IfOk result (λ answer. answer ≡ Answer.Done) }
    ensures ends { EndsUnrefused result Unused Unused (Used O.failures out.old out.new) Unused }
{
    let lines = cost_text(alloc, cost)?;
    write_result(out, lines.as_bytes())?;
    Ok(Answer::Done)
}

/// The lines that tell how many gates and variables the lowering of a model has at most.
fn cost_text(alloc: Global, cost: Cost) -> Result<String, AllocError>
    ensures { IfOk result (λ lines. string_bytes lines ≡ cost_lines cost) }
{
    let Cost { gates, variables } = cost;
    format!(in alloc; "gates {gates}\nvariables {variables}\n")
}
