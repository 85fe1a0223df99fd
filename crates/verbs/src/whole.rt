//! Witnesses of models of the whole language, by the models of the profile that these are fitted into.

ghost use Rattle.std.specs.Prelude.{◌≡◌, ◌++◌, IfErr, IfOk, IfSome, OnOk};
ghost use Rattle.fitting.specs.Models.{HaveForms};
ghost use Rattle.fulljudge.specs.Rises.{JudgesFullWithRises};
ghost use Rattle.spread.specs.Spread.{IsShort};
ghost use Rattle.celled.specs.Written.{HasNodes, IsWrittenInCells};
ghost use Rattle.verbs.specs.Statuses.{Ends, IfInput};
ghost use Rattle.verbs.specs.Statuses.Use.{Unused, Used};
ghost use Rattle.verbs.specs.Whole.{IsJudgedByWhole, IsNotWhole, IsPlacedOf, IsSpreadByWhole, IsUnfittedByWhole, IsWholeOf};

use crate::fitted::{refusal_of_written, written_in_cells};
use crate::refusals::Refusal;
use base::{Sink, Source};
use btor2::Model;
use celled::Celled;
use fitting::{Fitted, fit_with_places};
use fulljudge::{StateWords, Values, judge_full, judge_full_with_rises, spread_full};
use fullmodel::FullModel;
use fullunfit::{names_of, unfit_full};
use rejoin::Shape;
use rises::FirstRises;
use std::alloc::Global;
use witness::Judgement;

/// What is needed of a model of the whole language for its witnesses.
#[derive(Drop)]
pub(crate) struct Whole {
    /// The sorts of its states.
    states: Values,
    /// Those of its inputs.
    inputs: Values,
    /// Where the words of its states stand.
    words: StateWords,
    /// What a witness needs to know of the list that it is written out as, with a leaf for each cell of an array.
    shape: Shape,
    /// The model of the profile that this is fitted into.
    pub(crate) narrow: Model,
}

/// The nodes with the words of states, those of their leaves first.
fn state_nodes(alloc: Global, celled: &Celled) -> Result<Vec<u32>, Refusal>
    ensures nodes { IfOk result (λ nodes. nodes.items ≡ celled.now.leaves.items ++ celled.now.nodes.items) }
    ensures memory { IfErr result (λ refusal. refusal ≡ Refusal.NoMemory) }
{
    let mut nodes = Vec::new(alloc);
    nodes.extend_from_slice(celled.leaves.as_slice())?;
    nodes.extend_from_slice(celled.nodes.as_slice())?;
    Ok(nodes)
}

/// The model of the profile that a list is fitted into that a model was written out as, and where the nodes with the words of its
/// states stand in it.
fn placed(alloc: Global, model: &FullModel, celled: Celled) -> Result<(Model, StateWords), Refusal>
    requires written { (w : IsWrittenInCells model.now celled.list) × HasNodes model.now celled.list w celled.leaves.items celled.nodes.items }
    ensures placed { IfOk result (λ r. (w : IsWrittenInCells model.now celled.list) → HasNodes model.now celled.list w celled.leaves.items celled.nodes.items
        → IsPlacedOf model.now celled.list w r.0 r.1) }
    ensures forms { OnOk result (HaveForms celled.list) }
    ensures refused { IfErr result (IfInput (IsNotWhole model.now)) }
    ensures ends { Ends result Unused Unused Unused Unused }
{
    let nodes = state_nodes(alloc, &celled)?;
    match fit_with_places(alloc, celled.list, nodes.as_slice()) {
        Ok(fitted) => Ok((
            fitted.model,
            StateWords {
                leaves: celled.leaves,
                nodes: celled.nodes,
                places: fitted.places,
            },
        )),
        Err(fault) => Err(refusal_of_written(fault)),
    }
}

/// What is needed of a model.
pub(crate) fn whole_of(alloc: Global, model: &FullModel) -> Result<Whole, Refusal>
    ensures whole { IfOk result (IsWholeOf model.now) }
    ensures refused { IfErr result (IfInput (IsNotWhole model.now)) }
    ensures ends { Ends result Unused Unused Unused Unused }
{
    let celled = written_in_cells(alloc, model)?;
    let shape = Shape::new(alloc, &celled.list)?;
    let states = Values::of_states(alloc, model)?;
    let inputs = Values::of_inputs(alloc, model)?;
    let (narrow, words) = placed(alloc, model, celled)?;
    Ok(Whole {
        states,
        inputs,
        words,
        shape,
        narrow,
    })
}

/// Judges a witness over a model.
pub(crate) fn judge_whole<B: Source>(
    alloc: Global,
    model: &FullModel,
    whole: &Whole,
    second: &mut B,
) -> Result<Judgement, Refusal>
    requires whole { IsWholeOf model.now whole.now }
    ensures judged { IfOk result (IsJudgedByWhole model.now (B.to_come second.old)) }
    ensures refused { IfErr result (IfInput (λ f. ⊥)) }
    ensures ends { Ends result Unused (Used B.failures second.old second.new) Unused Unused }
{
    fulljudge::laws::cells_are_words();
    match judge_full(
        alloc,
        &whole.states,
        &whole.inputs,
        &whole.words,
        &whole.shape,
        &whole.narrow,
        second,
    ) {
        Ok(judgement) => Ok(judgement),
        Err(fault) => Err(Refusal::from(fault)),
    }
}

/// The same, with in which frames the claims of an acceptance are reached first.
pub(crate) fn judge_whole_with_rises<B: Source>(
    alloc: Global,
    model: &FullModel,
    whole: &Whole,
    second: &mut B,
) -> Result<(Judgement, FirstRises), Refusal>
    requires whole { IsWholeOf model.now whole.now }
    ensures judged { IfOk result (λ told. IfSome (B.to_come second.old)
        (λ text. IsShort text → JudgesFullWithRises model.now text told.0 told.1)) }
    ensures refused { IfErr result (IfInput (λ f. ⊥)) }
    ensures ends { Ends result Unused (Used B.failures second.old second.new) Unused Unused }
{
    fulljudge::laws::cells_are_words();
    match judge_full_with_rises(
        alloc,
        &whole.states,
        &whole.inputs,
        &whole.words,
        &whole.shape,
        &whole.narrow,
        second,
    ) {
        Ok(told) => Ok(told),
        Err(fault) => Err(Refusal::from(fault)),
    }
}

/// Judges a witness over a model, and writes the witness of the model that it is fitted into that says the same.
pub(crate) fn spread_whole<B: Source, O: Sink>(
    alloc: Global,
    model: &FullModel,
    whole: &Whole,
    second: &mut B,
    out: &mut O,
) -> Result<Judgement, Refusal>
    requires whole { IsWholeOf model.now whole.now }
    ensures spread { IfOk result (IsSpreadByWhole model.now (B.to_come second.old)
        (O.written out.old) (O.written out.new)) }
    ensures refused { IfErr result (IfInput (λ f. ⊥)) }
    ensures ends { Ends result Unused (Used B.failures second.old second.new)
        (Used O.failures out.old out.new) Unused }
{
    fulljudge::laws::cells_are_words();
    match spread_full(
        alloc,
        &whole.states,
        &whole.inputs,
        &whole.words,
        &whole.shape,
        &whole.narrow,
        second,
        out,
    ) {
        Ok(judgement) => Ok(judgement),
        Err(fault) => Err(Refusal::from(fault)),
    }
}

/// Writes the witness of a model that says what a witness says of the model that it is fitted into, with names or without, and
/// answers what is judged of it.
pub(crate) fn unfit_whole<B: Source, O: Sink>(
    alloc: Global,
    named: bool,
    model: &FullModel,
    whole: &Whole,
    second: &mut B,
    out: &mut O,
) -> Result<Judgement, Refusal>
    requires whole { IsWholeOf model.now whole.now }
    ensures unfitted { IfOk result (λ judgement. (unfitted : IsUnfittedByWhole named model.now
        (B.to_come second.old) (O.written out.old) (O.written out.new) judgement)
        × (unfitted.narrow ≡ whole.now.narrow)) }
    ensures refused { IfErr result (IfInput (λ f. ⊥)) }
    ensures ends { Ends result Unused (Used B.failures second.old second.new)
        (Used O.failures out.old out.new) Unused }
{
    fulljudge::laws::cells_are_words();
    let names = names_of(alloc, model)?;
    match unfit_full(
        alloc,
        &whole.states,
        &whole.inputs,
        &whole.words,
        &names,
        &whole.shape,
        &whole.narrow,
        named,
        second,
        out,
    ) {
        Ok(judgement) => Ok(judgement),
        Err(fault) => Err(Refusal::from(fault)),
    }
}
