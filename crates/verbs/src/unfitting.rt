//! Witnesses of models with words of any width, by the models of the profile that these are fitted into.

ghost use Rattle.std.specs.Prelude.{◌≡◌, ◌⊎◌, IfOk, IfErr, None, Some};
ghost use Rattle.btor2.specs.Lists.{first_init_without_next};
ghost use Rattle.fitting.specs.Models.{HaveForms, IsFit};
ghost use Rattle.widetext.specs.Spelling.{StandsForWide};
ghost use Rattle.verbs.specs.Unfitting.{IsJudgedWide, IsKnown, IsReadyFor, IsSpreadWide, IsUnfitAlone, IsUnfittedWide};
ghost use Rattle.verbs.specs.Fitting.{IsNotFit, IsNotFitted, IsProfileOf};
ghost use Rattle.verbs.specs.Statuses.{Ends, IfInput};
ghost use Rattle.verbs.specs.Whole.{IsJudgedFitted, IsJudgedWhole, IsSpread, IsSpreadWhole, IsUnfitted, IsUnfittedWhole};
ghost use Rattle.verbs.specs.Statuses.Use.{Unused, Used};

use crate::fitted::{read_profile, read_whole, read_words};
use crate::refusals::Refusal;
use crate::whole::{judge_whole, spread_whole, unfit_whole, whole_of};
use base::{Sink, Source, read_all};
use btor2::Model;
use rejoin::Shape;
use std::alloc::Global;
use unfit::Names;
use wide::WideModel;
use witness::Judgement;

/// What is known of a model with words of any width.
#[derive(Drop)]
pub(crate) struct Known {
    /// What a witness needs to know of it.
    shape: Shape,
    /// The names of its states and inputs.
    names: Names,
}

/// What is needed of a model with words of any width for its witnesses.
#[derive(Drop)]
pub(crate) struct Ready {
    /// What is known of it.
    known: Known,
    /// The model of the profile that it is fitted into.
    pub(crate) narrow: Model,
}

/// What is known of a model.
fn known_of(alloc: Global, wide: &WideModel) -> Result<Known, Refusal>
    ensures known { IfOk result (IsKnown wide.now) }
    ensures memory { IfErr result (λ refusal. refusal ≡ Refusal.NoMemory) }
{
    let shape = Shape::new(alloc, wide)?;
    let names = Names::new(alloc, wide)?;
    Ok(Known { shape, names })
}

/// The model of the profile that a model is fitted into, for which a text stands: that model itself, where it is one.
fn narrow_of(alloc: Global, text: &[u8], wide: WideModel) -> Result<Model, Refusal>
    requires stands { StandsForWide text.now wide }
    ensures fit { IfOk result (IsFit wide) }
    ensures forms { IfOk result (λ narrow. HaveForms wide ⊎ (narrow ≡ wide)) }
    ensures refused { IfErr result (IfInput (IsUnfitAlone text.now)) }
    ensures ends { Ends result Unused Unused Unused Unused }
{
    fitting::laws::profile_is_fitted();
    widetext::laws::profile_is_read();
    widetext::laws::texts_are_read();
    match read_profile(alloc, text)? {
        Some(model) => Ok(model),
        None => Ok(fitting::fit(alloc, wide)?),
    }
}

/// What is needed of a model each of whose states has a next or is free, for which a text stands.
pub(crate) fn ready_of(alloc: Global, text: &[u8], wide: WideModel) -> Result<Ready, Refusal>
    requires stands { StandsForWide text.now wide }
    requires ready { first_init_without_next wide wide ≡ None }
    ensures ready { IfOk result (IsReadyFor text.now) }
    ensures refused { IfErr result (IfInput (IsUnfitAlone text.now)) }
    ensures ends { Ends result Unused Unused Unused Unused }
{
    let known = known_of(alloc, &wide)?;
    let narrow = narrow_of(alloc, text, wide)?;
    Ok(Ready { known, narrow })
}

/// Judges a witness over the model with words of any width of a text.
fn judge_ready<B: Source>(
    alloc: Global,
    text: &[u8],
    ready: &Ready,
    second: &mut B,
) -> Result<Judgement, Refusal>
    requires ready { IsReadyFor text.now ready.now }
    ensures judged { IfOk result (IsJudgedWide (Some text.now) (B.to_come second.old)) }
    ensures refused { IfErr result (IfInput (λ f. ⊥)) }
    ensures ends { Ends result Unused (Used B.failures second.old second.new) Unused Unused }
{
    match spread::judge_spread(alloc, &ready.known.shape, &ready.narrow, second) {
        Ok(judgement) => Ok(judgement),
        Err(fault) => Err(Refusal::from(fault)),
    }
}

/// Judges a witness over the model with words of any width for which a text stands.
fn judge_by_words<B: Source>(
    alloc: Global,
    text: &[u8],
    wide: WideModel,
    second: &mut B,
) -> Result<Judgement, Refusal>
    requires stands { StandsForWide text.now wide }
    requires ready { first_init_without_next wide wide ≡ None }
    ensures judged { IfOk result (IsJudgedWide (Some text.now) (B.to_come second.old)) }
    ensures refused { IfErr result (IfInput (IsNotFit text.now)) }
    ensures ends { Ends result Unused (Used B.failures second.old second.new) Unused Unused }
{
    let ready = ready_of(alloc, text, wide)?;
    judge_ready(alloc, text, &ready, second)
}

/// Judges a witness over the model of the whole language of a text.
fn judge_by_whole<B: Source>(
    alloc: Global,
    text: &[u8],
    second: &mut B,
) -> Result<Judgement, Refusal>
    requires not_profile { IsProfileOf text.now None }
    ensures judged { IfOk result (IsJudgedWhole (Some text.now) (B.to_come second.old)) }
    ensures refused { IfErr result (IfInput (IsNotFit text.now)) }
    ensures ends { Ends result Unused (Used B.failures second.old second.new) Unused Unused }
{
    let model = read_whole(alloc, text)?;
    let whole = whole_of(alloc, &model)?;
    judge_whole(alloc, &model, &whole, second)
}

/// Judges a witness over the model of a text.
fn judge_over_text<B: Source>(
    alloc: Global,
    text: &[u8],
    second: &mut B,
) -> Result<Judgement, Refusal>
    ensures judged { IfOk result (IsJudgedFitted (Some text.now) (B.to_come second.old)) }
    ensures refused { IfErr result (IfInput (IsNotFit text.now)) }
    ensures ends { Ends result Unused (Used B.failures second.old second.new) Unused Unused }
{
    widetext::laws::profile_is_read();
    match read_words(alloc, text)? {
        Some(wide) => judge_by_words(alloc, text, wide, second),
        None => judge_by_whole(alloc, text, second),
    }
}

/// Judges the second text, a witness, over the model of the first: over one of the whole language where it is none with words
/// alone each of whose states has a next or is free.
pub fn judge_fitted<A: Source, B: Source>(
    alloc: Global,
    first: &mut A,
    second: &mut B,
) -> Result<Judgement, Refusal>
    ensures judged { IfOk result (IsJudgedFitted (A.to_come first.old) (B.to_come second.old)) }
    ensures refused { IfErr result (IfInput (IsNotFitted (A.to_come first.old))) }
    ensures ends { Ends result (Used A.failures first.old first.new)
        (Used B.failures second.old second.new) Unused Unused }
{
    let text = read_all(alloc, first)?;
    judge_over_text(alloc, text.as_slice(), second)
}

/// Judges a witness over the model with words of any width of a text, and writes the witness of the model that this is fitted into
/// that says the same.
fn spread_ready<B: Source, O: Sink>(
    alloc: Global,
    text: &[u8],
    ready: &Ready,
    second: &mut B,
    out: &mut O,
) -> Result<Judgement, Refusal>
    requires ready { IsReadyFor text.now ready.now }
    ensures spread { IfOk result (IsSpreadWide (Some text.now) (B.to_come second.old)
        (O.written out.old) (O.written out.new)) }
    ensures refused { IfErr result (IfInput (λ f. ⊥)) }
    ensures ends { Ends result Unused (Used B.failures second.old second.new)
        (Used O.failures out.old out.new) Unused }
{
    match spread::spread(alloc, &ready.known.shape, &ready.narrow, second, out) {
        Ok(judgement) => Ok(judgement),
        Err(fault) => Err(Refusal::from(fault)),
    }
}

/// The same over the model with words of any width for which a text stands.
fn spread_by_words<B: Source, O: Sink>(
    alloc: Global,
    text: &[u8],
    wide: WideModel,
    second: &mut B,
    out: &mut O,
) -> Result<Judgement, Refusal>
    requires stands { StandsForWide text.now wide }
    requires ready { first_init_without_next wide wide ≡ None }
    ensures spread { IfOk result (IsSpreadWide (Some text.now) (B.to_come second.old)
        (O.written out.old) (O.written out.new)) }
    ensures refused { IfErr result (IfInput (IsNotFit text.now)) }
    ensures ends { Ends result Unused (Used B.failures second.old second.new)
        (Used O.failures out.old out.new) Unused }
{
    let ready = ready_of(alloc, text, wide)?;
    spread_ready(alloc, text, &ready, second, out)
}

/// The same over the model of the whole language of a text.
fn spread_by_whole<B: Source, O: Sink>(
    alloc: Global,
    text: &[u8],
    second: &mut B,
    out: &mut O,
) -> Result<Judgement, Refusal>
    requires not_profile { IsProfileOf text.now None }
    ensures spread { IfOk result (IsSpreadWhole (Some text.now) (B.to_come second.old)
        (O.written out.old) (O.written out.new)) }
    ensures refused { IfErr result (IfInput (IsNotFit text.now)) }
    ensures ends { Ends result Unused (Used B.failures second.old second.new)
        (Used O.failures out.old out.new) Unused }
{
    let model = read_whole(alloc, text)?;
    let whole = whole_of(alloc, &model)?;
    spread_whole(alloc, &model, &whole, second, out)
}

/// The same over the model of a text.
fn spread_over_text<B: Source, O: Sink>(
    alloc: Global,
    text: &[u8],
    second: &mut B,
    out: &mut O,
) -> Result<Judgement, Refusal>
    ensures spread { IfOk result (IsSpread (Some text.now) (B.to_come second.old)
        (O.written out.old) (O.written out.new)) }
    ensures refused { IfErr result (IfInput (IsNotFit text.now)) }
    ensures ends { Ends result Unused (Used B.failures second.old second.new)
        (Used O.failures out.old out.new) Unused }
{
    widetext::laws::profile_is_read();
    match read_words(alloc, text)? {
        Some(wide) => spread_by_words(alloc, text, wide, second, out),
        None => spread_by_whole(alloc, text, second, out),
    }
}

/// Judges the second text, a witness, over the model of the first, as `judge_fitted` does, and writes the witness of the model that
/// this is fitted into that says the same.
pub fn spread<A: Source, B: Source, O: Sink>(
    alloc: Global,
    first: &mut A,
    second: &mut B,
    out: &mut O,
) -> Result<Judgement, Refusal>
    ensures spread { IfOk result (IsSpread (A.to_come first.old) (B.to_come second.old)
        (O.written out.old) (O.written out.new)) }
    ensures refused { IfErr result (IfInput (IsNotFitted (A.to_come first.old))) }
    ensures ends { Ends result (Used A.failures first.old first.new)
        (Used B.failures second.old second.new) (Used O.failures out.old out.new) Unused }
{
    let text = read_all(alloc, first)?;
    spread_over_text(alloc, text.as_slice(), second, out)
}

/// Writes the witness of the model with words of any width of a text, with names or without, that says what a witness says of the
/// model that it is fitted into, and answers what is judged of it.
pub(crate) fn unfit_ready<B: Source, O: Sink>(
    alloc: Global,
    named: bool,
    text: &[u8],
    ready: &Ready,
    second: &mut B,
    out: &mut O,
) -> Result<Judgement, Refusal>
    requires ready { IsReadyFor text.now ready.now }
    ensures unfitted { IfOk result (λ judgement. (unfitted : IsUnfittedWide named (Some text.now)
        (B.to_come second.old) (O.written out.old) (O.written out.new) judgement)
        × (unfitted.narrow ≡ ready.now.narrow)) }
    ensures refused { IfErr result (IfInput (λ f. ⊥)) }
    ensures ends { Ends result Unused (Used B.failures second.old second.new)
        (Used O.failures out.old out.new) Unused }
{
    match unfit::unfit(
        alloc,
        &ready.known.shape,
        &ready.known.names,
        &ready.narrow,
        named,
        second,
        out,
    ) {
        Ok(judgement) => Ok(judgement),
        Err(fault) => Err(Refusal::from(fault)),
    }
}

/// The same over the model with words of any width for which a text stands.
fn unfit_by_words<B: Source, O: Sink>(
    alloc: Global,
    named: bool,
    text: &[u8],
    wide: WideModel,
    second: &mut B,
    out: &mut O,
) -> Result<Judgement, Refusal>
    requires stands { StandsForWide text.now wide }
    requires ready { first_init_without_next wide wide ≡ None }
    ensures unfitted { IfOk result (IsUnfittedWide named (Some text.now) (B.to_come second.old)
        (O.written out.old) (O.written out.new)) }
    ensures refused { IfErr result (IfInput (IsNotFit text.now)) }
    ensures ends { Ends result Unused (Used B.failures second.old second.new)
        (Used O.failures out.old out.new) Unused }
{
    let ready = ready_of(alloc, text, wide)?;
    unfit_ready(alloc, named, text, &ready, second, out)
}

/// The same over the model of the whole language of a text.
fn unfit_by_whole<B: Source, O: Sink>(
    alloc: Global,
    named: bool,
    text: &[u8],
    second: &mut B,
    out: &mut O,
) -> Result<Judgement, Refusal>
    requires not_profile { IsProfileOf text.now None }
    ensures unfitted { IfOk result (IsUnfittedWhole named (Some text.now) (B.to_come second.old)
        (O.written out.old) (O.written out.new)) }
    ensures refused { IfErr result (IfInput (IsNotFit text.now)) }
    ensures ends { Ends result Unused (Used B.failures second.old second.new)
        (Used O.failures out.old out.new) Unused }
{
    let model = read_whole(alloc, text)?;
    let whole = whole_of(alloc, &model)?;
    unfit_whole(alloc, named, &model, &whole, second, out)
}

/// The same over the model of a text.
fn unfit_over_text<B: Source, O: Sink>(
    alloc: Global,
    named: bool,
    text: &[u8],
    second: &mut B,
    out: &mut O,
) -> Result<Judgement, Refusal>
    ensures unfitted { IfOk result (IsUnfitted named (Some text.now) (B.to_come second.old)
        (O.written out.old) (O.written out.new)) }
    ensures refused { IfErr result (IfInput (IsNotFit text.now)) }
    ensures ends { Ends result Unused (Used B.failures second.old second.new)
        (Used O.failures out.old out.new) Unused }
{
    widetext::laws::profile_is_read();
    match read_words(alloc, text)? {
        Some(wide) => unfit_by_words(alloc, named, text, wide, second, out),
        None => unfit_by_whole(alloc, named, text, second, out),
    }
}

/// Writes the witness of the model of the first text, with names or without, that says what the second says of the model that it is
/// fitted into, and answers what is judged of it.
pub fn unfit<A: Source, B: Source, O: Sink>(
    alloc: Global,
    named: bool,
    first: &mut A,
    second: &mut B,
    out: &mut O,
) -> Result<Judgement, Refusal>
    ensures unfitted { IfOk result (IsUnfitted named (A.to_come first.old) (B.to_come second.old)
        (O.written out.old) (O.written out.new)) }
    ensures refused { IfErr result (IfInput (IsNotFitted (A.to_come first.old))) }
    ensures ends { Ends result (Used A.failures first.old first.new)
        (Used B.failures second.old second.new) (Used O.failures out.old out.new) Unused }
{
    let text = read_all(alloc, first)?;
    unfit_over_text(alloc, named, text.as_slice(), second, out)
}
