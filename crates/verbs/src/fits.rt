//! Models of the whole language that are fitted and lowered, with what is needed for their witnesses.

ghost use Rattle.std.specs.Prelude.{◌≡◌, List, IfErr, IfOk, None};
ghost use Rattle.full.specs.Lines.{FullLine};
ghost use Rattle.btor2.specs.Lists.{first_init_without_next};
ghost use Rattle.fulltext.specs.Spelling.{StandsForFull};
ghost use Rattle.widetext.specs.Spelling.{StandsForWide};
ghost use Rattle.verbs.specs.Fits.{IsFitOf, IsLoweredFit, UnfitsWith, narrow_in};
ghost use Rattle.verbs.specs.Fitting.{IsFitText, IsNotFit, IsProfileOf};
ghost use Rattle.verbs.specs.Refusals.{IsNotLoweredFitted};
ghost use Rattle.verbs.specs.Statuses.{Ends, IfInput};
ghost use Rattle.verbs.specs.Statuses.Use.{Unused, Used};

use crate::fitted::{read_words, whole_model_of};
use crate::given::lower_model;
use crate::refusals::Refusal;
use crate::unfitting::{Ready, ready_of, unfit_ready};
use crate::whole::{Whole, unfit_whole, whole_of};
use crate::whole_model::WholeModel;
use aiger::Circuit;
use base::{Sink, Source, read_all};
use blast::Watch;
use btor2::Model;
use fullmodel::FullModel;
use std::alloc::Global;
use wide::WideModel;
use witness::Judgement;

/// What is needed for the witnesses of a model that is fitted.
#[derive(Drop)]
pub(crate) enum Fit {
    /// Of one with words alone, each of whose states has a next or is free.
    Words(Ready),
    /// Of one that is written out.
    Whole(Whole),
}

/// A model of the whole language, and the circuit that lowers the model that it is fitted into.
#[derive(Drop)]
pub(crate) struct LoweredFit {
    /// The model's text.
    text: Vec<u8>,
    /// The model.
    pub(crate) model: WholeModel,
    /// What is needed for its witnesses.
    fit: Fit,
    /// The circuit.
    pub(crate) circuit: Circuit,
}

/// The model of the profile that a model is fitted into.
fn narrow_in(fit: &Fit) -> &Model
    ensures { result.now ≡ narrow_in fit.now }
{
    match fit {
        Fit::Words(ready) => &ready.narrow,
        Fit::Whole(whole) => &whole.narrow,
    }
}

/// What is needed for the witnesses of a model with words alone, for which a text stands.
fn fit_by_words(alloc: Global, text: &[u8], wide: WideModel) -> Result<Fit, Refusal>
    requires stands { StandsForWide text.now wide }
    requires ready { first_init_without_next wide wide ≡ None }
    ensures fit { IfOk result (λ fit. (full : List FullLine) → IsFitOf text.now full fit) }
    ensures fitted { IfOk result (λ fit. IsFitText text.now (narrow_in fit)) }
    ensures refused { IfErr result (IfInput (IsNotFit text.now)) }
    ensures ends { Ends result Unused Unused Unused Unused }
{
    fit::laws::bad_properties_rise_alike();
    full::laws::items_as_lines();
    fulltext::laws::wide_texts_are_read();
    match ready_of(alloc, text, wide) {
        Ok(ready) => Ok(Fit::Words(ready)),
        Err(refusal) => Err(refusal),
    }
}

/// What is needed for those of a model that is written out, for which a text stands.
fn fit_by_whole(alloc: Global, text: &[u8], model: &FullModel) -> Result<Fit, Refusal>
    requires not_profile { IsProfileOf text.now None }
    requires stands { StandsForFull text.now model.now }
    ensures fit { IfOk result (IsFitOf text.now model.now) }
    ensures fitted { IfOk result (λ fit. IsFitText text.now (narrow_in fit)) }
    ensures refused { IfErr result (IfInput (IsNotFit text.now)) }
    ensures ends { Ends result Unused Unused Unused Unused }
{
    fit::laws::bad_properties_rise_alike();
    full::laws::bad_properties_rise_alike();
    match whole_of(alloc, model) {
        Ok(whole) => Ok(Fit::Whole(whole)),
        Err(refusal) => Err(refusal),
    }
}

/// What is needed for those of a model for which a text stands.
fn fit_of(alloc: Global, text: &[u8], model: &FullModel) -> Result<Fit, Refusal>
    requires stands { StandsForFull text.now model.now }
    ensures fit { IfOk result (IsFitOf text.now model.now) }
    ensures fitted { IfOk result (λ fit. IsFitText text.now (narrow_in fit)) }
    ensures refused { IfErr result (IfInput (IsNotFit text.now)) }
    ensures ends { Ends result Unused Unused Unused Unused }
{
    widetext::laws::profile_is_read();
    match read_words(alloc, text)? {
        Some(wide) => fit_by_words(alloc, text, wide),
        None => fit_by_whole(alloc, text, model),
    }
}

/// Reads the first text as a model of the whole language, fits it, and lowers that.
pub(crate) fn lower_fit_first<A: Source, W: Watch>(
    alloc: Global,
    first: &mut A,
    watch: &mut W,
) -> Result<LoweredFit, Refusal>
    ensures lowered { IfOk result (IsLoweredFit (A.to_come first.old)) }
    ensures refused { IfErr result (IfInput (IsNotLoweredFitted (A.to_come first.old))) }
    ensures ends { Ends result (Used A.failures first.old first.new) Unused Unused Unused }
{
    let text = read_all(alloc, first)?;
    let model = whole_model_of(alloc, text.as_slice())?;
    let fit = fit_of(alloc, text.as_slice(), model.model())?;
    let circuit = lower_model(alloc, narrow_in(&fit), watch)?;
    Ok(LoweredFit {
        text,
        model,
        fit,
        circuit,
    })
}

impl LoweredFit {
    /// The model of the profile that the model is fitted into.
    pub(crate) fn narrow(&self) -> &Model
        ensures { result.now ≡ narrow_in self.now.fit }
    {
        narrow_in(&self.fit)
    }

    /// Writes the witness of the model, with names or without, that says what one of the fitted model says, and answers what is
    /// judged of it.
    pub(crate) fn unfit<O: Sink>(
        &self,
        alloc: Global,
        named: bool,
        witness: &[u8],
        out: &mut O,
    ) -> Result<Judgement, Refusal>
        requires stands { StandsForFull self.now.text.items self.now.model }
        requires fit { IsFitOf self.now.text.items self.now.model self.now.fit }
        ensures unfitted { IfOk result (UnfitsWith named self.now.text.items self.now.model self.now.fit
            witness.now (O.written out.old) (O.written out.new)) }
        ensures refused { IfErr result (IfInput (λ f. ⊥)) }
        ensures ends { Ends result Unused Unused (Used O.failures out.old out.new) Unused }
    {
        let mut source = witness;
        let text = self.text.as_slice();
        match &self.fit {
            Fit::Words(ready) => unfit_ready(alloc, named, text, ready, &mut source, out),
            Fit::Whole(whole) => {
                unfit_whole(alloc, named, self.model.model(), whole, &mut source, out)
            }
        }
    }
}
