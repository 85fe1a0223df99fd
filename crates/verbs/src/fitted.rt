//! Fitting models of the whole language into models of the profile.

ghost use Rattle.std.specs.Prelude.{◌≡◌, ◌≢◌, None, IfOk, IfErr, MatchOption, OnOk, Some};
ghost use Rattle.btor2.specs.Lists.{first_init_without_next};
ghost use Rattle.celled.specs.Written.{HasNodes, IsWrittenInCells};
ghost use Rattle.fulltext.specs.Spelling.{StandsForFull};
ghost use Rattle.widetext.specs.Spelling.{StandsForWide};
ghost use Rattle.verbs.specs.Conversions.{of_fitting_written};
ghost use Rattle.verbs.specs.Fitting.{FitsFirst, FitsWhole, IsFitText, IsKept, IsNoWholeModel, IsNotFit, IsNotFitted, IsOfWords, IsProfileOf, IsWritingFault, WritesFitting};
ghost use Rattle.verbs.specs.Statuses.{Ends, IfInput};
ghost use Rattle.verbs.specs.Statuses.Use.{Unused, Used};

use crate::refusals::{Device, Fault, Refusal};
use crate::whole_model::WholeModel;
use base::{Sink, Source, read_all};
use btor2::Model;
use btor2text::{Why, write};
use celled::{Celled, write_out, write_out_with_words};
use fitting::FitFault;
use fullmodel::FullModel;
use rejoin::first_init_without_next;
use std::alloc::Global;
use wide::WideModel;
use writeout::WriteFault;

/// The model of the profile that a text stands for, where there is one each of whose states has a next or is free.
pub(crate) fn read_profile(alloc: Global, text: &[u8]) -> Result<Option<Model>, Refusal>
    ensures read { IfOk result (IsProfileOf text.now) }
    ensures memory { IfErr result (λ refusal. refusal ≡ Refusal.NoMemory) }
{
    btor2text::laws::one_model();
    let mut source = text;
    match btor2text::read(alloc, &mut source) {
        Ok(model) => Ok(where_ready(model)),
        Err(fault) => match fault.why {
            Why::NoMemory => Err(Refusal::NoMemory),
            _ => Ok(None),
        },
    }
}

/// A model each of whose states has a next or is free; none otherwise.
fn where_ready(model: Model) -> Option<Model>
    ensures { MatchOption result (first_init_without_next model model ≢ None)
        (λ m. (m ≡ model) × (first_init_without_next model model ≡ None)) }
{
    match model.first_init_without_next() {
        Some(_) => None,
        None => Some(model),
    }
}

/// The same of a model with words of any width.
fn where_wide_ready(wide: WideModel) -> Option<WideModel>
    ensures { MatchOption result (first_init_without_next wide wide ≢ None)
        (λ m. (m ≡ wide) × (first_init_without_next wide wide ≡ None)) }
{
    match first_init_without_next(&wide) {
        Some(_) => None,
        None => Some(wide),
    }
}

/// The model with words of any width that a text stands for, where there is one each of whose states has a next or is free.
pub(crate) fn read_words(alloc: Global, text: &[u8]) -> Result<Option<WideModel>, Refusal>
    ensures read { IfOk result (IsOfWords text.now) }
    ensures memory { IfErr result (λ refusal. refusal ≡ Refusal.NoMemory) }
{
    widetext::laws::texts_are_read();
    match widetext::read(alloc, text) {
        Ok(wide) => Ok(where_wide_ready(wide)),
        Err(fault) => match fault.why {
            // of a text that is held no device fails
            Why::NoMemory | Why::Device => Err(Refusal::NoMemory),
            _ => Ok(None),
        },
    }
}

/// The model that a model with words of any width is fitted into, for which a text stands.
fn fit_words(alloc: Global, text: &[u8], wide: WideModel) -> Result<Model, Refusal>
    requires not_profile { IsProfileOf text.now None }
    requires stands { StandsForWide text.now wide }
    requires ready { first_init_without_next wide wide ≡ None }
    ensures fitted { IfOk result (IsFitText text.now) }
    ensures refused { IfErr result (IfInput (IsNotFit text.now)) }
    ensures ends { Ends result Unused Unused Unused Unused }
{
    fit::laws::bad_properties_rise_alike();
    full::laws::items_as_lines();
    fulltext::laws::wide_texts_are_read();
    let narrow = fitting::fit(alloc, wide)?;
    Ok(narrow)
}

/// The model of the whole language that a text stands for.
pub(crate) fn read_whole(alloc: Global, text: &[u8]) -> Result<FullModel, Refusal>
    ensures stands { IfOk result (StandsForFull text.now) }
    ensures refused { IfErr result (IfInput (IsNotFit text.now)) }
    ensures no_model { IfErr result (IfInput (IsNoWholeModel (Some text.now))) }
    ensures ends { Ends result Unused Unused Unused Unused }
{
    match fulltext::read(alloc, text) {
        Ok(model) => Ok(model),
        Err(fault) => match fault.why {
            Why::NoMemory => Err(Refusal::NoMemory),
            _ => Err(Refusal::Input(Fault::Model(fault))),
        },
    }
}

/// The list of words that a model of the whole language is written out as, with a leaf for each cell of an array, and the nodes
/// with the words of the model's states.
pub(crate) fn written_in_cells(alloc: Global, model: &FullModel) -> Result<Celled, Refusal>
    ensures written { IfOk result (λ c. (w : IsWrittenInCells model.now c.list) × HasNodes model.now c.list w c.leaves.items c.nodes.items) }
    ensures refused { IfErr result (IfInput (IsWritingFault model.now)) }
    ensures ends { Ends result Unused Unused Unused Unused }
{
    match write_out_with_words(alloc, model) {
        Ok(celled) => Ok(celled),
        Err(WriteFault::NoMemory) => Err(Refusal::NoMemory),
        Err(fault) => Err(Refusal::Input(Fault::Writing(fault))),
    }
}

/// The list of words that a model of the whole language is written out as, with a leaf for each cell of an array.
fn written_out(alloc: Global, model: &FullModel) -> Result<WideModel, Refusal>
    ensures written { IfOk result (IsWrittenInCells model.now) }
    ensures refused { IfErr result (IfInput (IsWritingFault model.now)) }
    ensures ends { Ends result Unused Unused Unused Unused }
{
    match write_out(alloc, model) {
        Ok(wide) => Ok(wide),
        Err(WriteFault::NoMemory) => Err(Refusal::NoMemory),
        Err(fault) => Err(Refusal::Input(Fault::Writing(fault))),
    }
}

/// Why a list is not fitted that a model of the whole language was written out as.
pub(crate) fn refusal_of_written(fault: FitFault) -> Refusal
    ensures { result ≡ of_fitting_written fault }
{
    match fault {
        FitFault::NoMemory => Refusal::NoMemory,
        FitFault::TooManyItems(_) => Refusal::Input(Fault::Writing(WriteFault::TooManyItems)),
        fault => Refusal::Input(Fault::Fitting(fault)),
    }
}

/// The model that a model of the whole language is fitted into, written out.
fn fit_written(alloc: Global, text: &[u8], model: &FullModel) -> Result<Model, Refusal>
    requires not_profile { IsProfileOf text.now None }
    requires stands { StandsForFull text.now model.now }
    ensures fitted { IfOk result (IsFitText text.now) }
    ensures refused { IfErr result (IfInput (IsNotFit text.now)) }
    ensures ends { Ends result Unused Unused Unused Unused }
{
    fit::laws::bad_properties_rise_alike();
    full::laws::bad_properties_rise_alike();
    let wide = written_out(alloc, model)?;
    match fitting::fit(alloc, wide) {
        Ok(narrow) => Ok(narrow),
        Err(fault) => Err(refusal_of_written(fault)),
    }
}

/// The model that a text is fitted into which stands for none of the profile, or for one of which a state has an init and no
/// next.
fn fit_whole(alloc: Global, text: &[u8]) -> Result<Model, Refusal>
    requires not_profile { IsProfileOf text.now None }
    ensures fitted { IfOk result (IsFitText text.now) }
    ensures refused { IfErr result (IfInput (IsNotFit text.now)) }
    ensures ends { Ends result Unused Unused Unused Unused }
{
    match read_words(alloc, text)? {
        Some(wide) => fit_words(alloc, text, wide),
        None => {
            let model = read_whole(alloc, text)?;
            fit_written(alloc, text, &model)
        }
    }
}

/// The model that a text is fitted into: of a text of a model of the profile, each of whose states has a next or is free, that
/// model.
fn fit_text(alloc: Global, text: &[u8]) -> Result<Model, Refusal>
    ensures fitted { IfOk result (IsFitText text.now) }
    ensures kept { IfOk result (IsKept text.now) }
    ensures refused { IfErr result (IfInput (IsNotFit text.now)) }
    ensures ends { Ends result Unused Unused Unused Unused }
{
    full::laws::items_as_lines();
    fitting::laws::profile_is_fitted();
    widetext::laws::profile_is_read();
    fulltext::laws::wide_texts_are_read();
    btor2text::laws::one_model();
    match read_profile(alloc, text)? {
        Some(model) => Ok(model),
        None => fit_whole(alloc, text),
    }
}

/// Reads the first text as a model of the whole language, and fits it.
pub(crate) fn read_fitted<A: Source>(alloc: Global, first: &mut A) -> Result<Model, Refusal>
    ensures fits { IfOk result (FitsFirst (A.to_come first.old)) }
    ensures refused { IfErr result (IfInput (IsNotFitted (A.to_come first.old))) }
    ensures ends { Ends result (Used A.failures first.old first.new) Unused Unused Unused }
{
    let text = read_all(alloc, first)?;
    fit_text(alloc, text.as_slice())
}

/// The model of the whole language that a text stands for, with the lines that are told by their numbers.
pub(crate) fn whole_model_of(alloc: Global, text: &[u8]) -> Result<WholeModel, Refusal>
    ensures stands { IfOk result (StandsForFull text.now) }
    ensures refused { IfErr result (IfInput (IsNotFit text.now)) }
    ensures no_model { IfErr result (IfInput (IsNoWholeModel (Some text.now))) }
    ensures ends { Ends result Unused Unused Unused Unused }
{
    let model = read_whole(alloc, text)?;
    Ok(WholeModel::new(alloc, model)?)
}

/// The model that a text is fitted into, and behind it the one of the whole language that it stands for.
fn fit_and_keep(alloc: Global, text: &[u8]) -> Result<(Model, WholeModel), Refusal>
    ensures fits { IfOk result (λ both. IsFitText text.now both.0 × StandsForFull text.now both.1) }
    ensures refused { IfErr result (IfInput (IsNotFit text.now)) }
    ensures ends { Ends result Unused Unused Unused Unused }
{
    let whole = whole_model_of(alloc, text)?;
    match fit_text(alloc, text) {
        Ok(narrow) => Ok((narrow, whole)),
        Err(refusal) => Err(refusal),
    }
}

/// Reads the first text as a model of the whole language, fits it, and answers the fitted model and that one.
pub(crate) fn read_fitted_and_whole<A: Source>(
    alloc: Global,
    first: &mut A,
) -> Result<(Model, WholeModel), Refusal>
    ensures fits { IfOk result (λ both. FitsWhole (A.to_come first.old) both.0 both.1) }
    ensures refused { IfErr result (IfInput (IsNotFitted (A.to_come first.old))) }
    ensures ends { Ends result (Used A.failures first.old first.new) Unused Unused Unused }
{
    fulltext::laws::texts_are_read();
    let text = read_all(alloc, first)?;
    fit_and_keep(alloc, text.as_slice())
}

/// Writes the model that a text is fitted into.
fn write_fitted<O: Sink>(alloc: Global, text: &[u8], out: &mut O) -> Result<(), Refusal>
    ensures done { OnOk result (WritesFitting (Some text.now) (O.written out.old)
        (O.written out.new)) }
    ensures refused { IfErr result (IfInput (IsNotFit text.now)) }
    ensures ends { Ends result Unused Unused (Used O.failures out.old out.new) Unused }
{
    let model = fit_text(alloc, text)?;
    match write(&model, out) {
        Ok(()) => Ok(()),
        Err(_) => Err(Refusal::Failed(Device::Output)),
    }
}

/// Writes the model of the profile that the text of a model of the whole language is fitted into: of a text of a model of the
/// profile, each of whose states has a next or is free, that model.
pub fn fit<A: Source, O: Sink>(alloc: Global, first: &mut A, out: &mut O) -> Result<(), Refusal>
    ensures done { OnOk result (WritesFitting (A.to_come first.old) (O.written out.old)
        (O.written out.new)) }
    ensures refused { IfErr result (IfInput (IsNotFitted (A.to_come first.old))) }
    ensures ends { Ends result (Used A.failures first.old first.new) Unused
        (Used O.failures out.old out.new) Unused }
{
    let text = read_all(alloc, first)?;
    write_fitted(alloc, text.as_slice(), out)
}
