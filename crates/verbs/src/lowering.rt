//! Lowering models, and what that costs.

ghost use Rattle.std.specs.Prelude.{◌≡◌, IfOk, IfErr, OnOk};
ghost use Rattle.std.specs.Io.KnownBytes.{Appends};
ghost use Rattle.blast.specs.Conversion.{Converts};
ghost use Rattle.blast.specs.Cost.{bound, cost};
ghost use Rattle.btor2.specs.Check.{IsWellFormed};
ghost use Rattle.invocation.specs.declared.tasks.Given.TheVariants as given_is;
ghost use Rattle.verbs.specs.Circuits.{IsCost, IsCostFitted, LowersForEngines, WritesFittedCircuit, WritesFittedForm};
ghost use Rattle.verbs.specs.Fitting.{IsNotFitted};
ghost use Rattle.verbs.specs.Refusals.{IsNoModel, IsNotForEngines, IsNotGiven, IsNotLowered};
ghost use Rattle.verbs.specs.Statuses.{Ends, IfInput};
ghost use Rattle.verbs.specs.Statuses.Use.{Unused, Used};

use crate::converting::{write_circuit, write_engine_form};
use crate::fitted::read_fitted;
use crate::given::{lower_first, lower_fitted_first};
use crate::reading::read_model;
use crate::refusals::Refusal;
use aigertext::Form;
use base::{Sink, Source};
use blast::{Watch, convert_watched, cost_and_bound};
use btor2::Model;
use std::alloc::Global;

/// How many gates and variables the lowering of a model has at most.
#[derive(Clone, Copy)]
pub struct Cost {
    /// How many gates.
    pub gates: u64,
    /// How many variables.
    pub variables: u64,
}

/// Lowers the model of a text to a circuit, in a form.
pub fn lower<A: Source, O: Sink, W: Watch>(
    alloc: Global,
    form: Form,
    first: &mut A,
    out: &mut O,
    watch: &mut W,
) -> Result<(), Refusal>
    ensures done { OnOk result (Converts (A.to_come first.old) form
        (Appends (O.written out.old) (O.written out.new))) }
    ensures refused { IfErr result (IfInput (IsNotLowered (A.to_come first.old))) }
    ensures ends { Ends result (Used A.failures first.old first.new) Unused
        (Used O.failures out.old out.new) Unused }
{
    match convert_watched(alloc, first, out, form, watch) {
        Ok(()) => Ok(()),
        Err(fault) => Err(Refusal::from(fault)),
    }
}

/// Lowers the model of a text, and writes the engine form of its circuit, with all bad properties or with a chosen one.
pub fn lower_for_engines<A: Source, O: Sink, W: Watch>(
    alloc: Global,
    form: Form,
    choice: Option<usize>,
    first: &mut A,
    out: &mut O,
    watch: &mut W,
) -> Result<(), Refusal>
    ensures done { OnOk result (LowersForEngines (A.to_come first.old) (O.written out.old)
        (O.written out.new) form choice) }
    ensures refused { IfErr result
        (IfInput (IsNotForEngines given_is.Model choice (A.to_come first.old))) }
    ensures ends { Ends result (Used A.failures first.old first.new) Unused
        (Used O.failures out.old out.new) Unused }
{
    blast::laws::bad_properties_rise_alike();
    engine_form::laws::bad_properties_rise_alike();
    let lowered = lower_first(alloc, first, watch)?;
    write_engine_form(alloc, &lowered.circuit, form, choice, out)
}

/// Fits the model of a text, which may be of the whole language, and lowers that to a circuit, in a form.
pub fn lower_fitted<A: Source, O: Sink, W: Watch>(
    alloc: Global,
    form: Form,
    first: &mut A,
    out: &mut O,
    watch: &mut W,
) -> Result<(), Refusal>
    ensures done { OnOk result (WritesFittedCircuit (A.to_come first.old) (O.written out.old)
        (O.written out.new) form) }
    ensures refused { IfErr result (IfInput (IsNotGiven given_is.Fitted (A.to_come first.old))) }
    ensures ends { Ends result (Used A.failures first.old first.new) Unused
        (Used O.failures out.old out.new) Unused }
{
    blast::laws::bad_properties_rise_alike();
    let lowered = lower_fitted_first(alloc, first, watch)?;
    // the lists of a circuit are one
    let _ = lowered.circuit.inputs();
    write_circuit(&lowered.circuit, form, out)
}

/// The same, and writes the engine form of the circuit, with all bad properties or with a chosen one.
pub fn lower_fitted_for_engines<A: Source, O: Sink, W: Watch>(
    alloc: Global,
    form: Form,
    choice: Option<usize>,
    first: &mut A,
    out: &mut O,
    watch: &mut W,
) -> Result<(), Refusal>
    ensures done { OnOk result (WritesFittedForm (A.to_come first.old) (O.written out.old)
        (O.written out.new) form choice) }
    ensures refused { IfErr result
        (IfInput (IsNotForEngines given_is.Fitted choice (A.to_come first.old))) }
    ensures ends { Ends result (Used A.failures first.old first.new) Unused
        (Used O.failures out.old out.new) Unused }
{
    blast::laws::bad_properties_rise_alike();
    engine_form::laws::bad_properties_rise_alike();
    let lowered = lower_fitted_first(alloc, first, watch)?;
    write_engine_form(alloc, &lowered.circuit, form, choice, out)
}

/// How many gates and variables the lowering of a model has at most.
fn cost_of_model(model: &Model) -> Cost
    ensures gates { result.gates ≡ cost model.now }
    ensures variables { result.variables ≡ bound model.now }
    ensures well_formed { IsWellFormed model.now }
{
    // a model's items are well-formed
    let _ = model.items();
    let (gates, variables) = cost_and_bound(model);
    Cost { gates, variables }
}

/// How many gates and variables the lowering of the model has at most that a text's model is fitted into.
pub fn cost_of_fitted<A: Source>(alloc: Global, first: &mut A) -> Result<Cost, Refusal>
    ensures cost { IfOk result (IsCostFitted (A.to_come first.old)) }
    ensures refused { IfErr result (IfInput (IsNotFitted (A.to_come first.old))) }
    ensures ends { Ends result (Used A.failures first.old first.new) Unused Unused Unused }
{
    let model = read_fitted(alloc, first)?;
    Ok(cost_of_model(&model))
}

/// How many gates and variables the lowering of a text's model has at most.
pub fn cost_of<A: Source>(alloc: Global, first: &mut A) -> Result<Cost, Refusal>
    ensures cost { IfOk result (IsCost (A.to_come first.old)) }
    ensures refused { IfErr result (IfInput (IsNoModel (A.to_come first.old))) }
    ensures ends { Ends result (Used A.failures first.old first.new) Unused Unused Unused }
{
    let model = read_model(alloc, first)?;
    Ok(cost_of_model(&model))
}
