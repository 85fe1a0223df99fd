//! The circuit that a first text gives.

ghost use Rattle.std.specs.Prelude.{◌≡◌, None, IfOk, IfErr, OnOk};
ghost use Rattle.blast.specs.Lowering.{Lowers};
ghost use Rattle.blast.specs.Refusal.{lowering_refusal};
ghost use Rattle.btor2.specs.Check.{IsWellFormed};
ghost use Rattle.invocation.specs.declared.tasks.Given.TheVariants as given_is;
ghost use Rattle.verbs.specs.Given.{IsGiven, IsLowered, IsLoweredFitted};
ghost use Rattle.verbs.specs.Refusals.{IsAgainst, IsNoCircuit, IsNotGiven, IsNotLowered, IsNotLoweredFitted};
ghost use Rattle.verbs.specs.Statuses.{Ends, IfInput};
ghost use Rattle.verbs.specs.Subjects.{given_told, lines_told};
ghost use Rattle.verbs.specs.Statuses.Use.{Unused, Used};

use crate::fitted::{read_fitted, read_fitted_and_whole};
use crate::reading::read_model;
use crate::refusals::Refusal;
use crate::subjects::Lines;
use crate::whole_model::WholeModel;
use aiger::Circuit;
use aigerlists::Numbering;
use aigertext::read_numbered;
use base::Source;
use blast::{Watch, lower_watched};
use btor2::Model;
use invocation::Given;
use std::alloc::Global;

/// A model and the circuit that lowers it.
#[derive(Drop)]
pub struct Lowered {
    /// The model.
    pub model: Model,
    /// The circuit.
    pub circuit: Circuit,
}

/// The model of a first text.
#[derive(Drop)]
pub enum GivenModel {
    /// One of the profile.
    Profile(Model),
    /// One of the whole language, which was fitted.
    Whole(WholeModel),
}

impl GivenModel {
    /// Its lines, by the numbers by which judgements tell them.
    pub fn lines(&self) -> Lines<'_>
        ensures { lines_told result ≡ given_told self.now }
    {
        match self {
            GivenModel::Profile(model) => Lines::Profile(model),
            GivenModel::Whole(model) => Lines::Whole(model),
        }
    }
}

/// What a first text gives: a circuit, the model, where the text is of one, and the numbering of the circuit's text.
#[derive(Drop)]
pub struct GivenCircuit {
    /// The model, where the text is of one.
    pub model: Option<GivenModel>,
    /// The circuit.
    pub circuit: Circuit,
    /// The numbering of its text; where it lowers a model, its own.
    pub numbering: Numbering,
}

/// The circuit that lowers a model.
pub(crate) fn lower_model<W: Watch>(
    alloc: Global,
    model: &Model,
    watch: &mut W,
) -> Result<Circuit, Refusal>
    ensures accepted { OnOk result (lowering_refusal model.now ≡ None) }
    ensures lowers { IfOk result (Lowers model.now) }
    ensures valid { IsWellFormed model.now }
    ensures refused { IfErr result (IfInput (IsAgainst model.now)) }
    ensures ends { Ends result Unused Unused Unused Unused }
{
    // a model's items are well-formed
    let _ = model.items();
    Ok(lower_watched(alloc, model, watch)?)
}

/// Reads the first text as a model, and lowers it.
pub(crate) fn lower_first<A: Source, W: Watch>(
    alloc: Global,
    first: &mut A,
    watch: &mut W,
) -> Result<Lowered, Refusal>
    ensures lowered { IfOk result (IsLowered (A.to_come first.old)) }
    ensures refused { IfErr result (IfInput (IsNotLowered (A.to_come first.old))) }
    ensures ends { Ends result (Used A.failures first.old first.new) Unused Unused Unused }
{
    let model = read_model(alloc, first)?;
    let circuit = lower_model(alloc, &model, watch)?;
    Ok(Lowered { model, circuit })
}

/// Reads the first text as a model of the whole language, fits it, and lowers that.
pub(crate) fn lower_fitted_first<A: Source, W: Watch>(
    alloc: Global,
    first: &mut A,
    watch: &mut W,
) -> Result<Lowered, Refusal>
    ensures lowered { IfOk result (IsLoweredFitted (A.to_come first.old)) }
    ensures refused { IfErr result (IfInput (IsNotLoweredFitted (A.to_come first.old))) }
    ensures ends { Ends result (Used A.failures first.old first.new) Unused Unused Unused }
{
    let model = read_fitted(alloc, first)?;
    let circuit = lower_model(alloc, &model, watch)?;
    Ok(Lowered { model, circuit })
}

/// What is given by a first text that is of a model.
fn give_lowered<A: Source, W: Watch>(
    alloc: Global,
    first: &mut A,
    watch: &mut W,
) -> Result<GivenCircuit, Refusal>
    ensures given { IfOk result (IsGiven given_is.Model (A.to_come first.old)) }
    ensures refused { IfErr result (IfInput (IsNotLowered (A.to_come first.old))) }
    ensures ends { Ends result (Used A.failures first.old first.new) Unused Unused Unused }
{
    let Lowered { model, circuit } = lower_first(alloc, first, watch)?;
    Ok(GivenCircuit {
        model: Some(GivenModel::Profile(model)),
        circuit,
        numbering: Numbering::own(),
    })
}

/// What is given by one that is of a model of the whole language.
fn give_fitted<A: Source, W: Watch>(
    alloc: Global,
    first: &mut A,
    watch: &mut W,
) -> Result<GivenCircuit, Refusal>
    ensures given { IfOk result (IsGiven given_is.Fitted (A.to_come first.old)) }
    ensures refused { IfErr result (IfInput (IsNotLoweredFitted (A.to_come first.old))) }
    ensures ends { Ends result (Used A.failures first.old first.new) Unused Unused Unused }
{
    let (narrow, whole) = read_fitted_and_whole(alloc, first)?;
    let circuit = lower_model(alloc, &narrow, watch)?;
    Ok(GivenCircuit {
        model: Some(GivenModel::Whole(whole)),
        circuit,
        numbering: Numbering::own(),
    })
}

/// What is given by one that is of a circuit.
fn give_circuit<A: Source>(alloc: Global, first: &mut A) -> Result<GivenCircuit, Refusal>
    ensures given { IfOk result (IsGiven given_is.Circuit (A.to_come first.old)) }
    ensures refused { IfErr result (IfInput (IsNoCircuit (A.to_come first.old))) }
    ensures ends { Ends result (Used A.failures first.old first.new) Unused Unused Unused }
{
    match read_numbered(alloc, first) {
        Ok(numbered) => {
            // the lists of a circuit are one
            let _ = numbered.circuit.inputs();
            Ok(GivenCircuit {
                model: None,
                circuit: numbered.circuit,
                numbering: numbered.numbering,
            })
        }
        Err(fault) => Err(Refusal::from(fault)),
    }
}

/// What the first text gives: a circuit that lowers its model, or its own.
pub(crate) fn give<A: Source, W: Watch>(
    alloc: Global,
    given: Given,
    first: &mut A,
    watch: &mut W,
) -> Result<GivenCircuit, Refusal>
    ensures given { IfOk result (IsGiven given (A.to_come first.old)) }
    ensures refused { IfErr result (IfInput (IsNotGiven given (A.to_come first.old))) }
    ensures ends { Ends result (Used A.failures first.old first.new) Unused Unused Unused }
{
    match given {
        Given::Model => give_lowered(alloc, first, watch),
        Given::Fitted => give_fitted(alloc, first, watch),
        Given::Circuit => give_circuit(alloc, first),
    }
}
