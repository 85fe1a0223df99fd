//! Reading what a first text gives.

ghost use Rattle.std.specs.Prelude.{IfOk, IfErr, IfSome};
ghost use Rattle.btor2text.specs.Spelling.{IsModelOf};
ghost use Rattle.aigertext.specs.Spelling.{IsCircuitText};
ghost use Rattle.fulltext.specs.Spelling.{StandsForFull};
ghost use Rattle.verbs.specs.Fitting.{IsNoWholeModel};
ghost use Rattle.verbs.specs.Refusals.{IsNoCircuit, IsNoModel};
ghost use Rattle.verbs.specs.Statuses.{Ends, IfInput};
ghost use Rattle.verbs.specs.Statuses.Use.{Unused, Used};

use crate::fitted::whole_model_of;
use crate::refusals::Refusal;
use crate::whole_model::WholeModel;
use aiger::Circuit;
use base::{Source, read_all};
use btor2::Model;
use std::alloc::Global;

/// Reads the first text as a model.
pub fn read_model<A: Source>(alloc: Global, first: &mut A) -> Result<Model, Refusal>
    ensures read { IfOk result (IsModelOf (A.to_come first.old)) }
    ensures refused { IfErr result (IfInput (IsNoModel (A.to_come first.old))) }
    ensures ends { Ends result (Used A.failures first.old first.new) Unused Unused Unused }
{
    match btor2text::read(alloc, first) {
        Ok(model) => Ok(model),
        Err(fault) => Err(Refusal::from(fault)),
    }
}

/// Reads the first text as a model of the whole language.
pub fn read_whole_model<A: Source>(alloc: Global, first: &mut A) -> Result<WholeModel, Refusal>
    ensures stands { IfOk result (λ model. IfSome (A.to_come first.old)
        (λ text. StandsForFull text model)) }
    ensures refused { IfErr result (IfInput (IsNoWholeModel (A.to_come first.old))) }
    ensures ends { Ends result (Used A.failures first.old first.new) Unused Unused Unused }
{
    let text = read_all(alloc, first)?;
    whole_model_of(alloc, text.as_slice())
}

/// Reads the first text as a circuit of either form.
pub fn read_circuit<A: Source>(alloc: Global, first: &mut A) -> Result<Circuit, Refusal>
    ensures read { IfOk result (IsCircuitText (A.to_come first.old)) }
    ensures refused { IfErr result (IfInput (IsNoCircuit (A.to_come first.old))) }
    ensures ends { Ends result (Used A.failures first.old first.new) Unused Unused Unused }
{
    match aigertext::read(alloc, first) {
        Ok(circuit) => Ok(circuit),
        Err(fault) => Err(Refusal::from(fault)),
    }
}
