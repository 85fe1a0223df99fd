//! Lifting over models of the whole language: what is found over the circuit of the fitted model, or over an engine form of that,
//! becomes a witness of the model.

ghost use Rattle.std.specs.Prelude.{◌≡◌, ◌<◌, ℕ, List, None, Option, false, true, Ok, Some, IfErr, IfOk, OnOk, length};
ghost use Rattle.aiger.specs.Circuit.{Circuit as CircuitValue};
ghost use Rattle.engine_form.specs.Refusal.{engine_refusal};
ghost use Rattle.verbs.specs.Claims.{CanBeClaimed, IsClaim};
ghost use Rattle.fulltext.specs.Spelling.{StandsForFull};
ghost use Rattle.blast.specs.Lowering.{Lowers};
ghost use Rattle.engine_form.specs.EngineForm.{IsEngineFormOf};
ghost use Rattle.invocation.specs.declared.tasks.Given.TheVariants as given_is;
ghost use Rattle.lift.specs.EngineLifting.{LiftsForm};
ghost use Rattle.restore.specs.Answers.{CountsRestore};
ghost use Rattle.restore.specs.Faults.{is_of_text};
ghost use Rattle.verbs.specs.declared.refusals.Claimed.TheVariants as claimed_is;
ghost use Rattle.verbs.specs.Fits.{IsFitOf, IsLoweredFit, narrow_in};
ghost use Rattle.verbs.specs.Lifting.{LiftsWitness};
ghost use Rattle.verbs.specs.LiftingFitted.{IsFormLiftedFitted, IsFoundLiftedFitted, IsLiftedFitted, IsUnclaimedFound, LiftsFormInto, LiftsFoundInto, LiftsInto, UnfitsHeld, of_held, of_held_lift, told_of, told_with};
ghost use Rattle.verbs.specs.Refusals.{HasOutputsAlone, IsNotClaimable, IsNotClaimed, IsNotForEngines, IsWithoutForm};
ghost use Rattle.verbs.specs.Statuses.{Counts, Ends, IfInput, IsOfNoInput};
ghost use Rattle.verbs.specs.Statuses.Use.{Unused, Used};

use crate::claims::{claim_of, claimable, has_form};
use crate::fits::{LoweredFit, lower_fit_first};
use crate::refusals::{Claimed, Device, Refusal};
use crate::whole_model::WholeModel;
use aiger::Circuit;
use base::{Sink, Source, VecSink};
use blast::Watch;
use engine_form::engine_form;
use lift::{LiftFault, lift_form, lift_restored, lift_with_rises};
use restore::{RestoreFault, RestoreWhy};
use rises::FirstRises;
use std::alloc::Global;
use witness::Judgement;

/// A witness that is lifted to one of a model of the whole language, and how it is judged.
#[derive(Drop)]
pub struct LiftedFitted {
    /// The model.
    pub model: WholeModel,
    /// The circuit that lowers the model that it is fitted into.
    pub circuit: Circuit,
    /// What is judged over the model of what the witness is lifted to; of a witness that is malformed or makes no claim, that.
    pub judgement: Judgement,
    /// With names in which frames the claims of an acceptance are reached first.
    pub firsts: FirstRises,
}

/// A counterexample over an engine form that is lifted to a witness of a model of the whole language, and how it is judged.
#[derive(Drop)]
pub struct FoundLiftedFitted {
    /// The model.
    pub model: WholeModel,
    /// The circuit that lowers the model that it is fitted into.
    pub circuit: Circuit,
    /// The position of the bad property that is claimed.
    pub claim: usize,
    /// What is judged over the model of what it is lifted to, and with names in which frame the claim is reached first; or its first
    /// faulty line, before which what the lines give is lifted.
    pub told: Result<(Judgement, FirstRises), RestoreFault>,
}

/// What is told of a witness that is lifted: what is judged of what it is lifted to, where it is a witness, and else what is judged of it.
fn told_of(found: Judgement, unfitted: Judgement) -> Judgement
    ensures { result ≡ told_of found unfitted }
{
    match found {
        Judgement::NoClaim | Judgement::Malformed { .. } => found,
        _ => unfitted,
    }
}

/// The same of a counterexample.
fn told_with(
    told: Result<(Judgement, FirstRises), RestoreFault>,
    unfitted: Judgement,
) -> Result<(Judgement, FirstRises), RestoreFault>
    ensures { result ≡ told_with told unfitted }
{
    match told {
        Ok((found, firsts)) => Ok((told_of(found, unfitted), firsts)),
        Err(fault) => Err(fault),
    }
}

/// Why nothing is lifted to what is held, which can want memory alone.
fn of_held_lift(fault: LiftFault) -> Refusal
    ensures { result ≡ of_held_lift fault }
{
    match fault {
        LiftFault::Read => Refusal::Failed(Device::Second),
        LiftFault::Write | LiftFault::NoMemory => Refusal::NoMemory,
    }
}

/// The same of what is restored, where that is no line of a text.
fn of_held(why: &RestoreWhy) -> Refusal
    ensures { result ≡ of_held why.now }
{
    match why {
        RestoreWhy::Device => Refusal::Failed(Device::Second),
        _ => Refusal::NoMemory,
    }
}

/// What is told of a counterexample that is lifted to what is held: a judgement, or its first faulty line.
fn told_of_held<J>(told: Result<J, RestoreFault>) -> Result<Result<J, RestoreFault>, Refusal>
    ensures told { IfOk result (λ same. same ≡ told) }
    ensures of_text { IfOk result (λ same. IfErr same (λ e. is_of_text e.why ≡ true)) }
    ensures no_input { IsOfNoInput result }
    ensures counted { (f s s' h h' o e : ℕ) → CountsRestore told s s' h h'
        → Counts result f f s s' o o e e }
{
    match told {
        Ok(judgement) => Ok(Ok(judgement)),
        Err(fault) => {
            if fault.why.is_of_text() {
                Ok(Err(fault))
            } else {
                Err(of_held(&fault.why))
            }
        }
    }
}

/// Lifts a witness of the circuit to one of the fitted model, which is held.
fn lift_held<B: Source>(
    alloc: Global,
    named: bool,
    lowered: &LoweredFit,
    second: &mut B,
    held: &mut VecSink,
) -> Result<(Judgement, FirstRises), Refusal>
    requires lowers { Lowers (narrow_in lowered.now.fit) lowered.now.circuit }
    ensures lifted { IfOk result (λ told. LiftsWitness named (narrow_in lowered.now.fit)
        lowered.now.circuit (B.to_come second.old) (⟦<VecSink as Sink>⟧.written held.old)
        (⟦<VecSink as Sink>⟧.written held.new) told.0 told.1) }
    ensures refused { IfErr result (IfInput (λ f. ⊥)) }
    ensures ends { Ends result Unused (Used B.failures second.old second.new) Unused Unused }
{
    match lift_with_rises(
        alloc,
        lowered.narrow(),
        &lowered.circuit,
        named,
        second,
        held,
    ) {
        Ok((judgement, firsts)) => Ok((judgement, firsts)),
        Err(fault) => Err(of_held_lift(fault)),
    }
}

/// The same of a witness of its engine form, with all bad properties or the chosen one.
fn lift_form_held<B: Source>(
    alloc: Global,
    named: bool,
    choice: Option<usize>,
    lowered: &LoweredFit,
    form: &Circuit,
    second: &mut B,
    held: &mut VecSink,
) -> Result<(Judgement, FirstRises), Refusal>
    requires lowers { Lowers (narrow_in lowered.now.fit) lowered.now.circuit }
    requires is_form { IsEngineFormOf lowered.now.circuit choice form.now }
    ensures lifted { IfOk result (λ told. LiftsForm (Ok told) named (narrow_in lowered.now.fit)
        lowered.now.circuit choice form.now (B.to_come second.old)
        (⟦<VecSink as Sink>⟧.written held.old) (⟦<VecSink as Sink>⟧.written held.new)) }
    ensures refused { IfErr result (IfInput (λ f. ⊥)) }
    ensures ends { Ends result Unused (Used B.failures second.old second.new) Unused Unused }
{
    match lift_form(
        alloc,
        lowered.narrow(),
        &lowered.circuit,
        form,
        choice,
        named,
        second,
        held,
    ) {
        Ok(told) => Ok(told),
        Err(fault) => Err(of_held(&fault.why)),
    }
}

/// Writes the model's witness that says what one of the fitted model says that is held, and answers what is told with first rises.
fn unfit_held<O: Sink>(
    alloc: Global,
    named: bool,
    lowered: &LoweredFit,
    found: Judgement,
    firsts: FirstRises,
    held: &[u8],
    out: &mut O,
) -> Result<(Judgement, FirstRises), Refusal>
    requires stands { StandsForFull lowered.now.text.items lowered.now.model }
    requires fit { IsFitOf lowered.now.text.items lowered.now.model lowered.now.fit }
    ensures unfits { IfOk result (λ told. UnfitsHeld named lowered.now held.now (O.written out.old)
        (O.written out.new) (told_of found) told.0) }
    ensures firsts { IfOk result (λ told. told.1 ≡ firsts) }
    ensures refused { IfErr result (IfInput (λ f. ⊥)) }
    ensures ends { Ends result Unused Unused (Used O.failures out.old out.new) Unused }
{
    match lowered.unfit(alloc, named, held, out) {
        Ok(unfitted) => Ok((told_of(found, unfitted), firsts)),
        Err(refusal) => Err(refusal),
    }
}

/// The same of a counterexample, or of what the lines before its first faulty one give.
fn unfit_restored<O: Sink>(
    alloc: Global,
    named: bool,
    lowered: &LoweredFit,
    restored: Result<(Judgement, FirstRises), RestoreFault>,
    held: &[u8],
    out: &mut O,
) -> Result<Result<(Judgement, FirstRises), RestoreFault>, Refusal>
    requires stands { StandsForFull lowered.now.text.items lowered.now.model }
    requires fit { IsFitOf lowered.now.text.items lowered.now.model lowered.now.fit }
    ensures unfits { IfOk result (UnfitsHeld named lowered.now held.now (O.written out.old)
        (O.written out.new) (told_with restored)) }
    ensures refused { IfErr result (IfInput (λ f. ⊥)) }
    ensures ends { Ends result Unused Unused (Used O.failures out.old out.new) Unused }
{
    match lowered.unfit(alloc, named, held, out) {
        Ok(unfitted) => Ok(told_with(restored, unfitted)),
        Err(refusal) => Err(refusal),
    }
}

/// Lifts a witness of the circuit to one of the model.
fn lift_over<B: Source, O: Sink>(
    alloc: Global,
    named: bool,
    lowered: &LoweredFit,
    second: &mut B,
    out: &mut O,
) -> Result<(Judgement, FirstRises), Refusal>
    requires lowered { (known : Option (List ℕ)) × IsLoweredFit known lowered.now }
    ensures lifts { IfOk result (λ told. LiftsInto named (Some lowered.now.text.items) lowered.now.model
        (narrow_in lowered.now.fit) lowered.now.circuit (B.to_come second.old)
        (O.written out.old) (O.written out.new) told.0 told.1) }
    ensures refused { IfErr result (IfInput (λ f. ⊥)) }
    ensures ends { Ends result Unused (Used B.failures second.old second.new)
        (Used O.failures out.old out.new) Unused }
{
    let mut held = VecSink::new(alloc);
    match lift_held(alloc, named, lowered, second, &mut held) {
        Ok((found, firsts)) => unfit_held(alloc, named, lowered, found, firsts, held.bytes(), out),
        Err(refusal) => Err(refusal),
    }
}

/// The same of a witness of its engine form, with all bad properties or the chosen one.
fn lift_form_over<B: Source, O: Sink>(
    alloc: Global,
    named: bool,
    choice: Option<usize>,
    lowered: &LoweredFit,
    form: &Circuit,
    second: &mut B,
    out: &mut O,
) -> Result<(Judgement, FirstRises), Refusal>
    requires lowered { (known : Option (List ℕ)) × IsLoweredFit known lowered.now }
    requires is_form { IsEngineFormOf lowered.now.circuit choice form.now }
    ensures lifts { IfOk result (λ told. LiftsFormInto named choice (Some lowered.now.text.items)
        lowered.now.model (narrow_in lowered.now.fit) lowered.now.circuit form.now
        (B.to_come second.old) (O.written out.old) (O.written out.new) told.0 told.1) }
    ensures refused { IfErr result (IfInput (λ f. ⊥)) }
    ensures ends { Ends result Unused (Used B.failures second.old second.new)
        (Used O.failures out.old out.new) Unused }
{
    let mut held = VecSink::new(alloc);
    match lift_form_held(alloc, named, choice, lowered, form, second, &mut held) {
        Ok((found, firsts)) => unfit_held(alloc, named, lowered, found, firsts, held.bytes(), out),
        Err(refusal) => Err(refusal),
    }
}

/// Restores and lifts a counterexample over its engine form with the bad property that is claimed.
fn lift_found_over<B: Source, O: Sink>(
    alloc: Global,
    named: bool,
    claim: usize,
    lowered: &LoweredFit,
    second: &mut B,
    out: &mut O,
) -> Result<Result<(Judgement, FirstRises), RestoreFault>, Refusal>
    requires lowered { (known : Option (List ℕ)) × IsLoweredFit known lowered.now }
    requires claim { claim < length lowered.now.circuit.bads }
    ensures lifts { IfOk result (LiftsFoundInto named (Some lowered.now.text.items) lowered.now.model
        (narrow_in lowered.now.fit) lowered.now.circuit claim (B.to_come second.old)
        (O.written out.old) (O.written out.new)) }
    ensures refused { IfErr result (IfInput (λ f. ⊥)) }
    ensures ends { Ends result Unused (Used B.failures second.old second.new)
        (Used O.failures out.old out.new) Unused }
{
    let mut held = VecSink::new(alloc);
    let restored = lift_restored(
        alloc,
        lowered.narrow(),
        &lowered.circuit,
        claim,
        named,
        second,
        &mut held,
    );
    match told_of_held(restored) {
        Ok(restored) => unfit_restored(alloc, named, lowered, restored, held.bytes(), out),
        Err(refusal) => Err(refusal),
    }
}

/// Lifts a witness of the circuit, where that has a bad property that can be claimed.
fn lift_claimable<B: Source, O: Sink>(
    alloc: Global,
    named: bool,
    lowered: &LoweredFit,
    second: &mut B,
    out: &mut O,
) -> Result<(Judgement, FirstRises), Refusal>
    requires lowered { (known : Option (List ℕ)) × IsLoweredFit known lowered.now }
    ensures claimable { OnOk result (CanBeClaimed lowered.now.circuit) }
    ensures lifts { IfOk result (λ told. LiftsInto named (Some lowered.now.text.items) lowered.now.model
        (narrow_in lowered.now.fit) lowered.now.circuit (B.to_come second.old)
        (O.written out.old) (O.written out.new) told.0 told.1) }
    ensures refused { IfErr result (IfInput (HasOutputsAlone lowered.now.circuit)) }
    ensures ends { Ends result Unused (Used B.failures second.old second.new)
        (Used O.failures out.old out.new) Unused }
{
    claimable(&lowered.circuit)?;
    lift_over(alloc, named, lowered, second, out)
}

/// Lifts a witness of an engine form of the circuit, where that has such a form.
fn lift_formed<B: Source, O: Sink>(
    alloc: Global,
    named: bool,
    choice: Option<usize>,
    lowered: &LoweredFit,
    second: &mut B,
    out: &mut O,
) -> Result<(Judgement, FirstRises), Refusal>
    requires lowered { (known : Option (List ℕ)) × IsLoweredFit known lowered.now }
    ensures lifts { IfOk result (λ told. (form : CircuitValue) × (IsEngineFormOf lowered.now.circuit choice form
        × LiftsFormInto named choice (Some lowered.now.text.items) lowered.now.model
        (narrow_in lowered.now.fit) lowered.now.circuit form (B.to_come second.old)
        (O.written out.old) (O.written out.new) told.0 told.1)) }
    ensures refused { IfErr result (IfInput (IsWithoutForm lowered.now.circuit choice)) }
    ensures ends { Ends result Unused (Used B.failures second.old second.new)
        (Used O.failures out.old out.new) Unused }
{
    let form = engine_form(alloc, &lowered.circuit, choice)?;
    lift_form_over(alloc, named, choice, lowered, &form, second, out)
}

/// Lifts a counterexample over an engine form of the circuit, where that has one for the bad property that is claimed, and answers
/// which that is.
fn lift_claimed<B: Source, O: Sink>(
    alloc: Global,
    named: bool,
    choice: Option<usize>,
    lowered: &LoweredFit,
    second: &mut B,
    out: &mut O,
) -> Result<(usize, Result<(Judgement, FirstRises), RestoreFault>), Refusal>
    requires lowered { (known : Option (List ℕ)) × IsLoweredFit known lowered.now }
    ensures lifts { IfOk result (λ told. IsClaim choice lowered.now.circuit told.0
        × ((engine_refusal lowered.now.circuit (Some told.0) ≡ None)
        × LiftsFoundInto named (Some lowered.now.text.items) lowered.now.model
        (narrow_in lowered.now.fit) lowered.now.circuit told.0 (B.to_come second.old)
        (O.written out.old) (O.written out.new) told.1)) }
    ensures refused { IfErr result (IfInput (IsUnclaimedFound choice lowered.now.circuit)) }
    ensures ends { Ends result Unused (Used B.failures second.old second.new)
        (Used O.failures out.old out.new) Unused }
{
    let claim = claim_of(&lowered.circuit, choice, Claimed::Found)?;
    has_form(&lowered.circuit, claim)?;
    match lift_found_over(alloc, named, claim, lowered, second, out) {
        Ok(told) => Ok((claim, told)),
        Err(refusal) => Err(refusal),
    }
}

/// What is answered of a witness that is lifted.
fn lifted(lowered: LoweredFit, judgement: Judgement, firsts: FirstRises) -> LiftedFitted
    ensures { result ≡ record { model = lowered.model; circuit = lowered.circuit; judgement = judgement; firsts = firsts } }
{
    LiftedFitted {
        model: lowered.model,
        circuit: lowered.circuit,
        judgement,
        firsts,
    }
}

/// And of a counterexample.
fn found_lifted(
    lowered: LoweredFit,
    claim: usize,
    told: Result<(Judgement, FirstRises), RestoreFault>,
) -> FoundLiftedFitted
    ensures { result ≡ record { model = lowered.model; circuit = lowered.circuit; claim = claim; told = told } }
{
    FoundLiftedFitted {
        model: lowered.model,
        circuit: lowered.circuit,
        claim,
        told,
    }
}

/// Lifts a witness of the circuit to one of the model, and keeps both.
fn lift_lowered<B: Source, O: Sink>(
    alloc: Global,
    named: bool,
    lowered: LoweredFit,
    second: &mut B,
    out: &mut O,
) -> Result<LiftedFitted, Refusal>
    requires lowered { (known : Option (List ℕ)) × IsLoweredFit known lowered }
    ensures lifted { (known : Option (List ℕ)) → IsLoweredFit known lowered
        → IfOk result (IsLiftedFitted named known (B.to_come second.old) (O.written out.old)
        (O.written out.new)) }
    ensures refused { (known : Option (List ℕ)) → IsLoweredFit known lowered
        → IfErr result (IfInput (IsNotClaimable given_is.Fitted known)) }
    ensures ends { Ends result Unused (Used B.failures second.old second.new)
        (Used O.failures out.old out.new) Unused }
{
    match lift_claimable(alloc, named, &lowered, second, out) {
        Ok((judgement, firsts)) => Ok(lifted(lowered, judgement, firsts)),
        Err(refusal) => Err(refusal),
    }
}

/// The same of a witness of an engine form of the circuit.
fn lift_form_lowered<B: Source, O: Sink>(
    alloc: Global,
    named: bool,
    choice: Option<usize>,
    lowered: LoweredFit,
    second: &mut B,
    out: &mut O,
) -> Result<LiftedFitted, Refusal>
    requires lowered { (known : Option (List ℕ)) × IsLoweredFit known lowered }
    ensures lifted { (known : Option (List ℕ)) → IsLoweredFit known lowered
        → IfOk result (IsFormLiftedFitted named choice known (B.to_come second.old)
        (O.written out.old) (O.written out.new)) }
    ensures refused { (known : Option (List ℕ)) → IsLoweredFit known lowered
        → IfErr result (IfInput (IsNotForEngines given_is.Fitted choice known)) }
    ensures ends { Ends result Unused (Used B.failures second.old second.new)
        (Used O.failures out.old out.new) Unused }
{
    match lift_formed(alloc, named, choice, &lowered, second, out) {
        Ok((judgement, firsts)) => Ok(lifted(lowered, judgement, firsts)),
        Err(refusal) => Err(refusal),
    }
}

/// The same of a counterexample over one.
fn lift_found_lowered<B: Source, O: Sink>(
    alloc: Global,
    named: bool,
    choice: Option<usize>,
    lowered: LoweredFit,
    second: &mut B,
    out: &mut O,
) -> Result<FoundLiftedFitted, Refusal>
    requires lowered { (known : Option (List ℕ)) × IsLoweredFit known lowered }
    ensures lifted { (known : Option (List ℕ)) → IsLoweredFit known lowered
        → IfOk result (IsFoundLiftedFitted named choice known (B.to_come second.old)
        (O.written out.old) (O.written out.new)) }
    ensures refused { (known : Option (List ℕ)) → IsLoweredFit known lowered
        → IfErr result (IfInput (IsNotClaimed claimed_is.Found given_is.Fitted choice known)) }
    ensures ends { Ends result Unused (Used B.failures second.old second.new)
        (Used O.failures out.old out.new) Unused }
{
    match lift_claimed(alloc, named, choice, &lowered, second, out) {
        Ok((claim, told)) => Ok(found_lifted(lowered, claim, told)),
        Err(refusal) => Err(refusal),
    }
}

/// Lifts the second text, a witness of the circuit of the model that the model of the whole language of the first is fitted into, to
/// one of the model, with names or without.
pub fn lift_fitted<A: Source, B: Source, O: Sink, W: Watch>(
    alloc: Global,
    named: bool,
    first: &mut A,
    second: &mut B,
    out: &mut O,
    watch: &mut W,
) -> Result<LiftedFitted, Refusal>
    ensures lifted { IfOk result (IsLiftedFitted named (A.to_come first.old)
        (B.to_come second.old) (O.written out.old) (O.written out.new)) }
    ensures refused { IfErr result (IfInput (IsNotClaimable given_is.Fitted (A.to_come first.old))) }
    ensures ends { Ends result (Used A.failures first.old first.new)
        (Used B.failures second.old second.new) (Used O.failures out.old out.new) Unused }
{
    match lower_fit_first(alloc, first, watch) {
        Ok(lowered) => lift_lowered(alloc, named, lowered, second, out),
        Err(refusal) => Err(refusal),
    }
}

/// Lifts the second text, a counterexample as ABC writes it over the engine form, with the bad property that is claimed, of the
/// circuit of the model that the model of the whole language of the first is fitted into; with names or without.
pub fn lift_found_fitted<A: Source, B: Source, O: Sink, W: Watch>(
    alloc: Global,
    named: bool,
    choice: Option<usize>,
    first: &mut A,
    second: &mut B,
    out: &mut O,
    watch: &mut W,
) -> Result<FoundLiftedFitted, Refusal>
    ensures lifted { IfOk result (IsFoundLiftedFitted named choice (A.to_come first.old)
        (B.to_come second.old) (O.written out.old) (O.written out.new)) }
    ensures refused { IfErr result
        (IfInput (IsNotClaimed claimed_is.Found given_is.Fitted choice (A.to_come first.old))) }
    ensures ends { Ends result (Used A.failures first.old first.new)
        (Used B.failures second.old second.new) (Used O.failures out.old out.new) Unused }
{
    match lower_fit_first(alloc, first, watch) {
        Ok(lowered) => lift_found_lowered(alloc, named, choice, lowered, second, out),
        Err(refusal) => Err(refusal),
    }
}

/// Lifts the second text, a witness of the engine form, with all bad properties or the chosen one, of the circuit of the model that
/// the model of the whole language of the first is fitted into; with names or without.
pub fn lift_from_form_fitted<A: Source, B: Source, O: Sink, W: Watch>(
    alloc: Global,
    named: bool,
    choice: Option<usize>,
    first: &mut A,
    second: &mut B,
    out: &mut O,
    watch: &mut W,
) -> Result<LiftedFitted, Refusal>
    ensures lifted { IfOk result (IsFormLiftedFitted named choice (A.to_come first.old)
        (B.to_come second.old) (O.written out.old) (O.written out.new)) }
    ensures refused { IfErr result
        (IfInput (IsNotForEngines given_is.Fitted choice (A.to_come first.old))) }
    ensures ends { Ends result (Used A.failures first.old first.new)
        (Used B.failures second.old second.new) (Used O.failures out.old out.new) Unused }
{
    match lower_fit_first(alloc, first, watch) {
        Ok(lowered) => lift_form_lowered(alloc, named, choice, lowered, second, out),
        Err(refusal) => Err(refusal),
    }
}
