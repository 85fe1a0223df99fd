//! Lifting: what is found over the circuit of a model, or over an engine form of that, becomes a witness of the model.

ghost use Rattle.std.specs.Prelude.{IfOk, IfErr};
ghost use Rattle.invocation.specs.declared.tasks.Given.TheVariants as given_is;
ghost use Rattle.verbs.specs.declared.refusals.Claimed.TheVariants as claimed_is;
ghost use Rattle.verbs.specs.Lifting.{IsFormLifted, IsFoundLifted, IsLifted};
ghost use Rattle.verbs.specs.Refusals.{IsNotClaimable, IsNotClaimed, IsNotForEngines};
ghost use Rattle.verbs.specs.Statuses.{Ends, IfInput};
ghost use Rattle.verbs.specs.Statuses.Use.{Unused, Used};

use crate::claims::{claim_of, claimable, has_form};
use crate::given::{Lowered, lower_first};
use crate::refusals::{Claimed, Refusal};
use crate::told::{of_form, of_text};
use base::{Sink, Source};
use blast::Watch;
use engine_form::engine_form;
use lift::{lift_form, lift_restored, lift_with_rises};
use restore::RestoreFault;
use rises::FirstRises;
use std::alloc::Global;
use witness::Judgement;

/// A witness that is lifted to one of a model, and how it is judged.
#[derive(Drop)]
pub struct Lifted {
    /// The model, and the circuit that lowers it.
    pub lowered: Lowered,
    /// What is judged of the witness, and so of what it is lifted to.
    pub judgement: Judgement,
    /// With names in which frames the claims of an acceptance are reached first.
    pub firsts: FirstRises,
}

/// A counterexample over an engine form that is lifted to a witness of a model, and how it is judged.
#[derive(Drop)]
pub struct FoundLifted {
    /// The model, and the circuit that lowers it.
    pub lowered: Lowered,
    /// The position of the bad property that is claimed.
    pub claim: usize,
    /// What is judged of what it is restored to, and with names in which frame the claim is reached first; or its first faulty
    /// line, before which what the lines give is lifted.
    pub told: Result<(Judgement, FirstRises), RestoreFault>,
}

/// Lifts the second text, a witness of the circuit of the model that the first gives, with names or without.
pub fn lift<A: Source, B: Source, O: Sink, W: Watch>(
    alloc: Global,
    named: bool,
    first: &mut A,
    second: &mut B,
    out: &mut O,
    watch: &mut W,
) -> Result<Lifted, Refusal>
    ensures lifted { IfOk result (IsLifted named (A.to_come first.old) (B.to_come second.old)
        (O.written out.old) (O.written out.new)) }
    ensures refused { IfErr result (IfInput (IsNotClaimable given_is.Model (A.to_come first.old))) }
    ensures ends { Ends result (Used A.failures first.old first.new)
        (Used B.failures second.old second.new) (Used O.failures out.old out.new) Unused }
{
    let lowered = lower_first(alloc, first, watch)?;
    claimable(&lowered.circuit)?;
    match lift_with_rises(alloc, &lowered.model, &lowered.circuit, named, second, out) {
        Ok((judgement, firsts)) => Ok(Lifted {
            lowered,
            judgement,
            firsts,
        }),
        Err(fault) => Err(Refusal::from(fault)),
    }
}

/// Lifts the second text, a counterexample as ABC writes it over the engine form, with the bad property that is claimed, of the
/// circuit of the model that the first gives; with names or without.
pub fn lift_found<A: Source, B: Source, O: Sink, W: Watch>(
    alloc: Global,
    named: bool,
    choice: Option<usize>,
    first: &mut A,
    second: &mut B,
    out: &mut O,
    watch: &mut W,
) -> Result<FoundLifted, Refusal>
    ensures lifted { IfOk result (IsFoundLifted named choice (A.to_come first.old)
        (B.to_come second.old) (O.written out.old) (O.written out.new)) }
    ensures refused { IfErr result
        (IfInput (IsNotClaimed claimed_is.Found given_is.Model choice (A.to_come first.old))) }
    ensures ends { Ends result (Used A.failures first.old first.new)
        (Used B.failures second.old second.new) (Used O.failures out.old out.new) Unused }
{
    let lowered = lower_first(alloc, first, watch)?;
    let claim = claim_of(&lowered.circuit, choice, Claimed::Found)?;
    has_form(&lowered.circuit, claim)?;
    let told = lift_restored(
        alloc,
        &lowered.model,
        &lowered.circuit,
        claim,
        named,
        second,
        out,
    );
    Ok(FoundLifted {
        lowered,
        claim,
        told: of_text(told)?,
    })
}

/// Lifts the second text, a witness of the engine form, with all bad properties or the chosen one, of the circuit of the model
/// that the first gives; with names or without.
pub fn lift_from_form<A: Source, B: Source, O: Sink, W: Watch>(
    alloc: Global,
    named: bool,
    choice: Option<usize>,
    first: &mut A,
    second: &mut B,
    out: &mut O,
    watch: &mut W,
) -> Result<Lifted, Refusal>
    ensures lifted { IfOk result (IsFormLifted named choice (A.to_come first.old)
        (B.to_come second.old) (O.written out.old) (O.written out.new)) }
    ensures refused { IfErr result
        (IfInput (IsNotForEngines given_is.Model choice (A.to_come first.old))) }
    ensures ends { Ends result (Used A.failures first.old first.new)
        (Used B.failures second.old second.new) (Used O.failures out.old out.new) Unused }
{
    let lowered = lower_first(alloc, first, watch)?;
    let form = engine_form(alloc, &lowered.circuit, choice)?;
    let told = lift_form(
        alloc,
        &lowered.model,
        &lowered.circuit,
        &form,
        choice,
        named,
        second,
        out,
    );
    let (judgement, firsts) = of_form(told)?;
    Ok(Lifted {
        lowered,
        judgement,
        firsts,
    })
}
