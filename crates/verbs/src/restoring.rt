//! Restoring: what is found over an engine form of a circuit becomes a witness of the circuit.

ghost use Rattle.std.specs.Prelude.{IfOk, IfErr};
ghost use Rattle.invocation.specs.declared.tasks.Given.TheVariants as given_is;
ghost use Rattle.verbs.specs.declared.refusals.Claimed.TheVariants as claimed_is;
ghost use Rattle.verbs.specs.Refusals.{IsNotClaimed, IsNotForEngines};
ghost use Rattle.verbs.specs.Restoring.{IsFormRestored, IsFoundRestored};
ghost use Rattle.verbs.specs.Statuses.{Ends, IfInput};
ghost use Rattle.verbs.specs.Statuses.Use.{Unused, Used};

use crate::claims::{claim_of, has_form};
use crate::reading::read_circuit;
use crate::refusals::{Claimed, Refusal};
use crate::told::{of_form, of_text};
use aiger::Circuit;
use base::{Sink, Source};
use engine_form::engine_form;
use restore::{RestoreFault, restore, restore_form};
use std::alloc::Global;
use witness::Judgement;

/// A witness that is restored to one of a circuit, and how it is judged.
#[derive(Drop)]
pub struct Restored {
    /// The circuit.
    pub circuit: Circuit,
    /// What is judged of the witness, and so of what it is restored to.
    pub judgement: Judgement,
}

/// A counterexample over an engine form that is restored to a witness of a circuit, and how it is judged.
#[derive(Drop)]
pub struct FoundRestored {
    /// The circuit.
    pub circuit: Circuit,
    /// The position of the bad property that is claimed.
    pub claim: usize,
    /// What is judged of what it is restored to; or its first faulty line, before which what the lines give is restored.
    pub told: Result<Judgement, RestoreFault>,
}

/// Restores the second text, a counterexample as ABC writes it over the engine form, with the bad property that is claimed, of
/// the circuit of the first.
pub fn restore_found<A: Source, B: Source, O: Sink>(
    alloc: Global,
    choice: Option<usize>,
    first: &mut A,
    second: &mut B,
    out: &mut O,
) -> Result<FoundRestored, Refusal>
    ensures restored { IfOk result (IsFoundRestored choice (A.to_come first.old)
        (B.to_come second.old) (O.written out.old) (O.written out.new)) }
    ensures refused { IfErr result
        (IfInput (IsNotClaimed claimed_is.Found given_is.Circuit choice (A.to_come first.old))) }
    ensures ends { Ends result (Used A.failures first.old first.new)
        (Used B.failures second.old second.new) (Used O.failures out.old out.new) Unused }
{
    let circuit = read_circuit(alloc, first)?;
    // the lists of a circuit are one
    let _ = circuit.inputs();
    let claim = claim_of(&circuit, choice, Claimed::Found)?;
    has_form(&circuit, claim)?;
    let told = restore(alloc, &circuit, claim, second, out);
    Ok(FoundRestored {
        circuit,
        claim,
        told: of_text(told)?,
    })
}

/// Restores the second text, a witness of the engine form, with all bad properties or the chosen one, of the circuit of the
/// first.
pub fn restore_from_form<A: Source, B: Source, O: Sink>(
    alloc: Global,
    choice: Option<usize>,
    first: &mut A,
    second: &mut B,
    out: &mut O,
) -> Result<Restored, Refusal>
    ensures restored { IfOk result (IsFormRestored choice (A.to_come first.old)
        (B.to_come second.old) (O.written out.old) (O.written out.new)) }
    ensures refused { IfErr result
        (IfInput (IsNotForEngines given_is.Circuit choice (A.to_come first.old))) }
    ensures ends { Ends result (Used A.failures first.old first.new)
        (Used B.failures second.old second.new) (Used O.failures out.old out.new) Unused }
{
    let circuit = read_circuit(alloc, first)?;
    // the lists of a circuit are one
    let _ = circuit.inputs();
    let form = engine_form(alloc, &circuit, choice)?;
    let told = restore_form(alloc, &circuit, &form, choice, second, out);
    let judgement = of_form(told)?;
    Ok(Restored { circuit, judgement })
}
