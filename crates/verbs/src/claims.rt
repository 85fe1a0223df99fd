//! Which bad property of a circuit is claimed.

ghost use Rattle.std.specs.Prelude.{◌≡◌, ◌≢◌, ◌<◌, None, Some, IfOk, IfErr, OnOk, length};
ghost use Rattle.engine_form.specs.Refusal.{engine_refusal};
ghost use Rattle.verbs.specs.Claims.{CanBeClaimed, IsClaim};
ghost use Rattle.verbs.specs.Refusals.{HasOutputsAlone, IsUnclaimed, IsUnguarded, IsWithoutForm};
ghost use Rattle.verbs.specs.Statuses.{Ends, IfInput};
ghost use Rattle.verbs.specs.Statuses.Use.{Unused};

use crate::refusals::{Claimed, Fault, Refusal};
use aiger::Circuit;
use engine_form::{EngineFault, why_no_form};

/// Why no bad property of a circuit is claimed, where none is chosen: there is none, or there are several.
fn unclaimed(circuit: &Circuit, claimed: Claimed) -> Fault
    requires { length circuit.now.bads ≢ 1 }
    ensures { IsUnclaimed claimed circuit.now result }
{
    match why_no_form(circuit, None) {
        Some(fault) if circuit.bads().is_empty() => Fault::Engine(fault),
        _ => Fault::Unchosen(claimed),
    }
}

/// The bad property of a circuit that is claimed: the chosen one, or the only one.
pub fn claim_of(circuit: &Circuit, choice: Option<usize>, claimed: Claimed) -> Result<usize, Fault>
    ensures claim { IfOk result (λ claim. IsClaim choice circuit.now claim) }
    ensures unclaimed { IfErr result (λ f. (choice ≡ None) × IsUnclaimed claimed circuit.now f) }
{
    match choice {
        Some(position) => Ok(position),
        None if circuit.bads().len() == 1 => Ok(0),
        None => Err(unclaimed(circuit, claimed)),
    }
}

/// Whether a circuit has an engine form with this bad property alone.
pub fn has_form(circuit: &Circuit, claim: usize) -> Result<(), Refusal>
    ensures accepted { OnOk result (engine_refusal circuit.now (Some claim) ≡ None) }
    ensures there { OnOk result (claim < length circuit.now.bads) }
    ensures refused { IfErr result (IfInput (IsWithoutForm circuit.now (Some claim))) }
    ensures ends { Ends result Unused Unused Unused Unused }
{
    match why_no_form(circuit, Some(claim)) {
        Some(fault) => Err(Refusal::from(fault)),
        None => Ok(()),
    }
}

/// Refuses a circuit that has outputs, as before AIGER 1.9, and no bad property that a witness could claim.
pub fn claimable(circuit: &Circuit) -> Result<(), Refusal>
    ensures claimable { OnOk result (CanBeClaimed circuit.now) }
    ensures refused { IfErr result (IfInput (HasOutputsAlone circuit.now)) }
    ensures ends { Ends result Unused Unused Unused Unused }
{
    if circuit.bads().is_empty() && !circuit.outputs().is_empty() {
        return Err(Refusal::from(EngineFault::NoBad));
    }
    Ok(())
}
