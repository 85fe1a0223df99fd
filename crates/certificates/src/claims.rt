//! The formula that an invariant owes for a bad property of a circuit.
ghost use Rattle.std.specs.Prelude.{◌≡◌, IfErr, IfOk, OnOk, length};
ghost use Rattle.std.specs.Io.KnownBytes.{IsAtEnd};
ghost use Rattle.certificates.specs.Certificates.{CountsClaim, IsOwed, IsOwedOver, OwesNone, OwesNoneOver, WithoutForm};

use crate::claim_fault::ClaimFault;
use crate::obligations::obligation;
use crate::reader::read_invariant;
use aiger::Circuit;
use base::Source;
use drup::Formula;
use engine_form::engine_form;
use std::alloc::Global;

/// The formula that the text of an invariant owes over an engine form with one bad property.
fn formula_over<S: Source>(
    alloc: Global,
    form: &Circuit,
    invariant: &mut S,
) -> Result<Formula, ClaimFault>
    ensures ok { IfOk result (IsOwedOver form.now (S.to_come invariant.old)) }
    ensures end { OnOk result (IsAtEnd (S.to_come invariant.new)) }
    ensures fault { IfErr result (OwesNoneOver form.now (S.to_come invariant.old)) }
    ensures counted { CountsClaim result (S.failures invariant.old) (S.failures invariant.new) }
{
    let latches = form.latches().len() as u32;
    let invariant = read_invariant(alloc, latches, invariant)?;
    let _ = invariant.latches();
    Ok(obligation(alloc, form, &invariant)?)
}

/// The formula that the text of an invariant owes for the bad property of a circuit at a position, from 0: its obligation
/// over the engine form of the circuit with this property alone. Where nothing satisfies it, the property rises in no
/// frame up to which the circuit's constraints hold.
///
/// Errors, of which the first that applies in this order is answered: `Form` where the circuit has no such engine form, and
/// then nothing is read; `Invariant` with the first faulty line of the text, or where its source failed; `Obligation` where
/// the formula would have too many variables. Each of them tells want of memory too.
pub fn owed_formula<S: Source>(
    alloc: Global,
    circuit: &Circuit,
    bad: usize,
    invariant: &mut S,
) -> Result<Formula, ClaimFault>
    ensures ok { IfOk result (IsOwed circuit.now bad (S.to_come invariant.old)) }
    ensures end { OnOk result (IsAtEnd (S.to_come invariant.new)) }
    ensures fault { IfErr result (OwesNone circuit.now bad (S.to_come invariant.old)) }
    ensures unread { WithoutForm result (invariant.new ≡ invariant.old) }
    // the source failed once where that is told, and else not at all
    ensures counted { CountsClaim result (S.failures invariant.old) (S.failures invariant.new) }
{
    let form = engine_form(alloc, circuit, Some(bad))?;
    formula_over(alloc, &form, invariant)
}
