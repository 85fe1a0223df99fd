//! The calls that lift witnesses to ones of models of the whole language.
ghost use Rattle.std.specs.Prelude.{◌≡◌, ◌≤◌, Some};
ghost use Rattle.invocation.specs.declared.tasks.Given.TheVariants as given;
ghost use Rattle.verbs.specs.declared.refusals.Claimed.TheVariants as claimed;
ghost use Rattle.verbs.specs.Refusals.{IsNotClaimable, IsNotClaimed, IsNotForEngines};
ghost use Rattle.capi.specs.Buffers.{Fills, Needs};
ghost use Rattle.capi.specs.Flags.{choice_of};
ghost use Rattle.capi.specs.Fitted.{CallLiftsFitted, CallLiftsFormFitted, CallLiftsFoundFitted};
ghost use Rattle.capi.specs.Stops.{Stops};

use crate::answers::{Refusal, Verdict, tell};
use crate::buffers::hand_over;
use crate::flags::choice_of;
use base::VecSink;
use blast::Unwatched;
use std::alloc::Global;
use verbs::{lift_fitted, lift_found_fitted, lift_from_form_fitted};

/// Judges the text of a witness over the circuit of the model that a BTOR2 model of the whole language is fitted into, and lifts it to
/// the witness of the model that says the same, with names or without. The verdict is that it makes no claim or which line is faulty,
/// before which what the lines give is lifted; else what is judged over the model of what it is lifted to.
///
/// Answers 0 where what it is lifted to stands at the front of the buffer, whose bytes behind it stay, and 1 where that is
/// longer than the buffer, which stays then: after both `needed` is its length, and the verdict is told. 2 where the first text is
/// no model of the whole language, with the number and the line of its first fault; 3 where the model is not written out, not fitted or
/// not lowered, with the number of what speaks against it first and the id of its item, or 0; 4 where memory was wanting. With 0, 1
/// and 4 the refusal stays, and without 0 and 1 verdict, buffer and `needed` do.
#[unsafe(no_mangle)]
pub extern "C" fn hwtool_lift_fit(
    alloc: Global,
    model: &[u8],
    names: bool,
    witness: &[u8],
    verdict: &mut Verdict,
    buffer: &mut [u8],
    needed: &mut usize,
    refusal: &mut Refusal,
) -> u32
    ensures done { result ≡ 0 → Fills (CallLiftsFitted names model.now witness.now verdict.new)
        buffer.old buffer.new needed.new }
    ensures small { result ≡ 1 → Needs (CallLiftsFitted names model.now witness.now verdict.new)
        buffer.old buffer.new needed.new }
    ensures stops { 2 ≤ result → Stops (IsNotClaimable given.Fitted (Some model.now)) (λ _. ⊥)
        result refusal.old refusal.new }
    ensures statuses { result ≤ 5 }
    ensures unwritten { 2 ≤ result → (verdict.new ≡ verdict.old)
        × ((buffer.new ≡ buffer.old) × (needed.new ≡ needed.old)) }
    ensures refusal_stays { result ≤ 1 → refusal.new ≡ refusal.old }
{
    let (mut first, mut second) = (model, witness);
    let mut text = VecSink::new(alloc);
    match lift_fitted(
        alloc,
        names,
        &mut first,
        &mut second,
        &mut text,
        &mut Unwatched,
    ) {
        Ok(lifted) => {
            *verdict = Verdict::of(&lifted.judgement);
            hand_over(text.bytes(), buffer, needed)
        }
        Err(against) => tell(against, refusal),
    }
}

/// The same of a witness of the engine form, with all bad properties, or, where one is chosen, with the one at this position alone, of
/// that circuit, as `hwtool_lift_engine` takes it.
///
/// Answers as `hwtool_lift_fit`, and 3 also where the circuit has no such engine form.
#[unsafe(no_mangle)]
pub extern "C" fn hwtool_lift_engine_fit(
    alloc: Global,
    model: &[u8],
    chosen: bool,
    bad: usize,
    names: bool,
    witness: &[u8],
    verdict: &mut Verdict,
    buffer: &mut [u8],
    needed: &mut usize,
    refusal: &mut Refusal,
) -> u32
    ensures done { result ≡ 0 → Fills (CallLiftsFormFitted names (choice_of chosen bad) model.now
        witness.now verdict.new) buffer.old buffer.new needed.new }
    ensures small { result ≡ 1 → Needs (CallLiftsFormFitted names (choice_of chosen bad) model.now
        witness.now verdict.new) buffer.old buffer.new needed.new }
    ensures stops { 2 ≤ result → Stops
        (IsNotForEngines given.Fitted (choice_of chosen bad) (Some model.now)) (λ _. ⊥) result
        refusal.old refusal.new }
    ensures statuses { result ≤ 5 }
    ensures unwritten { 2 ≤ result → (verdict.new ≡ verdict.old)
        × ((buffer.new ≡ buffer.old) × (needed.new ≡ needed.old)) }
    ensures refusal_stays { result ≤ 1 → refusal.new ≡ refusal.old }
{
    let (mut first, mut second) = (model, witness);
    let mut text = VecSink::new(alloc);
    match lift_from_form_fitted(
        alloc,
        names,
        choice_of(chosen, bad),
        &mut first,
        &mut second,
        &mut text,
        &mut Unwatched,
    ) {
        Ok(lifted) => {
            *verdict = Verdict::of(&lifted.judgement);
            hand_over(text.bytes(), buffer, needed)
        }
        Err(against) => tell(against, refusal),
    }
}

/// The same of a counterexample over the engine form with the bad property at this position, as `hwtool_lift_engine_abc` takes it. The
/// verdict is what is judged over the model of what it is lifted to; or that a line is malformed, with its number from 1 and the number
/// of what is wrong with it.
///
/// Answers as `hwtool_lift_engine_fit`.
#[unsafe(no_mangle)]
pub extern "C" fn hwtool_lift_engine_abc_fit(
    alloc: Global,
    model: &[u8],
    bad: usize,
    names: bool,
    found: &[u8],
    verdict: &mut Verdict,
    buffer: &mut [u8],
    needed: &mut usize,
    refusal: &mut Refusal,
) -> u32
    ensures done { result ≡ 0 → Fills
        (CallLiftsFoundFitted names (Some bad) model.now found.now verdict.new) buffer.old
        buffer.new needed.new }
    ensures small { result ≡ 1 → Needs
        (CallLiftsFoundFitted names (Some bad) model.now found.now verdict.new) buffer.old
        buffer.new needed.new }
    ensures stops { 2 ≤ result → Stops
        (IsNotClaimed claimed.Found given.Fitted (Some bad) (Some model.now)) (λ _. ⊥) result
        refusal.old refusal.new }
    ensures statuses { result ≤ 5 }
    ensures unwritten { 2 ≤ result → (verdict.new ≡ verdict.old)
        × ((buffer.new ≡ buffer.old) × (needed.new ≡ needed.old)) }
    ensures refusal_stays { result ≤ 1 → refusal.new ≡ refusal.old }
{
    let (mut first, mut second) = (model, found);
    let mut text = VecSink::new(alloc);
    match lift_found_fitted(
        alloc,
        names,
        Some(bad),
        &mut first,
        &mut second,
        &mut text,
        &mut Unwatched,
    ) {
        Ok(lifted) => {
            *verdict = Verdict::of_lifted(&lifted.told);
            hand_over(text.bytes(), buffer, needed)
        }
        Err(against) => tell(against, refusal),
    }
}
