//! The calls that lift witnesses to ones of models, and dump those of models.
ghost use Rattle.std.specs.Prelude.{◌≡◌, ◌≤◌, Some};
ghost use Rattle.invocation.specs.declared.tasks.Given.TheVariants as given;
ghost use Rattle.verbs.specs.declared.refusals.Claimed.TheVariants as claimed;
ghost use Rattle.verbs.specs.Refusals.{IsNotClaimable, IsNotClaimed, IsNotForEngines, IsNotJudged};
ghost use Rattle.capi.specs.Buffers.{Fills, Needs};
ghost use Rattle.capi.specs.Flags.{choice_of, shown_of};
ghost use Rattle.capi.specs.Lifted.{CallDumps, CallLifts, CallLiftsForm, CallLiftsFound};
ghost use Rattle.capi.specs.Stops.{Stops};

use crate::answers::{Refusal, Verdict, tell};
use crate::buffers::hand_over;
use crate::flags::{choice_of, shown_of};
use base::VecSink;
use blast::Unwatched;
use std::alloc::Global;
use verbs::{dump, lift, lift_found, lift_from_form};

/// Judges the text of a witness over the circuit that the text of a BTOR2 model lowers to, and lifts it to the witness of the
/// model that says the same.
///
/// Answers 0 where what it is lifted to stands at the front of the buffer, whose bytes behind it stay, and 1 where that is
/// longer than the buffer, which stays then: after both `needed` is its length, and the verdict is told. 2 where the first text
/// is no model, with the number and the line of its first fault; 3 where the model is not lowered, with the number of what
/// speaks against it first and the id of its item, or 0, or where its circuit has outputs and no bad property, with the number
/// of that; 4 where memory was wanting. With 0, 1 and 4 the refusal stays, and without 0 and 1 verdict, buffer and `needed` do.
#[unsafe(no_mangle)]
pub extern "C" fn hwtool_lift(
    alloc: Global,
    model: &[u8],
    witness: &[u8],
    verdict: &mut Verdict,
    buffer: &mut [u8],
    needed: &mut usize,
    refusal: &mut Refusal,
) -> u32
    ensures done { result ≡ 0 → Fills (CallLifts model.now witness.now verdict.new) buffer.old
        buffer.new needed.new }
    ensures small { result ≡ 1 → Needs (CallLifts model.now witness.now verdict.new) buffer.old
        buffer.new needed.new }
    ensures stops { 2 ≤ result → Stops (IsNotClaimable given.Model (Some model.now)) (λ _. ⊥) result
        refusal.old refusal.new }
    ensures statuses { result ≤ 5 }
    ensures unwritten { 2 ≤ result → (verdict.new ≡ verdict.old)
        × ((buffer.new ≡ buffer.old) × (needed.new ≡ needed.old)) }
    ensures refusal_stays { result ≤ 1 → refusal.new ≡ refusal.old }
{
    let (mut first, mut second) = (model, witness);
    let mut text = VecSink::new(alloc);
    match lift(
        alloc,
        false,
        &mut first,
        &mut second,
        &mut text,
        &mut Unwatched,
    ) {
        Ok(lifted) => {
            *verdict = Verdict::of(&lifted.judgement);
            hand_over(text.bytes(), buffer, needed)
        }
        Err(against) => tell(against, refusal),
    }
}

/// Lifts the text of a witness of the engine form, with all bad properties, or, where one is chosen, with the one at this
/// position alone, of the circuit that the text of a BTOR2 model lowers to, to the witness of the model that says the same,
/// with names or without: with the property that it claims, up to and with the first frame in which this rises, or of all
/// frames where it does not. The verdict is that it makes no claim or which line is faulty, before which what the lines give is
/// lifted; else what is judged over the circuit of what it is restored to.
///
/// Answers 0 where what it is lifted to stands at the front of the buffer, whose bytes behind it stay, and 1 where that is
/// longer than the buffer, which stays then: after both `needed` is its length, and the verdict is told. 2 where the first text
/// is no model, with the number and the line of its first fault; 3 where the model is not lowered or its circuit has no such
/// engine form, with the number of what speaks against it first and the id of an item, or 0; 4 where memory was wanting. With
/// 0, 1 and 4 the refusal stays, and without 0 and 1 verdict, buffer and `needed` do.
#[unsafe(no_mangle)]
pub extern "C" fn hwtool_lift_engine(
    alloc: Global,
    model: &[u8],
    chosen: bool,
    bad: usize,
    names: bool,
    witness: &[u8],
    verdict: &mut Verdict,
    buffer: &mut [u8],
    needed: &mut usize,
    refusal: &mut Refusal,
) -> u32
    ensures done { result ≡ 0 → Fills (CallLiftsForm names (choice_of chosen bad) model.now
        witness.now verdict.new) buffer.old buffer.new needed.new }
    ensures small { result ≡ 1 → Needs (CallLiftsForm names (choice_of chosen bad) model.now
        witness.now verdict.new) buffer.old buffer.new needed.new }
    ensures stops { 2 ≤ result → Stops
        (IsNotForEngines given.Model (choice_of chosen bad) (Some model.now)) (λ _. ⊥) result
        refusal.old refusal.new }
    ensures statuses { result ≤ 5 }
    ensures unwritten { 2 ≤ result → (verdict.new ≡ verdict.old)
        × ((buffer.new ≡ buffer.old) × (needed.new ≡ needed.old)) }
    ensures refusal_stays { result ≤ 1 → refusal.new ≡ refusal.old }
{
    let (mut first, mut second) = (model, witness);
    let mut text = VecSink::new(alloc);
    match lift_from_form(
        alloc,
        names,
        choice_of(chosen, bad),
        &mut first,
        &mut second,
        &mut text,
        &mut Unwatched,
    ) {
        Ok(lifted) => {
            *verdict = Verdict::of(&lifted.judgement);
            hand_over(text.bytes(), buffer, needed)
        }
        Err(against) => tell(against, refusal),
    }
}

/// Lifts the text of a counterexample over the engine form with the bad property at this position, of the circuit that the text
/// of a BTOR2 model lowers to, as ABC writes it: a line of initial bits, which are 0, and a line of input bits for each frame.
/// It becomes the witness of the model that claims this property, with names or without, up to and with the first frame in
/// which this rises, or of all frames where it does not. The verdict is what is judged over the circuit of what it is restored
/// to; or that a line is malformed, with its number from 1 and the number of what is wrong with it, and then what the lines
/// before it give is lifted, without a last line.
///
/// Answers as `hwtool_lift_engine`: 3 where the model is not lowered or its circuit has no engine form with this bad property
/// alone.
#[unsafe(no_mangle)]
pub extern "C" fn hwtool_lift_engine_abc(
    alloc: Global,
    model: &[u8],
    bad: usize,
    names: bool,
    found: &[u8],
    verdict: &mut Verdict,
    buffer: &mut [u8],
    needed: &mut usize,
    refusal: &mut Refusal,
) -> u32
    ensures done { result ≡ 0 → Fills
        (CallLiftsFound names (Some bad) model.now found.now verdict.new) buffer.old buffer.new
        needed.new }
    ensures small { result ≡ 1 → Needs
        (CallLiftsFound names (Some bad) model.now found.now verdict.new) buffer.old buffer.new
        needed.new }
    ensures stops { 2 ≤ result → Stops
        (IsNotClaimed claimed.Found given.Model (Some bad) (Some model.now)) (λ _. ⊥) result
        refusal.old refusal.new }
    ensures statuses { result ≤ 5 }
    ensures unwritten { 2 ≤ result → (verdict.new ≡ verdict.old)
        × ((buffer.new ≡ buffer.old) × (needed.new ≡ needed.old)) }
    ensures refusal_stays { result ≤ 1 → refusal.new ≡ refusal.old }
{
    let (mut first, mut second) = (model, found);
    let mut text = VecSink::new(alloc);
    match lift_found(
        alloc,
        names,
        Some(bad),
        &mut first,
        &mut second,
        &mut text,
        &mut Unwatched,
    ) {
        Ok(lifted) => {
            *verdict = Verdict::of_lifted(&lifted.told);
            hand_over(text.bytes(), buffer, needed)
        }
        Err(against) => tell(against, refusal),
    }
}

/// Judges the text of a witness over the text of a BTOR2 model, and writes its frames as a value change dump (IEEE 1364), with
/// a title in its comment: of nodes that are no inputs, states, properties or outputs those that have a symbol, or all.
///
/// Answers 0 where the dump stands at the front of the buffer, whose bytes behind it stay, and 1 where it is longer than the
/// buffer, which stays then: after both `needed` is its length, and the verdict is told. 2 where the first text is no model,
/// with the number and the line of its first fault; 3 where a state has an init and no next, with the number of that and the id
/// of the first such state; 4 where memory was wanting. With 0, 1 and 4 the refusal stays, and without 0 and 1 verdict, buffer
/// and `needed` do.
#[unsafe(no_mangle)]
pub extern "C" fn hwtool_wave(
    alloc: Global,
    model: &[u8],
    all: bool,
    title: &[u8],
    witness: &[u8],
    verdict: &mut Verdict,
    buffer: &mut [u8],
    needed: &mut usize,
    refusal: &mut Refusal,
) -> u32
    ensures done { result ≡ 0 → Fills
        (CallDumps (shown_of all) title.now model.now witness.now verdict.new) buffer.old buffer.new
        needed.new }
    ensures small { result ≡ 1 → Needs
        (CallDumps (shown_of all) title.now model.now witness.now verdict.new) buffer.old buffer.new
        needed.new }
    ensures stops { 2 ≤ result → Stops (IsNotJudged (Some model.now)) (λ _. ⊥) result refusal.old
        refusal.new }
    ensures statuses { result ≤ 5 }
    ensures unwritten { 2 ≤ result → (verdict.new ≡ verdict.old)
        × ((buffer.new ≡ buffer.old) × (needed.new ≡ needed.old)) }
    ensures refusal_stays { result ≤ 1 → refusal.new ≡ refusal.old }
{
    let (mut first, mut second) = (model, witness);
    let mut text = VecSink::new(alloc);
    match dump(
        alloc,
        shown_of(all),
        title,
        &mut first,
        &mut second,
        &mut text,
    ) {
        Ok(judgement) => {
            *verdict = Verdict::of(&judgement);
            hand_over(text.bytes(), buffer, needed)
        }
        Err(against) => tell(against, refusal),
    }
}
