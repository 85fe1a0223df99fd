//! The calls on witnesses of fitted models.
ghost use Rattle.std.specs.Prelude.{◌≡◌, ◌≤◌, Some};
ghost use Rattle.verbs.specs.Fitting.{IsNotFitted};
ghost use Rattle.capi.specs.Buffers.{Fills, Needs};
ghost use Rattle.capi.specs.Fitted.{CallJudgesFitted, CallSpreads, CallUnfits};
ghost use Rattle.capi.specs.Stops.{Stops};

use crate::answers::{DONE, Refusal, Verdict, tell};
use crate::buffers::hand_over;
use base::VecSink;
use std::alloc::Global;
use verbs::{judge_fitted, spread, unfit};

/// Judges the text of a witness over the text of a BTOR2 model of the whole language, with words and arrays of up to 1,048,576 bits.
///
/// Answers 0 with what is judged, of a witness of at most 2^44 lines; 2 where the first text is no such model, with the number
/// and the line of its first fault; 3 where the model is not written out, or not fitted into one of words of at most 64 bits, with
/// the number of what speaks against it first and the id of its item; 4 where memory was wanting. Without 0 the verdict stays, and
/// with 0 and 4 the refusal does.
#[unsafe(no_mangle)]
pub extern "C" fn hwtool_check_btor_fit(
    alloc: Global,
    model: &[u8],
    witness: &[u8],
    verdict: &mut Verdict,
    refusal: &mut Refusal,
) -> u32
    ensures done { result ≡ 0 → CallJudgesFitted model.now witness.now verdict.new }
    ensures stops { 1 ≤ result → Stops (IsNotFitted (Some model.now)) (λ _. ⊥) result refusal.old
        refusal.new }
    ensures statuses { result ≤ 5 }
    ensures unwritten { 1 ≤ result → verdict.new ≡ verdict.old }
    ensures refusal_stays { result ≡ 0 → refusal.new ≡ refusal.old }
{
    let (mut first, mut second) = (model, witness);
    match judge_fitted(alloc, &mut first, &mut second) {
        Ok(judgement) => {
            *verdict = Verdict::of(&judgement);
            DONE
        }
        Err(against) => tell(against, refusal),
    }
}

/// Writes the witness of a BTOR2 model, with names or without, that says what the text of a witness of the fitted model says, and
/// tells how it is judged. The model is one of the whole language.
///
/// Answers 0 where the witness stands at the front of the buffer, whose bytes behind it stay, and 1 where it is longer than the
/// buffer, which stays then: after both `needed` is its length, and the verdict is told. Else 2, 3 and 4 as of
/// `hwtool_check_btor_fit`. With 0, 1 and 4 the refusal stays, and without 0 and 1 verdict, buffer and `needed` do.
#[unsafe(no_mangle)]
pub extern "C" fn hwtool_unfit(
    alloc: Global,
    model: &[u8],
    names: bool,
    witness: &[u8],
    verdict: &mut Verdict,
    buffer: &mut [u8],
    needed: &mut usize,
    refusal: &mut Refusal,
) -> u32
    ensures done { result ≡ 0 → Fills (CallUnfits names model.now witness.now verdict.new) buffer.old
        buffer.new needed.new }
    ensures small { result ≡ 1 → Needs (CallUnfits names model.now witness.now verdict.new)
        buffer.old buffer.new needed.new }
    ensures stops { 2 ≤ result → Stops (IsNotFitted (Some model.now)) (λ _. ⊥) result refusal.old
        refusal.new }
    ensures statuses { result ≤ 5 }
    ensures unwritten { 2 ≤ result → (verdict.new ≡ verdict.old)
        × ((buffer.new ≡ buffer.old) × (needed.new ≡ needed.old)) }
    ensures refusal_stays { result ≤ 1 → refusal.new ≡ refusal.old }
{
    let (mut first, mut second) = (model, witness);
    let mut text = VecSink::new(alloc);
    match unfit(alloc, names, &mut first, &mut second, &mut text) {
        Ok(judgement) => {
            *verdict = Verdict::of(&judgement);
            hand_over(text.bytes(), buffer, needed)
        }
        Err(against) => tell(against, refusal),
    }
}

/// Writes the witness of the fitted model that says what the text of a witness of a BTOR2 model of the whole language says, and tells
/// how that is judged.
///
/// It answers 0 and 1 as `hwtool_unfit` does, and else as `hwtool_check_btor_fit`.
#[unsafe(no_mangle)]
pub extern "C" fn hwtool_unfit_back(
    alloc: Global,
    model: &[u8],
    witness: &[u8],
    verdict: &mut Verdict,
    buffer: &mut [u8],
    needed: &mut usize,
    refusal: &mut Refusal,
) -> u32
    ensures done { result ≡ 0 → Fills (CallSpreads model.now witness.now verdict.new) buffer.old
        buffer.new needed.new }
    ensures small { result ≡ 1 → Needs (CallSpreads model.now witness.now verdict.new) buffer.old
        buffer.new needed.new }
    ensures stops { 2 ≤ result → Stops (IsNotFitted (Some model.now)) (λ _. ⊥) result refusal.old
        refusal.new }
    ensures statuses { result ≤ 5 }
    ensures unwritten { 2 ≤ result → (verdict.new ≡ verdict.old)
        × ((buffer.new ≡ buffer.old) × (needed.new ≡ needed.old)) }
    ensures refusal_stays { result ≤ 1 → refusal.new ≡ refusal.old }
{
    let (mut first, mut second) = (model, witness);
    let mut text = VecSink::new(alloc);
    match spread(alloc, &mut first, &mut second, &mut text) {
        Ok(judgement) => {
            *verdict = Verdict::of(&judgement);
            hand_over(text.bytes(), buffer, needed)
        }
        Err(against) => tell(against, refusal),
    }
}
