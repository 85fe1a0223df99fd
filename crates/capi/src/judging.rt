//! The calls that judge witnesses.
ghost use Rattle.std.specs.Prelude.{◌≡◌, ◌≤◌, Some};
ghost use Rattle.invocation.specs.declared.tasks.Given.TheVariants as given;
ghost use Rattle.verbs.specs.Refusals.{IsNotClaimable, IsNotJudged};
ghost use Rattle.capi.specs.Judged.{CallJudges, CallJudgesOver};
ghost use Rattle.capi.specs.Stops.{Stops};

use crate::answers::{DONE, Refusal, Verdict, tell};
use std::alloc::Global;
use verbs::{judge_over_circuit, judge_over_model};

/// Judges the text of a witness over the text of a BTOR2 model.
///
/// Answers 0 with what is judged; 2 where the first text is no model, with the number and the line of its first fault; 3
/// where a state has an init and no next, with the number of that and the id of the first such state; 4 where memory was
/// wanting. Without 0 the verdict stays, and with 0 and 4 the refusal does.
#[unsafe(no_mangle)]
pub extern "C" fn hwtool_check_btor(
    alloc: Global,
    model: &[u8],
    witness: &[u8],
    verdict: &mut Verdict,
    refusal: &mut Refusal,
) -> u32
    ensures done { result ≡ 0 → CallJudges model.now witness.now verdict.new }
    ensures stops { 1 ≤ result → Stops (IsNotJudged (Some model.now)) (λ _. ⊥) result refusal.old
        refusal.new }
    ensures statuses { result ≤ 5 }
    ensures unwritten { 1 ≤ result → verdict.new ≡ verdict.old }
    ensures refusal_stays { result ≡ 0 → refusal.new ≡ refusal.old }
{
    let (mut first, mut second) = (model, witness);
    match judge_over_model(alloc, &mut first, &mut second) {
        Ok(judgement) => {
            *verdict = Verdict::of(&judgement);
            DONE
        }
        Err(against) => tell(against, refusal),
    }
}

/// Judges the text of a witness over the text of an AIGER circuit of either form.
///
/// Answers 0 with what is judged; 2 where the first text is no circuit, with the number and the place of its first fault, in
/// bytes from 0; 3 where the circuit has outputs and no bad property, with the number of that; 4 where memory was wanting.
/// Without 0 the verdict stays, and with 0 and 4 the refusal does.
#[unsafe(no_mangle)]
pub extern "C" fn hwtool_check_aig(
    alloc: Global,
    circuit: &[u8],
    witness: &[u8],
    verdict: &mut Verdict,
    refusal: &mut Refusal,
) -> u32
    ensures done { result ≡ 0 → CallJudgesOver circuit.now witness.now verdict.new }
    ensures stops { 1 ≤ result → Stops (IsNotClaimable given.Circuit (Some circuit.now)) (λ _. ⊥)
        result refusal.old refusal.new }
    ensures statuses { result ≤ 5 }
    ensures unwritten { 1 ≤ result → verdict.new ≡ verdict.old }
    ensures refusal_stays { result ≡ 0 → refusal.new ≡ refusal.old }
{
    let (mut first, mut second) = (circuit, witness);
    match judge_over_circuit(alloc, &mut first, &mut second) {
        Ok(judgement) => {
            *verdict = Verdict::of(&judgement);
            DONE
        }
        Err(against) => tell(against, refusal),
    }
}
