//! The calls that judge witnesses and tell of the claims of those that are accepted.
ghost use Rattle.std.specs.Prelude.{◌≡◌, ◌≤◌, ◌++◌, Some, IfOk, OnOk};
ghost use Rattle.verbs.specs.Asked.{IsNotFittedWith, IsNotJudgedOverWith, IsNotJudgedWith};
ghost use Rattle.capi.specs.Buffers.{Fills, Needs};
ghost use Rattle.capi.specs.Flags.{word_asked};
ghost use Rattle.capi.specs.Judged.{CallJudgesFor, CallJudgesOverFor, CallJudgesWholeFor, claim_of, claims_from, told_claims};
ghost use Rattle.capi.specs.Stops.{Stops};

use crate::answers::{Claim, NO_MEMORY, Refusal, Verdict, tell};
use crate::buffers::hand_over;
use crate::flags::word_asked;
use base::laws::decimals_are_numbers;
use itoa::Buffer;
use rises::FirstRises;
use std::alloc::{AllocError, Global};
use verbs::{judge_fitted_for, judge_for_circuit, judge_for_model};

/// Puts a claim behind others, where it is reached.
fn push_claim(claims: &mut Vec<Claim>, bad: u64, first: Option<u64>) -> Result<(), AllocError>
    ensures { OnOk result (claims.new.items ≡ claims.old.items ++ claim_of bad first) }
{
    if let Some(frame) = first {
        claims.push(Claim { bad, frame })?;
    }
    Ok(())
}

/// The claims that are reached, by the first rises of all bad properties.
fn claims_of(alloc: Global, firsts: &FirstRises) -> Result<Vec<Claim>, AllocError>
    ensures { IfOk result (λ claims. claims.items ≡ claims_from 0 firsts.now) }
{
    let mut claims = Vec::new(alloc);
    for position in 0..firsts.len() {
        push_claim(&mut claims, position as u64, firsts.frame(position))?;
    }
    Ok(claims)
}

/// The claims that are told with a verdict.
fn told_claims(
    alloc: Global,
    verdict: &Verdict,
    firsts: &FirstRises,
) -> Result<Vec<Claim>, AllocError>
    ensures { IfOk result (λ claims. claims.items ≡ told_claims verdict.now firsts.now) }
{
    if verdict.kind == 0 {
        claims_of(alloc, firsts)
    } else {
        Ok(Vec::new(alloc))
    }
}

/// Tells a verdict and its claims.
fn tell_claims(
    alloc: Global,
    told: Verdict,
    firsts: &FirstRises,
    verdict: &mut Verdict,
    claims: &mut [Claim],
    needed: &mut usize,
) -> u32
    ensures done { result ≡ 0 → Fills (λ list. list ≡ told_claims told firsts.now) claims.old
        claims.new needed.new }
    ensures small { result ≡ 1 → Needs (λ list. list ≡ told_claims told firsts.now) claims.old
        claims.new needed.new }
    ensures verdict { result ≤ 1 → verdict.new ≡ told }
    ensures statuses { 2 ≤ result → result ≡ 4 }
    ensures unwritten { 2 ≤ result → (verdict.new ≡ verdict.old)
        × ((claims.new ≡ claims.old) × (needed.new ≡ needed.old)) }
{
    match told_claims(alloc, &told, firsts) {
        Ok(list) => {
            *verdict = told;
            hand_over(list.as_slice(), claims, needed)
        }
        Err(_) => NO_MEMORY,
    }
}

/// Judges the text of a witness over the text of a BTOR2 model, as `hwtool_check_btor` does, and tells the claims of one that is
/// accepted, in file order of the bad properties, each with the first frame in which it is reached, from 0. Where a bad property is
/// chosen, by its position from 0, only a witness that claims it is accepted.
///
/// Answers 0 where the claims stand at the front of the list, which stays behind them, and 1 where they are more than the list
/// has room for, which stays then: after both `needed` is their number, which is 0 where nothing is accepted, and the verdict is
/// told. 2 where the first text is no model, with the number and the line of its first fault; 3 where there is no bad property at
/// the chosen position, with the number of that, or where a state has an init and no next, with the number of that and the id of
/// the first such state; 4 where memory was wanting. With 0, 1 and 4 the refusal stays, and without 0 and 1 verdict, list and
/// `needed` do.
#[unsafe(no_mangle)]
pub extern "C" fn hwtool_check_btor_claims(
    alloc: Global,
    model: &[u8],
    chosen: bool,
    bad: usize,
    witness: &[u8],
    verdict: &mut Verdict,
    claims: &mut [Claim],
    needed: &mut usize,
    refusal: &mut Refusal,
) -> u32
    ensures done { result ≡ 0 → Fills (CallJudgesFor chosen bad model.now witness.now verdict.new)
        claims.old claims.new needed.new }
    ensures small { result ≡ 1 → Needs (CallJudgesFor chosen bad model.now witness.now verdict.new)
        claims.old claims.new needed.new }
    ensures stops { 2 ≤ result → Stops (IsNotJudgedWith (word_asked chosen bad) (Some model.now))
        (λ _. ⊥) result refusal.old refusal.new }
    ensures statuses { result ≤ 5 }
    ensures unwritten { 2 ≤ result → (verdict.new ≡ verdict.old)
        × ((claims.new ≡ claims.old) × (needed.new ≡ needed.old)) }
    ensures refusal_stays { result ≤ 1 → refusal.new ≡ refusal.old }
{
    decimals_are_numbers();
    let mut buffer = Buffer::new();
    let word = word_asked(&mut buffer, chosen, bad);
    let (mut first, mut second) = (model, witness);
    match judge_for_model(alloc, word, &mut first, &mut second) {
        Ok(judged) => {
            let told = Verdict::of_outcome(&judged.outcome);
            tell_claims(alloc, told, &judged.firsts, verdict, claims, needed)
        }
        Err(against) => tell(against, refusal),
    }
}

/// The same over the text of a BTOR2 model of the whole language, as `hwtool_check_btor_fit` judges.
///
/// Answers as `hwtool_check_btor_claims`, but 2 where the first text is no model of the whole language; and 3 where there is no bad
/// property at the chosen position, or where the model is not written out, or not fitted, with the number of what speaks against it first
/// and the id of its item.
#[unsafe(no_mangle)]
pub extern "C" fn hwtool_check_btor_fit_claims(
    alloc: Global,
    model: &[u8],
    chosen: bool,
    bad: usize,
    witness: &[u8],
    verdict: &mut Verdict,
    claims: &mut [Claim],
    needed: &mut usize,
    refusal: &mut Refusal,
) -> u32
    ensures done { result ≡ 0 → Fills (CallJudgesWholeFor chosen bad model.now witness.now verdict.new)
        claims.old claims.new needed.new }
    ensures small { result ≡ 1 → Needs (CallJudgesWholeFor chosen bad model.now witness.now verdict.new)
        claims.old claims.new needed.new }
    ensures stops { 2 ≤ result → Stops (IsNotFittedWith (word_asked chosen bad) (Some model.now))
        (λ _. ⊥) result refusal.old refusal.new }
    ensures statuses { result ≤ 5 }
    ensures unwritten { 2 ≤ result → (verdict.new ≡ verdict.old)
        × ((claims.new ≡ claims.old) × (needed.new ≡ needed.old)) }
    ensures refusal_stays { result ≤ 1 → refusal.new ≡ refusal.old }
{
    decimals_are_numbers();
    let mut buffer = Buffer::new();
    let word = word_asked(&mut buffer, chosen, bad);
    let (mut first, mut second) = (model, witness);
    match judge_fitted_for(alloc, word, &mut first, &mut second) {
        Ok(judged) => {
            let told = Verdict::of_outcome(&judged.outcome);
            tell_claims(alloc, told, &judged.firsts, verdict, claims, needed)
        }
        Err(against) => tell(against, refusal),
    }
}

/// The same over the text of an AIGER circuit of either form.
///
/// Answers as `hwtool_check_btor_claims`, but 2 where the first text is no circuit, with the number and the place of its first
/// fault, in bytes from 0; and 3 where there is no bad property at the chosen position, or, whether one is chosen or not, none at
/// all but outputs, with the number of that.
#[unsafe(no_mangle)]
pub extern "C" fn hwtool_check_aig_claims(
    alloc: Global,
    circuit: &[u8],
    chosen: bool,
    bad: usize,
    witness: &[u8],
    verdict: &mut Verdict,
    claims: &mut [Claim],
    needed: &mut usize,
    refusal: &mut Refusal,
) -> u32
    ensures done { result ≡ 0 → Fills
        (CallJudgesOverFor chosen bad circuit.now witness.now verdict.new) claims.old claims.new
        needed.new }
    ensures small { result ≡ 1 → Needs
        (CallJudgesOverFor chosen bad circuit.now witness.now verdict.new) claims.old claims.new
        needed.new }
    ensures stops { 2 ≤ result → Stops
        (IsNotJudgedOverWith (word_asked chosen bad) (Some circuit.now)) (λ _. ⊥) result refusal.old
        refusal.new }
    ensures statuses { result ≤ 5 }
    ensures unwritten { 2 ≤ result → (verdict.new ≡ verdict.old)
        × ((claims.new ≡ claims.old) × (needed.new ≡ needed.old)) }
    ensures refusal_stays { result ≤ 1 → refusal.new ≡ refusal.old }
{
    decimals_are_numbers();
    let mut buffer = Buffer::new();
    let word = word_asked(&mut buffer, chosen, bad);
    let (mut first, mut second) = (circuit, witness);
    match judge_for_circuit(alloc, word, &mut first, &mut second) {
        Ok(judged) => {
            let told = Verdict::of_outcome(&judged.outcome);
            tell_claims(alloc, told, &judged.firsts, verdict, claims, needed)
        }
        Err(against) => tell(against, refusal),
    }
}
