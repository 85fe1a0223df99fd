//! The calls that restore what engines find over engine forms of circuits.
ghost use Rattle.std.specs.Prelude.{◌≡◌, ◌≤◌, Some};
ghost use Rattle.invocation.specs.declared.tasks.Given.TheVariants as given;
ghost use Rattle.verbs.specs.declared.refusals.Claimed.TheVariants as claimed;
ghost use Rattle.verbs.specs.Refusals.{IsNotClaimed, IsNotForEngines};
ghost use Rattle.capi.specs.Buffers.{Fills, Needs};
ghost use Rattle.capi.specs.Flags.{choice_of};
ghost use Rattle.capi.specs.Restored.{CallRestoresForm, CallRestoresFound};
ghost use Rattle.capi.specs.Stops.{Stops};

use crate::answers::{Refusal, Verdict, tell};
use crate::buffers::hand_over;
use crate::flags::choice_of;
use base::VecSink;
use std::alloc::Global;
use verbs::{restore_found, restore_from_form};

/// Restores the text of a witness of the engine form of the text of an AIGER circuit, with all its bad properties, or, where
/// one is chosen, with the one at this position alone, to the witness of the circuit that says the same: with the property that
/// it claims, up to and with the first frame in which this rises, or of all frames where it does not. The verdict is that it
/// makes no claim or which line is faulty, before which what the lines give is restored; else what is judged over the circuit
/// of what it is restored to.
///
/// Answers 0 where what it is restored to stands at the front of the buffer, whose bytes behind it stay, and 1 where that is
/// longer than the buffer, which stays then: after both `needed` is its length, and the verdict is told. 2 where the first text
/// is no circuit, with the number and the place of its first fault, in bytes from 0; 3 where the circuit has no such form, with
/// the number of what speaks against it first; 4 where memory was wanting. With 0, 1 and 4 the refusal stays, and without 0 and
/// 1 verdict, buffer and `needed` do.
#[unsafe(no_mangle)]
pub extern "C" fn hwtool_restore(
    alloc: Global,
    circuit: &[u8],
    chosen: bool,
    bad: usize,
    witness: &[u8],
    verdict: &mut Verdict,
    buffer: &mut [u8],
    needed: &mut usize,
    refusal: &mut Refusal,
) -> u32
    ensures done { result ≡ 0 → Fills (CallRestoresForm (choice_of chosen bad) circuit.now
        witness.now verdict.new) buffer.old buffer.new needed.new }
    ensures small { result ≡ 1 → Needs (CallRestoresForm (choice_of chosen bad) circuit.now
        witness.now verdict.new) buffer.old buffer.new needed.new }
    ensures stops { 2 ≤ result → Stops (IsNotForEngines given.Circuit (choice_of chosen bad) (Some
        circuit.now)) (λ _. ⊥) result refusal.old refusal.new }
    ensures statuses { result ≤ 5 }
    ensures unwritten { 2 ≤ result → (verdict.new ≡ verdict.old)
        × ((buffer.new ≡ buffer.old) × (needed.new ≡ needed.old)) }
    ensures refusal_stays { result ≤ 1 → refusal.new ≡ refusal.old }
{
    let (mut first, mut second) = (circuit, witness);
    let mut text = VecSink::new(alloc);
    match restore_from_form(
        alloc,
        choice_of(chosen, bad),
        &mut first,
        &mut second,
        &mut text,
    ) {
        Ok(restored) => {
            *verdict = Verdict::of(&restored.judgement);
            hand_over(text.bytes(), buffer, needed)
        }
        Err(against) => tell(against, refusal),
    }
}

/// Restores the text of a counterexample over the engine form of the text of an AIGER circuit with the bad property at this
/// position, as ABC writes it: a line of initial bits, which are 0, and a line of input bits for each frame. It becomes the
/// witness of the circuit that claims this property, up to and with the first frame in which this rises, or of all frames where
/// it does not. The verdict is what is judged over the circuit of what it is restored to; or that a line is malformed, with its
/// number from 1 and the number of what is wrong with it, and then what the lines before it give is restored, without a last
/// line.
///
/// Answers as `hwtool_restore`: 3 where the circuit has no engine form with this bad property alone.
#[unsafe(no_mangle)]
pub extern "C" fn hwtool_restore_abc(
    alloc: Global,
    circuit: &[u8],
    bad: usize,
    found: &[u8],
    verdict: &mut Verdict,
    buffer: &mut [u8],
    needed: &mut usize,
    refusal: &mut Refusal,
) -> u32
    ensures done { result ≡ 0 → Fills
        (CallRestoresFound (Some bad) circuit.now found.now verdict.new) buffer.old buffer.new
        needed.new }
    ensures small { result ≡ 1 → Needs
        (CallRestoresFound (Some bad) circuit.now found.now verdict.new) buffer.old buffer.new
        needed.new }
    ensures stops { 2 ≤ result → Stops (IsNotClaimed claimed.Found given.Circuit (Some bad) (Some
        circuit.now)) (λ _. ⊥) result refusal.old refusal.new }
    ensures statuses { result ≤ 5 }
    ensures unwritten { 2 ≤ result → (verdict.new ≡ verdict.old)
        × ((buffer.new ≡ buffer.old) × (needed.new ≡ needed.old)) }
    ensures refusal_stays { result ≤ 1 → refusal.new ≡ refusal.old }
{
    let (mut first, mut second) = (circuit, found);
    let mut text = VecSink::new(alloc);
    match restore_found(alloc, Some(bad), &mut first, &mut second, &mut text) {
        Ok(restored) => {
            *verdict = Verdict::of_restored(&restored.told);
            hand_over(text.bytes(), buffer, needed)
        }
        Err(against) => tell(against, refusal),
    }
}
