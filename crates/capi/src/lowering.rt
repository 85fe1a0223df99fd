//! The calls that write circuits, and what a circuit costs.
ghost use Rattle.std.specs.Prelude.{◌≡◌, ◌≤◌, Some};
ghost use Rattle.invocation.specs.declared.tasks.Given.TheVariants as given;
ghost use Rattle.verbs.specs.Refusals.{IsNoCircuit, IsNoModel, IsNotForEngines, IsNotLowered};
ghost use Rattle.capi.specs.Buffers.{Fills, Needs};
ghost use Rattle.capi.specs.Flags.{choice_of};
ghost use Rattle.capi.specs.Stops.{Stops};
ghost use Rattle.capi.specs.Written.{CallConverts, CallConvertsForEngines, CallCosts, CallFits, CallLowers};
ghost use Rattle.verbs.specs.Fitting.{IsNotFitted};

use crate::answers::{DONE, Refusal, tell};
use crate::buffers::hand_over;
use crate::flags::{choice_of, form_of};
use base::VecSink;
use blast::Unwatched;
use std::alloc::Global;
use verbs::{convert, convert_for_engines, cost_of, fit, lower};

/// Lowers the text of a BTOR2 model to that of an AIGER circuit, binary or ascii.
///
/// Answers 0 where the circuit's text stands at the front of the buffer, whose bytes behind it stay, and 1 where it is longer
/// than the buffer, which stays then: after both `needed` is its length. 2 where the text is no model, with the number and the
/// line of its first fault; 3 where the model is not lowered, with the number of what speaks against it first and the id of its
/// item, or 0; 4 where memory was wanting. With 0, 1 and 4 the refusal stays, and without 0 and 1 buffer and `needed` do.
#[unsafe(no_mangle)]
pub extern "C" fn hwtool_lower(
    alloc: Global,
    model: &[u8],
    binary: bool,
    buffer: &mut [u8],
    needed: &mut usize,
    refusal: &mut Refusal,
) -> u32
    ensures done { result ≡ 0 → Fills (CallLowers binary model.now) buffer.old buffer.new needed.new }
    ensures small { result ≡ 1 → Needs (CallLowers binary model.now) buffer.old buffer.new
        needed.new }
    ensures stops { 2 ≤ result → Stops (IsNotLowered (Some model.now)) (λ _. ⊥) result refusal.old
        refusal.new }
    ensures statuses { result ≤ 5 }
    ensures unwritten { 2 ≤ result → (buffer.new ≡ buffer.old) × (needed.new ≡ needed.old) }
    ensures refusal_stays { result ≤ 1 → refusal.new ≡ refusal.old }
{
    let mut first = model;
    let mut text = VecSink::new(alloc);
    match lower(
        alloc,
        form_of(binary),
        &mut first,
        &mut text,
        &mut Unwatched,
    ) {
        Ok(()) => hand_over(text.bytes(), buffer, needed),
        Err(against) => tell(against, refusal),
    }
}

/// Writes the text of a BTOR2 model with words of up to 1,048,576 bits as that of one with words of at most 64, into which it
/// is fitted: its bad properties can rise in as many frames. Of such a model it is its own text, in one spelling.
///
/// Answers 0 where that text stands at the front of the buffer, whose bytes behind it stay, and 1 where it is longer than the
/// buffer, which stays then: after both `needed` is its length. 2 where the text is no such model, with the number and the line
/// of its first fault; 3 where the model is not fitted, with the number of what speaks against it first and the id of its item;
/// 4 where memory was wanting. With 0, 1 and 4 the refusal stays, and without 0 and 1 buffer and `needed` do.
#[unsafe(no_mangle)]
pub extern "C" fn hwtool_fit(
    alloc: Global,
    model: &[u8],
    buffer: &mut [u8],
    needed: &mut usize,
    refusal: &mut Refusal,
) -> u32
    ensures done { result ≡ 0 → Fills (CallFits model.now) buffer.old buffer.new needed.new }
    ensures small { result ≡ 1 → Needs (CallFits model.now) buffer.old buffer.new needed.new }
    ensures stops { 2 ≤ result → Stops (IsNotFitted (Some model.now)) (λ _. ⊥) result refusal.old
        refusal.new }
    ensures statuses { result ≤ 5 }
    ensures unwritten { 2 ≤ result → (buffer.new ≡ buffer.old) × (needed.new ≡ needed.old) }
    ensures refusal_stays { result ≤ 1 → refusal.new ≡ refusal.old }
{
    let mut first = model;
    let mut text = VecSink::new(alloc);
    match fit(alloc, &mut first, &mut text) {
        Ok(()) => hand_over(text.bytes(), buffer, needed),
        Err(against) => tell(against, refusal),
    }
}

/// Writes the text of an AIGER circuit of either form anew, binary or ascii, its variables numbered as in the binary form.
///
/// Answers 0 where that text stands at the front of the buffer, whose bytes behind it stay, and 1 where it is longer than the
/// buffer, which stays then: after both `needed` is its length. 2 where the text is no circuit, with the number and the place
/// of its first fault, in bytes from 0; 4 where memory was wanting. With 0, 1 and 4 the refusal stays, and without 0 and 1
/// buffer and `needed` do.
#[unsafe(no_mangle)]
pub extern "C" fn hwtool_convert(
    alloc: Global,
    circuit: &[u8],
    binary: bool,
    buffer: &mut [u8],
    needed: &mut usize,
    refusal: &mut Refusal,
) -> u32
    ensures done { result ≡ 0 → Fills (CallConverts binary circuit.now) buffer.old buffer.new
        needed.new }
    ensures small { result ≡ 1 → Needs (CallConverts binary circuit.now) buffer.old buffer.new
        needed.new }
    ensures stops { 2 ≤ result → Stops (IsNoCircuit (Some circuit.now)) (λ _. ⊥) result refusal.old
        refusal.new }
    ensures statuses { result ≤ 5 }
    ensures unwritten { 2 ≤ result → (buffer.new ≡ buffer.old) × (needed.new ≡ needed.old) }
    ensures refusal_stays { result ≤ 1 → refusal.new ≡ refusal.old }
{
    let mut first = circuit;
    let mut text = VecSink::new(alloc);
    match convert(alloc, form_of(binary), &mut first, &mut text) {
        Ok(()) => hand_over(text.bytes(), buffer, needed),
        Err(against) => tell(against, refusal),
    }
}

/// Writes the engine form of the text of an AIGER circuit, which every engine reads alike, binary or ascii: with all its bad
/// properties, or, where one is chosen, with the one at this position alone.
///
/// Answers 0 where that text stands at the front of the buffer, whose bytes behind it stay, and 1 where it is longer than the
/// buffer, which stays then: after both `needed` is its length. 2 where the text is no circuit, with the number and the place
/// of its first fault, in bytes from 0; 3 where the circuit has no such form, with the number of what speaks against it first;
/// 4 where memory was wanting. With 0, 1 and 4 the refusal stays, and without 0 and 1 buffer and `needed` do.
#[unsafe(no_mangle)]
pub extern "C" fn hwtool_engine_form(
    alloc: Global,
    circuit: &[u8],
    chosen: bool,
    bad: usize,
    binary: bool,
    buffer: &mut [u8],
    needed: &mut usize,
    refusal: &mut Refusal,
) -> u32
    ensures done { result ≡ 0 → Fills
        (CallConvertsForEngines binary (choice_of chosen bad) circuit.now) buffer.old buffer.new
        needed.new }
    ensures small { result ≡ 1 → Needs
        (CallConvertsForEngines binary (choice_of chosen bad) circuit.now) buffer.old buffer.new
        needed.new }
    ensures stops { 2 ≤ result → Stops (IsNotForEngines given.Circuit (choice_of chosen bad) (Some
        circuit.now)) (λ _. ⊥) result refusal.old refusal.new }
    ensures statuses { result ≤ 5 }
    ensures unwritten { 2 ≤ result → (buffer.new ≡ buffer.old) × (needed.new ≡ needed.old) }
    ensures refusal_stays { result ≤ 1 → refusal.new ≡ refusal.old }
{
    let mut first = circuit;
    let mut text = VecSink::new(alloc);
    match convert_for_engines(
        alloc,
        form_of(binary),
        choice_of(chosen, bad),
        &mut first,
        &mut text,
    ) {
        Ok(()) => hand_over(text.bytes(), buffer, needed),
        Err(against) => tell(against, refusal),
    }
}

/// Tells how many AND gates, and how many variables, the lowering of the text of a BTOR2 model has at most.
///
/// Answers 0 with both; 2 where the text is no model, with the number and the line of its first fault; 4 where memory was
/// wanting. Without 0 both numbers stay, and with 0 and 4 the refusal does.
#[unsafe(no_mangle)]
pub extern "C" fn hwtool_cost(
    alloc: Global,
    model: &[u8],
    gates: &mut u64,
    variables: &mut u64,
    refusal: &mut Refusal,
) -> u32
    ensures done { result ≡ 0 → CallCosts model.now gates.new variables.new }
    ensures stops { 1 ≤ result → Stops (IsNoModel (Some model.now)) (λ _. ⊥) result refusal.old
        refusal.new }
    ensures statuses { result ≤ 5 }
    ensures unwritten { 1 ≤ result → (gates.new ≡ gates.old) × (variables.new ≡ variables.old) }
    ensures refusal_stays { result ≡ 0 → refusal.new ≡ refusal.old }
{
    let mut first = model;
    match cost_of(alloc, &mut first) {
        Ok(told) => {
            *gates = told.gates;
            *variables = told.variables;
            DONE
        }
        Err(against) => tell(against, refusal),
    }
}
