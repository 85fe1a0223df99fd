//! Taking all of a source: straight onto a circuit where that can be, and else as a text.
ghost use Rattle.std.specs.Prelude.{◌≡◌, ◌+◌, ◌++◌, true, false, length, IfOk, IfSome, OnOk, IsErrOf};
ghost use Rattle.std.specs.Io.KnownBytes.{prepend_known, IsAtEnd};
ghost use Rattle.base.specs.Device.{HasRisen};
ghost use Rattle.aiger.specs.Circuit.{fresh_circuit};
ghost use Rattle.aigertext.specs.declared.forms.Form.TheVariants as variant;
ghost use Rattle.aigertext.specs.Counts.{AreSmall};
ghost use Rattle.aigertext.specs.InOrder.{uses_of, IsFront, IsTakenFrom, IsTakenOnto};

use crate::fault::ReadFault;
use crate::forms::Form;
use crate::reading::any_order::{lists_so_far, take_onto};
use crate::reading::finishing::read_left;
use crate::reading::front::{Front, read_front};
use crate::reading::gates::read_gates;
use crate::reading::lines::fault;
use crate::reading::pieces::read_rest;
use aiger::Circuit;
use aigerlists::Numbered;
use base::{ReadAllFault, Source};
use std::alloc::Global;

/// What was taken from a source.
#[derive(Drop)]
pub(crate) enum Taken {
    /// The circuit that its bytes spell, with its numbers where they are wanted.
    Circuit(Numbered),
    /// The fault of its bytes.
    Fault(ReadFault),
    /// All of its bytes, of which nothing is said yet.
    Text(Vec<u8>),
}

/// How many bytes these are together; nothing where that is not below 2^64.
fn total(before: usize, passed: u64, behind: usize) -> Option<u64>
    ensures { IfSome result (λ n. n ≡ before + (passed + behind)) }
{
    passed
        .checked_add(behind as u64)?
        .checked_add(before as u64)
}

/// Whether a text is of the ascii form, and not all of its gates are on the circuit.
fn is_out_of_turn(form: Form, circuit: &Circuit, count: usize) -> bool
    ensures ascii { result ≡ true → form ≡ variant.Ascii }
    ensures all { result ≡ false → form ≡ variant.Ascii → length circuit.now.gates ≡ count }
{
    form == Form::Ascii && circuit.gates().len() != count
}

/// Reads the gates of a text, and all behind them, onto a fresh circuit, where the gates' text as far as it was read is
/// held, and what stands before that. From the first line of an ascii text's gate that is out of turn on, the gates go
/// onto the lists of a file.
fn read_onto<S: Source>(
    alloc: Global,
    front: Front,
    before: &[u8],
    circuit: &mut Circuit,
    window: &mut Vec<u8>,
    source: &mut S,
    wanted: bool,
) -> Result<Option<Taken>, ReadAllFault>
    requires front { IsFront front.form front.counts (uses_of front) before.now }
    requires small { AreSmall front.counts }
    requires fresh { circuit.old ≡ fresh_circuit front.counts.inputs front.counts.latches }
    ensures taken { IfOk result
        (IsTakenOnto (prepend_known (before.now ++ window.old.items) (S.to_come source.old)) wanted
        circuit.new) }
    ensures end { OnOk result (IsAtEnd (S.to_come source.new)) }
    ensures counted { OnOk result (S.failures source.new ≡ S.failures source.old) }
    ensures device { IsErrOf result ReadAllFault.Device
        → HasRisen (S.failures source.old) (S.failures source.new) }
    ensures memory { IsErrOf result ReadAllFault.NoMemory → S.failures source.new
        ≡ S.failures source.old }
{
    let counts = front.counts;
    let count = counts.gates as usize;
    let greatest = 2 * counts.variables + 1;
    let passed = read_gates(front.form, greatest, circuit, window, count, source)?;
    if is_out_of_turn(front.form, circuit, count) {
        let first = counts.inputs + counts.latches + 1;
        let Some((counts, mut lists)) = lists_so_far(alloc, before, first, circuit.gates()) else {
            return Err(ReadAllFault::NoMemory);
        };
        let taken = take_onto(alloc, before, &counts, &mut lists, window, source, wanted)?;
        return Ok(Some(taken));
    }
    read_rest(window, source)?;
    let total = total(before.len(), passed, window.len());
    let total = total.ok_or(ReadAllFault::NoMemory)?;
    match read_left(circuit, front, window.as_slice()) {
        Ok(()) => Ok(None),
        Err(stop) => Ok(Some(Taken::Fault(fault(total, stop)))),
    }
}

/// Takes all of a source behind a text whose lines before the gates are in order.
fn take_behind<S: Source>(
    alloc: Global,
    front: Front,
    before: &[u8],
    gates: &[u8],
    source: &mut S,
    wanted: bool,
) -> Result<Taken, ReadAllFault>
    requires front { IsFront front.form front.counts (uses_of front) before.now }
    requires small { AreSmall front.counts }
    ensures taken { IfOk result
        (IsTakenFrom (prepend_known (before.now ++ gates.now) (S.to_come source.old)) wanted) }
    ensures end { OnOk result (IsAtEnd (S.to_come source.new)) }
    ensures counted { OnOk result (S.failures source.new ≡ S.failures source.old) }
    ensures device { IsErrOf result ReadAllFault.Device
        → HasRisen (S.failures source.old) (S.failures source.new) }
    ensures memory { IsErrOf result ReadAllFault.NoMemory → S.failures source.new
        ≡ S.failures source.old }
{
    let Ok(mut window) = gates.to_vec(alloc) else {
        return Err(ReadAllFault::NoMemory);
    };
    let Ok(mut circuit) = Circuit::new(alloc, front.counts.inputs, front.counts.latches) else {
        return Err(ReadAllFault::NoMemory);
    };
    if let Some(taken) = read_onto(
        alloc,
        front,
        before,
        &mut circuit,
        &mut window,
        source,
        wanted,
    )? {
        return Ok(taken);
    }
    Ok(Taken::Circuit(Numbered::own(circuit)))
}

/// Takes all of a source. Of a binary text and of an ascii text in order only the lines before the gates are held, and a
/// piece of the gates.
///
/// Errors: `Device` where the source failed in this call, `NoMemory` where a growth was refused.
pub fn take<S: Source>(alloc: Global, source: &mut S, wanted: bool) -> Result<Taken, ReadAllFault>
    ensures taken { IfOk result (IsTakenFrom (S.to_come source.old) wanted) }
    ensures end { OnOk result (IsAtEnd (S.to_come source.new)) }
    ensures counted { OnOk result (S.failures source.new ≡ S.failures source.old) }
    ensures device { IsErrOf result ReadAllFault.Device
        → HasRisen (S.failures source.old) (S.failures source.new) }
    ensures memory { IsErrOf result ReadAllFault.NoMemory → S.failures source.new
        ≡ S.failures source.old }
{
    let mut text = Vec::new(alloc);
    match read_front(alloc, &mut text, source)? {
        None => Ok(Taken::Text(text)),
        Some((front, place)) => {
            let (before, gates) = text.as_slice().split_at(place);
            take_behind(alloc, front, before, gates, source, wanted)
        }
    }
}
