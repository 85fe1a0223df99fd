//! What is written to standard output and to standard error.

ghost use Rattle.std.specs.Prelude.{◌≡◌, ◌⊎◌, ℕ, Err, false, IfOk, OnOk, OnErr, codes, option_map};
ghost use Rattle.std.specs.Io.KnownBytes.{Appends};
ghost use Rattle.std.specs.String.{string_bytes};
ghost use Rattle.base.specs.Device.{CountsFaults, HasRisen};
ghost use Rattle.subcommands.specs.declared.answers.Answer.{Answer};
ghost use Rattle.verbs.specs.declared.refusals.Device.TheVariants as device;
ghost use Rattle.verbs.specs.declared.refusals.Refusal.TheVariants as refusal_is;
ghost use Rattle.subcommands.specs.Names.{harmless};
ghost use Rattle.subcommands.specs.Objects.{fault_object, refusal_written};
ghost use Rattle.subcommands.specs.Refusals.{device_line, output_name, second_name};
ghost use Rattle.subcommands.specs.Statuses.{Tells, TellsFault};
ghost use Rattle.verbs.specs.Statuses.{CountsAll, EndsUnrefused, IfInput, IfSecond};
ghost use Rattle.verbs.specs.Statuses.Use.{Unused, Used};

use crate::names::{is_harmless, write_name};
use crate::objects::write_refused;
use crate::reasons::write_reason;
use crate::refusals::{fault_line, fault_status};
use base::{DeviceFault, Reason, Sink, write_all};
use invocation::{DEVICE, DONE, Order, STANDARD_INPUT, Stop};
use std::alloc::Global;
use verbs::{Device, Fault, Refusal};

/// The name of standard output.
const OUTPUT: &str = "output";

/// What is told where memory was wanting.
const NO_MEMORY: &[u8] = b"no memory\n";

/// Writes a result to standard output.
pub fn write_result<O: Sink>(out: &mut O, text: &[u8]) -> Result<(), Refusal>
    ensures written { OnOk result (Appends (O.written out.old) (O.written out.new) text.now) }
    ensures ends { EndsUnrefused result Unused Unused (Used O.failures out.old out.new) Unused }
{
    match write_all(out, text) {
        Ok(()) => Ok(()),
        Err(_) => Err(Refusal::Failed(Device::Output)),
    }
}

/// Tells that a file or a stream failed, and why, where that is told. It takes no memory.
pub fn tell_device<E: Sink>(
    device: &str,
    reason: Option<Reason>,
    err: &mut E,
) -> Result<u8, DeviceFault>
    ensures status { IfOk result (λ status. status ≡ 3) }
    ensures told { OnOk result (Appends (E.written err.old) (E.written err.new)
        (device_line device.now reason)) }
    ensures counted { CountsFaults result (E.failures err.old) (E.failures err.new) }
{
    write_name(device, err)?;
    write_all(err, b": device")?;
    write_reason(reason, err)?;
    write_all(err, b"\n")?;
    Ok(DEVICE)
}

/// Tells that a result could not be written, and why, where that is told; the file that it was to go to is named, where
/// there is one.
pub fn tell_output<E: Sink>(
    output: Option<&str>,
    reason: Option<Reason>,
    err: &mut E,
) -> Result<u8, DeviceFault>
    ensures status { IfOk result (λ status. status ≡ 3) }
    ensures told { OnOk result (Appends (E.written err.old) (E.written err.new)
        (device_line (output_name (option_map (λ name. name.now) output.entry)) reason)) }
    ensures counted { CountsFaults result (E.failures err.old) (E.failures err.new) }
{
    tell_device(output.unwrap_or(OUTPUT), reason, err)
}

/// Tells that memory was wanting. It takes none.
pub fn tell_no_memory<E: Sink>(err: &mut E) -> Result<u8, DeviceFault>
    ensures status { IfOk result (λ status. status ≡ 3) }
    ensures told { OnOk result (Appends (E.written err.old) (E.written err.new)
        (codes "no memory\n")) }
    ensures counted { CountsFaults result (E.failures err.old) (E.failures err.new) }
{
    write_all(err, NO_MEMORY)?;
    Ok(DEVICE)
}

/// Tells the fault of a file whose name is told by itself, in front of what is said of it.
fn tell_fault_behind<E: Sink>(
    alloc: Global,
    file: &str,
    fault: &Fault,
    err: &mut E,
) -> Result<u8, DeviceFault>
    ensures told { IfOk result (λ status. TellsFault file.now fault.now status (E.written err.old)
        (E.written err.new)) }
    ensures counted { CountsFaults result (E.failures err.old) (E.failures err.new) }
{
    match fault_line(alloc, fault, "") {
        Ok(said) => {
            write_name(file, err)?;
            write_all(err, said.as_bytes())?;
            Ok(fault_status(fault))
        }
        Err(_) => tell_no_memory(err),
    }
}

/// Tells the fault of a file whose name is told as it is, in one call.
fn tell_plain_fault<E: Sink>(
    alloc: Global,
    file: &str,
    fault: &Fault,
    err: &mut E,
) -> Result<u8, DeviceFault>
    requires { harmless file.now ≡ file.now }
    ensures told { IfOk result (λ status. TellsFault file.now fault.now status (E.written err.old)
        (E.written err.new)) }
    ensures counted { CountsFaults result (E.failures err.old) (E.failures err.new) }
{
    match fault_line(alloc, fault, file) {
        Ok(line) => {
            write_all(err, line.as_bytes())?;
            Ok(fault_status(fault))
        }
        Err(_) => tell_no_memory(err),
    }
}

/// Tells the fault of a file.
fn tell_fault<E: Sink>(
    alloc: Global,
    file: &str,
    fault: &Fault,
    err: &mut E,
) -> Result<u8, DeviceFault>
    ensures told { IfOk result (λ status. TellsFault file.now fault.now status (E.written err.old)
        (E.written err.new)) }
    ensures counted { CountsFaults result (E.failures err.old) (E.failures err.new) }
{
    if is_harmless(file.as_bytes()) {
        return tell_plain_fault(alloc, file, fault, err);
    }
    tell_fault_behind(alloc, file, fault, err)
}

/// Tells a refusal on standard error, and answers the exit status: 2 where an input is refused, 4 where the words leave a
/// choice open, 3 where a file or a stream failed or memory was wanting, be it for the line. The reason is that of the
/// device that failed, where it is told.
pub fn tell<E: Sink>(
    alloc: Global,
    order: &Order<'_>,
    refusal: &Refusal,
    reason: Option<Reason>,
    err: &mut E,
) -> Result<u8, DeviceFault>
    ensures told { IfOk result
        (λ status. Tells order.now.first.now (option_map (λ name. name.now) order.now.second)
        (option_map (λ name. name.now) order.now.third)
        (option_map (λ name. name.now) order.now.output) reason refusal.now status
        (E.written err.old) (E.written err.new)) }
    ensures untold { OnErr result (¬ (refusal.now ≡ refusal_is.Failed device.Error)) }
    ensures counted { CountsFaults result (E.failures err.old) (E.failures err.new) }
{
    match refusal {
        Refusal::Input(fault) => tell_fault(alloc, order.first, fault, err),
        Refusal::Second(fault) => {
            tell_fault(alloc, order.second.unwrap_or(STANDARD_INPUT), fault, err)
        }
        Refusal::Failed(Device::First) => tell_device(order.first, reason, err),
        Refusal::Failed(Device::Second) => {
            tell_device(order.second.unwrap_or(STANDARD_INPUT), reason, err)
        }
        Refusal::Failed(Device::Third) => {
            tell_device(order.third.unwrap_or(STANDARD_INPUT), reason, err)
        }
        Refusal::Failed(Device::Output) => tell_output(order.output, reason, err),
        Refusal::Failed(Device::Error) => Ok(DEVICE),
        Refusal::NoMemory => tell_no_memory(err),
    }
}

/// Writes the object that tells the fault of a file, and answers the refusal; or that standard output failed.
fn write_fault<O: Sink>(file: &str, fault: &Fault, refusal: Refusal, out: &mut O) -> Refusal
    ensures written { ((result ≡ refusal) × Appends (O.written out.old) (O.written out.new)
        (fault_object file.now fault.now) × (O.failures out.new ≡ O.failures out.old))
        ⊎ ((result ≡ refusal_is.Failed device.Output)
        × HasRisen (O.failures out.old) (O.failures out.new)) }
{
    match write_refused(file, fault, out) {
        Ok(()) => refusal,
        Err(_) => Refusal::Failed(Device::Output),
    }
}

/// Writes the object that tells a refused file, where one is asked for, and answers the refusal; or that standard output
/// failed.
pub fn write_refusal<O: Sink>(order: &Order<'_>, refusal: Refusal, out: &mut O) -> Refusal
    ensures input { IfInput (λ f. (refusal ≡ refusal_is.Input f)
        × Appends (O.written out.old) (O.written out.new)
        (refusal_written order.now.as_json order.now.first.now f)) result }
    ensures second { IfSecond (λ f. (refusal ≡ refusal_is.Second f)
        × Appends (O.written out.old) (O.written out.new)
        (refusal_written order.now.as_json
        (second_name (option_map (λ name. name.now) order.now.second)) f)) result }
    ensures counted { (f f' s s' t t' o e e' : ℕ)
        → CountsAll {T = Answer} (Err refusal) f f' s s' t t' o (O.failures out.old) e e'
        → CountsAll {T = Answer} (Err result) f f' s s' t t' o (O.failures out.new) e e' }
    ensures error { refusal ≡ refusal_is.Failed device.Error
        → result ≡ refusal_is.Failed device.Error }
    ensures plain { order.now.as_json ≡ false → out.new ≡ out.old }
{
    match refusal {
        Refusal::Input(fault) if order.as_json => write_fault(order.first, &fault, refusal, out),
        Refusal::Second(fault) if order.as_json => {
            write_fault(order.second.unwrap_or(STANDARD_INPUT), &fault, refusal, out)
        }
        _ => refusal,
    }
}

/// Tells what stands in place of a command, and answers the exit status.
///
/// Help and the version go to `out`, with status 0; refused words go to `err`, with status 4, and the line `no memory`
/// with status 3. Where the text can't be written the status is 3, and where that is so of `out`, a line on `err` says
/// it.
pub fn end<O: Sink, E: Sink>(stop: &Stop, out: &mut O, err: &mut E) -> u8
    ensures status { (result ≡ stop.now.status) ⊎ (result ≡ 3) }
    ensures shown { result ≡ 0 → Appends (O.written out.old) (O.written out.new)
        (string_bytes stop.now.text) }
    ensures refused { result ≡ 4 → Appends (E.written err.old) (E.written err.new)
        (string_bytes stop.now.text) }
{
    let text = stop.text.as_bytes();
    match stop.status {
        DONE => match write_all(out, text) {
            Ok(()) => DONE,
            Err(_) => tell_output(None, out.reason(), err).unwrap_or(DEVICE),
        },
        DEVICE => tell_no_memory(err).unwrap_or(DEVICE),
        status => match write_all(err, text) {
            Ok(()) => status,
            Err(_) => DEVICE,
        },
    }
}
