//! What is told of the lines of a list.

ghost use Rattle.std.specs.Prelude.{◌≡◌, OnOk};
ghost use Rattle.std.specs.Io.KnownBytes.{Appends};
ghost use Rattle.base.specs.Device.{CountsFaults};
ghost use Rattle.base.specs.Lines.{whole_lines};
ghost use Rattle.requests.specs.Told.{all, between, line_object, line_said, lines_said, no_totals, sum_to, totals_line, totals_object, totals_said, up_to_end, with_status};

use base::{DeviceFault, Sink, next_line, write_all};
use invocation::{DEVICE, DONE, NOT_ACCEPTED};
use itoa::Buffer;

/// How many judgements of a list ended in which way, and the worst of their statuses.
#[derive(Clone, Copy)]
pub(crate) struct Totals {
    pub(crate) accepted: u64,
    pub(crate) not_accepted: u64,
    pub(crate) refused: u64,
    pub(crate) failed: u64,
    pub(crate) status: u8,
}

impl Totals {
    /// No judgement yet.
    pub(crate) fn new() -> Totals
        ensures { result ≡ no_totals }
    {
        Totals {
            accepted: 0,
            not_accepted: 0,
            refused: 0,
            failed: 0,
            status: DONE,
        }
    }

    /// Counts a judgement that ended with a status.
    pub(crate) fn add(&mut self, status: u8)
        ensures { self.new ≡ with_status self.old status }
    {
        match status {
            DONE => self.accepted = self.accepted.saturating_add(1),
            NOT_ACCEPTED => self.not_accepted = self.not_accepted.saturating_add(1),
            DEVICE => self.failed = self.failed.saturating_add(1),
            _ => self.refused = self.refused.saturating_add(1),
        }
        if status > self.status {
            self.status = status;
        }
    }

    /// How many there are.
    fn all(&self) -> u64
        ensures { result ≡ all self.now }
    {
        sum_to(
            sum_to(sum_to(self.accepted, self.not_accepted), self.refused),
            self.failed,
        )
    }
}

/// The sum of two counts, up to the greatest number.
fn sum_to(one: u64, other: u64) -> u64
    ensures { result ≡ sum_to one other }
{
    one.saturating_add(other)
}

/// Writes a number between two texts.
#[tactic(auto, unfolding(crate::specs::Told::between))]
fn write_between<O: Sink>(
    before: &[u8],
    number: u64,
    behind: &[u8],
    out: &mut O,
) -> Result<(), DeviceFault>
    ensures written { OnOk result (Appends (O.written out.old) (O.written out.new)
        (between before.now number behind.now)) }
    ensures counted { CountsFaults result (O.failures out.old) (O.failures out.new) }
{
    let mut buffer = Buffer::new();
    write_all(out, before)?;
    write_all(out, buffer.format(number).as_bytes())?;
    write_all(out, behind)
}

/// Writes a line behind the number of the line of the list.
pub(crate) fn write_line<O: Sink>(number: u64, line: &[u8], out: &mut O) -> Result<(), DeviceFault>
    ensures written { OnOk result (Appends (O.written out.old) (O.written out.new)
        (line_said number line.now)) }
    ensures counted { CountsFaults result (O.failures out.old) (O.failures out.new) }
{
    write_between(b"line ", number, b": ", out)?;
    write_all(out, line)?;
    write_all(out, b"\n")
}

/// Writes the lines of a text so.
pub(crate) fn write_lines<O: Sink>(number: u64, text: &[u8], out: &mut O) -> Result<(), DeviceFault>
    ensures written { OnOk result (Appends (O.written out.old) (O.written out.new)
        (lines_said number (whole_lines text.now))) }
    ensures counted { CountsFaults result (O.failures out.old) (O.failures out.new) }
{
    let mut rest = text;
    while let Some((line, behind)) = next_line(rest) {
        write_line(number, line, out)?;
        rest = behind;
    }
    Ok(())
}

/// Writes an object, with the number of the line of the list and the status in front.
pub(crate) fn write_line_object<O: Sink>(
    number: u64,
    status: u8,
    object: &[u8],
    out: &mut O,
) -> Result<(), DeviceFault>
    ensures written { OnOk result (Appends (O.written out.old) (O.written out.new)
        (line_object number status object.now)) }
    ensures counted { CountsFaults result (O.failures out.old) (O.failures out.new) }
{
    write_between(b"{\"line\": ", number, b", ", out)?;
    write_between(b"\"status\": ", u64::from(status), b", ", out)?;
    match object.split_first() {
        Some((_, behind)) => write_all(out, behind),
        None => Ok(()),
    }
}

/// The first line of a text, without its end.
pub(crate) fn up_to_end(text: &[u8]) -> &[u8]
    ensures { result.now ≡ up_to_end text.now }
{
    match next_line(text) {
        Some((line, _)) => line,
        None => text,
    }
}

/// Writes the last line, which counts the judgements.
fn write_totals_line<O: Sink>(totals: &Totals, out: &mut O) -> Result<(), DeviceFault>
    ensures written { OnOk result (Appends (O.written out.old) (O.written out.new)
        (totals_line totals.now)) }
    ensures counted { CountsFaults result (O.failures out.old) (O.failures out.new) }
{
    write_between(b"", totals.all(), b" judgements: ", out)?;
    write_between(b"", totals.accepted, b" accepted or hold, ", out)?;
    write_between(b"", totals.not_accepted, b" not, ", out)?;
    write_between(b"", totals.refused, b" refused, ", out)?;
    write_between(b"", totals.failed, b" failed\n", out)
}

/// Writes the last object, which counts them.
fn write_totals_object<O: Sink>(totals: &Totals, out: &mut O) -> Result<(), DeviceFault>
    ensures written { OnOk result (Appends (O.written out.old) (O.written out.new)
        (totals_object totals.now)) }
    ensures counted { CountsFaults result (O.failures out.old) (O.failures out.new) }
{
    write_between(b"{\"judgements\": ", totals.all(), b"", out)?;
    write_between(b", \"accepted\": ", totals.accepted, b"", out)?;
    write_between(b", \"not_accepted\": ", totals.not_accepted, b"", out)?;
    write_between(b", \"refused\": ", totals.refused, b"", out)?;
    write_between(b", \"failed\": ", totals.failed, b"", out)?;
    write_between(b", \"status\": ", u64::from(totals.status), b"}\n", out)
}

/// Writes how many judgements there are, in a line or as an object.
pub(crate) fn write_totals<O: Sink>(
    as_json: bool,
    totals: &Totals,
    out: &mut O,
) -> Result<(), DeviceFault>
    ensures written { OnOk result (Appends (O.written out.old) (O.written out.new)
        (totals_said as_json totals.now)) }
    ensures counted { CountsFaults result (O.failures out.old) (O.failures out.new) }
{
    if as_json {
        write_totals_object(totals, out)
    } else {
        write_totals_line(totals, out)
    }
}
