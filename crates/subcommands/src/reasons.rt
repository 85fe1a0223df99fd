//! Why a file or a stream failed, in words.

ghost use Rattle.std.specs.Prelude.{◌≡◌, OnOk};
ghost use Rattle.std.specs.Io.KnownBytes.{Appends};
ghost use Rattle.base.specs.Device.{CountsFaults};
ghost use Rattle.subcommands.specs.Refusals.{number_said, reason_number, reason_said, reason_words};

use base::{DeviceFault, Reason, Sink, write_all};
use itoa::Buffer;

/// The words of a reason, behind which its number stands where it has none of its own.
fn words_of(reason: Reason) -> &'static [u8]
    ensures { result.now ≡ reason_words reason }
{
    match reason {
        Reason::NoSuchFile => b"no such file",
        Reason::IsFolder => b"is a folder",
        Reason::NotUnderFolder => b"a part of its name is no folder",
        Reason::PermissionDenied => b"permission denied",
        Reason::ReadOnlyFileSystem => b"read-only file system",
        Reason::NoSpaceLeft => b"no space left",
        Reason::QuotaExceeded => b"quota exceeded",
        Reason::FileTooLarge => b"file too large",
        Reason::ClosedByReader => b"closed by its reader",
        Reason::NameTooLong => b"name too long",
        Reason::TooManyLinks => b"too many links",
        Reason::AlreadyThere => b"is there already",
        Reason::Interrupted => b"interrupted",
        Reason::Number(_) => b"error ",
    }
}

/// The number of a reason that has no words of its own.
fn number_of(reason: Reason) -> Option<u32>
    ensures { result ≡ reason_number reason }
{
    match reason {
        Reason::Number(number) => Some(number.unsigned_abs()),
        _ => None,
    }
}

/// Writes a number, where there is one.
fn write_number<E: Sink>(number: Option<u32>, err: &mut E) -> Result<(), DeviceFault>
    ensures written { OnOk result (Appends (E.written err.old) (E.written err.new)
        (number_said number)) }
    ensures counted { CountsFaults result (E.failures err.old) (E.failures err.new) }
{
    let mut buffer = Buffer::new();
    match number {
        Some(number) => write_all(err, buffer.format(number).as_bytes()),
        None => Ok(()),
    }
}

/// Writes why a device failed, where that is told.
pub(crate) fn write_reason<E: Sink>(reason: Option<Reason>, err: &mut E) -> Result<(), DeviceFault>
    ensures written { OnOk result (Appends (E.written err.old) (E.written err.new)
        (reason_said reason)) }
    ensures counted { CountsFaults result (E.failures err.old) (E.failures err.new) }
{
    match reason {
        Some(reason) => {
            write_all(err, b": ")?;
            write_all(err, words_of(reason))?;
            write_number(number_of(reason), err)
        }
        None => Ok(()),
    }
}
