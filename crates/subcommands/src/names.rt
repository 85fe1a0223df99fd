//! Names of files as lines tell them.

ghost use Rattle.std.specs.Prelude.{◌≡◌, true, OnOk};
ghost use Rattle.std.specs.Io.KnownBytes.{Appends};
ghost use Rattle.base.specs.Device.{CountsFaults};
ghost use Rattle.subcommands.specs.Names.{harmless, is_plain_byte, told_byte};

use base::{DeviceFault, Sink, write_all};

/// What stands in place of a byte that is not plain.
const HIDDEN: u8 = b'?';

/// The byte with which UTF-8 begins the control characters that are none of ASCII's.
const BEFORE_CONTROL: u8 = 194;

/// Whether a byte behind another is part of no control character.
fn is_plain(before: u8, byte: u8) -> bool
    ensures { result ≡ is_plain_byte before byte }
{
    (byte >= 32 && byte != 127) && !(before == BEFORE_CONTROL && (byte >= 128 && byte <= 159))
}

/// A byte behind another as lines tell it.
fn told_byte(before: u8, byte: u8) -> u8
    ensures { result ≡ told_byte before byte }
{
    if is_plain(before, byte) { byte } else { HIDDEN }
}

/// Whether a name is told as it is.
pub(crate) fn is_harmless(name: &[u8]) -> bool
    ensures { result ≡ true → harmless name.now ≡ name.now }
{
    let mut before = 0;
    let mut rest = name;
    while let Some((byte, behind)) = rest.split_first() {
        if !is_plain(before, *byte) {
            return false;
        }
        before = *byte;
        rest = behind;
    }
    true
}

/// Writes a name as lines tell it, byte by byte.
fn write_hidden<E: Sink>(name: &[u8], err: &mut E) -> Result<(), DeviceFault>
    ensures written { OnOk result (Appends (E.written err.old) (E.written err.new)
        (harmless name.now)) }
    ensures counted { CountsFaults result (E.failures err.old) (E.failures err.new) }
{
    let mut before = 0;
    let mut rest = name;
    while let Some((byte, behind)) = rest.split_first() {
        write_all(err, &[told_byte(before, *byte)])?;
        before = *byte;
        rest = behind;
    }
    Ok(())
}

/// Writes a name as lines tell it.
pub(crate) fn write_name<E: Sink>(name: &str, err: &mut E) -> Result<(), DeviceFault>
    ensures written { OnOk result (Appends (E.written err.old) (E.written err.new)
        (harmless name.now)) }
    ensures counted { CountsFaults result (E.failures err.old) (E.failures err.new) }
{
    let bytes = name.as_bytes();
    if is_harmless(bytes) {
        return write_all(err, bytes);
    }
    write_hidden(bytes, err)
}
