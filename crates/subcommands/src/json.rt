//! Strings and members of objects of JSON.

ghost use Rattle.std.specs.Prelude.{◌≡◌, ◌<◌, OnOk, option_copied, option_map};
ghost use Rattle.std.specs.Io.KnownBytes.{Appends};
ghost use Rattle.base.specs.Device.{CountsFaults};
ghost use Rattle.verbs.specs.Subjects.{name_of};
ghost use Rattle.subcommands.specs.Objects.{faulty_members, hex_digit, is_plain, line_members, number_member, numbered_members, object_begin, object_end, place_members, string_byte, string_bytes_of, symbol_member, text_member};

use base::{DeviceFault, Sink, write_all};
use btor2::Symbol;
use itoa::Buffer;
use verbs::Named;

/// A digit of base 16.
fn hex_digit(digit: u8) -> u8
    requires { digit < 16 }
    ensures { result ≡ hex_digit digit }
{
    if digit >= 10 { 87 + digit } else { 48 + digit }
}

/// Whether a byte stands in a string as it is.
fn is_plain(byte: u8) -> bool
    ensures { result ≡ is_plain byte }
{
    (byte >= 32 && byte <= 126) && !(byte == b'"' || byte == b'\\')
}

/// Writes a byte of a string.
fn write_byte<O: Sink>(byte: u8, out: &mut O) -> Result<(), DeviceFault>
    ensures written { OnOk result (Appends (O.written out.old) (O.written out.new)
        (string_byte byte)) }
    ensures counted { CountsFaults result (O.failures out.old) (O.failures out.new) }
{
    if is_plain(byte) {
        return write_all(out, &[byte]);
    }
    write_all(out, b"\\u00")?;
    write_all(out, &[hex_digit(byte / 16), hex_digit(byte % 16)])
}

/// Writes the bytes of a string.
fn write_bytes<O: Sink>(text: &[u8], out: &mut O) -> Result<(), DeviceFault>
    ensures written { OnOk result (Appends (O.written out.old) (O.written out.new)
        (string_bytes_of text.now)) }
    ensures counted { CountsFaults result (O.failures out.old) (O.failures out.new) }
{
    let mut rest = text;
    while let Some((byte, behind)) = rest.split_first() {
        write_byte(*byte, out)?;
        rest = behind;
    }
    Ok(())
}

/// Writes a member that is a number.
#[tactic(auto, unfolding(crate::specs::Objects::number_member))]
pub(crate) fn write_number<O: Sink>(key: &[u8], number: u64, out: &mut O) -> Result<(), DeviceFault>
    ensures written { OnOk result (Appends (O.written out.old) (O.written out.new)
        (number_member key.now number)) }
    ensures counted { CountsFaults result (O.failures out.old) (O.failures out.new) }
{
    let mut buffer = Buffer::new();
    write_all(out, b", \"")?;
    write_all(out, key)?;
    write_all(out, b"\": ")?;
    write_all(out, buffer.format(number).as_bytes())
}

/// Writes a member that is a text.
#[tactic(auto, unfolding(crate::specs::Objects::text_member))]
pub(crate) fn write_text<O: Sink>(key: &[u8], text: &[u8], out: &mut O) -> Result<(), DeviceFault>
    ensures written { OnOk result (Appends (O.written out.old) (O.written out.new)
        (text_member key.now text.now)) }
    ensures counted { CountsFaults result (O.failures out.old) (O.failures out.new) }
{
    write_all(out, b", \"")?;
    write_all(out, key)?;
    write_all(out, b"\": \"")?;
    write_bytes(text, out)?;
    write_all(out, b"\"")
}

/// Writes the symbol or the name of something, where it has one.
pub(crate) fn write_symbol<O: Sink>(symbol: Option<&[u8]>, out: &mut O) -> Result<(), DeviceFault>
    ensures written { OnOk result (Appends (O.written out.old) (O.written out.new)
        (symbol_member (option_copied symbol.entry))) }
    ensures counted { CountsFaults result (O.failures out.old) (O.failures out.new) }
{
    match symbol {
        Some(symbol) => write_text(b"symbol", symbol, out),
        None => Ok(()),
    }
}

/// Writes the symbol of a line of a model, where it has one.
fn write_symbol_of<O: Sink>(symbol: &Option<Symbol>, out: &mut O) -> Result<(), DeviceFault>
    ensures written { OnOk result (Appends (O.written out.old) (O.written out.new)
        (symbol_member symbol.now)) }
    ensures counted { CountsFaults result (O.failures out.old) (O.failures out.new) }
{
    match symbol {
        Some(symbol) => write_text(b"symbol", symbol.bytes(), out),
        None => Ok(()),
    }
}

/// Writes the id and the symbol of a line of a model, where it is there.
pub(crate) fn write_line<O: Sink>(line: Option<Named<'_>>, out: &mut O) -> Result<(), DeviceFault>
    ensures written { OnOk result (Appends (O.written out.old) (O.written out.new)
        (line_members (option_map name_of line.entry))) }
    ensures counted { CountsFaults result (O.failures out.old) (O.failures out.new) }
{
    match line {
        Some(line) => {
            write_number(b"id", line.id, out)?;
            write_symbol_of(line.symbol, out)
        }
        None => Ok(()),
    }
}

/// Writes a place that is counted.
pub(crate) fn write_place<O: Sink>(unit: &[u8], place: u64, out: &mut O) -> Result<(), DeviceFault>
    ensures written { OnOk result (Appends (O.written out.old) (O.written out.new)
        (place_members unit.now place)) }
    ensures counted { CountsFaults result (O.failures out.old) (O.failures out.new) }
{
    write_text(b"unit", unit, out)?;
    write_number(b"place", place, out)
}

/// Writes the number and the name of what is wrong.
pub(crate) fn write_numbered<O: Sink>(
    number: u32,
    name: &str,
    out: &mut O,
) -> Result<(), DeviceFault>
    ensures written { OnOk result (Appends (O.written out.old) (O.written out.new)
        (numbered_members number name.now)) }
    ensures counted { CountsFaults result (O.failures out.old) (O.failures out.new) }
{
    write_number(b"number", u64::from(number), out)?;
    write_text(b"name", name.as_bytes(), out)
}

/// Writes a place, and the number and the name of what is wrong there.
pub(crate) fn write_faulty<O: Sink>(
    unit: &[u8],
    place: u64,
    number: u32,
    name: &str,
    out: &mut O,
) -> Result<(), DeviceFault>
    ensures written { OnOk result (Appends (O.written out.old) (O.written out.new)
        (faulty_members unit.now place number name.now)) }
    ensures counted { CountsFaults result (O.failures out.old) (O.failures out.new) }
{
    write_place(unit, place, out)?;
    write_numbered(number, name, out)
}

/// Begins an object with its verdict.
pub(crate) fn begin_object<O: Sink>(verdict: &[u8], out: &mut O) -> Result<(), DeviceFault>
    ensures written { OnOk result (Appends (O.written out.old) (O.written out.new)
        (object_begin verdict.now)) }
    ensures counted { CountsFaults result (O.failures out.old) (O.failures out.new) }
{
    write_all(out, b"{\"verdict\": \"")?;
    write_all(out, verdict)?;
    write_all(out, b"\"")
}

/// Ends an object, and its line.
#[tactic(auto, unfolding(crate::specs::Objects::object_end))]
pub(crate) fn end_object<O: Sink>(out: &mut O) -> Result<(), DeviceFault>
    ensures written { OnOk result (Appends (O.written out.old) (O.written out.new) object_end) }
    ensures counted { CountsFaults result (O.failures out.old) (O.failures out.new) }
{
    write_all(out, b"}\n")
}
