//! Sizes at which a device could fail by itself, or memory be told as wanting where none is: ten megabytes, and circuits and
//! words of more than small tests have.
ghost use Rattle.std.specs.Prelude.{◌≡◌, ◌<◌, []};

use crate::circuits::is_spelled;
use crate::operator_tables::inputs;
use aiger::Lit;
use aigertext::Form;
use base::{Chop, FromReader, Outbox, Source, ToWriter, read_all, write_all};
use gates::{GateFault, Gates, HashGates, add, mul};
use std::alloc::{AllocError, Global};
use std::io::{self, Write};
use std::test::Fail;

/// Ten megabytes and a byte.
const LARGE: usize = 10_485_761;

/// A text of so many bytes.
fn text_of(alloc: Global, count: usize) -> Result<Vec<u8>, AllocError> {
    vec![in alloc; b'x'; count]
}

/// Whether a source is read to its end, and has a text.
fn is_read<S: Source>(alloc: Global, source: &mut S, text: &[u8]) -> bool {
    match read_all(alloc, source) {
        Ok(given) => given.as_slice() == text,
        Err(_) => false,
    }
}

/// A writer of std that takes all that it is given.
#[derive(Drop)]
struct TakesAll;

impl Write for TakesAll {
    fn write(&mut self, bytes: &[u8]) -> io::Result<usize> {
        Ok(bytes.len())
    }

    fn flush(&mut self) -> io::Result<()> {
        Ok(())
    }
}

/// Whether a writer of std takes a text in pieces of so many bytes, and an outbox puts it there in such pieces.
fn is_written(text: &[u8], size: usize) -> bool {
    let mut sink = ToWriter::new(TakesAll);
    let mut outbox = Outbox::new();
    for piece in text.chunks(size.max(1)) {
        if write_all(&mut sink, piece).is_err() || outbox.put(&mut sink, piece).is_err() {
            return false;
        }
    }
    outbox.flush(&mut sink).is_ok()
}

#[test]
fn ten_megabytes_of_a_device(rt: HostRuntime) -> Result<(), Fail> {
    let text = text_of(rt.alloc(), LARGE)?;
    let mut whole = FromReader::new(text.as_slice());
    assert!(rt; is_read(rt.alloc(), &mut whole, text.as_slice()));
    let mut pieces = Chop::new(FromReader::new(text.as_slice()), 10_000);
    assert!(rt; is_read(rt.alloc(), &mut pieces, text.as_slice()));
    for size in [1000, 10_001, 32_768, LARGE] {
        assert!(rt; is_written(text.as_slice(), size), "{size}");
    }
    Ok(())
}

/// A text with ten megabytes between its beginning and its end.
fn long_text(alloc: Global, beginning: &[u8], end: &[u8]) -> Result<Vec<u8>, AllocError> {
    let mut text = text_of(alloc, LARGE)?;
    let mut whole = Vec::from_slice(alloc, beginning)?;
    whole.append(&mut text)?;
    whole.extend_from_slice(end)?;
    Ok(whole)
}

/// Whether a model's text with a long line of comment is read.
fn is_read_behind_comment(alloc: Global) -> Result<bool, AllocError> {
    let text = long_text(alloc, b";", b"\n1 sort bitvec 1\n")?;
    Ok(btor2text::read(alloc, &mut text.as_slice()).is_ok())
}

/// Whether a circuit's text with a long line of comment is read.
fn is_read_before_comment(alloc: Global) -> Result<bool, AllocError> {
    let text = long_text(alloc, b"aag 1 1 0 0 0\n2\nc\n", b"\n")?;
    Ok(aigertext::read(alloc, &mut text.as_slice()).is_ok())
}

#[test]
fn lines_of_ten_megabytes(rt: HostRuntime) -> Result<(), Fail> {
    let is_model = is_read_behind_comment(rt.alloc())?;
    let is_circuit = is_read_before_comment(rt.alloc())?;
    assert!(rt; is_model && is_circuit);
    Ok(())
}

/// How many latches, and how many gates, the large circuit has.
const MANY: u32 = 5000;

/// The text of the large circuit up to its gates: an input, latches that have its bit a frame later, and the last gate as a
/// bad property.
fn front(alloc: Global, header: &str, with_literals: bool) -> Result<String, Fail> {
    let mut text = String::from_str(alloc, header)?;
    if with_literals {
        text.push_str("2\n")?;
    }
    for k in 0..MANY {
        if with_literals {
            let line = format!(in alloc; "{} 2\n", 2 * k + 4)?;
            text.push_str(line.as_str())?;
        } else {
            text.push_str("2\n")?;
        }
    }
    text.push_str("20002\n")?;
    Ok(text)
}

/// The line of a gate: the first is the and of the first latch and the input, any other one that of the gate before and a
/// latch.
fn gate_line(alloc: Global, k: u32) -> Result<String, Fail>
    requires { k < 5000 }
{
    let other = if k == 0 { 2 } else { 2 * k + 4 };
    let greater = if k == 0 { 4 } else { 2 * k + 10_002 };
    Ok(format!(in alloc; "{} {greater} {other}\n", 2 * k + 10_004)?)
}

/// The ascii text of the large circuit, with its gates in order or in reverse.
fn ascii_text(alloc: Global, is_in_order: bool) -> Result<String, Fail> {
    let mut text = front(alloc, "aag 10001 1 5000 0 5000 1\n", true)?;
    for k in 0..MANY {
        let place = if is_in_order { k } else { MANY - 1 - k };
        let line = gate_line(alloc, place)?;
        text.push_str(line.as_str())?;
    }
    Ok(text)
}

/// The binary text of the large circuit: the deltas are 10,000 and 2 of the first gate, and 2 and 9998 of each other.
fn binary_text(alloc: Global) -> Result<Vec<u8>, Fail> {
    let front = front(alloc, "aig 10001 1 5000 0 5000 1\n", false)?;
    let mut text = Vec::from_slice(alloc, front.as_bytes())?;
    text.extend_from_slice(b"\x90\x4e\x02")?;
    for _ in 1..MANY {
        text.extend_from_slice(b"\x02\x8e\x4e")?;
    }
    Ok(text)
}

/// Whether the circuit of a text is spelled so in a form.
fn is_respelled(alloc: Global, text: &[u8], form: Form, spelled: &[u8]) -> bool {
    let mut source = text;
    match aigertext::read(alloc, &mut source) {
        Ok(circuit) => is_spelled(&circuit, form, spelled),
        Err(_) => false,
    }
}

/// Whether the circuit of a text is spelled so in both forms.
fn is_spelled_twice(alloc: Global, text: &[u8], ascii: &[u8], binary: &[u8]) -> bool {
    is_respelled(alloc, text, Form::Ascii, ascii) && is_respelled(alloc, text, Form::Binary, binary)
}

#[test]
fn five_thousand_latches_and_gates(rt: HostRuntime) -> Result<(), Fail> {
    let ascii = ascii_text(rt.alloc(), true)?;
    let reverse = ascii_text(rt.alloc(), false)?;
    let binary = binary_text(rt.alloc())?;
    let (spelled, deltas) = (ascii.as_bytes(), binary.as_slice());
    for text in [spelled, reverse.as_bytes(), deltas] {
        assert!(rt; is_spelled_twice(rt.alloc(), text, spelled, deltas));
    }
    Ok(())
}

/// How many literals the sum or the product of two words of 128 literals has.
fn word_length<G: Gates>(g: &mut G, is_sum: bool) -> Result<usize, GateFault>
    requires fresh { G.made g.old ≡ record { inputs = 256; latches = 0; gates = [] } }
{
    let (a, b) = (inputs(0, 128), inputs(128, 128));
    if is_sum {
        Ok(add(g, &a, &b, Lit::FALSE)?.sum.len())
    } else {
        Ok(mul(g, &a, &b)?.len())
    }
}

/// The same over a sharing maker.
fn shared_length(alloc: Global, is_sum: bool) -> Result<usize, GateFault> {
    word_length(&mut HashGates::new(alloc, 256, 0)?, is_sum)
}

#[test]
fn words_of_128_literals(rt: HostRuntime) {
    for is_sum in [true, false] {
        assert!(rt; shared_length(rt.alloc(), is_sum) == Ok(128));
    }
}
