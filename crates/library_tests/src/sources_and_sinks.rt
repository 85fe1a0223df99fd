//! What no clause says of devices: that calls succeed, and that nothing is tried again.
use crate::samples::Comparing;
use base::{
    DeviceFault, FromReader, Outbox, ReadAllFault, Sink, Source, ToWriter, VecSink, laws, read_all,
    write_all,
};
use std::alloc::Global;
use std::collections::VecDeque;
use std::io::{self, ErrorKind, Read, Write};
use std::test::Fail;

/// A device of std that fails at its second call alone. It gives or takes one byte a call, and gives three.
#[derive(Drop)]
struct FailsOnce {
    calls: u8,
    kind: ErrorKind,
}

impl FailsOnce {
    /// One call: a byte, nothing behind the third, or the one failure.
    fn call(&mut self) -> io::Result<usize> {
        self.calls = self.calls.saturating_add(1);
        match self.calls {
            2 => Err(io::Error::from(self.kind)),
            1 | 3 | 4 => Ok(1),
            _ => Ok(0),
        }
    }
}

impl Read for FailsOnce {
    fn read(&mut self, buf: &mut [u8]) -> io::Result<usize> {
        let count = self.call()?.min(buf.len());
        for byte in &mut buf[..count] {
            *byte = 7;
        }
        Ok(count)
    }
}

impl Write for FailsOnce {
    fn write(&mut self, bytes: &[u8]) -> io::Result<usize> {
        Ok(self.call()?.min(bytes.len()))
    }

    fn flush(&mut self) -> io::Result<()> {
        Ok(())
    }
}

/// A source that gives one byte and then fails.
#[derive(Drop)]
struct FailsSecond {
    left: u8,
    failures: u128,
}

impl Source for FailsSecond {
    ghost calls_left = { λ s. s.left };

    ghost failures = { λ s. s.failures };

    fn read(&mut self, buf: &mut [u8]) -> Result<usize, DeviceFault> {
        if self.left > 0 && !buf.is_empty() {
            self.left -= 1;
            buf[0] = 7;
            return Ok(1);
        }
        self.failures = self.failures.saturating_add(1);
        Err(DeviceFault::Failed)
    }
}

/// A sink that takes one byte a call, and fails once its room is full.
#[derive(Drop)]
struct Dripping {
    sink: VecSink,
    room: usize,
    failures: u128,
}

impl Sink for Dripping {
    ghost failures = { λ s. s.failures };

    fn write(&mut self, bytes: &[u8]) -> Result<usize, DeviceFault> {
        if self.room > 0 {
            self.room -= 1;
            let (front, _) = bytes.split_at(bytes.len().min(1));
            if let Ok(count) = self.sink.write(front) {
                return Ok(count);
            }
        }
        self.failures = self.failures.saturating_add(1);
        Err(DeviceFault::Failed)
    }
}

/// Writes pieces one after the other.
fn write_pieces<S: Sink>(sink: &mut S, pieces: &[&[u8]]) -> Result<(), DeviceFault> {
    for piece in pieces {
        write_all(sink, piece)?;
    }
    Ok(())
}

/// Pieces of which one is empty.
const WORDS: [&[u8]; 3] = [b"one ", b"", b"two"];

/// Whether pieces are written through to a device of std.
fn are_through(alloc: Global) -> bool {
    write_pieces(&mut ToWriter::new(VecDeque::new(alloc)), &WORDS).is_ok()
}

#[test]
fn bytes_reach_a_sink(rt: HostRuntime) {
    let mut kept = VecSink::new(rt.alloc());
    let are_kept = write_pieces(&mut kept, &WORDS).is_ok();
    assert!(rt; are_kept & (kept.bytes() == b"one two".as_slice()));
    assert!(rt; are_through(rt.alloc()) & drips(rt.alloc()));
}

/// Whether writing four bytes to a sink of room for three fails, and writes three.
fn drips(alloc: Global) -> bool {
    let mut dripping = Dripping {
        sink: VecSink::new(alloc),
        room: 3,
        failures: 0,
    };
    write_all(&mut dripping, b"four") == Err(DeviceFault::Failed)
        && dripping.sink.bytes() == b"fou".as_slice()
}

/// Whether reading a source gives these bytes.
fn reads<S: Source>(alloc: Global, source: &mut S, wanted: &[u8]) -> bool {
    match read_all(alloc, source) {
        Ok(given) => given.as_slice() == wanted,
        Err(_) => false,
    }
}

/// How many reads failed where a source fails at its second; none where reading it does not.
fn failed_reads(alloc: Global) -> Option<u128> {
    let mut failing = FailsSecond {
        left: 1,
        failures: 0,
    };
    match read_all(alloc, &mut failing) {
        Err(ReadAllFault::Device) => Some(failing.failures),
        _ => None,
    }
}

/// More bytes than are read in one call.
const SEVENS: [u8; 70_000] = [7; 70_000];

/// Whether bytes are read to their end, from where they are and through a device of std.
fn are_read(alloc: Global, bytes: &[u8]) -> bool {
    let mut source = bytes;
    reads(alloc, &mut source, bytes) & reads(alloc, &mut FromReader::new(bytes), bytes)
}

#[test]
fn a_source_is_read_to_its_end(rt: HostRuntime) {
    assert!(rt; are_read(rt.alloc(), &SEVENS));
    assert!(rt; failed_reads(rt.alloc()) == Some(1));
}

/// Whether a read that failed is not tried again, and the next one goes on: a second try would find the two bytes behind
/// the failure.
fn is_read_once(alloc: Global, kind: ErrorKind) -> Result<bool, Fail> {
    let mut source = FromReader::new(FailsOnce { calls: 0, kind });
    let fault = read_all(alloc, &mut source).err();
    let rest = read_all(alloc, &mut source)?;
    Ok(fault == Some(ReadAllFault::Device) && rest.as_slice() == b"\x07\x07".as_slice())
}

/// Whether a write that failed is not tried again, and the next one goes on: a second try would take the second byte and
/// the third. The last takes nothing more, which is a fault too.
fn is_written_once(kind: ErrorKind) -> bool {
    let mut sink = ToWriter::new(FailsOnce { calls: 0, kind });
    write_all(&mut sink, b"abc") == Err(DeviceFault::Failed)
        && write_all(&mut sink, b"bc") == Ok(())
        && write_all(&mut sink, b"d") == Err(DeviceFault::Failed)
}

#[test]
fn a_call_that_failed_is_not_tried_again(rt: HostRuntime) -> Result<(), Fail> {
    for kind in [
        ErrorKind::Interrupted,
        ErrorKind::WouldBlock,
        ErrorKind::BrokenPipe,
    ] {
        let is_read_once = is_read_once(rt.alloc(), kind)?;
        assert!(rt; is_read_once && is_written_once(kind), "{kind:?}");
    }
    Ok(())
}

/// A piece that is longer than what an outbox holds.
const LONG: [u8; 40_000] = [1; 40_000];

/// A piece of half that length.
const HALF: [u8; 20_000] = [1; 20_000];

/// Pieces, long ones among them.
const PIECES: [&[u8]; 6] = [b"a small piece", &LONG, b"", &HALF, &HALF, b"end"];

/// Puts pieces into an outbox over a sink, and flushes it.
fn put_pieces<S: Sink>(
    outbox: &mut Outbox,
    sink: &mut S,
    pieces: &[&[u8]],
) -> Result<(), DeviceFault> {
    for piece in pieces {
        outbox.put(sink, piece)?;
    }
    outbox.flush(sink)
}

/// Whether bytes are those of pieces.
fn are_pieces(bytes: &[u8], pieces: &[&[u8]]) -> bool {
    let mut sink = Comparing::new(bytes);
    write_pieces(&mut sink, pieces).is_ok() && sink.is_whole()
}

/// Whether an outbox writes pieces to a sink.
fn writes(sink: &mut VecSink, pieces: &[&[u8]]) -> bool {
    put_pieces(&mut Outbox::new(), sink, pieces).is_ok() && are_pieces(sink.bytes(), pieces)
}

#[test]
fn an_outbox_writes_what_it_was_given(rt: HostRuntime) {
    let mut whole = VecSink::new(rt.alloc());
    assert!(rt; writes(&mut whole, &PIECES));
}

/// Whether an outbox writes pieces to a sink of one byte a call, and fails where its room ends.
fn drips_pieces(dripping: &mut Dripping, pieces: &[&[u8]]) -> Result<bool, DeviceFault> {
    let mut outbox = Outbox::new();
    put_pieces(&mut outbox, dripping, pieces)?;
    let is_put = are_pieces(dripping.sink.bytes(), pieces);
    dripping.room = 2;
    outbox.put(dripping, b"xyz")?;
    let answer = outbox.flush(dripping);
    Ok(is_put & (answer == Err(DeviceFault::Failed)) & (dripping.sink.bytes().len() == 80_018))
}

#[test]
fn an_outbox_over_a_sink_of_one_byte_a_call(rt: HostRuntime) {
    let mut dripping = Dripping {
        sink: VecSink::new(rt.alloc()),
        room: 200_000,
        failures: 0,
    };
    assert!(rt; drips_pieces(&mut dripping, &PIECES) == Ok(true));
}

#[test]
fn laws_are_called(_rt: HostRuntime) {
    laws::bits_of_bitwise_words();
    laws::bits_stand_for_words();
    laws::decimals_are_numbers();
    laws::joined_words_come_apart();
    laws::lines_and_texts();
    laws::negation();
    laws::overflow_tests();
    laws::quotients_and_remainders();
    laws::rotations_move_bits();
    laws::rotations_return();
    laws::shifts_agree();
    laws::signs_of_remainders();
    laws::tests_decide();
    laws::values_fit();
    laws::wider_words_keep_numbers();
    laws::words_stand_for_numbers();
    laws::worked_decimals();
    laws::worked_lines();
    laws::worked_trials();
    laws::worked_words();
}
