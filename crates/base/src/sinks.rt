//! What bytes go to, and how all of some bytes are written.
ghost use Rattle.std.specs.Prelude.{◌≡◌, ℕ, ◌<◌, ◌≤◌, [], List, Option, None, Some, length, IfOk, OnOk, OnErr};
ghost use Rattle.std.specs.Io.{WritesAtMost};
ghost use Rattle.std.specs.Io.KnownBytes.{WriteAppends, Appends};
ghost use Rattle.base.specs.Device.{CountsFaults, AppendsBeginning};

use crate::device::DeviceFault;
use crate::reasons::Reason;
use std::alloc::Global;
use std::io::Write;
use std::marker::Model;

/// What bytes go to.
pub trait Sink {
    /// The bytes that it was given, where it knows them.
    ghost written: { Self → Option (List ℕ) } = { λ _. None };

    /// How often it has failed; the greatest number of 128 bits stands for itself and all above.
    ghost failures: { Self → ℕ };

    /// Takes bytes from the front of `bytes`, and answers how many: at least one, where there are any.
    ///
    /// Errors: the device's own, which its count of failures tells. Nothing was taken then.
    fn write(&mut self, bytes: &[u8]) -> Result<usize, DeviceFault>
        ensures within { WritesAtMost result bytes.now }
        ensures some { 0 < length bytes.now → IfOk result (λ n. 0 < n) }
        ensures bytes { WriteAppends (written self.old) (written self.new) result bytes.now }
        ensures failures { CountsFaults result (failures self.old) (failures self.new) };

    /// Why it failed last, where the system told it.
    fn reason(&self) -> Option<Reason> {
        None
    }
}

/// A sink that keeps its bytes. A refused growth is its one failure.
#[derive(Drop)]
pub struct VecSink {
    bytes: Vec<u8>,
    failures: u128,
}

impl VecSink {
    /// An empty sink, with no failure yet.
    pub fn new(alloc: Global) -> VecSink
        ensures empty { ⟦<VecSink as Sink>⟧.written result ≡ Some [] }
        ensures failures { ⟦<VecSink as Sink>⟧.failures result ≡ 0 }
    {
        VecSink {
            bytes: Vec::new(alloc),
            failures: 0,
        }
    }

    /// The bytes that it was given.
    pub fn bytes(&self) -> &[u8]
        ensures { ⟦<VecSink as Sink>⟧.written self.now ≡ Some result.now }
    {
        self.bytes.as_slice()
    }
}

impl Sink for VecSink {
    ghost written = { λ s. Some s.bytes.items };

    ghost failures = { λ s. s.failures };

    fn write(&mut self, bytes: &[u8]) -> Result<usize, DeviceFault> {
        match self.bytes.extend_from_slice(bytes) {
            Ok(()) => Ok(bytes.len()),
            Err(_) => {
                self.failures = self.failures.saturating_add(1);
                Err(DeviceFault::Failed)
            }
        }
    }
}

/// A sink over any writer of std. Every error of the writer is a fault of the device, an interruption
/// too, and so is a write that takes none of some bytes.
#[derive(Drop)]
pub struct ToWriter<W: Write + Drop> {
    writer: W,
    failures: u128,
    reason: Option<Reason>,
}

impl<W: Write + Drop> ToWriter<W> {
    /// A sink behind the bytes that the writer holds, with no failure yet.
    pub fn new(writer: W) -> ToWriter<W>
        ensures bytes { ⟦<ToWriter<W> as Sink>⟧.written result ≡ W.contents writer }
        ensures failures { ⟦<ToWriter<W> as Sink>⟧.failures result ≡ 0 }
    {
        ToWriter {
            writer,
            failures: 0,
            reason: None,
        }
    }
}

impl<W: Write + Drop> Sink for ToWriter<W> {
    ghost written = { λ s. W.contents s.writer };

    ghost failures = { λ s. s.failures };

    fn write(&mut self, bytes: &[u8]) -> Result<usize, DeviceFault> {
        match self.writer.write(bytes) {
            Ok(count) if count > 0 || bytes.is_empty() => Ok(count),
            taken => {
                self.failures = self.failures.saturating_add(1);
                self.reason = match taken {
                    Ok(_) => None,
                    Err(error) => Reason::of(&error),
                };
                Err(DeviceFault::Failed)
            }
        }
    }

    fn reason(&self) -> Option<Reason> {
        self.reason
    }
}

/// Writes all of a slice, however short each write is.
///
/// Errors: the sink's own; a beginning of the bytes was written then.
pub fn write_all<K: Sink>(sink: &mut K, bytes: &[u8]) -> Result<(), DeviceFault>
    ensures ok { OnOk result (Appends (K.written sink.old) (K.written sink.new) bytes.now) }
    ensures err { OnErr result (AppendsBeginning (K.written sink.old)
        (K.written sink.new) bytes.now) }
    ensures failures { CountsFaults result (K.failures sink.old) (K.failures sink.new) }
{
    let mut rest = bytes;
    while !rest.is_empty() {
        let count = sink.write(rest)?;
        let (_, after) = rest.split_at(count);
        rest = after;
    }
    Ok(())
}
