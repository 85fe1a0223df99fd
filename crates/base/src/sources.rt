//! What bytes come from, and how all of them are read.
ghost use Rattle.std.specs.Prelude.{◌≡◌, ℕ, ◌-◌, ◌^◌, ◌<◌, ◌≤◌, List, Option, None, Some, length, IfOk, IfSome, IfErr, OnOk, IsErrOf};
ghost use Rattle.std.specs.Io.{ReadsAtMost};
ghost use Rattle.std.specs.Io.KnownBytes.{ReadConsumes, IsAtEnd, Keeps};
ghost use Rattle.base.specs.Device.{HasRisen, CountsFaults};

use crate::device::DeviceFault;
use crate::reasons::Reason;
use std::alloc::Global;
use std::io::Read;
use thiserror::Error;

/// What bytes come from.
///
/// Every reading ends: a source has a number that falls with each call that gives bytes.
pub trait Source {
    /// The bytes to come, where the source knows them.
    ghost to_come: { Self → Option (List ℕ) } = { λ _. None };

    /// At most how many calls will still give bytes.
    ghost calls_left: { Self → ℕ };

    /// How often it has failed; the greatest number of 128 bits stands for itself and all above.
    ghost failures: { Self → ℕ };

    /// Reads into the front of `buf`, and answers how many bytes. 0 for a buffer that is not empty is the end.
    ///
    /// Errors: the device's own, which its count of failures tells.
    fn read(&mut self, buf: &mut [u8]) -> Result<usize, DeviceFault>
        ensures within { ReadsAtMost result buf.new }
        ensures bytes { ReadConsumes (to_come self.old) (to_come self.new) result buf.new }
        ensures ends { IfOk result (λ n. 0 < n → calls_left self.new < calls_left self.old) }
        ensures failures { CountsFaults result (failures self.old) (failures self.new) };

    /// Why it failed last, where the system told it.
    fn reason(&self) -> Option<Reason> {
        None
    }
}

/// A slice gives its bytes and never fails.
impl Source for &[u8] {
    ghost to_come = { λ s. Some s.now };

    ghost calls_left = { λ s. length s.now };

    ghost failures = { λ _. 0 };

    fn read(&mut self, buf: &mut [u8]) -> Result<usize, DeviceFault> {
        let count = self.len().min(buf.len());
        let (front, rest) = self.split_at(count);
        buf[..count].copy_from_slice(front);
        *self = rest;
        Ok(count)
    }
}

/// A source over any reader of std. Every error of the reader is a fault of the device, an interruption
/// too, and so is every read after 2^64 - 1 of them.
#[derive(Drop)]
pub struct FromReader<R: Read + Drop> {
    reader: R,
    reads_left: u64,
    failures: u128,
    reason: Option<Reason>,
}

impl<R: Read + Drop> FromReader<R> {
    /// A source of the bytes that the reader has left, with no failure yet.
    pub fn new(reader: R) -> FromReader<R>
        ensures bytes { ⟦<FromReader<R> as Source>⟧.to_come result ≡ R.remaining reader }
        ensures failures { ⟦<FromReader<R> as Source>⟧.failures result ≡ 0 }
        ensures reads { ⟦<FromReader<R> as Source>⟧.calls_left result ≡ 2 ^ 64 - 1 }
    {
        FromReader {
            reader,
            reads_left: u64::MAX,
            failures: 0,
            reason: None,
        }
    }
}

impl<R: Read + Drop> Source for FromReader<R> {
    ghost to_come = { λ s. R.remaining s.reader };

    ghost calls_left = { λ s. s.reads_left };

    ghost failures = { λ s. s.failures };

    /// One call uses one read, also where it fails.
    fn read(&mut self, buf: &mut [u8]) -> Result<usize, DeviceFault>
        ensures within { ReadsAtMost result buf.new }
        ensures bytes { ReadConsumes (⟦<FromReader<R> as Source>⟧.to_come self.old)
            (⟦<FromReader<R> as Source>⟧.to_come self.new) result buf.new }
        ensures ends { IfOk result (λ n. 0 < n → ⟦<FromReader<R> as Source>⟧.calls_left self.new
            < ⟦<FromReader<R> as Source>⟧.calls_left self.old) }
        ensures failures { CountsFaults result (⟦<FromReader<R> as Source>⟧.failures self.old)
            (⟦<FromReader<R> as Source>⟧.failures self.new) }
        ensures uses_one { ⟦<FromReader<R> as Source>⟧.calls_left self.new
            ≡ ⟦<FromReader<R> as Source>⟧.calls_left self.old - 1 }
    {
        if self.reads_left == 0 {
            self.failures = self.failures.saturating_add(1);
            return Err(DeviceFault::Failed);
        }
        self.reads_left -= 1;
        match self.reader.read(buf) {
            Ok(count) => Ok(count),
            Err(error) => {
                self.failures = self.failures.saturating_add(1);
                self.reason = Reason::of(&error);
                Err(DeviceFault::Failed)
            }
        }
    }

    fn reason(&self) -> Option<Reason> {
        self.reason
    }
}

/// Why a source could not be read to its end.
#[derive(Clone, Copy, Debug, PartialEq, Eq, Error)]
pub enum ReadAllFault {
    /// The source failed.
    #[error("device")]
    Device,
    /// A growth was refused.
    #[error("no memory")]
    NoMemory,
}

/// How many bytes one call of a source is asked for.
const CHUNK: usize = 65536;

/// All bytes of a source, to its end.
///
/// Errors: `Device` where the source failed in this call, `NoMemory` where a growth was refused.
pub fn read_all<S: Source>(alloc: Global, source: &mut S) -> Result<Vec<u8>, ReadAllFault>
    ensures bytes { IfOk result (λ text. IfSome (S.to_come source.old) (λ all. text.items ≡ all)) }
    ensures end { OnOk result (IsAtEnd (S.to_come source.new)) }
    ensures counted { OnOk result (S.failures source.new ≡ S.failures source.old) }
    ensures device { IsErrOf result ReadAllFault.Device
        → HasRisen (S.failures source.old) (S.failures source.new) }
    ensures memory { IsErrOf result ReadAllFault.NoMemory → S.failures source.new
        ≡ S.failures source.old }
{
    let mut text = Vec::new(alloc);
    let mut chunk = [0u8; CHUNK];
    loop {
        match source.read(&mut chunk) {
            Ok(0) => return Ok(text),
            Ok(count) => match text.extend_from_slice(&chunk[..count]) {
                Ok(()) => {}
                Err(_) => return Err(ReadAllFault::NoMemory),
            },
            Err(DeviceFault::Failed) => return Err(ReadAllFault::Device),
        }
    }
}

/// Reads a source to its end and keeps nothing.
///
/// Errors: the source's own.
pub fn skip_all<S: Source>(source: &mut S) -> Result<(), DeviceFault>
    ensures end { OnOk result (IsAtEnd (S.to_come source.new)) }
    ensures failures { CountsFaults result (S.failures source.old) (S.failures source.new) }
{
    let mut chunk = [0u8; CHUNK];
    while source.read(&mut chunk)? > 0 {}
    Ok(())
}
