//! Two devices for trials of hostile use: one fails at a call that was chosen, one hands on few bytes a call.
ghost use Rattle.std.specs.Prelude.{◌≡◌, ◌<◌, true, false, Some, length, take, drop, IfOk, IsErrOf};
ghost use Rattle.std.specs.Io.{ReadsAtMost, WritesAtMost};
ghost use Rattle.std.specs.Io.KnownBytes.{ReadConsumes, WriteAppends};
ghost use Rattle.base.specs.Device.{CountsFaults};
ghost use Rattle.base.specs.Trials.{Due, Chopped, is_due, one_later, all_failures};

use crate::device::DeviceFault;
use crate::sinks::Sink;
use crate::sources::Source;
use std::marker::Model;

/// A device that fails at one call that was chosen, and is the device inside at all others, before and after.
///
/// It is a source where the device inside is one, and a sink where that is one; reads and writes are counted down by one
/// count, and so is a call without room or without bytes. For a trial of every place where a device can fail, take each k
/// from 0 on, to the first with which no call fails any more.
#[derive(Drop)]
pub struct FailAt<T> {
    inner: T,
    before: Option<u64>,
}

impl<T> Model for FailAt<T> {
    ghost Value = { Due T };

    ghost view = { λ f. record { inner = f.inner; before = f.before } };
}

impl<T> FailAt<T> {
    /// A device whose call number `k`, from 0, answers the fault and leaves the device inside as it is. All calls before and
    /// after are those of `inner`, with its own faults.
    pub fn new(inner: T, k: u64) -> FailAt<T>
        ensures { result ≡ record { inner = inner; before = Some k } }
    {
        FailAt {
            inner,
            before: Some(k),
        }
    }

    /// The device inside, as the calls so far left it.
    pub fn inner(&self) -> &T
        ensures { result.now ≡ self.now.inner }
    {
        &self.inner
    }

    /// The device inside, had back.
    pub fn into_inner(self) -> T
        ensures { result ≡ self.inner }
    {
        self.inner
    }

    /// Counts a call, and answers whether it is the one that fails.
    fn count(&mut self) -> bool
        ensures due { result ≡ is_due self.old.before }
        ensures counts { self.new
            ≡ record { inner = self.old.inner; before = one_later self.old.before } }
    {
        match self.before {
            None => false,
            Some(0) => {
                self.before = None;
                true
            }
            Some(k) => {
                self.before = Some(k - 1);
                false
            }
        }
    }
}

/// The bytes are those of the source inside; failures are its own and the one that was chosen.
impl<S: Source> Source for FailAt<S> {
    ghost to_come = { λ s. S.to_come s.inner };

    ghost calls_left = { λ s. S.calls_left s.inner };

    ghost failures = { λ s. all_failures s.before (S.failures s.inner) };

    /// A read of the source inside.
    ///
    /// Errors: the fault at the call that was chosen, which leaves the source inside and `buf` as they are; else those of
    /// the source inside.
    fn read(&mut self, buf: &mut [u8]) -> Result<usize, DeviceFault>
        ensures within { ReadsAtMost result buf.new }
        ensures bytes { ReadConsumes (S.to_come self.old.inner) (S.to_come self.new.inner) result
            buf.new }
        ensures ends { IfOk result (λ n. 0 < n
            → S.calls_left self.new.inner < S.calls_left self.old.inner) }
        ensures failures { CountsFaults result
            (all_failures self.old.before (S.failures self.old.inner))
            (all_failures self.new.before (S.failures self.new.inner)) }
        ensures fault { is_due self.old.before ≡ true → IsErrOf result DeviceFault.Failed }
        ensures inner_stays { is_due self.old.before ≡ true → self.new.inner ≡ self.old.inner }
        ensures buffer_stays { is_due self.old.before ≡ true → buf.new ≡ buf.old }
        ensures inner_fails { is_due self.old.before ≡ false
            → CountsFaults result (S.failures self.old.inner) (S.failures self.new.inner) }
        ensures counts { self.new.before ≡ one_later self.old.before }
    {
        let gives_none = self.count();
        if gives_none {
            return Err(DeviceFault::Failed);
        }
        self.inner.read(buf)
    }
}

/// The bytes are those of the sink inside; failures are its own and the one that was chosen.
impl<K: Sink> Sink for FailAt<K> {
    ghost written = { λ s. K.written s.inner };

    ghost failures = { λ s. all_failures s.before (K.failures s.inner) };

    /// A write to the sink inside.
    ///
    /// Errors: the fault at the call that was chosen, which leaves the sink inside as it is; else those of the sink inside.
    fn write(&mut self, bytes: &[u8]) -> Result<usize, DeviceFault>
        ensures within { WritesAtMost result bytes.now }
        ensures some { 0 < length bytes.now → IfOk result (λ n. 0 < n) }
        ensures bytes { WriteAppends (K.written self.old.inner) (K.written self.new.inner) result
            bytes.now }
        ensures failures { CountsFaults result
            (all_failures self.old.before (K.failures self.old.inner))
            (all_failures self.new.before (K.failures self.new.inner)) }
        ensures fault { is_due self.old.before ≡ true → IsErrOf result DeviceFault.Failed }
        ensures inner_stays { is_due self.old.before ≡ true → self.new.inner ≡ self.old.inner }
        ensures inner_fails { is_due self.old.before ≡ false
            → CountsFaults result (K.failures self.old.inner) (K.failures self.new.inner) }
        ensures counts { self.new.before ≡ one_later self.old.before }
    {
        let takes_none = self.count();
        if takes_none {
            return Err(DeviceFault::Failed);
        }
        self.inner.write(bytes)
    }
}

/// A device that hands on a few bytes a call, and is the device inside for these.
///
/// It is a source where the device inside is one, and a sink where that is one. No byte is lost: what a call leaves out
/// comes with the next read, or is the writer's to offer again. It may stand around a `FailAt`, or inside one.
#[derive(Drop)]
pub struct Chop<T> {
    inner: T,
    most: usize,
}

impl<T> Model for Chop<T> {
    ghost Value = { Chopped T };

    ghost view = { λ c. record { inner = c.inner; most = c.most } };

    ghost invariant = { λ c. 0 < c.most };
}

impl<T> Chop<T> {
    /// A device that hands on at most `n` bytes a call; `n` is at least 1.
    pub fn new(inner: T, n: usize) -> Chop<T>
        requires { 0 < n }
        ensures { result ≡ record { inner = inner; most = n } }
    {
        Chop { inner, most: n }
    }

    /// The device inside, as the calls so far left it.
    pub fn inner(&self) -> &T
        ensures { result.now ≡ self.now.inner }
    {
        &self.inner
    }

    /// The device inside, had back.
    pub fn into_inner(self) -> T
        ensures { result ≡ self.inner }
    {
        self.inner
    }
}

/// Bytes and failures are those of the source inside.
impl<S: Source> Source for Chop<S> {
    ghost to_come = { λ s. S.to_come s.inner };

    ghost calls_left = { λ s. S.calls_left s.inner };

    ghost failures = { λ s. S.failures s.inner };

    /// A read of the source inside, into at most so many bytes at the front of `buf`; those behind them stay.
    ///
    /// Errors: those of the source inside.
    fn read(&mut self, buf: &mut [u8]) -> Result<usize, DeviceFault>
        ensures within { ReadsAtMost result buf.new }
        ensures bytes { ReadConsumes (S.to_come self.old.inner) (S.to_come self.new.inner) result
            buf.new }
        ensures ends { IfOk result (λ n. 0 < n
            → S.calls_left self.new.inner < S.calls_left self.old.inner) }
        ensures failures { CountsFaults result (S.failures self.old.inner)
            (S.failures self.new.inner) }
        ensures few { ReadsAtMost result (take self.old.most buf.new) }
        ensures few_bytes { ReadConsumes (S.to_come self.old.inner)
            (S.to_come self.new.inner) result (take self.old.most buf.new) }
        ensures rest_stays { drop self.old.most buf.new ≡ drop self.old.most buf.old }
        ensures most { self.new.most ≡ self.old.most }
    {
        let count = self.most.min(buf.len());
        self.inner.read(&mut buf[..count])
    }
}

/// Bytes and failures are those of the sink inside.
impl<K: Sink> Sink for Chop<K> {
    ghost written = { λ s. K.written s.inner };

    ghost failures = { λ s. K.failures s.inner };

    /// A write to the sink inside of at most so many bytes from the front of `bytes`.
    ///
    /// Errors: those of the sink inside.
    fn write(&mut self, bytes: &[u8]) -> Result<usize, DeviceFault>
        ensures within { WritesAtMost result bytes.now }
        ensures some { 0 < length bytes.now → IfOk result (λ n. 0 < n) }
        ensures bytes { WriteAppends (K.written self.old.inner) (K.written self.new.inner) result
            bytes.now }
        ensures failures { CountsFaults result (K.failures self.old.inner)
            (K.failures self.new.inner) }
        ensures few { WritesAtMost result (take self.old.most bytes.now) }
        ensures few_bytes { WriteAppends (K.written self.old.inner)
            (K.written self.new.inner) result (take self.old.most bytes.now) }
        ensures most { self.new.most ≡ self.old.most }
    {
        let (front, _) = bytes.split_at(self.most.min(bytes.len()));
        self.inner.write(front)
    }
}
