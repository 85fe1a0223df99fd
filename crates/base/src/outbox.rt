//! Bytes on their way to a sink, kept until there are many.
ghost use Rattle.std.specs.Prelude.{◌≡◌, ℕ, ◌+◌, ◌≤◌, List, [], ◌++◌, length, take, OnOk, OnErr};
ghost use Rattle.std.specs.Io.KnownBytes.{Appends, append_known};
ghost use Rattle.base.specs.Device.{CountsFaults, AppendsBeginning, Sent};

use crate::device::DeviceFault;
use crate::sinks::{Sink, write_all};
use std::marker::Model;

/// How many bytes an outbox holds.
const ROOM: usize = 32768;

/// Bytes on their way to a sink: small pieces are kept until 32768 bytes are full, and go out together.
///
/// Clauses see the bytes that are kept. `flush` must be called at the end, since a drop writes nothing.
#[derive(Drop)]
pub struct Outbox {
    bytes: [u8; ROOM],
    used: usize,
}

impl Model for Outbox {
    ghost Value = { List ℕ };

    ghost view = { λ o. take o.used o.bytes };

    ghost invariant = { λ o. o.used ≤ 32768 };
}

impl Outbox {
    /// An outbox that keeps nothing.
    pub fn new() -> Outbox
        ensures { result ≡ [] }
    {
        Outbox {
            bytes: [0; ROOM],
            used: 0,
        }
    }

    /// Puts bytes behind those that are kept. The sink is written to where they don't fit.
    ///
    /// Errors: the sink's own; a beginning of the kept bytes and these was written then, and the
    /// outbox is empty.
    #[inline(always)]
    pub fn put<K: Sink>(&mut self, sink: &mut K, bytes: &[u8]) -> Result<(), DeviceFault>
        ensures ok { OnOk result (Appends (append_known (K.written sink.old) self.old)
            (append_known (K.written sink.new) self.new) bytes.now) }
        ensures sent { OnOk result (Sent (K.written sink.old) (K.written sink.new)
            (self.old ++ bytes.now) self.new) }
        ensures err { OnErr result (AppendsBeginning (K.written sink.old) (K.written sink.new)
            (self.old ++ bytes.now)) }
        ensures empty { OnErr result (self.new ≡ []) }
        ensures failures { CountsFaults result (K.failures sink.old) (K.failures sink.new) }
    {
        if bytes.len() <= self.room() {
            self.keep(bytes);
            return Ok(());
        }
        self.flush_and_put(sink, bytes)
    }

    /// Writes all that is kept, and puts bytes behind it. `put` is made a part of its callers, and this is not: it is
    /// called once in many puts.
    #[cold]
    #[inline(never)]
    fn flush_and_put<K: Sink>(&mut self, sink: &mut K, bytes: &[u8]) -> Result<(), DeviceFault>
        ensures ok { OnOk result (Appends (append_known (K.written sink.old) self.old)
            (append_known (K.written sink.new) self.new) bytes.now) }
        ensures sent { OnOk result (Sent (K.written sink.old) (K.written sink.new)
            (self.old ++ bytes.now) self.new) }
        ensures err { OnErr result (AppendsBeginning (K.written sink.old) (K.written sink.new)
            (self.old ++ bytes.now)) }
        ensures empty { OnErr result (self.new ≡ []) }
        ensures failures { CountsFaults result (K.failures sink.old) (K.failures sink.new) }
    {
        self.flush(sink)?;
        self.put_first(sink, bytes)
    }

    /// Writes all that is kept.
    ///
    /// Errors: the sink's own; a beginning of the kept bytes was written then. The outbox is empty in
    /// every case.
    pub fn flush<K: Sink>(&mut self, sink: &mut K) -> Result<(), DeviceFault>
        ensures ok { OnOk result (Appends (K.written sink.old) (K.written sink.new) self.old) }
        ensures err { OnErr result (AppendsBeginning (K.written sink.old)
            (K.written sink.new) self.old) }
        ensures empty { self.new ≡ [] }
        ensures failures { CountsFaults result (K.failures sink.old) (K.failures sink.new) }
    {
        let used = self.used;
        self.used = 0;
        let (kept, _) = self.bytes.split_at(used);
        write_all(sink, kept)
    }

    /// How many bytes more it can keep.
    fn room(&self) -> usize
        ensures { length self.now + result ≡ 32768 }
    {
        ROOM - self.used
    }

    /// Keeps bytes that fit.
    #[inline(always)]
    fn keep(&mut self, bytes: &[u8])
        requires { length self.old + length bytes.now ≤ 32768 }
        ensures { self.new ≡ self.old ++ bytes.now }
    {
        copy_at(&mut self.bytes, self.used, bytes);
        self.used += bytes.len();
    }

    /// Puts bytes into an outbox that is empty: they are kept where they fit, and else written.
    fn put_first<K: Sink>(&mut self, sink: &mut K, bytes: &[u8]) -> Result<(), DeviceFault>
        requires { self.old ≡ [] }
        ensures ok { OnOk result (Appends (K.written sink.old)
            (append_known (K.written sink.new) self.new) bytes.now) }
        ensures sent { OnOk result (Sent (K.written sink.old) (K.written sink.new) bytes.now
            self.new) }
        ensures err { OnErr result (AppendsBeginning (K.written sink.old)
            (K.written sink.new) bytes.now) }
        ensures empty { OnErr result (self.new ≡ []) }
        ensures failures { CountsFaults result (K.failures sink.old) (K.failures sink.new) }
    {
        if bytes.len() <= ROOM {
            self.keep(bytes);
            return Ok(());
        }
        write_all(sink, bytes)
    }
}

/// Copies bytes into a buffer, from a place on.
#[inline(always)]
pub fn copy_at(buffer: &mut [u8], at: usize, bytes: &[u8])
    requires { at + length bytes.now ≤ length buffer.old }
    ensures front { take (at + length bytes.now) buffer.new ≡ take at buffer.old ++ bytes.now }
    ensures as_many { length buffer.new ≡ length buffer.old }
{
    let end = at + bytes.len();
    buffer[at..end].copy_from_slice(bytes);
}
