//! The lines of a source, one after the other, without holding all of its bytes.
ghost use Rattle.std.specs.Prelude.{vec_len, vec_capacity, ◌≡◌, ℕ, ◌+◌, ◌-◌, ◌*◌, ◌<◌, ◌≤◌, Bool, true, false, List, [], ◌∷◌, ◌++◌, length, take, drop, if◌then◌else◌, IfOk, OnOk, OnErr, IsErrOf, MatchResult};
ghost use Rattle.std.specs.Io.KnownBytes.{prepend_known, Keeps, Consumes, IsAtEnd};
ghost use Rattle.base.specs.Device.{HasRisen, CountsFaults};
ghost use Rattle.base.specs.Lines.{IsLine};
ghost use Rattle.base.specs.Held.{Held, Advances, lines_left};

use crate::device::DeviceFault;
use crate::lines::next_line;
use crate::sources::{ReadAllFault, Source};
use std::alloc::Global;
use std::marker::Model;

/// At most how many bytes one call of a source is asked for, and how much room the buffer gets at a time.
const PIECE: usize = 32768;

/// The lines of a source, one after the other. One buffer of 32768 bytes is read into, and grows where part of a line fills it.
///
/// Clauses see the line that was found last and the bytes that were read behind it.
#[derive(Drop)]
pub struct LineReader {
    // what was read is its front, so many bytes
    buffer: Vec<u8>,
    filled: usize,
    // where the line that was found last begins, and the place behind its byte 10; 0 both where there is none
    start: usize,
    next: usize,
}

impl Model for LineReader {
    ghost Value = { Held };

    ghost view = { λ r. record { line = drop r.start (take (r.next - 1) r.buffer.items); rest = drop r.next (take r.filled r.buffer.items) } };

    ghost invariant = { λ r. (r.start ≤ r.next - 1) × ((r.next ≤ r.filled) × (r.filled ≤ length r.buffer.items)) };
}

impl LineReader {
    /// A reader that holds nothing.
    pub fn new(alloc: Global) -> LineReader
        ensures { result ≡ record { line = []; rest = [] } }
    {
        LineReader {
            buffer: Vec::new(alloc),
            filled: 0,
            start: 0,
            next: 0,
        }
    }

    /// The line that was found last, without its byte 10; no bytes where the last step found none.
    pub fn line(&self) -> &[u8]
        ensures { result.now ≡ self.now.line }
    {
        let (front, _) = self.buffer.as_slice().split_at(self.next.saturating_sub(1));
        let (_, line) = front.split_at(self.start);
        line
    }

    /// The bytes behind that line that were read already; where the source has no line more, what is unfinished.
    pub fn rest(&self) -> &[u8]
        ensures { result.now ≡ self.now.rest }
    {
        let (read, _) = self.buffer.as_slice().split_at(self.filled);
        let (_, rest) = read.split_at(self.next);
        rest
    }

    /// Goes on to the next line, and answers whether there is one. Where there is none, the source was read to its end.
    ///
    /// Errors: `Device` where the source failed in this call, `NoMemory` where a growth was refused. No byte is lost
    /// then: a further call goes on.
    #[inline(always)]
    #[tactic(auto, using(crate::proofs::HeldLemmas::takes_line))]
    pub fn advance<S: Source>(&mut self, source: &mut S) -> Result<bool, ReadAllFault>
        ensures bytes { Advances result self.old self.new (S.to_come source.old)
            (S.to_come source.new) }
        ensures ends { result ≡ Ok true → lines_left self.new.rest (S.calls_left source.new)
            < lines_left self.old.rest (S.calls_left source.old) }
        ensures counted { OnOk result (S.failures source.new ≡ S.failures source.old) }
        ensures device { IsErrOf result ReadAllFault.Device
            → HasRisen (S.failures source.old) (S.failures source.new) }
        ensures memory { IsErrOf result ReadAllFault.NoMemory → S.failures source.new
            ≡ S.failures source.old }
    {
        let mut seen = 0;
        loop {
            if self.cut(seen) {
                return Ok(true);
            }
            self.compact();
            seen = self.rest().len();
            if self.fill(source)? == 0 {
                return Ok(false);
            }
        }
    }

    /// Cuts the next line off what is held, and answers whether there is one. The first `seen` of the bytes have no byte 10.
    fn cut(&mut self, seen: usize) -> bool
        requires within { seen ≤ length self.old.rest }
        requires none { IsLine (take seen self.old.rest) }
        ensures found { result ≡ true → IsLine self.new.line
            × (self.old.rest ≡ self.new.line ++ 10 ∷ self.new.rest) }
        ensures none { result ≡ false → IsLine self.old.rest × (self.new ≡ self.old) }
    {
        let (_, unseen) = self.rest().split_at(seen);
        match next_line(unseen) {
            None => false,
            Some((line, _)) => {
                let next = self.next + seen + line.len() + 1;
                self.start = self.next;
                self.next = next;
                true
            }
        }
    }

    /// Moves what is held to the front of the buffer, over what is behind the reader.
    #[tactic(auto, using(crate::proofs::HeldLemmas::moved_to_front))]
    fn compact(&mut self)
        ensures { self.new ≡ record { line = []; rest = self.old.rest } }
    {
        let (next, filled) = (self.next, self.filled);
        if next > 0 {
            self.buffer.copy_within(next..filled, 0);
        }
        self.filled = filled - next;
        self.start = 0;
        self.next = 0;
    }

    /// Reads behind what is held, and answers how many bytes; none at the end.
    #[tactic(auto, using(crate::proofs::HeldLemmas::held_more))]
    fn fill<S: Source>(&mut self, source: &mut S) -> Result<usize, ReadAllFault>
        ensures line { self.new.line ≡ self.old.line }
        ensures front { take (length self.old.rest) self.new.rest ≡ self.old.rest }
        ensures bytes { Keeps (prepend_known self.old.rest (S.to_come source.old))
            (prepend_known self.new.rest (S.to_come source.new)) }
        ensures count { IfOk result (λ n. length self.new.rest ≡ length self.old.rest + n) }
        ensures within { IfOk result (λ n. n ≤ 32768) }
        ensures end { result ≡ Ok 0 → IsAtEnd (S.to_come source.new) }
        ensures ends { IfOk result (λ n. 0 < n
            → S.calls_left source.new < S.calls_left source.old) }
        ensures counted { OnOk result (S.failures source.new ≡ S.failures source.old) }
        ensures device { IsErrOf result ReadAllFault.Device
            → HasRisen (S.failures source.old) (S.failures source.new) }
        ensures memory { IsErrOf result ReadAllFault.NoMemory → S.failures source.new
            ≡ S.failures source.old }
    {
        if !has_room(&mut self.buffer, self.filled) {
            return Err(ReadAllFault::NoMemory);
        }
        let end = self.buffer.len().min(self.filled + PIECE);
        match source.read(&mut self.buffer[self.filled..end]) {
            Err(DeviceFault::Failed) => Err(ReadAllFault::Device),
            Ok(count) => {
                self.filled += count;
                Ok(count)
            }
        }
    }
}

/// Whether a buffer has room behind what fills it; where it has none it grows.
fn has_room(buffer: &mut Vec<u8>, filled: usize) -> bool
    requires { filled ≤ length buffer.old.items }
    ensures front { take filled buffer.new.items ≡ take filled buffer.old.items }
    ensures len { length buffer.old.items ≤ length buffer.new.items }
    ensures room { result ≡ true → filled < length buffer.new.items }
{
    filled < buffer.len() || buffer.resize(filled + PIECE, 0).is_ok()
}
