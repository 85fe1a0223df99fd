//! Models, circuits and witnesses that several tests speak of, and a sink that takes no memory.
use base::{DeviceFault, Sink};
use btor2::Model;
use btor2text::read;
use std::alloc::Global;
use std::test::Fail;

/// A bit that begins with 0 and toggles, and is bad.
pub const TOGGLER: &str =
    "1 sort bitvec 1\n2 zero 1\n3 state 1 t\n4 init 1 3 2\n5 not 1 3\n6 next 1 3 5\n7 bad 3\n";

/// A counter of two bits from 0 on: it is bad that it is 3.
pub const COUNTER: &str =
    "1 sort bitvec 1\n2 sort bitvec 2\n3 zero 2\n4 state 2 c\n5 init 2 4 3\n6 inc 2 4\n7 next 2 4 6\n8 const 2 11\n9 eq 1 4 8\n10 bad 9\n";

/// The same counter: it is bad that it is 1, under the constraint that it is not 2.
pub const BOUNDED: &str =
    "1 sort bitvec 1\n2 sort bitvec 2\n3 zero 2\n4 state 2 c\n5 init 2 4 3\n6 inc 2 4\n7 next 2 4 6\n8 const 2 01\n9 eq 1 4 8\n10 bad 9\n11 const 2 10\n12 neq 1 4 11\n13 constraint 12\n";

/// A word of two bits that keeps its value: it is bad that its higher bit is 1.
pub const KEEPER: &str =
    "1 sort bitvec 2\n2 sort bitvec 1\n3 state 1 s\n4 next 1 3 3\n5 slice 2 3 1 1\n6 bad 5\n";

/// A free state, one that follows it a frame later and is bad, and an input, of one bit each.
pub const FOLLOWER: &str =
    "1 sort bitvec 1\n2 state 1 f\n3 state 1 s\n4 input 1 x\n5 next 1 3 2\n6 bad 3\n";

/// An input of three bits, and a state that has its highest bit a frame later and is bad.
pub const DELAYED: &str =
    "1 sort bitvec 3\n2 sort bitvec 1\n3 input 1 x\n4 state 2 s\n5 slice 2 3 2 2\n6 next 2 4 5\n7 bad 4\n";

/// The circuit of the toggling bit.
pub const TOGGLES: &str = "aag 1 0 1 0 0 1\n2 3\n2\nl0 t[0]\n";

/// The circuit of the word that keeps its value.
pub const KEEPS: &str = "aag 2 0 2 0 0 1\n2 2 2\n4 4 4\n4\nl0 s[0]\nl1 s[1]\n";

/// Two inputs, their gate and an output, in the binary form.
pub const GATE: &[u8] = b"aig 3 2 0 1 1\n6\n\x02\x02";

/// The model of a text.
pub fn model_of(alloc: Global, text: &str) -> Result<Model, Fail> {
    Ok(read(alloc, &mut text.as_bytes())?)
}

/// A sink that takes no memory: it compares what it is given with a text.
#[derive(Drop)]
pub struct Comparing<'a> {
    rest: &'a [u8],
    is_same: bool,
    is_untouched: bool,
}

impl<'a> Comparing<'a> {
    /// Nothing was written yet, and this text is wanted.
    pub fn new(wanted: &'a [u8]) -> Comparing<'a> {
        Comparing {
            rest: wanted,
            is_same: true,
            is_untouched: true,
        }
    }

    /// Whether the text was written, and nothing else.
    pub fn is_whole(&self) -> bool {
        self.is_same && self.rest.is_empty()
    }

    /// Whether a beginning of the text was written, or nothing, or all of it.
    pub fn is_beginning(&self) -> bool {
        self.is_same
    }

    /// Whether no write was tried.
    pub fn is_untouched(&self) -> bool {
        self.is_untouched
    }
}

impl<'a> Sink for Comparing<'a> {
    ghost failures = { λ _. 0 };

    fn write(&mut self, bytes: &[u8]) -> Result<usize, DeviceFault> {
        let (front, rest) = self.rest.split_at(bytes.len().min(self.rest.len()));
        self.is_same = self.is_same && front == bytes;
        self.is_untouched = false;
        self.rest = rest;
        Ok(bytes.len())
    }
}
