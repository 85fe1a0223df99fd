//! Names of items, and why bytes are none.
ghost use Rattle.std.specs.Prelude.{◌≡◌, ◌+◌, ◌<◌, ◌≤◌, List, ℕ, true, false, length, slice_index, IfOk, IsErrOf, ◌↔◌};
ghost use Rattle.std.specs.List.{list_all, prefix_len};
ghost use Rattle.btor2.specs.Symbols.{is_symbol, is_printed};
ghost use Rattle.btor2.specs.Faults.{symbol_fault_number, symbol_fault_name};

use crate::name_bytes::NameBytes;
use std::alloc::{AllocError, Global};
use std::fmt;
use std::marker::Model;
use std::simd::prelude::*;
use thiserror::Error;

/// The name of an item: 1 to 255 bytes from 33 to 126, of which the first is not `;`. It is held in one word, since most
/// items of a large model have no name and each has room for one.
#[derive(Drop)]
pub struct Symbol {
    name: Box<NameBytes>,
}

impl Model for Symbol {
    ghost Value = { List ℕ };

    ghost view = { λ s. s.name.value };

    ghost invariant = { λ s. is_symbol s.name.value ≡ true };
}

/// Why bytes are no symbol.
#[derive(Clone, Copy, Debug, PartialEq, Eq, Error)]
pub enum SymbolFault {
    /// They are not 1 to 255 bytes from 33 to 126 of which the first is not `;`.
    BadBytes,
    /// A growth was refused.
    NoMemory,
}

/// Whether a byte is one of a name.
fn is_printed(byte: u8) -> bool
    ensures { result ≡ is_printed byte }
{
    b'!' <= byte && byte <= b'~'
}

/// How many bytes are tested at once.
const LANES: usize = 16;

/// How many of sixteen bytes of a text, from a place on, stand in front of the first that is none of a name.
#[inline(always)]
fn printed_lanes(text: &[u8], at: usize) -> usize
    requires { at + 16 ≤ length text.now }
    ensures few { result ≤ 16 }
    ensures printed { (k : ℕ) → at ≤ k → k < at + result → is_printed (slice_index text.now k)
        ≡ true }
    ensures stops { result < 16 → is_printed (slice_index text.now (at + result)) ≡ false }
{
    let above = u8x16::from_slice(&text[at..]) - u8x16::splat(b'!');
    let others = above.simd_ge(u8x16::splat(94)).to_bitmask();
    if others == 0 {
        return LANES;
    }
    others.trailing_zeros() as usize
}

/// How many bytes of names, which are from 33 to 126, stand at the front of a text. Sixteen are tested at a time.
#[inline(always)]
pub fn printed_front(text: &[u8]) -> usize
    ensures { result ≡ prefix_len is_printed text.now }
{
    let mut at = 0;
    while text.len() - at >= LANES {
        let count = printed_lanes(text, at);
        at += count;
        if count < LANES {
            return at;
        }
    }
    while at < text.len() && is_printed(text[at]) {
        at += 1;
    }
    at
}

/// Whether all bytes are those of names.
fn all_printed(bytes: &[u8]) -> bool
    ensures { result ≡ list_all is_printed bytes.now }
{
    printed_front(bytes) == bytes.len()
}

/// These bytes, in memory of their own.
fn boxed(alloc: Global, bytes: &[u8]) -> Result<Box<NameBytes>, AllocError>
    ensures { IfOk result (λ name. name.value ≡ bytes.now) }
{
    let name = NameBytes::new(alloc, bytes)?;
    let held = Box::new(alloc, name)?;
    Ok(held)
}

impl Symbol {
    /// Whether bytes are a symbol's: 1 to 255 from 33 to 126, of which the first is not `;`.
    pub fn is_symbol(bytes: &[u8]) -> bool
        ensures { result ≡ is_symbol bytes.now }
    {
        match bytes {
            [] => false,
            [first, ..] => *first != b';' && bytes.len() <= 255 && all_printed(bytes),
        }
    }

    /// The symbol of these bytes.
    ///
    /// Errors: `BadBytes` where they are no symbol, `NoMemory`.
    pub fn new(alloc: Global, bytes: &[u8]) -> Result<Symbol, SymbolFault>
        ensures ok { IfOk result (λ s. (s ≡ bytes.now) × (is_symbol bytes.now ≡ true)) }
        ensures bad { IsErrOf result SymbolFault.BadBytes ↔ (is_symbol bytes.now ≡ false) }
    {
        if !Symbol::is_symbol(bytes) {
            return Err(SymbolFault::BadBytes);
        }
        match boxed(alloc, bytes) {
            Ok(name) => Ok(Symbol { name }),
            Err(_) => Err(SymbolFault::NoMemory),
        }
    }

    /// Its bytes.
    pub fn bytes(&self) -> &[u8]
        ensures bytes { result.now ≡ self.now }
        ensures valid { is_symbol self.now ≡ true }
    {
        self.name.bytes()
    }
}

impl SymbolFault {
    /// The number that is printed for the fault.
    pub fn number(self) -> u32
        ensures { result ≡ symbol_fault_number self }
    {
        match self {
            SymbolFault::BadBytes => 16,
            SymbolFault::NoMemory => 17,
        }
    }

    /// The name that is printed for the fault.
    pub fn name(self) -> &'static str
        ensures { result.now ≡ symbol_fault_name self }
    {
        match self {
            SymbolFault::BadBytes => "BadBytes",
            SymbolFault::NoMemory => "NoMemory",
        }
    }
}

impl fmt::Display for SymbolFault {
    fn fmt<W: fmt::Write>(&self, f: &mut fmt::Formatter<W>) -> fmt::Result {
        write!(f, "{} {}", self.number(), self.name())
    }
}
