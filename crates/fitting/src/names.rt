//! Names of pieces.
ghost use Rattle.std.specs.Prelude.{◌≡◌, ◌+◌, ◌^◌, ◌≤◌, true, length, IfOk, IfErr};
ghost use Rattle.std.specs.List.{list_all};
ghost use Rattle.btor2.specs.Symbols.{is_printed, is_symbol};
ghost use Rattle.pieces.specs.declared.shortage.Shortage.TheVariants as shortage;
ghost use Rattle.fitting.specs.Names.{range_text, with_range, piece_name, piece_symbol};

use btor2::{Symbol, SymbolFault};
use itoa::Buffer;
use pieces::Shortage;
use std::alloc::{AllocError, Global};

/// The greatest number of bytes of a symbol.
const MOST_BYTES: usize = 255;

/// An upper and a lower bit in brackets.
fn range_text(alloc: Global, upper: u64, lower: u64) -> Result<Vec<u8>, AllocError>
    ensures text { IfOk result (λ text. text.items ≡ range_text upper lower) }
    ensures short { IfOk result (λ text. length text.items ≤ 83) }
{
    let mut digits = Buffer::new();
    let mut text = Vec::from_slice(alloc, b"[")?;
    text.extend_from_slice(digits.format(upper).as_bytes())?;
    text.extend_from_slice(b":")?;
    text.extend_from_slice(digits.format(lower).as_bytes())?;
    text.extend_from_slice(b"]")?;
    Ok(text)
}

/// A name, cut where it is too long, in front of such a range.
fn with_range(alloc: Global, name: &[u8], range: &[u8]) -> Result<Vec<u8>, AllocError>
    requires { length range.now ≤ 83 }
    ensures { IfOk result (λ text. text.items ≡ with_range name.now range.now) }
{
    let room = MOST_BYTES - range.len();
    let (front, _) = name.split_at(room.min(name.len()));
    let mut text = Vec::from_slice(alloc, front)?;
    text.extend_from_slice(range)?;
    Ok(text)
}

/// An upper and a lower bit in brackets, as printed bytes.
fn printed_range(alloc: Global, upper: u64, lower: u64) -> Result<Vec<u8>, AllocError>
    ensures text { IfOk result (λ text. text.items ≡ range_text upper lower) }
    ensures short { IfOk result (λ text. length text.items ≤ 83) }
    ensures printed { IfOk result (λ text. list_all is_printed text.items ≡ true) }
{
    range_text(alloc, upper, lower)
}

/// The bytes of a name, cut where it is too long, in front of printed bytes: they are a name.
fn name_before(alloc: Global, name: &[u8], range: &[u8]) -> Result<Vec<u8>, AllocError>
    requires name { is_symbol name.now ≡ true }
    requires short { length range.now ≤ 83 }
    requires printed { list_all is_printed range.now ≡ true }
    ensures bytes { IfOk result (λ text. text.items ≡ with_range name.now range.now) }
    ensures valid { IfOk result (λ text. is_symbol text.items ≡ true) }
{
    with_range(alloc, name, range)
}

/// A name, cut where it is too long, in front of printed bytes.
pub fn symbol_before(alloc: Global, symbol: &Symbol, range: &[u8]) -> Result<Symbol, Shortage>
    requires short { length range.now ≤ 83 }
    requires printed { list_all is_printed range.now ≡ true }
    ensures symbol { IfOk result (λ s. s ≡ with_range symbol.now range.now) }
    ensures memory { IfErr result (λ e. e ≡ shortage.NoMemory) }
{
    match name_before(alloc, symbol.bytes(), range) {
        Ok(bytes) => match Symbol::new(alloc, bytes.as_slice()) {
            Ok(symbol) => Ok(symbol),
            Err(SymbolFault::NoMemory) => Err(Shortage::NoMemory),
            Err(SymbolFault::BadBytes) => unreachable!(),
        },
        Err(_) => Err(Shortage::NoMemory),
    }
}

/// The name of a piece of a word with a name.
fn named(alloc: Global, symbol: &Symbol, upper: u64, lower: u64) -> Result<Symbol, Shortage>
    ensures symbol { IfOk result (λ s. s ≡ piece_name symbol.now upper lower) }
    ensures short { IfErr result (λ e. e ≡ shortage.NoMemory) }
{
    match printed_range(alloc, upper, lower) {
        Ok(range) => symbol_before(alloc, symbol, range.as_slice()),
        Err(_) => Err(Shortage::NoMemory),
    }
}

/// The name of a piece of `width` bits from the bit `lower` on, where the word has a name.
pub(crate) fn piece_symbol(
    alloc: Global,
    symbol: &Option<Symbol>,
    lower: u64,
    width: u64,
) -> Result<Option<Symbol>, Shortage>
    requires some { 1 ≤ width }
    requires most { lower + width ≤ 2 ^ 63 }
    ensures symbol { IfOk result (λ s. s ≡ piece_symbol symbol.now lower width) }
    ensures short { IfErr result (λ e. e ≡ shortage.NoMemory) }
{
    match symbol {
        None => Ok(None),
        Some(symbol) => {
            let name = named(alloc, symbol, lower + width - 1, lower)?;
            Ok(Some(name))
        }
    }
}
