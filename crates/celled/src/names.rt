//! Names of lines and of cells.
ghost use Rattle.std.specs.Prelude.{◌≡◌, ◌≤◌, true, length, IfOk};
ghost use Rattle.std.specs.List.{list_all};
ghost use Rattle.btor2.specs.Symbols.{is_printed};
ghost use Rattle.celled.specs.Names.{index_text, cell_symbol};

use btor2::{Symbol, SymbolFault};
use cells::Shortage;
use fitting::symbol_before;
use itoa::Buffer;
use std::alloc::{AllocError, Global};

/// A name, or none, in memory of its own.
pub(crate) fn copied(alloc: Global, symbol: &Option<Symbol>) -> Result<Option<Symbol>, Shortage>
    ensures { IfOk result (λ s. s ≡ symbol.now) }
{
    match symbol {
        None => Ok(None),
        Some(symbol) => match Symbol::new(alloc, symbol.bytes()) {
            Ok(own) => Ok(Some(own)),
            Err(SymbolFault::NoMemory) => Err(Shortage::NoMemory),
            Err(SymbolFault::BadBytes) => unreachable!(),
        },
    }
}

/// An index in brackets.
fn index_text(alloc: Global, index: u64) -> Result<Vec<u8>, AllocError>
    ensures text { IfOk result (λ text. text.items ≡ index_text index) }
    ensures short { IfOk result (λ text. length text.items ≤ 83) }
{
    let mut digits = Buffer::new();
    let mut text = Vec::from_slice(alloc, b"[")?;
    text.extend_from_slice(digits.format(index).as_bytes())?;
    text.extend_from_slice(b"]")?;
    Ok(text)
}

/// The same, as printed bytes.
fn printed_index(alloc: Global, index: u64) -> Result<Vec<u8>, AllocError>
    ensures text { IfOk result (λ text. text.items ≡ index_text index) }
    ensures short { IfOk result (λ text. length text.items ≤ 83) }
    ensures printed { IfOk result (λ text. list_all is_printed text.items ≡ true) }
{
    index_text(alloc, index)
}

/// The name of a cell, where the leaf has a name.
pub(crate) fn cell_symbol(
    alloc: Global,
    symbol: &Option<Symbol>,
    index: u64,
) -> Result<Option<Symbol>, Shortage>
    ensures { IfOk result (λ s. s ≡ cell_symbol symbol.now index) }
{
    let Some(symbol) = symbol else {
        return Ok(None);
    };
    let Ok(text) = printed_index(alloc, index) else {
        return Err(Shortage::NoMemory);
    };
    match symbol_before(alloc, symbol, text.as_slice()) {
        Ok(name) => Ok(Some(name)),
        Err(_) => Err(Shortage::NoMemory),
    }
}
