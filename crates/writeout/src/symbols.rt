//! Names of lines.
ghost use Rattle.std.specs.Prelude.{List, IfErr};
ghost use Rattle.btor2.specs.declared.item.Item.{Item};
ghost use Rattle.cells.specs.Kept.{IsShort};

use btor2::{Symbol, SymbolFault};
use cells::Shortage;
use std::alloc::Global;

/// A name, or none, in memory of its own.
pub(crate) fn copied(alloc: Global, symbol: &Option<Symbol>) -> Result<Option<Symbol>, Shortage>
    ensures short { (items : List Item) → IfErr result (IsShort items) }
{
    match symbol {
        None => Ok(None),
        Some(symbol) => match Symbol::new(alloc, symbol.bytes()) {
            Ok(own) => Ok(Some(own)),
            Err(SymbolFault::NoMemory) => Err(Shortage::NoMemory),
            Err(SymbolFault::BadBytes) => unreachable!(),
        },
    }
}
