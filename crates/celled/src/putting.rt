//! Lines over the sorts and nodes of the list with cells.
ghost use Rattle.std.specs.Prelude.{◌≡◌, ◌==◌, IfOk, OnOk};
ghost use Rattle.btor2.specs.declared.item.Item.{Item};
ghost use Rattle.wide.specs.Lines.{item_of, constant_item};
ghost use Rattle.cells.specs.Kept.{IsSound};
ghost use Rattle.celled.specs.Spots.{spots_of};
ghost use Rattle.celled.specs.Split.{renamed};
ghost use Rattle.celled.specs.Steps.{IsPut};

use crate::bodies::{node, renamed};
use crate::digits::form_digits;
use crate::names::copied;
use crate::table::Table;
use btor2::Item;
use cells::{ListMaker, Shortage};
use std::alloc::Global;
use wide::{Constant, Line};

/// Digits in memory of their own.
fn copied_digits(alloc: Global, number: &[u64]) -> Result<Vec<u64>, Shortage>
    ensures { IfOk result (λ ds. ds.items ≡ number.now) }
{
    match Vec::from_slice(alloc, number) {
        Ok(digits) => Ok(digits),
        Err(_) => Err(Shortage::NoMemory),
    }
}

/// Adds the line of a constant in digits.
fn put_constant(
    alloc: Global,
    table: &Table,
    maker: &mut ListMaker,
    constant: &Constant,
) -> Result<u32, Shortage>
    requires { IsSound maker.old (renamed (spots_of table.now).node (constant_item constant.now).body) }
    ensures { IfOk result (λ id. IsPut maker.old maker.new id (constant_item constant.now).symbol
        (renamed (spots_of table.now).node (constant_item constant.now).body)) }
{
    let symbol = copied(alloc, &constant.symbol)?;
    let number = copied_digits(alloc, constant.number.as_slice())?;
    maker.put_constant(
        symbol,
        node(table, constant.sort),
        constant.spelling,
        constant.count,
        number,
    )
}

/// Adds the line of an item.
fn put_item(
    alloc: Global,
    table: &Table,
    maker: &mut ListMaker,
    item: &Item,
) -> Result<u32, Shortage>
    requires { IsSound maker.old (renamed (spots_of table.now).node item.now.body) }
    ensures { IfOk result (λ id. IsPut maker.old maker.new id item.now.symbol
        (renamed (spots_of table.now).node item.now.body)) }
{
    let symbol = copied(alloc, &item.symbol)?;
    if let Some(digits) = form_digits(alloc, &item.body)? {
        return maker.put_constant(
            symbol,
            node(table, digits.sort),
            digits.spelling,
            digits.count,
            digits.number,
        );
    }
    let body = renamed(alloc, table, &item.body)?;
    maker.put(symbol, body)
}

/// Adds a line over the sorts and nodes of the list with cells. Answers its id.
pub(crate) fn put_copy(
    alloc: Global,
    table: &Table,
    maker: &mut ListMaker,
    line: &Line,
) -> Result<u32, Shortage>
    requires { IsSound maker.old (renamed (spots_of table.now).node (item_of line.now).body) }
    ensures { IfOk result (λ id. IsPut maker.old maker.new id (item_of line.now).symbol
        (renamed (spots_of table.now).node (item_of line.now).body)) }
{
    match line {
        Line::Item(item) => put_item(alloc, table, maker, item),
        Line::Constant(constant) => put_constant(alloc, table, maker, constant),
    }
}
