//! What a lowering reads of a model's items.
ghost use Rattle.std.specs.Prelude.{◌≡◌, ◌<◌, ◌≤◌, true, length, Some, is_some, slice_get, unwrap_or};
ghost use Rattle.btor2.specs.Check.{IsWellFormed};
ghost use Rattle.btor2.specs.Lists.{width_at};
ghost use Rattle.btor2.specs.Trace.{bits_of};
ghost use Rattle.blast.specs.Table.{row_of};

use aiger::Lit;
use base::Rows;
use btor2::{Item, Model};

/// The item at a place.
pub(crate) fn item_at(items: &[Item], place: usize) -> &Item
    requires { place < length items.now }
    ensures { slice_get items.now place ≡ Some result.now }
{
    &items[place]
}

/// How many bits the node of the item at a place has, and 0 for an item that is none.
pub(crate) fn bit_count(model: &Model, place: usize, item: &Item) -> u64
    requires well_formed { IsWellFormed model.now }
    requires place { slice_get model.now place ≡ Some item.now }
    ensures value { result ≡ bits_of model.now item.now.id }
    ensures at { result ≡ unwrap_or (width_at model.now place) 0 }
    ensures range { result ≤ 64 }
{
    match model.width_of(place) {
        Some(width) => width.bits(),
        None => 0,
    }
}

/// The row of the node with an id.
pub(crate) fn node_row<'a>(model: &Model, table: &'a Rows<Lit>, id: u32) -> &'a [Lit]
    requires { is_some (row_of model.now table.now id) ≡ true }
    ensures { row_of model.now table.now id ≡ Some result.now }
{
    match model.position(u64::from(id)) {
        Some(place) => table.row(place),
        None => unreachable!(),
    }
}
