//! The next lines of cells.
ghost use Rattle.std.specs.Prelude.{◌≡◌, ℕ, ◌+◌, ◌*◌, ◌^◌, ◌<◌, ◌≤◌, Some, IfOk, OnOk};
ghost use Rattle.btor2.specs.Items.{sort_width, node_width};
ghost use Rattle.wide.specs.WideModels.{greatest_width};
ghost use Rattle.celled.specs.Spots.{ids_from};
ghost use Rattle.celled.specs.Steps.{HaveSize, IsLoose, AreLoose, NextPut, NextsPut};

use btor2::Body;
use cells::{ListMaker, Shortage};

/// Adds the next line of a cell by the bits of a node.
fn put_cell_next(
    maker: &mut ListMaker,
    node: u32,
    count: u64,
    sort: u32,
    size: u64,
    first: u32,
    index: u64,
) -> Result<(), Shortage>
    requires some { 1 ≤ size }
    requires sort { sort_width maker.old sort ≡ Some size }
    requires within { index < count }
    requires most { count * size ≤ greatest_width }
    requires node { node_width maker.old node ≡ Some (count * size) }
    requires fits { first + index < 2 ^ 32 }
    requires width { node_width maker.old (first + index) ≡ Some size }
    requires loose { IsLoose maker.old (first + index) }
    ensures { OnOk result (NextPut maker.old maker.new (first + index) size node index) }
{
    let low = size * index;
    let value = maker.slice(node, low + size - 1, low)?;
    maker.put(
        None,
        Body::Next {
            sort,
            state: first + index as u32,
            value,
        },
    )?;
    Ok(())
}

/// Adds the next lines of the cells of an array, by the node of the word that it takes.
pub(crate) fn put_nexts(
    maker: &mut ListMaker,
    node: u32,
    first: u32,
    count: u64,
    size: u64,
) -> Result<(), Shortage>
    requires some { 1 ≤ size }
    requires many { 1 ≤ count }
    requires most { count * size ≤ greatest_width }
    requires node { node_width maker.old node ≡ Some (count * size) }
    requires fits { first + count ≤ 2 ^ 32 }
    requires cells { HaveSize maker.old size (ids_from first count) }
    requires loose { AreLoose maker.old first count }
    ensures { OnOk result (NextsPut maker.old maker.new first count size node) }
{
    let sort = maker.sort(size)?;
    for index in 0..count {
        put_cell_next(maker, node, count, sort, size, first, index)?;
    }
    Ok(())
}
