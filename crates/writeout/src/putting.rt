//! The nodes of the lines of a model, in an order.
ghost use Rattle.std.specs.Prelude.{◌≡◌, ◌<◌, [], length, slice_get, Some, OnOk};
ghost use Rattle.full.specs.Lines.{FullLine};
ghost use Rattle.fullmodel.specs.Lines.{line_of};
ghost use Rattle.writeout.specs.Late.{LateWritten};
ghost use Rattle.writeout.specs.LateLines.{StandsAt};
ghost use Rattle.writeout.specs.Leaves.{LeavesWritten};
ghost use Rattle.writeout.specs.Needs.{IsLineOrder};
ghost use Rattle.writeout.specs.Nodes.{NodesStand, NeedsDone, IsPutAt};
ghost use Rattle.writeout.specs.Tables.{writing};

use crate::known::{know, line_at};
use crate::lines::line_node;
use crate::tables::Tables;
use cells::{ListMaker, Shortage};
use fullmodel::{FullModel, Line};
use std::alloc::Global;

/// The id of the line at a position has 32 bits.
fn know_id(full: &FullModel, place: usize, line: &Line)
    requires { slice_get full.now place ≡ Some (line_of line.now) }
    ensures { line.now.id < 4294967296 }
{
    let _id = line.id;
    know(full);
}

/// Adds the node of the line at a position, where it has a value and none yet.
fn put_node(
    alloc: Global,
    full: &FullModel,
    tables: &mut Tables,
    maker: &mut ListMaker,
    place: usize,
) -> Result<(), Shortage>
    requires within { place < length full.now }
    requires stands { NodesStand full.now (writing tables.old maker.old) }
    requires done { (x : FullLine) → slice_get full.now place ≡ Some x → NeedsDone full.now (writing tables.old maker.old) x }
    ensures { OnOk result (IsPutAt full.now place (writing tables.old maker.old) (writing tables.new maker.new)) }
{
    if tables.nodes[place] != 0 {
        return Ok(());
    }
    let leaf = tables.leaves[place];
    let line = line_at(full, place);
    know_id(full, place, line);
    let a = line_node(alloc, full, tables, maker, place, line, leaf)?;
    tables.nodes[place] = a;
    Ok(())
}

/// Adds the nodes of the lines with a value, in an order in which each stands behind all that it needs.
pub(crate) fn put_nodes(
    alloc: Global,
    full: &FullModel,
    tables: &mut Tables,
    maker: &mut ListMaker,
    order: &[u32],
) -> Result<(), Shortage>
    requires order { IsLineOrder full.now order.now }
    requires nodes { NodesStand full.now (writing tables.old maker.old) }
    requires leaves { LeavesWritten full.now (writing tables.old maker.old) }
    requires late { LateWritten full.now [] (writing tables.old maker.old) }
    ensures { OnOk result (StandsAt full.now [] (writing tables.new maker.new)) }
{
    know(full);
    for place in order {
        put_node(alloc, full, tables, maker, *place as usize)?;
    }
    Ok(())
}
