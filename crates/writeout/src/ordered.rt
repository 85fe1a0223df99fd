//! An order of lines in which each stands behind all that it needs.
ghost use Rattle.std.specs.Prelude.{map, IfOk, IfErr};
ghost use Rattle.order.specs.Orders.{IsInCircle};
ghost use Rattle.writeout.specs.Needs.{row_of, IsLineOrder};
ghost use Rattle.writeout.specs.Faults.{IsOrderFault};

use crate::fault::WriteFault;
use crate::known::know;
use crate::needs::needs;
use fullmodel::FullModel;
use order::{OrderFault, order};
use std::alloc::Global;

/// The fault of a line at a position, which depends on itself.
fn circle(full: &FullModel, place: usize) -> WriteFault
    requires { IsInCircle (map (row_of full.now) full.now) place }
    ensures { IsOrderFault full.now result }
{
    know(full);
    WriteFault::Circle(full.lines()[place].id)
}

/// An order of the positions of a model's lines, in which each stands behind all that it needs.
///
/// Errors: `Circle` tells the id of a line that depends on itself; `NoMemory`.
pub(crate) fn ordered(alloc: Global, full: &FullModel) -> Result<Vec<u32>, WriteFault>
    ensures ok { IfOk result (λ list. IsLineOrder full.now list.items) }
    ensures err { IfErr result (IsOrderFault full.now) }
{
    know(full);
    let Ok(rows) = needs(alloc, full) else {
        return Err(WriteFault::NoMemory);
    };
    match order(alloc, &rows) {
        Ok(list) => Ok(list),
        Err(OrderFault::Circle(place)) => Err(circle(full, place)),
        Err(OrderFault::NoMemory) => Err(WriteFault::NoMemory),
    }
}
