//! An order of numbers by what each of them needs.
ghost use Rattle.std.specs.Prelude.{◌≤◌, ◌^◌, length, IfOk, IfErr};
ghost use Rattle.order.specs.Orders.{AreNumbers, IsOrder};
ghost use Rattle.order.specs.Faults.{FaultHolds};

use crate::fault::OrderFault;
use crate::walk::Walk;
use base::Rows;
use std::alloc::Global;

/// An order of the numbers below the number of rows, in which each stands behind all that it needs; the row at place k has the
/// numbers that k needs.
///
/// The numbers come in their own order as far as that goes. Time is in proportion to the numbers and the needs. The error is a
/// number on a circle of needs, where there is no order, or want of memory.
pub fn order(alloc: Global, needs: &Rows<u32>) -> Result<Vec<u32>, OrderFault>
    requires numbers { AreNumbers needs.now }
    requires fit { length needs.now ≤ 2 ^ 32 }
    ensures ok { IfOk result (λ list. IsOrder needs.now list.items) }
    ensures err { IfErr result (FaultHolds needs.now) }
{
    let mut walk = Walk::new(alloc, needs.len())?;
    for number in 0..needs.len() {
        walk.visit(needs, number as u32)?;
    }
    Ok(walk.order)
}
