//! The init lines of cells.
ghost use Rattle.std.specs.Prelude.{◌≡◌, ℕ, ◌+◌, ◌*◌, ◌^◌, ◌<◌, ◌≤◌, Some, IfOk, OnOk, length};
ghost use Rattle.btor2.specs.Items.{sort_width, node_width, constant_of};
ghost use Rattle.full.specs.Cells.{read_value};
ghost use Rattle.wide.specs.Lines.{number_of_digits};
ghost use Rattle.wide.specs.WideModels.{greatest_width};
ghost use Rattle.celled.specs.Spots.{ids_from};
ghost use Rattle.celled.specs.Steps.{HaveSize, IsOpen, AreOpen, InitsPut, ConstantPut, InitPut};

use crate::digits::cell_digits;
use btor2::Body;
use cells::{ListMaker, Shortage};
use std::alloc::Global;
use wide::Spelling;

/// Adds the constant of a cell of a number.
fn put_cell_constant(
    alloc: Global,
    maker: &mut ListMaker,
    number: &[u64],
    sort: u32,
    size: u64,
    index: u64,
) -> Result<u32, Shortage>
    requires sort { sort_width maker.old sort ≡ Some size }
    requires most { size * index + size ≤ greatest_width }
    ensures { IfOk result (λ id. ConstantPut maker.old maker.new id size (read_value size (number_of_digits number.now) index)) }
{
    let digits = cell_digits(alloc, number, size * index, size)?;
    maker.put_constant(None, sort, Spelling::Binary, size as usize, digits)
}

/// Adds the init line of a cell by its constant.
fn put_cell_init(
    alloc: Global,
    maker: &mut ListMaker,
    number: &[u64],
    sort: u32,
    size: u64,
    first: u32,
    index: u64,
) -> Result<(), Shortage>
    requires sort { sort_width maker.old sort ≡ Some size }
    requires most { size * index + size ≤ greatest_width }
    requires fits { first + index < 2 ^ 32 }
    requires width { node_width maker.old (first + index) ≡ Some size }
    requires unset { IsOpen maker.old (first + index) }
    ensures { OnOk result (InitPut maker.old maker.new (first + index) (read_value size (number_of_digits number.now) index)) }
{
    let value = put_cell_constant(alloc, maker, number, sort, size, index)?;
    maker.put(
        None,
        Body::Init {
            sort,
            state: first + index as u32,
            value,
        },
    )?;
    Ok(())
}

/// Adds the init lines of the cells of an array, by the digits of its word.
pub(crate) fn put_inits(
    alloc: Global,
    maker: &mut ListMaker,
    number: &[u64],
    first: u32,
    count: u64,
    size: u64,
) -> Result<(), Shortage>
    requires some { 1 ≤ size }
    requires many { 1 ≤ count }
    requires most { count * size ≤ greatest_width }
    requires fits { first + count ≤ 2 ^ 32 }
    requires cells { HaveSize maker.old size (ids_from first count) }
    requires unset { AreOpen maker.old first count }
    ensures { OnOk result (InitsPut maker.old maker.new first count size (number_of_digits number.now)) }
{
    let sort = maker.sort(size)?;
    for index in 0..count {
        put_cell_init(alloc, maker, number, sort, size, first, index)?;
    }
    Ok(())
}
