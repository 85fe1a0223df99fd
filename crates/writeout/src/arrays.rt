//! The nodes of lines of arrays.
ghost use Rattle.std.specs.Prelude.{◌≡◌, ℕ, option_map, IfOk};
ghost use Rattle.full.specs.Lines.{FullLine, read, write};
ghost use Rattle.fullmodel.specs.Lines.{operand_of, sort_value};
ghost use Rattle.writeout.specs.Nodes.{NodesStand, IsLine, IsMade, OperandsDone};
ghost use Rattle.writeout.specs.Tables.{writing};
ghost use Rattle.writeout.specs.Widths.{index_bits, element_bits};

use crate::known::know;
use crate::operands::{node, operand};
use crate::tables::Tables;
use cells::{ListMaker, Shortage};
use fullmodel::{FullModel, Operand, Sort};

/// The width of the indices of arrays.
pub(crate) fn index_bits(sort: Option<Sort>) -> u64
    ensures { result ≡ index_bits (option_map sort_value sort) }
{
    match sort {
        Some(Sort::Words(_)) => 0,
        Some(Sort::Arrays { index, .. }) => index,
        None => 0,
    }
}

/// The width of the elements of arrays.
pub(crate) fn element_bits(sort: Option<Sort>) -> u64
    ensures { result ≡ element_bits (option_map sort_value sort) }
{
    match sort {
        Some(Sort::Words(_)) => 0,
        Some(Sort::Arrays { element, .. }) => element,
        None => 0,
    }
}

/// Adds the node of the word of a cell.
pub(crate) fn read_node(
    full: &FullModel,
    tables: &Tables,
    maker: &mut ListMaker,
    array: u32,
    index: Operand,
) -> Result<u32, Shortage>
    ghost line: { FullLine }
    requires stands { NodesStand full.now (writing tables.now maker.old) }
    requires line { IsLine full.now line }
    requires says { (s : ℕ) × (line.says ≡ read s array (operand_of index)) }
    requires done { OperandsDone full.now (writing tables.now maker.old) line.says }
    ensures { IfOk result (λ r. (leaf : ℕ) → IsMade full.now (writing tables.now maker.old) maker.new line leaf r) }
{
    know(full);
    let a = node(full, tables, array);
    let i = operand(full, tables, maker, index)?;
    let sort = full.sort_of_node(array);
    maker.read(a, index_bits(sort), element_bits(sort), i)
}

/// Adds the node of an array with another word in a cell.
pub(crate) fn write_node(
    full: &FullModel,
    tables: &Tables,
    maker: &mut ListMaker,
    array: u32,
    index: Operand,
    word: Operand,
) -> Result<u32, Shortage>
    ghost line: { FullLine }
    requires stands { NodesStand full.now (writing tables.now maker.old) }
    requires line { IsLine full.now line }
    requires says { (s : ℕ) × (line.says ≡ write s array (operand_of index) (operand_of word)) }
    requires done { OperandsDone full.now (writing tables.now maker.old) line.says }
    ensures { IfOk result (λ r. (leaf : ℕ) → IsMade full.now (writing tables.now maker.old) maker.new line leaf r) }
{
    know(full);
    let a = node(full, tables, array);
    let i = operand(full, tables, maker, index)?;
    let v = operand(full, tables, maker, word)?;
    let sort = full.sort_of_node(array);
    maker.write(a, index_bits(sort), element_bits(sort), i, v)
}
