//! The nodes of lines with a value.
ghost use Rattle.std.specs.Prelude.{◌≡◌, ℕ, true, None, slice_get, IfOk, IfSome};
ghost use Rattle.btor2.specs.Items.{operands};
ghost use Rattle.wide.specs.Entries.{digits_sort};
ghost use Rattle.full.specs.Lines.{operand, form, FullLine, sort_of_node};
ghost use Rattle.writeout.specs.Forms.{is_value, minus_at};
ghost use Rattle.writeout.specs.Nodes.{OperandStands, NodesStand, IsLine, IsMade, OperandsDone};
ghost use Rattle.writeout.specs.Writings.{Grows};
ghost use Rattle.writeout.specs.Tables.{writing};

use crate::forms::renamed;
use crate::known::know;
use crate::operands::{form_operand, width};
use crate::tables::Tables;
use btor2::Body;
use cells::{ListMaker, Shortage};
use fullmodel::FullModel;

/// Nodes of up to three operands.
#[derive(Clone, Copy)]
struct Three {
    x: u32,
    y: u32,
    z: u32,
}

/// The nodes of the operands of a form, up to three.
fn form_operands(
    full: &FullModel,
    tables: &Tables,
    maker: &mut ListMaker,
    body: &Body,
    minuses: &[bool],
) -> Result<Three, Shortage>
    ghost line: { FullLine }
    requires stands { NodesStand full.now (writing tables.now maker.old) }
    requires value { is_value body.now ≡ true }
    requires line { IsLine full.now line }
    requires says { line.says ≡ form body.now minuses.now }
    requires done { OperandsDone full.now (writing tables.now maker.old) line.says }
    ensures x { IfOk result (λ r. IfSome (slice_get (operands body.now) 0)
        (λ a. OperandStands full.now (writing tables.now maker.new) (operand a (minus_at minuses.now 0)) r.x)) }
    ensures y { IfOk result (λ r. IfSome (slice_get (operands body.now) 1)
        (λ a. OperandStands full.now (writing tables.now maker.new) (operand a (minus_at minuses.now 1)) r.y)) }
    ensures z { IfOk result (λ r. IfSome (slice_get (operands body.now) 2)
        (λ a. OperandStands full.now (writing tables.now maker.new) (operand a (minus_at minuses.now 2)) r.z)) }
    ensures grows { IfOk result (λ r. Grows full.now (writing tables.now maker.old) maker.new) }
    ensures stands { IfOk result (λ r. NodesStand full.now (writing tables.now maker.new)) }
{
    know(full);
    let x = form_operand(full, tables, maker, body, minuses, 0)?;
    let y = form_operand(full, tables, maker, body, minuses, 1)?;
    let z = form_operand(full, tables, maker, body, minuses, 2)?;
    Ok(Three { x, y, z })
}

/// Adds the node of a form that is no leaf.
pub(crate) fn form_node(
    full: &FullModel,
    tables: &Tables,
    maker: &mut ListMaker,
    id: u32,
    body: &Body,
    minuses: &[bool],
) -> Result<u32, Shortage>
    ghost line: { FullLine }
    requires stands { NodesStand full.now (writing tables.now maker.old) }
    requires value { is_value body.now ≡ true }
    requires no_digits { digits_sort body.now ≡ None }
    requires line { IsLine full.now line }
    requires id { line.id ≡ id }
    requires says { line.says ≡ form body.now minuses.now }
    requires done { OperandsDone full.now (writing tables.now maker.old) line.says }
    ensures { IfOk result (λ r. (leaf : ℕ) → IsMade full.now (writing tables.now maker.old) maker.new line leaf r) }
{
    know(full);
    let three = form_operands(full, tables, maker, body, minuses)?;
    let sort = maker.sort(width(full, id))?;
    maker.put(None, renamed(sort, three.x, three.y, three.z, body))
}
