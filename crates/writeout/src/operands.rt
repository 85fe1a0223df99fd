//! The nodes of operands.
ghost use Rattle.std.specs.Prelude.{◌≡◌, ◌≤◌, ℕ, true, false, is_some, slice_get, length, option_map, IfSome, IfOk};
ghost use Rattle.btor2.specs.Items.{operands};
ghost use Rattle.wide.specs.WideModels.{greatest_width};
ghost use Rattle.full.specs.Lines.{sort_size, operand, sort_of_node, size_of, width_of, find_line};
ghost use Rattle.full.specs.Runs.{at_place};
ghost use Rattle.fullmodel.specs.Lines.{sort_value, operand_of};
ghost use Rattle.writeout.specs.Forms.{is_value, minus_at};
ghost use Rattle.writeout.specs.Needs.{place_of};
ghost use Rattle.writeout.specs.Nodes.{OperandStands, NodesStand};
ghost use Rattle.writeout.specs.Writings.{IsGiven, Grows};
ghost use Rattle.writeout.specs.Tables.{writing};

use crate::forms::operand_at;
use crate::known::know;
use crate::tables::Tables;
use btor2::Body;
use cells::{ListMaker, Shortage};
use fullmodel::{FullModel, Operand, Sort};

/// How many bits the values of a sort have.
fn sort_size(sort: Sort) -> u64
    requires least { 1 ≤ sort_size (sort_value sort) }
    requires most { sort_size (sort_value sort) ≤ greatest_width }
    ensures { result ≡ sort_size (sort_value sort) }
{
    match sort {
        Sort::Words(width) => width,
        Sort::Arrays { index, element } => element << index,
    }
}

/// How many bits the values of a sort have, none where there is none.
fn size(sort: Option<Sort>) -> u64
    requires { IfSome (option_map sort_value sort) (λ s. (1 ≤ sort_size s) × (sort_size s ≤ greatest_width)) }
    ensures { result ≡ size_of (option_map sort_value sort) }
{
    match sort {
        Some(sort) => sort_size(sort),
        None => 0,
    }
}

/// How many bits a node of the model has.
pub(crate) fn width(full: &FullModel, id: u32) -> u64
    ensures width { result ≡ width_of full.now id }
    ensures least { is_some (sort_of_node full.now id) ≡ true → 1 ≤ result }
    ensures most { result ≤ greatest_width }
{
    know(full);
    size(full.sort_of_node(id))
}

/// The node of a line by its id.
pub(crate) fn node(full: &FullModel, tables: &Tables, id: u32) -> u32
    requires { length tables.now.nodes.items ≡ length full.now }
    ensures { is_some (find_line full.now id) ≡ true
        → result ≡ at_place tables.now.nodes.items (place_of full.now id) }
{
    know(full);
    match full.position(id) {
        Some(place) => tables.nodes[place],
        None => 0,
    }
}

/// The state of a line by its id.
pub(crate) fn leaf(full: &FullModel, tables: &Tables, id: u32) -> u32
    requires { length tables.now.leaves.items ≡ length full.now }
    ensures { is_some (find_line full.now id) ≡ true
        → result ≡ at_place tables.now.leaves.items (place_of full.now id) }
{
    know(full);
    match full.position(id) {
        Some(place) => tables.leaves[place],
        None => 0,
    }
}

/// The node of an operand.
pub(crate) fn operand(
    full: &FullModel,
    tables: &Tables,
    maker: &mut ListMaker,
    operand: Operand,
) -> Result<u32, Shortage>
    requires stands { NodesStand full.now (writing tables.now maker.old) }
    requires node { is_some (sort_of_node full.now operand.id) ≡ true }
    requires done { IsGiven (at_place tables.now.nodes.items (place_of full.now operand.id)) }
    ensures operand { IfOk result (OperandStands full.now (writing tables.now maker.new) (operand_of operand)) }
    ensures grows { IfOk result (λ r. Grows full.now (writing tables.now maker.old) maker.new) }
    ensures stands { IfOk result (λ r. NodesStand full.now (writing tables.now maker.new)) }
{
    know(full);
    let a = node(full, tables, operand.id);
    if !operand.minus {
        return Ok(a);
    }
    let _model = maker.model();
    maker.not(a, width(full, operand.id))
}

/// Whether the operand at a place stands with a minus.
pub(crate) fn minus_at(minuses: &[bool], place: usize) -> bool
    ensures { result ≡ minus_at minuses.now place }
{
    minuses.get(place).copied().unwrap_or(false)
}

/// The node of the operand at a place of a form, if there is one.
pub(crate) fn form_operand(
    full: &FullModel,
    tables: &Tables,
    maker: &mut ListMaker,
    body: &Body,
    minuses: &[bool],
    place: usize,
) -> Result<u32, Shortage>
    requires stands { NodesStand full.now (writing tables.now maker.old) }
    requires value { is_value body.now ≡ true }
    requires node { IfSome (slice_get (operands body.now) place) (λ a. is_some (sort_of_node full.now a) ≡ true) }
    requires done { IfSome (slice_get (operands body.now) place) (λ a. IsGiven (at_place tables.now.nodes.items (place_of full.now a))) }
    ensures operand { IfOk result (λ r. IfSome (slice_get (operands body.now) place)
        (λ a. OperandStands full.now (writing tables.now maker.new) (operand a (minus_at minuses.now place)) r)) }
    ensures grows { IfOk result (λ r. Grows full.now (writing tables.now maker.old) maker.new) }
    ensures stands { IfOk result (λ r. NodesStand full.now (writing tables.now maker.new)) }
{
    match operand_at(body, place) {
        None => Ok(0),
        Some(id) => {
            let minus = minus_at(minuses, place);
            operand(full, tables, maker, Operand { id, minus })
        }
    }
}
