//! States that are written by their first words.
ghost use Rattle.std.specs.Prelude.{◌≡◌, ℕ, ◌≤◌, true, Some, is_some, option_map, slice_get, IfOk};
ghost use Rattle.btor2.specs.Items.{is_state};
ghost use Rattle.full.specs.Lines.{Sort, arrays, is_form, sort_of_node, init_of};
ghost use Rattle.full.specs.Runs.{at_place};
ghost use Rattle.fullmodel.specs.Lines.{operand_of, sort_value};
ghost use Rattle.writeout.specs.declared.way.Way.TheVariants as way;
ghost use Rattle.writeout.specs.Needs.{place_of};
ghost use Rattle.writeout.specs.Nodes.{NodesStand, IsMade, LinePlace, FirstWordStands, FirstAgrees, fills};
ghost use Rattle.writeout.specs.Tables.{writing};
ghost use Rattle.writeout.specs.Ways.{way_of};
ghost use Rattle.writeout.specs.Writings.{IsGiven, Grows};

use crate::arrays::{element_bits, index_bits};
use crate::known::{know, know_index};
use crate::operands::{operand, width};
use crate::tables::Tables;
use btor2::Body;
use cells::{ListMaker, Shortage};
use fullmodel::{FullModel, Operand, Sort};

/// Whether a state of arrays begins with a word in each cell.
fn fills(state: Option<Sort>, value: Option<Sort>) -> bool
    ensures { result ≡ fills (option_map sort_value state) (option_map sort_value value) }
{
    match state {
        Some(Sort::Arrays { .. }) => match value {
            Some(Sort::Words(_)) => true,
            Some(Sort::Arrays { .. }) => false,
            None => false,
        },
        Some(Sort::Words(_)) => false,
        None => false,
    }
}

/// The node of the word that a state begins with.
fn first_word(
    full: &FullModel,
    tables: &Tables,
    maker: &mut ListMaker,
    id: u32,
    value: Operand,
) -> Result<u32, Shortage>
    requires stands { NodesStand full.now (writing tables.now maker.old) }
    requires node { is_some (sort_of_node full.now value.id) ≡ true }
    requires done { IsGiven (at_place tables.now.nodes.items (place_of full.now value.id)) }
    requires agrees { FirstAgrees full.now id (operand_of value) }
    ensures value { IfOk result (FirstWordStands full.now (writing tables.now maker.new) id (operand_of value)) }
    ensures grows { IfOk result (λ r. Grows full.now (writing tables.now maker.old) maker.new) }
    ensures stands { IfOk result (λ r. NodesStand full.now (writing tables.now maker.new)) }
{
    know(full);
    know_index(full);
    let v = operand(full, tables, maker, value)?;
    let sort = full.sort_of_node(id);
    if fills(sort, full.sort_of_node(value.id)) {
        maker.repeat(v, index_bits(sort), element_bits(sort))
    } else {
        Ok(v)
    }
}

/// Adds the choice, by whether the frame is the first, of the word that a state begins with and of its state.
pub(crate) fn choice_by(
    full: &FullModel,
    tables: &Tables,
    maker: &mut ListMaker,
    id: u32,
    leaf: u32,
    value: Operand,
) -> Result<u32, Shortage>
    ghost at: { LinePlace }
    requires stands { NodesStand full.now (writing tables.now maker.old) }
    requires at { slice_get full.now at.place ≡ Some at.line }
    requires id { at.line.id ≡ id }
    requires state { is_form is_state at.line.says ≡ true }
    requires way { way_of full.now id ≡ way.First }
    requires leaf { leaf ≡ at_place tables.now.leaves.items at.place }
    requires value { init_of full.now id ≡ Some (operand_of value) }
    requires done { IsGiven (at_place tables.now.nodes.items (place_of full.now value.id)) }
    ensures { IfOk result (IsMade full.now (writing tables.now maker.old) maker.new at.line leaf) }
{
    know(full);
    let v = first_word(full, tables, maker, id, value)?;
    let sort = maker.sort(width(full, id))?;
    maker.put(
        None,
        Body::Ite {
            sort,
            condition: tables.first,
            first: v,
            second: leaf,
        },
    )
}
