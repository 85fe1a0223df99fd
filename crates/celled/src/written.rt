//! Models of the whole language, written out with a leaf for each cell of an array.
ghost use Rattle.std.specs.Prelude.{◌≡◌, ◌++◌, [], ◌∷◌, true, false, Some, MatchOption, option_map, map, IfErr, IfOk, OnOk, length};
ghost use Rattle.full.specs.Lines.{is_form, sort_named};
ghost use Rattle.full.specs.WrittenOut.{Places, IsWrittenOut, one_id};
ghost use Rattle.fullmodel.specs.Lines.{line_of, sort_value};
ghost use Rattle.fitting.specs.Models.{state_ids};
ghost use Rattle.wide.specs.Lines.{item_of};
ghost use Rattle.writeout.specs.Faults.{IsUnwritten, NoneIsLiveItem};
ghost use Rattle.btor2.specs.Items.{is_state};
ghost use Rattle.celled.specs.Written.{HasNodes, IsWrittenInCells, IsWrittenWith, cell_bits, cells_among, kind_of, leaf_cells};

use crate::splitting::split_with_table;
use btor2::Body;
use cells::Shortage;
use fullmodel::{FullModel, Line, Says, Sort};
use std::alloc::{AllocError, Global};
use wide::WideModel;
use writeout::{WriteFault, Written, write_out_with_nodes};

/// Inputs, or states.
#[derive(Clone, Copy)]
pub(crate) enum Leaves {
    Inputs,
    States,
}

/// How many bits a cell of a value of a sort has: of a word as many as the word.
fn cell_bits(sort: Option<Sort>) -> u64
    ensures { result ≡ cell_bits (option_map sort_value sort) }
{
    match sort {
        Some(Sort::Words(width)) => width,
        Some(Sort::Arrays { element, .. }) => element,
        None => 0,
    }
}

/// The sort of a line, where it is one of such leaves.
fn leaf_sort(line: &Line, leaves: Leaves) -> Option<u32>
    ensures { MatchOption result (is_form (kind_of leaves) (line_of line.now).says ≡ false)
        (λ s. (is_form (kind_of leaves) (line_of line.now).says ≡ true)
        × (sort_named (line_of line.now).says ≡ Some s)) }
{
    let Says::Form { body, .. } = &line.says else {
        return None;
    };
    match (body, leaves) {
        (Body::Input { sort }, Leaves::Inputs) => Some(*sort),
        (Body::State { sort }, Leaves::States) => Some(*sort),
        _ => None,
    }
}

/// Adds the bits of a cell of a line, where it is one of such leaves.
fn add_cells(
    full: &FullModel,
    leaves: Leaves,
    line: &Line,
    cells: &mut Vec<u64>,
) -> Result<(), AllocError>
    ensures { OnOk result (cells.new.items ≡ cells.old.items
        ++ cells_among (kind_of leaves) full.now (line_of line.now ∷ [])) }
{
    match leaf_sort(line, leaves) {
        None => Ok(()),
        Some(sort) => match cells.push(cell_bits(full.sort_at(sort))) {
            Ok(()) => Ok(()),
            Err(_) => Err(AllocError),
        },
    }
}

/// The bits of the cells of such leaves, in file order.
fn leaf_cells(alloc: Global, full: &FullModel, leaves: Leaves) -> Result<Vec<u64>, AllocError>
    ensures { IfOk result (λ cells. cells.items ≡ leaf_cells (kind_of leaves) full.now) }
{
    let mut cells = Vec::new(alloc);
    let lines = full.lines();
    for line in lines {
        add_cells(full, leaves, line, &mut cells)?;
    }
    Ok(cells)
}

/// Whether a line is one of a state.
fn is_state(line: &wide::Line) -> bool
    ensures { result ≡ is_state (item_of line.now).body }
{
    match line {
        wide::Line::Item(item) => matches!(&item.body, Body::State { .. }),
        wide::Line::Constant(_) => false,
    }
}

/// How many states a list has.
fn state_count(wide: &WideModel) -> usize
    ensures { result ≡ length (state_ids wide.now) }
{
    let mut count = 0;
    let lines = wide.lines();
    for line in lines {
        if is_state(line) {
            count += 1;
        }
    }
    count
}

/// The bits of the cells of the states of a list that a model is written out as: the state that is 1 in the first frame alone has
/// one.
fn state_cells(alloc: Global, full: &FullModel, wide: &WideModel) -> Result<Vec<u64>, AllocError>
    requires written { (p : Places) × IsWrittenOut full.now p wide.now }
    ensures { (p : Places) → IsWrittenOut full.now p wide.now → IfOk result (λ cells. cells.items
        ≡ leaf_cells is_state full.now ++ map (λ w. 1) (one_id p.first)) }
{
    let mut cells = leaf_cells(alloc, full, Leaves::States)?;
    if cells.len() < state_count(wide) {
        match cells.push(1) {
            Ok(()) => {}
            Err(_) => return Err(AllocError),
        }
    }
    Ok(cells)
}

/// A model written out with cells, and where the list has the words of the model's states. Of each state there are two nodes, in
/// file order.
#[derive(Drop)]
pub struct Celled {
    /// The list.
    pub list: WideModel,
    /// The nodes that have the whole words of the states that the list that the model is written out as has for them.
    pub leaves: Vec<u32>,
    /// The nodes that have the words of the states.
    pub nodes: Vec<u32>,
}

/// Writes a list that a model is written out as with cells, and finds the nodes of the words of the model's states.
fn put_cells(alloc: Global, full: &FullModel, written: &Written) -> Result<Celled, Shortage>
    requires written { IsWrittenWith full.now written.now.wide written.now.nodes.items written.now.leaves.items }
    requires forms { NoneIsLiveItem written.now.wide }
    ensures written { IfOk result (λ c. (w : IsWrittenInCells full.now c.list)
        × HasNodes full.now c.list w c.leaves.items c.nodes.items) }
    ensures forms { IfOk result (λ c. NoneIsLiveItem c.list) }
{
    let Ok(inputs) = leaf_cells(alloc, full, Leaves::Inputs) else {
        return Err(Shortage::NoMemory);
    };
    let Ok(states) = state_cells(alloc, full, &written.wide) else {
        return Err(Shortage::NoMemory);
    };
    let split = split_with_table(alloc, &written.wide, inputs.as_slice(), states.as_slice())?;
    let Ok(leaves) = split.table.nodes_of(alloc, written.leaves.as_slice()) else {
        return Err(Shortage::NoMemory);
    };
    let Ok(nodes) = split.table.nodes_of(alloc, written.nodes.as_slice()) else {
        return Err(Shortage::NoMemory);
    };
    Ok(Celled {
        list: split.list,
        leaves,
        nodes,
    })
}

/// Writes a model out as `write_out` does, and answers of each state of the model the nodes of the list that have the whole word
/// of its state in the list that the model is written out as, and of the node of its word there.
///
/// Errors: those of `write_out`.
pub fn write_out_with_words(alloc: Global, full: &FullModel) -> Result<Celled, WriteFault>
    ensures written { IfOk result (λ c. (w : IsWrittenInCells full.now c.list)
        × HasNodes full.now c.list w c.leaves.items c.nodes.items) }
    ensures forms { IfOk result (λ c. NoneIsLiveItem c.list) }
    ensures refused { IfErr result (IsUnwritten full.now) }
{
    let written = write_out_with_nodes(alloc, full)?;
    match put_cells(alloc, full, &written) {
        Ok(celled) => Ok(celled),
        Err(Shortage::TooManyItems) => Err(WriteFault::TooManyItems),
        Err(Shortage::NoMemory) => Err(WriteFault::NoMemory),
    }
}

/// Writes a model of the whole safety language out as `writeout::write_out` does, with an input or a state for each cell of an
/// array, in the place of the array and with its name and the cell's index.
///
/// Errors: those of `writeout::write_out`.
pub fn write_out(alloc: Global, full: &FullModel) -> Result<WideModel, WriteFault>
    ensures written { IfOk result (IsWrittenInCells full.now) }
    ensures forms { IfOk result NoneIsLiveItem }
    ensures refused { IfErr result (IsUnwritten full.now) }
{
    let celled = write_out_with_words(alloc, full)?;
    Ok(celled.list)
}
