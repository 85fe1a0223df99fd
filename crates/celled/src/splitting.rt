//! Whole lists.
ghost use Rattle.std.specs.Prelude.{◌≡◌, ℕ, ◌<◌, ◌++◌, [], ◌∷◌, length, None, OnOk, IfOk};
ghost use Rattle.wide.specs.Lines.{item_of};
ghost use Rattle.wide.specs.WideModels.{greatest_width, wide_refusal};
ghost use Rattle.fitting.specs.Models.{input_ids, state_ids};
ghost use Rattle.celled.specs.Celled.{AreCells, IsCelledOf};
ghost use Rattle.celled.specs.Spots.{spots_of};
ghost use Rattle.celled.specs.Split.{IsSplit};
ghost use Rattle.celled.specs.Steps.{At, HasSize, IsSplitOn, SizeIs, SeenBy};
ghost use Rattle.celled.specs.Whole.{HasWholes};

use crate::known::know_list;
use crate::lines::{line_at, put_line};
use crate::table::Table;
use btor2::Body;
use cells::{ListMaker, Shortage};
use std::alloc::Global;
use wide::{Line, WideModel};

/// How many inputs and states a front of a list has.
#[derive(Clone, Copy)]
struct Seen {
    inputs: usize,
    states: usize,
}

/// The bits of a cell of a line behind so many leaves, and 0 where it is no leaf.
fn size_of(line: &Line, inputs: &[u64], states: &[u64], seen: Seen) -> u64
    ensures { SizeIs (item_of line.now).body inputs.now states.now seen.inputs seen.states result }
{
    match line {
        Line::Item(item) => match &item.body {
            Body::Input { .. } => inputs.get(seen.inputs).copied().unwrap_or(0),
            Body::State { .. } => states.get(seen.states).copied().unwrap_or(0),
            _ => 0,
        },
        Line::Constant(_) => 0,
    }
}

/// How many inputs and states there are with one line more.
fn seen_by(line: &Line, seen: Seen) -> Seen
    requires inputs { seen.inputs < 1048576 }
    requires states { seen.states < 1048576 }
    ensures { SeenBy (item_of line.now).body seen.inputs seen.states result.inputs result.states }
{
    match line {
        Line::Item(item) => match &item.body {
            Body::Input { .. } => Seen {
                inputs: seen.inputs + 1,
                states: seen.states,
            },
            Body::State { .. } => Seen {
                inputs: seen.inputs,
                states: seen.states + 1,
            },
            _ => seen,
        },
        Line::Constant(_) => seen,
    }
}

/// Adds a line behind so many leaves.
fn put_at(
    alloc: Global,
    wide: &WideModel,
    inputs: &[u64],
    states: &[u64],
    maker: &mut ListMaker,
    table: &mut Table,
    place: usize,
    line: &Line,
    seen: Seen,
) -> Result<(), Shortage>
    ghost at: { At }
    requires split { IsSplit at.front (spots_of table.old) maker.old at.inputs at.states }
    requires accepted { wide_refusal greatest_width at.front (item_of line.now) ≡ None }
    requires place { length at.front ≡ place }
    requires wide { wide.now ≡ at.front ++ item_of line.now ∷ at.after }
    requires sizes { (size : ℕ) → SizeIs (item_of line.now).body inputs.now states.now seen.inputs seen.states size
        → HasSize at.front (item_of line.now) size }
    ensures { OnOk result ((size : ℕ) × SizeIs (item_of line.now).body inputs.now states.now seen.inputs seen.states size
        × IsSplitOn at (item_of line.now) size (spots_of table.new) maker.new) }
{
    let size = size_of(line, inputs, states, seen);
    put_line(alloc, wide, maker, table, place, line, size)
}

/// Adds the lines of a list, one behind the other.
fn put_lines(
    alloc: Global,
    wide: &WideModel,
    inputs: &[u64],
    states: &[u64],
    maker: &mut ListMaker,
    table: &mut Table,
) -> Result<(), Shortage>
    requires empty { maker.old ≡ [] }
    requires inputs { AreCells wide.now (input_ids wide.now) inputs.now }
    requires states { AreCells wide.now (state_ids wide.now) states.now }
    ensures { OnOk result (IsSplit wide.now (spots_of table.new) maker.new inputs.now states.now) }
{
    let mut seen = Seen {
        inputs: 0,
        states: 0,
    };
    for place in 0..wide.lines().len() {
        let line = line_at(wide, place);
        put_at(alloc, wide, inputs, states, maker, table, place, line, seen)?;
        seen = seen_by(line, seen);
    }
    Ok(())
}

/// A list with cells, and where the lines of the list that it was written from stand in it.
#[derive(Drop)]
pub(crate) struct Split {
    pub(crate) list: WideModel,
    pub(crate) table: Table,
}

/// Writes a list as `split_arrays` does, and keeps where its lines stand.
pub(crate) fn split_with_table(
    alloc: Global,
    wide: &WideModel,
    inputs: &[u64],
    states: &[u64],
) -> Result<Split, Shortage>
    requires inputs { AreCells wide.now (input_ids wide.now) inputs.now }
    requires states { AreCells wide.now (state_ids wide.now) states.now }
    ensures { IfOk result (λ s. (c : IsCelledOf wide.now inputs.now states.now s.list)
        × HasWholes wide.now c.layout s.list (spots_of s.table)) }
{
    let mut maker = ListMaker::new(alloc);
    let mut table = Table::new(alloc);
    put_lines(alloc, wide, inputs, states, &mut maker, &mut table)?;
    know_list(&maker);
    Ok(Split {
        list: maker.finish(),
        table,
    })
}

/// Writes a list of wide items so that each input and each state has a leaf for each of its cells: of so many bits as is given for the inputs, and for the
/// states, in file order, and a power of two of them. Cell i of n bits is the bits n * i to n * i + n - 1 of the leaf's word. The word itself is a node, from the
/// cells in a balanced tree; init and next lines become lines of the cells.
pub fn split_arrays(
    alloc: Global,
    wide: &WideModel,
    inputs: &[u64],
    states: &[u64],
) -> Result<WideModel, Shortage>
    requires inputs { AreCells wide.now (input_ids wide.now) inputs.now }
    requires states { AreCells wide.now (state_ids wide.now) states.now }
    ensures { IfOk result (IsCelledOf wide.now inputs.now states.now) }
{
    let split = split_with_table(alloc, wide, inputs, states)?;
    Ok(split.list)
}
