//! The lines without a value.
ghost use Rattle.std.specs.Prelude.{◌≡◌, ◌+◌, ◌<◌, Some, [], true, is_some, length, take, IfOk};
ghost use Rattle.btor2.specs.declared.item.Body.TheVariants as body;
ghost use Rattle.btor2.specs.Items.{node_width, constant_of};
ghost use Rattle.base.specs.Operator.{ones};
ghost use Rattle.full.specs.Lines.{operand, words, sort_of_node, width_of};
ghost use Rattle.fullmodel.specs.Lines.{operand_of};
ghost use Rattle.writeout.specs.Forms.{minus_at};
ghost use Rattle.writeout.specs.Writings.{Grows};
ghost use Rattle.writeout.specs.Nodes.{NodesStand};
ghost use Rattle.writeout.specs.Leaves.{leaf_at};
ghost use Rattle.writeout.specs.LateLines.{StandsAt, HasItsNode, TakesInit, TakesNext, IsFirstConstant, PutBehind, IsInitOf, IsNextOf, IsShown, InitIsPut};
ghost use Rattle.writeout.specs.Tables.{writing};

use crate::known::know;
use crate::operands::{leaf, node, operand, width};
use crate::symbols::copied;
use crate::tables::Tables;
use crate::way::{Way, way_of};
use btor2::{Body, Symbol};
use cells::laws::lines_are_sound;
use cells::{ListMaker, Shortage};
use fullmodel::{FullModel, Operand, Says};
use std::alloc::Global;

/// The node of zeros, as wide as a state.
fn zeros(
    full: &FullModel,
    tables: &Tables,
    maker: &mut ListMaker,
    state: u32,
) -> Result<u32, Shortage>
    requires stands { NodesStand full.now (writing tables.now maker.old) }
    requires sort { is_some (sort_of_node full.now state) ≡ true }
    ensures constant { IfOk result (λ a. constant_of maker.new a ≡ Some 0) }
    ensures width { IfOk result (λ a. node_width maker.new a ≡ Some (width_of full.now state)) }
    ensures grows { IfOk result (λ a. Grows full.now (writing tables.now maker.old) maker.new) }
{
    lines_are_sound();
    let sort = maker.sort(width(full, state))?;
    maker.put(None, Body::Zero { sort })
}

/// The node of ones, as wide as a state.
fn all_ones(
    full: &FullModel,
    tables: &Tables,
    maker: &mut ListMaker,
    state: u32,
) -> Result<u32, Shortage>
    requires stands { NodesStand full.now (writing tables.now maker.old) }
    requires sort { is_some (sort_of_node full.now state) ≡ true }
    ensures constant { IfOk result (λ a. constant_of maker.new a ≡ Some (ones (width_of full.now state))) }
    ensures width { IfOk result (λ a. node_width maker.new a ≡ Some (width_of full.now state)) }
    ensures grows { IfOk result (λ a. Grows full.now (writing tables.now maker.old) maker.new) }
{
    lines_are_sound();
    let sort = maker.sort(width(full, state))?;
    maker.put(None, Body::Ones { sort })
}

/// Adds the init line of a state by a node that is a constant.
fn put_init(
    full: &FullModel,
    tables: &Tables,
    maker: &mut ListMaker,
    symbol: Option<Symbol>,
    state: u32,
    value: Operand,
    constant: u32,
) -> Result<(), Shortage>
    requires stands { NodesStand full.now (writing tables.now maker.old) }
    requires takes { TakesInit full.now (writing tables.now maker.old) state (operand_of value) }
    requires constant { IsFirstConstant full.now (writing tables.now maker.old) state (operand_of value) constant }
    ensures { IfOk result (λ r. PutBehind full.now (writing tables.now maker.old) maker.new
        (IsInitOf full.now state (operand_of value) (leaf_at full.now (writing tables.now maker.old) state))) }
{
    lines_are_sound();
    let w = leaf(full, tables, state);
    let sort = maker.sort(width(full, state))?;
    maker.put(
        symbol,
        Body::Init {
            sort,
            state: w,
            value: constant,
        },
    )?;
    Ok(())
}

/// Adds the init line of a state, where it is written as it is.
fn init_line(
    alloc: Global,
    full: &FullModel,
    tables: &Tables,
    maker: &mut ListMaker,
    symbol: &Option<Symbol>,
    state: u32,
    value: Operand,
) -> Result<(), Shortage>
    requires stands { NodesStand full.now (writing tables.now maker.old) }
    requires takes { TakesInit full.now (writing tables.now maker.old) state (operand_of value) }
    ensures { IfOk result (λ r. InitIsPut full.now (writing tables.now maker.old) maker.new state (operand_of value)) }
{
    know(full);
    let symbol = copied(alloc, symbol)?;
    match way_of(full, state) {
        Way::Open | Way::First => Ok(()),
        Way::Constant => {
            let constant = node(full, tables, value.id);
            put_init(full, tables, maker, symbol, state, value, constant)
        }
        Way::Zeros => {
            let constant = zeros(full, tables, maker, state)?;
            put_init(full, tables, maker, symbol, state, value, constant)
        }
        Way::Ones => {
            let constant = all_ones(full, tables, maker, state)?;
            put_init(full, tables, maker, symbol, state, value, constant)
        }
    }
}

/// Adds the next line of a state.
fn next_line(
    alloc: Global,
    full: &FullModel,
    tables: &Tables,
    maker: &mut ListMaker,
    symbol: &Option<Symbol>,
    state: u32,
    value: Operand,
) -> Result<(), Shortage>
    requires stands { NodesStand full.now (writing tables.now maker.old) }
    requires takes { TakesNext full.now (writing tables.now maker.old) state (operand_of value) }
    ensures { IfOk result (λ r. PutBehind full.now (writing tables.now maker.old) maker.new
        (IsNextOf full.now (operand_of value) (leaf_at full.now (writing tables.now maker.old) state))) }
{
    lines_are_sound();
    let symbol = copied(alloc, symbol)?;
    let w = leaf(full, tables, state);
    let v = operand(full, tables, maker, value)?;
    let sort = maker.sort(width(full, state))?;
    maker.put(
        symbol,
        Body::Next {
            sort,
            state: w,
            value: v,
        },
    )?;
    Ok(())
}

/// Adds the line of a bad property.
fn bad_line(
    alloc: Global,
    full: &FullModel,
    tables: &Tables,
    maker: &mut ListMaker,
    symbol: &Option<Symbol>,
    value: Operand,
) -> Result<(), Shortage>
    requires stands { NodesStand full.now (writing tables.now maker.old) }
    requires node { HasItsNode full.now (writing tables.now maker.old) (operand_of value) }
    requires bit { sort_of_node full.now value.id ≡ Some (words 1) }
    ensures { IfOk result (λ r. PutBehind full.now (writing tables.now maker.old) maker.new
        (IsShown full.now (operand_of value) (λ a. body.Bad a))) }
{
    lines_are_sound();
    let symbol = copied(alloc, symbol)?;
    let v = operand(full, tables, maker, value)?;
    maker.put(symbol, Body::Bad { operand: v })?;
    Ok(())
}

/// Adds the line of a constraint.
fn constraint_line(
    alloc: Global,
    full: &FullModel,
    tables: &Tables,
    maker: &mut ListMaker,
    symbol: &Option<Symbol>,
    value: Operand,
) -> Result<(), Shortage>
    requires stands { NodesStand full.now (writing tables.now maker.old) }
    requires node { HasItsNode full.now (writing tables.now maker.old) (operand_of value) }
    requires bit { sort_of_node full.now value.id ≡ Some (words 1) }
    ensures { IfOk result (λ r. PutBehind full.now (writing tables.now maker.old) maker.new
        (IsShown full.now (operand_of value) (λ a. body.Constraint a))) }
{
    lines_are_sound();
    let symbol = copied(alloc, symbol)?;
    let v = operand(full, tables, maker, value)?;
    maker.put(symbol, Body::Constraint { operand: v })?;
    Ok(())
}

/// Adds the line of an output.
fn output_line(
    alloc: Global,
    full: &FullModel,
    tables: &Tables,
    maker: &mut ListMaker,
    symbol: &Option<Symbol>,
    value: Operand,
) -> Result<(), Shortage>
    requires stands { NodesStand full.now (writing tables.now maker.old) }
    requires node { HasItsNode full.now (writing tables.now maker.old) (operand_of value) }
    ensures { IfOk result (λ r. PutBehind full.now (writing tables.now maker.old) maker.new
        (IsShown full.now (operand_of value) (λ a. body.Output a))) }
{
    lines_are_sound();
    let symbol = copied(alloc, symbol)?;
    let v = operand(full, tables, maker, value)?;
    maker.put(symbol, Body::Output { operand: v })?;
    Ok(())
}

/// An operand of a form, by its place.
fn operand_by(id: u32, minuses: &[bool], place: usize) -> Operand
    ensures { operand_of result ≡ operand id (minus_at minuses.now place) }
{
    let minus = minuses.get(place).copied().unwrap_or(false);
    Operand { id, minus }
}

/// Adds what the line at a position says, where it has no value.
fn late_line(
    alloc: Global,
    full: &FullModel,
    tables: &Tables,
    maker: &mut ListMaker,
    place: usize,
) -> Result<(), Shortage>
    requires within { place < length full.now }
    requires stands { StandsAt full.now (take place full.now) (writing tables.now maker.old) }
    ensures { IfOk result (λ r. StandsAt full.now (take (place + 1) full.now) (writing tables.now maker.new)) }
{
    know(full);
    let line = &full.lines()[place];
    let Says::Form { body, minuses } = &line.says else {
        return Ok(());
    };
    match body {
        Body::Init { state, value, .. } => {
            let value = operand_by(*value, minuses.as_slice(), 1);
            init_line(alloc, full, tables, maker, &line.symbol, *state, value)
        }
        Body::Next { state, value, .. } => {
            let value = operand_by(*value, minuses.as_slice(), 1);
            next_line(alloc, full, tables, maker, &line.symbol, *state, value)
        }
        Body::Bad { operand } => {
            let value = operand_by(*operand, minuses.as_slice(), 0);
            bad_line(alloc, full, tables, maker, &line.symbol, value)
        }
        Body::Constraint { operand } => {
            let value = operand_by(*operand, minuses.as_slice(), 0);
            constraint_line(alloc, full, tables, maker, &line.symbol, value)
        }
        Body::Output { operand } => {
            let value = operand_by(*operand, minuses.as_slice(), 0);
            output_line(alloc, full, tables, maker, &line.symbol, value)
        }
        _ => Ok(()),
    }
}

/// Adds what the lines without a value say, in file order.
pub(crate) fn put_late(
    alloc: Global,
    full: &FullModel,
    tables: &Tables,
    maker: &mut ListMaker,
) -> Result<(), Shortage>
    requires { StandsAt full.now [] (writing tables.now maker.old) }
    ensures { IfOk result (λ r. StandsAt full.now full.now (writing tables.now maker.new)) }
{
    for place in 0..full.lines().len() {
        late_line(alloc, full, tables, maker, place)?;
    }
    Ok(())
}
