//! Lines of each kind.
ghost use Rattle.std.specs.Prelude.{◌≡◌, ◌≢◌, ℕ, ◌*◌, ◌%◌, ◌^◌, ◌≤◌, ◌<◌, ◌++◌, [], ◌∷◌, true, length, None, Some, is_some, unwrap_or, slice_get, IfOk, OnOk};
ghost use Rattle.btor2.specs.declared.item.Body.TheVariants as body;
ghost use Rattle.btor2.specs.Items.{constant_word, node_width, width_of_body, is_input, is_state};
ghost use Rattle.wide.specs.Lines.{number_of_digits, item_of, constant_item};
ghost use Rattle.wide.specs.WideModels.{greatest_width, wide_refusal, IsWideModel};
ghost use Rattle.fitting.specs.Fitted.{constant_fits_word, is_leaf};
ghost use Rattle.fitting.specs.Forms.{is_constant_line};
ghost use Rattle.fitting.specs.Steps.{leaf_body};
ghost use Rattle.celled.specs.Spots.{spots_of};
ghost use Rattle.celled.specs.Split.{IsSplit};
ghost use Rattle.celled.specs.Steps.{At, IsSingle, HasSize, IsSplitOn, IsInitBy, IsNextBy, IsSpotted};

use crate::inits::put_inits;
use crate::known::know_list;
use crate::leaves::put_array;
use crate::nexts::put_nexts;
use crate::putting::put_copy;
use crate::table::{Spot, Table};
use btor2::{Body, Item};
use cells::{ListMaker, Shortage};
use fitting::{body_digits, constant_digits};
use std::alloc::Global;
use wide::{Constant, Line, WideModel};

/// The id of a line.
fn id_of(line: &Line) -> u64
    ensures { result ≡ (item_of line.now).id }
{
    match line {
        Line::Item(item) => item.id,
        Line::Constant(constant) => constant.id,
    }
}

/// The digits of the word of a constant: of a number that is the word modulo 2 to the width.
fn item_digits(alloc: Global, body: &Body, width: u64) -> Result<Vec<u64>, Shortage>
    requires least { 1 ≤ width }
    requires most { width ≤ greatest_width }
    requires form { is_constant_line body.now ≡ true }
    requires fits { constant_fits_word width body.now ≡ true }
    ensures { IfOk result (λ ds. constant_word width body.now ≡ Some (number_of_digits ds.items % 2 ^ width)) }
{
    match body_digits(alloc, width, body) {
        Ok(digits) => Ok(digits),
        Err(_) => Err(Shortage::NoMemory),
    }
}

/// The same of a constant in digits.
fn number_digits(alloc: Global, constant: &Constant, width: u64) -> Result<Vec<u64>, Shortage>
    requires least { 1 ≤ width }
    requires fits { constant_fits_word width (constant_item constant.now).body ≡ true }
    ensures { IfOk result (λ ds. constant_word width (constant_item constant.now).body
        ≡ Some (number_of_digits ds.items % 2 ^ width)) }
{
    match constant_digits(alloc, width, constant) {
        Ok(digits) => Ok(digits),
        Err(_) => Err(Shortage::NoMemory),
    }
}

/// The same of the line of a constant.
fn line_digits(alloc: Global, line: &Line, width: u64) -> Result<Vec<u64>, Shortage>
    requires least { 1 ≤ width }
    requires most { width ≤ greatest_width }
    requires form { is_constant_line (item_of line.now).body ≡ true }
    requires fits { constant_fits_word width (item_of line.now).body ≡ true }
    ensures { IfOk result (λ ds. constant_word width (item_of line.now).body
        ≡ Some (number_of_digits ds.items % 2 ^ width)) }
{
    match line {
        Line::Item(item) => item_digits(alloc, &item.body, width),
        Line::Constant(constant) => number_digits(alloc, constant, width),
    }
}

/// Adds a line as it is, over the sorts and nodes of the list with cells.
fn copy_line(
    alloc: Global,
    maker: &mut ListMaker,
    table: &mut Table,
    place: usize,
    line: &Line,
    size: u64,
) -> Result<(), Shortage>
    ghost at: { At }
    requires split { IsSplit at.front (spots_of table.old) maker.old at.inputs at.states }
    requires accepted { wide_refusal greatest_width at.front (item_of line.now) ≡ None }
    requires place { length at.front ≡ place }
    requires single { IsSingle at.front (spots_of table.old) size (item_of line.now).body }
    ensures { OnOk result (IsSplitOn at (item_of line.now) size (spots_of table.new) maker.new) }
{
    know_list(maker);
    let node = put_copy(alloc, table, maker, line)?;
    know_list(maker);
    table.put(
        id_of(line),
        Spot {
            node,
            first: node,
            count: 1,
            line: place,
        },
    )?;
    Ok(())
}

/// Adds the cells of a leaf of several cells.
fn array_line(
    alloc: Global,
    maker: &mut ListMaker,
    table: &mut Table,
    place: usize,
    item: &Item,
    is_input: bool,
    width: u64,
    size: u64,
) -> Result<(), Shortage>
    ghost at: { At }
    requires split { IsSplit at.front (spots_of table.old) maker.old at.inputs at.states }
    requires accepted { wide_refusal greatest_width at.front item.now ≡ None }
    requires place { length at.front ≡ place }
    requires leaf { (s : ℕ) × (item.now.body ≡ leaf_body is_input s) }
    requires width { width_of_body at.front item.now.body ≡ Some width }
    requires size { HasSize at.front item.now size }
    requires several { width ≢ size }
    ensures { OnOk result (IsSplitOn at item.now size (spots_of table.new) maker.new) }
{
    know_list(maker);
    let count = width / size;
    let array = put_array(alloc, maker, is_input, &item.symbol, count, size)?;
    know_list(maker);
    table.put(
        item.id,
        Spot {
            node: array.node,
            first: array.first,
            count,
            line: place,
        },
    )?;
    Ok(())
}

/// Says where a line without a node stands.
fn put_place(table: &mut Table, item: &Item, place: usize) -> Result<(), Shortage>
    ensures { OnOk result (IsSpotted (spots_of table.old) (spots_of table.new) item.now.id 0 0 0 place) }
{
    table.put(
        item.id,
        Spot {
            node: 0,
            first: 0,
            count: 0,
            line: place,
        },
    )?;
    Ok(())
}

/// Adds the init lines of the cells of a state of several cells.
fn inits_line(
    alloc: Global,
    maker: &mut ListMaker,
    table: &mut Table,
    place: usize,
    item: &Item,
    constant: &Line,
    spot: Spot,
    width: u64,
) -> Result<(), Shortage>
    ghost at: { At }
    requires split { IsSplit at.front (spots_of table.old) maker.old at.inputs at.states }
    requires accepted { wide_refusal greatest_width at.front item.now ≡ None }
    requires place { length at.front ≡ place }
    requires init { IsInitBy at.front (spots_of table.old) item.now.body (item_of constant.now) spot width }
    ensures { OnOk result ((k : ℕ) → IsSplitOn at item.now k (spots_of table.new) maker.new) }
{
    know_list(maker);
    let number = line_digits(alloc, constant, width)?;
    put_inits(
        alloc,
        maker,
        number.as_slice(),
        spot.first,
        spot.count,
        width / spot.count,
    )?;
    know_list(maker);
    put_place(table, item, place)?;
    Ok(())
}

/// Adds the next lines of the cells of a state of several cells.
fn nexts_line(
    maker: &mut ListMaker,
    table: &mut Table,
    place: usize,
    item: &Item,
    node: u32,
    spot: Spot,
    width: u64,
) -> Result<(), Shortage>
    ghost at: { At }
    requires split { IsSplit at.front (spots_of table.old) maker.old at.inputs at.states }
    requires accepted { wide_refusal greatest_width at.front item.now ≡ None }
    requires place { length at.front ≡ place }
    requires next { IsNextBy at.front (spots_of table.old) item.now.body node spot width }
    ensures { OnOk result ((k : ℕ) → IsSplitOn at item.now k (spots_of table.new) maker.new) }
{
    know_list(maker);
    put_nexts(maker, node, spot.first, spot.count, width / spot.count)?;
    know_list(maker);
    put_place(table, item, place)?;
    Ok(())
}

/// Adds the line of a leaf of `width` bits with cells of `size` bits.
fn put_leaf(
    alloc: Global,
    maker: &mut ListMaker,
    table: &mut Table,
    place: usize,
    line: &Line,
    item: &Item,
    is_input: bool,
    width: u64,
    size: u64,
) -> Result<(), Shortage>
    ghost at: { At }
    requires split { IsSplit at.front (spots_of table.old) maker.old at.inputs at.states }
    requires accepted { wide_refusal greatest_width at.front item.now ≡ None }
    requires place { length at.front ≡ place }
    requires line { item_of line.now ≡ item.now }
    requires leaf { (s : ℕ) × (item.now.body ≡ leaf_body is_input s) }
    requires width { width_of_body at.front item.now.body ≡ Some width }
    requires size { HasSize at.front item.now size }
    ensures { OnOk result (IsSplitOn at item.now size (spots_of table.new) maker.new) }
{
    if width == size {
        copy_line(alloc, maker, table, place, line, size)
    } else {
        array_line(alloc, maker, table, place, item, is_input, width, size)
    }
}

/// The line at a place.
pub(crate) fn line_at(wide: &WideModel, place: usize) -> &Line
    requires { place < length wide.now }
    ensures { slice_get wide.now place ≡ Some (item_of result.now) }
{
    &wide.lines()[place]
}

/// The width of a node that is there.
fn width_at(wide: &WideModel, id: u64) -> u64
    requires { is_some (node_width wide.now id) ≡ true }
    ensures { node_width wide.now id ≡ Some result }
{
    match wide.node_width(id) {
        Some(width) => width,
        None => unreachable!(),
    }
}

/// Adds an init line, or those of the cells of its state.
fn put_init(
    alloc: Global,
    wide: &WideModel,
    maker: &mut ListMaker,
    table: &mut Table,
    place: usize,
    line: &Line,
    item: &Item,
    state: u32,
    value: u32,
    size: u64,
) -> Result<(), Shortage>
    ghost at: { At }
    requires split { IsSplit at.front (spots_of table.old) maker.old at.inputs at.states }
    requires accepted { wide_refusal greatest_width at.front item.now ≡ None }
    requires place { length at.front ≡ place }
    requires line { item_of line.now ≡ item.now }
    requires wide { wide.now ≡ at.front ++ item.now ∷ at.after }
    requires init { (s : ℕ) × (item.now.body ≡ body.Init s state value) }
    ensures { OnOk result (IsSplitOn at item.now size (spots_of table.new) maker.new) }
{
    know_list(maker);
    let spot = table.get(state);
    if spot.count == 1 {
        return copy_line(alloc, maker, table, place, line, size);
    }
    let constant = line_at(wide, table.get(value).line);
    let width = width_at(wide, u64::from(state));
    inits_line(alloc, maker, table, place, item, constant, spot, width)?;
    Ok(())
}

/// Adds a next line, or those of the cells of its state.
fn put_next(
    alloc: Global,
    wide: &WideModel,
    maker: &mut ListMaker,
    table: &mut Table,
    place: usize,
    line: &Line,
    item: &Item,
    state: u32,
    value: u32,
    size: u64,
) -> Result<(), Shortage>
    ghost at: { At }
    requires split { IsSplit at.front (spots_of table.old) maker.old at.inputs at.states }
    requires accepted { wide_refusal greatest_width at.front item.now ≡ None }
    requires place { length at.front ≡ place }
    requires line { item_of line.now ≡ item.now }
    requires wide { wide.now ≡ at.front ++ item.now ∷ at.after }
    requires next { (s : ℕ) × (item.now.body ≡ body.Next s state value) }
    ensures { OnOk result (IsSplitOn at item.now size (spots_of table.new) maker.new) }
{
    let spot = table.get(state);
    if spot.count == 1 {
        return copy_line(alloc, maker, table, place, line, size);
    }
    let node = table.get(value).node;
    let width = width_at(wide, u64::from(state));
    nexts_line(maker, table, place, item, node, spot, width)?;
    Ok(())
}

/// Adds a line. A leaf has cells of `size` bits.
pub(crate) fn put_line(
    alloc: Global,
    wide: &WideModel,
    maker: &mut ListMaker,
    table: &mut Table,
    place: usize,
    line: &Line,
    size: u64,
) -> Result<(), Shortage>
    ghost at: { At }
    requires split { IsSplit at.front (spots_of table.old) maker.old at.inputs at.states }
    requires accepted { wide_refusal greatest_width at.front (item_of line.now) ≡ None }
    requires place { length at.front ≡ place }
    requires wide { wide.now ≡ at.front ++ item_of line.now ∷ at.after }
    requires size { HasSize at.front (item_of line.now) size }
    ensures { OnOk result (IsSplitOn at (item_of line.now) size (spots_of table.new) maker.new) }
{
    let Line::Item(item) = line else {
        return copy_line(alloc, maker, table, place, line, size);
    };
    match &item.body {
        Body::Input { .. } => {
            let width = width_at(wide, item.id);
            put_leaf(alloc, maker, table, place, line, item, true, width, size)
        }
        Body::State { .. } => {
            let width = width_at(wide, item.id);
            put_leaf(alloc, maker, table, place, line, item, false, width, size)
        }
        Body::Init { state, value, .. } => put_init(
            alloc, wide, maker, table, place, line, item, *state, *value, size,
        ),
        Body::Next { state, value, .. } => put_next(
            alloc, wide, maker, table, place, line, item, *state, *value, size,
        ),
        _ => copy_line(alloc, maker, table, place, line, size),
    }
}
