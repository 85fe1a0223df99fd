//! The cells of arrays, and the words that they make.
ghost use Rattle.std.specs.Prelude.{◌≡◌, ℕ, ◌+◌, ◌*◌, ◌^◌, ◌<◌, ◌≤◌, ◌++◌, length, Some, IfOk};
ghost use Rattle.btor2.specs.Items.{sort_width, node_width};
ghost use Rattle.wide.specs.WideModels.{greatest_width};
ghost use Rattle.full.specs.Gives.{GivesWord};
ghost use Rattle.fit.specs.Fitting.{pieces_word};
ghost use Rattle.fitting.specs.Steps.{leaf_body};
ghost use Rattle.celled.specs.Names.{cell_symbol};
ghost use Rattle.celled.specs.Spots.{ids_from};
ghost use Rattle.celled.specs.Steps.{IsPut, GrowsPlain, cell_lines, IsArray, HaveSize};

use crate::known::know_list;
use crate::names::cell_symbol;
use btor2::{Body, Symbol};
use cells::{ListMaker, Shortage};
use std::alloc::Global;

/// Where an array stands: the node of its whole word, and its first cell.
#[derive(Clone, Copy)]
pub(crate) struct Array {
    pub(crate) node: u32,
    pub(crate) first: u32,
}

/// The form of an input, or else of a state.
fn leaf_form(is_input: bool, sort: u32) -> Body
    ensures { result ≡ leaf_body is_input sort }
{
    if is_input {
        Body::Input { sort }
    } else {
        Body::State { sort }
    }
}

/// Adds a cell.
fn put_cell(
    alloc: Global,
    maker: &mut ListMaker,
    is_input: bool,
    symbol: &Option<Symbol>,
    sort: u32,
    size: u64,
    index: u64,
) -> Result<u32, Shortage>
    requires { sort_width maker.old sort ≡ Some size }
    ensures put { IfOk result (λ id. IsPut maker.old maker.new id (cell_symbol symbol.now index) (leaf_body is_input sort)) }
    ensures fits { IfOk result (λ id. id < 2 ^ 32) }
{
    know_list(maker);
    let name = cell_symbol(alloc, symbol, index)?;
    let id = maker.put(name, leaf_form(is_input, sort))?;
    Ok(id)
}

/// Adds the cells of an array. Answers the first, behind which the others stand.
fn put_cells(
    alloc: Global,
    maker: &mut ListMaker,
    is_input: bool,
    symbol: &Option<Symbol>,
    sort: u32,
    size: u64,
    count: u64,
) -> Result<u32, Shortage>
    requires sort { sort_width maker.old sort ≡ Some size }
    requires some { 1 ≤ count }
    ensures cells { IfOk result (λ first. maker.new ≡ maker.old ++ cell_lines is_input sort symbol.now first 0 count) }
    ensures first { IfOk result (λ first. first ≡ length maker.old + 1) }
    ensures fits { IfOk result (λ first. first + count ≤ 2 ^ 32) }
    ensures widths { IfOk result (λ first. HaveSize maker.new size (ids_from first count)) }
{
    let first = put_cell(alloc, maker, is_input, symbol, sort, size, 0)?;
    for index in 1..count {
        put_cell(alloc, maker, is_input, symbol, sort, size, index)?;
    }
    Ok(first)
}

/// The node of the word that cells make, by halves.
fn joined(maker: &mut ListMaker, first: u32, count: u64, size: u64) -> Result<u32, Shortage>
    requires power { (k : ℕ) × (count ≡ 2 ^ k) }
    requires cells { HaveSize maker.old size (ids_from first count) }
    requires most { count * size ≤ greatest_width }
    requires fits { first + count ≤ 2 ^ 32 }
    ensures word { IfOk result (λ node. GivesWord maker.new (count * size)
        (λ g. pieces_word (λ p. size) g (ids_from first count)) node) }
    ensures grows { IfOk result (λ node. GrowsPlain maker.old maker.new) }
{
    if count == 1 {
        know_list(maker);
        return Ok(first);
    }
    let half = count / 2;
    let low = joined(maker, first, half, size)?;
    let high = joined(maker, first + half as u32, half, size)?;
    know_list(maker);
    maker.concat(high, half * size, low, half * size)
}

/// Adds an array of so many cells of so many bits: its cells in file order, with its name and their indices, and the node of its
/// whole word.
pub(crate) fn put_array(
    alloc: Global,
    maker: &mut ListMaker,
    is_input: bool,
    symbol: &Option<Symbol>,
    count: u64,
    size: u64,
) -> Result<Array, Shortage>
    requires power { (k : ℕ) × (count ≡ 2 ^ k) }
    requires some { 1 ≤ size }
    requires most { count * size ≤ greatest_width }
    ensures { IfOk result (λ a. IsArray maker.old maker.new is_input symbol.now a.node a.first count size) }
{
    let sort = maker.sort(size)?;
    let first = put_cells(alloc, maker, is_input, symbol, sort, size, count)?;
    let node = joined(maker, first, count, size)?;
    Ok(Array { node, first })
}
