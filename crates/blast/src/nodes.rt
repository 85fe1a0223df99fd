//! The rows of literals of all nodes, in file order.
ghost use Rattle.std.specs.Prelude.{◌≡◌, ℕ, ◌+◌, ◌*◌, ◌^◌, ◌<◌, ◌≤◌, List, true, is_some, map, length, Some, slice_get, take, IfOk, OnOk, IfErr, if◌then◌else◌};
ghost use Rattle.std.specs.List.{range_with_len};
ghost use Rattle.base.specs.Operator.{unary_value, binary_value, ite_value};
ghost use Rattle.base.specs.Widths.{is_of_bits, unary_width, binary_width};
ghost use Rattle.btor2.specs.Items.{is_input, is_state, is_free, node_width};
ghost use Rattle.btor2.specs.Check.{IsWellFormed};
ghost use Rattle.btor2.specs.Trace.{bits_of};
ghost use Rattle.aiger.specs.Limits.{greatest_count};
ghost use Rattle.aiger.specs.Net.{variables};
ghost use Rattle.gates.specs.Bound.{unary_bound, binary_bound, ite_bound};
ghost use Rattle.blast.specs.Cost.{bound, input_width, given_width};
ghost use Rattle.blast.specs.Reads.{LowersNodes, leaves_only};
ghost use Rattle.blast.specs.Table.{MakesNode, MakesRow, IsOperand, next_leaf, next_after, LowersFront};

use crate::items::{bit_count, node_row};
use crate::placed::{concat_row, constant_row, sext_row, slice_row, uext_row};
use crate::watching::Watch;
use crate::widths::{given_width, input_width};
use aiger::Lit;
use base::{Binary, Rows, Unary};
use btor2::{Body, Item, Model};
use gates::{Bits, GateFault, Gates, HashGates, binary_bits, ite_bits, unary_bits};
use std::alloc::Global;

/// What the next leaf has: the variable of the first bit of an input, of a free state and of another state, and the
/// number of states before it.
#[derive(Drop)]
pub(crate) struct NextLeaf {
    pub input: u64,
    pub free: u64,
    pub carried: u64,
    pub state: usize,
}

/// What the first leaf has: variables are numbered the inputs' bits first, then those of the free states, then those of
/// the other states.
fn first_leaf(model: &Model) -> NextLeaf
    ensures input { result.input ≡ 1 }
    ensures free { result.free ≡ 1 + input_width model.now }
    ensures carried { result.carried ≡ 1 + given_width model.now }
    ensures state { result.state ≡ 0 }
{
    NextLeaf {
        input: 1,
        free: 1 + input_width(model),
        carried: 1 + given_width(model),
        state: 0,
    }
}

/// The literals of so many variables from a first one on.
fn variable_bits(first: u64, width: u64) -> Bits
    requires few { width ≤ 64 }
    requires small { first + width < 2 ^ 31 }
    ensures { result.items ≡ map (λ i. 2 * (first + i)) (range_with_len 0 width) }
{
    let mut bits = Bits::new();
    for i in 0..width {
        bits.push(Lit::new((2 * (first + i)) as u32));
    }
    bits
}

/// The literals of the next variables, which are counted on.
fn next_bits(next: &mut u64, width: u64) -> Bits
    requires few { width ≤ 64 }
    requires small { next.old + width < 2 ^ 31 }
    ensures bits { result.items ≡ map (λ i. 2 * (next.old + i)) (range_with_len 0 width) }
    ensures next { next.new ≡ next.old + width }
{
    let bits = variable_bits(*next, width);
    *next += width;
    bits
}

/// The row of a line of one operand.
fn unary_row<G: Gates>(
    model: &Model,
    gates: &mut G,
    table: &Rows<Lit>,
    operator: Unary,
    operand: u32,
) -> Result<Bits, GateFault>
    requires well_formed { IsWellFormed model.now }
    requires operand { IsOperand model.now (G.made gates.old) table.now operand }
    requires fits { variables (G.made gates.old) + unary_bound operator (bits_of model.now operand)
        ≤ greatest_count }
    ensures ok { IfOk result (λ bits. let n = bits_of model.now operand in MakesNode model.now
        (G.made gates.old) (G.made gates.new) (unary_bound operator n) (unary_width operator n)
        (λ f. unary_value operator n (f operand)) bits.items) }
    ensures memory { IfErr result (λ e. e ≡ GateFault.NoMemory) }
{
    let a = node_row(model, table, operand);
    unary_bits(gates, operator, a)
}

/// The row of a line of two operands.
fn binary_row<G: Gates>(
    model: &Model,
    gates: &mut G,
    table: &Rows<Lit>,
    operator: Binary,
    left: u32,
    right: u32,
) -> Result<Bits, GateFault>
    requires well_formed { IsWellFormed model.now }
    requires left { IsOperand model.now (G.made gates.old) table.now left }
    requires right { IsOperand model.now (G.made gates.old) table.now right }
    requires equal { bits_of model.now right ≡ bits_of model.now left }
    requires of_bits { is_of_bits operator ≡ true → bits_of model.now left ≡ 1 }
    requires fits { variables (G.made gates.old) + binary_bound operator (bits_of model.now left)
        ≤ greatest_count }
    ensures ok { IfOk result (λ bits. let n = bits_of model.now left in MakesNode model.now
        (G.made gates.old) (G.made gates.new) (binary_bound operator n) (binary_width operator n)
        (λ f. binary_value operator n (f left) (f right)) bits.items) }
    ensures memory { IfErr result (λ e. e ≡ GateFault.NoMemory) }
{
    let a = node_row(model, table, left);
    let b = node_row(model, table, right);
    binary_bits(gates, operator, a, b)
}

/// The row of a choice.
fn ite_row<G: Gates>(
    model: &Model,
    gates: &mut G,
    table: &Rows<Lit>,
    condition: u32,
    first: u32,
    second: u32,
) -> Result<Bits, GateFault>
    requires well_formed { IsWellFormed model.now }
    requires condition { IsOperand model.now (G.made gates.old) table.now condition }
    requires first { IsOperand model.now (G.made gates.old) table.now first }
    requires second { IsOperand model.now (G.made gates.old) table.now second }
    requires one { bits_of model.now condition ≡ 1 }
    requires equal { bits_of model.now second ≡ bits_of model.now first }
    requires fits { variables (G.made gates.old) + ite_bound (bits_of model.now first)
        ≤ greatest_count }
    ensures ok { IfOk result (λ bits. let n = bits_of model.now first in MakesNode model.now
        (G.made gates.old) (G.made gates.new) (ite_bound n) n
        (λ f. ite_value (f condition) (f first) (f second)) bits.items) }
    ensures memory { IfErr result (λ e. e ≡ GateFault.NoMemory) }
{
    let c = node_row(model, table, condition);
    let t = node_row(model, table, first);
    let e = node_row(model, table, second);
    ite_bits(gates, c, t, e)
}

/// The row of an input: its variables.
fn input_row(model: &Model, place: usize, item: &Item, next: &mut NextLeaf) -> Bits
    requires well_formed { IsWellFormed model.now }
    requires at { slice_get model.now place ≡ Some item.now }
    requires input { is_input item.now.body ≡ true }
    requires next { next.old ≡ next_leaf model.now (take place model.now) }
    requires fits { bound model.now ≤ greatest_count }
    ensures bits { result.items ≡ map (λ i. 2 * (next.old.input + i))
        (range_with_len 0 (bits_of model.now item.now.id)) }
    ensures next { next.new ≡ next_after model.now item.now next.old }
{
    next_bits(&mut next.input, bit_count(model, place, item))
}

/// The row of a state: its variables, which are those of an input bit where it is free.
fn state_row(model: &Model, place: usize, item: &Item, next: &mut NextLeaf) -> Bits
    requires well_formed { IsWellFormed model.now }
    requires at { slice_get model.now place ≡ Some item.now }
    requires state { is_state item.now.body ≡ true }
    requires next { next.old ≡ next_leaf model.now (take place model.now) }
    requires fits { bound model.now ≤ greatest_count }
    ensures bits { result.items
        ≡ map (λ i. 2 * ((if is_free model.now item.now.id then next.old.free else next.old.carried)
        + i)) (range_with_len 0 (bits_of model.now item.now.id)) }
    ensures next { next.new ≡ next_after model.now item.now next.old }
{
    let width = bit_count(model, place, item);
    let free = model.is_free(next.state);
    next.state += 1;
    if free {
        next_bits(&mut next.free, width)
    } else {
        next_bits(&mut next.carried, width)
    }
}

/// The row of a line, after the rows of those before it.
fn line_row<G: Gates>(
    model: &Model,
    gates: &mut G,
    table: &Rows<Lit>,
    place: usize,
    item: &Item,
    next: &mut NextLeaf,
) -> Result<Bits, GateFault>
    requires well_formed { IsWellFormed model.now }
    requires at { slice_get model.now place ≡ Some item.now }
    requires front { LowersFront model.now place (G.made gates.old) table.now next.old }
    requires fits { bound model.now ≤ greatest_count }
    ensures ok { IfOk result (λ bits. MakesRow model.now (G.made gates.old)
        (G.made gates.new) item.now bits.items) }
    ensures next { OnOk result (next.new ≡ next_after model.now item.now next.old) }
    ensures memory { IfErr result (λ e. e ≡ GateFault.NoMemory) }
{
    match &item.body {
        Body::Input { .. } => Ok(input_row(model, place, item, next)),
        Body::State { .. } => Ok(state_row(model, place, item, next)),
        Body::Unary {
            operator,
            operand,
            ..
        } => unary_row(model, gates, table, *operator, *operand),
        Body::Binary {
            operator,
            left,
            right,
            ..
        } => binary_row(model, gates, table, *operator, *left, *right),
        Body::Ite {
            condition,
            first,
            second,
            ..
        } => ite_row(model, gates, table, *condition, *first, *second),
        Body::Uext { operand, by, .. } => Ok(uext_row(node_row(model, table, *operand), *by)),
        Body::Sext { operand, by, .. } => Ok(sext_row(node_row(model, table, *operand), *by)),
        Body::Slice {
            operand,
            upper,
            lower,
            ..
        } => Ok(slice_row(node_row(model, table, *operand), *upper, *lower)),
        Body::Concat { high, low, .. } => Ok(concat_row(
            node_row(model, table, *high),
            node_row(model, table, *low),
        )),
        _ => Ok(constant_row(model, place, item)),
    }
}

/// Adds the row of an item to those of the items before it.
fn lower_item<G: Gates>(
    model: &Model,
    gates: &mut G,
    table: &mut Rows<Lit>,
    place: usize,
    item: &Item,
    next: &mut NextLeaf,
) -> Result<(), GateFault>
    requires well_formed { IsWellFormed model.now }
    requires at { slice_get model.now place ≡ Some item.now }
    requires front { LowersFront model.now place (G.made gates.old) table.old next.old }
    requires fits { bound model.now ≤ greatest_count }
    ensures ok { OnOk result (LowersFront model.now (place + 1)
        (G.made gates.new) table.new next.new) }
    ensures memory { IfErr result (λ e. e ≡ GateFault.NoMemory) }
{
    let bits = line_row(model, gates, table, place, item, next)?;
    match table.push(bits.as_slice()) {
        Ok(()) => Ok(()),
        Err(_) => Err(GateFault::NoMemory),
    }
}

/// The rows of literals of all items, in file order: those of an input and a state are their variables, those of an
/// constant its bits, those of an operator are made of its operands' rows or placed, and a line without a value has an
/// empty row.
///
/// Conditions: the maker stands on the bits that are given in each frame and on those that are carried, and has made no
/// gate; at most 2^30 variables. Errors: `NoMemory`.
pub(crate) fn lower_nodes<W: Watch>(
    alloc: Global,
    model: &Model,
    gates: &mut HashGates,
    watch: &mut W,
) -> Result<Rows<Lit>, GateFault>
    requires leaves { gates.old ≡ leaves_only model.now }
    requires fits { bound model.now ≤ greatest_count }
    ensures ok { IfOk result (λ rows. LowersNodes model.now gates.old gates.new rows) }
    ensures memory { IfErr result (λ e. e ≡ GateFault.NoMemory) }
{
    let items = model.items();
    let mut table = Rows::new(alloc);
    let mut next = first_leaf(model);
    for (place, item) in items.iter().enumerate() {
        lower_item(model, gates, &mut table, place, item, &mut next)?;
        watch.made(gates.gate_count());
    }
    Ok(table)
}
