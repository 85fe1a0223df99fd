//! How many gates and variables a lowering takes at most.
ghost use Rattle.std.specs.Prelude.{◌≡◌, ◌≤◌, ◌<◌, ◌^◌, true, false, Some, is_some, slice_get};
ghost use Rattle.btor2.specs.Items.{node_width};
ghost use Rattle.btor2.specs.Check.{IsWellFormed};
ghost use Rattle.btor2.specs.Trace.{bits_of};
ghost use Rattle.blast.specs.Cost.{line_cost, cost, input_width, state_width, given_width, carried_width, bound};

use crate::items::bit_count;
use btor2::{Body, Item, Leaves, Model};
use gates::{Op, gate_bound};

/// The width of the node with an id.
pub(crate) fn node_bits(model: &Model, id: u32) -> u64
    requires { is_some (node_width model.now id) ≡ true }
    ensures value { result ≡ bits_of model.now id }
    ensures some { 1 ≤ result }
    ensures most { result ≤ 64 }
{
    match model.position(u64::from(id)) {
        Some(place) => match model.width_of(place) {
            Some(width) => width.bits(),
            None => unreachable!(),
        },
        None => unreachable!(),
    }
}

/// The width of an operand of the operator on a line.
///
/// Where the operator does not change the width it is the line's own, and the operand, which may lie far away, is not
/// looked up.
fn operand_width(model: &Model, place: usize, item: &Item, operand: u32, changed: bool) -> u64
    requires well_formed { IsWellFormed model.now }
    requires at { slice_get model.now place ≡ Some item.now }
    requires there { is_some (node_width model.now operand) ≡ true }
    requires kept { changed ≡ false → bits_of model.now item.now.id ≡ bits_of model.now operand }
    ensures value { result ≡ bits_of model.now operand }
    ensures some { 1 ≤ result }
    ensures most { result ≤ 64 }
{
    if changed {
        node_bits(model, operand)
    } else {
        bit_count(model, place, item)
    }
}

/// The gate bound of an operator, and 0 for another item.
fn line_cost(model: &Model, place: usize, item: &Item) -> u64
    requires well_formed { IsWellFormed model.now }
    requires at { slice_get model.now place ≡ Some item.now }
    ensures { result ≡ line_cost model.now item.now.body }
{
    match &item.body {
        Body::Unary {
            operator,
            operand,
            ..
        } => {
            let width = operand_width(model, place, item, *operand, operator.is_reduction());
            gate_bound(Op::Unary(*operator), width)
        }
        Body::Binary { operator, left, .. } => {
            let width = operand_width(model, place, item, *left, operator.is_test());
            gate_bound(Op::Binary(*operator), width)
        }
        Body::Ite { first, .. } => {
            let width = operand_width(model, place, item, *first, false);
            gate_bound(Op::Ite, width)
        }
        _ => 0,
    }
}

/// The bits of the inputs.
pub(crate) fn input_width(model: &Model) -> u64
    ensures value { result ≡ input_width model.now }
    ensures small { result < 2 ^ 39 }
{
    Leaves::Inputs.bits(model)
}

/// The bits that are given in each frame: of the inputs and of the free states.
pub(crate) fn given_width(model: &Model) -> u64
    ensures value { result ≡ given_width model.now }
    ensures small { result < 2 ^ 40 }
{
    input_width(model) + Leaves::Free.bits(model)
}

/// The bits that are carried from frame to frame: of the states that are not free.
pub(crate) fn carried_width(model: &Model) -> u64
    ensures value { result ≡ carried_width model.now }
    ensures small { result < 2 ^ 39 }
{
    Leaves::Carried.bits(model)
}

/// The bits of the states: each is free or carried.
fn state_width(model: &Model) -> u64
    ensures value { result ≡ state_width model.now }
    ensures small { result < 2 ^ 40 }
{
    Leaves::Free.bits(model) + carried_width(model)
}

/// How many AND gates the lowering of a model has at most: the gate bounds of all items.
pub fn cost(model: &Model) -> u64
    ensures { result ≡ cost model.now }
{
    let items = model.items();
    let mut total = 0;
    for (place, item) in items.iter().enumerate() {
        total += line_cost(model, place, item);
    }
    total
}

/// How many AND gates, and how many variables, the lowering of a model has at most: `cost` and `bound` by one walk of the
/// items.
pub fn cost_and_bound(model: &Model) -> (u64, u64)
    ensures cost { result.0 ≡ cost model.now }
    ensures bound { result.1 ≡ bound model.now }
{
    let _items = model.items();
    let gates = cost(model);
    (gates, input_width(model) + state_width(model) + gates)
}

/// How many variables the lowering of a model has at most: the bits of its inputs and of its states, and its gates.
pub fn bound(model: &Model) -> u64
    ensures { result ≡ bound model.now }
{
    cost_and_bound(model).1
}
