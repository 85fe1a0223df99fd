//! The leaves of a list.
ghost use Rattle.std.specs.Prelude.{◌≡◌, ◌<◌, ◌^◌, ◌++◌, ◌||◌, [], ◌∷◌, true, false, is_some, List, IfOk, IfErr, OnOk};
ghost use Rattle.btor2.specs.declared.item.Body.TheVariants as body;
ghost use Rattle.full.specs.Lines.{sort_named, sort_of_node, width_of};
ghost use Rattle.fullmodel.specs.Lines.{line_of};
ghost use Rattle.cells.specs.Kept.{IsShort};
ghost use Rattle.btor2.specs.declared.item.Item.{Item};
ghost use Rattle.writeout.specs.Tables.{writing};
ghost use Rattle.writeout.specs.Nodes.{NodesStand};
ghost use Rattle.writeout.specs.Leaves.{LeavesWritten};
ghost use Rattle.writeout.specs.Late.{LateWritten};
ghost use Rattle.writeout.specs.Putting.{Adds, IsStateLeaf, PutsLeaf, AddsFirst, PutsFirst, HasNoNexts, LeavesMade, LeafNodes};

use crate::known::know;
use crate::lists::know_list;
use crate::operands::width;
use crate::symbols::copied;
use crate::tables::Tables;
use crate::way::{Way, way_of};
use btor2::{Body, Symbol};
use cells::{ListMaker, Shortage};
use fullmodel::{FullModel, Line, Says};
use std::alloc::Global;

/// A leaf of a line, and whether it is written by its first word.
#[derive(Clone, Copy)]
struct Leaf {
    node: u32,
    leaf: u32,
    by_first: bool,
}

/// Adds the input of a line.
fn put_input(
    full: &FullModel,
    maker: &mut ListMaker,
    symbol: Option<Symbol>,
    id: u32,
) -> Result<u32, Shortage>
    requires { is_some (sort_of_node full.now id) ≡ true }
    ensures adds { IfOk result (Adds maker.old maker.new (λ r. body.Input r) (width_of full.now id)) }
    ensures short { IfErr result (IsShort maker.new) }
{
    know_list(maker);
    let sort = maker.sort(width(full, id))?;
    maker.put(symbol, Body::Input { sort })
}

/// Adds the state of a line.
fn put_state(
    full: &FullModel,
    maker: &mut ListMaker,
    symbol: Option<Symbol>,
    id: u32,
) -> Result<u32, Shortage>
    requires { is_some (sort_of_node full.now id) ≡ true }
    ensures adds { IfOk result (Adds maker.old maker.new (λ r. body.State r) (width_of full.now id)) }
    ensures short { IfErr result (IsShort maker.new) }
{
    know_list(maker);
    let sort = maker.sort(width(full, id))?;
    maker.put(symbol, Body::State { sort })
}

/// The leaf of a state line with such a state.
fn state_leaf(full: &FullModel, id: u32, leaf: u32) -> Leaf
    ensures leaf { result.leaf ≡ leaf }
    ensures node { IsStateLeaf full.now id result.node leaf result.by_first }
{
    match way_of(full, id) {
        Way::First => Leaf {
            node: 0,
            leaf,
            by_first: true,
        },
        _ => Leaf {
            node: leaf,
            leaf,
            by_first: false,
        },
    }
}

/// Adds the leaf of a line, if it has one.
fn put_leaf(
    alloc: Global,
    full: &FullModel,
    maker: &mut ListMaker,
    line: &Line,
) -> Result<Leaf, Shortage>
    requires id { line.now.id < 2 ^ 32 }
    requires node { is_some (sort_named (line_of line.now).says) ≡ true → is_some (sort_of_node full.now line.now.id) ≡ true }
    ensures leaf { IfOk result (λ r. PutsLeaf full.now line.now.id maker.old maker.new r.node r.leaf r.by_first (line_of line.now).says) }
    ensures short { IfErr result (IsShort maker.new) }
{
    let none = Leaf {
        node: 0,
        leaf: 0,
        by_first: false,
    };
    let Says::Form { body, .. } = &line.says else {
        return Ok(none);
    };
    let id = line.id as u32;
    match body {
        Body::Input { .. } => {
            let symbol = copied(alloc, &line.symbol)?;
            let node = put_input(full, maker, symbol, id)?;
            Ok(Leaf {
                node,
                leaf: 0,
                by_first: false,
            })
        }
        Body::State { .. } => {
            let symbol = copied(alloc, &line.symbol)?;
            let leaf = put_state(full, maker, symbol, id)?;
            Ok(state_leaf(full, id, leaf))
        }
        _ => Ok(none),
    }
}

/// Adds the state that is 1 in the first frame alone.
fn put_first(maker: &mut ListMaker) -> Result<u32, Shortage>
    requires { HasNoNexts maker.old }
    ensures first { IfOk result (AddsFirst maker.old maker.new) }
    ensures short { IfErr result (IsShort maker.new) }
{
    let sort = maker.sort(1)?;
    know_list(maker);
    let state = maker.put(None, Body::State { sort })?;
    let one = maker.put(None, Body::One { sort })?;
    let zero = maker.put(None, Body::Zero { sort })?;
    maker.put(
        None,
        Body::Init {
            sort,
            state,
            value: one,
        },
    )?;
    maker.put(
        None,
        Body::Next {
            sort,
            state,
            value: zero,
        },
    )?;
    Ok(state)
}

/// Adds a number to a list.
fn keep(list: &mut Vec<u32>, n: u32) -> Result<(), Shortage>
    ensures ok { OnOk result (list.new.items ≡ list.old.items ++ n ∷ []) }
    ensures short { (items : List Item) → IfErr result (IsShort items) }
{
    match list.push(n) {
        Ok(()) => Ok(()),
        Err(_) => Err(Shortage::NoMemory),
    }
}

/// Adds the leaves of the lines of a model, and answers whether one is written by its first word.
fn put_each(
    alloc: Global,
    full: &FullModel,
    maker: &mut ListMaker,
    nodes: &mut Vec<u32>,
    leaves: &mut Vec<u32>,
) -> Result<bool, Shortage>
    requires items { maker.old ≡ [] }
    requires nodes { nodes.old.items ≡ [] }
    requires leaves { leaves.old.items ≡ [] }
    ensures made { IfOk result (LeavesMade full.now full.now maker.new nodes.new.items leaves.new.items) }
    ensures short { IfErr result (IsShort maker.new) }
{
    know(full);
    let mut any = false;
    for line in full.lines() {
        let leaf = put_leaf(alloc, full, maker, line)?;
        keep(nodes, leaf.node)?;
        keep(leaves, leaf.leaf)?;
        any = any | leaf.by_first;
    }
    Ok(any)
}

/// Adds the state that is 1 in the first frame alone, where a state is written by its first word.
fn put_any_first(maker: &mut ListMaker, any: bool) -> Result<u32, Shortage>
    requires { HasNoNexts maker.old }
    ensures first { IfOk result (PutsFirst any maker.old maker.new) }
    ensures short { IfErr result (IsShort maker.new) }
{
    if any { put_first(maker) } else { Ok(0) }
}

/// Adds the leaves of a model to an empty list.
pub(crate) fn put_leaves(
    alloc: Global,
    full: &FullModel,
    maker: &mut ListMaker,
) -> Result<Tables, Shortage>
    requires { maker.old ≡ [] }
    ensures stands { IfOk result (λ t. NodesStand full.now (writing t maker.new)) }
    ensures leaves { IfOk result (λ t. LeavesWritten full.now (writing t maker.new)) }
    ensures late { IfOk result (λ t. LateWritten full.now [] (writing t maker.new)) }
    ensures nodes { IfOk result (λ t. LeafNodes full.now (writing t maker.new)) }
    ensures short { IfErr result (IsShort maker.new) }
{
    know(full);
    let mut nodes = Vec::new(alloc);
    let mut leaves = Vec::new(alloc);
    let any = put_each(alloc, full, maker, &mut nodes, &mut leaves)?;
    know_list(maker);
    let first = put_any_first(maker, any)?;
    Ok(Tables {
        nodes,
        leaves,
        first,
    })
}
