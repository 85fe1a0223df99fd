//! Inputs and states, by nodes of at most 64 bits.
ghost use Rattle.std.specs.Prelude.{◌≡◌, ◌<◌, ◌≤◌, ◌++◌, [], ◌∷◌, true, false, OnOk, IfOk, IfErr};
ghost use Rattle.pieces.specs.Kept.{IsShort};
ghost use Rattle.pieces.specs.Nodes.{bits_in, AreNodes, IsNode};
ghost use Rattle.pieces.specs.Cuts.{widths, IsCut};
ghost use Rattle.pieces.specs.declared.shortage.Shortage.TheVariants as shortage;
ghost use Rattle.fitting.specs.Fitted.{most_bits};
ghost use Rattle.fitting.specs.Names.{word_names};
ghost use Rattle.fitting.specs.Steps.{AddsLeaves, IsLonger};

use crate::names::piece_symbol;
use btor2::Symbol;
use pieces::{Maker, Node, Shortage};
use std::alloc::Global;

/// An input of one node.
fn input(maker: &mut Maker, symbol: Option<Symbol>, width: u64) -> Result<Node, Shortage>
    requires least { 1 ≤ width }
    requires most { width ≤ 64 }
    ensures node { IfOk result (λ r. IsNode maker.new r × (r.width ≡ width)) }
    ensures adds { IfOk result (λ r. AddsLeaves true maker.old maker.new (r ∷ []) (symbol ∷ [])) }
    ensures grows { IfErr result (λ e. IsLonger maker.old maker.new) }
    ensures short { IfErr result (IsShort maker.new) }
{
    let node = maker.input(symbol, width)?;
    let _items = maker.model().items();
    Ok(node)
}

/// A state of one node.
fn state(maker: &mut Maker, symbol: Option<Symbol>, width: u64) -> Result<Node, Shortage>
    requires least { 1 ≤ width }
    requires most { width ≤ 64 }
    ensures node { IfOk result (λ r. IsNode maker.new r × (r.width ≡ width)) }
    ensures adds { IfOk result (λ r. AddsLeaves false maker.old maker.new (r ∷ []) (symbol ∷ [])) }
    ensures grows { IfErr result (λ e. IsLonger maker.old maker.new) }
    ensures short { IfErr result (IsShort maker.new) }
{
    let node = maker.state(symbol, width)?;
    let _items = maker.model().items();
    Ok(node)
}

/// A leaf of one node: an input, or else a state.
fn leaf(
    maker: &mut Maker,
    is_input: bool,
    symbol: Option<Symbol>,
    width: u64,
) -> Result<Node, Shortage>
    requires least { 1 ≤ width }
    requires most { width ≤ 64 }
    ensures node { IfOk result (λ r. IsNode maker.new r × (r.width ≡ width)) }
    ensures adds { IfOk result (λ r. AddsLeaves is_input maker.old maker.new (r ∷ []) (symbol ∷ [])) }
    ensures grows { IfErr result (λ e. IsLonger maker.old maker.new) }
    ensures short { IfErr result (IsShort maker.new) }
{
    if is_input {
        input(maker, symbol, width)
    } else {
        state(maker, symbol, width)
    }
}

/// Adds a node to a list.
fn keep(list: &mut Vec<Node>, node: Node) -> Result<(), Shortage>
    ensures ok { OnOk result (list.new.items ≡ list.old.items ++ node ∷ []) }
    ensures short { IfErr result (λ e. e ≡ shortage.NoMemory) }
{
    match list.push(node) {
        Ok(()) => Ok(()),
        Err(_) => Err(Shortage::NoMemory),
    }
}

/// A leaf of more than 64 bits, by nodes of 64 bits each, but for the last, which may have fewer. They have its name with the
/// bits that they are.
fn pieces(
    alloc: Global,
    maker: &mut Maker,
    is_input: bool,
    symbol: &Option<Symbol>,
    width: u64,
) -> Result<Vec<Node>, Shortage>
    requires least { 64 < width }
    requires most { width ≤ most_bits }
    ensures nodes { IfOk result (λ rs. AreNodes maker.new rs.items) }
    ensures width { IfOk result (λ rs. bits_in rs.items ≡ width) }
    ensures cut { IfOk result (λ rs. IsCut 64 (widths rs.items)) }
    ensures adds { IfOk result (λ rs. AddsLeaves is_input maker.old maker.new rs.items
        (word_names symbol.now (widths rs.items))) }
    ensures grows { IfErr result (λ e. IsLonger maker.old maker.new) }
    ensures short { IfErr result (IsShort maker.new) }
{
    let mut out = Vec::new(alloc);
    let mut left = width;
    while left > 0 {
        let taken = left.min(64);
        let name = piece_symbol(alloc, symbol, width - left, taken)?;
        let node = leaf(maker, is_input, name, taken)?;
        keep(&mut out, node)?;
        left -= taken;
    }
    Ok(out)
}

/// An input, or else a state, of so many bits. One node has its name, and the pieces of a wider one have that with the bits
/// that they are.
pub(crate) fn leaves(
    alloc: Global,
    maker: &mut Maker,
    is_input: bool,
    symbol: Option<Symbol>,
    width: u64,
) -> Result<Vec<Node>, Shortage>
    requires least { 1 ≤ width }
    requires most { width ≤ most_bits }
    ensures nodes { IfOk result (λ rs. AreNodes maker.new rs.items) }
    ensures width { IfOk result (λ rs. bits_in rs.items ≡ width) }
    ensures cut { IfOk result (λ rs. IsCut 64 (widths rs.items)) }
    ensures adds { IfOk result (λ rs. AddsLeaves is_input maker.old maker.new rs.items
        (word_names symbol (widths rs.items))) }
    ensures grows { IfErr result (λ e. IsLonger maker.old maker.new) }
    ensures short { IfErr result (IsShort maker.new) }
{
    if width > 64 {
        return pieces(alloc, maker, is_input, &symbol, width);
    }
    let node = leaf(maker, is_input, symbol, width)?;
    let mut out = Vec::new(alloc);
    keep(&mut out, node)?;
    Ok(out)
}
