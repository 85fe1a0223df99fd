//! Words cut out, put one before another and made wider. Nothing of this takes gates.
ghost use Rattle.std.specs.Prelude.{◌≡◌, ◌+◌, ◌-◌, ◌^◌, ◌<◌, ◌≤◌, ◌++◌, IfOk, IfErr, OnOk};
ghost use Rattle.base.specs.Operator.{slice_value, uext_value, sext_value, concat_value};
ghost use Rattle.pieces.specs.declared.shortage.Shortage.TheVariants as shortage;
ghost use Rattle.pieces.specs.Kept.{IsShort};
ghost use Rattle.pieces.specs.Nodes.{word_of, bits_in, AreNodes, Extends, Makes, MakesWord};
ghost use Rattle.pieces.specs.Cuts.{widths, IsCut, IsWord};
ghost use Rattle.pieces.specs.Sums.{IsCarry};
ghost use Rattle.pieces.specs.Fills.{filled_word};

use crate::cuts::{SIZE, bits_of, cut, field, keep};
use crate::maker::Maker;
use crate::node::Node;
use crate::shortage::Shortage;
use std::alloc::Global;

/// The bits of a word from `upper` down to `lower`, both included.
pub fn slice(
    alloc: Global,
    maker: &mut Maker,
    a: &[Node],
    upper: u64,
    lower: u64,
) -> Result<Vec<Node>, Shortage>
    requires a { IsWord maker.old a.now }
    requires order { lower ≤ upper }
    requires within { upper < bits_in a.now }
    ensures word { IfOk result (λ rs. MakesWord maker.new (upper - lower + 1)
        (λ g. slice_value (word_of g a.now) upper lower) rs.items) }
    ensures cut { IfOk result (λ rs. IsCut 64 (widths rs.items)) }
    ensures extends { Extends maker.old maker.new }
    ensures short { IfErr result (IsShort maker.new) }
{
    cut(alloc, maker, a, lower, upper - lower + 1, SIZE)
}

/// Adds nodes to a list.
pub(crate) fn keep_all(list: &mut Vec<Node>, nodes: &[Node]) -> Result<(), Shortage>
    ensures ok { OnOk result (list.new.items ≡ list.old.items ++ nodes.now) }
    ensures short { IfErr result (λ e. e ≡ shortage.NoMemory) }
{
    match list.extend_from_slice(nodes) {
        Ok(()) => Ok(()),
        Err(_) => Err(Shortage::NoMemory),
    }
}

/// Nodes one list behind the other.
fn joined(alloc: Global, low: &[Node], high: &[Node]) -> Result<Vec<Node>, Shortage>
    ensures nodes { IfOk result (λ rs. rs.items ≡ low.now ++ high.now) }
    ensures short { IfErr result (λ e. e ≡ shortage.NoMemory) }
{
    let mut out = Vec::new(alloc);
    keep_all(&mut out, low)?;
    keep_all(&mut out, high)?;
    Ok(out)
}

/// The same nodes as a list of their own.
pub(crate) fn copied(alloc: Global, nodes: &[Node]) -> Result<Vec<Node>, Shortage>
    ensures nodes { IfOk result (λ rs. rs.items ≡ nodes.now) }
    ensures short { IfErr result (λ e. e ≡ shortage.NoMemory) }
{
    let mut out = Vec::new(alloc);
    keep_all(&mut out, nodes)?;
    Ok(out)
}

/// The node of a bit, so many times, or of zeros.
fn filler(maker: &mut Maker, by: Option<Node>, width: u64) -> Result<Node, Shortage>
    requires by { IsCarry maker.old by }
    requires least { 1 ≤ width }
    requires most { width ≤ 64 }
    ensures node { IfOk result (Makes maker.new width (λ g. filled_word g by width)) }
    ensures extends { Extends maker.old maker.new }
    ensures short { IfErr result (IsShort maker.new) }
{
    match by {
        Some(bit) => maker.sext(bit, width),
        None => maker.zero(width),
    }
}

/// Nodes of a bit or of zeros, with so many bits together.
pub(crate) fn fill(
    alloc: Global,
    maker: &mut Maker,
    by: Option<Node>,
    width: u64,
) -> Result<Vec<Node>, Shortage>
    requires by { IsCarry maker.old by }
    ensures word { IfOk result (λ rs. MakesWord maker.new width
        (λ g. filled_word g by width) rs.items) }
    ensures extends { Extends maker.old maker.new }
    ensures short { IfErr result (IsShort maker.new) }
{
    let mut out = Vec::new(alloc);
    let mut left = width;
    'filling: while left > 0 {
        let taken = left.min(SIZE);
        let node = filler(maker, by, taken)?;
        keep(&mut out, node)?;
        left -= taken;
    }
    Ok(out)
}

/// The word that the nodes of a high side before those of a low side are.
pub(crate) fn stacked(
    alloc: Global,
    maker: &mut Maker,
    low: &[Node],
    high: &[Node],
    width: u64,
) -> Result<Vec<Node>, Shortage>
    requires low { AreNodes maker.old low.now }
    requires high { AreNodes maker.old high.now }
    requires wide { bits_in high.now + bits_in low.now ≡ width }
    requires some { 1 ≤ width }
    requires few { width < 2 ^ 63 }
    ensures word { IfOk result (λ rs. MakesWord maker.new width
        (λ g. concat_value (word_of g high.now) (bits_in low.now) (word_of g low.now)) rs.items) }
    ensures cut { IfOk result (λ rs. IsCut 64 (widths rs.items)) }
    ensures extends { Extends maker.old maker.new }
    ensures short { IfErr result (IsShort maker.new) }
{
    let all = joined(alloc, low, high)?;
    cut(alloc, maker, &all, 0, width, SIZE)
}

/// A word before another, whose bits are its high ones.
///
/// Condition: they have fewer than 2^63 bits together.
pub fn concat(
    alloc: Global,
    maker: &mut Maker,
    high: &[Node],
    low: &[Node],
) -> Result<Vec<Node>, Shortage>
    requires high { IsWord maker.old high.now }
    requires low { IsWord maker.old low.now }
    requires few { bits_in high.now + bits_in low.now < 2 ^ 63 }
    ensures word { IfOk result (λ rs. MakesWord maker.new (bits_in high.now + bits_in low.now)
        (λ g. concat_value (word_of g high.now) (bits_in low.now) (word_of g low.now)) rs.items) }
    ensures cut { IfOk result (λ rs. IsCut 64 (widths rs.items)) }
    ensures extends { Extends maker.old maker.new }
    ensures short { IfErr result (IsShort maker.new) }
{
    let width = bits_of(high) + bits_of(low);
    stacked(alloc, maker, low, high, width)
}

/// A word before which `by` zeros stand.
///
/// Condition: with these it has fewer than 2^63 bits.
pub fn uext(alloc: Global, maker: &mut Maker, a: &[Node], by: u64) -> Result<Vec<Node>, Shortage>
    requires a { IsWord maker.old a.now }
    requires few { bits_in a.now + by < 2 ^ 63 }
    ensures word { IfOk result (λ rs. MakesWord maker.new (bits_in a.now + by)
        (λ g. uext_value (word_of g a.now)) rs.items) }
    ensures cut { IfOk result (λ rs. IsCut 64 (widths rs.items)) }
    ensures extends { Extends maker.old maker.new }
    ensures short { IfErr result (IsShort maker.new) }
{
    let width = bits_of(a) + by;
    let above = fill(alloc, maker, None, by)?;
    stacked(alloc, maker, a, &above, width)
}

/// A word before which its highest bit stands `by` times.
///
/// Condition: with these it has fewer than 2^63 bits.
pub fn sext(alloc: Global, maker: &mut Maker, a: &[Node], by: u64) -> Result<Vec<Node>, Shortage>
    requires a { IsWord maker.old a.now }
    requires few { bits_in a.now + by < 2 ^ 63 }
    ensures word { IfOk result (λ rs. MakesWord maker.new (bits_in a.now + by)
        (λ g. sext_value (bits_in a.now) (word_of g a.now) by) rs.items) }
    ensures cut { IfOk result (λ rs. IsCut 64 (widths rs.items)) }
    ensures extends { Extends maker.old maker.new }
    ensures short { IfErr result (IsShort maker.new) }
{
    let own = bits_of(a);
    let sign = field(maker, a, own - 1, 1)?;
    let above = fill(alloc, maker, Some(sign), by)?;
    stacked(alloc, maker, a, &above, own + by)
}
