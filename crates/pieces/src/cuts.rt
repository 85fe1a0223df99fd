//! Words cut anew: bits of nodes one above the other.
ghost use Rattle.std.specs.Prelude.{◌≡◌, ℕ, ◌+◌, ◌/◌, ◌%◌, ◌^◌, ◌<◌, ◌≤◌, ◌++◌, ◌∷◌, [], IfOk, IfErr, OnOk};
ghost use Rattle.pieces.specs.declared.shortage.Shortage.TheVariants as shortage;
ghost use Rattle.pieces.specs.Kept.{IsShort};
ghost use Rattle.pieces.specs.Nodes.{word_of, bits_in, AreNodes, Extends, IsNode, Makes, MakesWord};
ghost use Rattle.pieces.specs.Cuts.{widths, IsCut, IsBehind, IsInFirst};

use crate::maker::Maker;
use crate::node::Node;
use crate::shortage::Shortage;
use std::alloc::Global;

/// How many bits a node of a word has, but for the highest.
pub(crate) const SIZE: u64 = 64;

/// How many bits a node has to which a carry is added below and above.
pub(crate) const CARRIED: u64 = 62;

/// Adds a node to a list.
pub(crate) fn keep(list: &mut Vec<Node>, node: Node) -> Result<(), Shortage>
    ensures ok { OnOk result (list.new.items ≡ list.old.items ++ node ∷ []) }
    ensures short { IfErr result (λ e. e ≡ shortage.NoMemory) }
{
    match list.push(node) {
        Ok(()) => Ok(()),
        Err(_) => Err(Shortage::NoMemory),
    }
}

/// Bits of a node: the node itself where these are all.
pub(crate) fn part(maker: &mut Maker, node: Node, low: u64, width: u64) -> Result<Node, Shortage>
    requires node { IsNode maker.old node }
    requires some { 1 ≤ width }
    requires within { low + width ≤ node.width }
    ensures node { IfOk result (Makes maker.new width (λ g. g node.id / 2 ^ low % 2 ^ width)) }
    ensures extends { Extends maker.old maker.new }
    ensures short { IfErr result (IsShort maker.new) }
{
    if width == node.width {
        return Ok(node);
    }
    maker.slice(node, low, width)
}

/// The nodes behind those that end at a bit or below it, and which bit of them it is.
fn skip(nodes: &[Node], low: u64) -> (&[Node], u64)
    ensures behind { IsBehind nodes.now low result.0.now result.1 }
    ensures first { IsInFirst result.0.now result.1 }
{
    let mut rest = nodes;
    let mut inside = low;
    while let Some((first, more)) = rest.split_first() {
        if inside < first.width {
            break;
        }
        inside -= first.width;
        rest = more;
    }
    (rest, inside)
}

/// Bits of nodes one above the other, from a bit of the first on, as one node.
fn bits(maker: &mut Maker, nodes: &[Node], low: u64, width: u64) -> Result<Node, Shortage>
    requires nodes { AreNodes maker.old nodes.now }
    requires some { 1 ≤ width }
    requires most { width ≤ 64 }
    requires first { IsInFirst nodes.now low }
    requires within { low + width ≤ bits_in nodes.now }
    ensures node { IfOk result (Makes maker.new width
        (λ g. word_of g nodes.now / 2 ^ low % 2 ^ width)) }
    ensures extends { Extends maker.old maker.new }
    ensures short { IfErr result (IsShort maker.new) }
{
    maker.know_all(nodes);
    let Some((first, more)) = nodes.split_first() else {
        unreachable!();
    };
    let own = first.width - low;
    if width <= own {
        return part(maker, *first, low, width);
    }
    let own_part = part(maker, *first, low, own)?;
    let above = bits(maker, more, 0, width - own)?;
    maker.concat(above, own_part)
}

/// Bits of nodes one above the other, from a bit on, as one node.
pub(crate) fn field(
    maker: &mut Maker,
    nodes: &[Node],
    low: u64,
    width: u64,
) -> Result<Node, Shortage>
    requires nodes { AreNodes maker.old nodes.now }
    requires some { 1 ≤ width }
    requires most { width ≤ 64 }
    requires within { low + width ≤ bits_in nodes.now }
    ensures node { IfOk result (Makes maker.new width
        (λ g. word_of g nodes.now / 2 ^ low % 2 ^ width)) }
    ensures extends { Extends maker.old maker.new }
    ensures short { IfErr result (IsShort maker.new) }
{
    let (rest, inside) = skip(nodes, low);
    bits(maker, rest, inside, width)
}

/// The word that `width` bits of nodes one above the other are, from the bit `low` on, in nodes of `size` bits each but for the
/// highest. Nothing is added for whole nodes.
pub fn cut(
    alloc: Global,
    maker: &mut Maker,
    nodes: &[Node],
    low: u64,
    width: u64,
    size: u64,
) -> Result<Vec<Node>, Shortage>
    requires nodes { AreNodes maker.old nodes.now }
    requires least { 1 ≤ size }
    requires most { size ≤ 64 }
    requires some { 1 ≤ width }
    requires within { low + width ≤ bits_in nodes.now }
    requires few { low + width < 2 ^ 63 }
    ensures word { IfOk result (λ rs. MakesWord maker.new width
        (λ g. word_of g nodes.now / 2 ^ low % 2 ^ width) rs.items) }
    ensures cut { IfOk result (λ rs. IsCut size (widths rs.items)) }
    ensures extends { Extends maker.old maker.new }
    ensures short { IfErr result (IsShort maker.new) }
{
    let mut out = Vec::new(alloc);
    let (mut rest, mut inside) = skip(nodes, low);
    let mut left = width;
    'cutting: while left > 0 {
        let taken = left.min(size);
        let node = bits(maker, rest, inside, taken)?;
        keep(&mut out, node)?;
        let (further, into) = skip(rest, inside + taken);
        rest = further;
        inside = into;
        left -= taken;
    }
    Ok(out)
}

/// How many bits nodes have together.
pub(crate) fn bits_of(nodes: &[Node]) -> u64
    requires { bits_in nodes.now < 2 ^ 63 }
    ensures { result ≡ bits_in nodes.now }
{
    let mut total = 0;
    for (i, node) in nodes.iter().enumerate() {
        let _place = i;
        total += node.width;
    }
    total
}
