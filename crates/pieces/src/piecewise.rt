//! Operators that go node by node.
ghost use Rattle.std.specs.Prelude.{◌≡◌, ℕ, ◌<◌, length, true, IfOk, IfErr, get_or};
ghost use Rattle.base.specs.declared.operators.Unary.TheVariants as unary;
ghost use Rattle.base.specs.Operator.{unary_value, binary_value, ite_value};
ghost use Rattle.pieces.specs.Kept.{IsShort};
ghost use Rattle.pieces.specs.Nodes.{word_of, bits_in, Extends, IsNode, Makes, MakesWord};
ghost use Rattle.pieces.specs.Cuts.{widths, IsCut, IsWord};
ghost use Rattle.pieces.specs.Piecewise.{is_bitwise, IsEach, piece_value};

use crate::cuts::keep;
use crate::maker::Maker;
use crate::node::Node;
use crate::shortage::Shortage;
use base::{Binary, Unary};
use std::alloc::Global;

/// What goes node by node, of two words.
#[derive(Clone, Copy)]
pub(crate) enum Each {
    /// The first word, negated.
    Not,
    /// A bitwise operator.
    Bitwise(Binary),
    /// The first word where the node, of one bit, is 1, else the second.
    Choice(Node),
}

/// The node for two nodes.
fn piece(maker: &mut Maker, by: Each, a: Node, b: Node) -> Result<Node, Shortage>
    requires by { IsEach maker.old by }
    requires a { IsNode maker.old a }
    requires b { IsNode maker.old b }
    requires same { a.width ≡ b.width }
    ensures node { IfOk result (Makes maker.new a.width
        (λ g. piece_value g by a.width (g a.id) (g b.id))) }
    ensures extends { Extends maker.old maker.new }
    ensures short { IfErr result (IsShort maker.new) }
{
    match by {
        Each::Not => maker.unary(Unary::Not, a),
        Each::Bitwise(operator) => maker.binary(operator, a, b),
        Each::Choice(condition) => maker.ite(condition, a, b),
    }
}

/// The word for two words, node by node.
fn node_by_node(
    alloc: Global,
    maker: &mut Maker,
    by: Each,
    a: &[Node],
    b: &[Node],
) -> Result<Vec<Node>, Shortage>
    requires by { IsEach maker.old by }
    requires a { IsWord maker.old a.now }
    requires b { IsWord maker.old b.now }
    requires same { bits_in a.now ≡ bits_in b.now }
    ensures word { IfOk result (λ rs. MakesWord maker.new (bits_in a.now)
        (λ g. piece_value g by (bits_in a.now) (word_of g a.now) (word_of g b.now)) rs.items) }
    ensures cut { IfOk result (λ rs. IsCut 64 (widths rs.items)) }
    ensures extends { Extends maker.old maker.new }
    ensures short { IfErr result (IsShort maker.new) }
{
    let mut out = Vec::new(alloc);
    for (i, first) in a.iter().enumerate() {
        let node = piece(maker, by, *first, b[i])?;
        keep(&mut out, node)?;
    }
    Ok(out)
}

/// The bits of a word negated.
pub fn not(alloc: Global, maker: &mut Maker, a: &[Node]) -> Result<Vec<Node>, Shortage>
    requires a { IsWord maker.old a.now }
    ensures word { IfOk result (λ rs. MakesWord maker.new (bits_in a.now)
        (λ g. unary_value unary.Not (bits_in a.now) (word_of g a.now)) rs.items) }
    ensures cut { IfOk result (λ rs. IsCut 64 (widths rs.items)) }
    ensures extends { Extends maker.old maker.new }
    ensures short { IfErr result (IsShort maker.new) }
{
    node_by_node(alloc, maker, Each::Not, a, a)
}

/// And, or, exclusive or and their negations, of two words of one width.
pub fn bitwise(
    alloc: Global,
    maker: &mut Maker,
    operator: Binary,
    a: &[Node],
    b: &[Node],
) -> Result<Vec<Node>, Shortage>
    requires operator { is_bitwise operator ≡ true }
    requires a { IsWord maker.old a.now }
    requires b { IsWord maker.old b.now }
    requires same { bits_in a.now ≡ bits_in b.now }
    ensures word { IfOk result (λ rs. MakesWord maker.new (bits_in a.now)
        (λ g. binary_value operator (bits_in a.now) (word_of g a.now) (word_of g b.now)) rs.items) }
    ensures cut { IfOk result (λ rs. IsCut 64 (widths rs.items)) }
    ensures extends { Extends maker.old maker.new }
    ensures short { IfErr result (IsShort maker.new) }
{
    node_by_node(alloc, maker, Each::Bitwise(operator), a, b)
}

/// The first word where the condition, of one bit, is 1, else the second.
pub fn choice(
    alloc: Global,
    maker: &mut Maker,
    condition: Node,
    first: &[Node],
    second: &[Node],
) -> Result<Vec<Node>, Shortage>
    requires condition { IsNode maker.old condition }
    requires bit { condition.width ≡ 1 }
    requires first { IsWord maker.old first.now }
    requires second { IsWord maker.old second.now }
    requires same { bits_in first.now ≡ bits_in second.now }
    ensures word { IfOk result (λ rs. MakesWord maker.new (bits_in first.now)
        (λ g. ite_value (g condition.id) (word_of g first.now) (word_of g second.now)) rs.items) }
    ensures cut { IfOk result (λ rs. IsCut 64 (widths rs.items)) }
    ensures extends { Extends maker.old maker.new }
    ensures short { IfErr result (IsShort maker.new) }
{
    node_by_node(alloc, maker, Each::Choice(condition), first, second)
}
