//! Equality of words, and reductions of a word to one bit.
ghost use Rattle.std.specs.Prelude.{◌≡◌, ℕ, IfOk, IfErr};
ghost use Rattle.base.specs.declared.operators.Unary.TheVariants as unary;
ghost use Rattle.base.specs.declared.operators.Binary.TheVariants as binary;
ghost use Rattle.base.specs.Operator.{unary_value, binary_value};
ghost use Rattle.pieces.specs.Kept.{IsShort};
ghost use Rattle.pieces.specs.Nodes.{word_of, bits_in, Extends, IsNode, Makes};
ghost use Rattle.pieces.specs.Cuts.{IsWord};
ghost use Rattle.pieces.specs.Tests.{test_value, join_of};

use crate::maker::Maker;
use crate::node::Node;
use crate::shortage::Shortage;
use base::{Binary, Unary};

/// What is asked of two words, node by node.
#[derive(Clone, Copy)]
pub(crate) enum Test {
    /// Whether they are the same.
    Same,
    /// Whether they differ.
    Other,
    /// Whether all bits of the first are 1.
    All,
    /// Whether some bit of the first is 1.
    Any,
    /// Whether an odd number of bits of the first is 1.
    Odd,
}

/// What joins the answers of the nodes.
fn join(by: Test) -> Binary
    ensures { result ≡ join_of by }
{
    match by {
        Test::Same | Test::All => Binary::And,
        Test::Other | Test::Any => Binary::Or,
        Test::Odd => Binary::Xor,
    }
}

/// The answer for two nodes.
fn answer(maker: &mut Maker, by: Test, a: Node, b: Node) -> Result<Node, Shortage>
    requires a { IsNode maker.old a }
    requires b { IsNode maker.old b }
    requires same { a.width ≡ b.width }
    ensures node { IfOk result (Makes maker.new 1
        (λ g. test_value by a.width (g a.id) (g b.id))) }
    ensures extends { Extends maker.old maker.new }
    ensures short { IfErr result (IsShort maker.new) }
{
    match by {
        Test::Same => maker.binary(Binary::Eq, a, b),
        Test::Other => maker.binary(Binary::Neq, a, b),
        Test::All => maker.unary(Unary::Redand, a),
        Test::Any => maker.unary(Unary::Redor, a),
        Test::Odd => maker.unary(Unary::Redxor, a),
    }
}

/// The answer for two words.
fn answers(maker: &mut Maker, by: Test, a: &[Node], b: &[Node]) -> Result<Node, Shortage>
    requires a { IsWord maker.old a.now }
    requires b { IsWord maker.old b.now }
    requires same { bits_in a.now ≡ bits_in b.now }
    ensures node { IfOk result (Makes maker.new 1
        (λ g. test_value by (bits_in a.now) (word_of g a.now) (word_of g b.now))) }
    ensures extends { Extends maker.old maker.new }
    ensures short { IfErr result (IsShort maker.new) }
{
    let mut result = answer(maker, by, a[0], b[0])?;
    for i in 1..a.len() {
        let next = answer(maker, by, a[i], b[i])?;
        let joined = maker.binary(join(by), result, next)?;
        result = joined;
    }
    Ok(result)
}

/// Whether two words of one width are the same.
pub fn eq(maker: &mut Maker, a: &[Node], b: &[Node]) -> Result<Node, Shortage>
    requires a { IsWord maker.old a.now }
    requires b { IsWord maker.old b.now }
    requires same { bits_in a.now ≡ bits_in b.now }
    ensures node { IfOk result (Makes maker.new 1
        (λ g. binary_value binary.Eq (bits_in a.now) (word_of g a.now) (word_of g b.now))) }
    ensures extends { Extends maker.old maker.new }
    ensures short { IfErr result (IsShort maker.new) }
{
    answers(maker, Test::Same, a, b)
}

/// Whether two words of one width differ.
pub fn neq(maker: &mut Maker, a: &[Node], b: &[Node]) -> Result<Node, Shortage>
    requires a { IsWord maker.old a.now }
    requires b { IsWord maker.old b.now }
    requires same { bits_in a.now ≡ bits_in b.now }
    ensures node { IfOk result (Makes maker.new 1
        (λ g. binary_value binary.Neq (bits_in a.now) (word_of g a.now) (word_of g b.now))) }
    ensures extends { Extends maker.old maker.new }
    ensures short { IfErr result (IsShort maker.new) }
{
    answers(maker, Test::Other, a, b)
}

/// Whether all bits of a word are 1.
pub fn redand(maker: &mut Maker, a: &[Node]) -> Result<Node, Shortage>
    requires a { IsWord maker.old a.now }
    ensures node { IfOk result (Makes maker.new 1
        (λ g. unary_value unary.Redand (bits_in a.now) (word_of g a.now))) }
    ensures extends { Extends maker.old maker.new }
    ensures short { IfErr result (IsShort maker.new) }
{
    answers(maker, Test::All, a, a)
}

/// Whether some bit of a word is 1.
pub fn redor(maker: &mut Maker, a: &[Node]) -> Result<Node, Shortage>
    requires a { IsWord maker.old a.now }
    ensures node { IfOk result (Makes maker.new 1
        (λ g. unary_value unary.Redor (bits_in a.now) (word_of g a.now))) }
    ensures extends { Extends maker.old maker.new }
    ensures short { IfErr result (IsShort maker.new) }
{
    answers(maker, Test::Any, a, a)
}

/// Whether an odd number of bits of a word is 1.
pub fn redxor(maker: &mut Maker, a: &[Node]) -> Result<Node, Shortage>
    requires a { IsWord maker.old a.now }
    ensures node { IfOk result (Makes maker.new 1
        (λ g. unary_value unary.Redxor (bits_in a.now) (word_of g a.now))) }
    ensures extends { Extends maker.old maker.new }
    ensures short { IfErr result (IsShort maker.new) }
{
    answers(maker, Test::Odd, a, a)
}
