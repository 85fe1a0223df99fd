//! Comparisons of words as signed numbers: as without a sign, but for the highest nodes.
ghost use Rattle.std.specs.Prelude.{◌≡◌, IfOk, IfErr};
ghost use Rattle.base.specs.declared.operators.Binary.TheVariants as binary;
ghost use Rattle.base.specs.Operator.{binary_value};
ghost use Rattle.pieces.specs.Kept.{IsShort};
ghost use Rattle.pieces.specs.Nodes.{word_of, bits_in, Extends, Makes};
ghost use Rattle.pieces.specs.Cuts.{IsWord};

use crate::maker::Maker;
use crate::node::Node;
use crate::order::of_difference;
use crate::shortage::Shortage;
use base::{Binary, Unary};
use std::alloc::Global;

/// Whether a word is less than another of its width, as signed numbers.
pub fn slt(alloc: Global, maker: &mut Maker, a: &[Node], b: &[Node]) -> Result<Node, Shortage>
    requires a { IsWord maker.old a.now }
    requires b { IsWord maker.old b.now }
    requires same { bits_in a.now ≡ bits_in b.now }
    ensures node { IfOk result (Makes maker.new 1
        (λ g. binary_value binary.Slt (bits_in a.now) (word_of g a.now) (word_of g b.now))) }
    ensures extends { Extends maker.old maker.new }
    ensures short { IfErr result (IsShort maker.new) }
{
    of_difference(alloc, maker, Binary::Slt, a, b)
}

/// Whether a word is greater than another of its width, as signed numbers.
pub fn sgt(alloc: Global, maker: &mut Maker, a: &[Node], b: &[Node]) -> Result<Node, Shortage>
    requires a { IsWord maker.old a.now }
    requires b { IsWord maker.old b.now }
    requires same { bits_in a.now ≡ bits_in b.now }
    ensures node { IfOk result (Makes maker.new 1
        (λ g. binary_value binary.Sgt (bits_in a.now) (word_of g a.now) (word_of g b.now))) }
    ensures extends { Extends maker.old maker.new }
    ensures short { IfErr result (IsShort maker.new) }
{
    slt(alloc, maker, b, a)
}

/// Whether a word is at most another of its width, as signed numbers.
pub fn slte(alloc: Global, maker: &mut Maker, a: &[Node], b: &[Node]) -> Result<Node, Shortage>
    requires a { IsWord maker.old a.now }
    requires b { IsWord maker.old b.now }
    requires same { bits_in a.now ≡ bits_in b.now }
    ensures node { IfOk result (Makes maker.new 1
        (λ g. binary_value binary.Slte (bits_in a.now) (word_of g a.now) (word_of g b.now))) }
    ensures extends { Extends maker.old maker.new }
    ensures short { IfErr result (IsShort maker.new) }
{
    let greater = slt(alloc, maker, b, a)?;
    maker.unary(Unary::Not, greater)
}

/// Whether a word is at least another of its width, as signed numbers.
pub fn sgte(alloc: Global, maker: &mut Maker, a: &[Node], b: &[Node]) -> Result<Node, Shortage>
    requires a { IsWord maker.old a.now }
    requires b { IsWord maker.old b.now }
    requires same { bits_in a.now ≡ bits_in b.now }
    ensures node { IfOk result (Makes maker.new 1
        (λ g. binary_value binary.Sgte (bits_in a.now) (word_of g a.now) (word_of g b.now))) }
    ensures extends { Extends maker.old maker.new }
    ensures short { IfErr result (IsShort maker.new) }
{
    let less = slt(alloc, maker, a, b)?;
    maker.unary(Unary::Not, less)
}
