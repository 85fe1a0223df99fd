//! The words of the lines of operators.
ghost use Rattle.std.specs.Prelude.{◌≡◌, IfOk, IfErr};
ghost use Rattle.pieces.specs.Kept.{IsShort};
ghost use Rattle.pieces.specs.Nodes.{word_of, bits_in, Extends, IsNode, MakesWord};
ghost use Rattle.pieces.specs.Cuts.{widths, IsCut, IsWord};
ghost use Rattle.base.specs.Operator.{ite_value};
ghost use Rattle.fitting.specs.Forms.{IsReady, form_width, form_value};
ghost use Rattle.fitting.specs.Fitters.{word_at};

use crate::operators::{binary, unary};
use crate::words::Words;
use btor2::Body;
use pieces::{Maker, Node, Shortage};
use std::alloc::Global;

/// The first word where the condition, of one bit, is 1, else the second.
fn choice(
    alloc: Global,
    maker: &mut Maker,
    condition: &[Node],
    first: &[Node],
    second: &[Node],
) -> Result<Vec<Node>, Shortage>
    requires condition { IsWord maker.old condition.now }
    requires bit { bits_in condition.now ≡ 1 }
    requires first { IsWord maker.old first.now }
    requires second { IsWord maker.old second.now }
    requires same { bits_in first.now ≡ bits_in second.now }
    ensures word { IfOk result (λ rs. MakesWord maker.new (bits_in first.now)
        (λ g. ite_value (word_of g condition.now) (word_of g first.now) (word_of g second.now)) rs.items) }
    ensures cut { IfOk result (λ rs. IsCut 64 (widths rs.items)) }
    ensures extends { Extends maker.old maker.new }
    ensures short { IfErr result (IsShort maker.new) }
{
    pieces::choice(alloc, maker, condition[0], first, second)
}

/// The word of the line of an operator.
pub(crate) fn operator_word(
    alloc: Global,
    maker: &mut Maker,
    words: &Words,
    body: &Body,
) -> Result<Vec<Node>, Shortage>
    requires ready { IsReady maker.old (word_at words.now) body.now }
    ensures word { IfOk result (λ rs. MakesWord maker.new (form_width (word_at words.now) body.now)
        (form_value (word_at words.now) body.now) rs.items) }
    ensures cut { IfOk result (λ rs. IsCut 64 (widths rs.items)) }
    ensures extends { Extends maker.old maker.new }
    ensures short { IfErr result (IsShort maker.new) }
{
    match body {
        Body::Uext { operand, by, .. } => pieces::uext(alloc, maker, words.get(*operand), *by),
        Body::Sext { operand, by, .. } => pieces::sext(alloc, maker, words.get(*operand), *by),
        Body::Slice {
            operand,
            upper,
            lower,
            ..
        } => pieces::slice(
            alloc,
            maker,
            words.get(*operand),
            u64::from(*upper),
            u64::from(*lower),
        ),
        Body::Unary {
            operator,
            operand,
            ..
        } => unary(alloc, maker, *operator, words.get(*operand)),
        Body::Binary {
            operator,
            left,
            right,
            ..
        } => binary(alloc, maker, *operator, words.get(*left), words.get(*right)),
        Body::Concat { high, low, .. } => {
            pieces::concat(alloc, maker, words.get(*high), words.get(*low))
        }
        Body::Ite {
            condition,
            first,
            second,
            ..
        } => choice(
            alloc,
            maker,
            words.get(*condition),
            words.get(*first),
            words.get(*second),
        ),
        Body::Sort { .. }
        | Body::Input { .. }
        | Body::State { .. }
        | Body::Zero { .. }
        | Body::One { .. }
        | Body::Ones { .. }
        | Body::Const { .. }
        | Body::Constd { .. }
        | Body::Consth { .. }
        | Body::Init { .. }
        | Body::Next { .. }
        | Body::Bad { .. }
        | Body::Constraint { .. }
        | Body::Fair { .. }
        | Body::Output { .. }
        | Body::Justice { .. } => unreachable!(),
    }
}
