//! Words that are moved by an amount that is known.
ghost use Rattle.std.specs.Prelude.{◌≡◌, ◌≤◌, ◌<◌, ◌^◌, IfOk, IfErr};
ghost use Rattle.base.specs.Operator.{concat_value};
ghost use Rattle.pieces.specs.Kept.{IsShort};
ghost use Rattle.pieces.specs.Nodes.{word_of, bits_in, AreNodes, Extends, MakesWord};
ghost use Rattle.pieces.specs.Cuts.{widths, IsCut, IsWord};
ghost use Rattle.pieces.specs.Moves.{moved_value, entering_value, low_bits, low_value, high_bits, high_value};

use crate::cuts::{SIZE, bits_of, cut, field};
use crate::joins::{fill, stacked};
use crate::maker::Maker;
use crate::node::Node;
use crate::shortage::Shortage;
use std::alloc::Global;

/// How bits of a word move.
#[derive(Clone, Copy)]
pub(crate) enum Move {
    /// To the left, zeros moving in.
    Left,
    /// To the right, zeros moving in.
    Right,
    /// To the right, the highest bit moving in.
    Signed,
    /// To the left, what moves out moving in.
    TurnLeft,
    /// To the right, what moves out moving in.
    TurnRight,
}

/// What moves in, in so many places.
pub(crate) fn entering(
    alloc: Global,
    maker: &mut Maker,
    by: Move,
    a: &[Node],
    width: u64,
    places: u64,
) -> Result<Vec<Node>, Shortage>
    requires a { AreNodes maker.old a.now }
    requires wide { bits_in a.now ≡ width }
    requires some { 1 ≤ width }
    ensures word { IfOk result (λ rs. MakesWord maker.new places
        (λ g. entering_value by width (word_of g a.now) places) rs.items) }
    ensures extends { Extends maker.old maker.new }
    ensures short { IfErr result (IsShort maker.new) }
{
    match by {
        Move::Signed => {
            let sign = field(maker, a, width - 1, 1)?;
            fill(alloc, maker, Some(sign), places)
        }
        Move::Left | Move::Right | Move::TurnLeft | Move::TurnRight => fill(
            alloc, maker, None, places,
        ),
    }
}

/// The low part of a word that is moved by an amount below its width.
fn low_part(
    alloc: Global,
    maker: &mut Maker,
    by: Move,
    a: &[Node],
    width: u64,
    amount: u64,
) -> Result<Vec<Node>, Shortage>
    requires a { AreNodes maker.old a.now }
    requires wide { bits_in a.now ≡ width }
    requires few { width < 2 ^ 63 }
    requires some { 1 ≤ amount }
    requires less { amount < width }
    ensures word { IfOk result (λ rs. MakesWord maker.new (low_bits by width amount)
        (λ g. low_value by width (word_of g a.now) amount) rs.items) }
    ensures extends { Extends maker.old maker.new }
    ensures short { IfErr result (IsShort maker.new) }
{
    match by {
        Move::Left => fill(alloc, maker, None, amount),
        Move::TurnLeft => cut(alloc, maker, a, width - amount, amount, SIZE),
        Move::Right | Move::Signed | Move::TurnRight => cut(
            alloc,
            maker,
            a,
            amount,
            width - amount,
            SIZE,
        ),
    }
}

/// The high part.
fn high_part(
    alloc: Global,
    maker: &mut Maker,
    by: Move,
    a: &[Node],
    width: u64,
    amount: u64,
) -> Result<Vec<Node>, Shortage>
    requires a { AreNodes maker.old a.now }
    requires wide { bits_in a.now ≡ width }
    requires few { width < 2 ^ 63 }
    requires some { 1 ≤ amount }
    requires less { amount < width }
    ensures word { IfOk result (λ rs. MakesWord maker.new (high_bits by width amount)
        (λ g. high_value by width (word_of g a.now) amount) rs.items) }
    ensures extends { Extends maker.old maker.new }
    ensures short { IfErr result (IsShort maker.new) }
{
    match by {
        Move::Left | Move::TurnLeft => cut(alloc, maker, a, 0, width - amount, SIZE),
        Move::Right | Move::Signed => entering(alloc, maker, by, a, width, amount),
        Move::TurnRight => cut(alloc, maker, a, 0, amount, SIZE),
    }
}

/// The high part before a low part that is had already.
fn moved_above(
    alloc: Global,
    maker: &mut Maker,
    by: Move,
    a: &[Node],
    width: u64,
    amount: u64,
    low: &[Node],
) -> Result<Vec<Node>, Shortage>
    requires a { AreNodes maker.old a.now }
    requires wide { bits_in a.now ≡ width }
    requires few { width < 2 ^ 63 }
    requires some { 1 ≤ amount }
    requires less { amount < width }
    requires low { AreNodes maker.old low.now }
    requires low_wide { bits_in low.now ≡ low_bits by width amount }
    ensures word { IfOk result (λ rs. MakesWord maker.new width (λ g. concat_value
        (high_value by width (word_of g a.now) amount) (bits_in low.now) (word_of g low.now))
        rs.items) }
    ensures cut { IfOk result (λ rs. IsCut 64 (widths rs.items)) }
    ensures extends { Extends maker.old maker.new }
    ensures short { IfErr result (IsShort maker.new) }
{
    let high = high_part(alloc, maker, by, a, width, amount)?;
    stacked(alloc, maker, low, &high, width)
}

/// A word that is moved by an amount from 1 to its width less one.
pub(crate) fn moved(
    alloc: Global,
    maker: &mut Maker,
    by: Move,
    a: &[Node],
    amount: u64,
) -> Result<Vec<Node>, Shortage>
    requires a { IsWord maker.old a.now }
    requires some { 1 ≤ amount }
    requires less { amount < bits_in a.now }
    ensures word { IfOk result (λ rs. MakesWord maker.new (bits_in a.now)
        (λ g. moved_value by (bits_in a.now) (word_of g a.now) amount) rs.items) }
    ensures cut { IfOk result (λ rs. IsCut 64 (widths rs.items)) }
    ensures extends { Extends maker.old maker.new }
    ensures short { IfErr result (IsShort maker.new) }
{
    let width = bits_of(a);
    let low = low_part(alloc, maker, by, a, width, amount)?;
    moved_above(alloc, maker, by, a, width, amount, &low)
}
