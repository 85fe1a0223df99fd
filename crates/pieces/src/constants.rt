//! Words that are the same in each frame.
ghost use Rattle.std.specs.Prelude.{◌≡◌, ◌+◌, ◌*◌, ◌%◌, ◌^◌, ◌≤◌, ◌<◌, length, IfOk, IfErr};
ghost use Rattle.pieces.specs.Kept.{IsShort};
ghost use Rattle.pieces.specs.Nodes.{Extends, MakesWord};
ghost use Rattle.pieces.specs.Cuts.{widths, IsCut};
ghost use Rattle.pieces.specs.Constants.{digits_value, AreConstants};

use crate::cuts::{SIZE, keep};
use crate::maker::Maker;
use crate::node::Node;
use crate::shortage::Shortage;
use std::alloc::Global;

/// So many of the lowest bits of a digit.
fn low_bits(digit: u64, count: u64) -> u64
    requires { count ≤ 64 }
    ensures { result ≡ digit % 2 ^ count }
{
    if count >= 64 {
        return digit;
    }
    digit % (1 << count)
}

/// The word of a number by its digits of 64 bits each, the lowest first: as many of its lowest bits as the width says, in
/// constant nodes.
///
/// Condition: there are as many digits as nodes.
pub fn constant(
    alloc: Global,
    maker: &mut Maker,
    digits: &[u64],
    width: u64,
) -> Result<Vec<Node>, Shortage>
    requires enough { width ≤ 64 * length digits.now }
    requires few { 64 * length digits.now < width + 64 }
    ensures word { IfOk result (λ rs. MakesWord maker.new width
        (λ g. digits_value digits.now % 2 ^ width) rs.items) }
    ensures constants { IfOk result (λ rs. AreConstants maker.new rs.items) }
    ensures cut { IfOk result (λ rs. IsCut 64 (widths rs.items)) }
    ensures extends { Extends maker.old maker.new }
    ensures short { IfErr result (IsShort maker.new) }
{
    let mut out = Vec::new(alloc);
    let mut left = width;
    for k in 0..digits.len() {
        let taken = left.min(SIZE);
        let digit = low_bits(digits[k], taken);
        let node = maker.constant(taken, digit)?;
        keep(&mut out, node)?;
        left -= taken;
    }
    Ok(out)
}
