//! The words of a model's states, or of its inputs, and where their pieces stand.
ghost use Rattle.std.specs.Prelude.{◌≡◌, ℕ, ◌<◌, ◌^◌, List, length, flat_map, slice_index, IfOk};
ghost use Rattle.rejoin.specs.Pieces.{piece_count, cut_width, first_piece, owner};
ghost use Rattle.spread.specs.Words.{AreFirsts};

use std::alloc::{AllocError, Global};
use std::marker::Model;

/// How many pieces a word of so many bits has.
fn piece_count(width: u64) -> u64
    ensures { result ≡ piece_count width }
{
    width.div_ceil(64)
}

/// The indices of the lowest pieces of words of these widths.
fn firsts(alloc: Global, widths: &[u64]) -> Result<Vec<u64>, AllocError>
    requires { length (flat_map cut_width widths.now) < 2 ^ 64 }
    ensures { IfOk result (λ v. AreFirsts widths.now v.items) }
{
    let mut firsts = Vec::with_capacity(alloc, widths.len())?;
    let mut next = 0;
    for width in widths {
        firsts.push(next)?;
        next += piece_count(*width);
    }
    Ok(firsts)
}

/// The words of a model's states, or of its inputs: their widths in bits, and the index of the lowest piece of each.
///
/// Clauses see the widths.
#[derive(Drop)]
pub(crate) struct Words<'a> {
    widths: &'a [u64],
    firsts: Vec<u64>,
}

impl<'a> Model for Words<'a> {
    ghost use Rattle.std.specs.Prelude.{ℕ, ◌<◌, ◌^◌, List, length, flat_map};
    ghost use Rattle.rejoin.specs.Pieces.{cut_width};
    ghost use Rattle.spread.specs.Words.{AreFirsts};

    ghost Value = { List ℕ };

    ghost view = { λ w. w.widths.now };

    ghost invariant = { λ w. AreFirsts w.widths.now w.firsts.items × (length (flat_map cut_width w.widths.now) < 2 ^ 64) };
}

impl<'a> Words<'a> {
    /// Words of these widths, of which all pieces can be counted.
    pub(crate) fn new(alloc: Global, widths: &'a [u64]) -> Result<Words<'a>, AllocError>
        requires { length (flat_map cut_width widths.now) < 2 ^ 64 }
        ensures { IfOk result (λ words. words ≡ widths.now) }
    {
        let firsts = firsts(alloc, widths)?;
        Ok(Words { widths, firsts })
    }

    /// The widths.
    pub(crate) fn widths(&self) -> &[u64]
        ensures { result.now ≡ self.now }
    {
        self.widths
    }

    /// The index of the lowest piece of a word.
    pub(crate) fn first(&self, index: usize) -> u64
        requires { index < length self.now }
        ensures first { result ≡ first_piece self.now index }
        ensures few { length (flat_map cut_width self.now) < 2 ^ 64 }
    {
        self.firsts[index]
    }
}

/// The index of the word, of words of these widths, that a piece with an index is of.
pub(crate) fn owner(widths: &[u64], piece: u64) -> u64
    ensures { result ≡ owner widths.now piece }
{
    let mut left = piece;
    let mut index = 0;
    for width in widths {
        let count = piece_count(*width);
        if left < count {
            return index;
        }
        left -= count;
        index += 1;
    }
    index
}
