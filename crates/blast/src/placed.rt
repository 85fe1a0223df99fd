//! Rows that take no gate: the literals of constants, and those of operands, placed.
ghost use Rattle.std.specs.Prelude.{◌≡◌, ◌==◌, ◌+◌, ◌-◌, ◌<◌, ◌≤◌, ◌++◌, length, map, take, drop, replicate, slice_get, slice_index, Some};
ghost use Rattle.base.specs.Word.{bit, bits};
ghost use Rattle.btor2.specs.Check.{IsWellFormed};
ghost use Rattle.btor2.specs.Lists.{constant_at};
ghost use Rattle.btor2.specs.Trace.{bits_of};
ghost use Rattle.blast.specs.Rows.{bit_literal, word_literals};

use crate::items::bit_count;
use aiger::Lit;
use btor2::{Item, Model};
use gates::Bits;

/// A row, copied.
fn copy_bits(row: &[Lit]) -> Bits
    requires { length row.now ≤ 64 }
    ensures { result.items ≡ row.now }
{
    let mut bits = Bits::new();
    match bits.try_extend_from_slice(row) {
        Ok(()) => bits,
        Err(_) => unreachable!(),
    }
}

/// The literal of a bit of a word.
fn bit_of(word: u64, i: u64) -> Lit
    requires { i < 64 }
    ensures { result ≡ bit_literal (bit word i == 1) }
{
    if (word >> i) % 2 == 1 {
        Lit::TRUE
    } else {
        Lit::FALSE
    }
}

/// The literals of the bits of a word.
fn word_bits(word: u64, width: u64) -> Bits
    requires { width ≤ 64 }
    ensures { result.items ≡ map bit_literal (bits width word) }
{
    let mut row = Bits::new();
    for i in 0..width {
        row.push(bit_of(word, i));
    }
    row
}

/// The row of a constant: the bits of its word. That of a line without a value is empty.
pub(crate) fn constant_row(model: &Model, place: usize, item: &Item) -> Bits
    requires well_formed { IsWellFormed model.now }
    requires at { slice_get model.now place ≡ Some item.now }
    ensures { result.items ≡ word_literals (bits_of model.now item.now.id)
        (constant_at model.now place) }
{
    match model.constant(place) {
        Some(word) => word_bits(word, bit_count(model, place, item)),
        None => Bits::new(),
    }
}

/// A row, and above it one literal so many times.
fn extended(row: &[Lit], above: Lit, by: u64) -> Bits
    requires { length row.now + by ≤ 64 }
    ensures { result.items ≡ row.now ++ replicate by above }
{
    let mut bits = copy_bits(row);
    for _ in 0..by {
        bits.push(above);
    }
    bits
}

/// The row of a word made wider by zeros.
pub(crate) fn uext_row(row: &[Lit], by: u64) -> Bits
    requires { length row.now + by ≤ 64 }
    ensures { result.items ≡ row.now ++ replicate by 0 }
{
    extended(row, Lit::FALSE, by)
}

/// The row of a word made wider by its sign.
pub(crate) fn sext_row(row: &[Lit], by: u64) -> Bits
    requires some { 1 ≤ length row.now }
    requires room { length row.now + by ≤ 64 }
    ensures { result.items ≡ row.now ++ replicate by (slice_index row.now (length row.now - 1)) }
{
    extended(row, row[row.len() - 1], by)
}

/// The row of the bits `upper` down to `lower` of a word, both included.
pub(crate) fn slice_row(row: &[Lit], upper: u32, lower: u32) -> Bits
    requires order { lower ≤ upper }
    requires within { upper < length row.now }
    requires few { length row.now ≤ 64 }
    ensures { result.items ≡ take (upper - lower + 1) (drop lower row.now) }
{
    copy_bits(&row[lower as usize..upper as usize + 1])
}

/// The row of a word before another.
pub(crate) fn concat_row(high: &[Lit], low: &[Lit]) -> Bits
    requires { length low.now + length high.now ≤ 64 }
    ensures { result.items ≡ low.now ++ high.now }
{
    let mut bits = copy_bits(low);
    match bits.try_extend_from_slice(high) {
        Ok(()) => bits,
        Err(_) => unreachable!(),
    }
}
