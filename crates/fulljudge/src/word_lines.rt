//! Lines that tell values, as lines of the words by which values are told.
ghost use Rattle.std.specs.Prelude.{◌≡◌, ℕ, ◌+◌, ◌<◌, ◌^◌, List, Option, [], ◌++◌, None, Some, decimal, OnOk, MatchOption};
ghost use Rattle.fullmodel.specs.Lines.{sort_value};
ghost use Rattle.witness.specs.Texts.{symbol_part};
ghost use Rattle.fulljudge.specs.Shapes.{word_count};
ghost use Rattle.fulljudge.specs.Lines.{cell_line, value_line, word_line};

use crate::addresses::{address, front_and_tail};
use crate::values::{Value, Values};
use base::decimal;
use fullmodel::Sort;
use itoa::Buffer;
use std::alloc::AllocError;

/// Behind the index of an array, the word of the cell that is named there, and what stands behind its address. The array's first
/// word has this index, and its indices have so many bits.
fn cell<'t>(first: u64, index_bits: u64, tail: &'t [u8]) -> Option<(u64, &'t [u8])>
    requires { first + 2 ^ index_bits < 2 ^ 64 }
    ensures { (rest : Option (List ℕ)) → tail.now ≡ symbol_part rest
        → MatchOption result (cell_line first index_bits rest ≡ [])
        (λ w. cell_line first index_bits rest ≡ decimal w.0 ++ w.1.now) }
{
    let [_, behind @ ..] = tail else {
        return None;
    };
    let (token, name) = front_and_tail(behind);
    match address(index_bits, token) {
        Some(cell) => Some((first + cell, name)),
        None => None,
    }
}

/// Behind the index of a value, the word that is named there, and what stands behind that.
fn word_of_value<'t>(value: Value, tail: &'t [u8]) -> Option<(u64, &'t [u8])>
    requires { value.first + word_count (sort_value value.sort) < 2 ^ 64 }
    ensures { (rest : Option (List ℕ)) → tail.now ≡ symbol_part rest
        → MatchOption result (value_line value.first (Some (sort_value value.sort)) rest ≡ [])
        (λ w. value_line value.first (Some (sort_value value.sort)) rest ≡ decimal w.0 ++ w.1.now) }
{
    match value.sort {
        Sort::Words(_) => Some((value.first, tail)),
        Sort::Arrays { index, .. } => cell(value.first, index, tail),
    }
}

/// Puts the decimal of a number behind some bytes, and others behind it.
fn put_line(out: &mut Vec<u8>, number: u64, tail: &[u8]) -> Result<(), AllocError>
    ensures { OnOk result (out.new.items ≡ out.old.items ++ (decimal number ++ tail.now)) }
{
    let mut buffer = Buffer::new();
    out.extend_from_slice(buffer.format(number).as_bytes())?;
    out.extend_from_slice(tail)?;
    Ok(())
}

impl Values {
    /// The index of the word that a line of a value names, and what stands behind it in the line of the word.
    fn word<'t>(&self, line: &'t [u8]) -> Option<(u64, &'t [u8])>
        ensures { MatchOption result (word_line self.now line.now ≡ [])
            (λ w. word_line self.now line.now ≡ decimal w.0 ++ w.1.now) }
    {
        let (front, tail) = front_and_tail(line);
        let Some(index) = decimal(front) else {
            return None;
        };
        match self.value(index) {
            Some(value) => word_of_value(value, tail),
            None => None,
        }
    }

    /// Makes of a line that tells a value the line of one of the words by which values are told: `1 [10] 01` is the line of the word
    /// of a cell. Where the line names no value, or no cell of it, the line of the word is empty. What `out` held before is gone.
    ///
    /// Error: a growth was refused.
    pub fn word_line(&self, line: &[u8], out: &mut Vec<u8>) -> Result<(), AllocError>
        ensures { OnOk result (out.new.items ≡ word_line self.now line.now) }
    {
        out.clear();
        match self.word(line) {
            Some((number, tail)) => put_line(out, number, tail),
            None => Ok(()),
        }
    }
}
