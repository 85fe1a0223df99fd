//! Rows of values, kept in one list.
ghost use Rattle.std.specs.Prelude.{◌≡◌, ◌<◌, ◌≤◌, [], ◌∷◌, ◌++◌, length, map, Some, slice_get, slice_index, slice_range, IfOk, OnOk, OnErr};
ghost use Rattle.std.specs.List.{flat_map};

use std::alloc::{AllocError, Global};
use std::marker::Model;

/// Rows of values, one behind the other in one list, and where each of them ends: a row takes one word more than its
/// values.
///
/// Clauses see the list of the rows.
#[derive(Drop)]
pub struct Rows<T: Copy> {
    values: Vec<T>,
    // where each row ends in `values`
    ends: Vec<usize>,
}

impl<T: Copy> Model for Rows<T> {
    ghost use Rattle.std.specs.Prelude.{List, length};
    ghost use Rattle.base.specs.Rows.{rows_from, AreEnds};

    ghost Value = { List (List T) };

    ghost view = { λ r. rows_from 0 r.ends.items r.values.items };

    ghost invariant = { λ r. AreEnds 0 r.ends.items (length r.values.items) };
}

impl<T: Copy> Rows<T> {
    /// No rows. It takes no memory.
    pub fn new(alloc: Global) -> Rows<T>
        ensures { result ≡ [] }
    {
        Rows {
            values: Vec::new(alloc),
            ends: Vec::new(alloc),
        }
    }

    /// Adds a row behind the others, which may have no values. The error is want of memory, and the rows are unchanged then.
    pub fn push(&mut self, row: &[T]) -> Result<(), AllocError>
        ensures ok { OnOk result (self.new ≡ self.old ++ row.now ∷ []) }
        ensures err { OnErr result (self.new ≡ self.old) }
    {
        self.ends.reserve(1)?;
        self.values.extend_from_slice(row)?;
        match self.ends.push(self.values.len()) {
            Ok(()) => Ok(()),
            Err(_) => unreachable!(),
        }
    }

    /// How many rows there are.
    pub fn len(&self) -> usize
        ensures { result ≡ length self.now }
    {
        self.ends.len()
    }

    /// The row at a place, from 0.
    pub fn row(&self, place: usize) -> &[T]
        requires { place < length self.now }
        ensures { slice_get self.now place ≡ Some result.now }
    {
        let (start, end) = bounds(&self.ends, place);
        between(&self.values, start, end)
    }

    /// The values of all rows, one row behind the other.
    pub fn values(&self) -> &[T]
        ensures { result.now ≡ flat_map (λ row. row) self.now }
    {
        &self.values
    }

    /// Rows as long as these, of other values. The error is want of memory.
    pub fn with_values(&self, alloc: Global, values: Vec<T>) -> Result<Rows<T>, AllocError>
        requires { length values.items ≡ length (flat_map (λ row. row) self.now) }
        ensures values { IfOk result (λ r. flat_map (λ row. row) r ≡ values.items) }
        ensures lengths { IfOk result (λ r. map length r ≡ map length self.now) }
    {
        let ends = copied(alloc, &self.ends)?;
        Ok(Rows { values, ends })
    }

    /// The same rows again. The error is want of memory.
    pub fn copy(&self, alloc: Global) -> Result<Rows<T>, AllocError>
        ensures { IfOk result (λ r. r ≡ self.now) }
    {
        let values = copied(alloc, &self.values)?;
        self.with_values(alloc, values)
    }
}

/// Where the row at a place begins, which is where the one before it ends, and where it ends itself.
fn bounds(ends: &[usize], place: usize) -> (usize, usize)
    requires { place < length ends.now }
    ensures { result ≡ (slice_index (0 ∷ ends.now) place, slice_index ends.now place) }
{
    let start = if place == 0 { 0 } else { ends[place - 1] };
    (start, ends[place])
}

/// The values from a place up to another.
fn between<T: Copy>(values: &[T], start: usize, end: usize) -> &[T]
    requires order { start ≤ end }
    requires within { end ≤ length values.now }
    ensures { result.now ≡ slice_range values.now start end }
{
    &values[start..end]
}

/// The same values in a list of their own.
fn copied<T: Copy>(alloc: Global, values: &[T]) -> Result<Vec<T>, AllocError>
    ensures { IfOk result (λ v. v.items ≡ values.now) }
{
    let mut copy = Vec::with_capacity(alloc, values.len())?;
    copy.extend_from_slice(values)?;
    Ok(copy)
}
