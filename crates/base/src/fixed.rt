//! Lists whose number of values is set when they are made.
ghost use Rattle.std.specs.Prelude.{◌≡◌, ◌<◌, length, slice_index_or};
ghost use Rattle.std.specs.Borrow.{sem};

use std::marker::Model;
use std::ops::{DerefSlice, DerefSliceMut, Index, IndexMut};

/// So many values. They can be read and written, and there are as many as when it was made: nothing in it grows, and
/// nothing that it gives out can take memory.
#[derive(Drop)]
pub struct Fixed<T> {
    items: Vec<T>,
}

impl<T> Model for Fixed<T> {
    ghost use Rattle.std.specs.Prelude.{List};

    ghost Value = { List T };

    ghost view = { λ f. f.items.items };
}

impl<T> Fixed<T> {
    ghost use Rattle.base.specs.Fixed.{lends_values};

    /// The values of a vector, in its own memory.
    pub fn new(items: Vec<T>) -> Fixed<T>
        ensures { result ≡ items.items }
    {
        Fixed { items }
    }

    /// How many there are.
    #[inline(always)]
    pub fn len(&self) -> usize
        ensures { result ≡ length self.now }
    {
        self.items.len()
    }

    /// The values.
    #[inline(always)]
    pub fn as_slice(&self) -> &[T]
        ensures value { result.now ≡ self.now }
    {
        self.items.as_slice()
    }

    /// The values, for writing.
    #[inline(always)]
    pub fn as_mut_slice(&mut self) -> &mut [T]
        ensures* writes_back { sem 𝓛 (lends_values T.row self.entry result) }
        ensures value { result.now ≡ self.old }
    {
        self.items.as_mut_slice()
    }
}

impl<T> DerefSlice for Fixed<T> {
    type Elem = T;

    ghost deref_gives = { λ f xs. xs ≡ f };

    #[inline(always)]
    fn deref(&self) -> &[T] {
        self.items.as_slice()
    }
}

impl<T> DerefSliceMut for Fixed<T> {
    ghost use Rattle.base.specs.Fixed.{lends_values};

    #[inline(always)]
    fn deref_mut(&mut self) -> &mut [T]
        ensures* writes_back { sem 𝓛 (lends_values T.row self.entry result) }
        ensures value { result.now ≡ self.old }
    {
        self.items.as_mut_slice()
    }
}

impl<T> Index<usize> for Fixed<T> {
    type Output = T;

    ghost use Rattle.std.specs.Prelude.{◌<◌, length, slice_index_or};

    ghost can_index = { λ f i. i < length f };

    ghost index_gives = { λ f i x. x ≡ slice_index_or f i x };

    #[inline(always)]
    fn index(&self, index: usize) -> &T {
        &self.items[index]
    }
}

impl<T> IndexMut<usize> for Fixed<T> {
    ghost use Rattle.base.specs.Fixed.{lends_value};

    #[inline(always)]
    fn index_mut(&mut self, index: usize) -> &mut T
        requires { index < length self.old }
        ensures* writes_back { sem 𝓛 (lends_value T.row self.entry index result) }
        ensures value { result.now ≡ slice_index_or self.old index result.now }
    {
        &mut self.items[index]
    }
}
