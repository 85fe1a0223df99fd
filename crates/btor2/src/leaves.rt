//! The leaves of a model, by what their words are in its frames.
ghost use Rattle.std.specs.Prelude.{◌≡◌, ◌<◌, ◌≤◌, ◌^◌, length, slice_index};
ghost use Rattle.btor2.specs.Lists.{places};
ghost use Rattle.btor2.specs.Leaves.{list_of, kind_of, is_leaf_at, leaf_width, kind_width};

use crate::model::Model;

/// The leaves of a model of one kind, in file order. The words of inputs and of free states are given in each frame, and
/// those of the other states are carried from frame to frame.
#[derive(Clone, Copy)]
pub enum Leaves {
    /// All inputs.
    Inputs,
    /// The states with neither an init line nor a next line.
    Free,
    /// The other states.
    Carried,
}

impl Leaves {
    /// The positions of the items among which the leaves are, in file order: of the inputs, or of all states.
    pub fn places(self, model: &Model) -> &[usize]
        ensures { result.now ≡ places (list_of self) 0 model.now }
    {
        match self {
            Leaves::Inputs => model.inputs(),
            Leaves::Free | Leaves::Carried => model.states(),
        }
    }

    /// Whether the item at a position of `places` is one of the leaves; `k` counts that list.
    ///
    /// Condition: `k` is below the length of that list.
    pub fn has(self, model: &Model, k: usize) -> bool
        requires { k < length (places (list_of self) 0 model.now) }
        ensures { result ≡ is_leaf_at model.now self
            (slice_index (places (list_of self) 0 model.now) k) }
    {
        match self {
            Leaves::Inputs => true,
            Leaves::Free => model.is_free(k),
            Leaves::Carried => !model.is_free(k),
        }
    }

    /// How many bits the word of a leaf has: 0 where the item at a position of `places` is none; `k` counts that list.
    ///
    /// Condition: `k` is below the length of that list.
    pub fn width(self, model: &Model, k: usize) -> u64
        requires { k < length (places (list_of self) 0 model.now) }
        ensures value { result ≡ leaf_width model.now self
            (slice_index (places (list_of self) 0 model.now) k) }
        ensures most { result ≤ 64 }
    {
        if self.has(model, k) {
            match model.width_of(self.places(model)[k]) {
                Some(width) => width.bits(),
                None => 0,
            }
        } else {
            0
        }
    }

    /// How many bits the words of all the leaves have together.
    pub fn bits(self, model: &Model) -> u64
        ensures value { result ≡ kind_width model.now (kind_of model.now self) model.now }
        ensures small { result < 2 ^ 39 }
    {
        let _items = model.items();
        let mut total = 0;
        for k in 0..self.places(model).len() {
            total += self.width(model, k);
        }
        total
    }
}
