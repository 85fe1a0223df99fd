//! A set of literals, in the order in which they came.
ghost use Rattle.std.specs.Prelude.{◌≡◌, ℕ, ◌<◌, ◌≤◌, ◌++◌, true, false, [], ◌∷◌, length, take, IfOk, slice_index, slice_index_or, slice_set};
ghost use Rattle.drup.specs.Marked.{set_of, AreMarked, ArePlaced};

use crate::fault::ClauseFault;
use std::alloc::Global;

/// A set of literals below a limit, in the order in which they came.
#[derive(Drop)]
pub struct Trail {
    marks: Vec<bool>,
    // the marked literals stand in the first places
    literals: Vec<u32>,
    count: usize,
}

impl std::marker::Model for Trail {
    ghost use Rattle.drup.specs.Marked.{Marked, marked_of, IsTrail};

    ghost Value = { Marked };

    ghost view = { marked_of };

    ghost invariant = { IsTrail };
}

impl Trail {
    /// The empty set of literals below a limit.
    pub fn new(alloc: Global, limit: usize) -> Result<Trail, ClauseFault>
        ensures { IfOk result (λ t. (length t.marks ≡ limit) × (t.order ≡ [])
            × ((l : ℕ) → set_of t l ≡ false)) }
    {
        let marks = vec![in alloc; false; limit]?;
        let literals = vec![in alloc; 0; limit]?;
        Ok(Trail {
            marks,
            literals,
            count: 0,
        })
    }

    /// Whether a literal is marked.
    pub fn has(&self, literal: u32) -> bool
        requires { literal < length self.now.marks }
        ensures { result ≡ set_of self.now literal }
    {
        self.marks[literal as usize]
    }

    /// For each literal below the limit, whether it is marked.
    #[inline]
    pub fn marks(&self) -> &[bool]
        ensures { result.now ≡ self.now.marks }
    {
        &self.marks
    }

    /// How many literals are marked.
    pub fn len(&self) -> usize
        ensures count { result ≡ length self.now.order }
        ensures within { result ≤ length self.now.marks }
        ensures marked { AreMarked self.now }
        ensures placed { ArePlaced self.now }
    {
        self.count
    }

    /// The literal that came at a place, from 0.
    pub fn at(&self, place: usize) -> u32
        requires { place < length self.now.order }
        ensures there { result ≡ slice_index self.now.order place }
        ensures inside { result < length self.now.marks }
        ensures marked { set_of self.now result ≡ true }
    {
        self.literals[place]
    }

    /// Marks a literal.
    pub fn push(&mut self, literal: u32)
        requires inside { literal < length self.old.marks }
        requires fresh { set_of self.old literal ≡ false }
        ensures { self.new
            ≡ record { marks = slice_set self.old.marks literal true; order = self.old.order ++ literal ∷ [] } }
    {
        self.marks[literal as usize] = true;
        self.literals[self.count] = literal;
        self.count += 1;
    }

    /// Takes back all marks but those that came first.
    pub fn undo(&mut self, kept: usize)
        requires { kept ≤ length self.old.order }
        ensures order { self.new.order ≡ take kept self.old.order }
        ensures as_many { length self.new.marks ≡ length self.old.marks }
        ensures marked { AreMarked self.new }
        ensures placed { ArePlaced self.new }
    {
        while self.count > kept {
            self.count -= 1;
            self.marks[self.literals[self.count] as usize] = false;
        }
    }
}
