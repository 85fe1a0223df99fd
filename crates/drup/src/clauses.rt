//! Clauses in one flat list of literals.
ghost use Rattle.std.specs.Prelude.{◌≡◌, ◌<◌, ◌++◌, ◌∷◌, [], IfOk, OnErr, length, slice_index_or, slice_set};

use crate::fault::ClauseFault;
use crate::passes::clause_between;
use std::alloc::Global;

/// The most literals that are held: the places of a clause's start and end have 32 bits.
const MOST_LITERALS: usize = 4294967295;

/// Where a clause starts and ends in the list.
#[derive(Clone, Copy)]
pub(crate) struct Stretch {
    start: u32,
    end: u32,
}

/// Clauses by their places, which they keep: one that is taken away is left without literals.
#[derive(Drop)]
pub struct Clauses {
    // the literals of all clauses, one clause after the other, and where each clause stands among them
    literals: Vec<u32>,
    stretches: Vec<Stretch>,
}

impl std::marker::Model for Clauses {
    ghost use Rattle.std.specs.Prelude.{List, ℕ};
    ghost use Rattle.drup.specs.Flat.{clauses_of, AreClauses};

    ghost Value = { List (List ℕ) };

    ghost view = { clauses_of };

    ghost invariant = { AreClauses };
}

impl Clauses {
    /// No clauses.
    pub fn new(alloc: Global) -> Clauses
        ensures { result ≡ [] }
    {
        Clauses {
            literals: Vec::new(alloc),
            stretches: Vec::new(alloc),
        }
    }

    /// How many there are, with those that were taken away.
    pub fn len(&self) -> usize
        ensures { result ≡ length self.now }
    {
        self.stretches.len()
    }

    /// How many literals are held, with those of clauses that were taken away.
    pub fn held(&self) -> usize {
        self.literals.len()
    }

    /// The clause at a place.
    #[inline]
    pub fn clause(&self, k: usize) -> &[u32]
        requires { k < length self.now }
        ensures { result.now ≡ slice_index_or self.now k [] }
    {
        let stretch = self.stretches[k];
        clause_between(&self.literals, stretch.start as usize, stretch.end as usize)
    }

    /// How many literals the clause at a place has.
    #[inline]
    pub fn len_of(&self, k: usize) -> usize
        requires { k < length self.now }
        ensures { result ≡ length (slice_index_or self.now k []) }
    {
        let stretch = self.stretches[k];
        (stretch.end - stretch.start) as usize
    }

    /// Puts a clause behind the others.
    pub fn push(&mut self, clause: &[u32]) -> Result<(), ClauseFault>
        ensures ok { IfOk result (λ _. self.new ≡ self.old ++ clause.now ∷ []) }
        ensures err { OnErr result (self.new ≡ self.old) }
    {
        self.stretches.reserve(1)?;
        let start = self.literals.len();
        if start > MOST_LITERALS || clause.len() > MOST_LITERALS - start {
            return Err(ClauseFault::NoMemory);
        }
        self.literals.extend_from_slice(clause)?;
        let end = self.literals.len();
        match self.stretches.push(Stretch {
            start: start as u32,
            end: end as u32,
        }) {
            Ok(_) => {}
            Err(_) => unreachable!(),
        }
        Ok(())
    }

    /// Takes the clause at a place away.
    pub fn take_away(&mut self, k: usize)
        requires { k < length self.old }
        ensures { self.new ≡ slice_set self.old k [] }
    {
        let start = self.stretches[k].start;
        self.stretches[k] = Stretch { start, end: start };
    }
}
