//! Clauses that stay, in one flat list of literals.
ghost use Rattle.std.specs.Prelude.{◌≡◌, ◌<◌, ◌++◌, ◌∷◌, [], IfOk, OnErr, length, slice_index_or};
ghost use Rattle.drup.specs.ClauseLists.{start_at, literal_count};

use crate::fault::ClauseFault;
use crate::passes::clause_between;
use std::alloc::Global;

/// Where the clause at a place starts: at the end of the one before.
fn start_of(ends: &[usize], k: usize) -> usize
    requires { k < length ends.now }
    ensures { result ≡ start_at ends.now k }
{
    if k == 0 { 0 } else { ends[k - 1] }
}

/// Clauses by their places, of which none is taken away.
#[derive(Drop)]
pub(crate) struct ClauseList {
    // the literals of all clauses, one clause after the other, and where each clause ends
    literals: Vec<u32>,
    ends: Vec<usize>,
}

impl std::marker::Model for ClauseList {
    ghost use Rattle.std.specs.Prelude.{List, ℕ};
    ghost use Rattle.drup.specs.ClauseLists.{listed, IsClauseList};

    ghost Value = { List (List ℕ) };

    ghost view = { listed };

    ghost invariant = { IsClauseList };
}

impl ClauseList {
    /// No clauses. It takes no memory.
    pub(crate) fn new(alloc: Global) -> ClauseList
        ensures { result ≡ [] }
    {
        ClauseList {
            literals: Vec::new(alloc),
            ends: Vec::new(alloc),
        }
    }

    /// How many there are.
    pub(crate) fn len(&self) -> usize
        ensures { result ≡ length self.now }
    {
        self.ends.len()
    }

    /// How many literals they have together.
    pub(crate) fn size(&self) -> usize
        ensures { result ≡ literal_count self.now }
    {
        self.literals.len()
    }

    /// The clause at a place.
    #[inline]
    pub(crate) fn clause(&self, k: usize) -> &[u32]
        requires { k < length self.now }
        ensures { result.now ≡ slice_index_or self.now k [] }
    {
        clause_between(&self.literals, start_of(&self.ends, k), self.ends[k])
    }

    /// Puts a clause behind the others.
    pub(crate) fn push(&mut self, clause: &[u32]) -> Result<(), ClauseFault>
        ensures ok { IfOk result (λ _. self.new ≡ self.old ++ clause.now ∷ []) }
        ensures err { OnErr result (self.new ≡ self.old) }
    {
        self.ends.reserve(1)?;
        self.literals.extend_from_slice(clause)?;
        match self.ends.push(self.literals.len()) {
            Ok(()) => Ok(()),
            Err(_) => unreachable!(),
        }
    }
}
