//! Clauses that stay, in blocks that are given back one by one.
ghost use Rattle.std.specs.Prelude.{◌≡◌, ◌<◌, ◌≤◌, ◌++◌, ◌∷◌, [], IfOk, OnErr, length, slice_index_or};
ghost use Rattle.drup.specs.ClauseBlocks.{joined, AreFull};

use crate::clause_list::ClauseList;
use crate::fault::ClauseFault;
use std::alloc::Global;

/// How many clauses a block has.
const BLOCK: usize = 1048576;

/// Clauses by their places, of which none is taken away but with a whole block.
#[derive(Drop)]
pub(crate) struct ClauseBlocks {
    // the blocks that are full, and the last one
    full: Vec<ClauseList>,
    last: ClauseList,
    // how many clauses there are
    count: usize,
    alloc: Global,
}

impl std::marker::Model for ClauseBlocks {
    ghost use Rattle.std.specs.Prelude.{List, ℕ};
    ghost use Rattle.drup.specs.ClauseBlocks.{blocked, AreBlocks};

    ghost Value = { List (List ℕ) };

    ghost view = { blocked };

    ghost invariant = { AreBlocks };
}

/// Lets the last block have room for a clause: one that is full is put behind the others, and another begins.
fn make_room(
    full: &mut Vec<ClauseList>,
    last: &mut ClauseList,
    alloc: Global,
) -> Result<(), ClauseFault>
    requires full { AreFull full.old.items }
    requires last { length last.old ≤ 1048576 }
    ensures full { AreFull full.new.items }
    ensures last { length last.new ≤ 1048576 }
    ensures same { joined full.new.items ++ last.new ≡ joined full.old.items ++ last.old }
    ensures room { IfOk result (λ _. length last.new < 1048576) }
{
    if last.len() < BLOCK {
        return Ok(());
    }
    full.reserve(1)?;
    match full.push(std::mem::replace(last, ClauseList::new(alloc))) {
        Ok(()) => Ok(()),
        Err(_) => unreachable!(),
    }
}

/// Takes the first block away, which is the last one where no other is there.
fn take_first(full: &mut Vec<ClauseList>, last: &mut ClauseList, alloc: Global) -> ClauseList
    requires full { AreFull full.old.items }
    requires last { length last.old ≤ 1048576 }
    ensures full { AreFull full.new.items }
    ensures last { length last.new ≤ 1048576 }
    ensures front { length result ≤ 1048576 }
    ensures parts { result ++ (joined full.new.items ++ last.new)
        ≡ joined full.old.items ++ last.old }
    ensures some { 0 < length (joined full.old.items ++ last.old) → 0 < length result }
{
    if full.is_empty() {
        return std::mem::replace(last, ClauseList::new(alloc));
    }
    full.remove(0)
}

impl ClauseBlocks {
    /// No clauses. It takes no memory.
    pub(crate) fn new(alloc: Global) -> ClauseBlocks
        ensures { result ≡ [] }
    {
        ClauseBlocks {
            full: Vec::new(alloc),
            last: ClauseList::new(alloc),
            count: 0,
            alloc,
        }
    }

    /// How many there are.
    pub(crate) fn len(&self) -> usize
        ensures { result ≡ length self.now }
    {
        self.count
    }

    /// The clause at a place.
    pub(crate) fn clause(&self, k: usize) -> &[u32]
        requires { k < length self.now }
        ensures { result.now ≡ slice_index_or self.now k [] }
    {
        let block = k / BLOCK;
        if block < self.full.len() {
            return self.full[block].clause(k % BLOCK);
        }
        self.last.clause(k - BLOCK * self.full.len())
    }

    /// Puts a clause behind the others.
    pub(crate) fn push(&mut self, clause: &[u32]) -> Result<(), ClauseFault>
        ensures ok { IfOk result (λ _. self.new ≡ self.old ++ clause.now ∷ []) }
        ensures err { OnErr result (self.new ≡ self.old) }
    {
        if self.count == usize::MAX {
            return Err(ClauseFault::NoMemory);
        }
        make_room(&mut self.full, &mut self.last, self.alloc)?;
        self.last.push(clause)?;
        self.count += 1;
        Ok(())
    }

    /// Takes the clauses of the first block away.
    pub(crate) fn take_front(&mut self) -> ClauseBlocks
        ensures parts { result ++ self.new ≡ self.old }
        ensures some { 0 < length self.old → 0 < length result }
    {
        let front = take_first(&mut self.full, &mut self.last, self.alloc);
        let count = front.len();
        self.count -= count;
        ClauseBlocks {
            full: Vec::new(self.alloc),
            last: front,
            count,
            alloc: self.alloc,
        }
    }
}
