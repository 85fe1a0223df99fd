//! The places of clauses by their sums, which do not go by the order of literals.
ghost use Rattle.std.specs.Prelude.{◌≡◌, ℕ, ◌+◌, ◌<◌, [], ◌==◌, if◌then◌else◌, IfOk, MatchOption, length};
ghost use Rattle.drup.specs.Without.{NoneAlikeFrom, IsLastAlike};
ghost use Rattle.drup.specs.Ordered.{RiseFrom};
ghost use Rattle.drup.specs.Places.{clause_sum, last_at, HasRoom, IsLink, AreLinked, IsLinkedBehind, IsUnlinked};

use crate::alike::{are_alike, in_order};
use crate::clauses::Clauses;
use crate::fault::ClauseFault;
use indexmap::IndexMap;
use std::alloc::Global;
use std::hash::{DefaultHasher, Hash, Hasher};

/// What stands for no place.
const NO_PLACE: u32 = 4294967295;

/// The sum of a clause whose literals rise, each given to SipHash-1-3 in turn. One that went by each literal alone, or
/// kept 64 bits between two, would be the same for thousands of clauses that an input can find by a few relations among
/// literals; of this no way is known to many clauses of one sum. Its keys are fixed, so an input may still search for sums that share
/// a bucket, at a cost of as many tries as there are buckets for each.
pub(crate) fn rising_sum(clause: &[u32]) -> u64
    requires { RiseFrom 0 clause.now }
    ensures { result ≡ clause_sum clause.now }
{
    let mut state = DefaultHasher::new();
    for literal in clause {
        literal.hash(&mut state);
    }
    state.finish()
}

/// The sum of a clause, which is the same in any order of its literals.
pub(crate) fn clause_sum(alloc: Global, clause: &[u32]) -> Result<u64, ClauseFault>
    ensures { IfOk result (λ s. s ≡ clause_sum clause.now) }
{
    let literals = in_order(alloc, clause)?;
    Ok(rising_sum(&literals))
}

/// For each sum the last place of a clause that has it, and for each place the one before it of the same sum; clauses that
/// were taken away have none.
#[derive(Drop)]
pub(crate) struct Places {
    lasts: IndexMap<u64, u32>,
    before: Vec<u32>,
}

impl Places {
    /// No places.
    pub(crate) fn new(alloc: Global) -> Places
        ensures last { (s : ℕ) → last_at result s ≡ 4294967295 }
        ensures before { result.before.items ≡ [] }
    {
        Places {
            lasts: IndexMap::new(alloc),
            before: Vec::new(alloc),
        }
    }

    /// The last place of a sum, or what stands for none.
    fn last(&self, sum: u64) -> u32
        ensures { result ≡ last_at self.now sum }
    {
        match self.lasts.get(&sum) {
            None => NO_PLACE,
            Some(place) => *place,
        }
    }

    /// Makes room for one more place.
    pub(crate) fn make_room(&mut self) -> Result<(), ClauseFault>
        ensures room { IfOk result (λ _. HasRoom self.new) }
        ensures last { (s : ℕ) → last_at self.new s ≡ last_at self.old s }
        ensures before { self.new.before.items ≡ self.old.before.items }
    {
        self.before.reserve(1)?;
        match self.lasts.reserve(1) {
            Ok(()) => Ok(()),
            Err(_) => Err(ClauseFault::NoMemory),
        }
    }

    /// Puts a place with a sum behind the others, where there is room.
    pub(crate) fn link(&mut self, sum: u64, place: u32)
        requires { HasRoom self.old }
        ensures { IsLinkedBehind self.old sum place self.new }
    {
        let before = self.last(sum);
        match self.lasts.insert(sum, place) {
            Ok(_) => {}
            Err(_) => unreachable!(),
        }
        match self.before.push(before) {
            Ok(_) => {}
            Err(_) => unreachable!(),
        }
    }

    /// Lets a place be the last one of a sum that has one, or none be it.
    fn set_last(&mut self, sum: u64, place: u32)
        requires { last_at self.old sum ≡ 4294967295 → ⊥ }
        ensures last { (s : ℕ) → last_at self.new s
            ≡ (if s == sum then place else last_at self.old s) }
        ensures before { self.new.before.items ≡ self.old.before.items }
    {
        if place == NO_PLACE {
            let _ = self.lasts.swap_remove(&sum);
            return;
        }
        match self.lasts.insert(sum, place) {
            Ok(_) => {}
            Err(_) => unreachable!(),
        }
    }

    /// Takes a place with a sum away, where the link to it stands at another, or behind all of so many.
    pub(crate) fn unlink(&mut self, count: usize, sum: u64, place: usize, behind: usize)
        requires inside { place < length self.old.before.items }
        requires others { count ≡ length self.old.before.items }
        requires behind { behind < count + 1 }
        requires there { behind ≡ count → last_at self.old sum ≡ place }
        requires low { place < 4294967295 }
        ensures { IsUnlinked self.old count sum place behind self.new }
    {
        let next = self.before[place];
        if behind == count {
            self.set_last(sum, next);
            return;
        }
        self.before[behind] = next;
    }
}

/// The place of the last clause that has the same literals as one with a literal, which stand in rising order there, and where
/// the link to it stands. Clauses of one sum that differ are as good as none, so it takes as long as the clause.
pub(crate) fn last_alike(
    alloc: Global,
    clauses: &Clauses,
    places: &Places,
    sum: u64,
    clause: &[u32],
) -> Option<(usize, usize)>
    requires linked { AreLinked clauses.now
        (last_at places.now) places.now.before.items }
    requires order { RiseFrom 0 clause.now }
    requires sum { sum ≡ clause_sum clause.now }
    requires some { 0 < length clause.now }
    ensures { MatchOption result
        (NoneAlikeFrom clauses.now clause.now 0)
        (λ at. IsLastAlike clauses.now clause.now at.0
        × IsLink clauses.now (last_at places.now) places.now.before.items
        sum at.0 at.1 × (at.0 < at.1)) }
{
    let mut behind = clauses.len();
    let mut place = places.last(sum) as usize;
    while place < behind {
        if are_alike(alloc, clause, clauses.clause(place)) {
            return Some((place, behind));
        }
        behind = place;
        place = places.before[place] as usize;
    }
    None
}
