//! Clauses by their ids.
ghost use Rattle.std.specs.Prelude.{◌≡◌, ℕ, ◌<◌, ◌≤◌, ◌*◌, ◌+◌, All, IfOk, OnOk, OnErr, MatchBool, MatchOption, Some, None, length};
ghost use Rattle.drup.specs.Hints.{with_clause, without_clause};
ghost use Rattle.drup.specs.IdPlaces.{place_of};
ghost use Rattle.drup.specs.Named.{clause_of, AreNamed, IsTight, IsSweptTo};

use crate::clause_list::ClauseList;
use crate::fault::ClauseFault;
use crate::id_places::IdPlaces;
use std::alloc::Global;

/// The most clauses that are held, with those that were taken away.
const MOST_CLAUSES: usize = 4294967295;

/// Clauses by their ids: one look-up for each. Clauses that were taken away are held until they have half of the literals.
#[derive(Drop)]
pub(crate) struct Named {
    // the clauses that are held, by their places, and the id of each
    clauses: ClauseList,
    ids: Vec<u32>,
    // of each id the place of its clause
    places: IdPlaces,
    // how many literals those have that were taken away, at most
    dead: usize,
    alloc: Global,
}

impl std::marker::Model for Named {
    ghost use Rattle.drup.specs.Named.{Kept, kept_of};

    ghost Value = { Kept };

    ghost view = { kept_of };
}

/// Whether a sweep is due: of so many literals that are held, this many were taken away.
fn is_due(dead: usize, held: usize) -> bool
    ensures { MatchBool result Unit (2 * dead ≤ held + 2049) }
{
    dead > held / 2 + 1024
}

/// The first of the later ids behind a sweep: as many before the last as clauses were held.
fn later_from(last: u32, held: usize) -> u32 {
    let all = last as usize;
    if held < all { (all - held) as u32 } else { 0 }
}

/// The clauses that stand, in their order; of the ids those from one on are the later.
fn without_dead(named: &Named, first: u32) -> Result<Named, ClauseFault>
    requires { (limit : ℕ) × AreNamed named.now limit }
    ensures { IfOk result (λ swept. IsSweptTo (length named.now.clauses) named.now swept) }
{
    let mut swept = Named::from(named.alloc, first);
    for k in 0..named.clauses.len() {
        swept.take(named, k)?;
    }
    Ok(swept)
}

impl Named {
    /// No clauses; the later ids begin with one.
    pub(crate) fn from(alloc: Global, first: u32) -> Named
        ensures none { (id : ℕ) → clause_of result id ≡ None }
        ensures named { (limit : ℕ) → AreNamed result limit }
        ensures tight { IsTight result }
        ensures dead { result.dead ≡ 0 }
    {
        Named {
            clauses: ClauseList::new(alloc),
            ids: Vec::new(alloc),
            places: IdPlaces::new(alloc, first),
            dead: 0,
            alloc,
        }
    }

    /// The clause of an id.
    pub(crate) fn clause(&self, id: u32) -> Option<&[u32]>
        requires { (limit : ℕ) × AreNamed self.now limit }
        ensures { MatchOption result (clause_of self.now id ≡ None)
            (λ clause. clause_of self.now id ≡ Some clause.now) }
    {
        match self.places.get(id) {
            None => None,
            Some(place) => Some(self.clauses.clause(place as usize)),
        }
    }

    /// Lets an id have a clause, which has none.
    pub(crate) fn insert(&mut self, id: u32, clause: &[u32]) -> Result<(), ClauseFault>
        requires fresh { clause_of self.old id ≡ None }
        ensures named { (limit : ℕ) → AreNamed self.old limit → All (λ l. l < limit) clause.now
            → AreNamed self.new limit }
        ensures tight { (limit : ℕ) → AreNamed self.old limit → IsTight self.old
            → IsTight self.new }
        ensures ok { OnOk result ((limit i : ℕ) → AreNamed self.old limit
            → clause_of self.new i ≡ with_clause (clause_of self.old) id clause.now i) }
        ensures err { OnErr result ((i : ℕ) → clause_of self.new i ≡ clause_of self.old i) }
        ensures dead { self.new.dead ≡ self.old.dead }
    {
        let place = self.clauses.len();
        if place >= MOST_CLAUSES {
            return Err(ClauseFault::NoMemory);
        }
        self.ids.reserve(1)?;
        self.places.set(id, place as u32)?;
        match self.clauses.push(clause) {
            Ok(()) => {}
            Err(fault) => {
                self.places.unset(id);
                return Err(fault);
            }
        }
        match self.ids.push(id) {
            Ok(_) => Ok(()),
            Err(_) => unreachable!(),
        }
    }

    /// Lets an id have no clause.
    pub(crate) fn remove(&mut self, id: u32)
        requires { (limit : ℕ) × AreNamed self.old limit }
        ensures named { (limit : ℕ) → AreNamed self.old limit → AreNamed self.new limit }
        ensures without { (i : ℕ) → clause_of self.new i
            ≡ without_clause (clause_of self.old) id i }
    {
        match self.places.get(id) {
            None => {}
            Some(place) => {
                let gone = self.clauses.clause(place as usize).len();
                self.places.unset(id);
                self.dead = self.dead.saturating_add(gone).min(self.clauses.size());
            }
        }
    }

    /// Whether the clause at a place, which has an id, stands.
    fn stands(&self, id: u32, k: usize) -> bool
        ensures { MatchBool result (place_of self.now.places id ≡ Some k)
            (place_of self.now.places id ≡ Some k → ⊥) }
    {
        match self.places.get(id) {
            None => false,
            Some(place) => place as usize == k,
        }
    }

    /// Takes the clause at a place of others, where it stands.
    fn take(&mut self, named: &Named, k: usize) -> Result<(), ClauseFault>
        requires named { (limit : ℕ) × AreNamed named.now limit }
        requires inside { k < length named.now.clauses }
        requires swept { IsSweptTo k named.now self.old }
        ensures { IfOk result (λ _. IsSweptTo (k + 1) named.now self.new) }
    {
        let id = named.ids[k];
        if !named.stands(id, k) {
            return Ok(());
        }
        self.insert(id, named.clauses.clause(k))
    }

    /// Gives the room of clauses that were taken away back where it is half of all, where this was the last id.
    ///
    /// Errors: `NoMemory` where the room for what stands was refused; nothing is changed then.
    pub(crate) fn sweep(&mut self, last: u32) -> Result<(), ClauseFault>
        requires { (limit : ℕ) × AreNamed self.old limit }
        ensures named { (limit : ℕ) → AreNamed self.old limit → AreNamed self.new limit }
        ensures same { (i : ℕ) → clause_of self.new i ≡ clause_of self.old i }
        ensures tight { IfOk result (λ _. IsTight self.new) }
    {
        if !is_due(self.dead, self.clauses.size()) {
            return Ok(());
        }
        let swept = without_dead(self, later_from(last, self.clauses.len()))?;
        self.clauses = swept.clauses;
        self.ids = swept.ids;
        self.places = swept.places;
        self.dead = swept.dead;
        Ok(())
    }
}
