//! Clauses, and what follows from them by unit propagation.
ghost use Rattle.std.specs.Prelude.{◌≡◌, ◌<◌, ◌≤◌, ◌++◌, ◌∷◌, [], ◌↔◌, All, IsTrue, true, false, IfOk, OnOk, OnErr, MatchResult, Contains, length, slice_index, ℕ, ◌*◌, ◌+◌};
ghost use Rattle.drup.specs.Marked.{IsConsistent, IsEven, set_of};
ghost use Rattle.drup.specs.Propagation.{Implied};
ghost use Rattle.drup.specs.Growth.{AssumedOne, Assumed, Extends, GrowsMarked};
ghost use Rattle.drup.specs.Watched.{IsWatched, Stays, AreMet, UnitsMet, Brought};
ghost use Rattle.drup.specs.Propagator.{AddedTo, in_list};
ghost use Rattle.drup.specs.Lists.{list_at, IsListed};
ghost use Rattle.std.specs.Vec.{vec_len, vec_capacity};
ghost use Rattle.drup.specs.Without.{IsWithout};
ghost use Rattle.drup.specs.Added.{Added, Unchanged};
ghost use Rattle.drup.specs.Flat.{standing};
ghost use Rattle.drup.specs.Ordered.{RiseFrom};
ghost use Rattle.drup.specs.Places.{clause_sum, last_at, IsLinkedBehind};

use crate::alike::put_in_order;
use crate::clauses::Clauses;
use crate::fault::ClauseFault;
use crate::lists::Lists;
use crate::literal::negation;
use crate::passes::{open_literal, open_other};
use crate::places::{Places, clause_sum, last_alike, rising_sum};
use crate::sweep::{is_due, without_dead};
use crate::trail::Trail;
use crate::watches::propagate;
use std::alloc::Global;

/// The most clauses: the number of a clause's second watch has 32 bits, and the greatest such number is none.
const MOST_CLAUSES: usize = 2147483647;

/// What a clause watches that was taken away.
const NO_LITERAL: u32 = 4294967295;

/// Assumes a literal's negation; whether the literal is marked.
fn assume_one(literal: u32, trail: &mut Trail) -> bool
    requires even { IsEven trail.old }
    requires inside { literal < length trail.old.marks }
    requires consistent { IsConsistent trail.old }
    ensures { AssumedOne literal trail.old trail.new result }
{
    if trail.has(literal) {
        return true;
    }
    let opposite = negation(literal);
    if trail.has(opposite) {
        return false;
    }
    trail.push(opposite);
    false
}

/// Assumes the negations of a clause's literals; whether they contradict one another.
fn assume(clause: &[u32], trail: &mut Trail) -> bool
    requires even { IsEven trail.old }
    requires inside { All (λ l. l < length trail.old.marks) clause.now }
    requires consistent { IsConsistent trail.old }
    ensures { Assumed clause.now trail.old trail.new result }
{
    for literal in clause {
        if assume_one(*literal, trail) {
            return true;
        }
    }
    false
}

/// Whether unit propagation from the negations of a clause's literals meets a conflict.
fn meets_conflict(
    clauses: &Clauses,
    watched: &mut [u32],
    lists: &mut Lists,
    clause: &[u32],
    trail: &mut Trail,
) -> Result<bool, ClauseFault>
    requires even { IsEven trail.old }
    requires inside { All (All (λ l. l < length trail.old.marks)) clauses.now }
    requires below { All (λ l. l < length trail.old.marks) clause.now }
    requires consistent { IsConsistent trail.old }
    requires watched { IsWatched clauses.now watched.old lists.old
        (length trail.old.marks) }
    requires met { AreMet clauses.now watched.old trail.old }
    requires units { UnitsMet clauses.now trail.old }
    ensures exact { IfOk result (λ met. IsTrue met
        ↔ Implied (standing clauses.now) (set_of trail.old) clause.now) }
    ensures extends { Extends trail.old trail.new }
    ensures watched { IsWatched clauses.now watched.new lists.new
        (length trail.old.marks) }
    ensures stays { Stays watched.old watched.new trail.old }
{
    let root = trail.len();
    if assume(clause, trail) {
        return Ok(true);
    }
    propagate(clauses, watched, lists, trail, root)
}

/// Marks the literal that a new clause gives, if it gives one, and what follows; the two literals that it is to watch, or
/// none if a conflict is met.
fn settle(
    clauses: &Clauses,
    watched: &mut [u32],
    lists: &mut Lists,
    clause: &[u32],
    trail: &mut Trail,
) -> Result<Option<(u32, u32)>, ClauseFault>
    requires even { IsEven trail.old }
    requires inside { All (All (λ l. l < length trail.old.marks)) clauses.now }
    requires below { All (λ l. l < length trail.old.marks) clause.now }
    requires consistent { IsConsistent trail.old }
    requires watched { IsWatched clauses.now watched.old lists.old
        (length trail.old.marks) }
    requires met { AreMet clauses.now watched.old trail.old }
    ensures grows { GrowsMarked (clauses.now ++ clause.now ∷ []) trail.old
        trail.new }
    ensures watched { IsWatched clauses.now watched.new lists.new
        (length trail.old.marks) }
    ensures stays { Stays watched.old watched.new trail.old }
    ensures answer { IfOk result
        (λ both. Brought clauses.now clause.now watched.new trail.new
        both) }
{
    let root = trail.len();
    match open_literal(clause, trail) {
        None => Ok(None),
        Some(first) => match open_other(clause, first, trail) {
            Some(second) => Ok(Some((first, second))),
            None => {
                let second = other_literal(clause, first);
                if trail.has(first) {
                    return Ok(Some((first, second)));
                }
                trail.push(first);
                match propagate(clauses, watched, lists, trail, root) {
                    Err(error) => Err(error),
                    Ok(true) => Ok(None),
                    Ok(false) => Ok(Some((first, second))),
                }
            }
        },
    }
}

/// The first literal of a clause other than one, or that one if there is none.
fn other_literal(clause: &[u32], one: u32) -> u32
    requires { Contains clause.now one }
    ensures there { Contains clause.now result }
    ensures one { result ≡ one → (i : ℕ) → i < length clause.now → slice_index clause.now i ≡ one }
{
    for literal in clause {
        if *literal != one {
            return *literal;
        }
    }
    one
}

/// Lists two literals as those that the next clause watches.
fn list_watches(lists: &mut Lists, first: u32, second: u32, watch: u32) -> Result<(), ClauseFault>
    requires first { first < length lists.old }
    requires second { second < length lists.old }
    requires room { watch + 1 < 4294967296 }
    ensures kept { IsListed lists.old lists.new }
    ensures first { IfOk result (λ _. Contains (list_at lists.new first) watch) }
    ensures second { IfOk result (λ _. Contains (list_at lists.new second) (watch + 1)) }
{
    match lists.push(first, watch) {
        Ok(()) => {}
        Err(error) => return Err(error),
    }
    lists.push(second, watch + 1)
}

/// Pushes a number where there is room.
fn push_in_room(numbers: &mut Vec<u32>, number: u32)
    requires { vec_len numbers.old < vec_capacity numbers.old }
    ensures items { numbers.new.items ≡ numbers.old.items ++ number ∷ [] }
    ensures capacity { vec_capacity numbers.old ≤ vec_capacity numbers.new }
{
    match numbers.push(number) {
        Ok(_) => {}
        Err(_) => unreachable!(),
    }
}

/// Puts a clause behind the others.
pub(crate) fn put(
    alloc: Global,
    clauses: &mut Clauses,
    watched: &mut Vec<u32>,
    lists: &mut Lists,
    places: &mut Places,
    clause: &[u32],
    first: u32,
    second: u32,
) -> Result<(), ClauseFault>
    requires first { first < length lists.old }
    requires second { second < length lists.old }
    ensures few { IfOk result (λ _. length clauses.old < 2147483647) }
    ensures linked { OnOk result (IsLinkedBehind places.old (clause_sum clause.now)
        (length clauses.old) places.new) }
    ensures last { OnErr result ((s : ℕ) → last_at places.new s ≡ last_at places.old s) }
    ensures before { OnErr result (places.new.before.items ≡ places.old.before.items) }
    ensures ok { IfOk result
        (λ _. Added clauses.old watched.old.items lists.old clause.now first second clauses.new
        watched.new.items lists.new) }
    ensures err { OnErr result (Unchanged clauses.old watched.old.items lists.old clauses.new
        watched.new.items lists.new) }
{
    let count = clauses.len();
    if count >= MOST_CLAUSES {
        return Err(ClauseFault::NoMemory);
    }
    watched.reserve(2)?;
    places.make_room()?;
    let sum = clause_sum(alloc, clause)?;
    list_watches(lists, first, second, 2 * count as u32)?;
    clauses.push(clause)?;
    push_in_room(watched, first);
    push_in_room(watched, second);
    places.link(sum, count as u32);
    Ok(())
}

/// Clauses, to which others can be added, and the literals that followed from them. Each clause watches two of its
/// literals, and is looked at where one of these is negated.
///
/// Clauses see the limit that literals are below (two for each variable, and two), the clauses in the order in which they
/// came, and which literals followed.
#[derive(Drop)]
pub struct Propagator {
    clauses: Clauses,
    // two literals of each clause, and for each literal the watches of it
    watched: Vec<u32>,
    lists: Lists,
    // where the clauses of each sum stand
    places: Places,
    // what followed
    trail: Trail,
    // how many literals clauses had that were taken away since the last sweep
    dead: usize,
    alloc: Global,
}

impl std::marker::Model for Propagator {
    ghost use Rattle.drup.specs.Propagator.{State, state_of, IsPropagator};

    ghost Value = { State };

    ghost view = { state_of };

    ghost invariant = { IsPropagator };
}

impl Propagator {
    /// Whether unit propagation from the clauses, what followed from them, and the negations of a clause's literals meets a
    /// conflict, so that the clause is true where these are. Nothing is changed.
    ///
    /// Errors: `NoMemory` where a growth was refused.
    pub fn implied(&mut self, clause: &[u32]) -> Result<bool, ClauseFault>
        requires { All (λ l. l < self.old.limit) clause.now }
        ensures same { self.new ≡ self.old }
        ensures exact { IfOk result (λ met. IsTrue met
            ↔ Implied self.old.clauses (in_list self.old.followed) clause.now) }
    {
        let root = self.trail.len();
        let met = meets_conflict(
            &self.clauses,
            &mut self.watched,
            &mut self.lists,
            clause,
            &mut self.trail,
        );
        self.trail.undo(root);
        met
    }

    /// No clauses, of literals of so many variables.
    ///
    /// Errors: `NoMemory` where a growth was refused.
    pub fn new(alloc: Global, variables: u32) -> Result<Propagator, ClauseFault>
        requires { variables < 2147483647 }
        ensures { IfOk result (λ p. (p.limit ≡ 2 * variables + 2) × (p.clauses ≡ [])
            × ((l : ℕ) → in_list p.followed l ≡ false)) }
    {
        let limit = 2 * variables as usize + 2;
        let lists = Lists::new(alloc, limit)?;
        let trail = Trail::new(alloc, limit)?;
        Ok(Propagator {
            clauses: Clauses::new(alloc),
            watched: Vec::new(alloc),
            lists,
            places: Places::new(alloc),
            trail,
            dead: 0,
            alloc,
        })
    }

    /// Adds a clause, with all that follows, which is kept. Where propagation then meets a conflict, nothing is changed and
    /// the answer is yes.
    ///
    /// Errors: `NoMemory` where a growth was refused, also of the 32 bits of a clause's number, or of the place of a literal
    /// among those that are held; nothing is changed then.
    pub fn add(&mut self, clause: &[u32]) -> Result<bool, ClauseFault>
        requires { All (λ l. l < self.old.limit) clause.now }
        ensures { MatchResult result (λ met. AddedTo self.old clause.now self.new met)
            (λ _. self.new ≡ self.old) }
    {
        let root = self.trail.len();
        match settle(
            &self.clauses,
            &mut self.watched,
            &mut self.lists,
            clause,
            &mut self.trail,
        ) {
            Err(error) => {
                self.trail.undo(root);
                Err(error)
            }
            Ok(None) => {
                self.trail.undo(root);
                Ok(true)
            }
            Ok(Some((first, second))) => match put(
                self.alloc,
                &mut self.clauses,
                &mut self.watched,
                &mut self.lists,
                &mut self.places,
                clause,
                first,
                second,
            ) {
                Ok(()) => Ok(false),
                Err(error) => {
                    self.trail.undo(root);
                    Err(error)
                }
            },
        }
    }

    /// Takes away the last clause that has the same literals as a clause, each as often, in whatever order; where none has,
    /// nothing is changed. What followed stays. The clause's literals are put in rising order.
    pub fn delete(&mut self, clause: &mut [u32])
        ensures left { IsWithout self.old.clauses clause.old self.new.clauses }
        ensures followed { (self.new.followed ≡ self.old.followed)
            × (self.new.limit ≡ self.old.limit) }
    {
        put_in_order(clause);
        self.take_away(clause);
        self.sweep();
    }

    /// Puts the clauses that stand together anew, if that is due and there is memory.
    fn sweep(&mut self)
        ensures { self.new ≡ self.old }
    {
        if !is_due(self.dead, self.clauses.held(), self.lists.limit()) {
            return;
        }
        self.dead = 0;
        match without_dead(
            self.alloc,
            &self.clauses,
            &self.watched,
            &self.lists,
            &self.trail,
        ) {
            Ok(swept) => {
                self.clauses = swept.clauses;
                self.watched = swept.watched;
                self.lists = swept.lists;
                self.places = swept.places;
            }
            Err(_) => {}
        }
    }

    /// Takes away the last clause that has the same literals, which rise, and leaves its place empty.
    fn take_away(&mut self, clause: &[u32])
        requires { RiseFrom 0 clause.now }
        ensures left { IsWithout self.old.clauses clause.now self.new.clauses }
        ensures followed { (self.new.followed ≡ self.old.followed)
            × (self.new.limit ≡ self.old.limit) }
    {
        let count = self.clauses.len();
        if clause.is_empty() {
            return;
        }
        let sum = rising_sum(clause);
        match last_alike(self.alloc, &self.clauses, &self.places, sum, clause) {
            None => {}
            Some((place, behind)) => {
                self.places.unlink(count, sum, place, behind);
                self.clauses.take_away(place);
                self.dead = self.dead.saturating_add(clause.len());
                self.watched[2 * place] = NO_LITERAL;
                self.watched[2 * place + 1] = NO_LITERAL;
            }
        }
    }
}
