//! Unit propagation by two watched literals: a clause is looked at only when a literal that it watches is negated. Watch
//! 2k and watch 2k + 1 are those of clause k.
ghost use Rattle.std.specs.Prelude.{◌≡◌, true, false, ◌≢◌, ◌+◌, ◌-◌, ◌<◌, ◌≤◌, ◌↔◌, IsTrue, [], All, length, Contains, IfOk, MatchOption, MatchResult, slice_index, slice_index_or};
ghost use Rattle.base.specs.Literal.{negation};
ghost use Rattle.drup.specs.Marked.{IsConsistent, IsEven, set_of};
ghost use Rattle.drup.specs.Growth.{GrowsMarked, IsOpen};
ghost use Rattle.drup.specs.Lists.{list_at};
ghost use Rattle.drup.specs.Propagation.{OthersNegated};
ghost use Rattle.drup.specs.Watched.{Watches, IsPassed, ArePassed, Visited, Entered, WalkedTo, Propagated, Processed, Stays, IsWatched, Moved};

use crate::clauses::Clauses;
use crate::fault::ClauseFault;
use crate::lists::Lists;
use crate::literal::negation;
use crate::passes::{open_other, open_place};
use crate::trail::Trail;

/// How many literals a clause has at most that is searched from its front each time.
const SHORT: usize = 5;

/// What is done with a watch of a clause.
#[derive(Clone, Copy)]
pub(crate) enum Visit {
    /// The clause is falsified.
    Conflict,
    /// The other watched literal is marked.
    Keep,
    /// This literal, which is not negated, is to be watched.
    Move(u32),
}

/// A literal of a clause, which has a number, other than one, that is not negated. In a long clause the search goes on where
/// the last one ended, so that what is negated in front is not gone over at each look.
fn open_again(clause: &[u32], k: usize, one: u32, lists: &mut Lists, trail: &Trail) -> Option<u32>
    requires even { IsEven trail.now }
    requires inside { All (λ l. l < length trail.now.marks) clause.now }
    ensures same { lists.new ≡ lists.old }
    ensures answer { MatchOption result (OthersNegated clause.now one (set_of trail.now))
        (λ l. IsOpen clause.now l (set_of trail.now) × (l ≢ one)) }
{
    if clause.len() <= SHORT {
        return open_other(clause, one, trail);
    }
    match open_place(clause, lists.start_of(k), one, trail) {
        None => None,
        Some(place) => {
            lists.note_start(k, place);
            Some(clause[place])
        }
    }
}

/// A literal of the clause of a number, other than one, that is not negated. Of two literals the other one than that is known to
/// be negated, so these are not read.
fn open_of(clauses: &Clauses, k: usize, one: u32, lists: &mut Lists, trail: &Trail) -> Option<u32>
    requires even { IsEven trail.now }
    requires number { k < length clauses.now }
    requires inside { All (All (λ l. l < length trail.now.marks)) clauses.now }
    requires two { length (slice_index_or clauses.now k []) ≡ 2
        → OthersNegated (slice_index_or clauses.now k []) one (set_of trail.now) }
    ensures same { lists.new ≡ lists.old }
    ensures answer { MatchOption result
        (OthersNegated (slice_index_or clauses.now k []) one (set_of trail.now))
        (λ l. IsOpen (slice_index_or clauses.now k []) l (set_of trail.now) × (l ≢ one)) }
{
    if clauses.len_of(k) == 2 {
        return None;
    }
    open_again(clauses.clause(k), k, one, lists, trail)
}

/// Looks at the clause of a number, one of whose watched literals is negated; `other` is the other one, which is not marked.
pub(crate) fn look(
    clauses: &Clauses,
    k: usize,
    other: u32,
    lists: &mut Lists,
    trail: &mut Trail,
) -> Visit
    requires even { IsEven trail.old }
    requires number { k < length clauses.now }
    requires inside { All (All (λ l. l < length trail.old.marks)) clauses.now }
    requires consistent { IsConsistent trail.old }
    requires there { Contains (slice_index_or clauses.now k []) other }
    requires fresh { set_of trail.old other ≡ false }
    requires two { length (slice_index_or clauses.now k []) ≡ 2
        → OthersNegated (slice_index_or clauses.now k []) other (set_of trail.old) }
    ensures same { lists.new ≡ lists.old }
    ensures visited { Visited (slice_index_or clauses.now k []) other trail.old trail.new
        result }
{
    match open_of(clauses, k, other, lists, trail) {
        Some(literal) => Visit::Move(literal),
        None => {
            if trail.has(negation(other)) {
                return Visit::Conflict;
            }
            trail.push(other);
            Visit::Keep
        }
    }
}

/// Whether a number is that of a watch of a literal.
fn watches(watched: &[u32], watch: u32, literal: u32) -> bool
    ensures { Watches watched.now watch literal result }
{
    if watch as usize >= watched.len() {
        return false;
    }
    watched[watch as usize] == literal
}

/// Lets another literal be watched in place of the one at a place of its list.
fn move_watch(
    watched: &mut [u32],
    lists: &mut Lists,
    negated: u32,
    place: usize,
    literal: u32,
) -> Result<(), ClauseFault>
    requires watch { slice_index (list_at lists.old negated) place < length watched.old }
    requires inside { negated < length lists.old }
    requires there { place < length (list_at lists.old negated) }
    requires other { literal < length lists.old }
    requires differs { literal ≢ negated }
    ensures { MatchResult result
        (λ _. Moved watched.old lists.old negated place literal watched.new lists.new)
        (λ _. (watched.new ≡ watched.old) × (lists.new ≡ lists.old)) }
{
    let watch = lists.at(negated, place);
    match lists.push(literal, watch) {
        Ok(()) => {}
        Err(error) => return Err(error),
    }
    lists.remove(negated, place);
    watched[watch as usize] = literal;
    Ok(())
}

/// Looks at the clause at a place of a list, whose other watched literal is not marked; the next place to look at, or none if the
/// clause is falsified.
fn enter(
    clauses: &Clauses,
    watched: &mut [u32],
    lists: &mut Lists,
    negated: u32,
    place: usize,
    trail: &mut Trail,
) -> Result<Option<usize>, ClauseFault>
    requires even { IsEven trail.old }
    requires inside { All (All (λ l. l < length trail.old.marks)) clauses.now }
    requires consistent { IsConsistent trail.old }
    requires watched { IsWatched clauses.now watched.old lists.old
        (length trail.old.marks) }
    requires negated { negated < length trail.old.marks }
    requires off { set_of trail.old (negation negated) ≡ true }
    requires there { place < length (list_at lists.old negated) }
    requires fresh { ¬ IsPassed watched.old (slice_index (list_at lists.old negated) place)
        trail.old }
    requires short { place < usize.MAX }
    ensures watched { IsWatched clauses.now watched.new lists.new
        (length trail.old.marks) }
    ensures stays { Stays watched.old watched.new trail.old }
    ensures grows { GrowsMarked clauses.now trail.old trail.new }
    ensures answer { IfOk result
        (λ next. Entered clauses.now negated place watched.old lists.old
        trail.old watched.new lists.new trail.new next) }
{
    let _ = trail.len();
    let watch = lists.at(negated, place);
    if !watches(watched, watch, negated) {
        lists.remove(negated, place);
        return Ok(Some(place));
    }
    let other = watched[negation(watch) as usize];
    match look(clauses, (watch / 2) as usize, other, lists, trail) {
        Visit::Conflict => Ok(None),
        Visit::Keep => Ok(Some(place + 1)),
        Visit::Move(literal) => match move_watch(watched, lists, negated, place, literal) {
            Ok(()) => Ok(Some(place)),
            Err(error) => Err(error),
        },
    }
}

/// Whether a number is that of a marked literal.
fn is_marked(marks: &[bool], number: u32) -> bool
    ensures { result ≡ slice_index_or marks.now number false }
{
    (number as usize) < marks.len() && marks[number as usize]
}

/// Whether a clause's other watched literal than that of a watch is marked.
fn is_passed(watched: &[u32], watch: u32, marks: &[bool]) -> bool
    ensures { IsTrue result
        ↔ IsPassed watched.now watch (record { marks = marks.now; order = [] }) }
{
    let other = negation(watch) as usize;
    other < watched.len() && is_marked(marks, watched[other])
}

/// The first place of a list, from one on, whose watch is to be looked at, or the list's end: of each before it the other watched
/// literal of its clause is marked.
fn next_place(list: &[u32], watched: &[u32], place: usize, trail: &Trail) -> usize
    requires { place ≤ length list.now }
    ensures order { place ≤ result }
    ensures within { result ≤ length list.now }
    ensures passed { ArePassed list.now watched.now place result trail.now }
    ensures stop { result < length list.now
        → ¬ IsPassed watched.now (slice_index list.now result) trail.now }
{
    let marks = trail.marks();
    for next in place..list.len() {
        if !is_passed(watched, list[next], marks) {
            return next;
        }
    }
    list.len()
}

/// Looks at all clauses that watch a negated literal; whether one is falsified.
fn walk(
    clauses: &Clauses,
    watched: &mut [u32],
    lists: &mut Lists,
    negated: u32,
    trail: &mut Trail,
) -> Result<bool, ClauseFault>
    requires even { IsEven trail.old }
    requires inside { All (All (λ l. l < length trail.old.marks)) clauses.now }
    requires consistent { IsConsistent trail.old }
    requires watched { IsWatched clauses.now watched.old lists.old
        (length trail.old.marks) }
    requires negated { negated < length trail.old.marks }
    requires off { set_of trail.old (negation negated) ≡ true }
    ensures watched { IsWatched clauses.now watched.new lists.new
        (length trail.old.marks) }
    ensures stays { Stays watched.old watched.new trail.old }
    ensures grows { GrowsMarked clauses.now trail.old trail.new }
    ensures answer { IfOk result
        (λ met. WalkedTo clauses.now negated watched.old trail.old
        watched.new trail.new met) }
{
    let mut place = next_place(lists.list(negated), watched, 0, trail);
    while place < lists.len_of(negated) {
        match enter(clauses, watched, lists, negated, place, trail) {
            Err(error) => return Err(error),
            Ok(None) => return Ok(true),
            Ok(Some(next)) => place = next_place(lists.list(negated), watched, next, trail),
        }
    }
    Ok(false)
}

/// Looks at all clauses that watch the negation of a literal from a place of the trail on; whether one is falsified.
pub(crate) fn propagate(
    clauses: &Clauses,
    watched: &mut [u32],
    lists: &mut Lists,
    trail: &mut Trail,
    from: usize,
) -> Result<bool, ClauseFault>
    requires begun { Processed clauses.now watched.old trail.old from }
    requires within { from ≤ length trail.old.order }
    requires even { IsEven trail.old }
    requires inside { All (All (λ l. l < length trail.old.marks)) clauses.now }
    requires consistent { IsConsistent trail.old }
    requires watched { IsWatched clauses.now watched.old lists.old
        (length trail.old.marks) }
    ensures watched { IsWatched clauses.now watched.new lists.new
        (length trail.old.marks) }
    ensures stays { Stays watched.old watched.new trail.old }
    ensures grows { GrowsMarked clauses.now trail.old trail.new }
    ensures answer { IfOk result
        (λ met. Propagated clauses.now watched.new trail.new met) }
{
    let mut head = from;
    while head < trail.len() {
        let negated = negation(trail.at(head));
        match walk(clauses, watched, lists, negated, trail) {
            Err(error) => return Err(error),
            Ok(true) => return Ok(true),
            Ok(false) => head += 1,
        }
    }
    Ok(false)
}
