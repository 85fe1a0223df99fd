//! A clause in the flat list, and what is open of one.
ghost use Rattle.std.specs.Prelude.{◌≡◌, ◌<◌, ◌≤◌, slice_range, ◌≢◌, All, length, MatchOption};
ghost use Rattle.drup.specs.Marked.{IsEven, set_of};
ghost use Rattle.drup.specs.Propagation.{AllNegated, OthersNegated};
ghost use Rattle.drup.specs.Growth.{IsOpen, IsOpenPlace, StretchNegated};

use crate::literal::negation;
use crate::trail::Trail;

/// The first literal of a clause that is not negated.
pub(crate) fn open_literal(clause: &[u32], trail: &Trail) -> Option<u32>
    requires even { IsEven trail.now }
    requires inside { All (λ l. l < length trail.now.marks) clause.now }
    ensures { MatchOption result (AllNegated clause.now (set_of trail.now))
        (λ l. IsOpen clause.now l (set_of trail.now)) }
{
    for literal in clause {
        if !trail.has(negation(*literal)) {
            return Some(*literal);
        }
    }
    None
}

/// The first literal of a clause, other than one, that is not negated.
pub(crate) fn open_other(clause: &[u32], one: u32, trail: &Trail) -> Option<u32>
    requires even { IsEven trail.now }
    requires inside { All (λ l. l < length trail.now.marks) clause.now }
    ensures { MatchOption result (OthersNegated clause.now one (set_of trail.now))
        (λ l. IsOpen clause.now l (set_of trail.now) × (l ≢ one)) }
{
    let marks = trail.marks();
    for literal in clause {
        if !marks[negation(*literal) as usize] && *literal != one {
            return Some(*literal);
        }
    }
    None
}

/// The place of the first literal of a stretch of a clause, other than one, that is not negated.
fn open_between(clause: &[u32], from: usize, to: usize, one: u32, trail: &Trail) -> Option<usize>
    requires even { IsEven trail.now }
    requires inside { All (λ l. l < length trail.now.marks) clause.now }
    requires within { to ≤ length clause.now }
    ensures { MatchOption result
        (StretchNegated clause.now from to one (set_of trail.now))
        (λ place. IsOpenPlace clause.now place one (set_of trail.now)) }
{
    let marks = trail.marks();
    for place in from..to {
        let literal = clause[place];
        if !marks[negation(literal) as usize] && literal != one {
            return Some(place);
        }
    }
    None
}

/// The place of a literal of a clause, other than one, that is not negated: of the first from a start on, or else of the first before
/// it.
pub(crate) fn open_place(clause: &[u32], start: usize, one: u32, trail: &Trail) -> Option<usize>
    requires even { IsEven trail.now }
    requires inside { All (λ l. l < length trail.now.marks) clause.now }
    ensures { MatchOption result (OthersNegated clause.now one (set_of trail.now))
        (λ place. IsOpenPlace clause.now place one (set_of trail.now)) }
{
    let middle = start.min(clause.len());
    match open_between(clause, middle, clause.len(), one, trail) {
        Some(place) => Some(place),
        None => open_between(clause, 0, middle, one, trail),
    }
}

/// A clause in the flat list.
pub(crate) fn clause_between(literals: &[u32], start: usize, end: usize) -> &[u32]
    requires order { start ≤ end }
    requires inside { end ≤ length literals.now }
    ensures { result.now ≡ slice_range literals.now start end }
{
    &literals[start..end]
}
