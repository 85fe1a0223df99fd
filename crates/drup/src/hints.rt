//! What the hints of a step show, one after the other.
ghost use Rattle.std.specs.Prelude.{◌≡◌, ℕ, false, ◌<◌, ◌++◌, ◌∷◌, [], List, All, length};
ghost use Rattle.base.specs.Literal.{negation};
ghost use Rattle.drup.specs.Marked.{IsEven, set_of};
ghost use Rattle.drup.specs.Propagation.{Literals};
ghost use Rattle.drup.specs.Growth.{Extends};
ghost use Rattle.drup.specs.Named.{clause_of, AreNamed};
ghost use Rattle.drup.specs.Hints.{and_open, open_in, with_marked, negated, by_clause, settled, follow};
ghost use Rattle.drup.specs.Opened.{HasSeen};
ghost use Rattle.drup.specs.declared.hints.Finding.{Finding as FindingValue};

use crate::literal::negation;
use crate::named::Named;
use crate::trail::Trail;

/// What is open of a clause.
#[derive(Clone, Copy)]
pub(crate) enum Open {
    /// No literal: it is falsified.
    Nothing,
    /// This literal, however often.
    Only(u32),
    /// Two literals or more.
    More,
}

impl Open {
    /// What is open with another literal, which is.
    fn with(self, literal: u32) -> Open
        ensures { result ≡ and_open self literal }
    {
        match self {
            Open::Nothing => Open::Only(literal),
            Open::Only(one) => {
                if one == literal {
                    Open::Only(one)
                } else {
                    Open::More
                }
            }
            Open::More => Open::More,
        }
    }
}

/// What hints show.
#[derive(Clone, Copy)]
pub(crate) enum Finding {
    /// A clause that is falsified.
    Falsified,
    /// One names no clause.
    Unnamed,
    /// Neither: one names a clause that gives no literal, or they end.
    Unshown,
}

/// What is open of a clause, where a literal may stand in it more than once.
#[inline(never)]
fn open_among(clause: &[u32], trail: &Trail) -> Open
    requires even { IsEven trail.now }
    requires inside { All (λ l. l < length trail.now.marks) clause.now }
    ensures { result ≡ open_in (set_of trail.now) clause.now }
{
    let mut open = Open::Nothing;
    for literal in clause {
        if !trail.has(negation(*literal)) {
            open = open.with(*literal);
        }
    }
    open
}

/// How many of the literals so far are negated, and the last that is not. Nothing that is found decides a branch.
#[derive(Clone, Copy)]
struct Seen {
    negated: usize,
    last: u32,
}

impl Seen {
    /// No literal.
    fn new() -> Seen
        ensures { (s : Literals) → HasSeen s [] result }
    {
        Seen {
            negated: 0,
            last: 0,
        }
    }

    /// The same with another literal, which may be negated.
    #[inline(always)]
    fn with(self, literal: u32, is_negated: bool) -> Seen
        requires { self.negated < 18446744073709551615 }
        ensures { (s : Literals) (before : List ℕ) → s (negation literal) ≡ is_negated
            → HasSeen s before self → HasSeen s (before ++ literal ∷ []) result }
    {
        Seen {
            negated: self.negated + usize::from(is_negated),
            last: if is_negated { self.last } else { literal },
        }
    }
}

/// What is open of a clause.
#[inline(always)]
fn open_in(clause: &[u32], trail: &Trail) -> Open
    requires even { IsEven trail.now }
    requires inside { All (λ l. l < length trail.now.marks) clause.now }
    ensures { result ≡ open_in (set_of trail.now) clause.now }
{
    let mut seen = Seen::new();
    for literal in clause {
        seen = seen.with(*literal, trail.has(negation(*literal)));
    }
    match clause.len() - seen.negated {
        0 => Open::Nothing,
        1 => Open::Only(seen.last),
        _ => open_among(clause, trail),
    }
}

/// Marks a literal, if it is not marked.
fn mark(literal: u32, trail: &mut Trail)
    requires inside { literal < length trail.old.marks }
    ensures set { (l : ℕ) → set_of trail.new l ≡ with_marked (set_of trail.old) literal l }
    ensures as_many { length trail.new.marks ≡ length trail.old.marks }
{
    if trail.has(literal) {
        return;
    }
    trail.push(literal);
}

/// Marks the negations of a clause's literals, where nothing is marked.
pub(crate) fn mark_negations(clause: &[u32], trail: &mut Trail)
    requires even { IsEven trail.old }
    requires inside { All (λ l. l < length trail.old.marks) clause.now }
    requires none { (l : ℕ) → set_of trail.old l ≡ false }
    ensures set { (l : ℕ) → set_of trail.new l ≡ negated clause.now l }
    ensures as_many { length trail.new.marks ≡ length trail.old.marks }
{
    for literal in clause {
        mark(negation(*literal), trail);
    }
}

/// Takes a hint: what is found by it, or nothing where its clause gives a literal, which is marked.
fn take_hint(named: &Named, hint: u32, trail: &mut Trail) -> Option<Finding>
    requires named { AreNamed named.now (length trail.old.marks) }
    requires even { IsEven trail.old }
    ensures leads { (rest : Literals → FindingValue)
        → by_clause rest (set_of trail.old) (clause_of named.now hint)
        ≡ settled rest (set_of trail.new) result }
    ensures as_many { length trail.new.marks ≡ length trail.old.marks }
{
    match named.clause(hint) {
        None => Some(Finding::Unnamed),
        Some(clause) => match open_in(clause, trail) {
            Open::Nothing => Some(Finding::Falsified),
            Open::Only(literal) => {
                mark(literal, trail);
                None
            }
            Open::More => Some(Finding::Unshown),
        },
    }
}

/// Takes hints one after the other.
pub(crate) fn follow(named: &Named, hints: &[u32], trail: &mut Trail) -> Finding
    requires named { AreNamed named.now (length trail.old.marks) }
    requires even { IsEven trail.old }
    ensures found { result ≡ follow (clause_of named.now) (set_of trail.old) hints.now }
    ensures as_many { length trail.new.marks ≡ length trail.old.marks }
{
    for hint in hints {
        match take_hint(named, *hint, trail) {
            Some(finding) => return finding,
            None => {}
        }
    }
    Finding::Unshown
}
