//! The clauses that stand, put together anew without those that were taken away.
ghost use Rattle.std.specs.Prelude.{◌≡◌, ℕ, ◌+◌, ◌*◌, ◌<◌, ◌≤◌, ◌++◌, ◌∷◌, [], List, All, IfOk, MatchBool, length};
ghost use Rattle.drup.specs.Flat.{standing};
ghost use Rattle.drup.specs.Marked.{Marked};
ghost use Rattle.drup.specs.Propagator.{KeepsPropagator};
ghost use Rattle.drup.specs.Swept.{IsSweptOf};
ghost use Rattle.drup.specs.Watched.{CanWatch};

use crate::clauses::Clauses;
use crate::fault::ClauseFault;
use crate::lists::Lists;
use crate::places::Places;
use crate::propagator::put;
use crate::trail::Trail;
use std::alloc::Global;

/// Whether a sweep is due. It goes over the literals that are held, each clause of which has one, and over the lists of all
/// literals below the limit: these are at most twice the literals of the clauses that were taken away since the last one. So
/// what it costs is paid by these, however few literals are held and however many variables there are.
pub(crate) fn is_due(dead: usize, held: usize, limit: usize) -> bool
    ensures { MatchBool result (held + limit ≤ 2 * dead) (2 * dead ≤ held + limit + 2) }
{
    dead > held / 2 + limit / 2
}

/// Clauses with what they watch and where those of each sum stand.
#[derive(Drop)]
pub(crate) struct Swept {
    pub(crate) clauses: Clauses,
    pub(crate) watched: Vec<u32>,
    pub(crate) lists: Lists,
    pub(crate) places: Places,
}

impl Swept {
    /// No clauses.
    fn new(alloc: Global, limit: usize) -> Result<Swept, ClauseFault>
        ensures { IfOk result (λ s. (clauses lists : List (List ℕ)) (watched : List ℕ)
            (trail : Marked) → KeepsPropagator clauses watched lists trail
            → limit ≡ length trail.marks → IsSweptOf s [] trail) }
    {
        let lists = Lists::new(alloc, limit)?;
        Ok(Swept {
            clauses: Clauses::new(alloc),
            watched: Vec::new(alloc),
            lists,
            places: Places::new(alloc),
        })
    }

    /// Takes a clause with the two literals that it watches, where it has a literal.
    fn take(
        &mut self,
        alloc: Global,
        clause: &[u32],
        first: u32,
        second: u32,
    ) -> Result<(), ClauseFault>
        requires first { 0 < length clause.now → first < length self.old.lists }
        requires second { 0 < length clause.now → second < length self.old.lists }
        ensures { IfOk result (λ _. (clauses : List (List ℕ)) (trail : Marked)
            → IsSweptOf self.old clauses trail
            → (0 < length clause.now → CanWatch clause.now first second trail)
            → All (λ l. l < length trail.marks) clause.now
            → IsSweptOf self.new (clauses ++ standing (clause.now ∷ [])) trail) }
    {
        if clause.is_empty() {
            return Ok(());
        }
        match put(
            alloc,
            &mut self.clauses,
            &mut self.watched,
            &mut self.lists,
            &mut self.places,
            clause,
            first,
            second,
        ) {
            Ok(()) => Ok(()),
            Err(fault) => Err(fault),
        }
    }
}

/// The clauses that stand, in their order, with the literals that they watch.
pub(crate) fn without_dead(
    alloc: Global,
    clauses: &Clauses,
    watched: &[u32],
    lists: &Lists,
    trail: &Trail,
) -> Result<Swept, ClauseFault>
    requires { KeepsPropagator clauses.now watched.now lists.now trail.now }
    ensures { IfOk result (λ s. IsSweptOf s (standing clauses.now) trail.now) }
{
    let _ = trail.len();
    let mut swept = Swept::new(alloc, lists.limit())?;
    for k in 0..clauses.len() {
        swept.take(alloc, clauses.clause(k), watched[2 * k], watched[2 * k + 1])?;
    }
    Ok(swept)
}
