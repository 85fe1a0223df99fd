//! The judge of the steps of a proof with hints.
ghost use Rattle.std.specs.Prelude.{◌≡◌, ℕ, ◌+◌, ◌*◌, ◌<◌, ◌++◌, ◌∷◌, [], List, All, IfOk, Some, None, true, false, nat_lt};
ghost use Rattle.std.specs.Option.{is_some};
ghost use Rattle.drup.specs.declared.hints.Finding.TheVariants as finding;
ghost use Rattle.drup.specs.Formula.{Formula};
ghost use Rattle.drup.specs.Proofs.{ProofFault};
ghost use Rattle.drup.specs.Hints.{addition, deletion, HintedEnded, ended, judge_hinted, negated, follow};
ghost use Rattle.drup.specs.Named.{clause_of, IsTight};
ghost use Rattle.drup.specs.HintedJudges.{BeginsHinted, StandsForHinted, HasJudgedHinted, LeadsHinted};

use crate::fault::ClauseFault;
use crate::hints::{Finding, follow, mark_negations};
use crate::judgement::Judgement;
use crate::named::Named;
use crate::step_reader::is_nothing;
use crate::trail::Trail;
use crate::why::Why;
use std::alloc::Global;

/// A judge of the steps of a proof with hints over a formula, which takes them one by one and keeps the clauses that stand by
/// their ids. Of those that were taken away it holds no more literals than stand, and a fixed number. A step takes as long as its
/// literals and those of the clauses that it names, and, spread over all, as those that are taken away. Where memory was wanting
/// it says so in the end.
///
/// Clauses see what it holds; which steps it stands for is a relation to that.
#[derive(Drop)]
pub struct HintedJudge {
    named: Named,
    // what is marked within a step
    trail: Trail,
    // the last id
    last: u32,
    // what was found, behind which nothing is judged
    found: Option<Judgement>,
    // a growth was refused
    failed: bool,
}

impl std::marker::Model for HintedJudge {
    ghost use Rattle.drup.specs.HintedJudges.{HintedJudge as HintedJudgeValue, hinted_of, IsHinted};

    ghost Value = { HintedJudgeValue };

    ghost view = { hinted_of };

    ghost invariant = { IsHinted };
}

impl HintedJudge {
    /// A judge over so many variables, which has no clauses yet and took no step.
    ///
    /// Errors: `NoMemory` where a growth was refused.
    pub fn new(alloc: Global, variables: u32) -> Result<HintedJudge, ClauseFault>
        requires { variables < 2147483647 }
        ensures limit { IfOk result (λ judge. judge.limit ≡ 2 * variables + 2) }
        ensures begins { IfOk result
            (λ judge. BeginsHinted (record { variables = variables; clauses = [] }) judge) }
    {
        let trail = Trail::new(alloc, 2 * variables as usize + 2)?;
        Ok(HintedJudge {
            named: Named::from(alloc, 1),
            trail,
            last: 0,
            found: None,
            failed: false,
        })
    }

    /// Takes a clause of the formula, behind those before, and before any step. Its id is the next one, from 1.
    pub fn give(&mut self, clause: &[u32])
        requires { All (λ l. l < self.old.limit) clause.now }
        ensures begins { (f : Formula) → BeginsHinted f self.old
            → BeginsHinted (record f { clauses = f.clauses ++ clause.now ∷ [] }) self.new }
        ensures limit { self.new.limit ≡ self.old.limit }
        ensures held { self.new.failed ≡ false → IsTight self.new.named }
    {
        if self.found.is_some() {
            return;
        }
        if is_nothing(clause) {
            self.found = Some(Judgement::Derived { line: 0 });
            return;
        }
        if self.last == u32::MAX {
            self.failed = true;
            return;
        }
        self.last += 1;
        match self.named.insert(self.last, clause) {
            Ok(()) => {}
            Err(_) => self.failed = true,
        }
    }

    /// What hints show of a clause.
    fn finding(&mut self, clause: &[u32], hints: &[u32]) -> Finding
        requires { All (λ l. l < self.old.limit) clause.now }
        ensures found { result ≡ follow (clause_of self.old.named) (negated clause.now) hints.now }
        ensures same { self.new ≡ self.old }
    {
        mark_negations(clause, &mut self.trail);
        let finding = follow(&self.named, hints, &mut self.trail);
        self.trail.undo(0);
        finding
    }

    /// Takes a clause that was shown in a line.
    fn take_shown(&mut self, id: u32, clause: &[u32], line: u64)
        requires below { All (λ l. l < self.old.limit) clause.now }
        requires above { self.old.last < id }
        ensures leads { (hints : List ℕ) → is_some self.old.found ≡ false
            → nat_lt self.old.last id ≡ true
            → follow (clause_of self.old.named) (negated clause.now) hints ≡ finding.Falsified
            → LeadsHinted self.old (ended line (addition id clause.now hints)) self.new }
        ensures limit { self.new.limit ≡ self.old.limit }
        ensures held { self.new.failed ≡ false → IsTight self.new.named }
    {
        if is_nothing(clause) {
            self.found = Some(Judgement::Derived { line });
            return;
        }
        self.last = id;
        match self.named.insert(id, clause) {
            Ok(()) => {}
            Err(_) => self.failed = true,
        }
    }

    /// Takes a step that adds a clause with an id, by hints, and ends in a line: a judge that stood for some steps stands for
    /// these with this one behind them.
    #[inline(never)]
    pub fn add(&mut self, id: u32, clause: &[u32], hints: &[u32], line: u64)
        requires { All (λ l. l < self.old.limit) clause.now }
        ensures stands { (f : Formula) (steps : List HintedEnded) → StandsForHinted f steps self.old
            → StandsForHinted f (steps ++ ended line (addition id clause.now hints.now) ∷ [])
            self.new }
        ensures limit { self.new.limit ≡ self.old.limit }
        ensures held { self.new.failed ≡ false → IsTight self.new.named }
    {
        if self.found.is_some() {
            return;
        }
        if id <= self.last {
            self.found = Some(Judgement::Malformed {
                line,
                why: Why::BadId,
            });
            return;
        }
        match self.finding(clause, hints) {
            Finding::Falsified => self.take_shown(id, clause, line),
            Finding::Unnamed => {
                self.found = Some(Judgement::Malformed {
                    line,
                    why: Why::NoClause,
                });
            }
            Finding::Unshown => self.found = Some(Judgement::NotImplied { line }),
        }
    }

    /// Takes a step that takes the clause of an id away, where it has one, and ends in a line, likewise.
    #[inline(never)]
    pub fn delete(&mut self, id: u32, line: u64)
        ensures stands { (f : Formula) (steps : List HintedEnded) → StandsForHinted f steps self.old
            → StandsForHinted f (steps ++ ended line (deletion id) ∷ []) self.new }
        ensures limit { self.new.limit ≡ self.old.limit }
        ensures held { self.new.failed ≡ false → IsTight self.new.named }
    {
        let _ = line;
        if self.found.is_some() {
            return;
        }
        self.named.remove(id);
        let swept = self.named.sweep(self.last);
        self.failed = self.failed | swept.is_err();
    }

    /// Takes a fault of the text behind the steps so far, in a line: a judge that stood for these has judged them with the
    /// fault, and takes no more.
    pub fn refuse(&mut self, line: u64, why: Why)
        ensures judged { (f : Formula) (steps : List HintedEnded) → StandsForHinted f steps self.old
            → HasJudgedHinted f steps (record { line = line; why = why }) self.new }
        ensures limit { self.new.limit ≡ self.old.limit }
    {
        if self.found.is_some() {
            return;
        }
        self.found = Some(Judgement::Malformed { line, why });
    }

    /// The judgement of the steps: of all that the judge stands for, or with the fault that it took.
    ///
    /// Errors: `NoMemory` where a growth was refused.
    pub fn finish(self) -> Result<Judgement, ClauseFault>
        ensures steps { (f : Formula) (steps : List HintedEnded) → StandsForHinted f steps self
            → IfOk result (λ j. j ≡ judge_hinted f (record { steps = steps; fault = None })) }
        ensures fault { (f : Formula) (steps : List HintedEnded) (fault : ProofFault)
            → HasJudgedHinted f steps fault self
            → IfOk result (λ j. j ≡ judge_hinted f (record { steps = steps; fault = Some fault })) }
    {
        if self.failed {
            return Err(ClauseFault::NoMemory);
        }
        match self.found {
            Some(found) => Ok(found),
            None => Ok(Judgement::NotDerived),
        }
    }
}
