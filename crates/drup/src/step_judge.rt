//! The judge of the steps of a proof.
ghost use Rattle.std.specs.Prelude.{◌≡◌, ◌+◌, ◌*◌, ◌<◌, ◌++◌, ◌∷◌, [], List, All, IfOk, None, Some};
ghost use Rattle.drup.specs.Formula.{Formula};
ghost use Rattle.drup.specs.Proofs.{addition, deletion, Ended, ended, ProofFault};
ghost use Rattle.drup.specs.Judgements.{JudgesReading};
ghost use Rattle.drup.specs.StepJudges.{BeginsSteps, StandsForSteps, HasJudged, LeadsOver};

use crate::fault::ClauseFault;
use crate::judgement::Judgement;
use crate::propagator::Propagator;
use crate::why::Why;
use std::alloc::Global;

/// Judges a step that adds a clause: what is found with it, if anything is; else the clause is added with all that follows.
fn judge_addition(
    propagator: &mut Propagator,
    clause: &[u32],
    line: u64,
) -> Result<Option<Judgement>, ClauseFault>
    requires { All (λ l. l < propagator.old.limit) clause.now }
    ensures limit { propagator.new.limit ≡ propagator.old.limit }
    ensures leads { IfOk result
        (λ found. LeadsOver propagator.old clause.now line propagator.new found) }
{
    match propagator.implied(clause) {
        Err(fault) => Err(fault),
        Ok(false) => Ok(Some(Judgement::NotImplied { line })),
        Ok(true) => match propagator.add(clause) {
            Err(fault) => Err(fault),
            Ok(true) => Ok(Some(Judgement::Derived { line })),
            Ok(false) => Ok(None),
        },
    }
}

/// A judge of the steps of a proof over a formula, which takes them one by one and keeps the clauses that stand and what
/// followed. Where memory was wanting it says so in the end.
///
/// Clauses see what it holds; which steps it stands for is a relation to that.
#[derive(Drop)]
pub struct StepJudge {
    propagator: Propagator,
    // what was found, behind which nothing is judged
    found: Option<Judgement>,
    // a growth was refused
    failed: bool,
}

impl std::marker::Model for StepJudge {
    ghost use Rattle.drup.specs.StepJudges.{StepJudge as StepJudgeValue};

    ghost Value = { StepJudgeValue };

    ghost view = { λ j. record { propagator = j.propagator; found = j.found; failed = j.failed } };
}

impl StepJudge {
    /// A judge over so many variables, which has no clauses yet and took no step.
    ///
    /// Errors: `NoMemory` where a growth was refused.
    pub fn new(alloc: Global, variables: u32) -> Result<StepJudge, ClauseFault>
        requires { variables < 2147483647 }
        ensures limit { IfOk result (λ judge. judge.propagator.limit ≡ 2 * variables + 2) }
        ensures begins { IfOk result
            (λ judge. BeginsSteps (record { variables = variables; clauses = [] }) judge) }
    {
        let propagator = Propagator::new(alloc, variables)?;
        Ok(StepJudge {
            propagator,
            found: None,
            failed: false,
        })
    }

    /// Takes a clause of the formula, behind those before, and before any step.
    pub fn give(&mut self, clause: &[u32])
        requires { All (λ l. l < self.old.propagator.limit) clause.now }
        ensures begins { (f : Formula) → BeginsSteps f self.old
            → BeginsSteps (record f { clauses = f.clauses ++ clause.now ∷ [] }) self.new }
        ensures limit { self.new.propagator.limit ≡ self.old.propagator.limit }
    {
        if self.found.is_some() {
            return;
        }
        match self.propagator.add(clause) {
            Ok(true) => self.found = Some(Judgement::Derived { line: 0 }),
            Ok(false) => {}
            Err(_) => self.failed = true,
        }
    }

    /// Takes a step that adds a clause and ends in a line: a judge that stood for some steps stands for these with this one
    /// behind them.
    pub fn add(&mut self, clause: &[u32], line: u64)
        requires { All (λ l. l < self.old.propagator.limit) clause.now }
        ensures stands { (f : Formula) (steps : List Ended) → StandsForSteps f steps self.old
            → StandsForSteps f (steps ++ ended line (addition clause.now) ∷ []) self.new }
        ensures limit { self.new.propagator.limit ≡ self.old.propagator.limit }
    {
        if self.found.is_some() {
            return;
        }
        match judge_addition(&mut self.propagator, clause, line) {
            Ok(found) => self.found = found,
            Err(_) => self.failed = true,
        }
    }

    /// Takes a step that takes a clause away and ends in a line, likewise. The clause's literals are put in rising order.
    pub fn delete(&mut self, clause: &mut [u32], line: u64)
        ensures stands { (f : Formula) (steps : List Ended) → StandsForSteps f steps self.old
            → StandsForSteps f (steps ++ ended line (deletion clause.old) ∷ []) self.new }
        ensures limit { self.new.propagator.limit ≡ self.old.propagator.limit }
    {
        let _ = line;
        if self.found.is_some() {
            return;
        }
        self.propagator.delete(clause);
    }

    /// Takes a fault of the text behind the steps so far, in a line: a judge that stood for these has judged them with the
    /// fault, and takes no more.
    pub fn refuse(&mut self, line: u64, why: Why)
        ensures judged { (f : Formula) (steps : List Ended) → StandsForSteps f steps self.old
            → HasJudged f steps (record { line = line; why = why }) self.new }
        ensures limit { self.new.propagator.limit ≡ self.old.propagator.limit }
    {
        if self.found.is_some() {
            return;
        }
        self.found = Some(Judgement::Malformed { line, why });
    }

    /// The judgement of the steps so far.
    pub(crate) fn judgement(&self) -> Result<Judgement, ClauseFault>
        ensures steps { (f : Formula) (steps : List Ended) → StandsForSteps f steps self.now
            → IfOk result (λ j. JudgesReading f (record { steps = steps; fault = None }) j) }
        ensures fault { (f : Formula) (steps : List Ended) (fault : ProofFault)
            → HasJudged f steps fault self.now
            → IfOk result (λ j. JudgesReading f (record { steps = steps; fault = Some fault }) j) }
    {
        if self.failed {
            return Err(ClauseFault::NoMemory);
        }
        match self.found {
            Some(found) => Ok(found),
            None => Ok(Judgement::NotDerived),
        }
    }

    /// The judgement of the steps: of all that the judge stands for, or with the fault that it took.
    ///
    /// Errors: `NoMemory` where a growth was refused.
    pub fn finish(self) -> Result<Judgement, ClauseFault>
        ensures steps { (f : Formula) (steps : List Ended) → StandsForSteps f steps self
            → IfOk result (λ j. JudgesReading f (record { steps = steps; fault = None }) j) }
        ensures fault { (f : Formula) (steps : List Ended) (fault : ProofFault)
            → HasJudged f steps fault self
            → IfOk result (λ j. JudgesReading f (record { steps = steps; fault = Some fault }) j) }
    {
        self.judgement()
    }
}
