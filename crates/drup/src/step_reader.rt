//! The words of a proof, put together to steps.
ghost use Rattle.std.specs.Prelude.{◌≡◌, ◌+◌, ◌*◌, ◌<◌, ◌++◌, ◌∷◌, [], List, ℕ, true, false, All, IfOk};
ghost use Rattle.base.specs.Decimals.{is_nothing};
ghost use Rattle.drup.specs.Formula.{Formula};
ghost use Rattle.drup.specs.Words.{token_said, IsBelow};
ghost use Rattle.drup.specs.Proofs.{ends, deletes, literal, faulty, mark, Mark, Ended, ended, step_of, has_begun, ProofReading, reading_from};
ghost use Rattle.drup.specs.Judgements.{JudgesReading};
ghost use Rattle.drup.specs.StepJudges.{StandsForSteps};
ghost use Rattle.drup.specs.StepReaders.{StandsForWords, HasRead, BeginsReader};

use crate::fault::ClauseFault;
use crate::judgement::Judgement;
use crate::step_judge::StepJudge;
use crate::why::Why;
use crate::word::Token;
use std::alloc::Global;

/// Judges a step that has ended, which takes its clause away or adds it.
fn judge_step(judge: &mut StepJudge, deleting: bool, clause: &mut [u32], line: u64)
    requires { All (λ l. l < judge.old.propagator.limit) clause.old }
    ensures stands { (f : Formula) (steps : List Ended) → StandsForSteps f steps judge.old
        → StandsForSteps f (steps ++ ended line (step_of deleting clause.old) ∷ []) judge.new }
    ensures limit { judge.new.propagator.limit ≡ judge.old.propagator.limit }
{
    if deleting {
        judge.delete(clause, line);
        return;
    }
    judge.add(clause, line);
}

/// Whether a clause has no literals.
pub(crate) fn is_nothing(clause: &[u32]) -> bool
    ensures { result ≡ is_nothing clause.now }
{
    clause.is_empty()
}

/// A reader of the words of a proof, which judges its steps as they end and keeps the literals of the one that has begun.
///
/// Clauses see what it holds; which words it stands for is a relation to that.
#[derive(Drop)]
pub(crate) struct StepReader {
    judge: StepJudge,
    // the literals of the step that has begun
    clause: Vec<u32>,
    // it has begun with a `d`
    deleting: bool,
    // a fault was met or a growth was refused, and nothing more is read
    closed: bool,
    // a growth was refused
    failed: bool,
}

impl std::marker::Model for StepReader {
    ghost use Rattle.drup.specs.StepReaders.{StepReader as StepReaderValue, reader_of, IsReader};

    ghost Value = { StepReaderValue };

    ghost view = { reader_of };

    ghost invariant = { IsReader };
}

impl StepReader {
    /// A reader over so many variables, which has no clauses yet and took no word.
    ///
    /// Errors: `NoMemory` where a growth was refused.
    pub(crate) fn new(alloc: Global, variables: u32) -> Result<StepReader, ClauseFault>
        requires { variables < 2147483647 }
        ensures limit { IfOk result (λ r. r.judge.propagator.limit ≡ 2 * variables + 2) }
        ensures begins { IfOk result
            (λ r. BeginsReader (record { variables = variables; clauses = [] }) r) }
    {
        let judge = StepJudge::new(alloc, variables)?;
        Ok(StepReader {
            judge,
            clause: Vec::new(alloc),
            deleting: false,
            closed: false,
            failed: false,
        })
    }

    /// Takes a clause of the formula, behind those before, and before any word.
    pub(crate) fn give(&mut self, clause: &[u32])
        requires { All (λ l. l < self.old.judge.propagator.limit) clause.now }
        ensures begins { (f : Formula) → BeginsReader f self.old
            → BeginsReader (record f { clauses = f.clauses ++ clause.now ∷ [] }) self.new }
        ensures limit { self.new.judge.propagator.limit ≡ self.old.judge.propagator.limit }
    {
        self.judge.give(clause);
    }

    /// Whether nothing more is read.
    pub(crate) fn is_closed(&self) -> bool
        ensures { result ≡ self.now.closed }
    {
        self.closed
    }

    /// A step ends in a line.
    fn end_step(&mut self, line: u64)
        requires { self.old.closed ≡ false }
        ensures stands { (f : Formula) (marks : List Mark) → StandsForWords f self.old marks
            → StandsForWords f self.new (marks ++ mark line ends ∷ []) }
        ensures limit { self.new.judge.propagator.limit ≡ self.old.judge.propagator.limit }
    {
        judge_step(&mut self.judge, self.deleting, &mut self.clause, line);
        self.clause.clear();
        self.deleting = false;
    }

    /// A fault is met in a line.
    pub(crate) fn refuse(&mut self, line: u64, why: Why)
        requires { self.old.closed ≡ false }
        ensures stands { (f : Formula) (marks : List Mark) → StandsForWords f self.old marks
            → StandsForWords f self.new (marks ++ mark line (faulty why) ∷ []) }
        ensures closed { self.new.closed ≡ true }
        ensures failed { self.new.failed ≡ self.old.failed }
        ensures limit { self.new.judge.propagator.limit ≡ self.old.judge.propagator.limit }
    {
        self.judge.refuse(line, why);
        self.closed = true;
    }

    /// Whether a step has begun.
    fn has_begun(&self) -> bool
        ensures { result ≡ has_begun self.now.deleting self.now.clause }
    {
        self.deleting || !is_nothing(&self.clause)
    }

    /// A step that takes a clause away begins in a line.
    fn begin_deletion(&mut self, line: u64)
        requires { self.old.closed ≡ false }
        ensures stands { (f : Formula) (marks : List Mark) → StandsForWords f self.old marks
            → StandsForWords f self.new (marks ++ mark line deletes ∷ []) }
        ensures limit { self.new.judge.propagator.limit ≡ self.old.judge.propagator.limit }
    {
        if self.has_begun() {
            self.refuse(line, Why::BadWord);
            return;
        }
        self.deleting = true;
    }

    /// A literal of the step that has begun, or begins with it.
    fn push(&mut self, number: u32, line: u64)
        requires open { self.old.closed ≡ false }
        requires below { number < self.old.judge.propagator.limit }
        ensures stands { (f : Formula) (marks : List Mark) → StandsForWords f self.old marks
            → StandsForWords f self.new (marks ++ mark line (literal number) ∷ []) }
        ensures limit { self.new.judge.propagator.limit ≡ self.old.judge.propagator.limit }
    {
        let _ = line;
        match self.clause.push(number) {
            Ok(_) => {}
            Err(_) => {
                self.closed = true;
                self.failed = true;
            }
        }
    }

    /// Takes a word that stands in a line, where none before it was faulty.
    pub(crate) fn take(&mut self, line: u64, token: Token)
        requires open { self.old.closed ≡ false }
        requires below { IsBelow self.old.judge.propagator.limit token }
        ensures stands { (f : Formula) (marks : List Mark) → StandsForWords f self.old marks
            → StandsForWords f self.new (marks ++ mark line (token_said token) ∷ []) }
        ensures limit { self.new.judge.propagator.limit ≡ self.old.judge.propagator.limit }
    {
        match token {
            Token::Ends => self.end_step(line),
            Token::Deletes => self.begin_deletion(line),
            Token::Literal(number) => self.push(number, line),
            Token::Faulty(why) => self.refuse(line, why),
        }
    }

    /// The words end in a line.
    fn close(&mut self, last: u64)
        ensures read { (f : Formula) (marks : List Mark) → StandsForWords f self.old marks
            → HasRead f self.new (reading_from last false [] marks) }
        ensures failed { self.new.failed ≡ self.old.failed }
        ensures limit { self.new.judge.propagator.limit ≡ self.old.judge.propagator.limit }
    {
        if self.is_closed() {
            return;
        }
        if !self.has_begun() {
            return;
        }
        self.refuse(last, Why::CutOff);
    }

    /// The judgement of what was read.
    fn judgement(&self) -> Result<Judgement, ClauseFault>
        ensures { (f : Formula) (reading : ProofReading) → HasRead f self.now reading
            → IfOk result (λ j. JudgesReading f reading j) }
    {
        if self.failed {
            return Err(ClauseFault::NoMemory);
        }
        self.judge.judgement()
    }

    /// The judgement of the words, which end in a line.
    ///
    /// Errors: `NoMemory` where a growth was refused.
    pub(crate) fn finish(&mut self, last: u64) -> Result<Judgement, ClauseFault>
        ensures judges { (f : Formula) (marks : List Mark) (reading : ProofReading)
            → StandsForWords f self.old marks → (self.old.failed ≡ false
            → reading ≡ reading_from last false [] marks) → IfOk result (λ j. JudgesReading f
            reading j) }
        ensures limit { self.new.judge.propagator.limit ≡ self.old.judge.propagator.limit }
    {
        self.close(last);
        self.judgement()
    }
}
