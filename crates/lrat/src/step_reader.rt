//! The words of a proof with hints, put together to steps: what a reader holds, and what each part of a step does to it.
ghost use Rattle.std.specs.Prelude.{◌≡◌, ◌+◌, ◌*◌, ◌<◌, ◌++◌, ◌∷◌, [], List, ℕ, true, false, All, IfOk};
ghost use Rattle.base.specs.Decimals.{is_nothing};
ghost use Rattle.drup.specs.Formula.{Formula};
ghost use Rattle.drup.specs.Hints.{addition, deletion, HintedReading, judge_hinted};
ghost use Rattle.lrat.specs.HintedProofs.{faulty, Mark, mark, between, literals, hints, deletions, goes_on, gives, refuses, has_begun, reading_from};
ghost use Rattle.lrat.specs.StepReaders.{StandsForWords, ReadsLiterals, ReadsHints, Takes, HasRead, BeginsReader};

mod words;

use drup::{ClauseFault, HintedJudge, Judgement, Why};
use std::alloc::Global;

/// What has come of a step.
#[derive(Clone, Copy)]
pub(crate) enum Part {
    /// Nothing.
    Between,
    /// Its id, and literals.
    Literals,
    /// Its id, the literals of its clause, and hints.
    Hints,
    /// A `d`.
    Deletions,
}

/// Whether a clause has no literals.
fn is_nothing(clause: &[u32]) -> bool
    ensures { result ≡ is_nothing clause.now }
{
    clause.is_empty()
}

/// A reader of the words of a proof with hints, which judges its steps as they end and keeps the literals and hints of the one
/// that has begun.
///
/// Clauses see what it holds; which words it stands for is a relation to that.
#[derive(Drop)]
pub(crate) struct StepReader {
    judge: HintedJudge,
    variables: u32,
    part: Part,
    // of the step that has begun
    id: u32,
    clause: Vec<u32>,
    hints: Vec<u32>,
    // a fault was met or a growth was refused, and nothing more is read
    closed: bool,
    // a growth was refused
    failed: bool,
}

impl std::marker::Model for StepReader {
    ghost use Rattle.lrat.specs.StepReaders.{StepReader as StepReaderValue, reader_of, IsReader};

    ghost Value = { StepReaderValue };

    ghost view = { reader_of };

    ghost invariant = { IsReader };
}

impl StepReader {
    /// A reader over so many variables, which has no clauses yet and took no word.
    ///
    /// Errors: `NoMemory` where a growth was refused.
    pub(crate) fn new(alloc: Global, variables: u32) -> Result<StepReader, ClauseFault>
        requires { variables < 2147483647 }
        ensures begins { IfOk result
            (λ r. BeginsReader (record { variables = variables; clauses = [] }) r) }
        ensures variables { IfOk result (λ r. r.variables ≡ variables) }
    {
        let judge = HintedJudge::new(alloc, variables)?;
        Ok(StepReader {
            judge,
            variables,
            part: Part::Between,
            id: 0,
            clause: Vec::new(alloc),
            hints: Vec::new(alloc),
            closed: false,
            failed: false,
        })
    }

    /// Takes a clause of the formula, behind those before, and before any word.
    pub(crate) fn give(&mut self, clause: &[u32])
        requires { All (λ l. l < 2 * self.old.variables + 2) clause.now }
        ensures begins { (f : Formula) → BeginsReader f self.old
            → BeginsReader (record f { clauses = f.clauses ++ clause.now ∷ [] }) self.new }
        ensures variables { self.new.variables ≡ self.old.variables }
    {
        self.judge.give(clause);
    }

    /// Whether nothing more is read.
    #[inline(always)]
    pub(crate) fn is_closed(&self) -> bool
        ensures { result ≡ self.now.closed }
    {
        self.closed
    }

    /// Whether the next word is one of literals.
    #[inline(always)]
    pub(crate) fn reads_literals(&self) -> bool
        ensures { result ≡ true → ReadsLiterals self.now }
    {
        match self.part {
            Part::Literals => !self.closed,
            Part::Between | Part::Hints | Part::Deletions => false,
        }
    }

    /// Whether the next word is one of hints.
    #[inline(always)]
    pub(crate) fn reads_hints(&self) -> bool
        ensures { result ≡ true → ReadsHints self.now }
    {
        match self.part {
            Part::Hints => !self.closed,
            Part::Between | Part::Literals | Part::Deletions => false,
        }
    }

    /// A fault is met in a line.
    #[cold]
    fn refuse(&mut self, line: u64, why: Why)
        requires { self.old.closed ≡ false }
        ensures takes { Takes self.old line (refuses why) self.new }
        ensures closed { self.new.closed ≡ true }
        ensures failed { self.new.failed ≡ self.old.failed }
        ensures variables { self.new.variables ≡ self.old.variables }
    {
        self.judge.refuse(line, why);
        self.closed = true;
    }

    /// A fault is met in a line, whatever has come of a step.
    pub(crate) fn refuse_word(&mut self, line: u64, why: Why)
        requires { self.old.closed ≡ false }
        ensures stands { (f : Formula) (marks : List Mark) → StandsForWords f self.old marks
            → StandsForWords f self.new (marks ++ mark line (faulty why) ∷ []) }
        ensures closed { self.new.closed ≡ true }
        ensures variables { self.new.variables ≡ self.old.variables }
    {
        self.refuse(line, why);
    }

    /// A growth was refused.
    #[cold]
    fn fail(&mut self)
        ensures failed { self.new.failed ≡ true }
        ensures variables { self.new.variables ≡ self.old.variables }
    {
        self.closed = true;
        self.failed = true;
    }

    /// A step begins with an id.
    #[inline(always)]
    fn begin(&mut self, id: u32)
        requires { self.old.closed ≡ false }
        ensures takes { (line : ℕ) → Takes self.old line (goes_on (literals id [])) self.new }
        ensures variables { self.new.variables ≡ self.old.variables }
    {
        self.part = Part::Literals;
        self.id = id;
        self.clause.clear();
    }

    /// A literal of the step that has begun.
    #[inline(always)]
    fn push_literal(&mut self, literal: u32)
        requires open { self.old.closed ≡ false }
        requires below { literal < 2 * self.old.variables + 2 }
        ensures takes { (line id : ℕ) (clause : List ℕ) → self.old.begun ≡ literals id clause
            → Takes self.old line (goes_on (literals id (clause ++ literal ∷ []))) self.new }
        ensures variables { self.new.variables ≡ self.old.variables }
    {
        match self.clause.push(literal) {
            Ok(_) => {}
            Err(_) => self.fail(),
        }
    }

    /// The literals of the step that has begun end.
    #[inline(always)]
    fn begin_hints(&mut self)
        requires { self.old.closed ≡ false }
        ensures takes { (line id : ℕ) (clause : List ℕ) → self.old.begun ≡ literals id clause
            → Takes self.old line (goes_on (hints id clause [])) self.new }
        ensures variables { self.new.variables ≡ self.old.variables }
    {
        self.part = Part::Hints;
        self.hints.clear();
    }

    /// A hint of the step that has begun.
    #[inline(always)]
    fn push_hint(&mut self, hint: u32)
        requires { self.old.closed ≡ false }
        ensures takes { (line id : ℕ) (clause before : List ℕ)
            → self.old.begun ≡ hints id clause before
            → Takes self.old line (goes_on (hints id clause (before ++ hint ∷ []))) self.new }
        ensures variables { self.new.variables ≡ self.old.variables }
    {
        match self.hints.push(hint) {
            Ok(_) => {}
            Err(_) => self.fail(),
        }
    }

    /// The hints of the step that has begun end in a line, and with them the step.
    #[inline(always)]
    fn end_addition(&mut self, line: u64)
        requires { self.old.closed ≡ false }
        ensures takes { (id : ℕ) (clause before : List ℕ)
            → self.old.begun ≡ hints id clause before
            → Takes self.old line (gives (addition id clause before) between) self.new }
        ensures variables { self.new.variables ≡ self.old.variables }
    {
        self.judge.add(self.id, &self.clause, &self.hints, line);
        self.part = Part::Between;
    }

    /// A step that takes clauses away begins, or goes on.
    #[inline(always)]
    fn begin_deletions(&mut self)
        requires { self.old.closed ≡ false }
        ensures takes { (line : ℕ) → Takes self.old line (goes_on deletions) self.new }
        ensures variables { self.new.variables ≡ self.old.variables }
    {
        self.part = Part::Deletions;
    }

    /// A clause is taken away in a line.
    #[inline(always)]
    fn delete(&mut self, id: u32, line: u64)
        requires { self.old.closed ≡ false }
        ensures takes { Takes self.old line (gives (deletion id) deletions) self.new }
        ensures variables { self.new.variables ≡ self.old.variables }
    {
        self.judge.delete(id, line);
        self.part = Part::Deletions;
    }

    /// No step has begun.
    #[inline(always)]
    fn stand_between(&mut self)
        requires { self.old.closed ≡ false }
        ensures takes { (line : ℕ) → Takes self.old line (goes_on between) self.new }
        ensures variables { self.new.variables ≡ self.old.variables }
    {
        self.part = Part::Between;
    }

    /// Whether a step has begun.
    fn has_begun(&self) -> bool
        ensures { result ≡ has_begun self.now.begun }
    {
        match self.part {
            Part::Between => false,
            Part::Literals | Part::Hints | Part::Deletions => true,
        }
    }

    /// The words end in a line.
    fn close(&mut self, last: u64)
        ensures read { (f : Formula) (marks : List Mark) → StandsForWords f self.old marks
            → HasRead f self.new (reading_from self.old.variables last between marks) }
        ensures failed { self.new.failed ≡ self.old.failed }
    {
        if self.is_closed() {
            return;
        }
        if !self.has_begun() {
            return;
        }
        self.refuse(last, Why::CutOff);
    }

    /// The judgement of what was read.
    fn judgement(self) -> Result<Judgement, ClauseFault>
        ensures { (f : Formula) (reading : HintedReading) → HasRead f self reading
            → IfOk result (λ j. j ≡ judge_hinted f reading) }
    {
        let StepReader {
            judge,
            variables: _,
            part: _,
            id: _,
            clause: _,
            hints: _,
            closed: _,
            failed,
        } = self;
        let judged = judge.finish();
        if failed {
            return Err(ClauseFault::NoMemory);
        }
        judged
    }

    /// The judgement of the words, which end in a line.
    ///
    /// Errors: `NoMemory` where a growth was refused.
    pub(crate) fn finish(self, last: u64) -> Result<Judgement, ClauseFault>
        ensures { (f : Formula) (marks : List Mark) (reading : HintedReading)
            → StandsForWords f self marks → (self.failed ≡ false
            → reading ≡ reading_from self.variables last between marks)
            → IfOk result (λ j. j ≡ judge_hinted f reading) }
    {
        let mut reader = self;
        reader.close(last);
        reader.judgement()
    }
}
