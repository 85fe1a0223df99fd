//! The judge of proofs with hints in the text form.
ghost use Rattle.std.specs.Prelude.{◌≡◌, ◌+◌, ◌*◌, ◌-◌, ◌^◌, ◌<◌, ◌++◌, ◌∷◌, ◌==◌, [], List, ℕ, true, false, min, All, IfOk, take};
ghost use Rattle.drup.specs.Formula.{Formula as FormulaValue};
ghost use Rattle.drup.specs.Hints.{HintedReading, judge_hinted};
ghost use Rattle.lrat.specs.HintedProofs.{number as is_number, faulty, Mark, mark, between, reading_from, read_text_lrat};
ghost use Rattle.drup.specs.Words.{SpellsWord};
ghost use Rattle.lrat.specs.Words.{token_said, signed};
ghost use Rattle.lrat.specs.StepReaders.{StandsForWords, ReadsLiterals, ReadsHints};
ghost use Rattle.lrat.specs.TextJudges.{word_marks, StandsBefore, StandsThrough, StandsForLines, EndsText};
ghost use Rattle.drup.specs.declared.lines.Place.TheVariants as place;

mod pieces;

use crate::step_reader::StepReader;
use crate::token::Token;
use drup::{ClauseFault, Judgement, Place, Why, Word, is_blank, is_too_many};
use std::alloc::Global;

/// A judge of proofs with hints in the text form over a formula, whose clauses it is given first: it takes a text byte by
/// byte, and keeps none of it. Beside the judge of its steps it holds the literals and hints of the step that has begun, and a
/// fixed number of words. The words of a proof in the binary form go past its bytes, to the same reader of steps.
///
/// Clauses see what it holds; which texts it stands for is a relation to that.
#[derive(Drop)]
pub(crate) struct TextJudge {
    reader: StepReader,
    // the line of the next byte, counted from 1
    line: u64,
    place: Place,
    // the word that has begun
    word: Word,
}

impl std::marker::Model for TextJudge {
    ghost use Rattle.lrat.specs.TextJudges.{TextJudge as TextJudgeValue};

    ghost Value = { TextJudgeValue };

    ghost view = { λ j. record { reader = j.reader; line = j.line; place = j.place; word = j.word } };
}

impl TextJudge {
    /// A judge of proofs over so many variables, which has no clauses yet and stands for the empty text.
    ///
    /// Errors: `NoMemory` where a growth was refused.
    pub(crate) fn new(alloc: Global, variables: u32) -> Result<TextJudge, ClauseFault>
        requires { variables < 2147483647 }
        ensures stands { IfOk result
            (λ judge. StandsForLines (record { variables = variables; clauses = [] }) judge []) }
        ensures variables { IfOk result (λ judge. judge.reader.variables ≡ variables) }
    {
        let reader = StepReader::new(alloc, variables)?;
        Ok(TextJudge {
            reader,
            line: 1,
            place: Place::Begins,
            word: Word::new(),
        })
    }

    /// Takes a clause of the formula, behind those before, and before any byte of the text.
    pub(crate) fn give(&mut self, clause: &[u32])
        requires { All (λ l. l < 2 * self.old.reader.variables + 2) clause.now }
        ensures stands { (f : FormulaValue) → StandsForLines f self.old []
            → StandsForLines (record f { clauses = f.clauses ++ clause.now ∷ [] }) self.new [] }
        ensures variables { self.new.reader.variables ≡ self.old.reader.variables }
    {
        self.reader.give(clause);
    }

    /// Whether nothing more is read.
    pub(crate) fn is_closed(&self) -> bool
        ensures { result ≡ self.now.reader.closed }
    {
        self.reader.is_closed()
    }

    /// Where the next byte stands.
    fn place(&self) -> Place
        ensures { result ≡ self.now.place }
    {
        self.place
    }

    /// The word that has begun ends, where one has.
    #[inline(never)]
    fn end_word(&mut self)
        requires { self.old.reader.closed ≡ false }
        ensures words { (f : FormulaValue) (marks : List Mark) (bytes : List ℕ)
            → SpellsWord self.old.word bytes → StandsForWords f self.old.reader marks
            → StandsForWords f self.new.reader (marks ++ word_marks self.old.line bytes) }
        ensures word { (bytes : List ℕ) → SpellsWord self.old.word bytes
            → SpellsWord self.new.word [] }
        ensures same { (self.new.reader.variables ≡ self.old.reader.variables)
            × (self.new.line ≡ self.old.line) × (self.new.place ≡ self.old.place) }
    {
        if self.word.is_empty() {
            return;
        }
        self.reader.take(self.line, Token::of_word(self.word));
        self.word = Word::new();
    }

    /// The line ends.
    fn end_line(&mut self)
        ensures { self.new
            ≡ record self.old { line = min (self.old.line + 1) (2 ^ 64 - 1); place = place.Begins } }
    {
        self.line = self.line.saturating_add(1);
        self.place = Place::Begins;
    }

    /// Takes a byte in a line of words.
    fn take_within(&mut self, byte: u8)
        requires open { self.old.reader.closed ≡ false }
        requires within { self.old.place ≡ place.Within }
        ensures stands { (f : FormulaValue) (text : List ℕ)
            → StandsBefore f self.old text (byte ∷ []) → StandsThrough f self.new text }
        ensures variables { self.new.reader.variables ≡ self.old.reader.variables }
    {
        if byte == b'\n' {
            self.end_word();
            self.end_line();
            return;
        }
        if is_blank(byte) {
            self.end_word();
            return;
        }
        self.word = self.word.with(byte);
    }

    /// Takes the first byte of a line.
    fn begin_line(&mut self, byte: u8)
        requires open { self.old.reader.closed ≡ false }
        requires begins { self.old.place ≡ place.Begins }
        ensures stands { (f : FormulaValue) (text : List ℕ)
            → StandsBefore f self.old text (byte ∷ []) → StandsThrough f self.new text }
        ensures variables { self.new.reader.variables ≡ self.old.reader.variables }
    {
        if is_too_many(self.line) {
            self.reader.refuse_word(self.line, Why::TooLong);
            return;
        }
        if byte == b'c' {
            self.place = Place::Comment;
            return;
        }
        self.place = Place::Within;
        self.take_within(byte);
    }

    /// Takes a byte of a comment.
    fn pass(&mut self, byte: u8)
        requires open { self.old.reader.closed ≡ false }
        requires comment { self.old.place ≡ place.Comment }
        ensures stands { (f : FormulaValue) (text : List ℕ)
            → StandsBefore f self.old text (byte ∷ []) → StandsThrough f self.new text }
        ensures variables { self.new.reader.variables ≡ self.old.reader.variables }
    {
        if byte == b'\n' {
            self.end_line();
        }
    }

    /// Takes a byte of the text behind those before.
    #[inline(never)]
    pub(crate) fn take(&mut self, byte: u8)
        ensures stands { (f : FormulaValue) (text : List ℕ) → StandsForLines f self.old text
            → StandsForLines f self.new (text ++ byte ∷ []) }
        ensures variables { self.new.reader.variables ≡ self.old.reader.variables }
    {
        if self.is_closed() {
            return;
        }
        match self.place() {
            Place::Begins => self.begin_line(byte),
            Place::Within => self.take_within(byte),
            Place::Comment => self.pass(byte),
        }
    }

    /// Takes bytes of the text behind those before.
    pub(crate) fn feed(&mut self, bytes: &[u8])
        ensures { (f : FormulaValue) (text : List ℕ) → StandsForLines f self.old text
            → StandsForLines f self.new (text ++ bytes.now) }
    {
        let mut at = 0;
        while at < bytes.len() {
            at = self.take_some(bytes, at);
        }
    }

    /// The text ends.
    fn end_text(&mut self)
        ensures { (f : FormulaValue) (text : List ℕ) → StandsForLines f self.old text
            → EndsText f self.new text }
    {
        if self.is_closed() {
            return;
        }
        self.end_word();
    }

    /// The judgement of what was read.
    fn judgement(self) -> Result<Judgement, ClauseFault>
        ensures { (f : FormulaValue) (text : List ℕ) → EndsText f self text
            → IfOk result (λ j. j ≡ judge_hinted f (read_text_lrat f.variables text)) }
    {
        let TextJudge {
            reader,
            line,
            place: _,
            word: _,
        } = self;
        reader.finish(line)
    }

    /// The judgement of the text, which ends.
    ///
    /// Errors: `NoMemory` where a growth was refused.
    pub(crate) fn finish(self) -> Result<Judgement, ClauseFault>
        ensures { (f : FormulaValue) (text : List ℕ) → StandsForLines f self text
            → IfOk result (λ j. j ≡ judge_hinted f (read_text_lrat f.variables text)) }
    {
        let mut judge = self;
        judge.end_text();
        judge.judgement()
    }

    /// Takes a word of a proof in the binary form, of a step with a number.
    #[inline(always)]
    pub(crate) fn take_word(&mut self, step: u64, token: Token)
        requires { self.old.reader.closed ≡ false }
        ensures words { (f : FormulaValue) (marks : List Mark)
            → StandsForWords f self.old.reader marks
            → StandsForWords f self.new.reader (marks ++ mark step (token_said token) ∷ []) }
        ensures variables { self.new.reader.variables ≡ self.old.reader.variables }
    {
        self.reader.take(step, token);
    }

    /// Takes a variable's number among literals of a proof in the binary form, with a minus or without, of a step with a number.
    #[inline(always)]
    pub(crate) fn take_among_literals(&mut self, step: u64, negative: bool, number: u64)
        requires { ReadsLiterals self.old.reader }
        ensures words { (f : FormulaValue) (marks : List Mark)
            → StandsForWords f self.old.reader marks
            → StandsForWords f self.new.reader
            (marks ++ mark step (token_said (signed negative number)) ∷ []) }
        ensures variables { self.new.reader.variables ≡ self.old.reader.variables }
    {
        self.reader.take_among_literals(step, negative, number);
    }

    /// Takes a number among hints of a proof in the binary form, of a step with a number.
    #[inline(always)]
    pub(crate) fn take_among_hints(&mut self, step: u64, number: u64)
        requires { ReadsHints self.old.reader }
        ensures words { (f : FormulaValue) (marks : List Mark)
            → StandsForWords f self.old.reader marks
            → StandsForWords f self.new.reader (marks ++ mark step (is_number number) ∷ []) }
        ensures variables { self.new.reader.variables ≡ self.old.reader.variables }
    {
        self.reader.take_among_hints(step, number);
    }

    /// A fault is met in a step of a proof in the binary form.
    pub(crate) fn refuse(&mut self, step: u64, why: Why)
        requires { self.old.reader.closed ≡ false }
        ensures words { (f : FormulaValue) (marks : List Mark)
            → StandsForWords f self.old.reader marks
            → StandsForWords f self.new.reader (marks ++ mark step (faulty why) ∷ []) }
        ensures closed { self.new.reader.closed ≡ true }
        ensures variables { self.new.reader.variables ≡ self.old.reader.variables }
    {
        self.reader.refuse_word(step, why);
    }

    /// The judgement of the words of a proof in the binary form, which end.
    ///
    /// Errors: `NoMemory` where a growth was refused.
    pub(crate) fn finish_words(self) -> Result<Judgement, ClauseFault>
        ensures { (f : FormulaValue) (marks : List Mark) (reading : HintedReading)
            → StandsForWords f self.reader marks → (self.reader.failed ≡ false
            → reading ≡ reading_from self.reader.variables 0 between marks)
            → IfOk result (λ j. j ≡ judge_hinted f reading) }
    {
        let TextJudge {
            reader,
            line: _,
            place: _,
            word: _,
        } = self;
        reader.finish(0)
    }
}
