//! The judge of proofs in the text form, and of the words of proofs in either form.
ghost use Rattle.std.specs.Prelude.{◌≡◌, ◌+◌, ◌*◌, ◌-◌, ◌^◌, ◌<◌, ◌≤◌, ◌++◌, ◌∷◌, [], List, ℕ, true, false, min, take, length, slice_index, ◌==◌, All, IfOk};
ghost use Rattle.drup.specs.Formula.{Formula as FormulaValue};
ghost use Rattle.drup.specs.Proofs.{is_proof_blank, mark, Mark, faulty, ProofReading, reading_from, read_text_proof};
ghost use Rattle.drup.specs.Judgements.{JudgesReading};
ghost use Rattle.drup.specs.Words.{SpellsWord, IsBelow, token_said};
ghost use Rattle.drup.specs.StepReaders.{StandsForWords};
ghost use Rattle.drup.specs.TextJudges.{TextJudge as TextJudgeValue, word_marks, StandsBefore, StandsThrough, StandsForLines, EndsText};
ghost use Rattle.drup.specs.declared.lines.Place.TheVariants as place;

use crate::fault::ClauseFault;
use crate::judgement::Judgement;
use crate::lines::{Place, is_blank, is_too_many};
use crate::step_reader::StepReader;
use crate::why::Why;
use crate::word::{Token, Word};
use std::alloc::Global;

/// A judge of proofs in the text form over a formula, whose clauses it is given first: it takes a text byte by byte, and
/// keeps none of it. Beside the judge of its steps it holds the literals of the step that has begun, and a fixed number of
/// words. The words of a proof in the binary form go past its bytes, to the same judge of steps.
///
/// Clauses see what it holds; which texts it stands for is a relation to that.
#[derive(Drop)]
pub(crate) struct TextJudge {
    reader: StepReader,
    variables: u32,
    // the line of the next byte, counted from 1
    line: u64,
    place: Place,
    // the word that has begun
    word: Word,
}

impl std::marker::Model for TextJudge {
    ghost use Rattle.drup.specs.TextJudges.{TextJudge as TextJudgeValue, IsTextJudge};

    ghost Value = { TextJudgeValue };

    ghost view = { λ j. record { reader = j.reader; variables = j.variables; line = j.line; place = j.place; word = j.word } };

    ghost invariant = { IsTextJudge };
}

/// Whether a byte stands at a place that neither ends a word nor the line.
fn is_letter_at(bytes: &[u8], place: usize) -> bool
    ensures inside { result ≡ true → place < length bytes.now }
    ensures goes_on { result ≡ true → slice_index bytes.now place == 10 ≡ false }
    ensures apart { result ≡ true → is_proof_blank (slice_index bytes.now place) ≡ false }
{
    if place >= bytes.len() {
        return false;
    }
    let byte = bytes[place];
    byte != b'\n' && !is_blank(byte)
}

impl TextJudge {
    /// A judge of proofs over so many variables, which has no clauses yet and stands for the empty text.
    ///
    /// Errors: `NoMemory` where a growth was refused.
    pub(crate) fn new(alloc: Global, variables: u32) -> Result<TextJudge, ClauseFault>
        requires { variables < 2147483647 }
        ensures stands { IfOk result
            (λ judge. StandsForLines (record { variables = variables; clauses = [] }) judge []) }
        ensures variables { IfOk result (λ judge. judge.variables ≡ variables) }
    {
        let reader = StepReader::new(alloc, variables)?;
        Ok(TextJudge {
            reader,
            variables,
            line: 1,
            place: Place::Begins,
            word: Word::new(),
        })
    }

    /// Takes a clause of the formula, behind those before, and before any byte of the text.
    pub(crate) fn give(&mut self, clause: &[u32])
        requires { All (λ l. l < 2 * self.old.variables + 2) clause.now }
        ensures stands { (f : FormulaValue) → StandsForLines f self.old []
            → StandsForLines (record f { clauses = f.clauses ++ clause.now ∷ [] }) self.new [] }
        ensures variables { self.new.variables ≡ self.old.variables }
    {
        self.reader.give(clause);
    }

    /// The count of variables.
    pub(crate) fn variables(&self) -> u32
        ensures variables { result ≡ self.now.variables }
        ensures few { result < 2147483647 }
    {
        self.variables
    }

    /// Whether nothing more is read.
    pub(crate) fn is_closed(&self) -> bool
        ensures { result ≡ self.now.reader.closed }
    {
        self.reader.is_closed()
    }

    /// Where the next byte stands.
    fn place(&self) -> Place
        ensures { result ≡ self.now.place }
    {
        self.place
    }

    /// The word that has begun ends, where one has.
    fn end_word(&mut self)
        requires { self.old.reader.closed ≡ false }
        ensures words { (f : FormulaValue) (marks : List Mark) (bytes : List ℕ)
            → SpellsWord self.old.word bytes → StandsForWords f self.old.reader marks
            → StandsForWords f self.new.reader
            (marks ++ word_marks self.old.variables self.old.line bytes) }
        ensures word { (bytes : List ℕ) → SpellsWord self.old.word bytes
            → SpellsWord self.new.word [] }
        ensures same { (self.new.variables ≡ self.old.variables) × (self.new.line ≡ self.old.line)
            × (self.new.place ≡ self.old.place) }
    {
        if self.word.is_empty() {
            return;
        }
        self.reader.take(self.line, self.word.token(self.variables));
        self.word = Word::new();
    }

    /// The line ends.
    fn end_line(&mut self)
        ensures { self.new
            ≡ record self.old { line = min (self.old.line + 1) (2 ^ 64 - 1); place = place.Begins } }
    {
        self.line = self.line.saturating_add(1);
        self.place = Place::Begins;
    }

    /// Takes a byte in a line of words.
    fn take_within(&mut self, byte: u8)
        requires open { self.old.reader.closed ≡ false }
        requires within { self.old.place ≡ place.Within }
        ensures stands { (f : FormulaValue) (text : List ℕ)
            → StandsBefore f self.old text (byte ∷ []) → StandsThrough f self.new text }
        ensures variables { self.new.variables ≡ self.old.variables }
    {
        if byte == b'\n' {
            self.end_word();
            self.end_line();
            return;
        }
        if is_blank(byte) {
            self.end_word();
            return;
        }
        self.word = self.word.with(byte);
    }

    /// Takes the first byte of a line.
    fn begin_line(&mut self, byte: u8)
        requires open { self.old.reader.closed ≡ false }
        requires begins { self.old.place ≡ place.Begins }
        ensures stands { (f : FormulaValue) (text : List ℕ)
            → StandsBefore f self.old text (byte ∷ []) → StandsThrough f self.new text }
        ensures variables { self.new.variables ≡ self.old.variables }
    {
        if is_too_many(self.line) {
            self.reader.refuse(self.line, Why::TooLong);
            return;
        }
        if byte == b'c' {
            self.place = Place::Comment;
            return;
        }
        self.place = Place::Within;
        self.take_within(byte);
    }

    /// Takes a byte of a comment.
    fn pass(&mut self, byte: u8)
        requires open { self.old.reader.closed ≡ false }
        requires comment { self.old.place ≡ place.Comment }
        ensures stands { (f : FormulaValue) (text : List ℕ)
            → StandsBefore f self.old text (byte ∷ []) → StandsThrough f self.new text }
        ensures variables { self.new.variables ≡ self.old.variables }
    {
        if byte == b'\n' {
            self.end_line();
        }
    }

    /// Takes a byte of the text behind those before.
    pub(crate) fn take(&mut self, byte: u8)
        ensures stands { (f : FormulaValue) (text : List ℕ) → StandsForLines f self.old text
            → StandsForLines f self.new (text ++ byte ∷ []) }
        ensures variables { self.new.variables ≡ self.old.variables }
    {
        if self.is_closed() {
            return;
        }
        match self.place() {
            Place::Begins => self.begin_line(byte),
            Place::Within => self.take_within(byte),
            Place::Comment => self.pass(byte),
        }
    }

    /// Takes the bytes from a place on that are of one word, in a line of words; the place behind them.
    fn take_letters(&mut self, bytes: &[u8], from: usize) -> usize
        requires open { self.old.reader.closed ≡ false }
        requires within { self.old.place ≡ place.Within }
        requires there { from ≤ length bytes.now }
        ensures stands { (f : FormulaValue) (text : List ℕ)
            → StandsForLines f self.old (text ++ take from bytes.now)
            → StandsForLines f self.new (text ++ take result bytes.now) }
        ensures order { from ≤ result }
        ensures inside { result ≤ length bytes.now }
    {
        let mut word = self.word;
        let mut place = from;
        while is_letter_at(bytes, place) {
            word = word.with(bytes[place]);
            place += 1;
        }
        self.word = word;
        place
    }

    /// Takes the byte at a place, and those of a word behind it; the place behind these.
    fn take_more(&mut self, bytes: &[u8], from: usize) -> usize
        requires { from < length bytes.now }
        ensures stands { (f : FormulaValue) (text : List ℕ)
            → StandsForLines f self.old (text ++ take from bytes.now)
            → StandsForLines f self.new (text ++ take result bytes.now) }
        ensures order { from < result }
        ensures inside { result ≤ length bytes.now }
    {
        self.take(bytes[from]);
        if self.is_closed() {
            return from + 1;
        }
        match self.place() {
            Place::Within => self.take_letters(bytes, from + 1),
            Place::Begins => from + 1,
            Place::Comment => from + 1,
        }
    }

    /// Takes bytes of the text behind those before.
    pub(crate) fn feed(&mut self, bytes: &[u8])
        ensures { (f : FormulaValue) (text : List ℕ) → StandsForLines f self.old text
            → StandsForLines f self.new (text ++ bytes.now) }
    {
        let mut place = 0;
        while place < bytes.len() {
            place = self.take_more(bytes, place);
        }
    }

    /// The text ends.
    fn end_text(&mut self)
        ensures { (f : FormulaValue) (text : List ℕ) → StandsForLines f self.old text
            → EndsText f self.new text }
    {
        if self.is_closed() {
            return;
        }
        self.end_word();
    }

    /// The judgement of the text, which ends.
    ///
    /// Errors: `NoMemory` where a growth was refused.
    pub(crate) fn judgement(&mut self) -> Result<Judgement, ClauseFault>
        ensures { (f : FormulaValue) (text : List ℕ) → StandsForLines f self.old text
            → IfOk result (λ j. JudgesReading f (read_text_proof f.variables text) j) }
    {
        self.end_text();
        self.reader.finish(self.line)
    }

    /// Takes a word of a proof in the binary form, of a step with a number.
    pub(crate) fn take_word(&mut self, step: u64, token: Token)
        requires open { self.old.reader.closed ≡ false }
        requires below { IsBelow (2 * self.old.variables + 2) token }
        ensures words { (f : FormulaValue) (marks : List Mark)
            → StandsForWords f self.old.reader marks
            → StandsForWords f self.new.reader (marks ++ mark step (token_said token) ∷ []) }
        ensures variables { self.new.variables ≡ self.old.variables }
    {
        self.reader.take(step, token);
    }

    /// A fault is met in a step of a proof in the binary form.
    pub(crate) fn refuse(&mut self, step: u64, why: Why)
        requires { self.old.reader.closed ≡ false }
        ensures words { (f : FormulaValue) (marks : List Mark)
            → StandsForWords f self.old.reader marks
            → StandsForWords f self.new.reader (marks ++ mark step (faulty why) ∷ []) }
        ensures closed { self.new.reader.closed ≡ true }
        ensures variables { self.new.variables ≡ self.old.variables }
    {
        self.reader.refuse(step, why);
    }

    /// The judgement of the words of a proof in the binary form, which end.
    ///
    /// Errors: `NoMemory` where a growth was refused.
    pub(crate) fn judge_words(&mut self) -> Result<Judgement, ClauseFault>
        ensures { (f : FormulaValue) (marks : List Mark) (reading : ProofReading)
            → StandsForWords f self.old.reader marks
            → (self.old.reader.failed ≡ false → reading ≡ reading_from 0 false [] marks)
            → IfOk result (λ j. JudgesReading f reading j) }
    {
        self.reader.finish(0)
    }
}
