//! The judge of proofs, in the text form or in the binary form.
ghost use Rattle.std.specs.Prelude.{◌≡◌, ◌+◌, ◌*◌, ◌<◌, ◌++◌, ◌∷◌, [], List, ℕ, false, All, IfOk};
ghost use Rattle.drup.specs.Formula.{Formula as FormulaValue};
ghost use Rattle.drup.specs.Judgements.{JudgesProof, JudgesReading};
ghost use Rattle.drup.specs.BinaryProofs.{read_binary_proof};
ghost use Rattle.drup.specs.ProofJudges.{ProofJudge as ProofJudgeValue, is_within, StandsForBytes, StandsForText, EndsBytes};
ghost use Rattle.drup.specs.declared.proof_judge.Form.TheVariants as form;

use crate::fault::ClauseFault;
use crate::formula::Formula;
use crate::judgement::Judgement;
use crate::lines::is_too_many;
use crate::number::Number;
use crate::text_judge::TextJudge;
use crate::why::Why;
use crate::word::Token;
use base::Taker;
use std::alloc::Global;

/// In which form a text is, and where the next byte stands in the binary form.
#[derive(Clone, Copy)]
pub(crate) enum Form {
    /// No byte came.
    Empty,
    /// A `d` came, by which the form is not known yet.
    Letter,
    /// It is in the text form.
    Lines,
    /// It is in the binary form, and no step has begun.
    Steps,
    /// It is in the binary form, within a step.
    Literals,
}

/// A judge of proofs over a formula, whose clauses it is given first: it is fed a text piece by piece, and keeps none of it.
/// A text is in the binary form where its first byte is `a`, or is `d`, and the second is there and is no space; else it is
/// in the text form. Beside the judge of its steps it holds the literals of the step that has begun, and a fixed number of
/// words. Where memory was wanting it says so in the end.
///
/// Clauses see what it holds; which texts it stands for is a relation to that.
#[derive(Drop)]
pub struct ProofJudge {
    // the judge of the text form, whose reader of steps has the words of the binary form too
    text: TextJudge,
    form: Form,
    // the number of the step in the binary form, counted from 1
    step: u64,
    // the number that has begun in the binary form
    number: Number,
}

impl std::marker::Model for ProofJudge {
    ghost use Rattle.drup.specs.ProofJudges.{ProofJudge as ProofJudgeValue, judge_of};

    ghost Value = { ProofJudgeValue };

    ghost view = { judge_of };
}

impl ProofJudge {
    /// A judge of proofs over so many variables, which has no clauses yet and stands for the empty text.
    ///
    /// Errors: `NoMemory` where a growth was refused.
    pub fn new(alloc: Global, variables: u32) -> Result<ProofJudge, ClauseFault>
        requires { variables < 2147483647 }
        ensures stands { IfOk result
            (λ judge. StandsForText (record { variables = variables; clauses = [] }) judge []) }
        ensures variables { IfOk result (λ judge. judge.variables ≡ variables) }
    {
        let text = TextJudge::new(alloc, variables)?;
        Ok(ProofJudge {
            text,
            form: Form::Empty,
            step: 1,
            number: Number::new(),
        })
    }

    /// A judge of proofs over a formula, which has its clauses and stands for the empty text.
    ///
    /// Errors: `NoMemory` where a growth was refused.
    pub fn over(alloc: Global, formula: &Formula) -> Result<ProofJudge, ClauseFault>
        ensures { IfOk result (λ judge. StandsForText formula.now judge []) }
    {
        let mut judge = ProofJudge::new(alloc, formula.variables())?;
        judge.give_each(formula);
        Ok(judge)
    }

    /// The same of a formula that it takes over: what it was given of that is held no longer, but for the last clauses.
    ///
    /// Errors: `NoMemory` where a growth was refused.
    pub fn taking_over(alloc: Global, formula: Formula) -> Result<ProofJudge, ClauseFault>
        ensures { IfOk result (λ judge. StandsForText formula judge []) }
    {
        let mut judge = ProofJudge::new(alloc, formula.variables())?;
        judge.give_all(formula);
        Ok(judge)
    }

    /// Takes all clauses of a formula of its variables, behind those before, and before any byte of the text.
    fn give_each(&mut self, formula: &Formula)
        requires { self.old.variables ≡ formula.now.variables }
        ensures stands { (f : FormulaValue) → StandsForText f self.old []
            → StandsForText (record f { clauses = f.clauses ++ formula.now.clauses }) self.new [] }
        ensures variables { self.new.variables ≡ self.old.variables }
    {
        for k in 0..formula.clause_count() {
            self.give(formula.clause(k));
        }
    }

    /// Takes all clauses of a formula of its variables, and gives its memory back.
    fn give_all(&mut self, formula: Formula)
        requires variables { self.old.variables ≡ formula.variables }
        requires begins { StandsForText (record { variables = formula.variables; clauses = [] })
            self.old [] }
        ensures { StandsForText formula self.new [] }
    {
        let mut rest = formula;
        while rest.clause_count() > 0 {
            let front = rest.take_front();
            self.give_each(&front);
        }
    }

    /// Takes a clause of the formula, behind those before, and before any byte of the text.
    pub fn give(&mut self, clause: &[u32])
        requires { All (λ l. l < 2 * self.old.variables + 2) clause.now }
        ensures stands { (f : FormulaValue) → StandsForText f self.old []
            → StandsForText (record f { clauses = f.clauses ++ clause.now ∷ [] }) self.new [] }
        ensures variables { self.new.variables ≡ self.old.variables }
    {
        self.text.give(clause);
    }

    /// In which form the text is.
    fn form(&self) -> Form
        ensures { result ≡ self.now.form }
    {
        self.form
    }

    /// Whether nothing more is read.
    fn is_closed(&self) -> bool
        ensures { result ≡ self.now.text.reader.closed }
    {
        self.text.is_closed()
    }

    /// Whether the next byte stands within a step of the binary form.
    fn is_within(&self) -> bool
        ensures { result ≡ is_within self.now.form }
    {
        match self.form {
            Form::Literals => true,
            Form::Empty | Form::Letter | Form::Lines | Form::Steps => false,
        }
    }

    /// Takes the byte by which a step begins.
    fn begin_step(&mut self, byte: u8)
        requires open { self.old.text.reader.closed ≡ false }
        requires before { self.old.form ≡ form.Steps }
        ensures { (f : FormulaValue) (text : List ℕ) → StandsForBytes f self.old text
            → StandsForBytes f self.new (text ++ byte ∷ []) }
    {
        if is_too_many(self.step) {
            self.text.refuse(self.step, Why::TooLong);
            return;
        }
        if byte == b'a' {
            self.form = Form::Literals;
            return;
        }
        if byte == b'd' {
            self.text.take_word(self.step, Token::Deletes);
            self.form = Form::Literals;
            return;
        }
        self.text.refuse(self.step, Why::BadWord);
    }

    /// Takes a byte within a step.
    fn take_within(&mut self, byte: u8)
        requires open { self.old.text.reader.closed ≡ false }
        requires within { self.old.form ≡ form.Literals }
        ensures { (f : FormulaValue) (text : List ℕ) → StandsForBytes f self.old text
            → StandsForBytes f self.new (text ++ byte ∷ []) }
    {
        if byte >= 128 {
            self.number = self.number.with(byte);
            return;
        }
        if self.number.is(byte, 0) {
            self.text.take_word(self.step, Token::Ends);
            self.step = self.step.saturating_add(1);
            self.form = Form::Steps;
            self.number = Number::new();
            return;
        }
        let token = self.number.token(byte, self.text.variables());
        self.text.take_word(self.step, token);
        self.number = Number::new();
    }

    /// Takes a byte of a text in the binary form behind those before.
    fn take_byte(&mut self, byte: u8)
        ensures { (f : FormulaValue) (text : List ℕ) → StandsForBytes f self.old text
            → StandsForBytes f self.new (text ++ byte ∷ []) }
    {
        if self.is_closed() {
            return;
        }
        match self.form() {
            Form::Steps => self.begin_step(byte),
            Form::Literals => self.take_within(byte),
            Form::Empty | Form::Letter | Form::Lines => {}
        }
    }

    /// Takes the first byte of a text.
    fn begin(&mut self, byte: u8)
        requires { self.old.form ≡ form.Empty }
        ensures { (f : FormulaValue) (text : List ℕ) → StandsForText f self.old text
            → StandsForText f self.new (text ++ byte ∷ []) }
    {
        if byte == b'd' {
            self.form = Form::Letter;
            return;
        }
        if byte == b'a' {
            self.form = Form::Steps;
            self.take_byte(byte);
            return;
        }
        self.form = Form::Lines;
        self.text.take(byte);
    }

    /// Takes the byte behind a first `d`, and by it both.
    fn go_on(&mut self, byte: u8)
        requires { self.old.form ≡ form.Letter }
        ensures { (f : FormulaValue) (text : List ℕ) → StandsForText f self.old text
            → StandsForText f self.new (text ++ byte ∷ []) }
    {
        if byte == b' ' {
            self.form = Form::Lines;
            self.text.take(b'd');
            self.text.take(byte);
            return;
        }
        self.form = Form::Steps;
        self.take_byte(b'd');
        self.take_byte(byte);
    }

    /// Takes a byte of the text behind those before.
    fn take(&mut self, byte: u8)
        ensures { (f : FormulaValue) (text : List ℕ) → StandsForText f self.old text
            → StandsForText f self.new (text ++ byte ∷ []) }
    {
        match self.form() {
            Form::Empty => self.begin(byte),
            Form::Letter => self.go_on(byte),
            Form::Lines => self.text.take(byte),
            Form::Steps => self.take_byte(byte),
            Form::Literals => self.take_byte(byte),
        }
    }

    /// Takes bytes of the text one by one.
    fn take_all(&mut self, bytes: &[u8])
        ensures { (f : FormulaValue) (text : List ℕ) → StandsForText f self.old text
            → StandsForText f self.new (text ++ bytes.now) }
    {
        for byte in bytes {
            self.take(*byte);
        }
    }

    /// Takes bytes of a text in the binary form.
    fn feed_bytes(&mut self, bytes: &[u8])
        ensures { (f : FormulaValue) (text : List ℕ) → StandsForBytes f self.old text
            → StandsForBytes f self.new (text ++ bytes.now) }
    {
        for byte in bytes {
            self.take_byte(*byte);
        }
    }

    /// Takes bytes in the form that is known by those before, or one by one.
    fn feed_rest(&mut self, bytes: &[u8])
        ensures { (f : FormulaValue) (text : List ℕ) → StandsForText f self.old text
            → StandsForText f self.new (text ++ bytes.now) }
    {
        match self.form() {
            Form::Empty => self.take_all(bytes),
            Form::Letter => self.take_all(bytes),
            Form::Lines => self.text.feed(bytes),
            Form::Steps => self.feed_bytes(bytes),
            Form::Literals => self.feed_bytes(bytes),
        }
    }

    /// Takes a piece of the text behind those before: a judge that stood for a text stands for that text with the piece
    /// behind it.
    pub fn feed(&mut self, bytes: &[u8])
        ensures { (f : FormulaValue) (text : List ℕ) → StandsForText f self.old text
            → StandsForText f self.new (text ++ bytes.now) }
    {
        // behind two bytes the form is known
        let (front, rest) = bytes.split_at(bytes.len().min(2));
        self.take_all(front);
        self.feed_rest(rest);
    }

    /// A text in the binary form ends.
    fn end_bytes(&mut self)
        ensures { (f : FormulaValue) (text : List ℕ) → StandsForBytes f self.old text
            → EndsBytes f self.new text }
    {
        if self.is_closed() {
            return;
        }
        if self.is_within() {
            self.text.refuse(self.step, Why::CutOff);
        }
    }

    /// The judgement of a text in the binary form, which ends.
    fn judge_bytes(&mut self) -> Result<Judgement, ClauseFault>
        ensures { (f : FormulaValue) (text : List ℕ) → StandsForBytes f self.old text
            → IfOk result (λ j. JudgesReading f (read_binary_proof f.variables text) j) }
    {
        self.end_bytes();
        self.text.judge_words()
    }

    /// The judgement of the text, which ends.
    fn judgement(&mut self) -> Result<Judgement, ClauseFault>
        ensures { (f : FormulaValue) (text : List ℕ) → StandsForText f self.old text
            → IfOk result (λ j. JudgesProof f text j) }
    {
        match self.form() {
            Form::Empty => self.text.judgement(),
            Form::Letter => {
                self.text.take(b'd');
                self.text.judgement()
            }
            Form::Lines => self.text.judgement(),
            Form::Steps => self.judge_bytes(),
            Form::Literals => self.judge_bytes(),
        }
    }

    /// The judgement of the text: of every one that the judge stands for. A judgement's line is that of a text in the text
    /// form, and the number of the step, counted from 1, of one in the binary form.
    ///
    /// Errors: `NoMemory` where a growth was refused.
    pub fn finish(self) -> Result<Judgement, ClauseFault>
        ensures { (f : FormulaValue) (text : List ℕ) → StandsForText f self text
            → IfOk result (λ j. JudgesProof f text j) }
    {
        let mut judge = self;
        judge.judgement()
    }
}

impl Taker<()> for ProofJudge {
    ghost use Rattle.std.specs.Prelude.{false};
    ghost use Rattle.drup.specs.Formula.{Formula as FormulaValue};
    ghost use Rattle.drup.specs.ProofJudges.{StandsForText};

    ghost Over = { FormulaValue };

    ghost stands = { λ f output judge text. StandsForText f judge text };

    ghost is_done = { λ judge. false };

    fn take(&mut self, _output: &mut (), piece: &[u8]) {
        self.feed(piece);
    }

    fn is_done(&self) -> bool {
        false
    }
}
