//! The judge of proofs with hints, in the text form or in the binary form.
ghost use Rattle.std.specs.Prelude.{◌≡◌, ◌+◌, ◌*◌, ◌^◌, ◌<◌, ◌++◌, ◌∷◌, [], List, ℕ, false, if◌then◌else◌, All, IfOk, take};
ghost use Rattle.drup.specs.Formula.{Formula as FormulaValue};
ghost use Rattle.lrat.specs.HintedForms.{is_binary_lrat};
ghost use Rattle.lrat.specs.HintedProofs.{number};
ghost use Rattle.lrat.specs.BinaryHintedProofs.{literal_coded};
ghost use Rattle.lrat.specs.BinaryLratTexts.{WritesNumber};
ghost use Rattle.lrat.specs.Codes.{coded_said};
ghost use Rattle.lrat.specs.Words.{token_said};
ghost use Rattle.lrat.specs.Scans.{spot_of, BeginsNumber, EndsList, BeginsAddition};
ghost use Rattle.lrat.specs.LratJudgements.{judge_lrat};
ghost use Rattle.lrat.specs.LratJudges.{StandsForBytes, EndsBytes, StandsForLrat, EndsLrat};
ghost use Rattle.lrat.specs.declared.lrat_judge.Form.TheVariants as form;

mod pieces;

use crate::scan::Scan;
use crate::text_judge::TextJudge;
use crate::token::Token;
use base::Taker;
use drup::{ClauseFault, Formula, Judgement};
use std::alloc::Global;

/// In which form a text is.
#[derive(Clone, Copy)]
pub(crate) enum Form {
    /// No byte came.
    Empty,
    /// The text form.
    Lines,
    /// The binary form.
    Bytes,
}

/// Whether a text is in the binary form by its first byte.
fn is_letter(byte: u8) -> bool
    ensures { (bytes : List ℕ) → result ≡ is_binary_lrat (byte ∷ bytes) }
{
    byte == b'a' || byte == b'd'
}

/// A judge of proofs with hints over a formula, whose clauses it is given first: it is fed a text piece by piece, and keeps
/// none of it. A text is in the binary form where its first byte is `a` or `d`; else it is in the text form. Beside the clauses
/// that stand it holds the literals and hints of the step that has begun, and a fixed number of words. Where memory was wanting
/// it says so in the end.
///
/// Clauses see what it holds; which texts it stands for is a relation to that.
#[derive(Drop)]
pub struct LratJudge {
    // the judge of the text form, whose reader of steps has the words of the binary form too
    text: TextJudge,
    form: Form,
    // where the next byte stands in the binary form
    scan: Scan,
}

impl std::marker::Model for LratJudge {
    ghost use Rattle.lrat.specs.LratJudges.{LratJudge as LratJudgeValue, judge_of};

    ghost Value = { LratJudgeValue };

    ghost view = { judge_of };
}

impl LratJudge {
    /// A judge of proofs over so many variables, which has no clauses yet and stands for the empty text.
    ///
    /// Errors: `NoMemory` where a growth was refused.
    pub fn new(alloc: Global, variables: u32) -> Result<LratJudge, ClauseFault>
        requires { variables < 2147483647 }
        ensures stands { IfOk result
            (λ judge. StandsForLrat (record { variables = variables; clauses = [] }) judge []) }
        ensures variables { IfOk result (λ judge. judge.variables ≡ variables) }
    {
        let text = TextJudge::new(alloc, variables)?;
        Ok(LratJudge {
            text,
            form: Form::Empty,
            scan: Scan::new(),
        })
    }

    /// A judge of proofs over a formula, which has its clauses and stands for the empty text.
    ///
    /// Errors: `NoMemory` where a growth was refused.
    pub fn over(alloc: Global, formula: &Formula) -> Result<LratJudge, ClauseFault>
        ensures { IfOk result (λ judge. StandsForLrat formula.now judge []) }
    {
        let mut judge = LratJudge::new(alloc, formula.variables())?;
        judge.give_each(formula);
        Ok(judge)
    }

    /// The same of a formula that it takes over: what it was given of that is held no longer, but for the last clauses.
    ///
    /// Errors: `NoMemory` where a growth was refused.
    pub fn taking_over(alloc: Global, formula: Formula) -> Result<LratJudge, ClauseFault>
        ensures { IfOk result (λ judge. StandsForLrat formula judge []) }
    {
        let mut judge = LratJudge::new(alloc, formula.variables())?;
        judge.give_all(formula);
        Ok(judge)
    }

    /// Takes all clauses of a formula of its variables, behind those before, and before any byte of the text.
    fn give_each(&mut self, formula: &Formula)
        requires { self.old.variables ≡ formula.now.variables }
        ensures stands { (f : FormulaValue) → StandsForLrat f self.old []
            → StandsForLrat (record f { clauses = f.clauses ++ formula.now.clauses }) self.new [] }
        ensures variables { self.new.variables ≡ self.old.variables }
    {
        for k in 0..formula.clause_count() {
            self.give(formula.clause(k));
        }
    }

    /// Takes all clauses of a formula of its variables, and gives its memory back.
    fn give_all(&mut self, formula: Formula)
        requires variables { self.old.variables ≡ formula.variables }
        requires begins { StandsForLrat (record { variables = formula.variables; clauses = [] })
            self.old [] }
        ensures { StandsForLrat formula self.new [] }
    {
        let mut rest = formula;
        while rest.clause_count() > 0 {
            let front = rest.take_front();
            self.give_each(&front);
        }
    }

    /// Takes a clause of the formula, behind those before, and before any byte of the text.
    pub fn give(&mut self, clause: &[u32])
        requires { All (λ l. l < 2 * self.old.variables + 2) clause.now }
        ensures stands { (f : FormulaValue) → StandsForLrat f self.old []
            → StandsForLrat (record f { clauses = f.clauses ++ clause.now ∷ [] }) self.new [] }
        ensures variables { self.new.variables ≡ self.old.variables }
    {
        self.text.give(clause);
    }

    /// In which form the text is.
    fn form(&self) -> Form
        ensures { result ≡ self.now.form }
    {
        self.form
    }

    /// Whether nothing more is read.
    fn is_closed(&self) -> bool
        ensures { result ≡ self.now.text.reader.closed }
    {
        self.text.is_closed()
    }

    /// Takes a byte without the top bit, with which a piece of the binary form ends.
    fn end_piece(&mut self, byte: u8)
        requires open { self.old.text.reader.closed ≡ false }
        requires last { byte < 128 }
        ensures stands { (f : FormulaValue) (text : List ℕ) → StandsForBytes f self.old text
            → StandsForBytes f self.new (text ++ byte ∷ []) }
        ensures form { self.new.form ≡ self.old.form }
    {
        self.text.take_word(self.scan.step(), self.scan.token(byte));
        self.scan = self.scan.behind(byte);
    }

    /// Takes a byte with the top bit, of a piece of the binary form of which more follows.
    fn go_on(&mut self, byte: u8)
        requires open { self.old.text.reader.closed ≡ false }
        requires top { 127 < byte }
        ensures stands { (f : FormulaValue) (text : List ℕ) → StandsForBytes f self.old text
            → StandsForBytes f self.new (text ++ byte ∷ []) }
        ensures form { self.new.form ≡ self.old.form }
    {
        self.scan = self.scan.with(byte);
    }

    /// Takes a whole piece of the binary form that is a number from 1 on, which says this.
    #[inline(always)]
    fn take_coded(&mut self, token: Token)
        requires open { self.old.text.reader.closed ≡ false }
        requires begins { BeginsNumber self.old.scan }
        ensures stands { (f : FormulaValue) (text word : List ℕ) (n : ℕ) → n < 2 ^ 64
            → WritesNumber n word → token_said token ≡ coded_said (spot_of self.old.scan.spot) n
            → StandsForBytes f self.old text → StandsForBytes f self.new (text ++ word) }
        ensures form { self.new.form ≡ self.old.form }
    {
        self.text.take_word(self.scan.step(), token);
        self.scan = self.scan.behind_number();
    }

    /// Whether a number is a literal where it is the piece that begins.
    #[inline(always)]
    fn is_literal(&self) -> bool
        ensures { (n : ℕ) → coded_said (spot_of self.now.scan.spot) n
            ≡ (if result then literal_coded n else number n) }
    {
        self.scan.is_literal()
    }

    /// Takes a number from 1 on, which is a whole piece of the binary form.
    #[inline(always)]
    fn take_number(&mut self, number: u64)
        requires open { self.old.text.reader.closed ≡ false }
        requires begins { BeginsNumber self.old.scan }
        requires low { number < 2 ^ 64 }
        ensures stands { (f : FormulaValue) (text word : List ℕ) → WritesNumber number word
            → StandsForBytes f self.old text → StandsForBytes f self.new (text ++ word) }
        ensures form { self.new.form ≡ self.old.form }
    {
        // the reader of steps is written out for each
        if !self.is_literal() {
            self.take_coded(Token::Number(number));
            return;
        }
        if number % 2 == 0 {
            self.take_coded(Token::Number(number / 2));
            return;
        }
        self.take_coded(Token::Negative(number / 2));
    }

    /// Takes the byte with which a step of the binary form begins that adds a clause.
    #[inline(always)]
    fn begin_addition(&mut self)
        requires open { self.old.text.reader.closed ≡ false }
        requires begins { BeginsAddition self.old.scan 97 }
        ensures stands { (f : FormulaValue) (text : List ℕ) → StandsForBytes f self.old text
            → StandsForBytes f self.new (text ++ 97 ∷ []) }
        ensures form { self.new.form ≡ self.old.form }
    {
        self.text.take_word(self.scan.step(), Token::Adds);
        self.scan = self.scan.in_addition();
    }

    /// Takes the byte that ends a list of the binary form.
    #[inline(always)]
    fn end_list(&mut self)
        requires open { self.old.text.reader.closed ≡ false }
        requires begins { BeginsNumber self.old.scan }
        requires ends { EndsList self.old.scan 0 }
        ensures stands { (f : FormulaValue) (text : List ℕ) → StandsForBytes f self.old text
            → StandsForBytes f self.new (text ++ 0 ∷ []) }
        ensures form { self.new.form ≡ self.old.form }
    {
        self.text.take_word(self.scan.step(), Token::Ends);
        self.scan = self.scan.behind_list();
    }

    /// Takes a byte of a text in the binary form behind those before.
    #[inline(never)]
    fn take_byte(&mut self, byte: u8)
        ensures stands { (f : FormulaValue) (text : List ℕ) → StandsForBytes f self.old text
            → StandsForBytes f self.new (text ++ byte ∷ []) }
        ensures form { self.new.form ≡ self.old.form }
    {
        if self.is_closed() {
            return;
        }
        if byte < 128 {
            self.end_piece(byte);
            return;
        }
        self.go_on(byte);
    }

    /// Takes the first byte of a text.
    fn begin(&mut self, byte: u8)
        requires { self.old.form ≡ form.Empty }
        ensures { (f : FormulaValue) (text : List ℕ) → StandsForLrat f self.old text
            → StandsForLrat f self.new (text ++ byte ∷ []) }
    {
        if is_letter(byte) {
            self.form = Form::Bytes;
            self.take_byte(byte);
            return;
        }
        self.form = Form::Lines;
        self.text.take(byte);
    }

    /// Takes a byte of the text behind those before.
    fn take(&mut self, byte: u8)
        ensures { (f : FormulaValue) (text : List ℕ) → StandsForLrat f self.old text
            → StandsForLrat f self.new (text ++ byte ∷ []) }
    {
        match self.form() {
            Form::Empty => self.begin(byte),
            Form::Lines => self.text.take(byte),
            Form::Bytes => self.take_byte(byte),
        }
    }

    /// Takes bytes of the text one by one.
    fn take_all(&mut self, bytes: &[u8])
        ensures { (f : FormulaValue) (text : List ℕ) → StandsForLrat f self.old text
            → StandsForLrat f self.new (text ++ bytes.now) }
    {
        for byte in bytes {
            self.take(*byte);
        }
    }

    /// Takes bytes in the form that is known by those before, or one by one.
    fn feed_rest(&mut self, bytes: &[u8])
        ensures { (f : FormulaValue) (text : List ℕ) → StandsForLrat f self.old text
            → StandsForLrat f self.new (text ++ bytes.now) }
    {
        match self.form() {
            Form::Empty => self.take_all(bytes),
            Form::Lines => self.text.feed(bytes),
            Form::Bytes => self.feed_bytes(bytes),
        }
    }

    /// Takes a piece of the text behind those before: a judge that stood for a text stands for that text with the piece
    /// behind it.
    pub fn feed(&mut self, bytes: &[u8])
        ensures { (f : FormulaValue) (text : List ℕ) → StandsForLrat f self.old text
            → StandsForLrat f self.new (text ++ bytes.now) }
    {
        // behind a byte the form is known
        let (front, rest) = bytes.split_at(bytes.len().min(1));
        self.take_all(front);
        self.feed_rest(rest);
    }

    /// A text in the binary form ends.
    fn end_bytes(&mut self)
        ensures ends { (f : FormulaValue) (text : List ℕ) → StandsForBytes f self.old text
            → EndsBytes f self.new text }
        ensures form { self.new.form ≡ self.old.form }
    {
        if self.is_closed() {
            return;
        }
        match self.scan.cut() {
            None => {}
            Some(why) => self.text.refuse(self.scan.step(), why),
        }
    }

    /// The text ends.
    fn end(&mut self)
        ensures { (f : FormulaValue) (text : List ℕ) → StandsForLrat f self.old text
            → EndsLrat f self.new text }
    {
        match self.form() {
            Form::Empty => {}
            Form::Lines => {}
            Form::Bytes => self.end_bytes(),
        }
    }

    /// The judgement of a text that has ended.
    fn judgement(self) -> Result<Judgement, ClauseFault>
        ensures { (f : FormulaValue) (text : List ℕ) → EndsLrat f self text
            → IfOk result (λ j. j ≡ judge_lrat f text) }
    {
        let LratJudge {
            text,
            form,
            scan: _,
        } = self;
        match form {
            Form::Empty => text.finish(),
            Form::Lines => text.finish(),
            Form::Bytes => text.finish_words(),
        }
    }

    /// The judgement of the text: of every one that the judge stands for. A judgement's line is that of a text in the text
    /// form, and the number of the step, counted from 1, of one in the binary form.
    ///
    /// Errors: `NoMemory` where a growth was refused.
    pub fn finish(self) -> Result<Judgement, ClauseFault>
        ensures { (f : FormulaValue) (text : List ℕ) → StandsForLrat f self text
            → IfOk result (λ j. j ≡ judge_lrat f text) }
    {
        let mut judge = self;
        judge.end();
        judge.judgement()
    }
}

impl Taker<()> for LratJudge {
    ghost use Rattle.std.specs.Prelude.{false};
    ghost use Rattle.drup.specs.Formula.{Formula as FormulaValue};
    ghost use Rattle.lrat.specs.LratJudges.{StandsForLrat};

    ghost Over = { FormulaValue };

    ghost stands = { λ f output judge text. StandsForLrat f judge text };

    ghost is_done = { λ judge. false };

    fn take(&mut self, _output: &mut (), piece: &[u8]) {
        self.feed(piece);
    }

    fn is_done(&self) -> bool {
        false
    }
}
