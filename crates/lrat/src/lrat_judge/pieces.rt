//! Bytes of a text in the binary form, by whole numbers where these are there.
ghost use Rattle.std.specs.Prelude.{◌≡◌, ◌+◌, ◌^◌, ◌<◌, ◌≤◌, ◌++◌, List, ℕ, true, length, take};
ghost use Rattle.drup.specs.Formula.{Formula as FormulaValue};
ghost use Rattle.lrat.specs.HintedProofs.{number};
ghost use Rattle.lrat.specs.BinaryLratTexts.{WritesNumber};
ghost use Rattle.lrat.specs.StepReaders.{ReadsLiterals, ReadsHints};
ghost use Rattle.lrat.specs.Scans.{BeginsNumber, EndsList, BeginsAddition};
ghost use Rattle.lrat.specs.LratJudges.{StandsForBytes};
ghost use Rattle.lrat.specs.declared.lrat_judge.Form.TheVariants as form;
ghost use Rattle.lrat.specs.declared.scan.Spot.TheVariants as spot;

use crate::coded::coded_at;
use crate::lrat_judge::LratJudge;

impl LratJudge {
    /// Whether a number begins with the next byte.
    #[inline(always)]
    fn begins_number(&self) -> bool
        ensures { result ≡ true → BeginsNumber self.now.scan }
    {
        self.scan.begins_number()
    }

    /// Whether a list ends with the next byte, where it begins a number or ends a list.
    #[inline(always)]
    fn ends_list(&self, byte: u8) -> bool
        ensures { result ≡ true → EndsList self.now.scan byte }
    {
        self.scan.ends_list(byte)
    }

    /// Whether a step that adds a clause begins with the next byte.
    #[inline(always)]
    fn begins_addition(&self, byte: u8) -> bool
        ensures { result ≡ true → BeginsAddition self.now.scan byte }
    {
        self.scan.begins_addition(byte)
    }

    /// Takes bytes of a text in the binary form from a place on: a whole number where it is there, else a byte; answers the place
    /// behind these. Where nothing more is read it takes all.
    #[inline(always)]
    fn take_piece(&mut self, bytes: &[u8], at: usize) -> usize
        requires { at < length bytes.now }
        ensures stands { (f : FormulaValue) (text : List ℕ)
            → StandsForBytes f self.old (text ++ take at bytes.now)
            → StandsForBytes f self.new (text ++ take result bytes.now) }
        ensures form { self.new.form ≡ self.old.form }
        ensures behind { (at < result) × (result ≤ length bytes.now) }
    {
        if self.is_closed() {
            return bytes.len();
        }
        let byte = bytes[at];
        if self.begins_number() {
            if self.ends_list(byte) {
                self.end_list();
                return at + 1;
            }
            match coded_at(bytes, at) {
                Some((number, end)) => {
                    self.take_number(number);
                    return end;
                }
                None => {}
            }
        }
        if self.begins_addition(byte) {
            self.begin_addition();
            return at + 1;
        }
        self.take_byte(byte);
        at + 1
    }

    /// Takes a number from 1 on among literals.
    #[inline(always)]
    fn take_literal(&mut self, number: u64)
        requires begins { BeginsNumber self.old.scan }
        requires literal { self.old.scan.spot ≡ spot.Literal }
        requires reads { ReadsLiterals self.old.text.reader }
        requires low { number < 2 ^ 64 }
        ensures stands { (f : FormulaValue) (text word : List ℕ) → WritesNumber number word
            → StandsForBytes f self.old text → StandsForBytes f self.new (text ++ word) }
        ensures form { self.new.form ≡ self.old.form }
        ensures scan { self.new.scan ≡ self.old.scan }
    {
        self.text
            .take_among_literals(self.scan.step(), number % 2 != 0, number / 2);
    }

    /// Takes a number from 1 on among hints.
    #[inline(always)]
    fn take_hint(&mut self, number: u64)
        requires begins { BeginsNumber self.old.scan }
        requires other { self.old.scan.spot ≡ spot.Other }
        requires reads { ReadsHints self.old.text.reader }
        requires low { number < 2 ^ 64 }
        ensures stands { (f : FormulaValue) (text word : List ℕ) → WritesNumber number word
            → StandsForBytes f self.old text → StandsForBytes f self.new (text ++ word) }
        ensures form { self.new.form ≡ self.old.form }
        ensures scan { self.new.scan ≡ self.old.scan }
    {
        self.text.take_among_hints(self.scan.step(), number);
    }

    /// Takes literals of a step from a place on, where one begins there; answers the place behind them.
    #[inline(always)]
    fn take_literals(&mut self, bytes: &[u8], at: usize) -> usize
        requires { at ≤ length bytes.now }
        ensures stands { (f : FormulaValue) (text : List ℕ)
            → StandsForBytes f self.old (text ++ take at bytes.now)
            → StandsForBytes f self.new (text ++ take result bytes.now) }
        ensures form { self.new.form ≡ self.old.form }
        ensures behind { (at ≤ result) × (result ≤ length bytes.now) }
    {
        if !self.scan.begins_literal() {
            return at;
        }
        let mut next = at;
        while next < bytes.len() {
            if !self.text.reads_literals() {
                return next;
            }
            match coded_at(bytes, next) {
                Some((number, end)) => {
                    self.take_literal(number);
                    next = end;
                }
                None => return next,
            }
        }
        next
    }

    /// Takes hints of a step from a place on, where one begins there; answers the place behind them.
    #[inline(always)]
    fn take_hints(&mut self, bytes: &[u8], at: usize) -> usize
        requires { at ≤ length bytes.now }
        ensures stands { (f : FormulaValue) (text : List ℕ)
            → StandsForBytes f self.old (text ++ take at bytes.now)
            → StandsForBytes f self.new (text ++ take result bytes.now) }
        ensures form { self.new.form ≡ self.old.form }
        ensures behind { (at ≤ result) × (result ≤ length bytes.now) }
    {
        if !self.scan.begins_other() {
            return at;
        }
        let mut next = at;
        while next < bytes.len() {
            if !self.text.reads_hints() {
                return next;
            }
            match coded_at(bytes, next) {
                Some((number, end)) => {
                    self.take_hint(number);
                    next = end;
                }
                None => return next,
            }
        }
        next
    }

    /// Takes bytes of a text in the binary form from a place on: a whole number or a byte, and behind it literals or hints;
    /// answers the place behind these.
    #[inline(always)]
    fn take_some(&mut self, bytes: &[u8], at: usize) -> usize
        requires { at < length bytes.now }
        ensures stands { (f : FormulaValue) (text : List ℕ)
            → StandsForBytes f self.old (text ++ take at bytes.now)
            → StandsForBytes f self.new (text ++ take result bytes.now) }
        ensures form { self.new.form ≡ self.old.form }
        ensures behind { (at < result) × (result ≤ length bytes.now) }
    {
        let next = self.take_piece(bytes, at);
        let behind = self.take_literals(bytes, next);
        self.take_hints(bytes, behind)
    }

    /// Takes bytes of a text in the binary form.
    pub(crate) fn feed_bytes(&mut self, bytes: &[u8])
        ensures stands { (f : FormulaValue) (text : List ℕ) → StandsForBytes f self.old text
            → StandsForBytes f self.new (text ++ bytes.now) }
        ensures form { self.new.form ≡ self.old.form }
    {
        let mut at = 0;
        while at < bytes.len() {
            at = self.take_some(bytes, at);
        }
    }
}
