//! Pieces of a text, by whole words where these are there.
ghost use Rattle.std.specs.Prelude.{◌≡◌, ◌+◌, ◌-◌, ◌<◌, ◌≤◌, ◌++◌, ◌∷◌, ◌==◌, [], List, ℕ, true, false, IfSome, length, slice_index_or, take};
ghost use Rattle.drup.specs.Formula.{Formula as FormulaValue};
ghost use Rattle.lrat.specs.HintedProofs.{between};
ghost use Rattle.lrat.specs.Words.{signed};
ghost use Rattle.lrat.specs.StepReaders.{ReadsLiterals, ReadsHints};
ghost use Rattle.lrat.specs.TextJudges.{StandsForLines, IsBetween, IsReady};
ghost use Rattle.lrat.specs.WordsAt.{parts_words, IsWordOf, IsWordAt};
ghost use Rattle.lrat.specs.declared.token.Token.TheVariants as token;

use crate::text_judge::TextJudge;
use crate::token::Token;
use crate::word_at::{WordAt, letter_at, negative_at, number_at, positive_at, signed_at, zero_at};
use drup::{Place, is_too_many};

impl TextJudge {
    /// Whether a word that begins with a byte may be taken as a whole: none has begun, and the line is one of words.
    #[inline(always)]
    fn is_between(&self, byte: u8) -> bool
        ensures { result ≡ true → IsBetween self.now byte }
    {
        match self.place {
            Place::Begins => byte != b'c' && !is_too_many(self.line),
            Place::Within => self.word.is_empty(),
            Place::Comment => false,
        }
    }

    /// Takes a whole word, and the byte that parts it from what follows.
    #[inline(always)]
    fn take_whole(&mut self, token: Token, behind: u8)
        requires open { self.old.reader.closed ≡ false }
        requires parts { parts_words behind ≡ true }
        ensures stands { (f : FormulaValue) (text : List ℕ) (first : ℕ) (rest : List ℕ)
            → IsWordOf token (first ∷ rest) → IsBetween self.old first
            → StandsForLines f self.old text
            → StandsForLines f self.new (text ++ ((first ∷ rest) ++ behind ∷ [])) }
        ensures variables { self.new.reader.variables ≡ self.old.reader.variables }
    {
        self.place = Place::Within;
        self.reader.take(self.line, token);
        if behind == b'\n' {
            self.end_line();
        }
    }

    /// Takes the word that was found at a place, and the byte behind it, or else a byte; answers the place behind these.
    #[inline(always)]
    fn take_found(&mut self, bytes: &[u8], at: usize, found: Option<WordAt>) -> usize
        requires inside { at < length bytes.now }
        requires open { self.old.reader.closed ≡ false }
        requires between { IsBetween self.old (slice_index_or bytes.now at 0) }
        requires word { IfSome found (λ w. IsWordAt bytes.now at w) }
        ensures stands { (f : FormulaValue) (text : List ℕ)
            → StandsForLines f self.old (text ++ take at bytes.now)
            → StandsForLines f self.new (text ++ take result bytes.now) }
        ensures behind { (at < result) × (result ≤ length bytes.now) }
    {
        match found {
            Some(word) => {
                self.take_whole(word.token, bytes[word.end]);
                word.end + 1
            }
            None => {
                self.take(bytes[at]);
                at + 1
            }
        }
    }

    /// Takes bytes from a place on: a whole word and the byte behind it where they are there, else a byte; answers the place
    /// behind these. Where nothing more is read it takes all.
    #[inline(always)]
    fn take_from(&mut self, bytes: &[u8], at: usize) -> usize
        requires { at < length bytes.now }
        ensures stands { (f : FormulaValue) (text : List ℕ)
            → StandsForLines f self.old (text ++ take at bytes.now)
            → StandsForLines f self.new (text ++ take result bytes.now) }
        ensures behind { (at < result) × (result ≤ length bytes.now) }
    {
        if self.is_closed() {
            return bytes.len();
        }
        let byte = bytes[at];
        if !self.is_between(byte) {
            self.take(byte);
            return at + 1;
        }
        match byte {
            b'0' => self.take_found(bytes, at, zero_at(bytes, at)),
            b'-' => self.take_found(bytes, at, negative_at(bytes, at)),
            b'd' => self.take_found(bytes, at, letter_at(bytes, at)),
            _ => self.take_found(bytes, at, positive_at(bytes, at)),
        }
    }

    /// Whether the next byte stands in a line of words, and no word has begun.
    #[inline(always)]
    fn is_ready(&self) -> bool
        ensures { result ≡ true → IsReady self.now }
    {
        if !self.word.is_empty() {
            return false;
        }
        match self.place {
            Place::Within => true,
            Place::Begins | Place::Comment => false,
        }
    }

    /// Whether the next word is one of literals.
    #[inline(always)]
    pub(crate) fn reads_literals(&self) -> bool
        ensures { result ≡ true → ReadsLiterals self.now.reader }
    {
        self.reader.reads_literals()
    }

    /// Whether the next word is one of hints.
    #[inline(always)]
    pub(crate) fn reads_hints(&self) -> bool
        ensures { result ≡ true → ReadsHints self.now.reader }
    {
        self.reader.reads_hints()
    }

    /// Takes a whole number among literals, and the byte that parts it from what follows in the line.
    #[inline(always)]
    fn take_literal(&mut self, negative: bool, number: u64)
        requires ready { IsReady self.old }
        requires literals { ReadsLiterals self.old.reader }
        ensures stands { (f : FormulaValue) (text : List ℕ) (first : ℕ) (rest : List ℕ) (behind : ℕ)
            → IsWordOf (signed negative number) (first ∷ rest) → (behind == 10) ≡ false
            → parts_words behind ≡ true → StandsForLines f self.old text
            → StandsForLines f self.new (text ++ ((first ∷ rest) ++ behind ∷ [])) }
        ensures ready { IsReady self.new }
    {
        self.reader.take_among_literals(self.line, negative, number);
    }

    /// Takes literals of a line from a place on, as long as each is a number and followed by a blank; answers the place behind
    /// them.
    #[inline(always)]
    fn take_literals(&mut self, bytes: &[u8], at: usize) -> usize
        requires inside { at ≤ length bytes.now }
        requires ready { IsReady self.old }
        ensures stands { (f : FormulaValue) (text : List ℕ)
            → StandsForLines f self.old (text ++ take at bytes.now)
            → StandsForLines f self.new (text ++ take result bytes.now) }
        ensures behind { (at ≤ result) × (result ≤ length bytes.now) }
        ensures ready { IsReady self.new }
    {
        let mut next = at;
        while next < bytes.len() {
            if !self.reads_literals() {
                return next;
            }
            match signed_at(bytes, next) {
                Some((negative, number, behind)) => {
                    if bytes[behind] == b'\n' {
                        return next;
                    }
                    self.take_literal(negative, number);
                    next = behind + 1;
                }
                None => return next,
            }
        }
        next
    }

    /// Takes a whole number among hints, and the byte that parts it from what follows in the line.
    #[inline(always)]
    fn take_hint(&mut self, number: u64)
        requires ready { IsReady self.old }
        requires hints { ReadsHints self.old.reader }
        ensures stands { (f : FormulaValue) (text : List ℕ) (first : ℕ) (rest : List ℕ) (behind : ℕ)
            → IsWordOf (token.Number number) (first ∷ rest) → (behind == 10) ≡ false
            → parts_words behind ≡ true → StandsForLines f self.old text
            → StandsForLines f self.new (text ++ ((first ∷ rest) ++ behind ∷ [])) }
        ensures ready { IsReady self.new }
    {
        self.reader.take_among_hints(self.line, number);
    }

    /// Takes hints of a line from a place on, as long as each is a number and followed by a blank; answers the place behind them.
    #[inline(always)]
    fn take_hints(&mut self, bytes: &[u8], at: usize) -> usize
        requires inside { at ≤ length bytes.now }
        requires ready { IsReady self.old }
        ensures stands { (f : FormulaValue) (text : List ℕ)
            → StandsForLines f self.old (text ++ take at bytes.now)
            → StandsForLines f self.new (text ++ take result bytes.now) }
        ensures behind { (at ≤ result) × (result ≤ length bytes.now) }
        ensures ready { IsReady self.new }
    {
        let mut next = at;
        while next < bytes.len() {
            if !self.reads_hints() {
                return next;
            }
            match number_at(bytes, next) {
                Some((number, end)) => {
                    if bytes[end] == b'\n' {
                        return next;
                    }
                    self.take_hint(number);
                    next = end + 1;
                }
                None => return next,
            }
        }
        next
    }

    /// Takes the `0` at a place and the byte behind it, where it stands alone; answers the place behind these.
    #[inline(always)]
    fn take_zero(&mut self, bytes: &[u8], at: usize) -> usize
        requires inside { at ≤ length bytes.now }
        requires ready { IsReady self.old }
        ensures stands { (f : FormulaValue) (text : List ℕ)
            → StandsForLines f self.old (text ++ take at bytes.now)
            → StandsForLines f self.new (text ++ take result bytes.now) }
        ensures behind { (at ≤ result) × (result ≤ length bytes.now) }
    {
        if at >= bytes.len() || self.is_closed() {
            return at;
        }
        if bytes[at] != b'0' {
            return at;
        }
        match zero_at(bytes, at) {
            Some(zero) => {
                self.take_whole(zero.token, bytes[zero.end]);
                zero.end + 1
            }
            None => at,
        }
    }

    /// Takes hints of a line from a place on, and the `0` behind them, where the next word is one of hints; answers the place
    /// behind these.
    #[inline(always)]
    fn end_step(&mut self, bytes: &[u8], at: usize) -> usize
        requires { at ≤ length bytes.now }
        ensures stands { (f : FormulaValue) (text : List ℕ)
            → StandsForLines f self.old (text ++ take at bytes.now)
            → StandsForLines f self.new (text ++ take result bytes.now) }
        ensures behind { (at ≤ result) × (result ≤ length bytes.now) }
    {
        if !self.is_ready() {
            return at;
        }
        let next = self.take_hints(bytes, at);
        self.take_zero(bytes, next)
    }

    /// Takes bytes from a place on: a whole word or a byte, and behind it what is there of the rest of a step in a line, which are
    /// literals, a `0`, hints and a `0`; answers the place behind these.
    #[inline(always)]
    pub(crate) fn take_some(&mut self, bytes: &[u8], at: usize) -> usize
        requires { at < length bytes.now }
        ensures stands { (f : FormulaValue) (text : List ℕ)
            → StandsForLines f self.old (text ++ take at bytes.now)
            → StandsForLines f self.new (text ++ take result bytes.now) }
        ensures behind { (at < result) × (result ≤ length bytes.now) }
    {
        let next = self.take_from(bytes, at);
        if !self.is_ready() {
            return next;
        }
        let behind = self.take_literals(bytes, next);
        let zero = self.take_zero(bytes, behind);
        self.end_step(bytes, zero)
    }
}
