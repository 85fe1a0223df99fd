//! What each word of a step does to a reader of steps, by what has come of the step.
ghost use Rattle.std.specs.Prelude.{◌≡◌, ◌+◌, ◌*◌, ◌<◌, ◌++◌, ◌∷◌, [], List, ℕ, false, if◌then◌else◌};
ghost use Rattle.base.specs.Decimals.{is_nothing};
ghost use Rattle.drup.specs.Formula.{Formula};
ghost use Rattle.drup.specs.Words.{sign_of};
ghost use Rattle.drup.specs.Hints.{deletion};
ghost use Rattle.lrat.specs.Words.{token_said, signed};
ghost use Rattle.lrat.specs.HintedProofs.{number as is_number, Mark, mark, literals, hints, deletions, goes_on, gives, refuses, id_numbered, by_id, with_literal, first_taken, literal_taken, hint_taken, deletion_taken};
ghost use Rattle.drup.specs.declared.why.Why.TheVariants as why;
ghost use Rattle.lrat.specs.StepReaders.{StandsForWords, ReadsLiterals, ReadsHints, Takes};

use super::{Part, StepReader, is_nothing};
use crate::token::Token;
use drup::Why;

/// A number as an id, from 1 to 2^32 - 1.
fn id_of(number: u64) -> Option<u32>
    ensures { result ≡ id_numbered number }
{
    if number == 0 || number > 4294967295 {
        return None;
    }
    Some(number as u32)
}

/// The literal of a variable, which is its negation where it has a minus.
fn literal_of(negative: bool, number: u64) -> u32
    requires { number < 2147483647 }
    ensures { result ≡ 2 * number + sign_of negative }
{
    2 * number as u32 + u32::from(negative)
}

impl StepReader {
    /// Takes a number that is to be the id of a step.
    #[inline(always)]
    fn take_id(&mut self, line: u64, number: u64)
        requires { self.old.closed ≡ false }
        ensures takes { Takes self.old line
            (by_id (λ id. goes_on (literals id [])) (id_numbered number)) self.new }
        ensures variables { self.new.variables ≡ self.old.variables }
    {
        match id_of(number) {
            None => self.refuse(line, Why::BadWord),
            Some(id) => self.begin(id),
        }
    }

    /// Takes a word between two steps.
    #[inline(always)]
    fn take_first(&mut self, line: u64, token: Token)
        requires { self.old.closed ≡ false }
        ensures takes { Takes self.old line (first_taken (token_said token)) self.new }
        ensures variables { self.new.variables ≡ self.old.variables }
    {
        match token {
            Token::Ends => self.refuse(line, Why::BadWord),
            Token::Deletes => self.refuse(line, Why::BadWord),
            Token::Adds => self.stand_between(),
            Token::Removes => self.begin_deletions(),
            Token::Number(number) => self.take_id(line, number),
            Token::Negative(_) => self.refuse(line, Why::BadWord),
            Token::Faulty(why) => self.refuse(line, why),
        }
    }

    /// Takes a variable's number, which has a minus where its literal is the negation.
    #[inline(always)]
    fn take_variable(&mut self, line: u64, negative: bool, number: u64)
        requires { self.old.closed ≡ false }
        ensures takes { (id : ℕ) (clause : List ℕ) → self.old.begun ≡ literals id clause
            → Takes self.old line
            (with_literal self.old.variables id clause (sign_of negative) number) self.new }
        ensures variables { self.new.variables ≡ self.old.variables }
    {
        if number == 0 {
            self.refuse(line, Why::BadWord);
            return;
        }
        if number > u64::from(self.variables) {
            self.refuse(line, Why::BadVariable);
            return;
        }
        self.push_literal(literal_of(negative, number));
    }

    /// Takes a variable's number among literals, with a minus or without, which stands in a line.
    #[inline(always)]
    pub(crate) fn take_among_literals(&mut self, line: u64, negative: bool, number: u64)
        requires { ReadsLiterals self.old }
        ensures stands { (f : Formula) (marks : List Mark) → StandsForWords f self.old marks
            → StandsForWords f self.new
            (marks ++ mark line (token_said (signed negative number)) ∷ []) }
        ensures variables { self.new.variables ≡ self.old.variables }
    {
        self.take_variable(line, negative, number);
    }

    /// Whether the step that has begun has no literals.
    fn has_no_literals(&self) -> bool
        ensures { (id : ℕ) (clause : List ℕ) → self.now.begun ≡ literals id clause
            → result ≡ is_nothing clause }
    {
        is_nothing(&self.clause)
    }

    /// Takes a `d` behind an id and literals.
    #[cold]
    fn take_letter(&mut self, line: u64)
        requires { self.old.closed ≡ false }
        ensures takes { (id : ℕ) (clause : List ℕ) → self.old.begun ≡ literals id clause
            → Takes self.old line
            (if is_nothing clause then goes_on deletions else refuses why.BadWord) self.new }
        ensures variables { self.new.variables ≡ self.old.variables }
    {
        if self.has_no_literals() {
            self.begin_deletions();
            return;
        }
        self.refuse(line, Why::BadWord);
    }

    /// Takes a word behind an id and literals.
    #[inline(always)]
    fn take_literal(&mut self, line: u64, token: Token)
        requires { self.old.closed ≡ false }
        ensures takes { (id : ℕ) (clause : List ℕ) → self.old.begun ≡ literals id clause
            → Takes self.old line
            (literal_taken self.old.variables id clause (token_said token)) self.new }
        ensures variables { self.new.variables ≡ self.old.variables }
    {
        match token {
            Token::Ends => self.begin_hints(),
            Token::Deletes => self.take_letter(line),
            Token::Adds => self.refuse(line, Why::BadWord),
            Token::Removes => self.refuse(line, Why::BadWord),
            Token::Number(number) => self.take_variable(line, false, number),
            Token::Negative(number) => self.take_variable(line, true, number),
            Token::Faulty(why) => self.refuse(line, why),
        }
    }

    /// Takes a number as a hint.
    #[inline(always)]
    fn take_hint_id(&mut self, line: u64, number: u64)
        requires { self.old.closed ≡ false }
        ensures takes { (id : ℕ) (clause before : List ℕ)
            → self.old.begun ≡ hints id clause before → Takes self.old line
            (by_id (λ hint. goes_on (hints id clause (before ++ hint ∷ []))) (id_numbered number))
            self.new }
        ensures variables { self.new.variables ≡ self.old.variables }
    {
        match id_of(number) {
            None => self.refuse(line, Why::BadWord),
            Some(hint) => self.push_hint(hint),
        }
    }

    /// Takes a number among hints, which stands in a line.
    #[inline(always)]
    pub(crate) fn take_among_hints(&mut self, line: u64, number: u64)
        requires { ReadsHints self.old }
        ensures stands { (f : Formula) (marks : List Mark) → StandsForWords f self.old marks
            → StandsForWords f self.new (marks ++ mark line (is_number number) ∷ []) }
        ensures variables { self.new.variables ≡ self.old.variables }
    {
        self.take_hint_id(line, number);
    }

    /// Takes a number with a minus in front as a hint.
    #[cold]
    fn take_negative(&mut self, line: u64, number: u64)
        requires { self.old.closed ≡ false }
        ensures takes { Takes self.old line
            (by_id (λ hint. refuses why.RatStep) (id_numbered number)) self.new }
        ensures variables { self.new.variables ≡ self.old.variables }
    {
        match id_of(number) {
            None => self.refuse(line, Why::BadWord),
            Some(_) => self.refuse(line, Why::RatStep),
        }
    }

    /// Takes a word behind the `0` of a clause, and hints.
    #[inline(always)]
    fn take_hint(&mut self, line: u64, token: Token)
        requires { self.old.closed ≡ false }
        ensures takes { (id : ℕ) (clause before : List ℕ)
            → self.old.begun ≡ hints id clause before → Takes self.old line
            (hint_taken id clause before (token_said token)) self.new }
        ensures variables { self.new.variables ≡ self.old.variables }
    {
        match token {
            Token::Ends => self.end_addition(line),
            Token::Deletes => self.refuse(line, Why::BadWord),
            Token::Adds => self.refuse(line, Why::BadWord),
            Token::Removes => self.refuse(line, Why::BadWord),
            Token::Number(number) => self.take_hint_id(line, number),
            Token::Negative(number) => self.take_negative(line, number),
            Token::Faulty(why) => self.refuse(line, why),
        }
    }

    /// Takes a number as the id of a clause that is taken away.
    #[inline(always)]
    fn take_deleted(&mut self, line: u64, number: u64)
        requires { self.old.closed ≡ false }
        ensures takes { Takes self.old line
            (by_id (λ id. gives (deletion id) deletions) (id_numbered number)) self.new }
        ensures variables { self.new.variables ≡ self.old.variables }
    {
        match id_of(number) {
            None => self.refuse(line, Why::BadWord),
            Some(id) => self.delete(id, line),
        }
    }

    /// Takes a word behind a `d`.
    #[inline(always)]
    fn take_deletion(&mut self, line: u64, token: Token)
        requires { self.old.closed ≡ false }
        ensures takes { Takes self.old line (deletion_taken (token_said token)) self.new }
        ensures variables { self.new.variables ≡ self.old.variables }
    {
        match token {
            Token::Ends => self.stand_between(),
            Token::Deletes => self.refuse(line, Why::BadWord),
            Token::Adds => self.refuse(line, Why::BadWord),
            Token::Removes => self.refuse(line, Why::BadWord),
            Token::Number(number) => self.take_deleted(line, number),
            Token::Negative(_) => self.refuse(line, Why::BadWord),
            Token::Faulty(why) => self.refuse(line, why),
        }
    }

    /// Takes a word that stands in a line, where none before it was faulty.
    #[inline(always)]
    pub(crate) fn take(&mut self, line: u64, token: Token)
        requires { self.old.closed ≡ false }
        ensures stands { (f : Formula) (marks : List Mark) → StandsForWords f self.old marks
            → StandsForWords f self.new (marks ++ mark line (token_said token) ∷ []) }
        ensures variables { self.new.variables ≡ self.old.variables }
    {
        match self.part {
            Part::Between => self.take_first(line, token),
            Part::Literals => self.take_literal(line, token),
            Part::Hints => self.take_hint(line, token),
            Part::Deletions => self.take_deletion(line, token),
        }
    }
}
