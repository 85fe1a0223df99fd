//! What a word of a proof with hints says, in the text form or in the binary form.
ghost use Rattle.std.specs.Prelude.{◌≡◌, List, ℕ};
ghost use Rattle.drup.specs.Words.{SpellsWord};
ghost use Rattle.lrat.specs.HintedProofs.{token_of};
ghost use Rattle.lrat.specs.Words.{token_said};

use drup::{Said, Why, Word};

/// What a word says.
#[derive(Clone, Copy)]
pub(crate) enum Token {
    /// A list ends.
    Ends,
    /// The step takes clauses away.
    Deletes,
    /// In the binary form, a step that adds a clause begins.
    Adds,
    /// In the binary form, a step that takes clauses away begins.
    Removes,
    /// A number.
    Number(u64),
    /// A number with a minus.
    Negative(u64),
    /// The word is refused.
    Faulty(Why),
}

impl Token {
    /// What a word of the text form says.
    pub(crate) fn of_word(word: Word) -> Token
        ensures { (bytes : List ℕ) → SpellsWord word bytes → token_said result ≡ token_of bytes }
    {
        match word.said() {
            Said::Zero => Token::Ends,
            Said::Letter => Token::Deletes,
            Said::Number(number) => Token::Number(number),
            Said::Negative(number) => Token::Negative(number),
            Said::Nothing => Token::Faulty(Why::BadWord),
        }
    }
}
