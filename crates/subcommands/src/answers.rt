//! What a command answers that is done.

ghost use Rattle.std.specs.Prelude.{◌≡◌};
ghost use Rattle.subcommands.specs.Done.{IsSo, answered, status_of};

use invocation::{DONE, NOT_ACCEPTED};
use verbs::Refusal;
use witness::Judgement;

/// The answer of a command that is done: what it was to write is written.
#[derive(Clone, Copy, PartialEq, Eq)]
pub enum Answer {
    /// All is done, the witness is accepted, or all vectors agree.
    Done,
    /// The witness is not accepted, or a vector differs.
    NotAccepted,
}

impl Answer {
    /// The answer of a judgement.
    pub fn of(judgement: &Judgement) -> Answer
        ensures { IsSo result judgement.now }
    {
        match judgement {
            Judgement::Accepted { .. } => Answer::Done,
            _ => Answer::NotAccepted,
        }
    }

    /// Its exit status.
    pub fn status(self) -> u8
        ensures { result ≡ status_of self }
    {
        match self {
            Answer::Done => DONE,
            Answer::NotAccepted => NOT_ACCEPTED,
        }
    }
}

/// The answer of a verb that is done or not.
pub fn answered(done: Result<(), Refusal>) -> Result<Answer, Refusal>
    ensures { result ≡ answered done }
{
    match done {
        Ok(()) => Ok(Answer::Done),
        Err(refusal) => Err(refusal),
    }
}
