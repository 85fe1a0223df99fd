//! What takes a text piece by piece, and the loop that gives it what a source gives.
ghost use Rattle.std.specs.Prelude.{◌≡◌, ℕ, Bool, List, ◌++◌, IfSome, OnOk};
ghost use Rattle.std.specs.Io.KnownBytes.{IsAtEnd};
ghost use Rattle.base.specs.Taking.{Stops, TakesFront};

use crate::sources::Source;
use thiserror::Error;

/// What takes a text piece by piece, and puts what it makes of it into an output. One that puts nothing out takes the unit.
pub trait Taker<O> {
    /// What is known of the text beside its bytes.
    ghost Over: { Type 0 };

    /// That it stands for a text, of which it has put out what the output has.
    ghost stands: { Over → O → Self → List ℕ → Type 0 };

    /// Whether it takes no more.
    ghost is_done: { Self → Bool };

    /// Takes a piece of the text.
    fn take(&mut self, output: &mut O, piece: &[u8])
        ensures { (over : Over) (text : List ℕ) → stands over output.old self.old text
            → stands over output.new self.new (text ++ piece.now) };

    /// Whether it takes no more, as its output has failed.
    fn is_done(&self) -> bool
        ensures { result ≡ is_done self.now };
}

/// Why a source was not read to its end.
#[derive(Clone, Copy, Debug, PartialEq, Eq, Error)]
pub enum TakingFault {
    /// The source failed.
    #[error("source")]
    Source,
    /// What takes its text takes no more.
    #[error("done")]
    Done,
}

/// How many bytes one call of a source is asked for.
const PIECE: usize = 65536;

/// Reads a source to its end, or until the taker is done, and lets the taker take all that was read.
///
/// Errors: `Done` where the taker is done, also before anything is read; `Source` where the source failed in this call, once.
pub fn take_source<O, T: Taker<O>, S: Source>(
    taker: &mut T,
    output: &mut O,
    source: &mut S,
) -> Result<(), TakingFault>
    // what was read was taken
    ensures front { TakesFront T.stands (S.to_come source.old) (S.to_come source.new) output.old
        output.new taker.old taker.new }
    // where the source was read to its end, that is its whole text
    ensures whole { OnOk result ((over : T.Over) (text : List ℕ)
        → T.stands over output.old taker.old text → IfSome (S.to_come source.old)
        (λ all. T.stands over output.new taker.new (text ++ all))) }
    ensures end { OnOk result (IsAtEnd (S.to_come source.new)) }
    // the source failed once where that is answered, and else not at all
    ensures stops { Stops result (T.is_done taker.new) (S.failures source.old) (S.failures source.new) }
{
    let mut piece = [0u8; PIECE];
    while !taker.is_done() {
        match source.read(&mut piece) {
            Ok(0) => return Ok(()),
            Ok(count) => taker.take(output, &piece[..count]),
            Err(_) => return Err(TakingFault::Source),
        }
    }
    Err(TakingFault::Done)
}
