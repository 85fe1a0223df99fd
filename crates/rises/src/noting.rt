//! Judging whole sources over a model, and over a circuit, with the frames in which claims are first reached.
ghost use Rattle.std.specs.Prelude.{◌≡◌, true, List, IfErr, IfOk, IfSome, IsErrOf, OnOk};
ghost use Rattle.std.specs.Io.KnownBytes.{IsAtEnd};
ghost use Rattle.btor2.specs.Check.{IsWellFormed};
ghost use Rattle.btor2.specs.Lists.{first_init_without_next};
ghost use Rattle.btor2.specs.Trace.{Frame};
ghost use Rattle.aiger.specs.Circuit.{Circuit};
ghost use Rattle.witness.specs.Answers.{AnswersJudge, CountsJudge, NamesState};
ghost use Rattle.witness.specs.Judgements.{Judges};
ghost use Rattle.witness.specs.ClosedWords.{IsClosedTrace};
ghost use Rattle.witness.specs.BitJudgements.{BitJudges};
ghost use Rattle.rises.specs.FirstRises.{word_first_rises, AreBitFirstRises};

use crate::bit_noter::BitNoter;
use crate::first_rises::FirstRises;
use crate::word_noter::WordNoter;
use aiger::Circuit;
use base::{Source, take_source};
use btor2::Model;
use runs::NewFault;
use std::alloc::Global;
use witness::{JudgeFault, Judgement};

/// Reads a source to its end, judges its text as a witness over a model, as `witness::judge_words` does, and answers with
/// the judgement the first frame in which each claimed bad property is 1 among the frames that are closed before the faulty
/// line, or in all of the witness. Of the text only what one call gives is held at a time, and beside it what the judge
/// holds and one frame for each bad property.
///
/// Errors: `NoNext` with the first state in file order that has an init and no next, or else `NoMemory` where a growth was
/// refused, and after both nothing was read; `Device` where the source failed in this call, once.
pub fn judge_words_with_rises<S: Source>(
    alloc: Global,
    model: &Model,
    source: &mut S,
) -> Result<(Judgement, FirstRises), JudgeFault>
    // the judgement is that of the whole text
    ensures judged { IfOk result (λ told. IfSome (S.to_come source.old)
        (λ text. Judges model.now text told.0)) }
    // and what stands beside it are the first rises of the text's claims
    ensures rises { IfOk result (λ told. IfSome (S.to_come source.old) (λ text. (fs : List Frame)
        → IsClosedTrace model.now text fs → told.1 ≡ word_first_rises model.now text fs)) }
    // a state with an init and no next is named exactly where there is one, the first
    ensures answer { AnswersJudge result (first_init_without_next model.now model.now) }
    ensures unread { IfErr result (λ e. NamesState e → source.new ≡ source.old) }
    ensures unread_memory { IsErrOf result JudgeFault.NoMemory → source.new ≡ source.old }
    ensures end { OnOk result (IsAtEnd (S.to_come source.new)) }
    // the source failed once where a device's fault is answered, and else not at all
    ensures counted { CountsJudge result (S.failures source.old) (S.failures source.new) }
    // the items of a model are one, whatever is answered
    ensures well_formed { IsWellFormed model.now }
{
    let _items = model.items();
    let mut noter = match WordNoter::new(alloc, model) {
        Ok(noter) => noter,
        Err(NewFault::NoNext(id)) => return Err(JudgeFault::NoNext(id)),
        Err(NewFault::NoMemory) => return Err(JudgeFault::NoMemory),
    };
    match take_source(&mut noter, &mut (), source) {
        Ok(()) => Ok(noter.finish()),
        Err(_) => Err(JudgeFault::Device),
    }
}

/// Reads a source to its end, judges its text as a witness over a circuit, as `witness::judge_bits` does, and answers with
/// the judgement the first frame in which the claimed bad property is 1 among the frames that are closed before the faulty
/// line, or in all of the witness. Of the text only what one call gives is held at a time, and beside it what the judge
/// holds and one frame for each bad property.
///
/// Errors: `NoMemory` where a growth was refused, and then nothing was read; `Device` where the source failed in this call,
/// once. It never answers `NoNext`.
pub fn judge_bits_with_rises<S: Source>(
    alloc: Global,
    circuit: &Circuit,
    source: &mut S,
) -> Result<(Judgement, FirstRises), JudgeFault>
    // the judgement is that of the whole text
    ensures judged { IfOk result (λ told. IfSome (S.to_come source.old)
        (λ text. BitJudges circuit.now text told.0)) }
    // and what stands beside it are the first rises of the text's claim
    ensures rises { IfOk result (λ told. IfSome (S.to_come source.old)
        (λ text. AreBitFirstRises circuit.now text told.1)) }
    ensures no_state { IfErr result (λ e. NamesState e → ⊥) }
    ensures unread { IsErrOf result JudgeFault.NoMemory → source.new ≡ source.old }
    ensures end { OnOk result (IsAtEnd (S.to_come source.new)) }
    // the source failed once where a device's fault is answered, and else not at all
    ensures counted { CountsJudge result (S.failures source.old) (S.failures source.new) }
{
    let mut noter = match BitNoter::new(alloc, circuit, true) {
        Ok(noter) => noter,
        Err(_) => return Err(JudgeFault::NoMemory),
    };
    match take_source(&mut noter, &mut (), source) {
        Ok(()) => Ok(noter.finish()),
        Err(_) => Err(JudgeFault::Device),
    }
}
