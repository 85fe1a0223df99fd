//! Judging whole sources over a model, and over a circuit.
ghost use Rattle.std.specs.Prelude.{◌≡◌, IfErr, IfOk, IfSome, IsErrOf, OnOk};
ghost use Rattle.std.specs.Io.KnownBytes.{IsAtEnd};
ghost use Rattle.btor2.specs.Check.{IsWellFormed};
ghost use Rattle.btor2.specs.Lists.{first_init_without_next};
ghost use Rattle.witness.specs.Answers.{AnswersJudge, CountsJudge, NamesState};
ghost use Rattle.witness.specs.Judgements.{Judges};
ghost use Rattle.witness.specs.Accepted.{AcceptsExactly, BitAcceptsExactly};
ghost use Rattle.aiger.specs.Circuit.{Circuit, IsCircuit};
ghost use Rattle.witness.specs.BitJudgements.{BitJudges};

use crate::bit_judge::BitJudge;
use crate::fault::JudgeFault;
use crate::judgement::Judgement;
use crate::word_judge::WordJudge;
use aiger::Circuit;
use base::{Source, take_source};
use btor2::Model;
use runs::NewFault;
use std::alloc::Global;

/// Reads a source to its end and judges its text as a witness over a model. Of the text only what one call gives is held at
/// a time, and beside it what the judge holds.
///
/// Errors: `NoNext` with the first state in file order that has an init and no next, or else `NoMemory` where a growth was
/// refused, and after both nothing was read; `Device` where the source failed in this call, once.
pub fn judge_words<S: Source>(
    alloc: Global,
    model: &Model,
    source: &mut S,
) -> Result<Judgement, JudgeFault>
    // the judgement is that of the whole text
    ensures judged { IfOk result (λ judgement. IfSome (S.to_come source.old)
        (λ text. Judges model.now text judgement)) }
    // accepted exactly where the text says a witness of which this is judged
    ensures accepted { IfOk result (λ judgement. IfSome (S.to_come source.old)
        (λ text. AcceptsExactly model.now text judgement)) }
    // a state with an init and no next is named exactly where there is one, the first
    ensures answer { AnswersJudge result (first_init_without_next model.now model.now) }
    ensures unread { IfErr result (λ e. NamesState e → source.new ≡ source.old) }
    ensures unread_memory { IsErrOf result JudgeFault.NoMemory → source.new ≡ source.old }
    ensures end { OnOk result (IsAtEnd (S.to_come source.new)) }
    // the source failed once where a device's fault is answered, and else not at all
    ensures counted { CountsJudge result (S.failures source.old) (S.failures source.new) }
    // the items of a model are one, whatever is answered
    ensures well_formed { IsWellFormed model.now }
{
    let _items = model.items();
    let mut judge = match WordJudge::new(alloc, model) {
        Ok(judge) => judge,
        Err(NewFault::NoNext(id)) => return Err(JudgeFault::NoNext(id)),
        Err(NewFault::NoMemory) => return Err(JudgeFault::NoMemory),
    };
    match take_source(&mut judge, &mut (), source) {
        Ok(()) => Ok(judge.finish()),
        Err(_) => Err(JudgeFault::Device),
    }
}

/// Reads a source to its end and judges its text as a witness over a circuit. Of the text only what one call gives is held
/// at a time, and beside it what the judge holds.
///
/// Errors: `NoMemory` where a growth was refused, and then nothing was read; `Device` where the source failed in this call,
/// once. It never answers `NoNext`.
pub fn judge_bits<S: Source>(
    alloc: Global,
    circuit: &Circuit,
    source: &mut S,
) -> Result<Judgement, JudgeFault>
    // the judgement is that of the whole text
    ensures judged { IfOk result (λ judgement. IfSome (S.to_come source.old)
        (λ text. BitJudges circuit.now text judgement)) }
    // accepted exactly where the text says a witness of which this is judged
    ensures accepted { IfOk result (λ judgement. IfSome (S.to_come source.old)
        (λ text. BitAcceptsExactly circuit.now text judgement)) }
    ensures no_state { IfErr result (λ e. NamesState e → ⊥) }
    ensures unread { IsErrOf result JudgeFault.NoMemory → source.new ≡ source.old }
    ensures end { OnOk result (IsAtEnd (S.to_come source.new)) }
    // the source failed once where a device's fault is answered, and else not at all
    ensures counted { CountsJudge result (S.failures source.old) (S.failures source.new) }
    // the circuit is one, whatever is answered
    ensures valid { IsCircuit circuit.now }
{
    let _inputs = circuit.inputs();
    let mut judge = match BitJudge::new(alloc, circuit) {
        Ok(judge) => judge,
        Err(_) => return Err(JudgeFault::NoMemory),
    };
    match take_source(&mut judge, &mut (), source) {
        Ok(()) => Ok(judge.finish()),
        Err(_) => Err(JudgeFault::Device),
    }
}
