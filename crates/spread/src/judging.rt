//! Judging over a model with words of any width, without writing.
ghost use Rattle.std.specs.Prelude.{◌≡◌, List, IfErr, IfOk, IfSome, OnOk};
ghost use Rattle.std.specs.Io.KnownBytes.{IsAtEnd};
ghost use Rattle.btor2.specs.declared.item.Item.{Item};
ghost use Rattle.btor2.specs.Lists.{first_init_without_next};
ghost use Rattle.witness.specs.Answers.{AnswersJudge, CountsJudge, NamesState};
ghost use Rattle.witness.specs.Judgements.{Judges};
ghost use Rattle.spread.specs.Answers.{IsOfFitted};
ghost use Rattle.spread.specs.Spread.{IsShort};
ghost use Rattle.spread.specs.Made.{source_made};
ghost use Rattle.spread.specs.Heard.{HearsText};

use crate::hearing::{Deaf, Hearer};
use crate::making::{AsTheyAre, Lines};
use crate::spreading::spread_heard;
use base::{DeviceFault, Sink, Source};
use btor2::Model;
use rejoin::{Shape, UnfitFault};
use std::alloc::Global;
use witness::{JudgeFault, Judgement};

/// A sink that keeps nothing, and never fails.
#[derive(Drop)]
struct Nowhere;

impl Sink for Nowhere {
    ghost failures = { λ _. 0 };

    fn write(&mut self, bytes: &[u8]) -> Result<usize, DeviceFault> {
        Ok(bytes.len())
    }
}

/// Judges, as `judge_spread` does, the text that the lines of a source become, and has each of these heard behind the judge that took
/// it. Beside what that holds, it holds what the last line became.
///
/// Conditions and errors: those of `judge_spread`, of the text that the lines become. `NoMemory` also where there is none for a line.
pub fn judge_spread_by<S: Source, L: Lines, H: Hearer>(
    alloc: Global,
    shape: &Shape,
    narrow: &Model,
    source: &mut S,
    lines: &L,
    hearer: &mut H,
) -> Result<Judgement, JudgeFault>
    requires fitted { (wide : List Item) × IsOfFitted shape.now narrow.now wide }
    // the judgement is that of the whole text over the model
    ensures judged { (wide : List Item) → IsOfFitted shape.now narrow.now wide
        → IfOk result (λ judgement. IfSome (source_made (L.becomes lines.now) (S.to_come source.old))
        (λ text. IsShort text → Judges wide text judgement)) }
    // all whole lines were heard
    ensures heard { (wide : List Item) → IsOfFitted shape.now narrow.now wide
        → OnOk result (HearsText H.stands hearer.old hearer.new wide narrow.now
        (source_made (L.becomes lines.now) (S.to_come source.old))) }
    // a state with an init and no next is named exactly where there is one, the first
    ensures answer { AnswersJudge result (first_init_without_next narrow.now narrow.now) }
    ensures unread { IfErr result (λ e. NamesState e → source.new ≡ source.old) }
    ensures end { OnOk result (IsAtEnd (S.to_come source.new)) }
    // the source failed once where a device's fault is answered, and else not at all
    ensures counted { CountsJudge result (S.failures source.old) (S.failures source.new) }
{
    match spread_heard(alloc, shape, narrow, source, &mut Nowhere, lines, hearer) {
        Ok(judgement) => Ok(judgement),
        Err(UnfitFault::Read) => Err(JudgeFault::Device),
        Err(UnfitFault::NoMemory) => Err(JudgeFault::NoMemory),
        Err(UnfitFault::NoNext(id)) => Err(JudgeFault::NoNext(id)),
        Err(UnfitFault::Write) => unreachable!(),
    }
}

/// Reads a witness over a model with words of any width to its end, and judges it by the model that it is fitted into. Of the text
/// one line is held, and what a piece of the source gives behind it, and beside it what the judge holds and a number for each
/// state and each input.
///
/// Conditions: those of `spread`. Of a text of more than 2^44 lines nothing is said.
///
/// Errors: `NoNext` with the first state of `narrow` in file order that has an init and no next, and then nothing was read;
/// `Device` where the source failed in this call, once; `NoMemory` where a growth was refused.
pub fn judge_spread<S: Source>(
    alloc: Global,
    shape: &Shape,
    narrow: &Model,
    source: &mut S,
) -> Result<Judgement, JudgeFault>
    requires fitted { (wide : List Item) × IsOfFitted shape.now narrow.now wide }
    // the judgement is that of the whole text over the model
    ensures judged { (wide : List Item) → IsOfFitted shape.now narrow.now wide
        → IfOk result (λ judgement. IfSome (S.to_come source.old)
        (λ text. IsShort text → Judges wide text judgement)) }
    // a state with an init and no next is named exactly where there is one, the first
    ensures answer { AnswersJudge result (first_init_without_next narrow.now narrow.now) }
    ensures unread { IfErr result (λ e. NamesState e → source.new ≡ source.old) }
    ensures end { OnOk result (IsAtEnd (S.to_come source.new)) }
    // the source failed once where a device's fault is answered, and else not at all
    ensures counted { CountsJudge result (S.failures source.old) (S.failures source.new) }
{
    judge_spread_by(alloc, shape, narrow, source, &AsTheyAre, &mut Deaf)
}
