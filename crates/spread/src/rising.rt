//! First rises of claims over a model with words of any width, heard while a text is judged.
ghost use Rattle.std.specs.Prelude.{◌≡◌, List, [], IfErr, IfOk, IfSome, OnOk};
ghost use Rattle.std.specs.Io.KnownBytes.{IsAtEnd};
ghost use Rattle.btor2.specs.declared.item.Item.{Item};
ghost use Rattle.btor2.specs.Lists.{first_init_without_next};
ghost use Rattle.btor2.specs.Trace.{Frame};
ghost use Rattle.rises.specs.FirstRises.{word_first_rises};
ghost use Rattle.witness.specs.Answers.{AnswersJudge, CountsJudge, NamesState};
ghost use Rattle.witness.specs.ClosedWords.{IsClosedTrace};
ghost use Rattle.witness.specs.Judgements.{Judges};
ghost use Rattle.witness.specs.Texts.{Shape as ShapeValue};
ghost use Rattle.spread.specs.Answers.{IsOfFitted};
ghost use Rattle.spread.specs.Rising.{HearsRises};
ghost use Rattle.spread.specs.Spread.{IsShort};

use crate::hearing::Hearer;
use crate::judging::judge_spread_by;
use crate::making::AsTheyAre;
use base::Source;
use btor2::Model;
use rejoin::Shape;
use rises::{FirstRises, note_words};
use std::alloc::{AllocError, Global};
use witness::{JudgeFault, Judgement, WordJudge};

/// Hears in which frame each claim of a text is first reached. It keeps one frame for each bad property.
#[derive(Drop)]
pub struct RiseHearer {
    /// What is noted of the lines so far.
    pub firsts: FirstRises,
    // how many frames they close
    closed: u64,
}

impl RiseHearer {
    /// Of no lines, over the model that a model is fitted into.
    ///
    /// Error: a growth was refused.
    pub fn new(alloc: Global, narrow: &Model) -> Result<RiseHearer, AllocError>
        ensures { IfOk result (λ h. (shape : ShapeValue) → HearsRises h shape narrow.now []) }
    {
        let firsts = FirstRises::new(alloc, narrow.bads().len())?;
        Ok(RiseHearer { firsts, closed: 0 })
    }
}

impl Hearer for RiseHearer {
    ghost Over = { Unit };

    ghost stands = { λ over h shape narrow text. HearsRises h shape narrow text };

    fn hear(&mut self, _line: &[u8], judge: &WordJudge<'_>) {
        let closed = judge.closed_frames();
        if closed == self.closed {
            return;
        }
        note_words(judge, &mut self.firsts, self.closed);
        self.closed = closed;
    }
}

/// Judges as `judge_spread` does, and answers with the judgement the first frame in which each claimed bad property is 1 among the
/// frames that are closed before the faulty line, or in all of the witness. Beside what that holds, it holds one frame for each bad
/// property.
///
/// Conditions and errors: those of `judge_spread`. `NoMemory` also where there is none for the frames.
pub fn judge_spread_with_rises<S: Source>(
    alloc: Global,
    shape: &Shape,
    narrow: &Model,
    source: &mut S,
) -> Result<(Judgement, FirstRises), JudgeFault>
    requires fitted { (wide : List Item) × IsOfFitted shape.now narrow.now wide }
    // the judgement is that of the whole text over the model
    ensures judged { (wide : List Item) → IsOfFitted shape.now narrow.now wide
        → IfOk result (λ told. IfSome (S.to_come source.old)
        (λ text. IsShort text → Judges wide text told.0)) }
    // and what stands beside it are the first rises of the text's claims over it
    ensures rises { (wide : List Item) → IsOfFitted shape.now narrow.now wide
        → IfOk result (λ told. IfSome (S.to_come source.old)
        (λ text. IsShort text → (fs : List Frame) → IsClosedTrace wide text fs
        → told.1 ≡ word_first_rises wide text fs)) }
    // a state with an init and no next is named exactly where there is one, the first
    ensures answer { AnswersJudge result (first_init_without_next narrow.now narrow.now) }
    ensures unread { IfErr result (λ e. NamesState e → source.new ≡ source.old) }
    ensures end { OnOk result (IsAtEnd (S.to_come source.new)) }
    // the source failed once where a device's fault is answered, and else not at all
    ensures counted { CountsJudge result (S.failures source.old) (S.failures source.new) }
{
    if let Some(id) = narrow.first_init_without_next() {
        return Err(JudgeFault::NoNext(id));
    }
    let Ok(mut hearer) = RiseHearer::new(alloc, narrow) else {
        return Err(JudgeFault::NoMemory);
    };
    match judge_spread_by(alloc, shape, narrow, source, &AsTheyAre, &mut hearer) {
        Ok(judgement) => Ok((judgement, hearer.firsts)),
        Err(fault) => Err(fault),
    }
}
