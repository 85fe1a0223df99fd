//! Witnesses over the model that a model of the whole language is fitted into, of those over that.
ghost use Rattle.std.specs.Prelude.{◌≡◌, List, IfErr, IfOk, IfSome, OnErr, OnOk};
ghost use Rattle.std.specs.Io.KnownBytes.{Appends, IsAtEnd};
ghost use Rattle.base.specs.Device.{AppendsBeginning};
ghost use Rattle.btor2.specs.declared.item.Item.{Item};
ghost use Rattle.btor2.specs.Lists.{first_init_without_next};
ghost use Rattle.fit.specs.Fitting.{Layout};
ghost use Rattle.full.specs.Lines.{FullLine};
ghost use Rattle.full.specs.WrittenOut.{Places};
ghost use Rattle.rejoin.specs.Faults.{AnswersUnfit, CountsUnfit, NamesState};
ghost use Rattle.spread.specs.Spread.{IsShort, spread_text};
ghost use Rattle.fulljudge.specs.Shapes.{full_shape};
ghost use Rattle.fulljudge.specs.Lines.{words_text};
ghost use Rattle.fulljudge.specs.Judgements.{JudgesFull};
ghost use Rattle.fulljudge.specs.Judged.{IsJudgeable};
ghost use Rattle.fulljudge.specs.Spreading.{KeepsSpread};

use crate::compared::StateWords;
use crate::first_words::FirstWords;
use crate::judging::of_values;
use crate::making::WordLines;
use crate::values::Values;
use base::{Sink, Source};
use btor2::Model;
use rejoin::{Shape, UnfitFault};
use spread::spread_heard;
use std::alloc::Global;
use witness::Judgement;

/// Reads a witness over a model of the whole language to its end, judges it as `judge_full` does, and writes the witness over the
/// model that it is fitted into that says the same: the line of each value becomes that of a word, and that is spread in pieces of 64
/// bits and without a name. Of a malformed witness the lines before the faulty one are spread. What it holds is what `judge_full`
/// does.
///
/// Conditions: those of `judge_full`. Of a text of more than 2^44 lines nothing is said, since its pieces may be more lines than a
/// witness has.
///
/// Errors: `NoNext` with the first state of `narrow` in file order that has an init and no next, and then nothing was read or
/// written; `Read` where the source failed in this call, and `Write` where the sink did, once; `NoMemory` where a growth was
/// refused. After these three a beginning of the spread text was written.
pub fn spread_full<S: Source, K: Sink>(
    alloc: Global,
    states: &Values,
    inputs: &Values,
    words: &StateWords,
    shape: &Shape,
    narrow: &Model,
    source: &mut S,
    sink: &mut K,
) -> Result<Judgement, UnfitFault>
    requires fitted { (full : List FullLine) × (p : Places) × (wide : List Item) × (layout : Layout) × (celled : List Item)
        × IsJudgeable states.now inputs.now words.now shape.now narrow.now full p wide layout celled }
    // the judgement is that of the whole text over the model
    ensures judged { (full : List FullLine) (p : Places) (wide : List Item) (layout : Layout) (celled : List Item)
        → IsJudgeable states.now inputs.now words.now shape.now narrow.now full p wide layout celled
        → IfOk result (λ judgement. IfSome (S.to_come source.old)
        (λ text. IsShort text → JudgesFull full text judgement)) }
    // what is judged of the spread text over the fitted model makes it, where the text says a witness
    ensures kept { (full : List FullLine) (p : Places) (wide : List Item) (layout : Layout) (celled : List Item)
        → IsJudgeable states.now inputs.now words.now shape.now narrow.now full p wide layout celled
        → IfOk result (λ judgement. IfSome (S.to_come source.old)
        (λ text. IsShort text → KeepsSpread states.now shape.now narrow.now full text judgement)) }
    // what is written is the spread text of words
    ensures written { (full : List FullLine) (p : Places) (wide : List Item) (layout : Layout) (celled : List Item)
        → IsJudgeable states.now inputs.now words.now shape.now narrow.now full p wide layout celled
        → OnOk result (IfSome (S.to_come source.old)
        (λ text. IsShort text → Appends (K.written sink.old) (K.written sink.new)
        (spread_text shape.now (words_text (full_shape full) text)))) }
    // and after a fault a beginning of it
    ensures beginning { (full : List FullLine) (p : Places) (wide : List Item) (layout : Layout) (celled : List Item)
        → IsJudgeable states.now inputs.now words.now shape.now narrow.now full p wide layout celled
        → OnErr result (IfSome (S.to_come source.old)
        (λ text. IsShort text → AppendsBeginning (K.written sink.old) (K.written sink.new)
        (spread_text shape.now (words_text (full_shape full) text)))) }
    // a state with an init and no next is named exactly where there is one, the first
    ensures answer { AnswersUnfit result (first_init_without_next narrow.now narrow.now) }
    ensures unread { IfErr result (λ e. NamesState e → source.new ≡ source.old) }
    ensures unwritten { IfErr result (λ e. NamesState e → sink.new ≡ sink.old) }
    ensures end { OnOk result (IsAtEnd (S.to_come source.new)) }
    // the source failed once where that is answered, the sink where that is, and else neither
    ensures counted { CountsUnfit result (S.failures source.old) (S.failures source.new)
        (K.failures sink.old) (K.failures sink.new) }
{
    let _few_states = states.words();
    let _few_inputs = inputs.words();
    if let Some(id) = narrow.first_init_without_next() {
        return Err(UnfitFault::NoNext(id));
    }
    let lines = WordLines::new(states, inputs);
    let Ok(mut hearer) = FirstWords::new(alloc, states, words) else {
        return Err(UnfitFault::NoMemory);
    };
    match spread_heard(alloc, shape, narrow, source, sink, &lines, &mut hearer) {
        Ok(judgement) => Ok(of_values(states, hearer.found(), judgement)),
        Err(fault) => Err(fault),
    }
}
