//! Judging over a model of the whole language.
ghost use Rattle.std.specs.Prelude.{◌≡◌, List, IfErr, IfOk, IfSome, OnOk};
ghost use Rattle.std.specs.Io.KnownBytes.{IsAtEnd};
ghost use Rattle.btor2.specs.declared.item.Item.{Item};
ghost use Rattle.btor2.specs.Lists.{first_init_without_next};
ghost use Rattle.fit.specs.Fitting.{Layout};
ghost use Rattle.full.specs.Lines.{FullLine};
ghost use Rattle.full.specs.WrittenOut.{Places};
ghost use Rattle.witness.specs.Answers.{AnswersJudge, CountsJudge, NamesState};
ghost use Rattle.spread.specs.Spread.{IsShort};
ghost use Rattle.fulljudge.specs.Judgements.{judged_by, JudgesFull};
ghost use Rattle.fulljudge.specs.Judged.{IsJudgeable};
ghost use Rattle.fulljudge.specs.Rises.{JudgesFullWithRises};

use crate::compared::StateWords;
use crate::first_words::FirstWords;
use crate::making::WordLines;
use crate::owners::value_of_word;
use crate::values::Values;
use base::Source;
use btor2::Model;
use rejoin::Shape;
use rises::FirstRises;
use spread::{Both, RiseHearer, judge_spread_by};
use std::alloc::Global;
use witness::{JudgeFault, Judgement};

/// What is judged over a model where this is judged over the words of its values: a word that differs is that of its state. Where
/// none does, the state that is told otherwise than it begins is named, if one is.
pub fn of_values(states: &Values, otherwise: Option<u64>, judgement: Judgement) -> Judgement
    ensures { result ≡ judged_by states.now otherwise judgement }
{
    match (judgement, otherwise) {
        (Judgement::NoClaim | Judgement::Malformed { .. }, _) => judgement,
        (Judgement::InitDiffers { index }, _) => Judgement::InitDiffers {
            index: value_of_word(states, index),
        },
        (_, Some(index)) => Judgement::InitDiffers { index },
        (_, None) => judgement,
    }
}

/// Reads a witness over a model of the whole language to its end, and judges it. An array is told in it cell by cell, as `3 [01] 1101`
/// tells the cell 1 of the state or the input 3. Of the text one line is held, and what a piece of the source gives behind it, and
/// beside it what the judge holds, and a number and a flag for each word by which a state or an input is told.
///
/// Conditions: `states` and `inputs` are those of the model. The list that the model is written out as is fitted into one in which
/// each word by which a value is told has a leaf: an array has one for each of its cells. `shape` is the shape of that list, `narrow`
/// the model that it is fitted into, and `words` says where the words of states stand in both. Of a text of more than 2^44 lines
/// nothing is said.
///
/// Errors: `NoNext` with the first state of `narrow` in file order that has an init and no next, and then nothing was read;
/// `Device` where the source failed in this call, once; `NoMemory` where a growth was refused.
pub fn judge_full<S: Source>(
    alloc: Global,
    states: &Values,
    inputs: &Values,
    words: &StateWords,
    shape: &Shape,
    narrow: &Model,
    source: &mut S,
) -> Result<Judgement, JudgeFault>
    requires fitted { (full : List FullLine) × (p : Places) × (wide : List Item) × (layout : Layout) × (celled : List Item)
        × IsJudgeable states.now inputs.now words.now shape.now narrow.now full p wide layout celled }
    // the judgement is that of the whole text over the model
    ensures judged { (full : List FullLine) (p : Places) (wide : List Item) (layout : Layout) (celled : List Item)
        → IsJudgeable states.now inputs.now words.now shape.now narrow.now full p wide layout celled
        → IfOk result (λ judgement. IfSome (S.to_come source.old)
        (λ text. IsShort text → JudgesFull full text judgement)) }
    // a state with an init and no next is named exactly where there is one, the first
    ensures answer { AnswersJudge result (first_init_without_next narrow.now narrow.now) }
    ensures unread { IfErr result (λ e. NamesState e → source.new ≡ source.old) }
    ensures end { OnOk result (IsAtEnd (S.to_come source.new)) }
    // the source failed once where a device's fault is answered, and else not at all
    ensures counted { CountsJudge result (S.failures source.old) (S.failures source.new) }
{
    let (judgement, _) = judge_full_with_rises(
        alloc, states, inputs, words, shape, narrow, source,
    )?;
    Ok(judgement)
}

/// Judges as `judge_full` does, and answers with the judgement the first frame in which each claimed bad property is 1, in a run of
/// the model that is as the witness tells, the one by which that is judged. Of a text that is no witness, and where a state begins
/// otherwise than is told of it, nothing is said of these frames. Beside what `judge_full` holds, it holds one for each bad property.
///
/// Conditions and errors: those of `judge_full`.
pub fn judge_full_with_rises<S: Source>(
    alloc: Global,
    states: &Values,
    inputs: &Values,
    words: &StateWords,
    shape: &Shape,
    narrow: &Model,
    source: &mut S,
) -> Result<(Judgement, FirstRises), JudgeFault>
    requires fitted { (full : List FullLine) × (p : Places) × (wide : List Item) × (layout : Layout) × (celled : List Item)
        × IsJudgeable states.now inputs.now words.now shape.now narrow.now full p wide layout celled }
    // the judgement is that of the whole text over the model
    ensures judged { (full : List FullLine) (p : Places) (wide : List Item) (layout : Layout) (celled : List Item)
        → IsJudgeable states.now inputs.now words.now shape.now narrow.now full p wide layout celled
        → IfOk result (λ told. IfSome (S.to_come source.old)
        (λ text. IsShort text → JudgesFull full text told.0)) }
    // and what stands beside it are the first rises of the text's claims, in the run by which it is judged
    ensures rises { (full : List FullLine) (p : Places) (wide : List Item) (layout : Layout) (celled : List Item)
        → IsJudgeable states.now inputs.now words.now shape.now narrow.now full p wide layout celled
        → IfOk result (λ told. IfSome (S.to_come source.old)
        (λ text. IsShort text → JudgesFullWithRises full text told.0 told.1)) }
    // a state with an init and no next is named exactly where there is one, the first
    ensures answer { AnswersJudge result (first_init_without_next narrow.now narrow.now) }
    ensures unread { IfErr result (λ e. NamesState e → source.new ≡ source.old) }
    ensures end { OnOk result (IsAtEnd (S.to_come source.new)) }
    // the source failed once where a device's fault is answered, and else not at all
    ensures counted { CountsJudge result (S.failures source.old) (S.failures source.new) }
{
    let _few_states = states.words();
    let _few_inputs = inputs.words();
    if let Some(id) = narrow.first_init_without_next() {
        return Err(JudgeFault::NoNext(id));
    }
    let lines = WordLines::new(states, inputs);
    let Ok(one) = FirstWords::new(alloc, states, words) else {
        return Err(JudgeFault::NoMemory);
    };
    let Ok(other) = RiseHearer::new(alloc, narrow) else {
        return Err(JudgeFault::NoMemory);
    };
    let mut hearer = Both { one, other };
    match judge_spread_by(alloc, shape, narrow, source, &lines, &mut hearer) {
        Ok(judgement) => Ok((
            of_values(states, hearer.one.found(), judgement),
            hearer.other.firsts,
        )),
        Err(fault) => Err(fault),
    }
}
