//! Witnesses over a model of the whole language, of those over the model that it is fitted into.
ghost use Rattle.std.specs.Prelude.{◌≡◌, List, None, IfErr, IfOk, IfSome, OnErr, OnOk};
ghost use Rattle.std.specs.Io.KnownBytes.{Appends, IsAtEnd};
ghost use Rattle.base.specs.Device.{AppendsBeginning};
ghost use Rattle.btor2.specs.declared.item.Item.{Item};
ghost use Rattle.btor2.specs.Lists.{first_init_without_next};
ghost use Rattle.fit.specs.Fitting.{Layout};
ghost use Rattle.full.specs.Lines.{FullLine};
ghost use Rattle.full.specs.WrittenOut.{Places};
ghost use Rattle.witness.specs.declared.judgement.Judgement.{Judgement as JudgementValue};
ghost use Rattle.witness.specs.Judgements.{Judges};
ghost use Rattle.rejoin.specs.Pieces.{joined_judgement};
ghost use Rattle.rejoin.specs.Faults.{AnswersUnfit, CountsUnfit, NamesState};
ghost use Rattle.fulljudge.specs.Judgements.{judged_by};
ghost use Rattle.fulljudge.specs.Judged.{IsJudgeable};
ghost use Rattle.fullunfit.specs.Unfitted.{KeepsFullJudgement, unfit_full_text};

use crate::titles::ByValue;
use base::{Sink, Source};
use btor2::Model;
use fulljudge::{StateWords, Values, of_values};
use rejoin::{Shape, UnfitFault};
use std::alloc::Global;
use unfit::{Names, unfit_by};
use witness::Judgement;

/// Reads a witness over the model that a model of the whole language is fitted into to its end, judges it over that, and writes the
/// witness over the model of the whole language that says the same. A word is assigned as `unfit` assigns it, by the value that it
/// is of: a state or an input that is a word by its index, as `2 101`, and a cell of an array by the index of the array and its
/// address, in binary, with as many digits as an index has bits, as `3 [01] 1101`. With names a space stands and
/// `<symbol>@<frame>` behind the word of a state or an input with a symbol, which an array has for each of its cells. The answer is
/// the judgement over the model of the whole language.
///
/// Of the text one line is held, and what one call of the source gives; beside it what the judge holds, two words for each piece,
/// and what one call of the sink takes.
///
/// What is told in the first frame of a state that begins with no constant, or has an init and no next, means nothing, and is not
/// written; nor is what is told of the state that is 1 in the first frame alone. Where that is told to be another, the answer is that the first word of a state
/// differs which the model has not: that behind the last.
///
/// What is written means something where `states` and `inputs` are those of the model, and the list that the model is written out
/// as is fitted into one in which each word by which a value is told has a leaf: an array has one for each of its cells. `shape` is
/// the shape of that list, `narrow` the model that it is fitted into, and `words` says where the words of the states stand. `names`
/// are those of the model.
///
/// Errors: `NoNext` with the first state of `narrow` that has an init and no next, and then nothing was read or written; `Read`
/// where the source failed in this call, `Write` where the sink did, and `NoMemory` where a growth was refused: then a beginning of
/// the text was written.
pub fn unfit_full<S: Source, K: Sink>(
    alloc: Global,
    states: &Values,
    inputs: &Values,
    words: &StateWords,
    names: &Names,
    shape: &Shape,
    narrow: &Model,
    named: bool,
    source: &mut S,
    sink: &mut K,
) -> Result<Judgement, UnfitFault>
    // the judgement is that of the whole text over the fitted model, said over the model of the whole language
    ensures judged { IfOk result (λ judgement. IfSome (S.to_come source.old)
        (λ text. (j : JudgementValue) × (Judges narrow.now text j
        × (judgement ≡ judged_by states.now None (joined_judgement shape.now j))))) }
    // what is written says what the text says, and after a fault a beginning of it
    ensures written { OnOk result (IfSome (S.to_come source.old)
        (λ text. Appends (K.written sink.old) (K.written sink.new)
        (unfit_full_text states.now inputs.now shape.now names.now named words.now narrow.now text))) }
    ensures beginning { OnErr result (IfSome (S.to_come source.old)
        (λ text. AppendsBeginning (K.written sink.old) (K.written sink.new)
        (unfit_full_text states.now inputs.now shape.now names.now named words.now narrow.now text))) }
    // where it is that of a witness, what is judged of what is written over the model of the whole language is the same
    ensures kept { (full : List FullLine) (p : Places) (wide : List Item) (layout : Layout) (celled : List Item)
        → IsJudgeable states.now inputs.now words.now shape.now narrow.now full p wide layout celled
        → IfOk result (λ judgement. IfSome (S.to_come source.old)
        (λ text. KeepsFullJudgement full celled
        (unfit_full_text states.now inputs.now shape.now names.now named words.now narrow.now text) judgement)) }
    // a state with an init and no next is named exactly where there is one, the first
    ensures answer { AnswersUnfit result (first_init_without_next narrow.now narrow.now) }
    ensures unread { IfErr result (λ e. NamesState e → source.new ≡ source.old) }
    ensures unwritten { IfErr result (λ e. NamesState e → sink.new ≡ sink.old) }
    ensures end { OnOk result (IsAtEnd (S.to_come source.new)) }
    // the source failed once where that is answered, the sink where that is, and else neither
    ensures counted { CountsUnfit result (S.failures source.old) (S.failures source.new)
        (K.failures sink.old) (K.failures sink.new) }
{
    let _few_states = states.words();
    let _few_inputs = inputs.words();
    let state_titles = ByValue::of_states(states, names.states.as_slice(), words);
    let input_titles = ByValue::of_inputs(inputs, names.inputs.as_slice());
    match unfit_by(
        alloc,
        shape,
        &state_titles,
        &input_titles,
        narrow,
        named,
        source,
        sink,
    ) {
        Ok(judgement) => Ok(of_values(states, None, judgement)),
        Err(fault) => Err(fault),
    }
}
