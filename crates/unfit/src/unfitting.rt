//! Witnesses over a model with words of any width, of those over the model that it is fitted into.
ghost use Rattle.std.specs.Prelude.{◌≡◌, ◌<◌, ◌^◌, length, ℕ, List, Ok, IfErr, IfOk, IfSome, IsErr, OnErr, OnOk};
ghost use Rattle.std.specs.Io.KnownBytes.{Appends, IsAtEnd, prepend_known};
ghost use Rattle.base.specs.Device.{AppendsBeginning};
ghost use Rattle.base.specs.Lines.{IsLine};
ghost use Rattle.base.specs.Writing.{WritesText};
ghost use Rattle.btor2.specs.declared.item.Item.{Item};
ghost use Rattle.btor2.specs.Lists.{first_init_without_next};
ghost use Rattle.witness.specs.declared.judgement.Judgement.{Judgement as JudgementValue};
ghost use Rattle.fitting.specs.Models.{IsFit};
ghost use Rattle.witness.specs.Texts.{shape_of};
ghost use Rattle.witness.specs.Judgements.{Judges};
ghost use Rattle.rejoin.specs.Pieces.{joined_judgement, owner};
ghost use Rattle.rejoin.specs.Faults.{AnswersUnfit, CountsUnfit, NamesState};
ghost use Rattle.unfit.specs.Joined.{lined};
ghost use Rattle.unfit.specs.Unfitted.{KeepsJudgement, unfit_text, unfit_text_with};
ghost use Rattle.unfit.specs.Steps.{TakesLines, UnfitsAll};

use crate::frame::Frame;
use crate::known::Wide;
use crate::names::Names;
use crate::titles::{ByIndex, Titles};
use crate::told_pieces::piece_count;
use crate::unfitter::take_line;
use base::{DeviceFault, LineReader, Pen, Sink, Source};
use btor2::Model;
use rejoin::{Shape, UnfitFault};
use runs::NewFault;
use std::alloc::Global;
use witness::{Judgement, WordJudge};

/// The answer of a sink.
///
/// Error: where it failed.
fn written(answer: Result<(), DeviceFault>) -> Result<(), UnfitFault>
    ensures ok { OnOk result (answer ≡ Ok tt) }
    ensures err { IfErr result (λ e. IsErr answer × (e ≡ UnfitFault.Write)) }
{
    match answer {
        Ok(()) => Ok(()),
        Err(_) => Err(UnfitFault::Write),
    }
}

/// The index of the word that a piece is of, among words of these widths.
fn owner(widths: &[u64], piece: u64) -> u64
    ensures { result ≡ owner widths.now piece }
{
    let mut rest = piece;
    for (index, width) in widths.iter().enumerate() {
        let count = piece_count(*width) as u64;
        if rest < count {
            return index as u64;
        }
        rest -= count;
    }
    widths.len() as u64
}

/// What is judged over the model where this is judged over the fitted one.
fn joined(shape: &Shape, judgement: Judgement) -> Judgement
    ensures { result ≡ joined_judgement shape.now judgement }
{
    match judgement {
        Judgement::InitDiffers { index } => Judgement::InitDiffers {
            index: owner(shape.states(), index),
        },
        other => other,
    }
}

/// Takes all lines of a source, and puts what they say.
///
/// Errors: the source's own, and the sink's.
fn take_lines<S: Source, K: Sink, T: Titles>(
    lines: &mut LineReader,
    judge: &mut WordJudge<'_>,
    frame: &mut Frame,
    wide: &Wide<'_, T>,
    pen: &mut Pen,
    source: &mut S,
    sink: &mut K,
) -> Result<(), UnfitFault>
    requires { pen.old.answer ≡ Ok tt }
    ensures takes { TakesLines K.written K.failures
        (prepend_known lines.old.rest (S.to_come source.old))
        (prepend_known lines.new.rest (S.to_come source.new)) sink.old sink.new pen.old pen.new
        wide.now judge.old judge.new frame.old frame.new }
    ensures rest { OnOk result (IsLine lines.new.rest) }
    ensures end { OnOk result (IsAtEnd (S.to_come source.new)) }
    ensures apart { IfErr result (λ e. NamesState e → ⊥) }
    ensures writes { (text : List ℕ) × WritesText K.written K.failures sink.old sink.new pen.old
        pen.new text }
    ensures counted { CountsUnfit result (S.failures source.old) (S.failures source.new)
        (K.failures sink.old) (K.failures sink.new) }
{
    loop {
        match lines.advance(source) {
            Ok(true) => {
                take_line(judge, frame, wide, pen, sink, lines.line());
                written(pen.answer)?;
            }
            Ok(false) => return Ok(()),
            Err(cause) => return Err(UnfitFault::from(cause)),
        }
    }
}

/// Reads a source to its end, and writes what its lines say.
fn take_all<S: Source, K: Sink, T: Titles>(
    alloc: Global,
    judge: &mut WordJudge<'_>,
    frame: &mut Frame,
    wide: &Wide<'_, T>,
    source: &mut S,
    sink: &mut K,
) -> Result<(), UnfitFault>
    ensures unfits { UnfitsAll result wide.now (S.to_come source.old) (K.written sink.old)
        (K.written sink.new) judge.old judge.new frame.old }
    ensures end { OnOk result (IsAtEnd (S.to_come source.new)) }
    ensures apart { IfErr result (λ e. NamesState e → ⊥) }
    ensures counted { CountsUnfit result (S.failures source.old) (S.failures source.new)
        (K.failures sink.old) (K.failures sink.new) }
{
    let mut lines = LineReader::new(alloc);
    let mut pen = Pen::new();
    take_lines(&mut lines, judge, frame, wide, &mut pen, source, sink)?;
    written(pen.finish(sink))?;
    judge.feed(lines.rest());
    Ok(())
}

/// Reads, judges and writes as `unfit` does, with what these say beside the digits of a word: before them in the place of its index,
/// and behind them its name, where names are asked for.
///
/// Errors: those of `unfit`.
pub fn unfit_by<S: Source, K: Sink, T: Titles>(
    alloc: Global,
    shape: &Shape,
    states: &T,
    inputs: &T,
    narrow: &Model,
    named: bool,
    source: &mut S,
    sink: &mut K,
) -> Result<Judgement, UnfitFault>
    // the judgement is that of the whole text over the fitted model, said over the other
    ensures judged { IfOk result (λ judgement. IfSome (S.to_come source.old)
        (λ text. (j : JudgementValue) × (Judges narrow.now text j
        × (judgement ≡ joined_judgement shape.now j)))) }
    // what is written says what the text says, and after a fault a beginning of it
    ensures written { OnOk result (IfSome (S.to_come source.old)
        (λ text. Appends (K.written sink.old) (K.written sink.new) (unfit_text_with
        (lined shape.now (T.symbols states.now) (T.symbols inputs.now) named (T.fronts states.now) (T.fronts inputs.now)) narrow.now text))) }
    ensures beginning { OnErr result (IfSome (S.to_come source.old)
        (λ text. AppendsBeginning (K.written sink.old) (K.written sink.new) (unfit_text_with
        (lined shape.now (T.symbols states.now) (T.symbols inputs.now) named (T.fronts states.now) (T.fronts inputs.now)) narrow.now text))) }
    // a state with an init and no next is named exactly where there is one, the first
    ensures answer { AnswersUnfit result (first_init_without_next narrow.now narrow.now) }
    ensures unread { IfErr result (λ e. NamesState e → source.new ≡ source.old) }
    ensures unwritten { IfErr result (λ e. NamesState e → sink.new ≡ sink.old) }
    ensures end { OnOk result (IsAtEnd (S.to_come source.new)) }
    // the source failed once where that is answered, the sink where that is, and else neither
    ensures counted { CountsUnfit result (S.failures source.old) (S.failures source.new)
        (K.failures sink.old) (K.failures sink.new) }
{
    let _items = narrow.items();
    let wide = Wide::new(shape, states, inputs, named);
    let mut judge = match WordJudge::new(alloc, narrow) {
        Ok(judge) => judge,
        Err(NewFault::NoNext(id)) => return Err(UnfitFault::NoNext(id)),
        Err(NewFault::NoMemory) => return Err(UnfitFault::NoMemory),
    };
    let mut frame = match Frame::new(alloc, narrow) {
        Ok(frame) => frame,
        Err(_) => return Err(UnfitFault::NoMemory),
    };
    match take_all(alloc, &mut judge, &mut frame, &wide, source, sink) {
        Ok(()) => Ok(joined(shape, judge.finish())),
        Err(fault) => Err(fault),
    }
}

/// A shape of which the states and the inputs can be counted.
fn can_be_counted(shape: &Shape)
    ensures states { length shape.now.states < 2 ^ 64 }
    ensures inputs { length shape.now.inputs < 2 ^ 64 }
{
    let (_states, _inputs) = (shape.states().len(), shape.inputs().len());
}

/// Reads a witness over a fitted model to its end, judges it over that, and writes the witness over the model with words of any
/// width that says the same: where a piece of a word is told, the word is assigned, and its other pieces have the words that
/// they have in the fitted model: those of the init lines where it is carried into the first frame, else 0. Comments are not kept.
/// With names a space stands and `<symbol>@<frame>` behind the word of an input or a state with a symbol, but where that
/// is longer than a symbol may be; names have no meaning in a witness. Of a malformed witness that is written which the
/// parts say that are closed before the faulty line, and where no claim is made nothing is. The answer is the judgement over the
/// model with words of any width.
///
/// Of the text one line is held, and what one call of the source gives; beside it what the judge holds, two words for each piece,
/// and what one call of the sink takes.
///
/// What is written means something for a model of this shape that is fitted into the other.
///
/// Errors: `NoNext` with the first state of the fitted model that has an init and no next, and then nothing was read or
/// written; `Read` where the source failed in this call, `Write` where the sink did, and `NoMemory` where a growth was refused:
/// then a beginning of the text was written.
pub fn unfit<S: Source, K: Sink>(
    alloc: Global,
    shape: &Shape,
    names: &Names,
    narrow: &Model,
    named: bool,
    source: &mut S,
    sink: &mut K,
) -> Result<Judgement, UnfitFault>
    // the judgement is that of the whole text over the fitted model, said over the other
    ensures judged { IfOk result (λ judgement. IfSome (S.to_come source.old)
        (λ text. (j : JudgementValue) × (Judges narrow.now text j
        × (judgement ≡ joined_judgement shape.now j)))) }
    // what is written says what the text says, and after a fault a beginning of it
    ensures written { OnOk result (IfSome (S.to_come source.old)
        (λ text. Appends (K.written sink.old) (K.written sink.new) (unfit_text
        (record { shape = shape.now; names = names.now; named = named }) narrow.now text))) }
    ensures beginning { OnErr result (IfSome (S.to_come source.old)
        (λ text. AppendsBeginning (K.written sink.old) (K.written sink.new) (unfit_text
        (record { shape = shape.now; names = names.now; named = named }) narrow.now text))) }
    // where it is that of a witness, what is judged of what is written over the model with words of any width is the same
    ensures kept { (wide : List Item) → IsFit wide narrow.now → shape.now ≡ shape_of wide
        → IfOk result (λ judgement. IfSome (S.to_come source.old)
        (λ text. KeepsJudgement wide (unfit_text
        (record { shape = shape.now; names = names.now; named = named }) narrow.now text)
        judgement)) }
    // a state with an init and no next is named exactly where there is one, the first
    ensures answer { AnswersUnfit result (first_init_without_next narrow.now narrow.now) }
    ensures unread { IfErr result (λ e. NamesState e → source.new ≡ source.old) }
    ensures unwritten { IfErr result (λ e. NamesState e → sink.new ≡ sink.old) }
    ensures end { OnOk result (IsAtEnd (S.to_come source.new)) }
    // the source failed once where that is answered, the sink where that is, and else neither
    ensures counted { CountsUnfit result (S.failures source.old) (S.failures source.new)
        (K.failures sink.old) (K.failures sink.new) }
{
    can_be_counted(shape);
    let states = ByIndex::new(names.states.as_slice());
    let inputs = ByIndex::new(names.inputs.as_slice());
    unfit_by(alloc, shape, &states, &inputs, narrow, named, source, sink)
}
