//! Whole sources, judged over a model with words of any width by the model that it is fitted into.
ghost use Rattle.std.specs.Prelude.{◌≡◌, List, true, false, IfErr, IfOk, IfSome, IsErr, IsErrOf, OnErr, OnOk, is_err};
ghost use Rattle.std.specs.Io.KnownBytes.{Appends, IsAtEnd};
ghost use Rattle.base.specs.Lines.{IsLine};
ghost use Rattle.base.specs.Device.{AppendsBeginning, HasRisen};
ghost use Rattle.btor2.specs.declared.item.Item.{Item};
ghost use Rattle.btor2.specs.Lists.{first_init_without_next};
ghost use Rattle.witness.specs.Judgements.{Judges};
ghost use Rattle.rejoin.specs.Faults.{AnswersUnfit, CountsUnfit, NamesState};
ghost use Rattle.spread.specs.Answers.{IsOfFitted, KeepsJudgement, StopsTaking};
ghost use Rattle.spread.specs.Spread.{IsShort, spread_text};
ghost use Rattle.spread.specs.Stands.{Takes, TakesAll, WritesAll};
ghost use Rattle.spread.specs.Made.{source_made};
ghost use Rattle.spread.specs.Heard.{Hears, HearsAll, HearsText};

use crate::hearing::{Deaf, Hearer};
use crate::making::{AsTheyAre, Lines};
use crate::spreader::{Part, Spreader, part_behind};
use base::{LineReader, Pen, Sink, Source};
use btor2::Model;
use rejoin::laws::{shapes_are_cut, split_is_judged_alike};
use rejoin::{Shape, UnfitFault};
use runs::NewFault;
use std::alloc::{AllocError, Global};
use witness::Judgement;

/// Takes a line, and has it heard.
fn take_heard<K: Sink, H: Hearer>(
    spreader: &mut Spreader<'_, '_>,
    pen: &mut Pen,
    sink: &mut K,
    hearer: &mut H,
    line: &[u8],
)
    requires { IsLine line.now }
    ensures takes { Takes K.written K.failures sink.old sink.new pen.old pen.new
        spreader.old spreader.new line.now }
    ensures hears { Hears H.stands hearer.old hearer.new spreader.new line.now }
{
    spreader.take_line(pen, sink, line);
    hearer.hear(line, spreader.judge());
}

/// Takes the line that a line becomes, where a part is open before it, and has it heard. What was made is held in `made`.
///
/// Error: a growth was refused, and then nothing was taken.
fn take_made<K: Sink, L: Lines, H: Hearer>(
    spreader: &mut Spreader<'_, '_>,
    pen: &mut Pen,
    sink: &mut K,
    lines: &L,
    hearer: &mut H,
    part: Part,
    line: &[u8],
    made: &mut Vec<u8>,
) -> Result<(), AllocError>
    requires { IsLine line.now }
    ensures takes { OnOk result (Takes K.written K.failures sink.old sink.new pen.old pen.new
        spreader.old spreader.new (L.becomes lines.now part line.now)) }
    ensures hears { OnOk result (Hears H.stands hearer.old hearer.new spreader.new
        (L.becomes lines.now part line.now)) }
    ensures spreader { OnErr result (spreader.new ≡ spreader.old) }
    ensures pen { OnErr result (pen.new ≡ pen.old) }
    ensures sink { OnErr result (sink.new ≡ sink.old) }
{
    if lines.make(part, line, made)? {
        take_heard(spreader, pen, sink, hearer, made.as_slice());
    } else {
        take_heard(spreader, pen, sink, hearer, line);
    }
    Ok(())
}

/// Takes what the lines of a source become, and the bytes behind the last.
///
/// Errors: the source's own, `Write` where the pen's sink failed, and `NoMemory` where a growth was refused.
fn take_lines<S: Source, K: Sink, L: Lines, H: Hearer>(
    alloc: Global,
    spreader: &mut Spreader<'_, '_>,
    pen: &mut Pen,
    source: &mut S,
    sink: &mut K,
    lines: &L,
    hearer: &mut H,
) -> Result<(), UnfitFault>
    requires { pen.old.answer ≡ Ok tt }
    ensures takes { TakesAll result K.written K.failures sink.old sink.new pen.old pen.new
        spreader.old spreader.new (source_made (L.becomes lines.now) (S.to_come source.old)) }
    ensures heard { OnOk result (HearsAll H.stands hearer.old hearer.new spreader.old
        (source_made (L.becomes lines.now) (S.to_come source.old))) }
    ensures stops { StopsTaking result (is_err pen.new.answer) (S.failures source.old)
        (S.failures source.new) }
    ensures end { OnOk result (IsAtEnd (S.to_come source.new)) }
{
    let mut reader = LineReader::new(alloc);
    let mut made = Vec::new(alloc);
    let mut part = Part::Outside;
    loop {
        match reader.advance(source) {
            Ok(true) => {}
            Ok(false) => {
                spreader.take_rest(reader.rest());
                return Ok(());
            }
            Err(cause) => return Err(UnfitFault::from(cause)),
        }
        let line = reader.line();
        match take_made(spreader, pen, sink, lines, hearer, part, line, &mut made) {
            Ok(()) => {}
            Err(_) => return Err(UnfitFault::NoMemory),
        }
        if pen.answer.is_err() {
            return Err(UnfitFault::Write);
        }
        part = part_behind(part, line);
    }
}

/// Takes what a whole source becomes, and writes what its text is spread to.
///
/// Errors: the source's own, the sink's, and `NoMemory` where a growth was refused.
fn spread_through<S: Source, K: Sink, L: Lines, H: Hearer>(
    alloc: Global,
    spreader: &mut Spreader<'_, '_>,
    source: &mut S,
    sink: &mut K,
    lines: &L,
    hearer: &mut H,
) -> Result<(), UnfitFault>
    ensures writes { WritesAll result K.written sink.old sink.new spreader.old spreader.new
        (source_made (L.becomes lines.now) (S.to_come source.old)) }
    ensures heard { OnOk result (HearsAll H.stands hearer.old hearer.new spreader.old
        (source_made (L.becomes lines.now) (S.to_come source.old))) }
    ensures fault { IfErr result (λ e. NamesState e → ⊥) }
    ensures end { OnOk result (IsAtEnd (S.to_come source.new)) }
    ensures counted { CountsUnfit result (S.failures source.old) (S.failures source.new)
        (K.failures sink.old) (K.failures sink.new) }
{
    let mut pen = Pen::new();
    match take_lines(alloc, spreader, &mut pen, source, sink, lines, hearer) {
        Ok(()) => {}
        Err(fault) => return Err(fault),
    }
    match pen.finish(sink) {
        Ok(()) => Ok(()),
        Err(_) => Err(UnfitFault::Write),
    }
}

/// Judges and spreads as `spread_by` does, and has each line heard behind the judge that took it.
///
/// Conditions and errors: those of `spread_by`.
pub fn spread_heard<S: Source, K: Sink, L: Lines, H: Hearer>(
    alloc: Global,
    shape: &Shape,
    narrow: &Model,
    source: &mut S,
    sink: &mut K,
    lines: &L,
    hearer: &mut H,
) -> Result<Judgement, UnfitFault>
    requires fitted { (wide : List Item) × IsOfFitted shape.now narrow.now wide }
    // the judgement is that of the whole text over the model
    ensures judged { (wide : List Item) → IsOfFitted shape.now narrow.now wide
        → IfOk result (λ judgement. IfSome (source_made (L.becomes lines.now) (S.to_come source.old))
        (λ text. IsShort text → Judges wide text judgement)) }
    // what is judged of the spread text over the fitted model makes it, where the text says a witness
    ensures kept { (wide : List Item) → IsOfFitted shape.now narrow.now wide
        → IfOk result (λ judgement. IfSome (source_made (L.becomes lines.now) (S.to_come source.old))
        (λ text. IsShort text → KeepsJudgement wide narrow.now text judgement)) }
    // what is written is the spread text
    ensures written { OnOk result (IfSome (source_made (L.becomes lines.now) (S.to_come source.old))
        (λ text. IsShort text → Appends (K.written sink.old) (K.written sink.new)
        (spread_text shape.now text))) }
    // and after a fault a beginning of it
    ensures beginning { OnErr result (IfSome (source_made (L.becomes lines.now) (S.to_come source.old))
        (λ text. IsShort text → AppendsBeginning (K.written sink.old) (K.written sink.new)
        (spread_text shape.now text))) }
    // all whole lines were heard
    ensures heard { (wide : List Item) → IsOfFitted shape.now narrow.now wide
        → OnOk result (HearsText H.stands hearer.old hearer.new wide narrow.now
        (source_made (L.becomes lines.now) (S.to_come source.old))) }
    // a state with an init and no next is named exactly where there is one, the first
    ensures answer { AnswersUnfit result (first_init_without_next narrow.now narrow.now) }
    ensures unread { IfErr result (λ e. NamesState e → source.new ≡ source.old) }
    ensures unwritten { IfErr result (λ e. NamesState e → sink.new ≡ sink.old) }
    ensures end { OnOk result (IsAtEnd (S.to_come source.new)) }
    // the source failed once where that is answered, the sink where that is, and else neither
    ensures counted { CountsUnfit result (S.failures source.old) (S.failures source.new)
        (K.failures sink.old) (K.failures sink.new) }
{
    shapes_are_cut();
    split_is_judged_alike();
    let _items = narrow.items();
    let mut spreader = match Spreader::new(alloc, shape.states(), shape.inputs(), narrow) {
        Ok(spreader) => spreader,
        Err(NewFault::NoNext(id)) => return Err(UnfitFault::NoNext(id)),
        Err(NewFault::NoMemory) => return Err(UnfitFault::NoMemory),
    };
    match spread_through(alloc, &mut spreader, source, sink, lines, hearer) {
        Ok(()) => Ok(spreader.finish()),
        Err(fault) => Err(fault),
    }
}

/// Judges and spreads, as `spread` does, the text that the lines of a source become. Beside what that holds, it holds what the last
/// line became.
///
/// Conditions and errors: those of `spread`, of the text that the lines become. `NoMemory` also where there is none for a line.
pub fn spread_by<S: Source, K: Sink, L: Lines>(
    alloc: Global,
    shape: &Shape,
    narrow: &Model,
    source: &mut S,
    sink: &mut K,
    lines: &L,
) -> Result<Judgement, UnfitFault>
    requires fitted { (wide : List Item) × IsOfFitted shape.now narrow.now wide }
    // the judgement is that of the whole text over the model
    ensures judged { (wide : List Item) → IsOfFitted shape.now narrow.now wide
        → IfOk result (λ judgement. IfSome (source_made (L.becomes lines.now) (S.to_come source.old))
        (λ text. IsShort text → Judges wide text judgement)) }
    // what is judged of the spread text over the fitted model makes it, where the text says a witness
    ensures kept { (wide : List Item) → IsOfFitted shape.now narrow.now wide
        → IfOk result (λ judgement. IfSome (source_made (L.becomes lines.now) (S.to_come source.old))
        (λ text. IsShort text → KeepsJudgement wide narrow.now text judgement)) }
    // what is written is the spread text
    ensures written { OnOk result (IfSome (source_made (L.becomes lines.now) (S.to_come source.old))
        (λ text. IsShort text → Appends (K.written sink.old) (K.written sink.new)
        (spread_text shape.now text))) }
    // and after a fault a beginning of it
    ensures beginning { OnErr result (IfSome (source_made (L.becomes lines.now) (S.to_come source.old))
        (λ text. IsShort text → AppendsBeginning (K.written sink.old) (K.written sink.new)
        (spread_text shape.now text))) }
    // a state with an init and no next is named exactly where there is one, the first
    ensures answer { AnswersUnfit result (first_init_without_next narrow.now narrow.now) }
    ensures unread { IfErr result (λ e. NamesState e → source.new ≡ source.old) }
    ensures unwritten { IfErr result (λ e. NamesState e → sink.new ≡ sink.old) }
    ensures end { OnOk result (IsAtEnd (S.to_come source.new)) }
    // the source failed once where that is answered, the sink where that is, and else neither
    ensures counted { CountsUnfit result (S.failures source.old) (S.failures source.new)
        (K.failures sink.old) (K.failures sink.new) }
{
    spread_heard(alloc, shape, narrow, source, sink, lines, &mut Deaf)
}

/// Reads a witness over a model with words of any width to its end, judges it by the model that it is fitted into, and writes
/// what it is spread to: the witness over the fitted model that says the same, word by word in pieces of 64 bits and without
/// names. Of a malformed witness the lines before the faulty one are spread. Of the text one line is held, and what a piece of
/// the source gives behind it, and beside it what the judge holds and a number for each state and each input.
///
/// Conditions: `narrow` is the model that the model is fitted into, and `shape` is the model's. Of a text of more than 2^44 lines
/// nothing is said, since its pieces may be more lines than a witness has.
///
/// Errors: `NoNext` with the first state of `narrow` in file order that has an init and no next, and then nothing was read or
/// written; `Read` where the source failed in this call, and `Write` where the sink did, once; `NoMemory` where a growth was
/// refused. After these three a beginning of the spread text was written.
pub fn spread<S: Source, K: Sink>(
    alloc: Global,
    shape: &Shape,
    narrow: &Model,
    source: &mut S,
    sink: &mut K,
) -> Result<Judgement, UnfitFault>
    requires fitted { (wide : List Item) × IsOfFitted shape.now narrow.now wide }
    // the judgement is that of the whole text over the model
    ensures judged { (wide : List Item) → IsOfFitted shape.now narrow.now wide
        → IfOk result (λ judgement. IfSome (S.to_come source.old)
        (λ text. IsShort text → Judges wide text judgement)) }
    // what is judged of the spread text over the fitted model makes it, where the text says a witness
    ensures kept { (wide : List Item) → IsOfFitted shape.now narrow.now wide
        → IfOk result (λ judgement. IfSome (S.to_come source.old)
        (λ text. IsShort text → KeepsJudgement wide narrow.now text judgement)) }
    // what is written is the spread text
    ensures written { OnOk result (IfSome (S.to_come source.old)
        (λ text. IsShort text → Appends (K.written sink.old) (K.written sink.new)
        (spread_text shape.now text))) }
    // and after a fault a beginning of it
    ensures beginning { OnErr result (IfSome (S.to_come source.old)
        (λ text. IsShort text → AppendsBeginning (K.written sink.old) (K.written sink.new)
        (spread_text shape.now text))) }
    // a state with an init and no next is named exactly where there is one, the first
    ensures answer { AnswersUnfit result (first_init_without_next narrow.now narrow.now) }
    ensures unread { IfErr result (λ e. NamesState e → source.new ≡ source.old) }
    ensures unwritten { IfErr result (λ e. NamesState e → sink.new ≡ sink.old) }
    ensures end { OnOk result (IsAtEnd (S.to_come source.new)) }
    // the source failed once where that is answered, the sink where that is, and else neither
    ensures counted { CountsUnfit result (S.failures source.old) (S.failures source.new)
        (K.failures sink.old) (K.failures sink.new) }
{
    spread_by(alloc, shape, narrow, source, sink, &AsTheyAre)
}
