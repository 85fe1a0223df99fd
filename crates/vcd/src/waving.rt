//! Writing whole sources as dumps.
ghost use Rattle.std.specs.Prelude.{◌≡◌, [], List, None, IfErr, IfOk, IfSome, OnErr, OnOk};
ghost use Rattle.std.specs.Io.KnownBytes.{Appends, IsAtEnd};
ghost use Rattle.base.specs.Device.{AppendsBeginning};
ghost use Rattle.btor2.specs.Check.{IsWellFormed};
ghost use Rattle.btor2.specs.Lists.{first_init_without_next};
ghost use Rattle.btor2.specs.Trace.{Frame};
ghost use Rattle.witness.specs.Judgements.{Judges};
ghost use Rattle.witness.specs.ClosedWords.{IsClosedTrace};
ghost use Rattle.witness.specs.WordStands.{StandsForWitness};
ghost use Rattle.vcd.specs.Answers.{AnswersWave, CountsWave, IsBefore, IsDeviceFault};
ghost use Rattle.vcd.specs.Dumps.{vcd_text};
ghost use Rattle.vcd.specs.Stands.{Waves, TakesFront, Stops, marks as all_marks};

use crate::apart::marks;
use crate::declarations::put_declarations;
use crate::fault::WaveFault;
use crate::scope::Shown;
use crate::waver::Waver;
use base::{Pen, Sink, Source, Taker, TakingFault, take_source};
use btor2::Model;
use std::alloc::Global;
use witness::Judgement;

/// A waver, and the pen that it puts with.
#[derive(Drop)]
struct Waving<'a> {
    waver: Waver<'a>,
    pen: Pen,
}

impl<'a, K: Sink> Taker<K> for Waving<'a> {
    ghost use Rattle.std.specs.Prelude.{is_err};
    ghost use Rattle.base.specs.declared.pen.Pen.{Pen};
    ghost use Rattle.vcd.specs.Stands.{Waver as WaverValue, Takes};

    /// The sink, the pen and the waver as they were when nothing was taken.
    ghost Over = { K × Pen × WaverValue };

    ghost stands = { λ over sink taker text. Takes K.written K.failures over.0 sink over.1
        taker.pen over.2 taker.waver text };

    ghost is_done = { λ taker. is_err taker.pen.answer };

    fn take(&mut self, output: &mut K, piece: &[u8]) {
        self.waver.take(&mut self.pen, output, piece);
    }

    fn is_done(&self) -> bool {
        self.pen.answer.is_err()
    }
}

/// Reads a source to its end, and puts the frames of its text, as long as the sink has not failed.
///
/// Errors: the source's own, and the sink's.
fn take_all<S: Source, K: Sink>(
    waving: &mut Waving<'_>,
    source: &mut S,
    sink: &mut K,
) -> Result<(), WaveFault>
    ensures takes { TakesFront K.written K.failures sink.old sink.new waving.old.pen waving.new.pen
        waving.old.waver waving.new.waver (S.to_come source.old) (S.to_come source.new) }
    ensures end { OnOk result (IsAtEnd (S.to_come source.new)) }
    ensures stops { Stops result waving.new.pen.answer (S.failures source.old) (S.failures source.new) }
{
    match take_source(waving, sink, source) {
        Ok(()) => Ok(()),
        Err(TakingFault::Source) => Err(WaveFault::Read),
        Err(TakingFault::Done) => Err(WaveFault::Write),
    }
}

/// Reads a source to its end, and writes the dump of the frames of its text, in which signals with a mark are told apart.
///
/// Errors: the source's own, and the sink's.
fn write_dump<S: Source, K: Sink>(
    waving: &mut Waving<'_>,
    model: &Model,
    shown: Shown,
    marks: &[bool],
    title: &[u8],
    source: &mut S,
    sink: &mut K,
) -> Result<(), WaveFault>
    requires waves { Waves shown model.now waving.old.waver [] [] }
    requires kept { waving.old.pen.outbox ≡ [] }
    requires well { waving.old.pen.answer ≡ Ok tt }
    requires marks { marks.now ≡ all_marks shown model.now }
    ensures stands { OnOk result (IfSome (S.to_come source.old)
        (StandsForWitness model.now waving.new.waver.judge)) }
    ensures written { OnOk result (IfSome (S.to_come source.old) (λ text. (fs : List Frame)
        → IsClosedTrace model.now text fs
        → Appends (K.written sink.old) (K.written sink.new)
        (vcd_text shown title.now model.now fs))) }
    ensures beginning { OnErr result (IfSome (S.to_come source.old) (λ text. (fs : List Frame)
        → IsClosedTrace model.now text fs
        → AppendsBeginning (K.written sink.old) (K.written sink.new)
        (vcd_text shown title.now model.now fs))) }
    ensures end { OnOk result (IsAtEnd (S.to_come source.new)) }
    ensures fault { IfErr result IsDeviceFault }
    ensures counted { CountsWave result (S.failures source.old) (S.failures source.new)
        (K.failures sink.old) (K.failures sink.new) }
{
    put_declarations(&mut waving.pen, sink, model, shown, marks, title);
    take_all(waving, source, sink)?;
    waving.waver.put_end(&mut waving.pen, sink);
    match waving.pen.finish(sink) {
        Ok(()) => Ok(()),
        Err(_) => Err(WaveFault::Write),
    }
}

/// Reads a source to its end, and writes the dump of the frames of its text.
///
/// Errors: `NoMemory`, with nothing read or written; the source's own, and the sink's.
fn write_told<S: Source, K: Sink>(
    alloc: Global,
    waving: &mut Waving<'_>,
    model: &Model,
    shown: Shown,
    title: &[u8],
    source: &mut S,
    sink: &mut K,
) -> Result<(), WaveFault>
    requires waves { Waves shown model.now waving.old.waver [] [] }
    requires kept { waving.old.pen.outbox ≡ [] }
    requires well { waving.old.pen.answer ≡ Ok tt }
    ensures stands { OnOk result (IfSome (S.to_come source.old)
        (StandsForWitness model.now waving.new.waver.judge)) }
    ensures written { OnOk result (IfSome (S.to_come source.old) (λ text. (fs : List Frame)
        → IsClosedTrace model.now text fs
        → Appends (K.written sink.old) (K.written sink.new)
        (vcd_text shown title.now model.now fs))) }
    ensures beginning { IfErr result (λ e. IsDeviceFault e
        → IfSome (S.to_come source.old) (λ text. (fs : List Frame) → IsClosedTrace model.now text fs
        → AppendsBeginning (K.written sink.old) (K.written sink.new)
        (vcd_text shown title.now model.now fs))) }
    ensures fault { AnswersWave result None }
    ensures unread { IsBefore result → source.new ≡ source.old }
    ensures unwritten { IsBefore result → sink.new ≡ sink.old }
    ensures end { OnOk result (IsAtEnd (S.to_come source.new)) }
    ensures counted { CountsWave result (S.failures source.old) (S.failures source.new)
        (K.failures sink.old) (K.failures sink.new) }
{
    match marks(alloc, model, shown) {
        Ok(marks) => write_dump(waving, model, shown, marks.as_slice(), title, source, sink),
        Err(_) => Err(WaveFault::NoMemory),
    }
}

/// Reads a witness of a model to its end, judges it, and writes its frames as a value change dump: the declarations of the
/// signals, scope by scope, then for each frame the words of those that changed, of the first frame all, and the moment
/// behind the last frame. Of a malformed witness the frames that are closed before the faulty line are written, and where
/// no claim is made the declarations alone. Of the text only what one call of the source gives is held at a time, and
/// beside it what the judge holds, a word for each signal, and what one call of the sink takes.
///
/// `shown` says which nodes are shown beside inputs, states, properties and outputs; the title stands in the dump's
/// comment, with `_` in place of bytes that could end it. Two signals of a scope have two names: to see to that, what names
/// the signals of one scope is held before anything is written, and six marks for each line of the model until the end.
///
/// Errors: `NoNext` with the first state in file order that has an init and no next, or else `NoMemory` where a growth was
/// refused, and after both nothing was read or written; `Read` where the source failed in this call, and `Write` where the
/// sink did, once. After these a beginning of the dump was written.
pub fn wave<S: Source, K: Sink>(
    alloc: Global,
    model: &Model,
    shown: Shown,
    title: &[u8],
    source: &mut S,
    sink: &mut K,
) -> Result<Judgement, WaveFault>
    // the judgement is that of the whole text
    ensures judged { IfOk result (λ judgement. IfSome (S.to_come source.old)
        (λ text. Judges model.now text judgement)) }
    // what is written is the dump of the text's closed frames, and after a fault a beginning of it
    ensures written { OnOk result (IfSome (S.to_come source.old) (λ text. (fs : List Frame)
        → IsClosedTrace model.now text fs
        → Appends (K.written sink.old) (K.written sink.new)
        (vcd_text shown title.now model.now fs))) }
    ensures beginning { IfErr result (λ e. IsDeviceFault e
        → IfSome (S.to_come source.old) (λ text. (fs : List Frame) → IsClosedTrace model.now text fs
        → AppendsBeginning (K.written sink.old) (K.written sink.new)
        (vcd_text shown title.now model.now fs))) }
    // a state with an init and no next is named exactly where there is one, the first
    ensures answer { AnswersWave result (first_init_without_next model.now model.now) }
    ensures unread { IsBefore result → source.new ≡ source.old }
    ensures unwritten { IsBefore result → sink.new ≡ sink.old }
    ensures end { OnOk result (IsAtEnd (S.to_come source.new)) }
    // the source failed once where that is answered, the sink where that is, and else neither
    ensures counted { CountsWave result (S.failures source.old) (S.failures source.new)
        (K.failures sink.old) (K.failures sink.new) }
    // the items of a model are one, so that its frames have a trace
    ensures well_formed { IsWellFormed model.now }
{
    let mut waving = Waving {
        waver: Waver::new(alloc, model, shown)?,
        pen: Pen::new(),
    };
    let written = write_told(alloc, &mut waving, model, shown, title, source, sink);
    let judgement = waving.waver.finish();
    match written {
        Ok(()) => Ok(judgement),
        Err(fault) => Err(fault),
    }
}
