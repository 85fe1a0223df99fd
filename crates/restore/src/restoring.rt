//! Restoring counterexamples over engine forms.
ghost use Rattle.std.specs.Prelude.{◌≡◌, ◌<◌, ℕ, List, [], None, Some, Ok, Err, true, false, length, IfErr, IfOk, IfSome, IsErr, IsOk, OnOk, ◌⊎◌};
ghost use Rattle.std.specs.Io.KnownBytes.{Appends, IsAtEnd};
ghost use Rattle.base.specs.Device.{AppendsBeginning};
ghost use Rattle.base.specs.declared.pen.Pen.{Pen as PenValue};
ghost use Rattle.base.specs.Writing.{WritesText};
ghost use Rattle.aiger.specs.Circuit.{Circuit, IsCircuit};
ghost use Rattle.engine_form.specs.EngineForm.{input_count};
ghost use Rattle.witness.specs.BitJudgements.{BitJudges};
ghost use Rattle.witness.specs.Accepted.{BitAcceptsExactly};
ghost use Rattle.restore.specs.declared.fault.RestoreWhy.TheVariants as why;
ghost use Rattle.restore.specs.Accepted.{FindsAgain};
ghost use Rattle.restore.specs.Answers.{CountsRestore, Restores};
ghost use Rattle.restore.specs.Faults.{is_of_text};
ghost use Rattle.restore.specs.Plays.{Play as PlayValue, IsFresh};
ghost use Rattle.restore.specs.Putting.{HasTaken, TakesAll};
ghost use Rattle.restore.specs.Reading.{read_found};
ghost use Rattle.restore.specs.Restored.{restored_text};
ghost use Rattle.restore.specs.Steps.{frames_to_come};

use crate::fault::{RestoreFault, RestoreWhy};
use crate::frame_reader::FrameReader;
use crate::laws::restored_text_is_accepted;
use crate::restorer::Restorer;
use crate::told::Restored;
use crate::writer::{AsItIs, Writer};
use aiger::Circuit;
use base::{DeviceFault, Pen, Sink, Source};
use engine_form::input_count;
use std::alloc::Global;
use witness::Judgement;

/// The answer of a sink.
///
/// Error: where it failed.
pub(crate) fn written(answer: Result<(), DeviceFault>) -> Result<(), RestoreFault>
    ensures ok { OnOk result (answer ≡ Ok tt) }
    ensures err { IfErr result (λ e. IsErr answer × (e ≡ record { line = 0; why = why.Write })) }
{
    match answer {
        Ok(()) => Ok(()),
        Err(_) => Err(RestoreFault::apart(RestoreWhy::Write)),
    }
}

/// Takes all frames of a source, and puts their lines.
///
/// Errors: the source's own, the sink's, and the text's.
fn take_frames<S: Source, W: Writer, K: Sink>(
    reader: &mut FrameReader,
    restorer: &mut Restorer<'_>,
    writer: &W,
    pen: &mut Pen,
    source: &mut S,
    sink: &mut K,
) -> Result<(), RestoreFault>
    requires unread { reader.old.rest ≡ [] }
    requires width { length reader.old.frame ≡ input_count restorer.old.circuit }
    requires well { pen.old.answer ≡ Ok tt }
    ensures takes { IfSome (S.to_come source.old) (λ text. (start : K) (from : PenValue)
        (first : PlayValue)
        → HasTaken (W.put_for writer.now) K.written K.failures start sink.old from pen.old first []
        restorer.old
        → TakesAll result (W.put_for writer.now) K.written K.failures start sink.new from pen.new
        first restorer.new (frames_to_come reader.old text)) }
    ensures end { OnOk result (IsAtEnd (S.to_come source.new)) }
    ensures read_on { IfErr result (λ e. is_of_text e.why ≡ true → IsAtEnd (S.to_come source.new)) }
    ensures line { IfErr result (λ e. is_of_text e.why ≡ false → e.line ≡ 0) }
    ensures writes { (text : List ℕ) × WritesText K.written K.failures sink.old sink.new pen.old pen.new
        text }
    ensures counted { CountsRestore result (S.failures source.old) (S.failures source.new)
        (K.failures sink.old) (K.failures sink.new) }
{
    while reader.advance(source)? {
        restorer.take_frame(writer, pen, sink, reader.frame());
        written(pen.answer)?;
    }
    Ok(())
}

/// Puts the line behind the frames of a text with which nothing is wrong, and writes what the pen keeps, where all frames were
/// taken.
///
/// Error: that which was told, or the sink's own.
fn end<W: Writer, K: Sink>(
    told: Result<(), RestoreFault>,
    restorer: &Restorer<'_>,
    writer: &W,
    pen: &mut Pen,
    sink: &mut K,
) -> Result<Restored, RestoreFault>
    ensures ends { (start : K) (from : PenValue) (first : PlayValue) (c : Circuit) (k : ℕ)
        (text : List ℕ) → from.outbox ≡ [] → from.answer ≡ Ok tt → IsCircuit c
        → k < length c.bads → IsFresh c k first
        → TakesAll told (W.put_for writer.now) K.written K.failures start sink.old from pen.old first
        restorer.now (read_found (input_count c) text)
        → Restores result (W.put_for writer.now) c k (K.written start) (K.written sink.new) text }
    ensures same { IfErr result (λ e. (told ≡ Err e) ⊎ (e ≡ record { line = 0; why = why.Write })) }
    ensures right { OnOk result (IsOk told) }
    ensures counted { (start : K) (from : PenValue) (text : List ℕ) (old new : ℕ)
        → from.outbox ≡ [] → from.answer ≡ Ok tt
        → WritesText K.written K.failures start sink.old from pen.old text
        → CountsRestore told old new (K.failures start) (K.failures sink.old)
        → CountsRestore result old new (K.failures start) (K.failures sink.new) }
{
    match told {
        Ok(()) => {
            restorer.put_end(writer, pen, sink);
            written(pen.finish(sink))?;
            Ok(restorer.told())
        }
        Err(fault) => {
            if fault.why.is_of_text() {
                written(pen.finish(sink))?;
            }
            Err(fault)
        }
    }
}

/// Restores as `restore` does, and writes what a writer writes for each line in place of it. The answer has beside the
/// judgement the claimed property with the first frame in which it is 1.
///
/// Condition: the circuit has the claimed property.
///
/// Errors: those of `restore`.
pub fn restore_with<S: Source, W: Writer, K: Sink>(
    alloc: Global,
    circuit: &Circuit,
    claim: usize,
    writer: &W,
    source: &mut S,
    sink: &mut K,
) -> Result<Restored, RestoreFault>
    requires { claim < length circuit.now.bads }
    ensures restores { IfSome (S.to_come source.old)
        (Restores result (W.put_for writer.now) circuit.now claim (K.written sink.old)
        (K.written sink.new)) }
    ensures apart { IfErr result (λ e. is_of_text e.why ≡ false → e.line ≡ 0) }
    ensures end { OnOk result (IsAtEnd (S.to_come source.new)) }
    ensures read_on { IfErr result (λ e. is_of_text e.why ≡ true → IsAtEnd (S.to_come source.new)) }
    // the source failed once where that is told, the sink where that is, and else neither
    ensures counted { CountsRestore result (S.failures source.old) (S.failures source.new)
        (K.failures sink.old) (K.failures sink.new) }
{
    let _inputs = circuit.inputs();
    let mut reader = FrameReader::new(alloc, input_count(circuit))?;
    let mut restorer = Restorer::new(alloc, circuit, claim)?;
    let mut pen = Pen::new();
    let told = take_frames(&mut reader, &mut restorer, writer, &mut pen, source, sink);
    end(told, &restorer, writer, &mut pen, sink)
}

/// Reads the text of a counterexample over the engine form of a circuit to its end, and writes what it is restored to: the
/// witness of the circuit with this claim, up to and with the first frame in which the claimed property rises, or of all
/// frames where it does not. The answer is the judgement over the circuit of what is written. Of the text one line is held,
/// and what one call of the source gives; beside it one run of the circuit, two lines, and what one call of the sink takes.
///
/// Condition: the circuit has the claimed property. (A circuit with justice or fairness has no engine form; of it the same is
/// written and judged.)
///
/// Errors: the text's first faulty line, once the source was read to its end and what the lines before it give was written,
/// without a last line. With line 0: `Device` where the source failed in this call, `Write` where the sink did, and
/// `NoMemory` where a growth was refused; a beginning of what the text is restored to was written then.
pub fn restore<S: Source, K: Sink>(
    alloc: Global,
    circuit: &Circuit,
    claim: usize,
    source: &mut S,
    sink: &mut K,
) -> Result<Judgement, RestoreFault>
    requires { claim < length circuit.now.bads }
    // the judgement is that of what was written, and that is all that the text is restored to, with which nothing is wrong
    ensures judged { IfOk result (λ judgement. IfSome (S.to_come source.old)
        (λ text. BitJudges circuit.now (restored_text circuit.now claim text) judgement)) }
    // accepted exactly where that says a witness of which this is judged
    ensures accepted { IfOk result (λ judgement. IfSome (S.to_come source.old)
        (λ text. BitAcceptsExactly circuit.now (restored_text circuit.now claim text) judgement)) }
    ensures written { OnOk result (IfSome (S.to_come source.old)
        (λ text. Appends (K.written sink.old) (K.written sink.new)
        (restored_text circuit.now claim text))) }
    ensures right { OnOk result (IfSome (S.to_come source.old)
        (λ text. (read_found (input_count circuit.now) text).fault ≡ None)) }
    // where the text's frames make the claimed property of an engine form 1, that is accepted, and ends with the first such frame
    ensures found { IfOk result (λ judgement. IfSome (S.to_come source.old)
        (λ text. FindsAgain circuit.now claim text judgement)) }
    // a fault of the text is its own, and what the lines before it give was written; at any other a beginning was
    ensures faulty { IfErr result (λ e. is_of_text e.why ≡ true
        → IfSome (S.to_come source.old) (λ text. (read_found (input_count circuit.now) text).fault
        ≡ Some e)) }
    ensures before { IfErr result (λ e. is_of_text e.why ≡ true
        → IfSome (S.to_come source.old)
        (λ text. Appends (K.written sink.old) (K.written sink.new)
        (restored_text circuit.now claim text))) }
    ensures beginning { IfErr result (λ e. is_of_text e.why ≡ false
        → IfSome (S.to_come source.old)
        (λ text. AppendsBeginning (K.written sink.old) (K.written sink.new)
        (restored_text circuit.now claim text))) }
    ensures apart { IfErr result (λ e. is_of_text e.why ≡ false → e.line ≡ 0) }
    ensures end { OnOk result (IsAtEnd (S.to_come source.new)) }
    ensures read_on { IfErr result (λ e. is_of_text e.why ≡ true → IsAtEnd (S.to_come source.new)) }
    // the source failed once where that is told, the sink where that is, and else neither
    ensures counted { CountsRestore result (S.failures source.old) (S.failures source.new)
        (K.failures sink.old) (K.failures sink.new) }
{
    restored_text_is_accepted();
    witness::bit_laws::exactly_one_bit_judgement();
    witness::bit_laws::accepted_exactly();
    let _inputs = circuit.inputs();
    match restore_with(alloc, circuit, claim, &AsItIs, source, sink) {
        Ok(told) => Ok(told.judgement),
        Err(fault) => Err(fault),
    }
}
