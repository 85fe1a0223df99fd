//! Lifting whole sources.
ghost use Rattle.std.specs.Prelude.{◌≡◌, [], Ok, true, IfErr, IfOk, IfSome, IsErr, IsErrOf, OnErr, OnOk};
ghost use Rattle.std.specs.Io.KnownBytes.{Appends, IsAtEnd};
ghost use Rattle.base.specs.Device.{AppendsBeginning};
ghost use Rattle.blast.specs.Lowering.{Lowers};
ghost use Rattle.witness.specs.BitJudgements.{BitJudges};
ghost use Rattle.witness.specs.Accepted.{BitAcceptsExactly};
ghost use Rattle.rises.specs.FirstRises.{AreBitFirstRises};
ghost use Rattle.lift.specs.Answers.{CountsLift};
ghost use Rattle.lift.specs.Lifted.{lifted_text, lifted_with};
ghost use Rattle.lift.specs.Stands.{Lifted, LiftsAll, LiftsWith};
ghost use Rattle.lift.specs.Verdicts.{KeepsVerdict, KeepsVerdictIn};

use crate::fault::LiftFault;
use crate::laws::{lifting_keeps_the_verdict, names_keep_the_verdict};
use crate::lifter::Lifter;
use aiger::Circuit;
use base::{DeviceFault, Pen, Sink, Source, Taker, TakingFault, take_source};
use btor2::Model;
use rises::FirstRises;
use std::alloc::Global;
use witness::Judgement;

/// The answer of a sink.
///
/// Error: where it failed.
fn written(answer: Result<(), DeviceFault>) -> Result<(), LiftFault>
    ensures ok { OnOk result (answer ≡ Ok tt) }
    ensures err { IfErr result (λ e. IsErr answer × (e ≡ LiftFault.Write)) }
{
    match answer {
        Ok(()) => Ok(()),
        Err(_) => Err(LiftFault::Write),
    }
}

/// A lifter, and the pen that it puts with.
#[derive(Drop)]
struct Lifting<'a> {
    lifter: Lifter<'a>,
    pen: Pen,
}

impl<'a, K: Sink> Taker<K> for Lifting<'a> {
    ghost use Rattle.std.specs.Prelude.{is_err};
    ghost use Rattle.base.specs.declared.pen.Pen.{Pen};
    ghost use Rattle.lift.specs.Stands.{Lifted, HasLifted};

    /// The sink and the pen as they were when nothing was taken, and over what is lifted.
    ghost Over = { K × Pen × Lifted };

    ghost stands = { λ over sink taker text. HasLifted K.written K.failures over.0 sink over.1
        taker.pen over.2.named over.2.items over.2.circuit taker.lifter text };

    ghost is_done = { λ taker. is_err taker.pen.answer };

    fn take(&mut self, output: &mut K, piece: &[u8]) {
        self.lifter.take(&mut self.pen, output, piece);
    }

    fn is_done(&self) -> bool {
        self.pen.answer.is_err()
    }
}

/// Reads a source to its end, and writes what its text is lifted to.
///
/// Errors: the source's own, and the sink's.
fn lift_through<S: Source, K: Sink>(
    lifting: &mut Lifting<'_>,
    source: &mut S,
    sink: &mut K,
) -> Result<(), LiftFault>
    requires lifts { (over : Lifted)
        × LiftsWith over.named over.items over.circuit lifting.old.lifter [] }
    requires kept { lifting.old.pen.outbox ≡ [] }
    requires well { lifting.old.pen.answer ≡ Ok tt }
    ensures lifts { LiftsAll result (S.to_come source.old) (K.written sink.old)
        (K.written sink.new) lifting.old.lifter lifting.new.lifter }
    ensures end { OnOk result (IsAtEnd (S.to_come source.new)) }
    ensures fault { IfErr result (λ e. e ≡ LiftFault.NoMemory → ⊥) }
    ensures counted { CountsLift result (S.failures source.old) (S.failures source.new)
        (K.failures sink.old) (K.failures sink.new) }
{
    match take_source(lifting, sink, source) {
        Ok(()) => written(lifting.pen.finish(sink)),
        Err(TakingFault::Source) => Err(LiftFault::Read),
        Err(TakingFault::Done) => Err(LiftFault::Write),
    }
}

/// Lifts as `lift` does. With names it writes them, too: behind the word of an input or a state with a symbol stands a space
/// and `<symbol>@<frame>`, as BtorMC writes it, but where that is longer than a symbol may be; names have no meaning in a
/// witness. It then answers with the judgement the first frame in which the claimed bad property is 1; without names it notes
/// none.
///
/// Condition: the circuit is a lowering of the model.
///
/// Errors: those of `lift`.
pub fn lift_with_rises<S: Source, K: Sink>(
    alloc: Global,
    model: &Model,
    circuit: &Circuit,
    named: bool,
    source: &mut S,
    sink: &mut K,
) -> Result<(Judgement, FirstRises), LiftFault>
    requires { Lowers model.now circuit.now }
    // the judgement is that of the whole text over the circuit
    ensures judged { IfOk result (λ told. IfSome (S.to_come source.old)
        (λ text. BitJudges circuit.now text told.0)) }
    // accepted exactly where it says a witness of which this is judged
    ensures accepted { IfOk result (λ told. IfSome (S.to_come source.old)
        (λ text. BitAcceptsExactly circuit.now text told.0)) }
    // and what stands beside it, with names, are the first rises of the text
    ensures rises { named ≡ true
        → IfOk result (λ told. IfSome (S.to_come source.old)
        (λ text. AreBitFirstRises circuit.now text told.1)) }
    // what is judged of what is written over the model is the same verdict
    ensures kept { IfOk result (λ told. IfSome (S.to_come source.old)
        (λ text. KeepsVerdictIn model.now circuit.now text
        (lifted_with named model.now circuit.now text) told.0)) }
    // what is written is the lifted text, with names or without, and after a fault a beginning of it
    ensures written { OnOk result (IfSome (S.to_come source.old)
        (λ text. Appends (K.written sink.old) (K.written sink.new)
        (lifted_with named model.now circuit.now text))) }
    ensures beginning { OnErr result (IfSome (S.to_come source.old)
        (λ text. AppendsBeginning (K.written sink.old) (K.written sink.new)
        (lifted_with named model.now circuit.now text))) }
    ensures unread { IsErrOf result LiftFault.NoMemory → source.new ≡ source.old }
    ensures unwritten { IsErrOf result LiftFault.NoMemory → sink.new ≡ sink.old }
    ensures end { OnOk result (IsAtEnd (S.to_come source.new)) }
    // the source failed once where that is answered, the sink where that is, and else neither
    ensures counted { CountsLift result (S.failures source.old) (S.failures source.new)
        (K.failures sink.old) (K.failures sink.new) }
{
    lifting_keeps_the_verdict();
    names_keep_the_verdict();
    let mut lifting = match Lifter::new(alloc, model, circuit, named) {
        Ok(lifter) => Lifting {
            lifter,
            pen: Pen::new(),
        },
        Err(_) => return Err(LiftFault::NoMemory),
    };
    match lift_through(&mut lifting, source, sink) {
        Ok(()) => Ok(lifting.lifter.finish()),
        Err(fault) => Err(fault),
    }
}

/// Reads a witness of a circuit to its end, judges it over the circuit, and writes what it is lifted to: the witness of the
/// model that says the same. Of a malformed witness the pieces of the lines before the faulty one are written, and where no
/// claim is made nothing is. Of the text only what one call of the source gives is held at a time, and beside it what the
/// judge holds, the bits of one line, and what one call of the sink takes.
///
/// Condition: the circuit is a lowering of the model.
///
/// Errors: `NoMemory` where a growth was refused, and then nothing was read or written; `Read` where the source failed in
/// this call, and `Write` where the sink did, once. After both a beginning of the lifted text was written.
pub fn lift<S: Source, K: Sink>(
    alloc: Global,
    model: &Model,
    circuit: &Circuit,
    source: &mut S,
    sink: &mut K,
) -> Result<Judgement, LiftFault>
    requires { Lowers model.now circuit.now }
    // the judgement is that of the whole text over the circuit
    ensures judged { IfOk result (λ judgement. IfSome (S.to_come source.old)
        (λ text. BitJudges circuit.now text judgement)) }
    // accepted exactly where it says a witness of which this is judged
    ensures accepted { IfOk result (λ judgement. IfSome (S.to_come source.old)
        (λ text. BitAcceptsExactly circuit.now text judgement)) }
    // what is judged of the lifted text over the model is the same verdict
    ensures kept { IfOk result (λ judgement. IfSome (S.to_come source.old)
        (λ text. KeepsVerdict model.now circuit.now text judgement)) }
    // what is written is the lifted text, and after a fault a beginning of it
    ensures written { OnOk result (IfSome (S.to_come source.old)
        (λ text. Appends (K.written sink.old) (K.written sink.new)
        (lifted_text model.now circuit.now text))) }
    ensures beginning { OnErr result (IfSome (S.to_come source.old)
        (λ text. AppendsBeginning (K.written sink.old) (K.written sink.new)
        (lifted_text model.now circuit.now text))) }
    ensures unread { IsErrOf result LiftFault.NoMemory → source.new ≡ source.old }
    ensures unwritten { IsErrOf result LiftFault.NoMemory → sink.new ≡ sink.old }
    ensures end { OnOk result (IsAtEnd (S.to_come source.new)) }
    // the source failed once where that is answered, the sink where that is, and else neither
    ensures counted { CountsLift result (S.failures source.old) (S.failures source.new)
        (K.failures sink.old) (K.failures sink.new) }
{
    match lift_with_rises(alloc, model, circuit, false, source, sink) {
        Ok((judgement, _)) => Ok(judgement),
        Err(fault) => Err(fault),
    }
}
