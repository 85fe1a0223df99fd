//! Lifting witnesses of the engine forms of circuits.
ghost use Rattle.std.specs.Prelude.{◌≡◌, None, length, replicate, true, false, IfErr, OnOk};
ghost use Rattle.std.specs.Io.KnownBytes.{IsAtEnd};
ghost use Rattle.blast.specs.Lowering.{Lowers};
ghost use Rattle.engine_form.specs.EngineForm.{IsEngineFormOf};
ghost use Rattle.restore.specs.Answers.{CountsRestore};
ghost use Rattle.restore.specs.Faults.{is_of_text};
ghost use Rattle.lift.specs.EngineLifting.{LiftsForm};

use crate::engine_laws::accepted_over_the_form_is_found_in_the_model;
use crate::engine_lifting::with_first;
use crate::laws::{lifting_keeps_the_verdict, names_keep_the_verdict};
use crate::pieces::Pieces;
use aiger::Circuit;
use base::{Sink, Source};
use btor2::Model;
use restore::{RestoreFault, restore_form_with};
use rises::FirstRises;
use std::alloc::Global;
use witness::Judgement;

/// Lifts what a witness of the engine form of a circuit is restored to, and answers how it is judged, and with names the first
/// rises of what it is restored to.
fn lift_witness<S: Source, K: Sink>(
    alloc: Global,
    circuit: &Circuit,
    form: &Circuit,
    choice: Option<usize>,
    pieces: &Pieces<'_>,
    firsts: FirstRises,
    source: &mut S,
    sink: &mut K,
) -> Result<(Judgement, FirstRises), RestoreFault>
    requires lowers { Lowers pieces.now.items circuit.now }
    requires is_form { IsEngineFormOf circuit.now choice form.now }
    requires none { pieces.now.named ≡ true
        → firsts ≡ replicate (length circuit.now.bads) None }
    ensures lifts { LiftsForm result pieces.now.named pieces.now.items circuit.now choice form.now
        (S.to_come source.old) (K.written sink.old) (K.written sink.new) }
    ensures apart { IfErr result (λ e. is_of_text e.why ≡ false × (e.line ≡ 0)) }
    ensures end { OnOk result (IsAtEnd (S.to_come source.new)) }
    ensures counted { CountsRestore result (S.failures source.old) (S.failures source.new)
        (K.failures sink.old) (K.failures sink.new) }
{
    accepted_over_the_form_is_found_in_the_model();
    lifting_keeps_the_verdict();
    names_keep_the_verdict();
    restore::form_laws::restored_lines_are_admitted();
    match restore_form_with(alloc, circuit, form, choice, pieces, source, sink) {
        Ok(told) => Ok((told.judgement, with_first(firsts, told.first))),
        Err(fault) => Err(fault),
    }
}

/// Reads a witness of the engine form of a circuit to its end, with all bad properties or the chosen one, and writes what it
/// is lifted to: the witness of the model that says the same, with the property that it claims, up to and with the first
/// frame in which this rises, or of all frames where it does not; with names or without, as `lift_with_rises` writes it. With
/// names the answer has the first frame in which the claimed bad property is 1, too. It is that it makes no claim, or its first faulty line, before which what the lines give was written; else the
/// judgement over the circuit of what it is restored to. Of the text one line is held, and what one call of the source gives;
/// beside it one run of the circuit, two lines, and what one call of the sink takes.
///
/// Conditions: the circuit is a lowering of the model, and the form is its engine form.
///
/// Errors, with line 0: `Device` where the source failed in this call, `Write` where the sink did, and `NoMemory` where a
/// growth was refused; a beginning of what the text is lifted to was written then.
pub fn lift_form<S: Source, K: Sink>(
    alloc: Global,
    model: &Model,
    circuit: &Circuit,
    form: &Circuit,
    choice: Option<usize>,
    named: bool,
    source: &mut S,
    sink: &mut K,
) -> Result<(Judgement, FirstRises), RestoreFault>
    requires lowers { Lowers model.now circuit.now }
    requires is_form { IsEngineFormOf circuit.now choice form.now }
    ensures lifts { LiftsForm result named model.now circuit.now choice form.now
        (S.to_come source.old) (K.written sink.old) (K.written sink.new) }
    ensures apart { IfErr result (λ e. is_of_text e.why ≡ false × (e.line ≡ 0)) }
    ensures end { OnOk result (IsAtEnd (S.to_come source.new)) }
    // the source failed once where that is told, the sink where that is, and else neither
    ensures counted { CountsRestore result (S.failures source.old) (S.failures source.new)
        (K.failures sink.old) (K.failures sink.new) }
{
    let firsts = FirstRises::of_circuit(alloc, circuit, named)?;
    let pieces = Pieces::new(model, named);
    lift_witness(alloc, circuit, form, choice, &pieces, firsts, source, sink)
}
