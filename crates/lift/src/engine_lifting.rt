//! Lifting counterexamples over the engine forms of circuits.
ghost use Rattle.std.specs.Prelude.{◌≡◌, ◌<◌, None, Some, true, false, length, replicate, IfErr, OnOk};
ghost use Rattle.std.specs.Io.KnownBytes.{IsAtEnd};
ghost use Rattle.blast.specs.Lowering.{Lowers};
ghost use Rattle.restore.specs.Answers.{CountsRestore};
ghost use Rattle.restore.specs.Faults.{is_of_text};
ghost use Rattle.lift.specs.EngineLifting.{noted_first, LiftsRestored};

use crate::engine_laws::found_over_the_form_is_found_in_the_model;
use crate::laws::{lifting_keeps_the_verdict, names_keep_the_verdict};
use crate::pieces::Pieces;
use aiger::Circuit;
use base::{Sink, Source};
use btor2::Model;
use restore::{RestoreFault, restore_with};
use rises::FirstRises;
use std::alloc::Global;
use witness::Judgement;

/// First rises, with the first frame of one bad property where there is one.
pub(crate) fn with_first(firsts: FirstRises, first: Option<(usize, u64)>) -> FirstRises
    ensures { result ≡ noted_first firsts first }
{
    let mut firsts = firsts;
    if let Some((position, frame)) = first {
        firsts.set(position, frame);
    }
    firsts
}

/// Lifts what the text of a counterexample is restored to, and answers how that is judged over the circuit, and with names its
/// first rises.
fn lift_pieces<S: Source, K: Sink>(
    alloc: Global,
    circuit: &Circuit,
    claim: usize,
    pieces: &Pieces<'_>,
    firsts: FirstRises,
    source: &mut S,
    sink: &mut K,
) -> Result<(Judgement, FirstRises), RestoreFault>
    requires lowers { Lowers pieces.now.items circuit.now }
    requires claim { claim < length circuit.now.bads }
    requires none { pieces.now.named ≡ true
        → firsts ≡ replicate (length circuit.now.bads) None }
    ensures lifts { LiftsRestored result pieces.now.named pieces.now.items circuit.now claim
        (S.to_come source.old) (K.written sink.old) (K.written sink.new) }
    ensures apart { IfErr result (λ e. is_of_text e.why ≡ false → e.line ≡ 0) }
    ensures end { OnOk result (IsAtEnd (S.to_come source.new)) }
    ensures read_on { IfErr result (λ e. is_of_text e.why ≡ true → IsAtEnd (S.to_come source.new)) }
    ensures counted { CountsRestore result (S.failures source.old) (S.failures source.new)
        (K.failures sink.old) (K.failures sink.new) }
{
    found_over_the_form_is_found_in_the_model();
    lifting_keeps_the_verdict();
    names_keep_the_verdict();
    restore::laws::restored_text_is_accepted();
    restore::laws::restored_lines_are_admitted();
    witness::bit_laws::exactly_one_bit_judgement();
    match restore_with(alloc, circuit, claim, pieces, source, sink) {
        Ok(told) => Ok((told.judgement, with_first(firsts, told.first))),
        Err(fault) => Err(fault),
    }
}

/// Reads the text of a counterexample over the engine form of a circuit to its end, and writes what it is lifted to: the
/// witness of the model that says the same, up to and with the first frame in which the claimed property rises, or of all
/// frames where it does not; with names or without, as `lift_with_rises` writes it. The answer is the judgement over the circuit
/// of what the text is restored to, and with names the first frame in which the claimed bad property is 1. Of the text one line is held, and what one call of the source gives; beside it
/// one run of the circuit, two lines, and what one call of the sink takes.
///
/// Conditions: the circuit is a lowering of the model, and has the claimed property.
///
/// Errors: the text's first faulty line, once the source was read to its end and what the lines before it give was written,
/// without a last line. With line 0: `Device` where the source failed in this call, `Write` where the sink did, and
/// `NoMemory` where a growth was refused; a beginning of what the text is lifted to was written then.
pub fn lift_restored<S: Source, K: Sink>(
    alloc: Global,
    model: &Model,
    circuit: &Circuit,
    claim: usize,
    named: bool,
    source: &mut S,
    sink: &mut K,
) -> Result<(Judgement, FirstRises), RestoreFault>
    requires lowers { Lowers model.now circuit.now }
    requires claim { claim < length circuit.now.bads }
    ensures lifts { LiftsRestored result named model.now circuit.now claim (S.to_come source.old)
        (K.written sink.old) (K.written sink.new) }
    ensures apart { IfErr result (λ e. is_of_text e.why ≡ false → e.line ≡ 0) }
    ensures end { OnOk result (IsAtEnd (S.to_come source.new)) }
    ensures read_on { IfErr result (λ e. is_of_text e.why ≡ true → IsAtEnd (S.to_come source.new)) }
    // the source failed once where that is told, the sink where that is, and else neither
    ensures counted { CountsRestore result (S.failures source.old) (S.failures source.new)
        (K.failures sink.old) (K.failures sink.new) }
{
    let firsts = FirstRises::of_circuit(alloc, circuit, named)?;
    let pieces = Pieces::new(model, named);
    lift_pieces(alloc, circuit, claim, &pieces, firsts, source, sink)
}
