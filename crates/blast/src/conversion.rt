//! From a model's text to a circuit's text.
ghost use Rattle.std.specs.Prelude.{◌≡◌, ℕ, List, Option, IfErr};
ghost use Rattle.base.specs.Device.{HasRisen};
ghost use Rattle.btor2text.specs.declared.fault.Why.TheVariants as why;
ghost use Rattle.blast.specs.declared.fault.ConvertFault.TheVariants as fault;
ghost use Rattle.btor2text.specs.Spelling.{IsModelOf};
ghost use Rattle.blast.specs.Conversion.{AnswersConversion, IsBehindReading, ReadsToEnd, TellsFirstFault, HasNoLine, IsBeforeWriting, RaisesFailures};

use crate::fault::ConvertFault;
use crate::lowering::lower_watched;
use crate::watching::{Unwatched, Watch};
use aigertext::{Form, write};
use base::{Sink, Source};
use btor2::Model;
use btor2text::read;
use std::alloc::Global;

/// Reads the text of a model to its end, lowers the model and writes the text of the circuit.
///
/// Errors: `Read` where the text is no model or the source failed, `Lower` where the model is not
/// lowered (nothing was written after either); `Write` where the sink failed (a beginning was written).
pub fn convert<S: Source, K: Sink>(
    alloc: Global,
    source: &mut S,
    sink: &mut K,
    form: Form,
) -> Result<(), ConvertFault>
    ensures answer { AnswersConversion (S.to_come source.old) (K.written sink.old)
        (K.written sink.new) form result }
    ensures fault { IfErr result (TellsFirstFault (S.to_come source.old)) }
    ensures place { IfErr result HasNoLine }
    ensures end { ReadsToEnd result (S.to_come source.new) }
    ensures unwritten { IfErr result (λ e. IsBeforeWriting e → sink.new ≡ sink.old) }
    ensures device { RaisesFailures result (S.failures source.old) (S.failures source.new)
        (K.failures sink.old) (K.failures sink.new) }
{
    convert_watched(alloc, source, sink, form, &mut Unwatched)
}

/// The same, where it is told behind each line of the model that is lowered how many gates there are.
pub fn convert_watched<S: Source, K: Sink, W: Watch>(
    alloc: Global,
    source: &mut S,
    sink: &mut K,
    form: Form,
    watch: &mut W,
) -> Result<(), ConvertFault>
    ensures answer { AnswersConversion (S.to_come source.old) (K.written sink.old)
        (K.written sink.new) form result }
    ensures fault { IfErr result (TellsFirstFault (S.to_come source.old)) }
    ensures place { IfErr result HasNoLine }
    ensures end { ReadsToEnd result (S.to_come source.new) }
    ensures unwritten { IfErr result (λ e. IsBeforeWriting e → sink.new ≡ sink.old) }
    ensures device { RaisesFailures result (S.failures source.old) (S.failures source.new)
        (K.failures sink.old) (K.failures sink.new) }
{
    match read(alloc, source) {
        Ok(model) => convert_model(alloc, &model, sink, form, watch),
        Err(fault) => Err(ConvertFault::Read(fault)),
    }
}

/// Lowers a model and writes the text of the circuit: the part of a conversion behind the reading, whatever the text was.
fn convert_model<K: Sink, W: Watch>(
    alloc: Global,
    model: &Model,
    sink: &mut K,
    form: Form,
    watch: &mut W,
) -> Result<(), ConvertFault>
    ensures answer { (known : Option (List ℕ)) → IsModelOf known model.now
        → AnswersConversion known (K.written sink.old) (K.written sink.new) form result }
    ensures behind { IfErr result IsBehindReading }
    ensures unwritten { IfErr result (λ e. IsBeforeWriting e → sink.new ≡ sink.old) }
    ensures device { (failures : ℕ) → RaisesFailures result failures failures (K.failures sink.old)
        (K.failures sink.new) }
{
    // a model's items are well-formed
    let _ = model.items();
    match lower_watched(alloc, model, watch) {
        Ok(circuit) => match write(&circuit, form, sink) {
            Ok(()) => Ok(()),
            Err(fault) => Err(ConvertFault::Write(fault)),
        },
        Err(fault) => Err(ConvertFault::Lower(fault)),
    }
}
