//! Restoring witnesses of engine forms.
ghost use Rattle.std.specs.Prelude.{◌≡◌, ◌<◌, ℕ, Bool, List, [], ◌∷◌, ◌++◌, Option, Some, Ok, true, false, length, unwrap_or, IfErr, IfOk, IfSome, OnErr, OnOk};
ghost use Rattle.std.specs.Str.{bytes_eq};
ghost use Rattle.std.specs.Io.KnownBytes.{Appends, Consumes, IsAtEnd, prepend_known};
ghost use Rattle.base.specs.declared.pen.Pen.{Pen as PenValue};
ghost use Rattle.base.specs.Device.{AppendsBeginning};
ghost use Rattle.base.specs.Lines.{IsLine};
ghost use Rattle.base.specs.Writing.{WritesText};
ghost use Rattle.aiger.specs.Circuit.{Circuit};
ghost use Rattle.engine_form.specs.EngineForm.{IsEngineFormOf, input_count};
ghost use Rattle.witness.specs.declared.judgement.Judgement.{Judgement};
ghost use Rattle.witness.specs.BitStands.{StandsForBitLines};
ghost use Rattle.restore.specs.Answers.{CountsRestore, RestoresForm};
ghost use Rattle.restore.specs.Faults.{is_of_text};
ghost use Rattle.restore.specs.FormSteps.{FormHolds, IsClaimed, ReadsForm};
ghost use Rattle.restore.specs.FormWitness.{property_of, form_restored_text, FormJudges, FindsWitnessAgain};
ghost use Rattle.restore.specs.Plays.{Play as PlayValue};
ghost use Rattle.restore.specs.Putting.{HasTaken};
ghost use Rattle.restore.specs.Reading.{line_bits};

use crate::fault::RestoreFault;
use crate::form_claim::{admits, read_claim};
use crate::form_laws::accepted_over_the_form_is_found_again;
use crate::marks::unread;
use crate::progress::write_bits;
use crate::restorer::Restorer;
use crate::restoring::written;
use crate::told::Restored;
use crate::writer::{AsItIs, Writer};
use aiger::Circuit;
use base::{LineReader, Pen, Sink, Source};
use engine_form::input_count;
use std::alloc::Global;
use witness::{BitLines, Judgement, Why};

/// Whether two lines are one.
fn same_line(one: &[u8], other: &[u8]) -> bool
    ensures { result ≡ bytes_eq one.now other.now }
{
    one == other
}

/// Takes the line of a frame, and puts what is put for that.
fn take_frame<W: Writer, K: Sink>(
    restorer: &mut Restorer<'_>,
    bits: &mut [bool],
    writer: &W,
    pen: &mut Pen,
    sink: &mut K,
    line: &[u8],
)
    requires { length bits.old ≡ input_count restorer.old.circuit }
    ensures takes { (start : K) (from : PenValue) (first : PlayValue) (given : List (List Bool))
        → length line.now ≡ length bits.old
        → HasTaken (W.put_for writer.now) K.written K.failures start sink.old from pen.old first
        given restorer.old
        → HasTaken (W.put_for writer.now) K.written K.failures start sink.new from pen.new first
        (given ++ line_bits line.now ∷ []) restorer.new }
    ensures circuit { restorer.new.circuit ≡ restorer.old.circuit }
    ensures as_many { length bits.new ≡ length bits.old }
    ensures writes { (text : List ℕ) × WritesText K.written K.failures sink.old sink.new pen.old
        pen.new text }
{
    if line.len() != bits.len() {
        return;
    }
    write_bits(line, bits);
    restorer.take_frame(writer, pen, sink, bits);
}

/// Takes a line behind that of the claim, and puts what is put for what it adds.
fn take_later_line<W: Writer, K: Sink>(
    restorer: &mut Restorer<'_>,
    bits: &mut [bool],
    judge: &mut BitLines<'_>,
    writer: &W,
    pen: &mut Pen,
    sink: &mut K,
    line: &[u8],
)
    requires is_line { IsLine line.now }
    requires width { length bits.old ≡ input_count restorer.old.circuit }
    ensures takes { (start : K) (from : PenValue) (d : Circuit) (first : PlayValue) (j : ℕ)
        (text : List ℕ) → d.inputs ≡ length bits.old
        → FormHolds (W.put_for writer.now) K.written K.failures start sink.old from pen.old d
        judge.old first restorer.old j text
        → FormHolds (W.put_for writer.now) K.written K.failures start sink.new from pen.new d
        judge.new first restorer.new j (text ++ (line.now ++ 10 ∷ [])) }
    ensures circuit { restorer.new.circuit ≡ restorer.old.circuit }
    ensures as_many { length bits.new ≡ length bits.old }
    ensures writes { (text : List ℕ) × WritesText K.written K.failures sink.old sink.new pen.old
        pen.new text }
{
    let number = judge.admitted_lines();
    if !admits(judge, line) {
        return;
    }
    if number == 2 {
        return;
    }
    if same_line(line, b".") {
        restorer.put_end(writer, pen, sink);
        return;
    }
    take_frame(restorer, bits, writer, pen, sink, line);
}

/// Takes all lines of a source behind that of the claim, and puts what is put for what they add.
///
/// Errors: the source's own, and the sink's.
fn take_lines<S: Source, W: Writer, K: Sink>(
    lines: &mut LineReader,
    restorer: &mut Restorer<'_>,
    bits: &mut [bool],
    judge: &mut BitLines<'_>,
    writer: &W,
    pen: &mut Pen,
    source: &mut S,
    sink: &mut K,
) -> Result<(), RestoreFault>
    requires width { length bits.old ≡ input_count restorer.old.circuit }
    requires well { pen.old.answer ≡ Ok tt }
    ensures takes { (start : K) (from : PenValue) (d : Circuit) (first : PlayValue) (j : ℕ)
        (whole : Option (List ℕ)) (front : List ℕ) → d.inputs ≡ length bits.old
        → Consumes whole (prepend_known lines.old.rest (S.to_come source.old)) front
        → FormHolds (W.put_for writer.now) K.written K.failures start sink.old from pen.old d
        judge.old first restorer.old j front
        → (longer : List ℕ)
        × (Consumes whole (prepend_known lines.new.rest (S.to_come source.new)) longer
        × FormHolds (W.put_for writer.now) K.written K.failures start sink.new from pen.new d
        judge.new first restorer.new j longer) }
    ensures rest { OnOk result (IsLine lines.new.rest) }
    ensures end { OnOk result (IsAtEnd (S.to_come source.new)) }
    ensures line { IfErr result (λ e. is_of_text e.why ≡ false × (e.line ≡ 0)) }
    ensures writes { (text : List ℕ) × WritesText K.written K.failures sink.old sink.new pen.old
        pen.new text }
    ensures counted { CountsRestore result (S.failures source.old) (S.failures source.new)
        (K.failures sink.old) (K.failures sink.new) }
{
    loop {
        match lines.advance(source) {
            Ok(true) => {
                take_later_line(restorer, bits, judge, writer, pen, sink, lines.line());
                written(pen.answer)?;
            }
            Ok(false) => return Ok(()),
            Err(cause) => return Err(unread(cause)),
        }
    }
}

/// The bad property of the circuit that a claim over its engine form is of: the chosen one, or the same one where the form
/// has all.
fn property_of(choice: Option<usize>, claim: usize) -> usize
    ensures { result ≡ property_of choice claim }
{
    match choice {
        Some(chosen) => chosen,
        None => claim,
    }
}

/// Takes the lines of a source behind that of the claim, and writes what is put for what they are restored to. The answer is
/// what is told of that.
fn take_frames<S: Source, W: Writer, K: Sink>(
    alloc: Global,
    circuit: &Circuit,
    claim: usize,
    lines: &mut LineReader,
    judge: &mut BitLines<'_>,
    writer: &W,
    source: &mut S,
    sink: &mut K,
) -> Result<Restored, RestoreFault>
    requires { claim < length circuit.now.bads }
    ensures reads { (choice : Option ℕ) (d : Circuit) (whole : Option (List ℕ)) (front : List ℕ)
        (j : ℕ) → IsEngineFormOf circuit.now choice d → property_of choice j ≡ claim
        → Consumes whole (prepend_known lines.old.rest (S.to_come source.old)) front
        → IsClaimed d judge.old front j → IfSome whole (ReadsForm result (W.put_for writer.now)
        circuit.now choice d judge.new lines.new.rest (K.written sink.old)
        (K.written sink.new)) }
    ensures rest { OnOk result (IsLine lines.new.rest) }
    ensures end { OnOk result (IsAtEnd (S.to_come source.new)) }
    ensures line { IfErr result (λ e. is_of_text e.why ≡ false × (e.line ≡ 0)) }
    ensures counted { CountsRestore result (S.failures source.old) (S.failures source.new)
        (K.failures sink.old) (K.failures sink.new) }
{
    let mut restorer = Restorer::new(alloc, circuit, claim)?;
    let mut bits = vec![in alloc; false; input_count(circuit) as usize]?;
    let mut pen = Pen::new();
    take_lines(
        lines,
        &mut restorer,
        bits.as_mut_slice(),
        judge,
        writer,
        &mut pen,
        source,
        sink,
    )?;
    written(pen.finish(sink))?;
    Ok(restorer.told())
}

/// Reads a witness of an engine form to its end, and writes what is put for what it is restored to. The answer is what is
/// told of that, and the judge has taken the whole lines.
fn take_all<S: Source, W: Writer, K: Sink>(
    alloc: Global,
    circuit: &Circuit,
    form: &Circuit,
    choice: Option<usize>,
    lines: &mut LineReader,
    judge: &mut BitLines<'_>,
    writer: &W,
    source: &mut S,
    sink: &mut K,
) -> Result<Restored, RestoreFault>
    requires is_form { IsEngineFormOf circuit.now choice form.now }
    requires begins { StandsForBitLines form.now judge.old [] }
    requires unread { lines.old.rest ≡ [] }
    ensures reads { IfSome (S.to_come source.old) (ReadsForm result (W.put_for writer.now)
        circuit.now choice form.now judge.new lines.new.rest (K.written sink.old)
        (K.written sink.new)) }
    ensures rest { OnOk result (IsLine lines.new.rest) }
    ensures end { OnOk result (IsAtEnd (S.to_come source.new)) }
    ensures line { IfErr result (λ e. is_of_text e.why ≡ false × (e.line ≡ 0)) }
    ensures counted { CountsRestore result (S.failures source.old) (S.failures source.new)
        (K.failures sink.old) (K.failures sink.new) }
{
    aiger::laws::exactly_one_trace();
    let claimed = match read_claim(lines, judge, source) {
        Ok(claimed) => claimed,
        Err(fault) => return Err(fault),
    };
    match claimed {
        Some(claim) => take_frames(
            alloc,
            circuit,
            property_of(choice, claim),
            lines,
            judge,
            writer,
            source,
            sink,
        ),
        // nothing is restored, which is judged so
        None => Ok(Restored {
            judgement: Judgement::Malformed {
                line: 1,
                why: Why::Truncated,
            },
            first: None,
        }),
    }
}

/// What is told of a witness: what its lines alone say, where they say anything, else the judgement of what it is restored to.
fn told_of(over: Option<Judgement>, restored: Restored) -> Restored
    ensures { result ≡ record restored { judgement = unwrap_or over restored.judgement } }
{
    match over {
        Some(judgement) => Restored {
            judgement,
            first: restored.first,
        },
        None => restored,
    }
}

/// Restores as `restore_form` does, and writes what a writer writes for each line in place of it. The answer has beside the
/// judgement the claimed property with the first frame in which it is 1.
///
/// Condition: it is the engine form.
///
/// Errors: those of `restore_form`.
pub fn restore_form_with<S: Source, W: Writer, K: Sink>(
    alloc: Global,
    circuit: &Circuit,
    form: &Circuit,
    choice: Option<usize>,
    writer: &W,
    source: &mut S,
    sink: &mut K,
) -> Result<Restored, RestoreFault>
    requires { IsEngineFormOf circuit.now choice form.now }
    ensures restores { IfSome (S.to_come source.old) (RestoresForm result (W.put_for writer.now)
        circuit.now choice form.now (K.written sink.old) (K.written sink.new)) }
    ensures apart { IfErr result (λ e. is_of_text e.why ≡ false × (e.line ≡ 0)) }
    ensures end { OnOk result (IsAtEnd (S.to_come source.new)) }
    // the source failed once where that is told, the sink where that is, and else neither
    ensures counted { CountsRestore result (S.failures source.old) (S.failures source.new)
        (K.failures sink.old) (K.failures sink.new) }
{
    aiger::laws::exactly_one_trace();
    witness::bit_laws::bit_texts_read();
    witness::bit_laws::exactly_one_bit_judgement();
    let mut judge = BitLines::new(form);
    let mut lines = LineReader::new(alloc);
    let restored = take_all(
        alloc, circuit, form, choice, &mut lines, &mut judge, writer, source, sink,
    )?;
    Ok(told_of(judge.finish(lines.rest()), restored))
}

/// Reads a witness of the engine form of a circuit to its end, with all bad properties or the chosen one, and writes what it
/// is restored to: the witness of the circuit with the property that it claims, up to and with the first frame in which this
/// rises, or of all frames where it does not. The answer is that it makes no claim, or its first faulty line, before which
/// what the lines give was written; else the judgement over the circuit of what is written. Of the text one line is held,
/// and what one call of the source gives; beside it a run of the circuit, two lines, and what one call of the sink takes.
///
/// Condition: it is the engine form.
///
/// Errors, with line 0: `Device` where the source failed in this call, `Write` where the sink did, and `NoMemory` where a
/// growth was refused; a beginning of what the text is restored to was written then.
pub fn restore_form<S: Source, K: Sink>(
    alloc: Global,
    circuit: &Circuit,
    form: &Circuit,
    choice: Option<usize>,
    source: &mut S,
    sink: &mut K,
) -> Result<Judgement, RestoreFault>
    requires { IsEngineFormOf circuit.now choice form.now }
    // the judgement is that of the text, and all that it is restored to was written
    ensures judged { IfOk result (λ judgement. IfSome (S.to_come source.old)
        (λ text. FormJudges circuit.now choice form.now text judgement)) }
    ensures written { OnOk result (IfSome (S.to_come source.old)
        (λ text. Appends (K.written sink.old) (K.written sink.new)
        (form_restored_text circuit.now choice form.now text))) }
    // what is accepted over the form is found again
    ensures found { OnOk result (IfSome (S.to_come source.old)
        (FindsWitnessAgain circuit.now choice form.now)) }
    // at a fault a beginning was written
    ensures beginning { OnErr result (IfSome (S.to_come source.old)
        (λ text. AppendsBeginning (K.written sink.old) (K.written sink.new)
        (form_restored_text circuit.now choice form.now text))) }
    ensures apart { IfErr result (λ e. is_of_text e.why ≡ false × (e.line ≡ 0)) }
    ensures end { OnOk result (IsAtEnd (S.to_come source.new)) }
    // the source failed once where that is told, the sink where that is, and else neither
    ensures counted { CountsRestore result (S.failures source.old) (S.failures source.new)
        (K.failures sink.old) (K.failures sink.new) }
{
    accepted_over_the_form_is_found_again();
    match restore_form_with(alloc, circuit, form, choice, &AsItIs, source, sink) {
        Ok(told) => Ok(told.judgement),
        Err(fault) => Err(fault),
    }
}
