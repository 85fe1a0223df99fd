//! Reading circuits.
ghost use Rattle.std.specs.Prelude.{◌≡◌, ◌⊎◌, ℕ, List, true, Option, Some, Ok, IfOk, IfErr, IfSome, OnOk};
ghost use Rattle.std.specs.Io.KnownBytes.{IsAtEnd};
ghost use Rattle.base.specs.Device.{HasRisen};
ghost use Rattle.aiger.specs.Circuit.{Circuit as CircuitValue};
ghost use Rattle.aigertext.specs.Reading.{line_at, header_of};
ghost use Rattle.aigertext.specs.Counts.{AreSmall, Fits};
ghost use Rattle.aigertext.specs.InOrder.{IsTakenFrom, IsReadFrom, IsReadOf};
ghost use Rattle.aigertext.specs.Numbering.{IsNumberingOfText, without_numbers};
ghost use Rattle.aigertext.specs.declared.forms.Form.TheVariants as form;
ghost use Rattle.aigertext.specs.AsciiReading.{AnswersText, IsAsciiFaultOf, GivesCircuit};
ghost use Rattle.aigertext.specs.Spelling.{SpellsCircuit};
ghost use Rattle.aigertext.specs.Passes.{ReadsBy, ReadsText};
ghost use Rattle.aigertext.specs.declared.fault.Why.TheVariants as why;

mod any_order;
mod ascii;
mod ascii_definitions;
mod binary_gates;
mod counts;
mod fields;
mod finishing;
mod front;
mod gates;
mod header;
mod latches;
mod lines;
mod names;
mod numbers;
mod pieces;
mod plain_numbers;
mod properties;
mod taking;

use crate::fault::{ReadFault, Stop, Why};
use crate::forms::Form;
use crate::laws::one_answer;
use crate::reading::ascii::read_file;
use crate::reading::counts::Counts;
use crate::reading::finishing::read_left;
use crate::reading::front::uses;
use crate::reading::lines::{fault, header_line, stop};
use crate::reading::taking::{Taken, take};
use aiger::Circuit;
use aiger::laws::circuit_with_a_name;
use aigerlists::Numbered;
use aigerlists::laws::one_renumbering;
use base::{ReadAllFault, Source};
use std::alloc::Global;

/// The circuit of a binary text whose lines behind the header are given.
fn read_lines(alloc: Global, counts: &Counts, text: &[u8], lines: &[u8]) -> Result<Circuit, Stop>
    requires header { line_at header_of text.now ≡ Ok ((form.Binary, counts.now), lines.now) }
    requires small { AreSmall counts.now }
    requires fits { Fits form.Binary counts.now }
    ensures { ReadsBy (λ e. e.why) (λ c. c) result (AnswersText text.now) }
{
    one_renumbering();
    let (front, gates) = uses(alloc, Form::Binary, counts, lines)?;
    let Ok(mut circuit) = Circuit::new(alloc, front.counts.inputs, front.counts.latches) else {
        return Err(stop(text, Why::NoMemory));
    };
    read_left(&mut circuit, front, gates)?;
    Ok(circuit)
}

/// The circuit that a text spells; its first word decides the form.
#[tactic(auto, unfolding(crate::specs::AsciiReading::AnswersText))]
fn read_known(alloc: Global, text: &[u8], wanted: bool) -> Result<Numbered, Stop>
    ensures answers { ReadsBy (λ e. e.why) (λ x. x.circuit) result (AnswersText text.now) }
    ensures numbering { wanted ≡ true
        → IfOk result (λ x. IsNumberingOfText text.now x.circuit x.numbering) }
{
    let ((form, counts), lines) = header_line(text)?;
    match form {
        Form::Binary => match read_lines(alloc, &counts, text, lines) {
            Ok(circuit) => Ok(Numbered::own(circuit)),
            Err(stop) => Err(stop),
        },
        Form::Ascii => read_file(alloc, &counts, lines, wanted),
    }
}

/// The circuit that a text spells, or its fault.
fn read_text(alloc: Global, text: &[u8], wanted: bool) -> Result<Numbered, ReadFault>
    ensures { ReadsText text.now wanted result }
{
    one_renumbering();
    circuit_with_a_name();
    match read_known(alloc, text, wanted) {
        Ok(numbered) => Ok(numbered),
        Err(stop) => Err(fault(text.len() as u64, stop)),
    }
}

/// The circuit of what was taken from a source, or its fault.
fn read_taken(alloc: Global, taken: Taken, wanted: bool) -> Result<Numbered, ReadFault>
    ensures { (known : Option (List ℕ)) → IsTakenFrom known wanted taken
        → IsReadOf known wanted result }
{
    match taken {
        Taken::Circuit(numbered) => Ok(numbered),
        Taken::Fault(fault) => Err(fault),
        Taken::Text(text) => read_text(alloc, text.as_slice(), wanted),
    }
}

/// The circuit that a source's bytes spell, with its numbers where they are wanted, or why there is none.
fn read_source<S: Source>(
    alloc: Global,
    source: &mut S,
    wanted: bool,
) -> Result<Numbered, ReadFault>
    ensures read { IsReadFrom (S.to_come source.old) wanted result }
    ensures end { OnOk result (IsAtEnd (S.to_come source.new)) }
    ensures counted { OnOk result (S.failures source.new ≡ S.failures source.old) }
    ensures device { IfErr result (λ e. e.why ≡ why.Device
        → HasRisen (S.failures source.old) (S.failures source.new)) }
    ensures unfailed { IfErr result (λ e. ¬ (e.why ≡ why.Device)
        → S.failures source.new ≡ S.failures source.old) }
{
    match take(alloc, source, wanted) {
        Ok(taken) => read_taken(alloc, taken, wanted),
        Err(ReadAllFault::Device) => Err(ReadFault {
            place: 0,
            why: Why::Device,
        }),
        Err(ReadAllFault::NoMemory) => Err(ReadFault {
            place: 0,
            why: Why::NoMemory,
        }),
    }
}

/// The circuit that a source's bytes spell; the first word decides the form ("AIGER 1.9 and Beyond", ascii and binary
/// format). The source is read to its end, also behind a fault; the gates of
/// a binary text, and of an ascii text in order, are not held as text.
///
/// Errors: `Device` where the source failed in this call and `NoMemory` where a growth was refused, with place 0;
/// else the first why of the first line or delta that has one, at its place.
pub fn read<S: Source>(alloc: Global, source: &mut S) -> Result<Circuit, ReadFault>
    // the text stands for what is read
    ensures found { IfOk result (λ c. IfSome (S.to_come source.old)
        (λ text. AnswersText text (Ok c))) }
    // and it spells that circuit by the sections of its form
    ensures spells { IfOk result (λ c. IfSome (S.to_come source.old)
        (λ text. SpellsCircuit text c)) }
    // every text that stands for a circuit is read as it, want of memory and device faults apart
    ensures only { (text : List ℕ) (c : CircuitValue) → S.to_come source.old ≡ Some text
        → AnswersText text (Ok c) → GivesCircuit result c }
    // and so is each that spells one
    ensures each { (text : List ℕ) (c : CircuitValue) → S.to_come source.old ≡ Some text
        → SpellsCircuit text c → GivesCircuit result c }
    // a fault that is neither is where reading stops
    ensures fault { IfErr result (λ e. IfSome (S.to_come source.old) (λ text. (e.why ≡ why.Device)
        ⊎ ((e.why ≡ why.NoMemory) ⊎ IsAsciiFaultOf text e))) }
    ensures end { OnOk result (IsAtEnd (S.to_come source.new)) }
    ensures counted { OnOk result (S.failures source.new ≡ S.failures source.old) }
    ensures device { IfErr result (λ e. e.why ≡ why.Device
        → HasRisen (S.failures source.old) (S.failures source.new)) }
    ensures unfailed { IfErr result (λ e. ¬ (e.why ≡ why.Device)
        → S.failures source.new ≡ S.failures source.old) }
    ensures place { IfErr result (λ e. (e.why ≡ why.Device) ⊎ (e.why ≡ why.NoMemory)
        → e.place ≡ 0) }
{
    one_answer();
    one_renumbering();
    match read_source(alloc, source, false) {
        Ok(numbered) => Ok(numbered.circuit),
        Err(fault) => Err(fault),
    }
}

/// The same circuit with the numbers that the variables of the text have there: what literal of the circuit a literal of
/// the text is. Of a binary text, and of an ascii text in a circuit's numbers, they are the same and take no memory; else
/// they take some words for each variable that is defined.
///
/// Errors: those of `read`.
pub fn read_numbered<S: Source>(alloc: Global, source: &mut S) -> Result<Numbered, ReadFault>
    ensures found { IfOk result (λ x. IfSome (S.to_come source.old)
        (λ text. AnswersText text (Ok x.circuit))) }
    ensures spells { IfOk result (λ x. IfSome (S.to_come source.old)
        (λ text. SpellsCircuit text x.circuit)) }
    // the numbers are those of the text
    ensures numbering { IfOk result (λ x. IfSome (S.to_come source.old)
        (λ text. IsNumberingOfText text x.circuit x.numbering)) }
    ensures only { (text : List ℕ) (c : CircuitValue) → S.to_come source.old ≡ Some text
        → AnswersText text (Ok c) → GivesCircuit (without_numbers result) c }
    ensures each { (text : List ℕ) (c : CircuitValue) → S.to_come source.old ≡ Some text
        → SpellsCircuit text c → GivesCircuit (without_numbers result) c }
    ensures fault { IfErr result (λ e. IfSome (S.to_come source.old) (λ text. (e.why ≡ why.Device)
        ⊎ ((e.why ≡ why.NoMemory) ⊎ IsAsciiFaultOf text e))) }
    ensures end { OnOk result (IsAtEnd (S.to_come source.new)) }
    ensures counted { OnOk result (S.failures source.new ≡ S.failures source.old) }
    ensures device { IfErr result (λ e. e.why ≡ why.Device
        → HasRisen (S.failures source.old) (S.failures source.new)) }
    ensures unfailed { IfErr result (λ e. ¬ (e.why ≡ why.Device)
        → S.failures source.new ≡ S.failures source.old) }
    ensures place { IfErr result (λ e. (e.why ≡ why.Device) ⊎ (e.why ≡ why.NoMemory)
        → e.place ≡ 0) }
{
    one_answer();
    one_renumbering();
    read_source(alloc, source, true)
}
