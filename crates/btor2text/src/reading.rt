//! Reading models.
ghost use Rattle.std.specs.Prelude.{◌≡◌, ◌⊎◌, ℕ, List, Some, IfOk, IfErr, IfSome, OnOk};
ghost use Rattle.std.specs.Io.KnownBytes.{IsAtEnd};
ghost use Rattle.base.specs.Device.{HasRisen};
ghost use Rattle.btor2.specs.declared.item.Item.{Item};
ghost use Rattle.btor2.specs.Check.{refusal};
ghost use Rattle.btor2text.specs.Tokens.{tokens};
ghost use Rattle.btor2text.specs.FirstFault.{IsFaultOf};
ghost use Rattle.btor2text.specs.Spelling.{StandsFor};
ghost use Rattle.btor2text.specs.Reading.{item_accepted, line_on, ReadsLine, ReadsAs};
ghost use Rattle.btor2text.specs.Stopping.{unread_text_fault, Stops, IsOfLine, Ends, ReadsLines};

use crate::fault::{ReadFault, Why};
use crate::items::item;
use crate::known_words::KnownWords;
use crate::tokens::from_token;
use base::{DeviceFault, LineReader, ReadAllFault, Source, skip_all};
use btor2::{Item, Model, PushFault};
use std::alloc::Global;

/// Adds an item to a model.
fn push(model: &mut Model, item: Item) -> Result<(), Why>
    ensures { ReadsLine result model.new (item_accepted model.old item (refusal model.old item)) }
{
    match model.push(item) {
        Ok(()) => Ok(()),
        Err(PushFault::NoMemory) => Err(Why::NoMemory),
        Err(PushFault::ConstantDoesNotFit) => Err(Why::ConstantDoesNotFit),
        Err(fault) => Err(Why::Refused(fault)),
    }
}

/// Reads a line onto a model.
#[inline(always)]
#[tactic(auto, unfolding(crate::specs::Reading::line_on))]
fn read_line(
    alloc: Global,
    words: &mut KnownWords,
    line: &[u8],
    model: &mut Model,
) -> Result<(), Why>
    ensures { ReadsLine result model.new (line_on model.old (tokens line.now)) }
{
    match from_token(line) {
        None => Ok(()),
        Some(line) => {
            let item = item(alloc, words, line)?;
            push(model, item)
        }
    }
}

/// What is wrong where a source could not be read to its end.
fn unread(cause: ReadAllFault) -> ReadFault
    ensures { result ≡ unread_text_fault cause }
{
    let why = match cause {
        ReadAllFault::Device => Why::Device,
        ReadAllFault::NoMemory => Why::NoMemory,
    };
    ReadFault { line: 0, why }
}

/// The fault of a line. The rest of the source is read first, since a failure of the device comes before it. It is made no
/// part of its callers, whose frames would have its buffer too.
#[cold]
#[inline(never)]
fn line_fault<S: Source>(source: &mut S, line: u64, why: Why) -> ReadFault
    ensures { Stops result (S.failures source.old) (S.failures source.new)
        (IsOfLine (S.to_come source.new) line why result) }
{
    if let Why::NoMemory = why {
        return unread(ReadAllFault::NoMemory);
    }
    match skip_all(source) {
        Ok(()) => ReadFault { line, why },
        Err(DeviceFault::Failed) => unread(ReadAllFault::Device),
    }
}

/// What follows the last whole line: nothing, or an unfinished line.
fn ended(line: u64, rest: &[u8]) -> Result<(), ReadFault>
    ensures { Ends result line rest.now }
{
    if rest.is_empty() {
        return Ok(());
    }
    Err(ReadFault {
        line: line.saturating_add(1),
        why: Why::Unfinished,
    })
}

/// Reads the lines of a source onto a model. What reads a line is a part of this loop, and the loop no part of its caller.
#[inline(never)]
fn read_lines<S: Source>(alloc: Global, source: &mut S, model: &mut Model) -> Result<(), ReadFault>
    ensures { ReadsLines result model.old model.new (S.to_come source.old) (S.to_come source.new)
        (S.failures source.old) (S.failures source.new) }
{
    let mut lines = LineReader::new(alloc);
    let mut words = KnownWords::new();
    let mut line: u64 = 0;
    loop {
        match lines.advance(source) {
            Ok(true) => {}
            Ok(false) => return ended(line, lines.rest()),
            Err(cause) => return Err(unread(cause)),
        }
        line = line.saturating_add(1);
        match read_line(alloc, &mut words, lines.line(), model) {
            Ok(()) => {}
            Err(why) => return Err(line_fault(source, line, why)),
        }
    }
}

/// The model that a source's bytes stand for. Of its text one line is held, and what a piece of the source gives behind it.
///
/// Errors: `Device` where the source failed in this call and `NoMemory` where a growth was refused, with line 0;
/// else the first of a line's whys, at the first line that has one.
pub fn read<S: Source>(alloc: Global, source: &mut S) -> Result<Model, ReadFault>
    // what is read stands for the text
    ensures found { IfOk result (λ model. IfSome (S.to_come source.old)
        (λ text. StandsFor text model)) }
    // every text that stands for a model is read as it, want of memory and device faults apart
    ensures only { (text : List ℕ) (items : List Item) → S.to_come source.old ≡ Some text
        → StandsFor text items → ReadsAs result items }
    // a fault that is neither is that of the first line that has one, by its first why
    ensures fault { IfErr result (λ e. IfSome (S.to_come source.old) (λ text. (e.why ≡ Why.Device)
        ⊎ ((e.why ≡ Why.NoMemory) ⊎ IsFaultOf text e))) }
    ensures end { OnOk result (IsAtEnd (S.to_come source.new)) }
    ensures counted { OnOk result (S.failures source.new ≡ S.failures source.old) }
    ensures device { IfErr result (λ e. e.why ≡ Why.Device
        → HasRisen (S.failures source.old) (S.failures source.new)) }
    ensures unfailed { IfErr result (λ e. ¬ (e.why ≡ Why.Device)
        → S.failures source.new ≡ S.failures source.old) }
    // a fault of a line is told after the source was read to its end
    ensures read_on { IfErr result (λ e. ¬ (e.why ≡ Why.Device) → ¬ (e.why ≡ Why.NoMemory)
        → IsAtEnd (S.to_come source.new)) }
    ensures place { IfErr result (λ e. (e.why ≡ Why.Device) ⊎ (e.why ≡ Why.NoMemory) → e.line ≡ 0) }
{
    let mut model = Model::new(alloc);
    match read_lines(alloc, source, &mut model) {
        Ok(()) => Ok(model),
        Err(fault) => Err(fault),
    }
}
