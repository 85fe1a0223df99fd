//! Reading models with words of any width.
ghost use Rattle.std.specs.Prelude.{◌≡◌, ◌⊎◌, List, IfOk, IfErr, None, true, false};
ghost use Rattle.base.specs.Lines.{whole_lines, unfinished};
ghost use Rattle.btor2.specs.declared.item.Item.{Item};
ghost use Rattle.btor2text.specs.declared.forms.Form.TheVariants as form;
ghost use Rattle.btor2text.specs.declared.fault.Why.TheVariants as why;
ghost use Rattle.btor2text.specs.Tokens.{tokens};
ghost use Rattle.btor2text.specs.Reading.{line_fault, ReadsLine, ReadsAs};
ghost use Rattle.btor2text.specs.Stopping.{Ends};
ghost use Rattle.wide.specs.Entries.{digits_sort};
ghost use Rattle.wide.specs.Lines.{constant_item};
ghost use Rattle.widetext.specs.FirstFault.{IsWideFaultOf};
ghost use Rattle.widetext.specs.Spelling.{StandsForWide};
ghost use Rattle.widetext.specs.Reading.{named, wide_accepted, wide_line_on, wide_lines_on};
ghost use Rattle.widetext.specs.Constants.{are_spelled, digits_body};
ghost use Rattle.widetext.specs.Steps.{item_on, said_on, is_constant_form, IsFaultAt, ReadsText};

use crate::constants::{constant_number, digits_at, why_of};
use base::next_line;
use btor2::{Item, PushFault, Symbol};
use btor2text::{
    Constant, Form, KnownWords, ReadFault, Why, body_at, next_token, plain_at, sort_at, symbol_at,
};
use std::alloc::Global;
use wide::{Constant as Number, Spelling, WideModel};

/// Adds an item that is no constant in digits to a model.
fn push(model: &mut WideModel, item: Item) -> Result<(), Why>
    requires { digits_sort item.body ≡ None }
    ensures { ReadsLine result model.new (wide_accepted model.old item) }
{
    match model.push(item) {
        Ok(()) => Ok(()),
        Err(PushFault::NoMemory) => Err(Why::NoMemory),
        Err(fault) => Err(why_of(fault)),
    }
}

/// Adds a constant in digits to a model.
fn push_number(model: &mut WideModel, number: Number) -> Result<(), Why>
    ensures { ReadsLine result model.new (wide_accepted model.old (constant_item number)) }
{
    match model.push_constant(number) {
        Ok(()) => Ok(()),
        Err(PushFault::NoMemory) => Err(Why::NoMemory),
        Err(fault) => Err(why_of(fault)),
    }
}

/// Adds a constant of these digits to a model.
fn add_constant(
    alloc: Global,
    model: &mut WideModel,
    id: u64,
    symbol: Option<Symbol>,
    sort: u32,
    spelling: Spelling,
    digits: &[u8],
) -> Result<(), Why>
    requires { are_spelled spelling digits.now ≡ true }
    ensures { ReadsLine result model.new
        (wide_accepted model.old (named id symbol (digits_body spelling sort digits.now))) }
{
    let number = constant_number(alloc, model, id, sort, spelling, digits)?;
    let constant = Number {
        id,
        symbol,
        sort,
        spelling,
        count: digits.len(),
        number,
    };
    push_number(model, constant)
}

/// Reads what is behind the word of a constant in digits onto a model.
fn read_constant(
    alloc: Global,
    id: u64,
    constant: Constant,
    line: &[u8],
    model: &mut WideModel,
) -> Result<(), Why>
    ensures { ReadsLine result model.new
        (said_on model.old id (form.Constant constant) (tokens line.now)) }
{
    let (sort, rest) = sort_at(line)?;
    let (spelling, digits, rest) = digits_at(constant, rest)?;
    let symbol = symbol_at(alloc, rest)?;
    add_constant(alloc, model, id, symbol, sort, spelling, digits)
}

/// Reads what is behind the word of another form onto a model.
fn read_plain(
    alloc: Global,
    id: u64,
    form: Form,
    line: &[u8],
    model: &mut WideModel,
) -> Result<(), Why>
    requires { is_constant_form form ≡ false }
    ensures { ReadsLine result model.new (said_on model.old id form (tokens line.now)) }
{
    let (body, rest) = body_at(alloc, form, line)?;
    let symbol = symbol_at(alloc, rest)?;
    push(model, Item { id, symbol, body })
}

/// Reads a line with a token onto a model.
fn read_item(
    alloc: Global,
    words: &mut KnownWords,
    line: &[u8],
    model: &mut WideModel,
) -> Result<(), Why>
    ensures { ReadsLine result model.new (item_on model.old (tokens line.now)) }
{
    let (id, rest) = plain_at(line)?;
    let (form, rest) = words.form_at(rest)?;
    match form {
        Form::Constant(constant) => read_constant(alloc, id, constant, rest, model),
        _ => read_plain(alloc, id, form, rest, model),
    }
}

/// Reads a line onto a model.
#[tactic(auto, unfolding(crate::specs::Reading::wide_line_on))]
fn read_line(
    alloc: Global,
    words: &mut KnownWords,
    line: &[u8],
    model: &mut WideModel,
) -> Result<(), Why>
    ensures { ReadsLine result model.new (wide_line_on model.old (tokens line.now)) }
{
    match next_token(line) {
        None => Ok(()),
        Some(_) => read_item(alloc, words, line, model),
    }
}

/// The fault of a line; want of memory is told at no line.
fn fault_at(line: u64, why: Why) -> ReadFault
    ensures { IsFaultAt result line why }
{
    match why {
        Why::NoMemory => ReadFault { line: 0, why },
        why => ReadFault { line, why },
    }
}

/// What follows the last whole line: nothing, or an unfinished line.
fn ended(line: u64, rest: &[u8]) -> Result<(), ReadFault>
    ensures { Ends result line rest.now }
{
    if rest.is_empty() {
        return Ok(());
    }
    Err(ReadFault {
        line: line.saturating_add(1),
        why: Why::Unfinished,
    })
}

/// Reads the lines of a text onto a model.
fn read_lines(alloc: Global, text: &[u8], model: &mut WideModel) -> Result<(), ReadFault>
    ensures { ReadsText result model.new
        (wide_lines_on 0 model.old (whole_lines text.now) (unfinished text.now)) }
{
    let mut words = KnownWords::new();
    let mut rest = text;
    let mut line: u64 = 0;
    while let Some((front, behind)) = next_line(rest) {
        line = line.saturating_add(1);
        match read_line(alloc, &mut words, front, model) {
            Ok(()) => {}
            Err(why) => return Err(fault_at(line, why)),
        }
        rest = behind;
    }
    ended(line, rest)
}

/// The model with words of up to 1,048,576 bits that a text stands for.
///
/// What is behind the last byte 10 is no line, and `Unfinished`. The number of a constant is made only where it may fit
/// its sort.
///
/// Errors: `NoMemory` where a growth was refused, with line 0; else the first of a line's whys, at the first line that
/// has one. The whys are those of a text of the profile; a sort's width is up to 1,048,576, and a constant may have as
/// many digits as its sort takes.
pub fn read(alloc: Global, text: &[u8]) -> Result<WideModel, ReadFault>
    // what is read stands for the text
    ensures found { IfOk result (λ model. StandsForWide text.now model) }
    // every text that stands for a model is read as it, want of memory apart
    ensures only { (items : List Item) → StandsForWide text.now items → ReadsAs result items }
    // a fault other than want of memory is that of the first line that has one, by its first why
    ensures fault { IfErr result (λ e. (e ≡ line_fault 0 why.NoMemory) ⊎ IsWideFaultOf text.now e) }
{
    let mut model = WideModel::new(alloc);
    match read_lines(alloc, text, &mut model) {
        Ok(()) => Ok(model),
        Err(fault) => Err(fault),
    }
}
