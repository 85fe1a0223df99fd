//! Reading models of the whole safety language.
ghost use Rattle.std.specs.Prelude.{◌≡◌, ◌⊎◌, List, IfOk, IfErr, None, true, false, []};
ghost use Rattle.base.specs.Lines.{whole_lines, unfinished};
ghost use Rattle.btor2text.specs.declared.forms.Form.TheVariants as form;
ghost use Rattle.btor2text.specs.declared.fault.Why.TheVariants as why;
ghost use Rattle.btor2text.specs.Tokens.{tokens};
ghost use Rattle.btor2text.specs.Reading.{line_fault};
ghost use Rattle.btor2text.specs.Stopping.{Ends};
ghost use Rattle.widetext.specs.Constants.{are_spelled, digits_body};
ghost use Rattle.full.specs.Lines.{FullLine};
ghost use Rattle.full.specs.Lines.{form as form_says};
ghost use Rattle.fullmodel.specs.Lines.{line_of, HasNoDigits};
ghost use Rattle.fulltext.specs.declared.kinds.Kind.TheVariants as kind;
ghost use Rattle.fulltext.specs.FirstFault.{IsFullFaultOf};
ghost use Rattle.fulltext.specs.Spelling.{StandsForFull};
ghost use Rattle.fulltext.specs.Reading.{numbered, full_accepted, full_line_on, full_lines_on};
ghost use Rattle.fulltext.specs.Steps.{line_on, plain_on, said_on, is_constant_kind, IsFaultAt, ReadsFullLine, ReadsText, ReadsAsLines};

use crate::constants::{constant_number, why_of};
use crate::kinds::{Kind, kind_at, operand_count, places_before};
use crate::says::says_at;
use crate::signs::{has_no_sign, kept_signs, put_unsigned};
use base::next_line;
use btor2::{PushFault, Symbol};
use btor2text::{
    Constant, Form, KnownWords, ReadFault, Why, next_token, plain_at, sort_at, symbol_at,
};
use fullmodel::{FullModel, Line, LineFault, Says};
use std::alloc::Global;
use wide::Spelling;
use widetext::digits_at;

/// Adds a line to a model.
fn push(model: &mut FullModel, line: Line) -> Result<(), Why>
    requires { HasNoDigits line.says }
    ensures { ReadsFullLine result model.new (full_accepted model.old (line_of line)) }
{
    match model.push(line) {
        Ok(()) => Ok(()),
        Err(LineFault::Push(PushFault::NoMemory)) => Err(Why::NoMemory),
        Err(fault) => Err(why_of(fault)),
    }
}

/// Adds a constant of these digits to a model.
fn add_constant(
    alloc: Global,
    model: &mut FullModel,
    id: u64,
    symbol: Option<Symbol>,
    sort: u32,
    spelling: Spelling,
    digits: &[u8],
) -> Result<(), Why>
    requires { are_spelled spelling digits.now ≡ true }
    ensures { ReadsFullLine result model.new
        (full_accepted model.old (numbered id symbol (form_says (digits_body spelling sort digits.now) []))) }
{
    let number = constant_number(alloc, model, id, sort, spelling, digits)?;
    let says = Says::Constant {
        sort,
        spelling,
        count: digits.len(),
        number,
    };
    push(model, Line { id, symbol, says })
}

/// Reads what is behind the word of a constant in digits onto a model.
fn read_constant(
    alloc: Global,
    id: u64,
    constant: Constant,
    line: &[u8],
    model: &mut FullModel,
) -> Result<(), Why>
    ensures { ReadsFullLine result model.new
        (said_on model.old id (kind.Form (form.Constant constant)) (tokens line.now)) }
{
    let (sort, rest) = sort_at(line)?;
    let (spelling, digits, rest) = digits_at(constant, rest)?;
    let symbol = symbol_at(alloc, rest)?;
    add_constant(alloc, model, id, symbol, sort, spelling, digits)
}

/// Reads what is behind the word of another line onto a model, of operands with these minuses.
fn read_plain(
    alloc: Global,
    id: u64,
    kind: Kind,
    line: &[u8],
    minuses: Vec<bool>,
    model: &mut FullModel,
) -> Result<(), Why>
    requires { is_constant_kind kind ≡ false }
    ensures { ReadsFullLine result model.new
        (plain_on model.old id kind (tokens line.now) minuses.items) }
{
    let (says, rest) = says_at(alloc, kind, line, minuses)?;
    let symbol = symbol_at(alloc, rest)?;
    push(model, Line { id, symbol, says })
}

/// Reads what is behind the word of another line with a minus onto a model.
fn read_signed(
    alloc: Global,
    id: u64,
    kind: Kind,
    line: &[u8],
    model: &mut FullModel,
) -> Result<(), Why>
    requires { is_constant_kind kind ≡ false }
    ensures { ReadsFullLine result model.new (said_on model.old id kind (tokens line.now)) }
{
    let mut bytes = Vec::new(alloc);
    let mut minuses = Vec::new(alloc);
    let count = operand_count(kind, line);
    put_unsigned(&mut bytes, &mut minuses, places_before(kind), count, line)?;
    let kept = kept_signs(alloc, minuses);
    read_plain(alloc, id, kind, bytes.as_slice(), kept, model)
}

/// Reads what is behind the word of another line onto a model.
fn read_said(
    alloc: Global,
    id: u64,
    kind: Kind,
    line: &[u8],
    model: &mut FullModel,
) -> Result<(), Why>
    requires { is_constant_kind kind ≡ false }
    ensures { ReadsFullLine result model.new (said_on model.old id kind (tokens line.now)) }
{
    if has_no_sign(line) {
        read_plain(alloc, id, kind, line, Vec::new(alloc), model)
    } else {
        read_signed(alloc, id, kind, line, model)
    }
}

/// Reads what is behind the word of a form onto a model.
fn read_form(
    alloc: Global,
    id: u64,
    form: Form,
    line: &[u8],
    model: &mut FullModel,
) -> Result<(), Why>
    ensures { ReadsFullLine result model.new (said_on model.old id (kind.Form form) (tokens line.now)) }
{
    match form {
        Form::Constant(constant) => read_constant(alloc, id, constant, line, model),
        _ => read_said(alloc, id, Kind::Form(form), line, model),
    }
}

/// Reads a line with a token onto a model.
fn read_tokens(
    alloc: Global,
    words: &mut KnownWords,
    line: &[u8],
    model: &mut FullModel,
) -> Result<(), Why>
    ensures { ReadsFullLine result model.new (line_on model.old (tokens line.now)) }
{
    let (id, rest) = plain_at(line)?;
    let (kind, rest) = kind_at(words, rest)?;
    match kind {
        Kind::Form(form) => read_form(alloc, id, form, rest, model),
        _ => read_said(alloc, id, kind, rest, model),
    }
}

/// Reads a line onto a model.
#[tactic(auto, unfolding(crate::specs::Reading::full_line_on))]
fn read_line(
    alloc: Global,
    words: &mut KnownWords,
    line: &[u8],
    model: &mut FullModel,
) -> Result<(), Why>
    ensures { ReadsFullLine result model.new (full_line_on model.old (tokens line.now)) }
{
    match next_token(line) {
        None => Ok(()),
        Some(_) => read_tokens(alloc, words, line, model),
    }
}

/// The fault of a line; want of memory is told at no line.
fn fault_at(line: u64, why: Why) -> ReadFault
    ensures { IsFaultAt result line why }
{
    match why {
        Why::NoMemory => ReadFault { line: 0, why },
        why => ReadFault { line, why },
    }
}

/// What follows the last whole line: nothing, or an unfinished line.
fn ended(line: u64, rest: &[u8]) -> Result<(), ReadFault>
    ensures { Ends result line rest.now }
{
    if rest.is_empty() {
        return Ok(());
    }
    Err(ReadFault {
        line: line.saturating_add(1),
        why: Why::Unfinished,
    })
}

/// Reads the lines of a text onto a model.
fn read_lines(alloc: Global, text: &[u8], model: &mut FullModel) -> Result<(), ReadFault>
    ensures { ReadsText result model.new
        (full_lines_on 0 model.old (whole_lines text.now) (unfinished text.now)) }
{
    let mut words = KnownWords::new();
    let mut rest = text;
    let mut line: u64 = 0;
    while let Some((front, behind)) = next_line(rest) {
        line = line.saturating_add(1);
        match read_line(alloc, &mut words, front, model) {
            Ok(()) => {}
            Err(why) => return Err(fault_at(line, why)),
        }
        rest = behind;
    }
    ended(line, rest)
}

/// The model of the whole safety language that a text stands for.
///
/// What is behind the last byte 10 is no line, and `Unfinished`. The number of a constant is made only where it may fit
/// its sort. An operand is the decimal of an id, or `-` and one.
///
/// Errors: `NoMemory` where a growth was refused, with line 0; else the first of a line's whys, at the first line that
/// has one. The whys are those of a text of wide words, without `ArrayOperator`; `ArraySort` is told of an array that
/// would have more than 1,048,576 bits, or of arrays of arrays, and `NegativeOperand` of the state of an init or a next,
/// or of an array, that stands with a minus.
pub fn read(alloc: Global, text: &[u8]) -> Result<FullModel, ReadFault>
    // what is read stands for the text
    ensures found { IfOk result (λ model. StandsForFull text.now model) }
    // every text that stands for lines is read as them, want of memory apart
    ensures only { (items : List FullLine) → StandsForFull text.now items → ReadsAsLines result items }
    // a fault other than want of memory is that of the first line that has one, by its first why
    ensures fault { IfErr result (λ e. (e ≡ line_fault 0 why.NoMemory) ⊎ IsFullFaultOf text.now e) }
{
    let mut model = FullModel::new(alloc);
    match read_lines(alloc, text, &mut model) {
        Ok(()) => Ok(model),
        Err(fault) => Err(fault),
    }
}
