//! What lines say, of operands whose minuses are known.
ghost use Rattle.std.specs.Prelude.{◌≡◌, false, IfOk};
ghost use Rattle.btor2text.specs.Tokens.{tokens};
ghost use Rattle.btor2text.specs.Reading.{IsAsLineRead, GivesUnlessFull};
ghost use Rattle.fullmodel.specs.Lines.{says_of, HasNoDigits};
ghost use Rattle.fulltext.specs.Reading.{first_sign, second_sign, form_at, array_at, sort_said_at, read_at, write_at, says_at};
ghost use Rattle.fulltext.specs.Steps.{is_constant_kind, read_by, write_by, read_before, write_before};

use crate::kinds::{Kind, is_word};
use btor2::Body;
use btor2text::{Form, Why, body_at, next_token, sort_at};
use fullmodel::{Operand, Says};
use std::alloc::Global;

/// The first of some minuses.
fn first_sign(minuses: &[bool]) -> bool
    ensures { result ≡ first_sign minuses.now }
{
    match minuses {
        [] => false,
        [minus, ..] => *minus,
    }
}

/// The second of some minuses.
fn second_sign(minuses: &[bool]) -> bool
    ensures { result ≡ second_sign minuses.now }
{
    match minuses {
        [] => false,
        [_, rest @ ..] => first_sign(rest),
    }
}

/// A form, of operands with these minuses, and the line behind it.
#[tactic(auto, unfolding(crate::specs::Reading::form_at))]
fn form_at(alloc: Global, form: Form, line: &[u8], minuses: Vec<bool>) -> Result<(Says, &[u8]), Why>
    requires { is_constant_kind (Kind.Form form) ≡ false }
    ensures read { GivesUnlessFull (λ x. (says_of x.0, tokens x.1.now)) result (form_at form (tokens line.now) minuses.items) }
    ensures digits { IfOk result (λ x. HasNoDigits x.0) }
{
    match body_at(alloc, form, line) {
        Ok((body, rest)) => Ok((Says::Form { body, minuses }, rest)),
        Err(why) => Err(why),
    }
}

/// The sorts of index and element behind `array`, and the line behind them.
#[tactic(auto, unfolding(crate::specs::Reading::array_at))]
fn array_at(line: &[u8]) -> Result<(Says, &[u8]), Why>
    ensures read { GivesUnlessFull (λ x. (says_of x.0, tokens x.1.now)) result (array_at (tokens line.now)) }
    ensures digits { IfOk result (λ x. HasNoDigits x.0) }
{
    let (index, rest) = sort_at(line)?;
    let (element, rest) = sort_at(rest)?;
    Ok((Says::ArraySort { index, element }, rest))
}

/// A sort, and the line behind it.
#[tactic(auto, unfolding(crate::specs::Reading::sort_said_at))]
fn sort_said_at(alloc: Global, line: &[u8]) -> Result<(Says, &[u8]), Why>
    ensures read { GivesUnlessFull (λ x. (says_of x.0, tokens x.1.now)) result (sort_said_at (tokens line.now)) }
    ensures digits { IfOk result (λ x. HasNoDigits x.0) }
{
    match next_token(line) {
        None => Err(Why::BadToken),
        Some((token, rest)) => {
            if is_word(token, b"array") {
                array_at(rest)
            } else {
                form_at(alloc, Form::Sort, line, Vec::new(alloc))
            }
        }
    }
}

/// A read of what a concatenation of the same places says.
fn read_by(body: &Body, minuses: &[bool]) -> Result<Says, Why>
    ensures read { IsAsLineRead says_of result (read_by body.now minuses.now) }
    ensures digits { IfOk result HasNoDigits }
{
    match body {
        Body::Concat { sort, high, low } => Ok(Says::Read {
            sort: *sort,
            array: *high,
            index: Operand {
                id: *low,
                minus: first_sign(minuses),
            },
        }),
        _ => Err(Why::BadToken),
    }
}

/// A write of what a choice of the same places says.
fn write_by(body: &Body, minuses: &[bool]) -> Result<Says, Why>
    ensures read { IsAsLineRead says_of result (write_by body.now minuses.now) }
    ensures digits { IfOk result HasNoDigits }
{
    match body {
        Body::Ite {
            sort,
            condition,
            first,
            second,
        } => Ok(Says::Write {
            sort: *sort,
            array: *condition,
            index: Operand {
                id: *first,
                minus: first_sign(minuses),
            },
            word: Operand {
                id: *second,
                minus: second_sign(minuses),
            },
        }),
        _ => Err(Why::BadToken),
    }
}

/// A read of what a concatenation of the same places says, and the line behind it.
fn read_before<'a>(body: &Body, minuses: &[bool], rest: &'a [u8]) -> Result<(Says, &'a [u8]), Why>
    ensures read { IsAsLineRead (λ x. (says_of x.0, tokens x.1.now)) result
        (read_before body.now minuses.now (tokens rest.now)) }
    ensures digits { IfOk result (λ x. HasNoDigits x.0) }
{
    match read_by(body, minuses) {
        Ok(says) => Ok((says, rest)),
        Err(why) => Err(why),
    }
}

/// A read, and the line behind it. Its places are those of a concatenation.
fn read_at<'a>(alloc: Global, line: &'a [u8], minuses: &[bool]) -> Result<(Says, &'a [u8]), Why>
    ensures read { GivesUnlessFull (λ x. (says_of x.0, tokens x.1.now)) result (read_at (tokens line.now) minuses.now) }
    ensures digits { IfOk result (λ x. HasNoDigits x.0) }
{
    match body_at(alloc, Form::Concat, line) {
        Ok((body, rest)) => read_before(&body, minuses, rest),
        Err(why) => Err(why),
    }
}

/// A write of what a choice of the same places says, and the line behind it.
fn write_before<'a>(body: &Body, minuses: &[bool], rest: &'a [u8]) -> Result<(Says, &'a [u8]), Why>
    ensures read { IsAsLineRead (λ x. (says_of x.0, tokens x.1.now)) result
        (write_before body.now minuses.now (tokens rest.now)) }
    ensures digits { IfOk result (λ x. HasNoDigits x.0) }
{
    match write_by(body, minuses) {
        Ok(says) => Ok((says, rest)),
        Err(why) => Err(why),
    }
}

/// A write, and the line behind it. Its places are those of a choice.
fn write_at<'a>(alloc: Global, line: &'a [u8], minuses: &[bool]) -> Result<(Says, &'a [u8]), Why>
    ensures read { GivesUnlessFull (λ x. (says_of x.0, tokens x.1.now)) result (write_at (tokens line.now) minuses.now) }
    ensures digits { IfOk result (λ x. HasNoDigits x.0) }
{
    match body_at(alloc, Form::Ite, line) {
        Ok((body, rest)) => write_before(&body, minuses, rest),
        Err(why) => Err(why),
    }
}

/// What a line says behind its word, of operands with these minuses, and the line behind it.
pub(crate) fn says_at(
    alloc: Global,
    kind: Kind,
    line: &[u8],
    minuses: Vec<bool>,
) -> Result<(Says, &[u8]), Why>
    requires { is_constant_kind kind ≡ false }
    ensures read { GivesUnlessFull (λ x. (says_of x.0, tokens x.1.now)) result (says_at kind (tokens line.now) minuses.items) }
    ensures digits { IfOk result (λ x. HasNoDigits x.0) }
{
    match kind {
        Kind::Form(Form::Sort) => sort_said_at(alloc, line),
        Kind::Form(form) => form_at(alloc, form, line, minuses),
        Kind::Read => read_at(alloc, line, minuses.as_slice()),
        Kind::Write => write_at(alloc, line, minuses.as_slice()),
    }
}
