//! What the words of a command line say.

ghost use Rattle.std.specs.Prelude.{◌≡◌, Some, None, if◌then◌else◌, codes, map, option_map, slice_get, MatchOption, IfOk};
ghost use Rattle.std.specs.Option.{option_eq};
ghost use Rattle.std.specs.Str.{bytes_eq};
ghost use Rattle.invocation.specs.declared.tasks.ListOrder.{ListOrder};
ghost use Rattle.invocation.specs.declared.tasks.Order.{Order};
ghost use Rattle.invocation.specs.declared.tasks.Request.{Request};
ghost use Rattle.invocation.specs.declared.tasks.Request.TheVariants as request;
ghost use Rattle.aigertext.specs.declared.forms.Form.TheVariants as form;
ghost use Rattle.wordings.specs.Orders.{SaysList, SaysOrder, Says, SaysOf, command, has, value};
ghost use Rattle.wordings.specs.Values.{said};

use crate::contents::{file_at, has, input_total, value};
use crate::parts::{Part, parts_of};
use crate::table::{Verb, verb_of};
use crate::taking::takes;
use crate::tasks::{asked, task_of};
use aigertext::Form;
use invocation::{ListOrder, Order, Request, STANDARD_INPUT, STANDARD_OUTPUT};
use std::alloc::{AllocError, Global};
use std::convert::AsStr;

/// The file that a result goes to, where it does not go to standard output.
fn output<'a>(parts: &[Part<'a>]) -> Option<&'a str>
    ensures { option_map (λ name. name.now) result
        ≡ (if option_eq bytes_eq (value (codes "output") (map said parts.now)) (Some (codes "-"))
        then None else value (codes "output") (map said parts.now)) }
{
    match value("output", parts) {
        Some(name) if name == STANDARD_OUTPUT => None,
        name => name,
    }
}

/// The form of a circuit that is written.
fn form(parts: &[Part<'_>]) -> Form
    ensures { result ≡ (if has (codes "binary") (map said parts.now) then form.Binary else form.Ascii) }
{
    if has("binary", parts) {
        Form::Binary
    } else {
        Form::Ascii
    }
}

/// The order that parts of a command say, if they say one.
fn order_of<'a>(verb: Verb, parts: &[Part<'a>]) -> Option<Order<'a>>
    ensures { MatchOption result ((o : Order) → ¬ SaysOrder verb (map said parts.now) o)
        (SaysOrder verb (map said parts.now)) }
{
    if !takes(verb, parts) || input_total(parts) > 1 {
        return None;
    }
    let task = task_of(verb, parts)?;
    let first = file_at(parts, 0)?;
    Some(Order {
        task,
        named: has("names", parts),
        as_json: has("json", parts),
        asked: asked(verb, parts),
        form: form(parts),
        first,
        second: file_at(parts, 1),
        third: file_at(parts, 2),
        output: output(parts),
        tells_progress: !has("quiet", parts),
    })
}

/// The list of judgements that parts of a command say, if they say one.
fn list_of<'a>(verb: Verb, parts: &[Part<'a>]) -> Option<ListOrder<'a>>
    ensures { MatchOption result ((l : ListOrder) → ¬ SaysList verb (map said parts.now) l)
        (SaysList verb (map said parts.now)) }
{
    if !takes(verb, parts) || verb != Verb::Judge {
        return None;
    }
    let list = file_at(parts, 0)?;
    Some(ListOrder {
        list,
        as_json: has("json", parts),
    })
}

/// What parts of a command ask for, if they ask for something.
fn request_of<'a>(verb: Verb, parts: &[Part<'a>]) -> Option<Request<'a>>
    ensures { MatchOption result ((r : Request) → ¬ SaysOf verb (map said parts.now) r)
        (SaysOf verb (map said parts.now)) }
{
    match order_of(verb, parts) {
        Some(order) => Some(Request::One(order)),
        None => match list_of(verb, parts) {
            Some(list) => Some(Request::Many(list)),
            None => None,
        },
    }
}

/// The command and the parts that words are: the first is a command's, and none is `lower -`.
///
/// Error: memory was wanting.
fn command_of<'a, S: AsStr>(
    alloc: Global,
    words: &'a [S],
) -> Result<Option<(Verb, Vec<Part<'a>>)>, AllocError>
    ensures { IfOk result (λ found. MatchOption found (command (map S.text words.now) ≡ None)
        (λ it. command (map S.text words.now) ≡ Some (it.0, map said it.1.items))) }
{
    let Some((word, behind)) = words.split_first() else {
        let mut parts = Vec::new(alloc);
        parts.push(Part::File(STANDARD_INPUT))?;
        return Ok(Some((Verb::Lower, parts)));
    };
    match verb_of(word.as_str()) {
        Some(verb) => Ok(Some((verb, parts_of(alloc, verb, behind)?))),
        None => Ok(None),
    }
}

/// The order that words say: the first is a command's, and without any it is `lower` on standard input. None where they say no
/// order, as where they ask for help, or for the judgements of a list.
///
/// Error: memory was wanting.
pub fn order_said<'a, S: AsStr>(
    alloc: Global,
    words: &'a [S],
) -> Result<Option<Order<'a>>, AllocError>
    ensures { IfOk result (λ found. MatchOption found ((o : Order) → ¬ Says (map S.text words.now) (request.One o))
        (λ order. Says (map S.text words.now) (request.One order))) }
{
    match command_of(alloc, words)? {
        Some((verb, parts)) => Ok(order_of(verb, parts.as_slice())),
        None => Ok(None),
    }
}

/// The list of judgements that words say, which are those of `judge`; none where they say no list.
///
/// Error: memory was wanting.
pub fn list_said<'a, S: AsStr>(
    alloc: Global,
    words: &'a [S],
) -> Result<Option<ListOrder<'a>>, AllocError>
    ensures { IfOk result (λ found. MatchOption found ((l : ListOrder) → ¬ Says (map S.text words.now) (request.Many l))
        (λ list. Says (map S.text words.now) (request.Many list))) }
{
    match command_of(alloc, words)? {
        Some((verb, parts)) => Ok(list_of(verb, parts.as_slice())),
        None => Ok(None),
    }
}

/// What words ask for: an order, or a list of judgements; none where they say neither.
///
/// Error: memory was wanting.
pub fn request_said<'a, S: AsStr>(
    alloc: Global,
    words: &'a [S],
) -> Result<Option<Request<'a>>, AllocError>
    ensures { IfOk result (λ found. MatchOption found ((r : Request) → ¬ Says (map S.text words.now) r)
        (Says (map S.text words.now))) }
{
    match command_of(alloc, words)? {
        Some((verb, parts)) => Ok(request_of(verb, parts.as_slice())),
        None => Ok(None),
    }
}
