//! Words that are given at a terminal.

ghost use Rattle.std.specs.Prelude.{◌≡◌, ◌&&◌, ◌⊎◌, Bool, IfErr, IfOk, true, false, length, map, option_map};
ghost use Rattle.invocation.specs.Files.{shows_binary};
ghost use Rattle.invocation.specs.declared.tasks.Request.{Request as RequestSaid};
ghost use Rattle.wordings.specs.Orders.{Says};
ghost use Rattle.command_line.specs.Requests.{IfOne, with_progress};

use crate::reading_words::{refused, request};
use aigertext::Form;
use invocation::{Order, Request, Stop};
use std::alloc::Global;
use std::convert::AsStr;

/// What is told of words that ask for a binary circuit on a terminal.
const TERMINAL: &str =
    "words: a binary circuit goes to no terminal: redirect standard output, or give -o FILE\n";

/// Which of the standard streams are terminals.
#[derive(Clone, Copy)]
pub struct Terminals {
    /// Standard input.
    pub input: bool,
    /// Standard output.
    pub output: bool,
    /// Standard error.
    pub error: bool,
}

/// The help of the program, in place of a command.
fn help(alloc: Global) -> Stop {
    match request(alloc, &["--help"]) {
        Ok(_) => Stop::no_memory(alloc),
        Err(stop) => stop,
    }
}

/// Whether a command would write the binary form of a circuit to standard output.
fn shows_binary(order: &Order<'_>) -> bool
    ensures { result ≡ shows_binary order.now.form
        (option_map (λ name. name.now) order.now.output) }
{
    order.form == Form::Binary && order.output.is_none()
}

/// An order for standard streams of which some are terminals.
fn order_at<'a>(alloc: Global, order: Order<'a>, terminals: Terminals) -> Result<Order<'a>, Stop>
    ensures same { IfOk result (λ found. found ≡ record order.entry {
      tells_progress = order.entry.tells_progress && terminals.error;
    }) }
    ensures binary { terminals.output ≡ true → IfOk result (λ found. shows_binary found.form
        (option_map (λ name. name.now) found.output) ≡ false) }
    ensures taken { terminals.output ≡ false → IfErr result (λ _. ⊥) }
{
    if terminals.output && shows_binary(&order) {
        return Err(refused(alloc, TERMINAL));
    }
    let mut found = order;
    found.tells_progress = found.tells_progress && terminals.error;
    Ok(found)
}

/// What the words after the program's name ask for, as `request` has it, for standard streams of which some are terminals.
/// Without any word, a model is not waited for at a terminal: help is told. Where standard error is no terminal it is not told
/// how far work is.
///
/// Errors: those of `request`; a `Stop` with status 4 also where the binary form of a circuit would go to a terminal.
pub fn request_at<'a, S: AsStr>(
    alloc: Global,
    words: &'a [S],
    terminals: Terminals,
) -> Result<Request<'a>, Stop>
    // the words say what is asked for, but for whether it is told how far work is
    ensures says { IfOk result (λ request. (told : Bool)
        × Says (map S.text words.now) (with_progress told request)) }
    ensures binary { terminals.output ≡ true → IfOk result (λ request. IfOne request
        (λ order. shows_binary order.form (option_map (λ name. name.now) order.output) ≡ false)) }
    ensures progress { terminals.error ≡ false
        → IfOk result (λ request. IfOne request (λ order. order.tells_progress ≡ false)) }
    // at a terminal it is told, unless the words leave it out
    ensures heard { terminals.error ≡ true → IfOk result (Says (map S.text words.now)) }
    ensures bare { terminals.input ≡ true → length words.now ≡ 0 → IfOk result (λ _. ⊥) }
    // where neither is a terminal, words that say what is asked for are understood
    ensures understood { terminals.input ≡ false → terminals.output ≡ false
        → IfErr result (λ stop. (stop.status ≡ 3)
        ⊎ ((r : RequestSaid) → ¬ Says (map S.text words.now) r)) }
{
    if terminals.input && words.is_empty() {
        return Err(help(alloc));
    }
    match request(alloc, words)? {
        Request::One(order) => Ok(Request::One(order_at(alloc, order, terminals)?)),
        Request::Many(list) => Ok(Request::Many(list)),
    }
}
