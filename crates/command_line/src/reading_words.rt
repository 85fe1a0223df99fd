//! The command line: the words that the program is given, and what they ask for.

ghost use Rattle.std.specs.Prelude.{◌≡◌, ◌⊎◌, IfErr, IfOk, map};
ghost use Rattle.invocation.specs.declared.tasks.Order.{Order};
ghost use Rattle.invocation.specs.declared.tasks.Request.{Request};
ghost use Rattle.invocation.specs.declared.tasks.Request.TheVariants as request;
ghost use Rattle.wordings.specs.Orders.{Says};

use crate::help_table::{about, help, value_name};
use crate::refused_words::{CIRCUIT, ENGINE, OUTPUT, TWO_READINGS, refusal_of};
use clap::error::ErrorKind;
use clap::{Arg, ArgAction, ArgMatches, Command, Error};
use explanations::{Sought, explain, refusal_table};
use invocation::{Order, Request, Stop, version};
use std::alloc::{AllocError, AllocGlobal, Global};
use std::convert::AsStr;
use std::env::Env;
use std::{env, io};
use wordings::{Kind, Verb, Word, order_said, request_said, verb_of, verbs, word_of, words_of};

/// The program's name, with which each usage line begins.
const PROGRAM: &str = "hwtool";

/// The end of each help.
const HELP_END: &str =
    "The file - is standard input. A file is read to its end, also behind its first fault.

hwtool explain tells what a refusal means and what to do about it, as in hwtool explain 20.

Limits: words of 1 to 64 bits and no arrays, but that fit, unfit and --fit take words of up to 1,048,576 bits and arrays;
ids up to 4,294,967,295; 1,048,576 items in a model; symbols of 1 to 255 bytes from 33 to 126; 2^30 variables of a
circuit, with names of 1 to 300 bytes; 2^62 lines of a witness.

Formats: docs/FORMATS.md describes them, after \"Btor2, BtorMC and Boolector 3.0\" and \"AIGER 1.9 and Beyond\".

Exit statuses:
  0  the command is done, the witness is accepted, the certificate holds, all vectors agree, or help or the version is
     shown
  1  the witness is not accepted, the certificate does not hold, or a vector differs
  2  the input is refused
  3  a device failed, or memory was wanting
  4  the words of the command line are refused";

/// What is told of words that are no text.
const NO_TEXT: &str = "words: not UTF-8\n";

/// The word that asks what refusals mean, and the name of the number or the name that may stand behind it.
const EXPLAIN: &str = "explain";

const REFUSAL: &str = "REFUSAL";

/// What is told of words that ask what a refusal means and name none.
const NO_REFUSAL: &str =
    "words: no number and no name of a refusal is given; hwtool explain tells all\n";

/// The letter of the option for the file that a result goes to.
const OUTPUT_LETTER: char = 'o';

/// What a word of a command is to the parser.
fn arg_of<'a>(alloc: Global, verb: Verb, word: &'a Word) -> Result<Arg<'a>, AllocError> {
    let arg = Arg::new(alloc, word.name).help(help(verb, word.name));
    match word.kind {
        Kind::File => Ok(arg.required(true).action(ArgAction::Set)),
        Kind::Flag | Kind::FlagWithoutNames | Kind::FlagOnModel => Ok(
            arg.long(word.name).action(ArgAction::SetTrue),
        ),
        Kind::FlagWithCircuit => flag_with(arg, word.name, CIRCUIT),
        Kind::FlagWithEngine => flag_with(arg, word.name, ENGINE),
        Kind::Text if word.name == OUTPUT => Ok(option(arg, word.name).short(OUTPUT_LETTER)),
        _ => Ok(option(arg, word.name)),
    }
}

/// A flag that goes with another.
fn flag_with<'a>(arg: Arg<'a>, name: &'a str, other: &'a str) -> Result<Arg<'a>, AllocError> {
    arg.long(name)
        .action(ArgAction::SetTrue)
        .requires_arg(other)
}

/// An option with a value.
fn option<'a>(arg: Arg<'a>, name: &'a str) -> Arg<'a> {
    arg.long(name)
        .value_name(value_name(name))
        .action(ArgAction::Set)
}

/// A command with its words.
fn command_of<'a>(alloc: Global, verb: Verb, words: &'a [Word]) -> Result<Command<'a>, AllocError> {
    let mut command = Command::new(alloc, word_of(verb))
        .about(about(verb))
        .after_help(HELP_END);
    for word in words {
        command = command.arg(arg_of(alloc, verb, word)?)?;
    }
    Ok(command)
}

/// The words that ask what refusals mean.
fn explain_command<'a>(alloc: Global) -> Result<Command<'a>, AllocError> {
    let refusal = Arg::new(alloc, REFUSAL)
        .num_args(0..)
        .action(ArgAction::Append)
        .help(
            "The number or the name of a refusal, or a whole line that tells one; without it all are told",
        );
    Command::new(alloc, EXPLAIN)
        .about("Tell what a refusal means and what to do about it")
        .arg(refusal)
}

/// The program without its commands.
fn program<'a>(alloc: Global) -> Result<Command<'a>, AllocError> {
    let named = Command::new(alloc, PROGRAM).bin_name(PROGRAM)?;
    Ok(
        named
            .version(version())
            .after_help(HELP_END)
            .about(
                "Word-level BTOR2 models to AIGER circuits, and their witnesses. Without any word: lower standard input.",
            )
            .subcommand_required(true),
    )
}

/// The program with one command more.
fn with_command<'a>(
    alloc: Global,
    commands: Command<'a>,
    verb: Verb,
    words: &'a [Word],
) -> Result<Command<'a>, AllocError> {
    commands.subcommand(command_of(alloc, verb, words)?)
}

/// The program with the command that a word names alone, which is all that is read or told of then, or with all commands.
fn program_for<'a>(alloc: Global, word: &str) -> Result<Command<'a>, AllocError> {
    match verb_of(word) {
        Some(verb) => {
            let alone = program(alloc)?.disable_help_subcommand(true);
            with_command(alloc, alone, verb, words_of(verb))
        }
        None => all_commands(alloc),
    }
}

/// The program with all commands.
fn all_commands<'a>(alloc: Global) -> Result<Command<'a>, AllocError> {
    let mut commands = program(alloc)?;
    for verb in verbs() {
        commands = with_command(alloc, commands, *verb, words_of(*verb))?;
    }
    commands.subcommand(explain_command(alloc)?)
}

/// What stands in place of a command where words are refused with a line of this program's own.
pub(crate) fn refused(alloc: Global, line: &str) -> Stop {
    match String::from_str(alloc, line) {
        Ok(text) => Stop::refused(text),
        Err(_) => Stop::no_memory(alloc),
    }
}

/// What stands in place of a command where words ask what refusals mean.
fn stop_of_explain(alloc: Global, words: &ArgMatches<'_>) -> Stop {
    let sought = match words.get_strs(REFUSAL) {
        Some(words) => Sought::by_words(words),
        None => Some(Sought::all()),
    };
    match sought {
        Some(sought) => explain(alloc, &refusal_table(), sought),
        None => refused(alloc, NO_REFUSAL),
    }
}

/// What stands in place of what words ask for, where the parser takes the words of a command that say nothing: the text of
/// `explain`, or the line that says why they are refused.
fn stop_of_command(alloc: Global, word: &str, words: &ArgMatches<'_>) -> Stop {
    if word == EXPLAIN {
        return stop_of_explain(alloc, words);
    }
    match verb_of(word) {
        Some(verb) => refused(alloc, refusal_of(verb, words)),
        None => refused(alloc, TWO_READINGS),
    }
}

/// The tip of the parser that a flag which is unknown goes behind `--`, where no command of this program takes it.
const MISLEADING_TIP: &str = "\n  tip: to pass ";

/// What stands in place of a command where the parser refuses words: what it says of them, without a tip that misleads.
fn refused_by_parser(alloc: Global, text: String) -> Stop {
    let without = match text.split_once(MISLEADING_TIP) {
        Some((before, tip)) => match tip.split_once('\n') {
            Some((_, behind)) => format!(in alloc; "{}\n{behind}", before.trim_end()),
            None => return Stop::refused(text),
        },
        None => return Stop::refused(text),
    };
    match without {
        Ok(text) => Stop::refused(text),
        Err(_) => Stop::no_memory(alloc),
    }
}

/// What stands in place of a command that the parser does not find.
fn stop_of(alloc: Global, error: &Error) -> Stop {
    if error.kind() == ErrorKind::OutOfMemory {
        return Stop::no_memory(alloc);
    }
    match format!(in alloc; "{error}") {
        Ok(text) if error.use_stderr() => refused_by_parser(alloc, text),
        Ok(text) => Stop::shown(text),
        Err(_) => Stop::no_memory(alloc),
    }
}

/// The words after the program's name.
///
/// Errors: a `Stop` with status 4 where a word is no text, that is, not UTF-8; with 3 where there was no memory to copy
/// them.
pub fn given_words<R: Env + AllocGlobal>(rt: &R) -> Result<Vec<String>, Stop> {
    let alloc = rt.alloc();
    match env::args(rt) {
        Ok(words) => words
            .skip(1)
            .collect(alloc)
            .map_err(|_| Stop::no_memory(alloc)),
        Err(error) if error.kind() == io::ErrorKind::InvalidData => Err(refused(alloc, NO_TEXT)),
        Err(_) => Err(Stop::no_memory(alloc)),
    }
}

/// What stands in place of what words ask for, where they say nothing.
fn stop_of_words<S: AsStr>(alloc: Global, words: &[S]) -> Stop {
    let Some(first) = words.first() else {
        return refused(alloc, TWO_READINGS);
    };
    let command = match program_for(alloc, first.as_str()) {
        Ok(command) => command.no_binary_name(true),
        Err(_) => return Stop::no_memory(alloc),
    };
    match command.try_get_matches_from(words) {
        Ok(matches) => match matches.subcommand() {
            Some((word, words)) => stop_of_command(alloc, word, words),
            None => Stop::no_memory(alloc),
        },
        Err(error) => stop_of(alloc, &error),
    }
}

/// What the words after the program's name ask for: one order, or the judgements of a list. Without any word it is `lower` on
/// standard input.
///
/// Errors: a `Stop` with status 0 and the text of help, of the version or of what refusals mean; with 4 where the words
/// are no command, also where they name standard input twice, which can be read once, choose both forms of a circuit, or a
/// bad property of no engine form;
/// with 3 where there was no memory.
pub fn request<'a, S: AsStr>(alloc: Global, words: &'a [S]) -> Result<Request<'a>, Stop>
    ensures says { IfOk result (Says (map S.text words.now)) }
    // words that say what is asked for are understood
    ensures understood { IfErr result (λ stop. (stop.status ≡ 3)
        ⊎ ((r : Request) → ¬ Says (map S.text words.now) r)) }
{
    match request_said(alloc, words) {
        Ok(Some(request)) => Ok(request),
        Ok(None) => Err(stop_of_words(alloc, words)),
        Err(_) => Err(Stop::no_memory(alloc)),
    }
}

/// The order that words give, as those of a line of a list.
///
/// Errors: those of `request`; a `Stop` with status 4 also where the words ask for the judgements of a list.
pub fn order<'a, S: AsStr>(alloc: Global, words: &'a [S]) -> Result<Order<'a>, Stop>
    ensures says { IfOk result (λ order. Says (map S.text words.now) (request.One order)) }
    // words that say an order are understood
    ensures understood { IfErr result (λ stop. (stop.status ≡ 3)
        ⊎ ((o : Order) → ¬ Says (map S.text words.now) (request.One o))) }
{
    match order_said(alloc, words) {
        Ok(Some(order)) => Ok(order),
        Ok(None) => Err(stop_of_words(alloc, words)),
        Err(_) => Err(Stop::no_memory(alloc)),
    }
}
