//! The lines that refuse words which the parser takes.

use base::decimal;
use clap::ArgMatches;
use invocation::STANDARD_INPUT;
use wordings::{Kind, Verb, Word, words_of};

/// The option for the file that a result goes to.
pub(crate) const OUTPUT: &str = "output";

/// The flag for the engine form of a circuit.
pub(crate) const ENGINE: &str = "engine";

/// The flag for a witness circuit in place of an invariant.
pub(crate) const CIRCUIT: &str = "circuit";

/// What is told of words that ask for a list where a command is wanted.
const LIST_WITHIN: &str = "words: a list has no list within it\n";

/// What is told of words that choose both forms of a circuit.
const TWO_FORMS: &str = "words: choose one form\n";

/// What is told of words that ask for names in a witness that has none.
const BACK_NAMES: &str = "words: --back goes without --names\n";

/// What is told of words that fit a circuit.
const FIT_CIRCUIT: &str = "words: --fit goes with a model, and so without --aiger\n";

/// What is told of words that choose a bad property and no engine form.
const BAD_ALONE: &str = "words: --bad goes with --engine\n";

/// What is told of words whose chosen bad property is no position.
const NO_POSITION: &str = "words: --bad takes the position of a bad property, from 0\n";

/// What is told of words that pick no witness.
const NO_NUMBER: &str = "words: --pick takes the number of a witness in its file, from 1\n";

/// What is told of words that name standard input twice.
const INPUT_TWICE: &str = "words: standard input is read once, so - stands for one file\n";

/// What is told of words that the parser takes and in which no fault is found, of which there are none.
pub(crate) const TWO_READINGS: &str = "words: read in two ways, which is a fault of this program\n";

/// The line that refuses the value of an option, where it is refused.
fn refusal_of_value(word: Word, words: &ArgMatches<'_>) -> Option<&'static str> {
    let number = decimal(words.get_str(word.name)?.as_bytes());
    match word.kind {
        Kind::PositionWithEngine if !words.get_flag(ENGINE) => Some(BAD_ALONE),
        Kind::Position | Kind::PositionWithEngine if number.is_none() => Some(NO_POSITION),
        Kind::Number if number.unwrap_or(0) == 0 => Some(NO_NUMBER),
        _ => None,
    }
}

/// The line that refuses a flag that does not go with another, where that is given.
fn refusal_of_flag(word: Word, words: &ArgMatches<'_>) -> Option<&'static str> {
    let with = |other| words.get_flag(word.name) && words.get_flag(other);
    match word.kind {
        Kind::FlagOnModel if with("aiger") => Some(FIT_CIRCUIT),
        Kind::FlagWithoutNames if with("names") => Some(BACK_NAMES),
        _ => None,
    }
}

/// How many files of a command are standard input.
fn standard_inputs(verb: Verb, words: &ArgMatches<'_>) -> usize {
    let is_input = |word: &&Word| {
        word.kind == Kind::File && words.get_str(word.name) == Some(STANDARD_INPUT)
    };
    words_of(verb).iter().filter(is_input).count()
}

/// The line that refuses the words of a command which the parser takes.
pub(crate) fn refusal_of(verb: Verb, words: &ArgMatches<'_>) -> &'static str {
    if verb == Verb::Judge {
        return LIST_WITHIN;
    }
    if words.get_flag("ascii") && words.get_flag("binary") {
        return TWO_FORMS;
    }
    for word in words_of(verb) {
        if let Some(line) = refusal_of_value(*word, words) {
            return line;
        }
        if let Some(line) = refusal_of_flag(*word, words) {
            return line;
        }
    }
    if standard_inputs(verb, words) > 1 {
        return INPUT_TWICE;
    }
    TWO_READINGS
}
