//! The parts of the words behind a command: files, flags, and options with their values.

ghost use Rattle.std.specs.Prelude.{◌≡◌, ℕ, List, ◌&&◌, ◌++◌, ◌∷◌, [], Some, None, true, false, nat_eq, if◌then◌else◌, drop, length, map, option_map, MatchOption, IfOk, OnOk};
ghost use Rattle.std.specs.List.{list_any, starts_with};
ghost use Rattle.std.specs.Str.{bytes_eq};
ghost use Rattle.wordings.specs.declared.table.Kind.{Kind};
ghost use Rattle.wordings.specs.Parts.{a_file, lacks_value, long_part, parts_behind, takes_value, with_value, word_part};
ghost use Rattle.wordings.specs.Values.{said};

use crate::table::{Kind, Verb, Word, words_of};
use std::alloc::{AllocError, Global};
use std::convert::AsStr;

/// The name of the option for the file that a result goes to, which has the letter `o`.
const OUTPUT: &str = "output";

/// What stands for a letter that no option has: the name of no flag.
const NO_NAME: &str = "-";

/// A part of what words say.
#[derive(Clone, Copy)]
pub(crate) enum Part<'a> {
    /// A file.
    File(&'a str),
    /// A flag, by its name.
    Flag(&'a str),
    /// An option, by its name, with its value.
    Valued(&'a str, &'a str),
}

/// What stands behind a prefix, where a word begins with it.
fn behind<'a>(word: &'a str, prefix: &str) -> Option<&'a str>
    ensures { option_map (λ rest. rest.now) result ≡ (if starts_with nat_eq word.now prefix.now
        then Some (drop (length prefix.now) word.now) else None) }
{
    word.strip_prefix(prefix)
}

/// What stands behind `--`: `name`, or `name=value`.
fn long_part(name: &str) -> Part<'_>
    ensures { said result ≡ long_part name.now }
{
    match name.split_once('=') {
        Some((name, value)) => Part::Valued(name, value),
        None => Part::Flag(name),
    }
}

/// The part that a word is.
fn word_part(word: &str) -> Part<'_>
    ensures { said result ≡ word_part word.now }
{
    if word == "-" || behind(word, "-").is_none() {
        return Part::File(word);
    }
    if let Some(name) = behind(word, "--") {
        return long_part(name);
    }
    if let Some(value) = behind(word, "-o=") {
        return Part::Valued(OUTPUT, value);
    }
    if word == "-o" {
        return Part::Flag(OUTPUT);
    }
    match behind(word, "-o") {
        Some(value) => Part::Valued(OUTPUT, value),
        None => Part::Flag(NO_NAME),
    }
}

/// Whether an option takes a value.
fn takes_value(kind: Kind) -> bool
    ensures { result ≡ takes_value kind }
{
    matches!(
        kind,
        Kind::Text | Kind::Position | Kind::PositionWithEngine | Kind::Number
    )
}

/// Whether one of some words is an option of a name.
fn has_option(name: &str, words: &[Word]) -> bool
    ensures { result ≡ list_any (λ (word : List ℕ × Kind). bytes_eq word.0 name.now && takes_value word.1)
        (map (λ word. (word.name.now, word.kind)) words.now) }
{
    match words.split_first() {
        Some((word, behind)) => {
            (word.name == name && takes_value(word.kind)) || has_option(name, behind)
        }
        None => false,
    }
}

/// Whether a part is the name of an option of the command, without a value.
fn lacks_value(verb: Verb, part: Part<'_>) -> bool
    ensures { result ≡ lacks_value verb (said part.entry) }
{
    match part {
        Part::Flag(name) => has_option(name, words_of(verb)),
        _ => false,
    }
}

/// An option with the word behind it as its value, where that is no flag and no option.
fn with_value<'a>(option: Part<'a>, word: Part<'a>) -> Part<'a>
    ensures { said result ≡ with_value (said option.entry) (said word.entry) }
{
    match (option, word) {
        (Part::Flag(name), Part::File(value)) => Part::Valued(name, value),
        (option, _) => option,
    }
}

/// Puts words as files behind parts.
fn put_files<'a, S: AsStr>(parts: &mut Vec<Part<'a>>, words: &'a [S]) -> Result<(), AllocError>
    ensures { OnOk result (map said parts.new.items ≡ map said parts.old.items
        ++ map a_file (map S.text words.now)) }
{
    let mut rest = words;
    while let Some((word, behind)) = rest.split_first() {
        parts.push(Part::File(word.as_str()))?;
        rest = behind;
    }
    Ok(())
}

/// The parts of the words behind a command.
pub(crate) fn parts_of<'a, S: AsStr>(
    alloc: Global,
    verb: Verb,
    words: &'a [S],
) -> Result<Vec<Part<'a>>, AllocError>
    ensures { IfOk result (λ found. map said found.items ≡ parts_behind verb None (map S.text words.now)) }
{
    let mut found = Vec::new(alloc);
    let mut option: Option<Part<'a>> = None;
    let mut rest = words;
    while let Some((word, behind)) = rest.split_first() {
        let word = word.as_str();
        rest = behind;
        match option {
            Some(part) => {
                found.push(with_value(part, word_part(word)))?;
                option = None;
            }
            None if word == "--" => {
                put_files(&mut found, behind)?;
                return Ok(found);
            }
            None => {
                let part = word_part(word);
                if lacks_value(verb, part) {
                    option = Some(part);
                } else {
                    found.push(part)?;
                }
            }
        }
    }
    if let Some(part) = option {
        found.push(part)?;
    }
    Ok(found)
}

/// The first of some parts, and those behind it.
pub(crate) fn cut<'p, 'a>(parts: &'p [Part<'a>]) -> Option<(Part<'a>, &'p [Part<'a>])>
    ensures { MatchOption result (parts.now ≡ []) (λ found. parts.now ≡ found.0 ∷ found.1.now) }
{
    match parts.split_first() {
        Some((part, behind)) => Some((*part, behind)),
        None => None,
    }
}
