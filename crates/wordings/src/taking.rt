//! Which parts a command takes.

ghost use Rattle.std.specs.Prelude.{◌≡◌, ◌≤◌, ℕ, [], List, MatchBool, count_by, is_some, length, map, nat_le};
ghost use Rattle.base.specs.Decimals.{number_of};
ghost use Rattle.std.specs.List.{list_all, list_any};
ghost use Rattle.std.specs.Option.{unwrap_or};
ghost use Rattle.wordings.specs.declared.table.Kind.{Kind};
ghost use Rattle.wordings.specs.Orders.{Takes, fits, is_named};
ghost use Rattle.wordings.specs.Parts.{a_file};
ghost use Rattle.wordings.specs.Table.{words_of};
ghost use Rattle.wordings.specs.Values.{said};

use crate::contents::{file_total, has, times};
use crate::parts::Part;
use crate::table::{Kind, Verb, Word, words_of};
use base::decimal;

/// Whether a text is a position, from 0.
fn is_position(text: &str) -> bool
    ensures { result ≡ is_some (number_of text.now) }
{
    decimal(text.as_bytes()).is_some()
}

/// Whether a text is a number, from 1.
fn is_number(text: &str) -> bool
    ensures { result ≡ nat_le 1 (unwrap_or (number_of text.now) 0) }
{
    match decimal(text.as_bytes()) {
        Some(number) => 1 <= number,
        None => false,
    }
}

/// Whether one of some parts is a word of this kind and name, with a value as it takes it, and with the flag that it goes with.
fn fits(parts: &[Part<'_>], kind: Kind, name: &str, part: Part<'_>) -> bool
    ensures { result ≡ fits (map said parts.now) kind name.now (said part.entry) }
{
    match (kind, part) {
        (Kind::File, Part::File(_)) => true,
        (Kind::Flag, Part::Flag(flag)) => flag == name,
        (Kind::FlagWithoutNames, Part::Flag(flag)) => flag == name && !has("names", parts),
        (Kind::FlagOnModel, Part::Flag(flag)) => flag == name && !has("aiger", parts),
        (Kind::FlagWithCircuit, Part::Flag(flag)) => flag == name && has("circuit", parts),
        (Kind::FlagWithEngine, Part::Flag(flag)) => flag == name && has("engine", parts),
        (Kind::Text, Part::Valued(option, _)) => option == name,
        (Kind::Position, Part::Valued(option, value)) => option == name && is_position(value),
        (Kind::PositionWithEngine, Part::Valued(option, value)) => {
            option == name && (is_position(value) && has("engine", parts))
        }
        (Kind::Number, Part::Valued(option, value)) => option == name && is_number(value),
        _ => false,
    }
}

/// Whether one of some parts is one of some words.
fn fits_one(parts: &[Part<'_>], words: &[Word], part: Part<'_>) -> bool
    ensures { result ≡ list_any (λ (word : List ℕ × Kind). fits (map said parts.now) word.1 word.0 (said part.entry))
        (map (λ word. (word.name.now, word.kind)) words.now) }
{
    match words.split_first() {
        Some((word, behind)) => {
            fits(parts, word.kind, word.name, part) || fits_one(parts, behind, part)
        }
        None => false,
    }
}

/// Whether each of some parts is one of the words of a command.
fn all_fit(verb: Verb, parts: &[Part<'_>]) -> bool
    ensures { result ≡ list_all (λ p. list_any (λ (word : List ℕ × Kind). fits (map said parts.now) word.1 word.0 p)
        (words_of verb)) (map said parts.now) }
{
    let mut rest = parts;
    while let [part, behind @ ..] = rest {
        if !fits_one(parts, words_of(verb), *part) {
            return false;
        }
        rest = behind;
    }
    true
}

/// Whether each flag and each option of some words is given once at most.
fn each_once(words: &[Word], parts: &[Part<'_>]) -> bool
    ensures { result ≡ list_all (λ (word : List ℕ × Kind). nat_le (count_by (is_named word.0) (map said parts.now)) 1)
        (map (λ word. (word.name.now, word.kind)) words.now) }
{
    match words.split_first() {
        Some((word, behind)) => times(word.name, parts) <= 1 && each_once(behind, parts),
        None => true,
    }
}

/// How many of some words are files.
fn file_count(words: &[Word]) -> usize
    ensures count { result ≡ count_by (λ (word : List ℕ × Kind). fits [] word.1 [] (a_file []))
        (map (λ word. (word.name.now, word.kind)) words.now) }
    ensures small { result ≤ length words.now }
{
    match words.split_first() {
        Some((word, behind)) if word.kind == Kind::File => 1 + file_count(behind),
        Some((_, behind)) => file_count(behind),
        None => 0,
    }
}

/// Whether parts are what a command takes.
pub(crate) fn takes(verb: Verb, parts: &[Part<'_>]) -> bool
    ensures { MatchBool result (Takes verb (map said parts.now)) (¬ Takes verb (map said parts.now)) }
{
    let known = all_fit(verb, parts);
    let once = each_once(words_of(verb), parts);
    let counted = file_total(parts) == file_count(words_of(verb));
    let two_forms = has("ascii", parts) && has("binary", parts);
    known && once && counted && !two_forms
}
