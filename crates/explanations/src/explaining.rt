//! What is told of refusals that are asked for.

ghost use Rattle.std.specs.Prelude.{◌≡◌, ◌++◌, ◌⊎◌, List, ℕ, [], IfOk, MatchOption, None, OnOk, Some, map, option_map};
ghost use Rattle.std.specs.String.{string_bytes};
ghost use Rattle.explanations.specs.Explanations.{explained, has_name, has_sought_number, is_of_first_line, is_of_line, is_same, is_sought, is_told, row_lines, search_of, sought_by, told_part, told_parts, told_row, with_word, with_words, words_in};

use crate::table::{Explanation, Part};
use base::decimal;
use invocation::Stop;
use std::alloc::{AllocError, Global};

/// What is sought among refusals: those of a number, of a name, or of both, or all; and whether what was told of it is of the
/// first line of a file, where that is known.
#[derive(Clone, Copy)]
pub struct Sought<'a> {
    /// The number.
    pub number: Option<u64>,
    /// The name, in letters of either case.
    pub name: Option<&'a str>,
    /// Whether it is of the first line.
    pub in_first_line: Option<bool>,
}

/// The words with which the cases of a refusal begin that are about the first line of a file.
const FIRST_LINE: &[u8] = b"at line 1";

impl<'a> Sought<'a> {
    /// All refusals.
    pub fn all() -> Sought<'a>
        ensures { result ≡ record { number = None; name = None; in_first_line = None } }
    {
        Sought {
            number: None,
            name: None,
            in_first_line: None,
        }
    }

    /// What words seek, as they are given or as a line of this program has them: a number, a name, or both at the end of a
    /// line, which may say before it that it is about a line of a file. None where they name nothing.
    pub fn by_words(words: &[&'a str]) -> Option<Sought<'a>>
        ensures { option_map search_of result ≡ sought_by (map (λ word. word.now) words.now) }
    {
        let mut reading = Reading {
            sought: Sought::all(),
            is_behind_line: false,
        };
        let mut rest = words;
        while let [text, behind @ ..] = rest {
            reading.take(text);
            rest = behind;
        }
        let sought = reading.sought;
        if sought.number.is_some() || sought.name.is_some() {
            Some(sought)
        } else {
            None
        }
    }

    /// What is sought with a word more: a number, behind `line` a line's, or a name, which goes with the number before it.
    fn with_word(self, word: &'a str, is_behind_line: bool) -> Sought<'a>
        ensures { search_of result ≡ with_word is_behind_line (search_of self.entry) word.now }
    {
        if let Some(number) = decimal(word.as_bytes()) {
            return Sought {
                number: Some(number),
                name: None,
                in_first_line: self.in_first_line,
            };
        }
        if is_behind_line {
            return Sought {
                number: None,
                name: None,
                in_first_line: Some(word == "1:"),
            };
        }
        Sought {
            number: if self.name.is_none() {
                self.number
            } else {
                None
            },
            name: Some(word),
            in_first_line: self.in_first_line,
        }
    }
}

/// What the words sought so far, and whether the last of them is `line`.
#[derive(Clone, Copy)]
struct Reading<'a> {
    sought: Sought<'a>,
    is_behind_line: bool,
}

impl<'a> Reading<'a> {
    /// Takes a text of words.
    fn take(&mut self, text: &'a str)
        ensures { (more : List (List ℕ)) → with_words self.new.is_behind_line (search_of self.new.sought) more
            ≡ with_words self.old.is_behind_line (search_of self.old.sought) (words_in text.now ++ more) }
    {
        let mut words = text.split_ascii_whitespace();
        while let Some(word) = words.next() {
            self.sought = self.sought.with_word(word, self.is_behind_line);
            self.is_behind_line = word == "line";
        }
    }
}

/// Whether a number is that of a row, where one is sought.
fn has_number(number: Option<u64>, row: &Explanation) -> bool
    ensures { result ≡ has_sought_number number row.now }
{
    match number {
        Some(number) => number == u64::from(row.number),
        None => true,
    }
}

/// Whether a name is that of a row, in letters of either case, where one is sought.
fn has_name(name: Option<&str>, row: &Explanation) -> bool
    ensures { result ≡ has_name (option_map (λ name. name.now) name.entry) row.now }
{
    match name {
        Some(name) => name.eq_ignore_ascii_case(row.name),
        None => true,
    }
}

/// Whether a row is sought.
fn is_sought(sought: Sought<'_>, row: &Explanation) -> bool
    ensures { result ≡ is_sought (search_of sought.entry) row.now }
{
    has_number(sought.number, row) && has_name(sought.name, row)
}

/// Whether a row is about the first line of a file.
fn is_of_first_line(row: &Explanation) -> bool
    ensures { result ≡ is_of_first_line row.now }
{
    row.when.as_bytes().starts_with(FIRST_LINE)
}

/// Whether two answers are the same.
fn is_same(one: bool, other: bool) -> bool
    ensures { result ≡ is_same one other }
{
    if one { other } else { !other }
}

/// Whether a row fits what is known of the line.
fn is_of_line(first: Option<bool>, row: &Explanation) -> bool
    ensures { result ≡ is_of_line first row.now }
{
    match first {
        Some(first) => is_same(first, is_of_first_line(row)),
        None => true,
    }
}

/// Whether a row is told: it is sought, and it fits the line, or does not.
fn is_told(sought: Sought<'_>, fitting: bool, row: &Explanation) -> bool
    ensures { result ≡ is_told (search_of sought.entry) fitting row.now }
{
    is_sought(sought, row) && is_same(fitting, is_of_line(sought.in_first_line, row))
}

/// The lines of a row, with the title of its part.
fn row_lines(alloc: Global, title: &str, row: &Explanation) -> Result<String, AllocError>
    ensures { IfOk result (λ lines. string_bytes lines ≡ row_lines title.now row.now) }
{
    let number = row.number;
    let name = row.name;
    let when = row.when;
    let remedy = row.remedy;
    format!(in alloc; "{number} {name} ({title})\n  when: {when}\n  do: {remedy}\n")
}

/// Tells a row behind a text, where it is told.
fn tell_row(
    alloc: Global,
    sought: Sought<'_>,
    fitting: bool,
    title: &str,
    row: &Explanation,
    text: &mut String,
) -> Result<(), AllocError>
    ensures { OnOk result (string_bytes text.new ≡ string_bytes text.old
        ++ told_row (search_of sought.entry) fitting title.now row.now) }
{
    let is_told = is_told(sought, fitting, row);
    if is_told {
        let lines = row_lines(alloc, title, row)?;
        text.push_str(lines.as_str())?;
    }
    Ok(())
}

/// Tells the rows of a part behind a text that are told.
#[tactic(auto, using(crate::proofs::PieceLemmas::all_written))]
fn tell_part(
    alloc: Global,
    sought: Sought<'_>,
    fitting: bool,
    part: &Part,
    text: &mut String,
) -> Result<(), AllocError>
    ensures { OnOk result (string_bytes text.new ≡ string_bytes text.old
        ++ told_part (search_of sought.entry) fitting part.now) }
{
    let mut rest = part.rows;
    while let [row, behind @ ..] = rest {
        tell_row(alloc, sought, fitting, part.title, row, text)?;
        rest = behind;
    }
    Ok(())
}

/// Tells the rows of some parts behind a text that are told.
#[tactic(auto, using(crate::proofs::PieceLemmas::all_written))]
fn tell_parts(
    alloc: Global,
    sought: Sought<'_>,
    fitting: bool,
    parts: &[Part],
    text: &mut String,
) -> Result<(), AllocError>
    ensures { OnOk result (string_bytes text.new ≡ string_bytes text.old
        ++ told_parts (search_of sought.entry) fitting parts.now) }
{
    let mut rest = parts;
    while let [part, behind @ ..] = rest {
        tell_part(alloc, sought, fitting, part, text)?;
        rest = behind;
    }
    Ok(())
}

/// What is told of the refusals of some parts that are sought.
fn explained(alloc: Global, sought: Sought<'_>, parts: &[Part]) -> Result<String, AllocError>
    ensures { IfOk result (λ text. string_bytes text ≡ explained (search_of sought.entry) parts.now) }
{
    let mut text = String::new(alloc);
    tell_parts(alloc, sought, true, parts, &mut text)?;
    tell_parts(alloc, sought, false, parts, &mut text)?;
    Ok(text)
}

/// What stands in place of a command where no refusal is sought that there is.
fn unknown(alloc: Global, sought: Sought<'_>) -> Stop
    ensures { (result.status ≡ 4) ⊎ (result.status ≡ 3) }
{
    let text = match (sought.number, sought.name) {
        (Some(number), Some(name)) => format!(in alloc; "{number} {name}"),
        (Some(number), None) => format!(in alloc; "{number}"),
        (None, name) => String::from_str(alloc, name.unwrap_or("")),
    };
    let text = match text {
        Ok(words) => format!(in alloc;
            "words: {words} is no number and no name of a refusal; hwtool explain tells all\n"
        ),
        Err(error) => Err(error),
    };
    match text {
        Ok(text) => Stop::refused(text),
        Err(_) => Stop::no_memory(alloc),
    }
}

/// What the refusals of a table mean and what to do about them: those that are sought, first those that fit what is known of the
/// line that they are told of.
///
/// The text is shown, with status 0; where no refusal is sought that there is, the words are refused, with status 4.
pub fn explain(alloc: Global, table: &[Part], sought: Sought<'_>) -> Stop
    ensures shown { result.status ≡ 0 → string_bytes result.text
        ≡ explained (search_of sought.entry) table.now }
    // a refusal that is there is told
    ensures known { result.status ≡ 4 → explained (search_of sought.entry) table.now ≡ [] }
{
    match explained(alloc, sought, table) {
        Ok(text) if text.is_empty() => unknown(alloc, sought),
        Ok(text) => Stop::shown(text),
        Err(_) => Stop::no_memory(alloc),
    }
}
