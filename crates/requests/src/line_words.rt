//! The lines of a list and their words.

ghost use Rattle.std.specs.Prelude.{◌≡◌, ◌<◌, ◌∷◌, ◌++◌, [], length, true, false, MatchOption, IfOk, IfSome, map};
ghost use Rattle.btor2text.specs.Tokens.{begins_blank, begins_token, tokens};
ghost use Rattle.requests.specs.Lists.{begins_comment, has_judgement, lines, words};

use base::next_line;
use bstr::ByteSlice;
use std::alloc::{AllocError, Global};
use std::str;

/// A line from its first byte that is no blank.
fn without_blanks(line: &[u8]) -> &[u8]
    ensures same { tokens result.now ≡ tokens line.now }
    ensures begins { begins_blank result.now ≡ false }
{
    match line.find_not_byteset(b" \t") {
        None => {
            let (_, rest) = line.split_at(line.len());
            rest
        }
        Some(at) => {
            let (_, rest) = line.split_at(at);
            rest
        }
    }
}

/// A line from its first word on; nothing where no word stands before a comment.
fn from_word(line: &[u8]) -> Option<&[u8]>
    ensures { MatchOption result (tokens line.now ≡ [])
        (λ x. (tokens x.now ≡ tokens line.now) × (begins_token x.now ≡ true)) }
{
    let rest = without_blanks(line);
    match rest {
        [] | [b';', ..] => None,
        _ => Some(rest),
    }
}

/// The first word of a line, and the line behind it; nothing where no word stands before a comment.
fn next_word(line: &[u8]) -> Option<(&[u8], &[u8])>
    ensures { MatchOption result (tokens line.now ≡ [])
        (λ x. tokens line.now ≡ x.0.now ∷ tokens x.1.now) }
{
    let rest = from_word(line)?;
    match rest.find_byteset(b" \t") {
        None => Some(rest.split_at(rest.len())),
        Some(at) => {
            let (word, _) = rest.split_at(at);
            let (_, behind) = rest.split_at(at + 1);
            Some((word, behind))
        }
    }
}

/// Whether a line has a judgement: it has a word, and the first begins with no `#`.
pub(crate) fn has_judgement(line: &[u8]) -> bool
    ensures { result ≡ has_judgement (words line.now) }
{
    match next_word(line) {
        Some((word, _)) => !begins_comment(word),
        None => false,
    }
}

/// Whether a word begins a comment.
fn begins_comment(word: &[u8]) -> bool
    ensures { result ≡ begins_comment word.now }
{
    match word.first() {
        Some(byte) => *byte == b'#',
        None => false,
    }
}

/// Puts a word behind texts, where it is one; whether it is.
fn put<'a>(texts: &mut Vec<&'a str>, word: &'a [u8]) -> Result<bool, AllocError>
    ensures { IfOk result (λ is_text. is_text ≡ true
        → map (λ text. text.now) texts.new.items
        ≡ map (λ text. text.now) texts.old.items ++ word.now ∷ []) }
{
    match str::from_utf8(word) {
        Ok(text) => {
            texts.push(text)?;
            Ok(true)
        }
        Err(_) => Ok(false),
    }
}

/// The words of a line; none where one is no text, that is, not UTF-8.
///
/// Error: a growth was refused.
pub(crate) fn words_of<'a>(
    alloc: Global,
    line: &'a [u8],
) -> Result<Option<Vec<&'a str>>, AllocError>
    ensures { IfOk result (λ found. IfSome found (λ texts.
        map (λ text. text.now) texts.items ≡ words line.now)) }
{
    let mut found = Vec::new(alloc);
    let mut are_texts = true;
    let mut rest = line;
    while let Some((word, behind)) = next_word(rest) {
        let is_text = put(&mut found, word)?;
        are_texts = are_texts && is_text;
        rest = behind;
    }
    Ok(if are_texts { Some(found) } else { None })
}

/// The first line of a list, and the text behind it; nothing where the list is at its end.
pub(crate) fn cut_line(text: &[u8]) -> Option<(&[u8], &[u8])>
    ensures lines { MatchOption result (lines text.now ≡ [])
        (λ x. lines text.now ≡ x.0.now ∷ lines x.1.now) }
    ensures less { IfSome result (λ x. length x.1.now < length text.now) }
{
    if text.is_empty() {
        return None;
    }
    match next_line(text) {
        Some((line, behind)) => Some((line, behind)),
        None => Some(text.split_at(text.len())),
    }
}
