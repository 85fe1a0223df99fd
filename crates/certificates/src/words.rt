//! The words of a line.
ghost use Rattle.std.specs.Prelude.{◌≡◌, ◌<◌, ◌∷◌, length, IfSome, option_copied};
ghost use Rattle.std.specs.Str.{bytes_eq};
ghost use Rattle.certificates.specs.Reading.{line_words, sole, value_behind};
ghost use Rattle.certificates.specs.Reader.{words_behind};

use base::cut_at;

/// Whether a word is this one.
pub(crate) fn is_word(word: &[u8], own: &[u8]) -> bool
    ensures { result ≡ bytes_eq word.now own.now }
{
    word == own
}

/// The first word of a line, and what stands behind the blank after it, if there is one.
pub(crate) fn first_word(line: &[u8]) -> (&[u8], Option<&[u8]>)
    ensures words { line_words line.now ≡ result.0.now ∷ words_behind (option_copied result.1) }
    ensures shorter { IfSome (option_copied result.1) (λ rest. length rest < length line.now) }
{
    match cut_at(line, b' ') {
        None => (line, None),
        Some((word, behind)) => (word, Some(behind)),
    }
}

/// The one word of some bytes, which is all of them.
fn sole_word(bytes: &[u8]) -> Option<&[u8]>
    ensures { option_copied result ≡ sole (line_words bytes.now) }
{
    match cut_at(bytes, b' ') {
        None => Some(bytes),
        Some((_word, _behind)) => None,
    }
}

/// The one word behind the first, and no more.
pub(crate) fn sole(behind: Option<&[u8]>) -> Option<&[u8]>
    ensures { option_copied result ≡ sole (words_behind (option_copied behind.entry)) }
{
    match behind {
        None => None,
        Some(rest) => sole_word(rest),
    }
}

/// The one word behind a key, where the line is these two.
pub(crate) fn value_of<'a>(line: &'a [u8], key: &[u8]) -> Option<&'a [u8]>
    ensures { option_copied result ≡ value_behind key.now line.now }
{
    let (first, behind) = first_word(line);
    if is_word(first, key) {
        sole(behind)
    } else {
        None
    }
}
