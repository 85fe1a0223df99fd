//! A whole line of a witness over a model that is no assignment.
ghost use Rattle.std.specs.Prelude.{◌≡◌, ◌==◌, ◌||◌, ◌<◌, ◌-◌, ◌^◌, ◌∷◌, decimal, slice_index_or};
ghost use Rattle.std.specs.Str.{bytes_eq};
ghost use Rattle.witness.specs.Texts.{is_comment};
ghost use Rattle.base.specs.Decimals.{number_of};
ghost use Rattle.witness.specs.Admits.{begins_part};
ghost use Rattle.witness.specs.ClaimScans.{behind_first};

use base::decimal;

/// The first byte, where there is one, and else 0.
pub(crate) fn first_of(line: &[u8]) -> u8
    ensures { result ≡ slice_index_or line.now 0 0 }
{
    line.first().copied().unwrap_or(0)
}

/// The number that the bytes behind the first write, where they are a decimal, at most 2^64 - 1.
pub(crate) fn number_behind(line: &[u8]) -> Option<u64>
    ensures { result ≡ number_of (behind_first line.now) }
{
    let (_, behind) = line.split_first()?;
    decimal(behind)
}

/// Whether a line is a comment.
pub(crate) fn is_comment(line: &[u8]) -> bool
    ensures { result ≡ is_comment line.now }
{
    first_of(line) == b';'
}

/// Whether a line is a word.
pub(crate) fn is_word(line: &[u8], word: &[u8]) -> bool
    ensures { result ≡ bytes_eq line.now word.now }
{
    line == word
}

/// Whether a line begins as those do that open or end a part.
pub(crate) fn begins_part(line: &[u8]) -> bool
    ensures { result ≡ begins_part line.now }
{
    let first = first_of(line);
    first == b'#' || (first == b'@' || first == b'.')
}

/// Whether a line is this byte with a number behind it.
pub(crate) fn is_numbered(line: &[u8], byte: u8, number: u64) -> bool
    ensures { number < 2 ^ 64 - 1 → result ≡ bytes_eq line.now (byte ∷ decimal number) }
{
    if first_of(line) != byte {
        return false;
    }
    match number_behind(line) {
        Some(found) => found == number,
        None => false,
    }
}
