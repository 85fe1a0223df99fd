//! The flags, the options and the files of parts.

ghost use Rattle.std.specs.Prelude.{◌≡◌, ◌≤◌, codes, count_by, map, length, option_map, slice_get};
ghost use Rattle.std.specs.Str.{bytes_eq};
ghost use Rattle.wordings.specs.Orders.{files, has, is_named, value};
ghost use Rattle.wordings.specs.Values.{said};

use crate::parts::Part;
use invocation::STANDARD_INPUT;

/// Whether a part is the flag or the option of a name.
fn is_named(name: &str, part: Part<'_>) -> bool
    ensures { result ≡ is_named name.now (said part.entry) }
{
    match part {
        Part::File(_) => false,
        Part::Flag(other) | Part::Valued(other, _) => other == name,
    }
}

/// Whether there is a flag or an option of a name.
pub(crate) fn has(name: &str, parts: &[Part<'_>]) -> bool
    ensures { result ≡ has name.now (map said parts.now) }
{
    let mut rest = parts;
    while let [part, behind @ ..] = rest {
        if is_named(name, *part) {
            return true;
        }
        rest = behind;
    }
    false
}

/// How often a flag or an option of a name is given.
pub(crate) fn times(name: &str, parts: &[Part<'_>]) -> usize
    ensures { result ≡ count_by (is_named name.now) (map said parts.now) }
{
    let mut times = 0;
    let mut rest = parts;
    while let [part, behind @ ..] = rest {
        if is_named(name, *part) {
            times += 1;
        }
        rest = behind;
    }
    times
}

/// The first value of an option of a name.
pub(crate) fn value<'a>(name: &str, parts: &[Part<'a>]) -> Option<&'a str>
    ensures { option_map (λ text. text.now) result ≡ value name.now (map said parts.now) }
{
    let mut rest = parts;
    while let [part, behind @ ..] = rest {
        match *part {
            Part::Valued(option, value) if option == name => return Some(value),
            _ => rest = behind,
        }
    }
    None
}

/// How many files there are.
pub(crate) fn file_total(parts: &[Part<'_>]) -> usize
    ensures { result ≡ length (files (map said parts.now)) }
{
    let mut total = 0;
    let mut rest = parts;
    while let [part, behind @ ..] = rest {
        if let Part::File(_) = *part {
            total += 1;
        }
        rest = behind;
    }
    total
}

/// How many of the files are standard input.
pub(crate) fn input_total(parts: &[Part<'_>]) -> usize
    ensures { result ≡ count_by (λ name. bytes_eq name (codes "-")) (files (map said parts.now)) }
{
    let mut total = 0;
    let mut rest = parts;
    while let [part, behind @ ..] = rest {
        match *part {
            Part::File(name) if name == STANDARD_INPUT => total += 1,
            _ => {}
        }
        rest = behind;
    }
    total
}

/// The file at a place among the files, from 0.
#[tactic(auto, using(crate::proofs::WordLemmas::got_behind))]
pub(crate) fn file_at<'a>(parts: &[Part<'a>], place: usize) -> Option<&'a str>
    ensures { option_map (λ name. name.now) result ≡ slice_get (files (map said parts.now)) place }
{
    let mut before = place;
    let mut rest = parts;
    while let [part, behind @ ..] = rest {
        if let Part::File(name) = *part {
            if before == 0 {
                return Some(name);
            }
            before -= 1;
        }
        rest = behind;
    }
    None
}
