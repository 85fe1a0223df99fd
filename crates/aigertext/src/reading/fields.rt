//! The parts of a line between its spaces.
ghost use Rattle.std.specs.Prelude.{◌≡◌, ◌∷◌, [], MatchOption};
ghost use Rattle.aigertext.specs.Reading.{fields, fields_behind};

use bstr::ByteSlice;

/// The part of a line before its first space, and the rest of the line with that space; all of it where there is none.
pub fn first_field(line: &[u8]) -> (&[u8], &[u8])
    ensures { fields line.now ≡ result.0.now ∷ fields_behind result.1.now }
{
    match line.find_byte(b' ') {
        None => line.split_at(line.len()),
        Some(at) => line.split_at(at),
    }
}

/// The part behind a space, and the rest of the line; nothing where the line ended.
pub fn next_field(rest: &[u8]) -> Option<(&[u8], &[u8])>
    ensures { MatchOption result (fields_behind rest.now ≡ [])
        (λ x. fields_behind rest.now ≡ x.0.now ∷ fields_behind x.1.now) }
{
    match rest {
        [] => None,
        [_, line @ ..] => Some(first_field(line)),
    }
}
