//! The tokens of a line.
ghost use Rattle.std.specs.Prelude.{◌≡◌, true, false, [], ◌∷◌, MatchOption};
ghost use Rattle.btor2text.specs.Tokens.{tokens, begins_token, begins_blank};

use bstr::ByteSlice;

/// A line from its first byte that is no blank.
#[inline(never)]
fn without_blanks(line: &[u8]) -> &[u8]
    ensures same { tokens result.now ≡ tokens line.now }
    ensures begins { begins_blank result.now ≡ false }
{
    match line.find_not_byteset(b" \t") {
        None => {
            let (_, rest) = line.split_at(line.len());
            rest
        }
        Some(at) => {
            let (_, rest) = line.split_at(at);
            rest
        }
    }
}

/// A line from its first token on; nothing where no token stands before a comment. Between most tokens there is one
/// blank, which is cut off with the token before it, so most often the line begins with the token, or is empty.
#[inline(always)]
pub(crate) fn from_token(line: &[u8]) -> Option<&[u8]>
    ensures { MatchOption result (tokens line.now ≡ []) (λ x. (tokens x.now ≡ tokens line.now)
        × (begins_token x.now ≡ true)) }
{
    match line {
        [] => return None,
        [first, ..] if *first > b' ' && *first != b';' => return Some(line),
        _ => {}
    }
    let rest = without_blanks(line);
    match rest {
        [] | [b';', ..] => None,
        _ => Some(rest),
    }
}

/// The first token of a line, and the line behind it; nothing where no token stands before a comment.
pub fn next_token(line: &[u8]) -> Option<(&[u8], &[u8])>
    ensures { MatchOption result (tokens line.now ≡ [])
        (λ x. tokens line.now ≡ x.0.now ∷ tokens x.1.now) }
{
    let rest = from_token(line)?;
    match rest.find_byteset(b" \t") {
        None => Some(rest.split_at(rest.len())),
        Some(at) => {
            let (token, _) = rest.split_at(at);
            let (_, behind) = rest.split_at(at + 1);
            Some((token, behind))
        }
    }
}
