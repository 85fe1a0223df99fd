//! Numbers in their places at the front of a text, read in one pass.
ghost use Rattle.std.specs.Prelude.{◌≡◌, ◌∷◌, ◌++◌, [], decimal, IfSome};
ghost use Rattle.aigertext.specs.Ascii.{numbers_line};

/// The greatest number that has room for one more digit, whatever that is.
const ROOM: u32 = u32::MAX / 10 - 1;

/// The number that stands at the front of a text up to this byte, and the text behind the byte, where the number is a
/// decimal with room below 2^32; else nothing. Each byte is looked at once.
#[inline(always)]
pub(crate) fn number_before(text: &[u8], end: u8) -> Option<(u32, &[u8])>
    ensures { IfSome result (λ x. text.now ≡ decimal x.0 ++ end ∷ x.1.now) }
{
    let mut value = match text {
        [first, byte, rest @ ..] if *first == b'0' && *byte == end => return Some((0, rest)),
        [first, ..] if *first >= b'1' && *first <= b'9' => u32::from(*first - b'0'),
        _ => return None,
    };
    for at in 1..text.len() {
        let byte = text[at];
        if byte < b'0' || byte > b'9' {
            if byte != end {
                return None;
            }
            let (_, rest) = text.split_at(at + 1);
            return Some((value, rest));
        }
        if value > ROOM {
            return None;
        }
        value = value * 10 + u32::from(byte - b'0');
    }
    None
}

/// The three numbers of the line at the front of a text, with one space between, and the text behind the line, where
/// they are such numbers; else nothing.
#[inline(always)]
pub fn three_numbers(text: &[u8]) -> Option<(u32, u32, u32, &[u8])>
    ensures { IfSome result (λ x. text.now ≡ numbers_line (x.0 ∷ x.1 ∷ x.2 ∷ []) ++ x.3.now) }
{
    let (first, rest) = number_before(text, b' ')?;
    let (second, rest) = number_before(rest, b' ')?;
    let (third, rest) = number_before(rest, b'\n')?;
    Some((first, second, third, rest))
}
