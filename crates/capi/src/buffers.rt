//! Texts, and lists of other things, that go into a caller's buffer.
ghost use Rattle.std.specs.Prelude.{◌≡◌, ◌<◌, ◌≤◌, ◌++◌, length, drop};

use crate::answers::DONE;

/// The status where a text is longer than the buffer that it is to go into.
const TOO_SMALL: u32 = 1;

/// Puts a text, or a list, at the front of a buffer, where it fits, and tells how long it is. What the buffer has behind the
/// text stays, and so does all of it where the text does not fit.
pub(crate) fn hand_over<T: Copy>(text: &[T], buffer: &mut [T], needed: &mut usize) -> u32
    ensures needed { needed.new ≡ length text.now }
    ensures room { result ≡ 0 → length text.now ≤ length buffer.old }
    ensures done { result ≡ 0 → buffer.new ≡ text.now ++ drop (length text.now) buffer.old }
    ensures small { result ≡ 1 → length buffer.old < length text.now }
    ensures stays { result ≡ 1 → buffer.new ≡ buffer.old }
    ensures statuses { result ≤ 1 }
{
    *needed = text.len();
    if buffer.len() < text.len() {
        return TOO_SMALL;
    }
    buffer[..text.len()].copy_from_slice(text);
    DONE
}
