//! Writing a delta.
ghost use Rattle.std.specs.Prelude.{◌≡◌, ◌+◌, ◌≤◌, ◌++◌, length, take};
ghost use Rattle.deltas.specs.Deltas.{delta};

/// Writes a delta into a buffer, with the fewest bytes, and answers the place behind it. Whether it has one byte, two or
/// three is no branch, since no guess of it would be right.
#[inline(always)]
pub fn write(buffer: &mut [u8], at: usize, number: u32) -> usize
    requires { at + 5 ≤ length buffer.old }
    ensures bytes { take result buffer.new ≡ take at buffer.old ++ delta number }
    ensures most { result ≤ at + 5 }
    ensures same { length buffer.new ≡ length buffer.old }
{
    if number >= 2097152 {
        return write_digits(buffer, at, number);
    }
    let (more, further) = (u8::from(number >= 128), u8::from(number >= 16384));
    buffer[at] = (number % 128) as u8 + 128 * more;
    buffer[at + 1] = (number / 128 % 128) as u8 + 128 * further;
    buffer[at + 2] = (number / 16384) as u8;
    at + usize::from(1 + more + further)
}

/// The same, byte by byte.
fn write_digits(buffer: &mut [u8], at: usize, number: u32) -> usize
    requires { at + 5 ≤ length buffer.old }
    ensures bytes { take result buffer.new ≡ take at buffer.old ++ delta number }
    ensures most { result ≤ at + 5 }
    ensures same { length buffer.new ≡ length buffer.old }
{
    let mut rest = number;
    let mut end = at;
    while rest >= 128 {
        buffer[end] = (rest % 128) as u8 + 128;
        rest /= 128;
        end += 1;
    }
    buffer[end] = rest as u8;
    end + 1
}
