//! Numbers on a line, and lines of one number.
ghost use Rattle.std.specs.Prelude.{◌≡◌, ℕ, ◌+◌, ◌≤◌, List, [], ◌∷◌, ◌++◌, length, decimal};
ghost use Rattle.base.specs.Writing.{WritesText};
ghost use Rattle.aigertext.specs.Ascii.{numbers_line, kept_line, before_kept};

use base::{Line, Pen, Sink};

/// Makes a line that of one number.
pub fn last(line: &mut Line, number: u32)
    ensures line { line.new ≡ numbers_line (number ∷ []) }
    ensures short { length line.new ≤ 21 }
{
    line.clear();
    line.byte(b'\n');
    line.number(u64::from(number));
}

/// Puts a number and a space in front of a line.
pub fn before(line: &mut Line, number: u32)
    requires { length line.old + 21 ≤ 512 }
    ensures digits { line.new ≡ decimal number ++ 32 ∷ line.old }
    ensures short { length line.new ≤ length line.old + 21 }
{
    line.byte(b' ');
    line.number(u64::from(number));
}

/// Puts a count in front of those behind it: nothing where it is 0 and there are none.
pub fn count(line: &mut Line, count: u32)
    requires { length line.old + 21 ≤ 512 }
    ensures counts { (behind : List ℕ) → line.old ≡ kept_line behind
        → line.new ≡ kept_line (before_kept count behind) }
    ensures short { length line.new ≤ length line.old + 21 }
{
    if !line.bytes().is_empty() {
        before(line, count);
    } else if count > 0 {
        last(line, count);
    }
}

/// Puts the line of one number.
pub fn put_number<K: Sink>(pen: &mut Pen, sink: &mut K, number: u32)
    ensures { WritesText K.written K.failures sink.old sink.new pen.old pen.new
        (numbers_line (number ∷ [])) }
{
    last(&mut pen.line, number);
    pen.put_line(sink);
}
