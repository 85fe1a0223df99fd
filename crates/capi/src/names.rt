//! The calls that name refusals and the version.
ghost use Rattle.std.specs.Prelude.{◌≡◌, ◌≤◌, None, IfSome, option_map};
ghost use Rattle.invocation.specs.Version.{version};
ghost use Rattle.capi.specs.Named.{IsRefusalName, IsOfNone, name_among, name_listed};
ghost use Rattle.capi.specs.Buffers.{Fills, Needs};

use crate::buffers::hand_over;
use explanations::{Explanation, Part, refusal_table};
use invocation::version;

/// The status where no refusal has a number.
const UNKNOWN: u32 = 2;

/// The name of the first of some rows that has a number.
fn name_in(rows: &[Explanation], number: u32) -> Option<&'static str>
    ensures { option_map (λ name. name.now) result ≡ name_listed number rows.now }
{
    let mut rest = rows;
    while let [row, behind @ ..] = rest {
        if row.number == number {
            return Some(row.name);
        }
        rest = behind;
    }
    None
}

/// The name of the first row of some parts that has a number.
fn name_among(parts: &[Part], number: u32) -> Option<&'static str>
    ensures { option_map (λ name. name.now) result ≡ name_among number parts.now }
{
    let mut rest = parts;
    while let [part, behind @ ..] = rest {
        let name = name_in(part.rows, number);
        if name.is_some() {
            return name;
        }
        rest = behind;
    }
    None
}

/// The name of a refusal, as the program prints it.
fn name_of(number: u32) -> Option<&'static str>
    ensures named { IfSome result (λ name. IsRefusalName number name.now) }
    ensures unnamed { result ≡ None → IsOfNone number }
{
    name_among(&refusal_table(), number)
}

/// Tells the name of the refusal, or of what is wrong with a line, that has this number; it does not end with a zero byte.
///
/// Answers 0 where the name stands at the front of the buffer, whose bytes behind it stay, and 1 where it is longer than the
/// buffer, which stays then: after both `needed` is its length. 2 where no refusal has this number; buffer and `needed` stay
/// then.
#[unsafe(no_mangle)]
pub extern "C" fn hwtool_name(number: u32, buffer: &mut [u8], needed: &mut usize) -> u32
    ensures done { result ≡ 0 → Fills (IsRefusalName number) buffer.old buffer.new needed.new }
    ensures small { result ≡ 1 → Needs (IsRefusalName number) buffer.old buffer.new needed.new }
    ensures unknown { result ≡ 2 → IsOfNone number }
    ensures statuses { result ≤ 2 }
    ensures unwritten { result ≡ 2 → (buffer.new ≡ buffer.old) × (needed.new ≡ needed.old) }
{
    match name_of(number) {
        Some(name) => hand_over(name.as_bytes(), buffer, needed),
        None => UNKNOWN,
    }
}

/// Tells the version of the library, which is that of the program; it does not end with a zero byte.
///
/// Answers 0 where it stands at the front of the buffer, whose bytes behind it stay, and 1 where it is longer than the buffer,
/// which stays then: after both `needed` is its length.
#[unsafe(no_mangle)]
pub extern "C" fn hwtool_version(buffer: &mut [u8], needed: &mut usize) -> u32
    ensures done { result ≡ 0 → Fills (λ text. text ≡ version) buffer.old buffer.new needed.new }
    ensures small { result ≡ 1 → Needs (λ text. text ≡ version) buffer.old buffer.new needed.new }
    ensures statuses { result ≤ 1 }
{
    hand_over(version().as_bytes(), buffer, needed)
}
