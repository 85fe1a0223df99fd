//! The lines of a source, up to a mark.
ghost use Rattle.std.specs.Prelude.{◌≡◌};
ghost use Rattle.restore.specs.Marks.{FindsLine, CutsAtMark};
ghost use Rattle.restore.specs.Steps.{unread_found_fault};

use crate::fault::{RestoreFault, RestoreWhy};
use base::{LineReader, ReadAllFault, cut_at};

/// The byte that ends a text.
const MARK: u8 = b'#';

/// What is wrong where a source could not be read to its end.
pub(crate) fn unread(cause: ReadAllFault) -> RestoreFault
    ensures { result ≡ unread_found_fault cause }
{
    let why = match cause {
        ReadAllFault::Device => RestoreWhy::Device,
        ReadAllFault::NoMemory => RestoreWhy::NoMemory,
    };
    RestoreFault::apart(why)
}

/// The bytes up to a mark, or all, and whether there is one.
fn up_to_mark(bytes: &[u8]) -> (&[u8], bool)
    ensures { CutsAtMark bytes.now result.1 result.0.now }
{
    match cut_at(bytes, MARK) {
        None => (bytes, false),
        Some((front, _)) => (front, true),
    }
}

/// The line that was found last, or what is unfinished where none was found, up to a mark; and whether it is the last one.
pub(crate) fn found_line(lines: &LineReader, is_whole: bool) -> (&[u8], bool)
    ensures { FindsLine lines.now is_whole result.0.now result.1 }
{
    if is_whole {
        up_to_mark(lines.line())
    } else {
        let (line, _) = up_to_mark(lines.rest());
        (line, true)
    }
}
