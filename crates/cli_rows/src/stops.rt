//! What is told in place of a command.

use crate::answers::Answer;
use base::{Chop, FailAt, VecSink};
use invocation::Stop;
use std::alloc::Global;
use subcommands::end;

/// Whether a text has a part, or is empty where the part is.
fn has_part(text: &[u8], part: &[u8]) -> bool {
    if part.is_empty() {
        text.is_empty()
    } else {
        text.windows(part.len()).any(|window| window == part)
    }
}

/// Whether what stands in place of a command ends with a status, and tells texts with these parts.
pub(crate) fn tells_parts(alloc: Global, stop: &Stop, wanted: Answer<'_>) -> bool {
    let mut out = VecSink::new(alloc);
    let mut err = VecSink::new(alloc);
    end(stop, &mut out, &mut err) == wanted.status
        && has_part(out.bytes(), wanted.out)
        && has_part(err.bytes(), wanted.err)
}

/// Whether the status is 3 where the device fails that is to take the text, and standard error tells it of standard output.
pub(crate) fn tells_failing_writes(alloc: Global, stop: &Stop) -> bool {
    let mut failing = FailAt::new(Chop::new(VecSink::new(alloc), 2), 1);
    let mut other = VecSink::new(alloc);
    if stop.status == 0 {
        end(stop, &mut failing, &mut other) == 3 && other.bytes() == b"output: device\n".as_slice()
    } else {
        end(stop, &mut other, &mut failing) == 3 && other.bytes().is_empty()
    }
}

/// Whether want of memory in place of a command ends with status 3, and its line is told.
pub(crate) fn tells_no_memory(alloc: Global) -> bool {
    let mut out = VecSink::new(alloc);
    let mut err = VecSink::new(alloc);
    let status = end(&Stop::no_memory(alloc), &mut out, &mut err);
    status == 3 && out.bytes().is_empty() && err.bytes() == b"no memory\n".as_slice()
}
