//! The command that dumps the frames of witnesses.

ghost use Rattle.std.specs.Prelude.{IfOk, IfErr};
ghost use Rattle.subcommands.specs.Done.{Dumps, Judged};
ghost use Rattle.verbs.specs.Refusals.{IsNotJudged};
ghost use Rattle.verbs.specs.Statuses.{Ends, IfInput};
ghost use Rattle.verbs.specs.Statuses.Use.{Unused, Used};

use crate::answers::Answer;
use crate::judgements::tell_line;
use base::{Sink, Source};
use invocation::{Order, STANDARD_INPUT};
use std::alloc::{AllocError, Global};
use vcd::Shown;
use verbs::{Refusal, dump};

/// The title of a dump: the names of the files.
fn title_of(alloc: Global, order: &Order<'_>) -> Result<String, AllocError> {
    let first = order.first;
    let second = order.second.unwrap_or(STANDARD_INPUT);
    format!(in alloc; "{first} {second}")
}

/// Judges a witness over a model, dumps its frames to standard output, and tells its judgement on standard error.
///
/// Its buffers stand in a frame of its own: each command enters that of its caller.
#[inline(never)]
pub fn dump_witness<A: Source, B: Source, O: Sink, E: Sink>(
    alloc: Global,
    order: &Order<'_>,
    shown: Shown,
    first: &mut A,
    second: &mut B,
    out: &mut O,
    err: &mut E,
) -> Result<Answer, Refusal>
    ensures done { IfOk result (Judged (Dumps shown (A.to_come first.old) (B.to_come second.old)
        (O.written out.old) (O.written out.new) (E.written err.old) (E.written err.new))) }
    ensures refused { IfErr result (IfInput (IsNotJudged (A.to_come first.old))) }
    ensures ends { Ends result (Used A.failures first.old first.new)
        (Used B.failures second.old second.new) (Used O.failures out.old out.new)
        (Used E.failures err.old err.new) }
{
    let title = title_of(alloc, order)?;
    let judgement = dump(alloc, shown, title.as_bytes(), first, second, out)?;
    tell_line(alloc, &judgement, err)
}
