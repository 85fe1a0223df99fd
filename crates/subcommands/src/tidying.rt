//! The command that writes the strict text of a witness.

ghost use Rattle.std.specs.Prelude.{◌≡◌, IfOk, OnOk};
ghost use Rattle.subcommands.specs.Done.{Tidies};
ghost use Rattle.verbs.specs.Statuses.{EndsUnrefused};
ghost use Rattle.verbs.specs.Statuses.Use.{Unused, Used};

use crate::answers::Answer;
use base::{Sink, Source};
use tidy::{TidyFault, tidy};
use verbs::{Device, Refusal};

/// Writes the strict text of the witness with this number, from 1, in the first file.
///
/// Its buffers stand in a frame of its own: each command enters that of its caller.
#[inline(never)]
pub fn tidy_witness<A: Source, O: Sink>(
    pick: u64,
    first: &mut A,
    out: &mut O,
) -> Result<Answer, Refusal>
    ensures done { OnOk result (Tidies pick (A.to_come first.old) (O.written out.old)
        (O.written out.new)) }
    ensures answer { IfOk result (λ answer. answer ≡ Answer.Done) }
    ensures ends { EndsUnrefused result (Used A.failures first.old first.new) Unused
        (Used O.failures out.old out.new) Unused }
{
    match tidy(pick, first, out) {
        Ok(()) => Ok(Answer::Done),
        Err(TidyFault::Read) => Err(Refusal::Failed(Device::First)),
        Err(TidyFault::Write) => Err(Refusal::Failed(Device::Output)),
    }
}
