//! The command on vectors of operators.

ghost use Rattle.std.specs.Prelude.{Some, IfOk, IfErr};
ghost use Rattle.subcommands.specs.Done.{Compares};
ghost use Rattle.verbs.specs.Refusals.{IsNoVectorList};
ghost use Rattle.verbs.specs.Statuses.{Ends, IfInput};
ghost use Rattle.verbs.specs.Statuses.Use.{Unused, Used};

use crate::answers::Answer;
use crate::telling::write_result;
use base::{Sink, Source, read_all};
use std::alloc::Global;
use vectors::judge_vectors;
use verbs::Refusal;

/// Judges the vectors of a file.
pub fn compare_vectors<A: Source, O: Sink>(
    alloc: Global,
    first: &mut A,
    out: &mut O,
) -> Result<Answer, Refusal>
    ensures done { IfOk result (Compares (A.to_come first.old) (O.written out.old)
        (O.written out.new)) }
    ensures refused { IfErr result (IfInput (IsNoVectorList (A.to_come first.old))) }
    ensures ends { Ends result (Used A.failures first.old first.new) Unused
        (Used O.failures out.old out.new) Unused }
{
    let text = read_all(alloc, first)?;
    compare_text(alloc, text.as_slice(), out)
}

/// Judges the vectors that the lines of a text write.
fn compare_text<O: Sink>(alloc: Global, text: &[u8], out: &mut O) -> Result<Answer, Refusal>
    ensures done { IfOk result (Compares (Some text.now) (O.written out.old) (O.written out.new)) }
    ensures refused { IfErr result (IfInput (IsNoVectorList (Some text.now))) }
    ensures ends { Ends result Unused Unused (Used O.failures out.old out.new) Unused }
{
    let report = judge_vectors(alloc, text)?;
    write_result(out, report.text.as_bytes())?;
    if report.all_agree {
        Ok(Answer::Done)
    } else {
        Ok(Answer::NotAccepted)
    }
}
