//! Dumping the frames of witnesses.

ghost use Rattle.std.specs.Prelude.{IfOk, IfErr};
ghost use Rattle.verbs.specs.Judging.{IsDumped};
ghost use Rattle.verbs.specs.Refusals.{IsNotJudged};
ghost use Rattle.verbs.specs.Statuses.{Ends, IfInput};
ghost use Rattle.verbs.specs.Statuses.Use.{Unused, Used};

use crate::reading::read_model;
use crate::refusals::Refusal;
use base::{Sink, Source};
use std::alloc::Global;
use vcd::{Shown, wave};
use witness::Judgement;

/// Judges the second text, a witness, over the model of the first, and dumps its frames, under a title.
pub fn dump<A: Source, B: Source, O: Sink>(
    alloc: Global,
    shown: Shown,
    title: &[u8],
    first: &mut A,
    second: &mut B,
    out: &mut O,
) -> Result<Judgement, Refusal>
    ensures dumped { IfOk result (IsDumped shown title.now (A.to_come first.old)
        (B.to_come second.old) (O.written out.old) (O.written out.new)) }
    ensures refused { IfErr result (IfInput (IsNotJudged (A.to_come first.old))) }
    ensures ends { Ends result (Used A.failures first.old first.new)
        (Used B.failures second.old second.new) (Used O.failures out.old out.new) Unused }
{
    let model = read_model(alloc, first)?;
    match wave(alloc, &model, shown, title, second, out) {
        Ok(judgement) => Ok(judgement),
        Err(fault) => Err(Refusal::from(fault)),
    }
}
