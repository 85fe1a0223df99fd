//! The command that judges witnesses over circuits.

ghost use Rattle.std.specs.Prelude.{◌≡◌, false, IfOk, IfErr, option_map};
ghost use Rattle.invocation.specs.declared.tasks.Given.TheVariants as given_is;
ghost use Rattle.verbs.specs.Asked.{IsNotJudgedOverWith};
ghost use Rattle.verbs.specs.Refusals.{IsNotClaimable};
ghost use Rattle.verbs.specs.Statuses.{Ends, IfInput};
ghost use Rattle.verbs.specs.Statuses.Use.{Unused, Used};
ghost use Rattle.subcommands.specs.Asked.{IsJudgedOverWith};
ghost use Rattle.subcommands.specs.Done.{WritesJudgedOver};

use crate::answers::Answer;
use crate::judgements::{answer_told, write_judgement};
use base::{Sink, Source};
use invocation::Order;
use std::alloc::Global;
use verbs::{Refusal, Subject, judge_for_circuit, judge_over_circuit};

/// Judges a witness over a circuit, and writes the line of its judgement.
pub fn check_circuit<A: Source, B: Source, O: Sink>(
    alloc: Global,
    first: &mut A,
    second: &mut B,
    out: &mut O,
) -> Result<Answer, Refusal>
    ensures done { IfOk result (WritesJudgedOver (A.to_come first.old) (B.to_come second.old)
        (O.written out.old) (O.written out.new)) }
    ensures refused { IfErr result
        (IfInput (IsNotClaimable given_is.Circuit (A.to_come first.old))) }
    ensures ends { Ends result (Used A.failures first.old first.new)
        (Used B.failures second.old second.new) (Used O.failures out.old out.new) Unused }
{
    let judgement = judge_over_circuit(alloc, first, second)?;
    write_judgement(alloc, &judgement, out)
}

/// Judges whether a witness over a circuit is accepted and claims the bad property that a word asks for, where one does; tells
/// it in a line or as an object; and with names says what the judgement is about.
pub fn check_circuit_with<A: Source, B: Source, O: Sink, E: Sink>(
    alloc: Global,
    order: &Order<'_>,
    first: &mut A,
    second: &mut B,
    out: &mut O,
    err: &mut E,
) -> Result<Answer, Refusal>
    ensures done { IfOk result (IsJudgedOverWith order.now.named order.now.as_json
        (option_map (λ word. word.now) order.now.asked) (A.to_come first.old)
        (B.to_come second.old) (O.written out.old) (O.written out.new) (E.written err.old)
        (E.written err.new)) }
    ensures refused { IfErr result
        (IfInput (IsNotJudgedOverWith (option_map (λ word. word.now) order.now.asked)
        (A.to_come first.old))) }
    ensures quiet { order.now.named ≡ false → err.new ≡ err.old }
    ensures ends { Ends result (Used A.failures first.old first.new)
        (Used B.failures second.old second.new) (Used O.failures out.old out.new)
        (Used E.failures err.old err.new) }
{
    let judged = judge_for_circuit(alloc, order.asked, first, second)?;
    let subject = Subject::Circuit(&judged.circuit);
    answer_told(
        alloc,
        order,
        subject,
        &judged.outcome,
        &judged.firsts,
        out,
        err,
    )
}
