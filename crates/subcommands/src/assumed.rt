//! What an engine form is taken for, where words do not say what it was made for.

ghost use Rattle.std.specs.Prelude.{◌++◌, IfOk, OnOk};
ghost use Rattle.std.specs.Io.KnownBytes.{Appends};
ghost use Rattle.base.specs.Device.{CountsFaults};
ghost use Rattle.subcommands.specs.Assumed.{assumed_line, assumed_said};
ghost use Rattle.subcommands.specs.Done.{IsSo, judgement_line};
ghost use Rattle.verbs.specs.Statuses.{EndsUnrefused};
ghost use Rattle.verbs.specs.Statuses.Use.{Unused, Used};
ghost use Rattle.subcommands.specs.Subjects.{bad_said, said_by_name, subject_said, where_named};

use crate::answers::Answer;
use crate::judgements::{tell_judgement, tell_line};
use base::{DeviceFault, Sink, write_all};
use itoa::Buffer;
use rises::FirstRises;
use std::alloc::Global;
use verbs::{Device, Refusal, Subject};
use witness::Judgement;

/// Tells that an engine form is taken to be of all bad properties, of which there are so many.
fn tell_assumed_line<E: Sink>(count: usize, err: &mut E) -> Result<(), DeviceFault>
    ensures written { OnOk result (Appends (E.written err.old) (E.written err.new)
        (assumed_line count)) }
    ensures counted { CountsFaults result (E.failures err.old) (E.failures err.new) }
{
    let mut buffer = Buffer::new();
    write_all(err, b"taken as made for all ")?;
    write_all(err, buffer.format(count).as_bytes())?;
    write_all(
        err,
        b" bad properties; --bad K says that it was made for one\n",
    )
}

/// Tells it where none is chosen of several.
fn tell_assumed<E: Sink>(
    choice: Option<usize>,
    count: usize,
    err: &mut E,
) -> Result<(), DeviceFault>
    ensures written { OnOk result (Appends (E.written err.old) (E.written err.new)
        (assumed_said choice count)) }
    ensures counted { CountsFaults result (E.failures err.old) (E.failures err.new) }
{
    match choice {
        Some(_) => Ok(()),
        None => {
            if count > 1 {
                tell_assumed_line(count, err)
            } else {
                Ok(())
            }
        }
    }
}

/// Tells how a witness of an engine form is judged, and what the form is taken for, on standard error.
pub(crate) fn tell_form_line<E: Sink>(
    alloc: Global,
    judgement: &Judgement,
    choice: Option<usize>,
    count: usize,
    err: &mut E,
) -> Result<Answer, Refusal>
    ensures written { OnOk result (Appends (E.written err.old) (E.written err.new)
        (judgement_line judgement.now ++ assumed_said choice count)) }
    ensures so { IfOk result (λ answer. IsSo answer judgement.now) }
    ensures ends { EndsUnrefused result Unused Unused Unused (Used E.failures err.old err.new) }
{
    let answer = tell_line(alloc, judgement, err)?;
    match tell_assumed(choice, count, err) {
        Ok(()) => Ok(answer),
        Err(_) => Err(Refusal::Failed(Device::Error)),
    }
}

/// The same, with names behind the judgement what it is about, and of an acceptance in which frames the claims are reached
/// first.
pub(crate) fn tell_form_judgement<E: Sink>(
    alloc: Global,
    named: bool,
    subject: Subject<'_>,
    judgement: &Judgement,
    firsts: &FirstRises,
    choice: Option<usize>,
    count: usize,
    err: &mut E,
) -> Result<Answer, Refusal>
    ensures written { OnOk result (Appends (E.written err.old) (E.written err.new)
        ((judgement_line judgement.now ++ where_named named
        (said_by_name (subject_said subject.entry) (bad_said subject.entry) firsts.now
        judgement.now)) ++ assumed_said choice count)) }
    ensures so { IfOk result (λ answer. IsSo answer judgement.now) }
    ensures ends { EndsUnrefused result Unused Unused Unused (Used E.failures err.old err.new) }
{
    let answer = tell_judgement(alloc, named, subject, judgement, firsts, err)?;
    match tell_assumed(choice, count, err) {
        Ok(()) => Ok(answer),
        Err(_) => Err(Refusal::Failed(Device::Error)),
    }
}
