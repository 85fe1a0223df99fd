//! Commands on the files that they name.

ghost use Rattle.std.specs.Prelude.{◌≡◌, ◌≢◌, ◌≤◌, ◌⊎◌, ℕ, true, None, Some, IfSome};
ghost use Rattle.subcommands.specs.declared.answers.Answer.TheVariants as answer;
ghost use Rattle.subcommands.specs.Files.{text_of_name};
ghost use Rattle.commands.specs.Done.{Answers, is_quiet, name_of};
ghost use Rattle.commands.specs.Results.{HasItsName, WritesTo};
ghost use Rattle.commands.specs.Statuses.{HasFailed, IsLeftOpen, IsRefused, IsUnnamed};

use crate::outputs::run_to_file;
use base::Sink;
use invocation::{DEVICE, Order};
use std::alloc::Global;
use std::io::{Read, Write};
use std::time::Clock;
use subcommands::{
    Counted, NamedFiles, NoName, Progress, ResultName, Watched, Work, open_input, tell_no_memory,
};

/// Does a command on the files that it names and a result that may get a name, and answers the exit status, as `run_to_file`
/// does of the bytes of the files that the order names.
fn run_on_texts<
    'a,
    F: NamedFiles,
    I: Read + Copy + Drop,
    O: Sink,
    N: ResultName,
    E: Sink,
    C: Clock,
    W: Write + Copy,
>(
    files: &'a F,
    alloc: Global,
    order: &Order<'a>,
    input: I,
    out: &mut O,
    name: &mut N,
    err: &mut E,
    progress: &Progress<'_, C, W>,
) -> u8
    ensures done { result ≡ 0 → Answers order.now order.now.task answer.Done
        (text_of_name (F.text files.now) (I.remaining input) (Some order.now.first.now))
        (text_of_name (F.text files.now) (I.remaining input) (name_of order.now.second))
        (text_of_name (F.text files.now) (I.remaining input) (name_of order.now.third))
        (O.written out.old) (O.written out.new) (E.written err.old) (E.written err.new) }
    ensures not_accepted { result ≡ 1 → Answers order.now order.now.task answer.NotAccepted
        (text_of_name (F.text files.now) (I.remaining input) (Some order.now.first.now))
        (text_of_name (F.text files.now) (I.remaining input) (name_of order.now.second))
        (text_of_name (F.text files.now) (I.remaining input) (name_of order.now.third))
        (O.written out.old) (O.written out.new) (E.written err.old) (E.written err.new) }
    ensures named { result ≤ 1 → N.is_given name.new ≡ true }
    ensures unnamed { ¬ (result ≤ 1) → N.is_given name.new ≡ N.is_given name.old }
    ensures same_name { N.name name.new ≡ N.name name.old }
    ensures refused { result ≡ 2 → IsRefused order.now
        (text_of_name (F.text files.now) (I.remaining input) (Some order.now.first.now))
        (text_of_name (F.text files.now) (I.remaining input) (name_of order.now.second))
        (O.written out.old) (O.written out.new) (E.written err.old) (E.written err.new) }
    ensures left_open { result ≡ 4 → IsLeftOpen order.now
        (text_of_name (F.text files.now) (I.remaining input) (Some order.now.first.now))
        (O.written out.old) (O.written out.new) (E.written err.old) (E.written err.new) }
    // the counts of failures of the files, which begin with 0, are some
    ensures failed { result ≡ 3 → (f s t : ℕ) × (HasFailed order.now.first.now
        (name_of order.now.second) (name_of order.now.third) (name_of order.now.output)
        (E.written err.old) (E.written err.new) 0 f 0 s 0 t (O.failures out.old)
        (O.failures out.new) (E.failures err.old) (E.failures err.new)
        ⊎ IsUnnamed (Answers order.now order.now.task)
        (text_of_name (F.text files.now) (I.remaining input) (Some order.now.first.now))
        (text_of_name (F.text files.now) (I.remaining input) (name_of order.now.second))
        (text_of_name (F.text files.now) (I.remaining input) (name_of order.now.third))
        (O.written out.old) (O.written out.new) (name_of order.now.output) (E.written err.old)
        (E.written err.new) 0 f 0 s 0 t (O.failures out.old) (O.failures out.new)
        (E.failures err.old) (E.failures err.new) (N.failures name.old) (N.failures name.new)) }
    ensures unfailed { result ≢ 3 → (O.failures out.new ≡ O.failures out.old)
        × (E.failures err.new ≡ E.failures err.old) }
    ensures quiet { result ≤ 1 → is_quiet order.now.named order.now.task ≡ true
        → err.new ≡ err.old }
    ensures statuses { result ≤ 4 }
{
    let judged = Some(Work::on_second(order.task));
    let steps = Some(Work::Judged(Counted::Steps));
    let first = open_input(files, input, Some(order.first));
    let second = open_input(files, input, order.second);
    let third = open_input(files, input, order.third);
    let mut first = Watched::new(first, Some(Work::Read), progress.again());
    let mut second = Watched::new(second, judged, progress.again());
    let mut third = Watched::new(third, steps, progress.again());
    let mut watch = progress.again();
    let status = run_to_file(
        alloc,
        order,
        &mut first,
        &mut second,
        &mut third,
        out,
        name,
        err,
        &mut watch,
    );
    watch.clear();
    status
}

/// Does a command on the files that it names, and answers the exit status as `run` does, and the result with its name, where
/// it has one.
///
/// A file that is read is opened when it is first read. A result without a name goes to `out`. Else it has its name once all
/// of it is written; a command that is not done leaves what had the name as it was.
pub fn run_on_files<
    'a,
    F: NamedFiles,
    I: Read + Copy + Drop,
    O: Sink,
    E: Sink,
    C: Clock,
    W: Write + Copy,
>(
    files: &'a F,
    alloc: Global,
    order: &Order<'a>,
    input: I,
    out: &mut O,
    err: &mut E,
    progress: &Progress<'_, C, W>,
) -> (u8, Option<(F::Output, F::Name)>)
    ensures done { result.0 ≡ 0 → WritesTo (λ made. F.Output.written made.0) result.1
        (O.written out.old) (O.written out.new)
        (λ before now. Answers order.now order.now.task answer.Done
        (text_of_name (F.text files.now) (I.remaining input) (Some order.now.first.now))
        (text_of_name (F.text files.now) (I.remaining input) (name_of order.now.second))
        (text_of_name (F.text files.now) (I.remaining input) (name_of order.now.third))
        before now (E.written err.old) (E.written err.new)) }
    ensures not_accepted { result.0 ≡ 1 → WritesTo (λ made. F.Output.written made.0) result.1
        (O.written out.old) (O.written out.new)
        (λ before now. Answers order.now order.now.task answer.NotAccepted
        (text_of_name (F.text files.now) (I.remaining input) (Some order.now.first.now))
        (text_of_name (F.text files.now) (I.remaining input) (name_of order.now.second))
        (text_of_name (F.text files.now) (I.remaining input) (name_of order.now.third))
        before now (E.written err.old) (E.written err.new)) }
    // the name is given to a result that is done, and to no other
    ensures named { HasItsName (λ made. F.Name.name made.1) (λ made. F.Name.is_given made.1)
        (name_of order.now.output) result.0 result.1 }
    ensures unnamed { name_of order.now.output ≡ None → result.1 ≡ None }
    // a result with a name leaves standard output as it was
    ensures aside { IfSome (name_of order.now.output) (λ _. out.new ≡ out.old) }
    ensures refused { result.0 ≡ 2 → WritesTo (λ made. F.Output.written made.0) result.1
        (O.written out.old) (O.written out.new) (λ before now. IsRefused order.now
        (text_of_name (F.text files.now) (I.remaining input) (Some order.now.first.now))
        (text_of_name (F.text files.now) (I.remaining input) (name_of order.now.second))
        before now (E.written err.old) (E.written err.new)) }
    ensures left_open { result.0 ≡ 4 → WritesTo (λ made. F.Output.written made.0) result.1
        (O.written out.old) (O.written out.new) (λ before now. IsLeftOpen order.now
        (text_of_name (F.text files.now) (I.remaining input) (Some order.now.first.now))
        before now (E.written err.old) (E.written err.new)) }
    // the counts of failures of the files, which begin with 0, and of what the result is written to are some
    ensures failed { result.0 ≡ 3 → (f s t o o' n n' : ℕ) × (HasFailed order.now.first.now
        (name_of order.now.second) (name_of order.now.third) (name_of order.now.output)
        (E.written err.old) (E.written err.new) 0 f 0 s 0 t o o' (E.failures err.old)
        (E.failures err.new)
        ⊎ WritesTo (λ made. F.Output.written made.0) result.1 (O.written out.old)
        (O.written out.new) (λ before now. IsUnnamed (Answers order.now order.now.task)
        (text_of_name (F.text files.now) (I.remaining input) (Some order.now.first.now))
        (text_of_name (F.text files.now) (I.remaining input) (name_of order.now.second))
        (text_of_name (F.text files.now) (I.remaining input) (name_of order.now.third))
        before now (name_of order.now.output) (E.written err.old) (E.written err.new) 0 f 0 s 0 t
        o o' (E.failures err.old) (E.failures err.new) n n')) }
    // with any other status nothing failed
    ensures unfailed { result.0 ≢ 3 → (O.failures out.new ≡ O.failures out.old)
        × (E.failures err.new ≡ E.failures err.old) }
    ensures quiet { result.0 ≤ 1 → is_quiet order.now.named order.now.task ≡ true
        → err.new ≡ err.old }
    ensures statuses { result.0 ≤ 4 }
{
    let Some(name) = order.output else {
        let mut none = NoName::new();
        let status = run_on_texts(files, alloc, order, input, out, &mut none, err, progress);
        return (status, None);
    };
    match files.create(alloc, name) {
        Ok((made, mut name)) => {
            let mut out = Watched::new(made, Some(Work::Written), progress.again());
            let status = run_on_texts(
                files, alloc, order, input, &mut out, &mut name, err, progress,
            );
            (status, Some((out.into_device(), name)))
        }
        Err(_) => (tell_no_memory(err).unwrap_or(DEVICE), None),
    }
}
