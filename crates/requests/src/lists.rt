//! The judgements of a list.

ghost use Rattle.std.specs.Prelude.{◌≡◌, ◌⊎◌, [], IfOk, IfSome, None, OnOk, Some, map};
ghost use Rattle.std.specs.Io.KnownBytes.{Appends};
ghost use Rattle.invocation.specs.Files.{names_standard_input};
ghost use Rattle.commands.specs.Done.{name_of};
ghost use Rattle.requests.specs.Judged.{JudgesLine, answer_of};
ghost use Rattle.requests.specs.Lists.{AnswersLine, DoesLine, is_judgement, reads_input, telling, words};
ghost use Rattle.requests.specs.Runs.{JudgesList};
ghost use Rattle.requests.specs.Told.{answer_lines, answer_object, answer_said, line_object};
ghost use Rattle.subcommands.specs.Files.{text_of_name};

use crate::line_words::{cut_line, has_judgement, words_of};
use crate::told_lines::{
    Totals, up_to_end, write_line, write_line_object, write_lines, write_totals,
};
use base::{DeviceFault, ReadAllFault, Sink, Source, VecSink, read_all, write_all};
use command_line::order;
use commands::run_on_files;
use invocation::{
    CertificateTask, CircuitTask, DEVICE, ListOrder, ModelTask, NOT_ACCEPTED, Order,
    STANDARD_INPUT, Task, WORDS_REFUSED,
};
use std::alloc::{AllocError, Global};
use std::io::{Read, Write};
use std::time::Clock;
use subcommands::{
    NamedFiles, Progress, open_input, tell_device, tell_no_memory, tell_output, write_failed,
};

/// What is told of a line whose words are no text.
const NO_TEXT: &[u8] = b"words: not UTF-8\n";

/// What is told of a line that has no judgement.
const NO_JUDGEMENT: &[u8] =
    b"words: a line of a list has the words of check-btor, check-aig or check-proof\n";

/// What is told of a line that reads standard input.
const NO_INPUT: &[u8] = b"words: no line of a list reads standard input\n";

/// Why the judgements of a list end before all are told.
#[derive(Clone, Copy)]
enum Ended {
    /// Standard output failed.
    Output,
    /// A growth was refused.
    NoMemory,
}

impl From<DeviceFault> for Ended {
    fn from(_: DeviceFault) -> Ended {
        Ended::Output
    }
}

impl From<AllocError> for Ended {
    fn from(_: AllocError) -> Ended {
        Ended::NoMemory
    }
}

/// What a line of a list answers: the status, and what would stand on standard output and on standard error.
#[derive(Drop)]
struct Answered {
    status: u8,
    out: VecSink,
    err: VecSink,
}

impl Answered {
    /// Refused words, and why.
    fn refused(alloc: Global, why: &[u8]) -> Result<Answered, AllocError>
        ensures { IfOk result (λ answered. answer_of answered
            ≡ record { status = 4; out = []; err = why.now }) }
    {
        let mut err = VecSink::new(alloc);
        match write_all(&mut err, why) {
            Ok(()) => Ok(Answered {
                status: WORDS_REFUSED,
                out: VecSink::new(alloc),
                err,
            }),
            Err(_) => Err(AllocError),
        }
    }
}

/// Whether a command is one that a line of a list may have.
fn is_judgement(task: Task) -> bool
    ensures { result ≡ is_judgement task }
{
    matches!(
        task,
        Task::Model(ModelTask::CheckBtor | ModelTask::CheckFitted)
            | Task::Circuit(CircuitTask::CheckAig)
            | Task::Certificate(CertificateTask::CheckProof(..))
    )
}

/// Whether a name stands for standard input.
fn is_input(name: Option<&str>) -> bool
    ensures { result ≡ names_standard_input (name_of name.entry) }
{
    match name {
        Some(name) => name == STANDARD_INPUT,
        None => false,
    }
}

/// Whether a command reads standard input.
fn reads_input(order: &Order<'_>) -> bool
    ensures { result ≡ reads_input order.now }
{
    order.first == STANDARD_INPUT || (is_input(order.second) || is_input(order.third))
}

/// A command that tells objects where it does or a list is to, and goes to standard output.
fn telling<'a>(order: Order<'a>, as_json: bool) -> Order<'a>
    ensures { result ≡ telling as_json order.entry }
{
    Order {
        as_json: order.as_json || as_json,
        output: None,
        ..order
    }
}

/// What a command answers on the files that it names, without standard input.
fn run_line<'a, F: NamedFiles, C: Clock, W: Write + Copy>(
    files: &'a F,
    alloc: Global,
    order: &Order<'a>,
    progress: &Progress<'_, C, W>,
) -> Answered
    requires { name_of order.now.output ≡ None }
    ensures { DoesLine (F.text files.now) order.now (answer_of result) }
{
    let mut out = VecSink::new(alloc);
    let mut err = VecSink::new(alloc);
    let nothing: &[u8] = b"";
    let (status, _) = run_on_files(files, alloc, order, nothing, &mut out, &mut err, progress);
    Answered { status, out, err }
}

/// What the words of a line answer.
fn answer<'a, F: NamedFiles, C: Clock, W: Write + Copy>(
    files: &'a F,
    alloc: Global,
    as_json: bool,
    words: &'a [&'a str],
    progress: &Progress<'_, C, W>,
) -> Result<Answered, AllocError>
    ensures { IfOk result (λ answered. AnswersLine (F.text files.now) as_json
        (map (λ word. word.now) words.now) (answer_of answered)) }
{
    let order = match order(alloc, words) {
        Ok(order) => order,
        Err(stop) if stop.status == DEVICE => return Err(AllocError),
        Err(stop) => return Answered::refused(alloc, stop.text.as_bytes()),
    };
    if !is_judgement(order.task) {
        return Answered::refused(alloc, NO_JUDGEMENT);
    }
    if reads_input(&order) {
        return Answered::refused(alloc, NO_INPUT);
    }
    Ok(run_line(files, alloc, &telling(order, as_json), progress))
}

/// Writes what a line answers as an object.
fn write_object<O: Sink>(
    alloc: Global,
    number: u64,
    answered: &Answered,
    out: &mut O,
) -> Result<(), Ended>
    ensures { OnOk result (Appends (O.written out.old) (O.written out.new)
        (line_object number answered.now.status (answer_object (answer_of answered.now)))) }
{
    let status = answered.status;
    if status == DEVICE || answered.out.bytes().is_empty() {
        let mut object = VecSink::new(alloc);
        if write_failed(up_to_end(answered.err.bytes()), &mut object).is_err() {
            return Err(Ended::NoMemory);
        }
        return Ok(write_line_object(number, status, object.bytes(), out)?);
    }
    Ok(write_line_object(number, status, answered.out.bytes(), out)?)
}

/// Writes what a line answers in lines.
fn write_told<O: Sink>(number: u64, answered: &Answered, out: &mut O) -> Result<(), DeviceFault>
    ensures { OnOk result (Appends (O.written out.old) (O.written out.new)
        (answer_lines number (answer_of answered.now))) }
{
    let told = answered.err.bytes();
    if answered.status > NOT_ACCEPTED {
        return write_line(number, up_to_end(told), out);
    }
    write_lines(number, answered.out.bytes(), out)?;
    write_lines(number, told, out)
}

/// Tells what a line answers.
fn tell_answer<O: Sink>(
    alloc: Global,
    as_json: bool,
    number: u64,
    answered: &Answered,
    out: &mut O,
) -> Result<(), Ended>
    ensures { OnOk result (Appends (O.written out.old) (O.written out.new)
        (answer_said as_json number (answer_of answered.now))) }
{
    if as_json {
        write_object(alloc, number, answered, out)
    } else {
        Ok(write_told(number, answered, out)?)
    }
}

/// Makes the judgement of a line that has one.
fn judge_words<F: NamedFiles, C: Clock, W: Write + Copy>(
    files: &F,
    alloc: Global,
    as_json: bool,
    line: &[u8],
    progress: &Progress<'_, C, W>,
) -> Result<Answered, AllocError>
    ensures { IfOk result (λ answered. AnswersLine (F.text files.now) as_json (words line.now)
        (answer_of answered)) }
{
    match words_of(alloc, line)? {
        Some(texts) => answer(files, alloc, as_json, texts.as_slice(), progress),
        None => Answered::refused(alloc, NO_TEXT),
    }
}

/// Makes the judgement of a line, where it has one, tells it and counts it.
fn judge_line<F: NamedFiles, O: Sink, C: Clock, W: Write + Copy>(
    files: &F,
    alloc: Global,
    as_json: bool,
    number: u64,
    line: &[u8],
    totals: &mut Totals,
    out: &mut O,
    progress: &Progress<'_, C, W>,
) -> Result<(), Ended>
    ensures { OnOk result (JudgesLine (F.text files.now) as_json number line.now totals.old
        totals.new (O.written out.old) (O.written out.new)) }
{
    if !has_judgement(line) {
        return Ok(());
    }
    let answered = judge_words(files, alloc, as_json, line, progress)?;
    tell_answer(alloc, as_json, number, &answered, out)?;
    totals.add(answered.status);
    Ok(())
}

/// Makes the judgements of the lines of a list, and tells each, and last how many there are.
fn judge_lines<F: NamedFiles, O: Sink, C: Clock, W: Write + Copy>(
    files: &F,
    alloc: Global,
    as_json: bool,
    text: &[u8],
    out: &mut O,
    progress: &Progress<'_, C, W>,
) -> Result<u8, Ended>
    ensures { IfOk result (λ status. JudgesList (F.text files.now) as_json text.now status
        (O.written out.old) (O.written out.new)) }
{
    let mut totals = Totals::new();
    let mut number: u64 = 1;
    let mut rest = text;
    while let Some((line, behind)) = cut_line(rest) {
        judge_line(
            files,
            alloc,
            as_json,
            number,
            line,
            &mut totals,
            out,
            progress,
        )?;
        number += 1;
        rest = behind;
    }
    write_totals(as_json, &totals, out)?;
    Ok(totals.status)
}

/// Makes the judgements of a list, one behind the other, and answers the worst of their statuses; or 3 where the list can't be
/// read, standard output failed or memory was wanting.
pub(crate) fn judge_list<
    'a,
    F: NamedFiles,
    I: Read + Copy + Drop,
    O: Sink,
    E: Sink,
    C: Clock,
    W: Write + Copy,
>(
    files: &'a F,
    alloc: Global,
    list: &ListOrder<'a>,
    input: I,
    out: &mut O,
    err: &mut E,
    progress: &Progress<'_, C, W>,
) -> u8
    ensures judged { (result ≡ 3) ⊎ IfSome
        (text_of_name (F.text files.now) (I.remaining input) (Some list.now.list.now))
        (λ text. JudgesList (F.text files.now) list.now.as_json text result (O.written out.old)
        (O.written out.new)) }
{
    let mut source = open_input(files, input, Some(list.list));
    let told = match read_all(alloc, &mut source) {
        Ok(text) => match judge_lines(files, alloc, list.as_json, text.as_slice(), out, progress) {
            Ok(status) => return status,
            Err(Ended::Output) => tell_output(None, out.reason(), err),
            Err(Ended::NoMemory) => tell_no_memory(err),
        },
        Err(ReadAllFault::Device) => tell_device(list.list, source.reason(), err),
        Err(ReadAllFault::NoMemory) => tell_no_memory(err),
    };
    told.unwrap_or(DEVICE)
}
