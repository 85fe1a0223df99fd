//! What commands answer on files that are given whole, in pieces and by devices that fail.

use base::{Chop, FailAt, Sink, Source, VecSink};
use blast::Unwatched;
use commands::run;
use invocation::Order;
use std::alloc::{AllocError, Global};
use subcommands::{NoFile, Stream};

/// The status of a command, and what it writes to standard output and to standard error.
#[derive(Clone, Copy)]
pub(crate) struct Answer<'a> {
    /// The status.
    pub(crate) status: u8,
    /// What stands on standard output, or would if no device failed, which is then of status 3.
    pub(crate) out: &'a [u8],
    /// What stands on standard error.
    pub(crate) err: &'a [u8],
}

/// Three files that are there; the second is empty where the command reads one, and the third where it reads two.
#[derive(Clone, Copy)]
pub(crate) struct Files<'a> {
    /// The first.
    pub(crate) first: &'a [u8],
    /// The second.
    pub(crate) second: &'a [u8],
    /// The third.
    pub(crate) third: &'a [u8],
}

/// The status of a command on three files. Nothing is said of it: `run` has a dozen clauses, which the prover writes out
/// wherever it is called, so that it is called here alone.
pub(crate) fn status_on<A: Source, B: Source, T: Source, O: Sink, E: Sink>(
    alloc: Global,
    order: &Order<'_>,
    first: &mut A,
    second: &mut B,
    third: &mut T,
    out: &mut O,
    err: &mut E,
) -> u8 {
    run(alloc, order, first, second, third, out, err, &mut Unwatched)
}

/// Whether a command gives an answer; where a device fails, a beginning of what would stand on standard output is enough.
pub(crate) fn gives<A: Source, B: Source, T: Source>(
    alloc: Global,
    order: &Order<'_>,
    first: &mut A,
    second: &mut B,
    third: &mut T,
    wanted: Answer<'_>,
) -> bool {
    let mut out = VecSink::new(alloc);
    let mut err = VecSink::new(alloc);
    let status = status_on(alloc, order, first, second, third, &mut out, &mut err);
    let is_written = if status == 3 {
        wanted.out.starts_with(out.bytes())
    } else {
        wanted.out == out.bytes()
    };
    is_written && status == wanted.status && err.bytes() == wanted.err
}

/// A file that may not be there.
fn input(file: Option<&[u8]>) -> Stream<&[u8], &[u8]> {
    match file {
        Some(file) => Stream::File(file),
        None => Stream::Missing(NoFile::new(None)),
    }
}

/// Whether a command gives an answer on three files that may not be there.
pub(crate) fn gives_on(
    alloc: Global,
    order: &Order<'_>,
    first: Option<&[u8]>,
    second: Option<&[u8]>,
    third: Option<&[u8]>,
    wanted: Answer<'_>,
) -> bool {
    let mut first = input(first);
    let mut second = input(second);
    let mut third = input(third);
    gives(alloc, order, &mut first, &mut second, &mut third, wanted)
}

/// Whether a command gives an answer on files that come in pieces of each length.
pub(crate) fn gives_by_pieces(
    alloc: Global,
    order: &Order<'_>,
    files: Files<'_>,
    wanted: Answer<'_>,
) -> bool {
    let longest = files.first.len().max(files.second.len());
    for less in 0..longest.max(files.third.len()) {
        let mut first = Chop::new(files.first, less + 1);
        let mut second = Chop::new(files.second, less + 1);
        let mut third = Chop::new(files.third, less + 1);
        if !gives(alloc, order, &mut first, &mut second, &mut third, wanted) {
            return false;
        }
    }
    true
}

/// How many bytes a device that fails at one call hands on at each other call.
const FEW: usize = 3;

/// How many calls hand on a text, without the one that finds its end.
fn calls(text: &[u8]) -> u64 {
    text.len().div_ceil(FEW) as u64
}

/// How many calls read a file to its end.
fn reads(file: &[u8]) -> u64 {
    calls(file).saturating_add(1)
}

/// A file that comes in small pieces, of which one call fails.
fn failing(text: &[u8], call: u64) -> FailAt<Chop<&[u8]>> {
    FailAt::new(Chop::new(text, FEW), call)
}

/// Whether a command tells each call of its first file that fails, and has written nothing.
pub(crate) fn tells_failing_first(
    alloc: Global,
    order: &Order<'_>,
    files: Files<'_>,
) -> Result<bool, AllocError> {
    let file = order.first;
    let line = format!(in alloc; "{file}: device\n")?;
    let wanted = Answer {
        status: 3,
        out: b"",
        err: line.as_bytes(),
    };
    for call in 0..reads(files.first) {
        let mut first = failing(files.first, call);
        let (mut second, mut third) = (files.second, files.third);
        if !gives(alloc, order, &mut first, &mut second, &mut third, wanted) {
            return Ok(false);
        }
    }
    Ok(true)
}

/// Whether a command tells each call of its second file that fails, and has written a beginning of a text.
pub(crate) fn tells_failing_second(
    alloc: Global,
    order: &Order<'_>,
    files: Files<'_>,
    out: &[u8],
) -> Result<bool, AllocError> {
    let file = order.second.unwrap_or("");
    let line = format!(in alloc; "{file}: device\n")?;
    let wanted = Answer {
        status: 3,
        out,
        err: line.as_bytes(),
    };
    for call in 0..reads(files.second) {
        let (mut first, mut third) = (files.first, files.third);
        let mut second = failing(files.second, call);
        if !gives(alloc, order, &mut first, &mut second, &mut third, wanted) {
            return Ok(false);
        }
    }
    Ok(true)
}

/// Whether a command tells each call of its third file that fails, and has written a beginning of a text.
pub(crate) fn tells_failing_third(
    alloc: Global,
    order: &Order<'_>,
    files: Files<'_>,
    out: &[u8],
) -> Result<bool, AllocError> {
    let file = order.third.unwrap_or("");
    let line = format!(in alloc; "{file}: device\n")?;
    let wanted = Answer {
        status: 3,
        out,
        err: line.as_bytes(),
    };
    for call in 0..reads(files.third) {
        let (mut first, mut second) = (files.first, files.second);
        let mut third = failing(files.third, call);
        if !gives(alloc, order, &mut first, &mut second, &mut third, wanted) {
            return Ok(false);
        }
    }
    Ok(true)
}

/// Whether a command tells by this line that a call of its output fails, and has written a beginning of a text.
fn tells_failing_write(
    alloc: Global,
    order: &Order<'_>,
    files: Files<'_>,
    text: &[u8],
    line: &[u8],
    call: u64,
) -> bool {
    let (mut first, mut second, mut third) = (files.first, files.second, files.third);
    let mut out = FailAt::new(Chop::new(VecSink::new(alloc), FEW), call);
    let mut err = VecSink::new(alloc);
    let status = status_on(
        alloc,
        order,
        &mut first,
        &mut second,
        &mut third,
        &mut out,
        &mut err,
    );
    status == 3 && err.bytes() == line && text.starts_with(out.inner().inner().bytes())
}

/// Whether a command tells each call of its output that fails, by the name of the file that it was to go to, if it has one.
pub(crate) fn tells_failing_writes(
    alloc: Global,
    order: &Order<'_>,
    files: Files<'_>,
    text: &[u8],
) -> Result<bool, AllocError> {
    let name = order.output.unwrap_or("output");
    let line = format!(in alloc; "{name}: device\n")?;
    for call in 0..calls(text) {
        if !tells_failing_write(alloc, order, files, text, line.as_bytes(), call) {
            return Ok(false);
        }
    }
    Ok(true)
}

/// The status of a command where standard error fails.
pub(crate) fn status_untold(alloc: Global, order: &Order<'_>, files: Files<'_>) -> u8 {
    let (mut first, mut second, mut third) = (files.first, files.second, files.third);
    let mut out = VecSink::new(alloc);
    let mut err = FailAt::new(VecSink::new(alloc), 0);
    status_on(
        alloc,
        order,
        &mut first,
        &mut second,
        &mut third,
        &mut out,
        &mut err,
    )
}
