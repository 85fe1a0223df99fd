//! Rows whose files lie in a folder, and whose commands open them by their names.

use crate::answers::{Answer, Files};
use base::{Sink, VecSink};
use command_line::order;
use commands::{SystemFiles, run_on_files};
use invocation::Order;
use std::{fs, io};
use subcommands::Progress;

/// Puts a text where a command will look for it; what is on standard input stays there.
fn put(rt: &HostRuntime, name: &str, text: &[u8]) -> io::Result<()> {
    if name == "-" {
        return Ok(());
    }
    fs::write(rt, name, text)
}

/// What is on standard input.
pub(crate) fn input<'a>(order: &Order<'_>, files: Files<'a>) -> &'a [u8] {
    if order.first == "-" {
        return files.first;
    }
    if order.second == Some("-") {
        return files.second;
    }
    files.third
}

/// The status of a command on files that it opens by their names.
pub(crate) fn status_on_disk<'a, O: Sink, E: Sink>(
    rt: &HostRuntime,
    files: &'a SystemFiles<'a, HostRuntime>,
    order: &Order<'a>,
    input: &[u8],
    out: &mut O,
    err: &mut E,
) -> u8 {
    let progress = Progress::new(rt, Some(rt.stderr()));
    let (status, _) = run_on_files(files, rt.alloc(), order, input, out, err, &progress);
    status
}

/// What stands where the result of a command goes: in its file, or on standard output.
fn is_result(rt: &HostRuntime, order: &Order<'_>, out: &VecSink, wanted: &[u8]) -> bool {
    match order.output {
        Some(name) => match fs::read(rt, name) {
            Ok(text) => text.as_slice() == wanted,
            Err(_) => false,
        },
        None => out.bytes() == wanted,
    }
}

/// Whether a command gives an answer on files that it opens by their names.
fn gives<'a>(
    rt: &HostRuntime,
    system: &'a SystemFiles<'a, HostRuntime>,
    order: &Order<'a>,
    files: Files<'_>,
    wanted: Answer<'_>,
) -> io::Result<bool> {
    put(rt, order.first, files.first)?;
    if let Some(name) = order.second {
        put(rt, name, files.second)?;
    }
    if let Some(name) = order.third {
        put(rt, name, files.third)?;
    }
    let mut out = VecSink::new(rt.alloc());
    let mut err = VecSink::new(rt.alloc());
    let input = input(order, files);
    let status = status_on_disk(rt, system, order, input, &mut out, &mut err);
    let is_told = status == wanted.status && err.bytes() == wanted.err;
    Ok(is_told && is_result(rt, order, &out, wanted.out))
}

/// The same of a command by its words.
pub(crate) fn gives_on_disk(
    rt: &HostRuntime,
    words: &[String],
    files: Files<'_>,
    wanted: Answer<'_>,
) -> io::Result<bool> {
    let system = SystemFiles::new(rt, 1);
    match order(rt.alloc(), words) {
        Ok(order) => gives(rt, &system, &order, files, wanted),
        Err(_) => Ok(false),
    }
}
