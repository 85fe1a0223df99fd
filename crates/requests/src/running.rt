//! What words ask for, done on the files that they name.

ghost use Rattle.std.specs.Prelude.{◌⊎◌, map};
ghost use Rattle.requests.specs.Runs.{DoesList, DoesOrder, IsStopped};

use crate::lists::judge_list;
use base::Sink;
use command_line::{Terminals, request_at};
use commands::run_on_files;
use invocation::Request;
use std::alloc::Global;
use std::convert::AsStr;
use std::io::{Read, Write};
use std::time::Clock;
use subcommands::{NamedFiles, Progress, Watched, end};

/// What stands around a run of the program beside files, standard output and standard error.
#[derive(Clone, Copy)]
pub struct Surroundings<'c, I, C, W> {
    /// Which of the standard streams are terminals.
    pub terminals: Terminals,
    /// Standard input.
    pub input: I,
    /// The clock by which it is told how far work is.
    pub clock: &'c C,
    /// Where it is told, if the words do not leave it out.
    pub terminal: W,
}

/// The terminal on which it is told how far work is, where that is to be.
fn told_on<W: Write + Copy>(is_told: bool, terminal: W) -> Option<W> {
    if is_told { Some(terminal) } else { None }
}

/// Does what the words after the program's name ask for, on the files that they name, and answers the exit status.
pub fn run_on_words<
    'a,
    'c,
    S: AsStr,
    F: NamedFiles,
    I: Read + Copy + Drop,
    C: Clock,
    W: Write + Copy,
    O: Sink + Drop,
    E: Sink + Drop,
>(
    files: &'a F,
    alloc: Global,
    words: &'a [S],
    around: Surroundings<'c, I, C, W>,
    out: &mut Watched<'c, O, C, W>,
    err: &mut Watched<'c, E, C, W>,
) -> u8
    ensures { DoesOrder (F.text files.now) (I.remaining around.entry.input) (map S.text words.now)
        result (⟦<Watched<'c, O, C, W> as Sink>⟧.written out.old)
        (⟦<Watched<'c, O, C, W> as Sink>⟧.written out.new)
        (⟦<Watched<'c, E, C, W> as Sink>⟧.written err.old)
        (⟦<Watched<'c, E, C, W> as Sink>⟧.written err.new)
        ⊎ (DoesList (F.text files.now) (I.remaining around.entry.input) (map S.text words.now)
        result (⟦<Watched<'c, O, C, W> as Sink>⟧.written out.old)
        (⟦<Watched<'c, O, C, W> as Sink>⟧.written out.new)
        ⊎ IsStopped (map S.text words.now) around.entry.terminals.input
        around.entry.terminals.output result) }
{
    let Surroundings {
        terminals,
        input,
        clock,
        terminal,
    } = around;
    match request_at(alloc, words, terminals) {
        Ok(Request::One(order)) => {
            let progress = Progress::new(clock, told_on(order.tells_progress, terminal));
            out.set_progress(progress.again());
            err.set_progress(progress.again());
            let (status, _) = run_on_files(files, alloc, &order, input, out, err, &progress);
            status
        }
        Ok(Request::Many(list)) => {
            let silent = Progress::new(clock, told_on(false, terminal));
            judge_list(files, alloc, &list, input, out, err, &silent)
        }
        Err(stop) => end(&stop, out, err),
    }
}
