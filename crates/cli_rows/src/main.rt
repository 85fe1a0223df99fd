//! Tries rows of commands, each by the calls that the program makes.
//!
//! Standard input has the rows. A row is a block of lines, with an empty line before the next one:
//!
//! ```text
//! # what the row is about
//! $ check-btor model witness       the words of the command line; `$` alone is none
//! 1|1 sort bitvec 1                a line of the first file
//! 1|2 input 1
//! 1|3 bad 2
//! 2|sat                            a line of the second file
//! 2/b0                             the same, without a line end
//! 3|-1 0                           a line of the third file
//! = 1                              the status
//! o|malformed line 2: 118 ..       a line on standard output
//! e|..                             a line on standard error
//! ```
//!
//! `1^` stands for the first file of the row before. In words and texts `\\` is a backslash and `\x82` a byte by its number. A
//! file without a line is not there; `1/` is an empty one. Where words ask for no command, what is written is only to have
//! the texts of the row as a part.
//!
//! Each command is tried on its files as they stand, on files of their names that it opens, in pieces of each length, and with
//! a failing device at each call: of a file that is read, of standard output, and of standard error. `~ model`, `~ circuit 4` and `~ witness` try the
//! first or the second file also cut after each byte (`Cut` says what is to come of it).
//!
//! Each row that is not as it should be, and each that cannot be read, is told by the number of its first line; then a
//! line tells how many rows there are, and how many of them are as they should be.
//!
//! Behind them comes what no row says: what commands hold while a long text streams past, want of memory in place of a
//! command, `-` in place of each file of each command, a model that is too big for a row, how far long work is told to be, and what becomes of files that results go to
//! or that can't be opened. The last line tells whether all of that is as it should be, or what is not.
#![tactic(auto)]

mod answers;
mod blocks;
mod command_lines;
mod cuts;
mod escapes;
mod held;
mod named_texts;
mod on_disk;
mod progress;
mod results;
mod standard_input;
mod stops;
mod too_big;

use answers::{
    Answer, Files, gives_by_pieces, gives_on, status_untold, tells_failing_first,
    tells_failing_second, tells_failing_third, tells_failing_writes,
};
use base::{FromReader, next_line, read_all};
use blocks::Row;
use command_line::{given_words, order};
use command_lines::CommandLine;
use cuts::tells_cuts;
use held::fault_of_held;
use invocation::{Order, Stop};
use named_texts::gives_on_names;
use on_disk::gives_on_disk;
use progress::fault_of_progress;
use results::fault_of_results;
use standard_input::command_without_standard_input;
use std::alloc::{AllocError, Global};
use std::io;
use too_big::are_told_too_big;

/// What is not as it should be, of a row; nothing where all is.
type Fault = Option<&'static str>;

/// How many rows there are, and how many of them are as they should be.
#[derive(Clone, Copy)]
struct Count {
    rows: u64,
    right: u64,
}

/// Tries the rows on standard input.
fn main(rt: HostRuntime) -> io::Result<()> {
    let mut input = FromReader::new(rt.stdin());
    match read_all(rt.alloc(), &mut input) {
        Ok(text) => try_rows(&rt, text.as_slice())?,
        Err(fault) => println!(rt; "{fault}")?,
    }
    match fault_beside_rows(&rt)? {
        None => println!(rt; "what no row says is as it should be"),
        Some(fault) => println!(rt; "not as it should be: {fault}"),
    }
}

/// What is not as it should be of what no row says.
fn fault_beside_rows(rt: &HostRuntime) -> io::Result<Fault> {
    if let Some(fault) = fault_of_held(rt.alloc(), rt)? {
        return Ok(Some(fault));
    }
    if let Some(fault) = fault_beside_streams(rt.alloc())? {
        return Ok(Some(fault));
    }
    fault_of_results(rt)
}

/// The same without what commands hold, behind which the system may leave memory with the process that was given back, and
/// without files.
fn fault_beside_streams(alloc: Global) -> Result<Fault, AllocError> {
    if !stops::tells_no_memory(alloc) {
        return Ok(Some("want of memory in place of a command"));
    }
    if let Some(word) = command_without_standard_input(alloc)? {
        return Ok(Some(word));
    }
    if !are_told_too_big(alloc)? {
        return Ok(Some("a model that is too big"));
    }
    fault_of_progress(alloc)
}

/// Tries the rows of a text.
fn try_rows(rt: &HostRuntime, text: &[u8]) -> io::Result<()> {
    let mut row = Row::new(rt.alloc());
    let mut count = Count { rows: 0, right: 0 };
    let mut begun = 1;
    let mut rest = text;
    for lines in 0..text.len() {
        let (line, after) = match next_line(rest) {
            Some(parts) => parts,
            None => break,
        };
        if line.is_empty() {
            count = try_row(rt, &row, begun, count)?;
            row.clear();
            begun = lines.saturating_add(2);
        } else {
            row.read(line)?;
        }
        rest = after;
    }
    if !rest.is_empty() {
        row.read(b"unfinished")?;
    }
    let Count { rows, right } = try_row(rt, &row, begun, count)?;
    println!(rt; "{rows} rows, {right} as they should be")
}

/// Tries a row, where one has begun, tells what is not as it should be, and counts it.
fn try_row(rt: &HostRuntime, row: &Row, begun: usize, count: Count) -> io::Result<Count> {
    if !row.has_begun() {
        return Ok(count);
    }
    let rows = count.rows.saturating_add(1);
    match fault_of(rt, row)? {
        None => Ok(Count {
            rows,
            right: count.right.saturating_add(1),
        }),
        Some(fault) => {
            println!(rt; "row at line {begun}: {fault}")?;
            Ok(Count { rows, ..count })
        }
    }
}

/// What of a row is not as it should be.
fn fault_of(rt: &HostRuntime, row: &Row) -> io::Result<Fault> {
    let alloc = rt.alloc();
    let status = match row.status() {
        Some(status) => status,
        None => return Ok(Some("cannot be read")),
    };
    let wanted = Answer {
        status,
        out: row.out.as_slice(),
        err: row.err.as_slice(),
    };
    let words = row.words.as_slice();
    match given_words(&(CommandLine { words }, alloc)) {
        Ok(words) => fault_of_words(rt, words.as_slice(), row, wanted),
        Err(stop) => Ok(fault_of_stop(alloc, &stop, wanted)),
    }
}

/// What of a row with such words is not as it should be.
fn fault_of_words(
    rt: &HostRuntime,
    words: &[String],
    row: &Row,
    wanted: Answer<'_>,
) -> io::Result<Fault> {
    match order(rt.alloc(), words) {
        Ok(order) => fault_of_order(rt, words, &order, row, wanted),
        Err(stop) => Ok(fault_of_stop(rt.alloc(), &stop, wanted)),
    }
}

/// What is not as it should be where something stands in place of a command.
fn fault_of_stop(alloc: Global, stop: &Stop, wanted: Answer<'_>) -> Fault {
    if !stops::tells_parts(alloc, stop, wanted) {
        return Some("what is told in place of a command");
    }
    if !stops::tells_failing_writes(alloc, stop) {
        return Some("a device that fails in place of a command");
    }
    None
}

/// A file of a row; an empty one where the command has none, and none where it is not there.
fn file<'a>(name: Option<&str>, text: Option<&'a [u8]>) -> Option<&'a [u8]> {
    match text {
        None if name.is_none() => Some(b"".as_slice()),
        text => text,
    }
}

/// The files of a row, where all that the command has are there.
fn files<'a>(order: &Order<'_>, row: &'a Row) -> Option<Files<'a>> {
    Some(Files {
        first: row.first()?,
        second: file(order.second, row.second())?,
        third: file(order.third, row.third())?,
    })
}

/// What of a row with a command is not as it should be.
fn fault_of_order(
    rt: &HostRuntime,
    words: &[String],
    order: &Order<'_>,
    row: &Row,
    wanted: Answer<'_>,
) -> io::Result<Fault> {
    let alloc = rt.alloc();
    if !gives_on(alloc, order, row.first(), row.second(), row.third(), wanted) {
        return Ok(Some("the answer"));
    }
    match files(order, row) {
        Some(files) if !gives_on_disk(rt, words, files, wanted)? => {
            Ok(Some("the answer on files that are opened"))
        }
        Some(files) if !gives_on_names(rt, words, files, wanted) => {
            Ok(Some("the answer on texts of names"))
        }
        Some(files) => Ok(fault_of_devices(alloc, order, files, row, wanted)?),
        None => Ok(None),
    }
}

/// What of a row is not as it should be where its files come in pieces, devices fail or a file is cut.
fn fault_of_devices(
    alloc: Global,
    order: &Order<'_>,
    files: Files<'_>,
    row: &Row,
    wanted: Answer<'_>,
) -> Result<Fault, AllocError> {
    if !gives_by_pieces(alloc, order, files, wanted) {
        return Ok(Some("files in pieces"));
    }
    if !tells_failing_first(alloc, order, files)? {
        return Ok(Some("a first file that fails"));
    }
    let reads_second = order.second.is_some() && wanted.status < 2;
    if reads_second && !tells_failing_second(alloc, order, files, wanted.out)? {
        return Ok(Some("a second file that fails"));
    }
    let reads_third = order.third.is_some() && wanted.status < 2;
    if reads_third && !tells_failing_third(alloc, order, files, wanted.out)? {
        return Ok(Some("a third file that fails"));
    }
    if !tells_failing_writes(alloc, order, files, wanted.out)? {
        return Ok(Some("standard output that fails"));
    }
    if !wanted.err.is_empty() && status_untold(alloc, order, files) != 3 {
        return Ok(Some("standard error that fails"));
    }
    match row.cut {
        Some(cut) if !tells_cuts(alloc, order, files, cut)? => Ok(Some("a file that is cut")),
        _ => Ok(None),
    }
}
