//! Standard input in place of each file of each command.

use command_line::{CommandFiles, command_at, request};
use invocation::{Request, STANDARD_INPUT};
use std::alloc::{AllocError, Global};

/// The names of the files of a command.
const NAMES: [&str; 3] = ["first", "second", "third"];

/// The file of a command at a place, with `-` at two.
fn name_at(place: usize, one: usize, other: usize) -> Option<&'static str> {
    if place == one || place == other {
        return Some(STANDARD_INPUT);
    }
    NAMES.get(place).copied()
}

/// The same, where the command has so many files.
fn name_of(files: usize, place: usize, one: usize, other: usize) -> Option<&'static str> {
    if place < files {
        name_at(place, one, other)
    } else {
        None
    }
}

/// Whether these are the files that are read.
fn is_read(request: &Request<'_>, first: &str, second: Option<&str>, third: Option<&str>) -> bool {
    match request {
        Request::One(order) => order.first == first
            && order.second == second
            && order.third == third,
        Request::Many(list) => list.list == first && second.is_none() && third.is_none(),
    }
}

/// Whether a command with `-` at two places, from 0, is what is owed: where both are places of files, and two of them, refused
/// words, and else what reads these files.
fn is_right(
    alloc: Global,
    command: CommandFiles,
    one: usize,
    other: usize,
) -> Result<bool, AllocError> {
    let CommandFiles { word, files } = command;
    let mut words = vec![in alloc; word]?;
    for place in 0..files {
        match name_at(place, one, other) {
            Some(name) => words.push(name)?,
            None => return Ok(false),
        }
    }
    let is_twice = one != other && one < files && other < files;
    match request(alloc, words.as_slice()) {
        Ok(request) => Ok(
            !is_twice
                && is_read(
                    &request,
                    name_of(files, 0, one, other).unwrap_or(""),
                    name_of(files, 1, one, other),
                    name_of(files, 2, one, other),
                ),
        ),
        Err(stop) => Ok(is_twice && stop.status == 4),
    }
}

/// Whether a command is right with `-` in place of each of its files, of each two, and of none.
fn is_right_everywhere(alloc: Global, command: CommandFiles) -> Result<bool, AllocError> {
    for one in 0..NAMES.len() + 1 {
        for other in 0..NAMES.len() + 1 {
            if !is_right(alloc, command, one, other)? {
                return Ok(false);
            }
        }
    }
    Ok(true)
}

/// The first command of the table of commands that does not take `-` for each of its files, refuse it for two, or read the
/// files that are named; none where all do.
pub(crate) fn command_without_standard_input(
    alloc: Global,
) -> Result<Option<&'static str>, AllocError> {
    for place in 0..usize::MAX {
        match command_at(place) {
            Some(command) if !is_right_everywhere(alloc, command)? => {
                return Ok(Some(command.word));
            }
            Some(_) => {}
            None => break,
        }
    }
    Ok(None)
}
