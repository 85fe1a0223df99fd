//! Files that are cut after any byte.

use crate::answers::{Answer, Files, gives, status_on};
use crate::blocks::Cut;
use base::VecSink;
use invocation::Order;
use std::alloc::{AllocError, Global};
use subcommands::NoFile;

/// The beginning of a text: its bytes, how many of its lines are whole, and where the line behind these begins.
#[derive(Clone, Copy)]
struct Front<'a> {
    bytes: &'a [u8],
    lines: usize,
    place: usize,
}

/// The beginning of so many bytes.
fn front_of(text: &[u8], count: usize) -> Front<'_> {
    let (bytes, _) = text.split_at(count.min(text.len()));
    let mut lines: usize = 0;
    let mut place = 0;
    for (number, byte) in bytes.iter().enumerate() {
        if *byte == b'\n' {
            lines = lines.saturating_add(1);
            place = number.saturating_add(1);
        }
    }
    Front {
        bytes,
        lines,
        place,
    }
}

/// Whether a command shows the beginning of a model, and then some line.
fn shows(alloc: Global, order: &Order<'_>, front: Front<'_>) -> bool {
    let mut first = front.bytes;
    let mut second = NoFile::new(None);
    let mut out = VecSink::new(alloc);
    let mut err = VecSink::new(alloc);
    let status = status_on(
        alloc,
        order,
        &mut first,
        &mut second,
        &mut NoFile::new(None),
        &mut out,
        &mut err,
    );
    status == 0 && out.bytes().starts_with(front.bytes)
}

/// Whether a command tells a line on standard error, with status 2.
fn refuses(alloc: Global, order: &Order<'_>, mut first: &[u8], line: &str) -> bool {
    let wanted = Answer {
        status: 2,
        out: b"",
        err: line.as_bytes(),
    };
    gives(
        alloc,
        order,
        &mut first,
        &mut NoFile::new(None),
        &mut NoFile::new(None),
        wanted,
    )
}

/// Whether the beginning of a model is shown between two lines, and elsewhere told as unfinished.
fn tells_cut_model(alloc: Global, order: &Order<'_>, front: Front<'_>) -> Result<bool, AllocError> {
    if front.place == front.bytes.len() {
        return Ok(shows(alloc, order, front));
    }
    let file = order.first;
    let number = front.lines.saturating_add(1);
    let line = format!(in alloc; "{file}: line {number}: 28 Unfinished\n")?;
    Ok(refuses(alloc, order, front.bytes, line.as_str()))
}

/// Whether the beginning of a circuit is written again between two lines from so many on, and elsewhere told as cut.
fn tells_cut_circuit(
    alloc: Global,
    order: &Order<'_>,
    front: Front<'_>,
    lines: usize,
) -> Result<bool, AllocError> {
    if front.place == front.bytes.len() && front.lines >= lines {
        let mut first = front.bytes;
        let wanted = Answer {
            status: 0,
            out: front.bytes,
            err: b"",
        };
        return Ok(gives(
            alloc,
            order,
            &mut first,
            &mut NoFile::new(None),
            &mut NoFile::new(None),
            wanted,
        ));
    }
    let file = order.first;
    let place = front.place;
    let line = format!(in alloc; "{file}: byte {place}: 58 Truncated\n")?;
    Ok(refuses(alloc, order, front.bytes, line.as_str()))
}

/// Whether the beginning of a witness is told as cut.
fn tells_cut_witness(
    alloc: Global,
    order: &Order<'_>,
    mut first: &[u8],
    front: Front<'_>,
) -> Result<bool, AllocError> {
    let number = front.lines.saturating_add(1);
    let line = format!(in alloc; "malformed line {number}: 118 Truncated\n")?;
    let wanted = Answer {
        status: 1,
        out: line.as_bytes(),
        err: b"",
    };
    let mut second = front.bytes;
    Ok(gives(
        alloc,
        order,
        &mut first,
        &mut second,
        &mut NoFile::new(None),
        wanted,
    ))
}

/// Whether a command tells where a file is cut, after each of its bytes but the last.
pub(crate) fn tells_cuts(
    alloc: Global,
    order: &Order<'_>,
    files: Files<'_>,
    cut: Cut,
) -> Result<bool, AllocError> {
    let text = match cut {
        Cut::Witness => files.second,
        _ => files.first,
    };
    for count in 0..text.len() {
        let front = front_of(text, count);
        let is_told = match cut {
            Cut::Model => tells_cut_model(alloc, order, front)?,
            Cut::Circuit(lines) => tells_cut_circuit(alloc, order, front, lines)?,
            Cut::Witness => tells_cut_witness(alloc, order, files.first, front)?,
        };
        if !is_told {
            return Ok(false);
        }
    }
    Ok(true)
}
