//! How far long work is told to be, by a clock that goes on at each look and on a terminal that keeps what it is sent.
ghost use Rattle.std.specs.Prelude.{◌≤◌};

use crate::Fault;
use base::{Source, VecSink, write_all};
use blast::Watch;
use std::alloc::{AllocError, Global};
use std::cell::Cell;
use std::io::{self, Write};
use std::time::{Clock, Duration};
use subcommands::{Counted, Progress, Watched, Work};

/// A clock that begins with 0 and goes on by so many milliseconds at each look.
#[derive(Drop)]
struct Steps {
    now: Cell<u64>,
    step: u64,
}

impl Steps {
    fn by(step: u64) -> Steps {
        Steps {
            now: Cell::new(0),
            step,
        }
    }
}

impl Clock for Steps {
    fn monotonic(&self) -> io::Result<Duration> {
        let now = self.now.get();
        self.now.set(now.saturating_add(self.step));
        Ok(Duration::from_millis(now))
    }

    fn since_1970(&self) -> io::Result<Duration> {
        self.monotonic()
    }
}

/// A terminal that keeps what it is sent.
#[derive(Clone, Copy)]
struct Terminal<'a> {
    kept: &'a Cell<Option<Vec<u8>>>,
}

impl Write for Terminal<'_> {
    fn write(&mut self, bytes: &[u8]) -> io::Result<usize> {
        let mut kept = self.kept.replace(None);
        if let Some(text) = &mut kept {
            let _ = text.extend_from_slice(bytes);
        }
        self.kept.set(kept);
        Ok(bytes.len())
    }

    fn flush(&mut self) -> io::Result<()> {
        Ok(())
    }
}

/// What a terminal shows while a text is read in pieces of so many bytes, by a clock of so many milliseconds a look.
fn shown(
    alloc: Global,
    text: &[u8],
    size: usize,
    work: Work,
    step: u64,
) -> Result<Option<Vec<u8>>, AllocError> {
    let clock = Steps::by(step);
    let kept = Cell::new(Some(Vec::new(alloc)));
    let progress = Progress::new(&clock, Some(Terminal { kept: &kept }));
    let mut source = Watched::new(text, Some(work), progress);
    let mut buffer = vec![in alloc; 0u8; size]?;
    // more calls than a text here has pieces
    for _ in 0..40 {
        if source.read(buffer.as_mut_slice()).is_err() {
            break;
        }
    }
    Ok(kept.replace(None))
}

/// Whether a terminal shows these lines, each in place of the one before.
fn shows(kept: &Option<Vec<u8>>, lines: &[&str]) -> bool {
    let mut rest = match kept {
        Some(text) => text.as_slice(),
        None => return false,
    };
    for line in lines {
        let Some(behind) = rest.strip_prefix(BLANKS) else {
            return false;
        };
        match behind.strip_prefix(line.as_bytes()) {
            Some(behind) => rest = behind,
            None => return false,
        }
    }
    rest.is_empty()
}

/// What is sent to a terminal to hide a line: blanks over it, and the way back to its begin.
const BLANKS: &[u8] = b"\r                                        \r";

/// A megabyte.
const MEGABYTE: usize = 1_000_000;

/// Whether a terminal shows these lines while so many megabytes are read, one a look.
fn is_shown(
    alloc: Global,
    megabytes: usize,
    work: Work,
    step: u64,
    lines: &[&str],
) -> Result<bool, AllocError>
    requires { megabytes ≤ 28 }
{
    let text = vec![in alloc; 7u8; megabytes * MEGABYTE]?;
    let kept = shown(alloc, &text, MEGABYTE, work, step)?;
    Ok(shows(&kept, lines))
}

/// Whether bytes are told from two seconds on.
fn is_told_late(alloc: Global) -> Result<bool, AllocError> {
    let three = ["read 3 MB", "read 4 MB", "read 5 MB"];
    // looks at 0.9, 1.8, 2.7, 3.6, 4.5 seconds
    let are_read = is_shown(alloc, 5, Work::Read, 900, &three)?;
    // looks at 0.41, 0.82, .. 2.05: the last alone is past two seconds
    let are_written = is_shown(alloc, 5, Work::Written, 410, &["written 5 MB"])?;
    let are_early = is_shown(alloc, 5, Work::Read, 400, &[])?;
    Ok(are_read && are_written && are_early)
}

/// Whether a line stands for a quarter of a second.
fn does_stand(alloc: Global) -> Result<bool, AllocError> {
    let three = ["read 21 MB", "read 24 MB", "read 27 MB"];
    // looks at 0.1, 0.2, .. 2.8 seconds
    is_shown(alloc, 28, Work::Read, 100, &three)
}

/// Texts that are judged: the text, what is counted of it, and what is shown when all is read.
static COUNTED: [(&[u8], Counted, &str); 5] = [
    (
        b"sat\nb0\n#0\n0 1 s@0\n@0\n1 0\n#1\n@1\n.\n",
        Counted::FramesOfModel,
        "judged 2 frames",
    ),
    (b"@0\n@1\n@2\n", Counted::FramesOfModel, "judged 3 frames"),
    (
        b"1\nb0\n00\n1\n0\n1\n",
        Counted::FramesOfCircuit,
        "judged 3 frames",
    ),
    (b"1\nb0\n", Counted::FramesOfCircuit, "judged 0 frames"),
    (b"1 2 0\nd 1 0\n-3 0\n", Counted::Steps, "judged 3 steps"),
];

/// Whether frames and steps are counted by their lines: a piece that holds all of a text is looked at behind two seconds.
fn are_counted(alloc: Global) -> Result<bool, AllocError> {
    for (text, counted, line) in &COUNTED {
        let kept = shown(alloc, *text, 64, Work::Judged(*counted), 2100)?;
        if !shows(&kept, &[*line]) {
            return Ok(false);
        }
    }
    Ok(true)
}

/// Whether gates are told, and hidden before a byte is written.
fn are_gates_told(alloc: Global) -> bool {
    let clock = Steps::by(1100);
    let kept = Cell::new(Some(Vec::new(alloc)));
    let mut progress = Progress::new(&clock, Some(Terminal { kept: &kept }));
    progress.made(7);
    progress.made(9);
    let mut sink = Watched::new(VecSink::new(alloc), None, progress);
    let is_written = write_all(&mut sink, b"x").is_ok();
    is_written && shows(&kept.replace(None), &["made 9 gates", ""])
}

/// Whether a source is read of which nothing is told, since there is no terminal.
fn is_read_untold() -> bool {
    let clock = Steps::by(5000);
    let none: Option<Terminal<'_>> = None;
    let progress = Progress::new(&clock, none);
    let mut source = Watched::new(b"abc".as_slice(), Some(Work::Read), progress);
    let mut buffer = [0u8; 8];
    source.read(&mut buffer) == Ok(3) && buffer.starts_with(b"abc")
}

/// What is not as it should be of how far work is told to be.
pub(crate) fn fault_of_progress(alloc: Global) -> Result<Fault, AllocError> {
    if !is_told_late(alloc)? {
        return Ok(Some("bytes are told from two seconds on"));
    }
    if !does_stand(alloc)? {
        return Ok(Some("a line stands for a quarter of a second"));
    }
    if !are_counted(alloc)? {
        return Ok(Some("frames and steps are counted by their lines"));
    }
    if !are_gates_told(alloc) {
        return Ok(Some("gates are told, and hidden before a write"));
    }
    if !is_read_untold() {
        return Ok(Some("nothing is told without a terminal"));
    }
    Ok(None)
}
