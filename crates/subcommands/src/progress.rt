//! How far work is that takes long: a line on a terminal.

ghost use Rattle.std.specs.Prelude.{◌≡◌, None};

use base::{DeviceFault, Reason, Sink, Source};
use blast::Watch;
use invocation::{ModelTask, Task};
use itoa::Buffer;
use std::io::{self, Write};
use std::time::{Clock, Duration};

/// What is done with the bytes of a device, and what is told of it.
#[derive(Clone, Copy, PartialEq, Eq)]
pub enum Work {
    /// They are read: how many they are.
    Read,
    /// They are judged: how many frames a witness has, or steps a proof, by their lines.
    Judged(Counted),
    /// They are written: how many they are.
    Written,
}

/// What is counted of a text that is judged.
#[derive(Clone, Copy, PartialEq, Eq)]
pub enum Counted {
    /// The frames of a witness of a model: the lines that begin the inputs of one, with `@`.
    FramesOfModel,
    /// The frames of a witness of a circuit: the lines behind the first three, of the status, the claim and the initial bits.
    FramesOfCircuit,
    /// The steps of a proof: its lines.
    Steps,
}

/// How many lines of a witness of a circuit stand before its frames.
const LINES_BEFORE_FRAMES: u64 = 3;

impl Work {
    /// The work on the second file of a command.
    pub fn on_second(task: Task) -> Work {
        match task {
            Task::Model(
                ModelTask::CheckBtor
                | ModelTask::Wave(_)
                | ModelTask::CheckFitted
                | ModelTask::Unfit
                | ModelTask::Spread,
            ) => Work::Judged(Counted::FramesOfModel),
            Task::Certificate(_) => Work::Read,
            _ => Work::Judged(Counted::FramesOfCircuit),
        }
    }

    /// The word that tells it.
    fn word(self) -> &'static str {
        match self {
            Work::Read => "read",
            Work::Judged(_) => "judged",
            Work::Written => "written",
        }
    }
}

/// How much went through a device.
#[derive(Clone, Copy)]
struct Amount {
    bytes: u64,
    lines: u64,
    // the lines that begin with `@`
    marked: u64,
    // the next byte begins a line
    at_begin: bool,
}

impl Amount {
    /// Nothing.
    fn new() -> Amount {
        Amount {
            bytes: 0,
            lines: 0,
            marked: 0,
            at_begin: true,
        }
    }

    /// Adds bytes behind those before.
    fn add(&mut self, bytes: &[u8]) {
        self.bytes = self.bytes.saturating_add(bytes.len() as u64);
        for byte in bytes {
            if self.at_begin && *byte == b'@' {
                self.marked = self.marked.saturating_add(1);
            }
            self.at_begin = *byte == b'\n';
            if self.at_begin {
                self.lines = self.lines.saturating_add(1);
            }
        }
    }

    /// How far some work is, and in what.
    fn told(&self, work: Work) -> (u64, &'static str) {
        match work {
            Work::Read | Work::Written => (self.bytes / MEGABYTE, " MB"),
            Work::Judged(Counted::FramesOfModel) => (self.marked, " frames"),
            Work::Judged(Counted::FramesOfCircuit) => {
                (self.lines.saturating_sub(LINES_BEFORE_FRAMES), " frames")
            }
            Work::Judged(Counted::Steps) => (self.lines, " steps"),
        }
    }
}

/// How many seconds work takes before it is told how far it is.
const PATIENCE: u64 = 2;

/// How many milliseconds a line stands at least.
const PAUSE: u64 = 250;

/// How many bytes are told as one.
const MEGABYTE: u64 = 1_000_000;

/// What hides a line: blanks over it, and the way back to its begin.
const BLANKS: &[u8] = b"\r                                        \r";

/// Shows a line in place of the one that stands: what is done, with how much, and of what.
fn show<W: Write>(terminal: &mut W, work: &str, count: u64, unit: &str) -> io::Result<()> {
    let mut buffer = Buffer::new();
    terminal.write_all(BLANKS)?;
    terminal.write_all(work.as_bytes())?;
    terminal.write_all(b" ")?;
    terminal.write_all(buffer.format(count).as_bytes())?;
    terminal.write_all(unit.as_bytes())
}

/// A line on a terminal, or on none, that tells how far work is which has taken two seconds. It is shown as well as the
/// terminal takes it; copies share it.
#[derive(Clone, Copy)]
pub struct Progress<'a, C: Clock, W: Write + Copy> {
    clock: &'a C,
    terminal: Option<W>,
    // the time from which on a line may be shown
    start: Duration,
    // the time from which on another one may be
    due: Duration,
}

impl<'a, C: Clock, W: Write + Copy> Progress<'a, C, W> {
    /// The line of work that begins now. Where the clock tells no time it is never shown.
    pub fn new(clock: &'a C, terminal: Option<W>) -> Progress<'a, C, W>
        ensures { result.terminal ≡ terminal }
    {
        let start = match clock.monotonic() {
            Ok(now) => now.saturating_add(Duration::from_secs(PATIENCE)),
            Err(_) => Duration::MAX,
        };
        Progress {
            clock,
            terminal,
            start,
            due: start,
        }
    }

    /// The same line, to be told beside this one.
    pub fn again(&self) -> Progress<'a, C, W>
        ensures { result.terminal ≡ self.now.terminal }
    {
        Progress {
            clock: self.clock,
            terminal: self.terminal,
            start: self.start,
            due: self.due,
        }
    }

    /// The time, where it is past this one.
    fn time_past(&self, time: Duration) -> Option<Duration> {
        match self.clock.monotonic() {
            Ok(now) if now > time => Some(now),
            _ => None,
        }
    }

    /// Tells how far some work is, where a line is due.
    fn tell(&mut self, work: &str, count: u64, unit: &str)
        ensures silent { self.old.terminal ≡ None → self.new.terminal ≡ None }
    {
        if self.terminal.is_none() {
            return;
        }
        if let Some(now) = self.time_past(self.due) {
            self.due = now.saturating_add(Duration::from_millis(PAUSE));
            if let Some(terminal) = &mut self.terminal {
                let _ = show(terminal, work, count, unit);
            }
        }
    }

    /// Hides the line, where one may stand.
    pub fn clear(&mut self)
        ensures silent { self.old.terminal ≡ None → self.new.terminal ≡ None }
    {
        if self.time_past(self.start).is_some() {
            if let Some(terminal) = &mut self.terminal {
                let _ = terminal.write_all(BLANKS);
            }
        }
    }
}

impl<C: Clock, W: Write + Copy> Watch for Progress<'_, C, W> {
    /// Tells how many gates are made, where a line is due.
    fn made(&mut self, gates: usize) {
        self.tell("made", gates as u64, " gates");
    }
}

/// A source or a sink beside which the line is shown. Its bytes and its failures are those of the device inside.
#[derive(Drop)]
pub struct Watched<'a, D: Drop, C: Clock, W: Write + Copy> {
    device: D,
    // what is done with its bytes; without that it may write where the line stands, which is hidden before
    work: Option<Work>,
    amount: Amount,
    progress: Progress<'a, C, W>,
}

impl<'a, D: Drop, C: Clock, W: Write + Copy> Watched<'a, D, C, W> {
    /// A device that no byte went through. With what is done with its bytes, the line tells how far that is; without
    /// that the device is a sink that may write where the line stands, and the line is hidden before.
    pub fn new(device: D, work: Option<Work>, progress: Progress<'a, C, W>) -> Watched<'a, D, C, W>
        ensures device { result.device ≡ device }
        ensures work { result.work ≡ work }
        ensures progress { result.progress.terminal ≡ progress.entry.terminal }
    {
        Watched {
            device,
            work,
            amount: Amount::new(),
            progress,
        }
    }

    /// The device inside.
    pub fn into_device(self) -> D
        ensures { result ≡ self.entry.device }
    {
        self.device
    }

    /// Tells how far work is by this line from now on.
    pub fn set_progress(&mut self, progress: Progress<'a, C, W>)
        ensures device { self.new.device ≡ self.old.device }
        ensures work { self.new.work ≡ self.old.work }
    {
        self.progress = progress;
    }

    /// Counts bytes that went through, and tells how far the work is.
    fn count(&mut self, bytes: &[u8])
        ensures device { self.new.device ≡ self.old.device }
        ensures silent { self.old.progress.terminal ≡ None → self.new.progress.terminal ≡ None }
    {
        if self.progress.terminal.is_none() || bytes.is_empty() {
            return;
        }
        if let Some(work) = self.work {
            self.amount.add(bytes);
            let (count, unit) = self.amount.told(work);
            self.progress.tell(work.word(), count, unit);
        }
    }
}

impl<D: Source + Drop, C: Clock, W: Write + Copy> Source for Watched<'_, D, C, W> {
    ghost to_come = { λ w. D.to_come w.device };

    ghost calls_left = { λ w. D.calls_left w.device };

    ghost failures = { λ w. D.failures w.device };

    fn read(&mut self, buf: &mut [u8]) -> Result<usize, DeviceFault> {
        let count = self.device.read(buf)?;
        self.count(&buf[..count]);
        Ok(count)
    }

    fn reason(&self) -> Option<Reason> {
        self.device.reason()
    }
}

impl<D: Sink + Drop, C: Clock, W: Write + Copy> Sink for Watched<'_, D, C, W> {
    ghost written = { λ w. D.written w.device };

    ghost failures = { λ w. D.failures w.device };

    fn write(&mut self, bytes: &[u8]) -> Result<usize, DeviceFault> {
        if self.work.is_none() {
            self.progress.clear();
        }
        let count = self.device.write(bytes)?;
        self.count(&bytes[..count]);
        Ok(count)
    }

    fn reason(&self) -> Option<Reason> {
        self.device.reason()
    }
}
