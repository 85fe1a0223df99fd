//! `hwtool`: word-level BTOR2 models to AIGER circuits, and judgements of their witnesses.
#![tactic(auto)]

use base::ToWriter;
use command_line::{Terminals, given_words};
use commands::SystemFiles;
use requests::{Surroundings, run_on_words};
use std::fs;
use std::io::{self, IsTerminal, Read, Stdin};
use std::os::fd::AsRawFd;
use std::process::{self, ExitCode};
use subcommands::{Progress, Watched, Work, end};

/// The error of the system that a stream is closed.
const CLOSED: i32 = 9;

/// Standard input, or none where it is closed.
#[derive(Clone, Copy)]
struct Input {
    stream: Stdin,
    is_closed: bool,
}

impl Read for Input {
    fn read(&mut self, buf: &mut [u8]) -> io::Result<usize> {
        if self.is_closed {
            return Err(io::Error::from_raw_os_error(CLOSED));
        }
        self.stream.read(buf)
    }
}

/// Does what the words after the program's name ask for.
fn main(rt: HostRuntime) -> ExitCode {
    // The next file that is opened takes the place of a standard stream that is closed, and would be taken for it. So
    // folders stand there first, which can't be read nor written.
    let first = fs::open(&rt, "/");
    let _second = fs::open(&rt, "/");
    let _third = fs::open(&rt, "/");
    let input = Input {
        stream: rt.stdin(),
        is_closed: match &first {
            Ok(folder) => folder.as_raw_fd() == 0,
            Err(_) => false,
        },
    };
    let terminals = Terminals {
        input: rt.stdin().is_terminal(),
        output: rt.stdout().is_terminal(),
        error: rt.stderr().is_terminal(),
    };
    // nothing is told of what is written to a terminal
    let written = if terminals.output {
        None
    } else {
        Some(Work::Written)
    };
    let silent = Progress::new(&rt, None);
    let mut out = Watched::new(ToWriter::new(rt.stdout()), written, silent.again());
    let mut err = Watched::new(ToWriter::new(rt.stderr()), None, silent);
    let status = match given_words(&rt) {
        Ok(words) => run_on_words(
            &SystemFiles::new(&rt, process::id(rt.process())),
            rt.alloc(),
            words.as_slice(),
            Surroundings {
                terminals,
                input,
                clock: &rt,
                terminal: rt.stderr(),
            },
            &mut out,
            &mut err,
        ),
        Err(stop) => end(&stop, &mut out, &mut err),
    };
    ExitCode::from(status)
}
