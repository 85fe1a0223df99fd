//! The files and streams that a command reads and writes, and what stands in their place.

ghost use Rattle.std.specs.Prelude.{◌≡◌, ◌-◌, ◌^◌, ◌<◌, None, IfOk, OnOk, option_map};
ghost use Rattle.std.specs.Io.{ReadsAtMost};
ghost use Rattle.std.specs.Io.KnownBytes.{ReadConsumes};
ghost use Rattle.base.specs.Device.{CountsFaults};
ghost use Rattle.subcommands.specs.declared.files.Opened.TheVariants as opened_is;
ghost use Rattle.subcommands.specs.Files.{of_opened, of_stream, text_of_name};

use crate::named_files::NamedFiles;
use base::{DeviceFault, FromReader, Reason, Sink, Source};
use invocation::STANDARD_INPUT;
use std::io::Read;

/// A source and a sink in place of a file that can't be opened: every read and every write fails.
#[derive(Drop)]
pub struct NoFile {
    failures: u128,
    reason: Option<Reason>,
}

impl NoFile {
    /// No failure yet; each will be for this reason.
    pub fn new(reason: Option<Reason>) -> NoFile
        ensures reads { ⟦<NoFile as Source>⟧.failures result ≡ 0 }
        ensures writes { ⟦<NoFile as Sink>⟧.failures result ≡ 0 }
    {
        NoFile {
            failures: 0,
            reason,
        }
    }

    /// Fails once more.
    fn fail(&mut self) -> Result<usize, DeviceFault>
        ensures is_err { OnOk result ⊥ }
        ensures counted { CountsFaults result self.old.failures self.new.failures }
    {
        self.failures = self.failures.saturating_add(1);
        Err(DeviceFault::Failed)
    }
}

impl Source for NoFile {
    ghost calls_left = { λ _. 0 };

    ghost failures = { λ s. s.failures };

    fn read(&mut self, _buf: &mut [u8]) -> Result<usize, DeviceFault> {
        self.fail()
    }

    fn reason(&self) -> Option<Reason> {
        self.reason
    }
}

impl Sink for NoFile {
    ghost failures = { λ s. s.failures };

    fn write(&mut self, _bytes: &[u8]) -> Result<usize, DeviceFault> {
        self.fail()
    }

    fn reason(&self) -> Option<Reason> {
        self.reason
    }
}

/// What became of a file that is opened when it is first read.
#[derive(Drop)]
pub(crate) enum Opened<S> {
    /// It was not read yet.
    NotYet,
    /// It was opened.
    File(S),
    /// It can't be opened.
    Missing(NoFile),
}

/// A file that is opened when it is first read: so a command waits for no file that it does not read. Its bytes are those of
/// the file of its name.
#[derive(Drop)]
pub struct LateFile<'a, F: NamedFiles> {
    files: &'a F,
    name: &'a str,
    file: Opened<F::File>,
}

impl<'a, F: NamedFiles> LateFile<'a, F> {
    /// The file of a name, which is not opened yet.
    pub fn new(files: &'a F, name: &'a str) -> LateFile<'a, F>
        ensures bytes { ⟦<LateFile<'a, F> as Source>⟧.to_come result ≡ F.text files.now name.now }
        ensures failures { ⟦<LateFile<'a, F> as Source>⟧.failures result ≡ 0 }
    {
        LateFile {
            files,
            name,
            file: Opened::NotYet,
        }
    }

    /// Opens the file, and reads of it for the first time.
    fn read_first(&mut self, buf: &mut [u8]) -> Result<usize, DeviceFault>
        requires { self.old.file ≡ opened_is.NotYet }
        ensures within { ReadsAtMost result buf.new }
        ensures bytes { ReadConsumes (⟦<LateFile<'a, F> as Source>⟧.to_come self.old)
            (⟦<LateFile<'a, F> as Source>⟧.to_come self.new) result buf.new }
        ensures ends { IfOk result (λ n. 0 < n → ⟦<LateFile<'a, F> as Source>⟧.calls_left self.new
            < ⟦<LateFile<'a, F> as Source>⟧.calls_left self.old) }
        ensures failures { CountsFaults result (⟦<LateFile<'a, F> as Source>⟧.failures self.old)
            (⟦<LateFile<'a, F> as Source>⟧.failures self.new) }
    {
        match self.files.open(self.name) {
            Ok(mut file) => {
                let result = file.read(buf);
                self.file = Opened::File(file);
                result
            }
            Err(reason) => {
                let mut missing = NoFile::new(reason);
                let result = missing.fail();
                self.file = Opened::Missing(missing);
                result
            }
        }
    }
}

impl<F: NamedFiles> Source for LateFile<'_, F> {
    ghost to_come = { λ f. of_opened (F.text f.files.now f.name.now) F.File.to_come (λ _. F.text f.files.now f.name.now) f.file };

    ghost calls_left = { λ f. of_opened (2 ^ 64 - 1) F.File.calls_left (λ _. 0) f.file };

    ghost failures = { λ f. of_opened 0 F.File.failures (λ none. none.failures) f.file };

    fn read(&mut self, buf: &mut [u8]) -> Result<usize, DeviceFault> {
        match &mut self.file {
            Opened::File(file) => file.read(buf),
            Opened::Missing(missing) => missing.fail(),
            Opened::NotYet => self.read_first(buf),
        }
    }

    fn reason(&self) -> Option<Reason> {
        match &self.file {
            Opened::NotYet => None,
            Opened::File(file) => file.reason(),
            Opened::Missing(missing) => missing.reason,
        }
    }
}

/// What a command reads: its bytes and its failures are those of the source inside.
#[derive(Drop)]
pub enum Stream<S, F> {
    /// Standard input.
    Standard(S),
    /// A file.
    File(F),
    /// No file: the command has none, or it can't be opened.
    Missing(NoFile),
}

impl<S: Source, F: Source> Source for Stream<S, F> {
    ghost to_come = { of_stream S.to_come F.to_come (λ _. None) };

    ghost calls_left = { of_stream S.calls_left F.calls_left (λ _. 0) };

    ghost failures = { of_stream S.failures F.failures (λ none. none.failures) };

    fn read(&mut self, buf: &mut [u8]) -> Result<usize, DeviceFault> {
        match self {
            Stream::Standard(source) => source.read(buf),
            Stream::File(source) => source.read(buf),
            Stream::Missing(source) => source.read(buf),
        }
    }

    fn reason(&self) -> Option<Reason> {
        match self {
            Stream::Standard(source) => source.reason(),
            Stream::File(source) => source.reason(),
            Stream::Missing(source) => source.reason,
        }
    }
}

/// What a command reads: standard input where the name is `-`, else the file of that name, which is opened when it is first
/// read. Where there is no name, there is no file.
pub fn open_input<'a, F: NamedFiles, I: Read + Drop>(
    files: &'a F,
    standard: I,
    name: Option<&'a str>,
) -> Stream<FromReader<I>, LateFile<'a, F>>
    ensures bytes { ⟦<Stream<FromReader<I>, LateFile<'a, F>> as Source>⟧.to_come result
        ≡ text_of_name (F.text files.now) (I.remaining standard)
        (option_map (λ name. name.now) name.entry) }
    ensures failures { ⟦<Stream<FromReader<I>, LateFile<'a, F>> as Source>⟧.failures result ≡ 0 }
{
    match name {
        None => Stream::Missing(NoFile::new(None)),
        Some(STANDARD_INPUT) => Stream::Standard(FromReader::new(standard)),
        Some(name) => Stream::File(LateFile::new(files, name)),
    }
}
