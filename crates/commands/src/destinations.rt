//! The files of the system: those that are read, and results, which go to what stands at a name and is no file, or beside the
//! file whose place they take.

ghost use Rattle.std.specs.Prelude.{◌≡◌, None, Some, false, IfOk, OnOk};
ghost use Rattle.std.specs.String.{string_bytes};
ghost use Rattle.base.specs.Device.{CountsFaults};
ghost use Rattle.commands.specs.Files.{of_output, part_name};

use base::{DeviceFault, FromReader, Reason, Sink, ToWriter};
use std::alloc::{AllocError, Global};
use std::fs::{self, Metadata, OpenFile, OpenOptions};
use std::io::{self, ErrorKind, Write};
use std::path::{Path, PathBuf};
use std::rt::Files;
use subcommands::{NamedFiles, NoFile, ResultName};

/// The most bytes of a file's last name that stand in that of its part. A file system takes 255.
const MOST_OF_NAME: usize = 200;

/// What stands in the name of a part where the file's own is longer.
const SHORT_NAME: &str = "result";

/// How many names of parts are tried, where files have the others already.
const MOST_PARTS: u32 = 1000;

/// How many links are followed that lead to no file.
const MOST_LINKS: u32 = 40;

/// A file that a result is written to, beside the one whose place it takes.
#[derive(Drop)]
struct Part<F: Drop> {
    path: PathBuf,
    // the file whose place it takes
    target: PathBuf,
    // the part, which is open
    file: F,
}

/// What a result needs to have its name.
#[derive(Drop)]
enum Place<F: Drop> {
    /// Nothing: it goes to what stands at its name, as a device or a pipe.
    AsItStands,
    /// It takes the place of a file.
    Beside(Part<F>),
    /// It can't have one, for this reason.
    Nowhere(Option<Reason>),
}

/// What a result of the system is written to.
#[derive(Drop)]
pub enum FileOutput<F: Write + Drop> {
    /// What was opened.
    File(ToWriter<F>),
    /// Nothing could be opened.
    Missing(NoFile),
}

/// The name of a result that goes to a file of the system.
#[derive(Drop)]
pub struct FileName<'a, R: Files> {
    rt: &'a R,
    name: String,
    place: Place<R::File>,
    is_given: bool,
    failures: u128,
    reason: Option<Reason>,
}

/// The files of the system, of whose bytes nothing can be told.
#[derive(Clone, Copy)]
pub struct SystemFiles<'a, R: Files> {
    rt: &'a R,
    // the number of the process, by which parts are named
    process: u32,
}

/// The name of a part: in the folder of its file, with a beginning, the number of the process, and a number from 1 where others
/// have that name.
fn part_name(
    alloc: Global,
    beginning: &str,
    process: u32,
    number: u32,
) -> Result<String, AllocError>
    ensures { IfOk result (λ part. string_bytes part ≡ part_name beginning.now process number) }
{
    if number == 0 {
        return format!(in alloc; "{beginning}.{process}.part");
    }
    format!(in alloc; "{beginning}.{process}.{number}.part")
}

/// With what the name of a part begins: the last name of its file, where that is short enough.
fn beginning_of<'a>(target: &'a Path<'_>) -> &'a str {
    match target.file_name() {
        Some(name) if name.len() <= MOST_OF_NAME => name,
        _ => SHORT_NAME,
    }
}

/// Opens what stands at a name to write it, and changes nothing yet.
fn open_to_write<R: Files>(rt: &R, path: Path<'_>) -> io::Result<R::File> {
    OpenOptions::new().write(true).open(rt, path)
}

/// Opens a file that is not there yet.
fn create_new<R: Files>(rt: &R, path: Path<'_>) -> io::Result<R::File> {
    OpenOptions::new()
        .write(true)
        .create_new(true)
        .open(rt, path)
}

/// The path to which a link leads.
fn led_to(alloc: Global, path: &PathBuf, link: &PathBuf) -> Result<PathBuf, AllocError> {
    match path.as_path().parent() {
        Some(folder) => folder.join(alloc, link.as_path()),
        None => link.as_path().to_path_buf(alloc),
    }
}

/// The path to which links lead that lead to no file.
fn end_of_links<R: Files>(rt: &R, alloc: Global, name: &str) -> io::Result<PathBuf> {
    let mut path = PathBuf::from_str(alloc, name)?;
    for _ in 0..MOST_LINKS {
        match rt.read_link(alloc, path.as_str()) {
            Ok(link) => path = led_to(alloc, &path, &link)?,
            Err(_) => return Ok(path),
        }
    }
    Err(io::Error::from(ErrorKind::FilesystemLoop))
}

/// Creates the file that takes the place of a file.
fn create_part<R: Files>(
    rt: &R,
    alloc: Global,
    target: &PathBuf,
    process: u32,
) -> io::Result<(PathBuf, R::File)> {
    for number in 0..MOST_PARTS {
        let name = part_name(alloc, beginning_of(&target.as_path()), process, number)?;
        let path = target.as_path().with_file_name(alloc, name.as_str())?;
        match create_new(rt, path.as_path()) {
            Ok(file) => return Ok((path, file)),
            Err(error) if error.kind() == ErrorKind::AlreadyExists => {}
            Err(error) => return Err(error),
        }
    }
    Err(io::Error::from(ErrorKind::AlreadyExists))
}

/// Makes a file the part of a result; what was created is removed where that fails.
fn part_of<R: Files>(
    rt: &R,
    path: PathBuf,
    target: PathBuf,
    file: &R::File,
) -> io::Result<Part<R::File>> {
    match file.try_clone() {
        Ok(file) => Ok(Part { path, target, file }),
        Err(error) => {
            let _ = fs::remove_file(rt, path.as_path());
            Err(error)
        }
    }
}

/// Opens a file beside the one whose place it takes.
fn open_beside<R: Files>(
    rt: &R,
    alloc: Global,
    target: PathBuf,
    process: u32,
) -> io::Result<(R::File, Part<R::File>)> {
    let (path, file) = create_part(rt, alloc, &target, process)?;
    let part = part_of(rt, path, target, &file)?;
    Ok((file, part))
}

/// Opens a file beside one that is there, with the mode of that. A file that may not be written is not replaced.
fn open_for_replacement<R: Files>(
    rt: &R,
    alloc: Global,
    name: &str,
    about: &Metadata,
    process: u32,
) -> io::Result<(R::File, Part<R::File>)> {
    let target = rt.canonicalize(alloc, name)?;
    let _ = open_to_write(rt, target.as_path())?;
    let (file, part) = open_beside(rt, alloc, target, process)?;
    match part.file.set_permissions(about.permissions()) {
        Ok(()) => Ok((file, part)),
        Err(error) => {
            part.remove(rt);
            Err(error)
        }
    }
}

/// Opens what a result goes to that has a name, and tells what it needs to have it.
fn open_named<R: Files>(
    rt: &R,
    alloc: Global,
    name: &str,
    process: u32,
) -> io::Result<(R::File, Place<R::File>)> {
    match fs::metadata(rt, name) {
        Ok(about) if about.is_file() => {
            let (file, part) = open_for_replacement(rt, alloc, name, &about, process)?;
            Ok((file, Place::Beside(part)))
        }
        Ok(_) => Ok((open_to_write(rt, Path::new(name))?, Place::AsItStands)),
        Err(error) if error.kind() == ErrorKind::NotFound => {
            let target = end_of_links(rt, alloc, name)?;
            let (file, part) = open_beside(rt, alloc, target, process)?;
            Ok((file, Place::Beside(part)))
        }
        Err(error) => Err(error),
    }
}

impl<F: Drop> Part<F> {
    /// Removes the part.
    fn remove<R: Files>(&self, rt: &R) {
        let _ = fs::remove_file(rt, self.path.as_path());
    }
}

impl<F: OpenFile + Drop> Part<F> {
    /// Gives the part the name of the file whose place it takes, once its bytes are on the device.
    fn take_place<R: Files>(&self, rt: &R) -> io::Result<()> {
        self.file.sync_all()?;
        fs::rename(rt, self.path.as_path(), self.target.as_path())
    }
}

impl<F: Write + Drop> Sink for FileOutput<F> {
    ghost failures = { of_output ⟦<ToWriter<F> as Sink>⟧.failures ⟦<NoFile as Sink>⟧.failures };

    fn write(&mut self, bytes: &[u8]) -> Result<usize, DeviceFault> {
        match self {
            FileOutput::File(file) => file.write(bytes),
            FileOutput::Missing(missing) => missing.write(bytes),
        }
    }

    fn reason(&self) -> Option<Reason> {
        match self {
            FileOutput::File(file) => file.reason(),
            FileOutput::Missing(missing) => Sink::reason(missing),
        }
    }
}

impl<'a, R: Files> FileName<'a, R> {
    /// A name that was not given yet.
    fn new(rt: &'a R, name: String, place: Place<R::File>) -> FileName<'a, R>
        ensures name { result.name ≡ name }
        ensures given { result.is_given ≡ false }
        ensures failures { result.failures ≡ 0 }
    {
        FileName {
            rt,
            name,
            place,
            is_given: false,
            failures: 0,
            reason: None,
        }
    }

    /// Notes that the name can't be given.
    fn fail(&mut self, reason: Option<Reason>) -> Result<(), DeviceFault>
        ensures is_err { OnOk result ⊥ }
        ensures given { self.new.is_given ≡ self.old.is_given }
        ensures name { self.new.name ≡ self.old.name }
        ensures counted { CountsFaults result self.old.failures self.new.failures }
    {
        self.failures = self.failures.saturating_add(1);
        self.reason = reason;
        Err(DeviceFault::Failed)
    }
}

impl<R: Files> ResultName for FileName<'_, R> {
    ghost name = { λ n. Some (string_bytes n.name) };

    ghost is_given = { λ n. n.is_given };

    ghost failures = { λ n. n.failures };

    fn give(&mut self) -> Result<(), DeviceFault> {
        let given = match &self.place {
            Place::AsItStands => Ok(()),
            Place::Beside(part) => match part.take_place(self.rt) {
                Ok(()) => Ok(()),
                Err(error) => {
                    part.remove(self.rt);
                    Err(Reason::of(&error))
                }
            },
            Place::Nowhere(reason) => Err(*reason),
        };
        match given {
            Ok(()) => {
                self.is_given = true;
                Ok(())
            }
            Err(reason) => self.fail(reason),
        }
    }

    fn give_up(&mut self) {
        if let Place::Beside(part) = &self.place {
            part.remove(self.rt);
        }
    }

    fn reason(&self) -> Option<Reason> {
        self.reason
    }
}

impl<'a, R: Files> SystemFiles<'a, R> {
    /// Those of this system, for the process of this number.
    pub fn new(rt: &'a R, process: u32) -> SystemFiles<'a, R> {
        SystemFiles { rt, process }
    }
}

impl<'a, R: Files> NamedFiles for SystemFiles<'a, R> {
    type File = FromReader<R::File>;

    type Output = FileOutput<R::File>;

    type Name = FileName<'a, R>;

    ghost text = { λ _ _. None };

    fn open(&self, name: &str) -> Result<FromReader<R::File>, Option<Reason>> {
        match fs::open(self.rt, name) {
            Ok(file) => Ok(FromReader::new(file)),
            Err(error) => Err(Reason::of(&error)),
        }
    }

    /// A result goes to what stands at the name, where that is no file; else to a new file beside that of the name, or beside
    /// that to which the name leads as a link.
    fn create(
        &self,
        alloc: Global,
        name: &str,
    ) -> Result<(FileOutput<R::File>, FileName<'a, R>), AllocError> {
        let own = String::from_str(alloc, name)?;
        match open_named(self.rt, alloc, name, self.process) {
            Ok((file, place)) => {
                let out = FileOutput::File(ToWriter::new(file));
                Ok((out, FileName::new(self.rt, own, place)))
            }
            Err(error) if error.kind() == ErrorKind::OutOfMemory => Err(AllocError),
            Err(error) => {
                let reason = Reason::of(&error);
                let out = FileOutput::Missing(NoFile::new(reason));
                Ok((out, FileName::new(self.rt, own, Place::Nowhere(reason))))
            }
        }
    }
}
