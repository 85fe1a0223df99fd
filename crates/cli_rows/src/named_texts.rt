//! Files of names that are texts in memory, of which all is told: what a command says of them it says of these bytes.

ghost use Rattle.std.specs.Prelude.{Some, None, if◌then◌else◌};
ghost use Rattle.std.specs.Str.{bytes_eq};
ghost use Rattle.std.specs.String.{string_bytes};

use crate::answers::{Answer, Files};
use crate::on_disk::input;
use base::{DeviceFault, Reason, VecSink};
use command_line::order;
use commands::run_on_files;
use invocation::Order;
use std::alloc::{AllocError, Global};
use subcommands::{NamedFiles, Progress, ResultName};

/// The texts of three names; a file that there is not has the name of one that there is, or none.
#[derive(Clone, Copy)]
struct NamedTexts<'a> {
    first: &'a str,
    second: &'a str,
    third: &'a str,
    texts: Files<'a>,
}

/// The name of a result in memory.
#[derive(Drop)]
struct TextName {
    name: String,
    is_given: bool,
}

impl ResultName for TextName {
    ghost name = { λ n. Some (string_bytes n.name) };

    ghost is_given = { λ n. n.is_given };

    ghost failures = { λ _. 0 };

    fn give(&mut self) -> Result<(), DeviceFault> {
        self.is_given = true;
        Ok(())
    }

    fn give_up(&mut self) {}

    fn reason(&self) -> Option<Reason> {
        None
    }
}

impl<'a> NamedFiles for NamedTexts<'a> {
    type File = &'a [u8];

    type Output = VecSink;

    type Name = TextName;

    ghost text = { λ f name. if bytes_eq name f.first.now then Some f.texts.first.now
        else (if bytes_eq name f.second.now then Some f.texts.second.now
        else (if bytes_eq name f.third.now then Some f.texts.third.now else None)) };

    fn open(&self, name: &str) -> Result<&'a [u8], Option<Reason>> {
        if name == self.first {
            Ok(self.texts.first)
        } else if name == self.second {
            Ok(self.texts.second)
        } else if name == self.third {
            Ok(self.texts.third)
        } else {
            Err(Some(Reason::NoSuchFile))
        }
    }

    fn create(&self, alloc: Global, name: &str) -> Result<(VecSink, TextName), AllocError> {
        let name = String::from_str(alloc, name)?;
        let is_given = false;
        Ok((VecSink::new(alloc), TextName { name, is_given }))
    }
}

/// Whether a command gives an answer on texts in memory.
fn gives<'a>(
    rt: &HostRuntime,
    texts: &'a NamedTexts<'a>,
    order: &Order<'a>,
    input: &[u8],
    wanted: Answer<'_>,
) -> bool {
    let mut out = VecSink::new(rt.alloc());
    let mut err = VecSink::new(rt.alloc());
    let progress = Progress::new(rt, Some(rt.stderr()));
    let (status, made) = run_on_files(
        texts,
        rt.alloc(),
        order,
        input,
        &mut out,
        &mut err,
        &progress,
    );
    let is_result = match &made {
        Some((made, name)) => made.bytes() == wanted.out && name.is_given == (status < 2),
        None => out.bytes() == wanted.out,
    };
    is_result && status == wanted.status && err.bytes() == wanted.err
}

/// Whether a command, by its words, gives an answer on texts in memory that have the names of its files.
pub(crate) fn gives_on_names(
    rt: &HostRuntime,
    words: &[String],
    files: Files<'_>,
    wanted: Answer<'_>,
) -> bool {
    let named = match order(rt.alloc(), words) {
        Ok(order) => order,
        Err(_) => return false,
    };
    let texts = NamedTexts {
        first: named.first,
        second: named.second.unwrap_or(""),
        third: named.third.unwrap_or(""),
        texts: files,
    };
    match order(rt.alloc(), words) {
        Ok(order) => gives(rt, &texts, &order, input(&named, files), wanted),
        Err(_) => false,
    }
}
