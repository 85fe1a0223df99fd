//! Why a device failed, as the system tells it.
ghost use Rattle.std.specs.Prelude.{◌≡◌};
ghost use Rattle.base.specs.Reasons.{reason_of};

use std::io::{Error, ErrorKind};

/// Why a device failed.
#[derive(Clone, Copy, PartialEq, Eq)]
pub enum Reason {
    /// No file has the name, or a folder of the name is missing.
    NoSuchFile,
    /// What stands at the name is a folder.
    IsFolder,
    /// A part of the name before the last is no folder.
    NotUnderFolder,
    /// The user may not do it.
    PermissionDenied,
    /// The file system may only be read.
    ReadOnlyFileSystem,
    /// The device is full.
    NoSpaceLeft,
    /// The user has no more room.
    QuotaExceeded,
    /// The file may not grow more.
    FileTooLarge,
    /// Nobody reads any more.
    ClosedByReader,
    /// The name has too many bytes.
    NameTooLong,
    /// Links lead to links, too many.
    TooManyLinks,
    /// A file has the name already.
    AlreadyThere,
    /// A signal came while it was waited for.
    Interrupted,
    /// Another error of the system, by its number.
    Number(i32),
}

/// The reason of an error of a kind, which may have a number; none where it has none.
#[tactic(auto, unfolding(crate::specs::Reasons::reason_of))]
fn reason_of(kind: ErrorKind, number: Option<i32>) -> Option<Reason>
    ensures { result ≡ reason_of kind number }
{
    match kind {
        ErrorKind::NotFound => Some(Reason::NoSuchFile),
        ErrorKind::IsADirectory => Some(Reason::IsFolder),
        ErrorKind::NotADirectory => Some(Reason::NotUnderFolder),
        ErrorKind::PermissionDenied => Some(Reason::PermissionDenied),
        ErrorKind::ReadOnlyFilesystem => Some(Reason::ReadOnlyFileSystem),
        ErrorKind::StorageFull => Some(Reason::NoSpaceLeft),
        ErrorKind::QuotaExceeded => Some(Reason::QuotaExceeded),
        ErrorKind::FileTooLarge => Some(Reason::FileTooLarge),
        ErrorKind::BrokenPipe => Some(Reason::ClosedByReader),
        ErrorKind::InvalidFilename => Some(Reason::NameTooLong),
        ErrorKind::FilesystemLoop => Some(Reason::TooManyLinks),
        ErrorKind::AlreadyExists => Some(Reason::AlreadyThere),
        ErrorKind::Interrupted => Some(Reason::Interrupted),
        _ => number.map(Reason::Number),
    }
}

impl Reason {
    /// The reason that the system tells by an error; none where that has no number and its kind no reason of its own.
    pub fn of(error: &Error) -> Option<Reason> {
        reason_of(error.kind(), error.raw_os_error())
    }
}
