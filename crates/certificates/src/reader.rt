//! Reading the text of an invariant from a source.
ghost use Rattle.std.specs.Prelude.{◌≡◌, ◌≢◌, ◌⊎◌, ℕ, ◌<◌, Ok, Err, IfOk, IfErr, IfSome, OnOk};
ghost use Rattle.std.specs.Io.KnownBytes.{IsAtEnd};
ghost use Rattle.base.specs.Device.{HasRisen};
ghost use Rattle.certificates.specs.declared.why.InvariantWhy.TheVariants as why;
ghost use Rattle.certificates.specs.Reading.{admit_cube_line, ended, ReadsCubes};
ghost use Rattle.certificates.specs.Reader.{unread_invariant_fault};
ghost use Rattle.certificates.specs.Texts.{SaysCubes};

use crate::kept::Invariant;
use crate::progress::Progress;
use crate::why::{InvariantFault, InvariantWhy};
use base::{LineReader, ReadAllFault, Source};
use std::alloc::Global;

/// The fault where a source could not be read.
fn unread(cause: ReadAllFault) -> InvariantFault
    ensures { result ≡ unread_invariant_fault cause }
{
    let why = match cause {
        ReadAllFault::Device => InvariantWhy::Device,
        ReadAllFault::NoMemory => InvariantWhy::NoMemory,
    };
    InvariantFault { line: 0, why }
}

/// Takes what a text has behind its last whole line, in the line of this number, and gives the invariant.
fn finish(
    alloc: Global,
    progress: Progress,
    number: u64,
    last: &[u8],
) -> Result<Invariant, InvariantFault>
    ensures ok { IfOk result
        (λ v. ended number (admit_cube_line progress.latches progress.reading last.now)
        ≡ Ok v.cubes) }
    ensures latches { IfOk result (λ v. v.latches ≡ progress.latches) }
    ensures err { IfErr result (λ e. (e.why ≡ why.NoMemory)
        ⊎ (ended number (admit_cube_line progress.latches progress.reading last.now) ≡ Err e)) }
    ensures line { IfErr result (λ e. e.line ≡ number) }
{
    let mut progress = progress;
    match progress.take(alloc, last) {
        Err(why) => return Err(InvariantFault { line: number, why }),
        Ok(()) => {}
    }
    match progress.finish() {
        Ok(invariant) => Ok(invariant),
        Err(why) => Err(InvariantFault { line: number, why }),
    }
}

/// Reads the text of an invariant over a circuit of so many latches, below 2^31 - 1: the PLA that ABC writes by
/// `pdr -d -I`, whose names `lo<number>` are those of the latches of an engine form, counted from 0. Of the text one line is
/// held, and what a piece of the source gives behind it.
///
/// Errors: the first faulty line of the text and its first why, where the rest is not read; `Device` with line 0 where the
/// source failed; `NoMemory` where a growth was refused, with the line that was taken, or 0 where none was.
pub fn read_invariant<S: Source>(
    alloc: Global,
    latches: u32,
    source: &mut S,
) -> Result<Invariant, InvariantFault>
    requires { latches < 2147483647 }
    ensures reads { IfOk result (λ v. ReadsCubes latches (S.to_come source.old) (Ok v.cubes)) }
    ensures says { IfOk result (λ v. IfSome (S.to_come source.old)
        (λ text. SaysCubes latches text v.cubes)) }
    ensures latches { IfOk result (λ v. v.latches ≡ latches) }
    ensures end { OnOk result (IsAtEnd (S.to_come source.new)) }
    ensures counted { OnOk result (S.failures source.new ≡ S.failures source.old) }
    ensures fault { IfErr result (λ e. (e.why ≡ why.NoMemory)
        ⊎ ((e ≡ record { line = 0; why = why.Device })
        ⊎ ReadsCubes latches (S.to_come source.old) (Err e))) }
    ensures device { IfErr result (λ e. e ≡ record { line = 0; why = why.Device }
        → HasRisen (S.failures source.old) (S.failures source.new)) }
    ensures unfailed { IfErr result (λ e. e ≢ record { line = 0; why = why.Device }
        → S.failures source.new ≡ S.failures source.old) }
    ensures apart { IfErr result (λ e. e.why ≡ why.Device
        → e ≡ record { line = 0; why = why.Device }) }
{
    let mut lines = LineReader::new(alloc);
    let mut progress = Progress::new(alloc, latches);
    let mut number: u64 = 0;
    loop {
        let is_whole = match lines.advance(source) {
            Ok(is_whole) => is_whole,
            Err(cause) => return Err(unread(cause)),
        };
        number = number.saturating_add(1);
        if !is_whole {
            return finish(alloc, progress, number, lines.rest());
        }
        match progress.take(alloc, lines.line()) {
            Err(why) => return Err(InvariantFault { line: number, why }),
            Ok(()) => {}
        }
    }
}
