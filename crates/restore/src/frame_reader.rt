//! Reading the frames of a counterexample, one after the other.
ghost use Rattle.std.specs.Prelude.{◌≡◌, ◌≢◌, ◌<◌, true, false, [], length, IfOk, IfErr, OnOk, Ok};
ghost use Rattle.std.specs.Io.KnownBytes.{prepend_known, IsAtEnd};
ghost use Rattle.base.specs.Device.{HasRisen};
ghost use Rattle.restore.specs.declared.fault.RestoreWhy.TheVariants as why;
ghost use Rattle.restore.specs.declared.place.Place.TheVariants.{Start, Ended};
ghost use Rattle.restore.specs.Steps.{FramesReader, may_follow, frames_to_come, given_by, AgreeAsGiven, IsUnread, StepsOn, TellsNoFrame, FailsByText, frames_left};

use crate::fault::RestoreFault;
use crate::marks::{found_line, unread};
use crate::place::Place;
use crate::progress::Progress;
use base::{DeviceFault, LineReader, ReadAllFault, Source, skip_all};
use std::alloc::{AllocError, Global};
use std::marker::Model;

/// The frames that a text of a counterexample says, one after the other. Of the text one line is held, and what a piece of
/// the source gives behind it.
///
/// Clauses see the frame that was found last, where the reading is, and the bytes that were read of what follows.
#[derive(Drop)]
pub struct FrameReader {
    lines: LineReader,
    progress: Progress,
}

impl Model for FrameReader {
    ghost Value = { FramesReader };

    ghost view = { λ r. record { frame = r.progress.bits.items; place = r.progress.place; rest = r.lines.rest } };

    ghost invariant = { λ r. FailsByText r.progress.place };
}

impl FrameReader {
    /// A reader at the begin of a text whose frames have so many bits. Until a frame is found, it has one of zeros.
    ///
    /// Error: where a growth was refused.
    pub fn new(alloc: Global, width: u32) -> Result<FrameReader, AllocError>
        ensures { IfOk result (λ r. (length r.frame ≡ width)
            × ((r.place ≡ Start) × (r.rest ≡ []))) }
    {
        Ok(FrameReader {
            lines: LineReader::new(alloc),
            progress: Progress::new(alloc, width)?,
        })
    }

    /// The bits of the frame that was found last, an input each, in the order of the form's inputs.
    pub fn frame(&self) -> &[bool]
        ensures { result.now ≡ self.now.frame }
    {
        self.progress.bits()
    }

    /// Goes on to the next frame, and answers whether there is one. Where there is none, the source was read to its end,
    /// and so it was where a fault of the text is told.
    ///
    /// Errors: `Device` where the source failed in this call, and `NoMemory` where a growth was refused, with line 0; no
    /// byte is lost then, and a further call goes on. Else the first faulty line of the text, by its first why; further
    /// calls tell it again.
    pub fn advance<S: Source>(&mut self, source: &mut S) -> Result<bool, RestoreFault>
        ensures steps { StepsOn result self.old self.new
            (prepend_known self.old.rest (S.to_come source.old))
            (prepend_known self.new.rest (S.to_come source.new)) }
        ensures width { length self.new.frame ≡ length self.old.frame }
        ensures ends { result ≡ Ok true → frames_left self.new (S.calls_left source.new)
            < frames_left self.old (S.calls_left source.old) }
        ensures end { result ≡ Ok false → IsAtEnd (S.to_come source.new) }
        ensures read_on { IfErr result (λ e. e.why ≢ why.Device → e.why ≢ why.NoMemory
            → IsAtEnd (S.to_come source.new)) }
        ensures counted { OnOk result (S.failures source.new ≡ S.failures source.old) }
        ensures device { IfErr result (λ e. e.why ≡ why.Device
            → HasRisen (S.failures source.old) (S.failures source.new)) }
        ensures unfailed { IfErr result (λ e. e.why ≢ why.Device
            → S.failures source.new ≡ S.failures source.old) }
    {
        while self.progress.place().is_open() {
            if self.take_line(source)? {
                return Ok(true);
            }
        }
        end(self.progress.place(), source)
    }

    /// Takes the next line, and answers whether it is a frame.
    fn take_line<S: Source>(&mut self, source: &mut S) -> Result<bool, RestoreFault>
        requires { may_follow self.old.place ≡ true }
        ensures found { IfOk result (λ is_frame. AgreeAsGiven (frames_to_come self.old)
            (λ rest. given_by is_frame self.new.frame (frames_to_come self.new rest))
            (prepend_known self.old.rest (S.to_come source.old))
            (prepend_known self.new.rest (S.to_come source.new))) }
        ensures ends { OnOk result (frames_left self.new (S.calls_left source.new)
            < frames_left self.old (S.calls_left source.old)) }
        ensures width { length self.new.frame ≡ length self.old.frame }
        ensures counted { OnOk result (S.failures source.new ≡ S.failures source.old) }
        ensures unread { IfErr result (λ e. IsUnread e
            × AgreeAsGiven (frames_to_come self.old) (frames_to_come self.new)
            (prepend_known self.old.rest (S.to_come source.old))
            (prepend_known self.new.rest (S.to_come source.new))) }
        ensures device { IfErr result (λ e. e.why ≡ why.Device
            → HasRisen (S.failures source.old) (S.failures source.new)) }
        ensures memory { IfErr result (λ e. e.why ≢ why.Device
            → S.failures source.new ≡ S.failures source.old) }
    {
        let is_whole = match self.lines.advance(source) {
            Ok(is_whole) => is_whole,
            Err(cause) => return Err(unread(cause)),
        };
        let (line, is_last) = found_line(&self.lines, is_whole);
        Ok(self.progress.take(line, is_last))
    }
}

/// Reads the rest of a source, and then tells the fault that was found, or that there is no frame more.
fn end<S: Source>(place: Place, source: &mut S) -> Result<bool, RestoreFault>
    requires closed { may_follow place ≡ false }
    requires text { FailsByText place }
    ensures none { IfOk result (λ more. (more ≡ false)
        × ((place ≡ Ended) × (IsAtEnd (S.to_come source.new)
        × (S.failures source.new ≡ S.failures source.old)))) }
    ensures fault { IfErr result
        (λ e. TellsNoFrame e place (S.to_come source.new) (S.failures source.old)
        (S.failures source.new)) }
{
    if let Err(DeviceFault::Failed) = skip_all(source) {
        return Err(unread(ReadAllFault::Device));
    }
    match place {
        Place::Failed(fault) => Err(fault),
        _ => Ok(false),
    }
}
