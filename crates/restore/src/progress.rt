//! How far a reading of frames is, line by line.
ghost use Rattle.std.specs.Prelude.{◌≡◌, ℕ, true, false, List, ◌∷◌, length, IfOk};
ghost use Rattle.restore.specs.declared.place.Place.TheVariants.{Start};
ghost use Rattle.restore.specs.Reading.{initial_why, frame_why, line_bits, read_frames, read_found_lines};
ghost use Rattle.restore.specs.Steps.{may_follow, read_at, later_lines, lines_from, given_by, ReadsFrame, FailsByText};

use crate::fault::{RestoreFault, RestoreWhy};
use crate::place::Place;
use std::alloc::{AllocError, Global};
use witness::are_bits;

/// How far a reading of frames is.
#[derive(Drop)]
pub(crate) struct Progress {
    // the bits of the frame that was found last
    bits: Vec<bool>,
    place: Place,
}

/// What is wrong with a line of initial bits: the first byte that is no `0`.
fn initial_why(line: &[u8]) -> Option<RestoreWhy>
    ensures { result ≡ initial_why line.now }
{
    for byte in line {
        if *byte == b'1' {
            return Some(RestoreWhy::InitialOne);
        }
        if *byte != b'0' {
            return Some(RestoreWhy::NoBit);
        }
    }
    None
}

/// Writes the bits of a line.
pub(crate) fn write_bits(line: &[u8], bits: &mut [bool])
    requires { length line.now ≡ length bits.old }
    ensures { bits.new ≡ line_bits line.now }
{
    for place in 0..bits.len() {
        bits[place] = line[place] == b'1';
    }
}

/// Reads the line of a frame, or tells what is wrong with it; the bits are then as they were.
fn read_frame(line: &[u8], bits: &mut [bool]) -> Result<(), RestoreWhy>
    ensures { ReadsFrame result (frame_why (length bits.old) line.now) line.now bits.old bits.new }
{
    if !are_bits(line) {
        return Err(RestoreWhy::NoBit);
    }
    if line.len() != bits.len() {
        return Err(RestoreWhy::WrongLength);
    }
    write_bits(line, bits);
    Ok(())
}

/// The place behind a line of initial bits, which may be the last line.
fn behind_initial(line: &[u8], is_last: bool) -> Place
    ensures closed { is_last ≡ true → may_follow result ≡ false }
    ensures text { FailsByText result }
    ensures reads { (width : ℕ) (more : List (List ℕ))
        → read_found_lines width (line.now ∷ later_lines is_last more) ≡ read_at result width more }
{
    match initial_why(line) {
        Some(why) => Place::Failed(RestoreFault { line: 1, why }),
        None if is_last => Place::First.at_end(),
        None => Place::First,
    }
}

impl Progress {
    /// At the begin of a text whose frames have so many bits.
    ///
    /// Error: where the growth was refused.
    pub(crate) fn new(alloc: Global, width: u32) -> Result<Progress, AllocError>
        ensures { IfOk result (λ p. (length p.bits.items ≡ width) × (p.place ≡ Start)) }
    {
        Ok(Progress {
            bits: vec![in alloc; false; width as usize]?,
            place: Place::Start,
        })
    }

    /// The bits of the frame that was found last.
    pub(crate) fn bits(&self) -> &[bool]
        ensures { result.now ≡ self.now.bits.items }
    {
        self.bits.as_slice()
    }

    /// Where the reading is.
    pub(crate) fn place(&self) -> Place
        ensures { result ≡ self.now.place }
    {
        self.place
    }

    /// Takes the line of a frame, which may be the last line, and answers whether it is a frame.
    fn take_frame(&mut self, number: u64, line: &[u8], is_last: bool) -> bool
        ensures reads { (more : List (List ℕ))
            → read_frames (length self.old.bits.items) number (line.now ∷ later_lines is_last more)
            ≡ given_by result self.new.bits.items
            (read_at self.new.place (length self.new.bits.items) more) }
        ensures closed { is_last ≡ true → may_follow self.new.place ≡ false }
        ensures text { FailsByText self.new.place }
        ensures width { length self.new.bits.items ≡ length self.old.bits.items }
    {
        match read_frame(line, self.bits.as_mut_slice()) {
            Ok(()) => {
                self.place = if is_last {
                    Place::Ended
                } else {
                    Place::Going(number.saturating_add(1))
                };
                true
            }
            Err(why) => {
                self.place = Place::Failed(RestoreFault { line: number, why });
                false
            }
        }
    }

    /// Takes a line, which may be the last one, and answers whether it is a frame. A last line without a byte is none.
    pub(crate) fn take(&mut self, line: &[u8], is_last: bool) -> bool
        requires { may_follow self.old.place ≡ true }
        ensures reads { (more : List (List ℕ))
            → read_at self.old.place (length self.old.bits.items) (lines_from line.now is_last more)
            ≡ given_by result self.new.bits.items
            (read_at self.new.place (length self.new.bits.items) more) }
        ensures closed { is_last ≡ true → may_follow self.new.place ≡ false }
        ensures text { FailsByText self.new.place }
        ensures width { length self.new.bits.items ≡ length self.old.bits.items }
    {
        if is_last && line.is_empty() {
            self.place = self.place.at_end();
            return false;
        }
        match self.place {
            Place::Start => {
                self.place = behind_initial(line, is_last);
                false
            }
            Place::First => self.take_frame(2, line, is_last),
            Place::Going(number) => self.take_frame(number, line, is_last),
            Place::Ended | Place::Failed(_) => unreachable!(),
        }
    }
}
