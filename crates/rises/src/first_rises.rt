//! The frames in which claims are first reached.
ghost use Rattle.std.specs.Prelude.{◌≡◌, ◌<◌, None, Some, IfOk, if◌then◌else◌, option_and_then, length, replicate, slice_get, slice_index_or, slice_set};
ghost use Rattle.rises.specs.Notes.{noted};

use aiger::Circuit;
use std::alloc::{AllocError, Global};

/// For each bad property of a model or of a circuit, in file order, the first frame in which it is 1, counted from 0, where
/// it is claimed and there is one. Clauses see the list.
#[derive(Drop)]
pub struct FirstRises {
    frames: Vec<Option<u64>>,
}

impl std::marker::Model for FirstRises {
    ghost use Rattle.std.specs.Prelude.{ℕ, List, Option};

    ghost Value = { List (Option ℕ) };

    ghost view = { λ r. r.frames.items };
}

/// What is noted of a bad property behind a frame, where it is reached up to that one or not.
fn noted(first: Option<u64>, reached: bool, frame: u64) -> Option<u64>
    ensures { result ≡ noted reached frame first }
{
    match first {
        Some(earlier) => Some(earlier),
        None => { if reached { Some(frame) } else { None } }
    }
}

impl FirstRises {
    /// Of so many bad properties, none of which is reached.
    ///
    /// Error: a growth was refused.
    pub fn new(alloc: Global, count: usize) -> Result<FirstRises, AllocError>
        ensures { IfOk result (λ r. r ≡ replicate count None) }
    {
        let frames = vec![in alloc; None; count]?;
        Ok(FirstRises { frames })
    }

    /// Of the bad properties of a circuit, of which none is noted yet, where notes are asked for; else of none.
    ///
    /// Error: a growth was refused.
    pub fn of_circuit(
        alloc: Global,
        circuit: &Circuit,
        asked: bool,
    ) -> Result<FirstRises, AllocError>
        ensures { IfOk result (λ r. r ≡ replicate (if asked then length circuit.now.bads else 0)
            None) }
    {
        let count = if asked { circuit.bads().len() } else { 0 };
        FirstRises::new(alloc, count)
    }

    /// Notes the first frame of a bad property that is there, in place of what was noted before.
    pub fn set(&mut self, position: usize, frame: u64)
        ensures { self.new ≡ slice_set self.old position (Some frame) }
    {
        if position < self.frames.len() {
            self.frames[position] = Some(frame);
        }
    }

    /// How many bad properties there are.
    pub fn len(&self) -> usize
        ensures { result ≡ length self.now }
    {
        self.frames.len()
    }

    /// The first frame in which the bad property at a position is 1, where it is there, is claimed and is 1 in one.
    pub fn frame(&self, position: usize) -> Option<u64>
        ensures { result ≡ option_and_then (λ first. first) (slice_get self.now position) }
    {
        if position < self.len() {
            self.frames[position]
        } else {
            None
        }
    }

    /// Notes a frame of a bad property that is there, where it is reached and none was noted before.
    pub(crate) fn note(&mut self, position: usize, reached: bool, frame: u64)
        requires { position < length self.old }
        ensures { self.new ≡ slice_set self.old position
            (noted reached frame (slice_index_or self.old position None)) }
    {
        let first = self.frames[position];
        self.frames[position] = noted(first, reached, frame);
    }
}
