//! A circuit in the frames that a counterexample gives, one after the other.
ghost use Rattle.std.specs.Prelude.{◌≡◌, ◌<◌, ◌≤◌, ◌==◌, if◌then◌else◌, IfOk, None, Some, length};
ghost use Rattle.std.specs.Option.{option_or};
ghost use Rattle.restore.specs.Plays.{IsFresh, own_frame, begun, played, are_too_many, play_judgement, play_told};
ghost use Rattle.restore.specs.Putting.{lines_before};

use crate::digits::write_first_bits;
use crate::told::Restored;
use aiger::Circuit;
use runs::BitRun;
use std::alloc::{AllocError, Global};
use std::marker::Model;
use witness::{Breach, Judgement, Why, first_violated, judgement_of, note_breach};

/// The most lines of a witness.
const MOST_LINES: u64 = 1 << 62;

/// A circuit in the frame that follows those that were played, and what is told of them.
#[derive(Drop)]
pub(crate) struct Play<'c> {
    circuit: &'c Circuit,
    run: BitRun<'c>,
    // the bits that the latches begin with
    begins: Vec<bool>,
    // the bad property that is claimed
    claim: usize,
    // how many frames were played
    frames: u64,
    // the first constraint that did not hold in them
    breach: Option<Breach>,
    // the first of them in which the claimed property was 1
    first: Option<u64>,
    // it rose in the last one
    risen: bool,
}

impl<'c> Model for Play<'c> {
    ghost use Rattle.std.specs.Prelude.{length};
    ghost use Rattle.restore.specs.Plays.{Play as PlayValue, HoldsPlay};

    ghost Value = { PlayValue };

    ghost view = { λ p. record { circuit = p.circuit.now; claim = p.claim; state = p.run.latches; frames = p.frames; breach = p.breach; begins = p.begins.items; first = p.first; risen = p.risen } };

    ghost invariant = { λ p. HoldsPlay p.circuit.now p.run p.claim (length p.begins.items) };
}

/// Whether so many frames are too many for a witness, with the lines before them and behind.
fn are_too_many(frames: u64) -> bool
    ensures { result ≡ are_too_many frames }
{
    frames.saturating_add(3) >= MOST_LINES
}

/// The first of frames in which a property is 1, with one frame more.
fn first_with(first: Option<u64>, is_bad: bool, frame: u64) -> Option<u64>
    ensures { result ≡ option_or first (if is_bad then Some frame else None) }
{
    match first {
        Some(earlier) => Some(earlier),
        None => { if is_bad { Some(frame) } else { None } }
    }
}

impl<'c> Play<'c> {
    /// A circuit before its first frame, with a claimed bad property that it has.
    ///
    /// Error: where a growth was refused.
    pub(crate) fn new(
        alloc: Global,
        circuit: &'c Circuit,
        claim: usize,
    ) -> Result<Play<'c>, AllocError>
        requires { claim < length circuit.now.bads }
        ensures { IfOk result (IsFresh circuit.now claim) }
    {
        let begins = vec![in alloc; false; circuit.latches().len()]?;
        match BitRun::new(alloc, circuit) {
            Ok(run) => Ok(Play {
                circuit,
                run,
                begins,
                claim,
                frames: 0,
                breach: None,
                first: None,
                risen: false,
            }),
            Err(_) => Err(AllocError),
        }
    }

    /// The circuit's own inputs in a frame of its engine form.
    pub(crate) fn own_inputs<'f>(&self, frame: &'f [bool]) -> &'f [bool]
        requires { self.now.circuit.inputs ≤ length frame.now }
        ensures { result.now ≡ own_frame self.now frame.now }
    {
        let (own, _) = frame.split_at(self.circuit.inputs() as usize);
        own
    }

    /// The bits that the latches began with.
    pub(crate) fn begins(&self) -> &[bool]
        ensures { result.now ≡ self.now.begins }
    {
        self.begins.as_slice()
    }

    /// Whether no frame was played yet.
    pub(crate) fn is_fresh(&self) -> bool
        ensures { result ≡ (self.now.frames == 0) }
    {
        self.frames == 0
    }

    /// Whether the claimed property rose in a frame.
    pub(crate) fn has_risen(&self) -> bool
        ensures { result ≡ self.now.risen }
    {
        self.risen
    }

    /// How many lines of the witness stand before that of the frame that follows.
    pub(crate) fn lines_before(&self) -> u64
        ensures { result ≡ lines_before self.now }
    {
        self.frames.saturating_add(3)
    }

    /// Begins with the frame of its engine form that comes first.
    pub(crate) fn begin(&mut self, frame: &[bool])
        requires { self.old.circuit.inputs ≤ length frame.now }
        ensures { self.new ≡ begun self.old frame.now }
    {
        let (_, given) = frame.split_at(self.circuit.inputs() as usize);
        write_first_bits(self.circuit.latches(), given, self.begins.as_mut_slice());
        self.run.set_states(self.begins.as_slice());
    }

    /// Plays the frame of these inputs.
    pub(crate) fn advance(&mut self, inputs: &[bool])
        requires { length inputs.now ≡ self.old.circuit.inputs }
        ensures { self.new ≡ played self.old inputs.now }
    {
        self.run.set_inputs(inputs);
        self.run.settle();
        let violated = first_violated(self.circuit, &self.run);
        let is_bad = self.run.bad(self.claim);
        self.run.advance();
        note_breach(&mut self.breach, self.frames, violated);
        self.first = first_with(self.first, is_bad & !are_too_many(self.frames), self.frames);
        self.frames = self.frames.saturating_add(1);
        self.risen = is_bad & self.breach.is_none();
    }

    /// The judgement over the circuit of the witness with the frames that were played: it has too many lines, or what
    /// `Judgement` says of its frames. The bits that the latches began with agree with their resets.
    fn judgement(&self) -> Judgement
        ensures { result ≡ play_judgement self.now }
    {
        if are_too_many(self.frames) {
            return Judgement::Malformed {
                line: MOST_LINES + 1,
                why: Why::TooLong,
            };
        }
        let unreached = if self.risen {
            None
        } else {
            Some(self.claim as u64)
        };
        judgement_of(None, self.breach, unreached, self.frames)
    }

    /// What is told of that witness.
    pub(crate) fn told(&self) -> Restored
        ensures { result ≡ play_told self.now }
    {
        Restored {
            judgement: self.judgement(),
            first: match self.first {
                Some(frame) => Some((self.claim, frame)),
                None => None,
            },
        }
    }
}
