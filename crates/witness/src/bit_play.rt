//! The frames of a witness of a circuit, played while its lines are read.
ghost use Rattle.std.specs.Prelude.{◌≡◌, ℕ, ◌<◌, ◌^◌, Bool, List, [], ◌∷◌, ◌++◌, None, Some, MatchResult, length, map, true, slice_index, if◌then◌else◌};
ghost use Rattle.base.specs.Literal.{Valuation, literal_value};
ghost use Rattle.runs.specs.CircuitRun.{IsFrameNow, circuit_held};
ghost use Rattle.witness.specs.Admits.{is_one_bit};
ghost use Rattle.witness.specs.BitAdmits.{BitRead};
ghost use Rattle.witness.specs.Judgements.{first_of};
ghost use Rattle.witness.specs.BitJudgements.{differs_from_reset, first_reset_differing};
ghost use Rattle.witness.specs.BitPlays.{first_bit_violated, PlaysBits, play_start};
ghost use Rattle.witness.specs.BitStands.{Gives, HasBits, PlaysSaid};

use crate::bit_reader::BitGiven;
use crate::judgement::Judgement;
use crate::verdicts::{Breach, judgement_of, note_breach};
use aiger::{Circuit, Latch, Reset};
use runs::{BitRun, NewFault};
use std::alloc::Global;

/// The frames of a witness of a circuit that are closed, and the bits of the next.
#[derive(Drop)]
pub(crate) struct BitPlay<'a> {
    run: BitRun<'a>,
    // the first latch whose initial bit is not that of its reset
    differs: Option<u64>,
    frames: u64,
    // the first constraint that did not hold in a closed frame
    breach: Option<Breach>,
    // the claimed bad property rose in a closed frame
    rose: bool,
}

/// Whether a bit is not that of a reset.
fn differs_from_reset(reset: Reset, bit: bool) -> bool
    ensures { result ≡ differs_from_reset reset bit }
{
    match reset {
        Reset::Zero => bit,
        Reset::One => !bit,
        Reset::Free => false,
    }
}

/// The first latch whose reset is not the bit that a digit writes.
fn first_differing(latches: &[Latch], digits: &[u8]) -> Option<u64>
    requires { length digits.now ≡ length latches.now }
    ensures { result ≡ first_reset_differing 0 latches.now (map is_one_bit digits.now) }
{
    for (k, latch) in latches.iter().enumerate() {
        if differs_from_reset(latch.reset, digits[k] == b'1') {
            return Some(k as u64);
        }
    }
    None
}

/// The first constraint of a circuit that does not hold in the frame of a settled run of it.
pub fn first_violated(circuit: &Circuit, run: &BitRun<'_>) -> Option<u64>
    requires same { run.now.circuit ≡ circuit.now }
    requires settled { run.now.settled ≡ true }
    ensures { (v : Valuation) → IsFrameNow run.now v → result ≡ first_bit_violated circuit.now v }
{
    for i in 0..circuit.constraints().len() {
        if !run.constraint(i) {
            return Some(i as u64);
        }
    }
    None
}

/// Whether a bad property is there and rises.
fn rises(circuit: &Circuit, run: &BitRun<'_>, claim: u64) -> bool
    requires same { run.now.circuit ≡ circuit.now }
    requires settled { run.now.settled ≡ true }
    ensures { (v : Valuation) → IsFrameNow run.now v → claim < length circuit.now.bads
        → result ≡ literal_value v (slice_index circuit.now.bads claim) }
{
    let claim = claim as usize;
    claim < circuit.bads().len() && run.bad(claim)
}

impl<'a> BitPlay<'a> {
    /// Of a circuit, before any line.
    ///
    /// Error: `NoMemory`.
    pub(crate) fn new(alloc: Global, circuit: &'a Circuit) -> Result<BitPlay<'a>, NewFault>
        ensures { MatchResult result (λ p. p ≡ play_start circuit.now)
            (λ fault. fault ≡ NewFault.NoMemory) }
    {
        let run = BitRun::new(alloc, circuit)?;
        Ok(BitPlay {
            run,
            differs: None,
            frames: 0,
            breach: None,
            rose: false,
        })
    }

    /// The closed frames.
    pub(crate) fn frames(&self) -> u64
        ensures { result ≡ self.now.frames }
    {
        self.frames
    }

    /// How many bits the run holds, and the steps that it has taken.
    pub(crate) fn held(&self) -> u64
        ensures { result ≡ circuit_held self.now.run.circuit }
    {
        self.run.held()
    }

    pub(crate) fn steps(&self) -> u128
        ensures { result ≡ self.now.run.steps }
    {
        self.run.steps()
    }

    /// Gives the latches the bits of a line, before any frame.
    ///
    /// Condition: the line has as many bytes as there are latches.
    fn begin(&mut self, circuit: &Circuit, line: &[u8])
        requires same { self.old.run.circuit ≡ circuit.now }
        requires bits { length line.now ≡ length circuit.now.latches }
        ensures begun { (claim : ℕ) → self.old ≡ play_start circuit.now
            → PlaysBits circuit.now claim (map is_one_bit line.now) [] self.new }
        ensures same { self.new.run.circuit ≡ circuit.now }
    {
        self.run.set_state_digits(line);
        self.differs = first_differing(circuit.latches(), line);
    }

    /// Closes the frame in which the inputs have the bits of a line: settles it, looks at its constraints and at the claimed
    /// bad property, and moves on.
    ///
    /// Condition: the line has as many bytes as there are inputs.
    fn close(&mut self, circuit: &Circuit, line: &[u8], claim: u64)
        requires same { self.old.run.circuit ≡ circuit.now }
        requires bits { length line.now ≡ circuit.now.inputs }
        ensures closed { (initial : List Bool) (frames : List (List Bool))
            → PlaysBits circuit.now claim initial frames self.old → claim < length circuit.now.bads
            → length frames < 2 ^ 62
            → PlaysBits circuit.now claim initial (frames ++ map is_one_bit line.now ∷ []) self.new }
        ensures same { self.new.run.circuit ≡ circuit.now }
    {
        self.run.set_input_digits(line);
        self.run.settle();
        let violated = first_violated(circuit, &self.run);
        let rises = rises(circuit, &self.run, claim);
        note_breach(&mut self.breach, self.frames, violated);
        self.rose |= rises;
        self.run.advance();
        self.frames = self.frames.saturating_add(1);
    }

    /// Plays what a line gives.
    pub(crate) fn take(&mut self, circuit: &Circuit, given: BitGiven, line: &[u8], claim: u64)
        requires same { self.old.run.circuit ≡ circuit.now }
        requires bits { HasBits circuit.now line.now given }
        ensures played { (r next : BitRead) → Gives circuit.now r next line.now given
            → claim ≡ next.claim → PlaysSaid circuit.now r self.old → PlaysSaid circuit.now next self.new }
        ensures same { self.new.run.circuit ≡ circuit.now }
    {
        match given {
            BitGiven::Nothing => {}
            BitGiven::Initial => self.begin(circuit, line),
            BitGiven::Frame => self.close(circuit, line, claim),
        }
    }

    /// What is judged of the closed frames where they are all, by a claim.
    pub(crate) fn judgement(&self, claim: u64) -> Judgement
        ensures { result ≡ first_of self.now.differs self.now.breach
            (if self.now.rose then None else Some claim) self.now.frames }
    {
        let unreached = if self.rose { None } else { Some(claim) };
        judgement_of(self.differs, self.breach, unreached, self.frames)
    }

    /// Whether the claimed bad property rose.
    pub(crate) fn rose(&self) -> bool
        ensures { result ≡ self.now.rose }
    {
        self.rose
    }
}
