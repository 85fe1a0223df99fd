//! The judge of witnesses of a circuit.
ghost use Rattle.std.specs.Prelude.{◌≡◌, ℕ, List, [], ◌∷◌, ◌++◌, MatchResult};
ghost use Rattle.base.specs.Lines.{IsLine};
ghost use Rattle.base.specs.Literal.{Valuation};
ghost use Rattle.aiger.specs.Circuit.{Circuit, IsCircuit};
ghost use Rattle.runs.specs.CircuitRun.{circuit_held};
ghost use Rattle.witness.specs.BitAdmits.{admitted_lines, closed_frames};
ghost use Rattle.witness.specs.BitJudgements.{BitJudges};
ghost use Rattle.witness.specs.Accepted.{BitAcceptsExactly};
ghost use Rattle.witness.specs.BitPlays.{bit_steps_of};
ghost use Rattle.witness.specs.Reached.{IsClosedBitTrace, bit_reached};
ghost use Rattle.witness.specs.CutLines.{AreFront};
ghost use Rattle.witness.specs.BitStands.{StandsForBits, IsPlayed, line_room};

use crate::bit_lines::BitLines;
use crate::bit_play::BitPlay;
use crate::cut_line::CutLine;
use crate::judgement::Judgement;
use aiger::Circuit;
use base::{Taker, next_line};
use runs::NewFault;
use std::alloc::{AllocError, Global};
use std::marker::Model;

/// The most bytes of a claim.
const MOST_CLAIMED: usize = 21;

/// A judge of witnesses of a circuit, which it borrows: it is fed a text piece by piece. Beside the values of one run of the
/// circuit it holds the first bytes of a line that is cut between pieces, as many as a line may have that is admitted and one
/// more, and a fixed number of words; neither feeding nor finishing takes memory or refuses anything.
///
/// Clauses see what it holds; which texts it stands for is a relation to that.
#[derive(Drop)]
pub struct BitJudge<'a> {
    lines: BitLines<'a>,
    // the frames that they give
    play: BitPlay<'a>,
    // what is kept of the line that has not ended
    line: CutLine,
}

impl<'a> Model for BitJudge<'a> {
    ghost use Rattle.std.specs.Prelude.{◌≡◌};
    ghost use Rattle.witness.specs.BitStands.{BitJudge as BitJudgeValue};

    ghost Value = { BitJudgeValue };

    ghost view = { λ j. record { lines = j.lines; play = j.play; line = j.line } };

    ghost invariant = { λ j. j.play.run.circuit ≡ j.lines.reader.circuit.now };
}

/// Room for the bytes of a line that may be admitted, and for one more.
fn line_room(circuit: &Circuit) -> usize
    ensures { result ≡ line_room circuit.now }
{
    circuit
        .latches()
        .len()
        .max(circuit.inputs() as usize)
        .max(MOST_CLAIMED)
        + 1
}

/// Takes a line behind others, and plays what it gives. Of a longer line as many bytes are enough as there is room for, and
/// whether all others are digits.
fn take(lines: &mut BitLines<'_>, play: &mut BitPlay<'_>, line: &[u8], digits: bool)
    requires { play.old.run.circuit ≡ lines.old.reader.circuit.now }
    ensures played { (c : Circuit) (before : List (List ℕ)) (whole : List ℕ)
        → IsPlayed c lines.old play.old before → AreFront (line_room c) line.now digits whole
        → IsPlayed c lines.new play.new (before ++ whole ∷ []) }
    ensures same { play.new.run.circuit ≡ lines.new.reader.circuit.now }
{
    let given = lines.take(line, digits);
    play.take(lines.circuit(), given, line, lines.claim());
}

impl<'a> BitJudge<'a> {
    /// A judge of witnesses of a circuit, which stands for the empty text.
    ///
    /// Error: `NoMemory`.
    pub fn new(alloc: Global, circuit: &'a Circuit) -> Result<BitJudge<'a>, NewFault>
        ensures { MatchResult result (λ judge. StandsForBits circuit.now judge [])
            (λ fault. fault ≡ NewFault.NoMemory) }
    {
        let line = match CutLine::new(alloc, line_room(circuit)) {
            Ok(line) => line,
            Err(AllocError) => return Err(NewFault::NoMemory),
        };
        let play = BitPlay::new(alloc, circuit)?;
        Ok(BitJudge {
            lines: BitLines::new(circuit),
            play,
            line,
        })
    }

    /// Takes the rest of a line, and its end: for callers that cut lines themselves. A judge that stood for a text stands for
    /// that text with the line and its byte 10 behind it.
    pub fn take_line(&mut self, line: &[u8])
        ensures { (c : Circuit) (text : List ℕ) → IsLine line.now → StandsForBits c self.old text
            → StandsForBits c self.new (text ++ (line.now ++ 10 ∷ [])) }
    {
        if self.line.is_empty() {
            take(&mut self.lines, &mut self.play, line, true);
            return;
        }
        self.line.extend(line);
        let (bytes, digits) = (self.line.bytes(), self.line.digits());
        take(&mut self.lines, &mut self.play, bytes, digits);
        self.line.clear();
    }

    /// Takes a piece of the text behind those before: a judge that stood for a text stands for that text with the piece
    /// behind it.
    pub fn feed(&mut self, bytes: &[u8])
        ensures { (c : Circuit) (text : List ℕ) → StandsForBits c self.old text
            → StandsForBits c self.new (text ++ bytes.now) }
    {
        let mut rest = bytes;
        while let Some((line, behind)) = next_line(rest) {
            self.take_line(line);
            rest = behind;
        }
        self.line.extend(rest);
    }

    /// The judgement of the text so far: of every one that the judge stands for.
    fn judgement(&self) -> Judgement
        ensures { (c : Circuit) (text : List ℕ) → StandsForBits c self.now text
            → BitJudges c text result }
    {
        match self.lines.unplayed(self.line.is_empty()) {
            Some(judgement) => judgement,
            None => self.play.judgement(self.lines.claim()),
        }
    }

    /// The judgement of the text: of every one that the judge stands for.
    pub fn finish(self) -> Judgement
        ensures judged { (c : Circuit) (text : List ℕ) → StandsForBits c self.entry text
            → BitJudges c text result }
        // accepted exactly where the text says a witness of which this is judged
        ensures accepted { (c : Circuit) (text : List ℕ) → IsCircuit c
            → StandsForBits c self.entry text → BitAcceptsExactly c text result }
    {
        self.judgement()
    }

    /// How many bits the judge's run holds: one for 0 and each variable, and one for each latch.
    pub fn held(&self) -> u64
        ensures { (c : Circuit) (text : List ℕ) → StandsForBits c self.now text
            → result ≡ circuit_held c }
    {
        self.play.held()
    }

    /// The steps that the run has taken: for each closed frame one for each input, each gate and each latch. The count
    /// stays at its greatest value, 2^128 - 1, once it is there.
    #[tactic(auto, unfolding(crate::specs::Readings::reading))]
    pub fn steps(&self) -> u128
        ensures { (c : Circuit) (text : List ℕ) → StandsForBits c self.now text
            → result ≡ bit_steps_of c (closed_frames c text) }
    {
        self.play.steps()
    }

    /// How many frames are closed: those whose lines have ended before the first faulty line.
    #[tactic(auto, unfolding(crate::specs::Readings::reading))]
    pub fn closed_frames(&self) -> u64
        ensures { (c : Circuit) (text : List ℕ) → StandsForBits c self.now text
            → result ≡ closed_frames c text }
    {
        self.play.frames()
    }

    /// Whether the bad property at a position, counted from 0, is the claim, and was 1 in a closed frame; none is beyond the
    /// last. It takes no memory.
    pub fn has_reached(&self, position: usize) -> bool
        ensures { (c : Circuit) (text : List ℕ) (vs : List Valuation)
            → StandsForBits c self.now text → IsClosedBitTrace c text vs
            → result ≡ bit_reached c text vs position }
    {
        (self.lines.claim() == position as u64) & self.play.rose()
    }

    /// How many whole lines stand before the first faulty line.
    #[tactic(auto, unfolding(crate::specs::Readings::reading))]
    pub fn admitted_lines(&self) -> u64
        ensures { (c : Circuit) (text : List ℕ) → StandsForBits c self.now text
            → result ≡ admitted_lines c text }
    {
        self.lines.admitted
    }
}

impl<'a> Taker<()> for BitJudge<'a> {
    ghost use Rattle.std.specs.Prelude.{false};
    ghost use Rattle.aiger.specs.Circuit.{Circuit};
    ghost use Rattle.witness.specs.BitStands.{StandsForBits};

    ghost Over = { Circuit };

    ghost stands = { λ c output judge text. StandsForBits c judge text };

    ghost is_done = { λ judge. false };

    fn take(&mut self, _output: &mut (), piece: &[u8]) {
        self.feed(piece);
    }

    fn is_done(&self) -> bool {
        false
    }
}
