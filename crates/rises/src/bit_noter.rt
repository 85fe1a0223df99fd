//! A judge of witnesses over a circuit that notes when claims are first reached.
ghost use Rattle.std.specs.Prelude.{◌≡◌, ℕ, Bool, true, List, [], ◌∷◌, ◌++◌, MatchResult, if◌then◌else◌};
ghost use Rattle.base.specs.Lines.{IsLine};
ghost use Rattle.base.specs.Literal.{Valuation};
ghost use Rattle.aiger.specs.Circuit.{Circuit};
ghost use Rattle.witness.specs.BitAdmits.{admitted_lines};
ghost use Rattle.witness.specs.BitJudgements.{BitJudges};
ghost use Rattle.witness.specs.Reached.{IsClosedBitTrace, bit_reached};
ghost use Rattle.witness.specs.BitStands.{StandsForBits};
ghost use Rattle.rises.specs.FirstRises.{AreBitFirstRises};
ghost use Rattle.rises.specs.Notes.{IsNoted, NotesBits};

use crate::first_rises::FirstRises;
use aiger::Circuit;
use base::{Taker, next_line};
use runs::NewFault;
use std::alloc::Global;
use witness::{BitJudge, Judgement};

/// A judge of witnesses over a circuit, which notes of the text so far in which frame the claim is first reached, where notes
/// are asked for. Beside what the judge holds it keeps one frame for each bad property then, and else none.
///
/// A caller feeds it pieces, or cuts the text itself, into bytes that end no line and the rests of lines, each of which ends.
#[derive(Drop)]
pub struct BitNoter<'a> {
    judge: BitJudge<'a>,
    firsts: FirstRises,
}

/// Notes the frame that was closed last of each claim that is reached and had none.
fn note(judge: &BitJudge<'_>, firsts: &mut FirstRises, frame: u64)
    ensures { (c : Circuit) (text : List ℕ) (vs : List Valuation) → StandsForBits c judge.now text
        → IsClosedBitTrace c text vs → IsNoted (bit_reached c text vs) frame firsts.old firsts.new }
{
    for position in 0..firsts.len() {
        firsts.note(position, judge.has_reached(position), frame);
    }
}

impl<'a> BitNoter<'a> {
    /// Of the empty text, with notes or without.
    ///
    /// Error: `NoMemory`.
    pub fn new(alloc: Global, circuit: &'a Circuit, noted: bool) -> Result<BitNoter<'a>, NewFault>
        ensures { MatchResult result (λ n. NotesBits noted circuit.now n [])
            (λ fault. fault ≡ NewFault.NoMemory) }
    {
        let judge = BitJudge::new(alloc, circuit)?;
        match FirstRises::of_circuit(alloc, circuit, noted) {
            Ok(firsts) => Ok(BitNoter { judge, firsts }),
            Err(_) => Err(NewFault::NoMemory),
        }
    }

    /// Takes bytes that end no line.
    pub fn take_bytes(&mut self, bytes: &[u8])
        ensures { (noted : Bool) (c : Circuit) (text : List ℕ) → IsLine bytes.now
            → NotesBits noted c self.old text → NotesBits noted c self.new (text ++ bytes.now) }
    {
        self.judge.feed(bytes);
    }

    /// Takes the rest of a line, and its end, and notes the frame that they close.
    pub fn take_line(&mut self, line: &[u8])
        ensures { (noted : Bool) (c : Circuit) (text : List ℕ) → IsLine line.now
            → NotesBits noted c self.old text
            → NotesBits noted c self.new (text ++ (line.now ++ 10 ∷ [])) }
    {
        let closed = self.judge.closed_frames();
        self.judge.take_line(line);
        if self.judge.closed_frames() == closed {
            return;
        }
        note(&self.judge, &mut self.firsts, closed);
    }

    /// Takes a piece of the text behind those before.
    pub fn feed(&mut self, bytes: &[u8])
        ensures { (noted : Bool) (c : Circuit) (text : List ℕ) → NotesBits noted c self.old text
            → NotesBits noted c self.new (text ++ bytes.now) }
    {
        let mut rest = bytes;
        while let Some((line, behind)) = next_line(rest) {
            self.take_line(line);
            rest = behind;
        }
        self.take_bytes(rest);
    }

    /// How many whole lines stand before the first faulty line.
    pub fn admitted_lines(&self) -> u64
        ensures { (noted : Bool) (c : Circuit) (text : List ℕ) → NotesBits noted c self.now text
            → result ≡ admitted_lines c text }
    {
        self.judge.admitted_lines()
    }

    /// The judgement of the text, and what was noted of it.
    pub fn finish(self) -> (Judgement, FirstRises)
        ensures judged { (noted : Bool) (c : Circuit) (text : List ℕ)
            → NotesBits noted c self.entry text → BitJudges c text result.0 }
        ensures firsts { (noted : Bool) (c : Circuit) (text : List ℕ)
            → NotesBits noted c self.entry text → noted ≡ true → AreBitFirstRises c text result.1 }
    {
        let BitNoter { judge, firsts } = self;
        (judge.finish(), firsts)
    }
}

impl<'a> Taker<()> for BitNoter<'a> {
    ghost use Rattle.std.specs.Prelude.{Bool, false};
    ghost use Rattle.aiger.specs.Circuit.{Circuit};
    ghost use Rattle.rises.specs.Notes.{NotesBits};

    ghost Over = { Bool × Circuit };

    ghost stands = { λ over output noter text. NotesBits over.0 over.1 noter text };

    ghost is_done = { λ noter. false };

    fn take(&mut self, _output: &mut (), piece: &[u8]) {
        self.feed(piece);
    }

    fn is_done(&self) -> bool {
        false
    }
}
