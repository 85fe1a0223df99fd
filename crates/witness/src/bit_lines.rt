//! The whole lines of a witness of a circuit, judged one after the other.
ghost use Rattle.std.specs.Prelude.{◌≡◌, ℕ, ◌&&◌, ◌||◌, List, [], ◌∷◌, ◌++◌, None, codes};
ghost use Rattle.std.specs.Str.{bytes_eq};
ghost use Rattle.base.specs.Lines.{IsLine, whole_lines, unfinished};
ghost use Rattle.aiger.specs.Circuit.{Circuit, IsCircuit};
ghost use Rattle.witness.specs.declared.judgement.Judgement.{Judgement};
ghost use Rattle.witness.specs.Judgements.{unplayed};
ghost use Rattle.witness.specs.Readings.{is_nothing};
ghost use Rattle.witness.specs.CutLines.{AreFront};
ghost use Rattle.witness.specs.BitAdmits.{admitted_lines, is_done};
ghost use Rattle.witness.specs.BitJudgements.{BitJudges};
ghost use Rattle.witness.specs.BitStands.{IsOfBitLines, StandsForBitLines, Gives, HasBits, TellsUnplayed, bit_place_of, is_header, line_room, read_of};

use crate::bit_reader::{BitGiven, BitPlace, BitReader};
use crate::judgement::Judgement;
use crate::verdicts::{are_most, last_refusal};
use crate::why::Why;
use crate::word_line::is_word;
use aiger::Circuit;

/// What the whole lines of a witness of a circuit are judged as, whatever a run of the circuit shows in its frames. It takes
/// no memory.
#[derive(Drop)]
pub struct BitLines<'a> {
    reader: BitReader<'a>,
    // how many are admitted
    pub(crate) admitted: u64,
    // why the one behind them was refused
    refused: Option<Why>,
    // the first says that there is no claim
    no_claim: bool,
}

/// Whether a line says that there is no claim, where it is the first.
fn says_no_claim(place: BitPlace, line: &[u8]) -> bool
    ensures { result ≡ (is_header (bit_place_of place)
        && (bytes_eq line.now (codes "0") || bytes_eq line.now (codes "2"))) }
{
    matches!(place, BitPlace::Header) && (is_word(line, b"0") || is_word(line, b"2"))
}

/// Whether the last line of a witness is admitted.
fn has_ended(place: BitPlace) -> bool
    ensures { result ≡ is_done (bit_place_of place) }
{
    matches!(place, BitPlace::Done)
}

impl<'a> BitLines<'a> {
    /// The lines of witnesses of a circuit, which stand for the empty text.
    pub fn new(circuit: &'a Circuit) -> BitLines<'a>
        ensures { StandsForBitLines circuit.now result [] }
    {
        BitLines {
            reader: BitReader::new(circuit),
            admitted: 0,
            refused: None,
            no_claim: false,
        }
    }

    /// The circuit.
    pub(crate) fn circuit(&self) -> &'a Circuit
        ensures { result.now ≡ self.now.reader.circuit.now }
    {
        self.reader.circuit()
    }

    /// The claimed bad property.
    pub(crate) fn claim(&self) -> u64
        ensures { result ≡ self.now.reader.claim }
    {
        self.reader.claim()
    }

    /// Judges a line behind others, none of which was refused.
    fn judge(&mut self, line: &[u8], digits: bool) -> BitGiven
        ensures lines { (c : Circuit) (lines : List (List ℕ)) (whole : List ℕ)
            → IsOfBitLines c self.old lines → AreFront (line_room c) line.now digits whole
            → self.old.refused ≡ None → IsOfBitLines c self.new (lines ++ whole ∷ [])
            × Gives c (read_of c lines) (read_of c (lines ++ whole ∷ [])) line.now result }
        ensures bits { HasBits self.old.reader.circuit.now line.now result }
        ensures circuit { self.new.reader.circuit ≡ self.old.reader.circuit }
    {
        if are_most(self.admitted) {
            self.refused = Some(Why::TooLong);
            return BitGiven::Nothing;
        }
        self.no_claim |= says_no_claim(self.reader.place(), line);
        match self.reader.admit(line, digits) {
            Ok(given) => {
                self.admitted += 1;
                given
            }
            Err(why) => {
                self.refused = Some(why);
                BitGiven::Nothing
            }
        }
    }

    /// Takes a line behind the others, and answers what it gives. Of a longer line as many bytes are enough as there is room
    /// for, and whether all others are digits.
    pub(crate) fn take(&mut self, line: &[u8], digits: bool) -> BitGiven
        ensures lines { (c : Circuit) (lines : List (List ℕ)) (whole : List ℕ)
            → IsOfBitLines c self.old lines → AreFront (line_room c) line.now digits whole
            → IsOfBitLines c self.new (lines ++ whole ∷ [])
            × Gives c (read_of c lines) (read_of c (lines ++ whole ∷ [])) line.now result }
        ensures bits { HasBits self.old.reader.circuit.now line.now result }
        ensures circuit { self.new.reader.circuit ≡ self.old.reader.circuit }
    {
        if self.refused.is_none() {
            self.judge(line, digits)
        } else {
            BitGiven::Nothing
        }
    }

    /// Takes a whole line without its byte 10: what stood for a text stands for that text with the line and its byte 10 behind
    /// it.
    ///
    /// Condition: there is no byte 10 in the line.
    pub fn take_line(&mut self, line: &[u8])
        requires { IsLine line.now }
        ensures { (c : Circuit) (text : List ℕ) → StandsForBitLines c self.old text
            → StandsForBitLines c self.new (text ++ (line.now ++ 10 ∷ [])) }
    {
        self.take(line, true);
    }

    /// How many whole lines stand before the first faulty line.
    #[tactic(auto, unfolding(crate::specs::Readings::reading))]
    pub fn admitted_lines(&self) -> u64
        ensures { (c : Circuit) (text : List ℕ) → StandsForBitLines c self.now text
            → result ≡ admitted_lines c text }
    {
        self.admitted
    }

    /// What is judged of a text with these whole lines, and with bytes behind them or without, where that needs no run.
    pub(crate) fn unplayed(&self, empty: bool) -> Option<Judgement>
        ensures { (c : Circuit) (text : List ℕ) → IsOfBitLines c self.now (whole_lines text)
            → empty ≡ is_nothing (unfinished text) → TellsUnplayed c text result }
    {
        if self.no_claim {
            return Some(Judgement::NoClaim);
        }
        let line = self.admitted.saturating_add(1);
        if let Some(why) = self.refused {
            return Some(Judgement::Malformed { line, why });
        }
        let ended = has_ended(self.reader.place());
        match last_refusal(ended, self.admitted, empty) {
            Some(why) => Some(Judgement::Malformed { line, why }),
            None => None,
        }
    }

    /// What is judged of the text with the bytes behind its last whole line, where that needs no run: that it makes no claim, or
    /// is no witness.
    ///
    /// Condition: there is no byte 10 in the rest.
    pub fn finish(self, rest: &[u8]) -> Option<Judgement>
        requires { IsLine rest.now }
        ensures { (c : Circuit) (text : List ℕ) (j : Judgement) → IsCircuit c
            → StandsForBitLines c self.entry text → BitJudges c (text ++ rest.now) j
            → result ≡ unplayed j }
    {
        self.unplayed(rest.is_empty())
    }
}
