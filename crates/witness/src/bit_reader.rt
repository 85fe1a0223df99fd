//! The lines of a witness of a circuit, admitted one after the other.
ghost use Rattle.std.specs.Prelude.{◌≡◌, ℕ, List, IfOk, OnErr};
ghost use Rattle.aiger.specs.Circuit.{Circuit};
ghost use Rattle.witness.specs.BitAdmits.{BitRead, no_line_read};
ghost use Rattle.witness.specs.BitStands.{ReadsBits, GivesBitLine, GivesFrame, HasBits, line_room};
ghost use Rattle.witness.specs.CutLines.{AreFront};

use crate::bit_line::{claim_of, no_bits};
use crate::why::Why;
use crate::word_line::is_word;
use aiger::Circuit;

/// Which line of a witness of a circuit comes next.
#[derive(Clone, Copy, PartialEq, Eq)]
pub(crate) enum BitPlace {
    /// The status.
    Header,
    /// The claim.
    Claim,
    /// The bits that the latches begin with.
    Initial,
    /// The first frame.
    First,
    /// A later frame, or the last line.
    Later,
    /// None.
    Done,
}

/// What a line gives to a run.
#[derive(Clone, Copy)]
pub(crate) enum BitGiven {
    /// Nothing.
    Nothing,
    /// The bits that the latches begin with.
    Initial,
    /// The bits of the inputs in a frame.
    Frame,
}

/// What the admitted lines of a witness of a circuit say.
#[derive(Drop)]
pub(crate) struct BitReader<'a> {
    circuit: &'a Circuit,
    place: BitPlace,
    claim: u64,
}

impl<'a> BitReader<'a> {
    /// Of a circuit, before any line.
    pub(crate) fn new(circuit: &'a Circuit) -> BitReader<'a>
        ensures { ReadsBits circuit.now result no_line_read }
    {
        BitReader {
            circuit,
            place: BitPlace::Header,
            claim: 0,
        }
    }

    /// The circuit.
    pub(crate) fn circuit(&self) -> &'a Circuit
        ensures { result.now ≡ self.now.circuit.now }
    {
        self.circuit
    }

    /// The claimed bad property.
    pub(crate) fn claim(&self) -> u64
        ensures { result ≡ self.now.claim }
    {
        self.claim
    }

    /// Which line comes next.
    pub(crate) fn place(&self) -> BitPlace
        ensures { result ≡ self.now.place }
    {
        self.place
    }

    /// The line of a frame has ended.
    fn admit_frame(&mut self, line: &[u8]) -> Result<BitGiven, Why>
        ensures frame { (c : Circuit) (r : BitRead) → ReadsBits c self.old r → GivesFrame c r line.now self.new result }
        ensures bits { IfOk result (HasBits self.old.circuit.now line.now) }
        ensures circuit { self.new.circuit ≡ self.old.circuit }
        ensures err { OnErr result (self.new ≡ self.old) }
    {
        if let Some(why) = no_bits(line, u64::from(self.circuit.inputs())) {
            return Err(why);
        }
        self.place = BitPlace::Later;
        Ok(BitGiven::Frame)
    }

    /// The line has ended: what it gives where it is admitted, or why it is not. Of a longer line as many bytes are enough as
    /// there is room for, and whether all others are digits.
    pub(crate) fn admit(&mut self, line: &[u8], digits: bool) -> Result<BitGiven, Why>
        ensures line { (c : Circuit) (r : BitRead) (whole : List ℕ) → ReadsBits c self.old r
            → AreFront (line_room c) line.now digits whole
            → GivesBitLine c r line.now whole self.new result }
        ensures bits { IfOk result (HasBits self.old.circuit.now line.now) }
        ensures circuit { self.new.circuit ≡ self.old.circuit }
        ensures err { OnErr result (self.new ≡ self.old) }
    {
        match self.place {
            BitPlace::Header => {
                if !is_word(line, b"1") {
                    return Err(Why::BadHeader);
                }
                self.place = BitPlace::Claim;
                Ok(BitGiven::Nothing)
            }
            BitPlace::Claim => {
                self.claim = claim_of(line, digits, self.circuit.bads().len() as u64)?;
                self.place = BitPlace::Initial;
                Ok(BitGiven::Nothing)
            }
            BitPlace::Initial => {
                if let Some(why) = no_bits(line, self.circuit.latches().len() as u64) {
                    return Err(why);
                }
                self.place = BitPlace::First;
                Ok(BitGiven::Initial)
            }
            BitPlace::First => {
                if is_word(line, b".") {
                    return Err(Why::FrameOrder);
                }
                self.admit_frame(line)
            }
            BitPlace::Later => {
                if is_word(line, b".") {
                    self.place = BitPlace::Done;
                    return Ok(BitGiven::Nothing);
                }
                self.admit_frame(line)
            }
            BitPlace::Done => Err(Why::Trailing),
        }
    }
}
