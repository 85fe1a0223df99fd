//! The whole lines of a witness over a model, judged one after the other.
ghost use Rattle.std.specs.Prelude.{◌≡◌, ℕ, ◌&&◌, ◌||◌, List, [], ◌∷◌, ◌++◌, None, codes};
ghost use Rattle.std.specs.Str.{bytes_eq};
ghost use Rattle.btor2.specs.declared.item.Item.{Item};
ghost use Rattle.witness.specs.Admits.{is_at_end};
ghost use Rattle.witness.specs.KeptLines.{AreAlike};
ghost use Rattle.witness.specs.Stands.{IsOfLines};
ghost use Rattle.witness.specs.WordStands.{is_status, place_of, word_judging};
ghost use Rattle.witness.specs.WordJudging.{judge_with};

use crate::verdicts::are_most;
use crate::why::Why;
use crate::word_line::is_word;
use crate::word_reader::{Place, WordReader};

/// What the whole lines of a witness over a model say, and how they are judged.
#[derive(Drop)]
pub(crate) struct WordLines<'a> {
    pub(crate) reader: WordReader<'a>,
    // how many are admitted
    pub(crate) admitted: u64,
    // why the one behind them was refused
    pub(crate) refused: Option<Why>,
    // the status says that there is no claim
    pub(crate) no_claim: bool,
}

/// Whether a line says that there is no claim, where it may be the status.
fn says_no_claim(place: Place, line: &[u8]) -> bool
    ensures { result ≡ (is_status (place_of place)
        && (bytes_eq line.now (codes "unsat") || bytes_eq line.now (codes "unknown"))) }
{
    matches!(place, Place::Status) && (is_word(line, b"unsat") || is_word(line, b"unknown"))
}

/// Whether the last line of a witness is admitted.
pub(crate) fn has_ended(place: Place) -> bool
    ensures { result ≡ is_at_end (place_of place) }
{
    matches!(place, Place::End)
}

impl<'a> WordLines<'a> {
    /// A line has ended behind the others, none of which was refused. Of its bytes the first 342 are enough.
    pub(crate) fn judge(&mut self, line: &[u8])
        ensures { (items : List Item) (kept : List ℕ) (lines : List (List ℕ)) (bytes : List ℕ)
            → IsOfLines (word_judging items) (judge_with self.old kept) lines bytes
            → AreAlike line.now bytes → self.old.refused ≡ None
            → IsOfLines (word_judging items) (judge_with self.new kept) (lines ++ bytes ∷ []) [] }
    {
        if are_most(self.admitted) {
            self.refused = Some(Why::TooLong);
            return;
        }
        self.no_claim |= says_no_claim(self.reader.place(), line);
        match self.reader.admit(line) {
            Ok(()) => self.admitted += 1,
            Err(why) => self.refused = Some(why),
        }
    }
}
