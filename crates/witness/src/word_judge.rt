//! The judge of witnesses over a model.
ghost use Rattle.std.specs.Prelude.{◌≡◌, ℕ, ◌+◌, ◌<◌, ◌^◌, ◌||◌, true, List, [], ◌∷◌, ◌++◌, IfNone, IfOk, IfSome, None};
ghost use Rattle.btor2.specs.declared.item.Item.{Item};
ghost use Rattle.btor2.specs.Check.{IsWellFormed};
ghost use Rattle.btor2.specs.Lists.{first_init_without_next};
ghost use Rattle.btor2.specs.Trace.{Frame};
ghost use Rattle.runs.specs.Refusal.{AnswersNew};
ghost use Rattle.runs.specs.Run.{node_count, state_count};
ghost use Rattle.witness.specs.Texts.{shape_of};
ghost use Rattle.witness.specs.Judgements.{Judges};
ghost use Rattle.witness.specs.Accepted.{AcceptsExactly};
ghost use Rattle.witness.specs.WordPlays.{steps_of};
ghost use Rattle.witness.specs.ClosedWords.{admitted_word_lines, closed_word_frames, IsClosedTrace, last_word};
ghost use Rattle.witness.specs.Reached.{word_reached};
ghost use Rattle.base.specs.Lines.{IsLine, unfinished};
ghost use Rattle.witness.specs.declared.word_reader.Place.TheVariants as place;
ghost use Rattle.witness.specs.WordStands.{StandsForWitness, JudgesLine, JudgesLines, NoPlainLine, is_alone, place_of};

use crate::cut_line::CutLine;
use crate::judgement::Judgement;
use crate::verdicts::{are_most, last_refusal};
use crate::why::Why;
use crate::word_lines::{WordLines, has_ended};
use crate::word_reader::{WordReader, is_alone};
use base::{Taker, next_line};
use btor2::Model;
use runs::NewFault;
use std::alloc::{AllocError, Global};

/// A judge of witnesses over a model, which it borrows: it is fed a text piece by piece, and keeps none of it. Beside the
/// values of one run of the model it holds two flags for each bad property, a flag and a width for each state and each
/// input, and a fixed number of words; neither feeding nor finishing takes memory or refuses anything.
///
/// Clauses see what it holds; which texts it stands for is a relation to that.
#[derive(Drop)]
pub struct WordJudge<'a> {
    lines: WordLines<'a>,
    // the first bytes of the line that has not ended
    line: CutLine,
}

impl<'a> std::marker::Model for WordJudge<'a> {
    ghost use Rattle.std.specs.Prelude.{◌≡◌};
    ghost use Rattle.witness.specs.WordStands.{WordJudge as WordJudgeValue};
    ghost use Rattle.witness.specs.WordJudging.{judge_with};

    ghost Value = { WordJudgeValue };

    ghost view = { λ j. judge_with j.lines j.line.bytes };

    ghost invariant = { λ j. j.line.room ≡ 342 };
}

/// Of a line of a witness over a model 342 bytes are enough: but for comments and the line of claims, one that is longer is
/// refused, and its first 342 bytes for the same why.
const ENOUGH: usize = 342;

impl<'a> WordJudge<'a> {
    /// A judge of witnesses over a model, which stands for the empty text.
    ///
    /// Errors: `NoNext` with the first state in file order that has an init and no next; else `NoMemory`.
    pub fn new(alloc: Global, model: &'a Model) -> Result<WordJudge<'a>, NewFault>
        ensures ok { IfOk result (λ judge. StandsForWitness model.now judge []) }
        ensures answer { AnswersNew result (first_init_without_next model.now model.now) }
    {
        let reader = WordReader::new(alloc, model)?;
        let line = match CutLine::new(alloc, ENOUGH) {
            Ok(line) => line,
            Err(AllocError) => return Err(NewFault::NoMemory),
        };
        let lines = WordLines {
            reader,
            admitted: 0,
            refused: None,
            no_claim: false,
        };
        Ok(WordJudge { lines, line })
    }

    /// Takes bytes of a line that does not end with them.
    fn take_part(&mut self, bytes: &[u8])
        ensures stands { (items : List Item) (text : List ℕ) → IsLine bytes.now
            → StandsForWitness items self.old text
            → StandsForWitness items self.new (text ++ bytes.now) }
        ensures refused { self.new.refused ≡ self.old.refused }
    {
        self.line.extend(bytes);
        if self.lines.refused.is_none() {
            self.lines.reader.take(bytes);
        }
    }

    /// Takes the rest of a line, none before which was refused, and its end.
    fn take_rest(&mut self, bytes: &[u8])
        ensures { (items : List Item) (text : List ℕ) → IsLine bytes.now
            → StandsForWitness items self.old text → self.old.refused ≡ None
            → StandsForWitness items self.new (text ++ (bytes.now ++ 10 ∷ [])) }
    {
        self.take_part(bytes);
        self.lines.judge(self.line.bytes());
        self.line.clear();
    }

    /// Whether a line that begins is judged by its bytes alone.
    fn takes_whole_lines(&self) -> bool
        ensures alone { result ≡ true → is_alone (place_of self.now.reader.place) ≡ true }
        ensures begins { (items : List Item) (text : List ℕ) → StandsForWitness items self.now text
            → result ≡ true → unfinished text ≡ [] }
    {
        is_alone(self.lines.reader.place()) & self.line.is_empty()
    }

    /// Takes the rest of a line and its end.
    fn take_line(&mut self, bytes: &[u8])
        ensures { (items : List Item) (text : List ℕ) → IsLine bytes.now
            → StandsForWitness items self.old text
            → StandsForWitness items self.new (text ++ (bytes.now ++ 10 ∷ [])) }
    {
        if self.lines.refused.is_some() {
            self.line.clear();
            return;
        }
        if self.takes_whole_lines() {
            self.lines.judge(bytes);
            return;
        }
        self.take_rest(bytes);
    }

    /// Takes the plain line with which a text begins, and answers the text behind it; nothing is taken of another text.
    #[inline(always)]
    fn take_plain<'t>(&mut self, text: &'t [u8]) -> Option<&'t [u8]>
        requires unrefused { self.old.refused ≡ None }
        requires begins { self.old.line ≡ [] }
        ensures line { IfSome result (λ rest. JudgesLine self.old self.new text.now rest.now) }
        ensures none { IfNone result (self.old.admitted < 2 ^ 62
            → self.old.reader.place ≡ place.Frame → NoPlainLine self.old.reader text.now) }
        ensures kept { IfNone result (self.new ≡ self.old) }
        ensures unrefused { self.new.refused ≡ None }
        ensures begins { self.new.line ≡ [] }
    {
        if are_most(self.lines.admitted) {
            return None;
        }
        let rest = self.lines.reader.take_line(text)?;
        self.lines.admitted += 1;
        Some(rest)
    }

    /// Takes the plain lines with which a text begins, each in one pass, and answers the text behind them.
    #[inline(always)]
    fn take_plain_lines<'t>(&mut self, text: &'t [u8]) -> &'t [u8]
        ensures lines { JudgesLines self.old self.new text.now result.now }
        ensures none { self.new.refused ≡ None → self.new.admitted < 2 ^ 62 → self.new.line ≡ []
            → self.new.reader.place ≡ place.Frame
            → NoPlainLine self.new.reader result.now }
    {
        if self.lines.refused.is_some() || !self.line.is_empty() {
            return text;
        }
        let mut rest = text;
        while let Some(behind) = self.take_plain(rest) {
            rest = behind;
        }
        rest
    }

    /// Takes the line with which a text begins, whatever it is, and answers the text behind it; nothing where no byte 10
    /// ends it.
    fn take_any<'t>(&mut self, text: &'t [u8]) -> Option<&'t [u8]>
        ensures line { IfSome result (λ rest. JudgesLine self.old self.new text.now rest.now) }
        ensures none { IfNone result (IsLine text.now) }
        ensures kept { IfNone result (self.new ≡ self.old) }
    {
        let (line, rest) = next_line(text)?;
        self.take_line(line);
        Some(rest)
    }

    /// Takes a piece of the text behind those before: a judge that stood for a text stands for that text with the piece
    /// behind it.
    pub fn feed(&mut self, bytes: &[u8])
        ensures { (items : List Item) (text : List ℕ) → StandsForWitness items self.old text
            → StandsForWitness items self.new (text ++ bytes.now) }
    {
        let mut rest = self.take_plain_lines(bytes);
        while let Some(behind) = self.take_any(rest) {
            rest = self.take_plain_lines(behind);
        }
        self.take_part(rest);
    }

    /// The judgement of the text so far: of every one that the judge stands for.
    fn judgement(&self) -> Judgement
        ensures { (items : List Item) (text : List ℕ) → StandsForWitness items self.now text
            → Judges items text result }
    {
        if self.lines.no_claim {
            return Judgement::NoClaim;
        }
        let line = self.lines.admitted.saturating_add(1);
        if let Some(why) = self.lines.refused {
            return Judgement::Malformed { line, why };
        }
        let ended = has_ended(self.lines.reader.place());
        if let Some(why) = last_refusal(ended, self.lines.admitted, self.line.is_empty()) {
            return Judgement::Malformed { line, why };
        }
        self.lines
            .reader
            .play()
            .judgement(self.lines.reader.unreached())
    }

    /// The judgement of the text: of every one that the judge stands for.
    pub fn finish(self) -> Judgement
        ensures judged { (items : List Item) (text : List ℕ)
            → StandsForWitness items self.entry text → Judges items text result }
        // accepted exactly where the text says a witness of which this is judged
        ensures accepted { (items : List Item) (text : List ℕ) → IsWellFormed items
            → StandsForWitness items self.entry text → AcceptsExactly items text result }
    {
        self.judgement()
    }

    /// How many words the judge's run holds: one for each node with a value, and one for each state.
    pub fn held(&self) -> u64
        ensures { (items : List Item) (text : List ℕ) → StandsForWitness items self.now text
            → result ≡ node_count items + state_count items }
    {
        self.lines.reader.play().held()
    }

    /// The steps that the run has taken: for each closed frame one for each node with a value and one for each state, those
    /// of moving on from the last of them too. The count stays at its greatest value, 2^128 - 1, once it is there.
    #[tactic(auto, unfolding(crate::specs::Readings::reading))]
    pub fn steps(&self) -> u128
        ensures { (items : List Item) (text : List ℕ) → StandsForWitness items self.now text
            → result ≡ steps_of items (closed_word_frames (shape_of items) text) }
    {
        self.lines.reader.play().steps()
    }

    /// How many frames are closed: those whose closing lines, the next `@<k>` or `#<k>` or the last line, have ended before
    /// the first faulty line.
    #[tactic(auto, unfolding(crate::specs::Readings::reading))]
    pub fn closed_frames(&self) -> u64
        ensures { (items : List Item) (text : List ℕ) → StandsForWitness items self.now text
            → result ≡ closed_word_frames (shape_of items) text }
    {
        self.lines.reader.play().frames()
    }

    /// The word of a node in the frame that was closed last, by its position in the model's items. There is one at a node
    /// with a value, from the line that closes the frame on until a line gives a word in the next frame.
    pub fn closed_word(&self, node: usize) -> Option<u64>
        ensures { (items : List Item) (text : List ℕ) (fs : List Frame)
            → StandsForWitness items self.now text → IsClosedTrace items text fs
            → result ≡ last_word items text fs node }
    {
        self.lines.reader.play().closed_word(node)
    }

    /// Whether the bad property at a position, counted from 0 in file order, is claimed, and was 1 in a closed frame; none is
    /// beyond the last. It takes no memory.
    pub fn has_reached(&self, position: usize) -> bool
        ensures { (items : List Item) (text : List ℕ) (fs : List Frame)
            → StandsForWitness items self.now text → IsClosedTrace items text fs
            → result ≡ word_reached items text fs position }
    {
        self.lines.reader.reaches(position)
    }

    /// How many whole lines stand before the first faulty line.
    #[tactic(auto, unfolding(crate::specs::Readings::reading))]
    pub fn admitted_lines(&self) -> u64
        ensures { (items : List Item) (text : List ℕ) → StandsForWitness items self.now text
            → result ≡ admitted_word_lines (shape_of items) text }
    {
        self.lines.admitted
    }
}

impl<'a> Taker<()> for WordJudge<'a> {
    ghost use Rattle.std.specs.Prelude.{List, false};
    ghost use Rattle.btor2.specs.declared.item.Item.{Item};
    ghost use Rattle.witness.specs.WordStands.{StandsForWitness};

    ghost Over = { List Item };

    ghost stands = { λ items output judge text. StandsForWitness items judge text };

    ghost is_done = { λ judge. false };

    fn take(&mut self, _output: &mut (), piece: &[u8]) {
        self.feed(piece);
    }

    fn is_done(&self) -> bool {
        false
    }
}
