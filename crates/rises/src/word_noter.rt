//! A judge of witnesses over a model that notes when claims are first reached.
ghost use Rattle.std.specs.Prelude.{◌≡◌, ℕ, List, [], ◌++◌, IfOk};
ghost use Rattle.base.specs.Lines.{IsLine};
ghost use Rattle.btor2.specs.declared.item.Item.{Item};
ghost use Rattle.btor2.specs.Lists.{first_init_without_next};
ghost use Rattle.btor2.specs.Trace.{Frame};
ghost use Rattle.runs.specs.Refusal.{AnswersNew};
ghost use Rattle.witness.specs.Judgements.{Judges};
ghost use Rattle.witness.specs.ClosedWords.{IsClosedTrace};
ghost use Rattle.witness.specs.Reached.{word_reached};
ghost use Rattle.witness.specs.WordStands.{StandsForWitness};
ghost use Rattle.rises.specs.FirstRises.{word_first_rises};
ghost use Rattle.rises.specs.Notes.{EndsLine, IsNoted, NotesWords};

use crate::first_rises::FirstRises;
use base::{Taker, next_line};
use btor2::Model;
use runs::NewFault;
use std::alloc::Global;
use witness::{Judgement, WordJudge};

/// A judge of witnesses over a model, and what is noted of the text so far. Beside what the judge holds it keeps one frame
/// for each bad property.
#[derive(Drop)]
pub(crate) struct WordNoter<'a> {
    judge: WordJudge<'a>,
    firsts: FirstRises,
}

/// Notes the frame with this number, the one that a judge closed last, for each claim that is reached and has none noted.
pub fn note_words(judge: &WordJudge<'_>, firsts: &mut FirstRises, frame: u64)
    ensures { (items : List Item) (text : List ℕ) (fs : List Frame)
        → StandsForWitness items judge.now text → IsClosedTrace items text fs
        → IsNoted (word_reached items text fs) frame firsts.old firsts.new }
{
    for position in 0..firsts.len() {
        firsts.note(position, judge.has_reached(position), frame);
    }
}

impl<'a> WordNoter<'a> {
    /// Of the empty text.
    ///
    /// Errors: `NoNext` with the first state in file order that has an init and no next; else `NoMemory`.
    pub(crate) fn new(alloc: Global, model: &'a Model) -> Result<WordNoter<'a>, NewFault>
        ensures ok { IfOk result (λ n. NotesWords model.now n []) }
        ensures answer { AnswersNew result (first_init_without_next model.now model.now) }
    {
        let judge = WordJudge::new(alloc, model)?;
        match FirstRises::new(alloc, model.bads().len()) {
            Ok(firsts) => Ok(WordNoter { judge, firsts }),
            Err(_) => Err(NewFault::NoMemory),
        }
    }

    /// Takes bytes that end no line.
    fn take_bytes(&mut self, bytes: &[u8])
        ensures { (items : List Item) (text : List ℕ) → IsLine bytes.now
            → NotesWords items self.old text → NotesWords items self.new (text ++ bytes.now) }
    {
        self.judge.feed(bytes);
    }

    /// Takes the rest of a line with its end, and notes the frame that it closes.
    fn take_line(&mut self, bytes: &[u8])
        requires { EndsLine bytes.now }
        ensures { (items : List Item) (text : List ℕ) → NotesWords items self.old text
            → NotesWords items self.new (text ++ bytes.now) }
    {
        let closed = self.judge.closed_frames();
        self.judge.feed(bytes);
        if self.judge.closed_frames() == closed {
            return;
        }
        note_words(&self.judge, &mut self.firsts, closed);
    }

    /// Takes a piece of the text behind those before.
    pub(crate) fn feed(&mut self, bytes: &[u8])
        ensures { (items : List Item) (text : List ℕ) → NotesWords items self.old text
            → NotesWords items self.new (text ++ bytes.now) }
    {
        let mut rest = bytes;
        while let Some((line, behind)) = next_line(rest) {
            let (whole, _) = rest.split_at(line.len() + 1);
            self.take_line(whole);
            rest = behind;
        }
        self.take_bytes(rest);
    }

    /// The judgement of the text, and what was noted of it.
    pub(crate) fn finish(self) -> (Judgement, FirstRises)
        ensures judged { (items : List Item) (text : List ℕ) → NotesWords items self.entry text
            → Judges items text result.0 }
        ensures firsts { (items : List Item) (text : List ℕ) (fs : List Frame)
            → NotesWords items self.entry text → IsClosedTrace items text fs
            → result.1 ≡ word_first_rises items text fs }
    {
        let WordNoter { judge, firsts } = self;
        (judge.finish(), firsts)
    }
}

impl<'a> Taker<()> for WordNoter<'a> {
    ghost use Rattle.std.specs.Prelude.{List, false};
    ghost use Rattle.btor2.specs.declared.item.Item.{Item};
    ghost use Rattle.rises.specs.Notes.{NotesWords};

    ghost Over = { List Item };

    ghost stands = { λ items output noter text. NotesWords items noter text };

    ghost is_done = { λ noter. false };

    fn take(&mut self, _output: &mut (), piece: &[u8]) {
        self.feed(piece);
    }

    fn is_done(&self) -> bool {
        false
    }
}
