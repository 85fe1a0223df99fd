//! What is told of the first words of states, heard while a text is judged.
ghost use Rattle.std.specs.Prelude.{◌≡◌, ◌<◌, ◌≤◌, ◌^◌, ℕ, List, [], ◌∷◌, ◌++◌, length, true, false, is_some, IfOk};
ghost use Rattle.btor2.specs.declared.item.Item.{Item};
ghost use Rattle.witness.specs.Texts.{Shape};
ghost use Rattle.fulljudge.specs.Kept.{words_in};
ghost use Rattle.fulljudge.specs.Compared.{HearsFirst, noted, told_more};

use crate::addresses::front_and_tail;
use crate::compared::StateWords;
use crate::values::Values;
use base::decimal;
use spread::{Hearer, Part, part_behind};
use std::alloc::{AllocError, Global};
use witness::WordJudge;

/// What is told of the words of states in the first frame, and, where that is closed, a state that is told otherwise than it is.
#[derive(Drop)]
pub(crate) struct FirstWords<'w> {
    states: &'w Values,
    words: &'w StateWords,
    // of each word by which the states are told whether it is told
    flags: Vec<bool>,
    // the part that is open
    part: Part,
    // whether the first frame is closed
    closed: bool,
    found: Option<u64>,
}

impl<'w> std::marker::Model for FirstWords<'w> {
    ghost use Rattle.fulljudge.specs.Compared.{FirstWords as FirstWordsValue};

    ghost Value = { FirstWordsValue };

    ghost view = { λ h. record { states = h.states.now; words = h.words.now; flags = h.flags.items; part = h.part; closed = h.closed; found = h.found } };
}

/// Notes that the word with an index is told, where there is one.
fn note(flags: &mut [bool], index: u64)
    ensures { flags.new ≡ noted flags.old index }
{
    if index < flags.len() as u64 {
        flags[index as usize] = true;
    }
}

impl<'w> FirstWords<'w> {
    /// What is told in no line, of a model with states of these sorts.
    ///
    /// Error: a growth was refused.
    pub(crate) fn new(
        alloc: Global,
        states: &'w Values,
        words: &'w StateWords,
    ) -> Result<FirstWords<'w>, AllocError>
        ensures { IfOk result (λ h. (shape : Shape) (narrow : List Item)
            → HearsFirst (record { sorts = states.now; words = words.now; count = words_in states.now }) h shape narrow []) }
    {
        let mut flags = Vec::new(alloc);
        for _ in 0..states.words() {
            flags.push(false)?;
        }
        Ok(FirstWords {
            states,
            words,
            flags,
            part: Part::Outside,
            closed: false,
            found: None,
        })
    }

    /// Hears a line before the first frame is closed.
    fn hear_told(&mut self, line: &[u8])
        ensures { self.new ≡ told_more self.old line.now }
    {
        if self.part == Part::States {
            let (front, _) = front_and_tail(line);
            if let Some(index) = decimal(front) {
                note(self.flags.as_mut_slice(), index);
            }
        }
        self.part = part_behind(self.part, line);
    }

    /// A state that is told otherwise than it is.
    pub(crate) fn found(&self) -> Option<u64>
        ensures { result ≡ self.now.found }
    {
        self.found
    }
}

impl<'w> Hearer for FirstWords<'w> {
    ghost use Rattle.fulljudge.specs.Compared.{OfStates};

    ghost Over = { OfStates };

    ghost stands = { HearsFirst };

    fn hear(&mut self, line: &[u8], judge: &WordJudge<'_>) {
        if self.closed {
            return;
        }
        if judge.closed_frames() == 0 {
            self.hear_told(line);
            return;
        }
        self.found = self
            .words
            .first_otherwise(judge, self.states, self.flags.as_slice());
        self.closed = true;
    }
}
