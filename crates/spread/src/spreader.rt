//! What goes on of a witness over a model with words of any width, line by line.
ghost use Rattle.std.specs.Prelude.{◌≡◌, ℕ, ◌<◌, ◌^◌, List, [], ◌∷◌, ◌++◌, length, flat_map, IfOk};
ghost use Rattle.base.specs.declared.pen.Pen.{Pen as PenValue};
ghost use Rattle.base.specs.Lines.{IsLine};
ghost use Rattle.btor2.specs.declared.item.Item.{Item};
ghost use Rattle.btor2.specs.Lists.{first_init_without_next};
ghost use Rattle.runs.specs.Refusal.{AnswersNew};
ghost use Rattle.rejoin.specs.Pieces.{cut_width};
ghost use Rattle.witness.specs.Texts.{Shape as ShapeValue};
ghost use Rattle.witness.specs.Admits.{begins_part};
ghost use Rattle.spread.specs.Passing.{told};
ghost use Rattle.spread.specs.Stands.{EndsFor, Gives, StandsFor, Takes, TellsOf, part_behind, passing_in_part};

use crate::giving::{give, give_assigned};
use crate::words::{Words, owner};
use base::{Pen, Sink};
use btor2::Model;
use rejoin::Shape;
use runs::NewFault;
use std::alloc::{AllocError, Global};
use std::marker;
use witness::{Judgement, WordJudge};

/// Which part of a frame is open.
#[derive(Clone, Copy, PartialEq, Eq)]
pub enum Part {
    /// None.
    Outside,
    /// The words of states.
    States,
    /// The words of inputs.
    Inputs,
}

/// Whether a line begins as one that opens or ends a part.
pub fn begins_part(line: &[u8]) -> bool
    ensures { result ≡ begins_part line.now }
{
    match line {
        [] => false,
        [first, ..] => *first == b'#' || *first == b'@' || *first == b'.',
    }
}

/// The part that is open behind an admitted line.
pub fn part_behind(part: Part, line: &[u8]) -> Part
    ensures { result ≡ part_behind part line.now }
{
    match line {
        [b'#', ..] => Part::States,
        [b'@', ..] => Part::Inputs,
        [b'.', ..] => Part::Outside,
        _ => part,
    }
}

/// A judge of witnesses over a model with words of any width. It is fed whole lines, and feeds the judge of the fitted model with
/// those of their pieces. A faulty line goes on as one that is faulty for the same why. Beside that judge it holds a number
/// for each state and each input, and a fixed number of words.
#[derive(Drop)]
pub(crate) struct Spreader<'a, 's> {
    judge: WordJudge<'a>,
    states: Words<'s>,
    inputs: Words<'s>,
    // the part that is open
    part: Part,
    // how many lines are admitted
    admitted: u64,
    // whether a line was refused
    refused: bool,
}

impl<'a, 's> marker::Model for Spreader<'a, 's> {
    ghost use Rattle.spread.specs.Stands.{Spreader as SpreaderValue};

    ghost Value = { SpreaderValue };

    ghost view = { λ s. record { judge = s.judge; states = s.states; inputs = s.inputs; part = s.part; admitted = s.admitted; refused = s.refused } };
}

/// Gives the judge what goes on for a line where this part is open.
fn give_in_part<K: Sink>(
    judge: &mut WordJudge<'_>,
    pen: &mut Pen,
    sink: &mut K,
    states: &Words<'_>,
    inputs: &Words<'_>,
    part: Part,
    line: &[u8],
)
    requires { IsLine line.now }
    ensures { Gives K.written K.failures sink.old sink.new pen.old pen.new judge.old judge.new
        (passing_in_part states.now inputs.now part line.now) }
{
    if begins_part(line) {
        return give(judge, pen, sink, line);
    }
    match part {
        Part::Outside => give(judge, pen, sink, line),
        Part::States => give_assigned(judge, pen, sink, states, line),
        Part::Inputs => give_assigned(judge, pen, sink, inputs, line),
    }
}

/// What is told where this is judged over the fitted model: a line that is refused is that with this number, and an initial word
/// that differs is that of the state that the piece is of, of states of these widths.
fn told(states: &[u64], line: u64, judgement: Judgement) -> Judgement
    ensures { (shape : ShapeValue) → states.now ≡ shape.states → result ≡ told shape line judgement }
{
    match judgement {
        Judgement::Malformed { why, .. } => Judgement::Malformed { line, why },
        Judgement::InitDiffers { index } => Judgement::InitDiffers {
            index: owner(states, index),
        },
        _ => judgement,
    }
}

impl<'a, 's> Spreader<'a, 's> {
    /// One that stands for the empty text of a witness over a model with states and inputs of these widths, which is fitted into
    /// the other.
    ///
    /// Errors: `NoNext` with the first state of the fitted model in file order that has an init and no next; else `NoMemory`.
    pub(crate) fn new(
        alloc: Global,
        states: &'s [u64],
        inputs: &'s [u64],
        narrow: &'a Model,
    ) -> Result<Spreader<'a, 's>, NewFault>
        requires states { length (flat_map cut_width states.now) < 2 ^ 64 }
        requires inputs { length (flat_map cut_width inputs.now) < 2 ^ 64 }
        ensures ok { IfOk result (λ s. (shape : ShapeValue) → states.now ≡ shape.states
            → inputs.now ≡ shape.inputs → StandsFor shape narrow.now s []) }
        ensures answer { AnswersNew result (first_init_without_next narrow.now narrow.now) }
    {
        let judge = WordJudge::new(alloc, narrow)?;
        match (Words::new(alloc, states), Words::new(alloc, inputs)) {
            (Ok(states), Ok(inputs)) => Ok(Spreader {
                judge,
                states,
                inputs,
                part: Part::Outside,
                admitted: 0,
                refused: false,
            }),
            _ => Err(NewFault::NoMemory),
        }
    }

    /// The judge of the fitted model.
    pub(crate) fn judge(&self) -> &WordJudge<'a>
        ensures { result.now ≡ self.now.judge }
    {
        &self.judge
    }

    /// Takes the bytes behind the last line.
    pub(crate) fn take_rest(&mut self, rest: &[u8])
        ensures { (shape : ShapeValue) (narrow : List Item) (text : List ℕ) → IsLine rest.now
            → StandsFor shape narrow self.old text → EndsFor shape narrow self.new (text ++ rest.now) }
    {
        self.judge.feed(rest);
    }

    /// The judgement of the text.
    pub(crate) fn finish(self) -> Judgement
        ensures { (shape : ShapeValue) (narrow : List Item) (text : List ℕ)
            → EndsFor shape narrow self.entry text → TellsOf shape narrow text result }
    {
        let line = self.admitted.saturating_add(1);
        let judgement = self.judge.finish();
        told(self.states.widths(), line, judgement)
    }

    /// Takes a line.
    pub(crate) fn take_line<K: Sink>(&mut self, pen: &mut Pen, sink: &mut K, line: &[u8])
        requires { IsLine line.now }
        ensures { Takes K.written K.failures sink.old sink.new pen.old pen.new self.old self.new
            line.now }
    {
        if self.refused {
            return;
        }
        let before = self.judge.admitted_lines();
        give_in_part(
            &mut self.judge,
            pen,
            sink,
            &self.states,
            &self.inputs,
            self.part,
            line,
        );
        if self.judge.admitted_lines() == before {
            self.refused = true;
            return;
        }
        self.admitted = self.admitted.saturating_add(1);
        self.part = part_behind(self.part, line);
    }
}
