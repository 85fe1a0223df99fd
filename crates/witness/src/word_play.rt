//! The frames of a witness over a model, played while its lines are read.
ghost use Rattle.std.specs.Prelude.{◌≡◌, ℕ, ◌<◌, ◌+◌, ◌^◌, ◌==◌, true, false, Option, None, List, [], ◌∷◌, ◌++◌, if◌then◌else◌, IfErr, IfNone, IfOk, IfSome, OnErr, is_some, length, All, Some, MatchOption, suc, decimal};
ghost use Rattle.btor2.specs.Items.{is_input, is_state, is_bad};
ghost use Rattle.btor2.specs.Check.{IsWellFormed};
ghost use Rattle.btor2.specs.Lists.{places, width_at, first_init_without_next};
ghost use Rattle.btor2.specs.Trace.{Frame};
ghost use Rattle.runs.specs.Run.{IsNow, node_count, state_count};
ghost use Rattle.runs.specs.Refusal.{AnswersNew};
ghost use Rattle.witness.specs.Judgements.{FrameWords, pairs_of, first_different, first_of};
ghost use Rattle.witness.specs.Texts.{Assignment, shape_of, widths_of};
ghost use Rattle.witness.specs.KeptLines.{IsNarrowShape};
ghost use Rattle.witness.specs.Fits.{NoneIsSet, PairFits};
ghost use Rattle.witness.specs.PlainLines.{NoAssignment, NoFrameLine};
ghost use Rattle.witness.specs.WordPlays.{IsStart, GoesOn, Plays, MayGive, GivesState, GivesInput, TakesInput, state_given, input_given, nothing_given, word_at, steps_taken};
ghost use Rattle.witness.specs.WordValues.{widths_by};

use crate::given::Given;
use crate::judgement::Judgement;
use crate::plain_line::{behind_frame_line, plain_assignment};
use crate::verdicts::{
    Breach, first_different, first_violated, judgement_of, note_breach, note_rises,
};
use crate::why::Why;
use crate::word_fields::assigned;
use base::{Counter, Fixed, Width};
use btor2::Model;
use runs::{NewFault, WordRun};
use std::alloc::{AllocError, Global};

/// The frames of a witness over a model that are closed, and the words that are given in the open one.
#[derive(Drop)]
pub(crate) struct WordPlay<'a> {
    model: &'a Model,
    // it stays settled in the frame that was closed last until a word of the next is given, or that is closed too
    run: WordRun<'a>,
    // for each state, and for each input, how many bits it has
    state_widths: Fixed<Width>,
    input_widths: Fixed<Width>,
    // for each state, and for each input, whether it has a word in the part that is open
    states_given: Given,
    inputs_given: Given,
    // the first state whose initial word is not that of its init line, once the first frame is closed
    differs: Option<u64>,
    frames: Counter,
    // the first constraint that did not hold in a closed frame
    breach: Option<Breach>,
    // for each bad property whether it rose in a closed frame
    rose: Fixed<bool>,
}

impl<'a> std::marker::Model for WordPlay<'a> {
    ghost use Rattle.std.specs.Prelude.{◌≡◌, length};
    ghost use Rattle.btor2.specs.Items.{is_input, is_state, is_bad};
    ghost use Rattle.btor2.specs.Lists.{places};
    ghost use Rattle.witness.specs.Texts.{widths_of};
    ghost use Rattle.witness.specs.WordPlays.{WordPlay as WordPlayValue};

    ghost Value = { WordPlayValue };

    ghost view = { λ p. record { items = p.model.now; run = p.run; states_given = p.states_given; inputs_given = p.inputs_given; differs = p.differs; frames = p.frames; breach = p.breach; rose = p.rose } };

    ghost invariant = { λ p. (p.run.items ≡ p.model.now) × (length p.states_given ≡ length (places is_state 0 p.model.now)) × (length p.inputs_given ≡ length (places is_input 0 p.model.now)) × (length p.rose ≡ length (places is_bad 0 p.model.now)) × (p.state_widths ≡ widths_of is_state p.model.now) × (p.input_widths ≡ widths_of is_input p.model.now) };
}

/// The width of a node at a place of a model.
fn width_at(model: &Model, place: usize) -> Width
    requires there { place < length model.now }
    requires some { is_some (width_at model.now place) ≡ true }
    ensures { Some result ≡ width_at model.now place }
{
    match model.width_of(place) {
        Some(width) => width,
        None => unreachable!(),
    }
}

/// The widths of the nodes at some places of a model, in the order of the places.
///
/// Error: `NoMemory`.
fn widths_at(alloc: Global, model: &Model, places: &[usize]) -> Result<Fixed<Width>, NewFault>
    requires there { All (λ k. k < length model.now) places.now }
    requires some { All (λ k. is_some (width_at model.now k) ≡ true) places.now }
    ensures ok { IfOk result (λ widths. widths ≡ widths_by model.now places.now) }
    ensures fault { IfErr result (λ fault. fault ≡ NewFault.NoMemory) }
{
    let mut widths = Vec::new(alloc);
    for place in places {
        match widths.push(width_at(model, *place)) {
            Ok(()) => {}
            Err(_) => return Err(NewFault::NoMemory),
        }
    }
    Ok(Fixed::new(widths))
}

/// So many flags, none of them set.
pub(crate) fn no_flags(alloc: Global, count: usize) -> Result<Fixed<bool>, NewFault>
    ensures many { IfOk result (λ flags. length flags ≡ count) }
    ensures none { IfOk result (λ flags. NoneIsSet flags) }
    ensures fault { IfErr result (λ fault. fault ≡ NewFault.NoMemory) }
{
    match vec![in alloc; false; count] {
        Ok(flags) => Ok(Fixed::new(flags)),
        Err(AllocError) => Err(NewFault::NoMemory),
    }
}

/// Notes the first state with another word than that of its init line, in the first frame.
fn note_difference(model: &Model, run: &WordRun<'_>, frame: u64, found: &mut Option<u64>)
    requires same { run.now.items ≡ model.now }
    requires well_formed { IsWellFormed model.now }
    requires settled { run.now.settled ≡ true }
    ensures { (f : Frame) → IsNow run.now f → found.new
        ≡ (if frame == 0 then first_different model.now f else found.old) }
{
    if frame == 0 {
        *found = first_different(model, run);
    }
}

/// Moves a run on from the frame that it is settled in.
#[inline(always)]
fn go_on(run: &mut WordRun<'_>)
    ensures goes { GoesOn run.old.settled run.old run.new }
    ensures same { run.new.items ≡ run.old.items }
{
    if !run.is_settled() {
        return;
    }
    run.advance();
}

/// Whether a node with a value stands at a position in a model's items.
fn has_value(model: &Model, node: usize) -> bool
    ensures { result ≡ is_some (width_at model.now node) }
{
    if node >= model.items().len() {
        return false;
    }
    model.width_of(node).is_some()
}

impl<'a> WordPlay<'a> {
    /// Of a model, before any line.
    ///
    /// Errors: `NoNext` with the first state in file order that has an init and no next; else `NoMemory`.
    pub(crate) fn new(alloc: Global, model: &'a Model) -> Result<WordPlay<'a>, NewFault>
        ensures ok { IfOk result (λ p. IsStart model.now p) }
        ensures answer { AnswersNew result (first_init_without_next model.now model.now) }
    {
        let _items = model.items();
        let run = WordRun::new(alloc, model)?;
        let state_widths = widths_at(alloc, model, model.states())?;
        let input_widths = widths_at(alloc, model, model.inputs())?;
        let states_given = Given::new(alloc, model.states().len())?;
        let inputs_given = Given::new(alloc, model.inputs().len())?;
        let rose = no_flags(alloc, model.bads().len())?;
        Ok(WordPlay {
            model,
            run,
            state_widths,
            input_widths,
            states_given,
            inputs_given,
            differs: None,
            frames: Counter::new(),
            breach: None,
            rose,
        })
    }

    /// The model.
    pub(crate) fn model(&self) -> &'a Model
        ensures is { result.now ≡ self.now.items }
        ensures small { IsNarrowShape (shape_of self.now.items) }
    {
        let _items = self.model.items();
        let _states = self.model.states().len();
        let _inputs = self.model.inputs().len();
        self.model
    }

    /// The closed frames.
    pub(crate) fn frames(&self) -> u64
        ensures { result ≡ self.now.frames }
    {
        self.frames.count()
    }

    /// The text behind the line that opens the next frame, where a text begins with it.
    #[inline(always)]
    pub(crate) fn behind_next<'t>(&self, text: &'t [u8]) -> Option<&'t [u8]>
        ensures line { MatchOption result (NoFrameLine (suc self.now.frames) text.now)
            (λ rest. text.now ≡ (64 ∷ decimal (suc self.now.frames)) ++ 10 ∷ rest.now) }
        ensures small { suc self.now.frames < 2 ^ 64 }
    {
        let _frames = self.frames.count();
        behind_frame_line(text, &self.frames)
    }

    /// Gives a state a word in the open part.
    fn give_state(&mut self, index: usize, word: u64)
        requires { PairFits (widths_of is_state self.old.items) (index, word) }
        ensures { self.new ≡ state_given self.old index word }
    {
        let _items = self.model.items();
        self.run.set_state(index, word);
        self.states_given.give(index);
    }

    /// Gives an input a word in the open part.
    #[inline(always)]
    fn give_input(&mut self, index: usize, word: u64)
        requires { PairFits (widths_of is_input self.old.items) (index, word) }
        ensures { self.new ≡ input_given self.old index word }
    {
        let _items = self.model.items();
        self.run.set_input(index, word);
        self.inputs_given.give(index);
    }

    /// Gives a state the word of a line in the open part, or answers why the line gives none.
    pub(crate) fn assign_state(&mut self, line: &[u8]) -> Result<(), Why>
        ensures line { (frames : List FrameWords) (before : List Assignment)
            → Plays self.old.items frames (record { states = pairs_of before; inputs = [] })
            self.old → MayGive self.old.items frames line.now
            → GivesState self.old.items frames before line.now self.new result }
        ensures same { self.new.items ≡ self.old.items }
        ensures err { OnErr result (self.new ≡ self.old) }
    {
        let _items = self.model.items();
        let widths = self.state_widths.as_slice();
        let given = assigned(widths, &self.states_given, line)?;
        go_on(&mut self.run);
        self.give_state(given.0 as usize, given.1);
        Ok(())
    }

    /// Gives an input the word of a line in the open part, or answers why the line gives none.
    pub(crate) fn assign_input(&mut self, line: &[u8]) -> Result<(), Why>
        ensures line { (frames : List FrameWords) (states : List (ℕ × ℕ)) (before : List Assignment)
            → Plays self.old.items frames (record { states = states; inputs = pairs_of before })
            self.old → GivesInput self.old.items frames states before line.now self.new result }
        ensures same { self.new.items ≡ self.old.items }
        ensures err { OnErr result (self.new ≡ self.old) }
    {
        let _items = self.model.items();
        let widths = self.input_widths.as_slice();
        let given = assigned(widths, &self.inputs_given, line)?;
        go_on(&mut self.run);
        self.give_input(given.0 as usize, given.1);
        Ok(())
    }

    /// Gives an input the word of the plain line with which a text begins, and answers the text behind the line; nothing
    /// is given where the text begins otherwise.
    #[inline(always)]
    pub(crate) fn take_input<'t>(&mut self, text: &'t [u8]) -> Option<&'t [u8]>
        ensures line { IfSome result (λ rest. TakesInput self.old self.new text.now rest.now) }
        ensures same { self.new.items ≡ self.old.items }
        ensures none { IfNone result
            (NoAssignment (widths_of is_input self.old.items) self.old.inputs_given text.now) }
        ensures kept { IfNone result (self.new ≡ self.old) }
    {
        let _items = self.model.items();
        let widths = self.input_widths.as_slice();
        let (index, word, rest) = plain_assignment(text, widths, &self.inputs_given)?;
        go_on(&mut self.run);
        self.give_input(index as usize, word);
        Some(rest)
    }

    /// Closes the open frame: settles it, and looks at its constraints and at the bad properties. The run moves on later,
    /// so that the frame's words can be read.
    pub(crate) fn close(&mut self)
        ensures more { (frames : List FrameWords) (here : FrameWords)
            → Plays self.old.items frames here self.old → length frames < 2 ^ 62
            → Plays self.old.items (frames ++ here ∷ []) nothing_given self.new }
        ensures same { self.new.items ≡ self.old.items }
    {
        let _items = self.model.items();
        go_on(&mut self.run);
        self.run.settle();
        let frames = self.frames.count();
        note_difference(self.model, &self.run, frames, &mut self.differs);
        let violated = first_violated(self.model, &self.run);
        note_breach(&mut self.breach, frames, violated);
        note_rises(&self.run, self.rose.as_mut_slice());
        self.states_given.clear();
        self.inputs_given.clear();
        self.frames.add_one();
    }

    /// How many words the run holds.
    pub(crate) fn held(&self) -> u64
        ensures { result ≡ node_count self.now.items + state_count self.now.items }
    {
        self.run.held()
    }

    /// The steps of the closed frames, with those of moving on from the last of them.
    pub(crate) fn steps(&self) -> u128
        ensures { result ≡ steps_taken self.now.items self.now.run }
    {
        if !self.run.is_settled() {
            return self.run.steps();
        }
        let states = self.model.states().len() as u128;
        self.run.steps().saturating_add(states)
    }

    /// The word of a node in the frame that was closed last, by its position in the model's items. There is one while the
    /// run has not moved on from that frame, at a node with a value.
    pub(crate) fn closed_word(&self, node: usize) -> Option<u64>
        ensures { (f : Frame) → (self.now.run.settled ≡ true → IsNow self.now.run f)
            → result ≡ (if self.now.run.settled then word_at self.now.items f node else None) }
    {
        if !self.run.is_settled() {
            return None;
        }
        if !has_value(self.model, node) {
            return None;
        }
        Some(self.run.value(node))
    }

    /// What is judged of the closed frames where they are all, by the first claim that is not reached.
    pub(crate) fn judgement(&self, unreached: Option<u64>) -> Judgement
        ensures { result ≡ first_of self.now.differs self.now.breach unreached self.now.frames }
    {
        judgement_of(self.differs, self.breach, unreached, self.frames())
    }

    /// For each bad property whether it rose in a closed frame.
    pub(crate) fn rose(&self) -> &[bool]
        ensures is { result.now ≡ self.now.rose }
        ensures many { length result.now ≡ length (places is_bad 0 self.now.items) }
    {
        self.rose.as_slice()
    }
}
