//! The lines of a witness over a model, admitted one after the other.
ghost use Rattle.std.specs.Prelude.{◌≡◌, ℕ, ◌&&◌, ◌<◌, ◌+◌, ◌-◌, ◌^◌, true, false, Bool, List, [], ◌++◌, IfNone, IfOk, IfSome, OnErr, length, slice_index};
ghost use Rattle.std.specs.Option.{option_map_or};
ghost use Rattle.btor2.specs.declared.item.Item.{Item};
ghost use Rattle.btor2.specs.Items.{is_state, is_bad};
ghost use Rattle.btor2.specs.Lists.{places, is_free_at, first_init_without_next};
ghost use Rattle.btor2.specs.Trace.{Frame};
ghost use Rattle.runs.specs.Refusal.{AnswersNew};
ghost use Rattle.witness.specs.Texts.{has_free, shape_of, is_free_index};
ghost use Rattle.witness.specs.Admits.{Read, nothing_read, opens_states, cut_at_space};
ghost use Rattle.base.specs.Decimals.{number_of};
ghost use Rattle.btor2.specs.Reachability.{nodes_of};
ghost use Rattle.witness.specs.Fits.{first_unreached, NoneIsSet, RisesAmong, AreClaimed, is_set};
ghost use Rattle.witness.specs.declared.word_reader.Place.TheVariants as place;
ghost use Rattle.witness.specs.KeptLines.{AreAlike};
ghost use Rattle.witness.specs.WordStands.{ReadsWords, GivesLine, TakesLine, NoPlainLine, is_alone, place_of};

use crate::verdicts::first_unreached;
use crate::why::Why;
use crate::word_claims::ClaimScan;
use crate::word_fields::index_of;
use crate::word_line::{begins_part, is_comment, is_numbered, is_word};
use crate::word_play::{WordPlay, no_flags};
use base::Fixed;
use btor2::Model;
use runs::NewFault;
use std::alloc::Global;

/// Which line of a witness comes next.
#[derive(Clone, Copy, PartialEq, Eq)]
pub(crate) enum Place {
    /// A comment or the status.
    Status,
    /// The claims.
    Claims,
    /// The first line of the first frame, or of its states' part.
    Parts,
    /// One of a frame's part of states, or the line behind it.
    States,
    /// One of a frame's inputs, the first line of the next frame or of its states' part, or the last line.
    Frame,
    /// None.
    End,
}

/// What the admitted lines of a witness over a model say.
#[derive(Drop)]
pub(crate) struct WordReader<'a> {
    play: WordPlay<'a>,
    place: Place,
    // the line of claims, and for each bad property whether it is claimed
    claims: ClaimScan,
    claimed: Fixed<bool>,
    // there is a free state
    has_free: bool,
}

impl<'a> std::marker::Model for WordReader<'a> {
    ghost use Rattle.std.specs.Prelude.{◌≡◌, length};
    ghost use Rattle.btor2.specs.Items.{is_bad};
    ghost use Rattle.btor2.specs.Lists.{places};
    ghost use Rattle.witness.specs.WordStands.{WordReader as WordReaderValue};

    ghost Value = { WordReaderValue };

    ghost view = { λ q. record { play = q.play; place = q.place; claims = q.claims; claimed = q.claimed; has_free = q.has_free } };

    ghost invariant = { λ q. length q.claimed ≡ length (places is_bad 0 q.play.items) };
}

/// Whether the state of an index is free.
fn is_free(model: &Model, k: usize) -> bool
    requires { k < length (places is_state 0 model.now) }
    ensures { result ≡ is_free_at model.now (slice_index (places is_state 0 model.now) k) }
{
    model.is_free(k)
}

/// Whether a state of a model is free.
fn has_free(model: &Model) -> bool
    ensures { result ≡ has_free (shape_of model.now) }
{
    for k in 0..model.states().len() {
        if is_free(model, k) {
            return true;
        }
    }
    false
}

/// Whether the next line is judged by its bytes alone: any but that of the claims.
pub(crate) fn is_alone(place: Place) -> bool
    ensures { result ≡ is_alone (place_of place) }
{
    !matches!(place, Place::Claims)
}

impl<'a> WordReader<'a> {
    /// Of a model, before any line.
    ///
    /// Errors: `NoNext` with the first state in file order that has an init and no next; else `NoMemory`.
    pub(crate) fn new(alloc: Global, model: &'a Model) -> Result<WordReader<'a>, NewFault>
        ensures ok { IfOk result (λ q. ReadsWords model.now q nothing_read []) }
        ensures answer { AnswersNew result (first_init_without_next model.now model.now) }
    {
        let play = WordPlay::new(alloc, model)?;
        let claimed = no_flags(alloc, model.bads().len())?;
        Ok(WordReader {
            play,
            place: Place::Status,
            claims: ClaimScan::new(),
            claimed,
            has_free: has_free(model),
        })
    }

    /// The frames.
    pub(crate) fn play(&self) -> &WordPlay<'a>
        ensures { result.now ≡ self.now.play }
    {
        &self.play
    }

    /// Which line comes next.
    pub(crate) fn place(&self) -> Place
        ensures { result ≡ self.now.place }
    {
        self.place
    }

    /// The first bad property that is claimed and rose in no closed frame.
    pub(crate) fn unreached(&self) -> Option<u64>
        ensures { (claims : List ℕ) (fs : List Frame) (none : List Bool)
            → AreClaimed self.now.claimed claims → NoneIsSet none
            → RisesAmong (nodes_of is_bad self.now.play.items) fs none self.now.play.rose
            → result ≡ first_unreached claims fs 0 (nodes_of is_bad self.now.play.items) }
    {
        first_unreached(self.claimed.as_slice(), self.play.rose())
    }

    /// Whether the bad property at a position is claimed, and rose in a closed frame; none is beyond the last.
    pub(crate) fn reaches(&self, position: usize) -> bool
        ensures flags { result
            ≡ (is_set self.now.claimed position && is_set self.now.play.rose position) }
        ensures there { result ≡ true → position < length (places is_bad 0 self.now.play.items) }
    {
        let rose = self.play.rose();
        position < rose.len() && self.claimed[position] && rose[position]
    }

    /// Takes bytes of the next line.
    pub(crate) fn take(&mut self, bytes: &[u8])
        ensures { (items : List Item) (r : Read) (line : List ℕ) → ReadsWords items self.old r line
            → ReadsWords items self.new r (line ++ bytes.now) }
    {
        if !is_alone(self.place) {
            self.claims.take(bytes, self.claimed.as_mut_slice());
        }
    }

    /// Whether an assignment may stand in a part of states: any in the first frame, and behind it one of a free state.
    fn may_assign(&self, line: &[u8]) -> bool
        ensures first { self.now.play.frames ≡ 0 → result ≡ true }
        ensures later { 0 < self.now.play.frames → result
            ≡ option_map_or (is_free_index (shape_of self.now.play.items))
            (number_of (cut_at_space line.now).0) false }
    {
        let model = self.play.model();
        if self.play.frames() == 0 {
            return true;
        }
        match index_of(line) {
            Some(index) => {
                let k = index as usize;
                k < model.states().len() && is_free(model, k)
            }
            None => false,
        }
    }

    /// Whether a line begins the part of states of a frame, where there is a free state.
    fn begins_states(&self, line: &[u8], frame: u64) -> bool
        ensures { frame < 2 ^ 64 - 1 → result ≡ (opens_states frame line.now && self.now.has_free) }
    {
        is_numbered(line, b'#', frame) && self.has_free
    }

    /// A comment or the status has ended.
    fn admit_status(&mut self, line: &[u8]) -> Result<(), Why>
        ensures line { (items : List Item) (r : Read) → ReadsWords items self.old r line.now
            → self.old.place ≡ place.Status → GivesLine items r line.now self.new result }
        ensures err { OnErr result (self.new ≡ self.old) }
    {
        if is_comment(line) {
            return Ok(());
        }
        if is_word(line, b"sat") {
            self.place = Place::Claims;
            return Ok(());
        }
        Err(Why::BadHeader)
    }

    /// The line of claims has ended.
    fn admit_claims(&mut self) -> Result<(), Why>
        ensures line { (items : List Item) (r : Read) (bytes : List ℕ)
            → ReadsWords items self.old r bytes → self.old.place ≡ place.Claims
            → GivesLine items r bytes self.new result }
        ensures err { OnErr result (self.new.play ≡ self.old.play) }
    {
        self.claims.end(self.claimed.as_mut_slice())?;
        self.place = Place::Parts;
        Ok(())
    }

    /// The line behind the claims has ended.
    fn admit_parts(&mut self, line: &[u8]) -> Result<(), Why>
        ensures line { (items : List Item) (r : Read) → ReadsWords items self.old r line.now
            → self.old.place ≡ place.Parts → GivesLine items r line.now self.new result }
        ensures err { OnErr result (self.new ≡ self.old) }
    {
        if is_numbered(line, b'#', 0) {
            self.place = Place::States;
            return Ok(());
        }
        if is_numbered(line, b'@', 0) {
            self.place = Place::Frame;
            return Ok(());
        }
        Err(Why::FrameOrder)
    }

    /// A line of a part of states has ended, or the one behind it.
    fn admit_states(&mut self, line: &[u8]) -> Result<(), Why>
        ensures line { (items : List Item) (r : Read) → ReadsWords items self.old r line.now
            → self.old.place ≡ place.States → length r.closed < 2 ^ 62
            → GivesLine items r line.now self.new result }
        ensures err { OnErr result (self.new ≡ self.old) }
    {
        if is_numbered(line, b'@', self.play.frames()) {
            self.place = Place::Frame;
            return Ok(());
        }
        if begins_part(line) {
            return Err(Why::FrameOrder);
        }
        if !self.may_assign(line) {
            return Err(Why::BadIndex);
        }
        self.play.assign_state(line)
    }

    /// A line behind that which opens a frame has ended.
    fn admit_frame(&mut self, line: &[u8]) -> Result<(), Why>
        ensures line { (items : List Item) (r : Read) → ReadsWords items self.old r line.now
            → self.old.place ≡ place.Frame → length r.closed < 2 ^ 62
            → GivesLine items r line.now self.new result }
        ensures err { OnErr result (self.new ≡ self.old) }
    {
        if !begins_part(line) {
            return self.play.assign_input(line);
        }
        let next = self.play.frames().saturating_add(1);
        if is_numbered(line, b'@', next) {
            self.play.close();
            return Ok(());
        }
        if self.begins_states(line, next) {
            self.play.close();
            self.place = Place::States;
            return Ok(());
        }
        if is_word(line, b".") {
            self.play.close();
            self.place = Place::End;
            return Ok(());
        }
        Err(Why::FrameOrder)
    }

    /// Takes the line of an input's word or that which opens the next frame, where a text begins with it.
    #[inline(always)]
    fn take_in_frame<'t>(&mut self, text: &'t [u8]) -> Option<&'t [u8]>
        ensures line { self.old.place ≡ place.Frame
            → IfSome result (λ rest. TakesLine self.old self.new text.now rest.now) }
        ensures none { IfNone result (NoPlainLine self.old text.now) }
        ensures kept { IfNone result (self.new ≡ self.old) }
    {
        let _model = self.play.model();
        if let Some(rest) = self.play.take_input(text) {
            return Some(rest);
        }
        let rest = self.play.behind_next(text)?;
        self.play.close();
        Some(rest)
    }

    /// Takes the line with which a text begins, where one of a frame comes next and it is a plain one: the line of an
    /// input's word, or that which opens the next frame. Answers the text behind it; nothing is taken of another.
    #[inline(always)]
    pub(crate) fn take_line<'t>(&mut self, text: &'t [u8]) -> Option<&'t [u8]>
        ensures line { IfSome result (λ rest. TakesLine self.old self.new text.now rest.now) }
        ensures none { IfNone result (self.old.place ≡ place.Frame
            → NoPlainLine self.old text.now) }
        ensures kept { IfNone result (self.new ≡ self.old) }
    {
        match self.place {
            Place::Frame => self.take_in_frame(text),
            Place::Status | Place::Claims | Place::Parts | Place::States | Place::End => None,
        }
    }

    /// The line has ended: it is admitted, or why it is not. Of its bytes the first 342 are enough.
    pub(crate) fn admit(&mut self, line: &[u8]) -> Result<(), Why>
        ensures line { (items : List Item) (r : Read) (bytes : List ℕ)
            → ReadsWords items self.old r bytes → AreAlike line.now bytes → length r.closed < 2 ^ 62
            → GivesLine items r bytes self.new result }
        ensures err { OnErr result (self.new.play ≡ self.old.play) }
        // the line of the claims sets flags before it is refused
        ensures other { OnErr result ((self.old.place ≡ place.Claims → ⊥) → self.new ≡ self.old) }
    {
        let _model = self.play.model();
        match self.place {
            Place::Status => self.admit_status(line),
            Place::Claims => self.admit_claims(),
            Place::Parts => self.admit_parts(line),
            Place::States => self.admit_states(line),
            Place::Frame => self.admit_frame(line),
            Place::End => Err(Why::Trailing),
        }
    }
}
