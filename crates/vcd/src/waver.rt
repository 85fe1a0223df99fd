//! A waver of a witness that comes piece by piece.
ghost use Rattle.std.specs.Prelude.{◌≡◌, ℕ, List, [], ◌∷◌, ◌++◌, IfErr, IfOk};
ghost use Rattle.base.specs.Lines.{IsLine, text_of_lines};
ghost use Rattle.btor2.specs.declared.item.Item.{Item};
ghost use Rattle.btor2.specs.Check.{IsWellFormed};
ghost use Rattle.btor2.specs.Lists.{first_init_without_next};
ghost use Rattle.btor2.specs.Trace.{Frame};
ghost use Rattle.witness.specs.Judgements.{Judges};
ghost use Rattle.witness.specs.ClosedWords.{IsClosedTrace};
ghost use Rattle.witness.specs.WordStands.{StandsForWitness};
ghost use Rattle.vcd.specs.Answers.{AnswersWave, IsEarly};
ghost use Rattle.vcd.specs.Dumps.{end_lines};
ghost use Rattle.vcd.specs.declared.scope.Shown.{Shown as ShownSpec};
ghost use Rattle.vcd.specs.Stands.{Waves, Takes, WritesSome};

use crate::changes::{put_frame, put_moment};
use crate::fault::WaveFault;
use crate::scope::Shown;
use crate::signals::{Signal, signals};
use base::{Pen, Sink, next_line};
use btor2::Model;
use std::alloc::Global;
use witness::{Judgement, WordJudge};

/// A waver of witnesses over the model that it was made of. It is fed a witness in pieces, and puts the changes of a frame
/// when the judge has closed it. Beside the judge it holds one word for each signal.
#[derive(Drop)]
pub(crate) struct Waver<'a> {
    judge: WordJudge<'a>,
    signals: Vec<Signal>,
}

impl<'a> std::marker::Model for Waver<'a> {
    ghost use Rattle.std.specs.Prelude.{◌≤◌, All};
    ghost use Rattle.vcd.specs.Stands.{Waver as WaverValue};

    ghost Value = { WaverValue };

    ghost view = { λ w. record { judge = w.judge; signals = w.signals.items } };

    ghost invariant = { λ w. All (λ s. s.width ≤ 64) w.signals.items };
}

impl<'a> Waver<'a> {
    /// A waver of the empty text.
    ///
    /// Errors: `NoNext` with the first state in file order that has an init and no next; else `NoMemory`.
    pub(crate) fn new(alloc: Global, model: &'a Model, shown: Shown) -> Result<Waver<'a>, WaveFault>
        ensures ok { IfOk result (λ w. Waves shown model.now w [] []) }
        ensures answer { AnswersWave result (first_init_without_next model.now model.now) }
        ensures fault { IfErr result IsEarly }
        ensures well_formed { IsWellFormed model.now }
    {
        let _items = model.items();
        if let Some(id) = model.first_init_without_next() {
            return Err(WaveFault::NoNext(id));
        }
        let Ok(signals) = signals(alloc, model, shown) else {
            return Err(WaveFault::NoMemory);
        };
        match WordJudge::new(alloc, model) {
            Ok(judge) => Ok(Waver { judge, signals }),
            Err(_) => Err(WaveFault::NoMemory),
        }
    }

    /// Takes bytes that end no line.
    fn take_bytes(&mut self, bytes: &[u8])
        ensures { (s : ShownSpec) (items : List Item) (text put : List ℕ) → IsLine bytes.now
            → Waves s items self.old text put → Waves s items self.new (text ++ bytes.now) put }
    {
        self.judge.feed(bytes);
    }

    /// Takes the rest of a line with its end.
    fn take_line<K: Sink>(&mut self, pen: &mut Pen, sink: &mut K, line: &[u8], whole: &[u8])
        requires is_line { IsLine line.now }
        requires whole { whole.now ≡ line.now ++ 10 ∷ [] }
        ensures { Takes K.written K.failures sink.old sink.new pen.old pen.new self.old self.new
            (line.now ++ 10 ∷ []) }
    {
        let closed = self.judge.closed_frames();
        self.judge.feed(whole);
        if self.judge.closed_frames() != closed {
            put_frame(pen, sink, &self.judge, self.signals.as_mut_slice(), closed);
        }
    }

    /// Takes a piece of the witness behind those before.
    pub(crate) fn take<K: Sink>(&mut self, pen: &mut Pen, sink: &mut K, bytes: &[u8])
        ensures { Takes K.written K.failures sink.old sink.new pen.old pen.new self.old self.new
            bytes.now }
    {
        let mut rest = bytes;
        while let Some((line, behind)) = next_line(rest) {
            let (whole, _) = rest.split_at(line.len() + 1);
            self.take_line(pen, sink, line, whole);
            rest = behind;
        }
        self.take_bytes(rest);
    }

    /// Puts the moment behind the last frame, where there is one.
    pub(crate) fn put_end<K: Sink>(&self, pen: &mut Pen, sink: &mut K)
        ensures { WritesSome K.written K.failures sink.old sink.new pen.old pen.new
            (λ end. (s : ShownSpec) (items : List Item) (text put : List ℕ) (fs : List Frame)
            → Waves s items self.now text put → IsClosedTrace items text fs
            → end ≡ text_of_lines (end_lines fs)) }
    {
        let frames = self.judge.closed_frames();
        if frames != 0 {
            put_moment(pen, sink, frames);
        }
    }

    /// The judgement of the text.
    pub(crate) fn finish(self) -> Judgement
        ensures { (items : List Item) (text : List ℕ) → StandsForWitness items self.entry.judge text
            → Judges items text result }
    {
        self.judge.finish()
    }
}
