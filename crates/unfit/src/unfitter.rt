//! Lines of a witness over a fitted model, one by one.
ghost use Rattle.std.specs.Prelude.{ℕ, List, [], ◌∷◌, ◌++◌};
ghost use Rattle.base.specs.declared.pen.Pen.{Pen as PenValue};
ghost use Rattle.base.specs.Lines.{IsLine};
ghost use Rattle.base.specs.Writing.{WritesText};
ghost use Rattle.btor2.specs.declared.item.Item.{Item};
ghost use Rattle.unfit.specs.Steps.{IsAdmitted, Unfits};
ghost use Rattle.witness.specs.WordStands.{StandsForWitness};

use crate::frame::Frame;
use crate::known::Wide;
use crate::titles::Titles;
use base::{Pen, Sink};
use witness::WordJudge;

/// Takes a line, and whether it is admitted.
fn admits(judge: &mut WordJudge<'_>, line: &[u8]) -> bool
    ensures judged { (narrow : List Item) (text : List ℕ)
        → StandsForWitness narrow judge.old text
        → StandsForWitness narrow judge.new (text ++ (line.now ++ 10 ∷ [])) }
    ensures admitted { (narrow : List Item) (text : List ℕ)
        → StandsForWitness narrow judge.old text
        → IsAdmitted narrow text line.now result }
{
    let number = judge.admitted_lines();
    judge.feed(line);
    judge.feed(b"\n");
    let now = judge.admitted_lines();
    now != number
}

/// Takes a whole line, and puts what it says where it is admitted.
pub(crate) fn take_line<K: Sink, T: Titles>(
    judge: &mut WordJudge<'_>,
    frame: &mut Frame,
    wide: &Wide<'_, T>,
    pen: &mut Pen,
    sink: &mut K,
    line: &[u8],
)
    requires is_line { IsLine line.now }
    ensures takes { (start : K) (from : PenValue) (narrow : List Item) (text : List ℕ)
        → Unfits K.written K.failures start sink.old from pen.old wide.now narrow judge.old
        frame.old text
        → Unfits K.written K.failures start sink.new from pen.new wide.now narrow judge.new
        frame.new (text ++ (line.now ++ 10 ∷ [])) }
    ensures writes { (text : List ℕ) × WritesText K.written K.failures sink.old sink.new pen.old
        pen.new text }
{
    let number = judge.closed_frames();
    if admits(judge, line) {
        frame.take_admitted(wide, pen, sink, number, line);
    }
}
