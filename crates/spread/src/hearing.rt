//! What hears the lines of a text that is judged.
ghost use Rattle.std.specs.Prelude.{ℕ, List};
ghost use Rattle.base.specs.Lines.{IsLine};
ghost use Rattle.btor2.specs.declared.item.Item.{Item};
ghost use Rattle.witness.specs.Texts.{Shape as ShapeValue};
ghost use Rattle.spread.specs.Heard.{HearsLine};

use witness::WordJudge;

/// Hears the lines of a text over a model, each behind the judge of the fitted model, which took what goes on for it.
pub trait Hearer {
    /// What is known of it beside the lines.
    ghost Over: { Type 0 };

    /// It stands for whole lines over a model of a shape, which is fitted into the other.
    ghost stands: { Over → Self → ShapeValue → List Item → List ℕ → Type 0 };

    /// Hears a line: one that stood for the lines before it stands for those with this.
    ///
    /// Condition: the line has no byte 10.
    fn hear(&mut self, line: &[u8], judge: &WordJudge<'_>)
        requires { IsLine line.now }
        ensures { HearsLine stands self.old self.new judge.now line.now };
}

/// Hears nothing.
#[derive(Drop)]
pub(crate) struct Deaf;

impl Hearer for Deaf {
    ghost Over = { Unit };

    ghost stands = { λ over d shape narrow text. Unit };

    fn hear(&mut self, _line: &[u8], _judge: &WordJudge<'_>) {}
}

/// Two that hear the same text.
#[derive(Drop)]
pub struct Both<A, B> {
    /// The one, which hears each line first.
    pub one: A,
    /// The other.
    pub other: B,
}

impl<A: Hearer, B: Hearer> Hearer for Both<A, B> {
    ghost Over = { A.Over × B.Over };

    ghost stands = { λ over h shape narrow text. A.stands over.0 h.one shape narrow text
        × B.stands over.1 h.other shape narrow text };

    fn hear(&mut self, line: &[u8], judge: &WordJudge<'_>) {
        self.one.hear(line, judge);
        self.other.hear(line, judge);
    }
}
