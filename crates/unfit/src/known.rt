//! What is known of a model with words of any width.
ghost use Rattle.std.specs.Prelude.{◌≡◌};
ghost use Rattle.unfit.specs.Joined.{lined};

use crate::titles::Titles;
use rejoin::Shape;
use std::marker::Model;

/// The shape of a model with words of any width, what stands beside the digits of its words, and whether names are asked for.
#[derive(Drop)]
pub(crate) struct Wide<'a, T: Titles> {
    pub(crate) shape: &'a Shape,
    pub(crate) states: &'a T,
    pub(crate) inputs: &'a T,
    pub(crate) named: bool,
}

impl<'a, T: Titles> Model for Wide<'a, T> {
    ghost use Rattle.unfit.specs.Joined.{Lined, lined};

    ghost Value = { Lined };

    ghost view = { λ w. lined w.shape.now (T.symbols w.states.now) (T.symbols w.inputs.now) w.named (T.fronts w.states.now) (T.fronts w.inputs.now) };
}

impl<'a, T: Titles> Wide<'a, T> {
    /// Of a model of this shape, with these beside the digits of its words.
    pub(crate) fn new(shape: &'a Shape, states: &'a T, inputs: &'a T, named: bool) -> Wide<'a, T>
        ensures { result ≡ lined shape.now (T.symbols states.now) (T.symbols inputs.now) named
            (T.fronts states.now) (T.fronts inputs.now) }
    {
        Wide {
            shape,
            states,
            inputs,
            named,
        }
    }
}
