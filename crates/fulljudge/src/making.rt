//! Lines that tell values, which become those of the words by which values are told.
ghost use Rattle.std.specs.Prelude.{◌≡◌, IfOk, if◌then◌else◌};
ghost use Rattle.base.specs.Lines.{IsLine};
ghost use Rattle.fulljudge.specs.Lines.{line_in, line_by_part};

use crate::values::Values;
use spread::{Lines, Part, begins_part};
use std::alloc::AllocError;

/// Makes of a line in a part, which may open another part or end the text, the line of a word, and answers whether it made one.
fn make_line(values: &Values, line: &[u8], out: &mut Vec<u8>) -> Result<bool, AllocError>
    requires { IsLine line.now }
    ensures made { IfOk result (λ other.
        (if other then out.new.items else line.now) ≡ line_in values.now line.now) }
    ensures whole { IfOk result (λ other. IsLine (line_in values.now line.now)) }
{
    let _few = values.words();
    if begins_part(line) {
        return Ok(false);
    }
    values.word_line(line, out)?;
    Ok(true)
}

/// Lines that tell the values of a model's states and inputs, which become those of the words by which they are told.
#[derive(Drop)]
pub struct WordLines<'v> {
    states: &'v Values,
    inputs: &'v Values,
}

impl<'v> WordLines<'v> {
    /// Those of a model with such states and inputs.
    pub fn new(states: &'v Values, inputs: &'v Values) -> WordLines<'v>
        ensures states { result.states.now ≡ states.now }
        ensures inputs { result.inputs.now ≡ inputs.now }
    {
        WordLines { states, inputs }
    }
}

impl<'v> Lines for WordLines<'v> {
    ghost becomes = { λ w p line. line_by_part w.states.now w.inputs.now p line };

    fn make(&self, part: Part, line: &[u8], out: &mut Vec<u8>) -> Result<bool, AllocError> {
        match part {
            Part::Outside => Ok(false),
            Part::States => make_line(self.states, line, out),
            Part::Inputs => make_line(self.inputs, line, out),
        }
    }
}
