//! What the lines of a text become before they are judged.
ghost use Rattle.std.specs.Prelude.{◌≡◌, ℕ, List, IfOk, if◌then◌else◌};
ghost use Rattle.base.specs.Lines.{IsLine};
ghost use Rattle.spread.specs.declared.spreader.Part.{Part as PartValue};

use crate::spreader::Part;
use std::alloc::AllocError;

/// What each line of a text becomes before it is judged, by the part that is open before it.
pub trait Lines {
    /// The line that a line becomes.
    ghost becomes: { Self → PartValue → List ℕ → List ℕ };

    /// Makes of a line what it becomes, and answers whether that is another line: then it stands in `out`, and what that held before
    /// is gone. Else the line stays as it is.
    ///
    /// Condition: the line has no byte 10. What it becomes has none.
    ///
    /// Error: a growth was refused.
    fn make(&self, part: Part, line: &[u8], out: &mut Vec<u8>) -> Result<bool, AllocError>
        requires { IsLine line.now }
        ensures made { IfOk result (λ other.
            (if other then out.new.items else line.now) ≡ becomes self.now part line.now) }
        ensures whole { IfOk result (λ other. IsLine (becomes self.now part line.now)) };
}

/// Lines that stay as they are.
#[derive(Drop)]
pub(crate) struct AsTheyAre;

impl Lines for AsTheyAre {
    ghost becomes = { λ s p line. line };

    fn make(&self, _part: Part, _line: &[u8], _out: &mut Vec<u8>) -> Result<bool, AllocError> {
        Ok(false)
    }
}
