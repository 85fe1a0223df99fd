//! Where a reading of a counterexample is.
ghost use Rattle.std.specs.Prelude.{◌≡◌, ℕ, false, List, []};
ghost use Rattle.restore.specs.declared.fault.RestoreWhy.TheVariants as why;
ghost use Rattle.restore.specs.declared.place.Place.TheVariants.{Failed};
ghost use Rattle.restore.specs.Steps.{may_follow, read_at, FailsByText};

use crate::fault::{RestoreFault, RestoreWhy};

/// Where a reading is.
#[derive(Clone, Copy)]
pub enum Place {
    /// The line of the initial bits follows.
    Start,
    /// The line of the first frame follows.
    First,
    /// A frame was found, and one may follow in the line of this number, told up to 2^64 - 1.
    Going(u64),
    /// No frame follows.
    Ended,
    /// A line has a fault, or no frame follows the initial bits.
    Failed(RestoreFault),
}

impl Place {
    /// Whether a line may follow.
    pub(crate) fn is_open(self) -> bool
        ensures { result ≡ may_follow self }
    {
        match self {
            Place::Start | Place::First | Place::Going(_) => true,
            Place::Ended | Place::Failed(_) => false,
        }
    }

    /// The place where no line follows.
    pub(crate) fn at_end(self) -> Place
        ensures closed { may_follow result ≡ false }
        ensures text { FailsByText self → FailsByText result }
        ensures reads { (width : ℕ) (more : List (List ℕ)) → read_at self width []
            ≡ read_at result width more }
    {
        match self {
            Place::Start => no_frame(1),
            Place::First => no_frame(2),
            Place::Going(_) | Place::Ended => Place::Ended,
            Place::Failed(fault) => Place::Failed(fault),
        }
    }
}

/// The text ends before a frame, and this line is missing.
fn no_frame(line: u64) -> Place
    ensures { result ≡ Failed (record { line = line; why = why.NoFrame }) }
{
    Place::Failed(RestoreFault {
        line,
        why: RestoreWhy::NoFrame,
    })
}
