//! What models keep.
ghost use Rattle.std.specs.Prelude.{◌≡◌, ℕ, ◌<◌, ◌≤◌, ◌^◌, length, slice_get, Some, IfSome};
ghost use Rattle.std.specs.List.{AllByRecursion};
ghost use Rattle.btor2.specs.Check.{most_items};
ghost use Rattle.wide.specs.WideModels.{greatest_width};
ghost use Rattle.full.specs.Lines.{arrays, sort_size, sort_of_node};
ghost use Rattle.full.specs.Agreement.{IsFullModel};
ghost use Rattle.fullmodel.specs.Lines.{line_of, HasNoDigits};

use fullmodel::laws::accepted_lines;
use fullmodel::{FullModel, Line};

/// What a model keeps: it is one, it has at most 1,048,576 lines, their ids have 32 bits, and its values have 1 to 1,048,576 bits.
pub(crate) fn know(full: &FullModel)
    ensures model { IsFullModel full.now }
    ensures most { length full.now ≤ most_items }
    ensures ids { AllByRecursion (λ x. x.id < 2 ^ 32) full.now }
    ensures nodes { (id : ℕ) → IfSome (sort_of_node full.now id)
        (λ s. (1 ≤ sort_size s) × (sort_size s ≤ greatest_width)) }
{
    let _lines = full.lines();
    accepted_lines();
}

/// And the indices of its arrays have a bit.
pub(crate) fn know_index(full: &FullModel)
    ensures { (id k n : ℕ) → sort_of_node full.now id ≡ Some (arrays k n) → 1 ≤ k }
{
    let _lines = full.lines();
    accepted_lines();
}

/// The line at a position.
pub(crate) fn line_at(full: &FullModel, place: usize) -> &Line
    requires { place < length full.now }
    ensures at { slice_get full.now place ≡ Some (line_of result.now) }
    ensures form { HasNoDigits result.now.says }
{
    know(full);
    &full.lines()[place]
}
