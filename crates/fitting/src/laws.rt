//! That a model of the profile is fitted into itself, as a function with no code.
ghost use Rattle.std.specs.Prelude.{◌≡◌, ℕ, [], ◌∷◌, List};
ghost use Rattle.btor2.specs.declared.item.Item.{Item};
ghost use Rattle.btor2.specs.Check.{IsWellFormed};
ghost use Rattle.fitting.specs.Models.{IsFit};

/// A law: a model of the profile is fitted into itself, with each node as its own piece, and keeps its names.
pub fn profile_is_fitted()
    ensures { (items : List Item) → IsWellFormed items
        → (fit : IsFit items items) × ((id : ℕ) → fit.layout id ≡ id ∷ []) }
{}
