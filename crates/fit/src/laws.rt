//! Laws of fitted models, as functions with no code.
ghost use Rattle.std.specs.Prelude.{◌≡◌, ℕ, List, [], ◌∷◌, Option, Some, None, true, length, map};
ghost use Rattle.std.specs.List.{AllByRecursion, AllZip};
ghost use Rattle.btor2.specs.declared.item.Item.{Item};
ghost use Rattle.btor2.specs.Items.{is_input, is_state, is_free};
ghost use Rattle.btor2.specs.Trace.{Frame, line_word, IsTrace, IsInput, IsState, IsInitial, InitHolds};
ghost use Rattle.btor2.specs.Reachability.{model_shows, CanRise};
ghost use Rattle.wide.specs.WideModels.{greatest_width, IsWideModel};
ghost use Rattle.fit.specs.Fitting.{Layout, joined, Carries, IsFittingOf, IsInputPiece, IsStatePiece, MakesInput, MakesState, ShownBelow};
ghost use Rattle.fit.specs.Gives.{Gives};
ghost use Rattle.fit.specs.Worked.{wide_adder, narrow_adder, adder_without_carry, without, adder_layout};

/// A law: where a list is fitted into another, a bad property can rise by so many frames in the one exactly where it can in the
/// other. Up from the fitted list, the words that it begins with and that are given are joined.
pub fn bad_properties_rise_alike()
    ensures up { (wide narrow : List Item) (layout : Layout) (k : ℕ)
        → IsFittingOf wide layout narrow
        → (h : CanRise narrow k) → (g : CanRise wide k) × (length g.frames ≡ length h.frames)
        × (g.state ≡ joined narrow layout h.state)
        × (g.inputs ≡ map (joined narrow layout) h.inputs) }
    ensures down { (wide narrow : List Item) (layout : Layout) (k : ℕ)
        → IsFittingOf wide layout narrow
        → (h : CanRise wide k) → (g : CanRise narrow k) × (length g.frames ≡ length h.frames) }
{}

/// A law of traces where a list is fitted into another. A trace of the fitted list from words that fit is one of the other when
/// words and frames are joined, from words that fit, and shows the same in each frame. A trace of the list shows what one of the
/// fitted list shows, from words that fit and make the other's. Words that states begin with agree with the init lines of the
/// one where they do with those of the other.
pub fn traces_show_alike()
    ensures up { (wide narrow : List Item) (layout : Layout) (state : Frame) (inputs frames : List Frame)
        → IsFittingOf wide layout narrow → IsState narrow state → AllByRecursion (IsInput narrow) inputs
        → IsTrace narrow state inputs frames
        → IsState wide (joined narrow layout state)
        × AllByRecursion (IsInput wide) (map (joined narrow layout) inputs)
        × IsTrace wide (joined narrow layout state) (map (joined narrow layout) inputs)
        (map (joined narrow layout) frames)
        × (map (model_shows wide) (map (joined narrow layout) frames) ≡ map (model_shows narrow) frames) }
    ensures down { (wide narrow : List Item) (layout : Layout) (state below : Frame)
        (inputs given frames : List Frame)
        → IsFittingOf wide layout narrow → MakesState wide layout narrow state below
        → AllZip (MakesInput wide layout narrow) inputs given → IsTrace wide state inputs frames
        → ShownBelow wide narrow below given frames }
    ensures begins_up { (wide narrow : List Item) (layout : Layout) (state : Frame)
        → IsFittingOf wide layout narrow → IsInitial narrow state → IsInitial wide (joined narrow layout state) }
    ensures begins_down { (wide narrow : List Item) (layout : Layout) (state below : Frame)
        → IsFittingOf wide layout narrow → MakesState wide layout narrow state below
        → AllByRecursion (λ (x : Item). InitHolds wide state x.body) wide → IsInitial narrow below }
{}

/// A law: which lines are carried. That of an operator or a constant where the pieces of its node give the word that the line
/// gives it, that of an input where its pieces are inputs, that of a state where they are states that are free where it is,
/// and each line that gives no word.
pub fn lines_by_pieces()
    ensures operator { (wide narrow : List Item) (layout : Layout) (x : Item) (bits : ℕ)
        (value : Frame → ℕ) → IsWideModel greatest_width narrow
        → ((state input g : Frame)
        → line_word wide state input (joined narrow layout g) x.id x.body ≡ Some (value g))
        → Gives narrow bits value (layout x.id) → Carries wide layout narrow x }
    ensures input { (wide narrow : List Item) (layout : Layout) (x : Item) → is_input x.body ≡ true
        → AllByRecursion (IsInputPiece narrow) (layout x.id) → Carries wide layout narrow x }
    ensures state { (wide narrow : List Item) (layout : Layout) (x : Item) → is_state x.body ≡ true
        → AllByRecursion (IsStatePiece narrow (is_free wide x.id)) (layout x.id)
        → Carries wide layout narrow x }
    ensures no_word { (wide narrow : List Item) (layout : Layout) (x : Item)
        → ((state input f : Frame) → line_word wide state input f x.id x.body ≡ None)
        → Carries wide layout narrow x }
{}

/// Worked rows: a model that adds words of 128 bits is fitted into one of words of 64 bits. It is not with the pieces of the sum
/// exchanged, without the carry, without the second piece's init line, or without the constraint.
pub fn worked_fitting()
    ensures fits { IsFittingOf wide_adder (adder_layout (10 ∷ 14 ∷ [])) narrow_adder }
    ensures exchanged { ¬ IsFittingOf wide_adder (adder_layout (14 ∷ 10 ∷ [])) narrow_adder }
    ensures no_carry { ¬ IsFittingOf wide_adder (adder_layout (10 ∷ 14 ∷ [])) adder_without_carry }
    ensures no_init { ¬ IsFittingOf wide_adder (adder_layout (10 ∷ 14 ∷ []))
        (without 7 narrow_adder) }
    ensures no_constraint { ¬ IsFittingOf wide_adder (adder_layout (10 ∷ 14 ∷ []))
        (without 19 narrow_adder) }
{}
