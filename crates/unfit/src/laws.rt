//! Laws of witnesses that are joined, and worked rows, as functions with no code.
ghost use Rattle.std.specs.Prelude.{◌≡◌, ◌+◌, ◌*◌, ◌^◌, false, List, [], ◌∷◌, None, Some};
ghost use Rattle.btor2.specs.declared.item.Item.{Item};
ghost use Rattle.fitting.specs.Models.{IsFit};
ghost use Rattle.witness.specs.Texts.{Witness, IsWitness, shape_of};
ghost use Rattle.witness.specs.Judgements.{words_of};
ghost use Rattle.rejoin.specs.Alike.{AreAlike};
ghost use Rattle.unfit.specs.Joined.{Wide, join_part, join_witness, name_at};

/// A law: a witness over a fitted model that is joined is a witness over the list.
pub fn joined_is_a_witness()
    ensures { (wide narrow : List Item) (w : Wide) (v : Witness) → IsFit wide narrow
        → w.shape ≡ shape_of wide → IsWitness (shape_of narrow) v
        → IsWitness (shape_of wide) (join_witness w narrow v) }
{}

/// A law: it says over the list what the other says over the fitted model.
pub fn joined_says_the_same()
    ensures { (wide narrow : List Item) (fit : IsFit wide narrow) (w : Wide) (v : Witness)
        → w.shape ≡ shape_of wide → IsWitness (shape_of narrow) v
        → AreAlike wide fit.layout narrow (words_of (join_witness w narrow v)) (words_of v) }
{}

/// Worked rows: a word of which a piece is told has its other pieces as they are otherwise; one of which none is told has no
/// assignment; the order of the pieces' assignments means nothing.
pub fn worked_parts()
    ensures low { join_part (λ k. None) (3 ∷ 70 ∷ 8 ∷ []) (1 ∷ 2 ∷ 6 ∷ 4 ∷ [])
        (record { index = 1; word = 7; symbol = None } ∷ [])
        ≡ record { index = 1; word = 7 + 2 ^ 64 * 6; symbol = None } ∷ [] }
    ensures high { join_part (λ k. None) (3 ∷ 70 ∷ 8 ∷ []) (1 ∷ 2 ∷ 6 ∷ 4 ∷ [])
        (record { index = 2; word = 5; symbol = Some (97 ∷ []) } ∷ [])
        ≡ record { index = 1; word = 2 + 2 ^ 64 * 5; symbol = None } ∷ [] }
    ensures order { join_part (λ k. None) (3 ∷ 70 ∷ 8 ∷ []) (0 ∷ 0 ∷ 0 ∷ 0 ∷ [])
        (record { index = 3; word = 9; symbol = None } ∷ record { index = 2; word = 5; symbol = None } ∷ [])
        ≡ record { index = 1; word = 2 ^ 64 * 5; symbol = None } ∷ record { index = 2; word = 9; symbol = None } ∷ [] }
    ensures none { join_part (λ k. None) (3 ∷ 70 ∷ 8 ∷ []) (1 ∷ 2 ∷ 6 ∷ 4 ∷ []) [] ≡ [] }
    ensures unnamed { name_at false (Some (97 ∷ []) ∷ []) 0 0 ≡ None }
{}
