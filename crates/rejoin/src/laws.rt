//! Laws of witnesses over models with words of any width, as functions with no code.
ghost use Rattle.std.specs.Prelude.{◌≡◌, ◌+◌, ◌*◌, ◌^◌, true, false, List, [], ◌∷◌, Some, None};
ghost use Rattle.btor2.specs.declared.item.Item.{Item};
ghost use Rattle.fit.specs.Worked.{wide_adder, narrow_adder, adder_layout};
ghost use Rattle.fitting.specs.Models.{IsFit};
ghost use Rattle.witness.specs.declared.judgement.Judgement.{Judgement};
ghost use Rattle.witness.specs.declared.judgement.Judgement.TheVariants as judgement;
ghost use Rattle.witness.specs.Texts.{Witness, IsWitness, shape_of};
ghost use Rattle.witness.specs.Judgements.{Words, words_of, JudgesWords};
ghost use Rattle.rejoin.specs.Pieces.{cut_width, cut_shape, first_piece, owner, split_part, split_witness, joined_judgement};
ghost use Rattle.rejoin.specs.Alike.{AreAlike};
ghost use Rattle.rejoin.specs.Worked.{wide_words, piece_words};

/// A law: what a witness needs to know of a fitted model is what it needs to know of the list, cut into pieces.
pub fn shapes_are_cut()
    ensures { (wide narrow : List Item) → IsFit wide narrow
        → shape_of narrow ≡ cut_shape (shape_of wide) }
{}

/// A law: words that say the same are judged alike.
pub fn alike_is_judged_alike()
    ensures { (wide narrow : List Item) (fit : IsFit wide narrow) (w v : Words) (j : Judgement)
        → AreAlike wide fit.layout narrow w v → JudgesWords narrow v j
        → JudgesWords wide w (joined_judgement (shape_of wide) j) }
{}

/// A law: a witness that is cut into pieces is judged as it is.
pub fn split_is_judged_alike()
    ensures { (wide narrow : List Item) (w : Witness) (j : Judgement) → IsFit wide narrow
        → IsWitness (shape_of wide) w
        → JudgesWords narrow (words_of (split_witness (shape_of wide) w)) j
        → JudgesWords wide (words_of w) (joined_judgement (shape_of wide) j) }
{}

/// Worked rows: the pieces of words, and where they stand.
pub fn worked_pieces()
    ensures bit { cut_width 1 ≡ 1 ∷ [] }
    ensures one { cut_width 64 ≡ 64 ∷ [] }
    ensures two { cut_width 65 ≡ 64 ∷ 1 ∷ [] }
    ensures three { cut_width 192 ≡ 64 ∷ 64 ∷ 64 ∷ [] }
    ensures shape { cut_shape (record { bads = 2; states = 128 ∷ 1 ∷ []; free = true ∷ false ∷ []; inputs = 3 ∷ 70 ∷ [] })
        ≡ record { bads = 2; states = 64 ∷ 64 ∷ 1 ∷ []; free = true ∷ true ∷ false ∷ []; inputs = 3 ∷ 64 ∷ 6 ∷ [] } }
    ensures first { first_piece (3 ∷ 70 ∷ 8 ∷ []) 2 ≡ 3 }
    ensures second { owner (3 ∷ 70 ∷ 8 ∷ []) 2 ≡ 1 }
    ensures third { owner (3 ∷ 70 ∷ 8 ∷ []) 3 ≡ 2 }
{}

/// Worked rows: the words of a part, by their pieces, the lowest first; and a judgement.
pub fn worked_parts()
    ensures part { split_part (3 ∷ 70 ∷ 8 ∷ [])
        (record { index = 1; word = 5 * 2 ^ 64 + 7; symbol = Some (97 ∷ []) } ∷ record { index = 2; word = 9; symbol = None } ∷ [])
        ≡ record { index = 1; word = 7; symbol = None } ∷ record { index = 2; word = 5; symbol = None } ∷ record { index = 3; word = 9; symbol = None } ∷ [] }
    ensures differs { joined_judgement (record { bads = 1; states = 128 ∷ 1 ∷ []; free = false ∷ false ∷ []; inputs = [] })
        (judgement.InitDiffers 2) ≡ judgement.InitDiffers 1 }
    ensures accepted { joined_judgement (record { bads = 1; states = 128 ∷ 1 ∷ []; free = false ∷ false ∷ []; inputs = [] })
        (judgement.Accepted 2) ≡ judgement.Accepted 2 }
{}

/// Worked rows: one frame of the model that adds words of 128 bits says the same as one by pieces of 64, and not with the
/// pieces of the input exchanged.
pub fn worked_alike()
    ensures alike { AreAlike wide_adder (adder_layout (10 ∷ 14 ∷ [])) narrow_adder wide_words
        (piece_words 2 1) }
    ensures exchanged { ¬ AreAlike wide_adder (adder_layout (10 ∷ 14 ∷ [])) narrow_adder wide_words
        (piece_words 1 2) }
{}
