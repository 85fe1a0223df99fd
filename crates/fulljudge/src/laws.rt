//! Laws of witnesses over models of the whole language, as functions with no code.
ghost use Rattle.std.specs.Prelude.{◌≡◌, ◌<◌, ℕ, true, false, List, [], ◌∷◌, Option, Some, None, codes, length, map, slice_get};
ghost use Rattle.btor2.specs.declared.item.Item.{Item};
ghost use Rattle.btor2.specs.Items.{is_bad, is_state};
ghost use Rattle.btor2.specs.Lists.{first_init_without_next};
ghost use Rattle.wide.specs.WideModels.{greatest_width, IsWideModel};
ghost use Rattle.full.specs.Lines.{FullLine, words, arrays, lines_of};
ghost use Rattle.celled.specs.Written.{IsWrittenInCells};
ghost use Rattle.full.specs.WrittenOut.{Places, IsWrittenOut};
ghost use Rattle.full.specs.Worked.{memory, memory_frame};
ghost use Rattle.fit.specs.Fitting.{Layout};
ghost use Rattle.witness.specs.declared.judgement.Judgement.{Judgement};
ghost use Rattle.witness.specs.declared.judgement.Judgement.TheVariants as judgement;
ghost use Rattle.witness.specs.Judgements.{Judges};
ghost use Rattle.fulljudge.specs.Shapes.{Leaf, leaves_of, full_shape, first_index, value_of_word};
ghost use Rattle.fulljudge.specs.Lines.{word_line, words_text};
ghost use Rattle.fulljudge.specs.Judgements.{judged_by, JudgesFull};
ghost use Rattle.fulljudge.specs.Rises.{full_first_rises, JudgesFullWithRises, full_claimed};
ghost use Rattle.fulljudge.specs.Written.{ComparesText};
ghost use Rattle.fulljudge.specs.Cells.{HasWordsOf, CanBeCounted};
ghost use Rattle.fulljudge.specs.Told.{told};
ghost use Rattle.fulljudge.specs.Worked.{two_arrays};

/// A law: what is judged of the text of words, over a list in which each word has a leaf, makes what is judged of the text over the
/// model that is written out.
pub fn texts_are_judged_by_words()
    ensures { (full : List FullLine) (p : Places) (wide : List Item) (layout : Layout) (celled : List Item)
        (text : List ℕ) (d : Option ℕ) (j : Judgement) → IsWrittenOut full p wide
        → HasWordsOf full p wide layout celled → IsWideModel greatest_width celled → CanBeCounted celled
        → ComparesText full p wide layout celled text d → Judges celled (words_text (full_shape full) text) j
        → JudgesFull full text (judged_by (map (λ (l : Leaf). l.sort) (leaves_of is_state full)) d j) }
{}

/// A law: a list in which each cell of an array has a leaf has a leaf for each word by which a value is told. None of its states has
/// an init line and no next line.
pub fn cells_are_words()
    ensures words { (full : List FullLine) (celled : List Item) (w : IsWrittenInCells full celled)
        → HasWordsOf full w.places w.wide w.cells.layout celled }
    ensures nexts { (full : List FullLine) (celled : List Item) → IsWrittenInCells full celled
        → first_init_without_next celled celled ≡ None }
    ensures model { (full : List FullLine) (celled : List Item) → IsWrittenInCells full celled
        → IsWideModel greatest_width celled }
{}

/// A law: where a text is accepted, each bad property that it claims has a first rise among its frames, one that it does not claim has
/// none, and each bad property of the model stands among the first rises. So a bad property is claimed exactly where it has one.
pub fn accepted_claims_rise()
    ensures claimed { (full : List FullLine) (text : List ℕ) (frames k : ℕ) (firsts : List (Option ℕ))
        → JudgesFullWithRises full text (judgement.Accepted frames) firsts → k < length (lines_of is_bad full)
        → full_claimed full text k ≡ true
        → (first : ℕ) × ((slice_get firsts k ≡ Some (Some first)) × (first < frames)) }
    ensures others { (full : List FullLine) (text : List ℕ) (frames k : ℕ) (firsts : List (Option ℕ))
        → JudgesFullWithRises full text (judgement.Accepted frames) firsts → k < length (lines_of is_bad full)
        → full_claimed full text k ≡ false → slice_get firsts k ≡ Some None }
    ensures many { (full : List FullLine) (text : List ℕ) (frames : ℕ) (firsts : List (Option ℕ))
        → JudgesFullWithRises full text (judgement.Accepted frames) firsts
        → length firsts ≡ length (lines_of is_bad full) }
{}

/// Worked rows: lines of a word of 3 bits, of an array of 4 cells of 2 bits, and of a word of 8 bits, as lines of words.
pub fn worked_lines()
    ensures word { word_line (words 3 ∷ arrays 2 2 ∷ words 8 ∷ []) (codes "0 101 a") ≡ codes "0 101 a" }
    ensures cell { word_line (words 3 ∷ arrays 2 2 ∷ words 8 ∷ []) (codes "1 [10] 01 mem") ≡ codes "3 01 mem" }
    ensures behind { word_line (words 3 ∷ arrays 2 2 ∷ words 8 ∷ []) (codes "2 00000001") ≡ codes "5 00000001" }
    ensures no_address { word_line (words 3 ∷ arrays 2 2 ∷ words 8 ∷ []) (codes "1 01") ≡ [] }
    ensures short_address { word_line (words 3 ∷ arrays 2 2 ∷ words 8 ∷ []) (codes "1 [1] 01") ≡ [] }
    ensures no_value { word_line (words 3 ∷ arrays 2 2 ∷ words 8 ∷ []) (codes "3 01") ≡ [] }
    ensures no_array { word_line (words 3 ∷ arrays 2 2 ∷ words 8 ∷ []) (codes "0 [10] 01") ≡ codes "0 [10] 01" }
{}

/// Worked rows: texts over a model whose states are a bit and an array of 2 cells, and whose inputs are such an array and a word.
pub fn worked_texts()
    // each line is that of a word of its part, and the lines that open parts stay
    ensures parts { words_text two_arrays (codes "sat\nb0\n#0\n1 [1] 01\n@0\n0 [0] 11\n1 101\n.\n")
        ≡ codes "sat\nb0\n#0\n2 01\n@0\n0 11\n2 101\n.\n" }
    // a line that names no word is empty, and what stands behind the last line stays
    ensures none { words_text two_arrays (codes "sat\nb0\n@0\n0 [2] 11\n.") ≡ codes "sat\nb0\n@0\n\n." }
{}

/// Worked rows: an array of which cells 1 and 3 are told behind a word, over 0 and over another.
pub fn worked_told()
    ensures zero { told ((2, 2) ∷ (4, 1) ∷ []) (arrays 2 2) 1 0 ≡ 72 }
    ensures other { told ((2, 2) ∷ (4, 1) ∷ []) (arrays 2 2) 1 255 ≡ 123 }
    ensures word { told ((2, 2) ∷ (4, 1) ∷ []) (words 4) 4 7 ≡ 1 }
    ensures none { told ((2, 2) ∷ (4, 1) ∷ []) (words 4) 5 7 ≡ 7 }
    ensures first { first_index (words 3 ∷ arrays 2 2 ∷ words 8 ∷ []) 2 ≡ 5 }
    ensures owner { value_of_word (words 3 ∷ arrays 2 2 ∷ words 8 ∷ []) 4 ≡ 1 }
{}

/// Worked rows: over a model whose bad property is 1 where the word of the node 12 is, the first of some frames in which it is, where it
/// is claimed.
pub fn worked_first_rises()
    ensures second { full_first_rises memory (0 ∷ []) (memory_frame 0 1 6 5 1 1 0 ∷ memory_frame 0 1 5 5 1 1 1 ∷ memory_frame 0 1 5 5 1 1 1 ∷ [])
        ≡ Some 1 ∷ [] }
    ensures never { full_first_rises memory (0 ∷ []) (memory_frame 0 1 6 5 1 1 0 ∷ []) ≡ None ∷ [] }
    ensures unclaimed { full_first_rises memory [] (memory_frame 0 1 5 5 1 1 1 ∷ []) ≡ None ∷ [] }
{}
