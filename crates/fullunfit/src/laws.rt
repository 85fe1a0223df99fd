//! Laws of witnesses over models of the whole language, and worked rows, as functions with no code.
ghost use Rattle.std.specs.Prelude.{◌≡◌, ◌<◌, ◌^◌, ℕ, Bool, true, false, List, [], ◌∷◌, Ok, Some, None, codes};
ghost use Rattle.base.specs.Lines.{text_of_lines};
ghost use Rattle.btor2.specs.declared.item.Item.{Item};
ghost use Rattle.fit.specs.Fitting.{Layout};
ghost use Rattle.full.specs.Lines.{FullLine, Sort, words, arrays};
ghost use Rattle.full.specs.WrittenOut.{Places};
ghost use Rattle.witness.specs.Admits.{Read, read_text, witness_of};
ghost use Rattle.witness.specs.Texts.{Shape, shape_of, witness_lines};
ghost use Rattle.spread.specs.Spread.{spread_text};
ghost use Rattle.unfit.specs.Joined.{Names, join_witness};
ghost use Rattle.fulljudge.specs.Compared.{StateWords};
ghost use Rattle.fulljudge.specs.Judged.{IsJudgeable};
ghost use Rattle.fulljudge.specs.Shapes.{full_shape};
ghost use Rattle.fulljudge.specs.Kept.{words_in};
ghost use Rattle.fulljudge.specs.Lines.{words_text};
ghost use Rattle.fulljudge.specs.Worked.{two_arrays};
ghost use Rattle.fullunfit.specs.Titles.{word_fronts, word_symbols};
ghost use Rattle.fullunfit.specs.Unfitted.{by_values, told_witness, unfit_full_text};
ghost use Rattle.fullunfit.specs.Worked.{narrow, written, begun_written};

/// A law: of a witness the words by which the text with values tells these are the lines of what `unfit` makes of it over the list in
/// which each word has a leaf, with the names of the values, without the words that are not told.
pub fn values_are_told_by_words()
    ensures { (states inputs : List Sort) (w : StateWords) (shape : Shape) (names : Names) (named : Bool) (narrow : List Item)
        (full : List FullLine) (p : Places) (wide : List Item) (layout : Layout) (celled : List Item) (text : List ℕ) (r : Read)
        → IsJudgeable states inputs w shape narrow full p wide layout celled → words_in states < 2 ^ 64 → words_in inputs < 2 ^ 64
        → read_text (shape_of narrow) text ≡ Ok r
        → words_text (full_shape full) (unfit_full_text states inputs shape names named w narrow text)
        ≡ text_of_lines (witness_lines (shape_of celled) [] (told_witness (by_values states inputs shape names named w)
        (join_witness (by_values states inputs shape names named w).wide narrow (witness_of r)))) }
{}

/// Worked rows: what stands beside the digits of the words of a word of 3 bits, of an array of 4 cells, and of a word of 8 bits.
pub fn worked_titles()
    ensures fronts { word_fronts (words 3 ∷ arrays 2 2 ∷ words 8 ∷ [])
        ≡ codes "0" ∷ codes "1 [00]" ∷ codes "1 [01]" ∷ codes "1 [10]" ∷ codes "1 [11]" ∷ codes "2" ∷ [] }
    ensures one_cell { word_fronts (arrays 0 2 ∷ words 1 ∷ []) ≡ codes "0 []" ∷ codes "1" ∷ [] }
    ensures symbols { word_symbols (words 3 ∷ arrays 1 2 ∷ words 8 ∷ []) (Some (codes "a") ∷ Some (codes "mem") ∷ None ∷ [])
        ≡ Some (codes "a") ∷ Some (codes "mem") ∷ Some (codes "mem") ∷ None ∷ [] }
{}

/// Worked rows: texts over a model whose states are a bit and an array of 2 cells of 2 bits, and whose inputs are such an array and a
/// word of 3 bits, of those over the list with a leaf for each cell.
pub fn worked_texts()
    // the cells of an array have its name, and what is told by index is told by value
    ensures named { written true (codes "sat\nb0\n#0\n0 1\n2 01\n@0\n0 11\n2 101\n@1\n1 10\n.\n")
        ≡ codes "sat\nb0\n#0\n0 1 t@0\n1 [1] 01 mem@0\n@0\n0 [0] 11 in@0\n1 101\n@1\n0 [1] 10 in@1\n.\n" }
    ensures unnamed { written false (codes "sat\nb0\n#0\n1 01\n@0\n2 101\n.\n")
        ≡ codes "sat\nb0\n#0\n1 [0] 01\n@0\n1 101\n.\n" }
    // of a faulty text the parts are said that are closed before the faulty line
    ensures faulty { written true (codes "sat\nb0\n@0\n0 11\n@1\n0 1\n.\n") ≡ codes "sat\nb0\n@0\n0 [0] 11 in@0\n" }
    // where no claim is made nothing is said
    ensures no_claim { written true (codes "unsat\n") ≡ [] }
    // of an array that begins with no constant nothing is told in the first frame, nor ever of a state that is none of the model's
    ensures begun { begun_written true (codes "sat\nb0\n#0\n0 1\n2 01\n3 1\n@0\n#1\n2 01\n3 0\n@1\n.\n")
        ≡ codes "sat\nb0\n#0\n0 1 t@0\n@0\n#1\n1 [1] 01 mem@1\n@1\n.\n" }
{}

/// Worked rows: by its words the text of values says what it was made of, and is spread to that over a list with words of few bits.
pub fn worked_returns()
    ensures words { words_text two_arrays (codes "sat\nb0\n#0\n1 [1] 01 mem@0\n@0\n0 [0] 11 in@0\n1 101\n.\n")
        ≡ codes "sat\nb0\n#0\n2 01 mem@0\n@0\n0 11 in@0\n2 101\n.\n" }
    ensures spread { spread_text (shape_of narrow) (words_text two_arrays (codes "sat\nb0\n#0\n1 [1] 01 mem@0\n@0\n0 [0] 11 in@0\n1 101\n.\n"))
        ≡ codes "sat\nb0\n#0\n2 01\n@0\n0 11\n2 101\n.\n" }
{}
