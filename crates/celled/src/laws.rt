//! Worked rows of cells, as functions with no code.
ghost use Rattle.std.specs.Prelude.{◌≡◌, [], ◌∷◌, Some, None};
ghost use Rattle.fitting.specs.Models.{state_ids};
ghost use Rattle.celled.specs.Celled.{AreCells, IsCelledOf, IsWordOfCells};
ghost use Rattle.celled.specs.Digits.{cell_word};
ghost use Rattle.celled.specs.Names.{cell_names};
ghost use Rattle.celled.specs.Worked.{name, low_name, high_name, memory, memory_named, memory_celled};

/// Worked rows: a cell is named by the leaf's name and its index, and a leaf of one cell keeps its name. The bits 11 01 10 are the cells 2, 1 and 3.
pub fn worked_names()
    ensures cells { cell_names (Some name) (2 ∷ 3 ∷ []) ≡ Some low_name ∷ Some high_name ∷ [] }
    ensures one { cell_names (Some name) (2 ∷ []) ≡ Some name ∷ [] }
    ensures none { cell_names None (2 ∷ 3 ∷ []) ≡ None ∷ None ∷ [] }
    ensures low { cell_word 2 54 0 ≡ 2 }
    ensures middle { cell_word 2 54 1 ≡ 1 }
    ensures high { cell_word 2 54 2 ≡ 3 }
{}

/// Worked rows: four bits are two cells of two bits, and one of four; six are no power of two of cells of two bits.
pub fn worked_sizes()
    ensures two { AreCells memory (state_ids memory) (2 ∷ []) }
    ensures one { AreCells memory (state_ids memory) (4 ∷ []) }
    ensures three { ¬ IsWordOfCells 6 2 }
    ensures missing { ¬ AreCells memory (state_ids memory) [] }
{}

/// Worked rows: the memory has a state for each of its cells. It has not where their names are exchanged, where it stands as it is, or where the cells are said to
/// be of one bit.
pub fn worked_cells()
    ensures celled { IsCelledOf memory [] (2 ∷ []) memory_celled }
    ensures exchanged { ¬ IsCelledOf memory [] (2 ∷ []) (memory_named high_name low_name) }
    ensures whole { ¬ IsCelledOf memory [] (2 ∷ []) memory }
    ensures bits { ¬ IsCelledOf memory [] (1 ∷ []) memory_celled }
{}
