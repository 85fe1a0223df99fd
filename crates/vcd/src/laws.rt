//! Laws of dumps, and worked rows, as functions with no code.
ghost use Rattle.std.specs.Prelude.{◌≡◌, ℕ, true, false, List, [], ◌∷◌, ◌++◌, Some, codes, slice_get};
ghost use Rattle.base.specs.Lines.{text_of_lines};
ghost use Rattle.btor2.specs.declared.item.Item.{Item};
ghost use Rattle.btor2.specs.Check.{IsWellFormed};
ghost use Rattle.btor2.specs.Trace.{Frame};
ghost use Rattle.btor2.specs.Worked.{toggler_model, follower};
ghost use Rattle.witness.specs.ClosedWords.{IsClosedTrace};
ghost use Rattle.vcd.specs.declared.scope.Scope.{Scope};
ghost use Rattle.vcd.specs.declared.scope.Scope.TheVariants as scope;
ghost use Rattle.vcd.specs.declared.scope.Shown.{Shown};
ghost use Rattle.vcd.specs.declared.scope.Shown.TheVariants as shown;
ghost use Rattle.vcd.specs.Names.{ends_in_number, escaped, title_bytes};
ghost use Rattle.vcd.specs.Signals.{signals_in, signal_name};
ghost use Rattle.vcd.specs.Dumps.{declaration_lines, vcd_text};
ghost use Rattle.vcd.specs.Worked.{many_names, alike, names_in, one_word};

/// Worked rows: plain names and names that are escaped, and a title that could end its comment.
pub fn worked_names()
    ensures plain { escaped (codes "top.a_1") ≡ codes "top.a_1" }
    ensures range { escaped (codes "mem[3]") ≡ codes "\\mem[3]" }
    ensures colon { escaped (codes "a:b") ≡ codes "\\a:b" }
    ensures word { escaped (codes "$end") ≡ codes "\\$end" }
    ensures digit { escaped (codes "1st") ≡ codes "\\1st" }
    ensures slash { escaped (codes "\\a") ≡ codes "\\\\a" }
    ensures title { title_bytes (codes "m.btor2 $end\nw") ≡ codes "m.btor2 _end_w" }
{}

/// Worked rows: which names end in a number, as those do that are told apart.
pub fn worked_numbers()
    ensures id { ends_in_number (codes "a#3") ≡ true }
    ensures twice { ends_in_number (codes "a#b#12") ≡ true }
    ensures mark { ends_in_number (codes "a#") ≡ true }
    ensures letter { ends_in_number (codes "a#3b") ≡ false }
    ensures digits { ends_in_number (codes "a3") ≡ false }
    ensures nothing { ends_in_number [] ≡ false }
{}

/// Worked rows: the names of signals. A second `a` of a scope is told apart, and so are the input without a symbol whose code
/// an earlier one has for a symbol, and a symbol that could be that of the second `a`; the state `a` is in another scope.
/// Properties and constraints have their numbers where they have no symbol, each among its own.
pub fn worked_signal_names()
    ensures inputs { names_in shown.Named alike scope.Inputs
        ≡ codes "a" ∷ codes "\\a#3" ∷ codes "n5" ∷ codes "\\n5#5" ∷ codes "\\a#3#6" ∷ codes "\\a#b"
        ∷ [] }
    ensures states { names_in shown.Named alike scope.States ≡ codes "a" ∷ [] }
    ensures bads { names_in shown.Named alike scope.Bads
        ≡ codes "\\bad:1" ∷ codes "\\bad:1#11" ∷ codes "\\bad:2" ∷ [] }
    ensures constraints { names_in shown.Named alike scope.Constraints
        ≡ codes "\\constraint:kept" ∷ codes "\\constraint:1" ∷ [] }
    ensures outputs { names_in shown.Named alike scope.Outputs ≡ codes "\\bad:2" ∷ [] }
    ensures all { names_in shown.All toggler_model scope.Nodes ≡ codes "n2" ∷ codes "n5" ∷ [] }
{}

/// A law: two signals of a scope of a model have two names.
pub fn names_tell_signals()
    ensures { (s : Shown) (items : List Item) (c : Scope) (i j : ℕ) (x y : Item)
        → IsWellFormed items → slice_get (signals_in s items c) i ≡ Some x
        → slice_get (signals_in s items c) j ≡ Some y → signal_name s items c x
        ≡ signal_name s items c y
        → i ≡ j }
{}

/// Worked rows: the declarations of a model with names, with the nodes that have one and with all.
pub fn worked_declarations()
    ensures named { text_of_lines (declaration_lines shown.Named (codes "m") many_names)
        ≡ codes
        "$comment m $end\n$timescale 1 ns $end\n$scope module inputs $end\n$var wire 4 n3 top.a_1 [3:0] $end\n$var wire 4 n5 \\$end [3:0] $end\n$upscope $end\n$scope module states $end\n$var wire 4 n4 \\mem[3] [3:0] $end\n$upscope $end\n$scope module bad $end\n$var wire 1 n8 \\bad:reached $end\n$upscope $end\n$scope module constraints $end\n$upscope $end\n$scope module outputs $end\n$var wire 4 n9 n9 [3:0] $end\n$upscope $end\n$scope module nodes $end\n$var wire 1 n7 \\1st $end\n$upscope $end\n$enddefinitions $end\n" }
    ensures all { text_of_lines (declaration_lines shown.All [] toggler_model)
        ≡ codes
        "$comment  $end\n$timescale 1 ns $end\n$scope module inputs $end\n$upscope $end\n$scope module states $end\n$var wire 1 n3 n3 $end\n$upscope $end\n$scope module bad $end\n$var wire 1 n7 \\bad:0 $end\n$upscope $end\n$scope module constraints $end\n$upscope $end\n$scope module outputs $end\n$upscope $end\n$scope module nodes $end\n$var wire 1 n2 n2 $end\n$var wire 1 n5 n5 $end\n$upscope $end\n$enddefinitions $end\n" }
{}

/// Worked rows: the dump of no frame is the declarations alone; the first frame of a dump has all words, a later one those
/// that changed, and a moment stands behind the last.
pub fn worked_dumps()
    ensures none { vcd_text shown.Named (codes "m") many_names []
        ≡ text_of_lines (declaration_lines shown.Named (codes "m") many_names) }
    ensures changes { vcd_text shown.Named (codes "m") many_names
        (one_word 3 5 ∷ one_word 3 5 ∷ one_word 7 1 ∷ [])
        ≡ text_of_lines (declaration_lines shown.Named (codes "m") many_names)
        ++ codes
        "#0\nb0101 n3\nb0000 n5\nb0000 n4\n0n8\nb0000 n9\n0n7\n#1\n#2\nb0000 n3\n1n8\n1n7\n#3\n" }
{}

/// Worked rows: the dumps of texts over the model of one bit that toggles, and over the model in which one state follows a
/// free one, by their closed frames.
pub fn worked_texts()
    ensures toggles { (fs : List Frame)
        → IsClosedTrace toggler_model (codes "sat\nb0\n@0\n@1\n.\n") fs
        → vcd_text shown.Named [] toggler_model fs
        ≡ text_of_lines (declaration_lines shown.Named [] toggler_model)
        ++ codes "#0\n0n3\n0n7\n#1\n1n3\n1n7\n#2\n" }
    ensures cut { (fs : List Frame) → IsClosedTrace toggler_model (codes "sat\nb0\n@0\n@1\n@3\n") fs
        → vcd_text shown.Named [] toggler_model fs
        ≡ text_of_lines (declaration_lines shown.Named [] toggler_model)
        ++ codes "#0\n0n3\n0n7\n#1\n" }
    ensures no_claim { (fs : List Frame) → IsClosedTrace toggler_model (codes "unsat\n") fs
        → vcd_text shown.Named [] toggler_model fs
        ≡ text_of_lines (declaration_lines shown.Named [] toggler_model) }
    ensures follows { (fs : List Frame)
        → IsClosedTrace follower (codes "sat\nb0\n#0\n0 1\n@0\n#1\n0 0\n@1\n.\n") fs
        → vcd_text shown.Named [] follower fs
        ≡ text_of_lines (declaration_lines shown.Named [] follower)
        ++ codes "#0\n0n4\n1n2\n0n3\n0n6\n#1\n0n2\n1n3\n1n6\n#2\n" }
{}

/// A law: over a well-formed model the closed frames of a text have a trace, and any two have one dump.
pub fn exactly_one_dump()
    ensures exists { (items : List Item) (text : List ℕ) → IsWellFormed items → (fs : List Frame)
        × IsClosedTrace items text fs }
    ensures unique { (s : Shown) (title : List ℕ) (items : List Item) (text : List ℕ)
        (fs gs : List Frame) → IsWellFormed items → IsClosedTrace items text fs
        → IsClosedTrace items text gs
        → vcd_text s title items fs ≡ vcd_text s title items gs }
{}
