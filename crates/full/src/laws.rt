//! Laws of models of the whole safety language, as functions with no code.
ghost use Rattle.std.specs.Prelude.{◌≡◌, ℕ, ◌+◌, ◌-◌, ◌*◌, ◌/◌, ◌%◌, ◌^◌, ◌<◌, ◌≤◌, List, [], ◌∷◌, ◌++◌, None, Some, length, map, is_some, unwrap_or, Bool, true, false};
ghost use Rattle.std.specs.List.{AllByRecursion, AllZip};
ghost use Rattle.base.specs.declared.operators.Unary.TheVariants as unary;
ghost use Rattle.base.specs.Operator.{unary_value, ite_value, slice_value, concat_value};
ghost use Rattle.btor2.specs.declared.item.Item.{Item};
ghost use Rattle.btor2.specs.declared.item.Body.TheVariants as body;
ghost use Rattle.btor2.specs.declared.item.Body.{Body};
ghost use Rattle.btor2.specs.Items.{find_item, node_sort, operands, is_input, is_state, node_width};
ghost use Rattle.btor2.specs.Lists.{first_init_without_next};
ghost use Rattle.btor2.specs.Check.{IsWellFormed};
ghost use Rattle.btor2.specs.Trace.{Frame, bits_of, line_word, IsFrame, IsTrace, IsInput, IsState, IsInitial};
ghost use Rattle.btor2.specs.Reachability.{model_shows, CanRise};
ghost use Rattle.btor2.specs.Worked.{line};
ghost use Rattle.wide.specs.WideModels.{greatest_width, IsWideModel};
ghost use Rattle.full.specs.Lines.{Operand, operand, words, arrays, plain, form, FullLine, operands_of, is_form, sort_named, sort_of_node, width_of};
ghost use Rattle.full.specs.Agreement.{IsFullModel};
ghost use Rattle.full.specs.Cells.{read_value, write_value, repeat_value};
ghost use Rattle.full.specs.Runs.{word_by, at_place, operand_word, word_of_line, IsFullFrame, LeafFits, LeafSame, SameAtNodes, IsRun, full_shows, CanRiseFull};
ghost use Rattle.full.specs.WrittenOut.{Places, InFrames, read_by, IsCarried, HasWord, HasFirstWord, IsWrittenOut, leaf_words, started, BeginsAs};
ghost use Rattle.full.specs.Gives.{InAllFrames, GivesWord, form_word, OperandsGive, HaveTheirWords};
ghost use Rattle.full.specs.Plain.{plain_lines, same_places};
ghost use Rattle.full.specs.Worked.{memory, negated_memory, memory_frame, memory_written, memory_written_by, memory_places, filled, filled_frame, filled_written, filled_places};

/// A law: where a model is written out as a list of wide items, a bad property can rise by so many frames in the one exactly
/// where it can in the other. Up from the wide list, the words of the run are those at the nodes' places; down to it, the words
/// that it begins with and that are given are those of the leaves.
pub fn bad_properties_rise_alike()
    ensures up { (full : List FullLine) (p : Places) (wide : List Item) (b : ℕ)
        → IsWrittenOut full p wide
        → (h : CanRise wide b) → (g : CanRiseFull full b) × (length g.frames ≡ length h.frames)
        × (g.frames ≡ map (read_by p) h.frames) }
    ensures down { (full : List FullLine) (p : Places) (wide : List Item) (b : ℕ)
        → IsWrittenOut full p wide
        → (h : CanRiseFull full b) → (g : CanRise wide b) × (length g.frames ≡ length h.frames)
        × BeginsAs p wide g.state h.frames × (g.inputs ≡ map (leaf_words p wide) h.frames) }
{}

/// Laws of a list that a model is written out as: it is of words up to the greatest width, and each of its states with an init line
/// has a next line, so it may be fitted.
pub fn written_lists()
    ensures model { (full : List FullLine) (p : Places) (wide : List Item) → IsWrittenOut full p wide
        → IsWideModel greatest_width wide }
    ensures nexts { (full : List FullLine) (p : Places) (wide : List Item) → IsWrittenOut full p wide
        → first_init_without_next wide wide ≡ None }
{}

/// A law: where a model is written out as a list of wide items, the frames of a trace of the list make those of a run of the model
/// that shows the same, and each run of the model is made by the trace from the words of the leaves in its frames.
pub fn runs_and_traces()
    ensures up { (full : List FullLine) (p : Places) (wide : List Item) (state : Frame)
        (inputs gs : List Frame) → IsWrittenOut full p wide
        → IsInitial wide state → AllByRecursion (IsInput wide) inputs → IsTrace wide state inputs gs
        → IsRun full (map (read_by p) gs)
        × (map (full_shows full) (map (read_by p) gs) ≡ map (model_shows wide) gs) }
    ensures down { (full : List FullLine) (p : Places) (wide : List Item) (f : Frame)
        (fs : List Frame) → IsWrittenOut full p wide → IsRun full (f ∷ fs)
        → IsInitial wide (started p.first (leaf_words p wide f) 1)
        × AllByRecursion (IsInput wide) (map (leaf_words p wide) (f ∷ fs)) × ((gs : List Frame)
        × IsTrace wide (started p.first (leaf_words p wide f) 1) (map (leaf_words p wide) (f ∷ fs)) gs
        × AllZip (λ g h. SameAtNodes full (read_by p g) h) gs (f ∷ fs)) }
{}

/// Laws of the frames of a model: there is one with any words at the inputs and the states that fit, two with the same words there
/// have one word at each node, and each node's word is below 2 to its width.
pub fn frames_of_models()
    ensures exists { (lines : List FullLine) (leaves : Frame) → IsFullModel lines
        → AllByRecursion (λ (x : FullLine). LeafFits lines leaves x.id x.says) lines
        → (f : Frame) × IsFullFrame lines f
        × AllByRecursion (λ (x : FullLine). LeafSame f leaves x.id x.says) lines }
    ensures fit { (lines : List FullLine) (f : Frame) → IsFullModel lines → IsFullFrame lines f
        → (id : ℕ) → is_some (sort_of_node lines id) ≡ true → f id < 2 ^ width_of lines id }
    ensures same { (lines : List FullLine) (f g : Frame) → IsFullModel lines
        → AllByRecursion (λ (x : FullLine). LeafSame f g x.id x.says) lines
        → IsFullFrame lines f → IsFullFrame lines g
        → (id : ℕ) → is_some (sort_of_node lines id) ≡ true → f id ≡ g id }
{}

/// Laws of lists of items of words up to the greatest width: as lines they are a model, in which a line that is no leaf gives the
/// word that it gives in a trace, and in whose frames each word fits; the models of the profile are such lists. Where each state
/// with an init line has a next line, the list is written out as itself, and so means as a model what it means by its traces.
pub fn items_as_lines()
    ensures model { (items : List Item) → IsWideModel greatest_width items
        → IsFullModel (plain_lines items) }
    ensures words { (items : List Item) (state input f : Frame) (id : ℕ) (b : Body)
        → is_input b ≡ false → is_state b ≡ false
        → word_of_line (plain_lines items) f id (form b []) ≡ line_word items state input f id b }
    ensures by_form { (items : List Item) (state input f : Frame) (id : ℕ) (b : Body)
        → is_input b ≡ false → is_state b ≡ false
        → line_word items state input f id b
        ≡ word_by (bits_of items id) (at_place (map (bits_of items) (operands b))) (at_place (map f (operands b))) b }
    ensures fit { (items : List Item) (state input f : Frame) → IsWideModel greatest_width items
        → IsState items state → IsInput items input → IsFrame items state input f
        → (id : ℕ) → is_some (node_width items id) ≡ true → f id < 2 ^ bits_of items id }
    ensures profile { (items : List Item) → IsWellFormed items → IsWideModel greatest_width items }
    ensures written { (items : List Item) → IsWideModel greatest_width items
        → first_init_without_next items items ≡ None
        → IsWrittenOut (plain_lines items) same_places items }
    ensures up { (items : List Item) (b : ℕ) → IsWideModel greatest_width items
        → first_init_without_next items items ≡ None
        → (h : CanRise items b)
        → (g : CanRiseFull (plain_lines items) b) × (length g.frames ≡ length h.frames) }
    ensures down { (items : List Item) (b : ℕ) → IsWideModel greatest_width items
        → first_init_without_next items items ≡ None
        → (h : CanRiseFull (plain_lines items) b)
        → (g : CanRise items b) × (length g.frames ≡ length h.frames) }
{}

/// Laws of what a node of a list gives in its frames: more lines behind change nothing, a node gives its own word, the value may be
/// any that is the same in each frame, it fits, and the node of a line that is no leaf gives what the line's form says of its
/// operands' words, or of what they give.
pub fn nodes_give()
    ensures kept { (items more : List Item) (bits : ℕ) (value : Frame → ℕ) (w : ℕ)
        → GivesWord items bits value w → GivesWord (items ++ more) bits value w }
    ensures itself { (items : List Item) (bits w : ℕ) → node_width items w ≡ Some bits
        → GivesWord items bits (λ g. g w) w }
    ensures same { (items : List Item) (bits : ℕ) (value other : Frame → ℕ) (w : ℕ)
        → GivesWord items bits value w → InAllFrames items (λ g. value g ≡ other g)
        → GivesWord items bits other w }
    ensures below { (items : List Item) (bits : ℕ) (value : Frame → ℕ) (w : ℕ)
        → GivesWord items bits value w → InAllFrames items (λ g. value g < 2 ^ bits) }
    ensures line { (items : List Item) (x : Item) (bits : ℕ) → find_item items x.id ≡ Some x
        → node_width items x.id ≡ Some bits → is_some (node_sort x.body) ≡ true
        → is_input x.body ≡ false → is_state x.body ≡ false
        → AllByRecursion (λ a. is_some (node_width items a) ≡ true) (operands x.body)
        → GivesWord items bits (λ g. form_word items bits g x.body) x.id }
    ensures form { (items : List Item) (x : Item) (bits : ℕ) (values : List (ℕ × (Frame → ℕ)))
        → find_item items x.id ≡ Some x
        → node_width items x.id ≡ Some bits → is_some (node_sort x.body) ≡ true
        → is_input x.body ≡ false → is_state x.body ≡ false
        → OperandsGive items (operands x.body) values
        → GivesWord items bits (λ g. unwrap_or (word_by bits (at_place (map (λ v. v.0) values))
        (at_place (map (λ v. v.1 g) values)) x.body) 0) x.id }
{}

/// Laws of which lines are carried: one whose node gives the word that the line gives, one of a form whose node is of the same form
/// and of operands that have the words of the line's, an input and a state whose node is as wide,
/// and one that has no node; which nodes have the word of an operand, without a minus and with one; and which have the first word
/// of a state, by a value of its sort and by a word of an array's element.
pub fn lines_by_nodes()
    ensures carried { (full : List FullLine) (p : Places) (wide : List Item) (x : FullLine) (bits : ℕ)
        (value : Frame → ℕ) → IsWideModel greatest_width wide → GivesWord wide bits value (p.node x.id)
        → InFrames wide (λ g. word_of_line full (read_by p g) x.id x.says ≡ Some (value g))
        → IsCarried full p wide x }
    ensures form { (full : List FullLine) (p : Places) (wide : List Item) (x : FullLine) (b : Body)
        (minuses : List Bool) (y : Item) → x.says ≡ form b minuses
        → p.node x.id ≡ y.id → find_item wide y.id ≡ Some y
        → node_width wide y.id ≡ Some (width_of full x.id)
        → is_input b ≡ false → is_state b ≡ false → is_input y.body ≡ false → is_state y.body ≡ false
        → ((n : ℕ) (width word : ℕ → ℕ) → word_by n width word y.body ≡ word_by n width word b)
        → HaveTheirWords full p wide (operands_of (form b minuses)) (operands y.body)
        → IsCarried full p wide x }
    ensures input { (full : List FullLine) (p : Places) (wide : List Item) (x : FullLine)
        → IsWideModel greatest_width wide → is_form is_input x.says ≡ true
        → node_width wide (p.node x.id) ≡ Some (width_of full x.id) → IsCarried full p wide x }
    ensures state { (full : List FullLine) (p : Places) (wide : List Item) (x : FullLine)
        → IsWideModel greatest_width wide → is_form is_state x.says ≡ true
        → node_width wide (p.node x.id) ≡ Some (width_of full x.id) → IsCarried full p wide x }
    ensures no_node { (full : List FullLine) (p : Places) (wide : List Item) (x : FullLine)
        → is_some (sort_named x.says) ≡ false → IsCarried full p wide x }
    ensures plain { (full : List FullLine) (p : Places) (wide : List Item) (id : ℕ)
        → HasWord full p wide (plain id) (p.node id) }
    ensures minus { (full : List FullLine) (p : Places) (wide : List Item) (id bits w : ℕ)
        → IsWideModel greatest_width wide → width_of full id ≡ bits
        → GivesWord wide bits (λ g. unary_value unary.Not bits (g (p.node id))) w
        → HasWord full p wide (operand id true) w }
    ensures first { (full : List FullLine) (p : Places) (wide : List Item) (t w : ℕ) (o : Operand)
        → sort_of_node full o.id ≡ sort_of_node full t → HasWord full p wide o w
        → HasFirstWord full p wide t o w }
    ensures cells { (full : List FullLine) (p : Places) (wide : List Item) (t w k n m : ℕ) (o : Operand)
        → sort_of_node full t ≡ Some (arrays k n) → sort_of_node full o.id ≡ Some (words m)
        → InFrames wide (λ g. g w ≡ repeat_value n (2 ^ k) (operand_word full (read_by p g) o))
        → HasFirstWord full p wide t o w }
{}

/// Laws of arrays: what is read behind what is written, what an array with one word in all cells holds, and that arrays with the
/// same cells are one word.
pub fn cells_hold()
    ensures written { (n a i v : ℕ) → v < 2 ^ n → read_value n (write_value n a i v) i ≡ v }
    ensures below { (n a i j v : ℕ) → j < i
        → read_value n (write_value n a i v) j ≡ read_value n a j }
    ensures above { (n a i j v : ℕ) → v < 2 ^ n → i < j
        → read_value n (write_value n a i v) j ≡ read_value n a j }
    ensures repeated { (n c i v : ℕ) → v < 2 ^ n → i < c → read_value n (repeat_value n c v) i ≡ v }
    ensures same { (c n a b : ℕ) → a < 2 ^ (c * n) → b < 2 ^ (c * n)
        → ((i : ℕ) → i < c → read_value n a i ≡ read_value n b i) → a ≡ b }
{}

/// Laws of arrays: what is read is of the width of a cell, and what is written and what is repeated of the width of the array.
pub fn cells_fit()
    ensures read { (n a i : ℕ) → read_value n a i < 2 ^ n }
    ensures write { (c n a i v : ℕ) → i < c → a < 2 ^ (c * n) → v < 2 ^ n
        → write_value n a i v < 2 ^ (c * n) }
    ensures repeat { (n c v : ℕ) → v < 2 ^ n → repeat_value n c v < 2 ^ (c * n) }
{}

/// Laws of an array of one cell, which is the cell's word.
pub fn one_cell()
    ensures read { (n a : ℕ) → a < 2 ^ n → read_value n a 0 ≡ a }
    ensures write { (n a v : ℕ) → a < 2 ^ n → write_value n a 0 v ≡ v }
    ensures repeat { (n v : ℕ) → repeat_value n 1 v ≡ v }
{}

/// Laws of an array of 2 ^ (k + 1) cells: it is its high half before its low half, one of which the top bit of an index chooses,
/// and the other bits are the index in it. So is what is read of the chosen half, and what is written the half with the word there
/// in its place.
pub fn arrays_by_halves()
    ensures halves { (k n a : ℕ) → 1 ≤ n → a < 2 ^ (2 ^ (k + 1) * n)
        → a ≡ concat_value (slice_value a (2 ^ (k + 1) * n - 1) (2 ^ k * n)) (2 ^ k * n)
        (slice_value a (2 ^ k * n - 1) 0) }
    ensures read { (k n a i : ℕ) → 1 ≤ n → i < 2 ^ (k + 1) → a < 2 ^ (2 ^ (k + 1) * n)
        → read_value n a i ≡ ite_value (slice_value i k k)
        (read_value n (slice_value a (2 ^ (k + 1) * n - 1) (2 ^ k * n)) (i % 2 ^ k))
        (read_value n (slice_value a (2 ^ k * n - 1) 0) (i % 2 ^ k)) }
    ensures write { (k n a i v : ℕ) → 1 ≤ n → i < 2 ^ (k + 1) → a < 2 ^ (2 ^ (k + 1) * n)
        → write_value n a i v ≡ concat_value (ite_value (slice_value i k k)
        (write_value n (slice_value a (2 ^ (k + 1) * n - 1) (2 ^ k * n)) (i % 2 ^ k) v)
        (slice_value a (2 ^ (k + 1) * n - 1) (2 ^ k * n))) (2 ^ k * n)
        (ite_value (slice_value i k k) (slice_value a (2 ^ k * n - 1) 0)
        (write_value n (slice_value a (2 ^ k * n - 1) 0) (i % 2 ^ k) v)) }
    ensures read_chosen { (k n a i : ℕ) → 1 ≤ n → i < 2 ^ (k + 1) → a < 2 ^ (2 ^ (k + 1) * n)
        → read_value n a i ≡ read_value n (ite_value (slice_value i k k)
        (slice_value a (2 ^ (k + 1) * n - 1) (2 ^ k * n)) (slice_value a (2 ^ k * n - 1) 0)) (i % 2 ^ k) }
    ensures write_chosen { (k n a i v w : ℕ) → 1 ≤ n → i < 2 ^ (k + 1) → a < 2 ^ (2 ^ (k + 1) * n)
        → w ≡ write_value n (ite_value (slice_value i k k)
        (slice_value a (2 ^ (k + 1) * n - 1) (2 ^ k * n)) (slice_value a (2 ^ k * n - 1) 0)) (i % 2 ^ k) v
        → write_value n a i v ≡ concat_value
        (ite_value (slice_value i k k) w (slice_value a (2 ^ (k + 1) * n - 1) (2 ^ k * n))) (2 ^ k * n)
        (ite_value (slice_value i k k) (slice_value a (2 ^ k * n - 1) 0) w) }
    ensures repeat { (k n v : ℕ)
        → repeat_value n (2 ^ (k + 1)) v ≡ concat_value (repeat_value n (2 ^ k) v) (2 ^ k * n)
        (repeat_value n (2 ^ k) v) }
    ensures index { (k i : ℕ) → 1 ≤ k → slice_value i (k - 1) 0 ≡ i % 2 ^ k }
{}

/// Laws of an array before another of so many cells of n bits: a cell of the other, and one behind it.
pub fn arrays_side_by_side()
    ensures read_low { (c n hi lo i : ℕ) → lo < 2 ^ (c * n) → i < c
        → read_value n (concat_value hi (c * n) lo) i ≡ read_value n lo i }
    ensures read_high { (c n hi lo j : ℕ) → lo < 2 ^ (c * n)
        → read_value n (concat_value hi (c * n) lo) (c + j) ≡ read_value n hi j }
    ensures write_low { (c n hi lo i v : ℕ) → lo < 2 ^ (c * n) → i < c
        → write_value n (concat_value hi (c * n) lo) i v
        ≡ concat_value hi (c * n) (write_value n lo i v) }
    ensures write_high { (c n hi lo j v : ℕ) → lo < 2 ^ (c * n)
        → write_value n (concat_value hi (c * n) lo) (c + j) v
        ≡ concat_value (write_value n hi j v) (c * n) lo }
    ensures repeat { (n c d v : ℕ)
        → repeat_value n (c + d) v ≡ concat_value (repeat_value n c v) (d * n) (repeat_value n d v) }
{}

/// Laws of cells as slices: a cell, what is below it, and what is above it.
pub fn cells_as_slices()
    ensures cell { (n a i : ℕ) → 1 ≤ n
        → read_value n a i ≡ slice_value a (n * i + n - 1) (n * i) }
    ensures below { (n a i : ℕ) → 1 ≤ n → 1 ≤ i → a % 2 ^ (n * i) ≡ slice_value a (n * i - 1) 0 }
    ensures above { (c n a i : ℕ) → 1 ≤ n → i + 1 < c → a < 2 ^ (c * n)
        → a / 2 ^ (n * (i + 1)) ≡ slice_value a (c * n - 1) (n * (i + 1)) }
{}

/// Worked rows: an array of four cells of two bits, 1, 2, 3 and 0 from the lowest on.
pub fn worked_cells()
    ensures first { read_value 2 57 0 ≡ 1 }
    ensures second { read_value 2 57 1 ≡ 2 }
    ensures third { read_value 2 57 2 ≡ 3 }
    ensures fourth { read_value 2 57 3 ≡ 0 }
    ensures cleared { write_value 2 57 1 0 ≡ 49 }
    ensures set { write_value 2 57 3 2 ≡ 185 }
    ensures repeated { repeat_value 2 4 3 ≡ 255 }
{}

/// Worked rows: which lines are models, runs of a memory, and frames that are none: one in which what was written is lost, one in
/// which a state does not begin with the word of its init line, and one with the cell of an operand without its minus.
pub fn worked_runs()
    ensures model { IsFullModel memory }
    ensures no_model { ¬ IsFullModel negated_memory }
    ensures first { IsRun memory (memory_frame 1 3 0 12 3 0 0 ∷ memory_frame 0 1 12 13 3 3 1 ∷ []) }
    ensures second { IsRun memory (memory_frame 0 1 0 1 1 0 0 ∷ memory_frame 1 0 1 1 0 1 0 ∷ []) }
    ensures lost { ¬ IsRun memory (memory_frame 1 3 0 12 3 0 0 ∷ memory_frame 0 1 0 1 3 0 0 ∷ []) }
    ensures other_begin { ¬ IsRun memory (memory_frame 1 3 0 12 2 0 0 ∷ []) }
    ensures no_minus { ¬ IsRun memory (memory_frame 1 3 12 12 3 3 1 ∷ []) }
    ensures rises { (h : CanRiseFull memory 0) × (length h.frames ≡ 2) }
{}

/// Worked rows: an array that begins with one word in each cell, that of an operand with a minus, and keeps it. It is written out as
/// it is, with a constant of all cells; it is not with a constant of the operand's word without its minus.
pub fn worked_init()
    ensures model { IsFullModel filled }
    ensures begins { IsRun filled (filled_frame 5 ∷ filled_frame 5 ∷ []) }
    ensures begins_otherwise { ¬ IsRun filled (filled_frame 10 ∷ []) }
    ensures written { IsWrittenOut filled filled_places (filled_written 5) }
    ensures otherwise { ¬ IsWrittenOut filled filled_places (filled_written 10) }
{}

/// Worked rows: the memory is written out with words alone. It is not with the words of the choice exchanged, where the state that
/// is 1 in the first frame alone keeps its word, where another line names it, or where there is none.
pub fn worked_writing()
    ensures written { IsWrittenOut memory memory_places memory_written }
    ensures exchanged { ¬ IsWrittenOut memory memory_places (memory_written_by (body.Ite 2 8 7 5) (body.Next 1 8 10)) }
    ensures kept { ¬ IsWrittenOut memory memory_places (memory_written_by (body.Ite 2 8 5 7) (body.Next 1 8 9)) }
    ensures named { ¬ IsWrittenOut memory memory_places (memory_written ++ line 24 (body.Unary unary.Not 1 8) ∷ []) }
    ensures without { ¬ IsWrittenOut memory (record memory_places { first = None }) memory_written }
{}

/// Worked rows: the choice of the written memory gives the first word or the state, of two bits and not of three.
pub fn worked_choice()
    ensures gives { GivesWord memory_written 2 (λ g. ite_value (g 8) (g 5) (g 7)) 13 }
    ensures no_wider { ¬ GivesWord memory_written 3 (λ g. g 13) 13 }
{}
