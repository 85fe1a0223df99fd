//! Laws of lists that grow, as functions with no code.
ghost use Rattle.std.specs.Prelude.{◌≡◌, ℕ, ◌+◌, ◌-◌, ◌<◌, ◌≤◌, List, [], ◌∷◌, ◌++◌, Option, None, Some, length, slice_get, is_some, unwrap_or, true, false, ◌==◌};
ghost use Rattle.std.specs.List.{AllByRecursion, list_all};
ghost use Rattle.base.specs.declared.operators.Unary.TheVariants as unary;
ghost use Rattle.btor2.specs.declared.item.Item.{Item};
ghost use Rattle.btor2.specs.declared.item.Body.{Body};
ghost use Rattle.btor2.specs.declared.item.Body.TheVariants as body;
ghost use Rattle.btor2.specs.Items.{find_item, node_sort, operands, node_width, sort_width, width_of_body, names_state, constant_of, init_value, next_value};
ghost use Rattle.btor2.specs.Trace.{Frame, bits_of};
ghost use Rattle.btor2.specs.Check.{widths_agree, slice_is_out_of_range};
ghost use Rattle.wide.specs.WideModels.{greatest_width, constant_fits_within};
ghost use Rattle.full.specs.Gives.{InAllFrames, GivesWord};
ghost use Rattle.btor2.specs.Worked.{line};
ghost use Rattle.cells.specs.Kept.{IsSound};
ghost use Rattle.cells.specs.Worked.{one_input};
ghost use Rattle.cells.specs.Lines.{named, is_plain, IsNumbered, IsAmong, MayNameAll, Extends};

/// Laws of lists that go on: such steps follow each other, a list goes on by nothing and by a plain line, no new line names an
/// earlier node that was not handed over, and sorts, nodes and what they give stay.
pub fn lists_go_on()
    ensures twice { (a b c : List Item) (handed also : List ℕ) → Extends a b handed → Extends b c also
        → MayNameAll (length a) handed also → Extends a c handed }
    ensures same { (items : List Item) (handed : List ℕ) → Extends items items handed }
    ensures line { (items : List Item) (id : ℕ) (symbol : Option (List ℕ)) (b : Body) (handed : List ℕ)
        → is_plain b ≡ true → MayNameAll (length items) handed (operands b)
        → Extends items (items ++ named id symbol b ∷ []) handed }
    ensures apart { (old new : List Item) (handed : List ℕ) (w : ℕ) → (e : Extends old new handed)
        → w ≤ length old → ¬ IsAmong w handed
        → AllByRecursion (λ (x : Item). AllByRecursion (λ a. (a == w) ≡ false) (operands x.body)) e.more }
    ensures longer { (old new : List Item) (handed : List ℕ) → Extends old new handed
        → length old ≤ length new }
    ensures sorts { (old new : List Item) (handed : List ℕ) (s n : ℕ) → Extends old new handed
        → sort_width old s ≡ Some n → sort_width new s ≡ Some n }
    ensures nodes { (old new : List Item) (handed : List ℕ) (a n : ℕ) → Extends old new handed
        → node_width old a ≡ Some n → node_width new a ≡ Some n }
    ensures frames { (old new : List Item) (handed : List ℕ) (value other : Frame → ℕ) → Extends old new handed
        → InAllFrames old (λ g. value g ≡ other g) → InAllFrames new (λ g. value g ≡ other g) }
    ensures gives { (old new : List Item) (handed : List ℕ) (bits : ℕ) (value : Frame → ℕ) (w : ℕ)
        → Extends old new handed → GivesWord old bits value w → GivesWord new bits value w }
{}

/// Laws of lists whose ids are their places from 1 on: how an item is found, that the id behind them is free, and that an id of
/// one is at most how many there are.
pub fn ids_are_places()
    ensures found { (items : List Item) (k : ℕ) → IsNumbered items
        → find_item items (k + 1) ≡ slice_get items k }
    ensures free { (items : List Item) (id : ℕ) → IsNumbered items → length items < id
        → find_item items id ≡ None }
    ensures within { (items : List Item) (id : ℕ) → IsNumbered items → is_some (find_item items id) ≡ true
        → (1 ≤ id) × (id ≤ length items) }
    ensures last { (items : List Item) (id : ℕ) (symbol : Option (List ℕ)) (b : Body)
        → find_item items id ≡ None
        → find_item (items ++ named id symbol b ∷ []) id ≡ Some (named id symbol b) }
    ensures width { (items : List Item) (id n : ℕ) (symbol : Option (List ℕ)) (b : Body)
        → find_item items id ≡ None → width_of_body items b ≡ Some n
        → node_width (items ++ named id symbol b ∷ []) id ≡ Some n }
{}

/// Laws of lines that no row refuses for what they say: a sort, a node of a sort that is there, whose operands are there and
/// whose widths agree, the lines of a state, and those of properties and outputs.
pub fn lines_are_sound()
    ensures sort { (items : List Item) (n : ℕ) → 1 ≤ n → n ≤ greatest_width → IsSound items (body.Sort n) }
    ensures node { (items : List Item) (b : Body) (s n : ℕ) → node_sort b ≡ Some s → sort_width items s ≡ Some n
        → list_all (λ a. is_some (node_width items a)) (operands b) ≡ true
        → slice_is_out_of_range items b ≡ false
        → widths_agree (λ k. unwrap_or (sort_width items k) 0) (bits_of items) b ≡ true
        → constant_fits_within greatest_width n b ≡ true → IsSound items b }
    ensures input { (items : List Item) (s n : ℕ) → sort_width items s ≡ Some n → IsSound items (body.Input s) }
    ensures state { (items : List Item) (s n : ℕ) → sort_width items s ≡ Some n → IsSound items (body.State s) }
    ensures init { (items : List Item) (s t v n w : ℕ) → names_state items t ≡ true
        → constant_of items v ≡ Some w → init_value items t ≡ None → sort_width items s ≡ Some n
        → node_width items t ≡ Some n → node_width items v ≡ Some n → IsSound items (body.Init s t v) }
    ensures next { (items : List Item) (s t v n : ℕ) → names_state items t ≡ true
        → next_value items t ≡ None → sort_width items s ≡ Some n
        → node_width items t ≡ Some n → node_width items v ≡ Some n → IsSound items (body.Next s t v) }
    ensures bad { (items : List Item) (a : ℕ) → node_width items a ≡ Some 1 → IsSound items (body.Bad a) }
    ensures constraint { (items : List Item) (a : ℕ) → node_width items a ≡ Some 1
        → IsSound items (body.Constraint a) }
    ensures output { (items : List Item) (a n : ℕ) → node_width items a ≡ Some n
        → IsSound items (body.Output a) }
{}

/// Worked rows: how a list of a sort and an input goes on by a negation of the input, which names what was handed over; by no leaf;
/// which lists are numbered, and which lines are sound.
pub fn worked_lists()
    ensures negated { Extends one_input (one_input ++ line 3 (body.Unary unary.Not 1 2) ∷ []) (2 ∷ []) }
    ensures not_handed { ¬ Extends one_input (one_input ++ line 3 (body.Unary unary.Not 1 2) ∷ []) [] }
    ensures leaf { ¬ Extends one_input (one_input ++ line 3 (body.Input 1) ∷ []) [] }
    ensures numbered { IsNumbered one_input }
    ensures not_numbered { ¬ IsNumbered (line 2 (body.Sort 1) ∷ []) }
    ensures sound { IsSound [] (body.Sort 1) }
    ensures not_sound { ¬ IsSound [] (body.Input 1) }
{}
