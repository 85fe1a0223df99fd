//! Theorems on the definitions of models and traces, as functions with no code.
ghost use Rattle.std.specs.Prelude.{◌≡◌, ℕ, ◌==◌, if◌then◌else◌, false, ◌<◌, ◌≤◌, ◌^◌, true, List, [], ◌∷◌, ◌++◌, length, None, Some, is_some, pos, negsuc};
ghost use Rattle.base.specs.declared.operators.Unary.TheVariants as unary;
ghost use Rattle.base.specs.declared.operators.Binary.TheVariants as binary;
ghost use Rattle.btor2.specs.declared.item.Item.{Item};
ghost use Rattle.btor2.specs.declared.item.Body.TheVariants as body;
ghost use Rattle.btor2.specs.declared.fault.PushFault.TheVariants as fault;
ghost use Rattle.btor2.specs.Items.{node_width, names_state, next_value, is_free};
ghost use Rattle.btor2.specs.Check.{IsWellFormed, refusal};
ghost use Rattle.btor2.specs.Lists.{first_init_without_next};
ghost use Rattle.btor2.specs.declared.leaves.Leaves.TheVariants as leaves;
ghost use Rattle.btor2.specs.Leaves.{kind_of, is_leaf_at, leaf_width, kind_width};
ghost use Rattle.btor2.specs.Trace.{Frame, bits_of, IsFrame, IsInput, IsState, IsTrace, SameTrace, next_state, InputFits, StateFits};
ghost use Rattle.btor2.specs.Worked.{line, toggler_model, counter, open_ends, follower, shapes, nibble};

/// A law: from carried words and a list of given words a model has exactly one trace.
pub fn exactly_one_trace()
    ensures exists { (items : List Item) (state : Frame) (inputs : List Frame) → IsWellFormed items
        → (fs : List Frame) × IsTrace items state inputs fs }
    ensures unique { (items : List Item) (state : Frame) (inputs fs gs : List Frame)
        → IsWellFormed items
        → IsTrace items state inputs fs → IsTrace items state inputs gs → SameTrace items fs gs }
{}

/// A law: from carried words and given words that fit their widths, each node's word fits its width, and so do the
/// state words of the next frame where each state that is not free has a next.
pub fn words_fit()
    ensures frame { (items : List Item) (state input f : Frame) → IsWellFormed items
        → IsState items state
        → IsInput items input → IsFrame items state input f
        → (id : ℕ) → is_some (node_width items id) ≡ true → f id < 2 ^ bits_of items id }
    ensures next { (items : List Item) (state input f : Frame) → IsWellFormed items
        → IsState items state
        → IsInput items input → IsFrame items state input f
        → ((id : ℕ) → names_state items id ≡ true → is_free items id ≡ false
        → is_some (next_value items id) ≡ true)
        → IsState items (next_state items f) }
{}

/// Worked rows: the frames of a model of one bit that toggles.
pub fn worked_traces()
    ensures is_model { IsWellFormed toggler_model }
    ensures first { (f : Frame) → IsFrame toggler_model (λ id. 0) (λ id. 0) f
        → (f 3 ≡ 0) × (f 5 ≡ 1) × (next_state toggler_model f 3 ≡ 1) }
    ensures second { (f g : Frame) → IsTrace toggler_model (λ id. 0) ((λ id. 0) ∷ (λ id. 0) ∷ [])
        (f ∷ g ∷ [])
        → (g 3 ≡ 1) × (g 5 ≡ 0) × (next_state toggler_model g 3 ≡ 0) }
{}

/// Worked rows: the last frame of a counter of two bits, and the words of nodes of each shape where the input is 9 and where
/// it is 5.
pub fn worked_words()
    ensures counter_is_model { IsWellFormed counter }
    ensures counts { (f : Frame) → IsFrame counter (λ id. 2) (λ id. 0) f
        → (f 6 ≡ 3) × (f 9 ≡ 0) × (next_state counter f 4 ≡ 3) }
    ensures ends { (f : Frame) → IsFrame counter (λ id. 3) (λ id. 0) f
        → (f 6 ≡ 0) × (f 9 ≡ 1) × (next_state counter f 4 ≡ 0) }
    ensures shapes_is_model { IsWellFormed shapes }
    ensures of_9 { (f : Frame) → IsFrame shapes (λ id. 0) (λ id. 9) f
        → (f 5 ≡ 249) × (f 6 ≡ 9) × (f 7 ≡ 1) × (f 8 ≡ 153) × (f 9 ≡ 249) }
    ensures of_5 { (f : Frame) → IsFrame shapes (λ id. 0) (λ id. 5) f
        → (f 5 ≡ 5) × (f 7 ≡ 0) × (f 8 ≡ 85) × (f 9 ≡ 5) }
    ensures constants { (f : Frame) → IsFrame shapes (λ id. 0) (λ id. 5) f
        → (f 10 ≡ 8) × (f 11 ≡ 15) × (f 12 ≡ 15) × (f 13 ≡ 1) }
{}

/// A law: in a frame a state that is not free has the word that is carried, and a free one the word that is given. So
/// where each state has a next, all of them have the words that are carried, whatever words are given to states.
pub fn words_of_states()
    ensures carried { (items : List Item) (state input f : Frame) (id : ℕ)
        → IsFrame items state input f
        → names_state items id ≡ true → is_free items id ≡ false → f id ≡ state id }
    ensures free { (items : List Item) (state input f : Frame) (id : ℕ)
        → IsFrame items state input f
        → names_state items id ≡ true → is_free items id ≡ true → f id ≡ input id }
    ensures with_next { (items : List Item) (state input f : Frame) (id : ℕ)
        → IsFrame items state input f
        → names_state items id ≡ true → is_some (next_value items id) ≡ true → f id ≡ state id }
{}

/// A law: a state with a next line asks nothing of the words that are given in a frame, and asks of those that are
/// carried that its word fits its width. So where each state has a next, given words are words of the inputs alone,
/// and carried words are words of all states.
pub fn words_that_fit_states()
    ensures given { (items : List Item) (input : Frame) (id sort : ℕ)
        → is_some (next_value items id) ≡ true
        → InputFits items input id (body.State sort) }
    ensures carried { (items : List Item) (state : Frame) (id sort : ℕ)
        → is_some (next_value items id) ≡ true
        → StateFits items state id (body.State sort) → state id < 2 ^ bits_of items id }
{}

/// Worked rows: of the states of two models those that are free, and the first that has an init line and no next line:
/// neither in the toggler, whose state has both; the first state of the second model is free, its second has a next
/// line alone and its third an init line alone.
pub fn worked_free_states()
    ensures toggler { is_free toggler_model 3 ≡ false }
    ensures neither { is_free open_ends 3 ≡ true }
    ensures next_alone { is_free open_ends 4 ≡ false }
    ensures init_alone { is_free open_ends 5 ≡ false }
    ensures open_ends_is_model { IsWellFormed open_ends }
    ensures each_has_next { first_init_without_next toggler_model toggler_model ≡ None }
    ensures third_has_none { first_init_without_next open_ends open_ends ≡ Some 5 }
{}

/// Worked rows: two frames of a model in which one state follows another that is free. The free one has the words that
/// are given, 1 and then 0; the other follows it, whatever is given to it.
pub fn worked_given_words()
    ensures is_model { IsWellFormed follower }
    ensures traces { (f g : Frame) → IsTrace follower (λ id. 0) ((λ id. 1) ∷ (λ id. 0) ∷ [])
        (f ∷ g ∷ [])
        → (f 2 ≡ 1) × (f 3 ≡ 0) × (g 2 ≡ 0) × (g 3 ≡ 1) × (next_state follower g 3 ≡ 0) }
    ensures is_carried { (f : Frame) → IsFrame follower (λ id. 1) (λ id. 0) f → (f 2 ≡ 0)
        × (f 3 ≡ 1) }
    ensures fits { IsInput follower (λ id. 1) }
    ensures too_wide { IsInput follower (λ id. if id == 2 then 2 else 0) → ⊥ }
    ensures carried_fits { IsState follower (λ id. if id == 3 then 1 else 2) }
    ensures carried_too_wide { IsState follower (λ id. 2) → ⊥ }
{}

/// Worked rows: which items of a model are leaves of a kind, by their places, and how many bits they have; of a free state, one
/// that follows it and an input, and of a state of two bits.
pub fn worked_leaves()
    ensures free { is_leaf_at follower leaves.Free 1 ≡ true }
    ensures not_carried { is_leaf_at follower leaves.Carried 1 ≡ false }
    ensures carried { leaf_width follower leaves.Carried 2 ≡ 1 }
    ensures input { leaf_width follower leaves.Inputs 3 ≡ 1 }
    ensures not_an_input { leaf_width follower leaves.Inputs 2 ≡ 0 }
    ensures two_bits { kind_width counter (kind_of counter leaves.Carried) counter ≡ 2 }
    ensures none_free { kind_width counter (kind_of counter leaves.Free) counter ≡ 0 }
{}

/// Worked rows: an item for each row of the table of refusals.
#[tactic(auto, unfolding(crate::specs::Check::refusal, crate::specs::Check::id_is_out_of_range, crate::specs::Check::id_is_taken, crate::specs::Check::sort_is_missing, crate::specs::Check::operand_is_missing, crate::specs::Check::state_is_none, crate::specs::Check::width_is_out_of_range, crate::specs::Check::slice_is_out_of_range, crate::specs::Check::widths_differ, crate::specs::Check::constant_does_not_fit, crate::specs::Check::init_is_not_constant, crate::specs::Check::is_second_init, crate::specs::Check::is_second_next, crate::specs::Check::justice_is_empty))]
pub fn worked_refusals()
    ensures too_many_items { (items : List Item) (x : Item) → 1048576 ≤ length items
        → refusal items x ≡ Some fault.TooManyItems }
    ensures id_out_of_range { refusal nibble (line 0 (body.Zero 1)) ≡ Some fault.IdOutOfRange }
    ensures id_above_range { refusal nibble (line 4294967296 (body.Zero 1))
        ≡ Some fault.IdOutOfRange }
    ensures id_taken { refusal nibble (line 2 (body.Zero 9)) ≡ Some fault.IdTaken }
    ensures no_such_sort { refusal nibble (line 3 (body.Unary unary.Not 9 2))
        ≡ Some fault.NoSuchSort }
    ensures no_such_node { refusal nibble (line 3 (body.Unary unary.Not 1 1))
        ≡ Some fault.NoSuchNode }
    ensures not_a_state { refusal nibble (line 3 (body.Init 1 2 2)) ≡ Some fault.NotAState }
    ensures width_out_of_range { refusal nibble (line 3 (body.Sort 0))
        ≡ Some fault.WidthOutOfRange }
    ensures width_above_range { refusal nibble (line 3 (body.Sort 65))
        ≡ Some fault.WidthOutOfRange }
    ensures sort_mismatch { refusal nibble (line 3 (body.Bad 2)) ≡ Some fault.SortMismatch }
    ensures slice_out_of_range { refusal nibble (line 3 (body.Slice 1 2 4 0))
        ≡ Some fault.SliceOutOfRange }
    ensures slice_turned_round { refusal nibble (line 3 (body.Slice 1 2 0 1))
        ≡ Some fault.SliceOutOfRange }
    ensures far_too_wide { refusal nibble (line 3 (body.Uext 1 2 18446744073709551615))
        ≡ Some fault.SortMismatch }
    ensures choice_by_a_word { refusal nibble (line 3 (body.Ite 1 2 2 2))
        ≡ Some fault.SortMismatch }
    ensures single_bits_alone { refusal nibble (line 3 (body.Binary binary.Iff 1 2 2))
        ≡ Some fault.SortMismatch }
    ensures five_digits { refusal nibble (line 3 (body.Const 1 5 0))
        ≡ Some fault.ConstantDoesNotFit }
    ensures digits_too_few { refusal nibble (line 3 (body.Const 1 4 16))
        ≡ Some fault.ConstantDoesNotFit }
    ensures decimal_above { refusal nibble (line 3 (body.Constd 1 (pos 16)))
        ≡ Some fault.ConstantDoesNotFit }
    ensures decimal_greatest { refusal nibble (line 3 (body.Constd 1 (pos 15))) ≡ None }
    ensures decimal_below { refusal nibble (line 3 (body.Constd 1 (negsuc 8)))
        ≡ Some fault.ConstantDoesNotFit }
    ensures decimal_least { refusal nibble (line 3 (body.Constd 1 (negsuc 7))) ≡ None }
    ensures hex_too_long { refusal nibble (line 3 (body.Consth 1 17 0))
        ≡ Some fault.ConstantDoesNotFit }
    ensures hex_too_great { refusal nibble (line 3 (body.Consth 1 2 16))
        ≡ Some fault.ConstantDoesNotFit }
    ensures init_not_constant { refusal (nibble ++ line 3 (body.State 1) ∷ [])
        (line 4 (body.Init 1 3 2))
        ≡ Some fault.InitNotConstant }
    ensures second_init { refusal toggler_model (line 8 (body.Init 1 3 2)) ≡ Some fault.SecondInit }
    ensures second_next { refusal toggler_model (line 8 (body.Next 1 3 3)) ≡ Some fault.SecondNext }
    ensures justice_empty { refusal nibble (line 3 (body.Justice [])) ≡ Some fault.JusticeEmpty }
    ensures accepted { refusal nibble (line 3 (body.Unary unary.Not 1 2)) ≡ None }
{}
