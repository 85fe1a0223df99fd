//! That the models of the profile are those of words up to 64 bits, and worked rows, as functions with no code.
ghost use Rattle.std.specs.Prelude.{◌≡◌, [], ◌∷◌, None, Some, List, ℕ, negsuc};
ghost use Rattle.base.specs.declared.operators.Binary.TheVariants as binary;
ghost use Rattle.btor2.specs.declared.item.Item.{Item};
ghost use Rattle.btor2.specs.declared.item.Body.TheVariants as body;
ghost use Rattle.btor2.specs.declared.fault.PushFault.TheVariants as fault;
ghost use Rattle.btor2.specs.Check.{refusal, IsWellFormed};
ghost use Rattle.btor2.specs.Worked.{line, items_numbered};
ghost use Rattle.wide.specs.Lines.{number_of_digits};
ghost use Rattle.wide.specs.WideModels.{greatest_width, wide_refusal, IsWideModel};

/// With 64 as the greatest width the rows are those of a model of the profile.
pub fn profile_is_narrow()
    ensures refused { (items : List Item) (x : Item) → wide_refusal 64 items x ≡ refusal items x }
    ensures models { (items : List Item) → IsWellFormed items → IsWideModel 64 items }
{}

/// Worked rows: what is refused, and what is not.
#[tactic(auto, unfolding(crate::specs::WideModels::wide_refusal, crate::specs::WideModels::width_is_above, crate::specs::WideModels::constant_is_above, btor2::specs::Check::id_is_out_of_range, btor2::specs::Check::id_is_taken, btor2::specs::Check::sort_is_missing, btor2::specs::Check::operand_is_missing, btor2::specs::Check::state_is_none, btor2::specs::Check::slice_is_out_of_range, btor2::specs::Check::widths_differ, btor2::specs::Check::init_is_not_constant, btor2::specs::Check::is_second_init, btor2::specs::Check::is_second_next, btor2::specs::Check::justice_is_empty))]
pub fn worked_rows()
    ensures widest { wide_refusal greatest_width [] (line 1 (body.Sort 1048576)) ≡ None }
    ensures too_wide { wide_refusal greatest_width [] (line 1 (body.Sort 1048577))
        ≡ Some fault.WidthOutOfRange }
    ensures no_bits { wide_refusal greatest_width [] (line 1 (body.Sort 0))
        ≡ Some fault.WidthOutOfRange }
    ensures sum { wide_refusal greatest_width (items_numbered 1 (body.Sort 128 ∷ body.Input 1 ∷ []))
        (line 3 (body.Binary binary.Add 1 2 2)) ≡ None }
    ensures part { wide_refusal greatest_width (items_numbered 1 (body.Sort 128 ∷ body.Input 1 ∷ body.Sort 1 ∷ []))
        (line 4 (body.Slice 3 2 127 127)) ≡ None }
    ensures beyond { wide_refusal greatest_width (items_numbered 1 (body.Sort 128 ∷ body.Input 1 ∷ body.Sort 1 ∷ []))
        (line 4 (body.Slice 3 2 128 128)) ≡ Some fault.SliceOutOfRange }
    ensures digits { wide_refusal greatest_width (items_numbered 1 (body.Sort 128 ∷ []))
        (line 2 (body.Consth 1 32 340282366920938463463374607431768211455)) ≡ None }
    ensures more_digits { wide_refusal greatest_width (items_numbered 1 (body.Sort 128 ∷ []))
        (line 2 (body.Consth 1 33 340282366920938463463374607431768211456)) ≡ Some fault.ConstantDoesNotFit }
    ensures least { wide_refusal greatest_width (items_numbered 1 (body.Sort 65 ∷ []))
        (line 2 (body.Constd 1 (negsuc 18446744073709551615))) ≡ None }
    ensures below_least { wide_refusal greatest_width (items_numbered 1 (body.Sort 65 ∷ []))
        (line 2 (body.Constd 1 (negsuc 18446744073709551616))) ≡ Some fault.ConstantDoesNotFit }
{}

/// Worked rows: numbers by digits of 64 bits.
pub fn worked_numbers()
    ensures one { number_of_digits (1 ∷ []) ≡ 1 }
    ensures second { number_of_digits (0 ∷ 1 ∷ []) ≡ 18446744073709551616 }
    ensures none { number_of_digits [] ≡ 0 }
{}
