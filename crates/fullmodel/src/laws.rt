//! Laws of models, and worked rows, as functions with no code.
ghost use Rattle.std.specs.Prelude.{◌≡◌, ◌≤◌, ℕ, List, [], ◌∷◌, ◌++◌, None, Some, true, false, is_some};
ghost use Rattle.std.specs.List.{AllByRecursion};
ghost use Rattle.base.specs.declared.operators.Binary.TheVariants as binary;
ghost use Rattle.base.specs.declared.operators.Unary.TheVariants as unary;
ghost use Rattle.btor2.specs.declared.item.Body.TheVariants as body;
ghost use Rattle.btor2.specs.declared.fault.PushFault.TheVariants as push;
ghost use Rattle.btor2.specs.declared.item.Item.{Item};
ghost use Rattle.wide.specs.WideModels.{greatest_width, IsWideModel};
ghost use Rattle.full.specs.Plain.{plain_lines};
ghost use Rattle.full.specs.Lines.{operand, plain, form, array_sort, read, write, FullLine, Operand, operands_of, Sort, sort_size, sort_at, sort_of_node};
ghost use Rattle.full.specs.Agreement.{IsFullModel};
ghost use Rattle.full.specs.Worked.{lines_numbered, memory, filled};
ghost use Rattle.fullmodel.specs.declared.fault.LineFault.TheVariants as fault;
ghost use Rattle.fullmodel.specs.FullModels.{line_refusal, IsAccepted};
ghost use Rattle.fullmodel.specs.Worked.{numbered};

/// Laws of accepted lines: they are a model; each sort, and that of each node, has 1 to 1,048,576 bits; and each operand is a node
/// of the lines before.
pub fn accepted_lines()
    ensures model { (lines : List FullLine) → IsAccepted lines → IsFullModel lines }
    ensures sorts { (lines : List FullLine) (id : ℕ) (s : Sort) → IsAccepted lines
        → sort_at lines id ≡ Some s → (1 ≤ sort_size s) × (sort_size s ≤ greatest_width) }
    ensures nodes { (lines : List FullLine) (id : ℕ) (s : Sort) → IsAccepted lines
        → sort_of_node lines id ≡ Some s → (1 ≤ sort_size s) × (sort_size s ≤ greatest_width) }
    ensures earlier { (before after : List FullLine) (x : FullLine) → IsAccepted (before ++ x ∷ after)
        → AllByRecursion (λ (o : Operand). is_some (sort_of_node before o.id) ≡ true) (operands_of x.says) }
{}

/// A law: the lines of a model of wide words are accepted.
pub fn wide_models_are_accepted()
    ensures { (items : List Item) → IsWideModel greatest_width items → IsAccepted (plain_lines items) }
{}

/// Worked rows: what is refused, and what is not.
#[tactic(auto, unfolding(crate::specs::FullModels::line_refusal, crate::specs::FullModels::id_is_out_of_range, crate::specs::FullModels::id_is_taken, crate::specs::FullModels::sort_is_missing, crate::specs::FullModels::operand_is_missing, crate::specs::FullModels::state_is_none, crate::specs::FullModels::state_has_minus, crate::specs::FullModels::minus_is_at_array, crate::specs::FullModels::width_is_out_of_range, crate::specs::FullModels::is_no_array_sort, crate::specs::FullModels::slice_is_out_of_range, crate::specs::FullModels::sorts_differ, crate::specs::FullModels::constant_does_not_fit, crate::specs::FullModels::is_second_init, crate::specs::FullModels::is_second_next, wide::specs::WideModels::width_is_above, btor2::specs::Check::justice_is_empty))]
pub fn worked_rows()
    ensures memory { IsAccepted memory }
    ensures filled { IsAccepted filled }
    ensures negated { line_refusal (lines_numbered 1 (form (body.Sort 1) [] ∷ array_sort 1 1 ∷ form (body.State 2) [] ∷ []))
        (numbered 4 (form (body.Unary unary.Not 2 3) [])) ≡ Some (fault.Push push.SortMismatch) }
    ensures of_arrays { line_refusal (lines_numbered 1 (form (body.Sort 1) [] ∷ array_sort 1 1 ∷ []))
        (numbered 3 (array_sort 1 2)) ≡ Some fault.ArraySort }
    ensures by_arrays { line_refusal (lines_numbered 1 (form (body.Sort 1) [] ∷ array_sort 1 1 ∷ []))
        (numbered 3 (array_sort 2 1)) ≡ Some fault.ArraySort }
    ensures too_large { line_refusal (lines_numbered 1 (form (body.Sort 16) [] ∷ form (body.Sort 32) [] ∷ []))
        (numbered 3 (array_sort 1 2)) ≡ Some fault.ArraySort }
    ensures largest { line_refusal (lines_numbered 1 (form (body.Sort 16) [] ∷ []))
        (numbered 2 (array_sort 1 1)) ≡ None }
    ensures minus { line_refusal (lines_numbered 1 (form (body.Sort 1) [] ∷ array_sort 1 1 ∷ form (body.State 2) [] ∷ []))
        (numbered 4 (form (body.Next 2 3 3) (false ∷ true ∷ []))) ≡ Some fault.NegativeOperand }
    ensures state_minus { line_refusal (lines_numbered 1 (form (body.Sort 1) [] ∷ form (body.State 1) [] ∷ []))
        (numbered 3 (form (body.Next 1 2 2) (true ∷ false ∷ []))) ≡ Some fault.NegativeOperand }
    ensures equal { line_refusal (lines_numbered 1 (form (body.Sort 1) [] ∷ array_sort 1 1 ∷ form (body.State 2) [] ∷ []))
        (numbered 4 (form (body.Binary binary.Eq 1 3 3) [])) ≡ None }
    ensures wrong_index { line_refusal (lines_numbered 1 (form (body.Sort 1) [] ∷ form (body.Sort 2) [] ∷ array_sort 1 2 ∷ form (body.State 3) [] ∷ form (body.Input 2) [] ∷ []))
        (numbered 6 (read 2 4 (plain 5))) ≡ Some (fault.Push push.SortMismatch) }
    ensures second { line_refusal (lines_numbered 1 (form (body.Sort 1) [] ∷ form (body.State 1) [] ∷ form (body.Init 1 2 2) [] ∷ []))
        (numbered 4 (form (body.Init 1 2 2) [])) ≡ Some (fault.Push push.SecondInit) }
{}
